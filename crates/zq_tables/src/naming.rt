//! The numbers, the queryables and the interests of every open face, and the keys on which routers of a region have an entry.
ghost use Rattle.std.specs.Prelude.{◌≡◌, ◌<◌, [], false, None, Some, IfErr, IfOk, IfNone, IfSome, OnOk, OnErr, not, true, is_none, is_some, option_copied, length, slice_get};
ghost use Rattle.std.specs.Map.{keys_of};
ghost use Rattle.zq_key.specs.Key.{is_key as key_of};
ghost use Rattle.zq_message.specs.Region.{HasIndex, region_index};
ghost use Rattle.zq_tables.specs.FaceIds.{next_id};
ghost use Rattle.zq_tables.specs.FaceTexts.{IsReason, declared_key};
ghost use Rattle.zq_tables.specs.Holding.{are_numbers, held_keys, with_first_key, with_key, without_key, without_keys};
ghost use Rattle.zq_tables.specs.Naming.{AreEntryRows, best, change_naming, closed_naming, declare_refusal, face_interests, face_keys, face_naming, face_queryables, has_context as has_context_of, has_entry_key, no_keys, no_naming, opened_naming, read_by, said_of, text_at, with_entry_key, with_interest, with_name, with_queryable, with_told_number, without_entry_key, without_interest, without_name, without_queryable, without_sent};

use crate::choice::{plain, whole};
use crate::face_nodes::FaceNodes;
use crate::held::{Faces, declare_at, first_at, is_settled, node_at, put_at, put_given, take_at};
use crate::hold::{let_go, take_hold};
use crate::holder::Holder;
use crate::number::{remaps, said_plainly, said_under};
use crate::resolved::Resolved;
use crate::rows::{EntryNodes, find, put, take};
use crate::{DeclKey, FaceNames, region_to_index};
use std::alloc::Global;
use std::collections::BTreeMap;
use std::marker::Model;
use zq_key::memory::OutOfMemory;
use zq_key::message::{FaceId, Mapping, Region, WireExpr};
use zq_key::text::Text;
use zq_key::{Key, is_key};
use zq_names::{NameRefusal, Names, nonwild};

/// The numbers, the queryables and the interests of every open face, and the keys on which routers
/// of a region have an entry, which hold the nodes that they stand for. An interest without a key
/// holds none; the entries of a region on one key hold its node once. A node goes with its last
/// hold.
pub struct Naming {
    names: Names,
    faces: Faces,
    rows: EntryNodes,
    alloc: Global,
}

impl Drop for Naming {
    fn drop(self) {
        let Naming {
            names,
            faces,
            rows,
            alloc,
        } = self;
    }
}

impl Model for Naming {
    ghost use Rattle.zq_tables.specs.Naming.{NamingState};
    ghost use Rattle.zq_tables.specs.Holding.{IsHeld, texts_by};

    ghost Value = { NamingState };

    ghost view = { λ s. texts_by s.names s.faces.entries s.rows.entries };

    ghost invariant = { λ s. IsHeld s.names s.faces.entries s.rows.entries };
}

impl Naming {
    /// No face is open, and no router has an entry.
    pub fn new(alloc: Global) -> Result<Naming, OutOfMemory>
        ensures { IfOk result (λ n. n ≡ no_naming) }
    {
        Ok(Naming {
            names: Names::new(alloc)?,
            faces: BTreeMap::new(alloc),
            rows: BTreeMap::new(alloc),
            alloc,
        })
    }

    /// A face is opened, with no numbers, no queryables and no interests.
    pub fn open(&mut self, face: FaceId) -> Result<(), OutOfMemory>
        ensures ok { OnOk result (self.new ≡ opened_naming face.0 self.old) }
        ensures err { OnErr result (self.new ≡ self.old) }
    {
        // the faces stand in order, so that a face that is open stays at its place
        let _open = self.faces.len();
        if self.faces.contains_key(&face.0) {
            self.give_up(face);
            return Ok(());
        }
        match self.faces.insert(face.0, FaceNodes::new(self.alloc)) {
            Ok(_) => Ok(()),
            Err(_) => Err(OutOfMemory),
        }
    }

    /// A face is closed, and gives up its numbers, its queryables and its interests. It takes no
    /// memory.
    pub fn close(&mut self, face: FaceId)
        ensures { self.new ≡ closed_naming face.0 self.old }
    {
        self.give_up(face);
        let _ = self.faces.remove(&face.0);
    }

    // The least id of a holder of the face.
    fn first(&self, face: FaceId, holder: Holder) -> Option<u32>
        ensures first { result ≡ slice_get (keys_of (held_keys holder (face_keys face.0 self.now))) 0 }
        ensures none { IfNone result (held_keys holder (face_keys face.0 self.now) ≡ []) }
    {
        first_at(&self.faces, face.0, holder)
    }

    // An id of a holder of the face is let go, and its node goes with its last hold.
    fn release(&mut self, face: FaceId, holder: Holder, id: u32)
        ensures { self.new ≡ change_naming face.0 (without_key holder id) self.old }
    {
        let Some(node) = take_at(&mut self.faces, face.0, holder, id) else {
            return;
        };
        let_go(&mut self.names, node);
    }

    // All ids of a holder of the face are let go.
    fn release_all(&mut self, face: FaceId, holder: Holder)
        ensures { self.new ≡ change_naming face.0 (without_keys holder) self.old }
    {
        while let Some(id) = self.first(face, holder) {
            self.release(face, holder, id);
        }
    }

    // The face gives up all that stands for keys there.
    fn give_up(&mut self, face: FaceId)
        ensures { self.new ≡ change_naming face.0 (λ _. no_keys) self.old }
    {
        self.release_all(face, Holder::Number(Mapping::Sender));
        self.release_all(face, Holder::Number(Mapping::Receiver));
        self.release_all(face, Holder::Queryable);
        self.release_all(face, Holder::Interest);
    }

    /// What an expression says that the face sends.
    pub fn said(&self, face: FaceId, wire: &WireExpr) -> Result<Resolved, OutOfMemory>
        ensures { IfOk result (λ s. s ≡ said_of (face_naming face.0 self.now) wire.now) }
    {
        if wire.scope == 0 {
            return said_plainly(self.alloc, wire.suffix.as_str());
        }
        match self.faces.get(&face.0) {
            Some(nodes) => said_under(self.alloc, &self.names, nodes.numbers(), wire),
            None => Ok(Resolved::Unscoped),
        }
    }

    fn best_of(&self, face: FaceId, text: &Text) -> Result<WireExpr, OutOfMemory>
        ensures { IfOk result (λ w. w ≡ best (face_naming face.0 self.now) text.now) }
    {
        match self.faces.get(&face.0) {
            Some(nodes) => {
                let numbers = nodes.numbers();
                if numbers.is_empty() {
                    return plain(self.alloc, text);
                }
                numbers.best(self.alloc, &self.names, text)
            }
            None => plain(self.alloc, text),
        }
    }

    /// The text as it is handed to the face (upstream's `get_best_key`): by the number of the
    /// longest part of whole chunks that has one, a number of the face before one of the gateway
    /// and the least of several, else whole, which may share the memory of the text.
    #[tactic(auto, using(crate::proofs::Reading::answer_reads))]
    pub fn best(&self, face: FaceId, text: &Text) -> Result<WireExpr, OutOfMemory>
        ensures key { IfOk result (λ w. w ≡ best (face_naming face.0 self.now) text.now) }
        ensures reads { 0 < length text.now → IfOk result (λ w. read_by (face_naming face.0 self.now) w ≡ Resolved.Full text.now) }
    {
        self.best_of(face, text)
    }

    /// Whether the text, or one of which it is a part that ends before a `/`, is what a number, a
    /// queryable or an interest of an open face stands for, or the key of a router's entry: whether
    /// the names have its node. The root has none.
    pub fn has_context(&self, text: &str) -> bool
        ensures { result ≡ has_context_of text.now self.now }
    {
        if text.is_empty() {
            return false;
        }
        self.names.get_resource(self.names.root(), text).is_some()
    }

    /// What a number of the face stands for.
    pub fn standing(&self, face: FaceId, id: u16) -> Option<&str>
        ensures { option_copied result ≡ text_at id (face_naming face.0 self.now).theirs }
    {
        match node_at(
            &self.faces,
            face.0,
            Holder::Number(Mapping::Sender),
            id as u32,
        ) {
            Some(node) => Some(self.names.expr(node)),
            None => None,
        }
    }

    // A number that is none or that stands for the key stands for it from then on.
    fn put_number(&mut self, face: FaceId, id: u16, text: &str) -> Result<(), OutOfMemory>
        requires key { key_of text.now ≡ true }
        requires number { 0 < id }
        requires free { IfSome (text_at id (face_naming face.0 self.old).theirs) (λ t. t ≡ text.now) }
        ensures ok { OnOk result (self.new ≡ change_naming face.0 (with_name id text.now) self.old) }
        ensures err { OnErr result (self.new ≡ self.old) }
    {
        // so many faces at most bound how often a node is held
        let _open = self.faces.len();
        if is_settled(
            &self.faces,
            face.0,
            Holder::Number(Mapping::Sender),
            id as u32,
        ) {
            return Ok(());
        }
        let wire = whole(Text::new(self.alloc, text)?);
        let node = declare_at(
            self.alloc,
            &mut self.names,
            &mut self.faces,
            face.0,
            id,
            &wire,
        )?;
        self.names.hold(node);
        Ok(())
    }

    /// The face declares a number for a text, which it stands for from then on. Refused where the
    /// text is no key, and where the number is 0 or stands for another text. A face that is not
    /// open declares none.
    pub fn declare(&mut self, face: FaceId, id: u16, text: &str) -> Result<(), NameRefusal>
        ensures accepted { OnOk result (declare_refusal id text.now (face_naming face.0 self.old) ≡ None) }
        ensures reason { IfErr result (IsReason (declare_refusal id text.now (face_naming face.0 self.old))) }
        ensures ok { OnOk result (self.new ≡ change_naming face.0 (with_name id text.now) self.old) }
        ensures err { OnErr result (self.new ≡ self.old) }
    {
        if !is_key(text) {
            return Err(NameRefusal::InvalidKeyExpr);
        }
        if remaps(id, text, self.standing(face, id)) {
            return Err(NameRefusal::Remapped);
        }
        match self.put_number(face, id, text) {
            Ok(()) => Ok(()),
            Err(_) => Err(NameRefusal::OutOfMemory),
        }
    }

    /// The face gives a number up, and its node goes with its last hold. It takes no memory. A face
    /// that is not open has none.
    pub fn undeclare(&mut self, face: FaceId, id: u16)
        ensures { self.new ≡ change_naming face.0 (without_name id) self.old }
    {
        self.release(face, Holder::Number(Mapping::Sender), id as u32);
    }

    // The key under which a text would be declared to the face.
    fn chosen(
        &self,
        face: FaceId,
        text: &str,
        local: bool,
        may: bool,
    ) -> Result<DeclKey, OutOfMemory>
        ensures { IfOk result (λ d. d ≡ declared_key (face_naming face.0 self.now) local may text.now) }
    {
        match self.faces.get(&face.0) {
            Some(nodes) => nodes
                .numbers()
                .chosen_key(self.alloc, &self.names, text, local, may),
            None => {
                let none = FaceNames::new(self.alloc);
                none.chosen_key(self.alloc, &self.names, text, local, may)
            }
        }
    }

    // The least free number of the face stands for a key from then on, where the face is open.
    fn put_given(&mut self, face: FaceId, id: u16, key: &str) -> Result<(), OutOfMemory>
        requires key { key_of key.now ≡ true }
        requires next { next_id (face_naming face.0 self.old).theirs (face_naming face.0 self.old).ours ≡ Some id }
        ensures ok { OnOk result (self.new ≡ change_naming face.0 (with_key (Holder.Number Mapping.Receiver) id key.now) self.old) }
        ensures err { OnErr result (self.new ≡ self.old) }
    {
        // so many faces at most bound how often a node is held
        let _open = self.faces.len();
        if is_settled(
            &self.faces,
            face.0,
            Holder::Number(Mapping::Receiver),
            id as u32,
        ) {
            return Ok(());
        }
        let node = take_hold(&mut self.names, key)?;
        match put_given(&mut self.faces, face.0, id, node) {
            Ok(()) => Ok(()),
            Err(refusal) => {
                let_go(&mut self.names, node);
                Err(refusal)
            }
        }
    }

    /// The key under which a text is declared to the face: by a number of its part without a `*`,
    /// by a new number for that part, or whole. A new number stands for the part from then on; it
    /// has to be declared to the face before the key is used. `local` is whether the face is local,
    /// and `may` whether it may have a new number. (`Resource::decl_key`)
    pub fn declared(
        &mut self,
        face: FaceId,
        text: &str,
        local: bool,
        may: bool,
    ) -> Result<DeclKey, OutOfMemory>
        requires { key_of text.now ≡ true }
        ensures key { IfOk result (λ d. d ≡ declared_key (face_naming face.0 self.old) local may text.now) }
        ensures ok { IfOk result (λ d. self.new ≡ change_naming face.0 (with_told_number text.now d.declared) self.old) }
        ensures fresh { IfOk result (λ d. IfSome d.declared (λ id. text_at id (face_naming face.0 self.old).ours ≡ None)) }
        ensures err { OnErr result (self.new ≡ self.old) }
    {
        let key = self.chosen(face, text, local, may)?;
        let Some(id) = key.declared else {
            return Ok(key);
        };
        self.put_given(face, id, nonwild(text))?;
        Ok(key)
    }

    /// The gateway gives up a number that it declared to the face, and its node goes with its last
    /// hold. It takes no memory. A face that is not open has none.
    pub fn take_back(&mut self, face: FaceId, id: u16)
        ensures { self.new ≡ change_naming face.0 (without_sent Mapping.Receiver id) self.old }
    {
        self.release(face, Holder::Number(Mapping::Receiver), id as u32);
    }

    // Whether an id of a holder of the face holds a node.
    fn holds(&self, face: FaceId, holder: Holder, id: u32) -> bool
        ensures { result ≡ is_some (text_at id (held_keys holder (face_keys face.0 self.now))) }
    {
        node_at(&self.faces, face.0, holder, id).is_some()
    }

    // An id of a holder of the face, which is no number, holds the node of a key from then on; one
    // that holds a node keeps it. Answers whether it held none before.
    fn hold(
        &mut self,
        face: FaceId,
        holder: Holder,
        id: u32,
        key: &Key,
    ) -> Result<bool, OutOfMemory>
        requires unnumbered { are_numbers holder ≡ false }
        ensures fresh { IfOk result (λ b. b ≡ is_none (text_at id (held_keys holder (face_keys face.0 self.old)))) }
        ensures ok { OnOk result (self.new ≡ change_naming face.0 (with_first_key holder id key.now) self.old) }
        ensures err { OnErr result (self.new ≡ self.old) }
    {
        // so many faces at most bound how often a node is held
        let _open = self.faces.len();
        let fresh = !self.holds(face, holder, id);
        if is_settled(&self.faces, face.0, holder, id) {
            return Ok(fresh);
        }
        let node = take_hold(&mut self.names, key.as_str())?;
        match put_at(&mut self.faces, face.0, holder, id, node) {
            Ok(()) => Ok(fresh),
            Err(refusal) => {
                let_go(&mut self.names, node);
                Err(refusal)
            }
        }
    }

    /// Whether a queryable of the face holds the node of its key.
    pub fn holds_queryable(&self, face: FaceId, id: u32) -> bool
        ensures { result ≡ is_some (text_at id (face_queryables face.0 self.now)) }
    {
        self.holds(face, Holder::Queryable, id)
    }

    /// The face declares a queryable, which holds the node of its key from then on; one of that id
    /// keeps the key that it has. Answers whether none of that id held a node before. A face that
    /// is not open declares none.
    pub fn hold_queryable(&mut self, face: FaceId, id: u32, key: &Key) -> Result<bool, OutOfMemory>
        ensures fresh { IfOk result (λ b. b ≡ is_none (text_at id (face_queryables face.0 self.old))) }
        ensures ok { OnOk result (self.new ≡ change_naming face.0 (with_queryable id key.now) self.old) }
        ensures err { OnErr result (self.new ≡ self.old) }
    {
        self.hold(face, Holder::Queryable, id, key)
    }

    /// The face withdraws a queryable, and its node goes with its last hold. It takes no memory. A
    /// face that is not open has none.
    pub fn release_queryable(&mut self, face: FaceId, id: u32)
        ensures { self.new ≡ change_naming face.0 (without_queryable id) self.old }
    {
        self.release(face, Holder::Queryable, id);
    }

    /// Whether an interest of the face holds the node of its key.
    pub fn holds_interest(&self, face: FaceId, id: u32) -> bool
        ensures { result ≡ is_some (text_at id (face_interests face.0 self.now)) }
    {
        self.holds(face, Holder::Interest, id)
    }

    /// The face declares an interest with a key, which holds the node of its key from then on; one
    /// of that id keeps the key that it has. Answers whether none of that id held a node before. A
    /// face that is not open declares none.
    pub fn hold_interest(&mut self, face: FaceId, id: u32, key: &Key) -> Result<bool, OutOfMemory>
        ensures fresh { IfOk result (λ b. b ≡ is_none (text_at id (face_interests face.0 self.old))) }
        ensures ok { OnOk result (self.new ≡ change_naming face.0 (with_interest id key.now) self.old) }
        ensures err { OnErr result (self.new ≡ self.old) }
    {
        self.hold(face, Holder::Interest, id, key)
    }

    /// The face withdraws an interest, and its node goes with its last hold. It takes no memory. A
    /// face that is not open has none, and an interest without a key holds none.
    pub fn release_interest(&mut self, face: FaceId, id: u32)
        ensures { self.new ≡ change_naming face.0 (without_interest id) self.old }
    {
        self.release(face, Holder::Interest, id);
    }

    /// Whether routers of the region have an entry on the key.
    pub fn holds_entry(&self, region: &Region, key: &str) -> bool
        requires { HasIndex region.now }
        ensures { result ≡ has_entry_key (region_index region.now) key.now self.now }
    {
        find(&self.rows, &self.names, region_to_index(region), key).is_ok()
    }

    /// Routers of the region have an entry on the key from then on, which holds its node; where
    /// they have one, nothing changes and no memory is taken. Answers whether they had none before.
    pub fn hold_entry(&mut self, region: &Region, key: &Key) -> Result<bool, OutOfMemory>
        requires { HasIndex region.now }
        ensures fresh { IfOk result (λ b. b ≡ not (has_entry_key (region_index region.now) key.now self.old)) }
        ensures ok { OnOk result (self.new ≡ with_entry_key (region_index region.now) key.now self.old) }
        ensures err { OnErr result (self.new ≡ self.old) }
        ensures rows { AreEntryRows self.old.rows }
    {
        // so many faces at most bound how often a node is held
        let _open = self.faces.len();
        let index = region_to_index(region);
        let text = key.as_str();
        let Err(at) = find(&self.rows, &self.names, index, text) else {
            return Ok(false);
        };
        let node = take_hold(&mut self.names, text)?;
        match put(self.alloc, &mut self.rows, index, at, node) {
            Ok(()) => Ok(true),
            Err(refusal) => {
                let_go(&mut self.names, node);
                Err(refusal)
            }
        }
    }

    /// Routers of the region have no entry on the key any more, and its node goes with its last
    /// hold. It takes no memory. Where they have none, nothing changes.
    pub fn release_entry(&mut self, region: &Region, key: &str)
        requires { HasIndex region.now }
        ensures { self.new ≡ without_entry_key (region_index region.now) key.now self.old }
    {
        let index = region_to_index(region);
        let Ok(at) = find(&self.rows, &self.names, index, key) else {
            return;
        };
        let node = take(&mut self.rows, index, at);
        let_go(&mut self.names, node);
    }
}
