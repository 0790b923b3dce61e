//! The ids of one face.
ghost use Rattle.std.specs.Prelude.{◌≡◌, ◌↔◌, ◌+◌, ◌<◌, ◌≤◌, ◌++◌, [], None, Some, Err, IfOk, IfErr, IfSome, IfNone, IsTrue, OnOk, OnErr, MatchOption, option_map, is_some, length, true, false, slice_get};
ghost use Rattle.std.specs.Map.{keys_of};
ghost use Rattle.std.specs.Str.{IsCharBoundary};
ghost use Rattle.std.specs.List.{Contains};
ghost use Rattle.zq_key.specs.Key.{is_key as key_of};
ghost use Rattle.zq_names.specs.Names.{IsLive, HasText, Makes, entry_at};
ghost use Rattle.zq_names.specs.Texts.{nonwild as nonwild_of};
ghost use Rattle.zq_tables.specs.FaceIds.{no_ids, of_id, with_id, without_id, side, with_side, handed_side, is_used as used_of, next_id, AreLive};
ghost use Rattle.zq_tables.specs.Registering.{Gives, Maps, Registers};
ghost use Rattle.zq_tables.specs.FaceTexts.{texts_of, full_of, read_by, known as known_of, part_choice, best_part as part_of, best_key, declared_key, with_declared, registered, register_refusal, IsReason};

use crate::choice::{expression, joined, under, whole_key};
use crate::decl::DeclKey;
use crate::ids::Ids;
use std::alloc::Global;
use std::marker::Model;
use zq_key::is_key;
use zq_key::memory::OutOfMemory;
use zq_key::message::{Mapping, WireExpr};
use zq_key::text::Text;
use zq_names::{NameRefusal, Names, ResourceId, nonwild};

/// The ids that a face declared and those that were declared to it, each with the node that it stands for.
///
/// (`FaceState::remote_mappings` and `FaceState::local_mappings`)
pub struct FaceNames {
    theirs: Ids,
    ours: Ids,
    // each id from 1 on below this one is in use
    free: u16,
}

impl Drop for FaceNames {
    fn drop(self) {
        let FaceNames { theirs, ours, free } = self;
    }
}

impl Model for FaceNames {
    ghost use Rattle.zq_tables.specs.FaceIds.{FaceIds, IsFace};

    ghost Value = { FaceIds };

    ghost view = { λ s. record { theirs = s.theirs; ours = s.ours } };

    ghost invariant = { λ s. IsFace s.theirs s.ours s.free };
}

impl FaceNames {
    /// A face without ids, which keeps the allocator for those to come.
    pub fn new(alloc: Global) -> FaceNames
        ensures theirs { result.theirs ≡ [] }
        ensures ours { result.ours ≡ [] }
    {
        FaceNames {
            theirs: Ids::new(alloc),
            ours: Ids::new(alloc),
            free: 1,
        }
    }

    /// The node of an id in what the face sends. (`FaceState::get_mapping`)
    pub fn get_mapping(&self, scope: u16, mapping: Mapping) -> Option<ResourceId>
        ensures { option_map (λ r. r.0) result ≡ of_id (side self.now mapping) scope }
    {
        self.node_of(mapping, scope as u32)
    }

    /// The node of an id in what the face sends; an id of more than 16 bits has none.
    pub fn node_of(&self, mapping: Mapping, id: u32) -> Option<ResourceId>
        ensures { option_map (λ r. r.0) result ≡ of_id (side self.now mapping) id }
    {
        let found = match mapping {
            Mapping::Sender => self.theirs.get(id),
            Mapping::Receiver => self.ours.get(id),
        };
        match found {
            Some(node) => Some(ResourceId(node)),
            None => None,
        }
    }

    /// The node of an id in what is handed to the face. (`FaceState::get_sent_mapping`)
    pub fn get_sent_mapping(&self, scope: u16, mapping: Mapping) -> Option<ResourceId>
        ensures { option_map (λ r. r.0) result ≡ of_id (handed_side self.now mapping) scope }
    {
        let other = match mapping {
            Mapping::Sender => Mapping::Receiver,
            Mapping::Receiver => Mapping::Sender,
        };
        self.node_of(other, scope as u32)
    }

    /// Whether neither side has an id.
    pub fn is_empty(&self) -> bool
        ensures { IsTrue result ↔ (self.now ≡ no_ids) }
    {
        self.theirs.is_empty() && self.ours.is_empty()
    }

    /// The least id that the face declared.
    pub fn first_id(&self) -> Option<u16>
        ensures { result ≡ slice_get (keys_of self.now.theirs) 0 }
    {
        self.theirs.first()
    }

    /// The least id that was declared to the face.
    pub fn first_given(&self) -> Option<u16>
        ensures { result ≡ slice_get (keys_of self.now.ours) 0 }
    {
        self.ours.first()
    }

    /// The ids that were declared to the face, from the least on.
    pub fn given(&self, alloc: Global) -> Result<Vec<u16>, OutOfMemory>
        ensures { IfOk result (λ ids. ids.items ≡ keys_of self.now.ours) }
    {
        self.ours.ids(alloc)
    }

    fn is_used(&self, id: u16) -> bool
        ensures { result ≡ used_of self.now.theirs self.now.ours id }
    {
        if self.theirs.contains(id) {
            return true;
        }
        self.ours.contains(id)
    }

    /// The least id from 1 on that neither side uses. (`FaceState::get_next_local_id`)
    pub fn get_next_local_id(&self) -> Option<u16>
        ensures { result ≡ next_id self.now.theirs self.now.ours }
    {
        for id in self.free..=65535 {
            if !self.is_used(id) {
                return Some(id);
            }
        }
        None
    }

    /// Drops an id that the face declared. The node stays as it is. (`unregister_expr`)
    pub fn unregister_expr(&mut self, _names: &mut Names, id: u16) -> Result<(), NameRefusal>
        ensures ok { OnOk result (self.new ≡ record self.old { theirs = without_id self.old.theirs id }) }
        ensures known { OnOk result (is_some (of_id self.old.theirs id) ≡ true) }
        ensures unknown { OnErr result (of_id self.old.theirs id ≡ None) }
        ensures reason { IfErr result (λ e. e ≡ NameRefusal.UnknownId) }
        ensures refused { OnErr result (self.new ≡ self.old) }
        ensures names { _names.new ≡ _names.old }
        ensures live { AreLive _names.old self.old → AreLive _names.new self.new }
    {
        match self.take(Mapping::Sender, id as u32) {
            Some(_) => Ok(()),
            None => Err(NameRefusal::UnknownId),
        }
    }

    /// Gives up an id that was declared to the face, if it was. The node stays as it is.
    pub fn give_up(&mut self, id: u16)
        ensures { self.new ≡ record self.old { ours = without_id self.old.ours id } }
    {
        let _ = self.take(Mapping::Receiver, id as u32);
    }

    /// Drops an id of the side that the mapping names in what the face sends, and answers its node, which stays as it is.
    pub fn take(&mut self, mapping: Mapping, id: u32) -> Option<ResourceId>
        ensures node { option_map (λ r. r.0) result ≡ of_id (side self.old mapping) id }
        ensures ids { self.new ≡ with_side self.old mapping (without_id (side self.old mapping) id) }
        ensures absent { IfNone result (self.new ≡ self.old) }
    {
        let found = match mapping {
            Mapping::Sender => self.theirs.take(id),
            Mapping::Receiver => self.ours.take(id),
        };
        let Some(node) = found else {
            return None;
        };
        self.free = self.free.min(id as u16);
        Some(ResourceId(node))
    }

    // The node of an expression's scope.
    fn scope_node(&self, names: &Names, wire: &WireExpr) -> Option<ResourceId>
        requires { AreLive names.now self.now }
        ensures none { IfNone result (full_of (texts_of names.now self.now) wire.now ≡ None) }
        ensures live { IfSome result (λ r. IsLive names.now r) }
        ensures some { IfSome result (λ r. full_of (texts_of names.now self.now) wire.now ≡ Some ((entry_at names.now r.0).text ++ wire.now.suffix)) }
    {
        if wire.scope == 0 {
            return Some(names.root());
        }
        self.get_mapping(wire.scope, wire.mapping)
    }

    /// The full text of an expression that the face sends, or None for an unknown scope.
    pub fn full(
        &self,
        alloc: Global,
        names: &Names,
        wire: &WireExpr,
    ) -> Result<Option<Text>, OutOfMemory>
        requires { AreLive names.now self.now }
        ensures { IfOk result (λ t. t ≡ full_of (texts_of names.now self.now) wire.now) }
    {
        let Some(from) = self.scope_node(names, wire) else {
            return Ok(None);
        };
        Ok(Some(joined(alloc, names.expr(from), wire.suffix.as_str())?))
    }

    /// Lets an id that the face declares stand for an expression's text. An id that stands for it already stays as it is.
    ///
    /// (`register_expr`)
    pub fn register_expr(
        &mut self,
        alloc: Global,
        names: &mut Names,
        id: u16,
        wire: &WireExpr,
    ) -> Result<(), NameRefusal>
        requires { AreLive names.old self.old }
        ensures accepted { OnOk result (register_refusal (texts_of names.old self.old) id wire.now ≡ None) }
        ensures reason { IfErr result (IsReason (register_refusal (texts_of names.old self.old) id wire.now)) }
        ensures refused { OnErr result ((self.new ≡ self.old) × (names.new ≡ names.old)) }
        ensures ids { OnOk result (Registers names.old names.new self.old self.new id wire.now) }
    {
        let Some(from) = self.scope_node(names, wire) else {
            return Err(NameRefusal::UnknownScope);
        };
        let text = joined(alloc, names.expr(from), wire.suffix.as_str())?;
        if !is_key(text.as_str()) {
            return Err(NameRefusal::InvalidKeyExpr);
        }
        if id == 0 {
            return Err(NameRefusal::Remapped);
        }
        if let Some(node) = self.get_mapping(id, Mapping::Sender) {
            if names.expr(node) == text.as_str() {
                return Ok(());
            }
            return Err(NameRefusal::Remapped);
        }
        self.map_new(names, id, from, wire.suffix.as_str())
    }

    // Lets a new id stand for the text, of which the node is made.
    fn map_new(
        &mut self,
        names: &mut Names,
        id: u16,
        from: ResourceId,
        suffix: &str,
    ) -> Result<(), NameRefusal>
        requires live { IsLive names.old from }
        requires new { of_id self.old.theirs id ≡ None }
        requires positive { 0 < id }
        ensures ok { OnOk result (Maps names.old names.new self.old self.new id ((entry_at names.old from.0).text ++ suffix.now)) }
        ensures err { OnErr result ((self.new ≡ self.old) × (names.new ≡ names.old)) }
        ensures only { IfErr result (λ e. key_of ((entry_at names.old from.0).text ++ suffix.now) ≡ true → e ≡ NameRefusal.OutOfMemory) }
    {
        self.theirs.put_made(names, id, from, suffix)?;
        Ok(())
    }

    // The id that names the text to the face, its own first.
    fn known(&self, names: &Names, text: &str) -> Option<(u16, Mapping)>
        requires { AreLive names.now self.now }
        ensures { result ≡ known_of (texts_of names.now self.now) text.now }
    {
        // the ids of each side stand in order, so that the first of a text is its least
        let _theirs = self.theirs.len();
        let _ours = self.ours.len();
        let Some(node) = names.get_resource(names.root(), text) else {
            return None;
        };
        if let Some(id) = self.theirs.least_id(node.0) {
            return Some((id, Mapping::Receiver));
        }
        if let Some(id) = self.ours.least_id(node.0) {
            return Some((id, Mapping::Sender));
        }
        None
    }

    // The longest part of the text that is known to the face.
    fn best_part(&self, names: &Names, text: &str) -> Option<(u16, Mapping, usize)>
        requires { AreLive names.now self.now }
        ensures best { result ≡ part_of (texts_of names.now self.now) text.now }
        ensures in_text { IfSome result (λ p. IsCharBoundary text.now p.2) }
    {
        let bytes = text.as_bytes();
        if let Some((id, mapping)) = self.known(names, text) {
            return Some((id, mapping, bytes.len()));
        }
        for k in (0..bytes.len()).rev() {
            if bytes[k] != b'/' {
                continue;
            }
            if let Some((id, mapping)) = self.known(names, &text[..k]) {
                return Some((id, mapping, k));
            }
        }
        None
    }

    /// The best key of the text, in what is handed to the face. A whole text may share the memory of the text.
    pub fn best(&self, alloc: Global, names: &Names, text: &Text) -> Result<WireExpr, OutOfMemory>
        requires { AreLive names.now self.now }
        ensures best { IfOk result (λ w. w ≡ best_key (texts_of names.now self.now) text.now) }
        ensures reads { IfOk result (λ w. read_by (texts_of names.now self.now) w ≡ Some text.now) }
    {
        expression(alloc, self.best_part(names, text.as_str()), text)
    }

    /// The best key of the node's text followed by the suffix, in what is handed to the face. (`Resource::get_best_key`)
    pub fn get_best_key(
        &self,
        alloc: Global,
        names: &Names,
        r: ResourceId,
        suffix: &str,
    ) -> Result<WireExpr, OutOfMemory>
        requires live { IsLive names.now r }
        requires ids { AreLive names.now self.now }
        ensures best { IfOk result (λ w. w ≡ best_key (texts_of names.now self.now) ((entry_at names.now r.0).text ++ suffix.now)) }
        ensures reads { IfOk result (λ w. read_by (texts_of names.now self.now) w ≡ Some ((entry_at names.now r.0).text ++ suffix.now)) }
    {
        let text = joined(alloc, names.expr(r), suffix)?;
        self.best(alloc, names, &text)
    }

    /// Lets the least free id, which the gateway declares, stand for a node.
    pub fn declare(&mut self, id: u16, node: ResourceId) -> Result<(), OutOfMemory>
        requires { next_id self.old.theirs self.old.ours ≡ Some id }
        ensures ok { OnOk result (self.new ≡ record self.old { ours = with_id self.old.ours id node.0 }) }
        ensures err { OnErr result (self.new ≡ self.old) }
    {
        self.ours.put(id, node.0)?;
        self.free = id;
        Ok(())
    }

    // The declared key of a text by its part without a `*`, with the rest behind it.
    fn part_choice(
        &self,
        alloc: Global,
        names: &Names,
        part: &str,
        rest: &str,
        may: bool,
    ) -> Result<Option<DeclKey>, OutOfMemory>
        requires { AreLive names.now self.now }
        ensures { IfOk result (λ d. d ≡ part_choice (texts_of names.now self.now) may part.now rest.now) }
    {
        let suffix = Text::new(alloc, rest)?;
        if let Some((scope, mapping)) = self.known(names, part) {
            return Ok(Some(under(scope, mapping, suffix, None)));
        }
        if !may {
            return Ok(None);
        }
        let Some(id) = self.get_next_local_id() else {
            return Ok(None);
        };
        Ok(Some(under(id, Mapping::Sender, suffix, Some(id))))
    }

    /// The declared key of a text: by an id of its part without a `*`, by a new id for that part, which is yet to be declared, or whole.
    ///
    /// `local` is whether the face is local, and `may` whether a new id may be declared.
    pub fn chosen_key(
        &self,
        alloc: Global,
        names: &Names,
        text: &str,
        local: bool,
        may: bool,
    ) -> Result<DeclKey, OutOfMemory>
        requires { AreLive names.now self.now }
        ensures { IfOk result (λ d. d ≡ declared_key (texts_of names.now self.now) local may text.now) }
    {
        if local {
            return whole_key(alloc, text);
        }
        let part = nonwild(text);
        if part.is_empty() {
            return whole_key(alloc, text);
        }
        match self.part_choice(alloc, names, part, &text[part.len()..], may)? {
            Some(key) => Ok(key),
            None => whole_key(alloc, text),
        }
    }

    /// The declared key of the node's text: by an id of its part without a `*`, by a new id for that part, or whole.
    ///
    /// `local` is whether the face is local, and `may` whether a new id may be declared. (`Resource::decl_key`)
    pub fn decl_key(
        &mut self,
        alloc: Global,
        names: &mut Names,
        r: ResourceId,
        local: bool,
        may: bool,
    ) -> Result<DeclKey, OutOfMemory>
        requires live { IsLive names.old r }
        requires ids { AreLive names.old self.old }
        ensures key { IfOk result (λ d. d ≡ declared_key (texts_of names.old self.old) local may (entry_at names.old r.0).text) }
        ensures texts { IfOk result (λ d. texts_of names.new self.new ≡ with_declared (texts_of names.old self.old) (entry_at names.old r.0).text d.declared) }
        ensures given { IfOk result (λ d. Gives names.old self.old self.new (entry_at names.old r.0).text d.declared) }
        ensures theirs { self.new.theirs ≡ self.old.theirs }
        ensures live { AreLive names.new self.new }
        ensures err { OnErr result (self.new ≡ self.old) }
        ensures names { names.new ≡ names.old }
    {
        let key = self.chosen_key(alloc, names, names.expr(r), local, may)?;
        let Some(id) = key.declared else {
            return Ok(key);
        };
        self.declare_part(names, r, id)?;
        Ok(key)
    }

    // Lets the least free id stand for the part without a `*` of a node's text.
    fn declare_part(&mut self, names: &Names, r: ResourceId, id: u16) -> Result<(), OutOfMemory>
        requires live { IsLive names.now r }
        requires next { next_id self.old.theirs self.old.ours ≡ Some id }
        requires part { 0 < length (nonwild_of (entry_at names.now r.0).text) }
        ensures ok { OnOk result (Gives names.now self.old self.new (entry_at names.now r.0).text (Some id)) }
        ensures err { OnErr result (self.new ≡ self.old) }
    {
        match names.nonwild_prefix(r).0 {
            Some(part) => self.declare(id, part),
            None => unreachable!(),
        }
    }

    /// An equal face.
    pub fn copy(&self, alloc: Global) -> Result<FaceNames, OutOfMemory>
        ensures { IfOk result (λ f. f ≡ self.now) }
    {
        Ok(FaceNames {
            theirs: self.theirs.copy(alloc)?,
            ours: self.ours.copy(alloc)?,
            free: self.free,
        })
    }
}
