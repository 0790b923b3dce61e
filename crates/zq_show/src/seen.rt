//! What is kept beside the gateway of a run, call by call: what decides of a request, and the hats
//! do not show.
ghost use Rattle.std.specs.Prelude.{◌≡◌, ◌&&◌, IfOk, OnOk, fold, option_copied, true};
ghost use Rattle.std.specs.Map.{keys_of};
ghost use Rattle.zq_index.specs.Holders.{held_at};
ghost use Rattle.zq_key.specs.Key.{is_key as is_key_of};
ghost use Rattle.zq_machine.specs.Gates.{denied_by, gate_at};
ghost use Rattle.zq_namespace.specs.Denied.{is_denied};
ghost use Rattle.zq_show.specs.Seen.{faces_after, gates_after, held_with, held_without, ids_on, key_by, key_in_full, lists_after, named, names_after, no_faces, noticed, owned_after, said_in, told_key, with_given, with_told, withdrawn};

use crate::answer::is_refused;
use std::alloc::Global;
use std::collections::BTreeMap;
use std::marker::Model;
use zq_dispatcher::hats::{hat_at, is_region, put_table};
use zq_dispatcher::seating::opened;
use zq_egress::read::full_text;
use zq_egress::{FaceMux, FaceMuxes, is_sound};
use zq_hat::Hat;
use zq_index::holders::KeyHolders;
use zq_key::is_key;
use zq_key::items::Items;
use zq_key::memory::OutOfMemory;
use zq_key::message::{DeclareBody, FaceId, Message, QueryableInfoType, WireExpr};
use zq_key::text::Text;
use zq_machine::call::{Call, Outcome, Step};
use zq_machine::face::OpenFace;
use zq_machine::handed::Handed;
use zq_message::RegionMap;
use zq_route::gateways::Gateways;
use zq_tables::NameRefusal;
use zq_tables::naming::Naming;
use zq_tables::resolved::Resolved;

/// The ids of a face's queryables by their keys.
pub type OwnedMap = BTreeMap<u32, KeyHolders<u128>>;

/// The open faces, the gateways that were listed, the numbers of keys, the gates of faces, and the
/// ids of each face's queryables by their keys.
pub struct Seen {
    alloc: Global,
    faces: BTreeMap<u32, OpenFace>,
    lists: RegionMap<Gateways>,
    names: Naming,
    gates: FaceMuxes,
    owned: OwnedMap,
}

impl Drop for Seen {
    fn drop(self) {
        let Seen {
            alloc,
            faces,
            lists,
            names,
            gates,
            owned,
        } = self;
    }
}

impl Model for Seen {
    ghost use Rattle.zq_show.specs.Seen.{SeenState};

    ghost Value = { SeenState };

    ghost view = { λ s. record {
      faces = s.faces.entries;
      lists = s.lists;
      names = s.names;
      gates = s.gates;
      owned = s.owned.entries;
    } };
}

/// What an expression says that a face sends.
fn said_in(
    names: &Naming,
    gates: &FaceMuxes,
    face: FaceId,
    wire: &WireExpr,
) -> Result<Resolved, OutOfMemory>
    ensures { IfOk result (λ s. s ≡ said_in names.now gates.now face wire.now) }
{
    match gates.enter(face, wire)? {
        Some(entered) => names.said(face, &entered),
        None => names.said(face, wire),
    }
}

/// The key that a face declared under an id.
fn key_by<'a>(
    hats: &'a RegionMap<Hat>,
    faces: &BTreeMap<u32, OpenFace>,
    face: FaceId,
    id: u32,
) -> Option<&'a str>
    ensures { option_copied result ≡ key_by hats.now faces.now.entries face.0 id }
{
    let opened = faces.get(&face.0)?;
    let hat = hat_at(hats, opened.region)?;
    if !hat.has_face(face) {
        return None;
    }
    hat.key_at(face, id)
}

/// The open faces after a call that was not refused.
fn hear_faces(
    faces: &mut BTreeMap<u32, OpenFace>,
    call: &Call,
    outcome: Outcome,
) -> Result<(), OutOfMemory>
    ensures { OnOk result (faces.new.entries ≡ faces_after outcome call.now faces.old.entries) }
{
    match (call, outcome) {
        (Call::Open(opening), Outcome::Opened(face)) => {
            let _ = faces.insert(face.0, opened(opening))?;
        }
        (Call::Close { face }, _) => {
            let _ = faces.remove(&face.0);
        }
        _ => {}
    }
    Ok(())
}

/// The gateways that are listed after a call that was not refused.
fn hear_lists(
    alloc: Global,
    lists: &mut RegionMap<Gateways>,
    call: &Call,
) -> Result<(), OutOfMemory>
    ensures { OnOk result (lists.new ≡ lists_after call.now lists.old) }
{
    match call {
        Call::SetGateways { region, table } if is_region(*region) => {
            put_table(lists, *region, table.copy(alloc)?)
        }
        _ => Ok(()),
    }
}

/// The gates after a call that was not refused.
fn hear_gates(
    alloc: Global,
    gates: &mut FaceMuxes,
    call: &Call,
    outcome: Outcome,
) -> Result<(), OutOfMemory>
    ensures { OnOk result (gates.new ≡ gates_after outcome call.now gates.old) }
{
    match (call, outcome) {
        (Call::Open(opening), Outcome::Opened(face)) => {
            if is_sound(opening) {
                gates.open(face, FaceMux::for_opening(alloc, opening)?)?;
            }
        }
        (Call::Close { face }, _) => gates.close(*face),
        _ => {}
    }
    Ok(())
}

/// A face declares a number for a text, where it can.
fn name_key(names: &mut Naming, face: FaceId, id: u16, text: &str) -> Result<(), OutOfMemory>
    ensures { OnOk result (names.new ≡ named face.0 id text.now names.old) }
{
    match names.declare(face, id, text) {
        Ok(()) => Ok(()),
        Err(NameRefusal::OutOfMemory) => Err(OutOfMemory),
        Err(_) => Ok(()),
    }
}

/// The numbers after a call that was not refused, but for those that the gateway gives.
fn hear_names(
    names: &mut Naming,
    gates: &FaceMuxes,
    call: &Call,
    outcome: Outcome,
) -> Result<(), OutOfMemory>
    ensures { OnOk result (names.new ≡ names_after gates.now outcome call.now names.old) }
{
    match (call, outcome) {
        (Call::Open(_), Outcome::Opened(face)) => names.open(face),
        (Call::Close { face }, _) => {
            names.close(*face);
            Ok(())
        }
        (Call::DeclareKeyExpr { face, id, wire }, _) => {
            let said = said_in(names, gates, *face, wire)?;
            name_key(names, *face, *id, full_text(&said))
        }
        (Call::UndeclareKeyExpr { face, id }, _) => {
            names.undeclare(*face, *id);
            Ok(())
        }
        _ => Ok(()),
    }
}

/// The key for which a message gives a number.
fn told_key(message: &Message) -> Option<&str>
    ensures { option_copied result ≡ told_key message.now }
{
    match message {
        Message::Declare(declare) => match &declare.body {
            DeclareBody::DeclareKeyExpr { wire, .. } => Some(wire.suffix.as_str()),
            _ => None,
        },
        _ => None,
    }
}

/// The number that a message gives, if it gives one.
fn hear_told(names: &mut Naming, handed: &Handed) -> Result<(), OutOfMemory>
    ensures { OnOk result (names.new ≡ with_told names.old handed.now) }
{
    let Some(text) = told_key(handed.message()) else {
        return Ok(());
    };
    if is_key(text) {
        give_number(names, handed.to(), text)?;
    }
    Ok(())
}

/// The numbers that messages give.
fn hear_all(names: &mut Naming, handed: &[Handed]) -> Result<(), OutOfMemory>
    ensures { OnOk result (names.new ≡ fold with_told names.old handed.now) }
{
    for message in handed {
        hear_told(names, message)?;
    }
    Ok(())
}

/// A face's queryable stands under an id from now on, where it is known under which key.
fn hold(
    alloc: Global,
    owned: &mut OwnedMap,
    face: FaceId,
    id: u32,
    info: QueryableInfoType,
    key: Option<&str>,
) -> Result<(), OutOfMemory>
    ensures { OnOk result (owned.new.entries ≡ held_with face.0 id info (option_copied key.entry) owned.old.entries) }
{
    let Some(key) = key else {
        return Ok(());
    };
    match owned.get_mut(&face.0) {
        Some(held) => held.put(alloc, key, u128::from(id), info),
        None => Ok(()),
    }
}

/// A face's queryable stands under an id no more.
fn release(owned: &mut OwnedMap, face: FaceId, id: u32, key: Option<&Text>)
    ensures { owned.new.entries ≡ held_without face.0 id (option_copied key.entry) owned.old.entries }
{
    let Some(key) = key else {
        return;
    };
    if let Some(held) = owned.get_mut(&face.0) {
        held.take(key.as_str(), u128::from(id));
    }
}

/// The ids of queryables after a call that was not refused; `gone` is the key of one that it
/// withdraws.
fn hear_owned(
    alloc: Global,
    owned: &mut OwnedMap,
    faces: &BTreeMap<u32, OpenFace>,
    hats: &RegionMap<Hat>,
    gone: &Option<Text>,
    call: &Call,
    outcome: Outcome,
) -> Result<(), OutOfMemory>
    ensures { OnOk result (owned.new.entries ≡ owned_after hats.now faces.now.entries gone.now outcome call.now owned.old.entries) }
{
    match (call, outcome) {
        (Call::Open(_), Outcome::Opened(face)) => {
            let _ = owned.insert(face.0, KeyHolders::new(alloc))?;
            Ok(())
        }
        (Call::Close { face }, _) => {
            let _ = owned.remove(&face.0);
            Ok(())
        }
        (Call::DeclareQueryable { face, id, info, .. }, _) => {
            let key = key_by(hats, faces, *face, *id);
            hold(alloc, owned, *face, *id, *info, key)
        }
        (Call::UndeclareQueryable { face, id, .. }, _) => {
            release(owned, *face, *id, gone.as_ref());
            Ok(())
        }
        _ => Ok(()),
    }
}

/// The ids of informations.
fn ids_of(
    alloc: Global,
    infos: &BTreeMap<u128, QueryableInfoType>,
) -> Result<Items<u128>, OutOfMemory>
    ensures { IfOk result (λ l. l ≡ keys_of infos.now.entries) }
{
    let mut ids = Items::new(alloc);
    for (id, _) in infos {
        ids.push(*id)?;
    }
    Ok(ids)
}

/// The ids that stand on a key.
fn ids_held(alloc: Global, held: &KeyHolders<u128>, key: &str) -> Result<Items<u128>, OutOfMemory>
    ensures { IfOk result (λ l. l ≡ keys_of (held_at key.now held.now)) }
{
    match held.get(key) {
        Some(holders) => ids_of(alloc, holders.infos()),
        None => Ok(Items::new(alloc)),
    }
}

/// The gateway gives a face a number for a key.
fn give_number(names: &mut Naming, face: FaceId, text: &str) -> Result<(), OutOfMemory>
    requires { is_key_of text.now ≡ true }
    ensures { OnOk result (names.new ≡ with_given face.0 names.old text.now) }
{
    names.declared(face, text, false, true)?;
    Ok(())
}

impl Seen {
    /// Before any call.
    pub fn new(alloc: Global) -> Result<Seen, OutOfMemory>
        ensures { IfOk result (λ s. s ≡ no_faces) }
    {
        Ok(Seen {
            alloc,
            faces: BTreeMap::new(alloc),
            lists: RegionMap::new(alloc),
            names: Naming::new(alloc)?,
            gates: FaceMuxes::new(alloc),
            owned: BTreeMap::new(alloc),
        })
    }

    /// The key of the queryable that a call withdraws, if it withdraws one.
    pub fn withdrawn(&self, hats: &RegionMap<Hat>, call: &Call) -> Result<Option<Text>, OutOfMemory>
        ensures { IfOk result (λ k. k ≡ withdrawn hats.now self.now.faces call.now) }
    {
        let Call::UndeclareQueryable { face, id, .. } = call else {
            return Ok(None);
        };
        match key_by(hats, &self.faces, *face, *id) {
            Some(key) => Ok(Some(Text::new(self.alloc, key)?)),
            None => Ok(None),
        }
    }

    /// Takes note of a call and of what it gave. The hats are those after it; `gone` is the key of a
    /// queryable that it withdraws.
    pub fn notice(
        &mut self,
        hats: &RegionMap<Hat>,
        gone: &Option<Text>,
        call: &Call,
        step: &Step,
    ) -> Result<(), OutOfMemory>
        ensures { OnOk result (self.new ≡ noticed hats.now gone.now call.now step.now self.old) }
    {
        if is_refused(step.outcome) {
            return Ok(());
        }
        let outcome = step.outcome;
        hear_names(&mut self.names, &self.gates, call, outcome)?;
        hear_all(&mut self.names, step.handed.as_slice())?;
        hear_gates(self.alloc, &mut self.gates, call, outcome)?;
        hear_lists(self.alloc, &mut self.lists, call)?;
        hear_owned(
            self.alloc,
            &mut self.owned,
            &self.faces,
            hats,
            gone,
            call,
            outcome,
        )?;
        hear_faces(&mut self.faces, call, outcome)
    }

    /// The open faces.
    pub fn faces(&self) -> &BTreeMap<u32, OpenFace>
        ensures { result.now.entries ≡ self.now.faces }
    {
        &self.faces
    }

    /// The gateways that were listed.
    pub fn lists(&self) -> &RegionMap<Gateways>
        ensures { result.now ≡ self.now.lists }
    {
        &self.lists
    }

    /// What an expression says that a face sends.
    pub fn said(&self, face: FaceId, wire: &WireExpr) -> Result<Resolved, OutOfMemory>
        ensures { IfOk result (λ s. s ≡ said_in self.now.names self.now.gates face wire.now) }
    {
        said_in(&self.names, &self.gates, face, wire)
    }

    /// The key that an expression says which a face sends, if it says one.
    pub fn key_said(&self, face: FaceId, wire: &WireExpr) -> Result<Option<Text>, OutOfMemory>
        ensures { IfOk result (λ k. k ≡ key_in_full (said_in self.now.names self.now.gates face wire.now)) }
    {
        match self.said(face, wire)? {
            Resolved::Full(text) => Ok(Some(text)),
            Resolved::Unscoped | Resolved::Empty => Ok(None),
        }
    }

    /// Whether a text is a key that a face may not ask for.
    pub fn denies(&self, face: FaceId, key: &str) -> bool
        ensures { result ≡ (is_key_of key.now && is_denied (denied_by (gate_at face.0 self.now.gates)) key.now) }
    {
        self.gates.denies(face, key)
    }

    /// The allocator that all of it is kept in.
    pub fn alloc(&self) -> Global {
        self.alloc
    }

    /// The ids under which a face declared a key.
    pub fn ids_on(&self, face: FaceId, key: &str) -> Result<Items<u128>, OutOfMemory>
        ensures { IfOk result (λ l. l ≡ ids_on face.0 key.now self.now.owned) }
    {
        match self.owned.get(&face.0) {
            Some(held) => ids_held(self.alloc, held, key),
            None => Ok(Items::new(self.alloc)),
        }
    }
}
