//! What faces are told: declarations, each with the number that it needs declared directly before it,
//! and, where an interest is answered, marked with its id and followed by the end of what there was to
//! tell.
ghost use Rattle.std.specs.Prelude.{◌≡◌, ℕ, ◌+◌, ◌<◌, ◌≤◌, ◌∷◌, ◌++◌, ◌&&◌, [], drop, length, map, not, true, false, vec_capacity, vec_len, IfOk, OnOk, OnErr};
ghost use Rattle.std.specs.List.{All};
ghost use Rattle.std.specs.Option.{option_map_or};
ghost use Rattle.zq_key.specs.Key.{is_key as key_of};
ghost use Rattle.zq_names.specs.Texts.{nonwild as nonwild_of};
ghost use Rattle.zq_strategy.specs.Tellings.{in_order};
ghost use Rattle.zq_machine.specs.Messages.{from_hat};
ghost use Rattle.zq_machine.specs.State.{Core, at};
ghost use Rattle.zq_machine.specs.Writing.{is_local_region, numbers_region, tell as tell_of, tell_body};
ghost use Rattle.zq_egress.specs.Telling.{KeyedAs, asked_number, behind, body_of, declare_of, end_of, ends_alone, final_of, handed_declare as handed_declare_of, handed_final, handed_number, mark_of, marked_by, number_of, told_to, untold, untold_message};

use crate::write::whole;
use std::alloc::Global;
use std::collections::BTreeMap;
use zq_interests::numbers::WantsKeys;
use zq_key::items::Items;
use zq_key::memory::OutOfMemory;
use zq_key::message::{
    DEFAULT_NODE_ID, Declare, DeclareBody, FaceId, Message, QueryableInfoType, Region, WireExpr,
};
use zq_key::text::Text;
use zq_machine::face::OpenFace;
use zq_machine::handed::{Handed, HandedList};
use zq_names::nonwild;
use zq_routers::tellings::in_order;
use zq_strategy::types::Telling;
use zq_tables::naming::Naming;

/// An interest: the face that asks, and the id under which it does.
#[derive(Clone, Copy, Debug)]
pub struct InterestId {
    /// The face that asks to be told.
    pub face: FaceId,
    /// The id that it gave the interest.
    pub id: u32,
}

// Whether the face is local.
fn is_local(faces: &BTreeMap<u32, OpenFace>, to: FaceId) -> bool
    ensures { result ≡ option_map_or (λ o. is_local_region o.region) (at to.0 faces.now.entries) false }
{
    match faces.get(&to.0) {
        Some(face) => matches!(face.region, Region::Local),
        None => false,
    }
}

// Whether the face may be declared a number for any key.
fn takes_numbers(faces: &BTreeMap<u32, OpenFace>, to: FaceId) -> bool
    ensures { result ≡ option_map_or (λ o. numbers_region o.region) (at to.0 faces.now.entries) false }
{
    match faces.get(&to.0) {
        Some(face) => matches!(face.region, Region::North),
        None => false,
    }
}

// Whether the face may be declared a number for the part of a key; a local face takes none. No interest
// is looked up where the face takes numbers for any key, nor for the empty part, which is no key.
fn may_number<K: WantsKeys>(
    faces: &BTreeMap<u32, OpenFace>,
    keyed: &K,
    to: FaceId,
    local: bool,
    part: &str,
) -> bool
    requires { 0 < length part.now → key_of part.now ≡ true }
    ensures { result ≡ (not local && asked_number (option_map_or (λ o. numbers_region o.region) (at to.0 faces.now.entries) false) part.now (K.keyed keyed.now to.0 part.now)) }
{
    !local && (takes_numbers(faces, to) || (!part.is_empty() && keyed.has_keyed(to, part)))
}

fn handed_declare(to: FaceId, declare: Declare) -> Handed
    ensures { result ≡ handed_declare_of to declare }
{
    Handed::new(to, None, None, Message::Declare(declare))
}

fn number_declare(id: u16, part: Text) -> Declare
    ensures { result ≡ number_of id part }
{
    Declare {
        interest: None,
        node: DEFAULT_NODE_ID,
        body: DeclareBody::DeclareKeyExpr {
            id,
            wire: whole(part),
        },
    }
}

fn key_body(id: u32, wire: WireExpr, info: Option<QueryableInfoType>) -> DeclareBody
    ensures { result ≡ body_of id wire info }
{
    match info {
        Some(info) => DeclareBody::DeclareQueryable { id, wire, info },
        None => DeclareBody::UndeclareQueryable {
            id,
            wire: Some(wire),
        },
    }
}

fn key_declare(telling: &Telling, mark: Option<u32>, wire: WireExpr) -> Declare
    ensures { result ≡ declare_of mark telling.now wire }
{
    Declare {
        interest: mark,
        node: telling.node,
        body: key_body(telling.id, wire, telling.info),
    }
}

// Whether an id other than 0 ends: its face knows it, so that its key need not be said.
fn ends_alone(telling: &Telling) -> bool
    ensures { result ≡ ends_alone telling.now }
{
    telling.info.is_none() && telling.id != 0
}

fn end_declare(telling: &Telling, mark: Option<u32>) -> Declare
    ensures { result ≡ end_of mark telling.now }
{
    Declare {
        interest: mark,
        node: telling.node,
        body: DeclareBody::UndeclareQueryable {
            id: telling.id,
            wire: None,
        },
    }
}

// The message of the number, if one is new, goes behind the others.
fn push_number(handed: &mut Vec<Handed>, to: FaceId, part: Text, number: Option<u16>)
    requires { vec_len handed.old + 2 ≤ vec_capacity handed.old }
    ensures items { handed.new.items ≡ handed.old.items ++ handed_number to part number }
    ensures room { vec_len handed.new < vec_capacity handed.new }
{
    if let Some(id) = number {
        handed.push_reserved(handed_declare(to, number_declare(id, part)));
    }
}

// A face is told that an id ended, by the id alone. It takes no number.
fn tell_end(
    telling: &Telling,
    mark: Option<u32>,
    handed: &mut Vec<Handed>,
) -> Result<(), OutOfMemory>
    ensures ok { OnOk result (handed.new.items ≡ handed.old.items ++ handed_declare_of telling.now.face (end_of mark telling.now) ∷ []) }
    ensures kept { OnErr result (handed.new.items ≡ handed.old.items) }
{
    handed.push(handed_declare(telling.face, end_declare(telling, mark)))?;
    Ok(())
}

// A face is told of a key, by an expression of it. A new number stands from then on.
fn tell_key<K: WantsKeys>(
    alloc: Global,
    faces: &BTreeMap<u32, OpenFace>,
    keyed: &K,
    names: &mut Naming,
    telling: &Telling,
    mark: Option<u32>,
    handed: &mut Vec<Handed>,
) -> Result<(), OutOfMemory>
    requires valid { key_of telling.now.key ≡ true }
    requires keyed { ends_alone telling.now ≡ false }
    ensures messages { (c : Core) → c.faces ≡ faces.now.entries → KeyedAs (K.keyed keyed.now) c.interests → OnOk result (handed.new.items ≡ handed.old.items ++ (tell_body c (marked_by mark telling.now) (from_hat telling.now).body names.old).handed) }
    ensures names { (c : Core) → c.faces ≡ faces.now.entries → KeyedAs (K.keyed keyed.now) c.interests → OnOk result (names.new ≡ (tell_body c (marked_by mark telling.now) (from_hat telling.now).body names.old).names) }
    ensures longer { OnOk result (length handed.old.items ≤ length handed.new.items) }
    ensures back { (first : ℕ) → first ≤ length handed.old.items → OnOk result (untold (drop first handed.new.items) names.new ≡ untold (drop first handed.old.items) names.old) }
    ensures kept { OnErr result (handed.new.items ≡ handed.old.items) }
    ensures err { OnErr result (names.new ≡ names.old) }
{
    handed.reserve(2)?;
    let to = telling.face;
    let text = telling.key.as_str();
    let part = Text::new(alloc, nonwild(text))?;
    let local = is_local(faces, to);
    let may = may_number(faces, keyed, to, local, part.as_str());
    let key = names.declared(to, text, local, may)?;
    push_number(handed, to, part, key.declared);
    handed.push_reserved(handed_declare(to, key_declare(telling, mark, key.wire)));
    Ok(())
}

// A face is told one thing: that an id ended, by the id alone, or of a key.
fn tell_one<K: WantsKeys>(
    alloc: Global,
    faces: &BTreeMap<u32, OpenFace>,
    keyed: &K,
    names: &mut Naming,
    telling: &Telling,
    mark: Option<u32>,
    handed: &mut Vec<Handed>,
) -> Result<(), OutOfMemory>
    requires { key_of telling.now.key ≡ true }
    ensures messages { (c : Core) → c.faces ≡ faces.now.entries → KeyedAs (K.keyed keyed.now) c.interests → OnOk result (handed.new.items ≡ handed.old.items ++ (tell_body c (marked_by mark telling.now) (from_hat telling.now).body names.old).handed) }
    ensures names { (c : Core) → c.faces ≡ faces.now.entries → KeyedAs (K.keyed keyed.now) c.interests → OnOk result (names.new ≡ (tell_body c (marked_by mark telling.now) (from_hat telling.now).body names.old).names) }
    ensures longer { OnOk result (length handed.old.items ≤ length handed.new.items) }
    ensures back { (first : ℕ) → first ≤ length handed.old.items → OnOk result (untold (drop first handed.new.items) names.new ≡ untold (drop first handed.old.items) names.old) }
    ensures kept { OnErr result (handed.new.items ≡ handed.old.items) }
    ensures err { OnErr result (names.new ≡ names.old) }
{
    if ends_alone(telling) {
        tell_end(telling, mark, handed)
    } else {
        tell_key(alloc, faces, keyed, names, telling, mark, handed)
    }
}

// Faces are told one thing after another; what a refusal leaves is taken back like the rest.
fn tell_each<K: WantsKeys>(
    alloc: Global,
    faces: &BTreeMap<u32, OpenFace>,
    keyed: &K,
    names: &mut Naming,
    tellings: &[Telling],
    mark: Option<u32>,
    handed: &mut Vec<Handed>,
) -> Result<(), OutOfMemory>
    requires { All (λ t. key_of t.key ≡ true) tellings.now }
    ensures ok { (c : Core) → c.faces ≡ faces.now.entries → KeyedAs (K.keyed keyed.now) c.interests → OnOk result (behind handed.old.items (tell_of c (map (marked_by mark) tellings.now) names.old) ≡ record { handed = handed.new.items; names = names.new }) }
    ensures longer { length handed.old.items ≤ length handed.new.items }
    ensures back { (first : ℕ) → first ≤ length handed.old.items → untold (drop first handed.new.items) names.new ≡ untold (drop first handed.old.items) names.old }
{
    for telling in tellings {
        tell_one(alloc, faces, keyed, names, telling, mark, handed)?;
    }
    Ok(())
}

fn final_declare(id: u32) -> Declare
    ensures { result ≡ final_of id }
{
    Declare {
        interest: Some(id),
        node: DEFAULT_NODE_ID,
        body: DeclareBody::DeclareFinal,
    }
}

// Where an interest is answered, the end of what there was to tell goes behind the others.
fn push_final(handed: &mut Vec<Handed>, interest: Option<InterestId>) -> Result<(), OutOfMemory>
    ensures ok { OnOk result (handed.new.items ≡ handed.old.items ++ handed_final interest) }
    ensures err { OnErr result (handed.new.items ≡ handed.old.items) }
{
    if let Some(interest) = interest {
        handed.push(handed_declare(interest.face, final_declare(interest.id)))?;
    }
    Ok(())
}

fn mark_of(interest: Option<InterestId>) -> Option<u32>
    ensures { result ≡ mark_of interest }
{
    match interest {
        Some(interest) => Some(interest.id),
        None => None,
    }
}

// Faces are told all of it, in answer to the interest if there is one; what a refusal leaves is taken
// back like the rest.
fn tell_behind<K: WantsKeys>(
    alloc: Global,
    faces: &BTreeMap<u32, OpenFace>,
    keyed: &K,
    names: &mut Naming,
    tellings: &[Telling],
    interest: Option<InterestId>,
    handed: &mut Vec<Handed>,
) -> Result<(), OutOfMemory>
    requires { All (λ t. key_of t.key ≡ true) tellings.now }
    ensures ok { (c : Core) → c.faces ≡ faces.now.entries → KeyedAs (K.keyed keyed.now) c.interests → OnOk result (behind handed.old.items (tell_of c (told_to interest (map from_hat tellings.now)) names.old) ≡ record { handed = handed.new.items; names = names.new }) }
    ensures longer { length handed.old.items ≤ length handed.new.items }
    ensures back { (first : ℕ) → first ≤ length handed.old.items → untold (drop first handed.new.items) names.new ≡ untold (drop first handed.old.items) names.old }
{
    let mark = mark_of(interest);
    tell_each(alloc, faces, keyed, names, tellings, mark, handed)?;
    push_final(handed, interest)?;
    Ok(())
}

// The number that a message declares is taken back.
fn take_back(names: &mut Naming, handed: &Handed)
    ensures { names.new ≡ untold_message handed.now.to handed.now.message names.old }
{
    if let Message::Declare(declare) = handed.message() {
        if let DeclareBody::DeclareKeyExpr { id, .. } = &declare.body {
            names.take_back(handed.to(), *id);
        }
    }
}

/// The numbers that messages declare are taken back, the last one first. It takes no memory.
pub fn untell(names: &mut Naming, handed: &[Handed])
    ensures { names.new ≡ untold handed.now names.old }
{
    for i in (0..handed.len()).rev() {
        take_back(names, &handed[i]);
    }
}

/// The messages of what faces are told, by face, key and node, each once, behind messages that
/// come first. Where they answer an interest, each is marked with its id, and the end of what there
/// was to tell comes last. A number that a key needs is declared directly before its first use, marked
/// with no interest, and stands from then on; `untell` of the messages behind the first takes back all
/// that were given.
pub fn tell<K: WantsKeys>(
    alloc: Global,
    faces: &BTreeMap<u32, OpenFace>,
    keyed: &K,
    names: &mut Naming,
    tellings: &[Telling],
    interest: Option<InterestId>,
    first: HandedList,
) -> Result<HandedList, OutOfMemory>
    requires { All (λ t. key_of t.key ≡ true) tellings.now }
    ensures ok { (c : Core) → c.faces ≡ faces.now.entries → KeyedAs (K.keyed keyed.now) c.interests → IfOk result (λ l. behind first (tell_of c (told_to interest (map from_hat (in_order tellings.now))) names.old) ≡ record { handed = l; names = names.new }) }
    ensures longer { IfOk result (λ l. length first ≤ length l) }
    ensures back { IfOk result (λ l. untold (drop (length first) l) names.new ≡ names.old) }
    ensures err { OnErr result (names.new ≡ names.old) }
{
    let ordered = in_order(alloc, tellings)?;
    let place = first.len();
    let mut handed = first.into_vec();
    let each = ordered.as_slice();
    match tell_behind(alloc, faces, keyed, names, each, interest, &mut handed) {
        Ok(()) => Ok(Items::from_vec(handed)),
        Err(refusal) => {
            untell(names, &handed[place..]);
            Err(refusal)
        }
    }
}
