//! The faces of a hat, their seats and their declarations in the index.
ghost use Rattle.std.specs.Prelude.{◌≡◌, Some, None, true, is_some, OnOk, OnErr, IfOk, fold};
ghost use Rattle.std.specs.Map.{keys_of, set_value};
ghost use Rattle.std.specs.BTreeMap.{is_at};
ghost use Rattle.std.specs.BTreeSet.{insert_key};
ghost use Rattle.std.specs.Ordering.{nat_cmp};
ghost use Rattle.zq_strategy.specs.Seating.{seat_cmp};
ghost use Rattle.zq_strategy.specs.Kept.{at_id, changed, declaration, declare, withdraw};
ghost use Rattle.zq_strategy.specs.Marks.{marked};
ghost use Rattle.zq_strategy.specs.Regions.{in_routers};
ghost use Rattle.zq_strategy.specs.State.{FaceState};
ghost use Rattle.zq_hat.specs.Tied.{without_declared};

use crate::face::HatFace;
use std::alloc::Global;
use std::collections::{BTreeMap, BTreeSet};
use zq_index::holders::{FacePlace, KeyHolders};
use zq_index::info::same_info;
use zq_key::Key;
use zq_key::memory::OutOfMemory;
use zq_key::message::{FaceId, QueryableInfoType, Zid};
use zq_key::text::Text;
use zq_strategy::seats::FacesById;
use zq_strategy::types::{Declaration, FinalMark, NodeIds, Strategy, UnregisterEntityResult};

/// The face declares the key under the id.
#[tactic(auto, using(std::proofs::lemmas::Map::Steps::set_value_same))]
pub fn declare(
    faces: &mut BTreeMap<u32, HatFace>,
    face: FaceId,
    id: u32,
    key: Key,
    info: QueryableInfoType,
) -> Result<(), OutOfMemory>
    requires { is_some (at_id face.0 faces.old.entries) ≡ true }
    ensures ok { OnOk result ((f : FaceState) → at_id face.0 faces.old.entries ≡ Some f → faces.new.entries ≡ set_value (is_at (nat_cmp face.0)) faces.old.entries (declare id key info f)) }
    ensures absent { OnErr result ((f : FaceState) → at_id face.0 faces.old.entries ≡ Some f → declaration id f ≡ None) }
    ensures err { OnErr result (faces.new.entries ≡ faces.old.entries) }
{
    match faces.get_mut(&face.0) {
        Some(found) => match found.declare(id, key, info) {
            Ok(()) => Ok(()),
            Err(error) => Err(error),
        },
        None => unreachable!(),
    }
}

/// The face withdraws the id.
pub fn withdraw(faces: &mut BTreeMap<u32, HatFace>, face: FaceId, id: u32)
    requires { is_some (at_id face.0 faces.old.entries) ≡ true }
    ensures { (f : FaceState) → at_id face.0 faces.old.entries ≡ Some f → faces.new.entries ≡ set_value (is_at (nat_cmp face.0)) faces.old.entries (withdraw id f) }
{
    match faces.get_mut(&face.0) {
        Some(found) => {
            let _ = found.withdraw(id);
        }
        None => unreachable!(),
    }
}

/// A mark of the face is set or unset.
#[tactic(auto, using(std::proofs::lemmas::Map::Steps::set_value_same))]
pub fn set_mark(
    faces: &mut BTreeMap<u32, HatFace>,
    alloc: Global,
    face: FaceId,
    mark: &FinalMark,
    set: bool,
) -> Result<(), OutOfMemory>
    requires { is_some (at_id face.0 faces.old.entries) ≡ true }
    ensures ok { OnOk result ((f : FaceState) → at_id face.0 faces.old.entries ≡ Some f → faces.new.entries ≡ set_value (is_at (nat_cmp face.0)) faces.old.entries (marked mark.now set f)) }
    ensures err { OnErr result (faces.new.entries ≡ faces.old.entries) }
{
    match faces.get_mut(&face.0) {
        Some(found) => match found.mark(alloc, mark, set) {
            Ok(()) => Ok(()),
            Err(error) => Err(error),
        },
        None => unreachable!(),
    }
}

/// The face has this node table from now on.
pub fn set_nodes(faces: &mut BTreeMap<u32, HatFace>, face: FaceId, ids: NodeIds)
    requires { is_some (at_id face.0 faces.old.entries) ≡ true }
    ensures { (f : FaceState) → at_id face.0 faces.old.entries ≡ Some f → faces.new.entries ≡ set_value (is_at (nat_cmp face.0)) faces.old.entries (record f { nodes = ids }) }
{
    match faces.get_mut(&face.0) {
        Some(found) => found.set_nodes(ids),
        None => unreachable!(),
    }
}

/// In a region of routers the face takes a seat of its id.
pub fn take_seat(
    seats: &mut FacesById,
    strategy: Strategy,
    zid: Zid,
    face: FaceId,
) -> Result<(), OutOfMemory>
    ensures ok { OnOk result (seats.new ≡ in_routers strategy (insert_key seat_cmp seats.old (zid.0, face.0)) seats.old) }
    ensures err { OnErr result (seats.new ≡ seats.old) }
{
    match strategy {
        Strategy::Broker | Strategy::Client | Strategy::Peer => Ok(()),
        Strategy::Router => seats.take(zid, face),
    }
}

/// The index without what the face declared.
pub fn forget(index: &mut KeyHolders<FacePlace>, number: u32, declared: &BTreeMap<u32, Declaration>)
    ensures { index.new ≡ fold (without_declared number) index.old declared.now.entries }
{
    for (id, declaration) in declared {
        index.take(declaration.key.as_str(), (number, *id));
    }
}

/// What became of the region's information on the key.
pub fn changed(
    key: Text,
    before: Option<QueryableInfoType>,
    after: Option<QueryableInfoType>,
) -> UnregisterEntityResult
    ensures { result ≡ changed key before after }
{
    match (before, after) {
        (_, None) => UnregisterEntityResult::LastUnregistered(key),
        (None, Some(_)) => UnregisterEntityResult::InfoUpdate(key),
        (Some(a), Some(b)) => {
            if same_info(a, b) {
                UnregisterEntityResult::DisableRoutes(key)
            } else {
                UnregisterEntityResult::InfoUpdate(key)
            }
        }
    }
}

/// Equal faces.
#[tactic(auto, using(zq_index::proofs::Rebuilt::rebuilt_numbers))]
pub fn copy_faces(
    faces: &BTreeMap<u32, HatFace>,
    alloc: Global,
) -> Result<BTreeMap<u32, HatFace>, OutOfMemory>
    ensures { IfOk result (λ f. f.entries ≡ faces.now.entries) }
{
    let mut made = BTreeMap::new(alloc);
    for (number, face) in faces {
        made.insert(*number, face.copy(alloc)?)?;
    }
    Ok(made)
}

/// The numbers of the faces join others.
pub fn add_numbers(
    found: &mut BTreeSet<u32>,
    faces: &BTreeMap<u32, HatFace>,
) -> Result<(), OutOfMemory>
    ensures { OnOk result (found.new.keys ≡ fold (insert_key nat_cmp) found.old.keys (keys_of faces.now.entries)) }
{
    for (number, _) in faces {
        found.insert(*number)?;
    }
    Ok(())
}
