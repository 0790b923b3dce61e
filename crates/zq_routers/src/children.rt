//! The children of trees, the faces on them, and what these are told of a key.
ghost use Rattle.std.specs.Prelude.{◌≡◌, ◌++◌, IfOk, None, OnOk, Some, if◌then◌else◌, map, option_map};
ghost use Rattle.std.specs.Option.{option_to_list};
ghost use Rattle.std.specs.List.{filter_map, list_any};
ghost use Rattle.std.specs.BTreeMap.{is_at};
ghost use Rattle.std.specs.Ordering.{nat_cmp};
ghost use Rattle.zq_message.specs.declared.message.Zid.{Zid};
ghost use Rattle.zq_strategy.specs.Nets.{child_at, child_ids, children_of, fresh_ids, is_zid};
ghost use Rattle.zq_strategy.specs.Seating.{number, other_seated, seated};
ghost use Rattle.zq_strategy.specs.Tellings.{children_told, tree_telling};

use std::alloc::Global;
use std::collections::BTreeSet;
use zq_key::items::Items;
use zq_key::memory::OutOfMemory;
use zq_key::message::{FaceId, NodeId, QueryableInfoType, Zid};
use zq_key::text::Text;
use zq_strategy::nets::IndexedNetwork;
use zq_strategy::network::{Network, Telling, TellingList, Tree};
use zq_strategy::seats::FacesById;

/// Puts the item, if there is one, at the end.
fn push_some<T: Copy>(list: &mut Vec<T>, item: Option<T>) -> Result<(), OutOfMemory>
    ensures { OnOk result (list.new.items ≡ list.old.items ++ option_to_list item) }
{
    match item {
        Some(item) => {
            list.push(item)?;
            Ok(())
        }
        None => Ok(()),
    }
}

/// The id at a place, if a message can name the place.
fn child_at(net: &Network, place: u32) -> Option<Zid>
    ensures { result ≡ child_at net.now place }
{
    let place = u16::try_from(place).ok()?;
    net.nodes.get(usize::from(place)).copied()
}

/// The ids of a tree's children: those at places that a message can name.
pub fn child_ids(alloc: Global, net: &Network, tree: &Tree) -> Result<Vec<Zid>, OutOfMemory>
    ensures { IfOk result (λ ids. ids.items ≡ child_ids net.now tree.now) }
{
    let places = tree.children.as_slice();
    let mut ids = Vec::with_capacity(alloc, places.len())?;
    for place in places {
        push_some(&mut ids, child_at(net, *place))?;
    }
    Ok(ids)
}

/// The ids of the children of the tree at the root's place.
pub fn children_of(alloc: Global, net: &IndexedNetwork, root: Zid) -> Result<Vec<Zid>, OutOfMemory>
    ensures { IfOk result (λ ids. ids.items ≡ children_of net.now root) }
{
    match net.tree_of(root) {
        Some(tree) => child_ids(alloc, net.network(), tree),
        None => Ok(Vec::new(alloc)),
    }
}

/// The ids of the children of the tree at the root's place, by id.
fn old_children(
    alloc: Global,
    old: &IndexedNetwork,
    root: Zid,
) -> Result<BTreeSet<u128>, OutOfMemory>
    ensures { IfOk result (λ ids. (zid : Zid) → list_any (is_at (nat_cmp zid.0)) ids.keys ≡ list_any (is_zid zid) (children_of old.now root)) }
{
    let mut ids = BTreeSet::new(alloc);
    for zid in &children_of(alloc, old, root)? {
        ids.insert(zid.0)?;
    }
    Ok(ids)
}

/// The id, if it is not among these.
fn unless_among(ids: &BTreeSet<u128>, zid: Zid) -> Option<Zid>
    ensures { result ≡ if list_any (is_at (nat_cmp zid.0)) ids.now.keys then None else Some zid }
{
    if ids.contains(&zid.0) {
        None
    } else {
        Some(zid)
    }
}

/// The ids that the old tree of the root did not have as children.
pub fn fresh_ids(
    alloc: Global,
    old: &IndexedNetwork,
    root: Zid,
    ids: &[Zid],
) -> Result<Vec<Zid>, OutOfMemory>
    ensures { IfOk result (λ fresh. fresh.items ≡ fresh_ids old.now root ids.now) }
{
    let had = old_children(alloc, old, root)?;
    let mut fresh = Vec::with_capacity(alloc, ids.len())?;
    for zid in ids {
        push_some(&mut fresh, unless_among(&had, *zid))?;
    }
    Ok(fresh)
}

/// The open face of least number with the id, if it is not the one that the call came from.
fn other_face(seats: &FacesById, from: Option<FaceId>, zid: Zid) -> Option<FaceId>
    ensures { result ≡ other_seated (option_map number from) seats.now zid }
{
    let face = seats.face_with(zid)?;
    match from {
        Some(from) => { if face.0 == from.0 { None } else { Some(face) } }
        None => Some(face),
    }
}

/// The open faces of least number with the ids, without the one that the call came from.
pub fn faces_of(
    alloc: Global,
    seats: &FacesById,
    from: Option<FaceId>,
    ids: &[Zid],
) -> Result<Vec<FaceId>, OutOfMemory>
    ensures { IfOk result (λ faces. faces.items ≡ filter_map (other_seated (option_map number from) seats.now) ids.now) }
{
    let mut faces = Vec::with_capacity(alloc, ids.len())?;
    for zid in ids {
        push_some(&mut faces, other_face(seats, from, *zid))?;
    }
    Ok(faces)
}

/// The faces are told of a key of the root at the place.
fn tell_faces(
    alloc: Global,
    faces: &[FaceId],
    node: NodeId,
    key: &str,
    info: Option<QueryableInfoType>,
) -> Result<TellingList, OutOfMemory>
    ensures { IfOk result (λ ts. ts ≡ map (tree_telling key.now info node) (map number faces.now)) }
{
    let mut tellings = Items::new(alloc);
    for face in faces {
        tellings.push(Telling {
            face: *face,
            id: 0,
            key: Text::new(alloc, key)?,
            info,
            node,
        })?;
    }
    Ok(tellings)
}

/// What the open faces on the children of a root's tree are told of a key, without the face that the
/// call came from: nothing where the network has no place for the root that a message can name.
#[tactic(auto, using(zq_strategy::proofs::Sitting::faces_are))]
pub fn tell_children(
    alloc: Global,
    net: &IndexedNetwork,
    seats: &FacesById,
    from: Option<FaceId>,
    root: Zid,
    key: &str,
    info: Option<QueryableInfoType>,
) -> Result<TellingList, OutOfMemory>
    ensures { IfOk result (λ ts. ts ≡ children_told (option_map number from) (λ zid. seated zid seats.now) net.now root key.now info) }
{
    match net.place_of(root) {
        Some(node) => {
            let ids = children_of(alloc, net, root)?;
            let faces = faces_of(alloc, seats, from, &ids)?;
            tell_faces(alloc, &faces, node, key, info)
        }
        None => Ok(Items::new(alloc)),
    }
}
