//! What holds nodes of the names at each face.
ghost use Rattle.std.specs.Prelude.{◌≡◌, ℕ, ◌<◌, IfOk, IfNone, OnOk, OnErr, option_map, false, slice_get};
ghost use Rattle.std.specs.List.{Contains};
ghost use Rattle.std.specs.Map.{keys_of};
ghost use Rattle.zq_names.specs.Names.{ids};
ghost use Rattle.zq_tables.specs.Holding.{Declares, IsNext, are_numbers, change_ids, holds_by, ids_at, ids_in, node_at as node_of, settled_at, with_node, without_node};

use crate::face_nodes::FaceNodes;
use crate::holder::Holder;
use std::alloc::Global;
use std::collections::BTreeMap;
use zq_key::memory::OutOfMemory;
use zq_key::message::{Mapping, WireExpr};
use zq_names::{Names, ResourceId};

// The open faces, by number.
pub(crate) type Faces = BTreeMap<u32, FaceNodes>;

// The node of an id of a holder of the face.
pub(crate) fn node_at(faces: &Faces, face: u32, holder: Holder, id: u32) -> Option<ResourceId>
    ensures { option_map (λ r. r.0) result ≡ node_of holder face id faces.now.entries }
{
    match faces.get(&face) {
        Some(nodes) => nodes.node(holder, id),
        None => None,
    }
}

// The least id of a holder of the face.
pub(crate) fn first_at(faces: &Faces, face: u32, holder: Holder) -> Option<u32>
    ensures { result ≡ slice_get (keys_of (ids_in holder (ids_at face faces.now.entries))) 0 }
{
    match faces.get(&face) {
        Some(nodes) => nodes.first(holder),
        None => None,
    }
}

// Whether the face is closed, or the id stands for something there.
pub(crate) fn is_settled(faces: &Faces, face: u32, holder: Holder, id: u32) -> bool
    ensures { result ≡ settled_at holder face id faces.now.entries }
{
    match faces.get(&face) {
        Some(nodes) => nodes.node(holder, id).is_some(),
        None => true,
    }
}

// An id of a holder of the face is let go; its node, which stays as it is.
pub(crate) fn take_at(faces: &mut Faces, face: u32, holder: Holder, id: u32) -> Option<ResourceId>
    ensures node { option_map (λ r. r.0) result ≡ node_of holder face id faces.old.entries }
    ensures faces { faces.new.entries ≡ change_ids face (without_node holder id) faces.old.entries }
    ensures absent { IfNone result (faces.new.entries ≡ faces.old.entries) }
{
    match faces.get_mut(&face) {
        Some(nodes) => nodes.take(holder, id),
        None => None,
    }
}

// A new id of a holder of the face, which is no number, holds a node.
pub(crate) fn put_at(
    faces: &mut Faces,
    face: u32,
    holder: Holder,
    id: u32,
    node: ResourceId,
) -> Result<(), OutOfMemory>
    requires unnumbered { are_numbers holder ≡ false }
    ensures ok { OnOk result (faces.new.entries ≡ change_ids face (with_node holder id node.0) faces.old.entries) }
    ensures err { OnErr result (faces.new.entries ≡ faces.old.entries) }
{
    match faces.get_mut(&face) {
        Some(nodes) => nodes.put(holder, id, node),
        None => Ok(()),
    }
}

// The least free number of the face, which the gateway declares to it, holds a node.
pub(crate) fn put_given(
    faces: &mut Faces,
    face: u32,
    id: u16,
    node: ResourceId,
) -> Result<(), OutOfMemory>
    requires { IsNext face id faces.old.entries }
    ensures ok { OnOk result (faces.new.entries ≡ change_ids face (with_node (Holder.Number Mapping.Receiver) id node.0) faces.old.entries) }
    ensures err { OnErr result (faces.new.entries ≡ faces.old.entries) }
{
    match faces.get_mut(&face) {
        Some(nodes) => nodes.put_given(id, node),
        None => Ok(()),
    }
}

// The face declares a new number for a whole text, of which the node is made.
pub(crate) fn declare_at(
    alloc: Global,
    names: &mut Names,
    faces: &mut Faces,
    face: u32,
    id: u16,
    wire: &WireExpr,
) -> Result<ResourceId, OutOfMemory>
    requires live { (i : ℕ) → 0 < holds_by i faces.old.entries → Contains (ids names.old) i }
    requires new { settled_at (Holder.Number Mapping.Sender) face id faces.old.entries ≡ false }
    requires whole { wire.now.scope ≡ 0 }
    ensures ok { IfOk result (λ r. Declares names.old names.new faces.old.entries faces.new.entries face id wire.now.suffix r.0) }
    ensures names { OnErr result (names.new ≡ names.old) }
    ensures faces { OnErr result (faces.new.entries ≡ faces.old.entries) }
{
    match faces.get_mut(&face) {
        Some(nodes) => nodes.declare(alloc, names, id, wire),
        None => unreachable!(),
    }
}
