//! How a node gets its matches, and each of them gets it.
ghost use Rattle.std.specs.Prelude.{◌≡◌, ◌≤◌, ◌<◌, IsSome, IsOk, IfOk, OnOk, OnErr, vec_len, vec_capacity, true, ◌⊎◌, ◌∷◌, []};
ghost use Rattle.std.specs.List.{All};
ghost use Rattle.zq_names.specs.Names.{slot};
ghost use Rattle.zq_names.specs.Linking.{has_number, with_member, HasRoom, IsReadyFor, IsRoomier, Joins, HasBoth, Links};

use crate::node::{Node, ResourceId};
use slab::Slab;
use std::alloc::Global;
use zq_key::memory::OutOfMemory;

fn is_among(members: &[ResourceId], r: ResourceId) -> bool
    ensures { result ≡ has_number members.now r.0 }
{
    members.iter().any(|m| m.0 == r.0)
}

// Puts a number at the end of the list, unless it is there.
fn add_member(members: &mut Vec<ResourceId>, r: ResourceId) -> Result<(), OutOfMemory>
    ensures ok { OnOk result (members.new.items ≡ with_member members.old.items r) }
    ensures err { OnErr result (members.new.items ≡ members.old.items) }
    ensures succeeds { (has_number members.old.items r.0 ≡ true) ⊎ (vec_len members.old < vec_capacity members.old) → IsOk result }
{
    if is_among(members, r) {
        return Ok(());
    }
    match members.push(r) {
        Ok(()) => Ok(()),
        Err(_) => Err(OutOfMemory),
    }
}

// The two lists as one.
fn merged(
    alloc: Global,
    former: &[ResourceId],
    matches: &[ResourceId],
) -> Result<Vec<ResourceId>, OutOfMemory>
    ensures { IfOk result (λ all. HasBoth former.now matches.now all.items) }
{
    let mut all = Vec::from_slice(alloc, former)?;
    for m in matches {
        add_member(&mut all, *m)?;
    }
    Ok(all)
}

fn add_room(node: &mut Node) -> Result<(), OutOfMemory>
    ensures matches { node.new.matches.items ≡ node.old.matches.items }
    ensures text { node.new.text ≡ node.old.text }
    ensures context { node.new.context ≡ node.old.context }
    ensures holds { node.new.holds ≡ node.old.holds }
    ensures former { node.new.former ≡ node.old.former }
    ensures room { OnOk result (vec_len node.new.matches < vec_capacity node.new.matches) }
    ensures kept { (vec_len node.new.matches ≡ vec_len node.old.matches) × (vec_capacity node.old.matches ≤ vec_capacity node.new.matches) }
{
    node.matches.reserve(1)?;
    Ok(())
}

// Makes room for one more match in the nodes of a list.
fn make_room(nodes: &mut Slab<Node>, members: &[ResourceId]) -> Result<(), OutOfMemory>
    requires { All (λ m. IsSome (slot nodes.old.slots m.0)) members.now }
    ensures same { IsRoomier nodes.old.slots nodes.new.slots }
    ensures room { OnOk result (All (λ m. HasRoom (slot nodes.new.slots m.0)) members.now) }
{
    for member in members {
        add_room(&mut nodes[member.0 as usize])?;
    }
    Ok(())
}

fn add_match(node: &mut Node, r: ResourceId)
    requires { (has_number node.old.matches.items r.0 ≡ true) ⊎ (vec_len node.old.matches < vec_capacity node.old.matches) }
    ensures matches { node.new.matches.items ≡ with_member node.old.matches.items r }
    ensures text { node.new.text ≡ node.old.text }
    ensures context { node.new.context ≡ node.old.context }
    ensures holds { node.new.holds ≡ node.old.holds }
    ensures former { node.new.former ≡ node.old.former }
{
    if add_member(&mut node.matches, r).is_err() {
        unreachable!()
    }
}

fn add_to(nodes: &mut Slab<Node>, member: ResourceId, r: ResourceId)
    requires live { IsSome (slot nodes.old.slots member.0) }
    requires ready { IsReadyFor r (slot nodes.old.slots member.0) }
    ensures { Joins nodes.old.slots nodes.new.slots r (member ∷ []) }
{
    add_match(&mut nodes[member.0 as usize], r);
}

// Puts a number among the matches of the nodes of a list, where it isn't there yet.
fn add_to_all(nodes: &mut Slab<Node>, members: &[ResourceId], r: ResourceId)
    requires live { All (λ m. IsSome (slot nodes.old.slots m.0)) members.now }
    requires ready { All (λ m. IsReadyFor r (slot nodes.old.slots m.0)) members.now }
    ensures { Joins nodes.old.slots nodes.new.slots r members.now }
{
    for member in members {
        add_to(nodes, *member, r);
    }
}

// Gives a node its matches, and gives it to each of them. Room is made first, so want of memory changes nothing that a contract sees.
pub(crate) fn link(
    alloc: Global,
    nodes: &mut Slab<Node>,
    r: ResourceId,
    members: Vec<ResourceId>,
) -> Result<(), OutOfMemory>
    requires live { IsSome (slot nodes.old.slots r.0) }
    requires members { All (λ m. IsSome (slot nodes.old.slots m.0)) members.items }
    ensures ok { OnOk result (Links nodes.old.slots nodes.new.slots r members.items) }
    ensures err { OnErr result (IsRoomier nodes.old.slots nodes.new.slots) }
{
    let node = &nodes[r.0 as usize];
    let former = merged(alloc, &node.former, &node.matches)?;
    make_room(nodes, &members)?;
    add_to_all(nodes, &members, r);
    let node = &mut nodes[r.0 as usize];
    node.former = former;
    node.matches = members;
    Ok(())
}
