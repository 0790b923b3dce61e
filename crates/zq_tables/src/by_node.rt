//! The ids of one side of a face in a row, by their nodes, which stand in a map beside it. Room for an id is taken before anything changes.
ghost use Rattle.std.specs.Prelude.{◌≡◌, ◌+◌, ◌<◌, ◌≤◌, ◌^◌, length, true, false, Some, OnOk};
ghost use Rattle.std.specs.List.{All};
ghost use Rattle.std.specs.List.Sorted.{IsStrictlySortedBy};
ghost use Rattle.std.specs.Map.{keys_of};
ghost use Rattle.std.specs.Ordering.{nat_cmp};
ghost use Rattle.zq_tables.specs.FaceIds.{of_id, least_id as least_of_node};
ghost use Rattle.zq_tables.specs.FaceIndex.{rank, rank_of, HasNode, IsIndex, Divides, Comes, Goes};

use std::alloc::Global;
use std::collections::BTreeMap;
use zq_key::memory::OutOfMemory;
use zq_names::{Seat, Tree};

// The memory for one more id.
pub(crate) fn seat_in(row: &Tree, alloc: Global) -> Result<Seat, OutOfMemory>
    ensures { OnOk result (length row.now + 1 < 2 ^ 64) }
{
    if row.len() == usize::MAX {
        return Err(OutOfMemory);
    }
    Ok(Seat::new(alloc)?)
}

fn node_of(nodes: &BTreeMap<u16, u64>, id: usize) -> u64
    requires { HasNode nodes.now.entries id }
    ensures { of_id nodes.now.entries id ≡ Some result }
{
    match nodes.get(&(id as u16)) {
        Some(node) => *node,
        None => unreachable!(),
    }
}

// Whether the id comes before another of a node.
fn is_before(nodes: &BTreeMap<u16, u64>, id: usize, node: u64, other: u16) -> bool
    requires { HasNode nodes.now.entries id }
    ensures before { result ≡ true → rank_of nodes.now.entries id < rank node other }
    ensures not_before { result ≡ false → rank node other ≤ rank_of nodes.now.entries id }
{
    let own = node_of(nodes, id);
    if own == node {
        return id < other as usize;
    }
    own < node
}

// The place of the id of a node, or where it would go.
fn place_of(nodes: &BTreeMap<u16, u64>, row: &Tree, node: u64, id: u16) -> usize
    requires { All (HasNode nodes.now.entries) row.now }
    ensures { Divides nodes.now.entries (rank node id) row.now result }
{
    row.partition_point(|other| is_before(nodes, other, node, id))
}

// The least id of the node.
pub(crate) fn least_of(nodes: &BTreeMap<u16, u64>, row: &Tree, node: u64) -> Option<u16>
    requires index { IsIndex nodes.now.entries row.now }
    requires ordered { IsStrictlySortedBy nat_cmp (keys_of nodes.now.entries) }
    ensures { result ≡ least_of_node nodes.now.entries node }
{
    let at = place_of(nodes, row, node, 0);
    if at >= row.len() {
        return None;
    }
    let id = row.get(at);
    if node_of(nodes, id) != node {
        return None;
    }
    Some(id as u16)
}

// Puts in the id of a node.
pub(crate) fn put_in(nodes: &BTreeMap<u16, u64>, row: &mut Tree, node: u64, id: u16, seat: Seat)
    requires nodes { All (HasNode nodes.now.entries) row.old }
    requires room { length row.old + 1 < 2 ^ 64 }
    ensures { Comes nodes.now.entries row.old row.new (rank node id) id }
{
    let at = place_of(nodes, row, node, id);
    row.insert(at, id as usize, seat);
}

// Takes out the id of a node.
pub(crate) fn take_out(nodes: &BTreeMap<u16, u64>, row: &mut Tree, node: u64, id: u16)
    requires index { IsIndex nodes.now.entries row.old }
    requires node { of_id nodes.now.entries id ≡ Some node }
    ensures { Goes row.old row.new id }
{
    let at = place_of(nodes, row, node, id);
    let _ = row.remove(at);
}
