//! The nodes whose texts meet a key.
//!
//! The nodes are looked at in the order of their texts. Where the first bytes of a text already show that it doesn't meet the key,
//! all texts that begin with these bytes are passed over by one search, so that a plain key isn't compared to every plain text.
ghost use Rattle.std.specs.Prelude.{◌≡◌, ◌+◌, ◌<◌, ◌≤◌, ◌++◌, ◌∷◌, [], true, length, map, take, drop, filter, slice_index, IfOk};
ghost use Rattle.zq_key.specs.Key.{is_key};
ghost use Rattle.zq_names.specs.Names.{IsTable, NameEntry, rows, ids, SplitsAt};
ghost use Rattle.zq_names.specs.Matching.{number, is_match};

use crate::Tree;
use crate::node::{Node, ResourceId};
use crate::order::lower_bound;
use slab::Slab;
use std::alloc::Global;
use zq_key::intersects;
use zq_key::memory::OutOfMemory;
use zq_key::pruning::apart;

// The first place after those whose texts begin with the head and the byte.
fn after_run(nodes: &Slab<Node>, order: &Tree, head: &[u8], byte: u8) -> usize
    requires table { IsTable nodes.now.slots order.now }
    requires byte { byte < 255 }
    ensures { SplitsAt (rows nodes.now.slots order.now) (head.now ++ (byte + 1) ∷ []) result }
{
    lower_bound(nodes, order, head, &[byte + 1])
}

// Looks at the node at a place, and gives the next place to look at.
fn look(
    nodes: &Slab<Node>,
    order: &Tree,
    found: &mut Vec<ResourceId>,
    i: usize,
    key: &str,
) -> Result<usize, OutOfMemory>
    requires table { IsTable nodes.now.slots order.now }
    requires in_range { i < length order.now }
    requires key { is_key key.now ≡ true }
    ensures bounds { IfOk result (λ j. (i < j) × (j ≤ length order.now)) }
    ensures found { IfOk result (λ j. map number found.new.items ≡ map number found.old.items ++ ids (filter (is_match key.now) (drop i (take j (rows nodes.now.slots order.now))))) }
{
    let _count = order.len();
    let id = order.get(i);
    let node = &nodes[id];
    let text = node.text.as_str();
    let bytes = text.as_bytes();
    if let Some(k) = apart(bytes, key.as_bytes()) {
        return Ok(after_run(nodes, order, &bytes[..k], bytes[k]));
    }
    if !node.context {
        return Ok(i + 1);
    }
    if text.is_empty() {
        return Ok(i + 1);
    }
    if !intersects(text, key) {
        return Ok(i + 1);
    }
    match found.push(ResourceId(id as u64)) {
        Ok(()) => Ok(i + 1),
        Err(_) => Err(OutOfMemory),
    }
}

// The nodes with a context whose texts the key meets, by text.
pub(crate) fn matches_of(
    alloc: Global,
    nodes: &Slab<Node>,
    order: &Tree,
    key: &str,
) -> Result<Vec<ResourceId>, OutOfMemory>
    requires table { IsTable nodes.now.slots order.now }
    requires key { is_key key.now ≡ true }
    ensures { IfOk result (λ rs. map number rs.items ≡ ids (filter (is_match key.now) (rows nodes.now.slots order.now))) }
{
    let mut found = Vec::new(alloc);
    let mut i = 0;
    while i < order.len() {
        i = look(nodes, order, &mut found, i, key)?;
    }
    Ok(found)
}
