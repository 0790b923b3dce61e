//! Changes of the table of nodes.
ghost use Rattle.std.specs.Prelude.{◌≡◌, ◌≢◌, ℕ, ◌+◌, ◌<◌, ◌≤◌, ◌^◌, ◌++◌, ◌∷◌, [], slice_index, length, vec_len, true, None, Some, IfOk, IfSome, IfNone, OnOk, OnErr};
ghost use Rattle.std.specs.List.{All, Contains, insert, remove};
ghost use Rattle.slab.specs.Slab.{HasRoomFor, slab_len};
ghost use Rattle.zq_names.specs.Texts.{IsBelow, IsChainAfter, heads, heads_to, parent_of};
ghost use Rattle.zq_key.specs.Key.{is_key};
ghost use Rattle.zq_names.specs.Names.{IsLinked, IsSound, IsTable, IsGapAt, slot, row, rows, entry_of, texts, Adds, IsBareNode, text_at, IsIdle, IsPlaceOf, Cleans, removed_at};
ghost use Rattle.zq_names.specs.Coming.{coming};

use crate::forget::forget;
use crate::node::Node;
use crate::order::{has_below, known_end, last_slash, search_near};
use crate::part::Part;
use crate::{Seat, Tree};
use slab::Slab;
use std::alloc::Global;
use zq_key::memory::OutOfMemory;

// A node that is to come, and the memory for its place.
#[derive(Drop)]
pub(crate) struct Newcomer {
    node: Node,
    seat: Seat,
}

// Puts a node into the gap for its text. There is room for it.
pub(crate) fn put(
    nodes: &mut Slab<Node>,
    order: &mut Tree,
    at: usize,
    node: Node,
    seat: Seat,
) -> usize
    requires table { IsTable nodes.old.slots order.old }
    requires gap { IsGapAt (rows nodes.old.slots order.old) node.text at }
    requires bare { IsBareNode node }
    requires closed { (s : _) → IsBelow s node.text → Contains (texts (rows nodes.old.slots order.old)) s }
    requires node_room { HasRoomFor nodes.old 1 }
    requires order_room { length order.old + 1 < 2 ^ 64 }
    ensures table { IsTable nodes.new.slots order.new }
    ensures linked { IsLinked nodes.old.slots → IsLinked nodes.new.slots }
    ensures fresh { slot nodes.old.slots result ≡ None }
    ensures rows { rows nodes.new.slots order.new ≡ insert (rows nodes.old.slots order.old) at (entry_of result (Some node)) }
    ensures nodes_room { (slab_len nodes.new ≡ slab_len nodes.old + 1) × (nodes.new.capacity ≡ nodes.old.capacity) }
    ensures room { length order.new ≡ length order.old + 1 }
{
    let id = nodes.insert_reserved(node);
    order.insert(at, id, seat);
    id
}

// Puts a node where its text isn't there yet, and gives its place. It is looked for behind the last one first.
fn put_absent(nodes: &mut Slab<Node>, order: &mut Tree, last: usize, newcomer: Newcomer) -> usize
    requires table { IsTable nodes.old.slots order.old }
    requires bare { IsBareNode newcomer.node }
    requires closed { (s : _) → IsBelow s newcomer.node.text → Contains (texts (rows nodes.old.slots order.old)) s }
    requires node_room { HasRoomFor nodes.old 1 }
    requires order_room { length order.old + 1 < 2 ^ 64 }
    ensures table { IsTable nodes.new.slots order.new }
    ensures linked { IsLinked nodes.old.slots → IsLinked nodes.new.slots }
    ensures adds { Adds (rows nodes.old.slots order.old) (rows nodes.new.slots order.new) (newcomer.node.text ∷ []) }
    ensures nodes_room { (slab_len nodes.new ≤ slab_len nodes.old + 1) × (nodes.new.capacity ≡ nodes.old.capacity) }
    ensures room { length order.new ≤ length order.old + 1 }
{
    let Newcomer { node, seat } = newcomer;
    match search_near(nodes, order, last, node.text.as_str()) {
        Ok(place) => place,
        Err(gap) => {
            put(nodes, order, gap, node, seat);
            gap
        }
    }
}

// Puts the nodes whose texts aren't there yet. What such a text lies below is there, or comes before it.
// Gives the place of the last one, if there was one.
pub(crate) fn put_all(
    nodes: &mut Slab<Node>,
    order: &mut Tree,
    near: usize,
    pending: Vec<Newcomer>,
) -> usize
    requires table { IsTable nodes.old.slots order.old }
    requires bare { All (λ c. IsBareNode c.node) pending.items }
    requires chain { IsChainAfter (texts (rows nodes.old.slots order.old)) (coming pending.items) }
    requires node_room { HasRoomFor nodes.old (vec_len pending) }
    requires order_room { length order.old + vec_len pending < 2 ^ 64 }
    ensures table { IsTable nodes.new.slots order.new }
    ensures linked { IsLinked nodes.old.slots → IsLinked nodes.new.slots }
    ensures adds { Adds (rows nodes.old.slots order.old) (rows nodes.new.slots order.new) (coming pending.items) }
{
    let mut last = near;
    for newcomer in pending {
        last = put_absent(nodes, order, last, newcomer);
    }
    last
}

// The nodes of the parts of the text that end before a `/` from a place on, and of the text. They share its memory.
#[tactic(auto, using(crate::proofs::Fronts::front_key))]
pub(crate) fn pieces(alloc: Global, text: &str, from: usize) -> Result<Vec<Newcomer>, OutOfMemory>
    requires key { is_key text.now ≡ true }
    requires in_range { from ≤ length text.now }
    ensures texts { IfOk result (λ ns. heads_to text.now from ++ coming ns.items ≡ heads text.now) }
    ensures bare { IfOk result (λ ns. All (λ c. IsBareNode c.node) ns.items) }
{
    let whole = Part::new(alloc, text)?;
    let mut made = Vec::new(alloc);
    let bytes = text.as_bytes();
    for k in from..bytes.len() {
        if bytes[k] == b'/' {
            add_piece(alloc, &mut made, whole.cut(k)?)?;
        }
    }
    add_piece(alloc, &mut made, whole)?;
    Ok(made)
}

fn add_piece(alloc: Global, made: &mut Vec<Newcomer>, text: Part) -> Result<(), OutOfMemory>
    requires { is_key text ≡ true }
    ensures texts { OnOk result (coming made.new.items ≡ coming made.old.items ++ text ∷ []) }
    ensures bare { All (λ c. IsBareNode c.node) made.old.items → OnOk result (All (λ c. IsBareNode c.node) made.new.items) }
{
    let seat = Seat::new(alloc)?;
    let node = Node {
        text,
        context: false,
        holds: 0,
        matches: Vec::new(alloc),
        former: Vec::new(alloc),
    };
    made.push(Newcomer { node, seat })?;
    Ok(())
}

// Adds the text and the parts of it that end before a `/`. They are looked for right behind a place first. Room is made first, so want of memory changes nothing.
pub(crate) fn add_text(
    alloc: Global,
    nodes: &mut Slab<Node>,
    order: &mut Tree,
    near: usize,
    text: &str,
) -> Result<usize, OutOfMemory>
    requires table { IsTable nodes.old.slots order.old }
    requires key { is_key text.now ≡ true }
    ensures table { IsTable nodes.new.slots order.new }
    ensures linked { IsLinked nodes.old.slots → IsLinked nodes.new.slots }
    ensures adds { OnOk result (Adds (rows nodes.old.slots order.old) (rows nodes.new.slots order.new) (heads text.now)) }
    ensures id { IfOk result (λ id. Contains order.new id × ((row nodes.new.slots id).text ≡ text.now)) }
    ensures err { OnErr result ((nodes.new.slots ≡ nodes.old.slots) × (order.new ≡ order.old)) }
{
    let from = known_end(nodes, order, near, text);
    let pending = pieces(alloc, text, from)?;
    if order.len() >= usize::MAX - pending.len() {
        return Err(OutOfMemory);
    }
    nodes.reserve(pending.len())?;
    let last = put_all(nodes, order, near, pending);
    match search_near(nodes, order, last.saturating_sub(1), text) {
        Ok(at) => Ok(order.get(at)),
        Err(_) => unreachable!(),
    }
}

// Takes out the node at a place past the root's, which has no text below it. Others may still have its number among their matches.
fn take_out(nodes: &mut Slab<Node>, order: &mut Tree, at: usize) -> Node
    requires table { IsTable nodes.old.slots order.old }
    requires in_range { at < length order.old }
    requires past_root { 0 < at }
    requires lonely { (s : _) → Contains (texts (rows nodes.old.slots order.old)) s → IsBelow (text_at (rows nodes.old.slots order.old) at) s → ⊥ }
    ensures table { IsTable nodes.new.slots order.new }
    ensures rows { rows nodes.new.slots order.new ≡ remove (rows nodes.old.slots order.old) at }
    ensures was { slot nodes.old.slots (slice_index order.old at) ≡ Some result }
    ensures gone { slot nodes.new.slots (slice_index order.old at) ≡ None }
    ensures others { (j : ℕ) → j ≢ slice_index order.old at → slot nodes.new.slots j ≡ slot nodes.old.slots j }
    ensures text { result.text ≡ text_at (rows nodes.old.slots order.old) at }
    ensures fewer { length order.new + 1 ≡ length order.old }
{
    let id = order.remove(at);
    nodes.remove(id)
}

// Takes out the node at a place past the root's, which has no text below it, and gives its text. No other has its number among its matches afterwards.
pub(crate) fn remove_at(nodes: &mut Slab<Node>, order: &mut Tree, at: usize) -> Part
    requires sound { IsSound nodes.old.slots order.old }
    requires in_range { at < length order.old }
    requires past_root { 0 < at }
    requires lonely { (s : _) → Contains (texts (rows nodes.old.slots order.old)) s → IsBelow (text_at (rows nodes.old.slots order.old) at) s → ⊥ }
    ensures sound { IsSound nodes.new.slots order.new }
    ensures rows { rows nodes.new.slots order.new ≡ removed_at (rows nodes.old.slots order.old) at }
    ensures text { result ≡ text_at (rows nodes.old.slots order.old) at }
    ensures fewer { length order.new + 1 ≡ length order.old }
{
    let id = order.get(at) as u64;
    let Node {
        text,
        context: _,
        holds: _,
        matches,
        former,
    } = take_out(nodes, order, at);
    forget(nodes, &matches, id);
    forget(nodes, &former, id);
    text
}

// Takes out the node at the place if it is idle, and gives its text.
fn take_idle(nodes: &mut Slab<Node>, order: &mut Tree, at: usize) -> Option<Part>
    requires sound { IsSound nodes.old.slots order.old }
    requires in_range { at < length order.old }
    ensures sound { IsSound nodes.new.slots order.new }
    ensures stays { IfNone result ((rows nodes.new.slots order.new ≡ rows nodes.old.slots order.old) × (IsIdle (rows nodes.old.slots order.old) at → ⊥)) }
    ensures taken { IfSome result (λ t. IsIdle (rows nodes.old.slots order.old) at × (rows nodes.new.slots order.new ≡ removed_at (rows nodes.old.slots order.old) at) × (t ≡ text_at (rows nodes.old.slots order.old) at)) }
    ensures fewer { IfSome result (λ _. length order.new + 1 ≡ length order.old) }
{
    if at == 0 {
        return None;
    }
    let node = &nodes[order.get(at)];
    if node.holds != 0 {
        return None;
    }
    if has_below(nodes, order, at, node.text.as_str()) {
        return None;
    }
    Some(remove_at(nodes, order, at))
}

// The place of the text's parent. It is looked for right before a place first.
fn parent_place(nodes: &Slab<Node>, order: &Tree, at: usize, text: &str) -> usize
    requires table { IsTable nodes.now.slots order.now }
    requires parent { Contains (texts (rows nodes.now.slots order.now)) (parent_of text.now) }
    ensures { IsPlaceOf (rows nodes.now.slots order.now) (parent_of text.now) result }
{
    match last_slash(text.as_bytes()) {
        None => 0,
        Some(k) => match search_near(nodes, order, at.saturating_sub(2), &text[..k]) {
            Ok(at) => at,
            Err(_) => unreachable!(),
        },
    }
}

// Takes out idle nodes, from a place on towards the root.
pub(crate) fn clean_from(nodes: &mut Slab<Node>, order: &mut Tree, place: usize)
    requires sound { IsSound nodes.old.slots order.old }
    requires in_range { place < length order.old }
    ensures sound { IsSound nodes.new.slots order.new }
    ensures cleans { Cleans (rows nodes.old.slots order.old) (text_at (rows nodes.old.slots order.old) place) (rows nodes.new.slots order.new) }
{
    let mut at = place;
    while let Some(text) = take_idle(nodes, order, at) {
        at = parent_place(nodes, order, at, text.as_str());
    }
}
