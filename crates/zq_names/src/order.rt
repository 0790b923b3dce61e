//! The order of the nodes by their texts.
ghost use Rattle.std.specs.Prelude.{◌≡◌, ◌+◌, ◌<◌, ◌≤◌, ◌++◌, [], length, take, slice_index, IsSome, IfOk, IfErr, IfSome, IfNone, true, false};
ghost use Rattle.std.specs.Ordering.{is_lt, is_eq};
ghost use Rattle.std.specs.List.{Contains, position};
ghost use Rattle.zq_names.specs.Texts.{text_cmp, is_star_byte, IsBelow, IsCutBefore, IsKnownTo, nonwild, parent_of};
ghost use Rattle.zq_names.specs.Names.{AreLive, Rises, SplitsAt, slot, row, rows, texts, IsGapAt, IsPlaceOf, HasBelow, IsTable};

use crate::Tree;
use crate::node::Node;
use slab::Slab;
use std::cmp::Ordering;

// Compares the text to the head followed by the tail.
fn compare_joined(text: &[u8], head: &[u8], tail: &[u8]) -> Ordering
    ensures { result ≡ text_cmp text.now (head.now ++ tail.now) }
{
    if text.len() < head.len() {
        return text.cmp(head);
    }
    let (front, rest) = text.split_at(head.len());
    front.cmp(head).then(rest.cmp(tail))
}

fn is_before(nodes: &Slab<Node>, id: usize, head: &[u8], tail: &[u8]) -> bool
    requires { IsSome (slot nodes.now.slots id) }
    ensures { result ≡ is_lt (text_cmp (row nodes.now.slots id).text (head.now ++ tail.now)) }
{
    compare_joined(nodes[id].text.as_str().as_bytes(), head, tail).is_lt()
}

// The first place whose text isn't less than the head followed by the tail.
pub(crate) fn lower_bound(nodes: &Slab<Node>, order: &Tree, head: &[u8], tail: &[u8]) -> usize
    requires live { AreLive nodes.now.slots order.now }
    requires rising { Rises (rows nodes.now.slots order.now) }
    ensures { SplitsAt (rows nodes.now.slots order.now) (head.now ++ tail.now) result }
{
    order.partition_point(|id| is_before(nodes, id, head, tail))
}

// Whether the node's text is the head followed by the tail.
fn is_joined(nodes: &Slab<Node>, id: usize, head: &[u8], tail: &[u8]) -> bool
    requires { IsSome (slot nodes.now.slots id) }
    ensures { result ≡ is_eq (text_cmp (row nodes.now.slots id).text (head.now ++ tail.now)) }
{
    compare_joined(nodes[id].text.as_str().as_bytes(), head, tail).is_eq()
}

// The same as `lower_bound`. It looks right behind a place first.
fn lower_bound_near(
    nodes: &Slab<Node>,
    order: &Tree,
    near: usize,
    head: &[u8],
    tail: &[u8],
) -> usize
    requires live { AreLive nodes.now.slots order.now }
    requires rising { Rises (rows nodes.now.slots order.now) }
    ensures { SplitsAt (rows nodes.now.slots order.now) (head.now ++ tail.now) result }
{
    let count = order.len();
    if near >= count {
        return lower_bound(nodes, order, head, tail);
    }
    if !is_before(nodes, order.get(near), head, tail) {
        return lower_bound(nodes, order, head, tail);
    }
    if near + 1 >= count {
        return near + 1;
    }
    if is_before(nodes, order.get(near + 1), head, tail) {
        return lower_bound(nodes, order, head, tail);
    }
    near + 1
}

// Whether the head followed by the tail stands at a place that no lesser text is behind.
fn look_at(
    nodes: &Slab<Node>,
    order: &Tree,
    at: usize,
    head: &[u8],
    tail: &[u8],
) -> Result<usize, usize>
    requires live { AreLive nodes.now.slots order.now }
    requires rising { Rises (rows nodes.now.slots order.now) }
    requires split { SplitsAt (rows nodes.now.slots order.now) (head.now ++ tail.now) at }
    ensures found { IfOk result (IsPlaceOf (rows nodes.now.slots order.now) (head.now ++ tail.now)) }
    ensures gap { IfErr result (IsGapAt (rows nodes.now.slots order.now) (head.now ++ tail.now)) }
{
    if at >= order.len() {
        return Err(at);
    }
    if is_joined(nodes, order.get(at), head, tail) {
        return Ok(at);
    }
    Err(at)
}

// The place of the head followed by the tail, or where it would go.
pub(crate) fn search(
    nodes: &Slab<Node>,
    order: &Tree,
    head: &str,
    tail: &str,
) -> Result<usize, usize>
    requires live { AreLive nodes.now.slots order.now }
    requires rising { Rises (rows nodes.now.slots order.now) }
    ensures found { IfOk result (IsPlaceOf (rows nodes.now.slots order.now) (head.now ++ tail.now)) }
    ensures gap { IfErr result (IsGapAt (rows nodes.now.slots order.now) (head.now ++ tail.now)) }
{
    let front = head.as_bytes();
    let rest = tail.as_bytes();
    let at = lower_bound(nodes, order, front, rest);
    look_at(nodes, order, at, front, rest)
}

// The place of the text, or where it would go. It is looked for right behind a place first.
pub(crate) fn search_near(
    nodes: &Slab<Node>,
    order: &Tree,
    near: usize,
    text: &str,
) -> Result<usize, usize>
    requires live { AreLive nodes.now.slots order.now }
    requires rising { Rises (rows nodes.now.slots order.now) }
    ensures found { IfOk result (IsPlaceOf (rows nodes.now.slots order.now) text.now) }
    ensures gap { IfErr result (IsGapAt (rows nodes.now.slots order.now) text.now) }
{
    let bytes = text.as_bytes();
    let at = lower_bound_near(nodes, order, near, bytes, b"");
    look_at(nodes, order, at, bytes, b"")
}

// Whether the text is there. One that lies below it is looked for at a place first.
fn stands_near(nodes: &Slab<Node>, order: &Tree, near: usize, text: &str) -> bool
    requires { IsTable nodes.now.slots order.now }
    ensures { result ≡ true → Contains (texts (rows nodes.now.slots order.now)) text.now }
{
    if near >= order.len() {
        return stands(nodes, order, text);
    }
    if is_below(nodes, order.get(near), text) {
        return true;
    }
    stands(nodes, order, text)
}

// Whether the text is there.
fn stands(nodes: &Slab<Node>, order: &Tree, text: &str) -> bool
    requires live { AreLive nodes.now.slots order.now }
    requires rising { Rises (rows nodes.now.slots order.now) }
    ensures { result ≡ true → Contains (texts (rows nodes.now.slots order.now)) text.now }
{
    matches!(search(nodes, order, text, ""), Ok(_))
}

// The first place with a `/` among some.
fn slash_between(text: &[u8], low: usize, high: usize) -> Option<usize>
    requires { high ≤ length text.now }
    ensures { IfSome result (λ k. (low ≤ k) × (k < high) × (slice_index text.now k ≡ 47)) }
{
    for k in low..high {
        if text[k] == b'/' {
            return Some(k);
        }
    }
    None
}

// A place up to which all parts of the text that end before a `/` are there: the last one, which no clause says.
// The longest part is looked for near a place first.
pub(crate) fn known_end(nodes: &Slab<Node>, order: &Tree, near: usize, text: &str) -> usize
    requires table { IsTable nodes.now.slots order.now }
    ensures { IsKnownTo (texts (rows nodes.now.slots order.now)) text.now result }
{
    let bytes = text.as_bytes();
    let mut low = 0;
    let mut high = bytes.len();
    if let Some(k) = last_slash(bytes) {
        if stands_near(nodes, order, near, &text[..k]) {
            return k + 1;
        }
        high = k;
    }
    while low < high {
        let mid = low + (high - low) / 2;
        match slash_between(bytes, mid, high) {
            None => high = mid,
            Some(k) => {
                if stands(nodes, order, &text[..k]) {
                    low = k + 1;
                } else {
                    high = k;
                }
            }
        }
    }
    low
}

// Whether the node's text lies below the text.
fn is_below(nodes: &Slab<Node>, id: usize, text: &str) -> bool
    requires { IsSome (slot nodes.now.slots id) }
    ensures below { result ≡ true → IsBelow text.now (row nodes.now.slots id).text }
    ensures not_below { result ≡ false → IsBelow text.now (row nodes.now.slots id).text → ⊥ }
{
    let bytes = nodes[id].text.as_str().as_bytes();
    let head = text.as_bytes();
    if head.len() >= bytes.len() {
        return false;
    }
    if bytes[head.len()] != b'/' {
        return false;
    }
    &bytes[..head.len()] == head
}

// Whether some text lies below the text. It is looked for right behind a place first.
pub(crate) fn has_below(nodes: &Slab<Node>, order: &Tree, near: usize, text: &str) -> bool
    requires live { AreLive nodes.now.slots order.now }
    requires rising { Rises (rows nodes.now.slots order.now) }
    ensures below { result ≡ true → HasBelow (rows nodes.now.slots order.now) text.now }
    ensures none { result ≡ false → HasBelow (rows nodes.now.slots order.now) text.now → ⊥ }
{
    let at = lower_bound_near(nodes, order, near, text.as_bytes(), b"/");
    if at >= order.len() {
        return false;
    }
    is_below(nodes, order.get(at), text)
}

// The last place with a `/`.
pub(crate) fn last_slash(text: &[u8]) -> Option<usize>
    ensures none { IfNone result (parent_of text.now ≡ []) }
    ensures found { IfSome result (λ k. (k < length text.now) × (slice_index text.now k ≡ 47) × (parent_of text.now ≡ take k text.now)) }
{
    for k in (0..text.len()).rev() {
        if text[k] == b'/' {
            return Some(k);
        }
    }
    None
}

// The first place with a `*`.
fn first_star(text: &[u8]) -> Option<usize>
    ensures { result ≡ position is_star_byte text.now }
{
    text.iter().position(|c| *c == b'*')
}

// The place before which the text is cut so that no chunk with a `*` is left, or None where it has none.
pub(crate) fn cut_before_star(text: &str) -> Option<usize>
    ensures none { IfNone result (nonwild text.now ≡ text.now) }
    ensures cut { IfSome result (IsCutBefore text.now) }
{
    let bytes = text.as_bytes();
    let star = first_star(bytes)?;
    match last_slash(&bytes[..star]) {
        Some(k) => Some(k),
        None => Some(0),
    }
}

/// The part of a text that stands before its first chunk with a `*`, without the `/` between them.
pub fn nonwild(text: &str) -> &str
    ensures { result.now ≡ nonwild text.now }
{
    match cut_before_star(text) {
        None => text,
        Some(k) => &text[..k],
    }
}

// The place of a node.
pub(crate) fn place_of(nodes: &Slab<Node>, order: &Tree, id: usize) -> usize
    requires table { IsTable nodes.now.slots order.now }
    requires live { Contains order.now id }
    ensures { IsPlaceOf (rows nodes.now.slots order.now) (row nodes.now.slots id).text result }
{
    match search(nodes, order, nodes[id].text.as_str(), "") {
        Ok(at) => at,
        Err(_) => unreachable!(),
    }
}
