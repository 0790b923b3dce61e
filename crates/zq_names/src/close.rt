//! How all nodes below a text are taken out.
ghost use Rattle.std.specs.Prelude.{◌≡◌, ◌<◌, ◌≤◌, length, vec_len};
ghost use Rattle.zq_names.specs.Names.{IsTable, IsSound, rows, text_at};
ghost use Rattle.zq_names.specs.Closing.{Closes, ClosesBelow, IsRun};

use crate::Tree;
use crate::edit::remove_at;
use crate::node::Node;
use crate::order::lower_bound;
use slab::Slab;

// The first place below the text at a place, and the first one after those.
fn run_of(nodes: &Slab<Node>, order: &Tree, place: usize) -> (usize, usize)
    requires table { IsTable nodes.now.slots order.now }
    requires in_range { place < length order.now }
    ensures { IsRun (rows nodes.now.slots order.now) (text_at (rows nodes.now.slots order.now) place) place result.0 result.1 }
{
    if place == 0 {
        return (1, order.len());
    }
    let text = nodes[order.get(place)].text.as_str().as_bytes();
    (
        lower_bound(nodes, order, text, b"/"),
        lower_bound(nodes, order, text, b"0"),
    )
}

// Takes out the nodes of a run, the last one first.
fn take_run(nodes: &mut Slab<Node>, order: &mut Tree, place: usize, low: usize, high: usize)
    requires sound { IsSound nodes.old.slots order.old }
    requires run { IsRun (rows nodes.old.slots order.old) (text_at (rows nodes.old.slots order.old) place) place low high }
    ensures sound { IsSound nodes.new.slots order.new }
    ensures closes { ClosesBelow (rows nodes.old.slots order.old) (text_at (rows nodes.old.slots order.old) place) (rows nodes.new.slots order.new) }
    ensures run { IsRun (rows nodes.new.slots order.new) (text_at (rows nodes.old.slots order.old) place) place low low }
{
    let mut end = high;
    while low < end {
        end -= 1;
        remove_at(nodes, order, end);
    }
}

// Takes out the nodes below a place, and the one there unless it is the root.
pub(crate) fn close_at(nodes: &mut Slab<Node>, order: &mut Tree, place: usize)
    requires sound { IsSound nodes.old.slots order.old }
    requires in_range { place < length order.old }
    ensures sound { IsSound nodes.new.slots order.new }
    ensures closes { Closes (rows nodes.old.slots order.old) (text_at (rows nodes.old.slots order.old) place) (rows nodes.new.slots order.new) }
{
    let (low, high) = run_of(nodes, order, place);
    take_run(nodes, order, place, low, high);
    if place != 0 {
        remove_at(nodes, order, place);
    }
}
