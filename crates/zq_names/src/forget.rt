//! How a number leaves the matches of other nodes.
ghost use Rattle.std.specs.Prelude.{◌≡◌, ◌==◌, ◌∷◌, [], filter, not};
ghost use Rattle.zq_names.specs.Forgetting.{Drops};

use crate::node::{Node, ResourceId};
use slab::Slab;

// Drops a number from the matches of the nodes of a list, as far as they are there.
pub(crate) fn forget(nodes: &mut Slab<Node>, holders: &[ResourceId], id: u64)
    ensures { Drops nodes.old.slots nodes.new.slots id holders.now }
{
    for holder in holders {
        forget_at(nodes, *holder, id);
    }
}

// Drops a number from the matches of a node, if it is there.
fn forget_at(nodes: &mut Slab<Node>, holder: ResourceId, id: u64)
    ensures { Drops nodes.old.slots nodes.new.slots id (holder ∷ []) }
{
    if !nodes.contains(holder.0 as usize) {
        return;
    }
    drop_match(&mut nodes[holder.0 as usize], id);
}

fn drop_match(node: &mut Node, id: u64)
    ensures matches { node.new.matches.items ≡ filter (λ m. not (m.0 == id)) node.old.matches.items }
    ensures text { node.new.text ≡ node.old.text }
    ensures context { node.new.context ≡ node.old.context }
    ensures holds { node.new.holds ≡ node.old.holds }
    ensures former { node.new.former ≡ node.old.former }
{
    node.matches.retain(|m| m.0 != id);
}
