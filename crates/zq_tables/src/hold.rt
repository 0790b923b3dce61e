//! Holds on nodes of the names, as they are taken and released.
ghost use Rattle.std.specs.Prelude.{◌≡◌, ℕ, ◌+◌, ◌<◌, ◌^◌, true, IfOk, OnErr};
ghost use Rattle.std.specs.List.{Contains};
ghost use Rattle.zq_key.specs.Key.{is_key as key_of};
ghost use Rattle.zq_names.specs.Names.{IsLive, entry_at, ids};
ghost use Rattle.zq_tables.specs.Holding.{LetsGo, TakesHold};

use zq_key::memory::OutOfMemory;
use zq_names::{Names, ResourceId};

// The node of a key, made where it is not there, and held once more.
pub(crate) fn take_hold(names: &mut Names, key: &str) -> Result<ResourceId, OutOfMemory>
    requires key { key_of key.now ≡ true }
    requires room { (i : ℕ) → Contains (ids names.old) i → (entry_at names.old i).holds + 1 < 2 ^ 128 }
    ensures ok { IfOk result (λ r. TakesHold names.old names.new key.now r.0) }
    ensures err { OnErr result (names.new ≡ names.old) }
{
    let root = names.root();
    let Ok(node) = names.make_resource(root, key) else {
        return Err(OutOfMemory);
    };
    names.hold(node);
    Ok(node)
}

// The node is held once less, and goes with its last hold.
pub(crate) fn let_go(names: &mut Names, node: ResourceId)
    requires live { IsLive names.old node }
    requires held { 0 < (entry_at names.old node.0).holds }
    ensures { LetsGo names.old names.new node.0 }
{
    names.unhold(node);
    names.clean(node);
}
