//! The slot that a request owns.
ghost use Rattle.std.specs.Prelude.{◌≡◌, ◌<◌, IfNone, IfOk, IfSome, None, Some, length, replicate};
ghost use Rattle.zq_hold.specs.Owners.{owned, owner_at};

use std::alloc::Global;
use zq_message::memory::OutOfMemory;

/// That many slots without an owner.
#[tactic(auto, using(std::proofs::lemmas::List::replicate_more))]
pub(crate) fn no_owners(alloc: Global, count: usize) -> Result<Vec<Option<u64>>, OutOfMemory>
    ensures { IfOk result (λ v. v.items ≡ replicate count None) }
{
    let mut owners = Vec::with_capacity(alloc, count)?;
    'slots: for _i in 0..count {
        owners.push(None)?;
    }
    Ok(owners)
}

/// The place of the slot that the request owns.
pub(crate) fn place_of(owners: &[Option<u64>], number: u64) -> Option<usize>
    ensures some { IfSome result (λ k. (k < length owners.now) × (owner_at owners.now k ≡ Some number)) }
    ensures none { IfNone result (owned number owners.now ≡ 0) }
{
    'owners: for i in 0..owners.len() {
        if owners[i] == Some(number) {
            return Some(i);
        }
    }
    None
}
