//! Whether the numbers that are left suffice for the replies of a get.
ghost use Rattle.std.specs.Prelude.{◌≡◌, ◌+◌, ◌<◌, ◌^◌, if◌then◌else◌, length, nat_le, nat_lt, true};
ghost use Rattle.zq_key.specs.Key.{intersects as intersects_of, is_plain};
ghost use Rattle.zq_store.specs.Held.{meeting};
ghost use Rattle.zq_store.specs.Stores.{count_all};
ghost use Rattle.zq_store.specs.Room.{less_by, one_less};

use crate::held::Held;
use crate::storage::Storage;
use crate::stores::Stores;
use zq_key::{Key, intersects};

/// One number less, if the pair's key meets the other.
fn less(left: Option<u64>, text: &str, key: &Key) -> Option<u64>
    requires { is_plain text.now ≡ true }
    ensures { result ≡ (if intersects_of text.now key.now then one_less left else left) }
{
    if !intersects(text, key.as_str()) {
        return left;
    }
    match left {
        Some(left) if left > 0 => Some(left - 1),
        _ => None,
    }
}

/// How many numbers are left after those for the pairs of a storage that meet the key, if they suffice.
fn less_all(held: &Held, key: &Key, left: Option<u64>) -> Option<u64>
    ensures { result ≡ less_by (length (meeting key.now held.now)) left }
{
    let mut left = left;
    for (text, _) in &held.pairs {
        left = less(left, text.as_str(), key);
    }
    left
}

/// Whether so many numbers suffice for all pairs that meet the key.
fn suffices(stores: &[Storage], key: &Key, most: u64) -> bool
    ensures { result ≡ nat_le (count_all key.now stores.now) most }
{
    let mut left = Some(most);
    for store in stores {
        left = less_all(&store.held, key, left);
    }
    left.is_some()
}

/// Whether the numbers from `next` on suffice for all pairs that meet the key. Where they suffice for all
/// pairs there are, none is looked at.
#[tactic(auto, using(crate::proofs::Sizes::count_fits))]
pub fn has_room(stores: &Stores, key: &Key, next: u64) -> bool
    ensures { result ≡ nat_lt (next + count_all key.now stores.now) (2 ^ 64) }
{
    let most = u64::MAX - next;
    stores.size() < most || suffices(stores.as_slice(), key, most)
}
