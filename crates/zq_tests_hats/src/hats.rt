ghost use Rattle.std.specs.Prelude.{◌≡◌, true};
ghost use Rattle.zq_strategy.specs.Kept.{has_face};

use crate::region::in_region;
use std::alloc::Global;
use zq_given::information;
use zq_hat::{Hat, HatQueriesTrait};
use zq_interests::interests::Interests;
use zq_key::Key;
use zq_key::memory::OutOfMemory;
use zq_key::message::{Bound, FaceId, Mode, Region, Zid};
use zq_strategy::types::{FaceRecord, UnregisterEntityResult};

/// Face 1 opens.
fn open(hat: &mut Hat) -> Option<()> {
    let face = FaceId(1);
    if hat.has_face(face) {
        return None;
    }
    let opened = FaceRecord {
        face,
        zid: Zid(10),
        mode: Mode::Client,
        remote_bound: Bound::North,
    };
    hat.new_face(opened).ok()
}

/// Face 1 declares the key.
fn declared<H: HatQueriesTrait>(hat: &mut H, key: &Key) -> bool
    requires { has_face 1 (H.hat hat.old) ≡ true }
{
    hat.register_queryable(FaceId(1), 5, key, 0, information(true, 0))
        .is_ok()
}

/// Face 1 withdraws it, the last on its key.
fn withdrawn<H: HatQueriesTrait>(hat: &mut H) -> bool
    requires { has_face 1 (H.hat hat.old) ≡ true }
{
    matches!(
        hat.unregister_queryable(FaceId(1), 5, None, 0),
        Ok(UnregisterEntityResult::LastUnregistered(_))
    )
}

/// How many offers there are for the key, and how many keys have informations and sources.
fn counted<H: HatQueriesTrait>(
    alloc: Global,
    hat: &H,
    key: &Key,
    interests: &Interests,
) -> Result<[usize; 5], OutOfMemory> {
    let offers = hat
        .compute_query_route(&Region::Local, key.as_str(), Some(0))?
        .len();
    let keys = hat.remote_queryables(alloc)?.len();
    let matching = hat.remote_queryables_matching(alloc, Some(key))?.len();
    let declared = hat.sourced_queryables(alloc)?.len();
    let asked = hat.sourced_queriers(alloc, interests)?.len();
    Ok([offers, keys, matching, declared, asked])
}

/// What is counted where nobody asks.
fn counted_unasked<H: HatQueriesTrait>(
    alloc: Global,
    hat: &H,
    key: &Key,
) -> Result<[usize; 5], OutOfMemory> {
    let interests = Interests::new(alloc);
    counted(alloc, hat, key, &interests)
}

/// How much is told of the key: nothing in a region without routers.
fn told<H: HatQueriesTrait>(hat: &H, key: &str) -> Result<usize, OutOfMemory> {
    let info = Some(information(true, 0));
    let changed = hat.propagate_queryable(key, None, info)?.len();
    let ended = hat.unpropagate_queryable(key, info)?.len();
    let last = hat.unpropagate_last_non_owned_queryable(key, info)?.len();
    Ok(changed.max(ended).max(last))
}

/// How many of each there are, and how much is told.
type Answers = Option<([usize; 5], usize)>;

/// What the trait's methods answer of the region, whose face declared the key.
fn asked(alloc: Global, hat: &Hat, key: &Key) -> Answers {
    if HatQueriesTrait::remote_queryables_of(hat, "k") != Some(information(true, 0)) {
        return None;
    }
    let found = counted_unasked(alloc, hat, key).ok()?;
    Some((found, told(hat, "k").ok()?))
}

/// What they answer as face 1 declares the key, and withdraws it then.
fn asked_between(hat: &mut Hat, alloc: Global, key: &Key) -> Answers {
    if !hat.has_face(FaceId(1)) || !declared(hat, key) {
        return None;
    }
    let found = asked(alloc, hat, key)?;
    if !hat.has_face(FaceId(1)) || !withdrawn(hat) {
        return None;
    }
    Some(found)
}

/// What they answer of the key `k`, once face 1 is open.
fn by_its_trait(hat: &mut Hat, alloc: Global) -> Answers {
    open(hat)?;
    match Key::new(alloc, "k") {
        Ok(key) => asked_between(hat, alloc, &key),
        Err(_) => None,
    }
}

#[test]
fn by_the_trait(rt: HostRuntime) {
    let found = in_region(rt.alloc(), Region::Local, Mode::Client, by_its_trait);
    assert!(rt; found == Some(([1, 1, 1, 1, 0], 0)));
}
