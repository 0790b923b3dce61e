use crate::region::in_region;
use std::alloc::Global;
use zq_given::information;
use zq_hat::hat::Hat;
use zq_key::Key;
use zq_key::message::{Bound, FaceId, Mode, QueryableInfoType, Region, Zid};
use zq_key::text::Text;
use zq_strategy::types::{FaceRecord, FinalMark, OfferList, UnregisterEntityResult};

fn open(hat: &mut Hat, number: u32) -> Option<()> {
    let face = FaceId(number);
    if hat.has_face(face) {
        return None;
    }
    let opened = FaceRecord {
        face,
        zid: Zid(10),
        mode: Mode::Client,
        remote_bound: Bound::North,
    };
    hat.new_face(opened).ok()
}

fn declare(
    hat: &mut Hat,
    alloc: Global,
    number: u32,
    id: u32,
    text: &str,
    complete: bool,
) -> Option<()> {
    let face = FaceId(number);
    if !hat.has_face(face) {
        return None;
    }
    let Ok(key) = Key::new(alloc, text) else {
        return None;
    };
    match hat.register_queryable(face, id, &key, 0, information(complete, 0)) {
        Ok(()) => Some(()),
        Err(_) => None,
    }
}

/// Whether another declaration of the key stays, with another information.
fn is_update(found: &UnregisterEntityResult) -> bool {
    matches!(found, UnregisterEntityResult::InfoUpdate(_))
}

/// Whether the withdrawal changes what the region has on the key.
fn withdraw(hat: &mut Hat, number: u32, id: u32) -> bool {
    let face = FaceId(number);
    if !hat.has_face(face) {
        return false;
    }
    match hat.unregister_queryable(face, id, None, 0) {
        Ok(found) => is_update(&found),
        Err(_) => false,
    }
}

/// How many keys the face had declared.
fn close(hat: &mut Hat, number: u32) -> Option<usize> {
    let face = FaceId(number);
    if !hat.has_face(face) {
        return None;
    }
    match hat.close_face(face) {
        Ok(keys) => Some(keys.len()),
        Err(_) => None,
    }
}

/// How many offers there are, and the face, completeness and distance of the first.
type Offered = Option<(usize, u32, bool, u16)>;

fn first_of(offers: &OfferList) -> Offered {
    let offer = offers.get(0)?;
    let info = offer.info?;
    Some((offers.len(), offer.face.0, info.complete, info.distance))
}

/// The offers of the region on the key.
fn first_offer(hat: &Hat, text: &str) -> Offered {
    if !zq_key::is_key(text) {
        return None;
    }
    match hat.compute_query_route(&Region::Local, text, None) {
        Ok(offers) => first_of(&offers),
        Err(_) => None,
    }
}

/// The offers of a copy of the region on the key.
fn first_offer_of_copy(hat: &Hat, alloc: Global, text: &str) -> Offered {
    match hat.copy(alloc) {
        Ok(copy) => first_offer(&copy, text),
        Err(_) => None,
    }
}

/// Faces 0 and 1 open and declare `k`, and face 1 `**`, too.
fn declare_all(hat: &mut Hat, alloc: Global) -> Option<()> {
    open(hat, 0)?;
    open(hat, 1)?;
    for (face, id, text, complete) in [(0, 1, "k", true), (1, 1, "k", false), (1, 2, "**", false)] {
        declare(hat, alloc, face, id, text, complete)?;
    }
    Some(())
}

/// The first offer of `k` in the region, and of `m` in a copy of it, once all is declared.
fn first_offers(hat: &mut Hat, alloc: Global) -> Option<[Offered; 2]> {
    declare_all(hat, alloc)?;
    Some([first_offer(hat, "k"), first_offer_of_copy(hat, alloc, "m")])
}

#[test]
fn offers(rt: HostRuntime) {
    let found = in_region(rt.alloc(), Region::Local, Mode::Client, first_offers);
    assert!(rt; found == Some([Some((3, 1, false, 0)), Some((1, 1, false, 0))]));
}

/// What the region has on `k` once face 0 has withdrawn it, where the other declaration stays.
fn left_of(hat: &mut Hat) -> Option<QueryableInfoType> {
    if !withdraw(hat, 0, 1) {
        return None;
    }
    hat.remote_queryables_of("k")
}

/// What is left of `k` as face 0 withdraws it, how many keys face 1 had, and the offer of `k` then.
type Withdrawn = Option<(Option<QueryableInfoType>, Option<usize>, Offered)>;

fn withdrawn(hat: &mut Hat, alloc: Global) -> Withdrawn {
    declare_all(hat, alloc)?;
    let left = left_of(hat);
    let keys = close(hat, 1);
    Some((left, keys, first_offer(hat, "k")))
}

#[test]
fn withdrawals(rt: HostRuntime) {
    let found = in_region(rt.alloc(), Region::Local, Mode::Client, withdrawn);
    assert!(rt; found == Some((Some(information(false, 0)), Some(2), None)));
}

/// How many offers an asker of the region finds on the key.
fn offered(hat: &Hat, src: Region, text: &str) -> Option<usize> {
    if !zq_key::is_key(text) {
        return None;
    }
    match hat.compute_query_route(&src, text, Some(0)) {
        Ok(offers) => Some(offers.len()),
        Err(_) => None,
    }
}

/// Sets or unsets a mark of face 0.
fn mark(hat: &mut Hat, mark: &FinalMark, set: bool) -> Option<()> {
    let face = FaceId(0);
    if !hat.has_face(face) {
        return None;
    }
    hat.finalize_local_interest(face, mark, set).ok()
}

/// How many offers a peer makes of `k`, to the local region and to its own, as it is marked and unmarked.
fn offered_around(hat: &mut Hat, initial: &FinalMark) -> Option<[Option<usize>; 4]> {
    open(hat, 0)?;
    let at_first = offered(hat, Region::Local, "k");
    let at_home = offered(hat, Region::North, "k");
    mark(hat, initial, true)?;
    let marked = offered(hat, Region::Local, "k");
    mark(hat, initial, false)?;
    Some([at_first, at_home, marked, offered(hat, Region::Local, "k")])
}

fn offered_by_peer(hat: &mut Hat, _alloc: Global) -> Option<[Option<usize>; 4]> {
    offered_around(hat, &FinalMark::Initial)
}

// A peer is offered without a declaration until all that it had at its opening has come.
#[test]
fn peers(rt: HostRuntime) {
    let found = in_region(rt.alloc(), Region::North, Mode::Peer, offered_by_peer);
    assert!(rt; found == Some([Some(1), Some(0), Some(0), Some(1)]));
}

/// How many offers the upstream makes of `k` and `m` where `k` is marked, and of `k` where it no longer is.
fn offered_upstream(hat: &mut Hat, key: &FinalMark) -> Option<[Option<usize>; 3]> {
    open(hat, 0)?;
    if !hat.is_full() {
        return None;
    }
    mark(hat, key, true)?;
    let marked = offered(hat, Region::Local, "k");
    let other = offered(hat, Region::Local, "m");
    mark(hat, key, false)?;
    Some([marked, other, offered(hat, Region::Local, "k")])
}

fn upstream_of(hat: &mut Hat, alloc: Global) -> Option<[Option<usize>; 3]> {
    match Text::new(alloc, "k") {
        Ok(text) => offered_upstream(hat, &FinalMark::Key(text)),
        Err(_) => None,
    }
}

// A client region has one face, which is offered on a key until the key is marked.
#[test]
fn upstream(rt: HostRuntime) {
    let found = in_region(rt.alloc(), Region::North, Mode::Client, upstream_of);
    assert!(rt; found == Some([Some(0), Some(1), Some(1)]));
}
