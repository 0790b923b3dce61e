use crate::region::in_region;
use std::alloc::Global;
use zq_given::{information, list};
use zq_hat::hat::Hat;
use zq_hat::infos::remote_queryables;
use zq_hat::queriers::all_queriers;
use zq_hat::queryables::all_queryables;
use zq_hat::sources::{Source, SourceList, Sources};
use zq_hat::status::{Locality, remote_queryable_matching_status};
use zq_interests::interests::Interests;
use zq_interests::types::InterestEntry;
use zq_key::items::Items;
use zq_key::memory::OutOfMemory;
use zq_key::message::{Bound, FaceId, Mode, Region, Zid};
use zq_key::{Key, is_key};
use zq_message::map::RegionMap;
use zq_strategy::types::{FaceRecord, ZidList};

/// The ids, two digits for each.
fn digits(ids: &ZidList) -> u128 {
    let mut all: u128 = 0;
    for zid in ids.as_slice() {
        all = all.wrapping_mul(100).wrapping_add(zid.0);
    }
    all
}

/// The ids under clients on the key.
fn clients_on(list: &SourceList, key: &str) -> Option<u128> {
    for (text, sources) in list.as_slice() {
        if text.as_str() == key {
            return Some(digits(&sources.clients));
        }
    }
    None
}

fn key_of(alloc: Global, text: &str) -> Result<Key, OutOfMemory> {
    match Key::new(alloc, text) {
        Ok(key) => Ok(key),
        Err(_) => Err(OutOfMemory),
    }
}

fn open(hat: &mut Hat, number: u32, zid: u128) -> Result<(), OutOfMemory> {
    let face = FaceId(number);
    if hat.has_face(face) {
        return Err(OutOfMemory);
    }
    let opened = FaceRecord {
        face,
        zid: Zid(zid),
        mode: Mode::Client,
        remote_bound: Bound::North,
    };
    match hat.new_face(opened) {
        Ok(()) => Ok(()),
        Err(error) => Err(error),
    }
}

fn declare(hat: &mut Hat, alloc: Global, number: u32, text: &str) -> Result<(), OutOfMemory> {
    let face = FaceId(number);
    let key = key_of(alloc, text)?;
    if !hat.has_face(face) {
        return Err(OutOfMemory);
    }
    match hat.register_queryable(face, 1, &key, 0, information(number == 0, 2)) {
        Ok(()) => Ok(()),
        Err(_) => Err(OutOfMemory),
    }
}

/// The faces 0, 1 and 2 of 10, 11 and 12 open: the first declares `a/b`, the last `a/c`.
fn fill(hat: &mut Hat, alloc: Global) -> Result<(), OutOfMemory> {
    open(hat, 0, 10)?;
    open(hat, 1, 11)?;
    open(hat, 2, 12)?;
    declare(hat, alloc, 0, "a/b")?;
    declare(hat, alloc, 2, "a/c")
}

/// The filled local region joins the others.
fn join(hats: &mut RegionMap<Hat>, alloc: Global) -> Result<(), OutOfMemory> {
    let mut hat = Hat::new(alloc, Region::Local, Mode::Client, Zid(1), 0);
    let filled = fill(&mut hat, alloc);
    match hats.insert(Region::Local, hat) {
        Ok(_) => filled,
        Err(error) => Err(error),
    }
}

/// Face 1 asks for the key, or for all.
fn ask(asked: &mut Interests, alloc: Global, id: u32, key: Option<Key>) -> Result<(), OutOfMemory> {
    let keys = key.is_none();
    let entry = InterestEntry {
        key,
        keys,
        aggregate: false,
    };
    match asked.put(alloc, FaceId(1), id, entry) {
        Ok(()) => Ok(()),
        Err(error) => Err(error),
    }
}

/// Face 1 asks for `a/*`, and for all.
fn ask_both(asked: &mut Interests, alloc: Global) -> Result<(), OutOfMemory> {
    ask(asked, alloc, 5, Some(key_of(alloc, "a/*")?))?;
    ask(asked, alloc, 6, None)
}

/// Who declared `a/b` and `a/c`.
fn declared(alloc: Global, hats: &RegionMap<Hat>) -> Result<[Option<u128>; 2], OutOfMemory> {
    let own = Source {
        zid: Zid(1),
        mode: Mode::Client,
    };
    match all_queryables(alloc, hats, own) {
        Ok(list) => Ok([clients_on(&list, "a/b"), clients_on(&list, "a/c")]),
        Err(error) => Err(error),
    }
}

/// Who asks for `a/*`.
fn asking(
    alloc: Global,
    hats: &RegionMap<Hat>,
    asked: &Interests,
) -> Result<Option<u128>, OutOfMemory> {
    match all_queriers(alloc, hats, asked) {
        Ok(list) => Ok(clients_on(&list, "a/*")),
        Err(error) => Err(error),
    }
}

/// Who declared `a/b` and `a/c`, and who asks for `a/*`, once the region is there and face 1 has asked.
fn sourced(
    hats: &mut RegionMap<Hat>,
    asked: &mut Interests,
    alloc: Global,
) -> Result<[Option<u128>; 3], OutOfMemory> {
    join(hats, alloc)?;
    ask_both(asked, alloc)?;
    let [first, last] = declared(alloc, hats)?;
    Ok([first, last, asking(alloc, hats, asked)?])
}

#[test]
fn keys_have_sources(rt: HostRuntime) {
    let mut hats = RegionMap::new(rt.alloc());
    let mut asked = Interests::new(rt.alloc());
    let want = Ok([Some(10_01), Some(12_01), Some(11)]);
    assert!(rt; sourced(&mut hats, &mut asked, rt.alloc()) == want);
}

/// Whether the face has a match of a key, complete or not.
fn matched(hat: &Hat, alloc: Global, face: u32, locality: Locality, text: &str) -> Option<bool> {
    if !is_key(text) || !matches!(hat.strategy(), zq_strategy::types::Strategy::Broker) {
        return None;
    }
    let others = Items::new(alloc);
    Some(remote_queryable_matching_status(hat, FaceId(face), locality, text, true, &others))
}

/// The matches of `a/b` for face 1, there and elsewhere, and for face 0 there; and of `a/c`, which is not
/// complete; with the number of keys of the region, once it is filled.
fn statuses(hat: &mut Hat, alloc: Global) -> Result<([Option<bool>; 4], usize), OutOfMemory> {
    fill(hat, alloc)?;
    let keys = remote_queryables(alloc, hat)?.len();
    let found = [
        matched(hat, alloc, 1, Locality::SessionLocal, "a/b"),
        matched(hat, alloc, 1, Locality::Remote, "a/b"),
        matched(hat, alloc, 0, Locality::SessionLocal, "a/b"),
        matched(hat, alloc, 1, Locality::Any, "a/c"),
    ];
    Ok((found, keys))
}

#[test]
fn keys_are_matched(rt: HostRuntime) {
    let found = in_region(rt.alloc(), Region::Local, Mode::Client, statuses);
    assert!(rt; found == Ok(([Some(false), Some(true), Some(true), Some(false)], 2)));
}

/// The ids under clients, followed by those of the others.
fn followed(twice: &mut Sources, alloc: Global, again: &Sources) -> Result<u128, OutOfMemory> {
    match twice.extend(alloc, again) {
        Ok(()) => Ok(digits(&twice.clients)),
        Err(error) => Err(error),
    }
}

/// The ids under clients, followed by these.
fn followed_by(twice: &mut Sources, alloc: Global, ids: &ZidList) -> Result<u128, OutOfMemory> {
    match Sources::empty(alloc).with_mode(alloc, ids, Mode::Client) {
        Ok(again) => followed(twice, alloc, &again),
        Err(error) => Err(error),
    }
}

/// The ids under clients, followed by an equal value.
fn doubled(alloc: Global, ids: &ZidList) -> Result<u128, OutOfMemory> {
    match Sources::empty(alloc).with_mode(alloc, ids, Mode::Client) {
        Ok(mut twice) => followed_by(&mut twice, alloc, ids),
        Err(error) => Err(error),
    }
}

/// One id under clients, followed by an equal value.
fn doubled_one(alloc: Global) -> Result<u128, OutOfMemory> {
    match list(alloc, [Zid(1)].as_slice()) {
        Ok(one) => doubled(alloc, &one),
        Err(error) => Err(error),
    }
}

#[test]
fn sources_follow_one_another(rt: HostRuntime) {
    assert!(rt; doubled_one(rt.alloc()) == Ok(1_01));
}
