//! The faces of interests whose keys meet a key, and their places.
ghost use Rattle.std.specs.Prelude.{◌≡◌, OnOk, IsTrue, fold};
ghost use Rattle.std.specs.List.{flat_map};
ghost use Rattle.std.specs.List.Sorted.{IsStrictlySortedBy};
ghost use Rattle.std.specs.Map.{keys_of};
ghost use Rattle.zq_key.specs.Key.{is_key};
ghost use Rattle.zq_index.specs.Texts.{text_cmp, texts_of};
ghost use Rattle.zq_interests.specs.Kept.{AreFit, met_at, spots_at, with_face, with_spot};

use crate::keyed::KeyedMap;
use crate::places::{PlaceSet, SpotList};
use std::alloc::Global;
use std::collections::BTreeSet;
use std::ops::RangeFull;
use zq_index::search::{Step, next_step};
use zq_index::text_set::KeyLists;
use zq_key::memory::OutOfMemory;
use zq_key::{intersects, is_plain};

/// The faces of places under a key join others, if it meets the key that is asked for.
fn add_met(
    found: &mut BTreeSet<u32>,
    key: &str,
    places: &PlaceSet,
    q: &str,
) -> Result<(), OutOfMemory>
    requires key { IsTrue (is_key key.now) }
    requires asked { IsTrue (is_key q.now) }
    ensures { OnOk result (found.new.keys ≡ fold with_face found.old.keys (met_at q.now (key.now, places.now))) }
{
    if intersects(key, q) {
        places.add_faces(found)
    } else {
        Ok(())
    }
}

/// The faces of places under keys that meet the key join others. Keys of which the first bytes show
/// that they do not meet it are passed over by one search.
pub(crate) fn add_met_faces(
    found: &mut BTreeSet<u32>,
    alloc: Global,
    keys: &KeyedMap,
    lists: &KeyLists,
    q: &str,
) -> Result<(), OutOfMemory>
    requires fit { AreFit (texts_of keys.now.entries) lists.now }
    requires asked { IsTrue (is_key q.now) }
    ensures faces { OnOk result (found.new.keys ≡ fold with_face found.old.keys (flat_map (met_at q.now) (texts_of keys.now.entries))) }
    ensures ordered { OnOk result (IsStrictlySortedBy text_cmp (keys_of (texts_of keys.now.entries))) }
{
    let plain = is_plain(q);
    let mut bound = String::new(alloc);
    let mut bytes = Vec::new(alloc);
    let mut rest = keys.range::<RangeFull>(..);
    while let Some((key, places)) = rest.next() {
        match next_step(&mut bound, &mut bytes, lists, plain, key, q)? {
            Step::Look => add_met(found, key.as_str(), places, q)?,
            Step::Jump => rest = keys.range(&bound..),
            Step::End => return Ok(()),
        }
    }
    Ok(())
}

/// The places under a key join others, each with it, if it meets the key that is asked for.
fn add_spots(
    found: &mut SpotList,
    alloc: Global,
    key: &str,
    places: &PlaceSet,
    asked: &str,
) -> Result<(), OutOfMemory>
    requires key { IsTrue (is_key key.now) }
    requires wanted { IsTrue (is_key asked.now) }
    ensures { OnOk result (found.new ≡ fold with_spot found.old (spots_at asked.now (key.now, places.now))) }
{
    if intersects(key, asked) {
        places.add_spots(found, alloc, key)
    } else {
        Ok(())
    }
}

/// The places under keys that meet the key join others, each with its text. Keys of which the first
/// bytes show that they do not meet it are passed over by one search.
pub(crate) fn add_met_spots(
    found: &mut SpotList,
    alloc: Global,
    keys: &KeyedMap,
    lists: &KeyLists,
    q: &str,
) -> Result<(), OutOfMemory>
    requires fit { AreFit (texts_of keys.now.entries) lists.now }
    requires asked { IsTrue (is_key q.now) }
    ensures spots { OnOk result (found.new ≡ fold with_spot found.old (flat_map (spots_at q.now) (texts_of keys.now.entries))) }
    ensures ordered { OnOk result (IsStrictlySortedBy text_cmp (keys_of (texts_of keys.now.entries))) }
{
    let plain = is_plain(q);
    let mut bound = String::new(alloc);
    let mut bytes = Vec::new(alloc);
    let mut rest = keys.range::<RangeFull>(..);
    while let Some((key, places)) = rest.next() {
        match next_step(&mut bound, &mut bytes, lists, plain, key, q)? {
            Step::Look => add_spots(found, alloc, key.as_str(), places, q)?,
            Step::Jump => rest = keys.range(&bound..),
            Step::End => return Ok(()),
        }
    }
    Ok(())
}
