//! Places of interests by the texts of their keys.
ghost use Rattle.std.specs.Prelude.{◌≡◌, ◌==◌, ◌||◌, ◌&&◌, [], not, true, length, ℕ, List, None, OnOk, OnErr, IsTrue, is_some};
ghost use Rattle.zq_key.specs.Key.{is_key};
ghost use Rattle.zq_index.specs.Holders.{Place};
ghost use Rattle.std.specs.BTreeMap.{insert_entry, is_at};
ghost use Rattle.std.specs.Map.{remove_entry};
ghost use Rattle.zq_index.specs.Texts.{at_text, text_cmp, texts_of};
ghost use Rattle.zq_interests.specs.Kept.{AreFit, AreFitBut, is_same, is_under, places_at};

use crate::places::PlaceSet;
use std::alloc::Global;
use std::collections::BTreeMap;
use zq_index::holders::FacePlace;
use zq_index::text_set::KeyLists;
use zq_key::memory::OutOfMemory;

/// Places by the texts of keys.
pub(crate) type KeyedMap = BTreeMap<String, PlaceSet>;

/// The place joins those under a text that has some.
#[tactic(auto, using(zq_index::proofs::Texts::text_lookup))]
fn put_beside(keys: &mut KeyedMap, key: &str, place: FacePlace) -> Result<(), OutOfMemory>
    requires { is_some (at_text key.now (texts_of keys.old.entries)) ≡ true }
    ensures ok { OnOk result ((t : List ℕ) (q : Place) → is_under t q (texts_of keys.new.entries) ≡ (is_same key.now place t q || is_under t q (texts_of keys.old.entries))) }
    ensures err { OnErr result (texts_of keys.new.entries ≡ texts_of keys.old.entries) }
    ensures texts { (t : List ℕ) → is_some (at_text t (texts_of keys.new.entries)) ≡ is_some (at_text t (texts_of keys.old.entries)) }
{
    match keys.get_mut(key) {
        Some(places) => match places.put(place) {
            Ok(()) => Ok(()),
            Err(error) => Err(error),
        },
        None => unreachable!(),
    }
}

/// Places under a text.
#[tactic(auto, using(zq_index::proofs::Texts::text_insert))]
fn insert_text(
    keys: &mut KeyedMap,
    alloc: Global,
    key: &str,
    places: PlaceSet,
) -> Result<(), OutOfMemory>
    ensures ok { OnOk result (texts_of keys.new.entries ≡ insert_entry text_cmp (texts_of keys.old.entries) key.now places) }
    ensures err { OnErr result (texts_of keys.new.entries ≡ texts_of keys.old.entries) }
{
    let text = String::from_str(alloc, key)?;
    match keys.insert(text, places) {
        Ok(_) => Ok(()),
        Err(_) => Err(OutOfMemory),
    }
}

/// The first place under a text.
fn put_first(
    keys: &mut KeyedMap,
    alloc: Global,
    key: &str,
    place: FacePlace,
) -> Result<(), OutOfMemory>
    requires { at_text key.now (texts_of keys.old.entries) ≡ None }
    ensures ok { OnOk result ((t : List ℕ) (q : Place) → is_under t q (texts_of keys.new.entries) ≡ (is_same key.now place t q || is_under t q (texts_of keys.old.entries))) }
    ensures err { OnErr result (texts_of keys.new.entries ≡ texts_of keys.old.entries) }
    ensures texts { (t : List ℕ) → is_some (at_text t (texts_of keys.new.entries)) ≡ true → (is_at (text_cmp key.now) t || is_some (at_text t (texts_of keys.old.entries))) ≡ true }
{
    let mut places = PlaceSet::new(alloc);
    places.put(place)?;
    match insert_text(keys, alloc, key, places) {
        Ok(()) => Ok(()),
        Err(error) => Err(error),
    }
}

/// The first place under a key, which is listed where it has to be. Where memory is lacking a list may
/// have it without a place.
fn put_new(
    keys: &mut KeyedMap,
    lists: &mut KeyLists,
    alloc: Global,
    key: &str,
    place: FacePlace,
) -> Result<(), OutOfMemory>
    requires key { IsTrue (is_key key.now) }
    requires absent { at_text key.now (texts_of keys.old.entries) ≡ None }
    requires fit { AreFit (texts_of keys.old.entries) lists.old }
    ensures ok { OnOk result ((t : List ℕ) (q : Place) → is_under t q (texts_of keys.new.entries) ≡ (is_same key.now place t q || is_under t q (texts_of keys.old.entries))) }
    ensures err { OnErr result (texts_of keys.new.entries ≡ texts_of keys.old.entries) }
    ensures fit { AreFit (texts_of keys.new.entries) lists.new }
{
    lists.put(alloc, key)?;
    match put_first(keys, alloc, key, place) {
        Ok(()) => Ok(()),
        Err(error) => Err(error),
    }
}

/// The text has places.
#[tactic(auto, using(zq_index::proofs::Texts::text_lookup))]
fn has_text(keys: &KeyedMap, key: &str) -> bool
    ensures { result ≡ is_some (at_text key.now (texts_of keys.now.entries)) }
{
    keys.contains_key(key)
}

/// The place joins those under the key.
pub(crate) fn put_keyed(
    keys: &mut KeyedMap,
    lists: &mut KeyLists,
    alloc: Global,
    key: &str,
    place: FacePlace,
) -> Result<(), OutOfMemory>
    requires key { IsTrue (is_key key.now) }
    requires fit { AreFit (texts_of keys.old.entries) lists.old }
    ensures ok { OnOk result ((t : List ℕ) (q : Place) → is_under t q (texts_of keys.new.entries) ≡ (is_same key.now place t q || is_under t q (texts_of keys.old.entries))) }
    ensures err { OnErr result (texts_of keys.new.entries ≡ texts_of keys.old.entries) }
    ensures fit { AreFit (texts_of keys.new.entries) lists.new }
{
    if has_text(keys, key) {
        return match put_beside(keys, key, place) {
            Ok(()) => Ok(()),
            Err(error) => Err(error),
        };
    }
    put_new(keys, lists, alloc, key, place)
}

/// The place leaves those under a text; answers whether the text is there, and none is left.
fn take_from(keys: &mut KeyedMap, key: &str, place: FacePlace) -> bool
    ensures after { (t : List ℕ) (q : Place) → is_under t q (texts_of keys.new.entries) ≡ (not (is_same key.now place t q) && is_under t q (texts_of keys.old.entries)) }
    ensures empty { result ≡ (is_some (at_text key.now (texts_of keys.old.entries)) && (length (places_at key.now (texts_of keys.new.entries)) == 0)) }
    ensures texts { (t : List ℕ) → is_some (at_text t (texts_of keys.new.entries)) ≡ is_some (at_text t (texts_of keys.old.entries)) }
{
    match keys.get_mut(key) {
        Some(places) => places.take(place),
        None => false,
    }
}

/// The text goes.
#[tactic(auto, using(zq_index::proofs::Texts::text_remove))]
fn drop_text(keys: &mut KeyedMap, key: &str)
    requires { places_at key.now (texts_of keys.old.entries) ≡ [] }
    ensures after { (t : List ℕ) → places_at t (texts_of keys.new.entries) ≡ places_at t (texts_of keys.old.entries) }
    ensures entries { texts_of keys.new.entries ≡ remove_entry (is_at (text_cmp key.now)) (texts_of keys.old.entries) }
    ensures gone { at_text key.now (texts_of keys.new.entries) ≡ None }
{
    let _ = keys.remove(key);
}

/// The text goes from the lists, too.
fn drop_last(keys: &mut KeyedMap, lists: &mut KeyLists, key: &str)
    requires empty { places_at key.now (texts_of keys.old.entries) ≡ [] }
    requires fit { AreFitBut key.now (texts_of keys.old.entries) lists.old }
    ensures after { (t : List ℕ) → places_at t (texts_of keys.new.entries) ≡ places_at t (texts_of keys.old.entries) }
    ensures fit { AreFit (texts_of keys.new.entries) lists.new }
{
    drop_text(keys, key);
    lists.take(key);
}

/// The place leaves those under the key; a key without any goes.
pub(crate) fn take_keyed(keys: &mut KeyedMap, lists: &mut KeyLists, key: &str, place: FacePlace)
    requires { AreFit (texts_of keys.old.entries) lists.old }
    ensures after { (t : List ℕ) (q : Place) → is_under t q (texts_of keys.new.entries) ≡ (not (is_same key.now place t q) && is_under t q (texts_of keys.old.entries)) }
    ensures fit { AreFit (texts_of keys.new.entries) lists.new }
{
    if take_from(keys, key, place) {
        drop_last(keys, lists, key);
    }
}
