//! What a face asks of keys by its interests: as they are, without one that ends, or with one that is not
//! put yet in the place of another under its id.
ghost use Rattle.std.specs.Prelude.{◌≡◌, ℕ, OnOk, IsTrue, fold, map, option_copied, string_bytes};
ghost use Rattle.std.specs.BTreeSet.{insert_key};
ghost use Rattle.std.specs.List.{AllByRecursion, list_any};
ghost use Rattle.std.specs.Option.{option_map};
ghost use Rattle.zq_key.specs.Key.{is_key};
ghost use Rattle.zq_index.specs.Texts.{text_cmp};
ghost use Rattle.std.specs.List.Sorted.{IsStrictlySortedBy};
ghost use Rattle.std.specs.Map.{keys_of};
ghost use Rattle.std.specs.Ordering.{nat_cmp};
ghost use Rattle.zq_interests.specs.Interests.{asks_folded, interests_of, meets, own_key, with_interest, without_interest};
ghost use Rattle.zq_dispatcher.specs.Asking.{asked_plainly, asking_in, is_left, put_if_asked, wants_plainly, with_own};
ghost use Rattle.zq_dispatcher.specs.Dues.{AreKeys};
ghost use Rattle.zq_dispatcher.specs.Owns.{has_own};

use crate::owns::OwnKeys;
use std::alloc::Global;
use std::collections::{BTreeMap, BTreeSet};
use zq_index::text_set::put_text;
use zq_interests::interests::Interests;
use zq_interests::types::InterestEntry;
use zq_key::memory::OutOfMemory;
use zq_key::message::FaceId;
use zq_key::{Key, intersects};

/// What a face asks of a key.
#[derive(Clone, Copy, Debug)]
pub struct Asking {
    /// It asks for the key.
    pub asks: bool,
    /// It asks for it aggregated over all keys that meet it.
    pub folds: bool,
}

// Whether what is asked for has no key, or its key meets the key.
fn meets(asked: Option<&Key>, key: &str) -> bool
    requires { IsTrue (is_key key.now) }
    ensures { result ≡ meets (option_copied asked.entry) key.now }
{
    match asked {
        Some(asked) => intersects(asked.as_str(), key),
        None => true,
    }
}

// Whether the interest under the id stays.
fn is_left(but: Option<u32>, id: u32) -> bool
    ensures { result ≡ is_left but id }
{
    match but {
        Some(other) => id != other,
        None => true,
    }
}

// Whether the interest asks for the key, and not as one that is aggregating.
fn asks_plainly(entry: &InterestEntry, key: &str) -> bool
    requires { IsTrue (is_key key.now) }
    ensures { result ≡ asked_plainly entry.now key.now }
{
    entry.own_key().is_none() && meets(entry.key.as_ref(), key)
}

// Whether one of the interests does.
fn any_plainly(entries: &BTreeMap<u32, InterestEntry>, key: &str) -> bool
    requires { IsTrue (is_key key.now) }
    ensures { result ≡ list_any (wants_plainly key.now) entries.now.entries }
{
    for (_, entry) in entries {
        if asks_plainly(entry, key) {
            return true;
        }
    }
    false
}

// Whether one of the face's interests does.
fn face_plainly(interests: &Interests, face: FaceId, key: &str) -> bool
    requires { IsTrue (is_key key.now) }
    ensures { result ≡ list_any (wants_plainly key.now) (interests_of face.0 interests.now) }
{
    match interests.asked_by(face) {
        Some(entries) => any_plainly(entries, key),
        None => false,
    }
}

// Whether the key is among these, if there are any.
fn has_own(owns: Option<&OwnKeys>, key: &str) -> bool
    ensures { result ≡ has_own (option_copied owns.entry) key.now }
{
    match owns {
        Some(owns) => owns.has(key),
        None => false,
    }
}

/// What the face asks of the key by its interests, where it asks for it aggregated just if it is among
/// these.
pub(crate) fn asks_among(
    interests: &Interests,
    owns: Option<&OwnKeys>,
    face: FaceId,
    key: &str,
) -> Asking
    requires key { IsTrue (is_key key.now) }
    requires folded { has_own (option_copied owns) key.now ≡ asks_folded face.0 key.now interests.now }
    ensures { result ≡ asking_in interests.now face.0 key.now }
{
    let folds = has_own(owns, key);
    Asking {
        asks: folds || face_plainly(interests, face, key),
        folds,
    }
}

/// What the face asks of the key by its interests, once the one under the id has ended. It looks at this
/// face's interests alone.
pub fn asks_besides(interests: &Interests, face: FaceId, id: u32, key: &str) -> Asking
    requires { IsTrue (is_key key.now) }
    ensures { result ≡ asking_in (without_interest face.0 id interests.now) face.0 key.now }
{
    Asking {
        asks: interests.asks_besides(face, id, key),
        folds: interests.folds_besides(face, id, key),
    }
}

/// What the face asks of the key once it asks this under the id.
pub fn asks_with(
    interests: &Interests,
    face: FaceId,
    id: u32,
    entry: &InterestEntry,
    key: &str,
) -> Asking
    requires { IsTrue (is_key key.now) }
    ensures { result ≡ asking_in (with_interest face.0 id entry.now interests.now) face.0 key.now }
{
    Asking {
        asks: interests.asks_with(face, id, entry, key),
        folds: interests.folds_with(face, id, entry, key),
    }
}

/// A key joins others.
pub(crate) fn put_key(
    texts: &mut BTreeSet<String>,
    alloc: Global,
    key: &str,
) -> Result<(), OutOfMemory>
    requires { IsTrue (is_key key.now) }
    ensures joined { OnOk result (map string_bytes texts.new.keys ≡ insert_key text_cmp (map string_bytes texts.old.keys) key.now) }
    ensures valid { AreKeys (map string_bytes texts.old.keys) → OnOk result (AreKeys (map string_bytes texts.new.keys)) }
{
    put_text(texts, alloc, key)
}

// It joins them, if it meets what is asked for.
fn put_asked(
    texts: &mut BTreeSet<String>,
    alloc: Global,
    own: &str,
    asked: Option<&Key>,
) -> Result<(), OutOfMemory>
    requires { IsTrue (is_key own.now) }
    ensures joined { OnOk result (map string_bytes texts.new.keys ≡ put_if_asked (option_copied asked.entry) (map string_bytes texts.old.keys) own.now) }
    ensures valid { AreKeys (map string_bytes texts.old.keys) → OnOk result (AreKeys (map string_bytes texts.new.keys)) }
{
    if meets(asked, own) {
        put_key(texts, alloc, own)
    } else {
        Ok(())
    }
}

// The key of an aggregating interest that stays joins others, if it meets what is asked for.
fn put_own(
    texts: &mut BTreeSet<String>,
    alloc: Global,
    but: Option<u32>,
    id: u32,
    entry: &InterestEntry,
    asked: Option<&Key>,
) -> Result<(), OutOfMemory>
    ensures joined { OnOk result (map string_bytes texts.new.keys ≡ with_own but (option_copied asked.entry) (map string_bytes texts.old.keys) (id, entry.now)) }
    ensures valid { AreKeys (map string_bytes texts.old.keys) → OnOk result (AreKeys (map string_bytes texts.new.keys)) }
{
    if !is_left(but, id) {
        return Ok(());
    }
    match entry.own_key() {
        Some(own) => put_asked(texts, alloc, own.as_str(), asked),
        None => Ok(()),
    }
}

// The same of each of the interests.
fn put_each_own(
    texts: &mut BTreeSet<String>,
    alloc: Global,
    entries: &BTreeMap<u32, InterestEntry>,
    but: Option<u32>,
    asked: Option<&Key>,
) -> Result<(), OutOfMemory>
    ensures joined { OnOk result (map string_bytes texts.new.keys ≡ fold (with_own but (option_copied asked.entry)) (map string_bytes texts.old.keys) entries.now.entries) }
    ensures ordered { OnOk result (IsStrictlySortedBy nat_cmp (keys_of entries.now.entries)) }
    ensures valid { AreKeys (map string_bytes texts.old.keys) → OnOk result (AreKeys (map string_bytes texts.new.keys)) }
{
    for (id, entry) in entries {
        put_own(texts, alloc, but, *id, entry, asked)?;
    }
    Ok(())
}

/// Of the keys of the face's aggregating interests, but for the one under the id, those join others that
/// meet what is asked for.
pub fn put_owns_asked(
    texts: &mut BTreeSet<String>,
    alloc: Global,
    interests: &Interests,
    face: FaceId,
    but: Option<u32>,
    asked: Option<&Key>,
) -> Result<(), OutOfMemory>
    ensures joined { OnOk result (map string_bytes texts.new.keys ≡ fold (with_own but (option_copied asked.entry)) (map string_bytes texts.old.keys) (interests_of face.0 interests.now)) }
    ensures ordered { OnOk result (IsStrictlySortedBy nat_cmp (keys_of (interests_of face.0 interests.now))) }
    ensures valid { AreKeys (map string_bytes texts.old.keys) → OnOk result (AreKeys (map string_bytes texts.new.keys)) }
{
    match interests.asked_by(face) {
        Some(entries) => put_each_own(texts, alloc, entries, but, asked),
        None => Ok(()),
    }
}
