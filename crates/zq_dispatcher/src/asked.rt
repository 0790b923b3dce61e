//! What an interest of a face looks at, and what its end looks at.
ghost use Rattle.std.specs.Prelude.{◌≡◌, ◌++◌, [], ℕ, List, None, Some, IfOk, IsTrue, OnOk, filter, fold, map, option_copied, string_bytes};
ghost use Rattle.std.specs.BTreeSet.{insert_key};
ghost use Rattle.std.specs.List.{flat_map};
ghost use Rattle.std.specs.Option.{option_to_list};
ghost use Rattle.zq_index.specs.Texts.{text_cmp};
ghost use Rattle.std.specs.List.Sorted.{IsStrictlySortedBy};
ghost use Rattle.std.specs.Map.{keys_of};
ghost use Rattle.std.specs.Ordering.{nat_cmp};
ghost use Rattle.zq_key.specs.Key.{is_key};
ghost use Rattle.zq_interests.specs.declared.types.InterestEntry.{InterestEntry};
ghost use Rattle.zq_interests.specs.Interests.{interests_of, own_keys, with_interest, without_interest};
ghost use Rattle.zq_told.specs.ToldSets.{told_keys};
ghost use Rattle.zq_told.specs.Rooms.{ears_of};
ghost use Rattle.zq_machine.specs.Neighbours.{asked_at, ended_at, with_dues};
ghost use Rattle.zq_machine.specs.State.{Core, at};
ghost use Rattle.zq_dispatcher.specs.Asked.{AreInformed, keys_asked, looked_due};
ghost use Rattle.zq_dispatcher.specs.Asking.{asking_in};
ghost use Rattle.zq_dispatcher.specs.Dues.{AreKeys, row_as, was_told};

use crate::asking::{asks_besides, asks_with, put_key, put_owns_asked};
use crate::due::due_as;
use crate::dues::put_due;
use crate::keys::met_texts;
use crate::over::list_face;
use crate::types::DuesList;
use std::alloc::Global;
use std::collections::BTreeSet;
use zq_hat::hat::Hat;
use zq_interests::interests::Interests;
use zq_interests::types::InterestEntry;
use zq_key::Key;
use zq_key::items::Items;
use zq_key::memory::OutOfMemory;
use zq_key::message::FaceId;
use zq_key::text::Text;
use zq_machine::face::OpenFace;
use zq_tables::RegionMap;
use zq_told::told_sets::ToldSets;
use zq_told::types::KeyUpdates;

// A list of the face with its dues, if it has any.
fn one_face(alloc: Global, face: FaceId, dues: KeyUpdates) -> Result<DuesList, OutOfMemory>
    ensures { IfOk result (λ ds. ds ≡ with_dues face.0 dues) }
{
    let mut list = Items::new(alloc);
    list_face(&mut list, face, dues)?;
    Ok(list)
}

// A key joins others, if there is one.
fn put_option(
    keys: &mut BTreeSet<String>,
    alloc: Global,
    asked: Option<&Key>,
) -> Result<(), OutOfMemory>
    ensures joined { OnOk result (map string_bytes keys.new.keys ≡ fold (insert_key text_cmp) (map string_bytes keys.old.keys) (option_to_list (option_copied asked.entry))) }
    ensures valid { AreKeys (map string_bytes keys.old.keys) → OnOk result (AreKeys (map string_bytes keys.new.keys)) }
{
    match asked {
        Some(key) => put_key(keys, alloc, key.as_str()),
        None => Ok(()),
    }
}

// The keys that an interest of the face may have to look at.
fn keys_asked(
    alloc: Global,
    hats: &RegionMap<Hat>,
    interests: &Interests,
    face: FaceId,
    id: u32,
    entry: &InterestEntry,
) -> Result<BTreeSet<String>, OutOfMemory>
    ensures keys { IfOk result (λ s. map string_bytes s.keys ≡ keys_asked id entry.now face.0 interests.now hats.now) }
    ensures valid { IfOk result (λ s. AreKeys (map string_bytes s.keys)) }
    ensures ordered { OnOk result (IsStrictlySortedBy nat_cmp (keys_of (interests_of face.0 interests.now))) }
{
    let asked = entry.key.as_ref();
    let mut keys = met_texts(alloc, hats, asked)?;
    put_owns_asked(&mut keys, alloc, interests, face, Some(id), asked)?;
    put_option(&mut keys, alloc, asked)?;
    Ok(keys)
}

// A key joins the list with what is due there to the face once the interest stands, if it asks for the key
// or nothing is due there.
fn put_looked(
    dues: &mut KeyUpdates,
    alloc: Global,
    hats: &RegionMap<Hat>,
    interests: &Interests,
    face: FaceId,
    id: u32,
    opened: OpenFace,
    entry: &InterestEntry,
    key: &str,
) -> Result<(), OutOfMemory>
    requires { IsTrue (is_key key.now) }
    ensures { OnOk result (dues.new ≡ dues.old ++ looked_due id entry.now face.0 interests.now opened hats.now key.now) }
{
    let asks = asks_with(interests, face, id, entry, key);
    let touched = BTreeSet::new(alloc);
    let due = due_as(alloc, hats, None, &touched, face, opened, asks, key)?;
    if entry.asks_for(key) || due.is_none() {
        dues.push((Text::new(alloc, key)?, due))?;
    }
    Ok(())
}

// What is looked at on the keys.
fn looked_dues(
    alloc: Global,
    hats: &RegionMap<Hat>,
    interests: &Interests,
    face: FaceId,
    id: u32,
    opened: OpenFace,
    entry: &InterestEntry,
    keys: &BTreeSet<String>,
) -> Result<KeyUpdates, OutOfMemory>
    requires { AreKeys (map string_bytes keys.now.keys) }
    ensures { IfOk result (λ ds. ds ≡ flat_map (looked_due id entry.now face.0 interests.now opened hats.now) (map string_bytes keys.now.keys)) }
{
    let mut dues = Items::new(alloc);
    for key in keys {
        let text = key.as_str();
        put_looked(
            &mut dues, alloc, hats, interests, face, id, opened, entry, text,
        )?;
    }
    Ok(dues)
}

/// What an interest of an open face looks at, with what is due to the face there once it stands: the keys
/// on which something may be due and for which it asks, its own among them; and of those that meet it
/// those on which nothing is due, or is due any more. Refused only where memory is lacking.
pub fn dues_asked(
    alloc: Global,
    hats: &RegionMap<Hat>,
    interests: &Interests,
    face: FaceId,
    id: u32,
    opened: OpenFace,
    entry: &InterestEntry,
) -> Result<DuesList, OutOfMemory>
    ensures { (c : Core) → at face.0 c.faces ≡ Some opened → hats.now ≡ c.hats → IfOk result (λ ds. ds ≡ asked_at c (with_interest face.0 id entry.now interests.now) face.0 entry.now) }
{
    let keys = keys_asked(alloc, hats, interests, face, id, entry)?;
    let dues = looked_dues(alloc, hats, interests, face, id, opened, entry, &keys)?;
    one_face(alloc, face, dues)
}

// Whether the face was told of the key.
fn was_told(ears: &ToldSets, face: FaceId, key: &str) -> bool
    ensures { result ≡ was_told face.0 (ears_of ears.now) key.now }
{
    ears.told_of(face, key).is_some()
}

// Those of the keys that the face was told, with what is due to it there by its other interests.
fn dues_besides(
    alloc: Global,
    hats: &RegionMap<Hat>,
    interests: &Interests,
    ears: &ToldSets,
    face: FaceId,
    id: u32,
    opened: OpenFace,
    keys: &BTreeSet<String>,
) -> Result<KeyUpdates, OutOfMemory>
    requires { AreKeys (map string_bytes keys.now.keys) }
    ensures { IfOk result (λ ds. ds ≡ map (row_as (asking_in (without_interest face.0 id interests.now) face.0) face.0 opened hats.now) (filter (was_told face.0 (ears_of ears.now)) (map string_bytes keys.now.keys))) }
{
    let touched = BTreeSet::new(alloc);
    let mut dues = Items::new(alloc);
    for key in keys {
        let text = key.as_str();
        if was_told(ears, face, text) {
            let asks = asks_besides(interests, face, id, text);
            put_due(
                &mut dues, alloc, hats, None, &touched, face, opened, asks, text,
            )?;
        }
    }
    Ok(dues)
}

/// What the end of an interest of an open face looks at: the keys that the face was told and that meet
/// what was asked for, with what is due to it there by its other interests. They are found among the
/// regions' keys by what was asked for, and among those of the face's aggregating interests; of each that
/// the face was told some region has information, or it is one of these. Refused only where memory is
/// lacking.
pub fn dues_ended(
    alloc: Global,
    hats: &RegionMap<Hat>,
    interests: &Interests,
    ears: &ToldSets,
    face: FaceId,
    id: u32,
    opened: OpenFace,
    asked: Option<&Key>,
) -> Result<DuesList, OutOfMemory>
    requires { AreInformed (told_keys face.0 (ears_of ears.now)) hats.now (own_keys face.0 interests.now) }
    ensures { (c : Core) (e : InterestEntry) → at face.0 c.faces ≡ Some opened → hats.now ≡ c.hats → e.key ≡ option_copied asked.entry → IfOk result (λ ds. ds ≡ ended_at c (without_interest face.0 id interests.now) (ears_of ears.now) face.0 e) }
{
    let mut keys = met_texts(alloc, hats, asked)?;
    put_owns_asked(&mut keys, alloc, interests, face, None, asked)?;
    let dues = dues_besides(alloc, hats, interests, ears, face, id, opened, &keys)?;
    one_face(alloc, face, dues)
}
