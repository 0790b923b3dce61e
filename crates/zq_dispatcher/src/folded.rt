//! One entry for all keys that meet a key: what a face hears on them, merged. What is the same there for all
//! faces of a region is gathered once.
ghost use Rattle.std.specs.Prelude.{◌≡◌, IfOk, IsTrue, OnOk, fold, map, option_copied, string_bytes};
ghost use Rattle.zq_key.specs.Key.{is_key};
ghost use Rattle.zq_message.specs.Region.{region_index};
ghost use Rattle.zq_dispatcher.specs.Dues.{AreKeys, folded_as, parts, put_if_meets};
ghost use Rattle.zq_dispatcher.specs.Parts.{AreGathered, change_of, gathered, heard_part, part_at, seen_as, with_heard};

use crate::asking::put_key;
use crate::due::{heard_in, others_at};
use crate::folds::{Folds, fold_at, put_fold};
use crate::hats::hat_at;
use crate::keys::met_texts_by;
use crate::sorted::has_text;
use crate::types::RegionChange;
use std::alloc::Global;
use std::collections::BTreeSet;
use zq_hat::hat::Hat;
use zq_index::info::joined;
use zq_key::items::Items;
use zq_key::memory::OutOfMemory;
use zq_key::message::{FaceId, QueryableInfoType, Region};
use zq_key::text::Text;
use zq_key::{includes, intersects};
use zq_machine::face::OpenFace;
use zq_strategy::strategy::same_region;
use zq_strategy::types::Change;
use zq_tables::RegionMap;

/// A key that meets one asked for aggregated, with what is the same there for all faces of a region.
#[derive(Drop)]
pub struct Part {
    /// The key.
    pub key: Text,
    /// The change reaches what is heard on it.
    pub changes: bool,
    /// It includes the other.
    pub covers: bool,
    /// What the other regions will have on it.
    pub others: Option<QueryableInfoType>,
}

/// All keys that meet one.
pub type PartList = Items<Part>;

// A key joins others, if it meets the key.
fn put_if_meets(
    parts: &mut BTreeSet<String>,
    alloc: Global,
    k: &str,
    key: &str,
) -> Result<(), OutOfMemory>
    requires part { IsTrue (is_key k.now) }
    requires key { IsTrue (is_key key.now) }
    ensures joined { OnOk result (map string_bytes parts.new.keys ≡ put_if_meets key.now (map string_bytes parts.old.keys) k.now) }
    ensures valid { AreKeys (map string_bytes parts.old.keys) → OnOk result (AreKeys (map string_bytes parts.new.keys)) }
{
    if intersects(k, key) {
        put_key(parts, alloc, k)
    } else {
        Ok(())
    }
}

// So does each of some keys.
fn put_meeting(
    parts: &mut BTreeSet<String>,
    alloc: Global,
    keys: &BTreeSet<String>,
    key: &str,
) -> Result<(), OutOfMemory>
    requires keys { AreKeys (map string_bytes keys.now.keys) }
    requires key { IsTrue (is_key key.now) }
    ensures joined { OnOk result (map string_bytes parts.new.keys ≡ fold (put_if_meets key.now) (map string_bytes parts.old.keys) (map string_bytes keys.now.keys)) }
    ensures valid { AreKeys (map string_bytes parts.old.keys) → OnOk result (AreKeys (map string_bytes parts.new.keys)) }
{
    for k in keys {
        put_if_meets(parts, alloc, k.as_str(), key)?;
    }
    Ok(())
}

// The keys that meet the key on which regions have information, or may have it once a hat has changed.
fn parts_of(
    alloc: Global,
    hats: &RegionMap<Hat>,
    touched: &BTreeSet<String>,
    key: &str,
) -> Result<BTreeSet<String>, OutOfMemory>
    requires touched { AreKeys (map string_bytes touched.now.keys) }
    requires key { IsTrue (is_key key.now) }
    ensures keys { IfOk result (λ s. map string_bytes s.keys ≡ parts (map string_bytes touched.now.keys) hats.now key.now) }
    ensures valid { IfOk result (λ s. AreKeys (map string_bytes s.keys)) }
{
    let mut parts = met_texts_by(alloc, hats, key)?;
    put_meeting(&mut parts, alloc, touched, key)?;
    Ok(parts)
}

// What is gathered of a key that meets the other.
fn part_at(
    alloc: Global,
    hats: &RegionMap<Hat>,
    next: Option<&RegionChange>,
    touched: &BTreeSet<String>,
    region: Region,
    key: &str,
    part: &str,
) -> Result<Part, OutOfMemory>
    requires key { IsTrue (is_key key.now) }
    requires part { IsTrue (is_key part.now) }
    ensures { IfOk result (λ p. p ≡ part_at (option_copied next.entry) (map string_bytes touched.now.keys) (region_index region) hats.now key.now part.now) }
{
    let changes = has_text(touched, part);
    Ok(Part {
        key: Text::new(alloc, part)?,
        changes,
        covers: includes(part, key),
        others: others_at(hats, next, changes, region, part),
    })
}

// The same of some keys.
fn parts_at(
    alloc: Global,
    hats: &RegionMap<Hat>,
    next: Option<&RegionChange>,
    touched: &BTreeSet<String>,
    region: Region,
    key: &str,
    texts: &BTreeSet<String>,
) -> Result<PartList, OutOfMemory>
    requires key { IsTrue (is_key key.now) }
    requires texts { AreKeys (map string_bytes texts.now.keys) }
    ensures { IfOk result (λ ps. ps ≡ map (part_at (option_copied next.entry) (map string_bytes touched.now.keys) (region_index region) hats.now key.now) (map string_bytes texts.now.keys)) }
{
    let mut list = Items::new(alloc);
    for text in texts {
        let part = text.as_str();
        list.push(part_at(alloc, hats, next, touched, region, key, part)?)?;
    }
    Ok(list)
}

// What is gathered for a region of all keys that meet the key.
fn gathered(
    alloc: Global,
    hats: &RegionMap<Hat>,
    next: Option<&RegionChange>,
    touched: &BTreeSet<String>,
    region: Region,
    key: &str,
) -> Result<PartList, OutOfMemory>
    requires touched { AreKeys (map string_bytes touched.now.keys) }
    requires key { IsTrue (is_key key.now) }
    ensures { IfOk result (λ ps. ps ≡ gathered (option_copied next.entry) (map string_bytes touched.now.keys) (region_index region) hats.now key.now) }
{
    let texts = parts_of(alloc, hats, touched, key)?;
    parts_at(alloc, hats, next, touched, region, key, &texts)
}

// The change of the region's hat, if it is that which changes.
fn change_of<'n>(next: Option<&'n RegionChange>, region: Region) -> Option<&'n Change>
    ensures { option_copied result ≡ change_of (option_copied next.entry) region }
{
    match next {
        Some(next) => {
            if same_region(region, next.region) {
                Some(&next.change)
            } else {
                None
            }
        }
        None => None,
    }
}

// What a face of the hat will hear on the key of the part.
fn heard_part(
    hat: &Hat,
    change: Option<&Change>,
    face: FaceId,
    part: &Part,
) -> Option<QueryableInfoType>
    ensures { result ≡ heard_part hat.now (option_copied change.entry) face.0 part.now }
{
    if part.changes {
        heard_in(hat, change, face, part.key.as_str(), part.others)
    } else {
        heard_in(hat, None, face, part.key.as_str(), part.others)
    }
}

// As a part of the entry an information is complete only if its key includes the other.
fn seen_as(covers: bool, info: Option<QueryableInfoType>) -> Option<QueryableInfoType>
    ensures { result ≡ seen_as covers info }
{
    match info {
        Some(info) => Some(QueryableInfoType {
            complete: info.complete && covers,
            distance: info.distance,
        }),
        None => None,
    }
}

// What a face of the hat will hear on the parts, merged.
fn heard_over(
    hat: &Hat,
    change: Option<&Change>,
    face: FaceId,
    parts: &[Part],
) -> Option<QueryableInfoType>
    ensures { result ≡ fold (with_heard hat.now (option_copied change.entry) face.0) None parts.now }
{
    let mut merged = None;
    for part in parts {
        let heard = heard_part(hat, change, face, part);
        merged = joined(merged, seen_as(part.covers, heard));
    }
    merged
}

/// What an open face will hear, once a hat has changed, which changes what is heard on the touched keys
/// alone, on all keys that meet the key, aggregated; where none changes, what it hears. Only keys that
/// meet it are looked at, and they are gathered once for all faces of a region. Refused only where memory
/// is lacking.
pub(crate) fn folded(
    folds: &mut Folds,
    alloc: Global,
    hats: &RegionMap<Hat>,
    next: Option<&RegionChange>,
    touched: &BTreeSet<String>,
    face: FaceId,
    opened: OpenFace,
    key: &str,
) -> Result<Option<QueryableInfoType>, OutOfMemory>
    requires touched { AreKeys (map string_bytes touched.now.keys) }
    requires key { IsTrue (is_key key.now) }
    requires gathered { AreGathered (option_copied next) (map string_bytes touched.now.keys) hats.now folds.old.entries }
    ensures folded { IfOk result (λ i. i ≡ folded_as (option_copied next.entry) (map string_bytes touched.now.keys) face.0 opened hats.now key.now) }
    ensures gathered { OnOk result (AreGathered (option_copied next.entry) (map string_bytes touched.now.keys) hats.now folds.new.entries) }
{
    let Some(hat) = hat_at(hats, opened.region) else {
        return Ok(None);
    };
    let change = change_of(next, opened.region);
    match fold_at(folds, opened.region, key) {
        Some(parts) => Ok(heard_over(hat, change, face, parts.as_slice())),
        None => {
            let parts = gathered(alloc, hats, next, touched, opened.region, key)?;
            let heard = heard_over(hat, change, face, parts.as_slice());
            put_fold(folds, alloc, opened.region, key, parts)?;
            Ok(heard)
        }
    }
}
