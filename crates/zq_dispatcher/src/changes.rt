//! What a call looks at that changes a region's hat, and what it tells own trees.
ghost use Rattle.std.specs.Prelude.{◌≡◌, [], ◌∷◌, ℕ, List, Some, IfOk, IsTrue, fold, true};
ghost use Rattle.std.specs.BTreeMap.{is_at};
ghost use Rattle.std.specs.BTreeSet.{insert_key};
ghost use Rattle.std.specs.List.{AllByRecursion};
ghost use Rattle.std.specs.Map.{remove_entry};
ghost use Rattle.std.specs.Ordering.{nat_cmp};
ghost use Rattle.zq_index.specs.Texts.{text_cmp};
ghost use Rattle.zq_key.specs.Key.{is_key};
ghost use Rattle.zq_strategy.specs.Changes.{changed_by};
ghost use Rattle.zq_strategy.specs.Kept.{has_face, keys_of_face, without_face};
ghost use Rattle.zq_machine.specs.Neighbours.{looked_over};
ghost use Rattle.zq_machine.specs.State.{Core, change_hat, hat_at};
ghost use Rattle.zq_dispatcher.specs.Own.{change_told};
ghost use Rattle.zq_dispatcher.specs.Dues.{AreKeys, IsBeside, hats_next};
ghost use Rattle.zq_dispatcher.specs.Over.{AreSeated, faces_but};

use crate::over::dues_over;
use crate::sorted::sorted;
use crate::telling::tell_change;
use crate::types::{DuesList, RegionChange};
use std::alloc::Global;
use std::collections::BTreeMap;
use zq_hat::hat::Hat;
use zq_interests::interests::Interests;
use zq_key::items::Items;
use zq_key::memory::OutOfMemory;
use zq_key::message::{FaceId, Region};
use zq_key::text::Text;
use zq_machine::face::OpenFace;
use zq_strategy::types::{Change, TellingList};
use zq_tables::RegionMap;

/// What own trees are told of a key, and what will be due there to faces.
#[derive(Drop)]
pub struct Gathered {
    /// What the children of own trees are told.
    pub told: TellingList,
    /// What will be due to open faces.
    pub dues: DuesList,
}

/// What will be due to each open face once the region's hat has changed, on a key, which it changes
/// alone, and on those of its aggregating interests' keys that it meets. Refused only where memory is
/// lacking, and then nothing is changed.
pub fn dues_on(
    alloc: Global,
    faces: &BTreeMap<u32, OpenFace>,
    hats: &RegionMap<Hat>,
    interests: &Interests,
    region: Region,
    change: Change,
    key: &str,
) -> Result<DuesList, OutOfMemory>
    requires key { IsTrue (is_key key.now) }
    requires seated { AreSeated faces.now.entries hats.now }
    ensures { (c : Core) → c.faces ≡ faces.now.entries → change_hat region (changed_by change key.now) hats.now ≡ c.hats → IsBeside c hats.now (key.now ∷ []) → IfOk result (λ ds. ds ≡ looked_over c interests.now (key.now ∷ [])) }
{
    let next = RegionChange { region, change };
    let mut keys = Items::new(alloc);
    keys.push(Text::new(alloc, key)?)?;
    dues_over(
        alloc,
        faces,
        None,
        hats,
        Some(&next),
        interests,
        keys.as_slice(),
    )
}

/// What will be due as by `dues_on`, but on keys in any order, where the hats are the same after the
/// change whichever of the keys it is, and but for a face that is closed. Refused only where memory is lacking, and then nothing is
/// changed.
pub fn dues_on_all(
    alloc: Global,
    faces: &BTreeMap<u32, OpenFace>,
    but: Option<FaceId>,
    hats: &RegionMap<Hat>,
    next: &RegionChange,
    interests: &Interests,
    keys: &[Text],
) -> Result<DuesList, OutOfMemory>
    requires keys { AreKeys keys.now }
    requires seated { AreSeated faces.now.entries hats.now }
    ensures { (c : Core) → c.faces ≡ faces_but but faces.now.entries → AllByRecursion (λ key. hats_next next.now key hats.now ≡ c.hats) keys.now → IsBeside c hats.now (fold (insert_key text_cmp) [] keys.now) → IfOk result (λ ds. ds ≡ looked_over c interests.now (fold (insert_key text_cmp) [] keys.now)) }
{
    let keys = sorted(alloc, keys)?;
    dues_over(
        alloc,
        faces,
        but,
        hats,
        Some(next),
        interests,
        keys.as_slice(),
    )
}

/// What will be due to the other faces, on the keys that a face declared, where it leaves its hat.
/// Refused only where memory is lacking, and then nothing is changed.
pub fn dues_left(
    alloc: Global,
    faces: &BTreeMap<u32, OpenFace>,
    hats: &RegionMap<Hat>,
    interests: &Interests,
    region: Region,
    hat: &Hat,
    face: FaceId,
) -> Result<DuesList, OutOfMemory>
    requires there { hat_at region hats.now ≡ Some hat.now }
    requires face { has_face face.0 hat.now ≡ true }
    requires seated { AreSeated faces.now.entries hats.now }
    ensures { (c : Core) → c.faces ≡ remove_entry (is_at (nat_cmp face.0)) faces.now.entries → change_hat region (without_face face.0) hats.now ≡ c.hats → IsBeside c hats.now (fold (insert_key text_cmp) [] (keys_of_face face.0 hat.now)) → IfOk result (λ ds. ds ≡ looked_over c interests.now (fold (insert_key text_cmp) [] (keys_of_face face.0 hat.now))) }
{
    let keys = hat.keys_of(face)?;
    let next = RegionChange {
        region,
        change: Change::Left(face),
    };
    dues_on_all(
        alloc,
        faces,
        Some(face),
        hats,
        &next,
        interests,
        keys.as_slice(),
    )
}

/// What own trees are told of a key, and what will be due there, once the region's hat has changed.
/// Refused only where memory is lacking, and then nothing is changed.
pub fn gather(
    alloc: Global,
    faces: &BTreeMap<u32, OpenFace>,
    hats: &RegionMap<Hat>,
    interests: &Interests,
    region: Region,
    hat: &Hat,
    change: Change,
    key: &str,
) -> Result<Gathered, OutOfMemory>
    requires there { hat_at region hats.now ≡ Some hat.now }
    requires key { IsTrue (is_key key.now) }
    requires seated { AreSeated faces.now.entries hats.now }
    ensures told { IfOk result (λ g. g.told ≡ change_told hats.now region change key.now) }
    ensures dues { (c : Core) → c.faces ≡ faces.now.entries → change_hat region (changed_by change key.now) hats.now ≡ c.hats → IsBeside c hats.now (key.now ∷ []) → IfOk result (λ g. g.dues ≡ looked_over c interests.now (key.now ∷ [])) }
{
    let mut told = Items::new(alloc);
    tell_change(hats, region, hat, &change, key, &mut told)?;
    let dues = dues_on(alloc, faces, hats, interests, region, change, key)?;
    Ok(Gathered { told, dues })
}
