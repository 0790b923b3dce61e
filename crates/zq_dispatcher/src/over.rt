//! What a whole call looks at: at each face that is open after it those of its keys on which the
//! face is interested; at a new face those of all keys.
ghost use Rattle.std.specs.Prelude.{◌≡◌, ◌++◌, [], IfOk, OnOk, fold, map, option_copied, string_bytes};
ghost use Rattle.std.specs.BTreeSet.{insert_key};
ghost use Rattle.std.specs.List.{flat_map};
ghost use Rattle.std.specs.List.Sorted.{IsStrictlySortedBy};
ghost use Rattle.zq_index.specs.Texts.{text_cmp};
ghost use Rattle.zq_interests.specs.Interests.{Interests};
ghost use Rattle.zq_machine.specs.declared.call.Opening.{Opening};
ghost use Rattle.zq_machine.specs.Deciding.{with_face};
ghost use Rattle.zq_machine.specs.Neighbours.{looked_at, looked_over, with_dues};
ghost use Rattle.zq_machine.specs.State.{Core};
ghost use Rattle.zq_machine.specs.TextCalls.{opening};
ghost use Rattle.zq_dispatcher.specs.Dues.{AreKeys, IsAfter};
ghost use Rattle.zq_dispatcher.specs.Over.{AreSeated, IsOpening, dues_there, faces_but, is_gone, looked_there, open_but};
ghost use Rattle.zq_dispatcher.specs.Owns.{AllKeys, AreOwns};
ghost use Rattle.zq_dispatcher.specs.Parts.{AreGathered};

use crate::due::listens;
use crate::dues::{dues_of_face, dues_on_each};
use crate::folds::Folds;
use crate::keys::met_keys;
use crate::listeners::listeners;
use crate::owns::{OwnKeys, Owns, owns_met};
use crate::sorted::{list_of, set_of};
use crate::types::{DuesList, RegionChange};
use std::alloc::Global;
use std::collections::{BTreeMap, BTreeSet};
use zq_hat::hat::Hat;
use zq_interests::interests::Interests;
use zq_key::items::Items;
use zq_key::memory::OutOfMemory;
use zq_key::message::{FaceId, TextList};
use zq_key::text::Text;
use zq_machine::face::OpenFace;
use zq_tables::RegionMap;
use zq_told::types::{FaceUpdate, KeyUpdates};

// Whether the face is the one that a closing takes away, if there is one.
fn is_gone(but: Option<FaceId>, face: FaceId) -> bool
    ensures { result ≡ is_gone but face.0 }
{
    match but {
        Some(gone) => gone.0 == face.0,
        None => false,
    }
}

// The open face, but for the one that a closing takes away.
fn open_but(faces: &BTreeMap<u32, OpenFace>, but: Option<FaceId>, face: FaceId) -> Option<OpenFace>
    ensures { result ≡ open_but but faces.now.entries face.0 }
{
    if is_gone(but, face) {
        None
    } else {
        faces.get(&face.0).copied()
    }
}

/// The face joins the list with its dues, if it has any.
pub(crate) fn list_face(
    list: &mut DuesList,
    face: FaceId,
    dues: KeyUpdates,
) -> Result<(), OutOfMemory>
    ensures { OnOk result (list.new ≡ list.old ++ with_dues face.0 dues) }
{
    if dues.is_empty() {
        return Ok(());
    }
    list.push(FaceUpdate { face, keys: dues })?;
    Ok(())
}

// The keys in order, with those of the face's aggregating interests.
fn widened(alloc: Global, keys: &[Text], owns: &OwnKeys) -> Result<TextList, OutOfMemory>
    requires keys { AreKeys keys.now }
    requires owns { AreKeys owns.now }
    requires rise { IsStrictlySortedBy text_cmp keys.now }
    ensures keys { IfOk result (λ ks. ks ≡ fold (insert_key text_cmp) keys.now owns.now) }
    ensures valid { IfOk result (λ ks. AreKeys ks) }
{
    let mut texts = set_of(alloc, keys)?;
    owns.join(&mut texts, alloc)?;
    list_of(alloc, &texts)
}

// What will be due to an open face, on those of the touched keys on which it listens, and on those of its
// aggregating interests' keys that one of them meets.
fn dues_there(
    folds: &mut Folds,
    alloc: Global,
    hats: &RegionMap<Hat>,
    next: Option<&RegionChange>,
    touched: &BTreeSet<String>,
    interests: &Interests,
    owns: &Owns,
    face: FaceId,
    opened: OpenFace,
    keys: &[Text],
) -> Result<KeyUpdates, OutOfMemory>
    requires same { map string_bytes touched.now.keys ≡ keys.now }
    requires met { AreOwns keys.now interests.now owns.now.entries }
    requires owns { AllKeys owns.now.entries }
    requires valid { AreKeys keys.now }
    requires rise { IsStrictlySortedBy text_cmp keys.now }
    requires gathered { AreGathered (option_copied next) (map string_bytes touched.now.keys) hats.now folds.old.entries }
    ensures dues { IfOk result (λ ds. ds ≡ dues_there interests.now (option_copied next.entry) hats.now keys.now (face.0, opened)) }
    ensures gathered { OnOk result (AreGathered (option_copied next.entry) (map string_bytes touched.now.keys) hats.now folds.new.entries) }
{
    let Some(own) = owns.get(&face.0) else {
        return dues_of_face(
            folds, alloc, hats, next, touched, interests, None, face, opened, keys,
        );
    };
    let wide = widened(alloc, keys, own)?;
    let all = wide.as_slice();
    dues_of_face(
        folds,
        alloc,
        hats,
        next,
        touched,
        interests,
        Some(own),
        face,
        opened,
        all,
    )
}

// The face joins the list with what will be due to it, if it is open after the call and anything is.
fn look_there(
    list: &mut DuesList,
    folds: &mut Folds,
    alloc: Global,
    faces: &BTreeMap<u32, OpenFace>,
    but: Option<FaceId>,
    hats: &RegionMap<Hat>,
    next: Option<&RegionChange>,
    touched: &BTreeSet<String>,
    interests: &Interests,
    owns: &Owns,
    face: FaceId,
    keys: &[Text],
) -> Result<(), OutOfMemory>
    requires same { map string_bytes touched.now.keys ≡ keys.now }
    requires met { AreOwns keys.now interests.now owns.now.entries }
    requires owns { AllKeys owns.now.entries }
    requires valid { AreKeys keys.now }
    requires rise { IsStrictlySortedBy text_cmp keys.now }
    requires gathered { AreGathered (option_copied next) (map string_bytes touched.now.keys) hats.now folds.old.entries }
    ensures listed { OnOk result (list.new ≡ list.old ++ looked_there interests.now (option_copied next.entry) hats.now keys.now but faces.now.entries face.0) }
    ensures gathered { OnOk result (AreGathered (option_copied next.entry) (map string_bytes touched.now.keys) hats.now folds.new.entries) }
{
    let Some(opened) = open_but(faces, but, face) else {
        return Ok(());
    };
    let dues = dues_there(
        folds, alloc, hats, next, touched, interests, owns, face, opened, keys,
    )?;
    list_face(list, face, dues)
}

// The same of all those that can listen, in order of their numbers.
fn look_at(
    alloc: Global,
    faces: &BTreeMap<u32, OpenFace>,
    but: Option<FaceId>,
    hats: &RegionMap<Hat>,
    next: Option<&RegionChange>,
    touched: &BTreeSet<String>,
    interests: &Interests,
    owns: &Owns,
    listeners: &BTreeSet<u32>,
    keys: &[Text],
) -> Result<DuesList, OutOfMemory>
    requires same { map string_bytes touched.now.keys ≡ keys.now }
    requires met { AreOwns keys.now interests.now owns.now.entries }
    requires owns { AllKeys owns.now.entries }
    requires valid { AreKeys keys.now }
    requires rise { IsStrictlySortedBy text_cmp keys.now }
    ensures { IfOk result (λ ds. ds ≡ flat_map (looked_there interests.now (option_copied next.entry) hats.now keys.now but faces.now.entries) listeners.now.keys) }
{
    let mut list = Items::new(alloc);
    let mut folds = BTreeMap::new(alloc);
    for number in listeners {
        let face = FaceId(*number);
        look_there(
            &mut list, &mut folds, alloc, faces, but, hats, next, touched, interests, owns, face,
            keys,
        )?;
    }
    Ok(list)
}

/// What will be due to each open face, once a hat has changed, which changes what is heard on these keys
/// alone: on those of them in which it is interested, and on those of its aggregating interests' keys that one
/// of them meets. In order of the faces' numbers, all but one that a closing takes away; a face that
/// is interested in none is left out. Only those are looked at that can be interested: the faces of regions whose faces
/// are interested unasked, and those of which an interest meets one of the keys; and of aggregating interests those
/// that one of the keys meets. Refused only where memory is lacking, and then nothing is changed.
pub fn dues_over(
    alloc: Global,
    faces: &BTreeMap<u32, OpenFace>,
    but: Option<FaceId>,
    hats: &RegionMap<Hat>,
    next: Option<&RegionChange>,
    interests: &Interests,
    keys: &[Text],
) -> Result<DuesList, OutOfMemory>
    requires keys { AreKeys keys.now }
    requires rise { IsStrictlySortedBy text_cmp keys.now }
    requires seated { AreSeated faces.now.entries hats.now }
    ensures { (c : Core) → c.faces ≡ faces_but but faces.now.entries → IsAfter c (option_copied next.entry) hats.now keys.now → IfOk result (λ ds. ds ≡ looked_over c interests.now keys.now) }
{
    if keys.is_empty() {
        return Ok(Items::new(alloc));
    }
    if faces.len() == 0 {
        return Ok(Items::new(alloc));
    }
    let touched = set_of(alloc, keys)?;
    let listeners = listeners(alloc, hats, interests, keys)?;
    let owns = owns_met(alloc, interests, keys)?;
    look_at(
        alloc, faces, but, hats, next, &touched, interests, &owns, &listeners, keys,
    )
}

/// What will be due to a face that is about to be opened and asks for nothing yet, on those of all
/// keys with information in which it is interested, by the hats as they are before it joins its region: one
/// entry, or none. Keys are gathered only for a face that is interested unasked. Refused only where memory
/// is lacking, and then nothing is changed.
pub fn dues_at_opening(
    alloc: Global,
    hats: &RegionMap<Hat>,
    face: FaceId,
    opened: OpenFace,
) -> Result<DuesList, OutOfMemory>
    ensures { (c : Core) (ints : Interests) (o : Opening) → IsOpening c ints face.0 opened o hats.now → IfOk result (λ ds. ds ≡ looked_at c (with_face o c) ints (opening o)) }
{
    if !listens(hats, opened, false) {
        return Ok(Items::new(alloc));
    }
    let keys = met_keys(alloc, hats, None)?;
    let dues = dues_on_each(alloc, hats, face, opened, keys.as_slice())?;
    let mut list = Items::new(alloc);
    list_face(&mut list, face, dues)?;
    Ok(list)
}
