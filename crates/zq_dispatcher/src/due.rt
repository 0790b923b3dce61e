//! Whether a face is interested in a key, and what will be due to it there once a hat has changed.
ghost use Rattle.std.specs.Prelude.{◌≡◌, IfOk, IsTrue, OnOk, map, option_copied, string_bytes};
ghost use Rattle.zq_key.specs.Key.{is_key};
ghost use Rattle.zq_message.specs.Region.{region_index};
ghost use Rattle.zq_strategy.specs.Changes.{changed_if};
ghost use Rattle.zq_strategy.specs.Fellows.{fellow_info};
ghost use Rattle.zq_strategy.specs.Regions.{is_north, strategy_at};
ghost use Rattle.zq_machine.specs.Due.{heard_as, heard_by, listens_by};
ghost use Rattle.zq_machine.specs.Trees.{own_entry};
ghost use Rattle.zq_dispatcher.specs.Dues.{AreKeys, due_as, hats_after, hats_next, heard_at, listens_as, meant_as, new_info};
ghost use Rattle.zq_dispatcher.specs.Parts.{AreGathered, hats_on};

use crate::asking::Asking;
use crate::entries::{NewInfo, own_entry, own_entry_as};
use crate::folded::folded;
use crate::folds::Folds;
use crate::hats::hat_at;
use crate::sorted::has_text;
use crate::types::RegionChange;
use std::alloc::Global;
use std::collections::{BTreeMap, BTreeSet};
use zq_hat::hat::Hat;
use zq_index::info::joined;
use zq_key::memory::OutOfMemory;
use zq_key::message::{FaceId, QueryableInfoType, Region};
use zq_machine::face::OpenFace;
use zq_strategy::strategy::{is_north, same_region};
use zq_strategy::types::{Change, Strategy};
use zq_tables::RegionMap;

/// Whether a face of the hat, which asks for a key or not, is interested in it: a broker's if it asks, an
/// upstream always, a peer in North always and elsewhere if it asks, and a router's never.
pub fn listens_by(hat: &Hat, asks: bool) -> bool
    ensures { result ≡ listens_by (strategy_at hat.now) (is_north hat.now.region) asks }
{
    match hat.strategy() {
        Strategy::Broker => asks,
        Strategy::Client => true,
        Strategy::Peer => is_north(hat.region()) || asks,
        Strategy::Router => false,
    }
}

/// Whether an open face, which asks for a key or not, is interested in it. No change of a hat changes that.
pub fn listens(hats: &RegionMap<Hat>, opened: OpenFace, asks: bool) -> bool
    ensures { result ≡ listens_as asks hats.now opened }
{
    match hat_at(hats, opened.region) {
        Some(hat) => listens_by(hat, asks),
        None => false,
    }
}

/// What a face of the hat hears on the key, which changes or not, where the other regions have this.
pub(crate) fn heard_in(
    hat: &Hat,
    change: Option<&Change>,
    face: FaceId,
    key: &str,
    others: Option<QueryableInfoType>,
) -> Option<QueryableInfoType>
    ensures { result ≡ heard_by (strategy_at hat.now) (fellow_info face.0 key.now (changed_if (option_copied change.entry) key.now hat.now)) others }
{
    match hat.strategy() {
        Strategy::Broker => joined(hat.fellows_after(change, face, key), others),
        Strategy::Client => others,
        Strategy::Peer => others,
        Strategy::Router => None,
    }
}

// What an open face hears on the key by its region.
fn heard_now(
    hats: &RegionMap<Hat>,
    face: FaceId,
    opened: OpenFace,
    key: &str,
) -> Option<QueryableInfoType>
    ensures { result ≡ heard_as face.0 key.now hats.now opened }
{
    match hat_at(hats, opened.region) {
        Some(hat) => {
            let others = own_entry(hats, opened.region, key);
            heard_in(hat, None, face, key, others)
        }
        None => None,
    }
}

// What the changed region will have on the key.
fn new_info(hats: &RegionMap<Hat>, next: &RegionChange, key: &str) -> Option<NewInfo>
    ensures { result ≡ new_info next.now key.now hats.now }
{
    match hat_at(hats, next.region) {
        Some(hat) => Some(NewInfo {
            region: next.region,
            info: hat.info_after(&next.change, key),
        }),
        None => None,
    }
}

// What the regions but one will have on the key, merged, once a hat has changed.
fn others_next(
    hats: &RegionMap<Hat>,
    next: &RegionChange,
    region: Region,
    key: &str,
) -> Option<QueryableInfoType>
    ensures { result ≡ own_entry (region_index region) key.now (hats_next next.now key.now hats.now) }
{
    let _in_order = hats.iter();
    let new = new_info(hats, next, key);
    own_entry_as(hats, region, key, new)
}

/// What the regions but one will have on the key, merged, which a change of a hat reaches or not.
pub(crate) fn others_at(
    hats: &RegionMap<Hat>,
    next: Option<&RegionChange>,
    changes: bool,
    region: Region,
    key: &str,
) -> Option<QueryableInfoType>
    ensures { result ≡ own_entry (region_index region) key.now (hats_on changes (option_copied next.entry) key.now hats.now) }
{
    if !changes {
        return own_entry(hats, region, key);
    }
    match next {
        Some(next) => others_next(hats, next, region, key),
        None => own_entry(hats, region, key),
    }
}

// What an open face will hear on the key by its region, once a hat has changed.
fn heard_next(
    hats: &RegionMap<Hat>,
    next: &RegionChange,
    face: FaceId,
    opened: OpenFace,
    key: &str,
) -> Option<QueryableInfoType>
    ensures { result ≡ heard_as face.0 key.now (hats_next next.now key.now hats.now) opened }
{
    let Some(hat) = hat_at(hats, opened.region) else {
        return None;
    };
    let others = others_next(hats, next, opened.region, key);
    if same_region(opened.region, next.region) {
        heard_in(hat, Some(&next.change), face, key, others)
    } else {
        heard_in(hat, None, face, key, others)
    }
}

// What an open face will hear on the key by its region, once a hat has changed; where none changes, what
// it hears.
fn heard_after(
    hats: &RegionMap<Hat>,
    next: Option<&RegionChange>,
    face: FaceId,
    opened: OpenFace,
    key: &str,
) -> Option<QueryableInfoType>
    ensures { result ≡ heard_as face.0 key.now (hats_after (option_copied next.entry) key.now hats.now) opened }
{
    match next {
        Some(next) => heard_next(hats, next, face, opened, key),
        None => heard_now(hats, face, opened, key),
    }
}

/// What an open face will hear on the key by its region, once a hat has changed, which changes what is
/// heard on these keys alone; where none changes, what it hears.
pub fn heard_at(
    hats: &RegionMap<Hat>,
    next: Option<&RegionChange>,
    touched: &BTreeSet<String>,
    face: FaceId,
    opened: OpenFace,
    key: &str,
) -> Option<QueryableInfoType>
    ensures { result ≡ heard_at (option_copied next.entry) (map string_bytes touched.now.keys) face.0 opened hats.now key.now }
{
    if has_text(touched, key) {
        heard_after(hats, next, face, opened, key)
    } else {
        heard_now(hats, face, opened, key)
    }
}

// What there will be for an open face at a key, for which it asks as one entry or not: the one entry, if
// it does not listen unasked, and else what it will hear there.
fn meant(
    folds: &mut Folds,
    alloc: Global,
    hats: &RegionMap<Hat>,
    next: Option<&RegionChange>,
    touched: &BTreeSet<String>,
    face: FaceId,
    opened: OpenFace,
    as_one: bool,
    key: &str,
) -> Result<Option<QueryableInfoType>, OutOfMemory>
    requires touched { AreKeys (map string_bytes touched.now.keys) }
    requires key { IsTrue (is_key key.now) }
    requires gathered { AreGathered (option_copied next) (map string_bytes touched.now.keys) hats.now folds.old.entries }
    ensures meant { IfOk result (λ i. i ≡ meant_as as_one (option_copied next.entry) (map string_bytes touched.now.keys) face.0 opened hats.now key.now) }
    ensures gathered { OnOk result (AreGathered (option_copied next.entry) (map string_bytes touched.now.keys) hats.now folds.new.entries) }
{
    if !listens(hats, opened, false) && as_one {
        folded(folds, alloc, hats, next, touched, face, opened, key)
    } else {
        Ok(heard_at(hats, next, touched, face, opened, key))
    }
}

/// What will be due to an open face on a key of which it asks this, once a hat has changed: what there
/// will be for it there, if it is interested; where none changes, what is due. What was gathered for other
/// faces of its region is not gathered again. Refused only where memory is lacking.
pub(crate) fn due_with(
    folds: &mut Folds,
    alloc: Global,
    hats: &RegionMap<Hat>,
    next: Option<&RegionChange>,
    touched: &BTreeSet<String>,
    face: FaceId,
    opened: OpenFace,
    asking: Asking,
    key: &str,
) -> Result<Option<QueryableInfoType>, OutOfMemory>
    requires touched { AreKeys (map string_bytes touched.now.keys) }
    requires key { IsTrue (is_key key.now) }
    requires gathered { AreGathered (option_copied next) (map string_bytes touched.now.keys) hats.now folds.old.entries }
    ensures due { IfOk result (λ i. i ≡ due_as asking (option_copied next.entry) (map string_bytes touched.now.keys) face.0 opened hats.now key.now) }
    ensures gathered { OnOk result (AreGathered (option_copied next.entry) (map string_bytes touched.now.keys) hats.now folds.new.entries) }
{
    if listens(hats, opened, asking.asks) {
        meant(
            folds,
            alloc,
            hats,
            next,
            touched,
            face,
            opened,
            asking.folds,
            key,
        )
    } else {
        Ok(None)
    }
}

/// The same where nothing was gathered for other faces.
pub fn due_as(
    alloc: Global,
    hats: &RegionMap<Hat>,
    next: Option<&RegionChange>,
    touched: &BTreeSet<String>,
    face: FaceId,
    opened: OpenFace,
    asking: Asking,
    key: &str,
) -> Result<Option<QueryableInfoType>, OutOfMemory>
    requires touched { AreKeys (map string_bytes touched.now.keys) }
    requires key { IsTrue (is_key key.now) }
    ensures { IfOk result (λ i. i ≡ due_as asking (option_copied next.entry) (map string_bytes touched.now.keys) face.0 opened hats.now key.now) }
{
    let mut folds = BTreeMap::new(alloc);
    due_with(
        &mut folds, alloc, hats, next, touched, face, opened, asking, key,
    )
}
