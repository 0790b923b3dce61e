//! What will be due to a face on some keys, once a hat has changed.
ghost use Rattle.std.specs.Prelude.{◌≡◌, ◌++◌, ◌∷◌, [], IfOk, IsTrue, None, OnOk, map, option_copied, string_bytes, false};
ghost use Rattle.std.specs.List.{flat_map};
ghost use Rattle.zq_key.specs.Key.{is_key};
ghost use Rattle.zq_interests.specs.Interests.{asks_folded};
ghost use Rattle.zq_dispatcher.specs.Asking.{asking_in};
ghost use Rattle.zq_dispatcher.specs.Dues.{AreKeys, due_as, listed_due, row_as};
ghost use Rattle.zq_dispatcher.specs.Owns.{AreFolded, has_own};
ghost use Rattle.zq_dispatcher.specs.Parts.{AreGathered};

use crate::asking::{Asking, asks_among};
use crate::due::{due_as, due_with, listens};
use crate::folds::Folds;
use crate::owns::OwnKeys;
use crate::types::RegionChange;
use std::alloc::Global;
use std::collections::BTreeSet;
use zq_hat::hat::Hat;
use zq_interests::interests::Interests;
use zq_key::items::Items;
use zq_key::memory::OutOfMemory;
use zq_key::message::FaceId;
use zq_key::text::Text;
use zq_machine::face::OpenFace;
use zq_tables::RegionMap;
use zq_told::types::KeyUpdates;

/// The key with what will be due there to an open face, which asks this of it, joins the list. Refused
/// only where memory is lacking.
pub fn put_due(
    dues: &mut KeyUpdates,
    alloc: Global,
    hats: &RegionMap<Hat>,
    next: Option<&RegionChange>,
    touched: &BTreeSet<String>,
    face: FaceId,
    opened: OpenFace,
    asking: Asking,
    key: &str,
) -> Result<(), OutOfMemory>
    requires touched { AreKeys (map string_bytes touched.now.keys) }
    requires key { IsTrue (is_key key.now) }
    ensures { OnOk result (dues.new ≡ dues.old ++ (key.now, due_as asking (option_copied next.entry) (map string_bytes touched.now.keys) face.0 opened hats.now key.now) ∷ []) }
{
    let due = due_as(alloc, hats, next, touched, face, opened, asking, key)?;
    dues.push((Text::new(alloc, key)?, due))?;
    Ok(())
}

// The same of a key that the face asks for by its interests, if it listens there; it asks for it as one
// entry just if it is among these.
fn list_due(
    dues: &mut KeyUpdates,
    folds: &mut Folds,
    alloc: Global,
    hats: &RegionMap<Hat>,
    next: Option<&RegionChange>,
    touched: &BTreeSet<String>,
    interests: &Interests,
    owns: Option<&OwnKeys>,
    face: FaceId,
    opened: OpenFace,
    key: &str,
) -> Result<(), OutOfMemory>
    requires touched { AreKeys (map string_bytes touched.now.keys) }
    requires key { IsTrue (is_key key.now) }
    requires folded { has_own (option_copied owns) key.now ≡ asks_folded face.0 key.now interests.now }
    requires gathered { AreGathered (option_copied next) (map string_bytes touched.now.keys) hats.now folds.old.entries }
    ensures dues { OnOk result (dues.new ≡ dues.old ++ listed_due (asking_in interests.now face.0) (option_copied next.entry) (map string_bytes touched.now.keys) face.0 opened hats.now key.now) }
    ensures gathered { OnOk result (AreGathered (option_copied next.entry) (map string_bytes touched.now.keys) hats.now folds.new.entries) }
{
    let asks = asks_among(interests, owns, face, key);
    if listens(hats, opened, asks.asks) {
        let due = due_with(folds, alloc, hats, next, touched, face, opened, asks, key)?;
        dues.push((Text::new(alloc, key)?, due))
    } else {
        Ok(())
    }
}

/// Those of the keys in which an open face will be interested once a hat has changed, which changes what is heard
/// on the touched keys alone, with what will be due to it there; where none changes, as they are. It asks
/// for those among its own aggregated, and for no others. What was gathered for other faces of its region
/// is not gathered again. Refused only where memory is lacking.
pub(crate) fn dues_of_face(
    folds: &mut Folds,
    alloc: Global,
    hats: &RegionMap<Hat>,
    next: Option<&RegionChange>,
    touched: &BTreeSet<String>,
    interests: &Interests,
    owns: Option<&OwnKeys>,
    face: FaceId,
    opened: OpenFace,
    keys: &[Text],
) -> Result<KeyUpdates, OutOfMemory>
    requires touched { AreKeys (map string_bytes touched.now.keys) }
    requires keys { AreKeys keys.now }
    requires folded { AreFolded interests.now face.0 (option_copied owns) keys.now }
    requires gathered { AreGathered (option_copied next) (map string_bytes touched.now.keys) hats.now folds.old.entries }
    ensures dues { IfOk result (λ ds. ds ≡ flat_map (listed_due (asking_in interests.now face.0) (option_copied next.entry) (map string_bytes touched.now.keys) face.0 opened hats.now) keys.now) }
    ensures gathered { OnOk result (AreGathered (option_copied next.entry) (map string_bytes touched.now.keys) hats.now folds.new.entries) }
{
    let mut dues = Items::new(alloc);
    for key in keys {
        let text = key.as_str();
        list_due(
            &mut dues, folds, alloc, hats, next, touched, interests, owns, face, opened, text,
        )?;
    }
    Ok(dues)
}

/// The keys with what is due there to an open face that asks for none. Refused only where memory is
/// lacking.
pub fn dues_on_each(
    alloc: Global,
    hats: &RegionMap<Hat>,
    face: FaceId,
    opened: OpenFace,
    keys: &[Text],
) -> Result<KeyUpdates, OutOfMemory>
    requires { AreKeys keys.now }
    ensures { IfOk result (λ ds. ds ≡ map (row_as (λ key. record { asks = false; folds = false }) face.0 opened hats.now) keys.now) }
{
    let none = Asking {
        asks: false,
        folds: false,
    };
    let touched = BTreeSet::new(alloc);
    let mut dues = Items::new(alloc);
    for key in keys {
        let text = key.as_str();
        put_due(
            &mut dues, alloc, hats, None, &touched, face, opened, none, text,
        )?;
    }
    Ok(dues)
}
