//! Which faces can be interested in some of the keys: those of hats whose faces are interested unasked, and those that
//! ask for one of the keys. No other face is looked at.
ghost use Rattle.std.specs.Prelude.{◌≡◌, IfOk, OnOk, fold};
ghost use Rattle.zq_dispatcher.specs.Dues.{AreKeys};
ghost use Rattle.zq_dispatcher.specs.Listeners.{listeners, with_askers, with_hat, with_number, with_unasked};

use crate::due::listens_by;
use std::alloc::Global;
use std::collections::BTreeSet;
use zq_hat::hat::Hat;
use zq_interests::interests::Interests;
use zq_key::memory::OutOfMemory;
use zq_key::message::FaceId;
use zq_key::text::Text;
use zq_tables::RegionMap;

// The numbers of the faces join others.
fn put_faces(found: &mut BTreeSet<u32>, faces: &[FaceId]) -> Result<(), OutOfMemory>
    ensures { OnOk result (found.new.keys ≡ fold with_number found.old.keys faces.now) }
{
    for face in faces {
        found.insert(face.0)?;
    }
    Ok(())
}

// Those join them that ask for one of the keys.
fn put_askers(
    found: &mut BTreeSet<u32>,
    alloc: Global,
    interests: &Interests,
    keys: &[Text],
) -> Result<(), OutOfMemory>
    requires { AreKeys keys.now }
    ensures { OnOk result (found.new.keys ≡ fold (with_askers interests.now) found.old.keys keys.now) }
{
    for key in keys {
        let askers = interests.askers(alloc, key.as_str())?;
        put_faces(found, askers.as_slice())?;
    }
    Ok(())
}

// The faces of a hat join them, if its faces are interested unasked.
fn put_hat(found: &mut BTreeSet<u32>, hat: &Hat) -> Result<(), OutOfMemory>
    ensures { OnOk result (found.new.keys ≡ with_hat found.old.keys hat.now) }
{
    if listens_by(hat, false) {
        hat.add_faces(found)?;
    }
    Ok(())
}

// The faces of all hats join them whose faces are interested unasked.
fn put_unasked(found: &mut BTreeSet<u32>, hats: &RegionMap<Hat>) -> Result<(), OutOfMemory>
    ensures { OnOk result (found.new.keys ≡ fold with_unasked found.old.keys hats.now) }
{
    for (_, hat) in hats.iter() {
        put_hat(found, hat)?;
    }
    Ok(())
}

/// The numbers of the faces that can be interested in one of the keys, in order, each once. Refused only where
/// memory is lacking.
pub fn listeners(
    alloc: Global,
    hats: &RegionMap<Hat>,
    interests: &Interests,
    keys: &[Text],
) -> Result<BTreeSet<u32>, OutOfMemory>
    requires { AreKeys keys.now }
    ensures { IfOk result (λ s. s.keys ≡ listeners hats.now interests.now keys.now) }
{
    let mut found = BTreeSet::new(alloc);
    put_unasked(&mut found, hats)?;
    put_askers(&mut found, alloc, interests, keys)?;
    Ok(found)
}
