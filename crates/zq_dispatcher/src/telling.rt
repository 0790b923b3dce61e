//! Whom a change of the gateway's own entries is told: the children of its own trees.
#![tactic(auto, using(crate::proofs::Changed::same_places))]

ghost use Rattle.std.specs.Prelude.{◌≡◌, ◌++◌, true, Some, OnOk};
ghost use Rattle.std.specs.List.{flat_map};
ghost use Rattle.zq_message.specs.Region.{region_index};
ghost use Rattle.zq_message.specs.RegionMap.{GoByIndex};
ghost use Rattle.zq_strategy.specs.Kept.{has_face, keys_of_face, without_face};
ghost use Rattle.zq_machine.specs.State.{change_hat, hat_at};
ghost use Rattle.zq_machine.specs.Trees.{all_own_told};
ghost use Rattle.zq_dispatcher.specs.Own.{has_other_routing, told_as, change_told};

use crate::entries::{NewInfo, own_entry, own_entry_as};
use crate::hats::is_routing;
use zq_hat::hat::Hat;
use zq_key::memory::OutOfMemory;
use zq_key::message::{FaceId, Region};
use zq_key::text::Text;
use zq_strategy::strategy::same_region;
use zq_strategy::types::{Change, TellingList};
use zq_tables::RegionMap;

/// Tellings go behind the others.
pub fn add_all(told: &mut TellingList, more: TellingList) -> Result<(), OutOfMemory>
    ensures { OnOk result (told.new ≡ told.old ++ more) }
{
    for telling in more.into_vec() {
        told.push(telling)?;
    }
    Ok(())
}

/// Whether a region but this one is one of routers.
pub fn has_other_routing(hats: &RegionMap<Hat>, region: Region) -> bool
    ensures value { result ≡ has_other_routing (region_index region) hats.now }
    ensures ordered { GoByIndex hats.now }
{
    for (other, hat) in hats.iter() {
        if !same_region(other, region) && is_routing(hat) {
            return true;
        }
    }
    false
}

// What the own entry on a key hands in a region joins the list.
fn tell_in(
    hats: &RegionMap<Hat>,
    region: Region,
    hat: &Hat,
    new: NewInfo,
    key: &str,
    told: &mut TellingList,
) -> Result<(), OutOfMemory>
    ensures { OnOk result (told.new ≡ told.old ++ told_as new hats.now key.now (region_index region, hat.now)) }
{
    if same_region(region, new.region) || !is_routing(hat) {
        return Ok(());
    }
    let before = own_entry(hats, region, key);
    let after = own_entry_as(hats, region, key, Some(new));
    add_all(told, hat.propagate_queryable(key, before, after)?)
}

// The same in all regions.
fn tell_on(
    hats: &RegionMap<Hat>,
    new: NewInfo,
    key: &str,
    told: &mut TellingList,
) -> Result<(), OutOfMemory>
    ensures { OnOk result (told.new ≡ told.old ++ flat_map (told_as new hats.now key.now) hats.now) }
{
    for (region, hat) in hats.iter() {
        tell_in(hats, region, hat, new, key, told)?;
    }
    Ok(())
}

/// What children of the gateway's own trees are told of a key joins the list, where a region's hat
/// changes: the own entries of the other regions of routers change by it. The hats stand as before
/// the change. Where no other region is one of routers, nothing is looked up.
pub fn tell_change(
    hats: &RegionMap<Hat>,
    changed: Region,
    hat: &Hat,
    change: &Change,
    key: &str,
    told: &mut TellingList,
) -> Result<(), OutOfMemory>
    requires { hat_at changed hats.now ≡ Some hat.now }
    ensures { OnOk result (told.new ≡ told.old ++ change_told hats.now changed change.now key.now) }
{
    if !has_other_routing(hats, changed) {
        return Ok(());
    }
    let new = NewInfo {
        region: changed,
        info: hat.info_after(change, key),
    };
    tell_on(hats, new, key, told)
}

/// What children of the gateway's own trees are told of each of the keys joins the list, as by `tell_change`.
pub fn tell_changes(
    hats: &RegionMap<Hat>,
    changed: Region,
    hat: &Hat,
    change: &Change,
    keys: &[Text],
    told: &mut TellingList,
) -> Result<(), OutOfMemory>
    requires { hat_at changed hats.now ≡ Some hat.now }
    ensures { OnOk result (told.new ≡ told.old ++ flat_map (change_told hats.now changed change.now) keys.now) }
{
    for key in keys {
        tell_change(hats, changed, hat, change, key.as_str(), told)?;
    }
    Ok(())
}

/// What they are told of each key that a face declared, where the face leaves, joins the list. Where no other region is one of
/// routers, its keys are not copied.
pub fn tell_left(
    hats: &RegionMap<Hat>,
    region: Region,
    hat: &Hat,
    face: FaceId,
    told: &mut TellingList,
) -> Result<(), OutOfMemory>
    requires there { hat_at region hats.now ≡ Some hat.now }
    requires face { has_face face.0 hat.now ≡ true }
    ensures { OnOk result (told.new ≡ told.old ++ all_own_told hats.now (change_hat region (without_face face.0) hats.now) (keys_of_face face.0 hat.now)) }
{
    if !has_other_routing(hats, region) {
        return Ok(());
    }
    let keys = hat.keys_of(face)?;
    tell_changes(
        hats,
        region,
        hat,
        &Change::Left(face),
        keys.as_slice(),
        told,
    )
}
