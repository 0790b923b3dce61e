//! The gateway's own entries, looked up.
#![tactic(auto, using(crate::proofs::Changed::same_places))]

ghost use Rattle.std.specs.Prelude.{◌≡◌, IfOk, map, string_bytes};
ghost use Rattle.std.specs.List.{filter_map};
ghost use Rattle.zq_message.specs.Region.{region_index};
ghost use Rattle.zq_machine.specs.Trees.{keyed_own, own_entries, own_entry, own_keys};
ghost use Rattle.zq_dispatcher.specs.Own.{info_as, own_entry_as};

use std::alloc::Global;
use std::collections::BTreeSet;
use zq_hat::hat::Hat;
use zq_index::info::joined;
use zq_key::items::Items;
use zq_key::memory::OutOfMemory;
use zq_key::message::{QueryableInfoType, Region};
use zq_key::text::Text;
use zq_routers::entries::StandingList;
use zq_strategy::strategy::same_region;
use zq_tables::RegionMap;

/// What a region will have on a key.
#[derive(Clone, Copy)]
pub struct NewInfo {
    /// The region of which it is said.
    pub region: Region,
    /// What it will have; none where nothing is left.
    pub info: Option<QueryableInfoType>,
}

// A region's information on a key; a region that is said to have another has that.
fn info_as(hat: &Hat, region: Region, key: &str, new: Option<NewInfo>) -> Option<QueryableInfoType>
    ensures { result ≡ info_as new key.now (region_index region, hat.now) }
{
    match new {
        None => hat.remote_queryables_of(key),
        Some(new) => {
            if same_region(region, new.region) {
                new.info
            } else {
                hat.remote_queryables_of(key)
            }
        }
    }
}

/// The own entry on a key in a region, where a region may be said to have another information.
pub fn own_entry_as(
    hats: &RegionMap<Hat>,
    region: Region,
    key: &str,
    new: Option<NewInfo>,
) -> Option<QueryableInfoType>
    ensures { result ≡ own_entry_as new (region_index region) key.now hats.now }
{
    let mut merged = None;
    for (other, hat) in hats.iter() {
        if !same_region(other, region) {
            merged = joined(merged, info_as(hat, other, key, new));
        }
    }
    merged
}

/// The own entry on a key in a region: what the other regions have, merged.
pub fn own_entry(hats: &RegionMap<Hat>, region: Region, key: &str) -> Option<QueryableInfoType>
    ensures { result ≡ own_entry (region_index region) key.now hats.now }
{
    own_entry_as(hats, region, key, None)
}

// The keys of the own entries in a region, in order: those on which the other regions have
// information.
fn own_keys(
    alloc: Global,
    hats: &RegionMap<Hat>,
    region: Region,
) -> Result<BTreeSet<String>, OutOfMemory>
    ensures { IfOk result (λ s. map string_bytes s.keys ≡ own_keys (region_index region) hats.now) }
{
    let mut keys = BTreeSet::new(alloc);
    for (other, hat) in hats.iter() {
        if !same_region(other, region) {
            hat.add_keys(&mut keys)?;
        }
    }
    Ok(keys)
}

// The own entries on these keys.
fn entries_on(
    alloc: Global,
    hats: &RegionMap<Hat>,
    region: Region,
    keys: &BTreeSet<String>,
) -> Result<StandingList, OutOfMemory>
    ensures { IfOk result (λ es. es ≡ filter_map (keyed_own (region_index region) hats.now) (map string_bytes keys.now.keys)) }
{
    let mut entries = Items::new(alloc);
    for key in keys {
        if let Some(info) = own_entry(hats, region, key.as_str()) {
            entries.push((Text::new(alloc, key.as_str())?, info))?;
        }
    }
    Ok(entries)
}

/// All own entries in a region, in the order of the keys' texts.
pub fn own_entries(
    alloc: Global,
    hats: &RegionMap<Hat>,
    region: Region,
) -> Result<StandingList, OutOfMemory>
    ensures { IfOk result (λ es. es ≡ own_entries (region_index region) hats.now) }
{
    let keys = own_keys(alloc, hats, region)?;
    entries_on(alloc, hats, region, &keys)
}
