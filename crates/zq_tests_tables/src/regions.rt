ghost use Rattle.std.specs.Prelude.{All};
ghost use Rattle.zq_message.specs.Region.{HasIndex};

use std::alloc::Global;
use zq_given::CLIENTS;
use zq_message::memory::OutOfMemory;
use zq_message::message::{Mode, Region};
use zq_message::{RegionMap, index_to_region, region_to_index};

const PEERS: Region = Region::South {
    id: 3,
    mode: Mode::Peer,
};

const OTHER_CLIENTS: Region = Region::South {
    id: 35,
    mode: Mode::Client,
};

#[test]
fn indices(rt: HostRuntime) {
    let indices = [region_to_index(&PEERS), region_to_index(&OTHER_CLIENTS)];
    assert!(rt; indices == [12, 109]);
    let regions = [
        index_to_region(12),
        index_to_region(109),
        index_to_region(0),
        index_to_region(1),
    ];
    assert!(rt; regions == [PEERS, OTHER_CLIENTS, Region::North, Region::Local]);
}

// Inserts clients with 7, and then North with 5 before them.
fn insert_two(map: &mut RegionMap<u32>) -> Result<(), OutOfMemory> {
    map.insert(CLIENTS, 7)?;
    map.insert(Region::North, 5)?;
    Ok(())
}

// What stands in North and in the clients, and how many entries there are.
fn standing(map: &mut RegionMap<u32>) -> Result<(Option<u32>, Option<u32>, usize), OutOfMemory> {
    insert_two(map)?;
    Ok((
        map.get(&Region::North).copied(),
        map.get(&CLIENTS).copied(),
        map.values().count(),
    ))
}

#[test]
fn a_later_entry_stays(rt: HostRuntime) {
    let mut map = RegionMap::new(rt.alloc());
    assert!(rt; standing(&mut map) == Ok((Some(5), Some(7), 2)));
}

// Whether the region can be parted from the others.
fn is_parted(map: &RegionMap<u32>, alloc: Global, region: &Region) -> Result<bool, OutOfMemory>
    requires { HasIndex region.now }
{
    Ok(map.partition(alloc, region)?.is_some())
}

// Whether a region that is not there can be parted from the others, and one that is.
fn are_parted(map: &mut RegionMap<u32>, alloc: Global) -> Result<[bool; 2], OutOfMemory> {
    insert_two(map)?;
    Ok([
        is_parted(map, alloc, &Region::Local)?,
        is_parted(map, alloc, &CLIENTS)?,
    ])
}

#[test]
fn one_and_the_others(rt: HostRuntime) {
    let mut map = RegionMap::new(rt.alloc());
    assert!(rt; are_parted(&mut map, rt.alloc()) == Ok([false, true]));
}

// The half of what stands in the clients.
fn half(map: &mut RegionMap<u32>, alloc: Global) -> Result<Option<u32>, OutOfMemory> {
    insert_two(map)?;
    let halved = map.map_ref(alloc, |d| d / 2)?;
    Ok(halved.get(&CLIENTS).copied())
}

#[test]
fn each_changed(rt: HostRuntime) {
    let mut map = RegionMap::new(rt.alloc());
    assert!(rt; half(&mut map, rt.alloc()) == Ok(Some(3)));
}

// What stands in the clients and in North of a map that is made of entries, of which each is taken and doubled.
fn doubled(
    alloc: Global,
    entries: Vec<(Region, u32)>,
) -> Result<(Option<u32>, Option<u32>), OutOfMemory>
    requires { All (λ e. HasIndex e.0) entries.items }
{
    let map = RegionMap::from_entries(alloc, entries)?;
    let doubled = map.map(alloc, |d| d.wrapping_mul(2))?;
    Ok((
        doubled.get(&CLIENTS).copied(),
        doubled.get(&Region::North).copied(),
    ))
}

// The same of three entries, of which the last stands in the place of the first.
fn doubled_three(alloc: Global) -> Result<(Option<u32>, Option<u32>), OutOfMemory> {
    let entries = vec![in alloc; (CLIENTS, 7), (Region::North, 5), (CLIENTS, 9)]?;
    doubled(alloc, entries)
}

#[test]
fn each_taken(rt: HostRuntime) {
    assert!(rt; doubled_three(rt.alloc()) == Ok((Some(18), Some(10))));
}
