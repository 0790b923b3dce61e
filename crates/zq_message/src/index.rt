//! The index of a region.
ghost use Rattle.std.specs.Prelude.{◌≡◌, ◌<◌, ◌≤◌};
ghost use Rattle.zq_message.specs.Region.{HasIndex, region_index, region_at, mode_offset, mode_at};

use crate::message::{Mode, Region};

/// The region's place in the order of regions: North, Local, and each South id with its three modes.
pub fn region_to_index(r: &Region) -> usize
    requires { HasIndex r.now }
    ensures index { result ≡ region_index r.now }
    ensures bound { result < 770 }
{
    match *r {
        Region::North => 0,
        Region::Local => 1,
        Region::South { id, mode } => 2 + 3 * id as usize + mode_number(mode),
    }
}

fn mode_number(mode: Mode) -> usize
    ensures { result ≡ mode_offset mode }
{
    match mode {
        Mode::Router => 0,
        Mode::Peer => 1,
        Mode::Client => 2,
    }
}

/// The region at an index.
pub fn index_to_region(i: usize) -> Region
    requires { i < 770 }
    ensures index { region_index result ≡ i }
    ensures is { result ≡ region_at i }
    ensures has { HasIndex result }
{
    match i {
        0 => Region::North,
        1 => Region::Local,
        _ => Region::South {
            id: ((i - 2) / 3) as u32,
            mode: mode_at((i - 2) % 3),
        },
    }
}

fn mode_at(n: usize) -> Mode
    ensures { result ≡ mode_at n }
{
    match n {
        0 => Mode::Router,
        1 => Mode::Peer,
        _ => Mode::Client,
    }
}

/// The law that a region comes back from its index.
pub fn round_trip(r: &Region) -> Region
    requires { HasIndex r.now }
    ensures region { result ≡ r.now }
    ensures law { region_at (region_index r.now) ≡ r.now }
{
    index_to_region(region_to_index(r))
}
