//! How a region keeps and offers queryables.
ghost use Rattle.std.specs.Prelude.{◌≡◌};
ghost use Rattle.zq_strategy.specs.Regions.{strategy_of, by_mode, is_north, same_mode, same_region};

use crate::types::Strategy;
use zq_key::message::{Mode, Region};

fn by_mode(mode: Mode, client: Strategy) -> Strategy
    ensures { result ≡ by_mode mode client }
{
    match mode {
        Mode::Router => Strategy::Router,
        Mode::Peer => Strategy::Peer,
        Mode::Client => client,
    }
}

/// Whether a region is north-bound.
pub fn is_north(region: Region) -> bool
    ensures { result ≡ is_north region }
{
    matches!(region, Region::North)
}

/// Whether two regions are the same.
pub fn same_region(a: Region, b: Region) -> bool
    ensures { result ≡ same_region a b }
{
    a == b
}

/// The strategy of a region: North has that of its mode, Local is a broker, and South is a broker
/// for clients.
pub fn strategy_of(region: Region, north_mode: Mode) -> Strategy
    ensures { result ≡ strategy_of region north_mode }
{
    match region {
        Region::North => by_mode(north_mode, Strategy::Client),
        Region::Local => Strategy::Broker,
        Region::South { id: _, mode } => by_mode(mode, Strategy::Broker),
    }
}
