//! The routes of one text, by the region that they lead to.
ghost use Rattle.std.specs.Prelude.{◌≡◌, ◌<◌, ℕ, None, OnOk, OnErr, is_some, length, option_copied, slice_index, true};
ghost use Rattle.zq_message.specs.Region.{HasIndex, region_index};
ghost use Rattle.zq_message.specs.RegionMap.{value_at};
ghost use Rattle.zq_kept.specs.Table.{route_in};
ghost use Rattle.zq_kept.specs.Parts.{SetsIn};

use std::alloc::Global;
use zq_message::memory::OutOfMemory;
use zq_message::message::{NodeId, Region};
use zq_message::{RegionMap, region_to_index};
use zq_route::{Routes, RoutesVersion};

/// The routes of one text, by the region that they lead to.
pub type TextRoutes<T> = RegionMap<Routes<T>>;

/// How many regions have a version.
pub(crate) const INDICES: usize = 770;

/// Where a route of a text is: under which version of the region that it leads to, and for which region's
/// node that asks.
#[derive(Clone, Copy)]
pub(crate) struct Spot {
    pub(crate) version: RoutesVersion,
    pub(crate) dst: Region,
    pub(crate) src: Region,
    pub(crate) node: NodeId,
}

/// The version of a region.
pub(crate) fn version_in(versions: &[RoutesVersion], dst: &Region) -> RoutesVersion
    requires dst { HasIndex dst.now }
    requires all { length versions.now ≡ 770 }
    ensures { result ≡ slice_index versions.now (region_index dst.now) }
{
    versions[region_to_index(dst)]
}

/// The route that is there. It takes no memory.
pub(crate) fn route_in<T>(routes: &TextRoutes<T>, spot: Spot) -> Option<&T>
    requires dst { HasIndex spot.dst }
    requires src { HasIndex spot.src }
    ensures { option_copied result ≡ route_in spot.version spot.src spot.node (value_at routes.now spot.dst) }
{
    match routes.get(&spot.dst) {
        Some(routes) => routes.get_route(spot.version, &spot.src, spot.node),
        None => None,
    }
}

// The region's routes are there already.
fn set_beside<T: Drop>(regions: &mut TextRoutes<T>, spot: Spot, route: T) -> Result<(), OutOfMemory>
    requires dst { HasIndex spot.dst }
    requires src { HasIndex spot.src }
    requires there { is_some (value_at regions.old spot.dst) ≡ true }
    ensures ok { OnOk result (SetsIn regions.old regions.new spot route) }
    ensures err { OnErr result (regions.new ≡ regions.old) }
{
    match regions.get_mut(&spot.dst) {
        Some(routes) => match routes.set_route(spot.version, &spot.src, spot.node, route) {
            Ok(()) => Ok(()),
            Err(error) => Err(error),
        },
        None => unreachable!(),
    }
}

// The first route to the region.
fn set_first<T: Drop>(
    alloc: Global,
    regions: &mut TextRoutes<T>,
    spot: Spot,
    route: T,
) -> Result<(), OutOfMemory>
    requires dst { HasIndex spot.dst }
    requires src { HasIndex spot.src }
    requires absent { value_at regions.old spot.dst ≡ None }
    ensures ok { OnOk result (SetsIn regions.old regions.new spot route) }
    ensures err { OnErr result (regions.new ≡ regions.old) }
{
    let mut routes = Routes::new(alloc);
    routes.set_route(spot.version, &spot.src, spot.node, route)?;
    regions.insert(spot.dst, routes)?;
    Ok(())
}

/// A route stands there. Where memory is lacking nothing changes.
pub(crate) fn set_in<T: Drop>(
    alloc: Global,
    regions: &mut TextRoutes<T>,
    spot: Spot,
    route: T,
) -> Result<(), OutOfMemory>
    requires dst { HasIndex spot.dst }
    requires src { HasIndex spot.src }
    ensures ok { OnOk result (SetsIn regions.old regions.new spot route) }
    ensures err { OnErr result (regions.new ≡ regions.old) }
{
    if regions.get(&spot.dst).is_some() {
        return set_beside(regions, spot, route);
    }
    set_first(alloc, regions, spot, route)
}
