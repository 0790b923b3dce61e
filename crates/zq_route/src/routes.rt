//! Routes by the region and the node that ask, under a version.
ghost use Rattle.std.specs.Prelude.{◌≡◌, [], None, Some, Ok, IfOk, IfSome, IsOk, OnOk, OnErr, option_copied};
ghost use Rattle.std.specs.Borrow.{sem};
ghost use Rattle.zq_message.specs.Region.{HasIndex};
ghost use Rattle.zq_route.specs.Routes.{route_at, with_route};
ghost use Rattle.zq_route.specs.RoutesLends.{EndsStored};

use std::alloc::Global;
use std::collections::BTreeMap;
use std::marker::Model;
use zq_key::memory::OutOfMemory;
use zq_key::message::{NodeId, Region};
use zq_message::region_to_index;

/// Which state of a region's offers a route was computed for (upstream's `RoutesVersion`).
pub type RoutesVersion = u64;

/// Routes by the region and the node that ask, all under one version (upstream's `Routes`).
pub struct Routes<T> {
    version: RoutesVersion,
    routes: BTreeMap<(usize, NodeId), T>,
    alloc: Global,
}

impl<T: Drop> Drop for Routes<T> {
    fn drop(self) {
        let Routes {
            version,
            routes,
            alloc,
        } = self;
    }
}

impl<T> Model for Routes<T> {
    ghost use Rattle.std.specs.Prelude.{List, ℕ};
    ghost use Rattle.zq_route.specs.Routes.{Origin};

    ghost Value = { ℕ × List (Origin × T) };

    ghost view = { λ r. (r.version, r.routes.entries) };
}

impl<T> Routes<T> {
    /// No routes.
    pub fn new(alloc: Global) -> Routes<T>
        ensures { result ≡ (0, []) }
    {
        Routes {
            version: 0,
            routes: BTreeMap::new(alloc),
            alloc,
        }
    }

    /// Drops all routes. It takes no memory.
    pub fn clear(&mut self)
    where
        T: Drop,
        ensures { self.new ≡ (self.old.0, []) }
    {
        self.routes.clear();
    }

    /// The version that the routes are stored under.
    pub fn version(&self) -> RoutesVersion
        ensures { result ≡ self.now.0 }
    {
        self.version
    }

    /// The route to a region's node under a version. It takes no memory.
    pub fn get_route(&self, version: RoutesVersion, region: &Region, node: NodeId) -> Option<&T>
        requires { HasIndex region.now }
        ensures { option_copied result ≡ route_at version region.now node self.now }
    {
        if version != self.version {
            return None;
        }
        self.routes.get(&(region_to_index(region), node))
    }

    // Stores a route under the version that stands.
    fn put(&mut self, region: &Region, node: NodeId, route: T) -> Result<(), OutOfMemory>
    where
        T: Drop,
        requires { HasIndex region.now }
        ensures ok { OnOk result (self.new ≡ with_route self.old.0 region.now node route self.old) }
        ensures err { OnErr result (self.new ≡ self.old) }
    {
        match self.routes.insert((region_to_index(region), node), route) {
            Ok(_) => Ok(()),
            Err(_) => Err(OutOfMemory),
        }
    }

    /// Stores a route. Another version drops first all that were stored; where memory is lacking,
    /// nothing changes.
    pub fn set_route(
        &mut self,
        version: RoutesVersion,
        region: &Region,
        node: NodeId,
        route: T,
    ) -> Result<(), OutOfMemory>
    where
        T: Drop,
        requires { HasIndex region.now }
        ensures ok { OnOk result (self.new ≡ with_route version region.now node route self.old) }
        ensures err { OnErr result (self.new ≡ self.old) }
    {
        if version == self.version {
            return self.put(region, node, route);
        }
        let mut fresh = Routes {
            version,
            routes: BTreeMap::new(self.alloc),
            alloc: self.alloc,
        };
        fresh.put(region, node, route)?;
        *self = fresh;
        Ok(())
    }
}

// Where nothing is stored, the route that `compute` gives is.
fn fill<T: Drop, F: FnOnce() -> Result<T, OutOfMemory> + Drop>(
    routes: &mut Routes<T>,
    version: RoutesVersion,
    region: &Region,
    node: NodeId,
    compute: F,
) -> Result<(), OutOfMemory>
    requires indexed { HasIndex region.now }
    requires callable { F.IsAlwaysCallable compute }
    ensures stored { IfSome (route_at version region.now node routes.old) (λ t. IsOk result × (routes.new ≡ routes.old)) }
    ensures computed { route_at version region.now node routes.old ≡ None → OnOk result ((t : T) × F.post compute (Ok t) × (routes.new ≡ with_route version region.now node t routes.old)) }
    ensures err { OnErr result (routes.new ≡ routes.old) }
{
    if routes.get_route(version, region, node).is_some() {
        return Ok(());
    }
    routes.set_route(version, region, node, compute()?)
}

/// The stored route, or the one that `compute` gives, which is stored (upstream's `get_or_set_route`).
/// Where `compute` or the storing finds no memory, nothing changes.
#[tactic(auto, using(crate::proofs::Stored::route_there))]
pub fn get_or_set_route<'a, T: Drop, F: FnOnce() -> Result<T, OutOfMemory> + Drop>(
    routes: &'a mut Routes<T>,
    version: RoutesVersion,
    region: &Region,
    node: NodeId,
    compute: F,
) -> Result<&'a T, OutOfMemory>
    requires indexed { HasIndex region.now }
    requires callable { F.IsAlwaysCallable compute }
    ensures* after { sem 𝓛 (EndsStored T.row routes.entry version region.now node result) }
    ensures stored { IfSome (route_at version region.now node routes.old) (λ t. IsOk result × IfOk result (λ r. r.now ≡ t)) }
    ensures computed { route_at version region.now node routes.old ≡ None → IfOk result (λ r. F.post compute (Ok r.now)) }
{
    fill(routes, version, region, node, compute)?;
    match routes.get_route(version, region, node) {
        Some(route) => Ok(route),
        None => unreachable!(),
    }
}
