//! A network whose ids' places are found by look-up.
ghost use Rattle.std.specs.Prelude.{◌≡◌, IfOk, Some, option_map};
ghost use Rattle.std.specs.Option.{option_and_then, option_copied};
ghost use Rattle.zq_strategy.specs.Nets.{IsPlaced, is_listed, no_network, place_of, small, towards, tree_at};

use crate::network::{Network, Tree};
use std::alloc::Global;
use std::collections::BTreeMap;
use std::marker::Model;
use zq_key::memory::OutOfMemory;
use zq_key::message::{NodeId, Zid};

/// A network, seen as it is; the place of each id is kept beside it.
pub struct IndexedNetwork {
    network: Network,
    places: BTreeMap<u128, usize>,
}

impl Drop for IndexedNetwork {
    fn drop(self) {
        let IndexedNetwork { network, places } = self;
    }
}

impl Model for IndexedNetwork {
    ghost use Rattle.zq_strategy.specs.declared.network.Network.{Network};
    ghost use Rattle.zq_strategy.specs.Nets.{IsPlaced};

    ghost Value = { Network };

    ghost view = { λ n. n.network };

    ghost invariant = { λ n. IsPlaced n.network.nodes n.places.entries };
}

/// The first place of each id.
fn places_in(alloc: Global, nodes: &[Zid]) -> Result<BTreeMap<u128, usize>, OutOfMemory>
    ensures { IfOk result (λ p. IsPlaced nodes.now p.entries) }
{
    let mut places = BTreeMap::new(alloc);
    for (i, zid) in nodes.iter().enumerate() {
        if !places.contains_key(&zid.0) {
            places.insert(zid.0, i)?;
        }
    }
    Ok(places)
}

/// The place as a number of a message, none above its range.
fn small(place: usize) -> Option<NodeId>
    ensures { result ≡ small place }
{
    u16::try_from(place).ok()
}

impl IndexedNetwork {
    /// A network without nodes.
    pub fn empty(alloc: Global) -> IndexedNetwork
        ensures { result ≡ no_network }
    {
        IndexedNetwork {
            network: Network::empty(alloc),
            places: BTreeMap::new(alloc),
        }
    }

    /// The network, with the places of its ids.
    pub fn new(alloc: Global, network: Network) -> Result<IndexedNetwork, OutOfMemory>
        ensures { IfOk result (λ n. n ≡ network) }
    {
        let places = places_in(alloc, network.nodes.as_slice())?;
        Ok(IndexedNetwork { network, places })
    }

    /// An equal network.
    pub fn copy(&self, alloc: Global) -> Result<IndexedNetwork, OutOfMemory>
        ensures { IfOk result (λ n. n ≡ self.now) }
    {
        IndexedNetwork::new(alloc, self.network.copy(alloc)?)
    }

    /// The network.
    pub fn network(&self) -> &Network
        ensures { result.now ≡ self.now }
    {
        &self.network
    }

    /// Whether the network lists the id.
    pub fn is_listed(&self, zid: Zid) -> bool
        ensures { result ≡ is_listed self.now zid }
    {
        self.places.contains_key(&zid.0)
    }

    /// The first place of the id, none where a message cannot name it.
    pub fn place_of(&self, zid: Zid) -> Option<NodeId>
        ensures { result ≡ place_of self.now zid }
    {
        match self.places.get(&zid.0) {
            Some(place) => small(*place),
            None => None,
        }
    }

    /// The tree at the root's place.
    pub fn tree_of(&self, root: Zid) -> Option<&Tree>
        ensures { option_copied result ≡ option_and_then (tree_at self.now) (place_of self.now root) }
    {
        match self.place_of(root) {
            Some(place) => self.network.trees.get(usize::from(place)),
            None => None,
        }
    }

    /// The next node on the way to a router in the tree of a source, and how far the router is.
    pub fn towards(&self, source: NodeId, router: Zid) -> Option<(Zid, u16)>
        ensures { result ≡ towards self.now source router }
    {
        let place = usize::from(self.place_of(router)?);
        let tree = self.network.trees.get(usize::from(source))?;
        let direction = (*tree.directions.get(place)?)?;
        let next = self
            .network
            .nodes
            .get(usize::from(small(direction as usize)?))?;
        let far = self.network.distances.get(place)?;
        Some((*next, *far))
    }
}
