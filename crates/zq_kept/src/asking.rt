//! Who asks on which key, and what is kept for its request of the key's routes.
ghost use Rattle.std.specs.Prelude.{◌≡◌, ℕ, IfOk, IfSome, OnOk, Some, IsTrue, length, map, option_map, slice_index};
ghost use Rattle.std.specs.List.{All};
ghost use Rattle.std.specs.Map.{values_of};
ghost use Rattle.zq_key.specs.Key.{is_key as key_of};
ghost use Rattle.zq_egress.specs.Askers.{asker_of};
ghost use Rattle.zq_machine.specs.Selecting.{offers_to};
ghost use Rattle.zq_message.specs.Region.{HasIndex};
ghost use Rattle.zq_kept.specs.Current.{AreCurrent, ArePlaced, IsKeptFor, Keeps, StandsAt, context_for, node_for};
ghost use Rattle.zq_kept.specs.Parts.{spot_for};
ghost use Rattle.zq_kept.specs.Picked.{lists_of};
ghost use Rattle.zq_kept.specs.Table.{IsTable, one_text};

use crate::text::{Spot, TextRoutes, route_in, set_in, version_in};
use std::alloc::Global;
use zq_dispatcher::hats::is_region;
use zq_egress::select::Asker;
use zq_hat::hat::Hat;
use zq_key::memory::OutOfMemory;
use zq_key::message::{DEFAULT_NODE_ID, NodeId};
use zq_route::RoutesVersion;
use zq_strategy::strategy::same_region;
use zq_strategy::types::OfferList;
use zq_tables::RegionMap;

/// Who asks on which key, and the regions that may offer.
#[derive(Drop)]
pub struct Asking<'a> {
    /// Who asks, and what decides between regions.
    pub asker: Asker<'a>,
    /// The hats of the regions.
    pub hats: &'a RegionMap<Hat>,
    /// The key that is asked for.
    pub key: &'a str,
}

impl<'a> Asking<'a> {
    // The node by which a region offers to the asker.
    fn context_for(&self, hat: &Hat) -> Option<NodeId>
        ensures { result ≡ context_for (asker_of self.now.asker) hat.now }
    {
        if same_region(self.asker.opened.region, hat.region()) {
            self.asker.context
        } else {
            Some(DEFAULT_NODE_ID)
        }
    }

    // The node under which offers of a region are kept for the asker.
    #[tactic(auto, using(crate::proofs::Current::region_has_index))]
    fn node_for(&self, hat: &Hat) -> Option<NodeId>
        ensures node { result ≡ node_for (asker_of self.now.asker) hat.now }
        ensures index { IfSome result (λ _. HasIndex hat.now.region) }
    {
        if !is_region(hat.region()) {
            return None;
        }
        self.context_for(hat)
    }

    // Where offers of a region are kept for the asker.
    fn spot_for(&self, hat: &Hat, versions: &[RoutesVersion]) -> Option<Spot>
        requires all { length versions.now ≡ 770 }
        ensures spot { result ≡ spot_for versions.now (asker_of self.now.asker) hat.now }
        ensures index { IfSome result (λ spot. HasIndex spot.dst) }
    {
        let Some(node) = self.node_for(hat) else {
            return None;
        };
        let dst = hat.region();
        Some(Spot {
            version: version_in(versions, &dst),
            dst,
            src: self.asker.opened.region,
            node,
        })
    }

    // What a region offers the asker on the key is kept.
    fn keep_one(
        &self,
        alloc: Global,
        hat: &Hat,
        versions: &[RoutesVersion],
        routes: &mut TextRoutes<OfferList>,
    ) -> Result<(), OutOfMemory>
        requires key { IsTrue (key_of self.now.key.now) }
        requires src { HasIndex self.now.asker.opened.region }
        requires there { StandsAt self.now.hats.now hat.now }
        requires table { IsTable (one_text versions.now self.now.key.now routes.old) }
        requires current { AreCurrent (one_text versions.now self.now.key.now routes.old) self.now.hats.now }
        ensures kept { OnOk result (IsKeptFor (asker_of self.now.asker) self.now.key.now (one_text versions.now self.now.key.now routes.new) hat.now) }
        ensures table { IsTable (one_text versions.now self.now.key.now routes.new) }
        ensures current { AreCurrent (one_text versions.now self.now.key.now routes.new) self.now.hats.now }
        ensures keeps { Keeps (one_text versions.now self.now.key.now routes.old) (one_text versions.now self.now.key.now routes.new) }
    {
        let Some(spot) = self.spot_for(hat, versions) else {
            return Ok(());
        };
        if route_in(routes, spot).is_some() {
            return Ok(());
        }
        let offers = hat.compute_query_route(&spot.src, self.key, Some(spot.node))?;
        set_in(alloc, routes, spot, offers)?;
        Ok(())
    }

    /// What each region offers the asker on the key is kept. After want of memory some of it may be.
    pub(crate) fn keep_routes(
        &self,
        alloc: Global,
        versions: &[RoutesVersion],
        routes: &mut TextRoutes<OfferList>,
    ) -> Result<(), OutOfMemory>
        requires key { IsTrue (key_of self.now.key.now) }
        requires src { HasIndex self.now.asker.opened.region }
        requires placed { ArePlaced self.now.hats.now }
        requires table { IsTable (one_text versions.now self.now.key.now routes.old) }
        requires current { AreCurrent (one_text versions.now self.now.key.now routes.old) self.now.hats.now }
        ensures kept { OnOk result (All (IsKeptFor (asker_of self.now.asker) self.now.key.now (one_text versions.now self.now.key.now routes.new)) (values_of self.now.hats.now)) }
        ensures table { IsTable (one_text versions.now self.now.key.now routes.new) }
        ensures current { AreCurrent (one_text versions.now self.now.key.now routes.new) self.now.hats.now }
        ensures keeps { Keeps (one_text versions.now self.now.key.now routes.old) (one_text versions.now self.now.key.now routes.new) }
    {
        for hat in self.hats.values() {
            self.keep_one(alloc, hat, versions, routes)?;
        }
        Ok(())
    }

    // What is kept of what a region offers to the asker.
    fn kept_in<'k>(
        &self,
        hat: &Hat,
        versions: &[RoutesVersion],
        routes: &'k TextRoutes<OfferList>,
    ) -> Option<&'k OfferList>
        requires src { HasIndex self.now.asker.opened.region }
        requires there { StandsAt self.now.hats.now hat.now }
        requires all { length versions.now ≡ 770 }
        requires current { AreCurrent (one_text versions.now self.now.key.now routes.now) self.now.hats.now }
        ensures offers { IfSome result (λ os. os.now ≡ offers_to (asker_of self.now.asker) self.now.key.now hat.now) }
        ensures kept { IfSome result (λ _. IsKeptFor (asker_of self.now.asker) self.now.key.now (one_text versions.now self.now.key.now routes.now) hat.now) }
    {
        let Some(spot) = self.spot_for(hat, versions) else {
            return None;
        };
        route_in(routes, spot)
    }

    /// The lists that are kept of what the regions offer to the asker, in the order of the regions' places,
    /// if there is one of each region.
    pub(crate) fn lists_in<'k>(
        &self,
        alloc: Global,
        versions: &[RoutesVersion],
        routes: &'k TextRoutes<OfferList>,
    ) -> Result<Option<Vec<&'k OfferList>>, OutOfMemory>
        requires src { HasIndex self.now.asker.opened.region }
        requires placed { ArePlaced self.now.hats.now }
        requires all { length versions.now ≡ 770 }
        requires current { AreCurrent (one_text versions.now self.now.key.now routes.now) self.now.hats.now }
        ensures offers { IfOk result (λ o. IfSome o (λ v. lists_of v.items ≡ map (offers_to (asker_of self.now.asker) self.now.key.now) (values_of self.now.hats.now))) }
        ensures kept { IfOk result (λ o. IfSome o (λ _. All (IsKeptFor (asker_of self.now.asker) self.now.key.now (one_text versions.now self.now.key.now routes.now)) (values_of self.now.hats.now))) }
    {
        let mut lists = Vec::new(alloc);
        for hat in self.hats.values() {
            match self.kept_in(hat, versions, routes) {
                Some(list) => lists.push(list)?,
                None => return Ok(None),
            }
        }
        Ok(Some(lists))
    }
}
