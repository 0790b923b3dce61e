//! Which offers a request is handed to.
ghost use Rattle.std.specs.Prelude.{◌≡◌, ℕ, [], Bool, IfOk, OnOk, Some, IsTrue, option_map};
ghost use Rattle.std.specs.Map.{values_of};
ghost use Rattle.zq_key.specs.Key.{is_key as key_of};
ghost use Rattle.zq_query.specs.Asking.{are_distinct, face_numbers};
ghost use Rattle.zq_route.specs.Selection.{best_overall, chosen, joined, picked, with_offers};
ghost use Rattle.zq_machine.specs.Selecting.{target_of, carries_between, filter_for, offers_to, parts_for, passes, zid_of};
ghost use Rattle.zq_egress.specs.Askers.{asker_of};
ghost use Rattle.zq_egress.specs.Nearest.{TakesNearest};
ghost use Rattle.std.specs.List.{flat_map};
ghost use Rattle.std.specs.Prelude.{filter, map, true};

use std::alloc::{AllocError, Global};
use std::collections::BTreeMap;
use zq_dispatcher::hats::is_region;
use zq_hat::hat::Hat;
use zq_key::items::Items;
use zq_key::memory::OutOfMemory;
use zq_key::message::{DEFAULT_NODE_ID, FaceId, NodeId, QueryTarget, Region, Zid};
use zq_machine::face::OpenFace;
use zq_route::builder::RouteBuilder;
use zq_route::filter::InterRegionFilter;
use zq_route::gateways::Gateways;
use zq_route::overall::take_best_overall;
use zq_route::selection::{Best, take_final_route};
use zq_strategy::strategy::{is_north, same_region};
use zq_strategy::types::{OfferList, QueryTargetQabl};
use zq_tables::RegionMap;

/// The id of an open face.
pub fn zid_of(faces: &BTreeMap<u32, OpenFace>, face: FaceId) -> Option<Zid>
    ensures { result ≡ zid_of face.0 faces.now.entries }
{
    match faces.get(&face.0) {
        Some(open) => Some(open.zid),
        None => None,
    }
}

fn carries_between(tables: &RegionMap<Gateways>, own: Zid, filter: InterRegionFilter) -> bool
    ensures { result ≡ carries_between tables.now own filter }
{
    if !is_region(filter.src) {
        return false;
    }
    if !is_region(filter.dst) {
        return false;
    }
    filter.resolve(tables, own)
}

/// The faces of offers.
pub fn targets_of(alloc: Global, offers: &[QueryTargetQabl]) -> Result<Vec<FaceId>, AllocError>
    ensures { IfOk result (λ v. v.items ≡ map target_of offers.now) }
{
    let mut targets = Vec::with_capacity(alloc, offers.len())?;
    for offer in offers {
        targets.push(offer.face)?;
    }
    Ok(targets)
}

// The offers of all regions, one region after the other.
fn all_of(alloc: Global, offered: Vec<OfferList>) -> Result<OfferList, OutOfMemory>
    ensures { IfOk result (λ o. o ≡ joined offered.items) }
{
    let mut all = Vec::new(alloc);
    for offers in offered {
        all.append(&mut offers.into_vec())?;
    }
    Ok(Items::from_vec(all))
}

/// Who asks, and what decides between regions.
#[derive(Drop)]
pub struct Asker<'a> {
    /// The open faces, by number.
    pub faces: &'a BTreeMap<u32, OpenFace>,
    /// For each region the gateways that its nodes have.
    pub tables: &'a RegionMap<Gateways>,
    /// The gateway's own id.
    pub own: Zid,
    /// The face that asks.
    pub face: FaceId,
    /// How it was opened.
    pub opened: OpenFace,
    /// The router that the request comes from; outside regions of routers the asker itself.
    pub source: Option<Zid>,
    /// The place of that router in the network of the asker's region; outside regions of routers the first.
    pub context: Option<NodeId>,
}

impl<'a> Asker<'a> {
    // Whether an offer is for the asker's request.
    fn passes(&self, offer: &QueryTargetQabl) -> bool
        ensures { result ≡ passes (asker_of self.now) offer.now }
    {
        if offer.face == self.face {
            return false;
        }
        let src = self.opened.region;
        if is_north(src) == is_north(offer.region) {
            return is_region(src) && is_region(offer.region);
        }
        let filter = InterRegionFilter {
            src,
            dst: offer.region,
            src_zid: self.source,
            fwd_zid: Some(self.opened.zid),
            dst_zid: zid_of(self.faces, offer.face),
        };
        carries_between(self.tables, self.own, filter)
    }

    // What a region offers to the asker.
    fn offers_in(&self, key: &str, hat: &Hat) -> Result<OfferList, OutOfMemory>
        requires { IsTrue (key_of key.now) }
        ensures { IfOk result (λ o. o ≡ offers_to (asker_of self.now) key.now hat.now) }
    {
        let src = self.opened.region;
        let node = if same_region(src, hat.region()) {
            self.context
        } else {
            Some(DEFAULT_NODE_ID)
        };
        hat.compute_query_route(&src, key, node)
    }

    // What each region offers to the asker, in the order of the regions' places.
    fn offers_by_region(
        &self,
        alloc: Global,
        hats: &RegionMap<Hat>,
        key: &str,
    ) -> Result<Vec<OfferList>, OutOfMemory>
        requires { IsTrue (key_of key.now) }
        ensures { IfOk result (λ v. v.items ≡ map (offers_to (asker_of self.now) key.now) (values_of hats.now)) }
    {
        let mut offered = Vec::new(alloc);
        for hat in hats.values() {
            offered.push(self.offers_in(key, hat)?)?;
        }
        Ok(offered)
    }

    // A region's part joins what earlier regions gave.
    fn add_part(
        &self,
        target: QueryTarget,
        route: &mut RouteBuilder<QueryTargetQabl>,
        offers: OfferList,
    ) -> Result<(), OutOfMemory>
        ensures { OnOk result (route.new ≡ with_offers route.old (chosen target (filter (passes (asker_of self.now)) offers))) }
    {
        let test = |offer: &QueryTargetQabl| -> bool
            ensures { result ≡ passes (asker_of self.entry.now) offer.now }
        { self.passes(offer) };
        take_final_route(target, route, offers, test)
    }

    // What the target picks region by region, in the order of their places.
    #[tactic(auto, using(crate::proofs::Selected::one_more))]
    fn route_by_region(
        &self,
        alloc: Global,
        offered: Vec<OfferList>,
        target: QueryTarget,
    ) -> Result<RouteBuilder<QueryTargetQabl>, OutOfMemory>
        ensures { IfOk result (λ r. r ≡ with_offers [] (flat_map (chosen target) (map (filter (passes (asker_of self.now))) offered.items))) }
    {
        let mut route = RouteBuilder::new(alloc);
        for offers in offered {
            self.add_part(target, &mut route, offers)?;
        }
        Ok(route)
    }

    // The best of the offers of all regions together that are for the asker's request.
    #[tactic(auto, using(zq_route::proofs::Nearest::filter_joined))]
    fn route_overall(
        &self,
        alloc: Global,
        offered: Vec<OfferList>,
    ) -> Result<RouteBuilder<QueryTargetQabl>, OutOfMemory>
        ensures { IfOk result (λ r. r ≡ with_offers [] (best_overall (joined (map (filter (passes (asker_of self.now))) offered.items)))) }
    {
        let offers = all_of(alloc, offered)?;
        let mut route = RouteBuilder::new(alloc);
        let test = |offer: &QueryTargetQabl| -> bool
            ensures { result ≡ passes (asker_of self.entry.now) offer.now }
        { self.passes(offer) };
        take_best_overall(alloc, &mut route, offers, test)?;
        Ok(route)
    }

    // What the target picks under a choice of what the regions offer.
    fn route(
        &self,
        alloc: Global,
        offered: Vec<OfferList>,
        target: QueryTarget,
        best: Best,
    ) -> Result<RouteBuilder<QueryTargetQabl>, OutOfMemory>
        ensures { IfOk result (λ r. r ≡ with_offers [] (picked best target (map (filter (passes (asker_of self.now))) offered.items))) }
    {
        match best {
            Best::ByRegion => self.route_by_region(alloc, offered, target),
            Best::Overall => match target {
                QueryTarget::BestMatching => self.route_overall(alloc, offered),
                QueryTarget::All => self.route_by_region(alloc, offered, target),
                QueryTarget::AllComplete => self.route_by_region(alloc, offered, target),
            },
        }
    }

    /// The offers that the asker's request on a key is handed to under a choice, of each face one. What the
    /// regions offer is gathered once.
    #[tactic(auto, using(zq_machine::proofs::Routes::route_distinct, crate::proofs::Selected::parts_of, crate::proofs::Selected::takes_nearest))]
    pub fn select(
        &self,
        alloc: Global,
        hats: &RegionMap<Hat>,
        key: &str,
        target: QueryTarget,
        best: Best,
    ) -> Result<Vec<QueryTargetQabl>, OutOfMemory>
        requires { IsTrue (key_of key.now) }
        ensures offers { IfOk result (λ v. v.items ≡ values_of (with_offers [] (picked best target (parts_for (asker_of self.now) key.now (values_of hats.now))))) }
        ensures distinct { IfOk result (λ v. are_distinct (face_numbers (map target_of v.items)) ≡ true) }
        ensures nearest { IfOk result (λ v. TakesNearest best target (joined (parts_for (asker_of self.now) key.now (values_of hats.now))) v.items) }
    {
        let offered = self.offers_by_region(alloc, hats, key)?;
        Ok(self.route(alloc, offered, target, best)?.build())
    }
}
