//! What routers offer by their entries on a key, one offer for each.
ghost use Rattle.std.specs.Prelude.{◌≡◌, ℕ, OnOk, Some, fold, IsTrue, option_map};
ghost use Rattle.std.specs.List.{flat_map};
ghost use Rattle.zq_key.specs.Key.{is_key, includes};
ghost use Rattle.zq_message.specs.declared.message.FaceId.{FaceId};
ghost use Rattle.zq_strategy.specs.Seating.{seated};
ghost use Rattle.zq_strategy.specs.OfferOrder.{offer_cmp, place};
ghost use Rattle.zq_strategy.specs.Routed.{entry_offer, routed_offers, router_offer, way_to};

use crate::groups::text_for;
use crate::nets::IndexedNetwork;
use crate::offer::QueryTargetQabl;
use crate::order::put;
use crate::seats::FacesById;
use crate::walk::KeyOffers;
use std::alloc::Global;
use std::collections::BTreeMap;
use zq_index::holders::Holders;
use zq_key::includes;
use zq_key::memory::OutOfMemory;
use zq_key::message::{FaceId, NodeId, QueryableInfoType, Region, Zid};
use zq_key::text::Text;

/// What the routers of a region offer, on the ways from a source.
#[derive(Drop)]
pub struct RouterOffers<'a> {
    /// The allocator of the offers' texts.
    pub alloc: Global,
    /// The region that the routers are of.
    pub region: Region,
    /// The region's network, with the ways and the distances.
    pub net: &'a IndexedNetwork,
    /// Which open faces have which ids.
    pub seats: &'a FacesById,
    /// The place in the network of the source, whose tree gives the ways.
    pub source: NodeId,
}

/// The face on the way to a router, and how far the router is.
fn way_to(
    net: &IndexedNetwork,
    seats: &FacesById,
    source: NodeId,
    router: u128,
) -> Option<(FaceId, u16)>
    ensures { option_map (λ (w : FaceId × ℕ). (w.0.0, w.1)) result ≡ way_to net.now (λ zid. seated zid seats.now) source router }
{
    match net.towards(source, Zid(router)) {
        Some((next, far)) => match seats.face_with(next) {
            Some(face) => Some((face, far)),
            None => None,
        },
        None => None,
    }
}

/// The offer for a router's entry.
fn router_offer(
    region: Region,
    key: Text,
    included: bool,
    source: NodeId,
    info: QueryableInfoType,
    way: (FaceId, u16),
) -> QueryTargetQabl
    ensures { result ≡ router_offer region included key source info (way.0.0, way.1) }
{
    QueryTargetQabl {
        face: way.0,
        info: Some(QueryableInfoType {
            complete: info.complete && included,
            distance: way.1,
        }),
        key,
        region,
        node: source,
    }
}

impl<'a> RouterOffers<'a> {
    /// Puts the offer for an entry in its place, if the tables lead to its router.
    fn add_entry(
        &self,
        offers: &mut Vec<QueryTargetQabl>,
        key: &Text,
        included: bool,
        router: u128,
        info: QueryableInfoType,
    ) -> Result<(), OutOfMemory>
        ensures { OnOk result (offers.new.items ≡ fold (place offer_cmp) offers.old.items (entry_offer self.now.net.now (λ zid. seated zid self.now.seats.now) self.now.region self.now.source included key.now (router, info))) }
    {
        match way_to(self.net, self.seats, self.source, router) {
            Some(way) => {
                let key = key.copy(self.alloc)?;
                put(
                    offers,
                    router_offer(self.region, key, included, self.source, info, way),
                )
            }
            None => Ok(()),
        }
    }

    /// Puts the offers for entries on a key in their places.
    #[tactic(auto, using(crate::proofs::Folds::fold_joined))]
    fn add_entries(
        &self,
        offers: &mut Vec<QueryTargetQabl>,
        key: &Text,
        included: bool,
        infos: &BTreeMap<u128, QueryableInfoType>,
    ) -> Result<(), OutOfMemory>
        ensures { OnOk result (offers.new.items ≡ fold (place offer_cmp) offers.old.items (flat_map (entry_offer self.now.net.now (λ zid. seated zid self.now.seats.now) self.now.region self.now.source included key.now) infos.now.entries)) }
    {
        for (router, info) in infos {
            self.add_entry(offers, key, included, *router, *info)?;
        }
        Ok(())
    }
}

impl<'a> KeyOffers<u128> for RouterOffers<'a> {
    ghost met = { λ r q k. routed_offers r.net.now (λ zid. seated zid r.seats.now) r.region r.source q k };

    fn add(
        &self,
        offers: &mut Vec<QueryTargetQabl>,
        key: &str,
        holders: &Holders<u128>,
        q: &str,
    ) -> Result<(), OutOfMemory> {
        let infos = holders.infos();
        let text = text_for(self.alloc, key, infos.len())?;
        self.add_entries(offers, &text, includes(key, q), infos)
    }
}
