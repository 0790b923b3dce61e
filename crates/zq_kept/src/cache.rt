//! The offers that are kept, in a room that their texts may take.
ghost use Rattle.std.specs.Prelude.{◌≡◌, ℕ, List, [], true, IfOk, OnOk, IfSome, Some, IsTrue, map, option_copied};
ghost use Rattle.std.specs.List.{All};
ghost use Rattle.std.specs.Map.{values_of};
ghost use Rattle.zq_key.specs.Key.{is_key as key_of};
ghost use Rattle.zq_egress.specs.Askers.{asker_of};
ghost use Rattle.zq_egress.specs.Nearest.{TakesNearest};
ghost use Rattle.zq_machine.specs.Selecting.{parts_for, target_of};
ghost use Rattle.zq_machine.specs.State.{change_hat, hat_at};
ghost use Rattle.zq_message.specs.Region.{HasIndex};
ghost use Rattle.zq_query.specs.Asking.{are_distinct, face_numbers};
ghost use Rattle.zq_route.specs.Selection.{joined, picked, with_offers};
ghost use Rattle.zq_strategy.specs.Offers.{offers_of};
ghost use Rattle.zq_strategy.specs.State.{HatState};
ghost use Rattle.zq_tables.specs.Naming.{has_context as has_context_of};
ghost use Rattle.zq_kept.specs.Current.{AreCurrent, ArePlaced, IsKeptFor, KeepsNamed};
ghost use Rattle.zq_kept.specs.Table.{Fewer, route_of};

use crate::asking::Asking;
use crate::offers::{FEW_TEXTS, KeptOffers, kept_at, let_go, make_room, none_kept, offers_for};
use std::alloc::Global;
use std::marker::Model;
use zq_key::memory::OutOfMemory;
use zq_key::message::{NodeId, QueryTarget, Region};
use zq_route::selection::Best;
use zq_strategy::types::{OfferList, QueryTargetQabl};
use zq_tables::naming::Naming;

/// The offers that are kept, and how many texts they may have before those without a node go.
pub struct RouteCache {
    offers: KeptOffers,
    limit: usize,
}

impl Drop for RouteCache {
    fn drop(self) {
        let RouteCache { offers, limit } = self;
    }
}

impl Model for RouteCache {
    ghost use Rattle.zq_kept.specs.Current.{KeptOffers};

    ghost Value = { KeptOffers };

    ghost view = { λ c. c.offers };
}

impl RouteCache {
    /// No offers are kept.
    pub fn new(alloc: Global) -> Result<RouteCache, OutOfMemory>
        ensures { IfOk result (λ t. (hats : List (ℕ × HatState)) → AreCurrent t hats) }
    {
        Ok(RouteCache {
            offers: none_kept(alloc)?,
            limit: FEW_TEXTS,
        })
    }

    /// The offers that the asker's request on a key is handed to under a choice, of each face one, once room
    /// is made. Where the names have the key's node, what regions offer on it is kept from then on; want of
    /// memory answers so.
    #[tactic(auto, using(crate::proofs::Sweeping::room_stays))]
    pub fn offers_for(
        &mut self,
        asking: &Asking,
        names: &Naming,
        target: QueryTarget,
        best: Best,
    ) -> Result<Vec<QueryTargetQabl>, OutOfMemory>
        requires key { IsTrue (key_of asking.now.key.now) }
        requires src { HasIndex asking.now.asker.opened.region }
        requires placed { ArePlaced asking.now.hats.now }
        requires current { AreCurrent self.old asking.now.hats.now }
        ensures offers { IfOk result (λ v. v.items ≡ values_of (with_offers [] (picked best target (parts_for (asker_of asking.now.asker) asking.now.key.now (values_of asking.now.hats.now))))) }
        ensures distinct { IfOk result (λ v. are_distinct (face_numbers (map target_of v.items)) ≡ true) }
        ensures nearest { IfOk result (λ v. TakesNearest best target (joined (parts_for (asker_of asking.now.asker) asking.now.key.now (values_of asking.now.hats.now))) v.items) }
        ensures kept { OnOk result (has_context_of asking.now.key.now names.now ≡ true → All (IsKeptFor (asker_of asking.now.asker) asking.now.key.now self.new) (values_of asking.now.hats.now)) }
        ensures current { AreCurrent self.new asking.now.hats.now }
        ensures stays { KeepsNamed names.now self.old self.new }
    {
        make_room(&mut self.offers, names, &mut self.limit);
        offers_for(asking, names, &mut self.offers, target, best)
    }

    /// No offers of the region are kept any more, whose hat has changed. It takes no memory.
    pub fn let_go(&mut self, region: &Region)
        requires { HasIndex region.now }
        ensures current { (hats : List (ℕ × HatState)) (f : HatState → HatState) → AreCurrent self.old hats → AreCurrent self.new (change_hat region.now f hats) }
        ensures fewer { Fewer self.old self.new }
    {
        let_go(&mut self.offers, region);
    }

    /// What is kept of what a region offers on a key to what a region's node asks. It takes no memory.
    pub fn get(
        &self,
        destination: &Region,
        asker: &Region,
        node: NodeId,
        key: &str,
    ) -> Option<&OfferList>
        ensures there { HasIndex destination.now → HasIndex asker.now → option_copied result ≡ route_of destination.now key.now asker.now node self.now }
        ensures value { (hats : List (ℕ × HatState)) → AreCurrent self.now hats → IfSome result (λ os. (h : HatState) → hat_at destination.now hats ≡ Some h → os.now ≡ offers_of h asker.now key.now (Some node)) }
    {
        kept_at(&self.offers, destination, asker, node, key)
    }
}
