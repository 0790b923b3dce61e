//! Offers for a request over the declared keys that meet its own.
ghost use Rattle.std.specs.Prelude.{◌≡◌, List, ℕ, IfOk, OnOk, IsTrue, fold};
ghost use Rattle.std.specs.List.{AllByRecursion, flat_map};
ghost use Rattle.zq_key.specs.Key.{is_key};
ghost use Rattle.zq_index.specs.Holders.{HeldBy};
ghost use Rattle.zq_strategy.specs.OfferOrder.{IsKeyed, met_offers, offer_cmp, place, sorted};
ghost use Rattle.zq_strategy.specs.declared.offer.QueryTargetQabl.{QueryTargetQabl};

use crate::met::{Gather, gather_all};
use crate::offer::QueryTargetQabl;
use std::alloc::Global;
use zq_index::holders::{Holders, KeyHolders, Place};
use zq_key::memory::OutOfMemory;

/// What is offered for a request on a declared key that meets the request's.
pub trait KeyOffers<P: Place> {
    ghost met: { Self → List ℕ → List ℕ × HeldBy P → List QueryTargetQabl };

    /// Puts what is offered in its place.
    fn add(
        &self,
        offers: &mut Vec<QueryTargetQabl>,
        key: &str,
        holders: &Holders<P>,
        q: &str,
    ) -> Result<(), OutOfMemory>
        requires key { IsTrue (is_key key.now) }
        requires asked { IsTrue (is_key q.now) }
        ensures { OnOk result (offers.new.items ≡ fold (place offer_cmp) offers.old.items (met self.now q.now (key.now, holders.now))) };
}

/// Whose offers are put in their places.
#[derive(Drop)]
struct InOrder<'a, K> {
    source: &'a K,
}

impl<'a, P: Place, K: KeyOffers<P>> Gather<Holders<P>, Vec<QueryTargetQabl>> for InOrder<'a, K> {
    ghost gathers = { λ o q was e is. is.items ≡ fold (place offer_cmp) was.items (K.met o.source.now q e) };

    fn gather(
        &self,
        found: &mut Vec<QueryTargetQabl>,
        key: &str,
        held: &Holders<P>,
        q: &str,
    ) -> Result<(), OutOfMemory> {
        self.source.add(found, key, held, q)
    }
}

/// What is offered by those who declared keys that meet the request's, in order.
pub fn offers_for<P: Place, K: KeyOffers<P>>(
    alloc: Global,
    source: &K,
    index: &KeyHolders<P>,
    q: &str,
) -> Result<Vec<QueryTargetQabl>, OutOfMemory>
    requires keys { AllByRecursion IsKeyed index.now }
    requires asked { IsTrue (is_key q.now) }
    ensures { IfOk result (λ o. o.items ≡ sorted offer_cmp (flat_map (met_offers (K.met source.now q.now) q.now) index.now)) }
{
    let mut offers = Vec::new(alloc);
    gather_all(
        alloc,
        &InOrder { source },
        &mut offers,
        index.keys(),
        index.lists(),
        q,
    )?;
    Ok(offers)
}
