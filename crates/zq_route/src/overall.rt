//! The best offer of all regions together.
ghost use Rattle.std.specs.Prelude.{◌≡◌, ◌++◌, ℕ, Bool, IfOk, OnOk, OnErr, filter, map, option_to_list, take};
ghost use Rattle.std.specs.Fn.{FnReturnsAt};
ghost use Rattle.std.specs.Map.{values_of};
ghost use Rattle.zq_message.specs.declared.message.QueryTarget.TheVariants as target;
ghost use Rattle.zq_strategy.specs.OfferOrder.{offer_cmp, place};
ghost use Rattle.zq_route.specs.declared.selection.Best.TheVariants as choice;
ghost use Rattle.zq_route.specs.Selection.{is_complete, nearest, best_overall, joined, picked, with_offers};

use crate::builder::RouteBuilder;
use crate::selection::{add_kept, add_offer, first_complete, is_best};
use std::alloc::Global;
use zq_key::items::Items;
use zq_key::memory::OutOfMemory;
use zq_key::message::QueryTarget;
use zq_message::RegionMap;
use zq_strategy::order::put;
use zq_strategy::types::{OfferList, QueryTargetQabl};

/// Keeps the first of what is kept and of this offer, in their order.
fn keep_first(kept: &mut Vec<QueryTargetQabl>, offer: QueryTargetQabl) -> Result<(), OutOfMemory>
    ensures { OnOk result (kept.new.items ≡ take 1 (place offer_cmp kept.old.items offer)) }
{
    put(kept, offer)?;
    kept.truncate(1);
    Ok(())
}

/// The complete offer that passes and is first by distance, key text and face number, if there is one.
pub fn nearest<F: Fn(&QueryTargetQabl) -> bool>(
    alloc: Global,
    offers: OfferList,
    passes: &F,
) -> Result<Vec<QueryTargetQabl>, OutOfMemory>
    ghost test: { QueryTargetQabl → Bool }
    requires callable { F.IsAlwaysCallable passes.now }
    requires answers { (offer : QueryTargetQabl) (answer : Bool) → FnReturnsAt F.Fn passes.now offer answer → answer ≡ test offer }
    ensures { IfOk result (λ v. v.items ≡ option_to_list (nearest (filter is_complete (filter test offers)))) }
{
    let mut kept = Vec::new(alloc);
    for offer in offers.into_vec() {
        if is_best(&offer, passes) {
            keep_first(&mut kept, offer)?;
        }
    }
    Ok(kept)
}

/// Adds the nearest complete offer that passes, if there is one.
fn add_nearest<F: Fn(&QueryTargetQabl) -> bool>(
    alloc: Global,
    route: &mut RouteBuilder<QueryTargetQabl>,
    offers: OfferList,
    passes: &F,
) -> Result<(), OutOfMemory>
    ghost test: { QueryTargetQabl → Bool }
    requires callable { F.IsAlwaysCallable passes.now }
    requires answers { (offer : QueryTargetQabl) (answer : Bool) → FnReturnsAt F.Fn passes.now offer answer → answer ≡ test offer }
    ensures ok { OnOk result (route.new ≡ with_offers route.old (option_to_list (nearest (filter is_complete (filter test offers))))) }
    ensures err { OnErr result (route.new ≡ route.old) }
{
    let mut found = nearest(alloc, offers, passes)?;
    match found.pop() {
        Some(offer) => add_offer(route, offer),
        None => Ok(()),
    }
}

/// Adds what `BestMatching` keeps of the offers of all regions together, as `compute_best_overall` does,
/// of offers that it takes: those that are picked go into the route as they are, and the others are
/// dropped. They stand one region after the other.
pub fn take_best_overall<F: Fn(&QueryTargetQabl) -> bool>(
    alloc: Global,
    route: &mut RouteBuilder<QueryTargetQabl>,
    offers: OfferList,
    passes: F,
) -> Result<(), OutOfMemory>
where
    F: Drop,
    ghost test: { QueryTargetQabl → Bool }
    requires callable { F.IsAlwaysCallable passes }
    requires answers { (offer : QueryTargetQabl) (answer : Bool) → FnReturnsAt F.Fn passes offer answer → answer ≡ test offer }
    ensures ok { OnOk result (route.new ≡ with_offers route.old (best_overall (filter test offers))) }
    ensures err { OnErr result ((n : ℕ) × (route.new ≡ with_offers route.old (take n (best_overall (filter test offers))))) }
{
    match first_complete(offers.as_slice(), &passes) {
        Some(_) => match add_nearest(alloc, route, offers, &passes) {
            Ok(()) => Ok(()),
            Err(error) => Err(error),
        },
        None => match add_kept(QueryTarget::All, route, offers, &passes) {
            Ok(()) => Ok(()),
            Err(error) => Err(error),
        },
    }
}

/// Appends copies of offers.
fn push_copies(
    alloc: Global,
    copies: &mut OfferList,
    offers: &[QueryTargetQabl],
) -> Result<(), OutOfMemory>
    ensures { OnOk result (copies.new ≡ copies.old ++ offers.now) }
{
    for offer in offers {
        copies.push(offer.copy(alloc)?)?;
    }
    Ok(())
}

/// Copies of the offers of all regions, one region after the other.
fn copies_of_all(alloc: Global, offers: &RegionMap<OfferList>) -> Result<OfferList, OutOfMemory>
    ensures { IfOk result (λ l. l ≡ joined (values_of offers.now)) }
{
    let mut copies = Items::new(alloc);
    for part in offers.values() {
        push_copies(alloc, &mut copies, part.as_slice())?;
    }
    Ok(copies)
}

/// Adds what `BestMatching` keeps under the choice `Overall`: of the offers of all regions that pass, only
/// the complete one that is first by distance, key text and face number, or all of them, in index order,
/// if none is complete. Each face is taken once, with its first offer. Where memory is lacking the route
/// has a part of it, from the front. The offers are copied: `take_best_overall` does without.
pub fn compute_best_overall<F: Fn(&QueryTargetQabl) -> bool>(
    alloc: Global,
    route: &mut RouteBuilder<QueryTargetQabl>,
    offers: &RegionMap<OfferList>,
    passes: F,
) -> Result<(), OutOfMemory>
where
    F: Drop,
    ghost test: { QueryTargetQabl → Bool }
    requires callable { F.IsAlwaysCallable passes }
    requires answers { (offer : QueryTargetQabl) (answer : Bool) → FnReturnsAt F.Fn passes offer answer → answer ≡ test offer }
    ensures ok { OnOk result (route.new ≡ with_offers route.old (picked choice.Overall target.BestMatching (map (filter test) (values_of offers.now)))) }
    ensures err { OnErr result ((n : ℕ) × (route.new ≡ with_offers route.old (take n (picked choice.Overall target.BestMatching (map (filter test) (values_of offers.now)))))) }
{
    match copies_of_all(alloc, offers) {
        Ok(offers) => take_best_overall(alloc, route, offers, passes),
        Err(error) => Err(error),
    }
}
