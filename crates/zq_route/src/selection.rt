//! Which offers of a region a request is handed to, and the choice of where the best one is looked for.
ghost use Rattle.std.specs.Prelude.{◌≡◌, ◌<◌, ℕ, Bool, ◌&&◌, IfOk, IfSome, IfNone, None, OnOk, OnErr, find, filter, length, option_to_list, slice_get, take};
ghost use Rattle.std.specs.Fn.{FnReturnsAt};
ghost use Rattle.zq_route.specs.Built.{with_first};
ghost use Rattle.zq_route.specs.Selection.{is_complete, may_be_complete, is_kept, kept, best, chosen, by_face, with_offers, with_kept};

use crate::builder::RouteBuilder;
use std::alloc::Global;
use zq_key::items::Items;
use zq_key::memory::OutOfMemory;
use zq_key::message::QueryTarget;
use zq_strategy::types::{OfferList, QueryTargetQabl};

/// Among which offers `BestMatching` looks for the complete one that it keeps.
#[derive(Clone, Copy, Debug, PartialEq, Eq)]
pub enum Best {
    /// Among those of each region for itself: it keeps one in each region that has one.
    ByRegion,
    /// Among those of all regions together: it keeps the nearest alone.
    Overall,
}

fn is_complete(offer: &QueryTargetQabl) -> bool
    ensures { result ≡ is_complete offer.now }
{
    match offer.info {
        Some(info) => info.complete,
        None => false,
    }
}

fn may_be_complete(offer: &QueryTargetQabl) -> bool
    ensures { result ≡ may_be_complete offer.now }
{
    offer.info.is_none() || is_complete(offer)
}

/// Whether the target keeps the offer, where it does not stop at the first complete one.
fn is_kept(target: QueryTarget, offer: &QueryTargetQabl) -> bool
    ensures { result ≡ is_kept target offer.now }
{
    match target {
        QueryTarget::All => true,
        QueryTarget::AllComplete => may_be_complete(offer),
        QueryTarget::BestMatching => true,
    }
}

/// Adds the offer, unless its face is there.
pub(crate) fn add_offer(
    route: &mut RouteBuilder<QueryTargetQabl>,
    offer: QueryTargetQabl,
) -> Result<(), OutOfMemory>
    ensures ok { OnOk result (route.new ≡ with_first route.old (by_face offer)) }
    ensures err { OnErr result (route.new ≡ route.old) }
{
    if route.has_face(offer.face) {
        return Ok(());
    }
    route.put(offer.face, offer)
}

/// Whether the offer passes.
fn does_pass<F: Fn(&QueryTargetQabl) -> bool>(passes: &F, offer: &QueryTargetQabl) -> bool
    ghost test: { QueryTargetQabl → Bool }
    requires callable { F.IsAlwaysCallable passes.now }
    requires answers { (offer : QueryTargetQabl) (answer : Bool) → FnReturnsAt F.Fn passes.now offer answer → answer ≡ test offer }
    ensures { result ≡ test offer.now }
{
    passes(offer)
}

/// Adds the offer, if it passes and the target keeps it.
fn add_if_kept<F: Fn(&QueryTargetQabl) -> bool>(
    target: QueryTarget,
    route: &mut RouteBuilder<QueryTargetQabl>,
    offer: QueryTargetQabl,
    passes: &F,
) -> Result<(), OutOfMemory>
    ghost test: { QueryTargetQabl → Bool }
    requires callable { F.IsAlwaysCallable passes.now }
    requires answers { (offer : QueryTargetQabl) (answer : Bool) → FnReturnsAt F.Fn passes.now offer answer → answer ≡ test offer }
    ensures ok { OnOk result (route.new ≡ with_kept test target route.old offer) }
    ensures err { OnErr result (route.new ≡ route.old) }
{
    if !does_pass(passes, &offer) {
        return Ok(());
    }
    if !is_kept(target, &offer) {
        return Ok(());
    }
    add_offer(route, offer)
}

/// Adds the offers that pass and that the target keeps.
pub(crate) fn add_kept<F: Fn(&QueryTargetQabl) -> bool>(
    target: QueryTarget,
    route: &mut RouteBuilder<QueryTargetQabl>,
    offers: OfferList,
    passes: &F,
) -> Result<(), OutOfMemory>
    ghost test: { QueryTargetQabl → Bool }
    requires callable { F.IsAlwaysCallable passes.now }
    requires answers { (offer : QueryTargetQabl) (answer : Bool) → FnReturnsAt F.Fn passes.now offer answer → answer ≡ test offer }
    ensures ok { OnOk result (route.new ≡ with_offers route.old (kept target (filter test offers))) }
    ensures err { OnErr result ((n : ℕ) × (route.new ≡ with_offers route.old (take n (kept target (filter test offers))))) }
{
    for offer in offers.into_vec() {
        match add_if_kept(target, route, offer, passes) {
            Ok(()) => {}
            Err(error) => return Err(error),
        }
    }
    Ok(())
}

/// Whether the offer passes and is complete.
pub(crate) fn is_best<F: Fn(&QueryTargetQabl) -> bool>(offer: &QueryTargetQabl, passes: &F) -> bool
    ghost test: { QueryTargetQabl → Bool }
    requires callable { F.IsAlwaysCallable passes.now }
    requires answers { (offer : QueryTargetQabl) (answer : Bool) → FnReturnsAt F.Fn passes.now offer answer → answer ≡ test offer }
    ensures { result ≡ (test offer.now && is_complete offer.now) }
{
    if !does_pass(passes, offer) {
        return false;
    }
    is_complete(offer)
}

/// The place of the first complete offer that passes.
pub(crate) fn first_complete<F: Fn(&QueryTargetQabl) -> bool>(
    offers: &[QueryTargetQabl],
    passes: &F,
) -> Option<usize>
    ghost test: { QueryTargetQabl → Bool }
    requires callable { F.IsAlwaysCallable passes.now }
    requires answers { (offer : QueryTargetQabl) (answer : Bool) → FnReturnsAt F.Fn passes.now offer answer → answer ≡ test offer }
    ensures some { IfSome result (λ i. i < length offers.now × (find is_complete (filter test offers.now) ≡ slice_get offers.now i)) }
    ensures none { IfNone result (find is_complete (filter test offers.now) ≡ None) }
{
    for i in 0..offers.len() {
        if is_best(&offers[i], passes) {
            return Some(i);
        }
    }
    None
}

/// Adds the offer at a place, and drops the others.
fn add_one(
    route: &mut RouteBuilder<QueryTargetQabl>,
    offers: OfferList,
    i: usize,
) -> Result<(), OutOfMemory>
    requires { i < length offers }
    ensures ok { OnOk result (route.new ≡ with_offers route.old (option_to_list (slice_get offers i))) }
    ensures err { OnErr result (route.new ≡ route.old) }
{
    add_offer(route, offers.into_vec().swap_remove(i))
}

/// Adds the first complete offer that passes, or all that pass if none is complete.
fn add_best<F: Fn(&QueryTargetQabl) -> bool>(
    route: &mut RouteBuilder<QueryTargetQabl>,
    offers: OfferList,
    passes: &F,
) -> Result<(), OutOfMemory>
    ghost test: { QueryTargetQabl → Bool }
    requires callable { F.IsAlwaysCallable passes.now }
    requires answers { (offer : QueryTargetQabl) (answer : Bool) → FnReturnsAt F.Fn passes.now offer answer → answer ≡ test offer }
    ensures ok { OnOk result (route.new ≡ with_offers route.old (best (filter test offers))) }
    ensures err { OnErr result ((n : ℕ) × (route.new ≡ with_offers route.old (take n (best (filter test offers))))) }
{
    match first_complete(offers.as_slice(), passes) {
        Some(i) => match add_one(route, offers, i) {
            Ok(()) => Ok(()),
            Err(error) => Err(error),
        },
        None => match add_kept(QueryTarget::All, route, offers, passes) {
            Ok(()) => Ok(()),
            Err(error) => Err(error),
        },
    }
}

/// Adds one region's part of a selection, as `compute_final_route` does, of offers that it takes: those
/// that are picked go into the route as they are, and the others are dropped.
pub fn take_final_route<F: Fn(&QueryTargetQabl) -> bool>(
    target: QueryTarget,
    route: &mut RouteBuilder<QueryTargetQabl>,
    offers: OfferList,
    passes: F,
) -> Result<(), OutOfMemory>
where
    F: Drop,
    ghost test: { QueryTargetQabl → Bool }
    requires callable { F.IsAlwaysCallable passes }
    requires answers { (offer : QueryTargetQabl) (answer : Bool) → FnReturnsAt F.Fn passes offer answer → answer ≡ test offer }
    ensures ok { OnOk result (route.new ≡ with_offers route.old (chosen target (filter test offers))) }
    ensures err { OnErr result ((n : ℕ) × (route.new ≡ with_offers route.old (take n (chosen target (filter test offers))))) }
{
    match target {
        QueryTarget::All => add_kept(target, route, offers, &passes),
        QueryTarget::AllComplete => add_kept(target, route, offers, &passes),
        QueryTarget::BestMatching => add_best(route, offers, &passes),
    }
}

fn copies(alloc: Global, offers: &[QueryTargetQabl]) -> Result<OfferList, OutOfMemory>
    ensures { IfOk result (λ l. l ≡ offers.now) }
{
    let mut copies = Items::new(alloc);
    for offer in offers {
        copies.push(offer.copy(alloc)?)?;
    }
    Ok(copies)
}

/// Adds one region's part of a selection (upstream's `compute_final_route`): of the offers that pass,
/// `All` takes all, `AllComplete` those that are complete or without information, and `BestMatching`
/// the first complete one, or all if none is complete. Each face is taken once, with its first offer.
/// Where memory is lacking the route has a part of it, from the front. The offers are copied:
/// `take_final_route` does without.
pub fn compute_final_route<F: Fn(&QueryTargetQabl) -> bool>(
    alloc: Global,
    target: QueryTarget,
    route: &mut RouteBuilder<QueryTargetQabl>,
    offers: &OfferList,
    passes: F,
) -> Result<(), OutOfMemory>
where
    F: Drop,
    ghost test: { QueryTargetQabl → Bool }
    requires callable { F.IsAlwaysCallable passes }
    requires answers { (offer : QueryTargetQabl) (answer : Bool) → FnReturnsAt F.Fn passes offer answer → answer ≡ test offer }
    ensures ok { OnOk result (route.new ≡ with_offers route.old (chosen target (filter test offers.now))) }
    ensures err { OnErr result ((n : ℕ) × (route.new ≡ with_offers route.old (take n (chosen target (filter test offers.now))))) }
{
    match copies(alloc, offers.as_slice()) {
        Ok(offers) => take_final_route(target, route, offers, passes),
        Err(error) => Err(error),
    }
}
