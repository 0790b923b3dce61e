//! Which offers of the lists that are kept a request is handed to; the lists stay, and what is picked is copied.
ghost use Rattle.std.specs.Prelude.{◌≡◌, ◌<◌, ◌&&◌, [], IfOk, IfSome, IfNone, None, OnOk, find, filter, fold, if◌then◌else◌, length, map, option_copied, slice_get};
ghost use Rattle.std.specs.List.{flat_map};
ghost use Rattle.std.specs.Ordering.{is_lt};
ghost use Rattle.zq_egress.specs.Askers.{asker_of};
ghost use Rattle.zq_machine.specs.Selecting.{carries_between, passes};
ghost use Rattle.zq_route.specs.Built.{with_first};
ghost use Rattle.zq_route.specs.Selection.{best, best_overall, by_face, chosen, is_complete, is_kept, joined, kept, may_be_complete, nearer, nearest, picked, with_kept, with_offers};
ghost use Rattle.zq_strategy.specs.OfferOrder.{distance, offer_cmp};
ghost use Rattle.zq_kept.specs.Picked.{lists_of};

use std::alloc::Global;
use std::cmp::Ordering;
use zq_dispatcher::hats::is_region;
use zq_egress::select::{Asker, zid_of};
use zq_index::text_set::compare_texts;
use zq_key::memory::OutOfMemory;
use zq_key::message::{QueryTarget, Zid};
use zq_route::builder::RouteBuilder;
use zq_route::filter::InterRegionFilter;
use zq_route::gateways::Gateways;
use zq_route::selection::Best;
use zq_strategy::strategy::is_north;
use zq_strategy::types::{OfferList, QueryTargetQabl};
use zq_tables::RegionMap;

fn carries_between(tables: &RegionMap<Gateways>, own: Zid, filter: InterRegionFilter) -> bool
    ensures { result ≡ carries_between tables.now own filter }
{
    if !is_region(filter.src) {
        return false;
    }
    if !is_region(filter.dst) {
        return false;
    }
    filter.resolve(tables, own)
}

// Whether an offer is for the asker's request.
fn passes(asker: &Asker, offer: &QueryTargetQabl) -> bool
    ensures { result ≡ passes (asker_of asker.now) offer.now }
{
    if offer.face == asker.face {
        return false;
    }
    let src = asker.opened.region;
    if is_north(src) == is_north(offer.region) {
        return is_region(src) && is_region(offer.region);
    }
    let filter = InterRegionFilter {
        src,
        dst: offer.region,
        src_zid: asker.source,
        fwd_zid: Some(asker.opened.zid),
        dst_zid: zid_of(asker.faces, offer.face),
    };
    carries_between(asker.tables, asker.own, filter)
}

fn is_complete(offer: &QueryTargetQabl) -> bool
    ensures { result ≡ is_complete offer.now }
{
    match offer.info {
        Some(info) => info.complete,
        None => false,
    }
}

fn may_be_complete(offer: &QueryTargetQabl) -> bool
    ensures { result ≡ may_be_complete offer.now }
{
    offer.info.is_none() || is_complete(offer)
}

fn is_kept(target: QueryTarget, offer: &QueryTargetQabl) -> bool
    ensures { result ≡ is_kept target offer.now }
{
    match target {
        QueryTarget::All => true,
        QueryTarget::AllComplete => may_be_complete(offer),
        QueryTarget::BestMatching => true,
    }
}

fn add_copy(
    alloc: Global,
    route: &mut RouteBuilder<QueryTargetQabl>,
    offer: &QueryTargetQabl,
) -> Result<(), OutOfMemory>
    ensures { OnOk result (route.new ≡ with_first route.old (by_face offer.now)) }
{
    if route.has_face(offer.face) {
        return Ok(());
    }
    route.put(offer.face, offer.copy(alloc)?)
}

fn add_if_kept(
    asker: &Asker,
    alloc: Global,
    target: QueryTarget,
    route: &mut RouteBuilder<QueryTargetQabl>,
    offer: &QueryTargetQabl,
) -> Result<(), OutOfMemory>
    ensures { OnOk result (route.new ≡ with_kept (passes (asker_of asker.now)) target route.old offer.now) }
{
    if !passes(asker, offer) {
        return Ok(());
    }
    if !is_kept(target, offer) {
        return Ok(());
    }
    add_copy(alloc, route, offer)
}

fn add_kept(
    asker: &Asker,
    alloc: Global,
    target: QueryTarget,
    route: &mut RouteBuilder<QueryTargetQabl>,
    offers: &[QueryTargetQabl],
) -> Result<(), OutOfMemory>
    ensures { OnOk result (route.new ≡ with_offers route.old (kept target (filter (passes (asker_of asker.now)) offers.now))) }
{
    for offer in offers {
        add_if_kept(asker, alloc, target, route, offer)?;
    }
    Ok(())
}

fn is_best(asker: &Asker, offer: &QueryTargetQabl) -> bool
    ensures { result ≡ (passes (asker_of asker.now) offer.now && is_complete offer.now) }
{
    if !passes(asker, offer) {
        return false;
    }
    is_complete(offer)
}

// The place of the first complete offer that passes.
fn first_complete(asker: &Asker, offers: &[QueryTargetQabl]) -> Option<usize>
    ensures some { IfSome result (λ i. i < length offers.now × (find is_complete (filter (passes (asker_of asker.now)) offers.now) ≡ slice_get offers.now i)) }
    ensures none { IfNone result (find is_complete (filter (passes (asker_of asker.now)) offers.now) ≡ None) }
{
    for i in 0..offers.len() {
        if is_best(asker, &offers[i]) {
            return Some(i);
        }
    }
    None
}

fn add_best(
    asker: &Asker,
    alloc: Global,
    route: &mut RouteBuilder<QueryTargetQabl>,
    offers: &[QueryTargetQabl],
) -> Result<(), OutOfMemory>
    ensures { OnOk result (route.new ≡ with_offers route.old (best (filter (passes (asker_of asker.now)) offers.now))) }
{
    match first_complete(asker, offers) {
        Some(i) => match add_copy(alloc, route, &offers[i]) {
            Ok(()) => Ok(()),
            Err(error) => Err(error),
        },
        None => match add_kept(asker, alloc, QueryTarget::All, route, offers) {
            Ok(()) => Ok(()),
            Err(error) => Err(error),
        },
    }
}

// Adds one region's part of a selection.
fn pick(
    asker: &Asker,
    alloc: Global,
    target: QueryTarget,
    route: &mut RouteBuilder<QueryTargetQabl>,
    offers: &[QueryTargetQabl],
) -> Result<(), OutOfMemory>
    ensures { OnOk result (route.new ≡ with_offers route.old (chosen target (filter (passes (asker_of asker.now)) offers.now))) }
{
    match target {
        QueryTarget::All => add_kept(asker, alloc, target, route, offers),
        QueryTarget::AllComplete => add_kept(asker, alloc, target, route, offers),
        QueryTarget::BestMatching => add_best(asker, alloc, route, offers),
    }
}

// What the target picks region by region, in the order of their places.
fn route_by_region(
    asker: &Asker,
    alloc: Global,
    lists: &[&OfferList],
    target: QueryTarget,
) -> Result<RouteBuilder<QueryTargetQabl>, OutOfMemory>
    ensures { IfOk result (λ r. r ≡ with_offers [] (flat_map (chosen target) (map (filter (passes (asker_of asker.now))) (lists_of lists.now)))) }
{
    let mut route = RouteBuilder::new(alloc);
    for list in lists {
        pick(asker, alloc, target, &mut route, list.as_slice())?;
    }
    Ok(route)
}

fn distance(offer: &QueryTargetQabl) -> u16
    ensures { result ≡ distance offer.now }
{
    match &offer.info {
        Some(i) => i.distance,
        None => 65535,
    }
}

// By distance, key text and face.
fn compare_offers(a: &QueryTargetQabl, b: &QueryTargetQabl) -> Ordering
    ensures { result ≡ offer_cmp a.now b.now }
{
    match distance(a).cmp(&distance(b)) {
        Ordering::Equal => match compare_texts(a.key.as_str(), b.key.as_str()) {
            Ordering::Equal => a.face.0.cmp(&b.face.0),
            Ordering::Less => Ordering::Less,
            Ordering::Greater => Ordering::Greater,
        },
        Ordering::Less => Ordering::Less,
        Ordering::Greater => Ordering::Greater,
    }
}

fn is_before(offer: &QueryTargetQabl, other: &QueryTargetQabl) -> bool
    ensures { result ≡ is_lt (offer_cmp offer.now other.now) }
{
    compare_offers(offer, other) == Ordering::Less
}

// The nearer of what was found and of an offer.
fn nearer<'k>(
    found: Option<&'k QueryTargetQabl>,
    offer: &'k QueryTargetQabl,
) -> Option<&'k QueryTargetQabl>
    ensures { option_copied result ≡ nearer (option_copied found.entry) offer.now }
{
    match found {
        Some(first) => {
            if is_before(offer, first) {
                Some(offer)
            } else {
                Some(first)
            }
        }
        None => Some(offer),
    }
}

// The nearer of what was found and of an offer, where it passes and is complete.
fn nearer_best<'k>(
    asker: &Asker,
    found: Option<&'k QueryTargetQabl>,
    offer: &'k QueryTargetQabl,
) -> Option<&'k QueryTargetQabl>
    ensures { option_copied result ≡ (if passes (asker_of asker.now) offer.now && is_complete offer.now then nearer (option_copied found.entry) offer.now else option_copied found.entry) }
{
    if !is_best(asker, offer) {
        return found;
    }
    nearer(found, offer)
}

// The nearest of what was found and of the complete offers that pass.
fn nearest_of<'k>(
    asker: &Asker,
    before: Option<&'k QueryTargetQabl>,
    offers: &'k [QueryTargetQabl],
) -> Option<&'k QueryTargetQabl>
    ensures { option_copied result ≡ fold nearer (option_copied before.entry) (filter is_complete (filter (passes (asker_of asker.now)) offers.now)) }
{
    let mut found = before;
    for offer in offers {
        found = nearer_best(asker, found, offer);
    }
    found
}

// The nearest of the complete offers of all regions that pass.
fn nearest_in<'k>(asker: &Asker, lists: &[&'k OfferList]) -> Option<&'k QueryTargetQabl>
    ensures { option_copied result ≡ nearest (filter is_complete (joined (map (filter (passes (asker_of asker.now))) (lists_of lists.now)))) }
{
    let mut found = None;
    for list in lists {
        found = nearest_of(asker, found, list.as_slice());
    }
    found
}

// The best of the offers of all regions together that pass.
fn route_overall(
    asker: &Asker,
    alloc: Global,
    lists: &[&OfferList],
) -> Result<RouteBuilder<QueryTargetQabl>, OutOfMemory>
    ensures { IfOk result (λ r. r ≡ with_offers [] (best_overall (joined (map (filter (passes (asker_of asker.now))) (lists_of lists.now))))) }
{
    let Some(offer) = nearest_in(asker, lists) else {
        return route_by_region(asker, alloc, lists, QueryTarget::All);
    };
    let mut route = RouteBuilder::new(alloc);
    add_copy(alloc, &mut route, offer)?;
    Ok(route)
}

/// What the target picks under a choice of the lists that the regions offer.
pub(crate) fn route(
    asker: &Asker,
    alloc: Global,
    lists: &[&OfferList],
    target: QueryTarget,
    best: Best,
) -> Result<RouteBuilder<QueryTargetQabl>, OutOfMemory>
    ensures { IfOk result (λ r. r ≡ with_offers [] (picked best target (map (filter (passes (asker_of asker.now))) (lists_of lists.now)))) }
{
    match best {
        Best::ByRegion => route_by_region(asker, alloc, lists, target),
        Best::Overall => match target {
            QueryTarget::BestMatching => route_overall(asker, alloc, lists),
            QueryTarget::All => route_by_region(asker, alloc, lists, target),
            QueryTarget::AllComplete => route_by_region(asker, alloc, lists, target),
        },
    }
}
