//! Why a queryable that meets the key of a request was not asked: at which stage of the selection it
//! went.
ghost use Rattle.std.specs.Prelude.{◌≡◌, ◌++◌, [], IfOk, OnOk, IsTrue, fold, option_copied, option_map, true};
ghost use Rattle.std.specs.List.{flat_map};
ghost use Rattle.std.specs.Map.{values_of};
ghost use Rattle.zq_key.specs.Key.{is_key as key_of};
ghost use Rattle.zq_machine.specs.Selecting.{carries_between, filter_for};
ghost use Rattle.zq_route.specs.Selection.{is_complete};
ghost use Rattle.zq_egress.specs.Askers.{asker_of};
ghost use Rattle.zq_show.specs.Reasons.{asker_for, barrier, candidates, first_panel, first_verdict, found_with, has_best, home, is_best, is_picked, is_complete_in, is_elsewhere, is_overall, judged, judged_for, judged_on, judged_said, missed_at, missed_or_taken, nearest_in, no_judgement, node_for, offers_nothing, origin, panel_at, panel_of, picked, picked_after, reaching, unpicked, with_hat, with_missed, with_nearest};

use crate::carrier::carrier;
use crate::seen::Seen;
use std::alloc::Global;
use zq_dispatcher::hats::{hat_at, is_region};
use zq_egress::read::{full_text, says_key};
use zq_egress::select::{Asker, zid_of};
use zq_hat::Hat;
use zq_key::items::Items;
use zq_key::memory::OutOfMemory;
use zq_key::message::{DEFAULT_NODE_ID, FaceId, NodeId, QueryTarget, Region, Request, Zid};
use zq_key::text::Text;
use zq_machine::config::Config;
use zq_message::RegionMap;
use zq_route::builder::RouteBuilder;
use zq_route::filter::InterRegionFilter;
use zq_route::overall::nearest;
use zq_route::selection::Best;
use zq_strategy::strategy::same_region;
use zq_strategy::{OfferList, QueryTargetQabl, Strategy};
use zq_tables::resolved::Resolved;

/// Why a queryable was not asked: the first stage of the selection that it did not pass.
#[derive(Clone, Copy)]
pub enum Reason {
    /// The asker may not ask for the key.
    Denied,
    /// It is the asker's own.
    Own,
    /// Its region offers nothing to its own faces.
    Region,
    /// Another gateway carries the request there, if it is known which; none does where the asker's
    /// node is itself listed.
    Carried(Option<Zid>),
    /// It is not complete on the key, as the target asks.
    Incomplete,
    /// Another is the nearest complete one of its region.
    Farther,
    /// An earlier offer of its face is asked.
    Earlier,
}

/// What a face declared on a key, and was not asked for.
#[derive(Drop)]
pub struct Missed {
    /// The face that would have been asked.
    pub face: FaceId,
    /// The key that was declared.
    pub key: Text,
    /// The ids under which the face declared it; none where a router behind it did.
    pub ids: Items<u128>,
    /// Why it was not asked.
    pub reason: Reason,
}

/// What was not asked, region by region, in each by distance, key and face.
pub type MissedList = Items<Missed>;

/// What decides of the offers of a region.
#[derive(Clone, Copy)]
struct Panel {
    /// Whether the asker may not ask for the key.
    denied: bool,
    /// Whether the region offers nothing to the asker.
    beside: bool,
    /// Whom the request asks for.
    target: QueryTarget,
    /// Whether an offer is complete that reaches the target: of the region, or, where the choice is over
    /// all regions, of any.
    complete: bool,
    /// Whether the choice is over all regions.
    overall: bool,
    /// The region of the nearest complete offer of all regions, where the choice is over these.
    nearest: Option<Region>,
    /// Whether that is another region.
    elsewhere: bool,
}

/// What came of a request.
#[derive(Drop)]
pub struct Judgement {
    /// The nearest complete offer of all regions, where the choice is over all regions.
    pub nearest: Option<QueryTargetQabl>,
    /// What was not asked.
    pub missed: MissedList,
}

/// What came of the offers so far.
#[derive(Drop)]
struct Verdict {
    /// What was not asked, of earlier regions, too.
    missed: MissedList,
    /// The faces that are asked.
    taken: RouteBuilder<FaceId>,
    /// Whether a complete offer was among those that reached the target.
    found: bool,
}

/// Who asks, with what is seen.
#[derive(Drop)]
struct Asked<'a> {
    seen: &'a Seen,
    asker: Asker<'a>,
}

fn is_complete(offer: &QueryTargetQabl) -> bool
    ensures { result ≡ is_complete offer.now }
{
    match offer.info {
        Some(info) => info.complete,
        None => false,
    }
}

/// The way of a request between the regions of an asker and of an offer.
fn filter_for(asker: &Asker<'_>, offer: &QueryTargetQabl) -> InterRegionFilter
    ensures { result ≡ filter_for (asker_of asker.now) offer.now }
{
    InterRegionFilter {
        src: asker.opened.region,
        dst: offer.region,
        src_zid: asker.source,
        fwd_zid: Some(asker.opened.zid),
        dst_zid: zid_of(asker.faces, offer.face),
    }
}

/// Whether the gateway carries a request between two of its regions.
fn carries(asker: &Asker<'_>, filter: InterRegionFilter) -> bool
    ensures { result ≡ carries_between asker.now.tables.now asker.now.own filter }
{
    if !is_region(filter.src) {
        return false;
    }
    if !is_region(filter.dst) {
        return false;
    }
    filter.resolve(asker.tables, asker.own)
}

/// What an offer meets before the target looks at it.
fn barrier(panel: Panel, asker: &Asker<'_>, offer: &QueryTargetQabl) -> Option<Reason>
    ensures { result ≡ barrier panel (asker_of asker.now) offer.now }
{
    if panel.denied {
        return Some(Reason::Denied);
    }
    if offer.face.0 == asker.face.0 {
        return Some(Reason::Own);
    }
    if panel.beside {
        return Some(Reason::Region);
    }
    let filter = filter_for(asker, offer);
    if carries(asker, filter) {
        return None;
    }
    Some(Reason::Carried(carrier(asker.tables, filter)))
}

/// Whether an offer is complete, and reaches the target.
fn is_best(panel: Panel, asker: &Asker<'_>, offer: &QueryTargetQabl) -> bool
    ensures { result ≡ is_best panel (asker_of asker.now) offer.now }
{
    is_complete(offer) && barrier(panel, asker, offer).is_none()
}

/// Whether the target picks an offer that reaches it, where a complete one came before or not.
fn is_picked(panel: Panel, found: bool, offer: &QueryTargetQabl) -> bool
    ensures { result ≡ is_picked panel found offer.now }
{
    match panel.target {
        QueryTarget::All => true,
        QueryTarget::AllComplete => offer.info.is_none() || is_complete(offer),
        QueryTarget::BestMatching => {
            !panel.complete || (is_complete(offer) && !(found || panel.elsewhere))
        }
    }
}

/// Why the target does not pick an offer.
fn unpicked(target: QueryTarget) -> Reason
    ensures { result ≡ unpicked target }
{
    match target {
        QueryTarget::AllComplete => Reason::Incomplete,
        QueryTarget::All | QueryTarget::BestMatching => Reason::Farther,
    }
}

/// Why an offer that reaches the target is not asked, if it isn't.
fn picked_after(panel: Panel, verdict: &Verdict, offer: &QueryTargetQabl) -> Option<Reason>
    ensures { result ≡ picked_after panel verdict.now offer.now }
{
    if !is_picked(panel, verdict.found, offer) {
        return Some(unpicked(panel.target));
    }
    if verdict.taken.has_face(offer.face) {
        return Some(Reason::Earlier);
    }
    None
}

/// What a face declared on the key of an offer, and was not asked for.
fn missed_at(seen: &Seen, offer: &QueryTargetQabl, reason: Reason) -> Result<Missed, OutOfMemory>
    ensures { IfOk result (λ m. m ≡ missed_at seen.now.owned offer.now reason) }
{
    Ok(Missed {
        face: offer.face,
        key: offer.key.copy(seen.alloc())?,
        ids: seen.ids_on(offer.face, offer.key.as_str())?,
        reason,
    })
}

/// Adds what was not asked, where a declaration stands behind the offer.
fn miss(
    seen: &Seen,
    missed: &mut MissedList,
    offer: &QueryTargetQabl,
    reason: Reason,
) -> Result<(), OutOfMemory>
    ensures { OnOk result (missed.new ≡ with_missed seen.now.owned missed.old offer.now reason) }
{
    if offer.info.is_none() {
        return Ok(());
    }
    missed.push(missed_at(seen, offer, reason)?)
}

/// An offer that reaches the target is missed, or its face is taken.
fn settle(
    seen: &Seen,
    panel: Panel,
    verdict: &mut Verdict,
    offer: &QueryTargetQabl,
) -> Result<(), OutOfMemory>
    ensures { OnOk result (verdict.new ≡ missed_or_taken seen.now.owned verdict.old offer.now (picked_after panel verdict.old offer.now)) }
{
    match picked_after(panel, verdict, offer) {
        Some(reason) => miss(seen, &mut verdict.missed, offer, reason),
        None => verdict.taken.put(offer.face, offer.face),
    }
}

/// Takes note of a complete offer.
fn note_found(verdict: &mut Verdict, offer: &QueryTargetQabl)
    ensures { verdict.new ≡ found_with offer.now verdict.old }
{
    verdict.found = verdict.found || is_complete(offer);
}

/// What comes of an offer that reaches the target.
fn pick(
    seen: &Seen,
    panel: Panel,
    verdict: &mut Verdict,
    offer: &QueryTargetQabl,
) -> Result<(), OutOfMemory>
    ensures { OnOk result (verdict.new ≡ picked seen.now.owned panel verdict.old offer.now) }
{
    settle(seen, panel, verdict, offer)?;
    note_found(verdict, offer);
    Ok(())
}

/// What comes of an offer.
#[tactic(auto, unfolding(crate::specs::Reasons::judged))]
fn judge(
    asked: &Asked<'_>,
    panel: Panel,
    verdict: &mut Verdict,
    offer: &QueryTargetQabl,
) -> Result<(), OutOfMemory>
    ensures { OnOk result (verdict.new ≡ judged asked.now.seen.now.owned panel (asker_of asked.now.asker) verdict.old offer.now) }
{
    match barrier(panel, &asked.asker, offer) {
        Some(reason) => miss(asked.seen, &mut verdict.missed, offer, reason),
        None => pick(asked.seen, panel, verdict, offer),
    }
}

/// What comes of the offers, in order.
fn judge_all(
    asked: &Asked<'_>,
    panel: Panel,
    missed: MissedList,
    offers: &[QueryTargetQabl],
) -> Result<Verdict, OutOfMemory>
    ensures { IfOk result (λ v. v ≡ fold (judged asked.now.seen.now.owned panel (asker_of asked.now.asker)) (first_verdict missed) offers.now) }
{
    let mut verdict = Verdict {
        missed,
        taken: RouteBuilder::new(asked.seen.alloc()),
        found: false,
    };
    for offer in offers {
        judge(asked, panel, &mut verdict, offer)?;
    }
    Ok(verdict)
}

/// Whether a region offers nothing to an asker: one of clients or peers, to its own.
fn offers_nothing(asker: &Asker<'_>, hat: &Hat) -> bool
    ensures { result ≡ offers_nothing (asker_of asker.now) hat.now }
{
    match hat.strategy() {
        Strategy::Broker | Strategy::Router => false,
        Strategy::Client | Strategy::Peer => same_region(asker.opened.region, hat.region()),
    }
}

/// The node from which a region's ways begin: in the asker's own region that of its request, in another
/// the gateway's.
pub fn node_for(asker: &Asker<'_>, hat: &Hat) -> Option<NodeId>
    ensures { result ≡ node_for (asker_of asker.now) hat.now }
{
    if same_region(asker.opened.region, hat.region()) {
        asker.context
    } else {
        Some(DEFAULT_NODE_ID)
    }
}

/// What a region offers to the asker; what it would offer to another, where it offers nothing.
fn candidates(asker: &Asker<'_>, key: &str, hat: &Hat) -> Result<OfferList, OutOfMemory>
    requires { IsTrue (key_of key.now) }
    ensures { IfOk result (λ o. o ≡ candidates (asker_of asker.now) key.now hat.now) }
{
    if offers_nothing(asker, hat) {
        return hat.compute_query_route(&Region::Local, key, None);
    }
    hat.compute_query_route(&asker.opened.region, key, node_for(asker, hat))
}

/// What decides of the offers of a region, before it is known whether one is complete.
fn panel_at(panel: Panel, asker: &Asker<'_>, hat: &Hat) -> Panel
    ensures { result ≡ panel_at panel (asker_of asker.now) hat.now }
{
    Panel {
        denied: panel.denied,
        beside: offers_nothing(asker, hat),
        target: panel.target,
        complete: panel.complete,
        overall: panel.overall,
        nearest: panel.nearest,
        elsewhere: panel.elsewhere,
    }
}

/// Whether an offer that reaches the target is complete.
fn has_best(panel: Panel, asker: &Asker<'_>, offers: &[QueryTargetQabl]) -> bool
    ensures { result ≡ has_best panel (asker_of asker.now) offers.now }
{
    offers.iter().any(|offer| is_best(panel, asker, offer))
}

/// Whether an offer on which the choice falls is complete.
fn is_complete_in(panel: Panel, asker: &Asker<'_>, hat: &Hat, offers: &[QueryTargetQabl]) -> bool
    ensures { result ≡ is_complete_in panel (asker_of asker.now) hat.now offers.now }
{
    if panel.overall {
        return panel.nearest.is_some();
    }
    has_best(panel_at(panel, asker, hat), asker, offers)
}

/// Whether the nearest complete offer of all regions is another region's.
fn is_elsewhere(panel: Panel, hat: &Hat) -> bool
    ensures { result ≡ is_elsewhere panel hat.now }
{
    match panel.nearest {
        Some(region) => !same_region(region, hat.region()),
        None => false,
    }
}

/// What decides of the offers of a region, where this decides of all.
fn panel_of(panel: Panel, asker: &Asker<'_>, hat: &Hat, offers: &[QueryTargetQabl]) -> Panel
    ensures { result ≡ panel_of panel (asker_of asker.now) hat.now offers.now }
{
    let there = panel_at(panel, asker, hat);
    Panel {
        denied: there.denied,
        beside: there.beside,
        target: there.target,
        complete: is_complete_in(panel, asker, hat, offers),
        overall: there.overall,
        nearest: there.nearest,
        elsewhere: is_elsewhere(panel, hat),
    }
}

/// Adds what was not asked of a region.
fn add_hat(
    asked: &Asked<'_>,
    panel: Panel,
    key: &str,
    missed: MissedList,
    hat: &Hat,
) -> Result<MissedList, OutOfMemory>
    requires { IsTrue (key_of key.now) }
    ensures { IfOk result (λ m. m ≡ with_hat asked.now.seen.now.owned panel (asker_of asked.now.asker) key.now missed hat.now) }
{
    let offers = candidates(&asked.asker, key, hat)?;
    let panel = panel_of(panel, &asked.asker, hat, offers.as_slice());
    let verdict = judge_all(asked, panel, missed, offers.as_slice())?;
    Ok(verdict.missed)
}

/// What was not asked of all regions, in the order of their places.
fn missed_in(
    asked: &Asked<'_>,
    panel: Panel,
    key: &str,
    hats: &RegionMap<Hat>,
) -> Result<MissedList, OutOfMemory>
    requires { IsTrue (key_of key.now) }
    ensures { IfOk result (λ m. m ≡ fold (with_hat asked.now.seen.now.owned panel (asker_of asked.now.asker) key.now) [] (values_of hats.now)) }
{
    let mut missed = Items::new(asked.seen.alloc());
    for hat in hats.values() {
        missed = add_hat(asked, panel, key, missed, hat)?;
    }
    Ok(missed)
}

/// Adds the offers of a region that reach the target.
fn add_reaching(
    asker: &Asker<'_>,
    panel: Panel,
    key: &str,
    all: &mut OfferList,
    hat: &Hat,
) -> Result<(), OutOfMemory>
    requires { IsTrue (key_of key.now) }
    ensures { OnOk result (all.new ≡ all.old ++ reaching panel (asker_of asker.now) key.now hat.now) }
{
    let there = panel_at(panel, asker, hat);
    for offer in candidates(asker, key, hat)?.into_vec() {
        if barrier(there, asker, &offer).is_none() {
            all.push(offer)?;
        }
    }
    Ok(())
}

/// The offers of all regions that reach the target.
fn all_reaching(
    alloc: Global,
    asker: &Asker<'_>,
    panel: Panel,
    key: &str,
    hats: &RegionMap<Hat>,
) -> Result<OfferList, OutOfMemory>
    requires { IsTrue (key_of key.now) }
    ensures { IfOk result (λ o. o ≡ flat_map (reaching panel (asker_of asker.now) key.now) (values_of hats.now)) }
{
    let mut all = Items::new(alloc);
    for hat in hats.values() {
        add_reaching(asker, panel, key, &mut all, hat)?;
    }
    Ok(all)
}

fn is_any(_offer: &QueryTargetQabl) -> bool
    ensures { result ≡ true }
{
    true
}

/// The nearest complete offer of all regions, where the choice is over all regions.
#[tactic(auto, using(crate::proofs::Reaching::filter_all))]
fn nearest_in(
    alloc: Global,
    asker: &Asker<'_>,
    panel: Panel,
    key: &str,
    hats: &RegionMap<Hat>,
) -> Result<Option<QueryTargetQabl>, OutOfMemory>
    requires { IsTrue (key_of key.now) }
    ensures { IfOk result (λ o. o ≡ nearest_in hats.now panel (asker_of asker.now) key.now) }
{
    if !panel.overall {
        return Ok(None);
    }
    let offers = all_reaching(alloc, asker, panel, key, hats)?;
    Ok(nearest(alloc, offers, &is_any)?.pop())
}

/// The hat of a region, where it has the face.
fn home(hats: &RegionMap<Hat>, region: Region, face: FaceId) -> Option<&Hat>
    ensures { option_copied result ≡ home hats.now region face.0 }
{
    let hat = hat_at(hats, region)?;
    if hat.has_face(face) { Some(hat) } else { None }
}

/// The router that a node number of the face stands for, and its place; outside regions of routers the
/// face itself, and the first.
fn origin(
    hats: &RegionMap<Hat>,
    region: Region,
    face: FaceId,
    node: NodeId,
) -> (Option<Zid>, Option<NodeId>)
    ensures { result ≡ origin hats.now region face.0 node }
{
    match home(hats, region, face) {
        Some(hat) => (
            hat.remote_node_id_to_zid(face, node),
            hat.map_routing_context(face, node),
        ),
        None => (None, None),
    }
}

/// The asker of a request, if the face is open.
pub fn asker_for<'a>(
    seen: &'a Seen,
    hats: &RegionMap<Hat>,
    own: Zid,
    face: FaceId,
    node: NodeId,
) -> Option<Asker<'a>>
    ensures { option_map asker_of result ≡ asker_for hats.now own seen.now face node }
{
    let opened = *seen.faces().get(&face.0)?;
    let (source, context) = origin(hats, opened.region, face, node);
    Some(Asker {
        faces: seen.faces(),
        tables: seen.lists(),
        own,
        face,
        opened,
        source,
        context,
    })
}

/// Whether the choice is over all regions, and the target makes one.
fn is_overall(best: Best, target: QueryTarget) -> bool
    ensures { result ≡ is_overall best target }
{
    match (best, target) {
        (Best::Overall, QueryTarget::BestMatching) => true,
        (Best::Overall, QueryTarget::All | QueryTarget::AllComplete) => false,
        (Best::ByRegion, _) => false,
    }
}

/// What decides of a request on a key, before a region is looked at.
fn first_panel(seen: &Seen, best: Best, face: FaceId, target: QueryTarget, key: &str) -> Panel
    ensures { result ≡ first_panel seen.now best face target key.now }
{
    Panel {
        denied: seen.denies(face, key),
        beside: false,
        target,
        complete: false,
        overall: is_overall(best, target),
        nearest: None,
        elsewhere: false,
    }
}

/// What decides, where the nearest complete offer of all regions is looked for first.
fn with_nearest(nearest: &Option<QueryTargetQabl>, panel: Panel) -> Panel
    ensures { result ≡ with_nearest nearest.now panel }
{
    Panel {
        denied: panel.denied,
        beside: panel.beside,
        target: panel.target,
        complete: panel.complete,
        overall: panel.overall,
        nearest: match nearest {
            Some(offer) => Some(offer.region),
            None => None,
        },
        elsewhere: panel.elsewhere,
    }
}

/// What came of a request on a key.
fn judged_on(
    asked: &Asked<'_>,
    panel: Panel,
    key: &str,
    hats: &RegionMap<Hat>,
) -> Result<Judgement, OutOfMemory>
    requires { IsTrue (key_of key.now) }
    ensures { IfOk result (λ j. j ≡ judged_on hats.now asked.now.seen.now (asker_of asked.now.asker) panel key.now (nearest_in hats.now panel (asker_of asked.now.asker) key.now)) }
{
    let nearest = nearest_in(asked.seen.alloc(), &asked.asker, panel, key, hats)?;
    let missed = missed_in(asked, with_nearest(&nearest, panel), key, hats)?;
    Ok(Judgement { nearest, missed })
}

/// What came of a call that asks nothing.
pub fn no_judgement(alloc: Global) -> Judgement
    ensures { result ≡ no_judgement }
{
    Judgement {
        nearest: None,
        missed: Items::new(alloc),
    }
}

/// What came of a request on what an expression says.
#[tactic(auto, unfolding(crate::specs::Reasons::judged_said))]
fn judged_said(
    asked: &Asked<'_>,
    hats: &RegionMap<Hat>,
    best: Best,
    target: QueryTarget,
    said: &Resolved,
) -> Result<Judgement, OutOfMemory>
    ensures { IfOk result (λ j. j ≡ judged_said hats.now asked.now.seen.now best (asker_of asked.now.asker) target said.now) }
{
    if !says_key(said) {
        return Ok(no_judgement(asked.seen.alloc()));
    }
    let key = full_text(said);
    let panel = first_panel(asked.seen, best, asked.asker.face, target, key);
    judged_on(asked, panel, key, hats)
}

/// What came of a request: what it chose over all regions, where the choice is over these, and what it was
/// not asked of, of all that was declared on keys that meet its own.
pub fn judged_for(
    seen: &Seen,
    hats: &RegionMap<Hat>,
    config: &Config,
    face: FaceId,
    request: &Request,
) -> Result<Judgement, OutOfMemory>
    ensures { IfOk result (λ j. j ≡ judged_for hats.now config.now seen.now face request.now) }
{
    match asker_for(seen, hats, config.zid(), face, request.node) {
        Some(asker) => {
            let said = seen.said(face, &request.wire)?;
            judged_said(
                &Asked { seen, asker },
                hats,
                config.best(),
                request.target,
                &said,
            )
        }
        None => Ok(no_judgement(seen.alloc())),
    }
}
