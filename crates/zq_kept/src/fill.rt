//! The offers of a request for which a list of some region is not kept yet: what its text's routes lack is
//! computed once, stored and picked from.
ghost use Rattle.std.specs.Prelude.{◌≡◌, [], IfOk, IsTrue, None, OnOk, is_some, length, map, true};
ghost use Rattle.std.specs.List.{All};
ghost use Rattle.std.specs.Map.{values_of};
ghost use Rattle.zq_key.specs.Key.{is_key as key_of};
ghost use Rattle.zq_egress.specs.Askers.{asker_of};
ghost use Rattle.zq_index.specs.Texts.{at_text, texts_of};
ghost use Rattle.zq_machine.specs.Selecting.{offers_to, parts_for};
ghost use Rattle.zq_message.specs.Region.{HasIndex};
ghost use Rattle.zq_route.specs.Selection.{picked, with_offers};
ghost use Rattle.zq_kept.specs.Current.{AreCurrent, ArePlaced, IsKeptFor, Keeps};
ghost use Rattle.zq_kept.specs.Picked.{lists_of};
ghost use Rattle.zq_kept.specs.Table.{IsTable, OtherTexts, one_text};

use crate::asking::Asking;
use crate::pick::route;
use crate::text::TextRoutes;
use std::alloc::Global;
use std::collections::BTreeMap;
use zq_key::memory::OutOfMemory;
use zq_key::message::QueryTarget;
use zq_route::RoutesVersion;
use zq_route::selection::Best;
use zq_strategy::types::{OfferList, QueryTargetQabl};
use zq_tables::RegionMap;

/// What a request asks of its offers.
#[derive(Clone, Copy)]
pub(crate) struct Choice {
    pub(crate) target: QueryTarget,
    pub(crate) best: Best,
}

/// The offers that the asker's request is handed to under a choice of what the regions offer.
#[tactic(auto, using(zq_egress::proofs::Selected::parts_of))]
pub(crate) fn picked(
    asking: &Asking,
    alloc: Global,
    lists: &[&OfferList],
    choice: Choice,
) -> Result<Vec<QueryTargetQabl>, OutOfMemory>
    requires { lists_of lists.now ≡ map (offers_to (asker_of asking.now.asker) asking.now.key.now) (values_of asking.now.hats.now) }
    ensures { IfOk result (λ v. v.items ≡ values_of (with_offers [] (picked choice.best choice.target (parts_for (asker_of asking.now.asker) asking.now.key.now (values_of asking.now.hats.now))))) }
{
    Ok(route(&asking.asker, alloc, lists, choice.target, choice.best)?.build())
}

/// The offers that the asker's request is handed to under a choice of what the regions offer now.
pub(crate) fn select(
    asking: &Asking,
    alloc: Global,
    choice: Choice,
) -> Result<Vec<QueryTargetQabl>, OutOfMemory>
    requires { IsTrue (key_of asking.now.key.now) }
    ensures { IfOk result (λ v. v.items ≡ values_of (with_offers [] (picked choice.best choice.target (parts_for (asker_of asking.now.asker) asking.now.key.now (values_of asking.now.hats.now))))) }
{
    asking
        .asker
        .select(alloc, asking.hats, asking.key, choice.target, choice.best)
}

// What each region offers the asker is kept in the text's routes, and the offers of its request are picked.
fn fill(
    asking: &Asking,
    alloc: Global,
    versions: &[RoutesVersion],
    routes: &mut TextRoutes<OfferList>,
    choice: Choice,
) -> Result<Vec<QueryTargetQabl>, OutOfMemory>
    requires key { IsTrue (key_of asking.now.key.now) }
    requires src { HasIndex asking.now.asker.opened.region }
    requires placed { ArePlaced asking.now.hats.now }
    requires table { IsTable (one_text versions.now asking.now.key.now routes.old) }
    requires current { AreCurrent (one_text versions.now asking.now.key.now routes.old) asking.now.hats.now }
    ensures offers { IfOk result (λ v. v.items ≡ values_of (with_offers [] (picked choice.best choice.target (parts_for (asker_of asking.now.asker) asking.now.key.now (values_of asking.now.hats.now))))) }
    ensures kept { OnOk result (All (IsKeptFor (asker_of asking.now.asker) asking.now.key.now (one_text versions.now asking.now.key.now routes.new)) (values_of asking.now.hats.now)) }
    ensures table { IsTable (one_text versions.now asking.now.key.now routes.new) }
    ensures current { AreCurrent (one_text versions.now asking.now.key.now routes.new) asking.now.hats.now }
    ensures keeps { Keeps (one_text versions.now asking.now.key.now routes.old) (one_text versions.now asking.now.key.now routes.new) }
{
    asking.keep_routes(alloc, versions, routes)?;
    match asking.lists_in(alloc, versions, routes)? {
        Some(lists) => picked(asking, alloc, lists.as_slice(), choice),
        None => select(asking, alloc, choice),
    }
}

/// The offers of the asker's request on a text that has routes, once what these lack is stored.
#[tactic(auto, using(zq_index::proofs::Texts::text_lookup))]
pub(crate) fn fill_beside(
    asking: &Asking,
    alloc: Global,
    versions: &[RoutesVersion],
    texts: &mut BTreeMap<String, TextRoutes<OfferList>>,
    choice: Choice,
) -> Result<Vec<QueryTargetQabl>, OutOfMemory>
    requires key { IsTrue (key_of asking.now.key.now) }
    requires src { HasIndex asking.now.asker.opened.region }
    requires placed { ArePlaced asking.now.hats.now }
    requires table { IsTable (versions.now, texts_of texts.old.entries) }
    requires current { AreCurrent (versions.now, texts_of texts.old.entries) asking.now.hats.now }
    requires there { is_some (at_text asking.now.key.now (texts_of texts.old.entries)) ≡ true }
    ensures offers { IfOk result (λ v. v.items ≡ values_of (with_offers [] (picked choice.best choice.target (parts_for (asker_of asking.now.asker) asking.now.key.now (values_of asking.now.hats.now))))) }
    ensures kept { OnOk result (All (IsKeptFor (asker_of asking.now.asker) asking.now.key.now (versions.now, texts_of texts.new.entries)) (values_of asking.now.hats.now)) }
    ensures table { IsTable (versions.now, texts_of texts.new.entries) }
    ensures current { AreCurrent (versions.now, texts_of texts.new.entries) asking.now.hats.now }
    ensures keeps { Keeps (versions.now, texts_of texts.old.entries) (versions.now, texts_of texts.new.entries) }
    ensures others { OtherTexts (versions.now, texts_of texts.old.entries) (versions.now, texts_of texts.new.entries) asking.now.key.now }
{
    match texts.get_mut(asking.key) {
        Some(routes) => fill(asking, alloc, versions, routes, choice),
        None => unreachable!(),
    }
}

/// The offers of the asker's request on a text that has no routes, once these are stored.
pub(crate) fn fill_first(
    asking: &Asking,
    alloc: Global,
    versions: &[RoutesVersion],
    texts: &mut BTreeMap<String, TextRoutes<OfferList>>,
    choice: Choice,
) -> Result<Vec<QueryTargetQabl>, OutOfMemory>
    requires key { IsTrue (key_of asking.now.key.now) }
    requires src { HasIndex asking.now.asker.opened.region }
    requires placed { ArePlaced asking.now.hats.now }
    requires table { IsTable (versions.now, texts_of texts.old.entries) }
    requires current { AreCurrent (versions.now, texts_of texts.old.entries) asking.now.hats.now }
    requires absent { at_text asking.now.key.now (texts_of texts.old.entries) ≡ None }
    ensures offers { IfOk result (λ v. v.items ≡ values_of (with_offers [] (picked choice.best choice.target (parts_for (asker_of asking.now.asker) asking.now.key.now (values_of asking.now.hats.now))))) }
    ensures kept { OnOk result (All (IsKeptFor (asker_of asking.now.asker) asking.now.key.now (versions.now, texts_of texts.new.entries)) (values_of asking.now.hats.now)) }
    ensures table { IsTable (versions.now, texts_of texts.new.entries) }
    ensures current { AreCurrent (versions.now, texts_of texts.new.entries) asking.now.hats.now }
    ensures keeps { Keeps (versions.now, texts_of texts.old.entries) (versions.now, texts_of texts.new.entries) }
    ensures others { OtherTexts (versions.now, texts_of texts.old.entries) (versions.now, texts_of texts.new.entries) asking.now.key.now }
{
    let text = String::from_str(alloc, asking.key)?;
    let mut routes = RegionMap::new(alloc);
    let offers = fill(asking, alloc, versions, &mut routes, choice)?;
    match texts.insert(text, routes) {
        Ok(_) => Ok(offers),
        Err(_) => Err(OutOfMemory),
    }
}
