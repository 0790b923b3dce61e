//! The offers of a request, by those that are kept, and what becomes of these.
ghost use Rattle.std.specs.Prelude.{◌≡◌, ◌<◌, ◌≤◌, ◌+◌, ◌*◌, ℕ, List, [], length, true, false, IfOk, OnOk, IfSome, None, Some, IsTrue, map, option_copied};
ghost use Rattle.std.specs.List.{All};
ghost use Rattle.std.specs.Map.{values_of};
ghost use Rattle.zq_key.specs.Key.{is_key as key_of};
ghost use Rattle.zq_egress.specs.Askers.{asker_of};
ghost use Rattle.zq_egress.specs.Nearest.{TakesNearest};
ghost use Rattle.zq_machine.specs.Selecting.{parts_for, target_of};
ghost use Rattle.zq_machine.specs.State.{change_hat, hat_at};
ghost use Rattle.zq_message.specs.Region.{HasIndex};
ghost use Rattle.zq_query.specs.Asking.{are_distinct, face_numbers};
ghost use Rattle.zq_route.specs.Selection.{joined, picked, with_offers};
ghost use Rattle.zq_strategy.specs.Offers.{offers_of};
ghost use Rattle.zq_strategy.specs.State.{HatState};
ghost use Rattle.zq_tables.specs.Naming.{has_context as has_context_of};
ghost use Rattle.zq_index.specs.Texts.{at_text};
ghost use Rattle.zq_kept.specs.Current.{AreCurrent, ArePlaced, IsKeptFor, Keeps};
ghost use Rattle.zq_kept.specs.Table.{Fewer, NamedStay, OnlyNamed, route_of};

use crate::asking::Asking;
use crate::fill::{Choice, picked, select};
use crate::table::RouteTable;
use std::alloc::Global;
use zq_dispatcher::hats::is_region;
use zq_key::memory::OutOfMemory;
use zq_key::message::{NodeId, QueryTarget, Region};
use zq_route::selection::Best;
use zq_strategy::types::{OfferList, QueryTargetQabl};
use zq_tables::naming::Naming;

/// The offers that are kept: what each region offers on a text to what a region's node asks.
pub type KeptOffers = RouteTable<OfferList>;

// So many texts are not worth a look at all of them.
pub(crate) const FEW_TEXTS: usize = 64;

/// No offers are kept.
#[tactic(auto, using(crate::proofs::Current::none_current))]
pub fn none_kept(alloc: Global) -> Result<KeptOffers, OutOfMemory>
    ensures { IfOk result (λ t. (hats : List (ℕ × HatState)) → AreCurrent t hats) }
{
    KeptOffers::new(alloc)
}

// The offers of the asker's request on a text that has no routes. Where the names have its node, these are
// stored.
fn offers_first(
    asking: &Asking,
    names: &Naming,
    kept: &mut KeptOffers,
    choice: Choice,
) -> Result<Vec<QueryTargetQabl>, OutOfMemory>
    requires key { IsTrue (key_of asking.now.key.now) }
    requires src { HasIndex asking.now.asker.opened.region }
    requires placed { ArePlaced asking.now.hats.now }
    requires current { AreCurrent kept.old asking.now.hats.now }
    requires absent { at_text asking.now.key.now kept.old.1 ≡ None }
    ensures offers { IfOk result (λ v. v.items ≡ values_of (with_offers [] (picked choice.best choice.target (parts_for (asker_of asking.now.asker) asking.now.key.now (values_of asking.now.hats.now))))) }
    ensures kept { OnOk result (has_context_of asking.now.key.now names.now ≡ true → All (IsKeptFor (asker_of asking.now.asker) asking.now.key.now kept.new) (values_of asking.now.hats.now)) }
    ensures current { AreCurrent kept.new asking.now.hats.now }
    ensures keeps { Keeps kept.old kept.new }
    ensures unnamed { has_context_of asking.now.key.now names.now ≡ false → kept.new ≡ kept.old }
{
    if !names.has_context(asking.key) {
        return select(asking, kept.alloc(), choice);
    }
    kept.fill_first(asking, choice)
}

// The offers of the asker's request, by the routes that its text has. Where they lack a list and the names
// have the text's node, what they lack is stored.
fn offers_chosen(
    asking: &Asking,
    names: &Naming,
    kept: &mut KeptOffers,
    choice: Choice,
) -> Result<Vec<QueryTargetQabl>, OutOfMemory>
    requires key { IsTrue (key_of asking.now.key.now) }
    requires src { HasIndex asking.now.asker.opened.region }
    requires placed { ArePlaced asking.now.hats.now }
    requires current { AreCurrent kept.old asking.now.hats.now }
    ensures offers { IfOk result (λ v. v.items ≡ values_of (with_offers [] (picked choice.best choice.target (parts_for (asker_of asking.now.asker) asking.now.key.now (values_of asking.now.hats.now))))) }
    ensures kept { OnOk result (has_context_of asking.now.key.now names.now ≡ true → All (IsKeptFor (asker_of asking.now.asker) asking.now.key.now kept.new) (values_of asking.now.hats.now)) }
    ensures current { AreCurrent kept.new asking.now.hats.now }
    ensures keeps { Keeps kept.old kept.new }
    ensures unnamed { has_context_of asking.now.key.now names.now ≡ false → kept.new ≡ kept.old }
{
    let alloc = kept.alloc();
    let Some(routes) = kept.of_text(asking.key) else {
        return offers_first(asking, names, kept, choice);
    };
    if let Some(lists) = asking.lists_in(alloc, kept.versions(), routes)? {
        return picked(asking, alloc, lists.as_slice(), choice);
    }
    if !names.has_context(asking.key) {
        return select(asking, alloc, choice);
    }
    kept.fill_beside(asking, choice)
}

/// The offers that the asker's request on a key is handed to under a choice, of each face one. Where the
/// names have the key's node, what regions offer on it is kept from then on; want of memory answers so.
#[tactic(auto, using(zq_machine::proofs::Routes::route_distinct, zq_egress::proofs::Selected::takes_nearest))]
pub fn offers_for(
    asking: &Asking,
    names: &Naming,
    kept: &mut KeptOffers,
    target: QueryTarget,
    best: Best,
) -> Result<Vec<QueryTargetQabl>, OutOfMemory>
    requires key { IsTrue (key_of asking.now.key.now) }
    requires src { HasIndex asking.now.asker.opened.region }
    requires placed { ArePlaced asking.now.hats.now }
    requires current { AreCurrent kept.old asking.now.hats.now }
    ensures offers { IfOk result (λ v. v.items ≡ values_of (with_offers [] (picked best target (parts_for (asker_of asking.now.asker) asking.now.key.now (values_of asking.now.hats.now))))) }
    ensures distinct { IfOk result (λ v. are_distinct (face_numbers (map target_of v.items)) ≡ true) }
    ensures nearest { IfOk result (λ v. TakesNearest best target (joined (parts_for (asker_of asking.now.asker) asking.now.key.now (values_of asking.now.hats.now))) v.items) }
    ensures kept { OnOk result (has_context_of asking.now.key.now names.now ≡ true → All (IsKeptFor (asker_of asking.now.asker) asking.now.key.now kept.new) (values_of asking.now.hats.now)) }
    ensures current { AreCurrent kept.new asking.now.hats.now }
    ensures keeps { Keeps kept.old kept.new }
    ensures unnamed { has_context_of asking.now.key.now names.now ≡ false → kept.new ≡ kept.old }
{
    offers_chosen(asking, names, kept, Choice { target, best })
}

/// No offers of the region are kept any more, whose hat has changed. It takes no memory.
#[tactic(auto, using(crate::proofs::Current::changed_current))]
pub fn let_go(kept: &mut KeptOffers, region: &Region)
    requires { HasIndex region.now }
    ensures current { (hats : List (ℕ × HatState)) (f : HatState → HatState) → AreCurrent kept.old hats → AreCurrent kept.new (change_hat region.now f hats) }
    ensures fewer { Fewer kept.old kept.new }
{
    kept.disable(region);
}

/// What is kept of what a region offers on a key to what a region's node asks. It takes no memory.
pub fn kept_at<'k>(
    kept: &'k KeptOffers,
    destination: &Region,
    asker: &Region,
    node: NodeId,
    key: &str,
) -> Option<&'k OfferList>
    ensures there { HasIndex destination.now → HasIndex asker.now → option_copied result ≡ route_of destination.now key.now asker.now node kept.now }
    ensures value { (hats : List (ℕ × HatState)) → AreCurrent kept.now hats → IfSome result (λ os. (h : HatState) → hat_at destination.now hats ≡ Some h → os.now ≡ offers_of h asker.now key.now (Some node)) }
{
    if !is_region(*destination) {
        return None;
    }
    if !is_region(*asker) {
        return None;
    }
    kept.get(destination, key, asker, node)
}

/// Where as many texts as the limit have lists, or had some, only those whose node the names have stay, and
/// the limit is twice their number and some more from then on. It takes no memory.
#[tactic(auto, using(crate::proofs::Current::swept_current, crate::proofs::Sweeping::swept_fewer, crate::proofs::Sweeping::swept_stay))]
pub fn make_room(kept: &mut KeptOffers, names: &Naming, limit: &mut usize)
    ensures few { length kept.old.1 < limit.old → (kept.new ≡ kept.old) × (limit.new ≡ limit.old) }
    ensures many { limit.old ≤ length kept.old.1 → OnlyNamed kept.old kept.new names.now × limit.new ≤ 2 * length kept.new.1 + 64 }
    ensures room { length kept.new.1 ≤ limit.new }
    ensures current { (hats : List (ℕ × HatState)) → AreCurrent kept.old hats → AreCurrent kept.new hats }
    ensures stay { NamedStay kept.old kept.new names.now }
{
    if kept.len() < *limit {
        return;
    }
    kept.sweep(names);
    *limit = kept.len().saturating_mul(2).saturating_add(FEW_TEXTS);
}
