//! Offers in order: by distance, key text and face.
ghost use Rattle.std.specs.Prelude.{◌≡◌, ◌<◌, ◌≤◌, ◌-◌, OnOk, length, true, false, slice_index_or};
ghost use Rattle.std.specs.List.{suffix_len};
ghost use Rattle.std.specs.Ordering.{is_lt};
ghost use Rattle.zq_strategy.specs.OfferOrder.{distance, offer_cmp, place};

use crate::offer::QueryTargetQabl;
use std::cmp::Ordering;
use zq_index::text_set::compare_texts;
use zq_key::memory::OutOfMemory;

fn distance(offer: &QueryTargetQabl) -> u16
    ensures { result ≡ distance offer.now }
{
    match &offer.info {
        Some(i) => i.distance,
        None => 65535,
    }
}

/// By distance, key text and face.
fn compare_offers(a: &QueryTargetQabl, b: &QueryTargetQabl) -> Ordering
    ensures { result ≡ offer_cmp a.now b.now }
{
    match distance(a).cmp(&distance(b)) {
        Ordering::Equal => match compare_texts(a.key.as_str(), b.key.as_str()) {
            Ordering::Equal => a.face.0.cmp(&b.face.0),
            Ordering::Less => Ordering::Less,
            Ordering::Greater => Ordering::Greater,
        },
        Ordering::Less => Ordering::Less,
        Ordering::Greater => Ordering::Greater,
    }
}

fn is_before(offer: &QueryTargetQabl, other: &QueryTargetQabl) -> bool
    ensures { result ≡ is_lt (offer_cmp offer.now other.now) }
{
    compare_offers(offer, other) == Ordering::Less
}

/// Whether the offer goes before the last one of the first `at`.
fn goes_before(offers: &[QueryTargetQabl], at: usize, offer: &QueryTargetQabl) -> bool
    requires { at ≤ length offers.now }
    ensures yes { result ≡ true → (0 < at) × ((d : QueryTargetQabl) → is_lt (offer_cmp offer.now (slice_index_or offers.now (at - 1) d)) ≡ true) }
    ensures no { result ≡ false → 0 < at → (d : QueryTargetQabl) → is_lt (offer_cmp offer.now (slice_index_or offers.now (at - 1) d)) ≡ false }
{
    if at == 0 {
        return false;
    }
    is_before(offer, &offers[at - 1])
}

/// Where the offer goes: before the greater ones that end the list.
#[tactic(auto, using(std::proofs::lemmas::List::Sums::suffix_len_is))]
fn gap_for(offers: &[QueryTargetQabl], offer: &QueryTargetQabl) -> usize
    ensures place { result ≡ length offers.now - suffix_len (λ y. is_lt (offer_cmp offer.now y)) offers.now }
    ensures within { result ≤ length offers.now }
{
    let mut at = offers.len();
    while goes_before(offers, at, offer) {
        at -= 1;
    }
    at
}

/// Puts the offer in its place.
pub fn put(offers: &mut Vec<QueryTargetQabl>, offer: QueryTargetQabl) -> Result<(), OutOfMemory>
    ensures ok { OnOk result (offers.new.items ≡ place offer_cmp offers.old.items offer) }
{
    let at = gap_for(offers.as_slice(), &offer);
    offers.insert(at, offer)?;
    Ok(())
}
