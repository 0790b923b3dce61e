//! What a region offers for the key of a request.
ghost use Rattle.std.specs.Prelude.{◌≡◌, IfOk, IfSome, OnOk, fold};
ghost use Rattle.std.specs.List.{flat_map};
ghost use Rattle.zq_strategy.specs.Offers.{bare_offers, bare_on, may_have};
ghost use Rattle.zq_strategy.specs.OfferOrder.{offer_cmp, place};

use crate::face::HatFace;
use std::alloc::Global;
use std::collections::BTreeMap;
use zq_key::memory::OutOfMemory;
use zq_key::message::{Bound, FaceId, Region};
use zq_key::text::Text;
use zq_strategy::groups::text_for;
use zq_strategy::order::put;
use zq_strategy::strategy::is_north;
use zq_strategy::types::{QueryTargetQabl, Strategy};

/// Whether the face may have a queryable on the key that it has not declared.
fn may_have(strategy: Strategy, face: &HatFace, q: &str) -> bool
    ensures { result ≡ may_have strategy q.now face.now }
{
    match strategy {
        Strategy::Broker => false,
        Strategy::Client => !face.is_finalized(q),
        Strategy::Peer => match face.remote_bound() {
            Bound::South => !face.is_finalized(q),
            Bound::North => !face.is_initial(),
        },
        Strategy::Router => false,
    }
}

/// One more text of the key, of one that is kept where so many may come.
fn next_text(
    kept: &mut Option<Text>,
    alloc: Global,
    key: &str,
    count: usize,
) -> Result<Text, OutOfMemory>
    requires { IfSome kept.old (λ t. t ≡ key.now) }
    ensures text { IfOk result (λ t. t ≡ key.now) }
    ensures kept { IfSome kept.new (λ t. t ≡ key.now) }
{
    if let Some(text) = kept {
        return text.copy(alloc);
    }
    let text = text_for(alloc, key, count)?;
    if count > 1 {
        *kept = Some(text.copy(alloc)?);
    }
    Ok(text)
}

/// Adds the offers without information of the faces that may have more.
#[tactic(auto, using(zq_strategy::proofs::Folds::fold_joined))]
fn add_bares(
    offers: &mut Vec<QueryTargetQabl>,
    alloc: Global,
    strategy: Strategy,
    region: Region,
    faces: &BTreeMap<u32, HatFace>,
    q: &str,
) -> Result<(), OutOfMemory>
    ensures { OnOk result (offers.new.items ≡ fold (place offer_cmp) offers.old.items (flat_map (bare_on strategy region q.now) faces.now.entries)) }
{
    let mut kept = None;
    for (number, face) in faces {
        if may_have(strategy, face, q) {
            let key = next_text(&mut kept, alloc, q, faces.len())?;
            let bare = QueryTargetQabl {
                face: FaceId(*number),
                info: None,
                key,
                region,
                node: 0,
            };
            put(offers, bare)?;
        }
    }
    Ok(())
}

/// Adds, in North and for south-bound askers, the offers without information.
pub fn add_bare_offers(
    offers: &mut Vec<QueryTargetQabl>,
    alloc: Global,
    strategy: Strategy,
    region: Region,
    src: Region,
    faces: &BTreeMap<u32, HatFace>,
    q: &str,
) -> Result<(), OutOfMemory>
    ensures { OnOk result (offers.new.items ≡ fold (place offer_cmp) offers.old.items (bare_offers strategy region src faces.now.entries q.now)) }
{
    if !is_north(region) || is_north(src) {
        return Ok(());
    }
    add_bares(offers, alloc, strategy, region, faces, q)
}
