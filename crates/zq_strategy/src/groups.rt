//! What faces offer by their declarations on a key: one offer for each face.
ghost use Rattle.std.specs.Prelude.{◌≡◌, ◌∷◌, ℕ, IfOk, OnOk, None, Some, fold, map, IsTrue};
ghost use Rattle.std.specs.Option.{option_to_list};
ghost use Rattle.zq_key.specs.Key.{is_key};
ghost use Rattle.zq_index.specs.Holders.{Holdings};
ghost use Rattle.zq_strategy.specs.OfferOrder.{face_offers, group_offer, groups_from, met_offer, offer_cmp, place};

use crate::offer::QueryTargetQabl;
use crate::order::put;
use crate::walk::KeyOffers;
use std::alloc::Global;
use std::collections::BTreeMap;
use zq_index::holders::{FacePlace, Holders};
use zq_index::info::merge_qabl_infos;
use zq_key::includes;
use zq_key::memory::OutOfMemory;
use zq_key::message::{FaceId, QueryableInfoType, Region};
use zq_key::text::Text;

/// A face's number, and what it declared on a key, merged.
type Group = (u32, QueryableInfoType);

/// The text of a key for so many offers, which share its memory if there are several.
pub fn text_for(alloc: Global, key: &str, count: usize) -> Result<Text, OutOfMemory>
    ensures { IfOk result (λ t. t ≡ key.now) }
{
    let text = Text::new(alloc, key)?;
    if count > 1 {
        text.shared(alloc)
    } else {
        Ok(text)
    }
}

/// The offer of the face for the key.
fn offer_of(region: Region, key: Text, included: bool, group: Group) -> QueryTargetQabl
    ensures { result ≡ met_offer region included key group }
{
    let distance = if matches!(region, Region::Local) {
        0
    } else {
        1
    };
    QueryTargetQabl {
        face: FaceId(group.0),
        info: Some(QueryableInfoType {
            complete: group.1.complete && included,
            distance,
        }),
        key,
        region,
        node: 0,
    }
}

/// Puts the face's offer in its place.
fn put_group(
    offers: &mut Vec<QueryTargetQabl>,
    region: Region,
    key: Text,
    included: bool,
    group: Group,
) -> Result<(), OutOfMemory>
    ensures { OnOk result (offers.new.items ≡ place offer_cmp offers.old.items (met_offer region included key group)) }
{
    put(offers, offer_of(region, key, included, group))
}

/// Merges a declaration into those of its face, or puts the offer of the face before it.
fn next_group(
    offers: &mut Vec<QueryTargetQabl>,
    alloc: Global,
    region: Region,
    key: &Text,
    included: bool,
    group: Option<Group>,
    face: u32,
    info: QueryableInfoType,
) -> Result<Group, OutOfMemory>
    ensures { IfOk result (λ next. (id : ℕ) (rest : Holdings) → fold (place offer_cmp) offers.new.items (map (met_offer region included key.now) (groups_from (Some next) rest)) ≡ fold (place offer_cmp) offers.old.items (map (met_offer region included key.now) (groups_from group (((face, id), info) ∷ rest)))) }
{
    let Some(open) = group else {
        return Ok((face, info));
    };
    if open.0 == face {
        return Ok((open.0, merge_qabl_infos(open.1, info)));
    }
    put_group(offers, region, key.copy(alloc)?, included, open)?;
    Ok((face, info))
}

/// Puts the offer of the last face.
fn last_group(
    offers: &mut Vec<QueryTargetQabl>,
    region: Region,
    key: Text,
    included: bool,
    group: Option<Group>,
) -> Result<(), OutOfMemory>
    ensures { OnOk result (offers.new.items ≡ fold (place offer_cmp) offers.old.items (map (met_offer region included key) (option_to_list group))) }
{
    match group {
        Some(open) => put_group(offers, region, key, included, open),
        None => Ok(()),
    }
}

/// Adds an offer for each face that declared the key.
fn add_groups(
    offers: &mut Vec<QueryTargetQabl>,
    alloc: Global,
    region: Region,
    key: &str,
    infos: &BTreeMap<(u32, u32), QueryableInfoType>,
    q: &str,
) -> Result<(), OutOfMemory>
    requires key { IsTrue (is_key key.now) }
    requires asked { IsTrue (is_key q.now) }
    ensures { OnOk result (offers.new.items ≡ fold (place offer_cmp) offers.old.items (map (group_offer region q.now key.now) (groups_from None infos.now.entries))) }
{
    let included = includes(key, q);
    let text = text_for(alloc, key, infos.len())?;
    let mut group = None;
    for (place, info) in infos {
        group = Some(next_group(
            offers, alloc, region, &text, included, group, place.0, *info,
        )?);
    }
    last_group(offers, region, text, included, group)
}

/// What the faces of a region offer.
#[derive(Drop)]
pub struct FaceOffers {
    /// The allocator of the offers' texts.
    pub alloc: Global,
    /// The region that the faces are of.
    pub region: Region,
}

impl KeyOffers<FacePlace> for FaceOffers {
    ghost met = { λ f q e. face_offers f.region q e };

    fn add(
        &self,
        offers: &mut Vec<QueryTargetQabl>,
        key: &str,
        holders: &Holders<FacePlace>,
        q: &str,
    ) -> Result<(), OutOfMemory> {
        add_groups(offers, self.alloc, self.region, key, holders.infos(), q)
    }
}
