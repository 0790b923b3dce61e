//! The keys of declarations, and what these would say on a key, merged, after a change.
ghost use Rattle.std.specs.Prelude.{◌≡◌, None, OnOk, false, filter, fold, map, string_bytes};
ghost use Rattle.std.specs.BTreeSet.{insert_key};
ghost use Rattle.std.specs.Map.{keys_of};
ghost use Rattle.std.specs.Option.{option_map_or};
ghost use Rattle.zq_index.specs.Texts.{text_cmp};
ghost use Rattle.zq_index.specs.Holders.{held_at, with_held};
ghost use Rattle.zq_strategy.specs.Merges.{is_leaving, is_left_in, is_other};

use std::alloc::Global;
use std::collections::BTreeSet;
use zq_index::holders::{FacePlace, KeyHolders, Place, PlaceTest};
use zq_index::text_set::put_text;
use zq_key::memory::OutOfMemory;
use zq_key::message::{FaceId, QueryableInfoType};

/// What is left out of the declarations of a face: that of an id, or all.
#[derive(Clone, Copy)]
pub struct Leaving {
    /// The face of the declarations.
    pub face: FaceId,
    /// The id of the one that is left out; with none all are.
    pub id: Option<u32>,
}

/// The places that a merge leaves in.
#[derive(Drop)]
struct LeftIn {
    but: Option<FaceId>,
    leaving: Option<Leaving>,
}

impl PlaceTest<FacePlace> for LeftIn {
    ghost passes = { λ t place. is_left_in t.but t.leaving place };

    fn is_passed(&self, place: FacePlace) -> bool {
        is_other(self.but, FaceId(place.0)) && !is_leaving(self.leaving, place)
    }
}

/// Whether it is not the face that is left out.
pub fn is_other(but: Option<FaceId>, face: FaceId) -> bool
    ensures { result ≡ is_other but face.0 }
{
    match but {
        Some(left) => left.0 != face.0,
        None => true,
    }
}

/// Whether the place is of what goes.
fn is_leaving(leaving: Option<Leaving>, place: FacePlace) -> bool
    ensures { result ≡ option_map_or (λ l. is_leaving l place) leaving false }
{
    let Some(leaving) = leaving else {
        return false;
    };
    if leaving.face.0 != place.0 {
        return false;
    }
    match leaving.id {
        Some(id) => id == place.1,
        None => true,
    }
}

/// The keys join the texts.
#[tactic(auto, using(crate::proofs::KeysAdded::text_keys))]
pub fn add_texts<P: Place>(
    texts: &mut BTreeSet<String>,
    alloc: Global,
    index: &KeyHolders<P>,
) -> Result<(), OutOfMemory>
    ensures { OnOk result (map string_bytes texts.new.keys ≡ fold (insert_key text_cmp) (map string_bytes texts.old.keys) (keys_of index.now)) }
{
    for (key, _) in index.keys() {
        put_text(texts, alloc, key.as_str())?;
    }
    Ok(())
}

/// What the declarations on the key would say, merged, but for those of a face and for what goes.
pub fn merged_but(
    index: &KeyHolders<FacePlace>,
    but: Option<FaceId>,
    leaving: Option<Leaving>,
    key: &str,
) -> Option<QueryableInfoType>
    ensures { result ≡ fold with_held None (filter (λ h. is_left_in but leaving h.0) (held_at key.now index.now)) }
{
    match index.get(key) {
        Some(holders) => holders.merged_of(&LeftIn { but, leaving }),
        None => None,
    }
}
