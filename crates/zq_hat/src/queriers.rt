//! Who asks for each key, of a region and of all.
ghost use Rattle.std.specs.Prelude.{◌≡◌, IfOk, OnOk, fold};
ghost use Rattle.std.specs.List.{filter_map};
ghost use Rattle.zq_interests.specs.Interests.{interests_of};
ghost use Rattle.zq_hat.specs.Listings.{listed, with_listing};
ghost use Rattle.zq_hat.specs.Sourced.{all_queriers, asked_listing, asked_listings, sourced_queriers};

use crate::face::HatFace;
use crate::gathered::Gathered;
use crate::hat::Hat;
use crate::joining::join;
use crate::queryables::face_source;
use crate::sources::{Source, SourceList};
use std::alloc::Global;
use std::collections::BTreeMap;
use zq_interests::interests::Interests;
use zq_interests::types::InterestEntry;
use zq_key::items::Items;
use zq_key::memory::OutOfMemory;
use zq_key::message::FaceId;
use zq_message::map::RegionMap;
use zq_strategy::types::Strategy;

/// Who asks for these keys joins those on them, once for each interest.
fn add_asked(
    all: &mut Gathered,
    alloc: Global,
    asked: &BTreeMap<u32, InterestEntry>,
    source: Source,
) -> Result<(), OutOfMemory>
    ensures { OnOk result (all.new ≡ fold with_listing all.old (filter_map (asked_listing source) asked.now.entries)) }
{
    for (_, interest) in asked {
        if let Some(key) = &interest.key {
            all.add(alloc, key.as_str(), source)?;
        }
    }
    Ok(())
}

/// The face joins those on each key that it asks for.
fn add_interests(
    all: &mut Gathered,
    alloc: Global,
    interests: &Interests,
    face: FaceId,
    source: Source,
) -> Result<(), OutOfMemory>
    ensures { OnOk result (all.new ≡ fold with_listing all.old (filter_map (asked_listing source) (interests_of face.0 interests.now))) }
{
    match interests.asked_by(face) {
        Some(asked) => add_asked(all, alloc, asked, source),
        None => Ok(()),
    }
}

/// Which of the faces ask for each key.
fn faces_queriers(
    alloc: Global,
    strategy: Strategy,
    interests: &Interests,
    faces: &BTreeMap<u32, HatFace>,
) -> Result<Gathered, OutOfMemory>
    ensures { IfOk result (λ g. g ≡ listed (asked_listings strategy interests.now faces.now.entries)) }
{
    let mut all = Gathered::new(alloc);
    for (number, face) in faces {
        let source = face_source(strategy, face);
        add_interests(&mut all, alloc, interests, FaceId(*number), source)?;
    }
    Ok(all)
}

/// Who asks for each key of the region, by text: the ids of the faces with an interest in it, by face
/// and id, once for each interest, under clients in a broker's region and under peers in one of peers;
/// other regions have none. (`HatQueriesTrait::sourced_queriers`)
pub fn sourced_queriers(
    alloc: Global,
    hat: &Hat,
    interests: &Interests,
) -> Result<SourceList, OutOfMemory>
    ensures { IfOk result (λ l. l ≡ sourced_queriers interests.now hat.now) }
{
    let strategy = hat.strategy();
    match strategy {
        Strategy::Broker | Strategy::Peer => {
            faces_queriers(alloc, strategy, interests, hat.faces())?.into_list(alloc)
        }
        Strategy::Client | Strategy::Router => Ok(Items::new(alloc)),
    }
}

/// Who asks for each key, by text: what each region has, in the order of their places.
/// (`Tables::sourced_queriers`)
pub fn all_queriers(
    alloc: Global,
    hats: &RegionMap<Hat>,
    interests: &Interests,
) -> Result<SourceList, OutOfMemory>
    ensures { IfOk result (λ l. l ≡ all_queriers interests.now hats.now) }
{
    let mut all = Gathered::new(alloc);
    for (_, hat) in hats.iter() {
        let asked = sourced_queriers(alloc, hat, interests)?;
        join(&mut all, alloc, None, asked)?;
    }
    all.into_list(alloc)
}
