//! Who declared the keys that meet one that is asked for, and who asks for them.
ghost use Rattle.std.specs.Prelude.{◌≡◌, IfOk, IsTrue, OnOk, filter, fold};
ghost use Rattle.std.specs.List.{filter_map};
ghost use Rattle.zq_key.specs.Key.{is_key};
ghost use Rattle.zq_interests.specs.Interests.{interests_of};
ghost use Rattle.zq_hat.specs.Asked.{holder_listings};
ghost use Rattle.zq_hat.specs.Listings.{listed, with_listing};
ghost use Rattle.zq_hat.specs.Sourced.{asked_listing, asked_listings, declared_listings, is_asked, queriers_on, queryables_on, routed_by, routed_listings, sourced_queriers, sourced_queryables};
ghost use Rattle.zq_hat.specs.Tied.{IsTied};

use crate::face::HatFace;
use crate::gathered::Gathered;
use crate::hat::Hat;
use crate::joining::join;
use crate::queryables::{add_routers, face_source, own_behind};
use crate::sources::{Source, SourceList};
use std::alloc::Global;
use std::collections::BTreeMap;
use zq_index::holders::{FacePlace, Holders, KeyHolders};
use zq_interests::interests::Interests;
use zq_interests::types::InterestEntry;
use zq_key::intersects;
use zq_key::items::Items;
use zq_key::memory::OutOfMemory;
use zq_key::message::{FaceId, QueryableInfoType, Zid};
use zq_message::map::RegionMap;
use zq_routers::entries::Entries;
use zq_strategy::met::{Gather, gather_all};
use zq_strategy::types::Strategy;

/// The faces of a region, as those who declared its keys.
#[derive(Drop)]
struct Declarers<'a> {
    alloc: Global,
    strategy: Strategy,
    faces: &'a BTreeMap<u32, HatFace>,
}

impl<'a> Declarers<'a> {
    /// The faces of these places join those on the key, once for each.
    fn add_holders(
        &self,
        all: &mut Gathered,
        key: &str,
        held: &BTreeMap<FacePlace, QueryableInfoType>,
    ) -> Result<(), OutOfMemory>
        ensures { OnOk result (all.new ≡ fold with_listing all.old (holder_listings self.now.strategy self.now.faces.now.entries (key.now, held.now.entries))) }
    {
        for (place, _) in held {
            if let Some(face) = self.faces.get(&place.0) {
                all.add(self.alloc, key, face_source(self.strategy, face))?;
            }
        }
        Ok(())
    }
}

impl<'a> Gather<Holders<FacePlace>, Gathered> for Declarers<'a> {
    ghost gathers = { λ d q was e is. is ≡ fold with_listing was (holder_listings d.strategy d.faces.now.entries e) };

    fn gather(
        &self,
        found: &mut Gathered,
        key: &str,
        held: &Holders<FacePlace>,
        _q: &str,
    ) -> Result<(), OutOfMemory> {
        self.add_holders(found, key, held.infos())
    }
}

/// Who declared those keys of the faces, found by the keys' texts.
fn declared_on(
    alloc: Global,
    strategy: Strategy,
    faces: &BTreeMap<u32, HatFace>,
    index: &KeyHolders<FacePlace>,
    asked: &str,
) -> Result<Gathered, OutOfMemory>
    requires tied { IsTied faces.now.entries index.now }
    requires asked { IsTrue (is_key asked.now) }
    ensures { IfOk result (λ g. g ≡ filter (is_asked asked.now) (listed (declared_listings strategy faces.now.entries))) }
{
    let declarers = Declarers {
        alloc,
        strategy,
        faces,
    };
    let mut all = Gathered::new(alloc);
    gather_all(
        alloc,
        &declarers,
        &mut all,
        index.keys(),
        index.lists(),
        asked,
    )?;
    Ok(all)
}

/// The routers with entries, but for the gateway itself.
#[derive(Drop)]
struct OtherRouters {
    alloc: Global,
    own: Zid,
}

impl Gather<Holders<u128>, Gathered> for OtherRouters {
    ghost gathers = { λ r q was e is. is ≡ fold with_listing was (routed_by r.own e) };

    fn gather(
        &self,
        found: &mut Gathered,
        key: &str,
        held: &Holders<u128>,
        _q: &str,
    ) -> Result<(), OutOfMemory> {
        add_routers(found, self.alloc, self.own, key, held.infos())
    }
}

/// The other routers with an entry on each of those keys.
fn routed_on(
    alloc: Global,
    own: Zid,
    entries: &Entries,
    asked: &str,
) -> Result<Gathered, OutOfMemory>
    requires { IsTrue (is_key asked.now) }
    ensures { IfOk result (λ g. g ≡ filter (is_asked asked.now) (listed (routed_listings own entries.now))) }
{
    let by_key = entries.by_key();
    let mut all = Gathered::new(alloc);
    gather_all(
        alloc,
        &OtherRouters { alloc, own },
        &mut all,
        by_key.keys(),
        by_key.lists(),
        asked,
    )?;
    Ok(all)
}

/// Who declared those keys of the region.
fn region_queryables_on(alloc: Global, hat: &Hat, asked: &str) -> Result<SourceList, OutOfMemory>
    requires { IsTrue (is_key asked.now) }
    ensures { IfOk result (λ l. l ≡ filter (is_asked asked.now) (sourced_queryables hat.now)) }
{
    let found = match hat.strategy() {
        Strategy::Router => routed_on(alloc, hat.own(), hat.entries(), asked)?,
        strategy => declared_on(alloc, strategy, hat.faces(), hat.declared_by_key(), asked)?,
    };
    found.into_list(alloc)
}

/// Who declared each key that meets the one that is asked for: of `all_queryables` what is on those keys.
/// Keys of which the first bytes show that they do not meet it are passed over by one search.
pub fn queryables_on(
    alloc: Global,
    hats: &RegionMap<Hat>,
    own: Source,
    asked: &str,
) -> Result<SourceList, OutOfMemory>
    requires { IsTrue (is_key asked.now) }
    ensures { IfOk result (λ l. l ≡ queryables_on asked.now own hats.now) }
{
    let mut all = Gathered::new(alloc);
    for (_, hat) in hats.iter() {
        let declared = region_queryables_on(alloc, hat, asked)?;
        join(&mut all, alloc, own_behind(own, hat), declared)?;
    }
    all.into_list(alloc)
}

/// The key that is asked for, as that which interests have to meet.
#[derive(Drop)]
struct Asked<'a> {
    alloc: Global,
    key: &'a str,
}

impl<'a> Asked<'a> {
    /// Who asks for those of these keys joins those on them, once for each interest.
    fn add_asked(
        &self,
        all: &mut Gathered,
        interests: &BTreeMap<u32, InterestEntry>,
        source: Source,
    ) -> Result<(), OutOfMemory>
        requires { IsTrue (is_key self.now.key.now) }
        ensures { OnOk result (all.new ≡ fold with_listing all.old (filter (is_asked self.now.key.now) (filter_map (asked_listing source) interests.now.entries))) }
    {
        for (_, interest) in interests {
            if let Some(key) = &interest.key
                && intersects(self.key, key.as_str())
            {
                all.add(self.alloc, key.as_str(), source)?;
            }
        }
        Ok(())
    }

    /// The face joins those on each of those keys that it asks for.
    fn add_interests(
        &self,
        all: &mut Gathered,
        interests: &Interests,
        face: FaceId,
        source: Source,
    ) -> Result<(), OutOfMemory>
        requires { IsTrue (is_key self.now.key.now) }
        ensures { OnOk result (all.new ≡ fold with_listing all.old (filter (is_asked self.now.key.now) (filter_map (asked_listing source) (interests_of face.0 interests.now)))) }
    {
        match interests.asked_by(face) {
            Some(asked) => self.add_asked(all, asked, source),
            None => Ok(()),
        }
    }

    /// Which of the faces ask for each of those keys.
    fn faces_queriers(
        &self,
        strategy: Strategy,
        interests: &Interests,
        faces: &BTreeMap<u32, HatFace>,
    ) -> Result<Gathered, OutOfMemory>
        requires { IsTrue (is_key self.now.key.now) }
        ensures { IfOk result (λ g. g ≡ filter (is_asked self.now.key.now) (listed (asked_listings strategy interests.now faces.now.entries))) }
    {
        let mut all = Gathered::new(self.alloc);
        for (number, face) in faces {
            let source = face_source(strategy, face);
            self.add_interests(&mut all, interests, FaceId(*number), source)?;
        }
        Ok(all)
    }

    /// Who asks for those keys of the region.
    fn region_queriers(&self, hat: &Hat, interests: &Interests) -> Result<SourceList, OutOfMemory>
        requires { IsTrue (is_key self.now.key.now) }
        ensures { IfOk result (λ l. l ≡ filter (is_asked self.now.key.now) (sourced_queriers interests.now hat.now)) }
    {
        let strategy = hat.strategy();
        match strategy {
            Strategy::Broker | Strategy::Peer => self
                .faces_queriers(strategy, interests, hat.faces())?
                .into_list(self.alloc),
            Strategy::Client | Strategy::Router => Ok(Items::new(self.alloc)),
        }
    }
}

/// Who asks for each key that meets the one that is asked for: of `all_queriers` what is on those keys.
pub fn queriers_on(
    alloc: Global,
    hats: &RegionMap<Hat>,
    interests: &Interests,
    asked: &str,
) -> Result<SourceList, OutOfMemory>
    requires { IsTrue (is_key asked.now) }
    ensures { IfOk result (λ l. l ≡ queriers_on asked.now interests.now hats.now) }
{
    let wanted = Asked { alloc, key: asked };
    let mut all = Gathered::new(alloc);
    for (_, hat) in hats.iter() {
        let found = wanted.region_queriers(hat, interests)?;
        join(&mut all, alloc, None, found)?;
    }
    all.into_list(alloc)
}
