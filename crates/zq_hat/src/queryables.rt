//! Who declared each key, of a region and of all.
ghost use Rattle.std.specs.Prelude.{◌≡◌, IfOk, OnOk, fold, map};
ghost use Rattle.zq_hat.specs.Listings.{listed, with_listing};
ghost use Rattle.zq_hat.specs.Sourced.{all_queryables, declaration_listing, declared_listings, face_source, own_behind, routed_by, routed_listings, source_mode, sourced_queryables};

use crate::face::HatFace;
use crate::gathered::Gathered;
use crate::hat::Hat;
use crate::joining::join;
use crate::sources::{Source, SourceList};
use std::alloc::Global;
use std::collections::BTreeMap;
use zq_key::memory::OutOfMemory;
use zq_key::message::{Mode, QueryableInfoType, Region, Zid};
use zq_message::map::RegionMap;
use zq_routers::entries::Entries;
use zq_strategy::types::{Declaration, Strategy};

/// The mode under which a face of a region counts: in a client region its own.
pub(crate) fn source_mode(strategy: Strategy, mode: Mode) -> Mode
    ensures { result ≡ source_mode strategy mode }
{
    match strategy {
        Strategy::Broker => Mode::Client,
        Strategy::Client => mode,
        Strategy::Peer => Mode::Peer,
        Strategy::Router => Mode::Router,
    }
}

/// The face, as one who declares and asks.
pub(crate) fn face_source(strategy: Strategy, face: &HatFace) -> Source
    ensures { result ≡ face_source strategy face.now }
{
    Source {
        zid: face.zid(),
        mode: source_mode(strategy, face.mode()),
    }
}

/// Who declared these joins those on their keys, once for each.
fn add_declared(
    all: &mut Gathered,
    alloc: Global,
    declared: &BTreeMap<u32, Declaration>,
    source: Source,
) -> Result<(), OutOfMemory>
    ensures { OnOk result (all.new ≡ fold with_listing all.old (map (declaration_listing source) declared.now.entries)) }
{
    for (_, declaration) in declared {
        all.add(alloc, declaration.key.as_str(), source)?;
    }
    Ok(())
}

/// Who declared each key of the faces.
fn faces_queryables(
    alloc: Global,
    strategy: Strategy,
    faces: &BTreeMap<u32, HatFace>,
) -> Result<Gathered, OutOfMemory>
    ensures { IfOk result (λ g. g ≡ listed (declared_listings strategy faces.now.entries)) }
{
    let mut all = Gathered::new(alloc);
    for (_, face) in faces {
        add_declared(
            &mut all,
            alloc,
            face.declared(),
            face_source(strategy, face),
        )?;
    }
    Ok(all)
}

/// The routers with these entries on the key join those on it, but for the gateway itself.
pub(crate) fn add_routers(
    all: &mut Gathered,
    alloc: Global,
    own: Zid,
    key: &str,
    routed: &BTreeMap<u128, QueryableInfoType>,
) -> Result<(), OutOfMemory>
    ensures { OnOk result (all.new ≡ fold with_listing all.old (routed_by own (key.now, routed.now.entries))) }
{
    for (router, _) in routed {
        if *router != own.0 {
            let source = Source {
                zid: Zid(*router),
                mode: Mode::Router,
            };
            all.add(alloc, key, source)?;
        }
    }
    Ok(())
}

/// The other routers with an entry on each key.
fn routers_queryables(alloc: Global, own: Zid, entries: &Entries) -> Result<Gathered, OutOfMemory>
    ensures { IfOk result (λ g. g ≡ listed (routed_listings own entries.now)) }
{
    let mut all = Gathered::new(alloc);
    for (key, routed) in entries.by_key().keys() {
        add_routers(&mut all, alloc, own, key.as_str(), routed.infos())?;
    }
    Ok(all)
}

/// Who declared each key of the region, as gathered.
fn gather_queryables(alloc: Global, hat: &Hat) -> Result<Gathered, OutOfMemory>
    ensures { IfOk result (λ g. g ≡ sourced_queryables hat.now) }
{
    match hat.strategy() {
        Strategy::Router => routers_queryables(alloc, hat.own(), hat.entries()),
        strategy => faces_queryables(alloc, strategy, hat.faces()),
    }
}

/// Who declared each key of the region, by text: the ids of the faces, by face and id, once for each
/// declaration, under clients in a broker's region, under peers in one of peers, and under the face's
/// mode in one of clients; in a region of routers the ids of the other routers with an entry on it.
/// (`HatQueriesTrait::sourced_queryables`)
pub fn sourced_queryables(alloc: Global, hat: &Hat) -> Result<SourceList, OutOfMemory>
    ensures { IfOk result (λ l. l ≡ sourced_queryables hat.now) }
{
    gather_queryables(alloc, hat)?.into_list(alloc)
}

/// The gateway itself, where it counts behind what the region has: not in North.
pub(crate) fn own_behind(own: Source, hat: &Hat) -> Option<Source>
    ensures { result ≡ own_behind own hat.now }
{
    match hat.region() {
        Region::North => None,
        Region::Local | Region::South { .. } => Some(own),
    }
}

/// Who declared each key, by text: what each region has, in the order of their places, and behind each
/// south-bound region that has the key the gateway itself, under the mode of North.
/// (`Tables::sourced_queryables`)
pub fn all_queryables(
    alloc: Global,
    hats: &RegionMap<Hat>,
    own: Source,
) -> Result<SourceList, OutOfMemory>
    ensures { IfOk result (λ l. l ≡ all_queryables own hats.now) }
{
    let mut all = Gathered::new(alloc);
    for (_, hat) in hats.iter() {
        let declared = sourced_queryables(alloc, hat)?;
        join(&mut all, alloc, own_behind(own, hat), declared)?;
    }
    all.into_list(alloc)
}
