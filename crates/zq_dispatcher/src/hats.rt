//! The hats of the regions.
#![tactic(auto, using(crate::proofs::Seats::seated_region, crate::proofs::Seats::hat_region))]

ghost use Rattle.std.specs.Prelude.{◌≡◌, true, false, Some, None, IfOk, OnOk, OnErr, IsErrOf, ◌↔◌, option_copied, is_none};
ghost use Rattle.std.specs.Option.{is_some, option_and_then, option_map_or};
ghost use Rattle.zq_strategy.specs.Kept.{declaration_at, has_face, is_full, registered, unregistered, without_face};
ghost use Rattle.zq_strategy.specs.Marks.{finalized};
ghost use Rattle.zq_strategy.specs.Routers.{announced, context_at, networked, noded, retracted, source_at};
ghost use Rattle.zq_strategy.specs.State.{HatState};
ghost use Rattle.zq_strategy.specs.Entries.{staying, without_routers};
ghost use Rattle.zq_strategy.specs.Nets.{is_listed};
ghost use Rattle.zq_message.specs.RegionMap.{with_entry};
ghost use Rattle.zq_machine.specs.Configs.{region_of};
ghost use Rattle.zq_machine.specs.State.{first_hats, with_hat, change_hat, clashes_in, has_declared_in, hat_at, is_region, is_routing, joined};
ghost use Rattle.zq_dispatcher.specs.Seats.{seats};

use std::alloc::Global;
use zq_hat::hat::Hat;
use zq_key::Key;
use zq_key::memory::OutOfMemory;
use zq_key::message::{FaceId, NodeId, QueryableInfoType, Region, Zid};
use zq_machine::config::{Config, Entry, SOUTH_IDS};
use zq_route::gateways::Gateways;
use zq_strategy::nets::IndexedNetwork;
use zq_strategy::types::{FaceRecord, FinalMark, HatRefusal, NodeIds, Strategy};
use zq_tables::RegionMap;

/// Whether a region of this id can be.
pub fn is_region(region: Region) -> bool
    ensures { result ≡ is_region region }
{
    match region {
        Region::North => true,
        Region::Local => true,
        Region::South { id, mode: _ } => id <= SOUTH_IDS,
    }
}

/// The hat of a region.
pub fn hat_at(hats: &RegionMap<Hat>, region: Region) -> Option<&Hat>
    ensures { option_copied result ≡ hat_at region hats.now }
{
    if !is_region(region) {
        return None;
    }
    hats.get(&region)
}

/// Whether the hat's region is one of routers.
pub fn is_routing(hat: &Hat) -> bool
    ensures { result ≡ is_routing hat.now }
{
    match hat.strategy() {
        Strategy::Broker | Strategy::Client | Strategy::Peer => false,
        Strategy::Router => true,
    }
}

/// The hat of a face's region, which has the face.
pub fn home(hats: &RegionMap<Hat>, region: Region, face: FaceId) -> &Hat
    requires { seats region face.0 hats.now ≡ Some true }
    ensures hat { hat_at region hats.now ≡ Some result.now }
    ensures face { has_face face.0 result.now ≡ true }
{
    match hats.get(&region) {
        Some(hat) => hat,
        None => unreachable!(),
    }
}

/// The router that a node number of the region's face stands for; outside regions of routers the face
/// itself.
pub fn router_by(hats: &RegionMap<Hat>, region: Region, face: FaceId, node: NodeId) -> Option<Zid>
    requires { seats region face.0 hats.now ≡ Some true }
    ensures { result ≡ option_and_then (source_at face.0 node) (hat_at region hats.now) }
{
    match hats.get(&region) {
        Some(hat) => hat.remote_node_id_to_zid(face, node),
        None => unreachable!(),
    }
}

/// The place of that router in the network of the region; outside regions of routers the first.
pub fn place_by(hats: &RegionMap<Hat>, region: Region, face: FaceId, node: NodeId) -> Option<NodeId>
    requires { seats region face.0 hats.now ≡ Some true }
    ensures { result ≡ option_and_then (context_at face.0 node) (hat_at region hats.now) }
{
    match hats.get(&region) {
        Some(hat) => hat.map_routing_context(face, node),
        None => unreachable!(),
    }
}

/// Whether the region takes no further face.
pub fn is_full(hats: &RegionMap<Hat>, region: Region) -> bool
    ensures { result ≡ option_map_or is_full (hat_at region hats.now) false }
{
    match hat_at(hats, region) {
        Some(hat) => hat.is_full(),
        None => false,
    }
}

/// A face joins its region's hat, which lacks it.
pub fn join(hats: &mut RegionMap<Hat>, region: Region, face: FaceRecord) -> Result<(), OutOfMemory>
    requires { seats region face.face.0 hats.old ≡ Some false }
    ensures ok { OnOk result (hats.new ≡ change_hat region (joined face) hats.old) }
    ensures err { OnErr result (hats.new ≡ hats.old) }
{
    match hats.get_mut(&region) {
        Some(hat) => hat.new_face(face),
        None => unreachable!(),
    }
}

/// A face leaves its region's hat. It takes no memory.
pub fn leave(hats: &mut RegionMap<Hat>, region: Region, face: FaceId)
    requires { seats region face.0 hats.old ≡ Some true }
    ensures { hats.new ≡ change_hat region (without_face face.0) hats.old }
{
    match hats.get_mut(&region) {
        Some(hat) => hat.forget_face(face),
        None => unreachable!(),
    }
}

/// A face declares a queryable. Refused where the id stands for another key.
pub fn register(
    hats: &mut RegionMap<Hat>,
    region: Region,
    face: FaceId,
    id: u32,
    key: &Key,
    node: u16,
    info: QueryableInfoType,
) -> Result<(), HatRefusal>
    requires { seats region face.0 hats.old ≡ Some true }
    ensures in_use { IsErrOf result HatRefusal.IdInUse ↔ (clashes_in face.0 id key.now (hat_at region hats.old) ≡ true) }
    ensures known { IsErrOf result HatRefusal.UnknownId → ⊥ }
    ensures ok { OnOk result (hats.new ≡ change_hat region (registered face.0 id key.now node info) hats.old) }
    ensures err { OnErr result (hats.new ≡ hats.old) }
{
    match hats.get_mut(&region) {
        Some(hat) => hat.register_queryable(face, id, key, node, info),
        None => unreachable!(),
    }
}

/// A face withdraws a queryable. Refused where the id isn't declared.
pub fn withdraw(
    hats: &mut RegionMap<Hat>,
    region: Region,
    face: FaceId,
    id: u32,
    node: u16,
) -> Result<(), HatRefusal>
    requires { seats region face.0 hats.old ≡ Some true }
    ensures unknown { IsErrOf result HatRefusal.UnknownId ↔ (has_declared_in face.0 id (hat_at region hats.old) ≡ false) }
    ensures own { IsErrOf result HatRefusal.IdInUse → ⊥ }
    ensures ok { OnOk result (hats.new ≡ change_hat region (unregistered face.0 id) hats.old) }
    ensures err { OnErr result (hats.new ≡ hats.old) }
{
    match hats.get_mut(&region) {
        Some(hat) => withdraw_in(hat, face, id, node),
        None => unreachable!(),
    }
}

// The same in the hat. What became of the key is not asked.
fn withdraw_in(hat: &mut Hat, face: FaceId, id: u32, node: u16) -> Result<(), HatRefusal>
    requires { has_face face.0 hat.old ≡ true }
    ensures unknown { IsErrOf result HatRefusal.UnknownId ↔ (is_some (declaration_at face.0 id hat.old) ≡ false) }
    ensures own { IsErrOf result HatRefusal.IdInUse → ⊥ }
    ensures ok { OnOk result (hat.new ≡ unregistered face.0 id hat.old) }
    ensures err { OnErr result (hat.new ≡ hat.old) }
{
    match hat.unregister_queryable(face, id, None, node) {
        Ok(_) => Ok(()),
        Err(refusal) => Err(refusal),
    }
}

/// A mark of a face is set or unset.
pub fn mark(
    hats: &mut RegionMap<Hat>,
    region: Region,
    face: FaceId,
    mark: &FinalMark,
    set: bool,
) -> Result<(), OutOfMemory>
    requires { seats region face.0 hats.old ≡ Some true }
    ensures ok { OnOk result (hats.new ≡ change_hat region (finalized face.0 mark.now set) hats.old) }
    ensures err { OnErr result (hats.new ≡ hats.old) }
{
    match hats.get_mut(&region) {
        Some(hat) => hat.finalize_local_interest(face, mark, set),
        None => unreachable!(),
    }
}

/// A router's entry on the key is this one from now on.
pub fn announce(
    hats: &mut RegionMap<Hat>,
    region: Region,
    router: Zid,
    key: &Key,
    info: QueryableInfoType,
) -> Result<(), OutOfMemory>
    requires { is_some (hat_at region hats.old) ≡ true }
    ensures ok { OnOk result (hats.new ≡ change_hat region (announced router.0 key.now info) hats.old) }
    ensures err { OnErr result (hats.new ≡ hats.old) }
{
    match hats.get_mut(&region) {
        Some(hat) => hat.announce(router, key, info),
        None => unreachable!(),
    }
}

/// A router has no entry on the key from now on. It takes no memory.
pub fn retract(hats: &mut RegionMap<Hat>, region: Region, router: Zid, key: &str)
    requires { is_some (hat_at region hats.old) ≡ true }
    ensures { hats.new ≡ change_hat region (retracted router.0 key.now) hats.old }
{
    match hats.get_mut(&region) {
        Some(hat) => hat.retract(router, key),
        None => unreachable!(),
    }
}

/// A network is put in place; the entries go of the routers that it does not list. It takes no memory.
pub fn put_network(hats: &mut RegionMap<Hat>, region: Region, net: IndexedNetwork, gone: &[Zid])
    requires there { is_some (hat_at region hats.old) ≡ true }
    requires gone { (h : HatState) → hat_at region hats.old ≡ Some h → without_routers gone.now h.entries ≡ staying (is_listed net) h.entries }
    ensures { hats.new ≡ change_hat region (networked net) hats.old }
{
    match hats.get_mut(&region) {
        Some(hat) => hat.put_network(net, gone),
        None => unreachable!(),
    }
}

/// A face has this node table from now on. It takes no memory.
pub fn set_node_ids(hats: &mut RegionMap<Hat>, region: Region, face: FaceId, ids: NodeIds)
    requires { seats region face.0 hats.old ≡ Some true }
    ensures { hats.new ≡ change_hat region (noded face.0 ids) hats.old }
{
    match hats.get_mut(&region) {
        Some(hat) => hat.set_node_ids(face, ids),
        None => unreachable!(),
    }
}

/// The gateways of a region are put in place.
pub fn put_table(
    tables: &mut RegionMap<Gateways>,
    region: Region,
    table: Gateways,
) -> Result<(), OutOfMemory>
    requires { is_region region ≡ true }
    ensures ok { OnOk result (tables.new ≡ with_entry tables.old region table) }
    ensures err { OnErr result (tables.new ≡ tables.old) }
{
    match tables.insert(region, table) {
        Ok(_) => Ok(()),
        Err(_) => Err(OutOfMemory),
    }
}

/// One hat for each region of the configuration.
pub fn first_hats(alloc: Global, config: &Config) -> Result<RegionMap<Hat>, OutOfMemory>
    ensures { IfOk result (λ h. h ≡ first_hats config.now) }
{
    let mut hats = RegionMap::new(alloc);
    for entry in config.entries() {
        add_hat(alloc, &mut hats, config, *entry)?;
    }
    Ok(hats)
}

fn add_hat(
    alloc: Global,
    hats: &mut RegionMap<Hat>,
    config: &Config,
    entry: Entry,
) -> Result<(), OutOfMemory>
    requires { is_region (region_of entry) ≡ true }
    ensures { OnOk result (hats.new ≡ with_hat config.now hats.old entry) }
{
    let region = entry.region();
    let told = config.counters().told;
    let hat = Hat::new(alloc, region, config.north(), config.zid(), told);
    let _ = hats.insert(region, hat)?;
    Ok(())
}
