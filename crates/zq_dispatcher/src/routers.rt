//! What routers announce and retract: a router's entry on a key is this one from now on, or goes.
#![tactic(auto)]

ghost use Rattle.std.specs.Prelude.{◌≡◌, ◌&&◌, ◌++◌, [], true, is_none, is_some, IfOk, OnOk, OnErr, Some};
ghost use Rattle.zq_strategy.specs.Kept.{has_face};
ghost use Rattle.zq_strategy.specs.Regions.{in_routers, strategy_at};
ghost use Rattle.zq_strategy.specs.Routers.{entry_at, source_at};
ghost use Rattle.zq_strategy.specs.Trees.{to_children};
ghost use Rattle.zq_machine.specs.State.{change_hat, hat_at};
ghost use Rattle.zq_machine.specs.Trees.{own_told_on};
ghost use Rattle.zq_dispatcher.specs.Routers.{entered, entry_change, has_entries_in, other_router};

use crate::hats;
use crate::telling::tell_change;
use zq_hat::hat::Hat;
use zq_key::Key;
use zq_key::memory::OutOfMemory;
use zq_key::message::{FaceId, NodeId, QueryableInfoType, Region, Zid};
use zq_strategy::types::{Change, TellingList};
use zq_tables::RegionMap;

/// The router that a node number of the face stands for, if it is another than the gateway itself.
pub fn router_of(hat: &Hat, own: Zid, face: FaceId, node: NodeId) -> Option<Zid>
    requires { has_face face.0 hat.now ≡ true }
    ensures { result ≡ other_router own (source_at face.0 node hat.now) }
{
    match hat.remote_node_id_to_zid(face, node) {
        Some(router) => { if own == router { None } else { Some(router) } }
        None => None,
    }
}

/// Whether an entry is to go that the router does not have.
pub fn lacks_entry(hat: &Hat, router: Zid, key: &str, info: Option<QueryableInfoType>) -> bool
    ensures { result ≡ (is_none info && is_none (entry_at router.0 key.now hat.now)) }
{
    info.is_none() && hat.entry(router, key).is_none()
}

/// Whether routers of the region have an entry on the key.
pub fn has_entries(hats: &RegionMap<Hat>, region: Region, key: &str) -> bool
    ensures { result ≡ has_entries_in region key.now hats.now }
{
    match hats::hat_at(hats, region) {
        Some(hat) => hat.entries().by_key().get(key).is_some(),
        None => false,
    }
}

/// What an entry that is this one, or goes, changes.
pub fn entry_change(router: Zid, info: Option<QueryableInfoType>) -> Change
    ensures { result ≡ entry_change router info }
{
    match info {
        Some(info) => Change::Announced { router, info },
        None => Change::Retracted(router),
    }
}

/// What faces are told as a router's entry on a key becomes this one, or goes: the children of its
/// tree, without the face that the call came from, and those of the gateway's own trees in other
/// regions. The hats stand as before the change.
pub fn entry_tellings(
    hats: &RegionMap<Hat>,
    region: Region,
    hat: &Hat,
    from: FaceId,
    router: Zid,
    key: &str,
    info: Option<QueryableInfoType>,
) -> Result<TellingList, OutOfMemory>
    requires { hat_at region hats.now ≡ Some hat.now }
    ensures { IfOk result (λ ts. ts ≡ in_routers (strategy_at hat.now) (to_children (Some from.0) router key.now info hat.now) [] ++ own_told_on hats.now (change_hat region (entered router key.now info) hats.now) key.now) }
{
    let mut told = hat.to_children(Some(from), router, key, info)?;
    let change = entry_change(router, info);
    tell_change(hats, region, hat, &change, key, &mut told)?;
    Ok(told)
}

/// A router has this entry on a key of the region from now on, or none.
pub fn put_entry(
    hats: &mut RegionMap<Hat>,
    region: Region,
    router: Zid,
    key: &Key,
    info: Option<QueryableInfoType>,
) -> Result<(), OutOfMemory>
    requires { is_some (hat_at region hats.old) ≡ true }
    ensures ok { OnOk result (hats.new ≡ change_hat region (entered router key.now info) hats.old) }
    ensures err { OnErr result (hats.new ≡ hats.old) }
{
    match info {
        Some(info) => match hats::announce(hats, region, router, key, info) {
            Ok(()) => Ok(()),
            Err(error) => Err(error),
        },
        None => {
            hats::retract(hats, region, router, key.as_str());
            Ok(())
        }
    }
}
