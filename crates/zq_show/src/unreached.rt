//! Entries of routers that a request does not reach, as no way leads to them.
ghost use Rattle.std.specs.Prelude.{◌≡◌, ◌++◌, IfOk, IsTrue, OnOk};
ghost use Rattle.std.specs.List.{flat_map};
ghost use Rattle.std.specs.Map.{values_of};
ghost use Rattle.zq_key.specs.Key.{is_key as key_of};
ghost use Rattle.zq_egress.specs.Askers.{asker_of};
ghost use Rattle.zq_show.specs.Unreached.{unreached_in, unreached_for, unreached_on};

use crate::reasons::{asker_for, node_for};
use crate::seen::Seen;
use std::alloc::Global;
use zq_egress::read::{full_text, says_key};
use zq_egress::select::Asker;
use zq_hat::{Hat, RouterEntryList};
use zq_key::items::Items;
use zq_key::memory::OutOfMemory;
use zq_key::message::{FaceId, Request, Zid};
use zq_message::RegionMap;
use zq_strategy::Strategy;
use zq_tables::resolved::Resolved;

/// The entries of a region's routers on keys that meet the key to which no way leads from the asker.
fn unreached_in(
    alloc: Global,
    asker: &Asker<'_>,
    key: &str,
    hat: &Hat,
) -> Result<RouterEntryList, OutOfMemory>
    requires { IsTrue (key_of key.now) }
    ensures { IfOk result (λ l. l ≡ unreached_in (asker_of asker.now) key.now hat.now) }
{
    match hat.strategy() {
        Strategy::Router => hat.unreached(&asker.opened.region, key, node_for(asker, hat)),
        Strategy::Broker | Strategy::Client | Strategy::Peer => Ok(Items::new(alloc)),
    }
}

/// Adds the entries of a region.
fn add_unreached(
    alloc: Global,
    all: &mut RouterEntryList,
    asker: &Asker<'_>,
    key: &str,
    hat: &Hat,
) -> Result<(), OutOfMemory>
    requires { IsTrue (key_of key.now) }
    ensures { OnOk result (all.new ≡ all.old ++ unreached_in (asker_of asker.now) key.now hat.now) }
{
    for entry in unreached_in(alloc, asker, key, hat)?.into_vec() {
        all.push(entry)?;
    }
    Ok(())
}

/// The entries of all regions on keys that meet what an expression says.
#[tactic(auto, unfolding(crate::specs::Unreached::unreached_on))]
fn unreached_on(
    alloc: Global,
    asker: &Asker<'_>,
    hats: &RegionMap<Hat>,
    said: &Resolved,
) -> Result<RouterEntryList, OutOfMemory>
    ensures { IfOk result (λ l. l ≡ unreached_on hats.now (asker_of asker.now) said.now) }
{
    let mut all = Items::new(alloc);
    if !says_key(said) {
        return Ok(all);
    }
    for hat in hats.values() {
        add_unreached(alloc, &mut all, asker, full_text(said), hat)?;
    }
    Ok(all)
}

/// The entries of routers on keys that meet a request's to which no way leads, region by region, in each
/// by key and router.
pub fn unreached_for(
    seen: &Seen,
    hats: &RegionMap<Hat>,
    own: Zid,
    face: FaceId,
    request: &Request,
) -> Result<RouterEntryList, OutOfMemory>
    ensures { IfOk result (λ l. l ≡ unreached_for hats.now own seen.now face request.now) }
{
    match asker_for(seen, hats, own, face, request.node) {
        Some(asker) => {
            let said = seen.said(face, &request.wire)?;
            unreached_on(seen.alloc(), &asker, hats, &said)
        }
        None => Ok(Items::new(seen.alloc())),
    }
}
