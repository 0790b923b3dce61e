//! What a network that is put in place is told.
#![tactic(auto)]

ghost use Rattle.std.specs.Prelude.{◌≡◌, ◌++◌, Some, IfOk, OnOk};
ghost use Rattle.zq_message.specs.Region.{region_index};
ghost use Rattle.zq_strategy.specs.Entries.{is_one_of, keys_by};
ghost use Rattle.zq_strategy.specs.Routers.{losing, networked};
ghost use Rattle.zq_machine.specs.State.{change_hat, hat_at};
ghost use Rattle.zq_machine.specs.Trees.{all_own_told, networked_told, own_entries};
ghost use Rattle.zq_dispatcher.specs.Networks.{hands};

use crate::entries::own_entries;
use crate::telling::{has_other_routing, tell_changes};
use std::alloc::Global;
use zq_hat::hat::Hat;
use zq_key::items::Items;
use zq_key::memory::OutOfMemory;
use zq_key::message::{Region, Zid};
use zq_routers::entries::StandingList;
use zq_strategy::nets::IndexedNetwork;
use zq_strategy::types::{Change, TellingList};
use zq_tables::RegionMap;

// The own entries of a region, looked up only where a network hands them; else none, which hand the
// same.
#[tactic(auto, using(crate::proofs::Given::same_handed))]
fn own_for(
    alloc: Global,
    hats: &RegionMap<Hat>,
    region: Region,
    hat: &Hat,
    net: &IndexedNetwork,
) -> Result<StandingList, OutOfMemory>
    ensures { IfOk result (λ own. hands own hat.now net.now ≡ hands (own_entries (region_index region) hats.now) hat.now net.now) }
{
    let wants = hat.wants_own(net)?;
    if !wants {
        return Ok(Items::new(alloc));
    }
    let own = own_entries(alloc, hats, region)?;
    Ok(own)
}

/// What a network hands in its region: to new children of its trees what stands of their roots. The
/// hats stand as before the network.
pub fn tree_tellings(
    alloc: Global,
    hats: &RegionMap<Hat>,
    region: Region,
    hat: &Hat,
    net: &IndexedNetwork,
) -> Result<TellingList, OutOfMemory>
    requires { hat_at region hats.now ≡ Some hat.now }
    ensures { IfOk result (λ ts. ts ≡ networked_told region hats.now (change_hat region (networked net.now) hats.now)) }
{
    let own = own_for(alloc, hats, region, hat, net)?;
    let told = hat.network_tellings(net, &own)?;
    Ok(told)
}

/// What the gateway's own trees in other regions are told of the keys that lose an entry by a
/// network joins the list; `gone` are the routers that it does not list. Answers the network. Where
/// no other region is one of routers, the keys are not gathered.
pub fn tell_losses(
    hats: &RegionMap<Hat>,
    region: Region,
    hat: &Hat,
    net: IndexedNetwork,
    gone: &[Zid],
    told: &mut TellingList,
) -> Result<IndexedNetwork, OutOfMemory>
    requires there { hat_at region hats.now ≡ Some hat.now }
    requires gone { keys_by (is_one_of gone.now) hat.now.entries ≡ losing net hat.now }
    ensures net { IfOk result (λ n. n ≡ net) }
    ensures told { OnOk result (told.new ≡ told.old ++ all_own_told hats.now (change_hat region (networked net) hats.now) (losing net hat.now)) }
{
    if !has_other_routing(hats, region) {
        return Ok(net);
    }
    let keys = hat.losing(gone)?;
    let change = Change::Networked(net);
    tell_changes(hats, region, hat, &change, keys.as_slice(), told)?;
    match change {
        Change::Networked(net) => Ok(net),
        _ => unreachable!(),
    }
}
