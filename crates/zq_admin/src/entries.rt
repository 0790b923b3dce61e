//! The entries whose keys meet a key.
ghost use Rattle.std.specs.Prelude.{◌≡◌, ◌++◌, IfOk, OnOk, codes, filter};
ghost use Rattle.zq_hat.specs.Sourced.{all_queriers, all_queryables};
ghost use Rattle.zq_admin.specs.Entries.{AreInOrder, entries_met, entries_under, front as front_of, is_met, own_source};
ghost use Rattle.zq_admin.specs.Reach.{AsksKey, reached};
ghost use Rattle.zq_admin.specs.Traced.{AreTraced};

use crate::fronts::{behind, front};
use crate::reach::{Reach, reach_of};
use std::alloc::Global;
use zq_gateway::Gateway;
use zq_hat::sources::{Source, SourceList};
use zq_key::items::Items;
use zq_key::memory::OutOfMemory;
use zq_key::{Key, intersects, is_key};

/// Administration keys, in order, each with the ids of those who declared the key that it is of, or ask for it.
pub type AdminList = SourceList;

/// The entries of a kind whose keys meet the key join the others.
fn add_met(
    list: &mut AdminList,
    alloc: Global,
    front: &str,
    key: &Key,
    sources: SourceList,
) -> Result<(), OutOfMemory>
    ensures { OnOk result (list.new ≡ list.old ++ filter (is_met key.now) (entries_under front.now sources)) }
{
    for (text, sources) in sources.into_vec() {
        let under = behind(alloc, front, text.as_str())?;
        if is_key(under.as_str()) && intersects(key.as_str(), under.as_str()) {
            list.push((under, sources))?;
        }
    }
    Ok(())
}

/// Who asks for each key that is reached.
fn queriers_in(
    alloc: Global,
    gateway: &Gateway,
    reach: Reach<'_>,
) -> Result<SourceList, OutOfMemory>
    requires { AsksKey reach }
    ensures { IfOk result (λ l. l ≡ reached reach.entry (all_queriers gateway.now.state.core.interests gateway.now.state.core.hats)) }
{
    match reach {
        Reach::Nothing => Ok(Items::new(alloc)),
        Reach::Met(rest) => gateway.sourced_queriers_on(rest),
        Reach::All => gateway.sourced_queriers(),
    }
}

/// Who declared each key that is reached.
fn queryables_in(
    alloc: Global,
    gateway: &Gateway,
    reach: Reach<'_>,
) -> Result<SourceList, OutOfMemory>
    requires { AsksKey reach }
    ensures { IfOk result (λ l. l ≡ reached reach.entry (all_queryables (own_source gateway.now.state.core.config) gateway.now.state.core.hats)) }
{
    match reach {
        Reach::Nothing => Ok(Items::new(alloc)),
        Reach::Met(rest) => gateway.sourced_queryables_on(rest),
        Reach::All => gateway.sourced_queryables(),
    }
}

/// The entries of who asks whose keys meet the key join the others.
fn add_queriers(
    list: &mut AdminList,
    alloc: Global,
    gateway: &Gateway,
    own: Source,
    key: &Key,
) -> Result<(), OutOfMemory>
    ensures { OnOk result (list.new ≡ list.old ++ filter (is_met key.now) (entries_under (front_of own (codes "querier")) (all_queriers gateway.now.state.core.interests gateway.now.state.core.hats))) }
{
    let front = front(alloc, own, "querier")?;
    let sources = queriers_in(alloc, gateway, reach_of(front.as_str(), key.as_str()))?;
    add_met(list, alloc, front.as_str(), key, sources)
}

/// The entries of who declared whose keys meet the key join the others.
fn add_queryables(
    list: &mut AdminList,
    alloc: Global,
    gateway: &Gateway,
    own: Source,
    key: &Key,
) -> Result<(), OutOfMemory>
    ensures { OnOk result (list.new ≡ list.old ++ filter (is_met key.now) (entries_under (front_of own (codes "queryable")) (all_queryables (own_source gateway.now.state.core.config) gateway.now.state.core.hats))) }
{
    let front = front(alloc, own, "queryable")?;
    let sources = queryables_in(alloc, gateway, reach_of(front.as_str(), key.as_str()))?;
    add_met(list, alloc, front.as_str(), key, sources)
}

/// The entries whose keys meet the key.
fn entries_met(alloc: Global, gateway: &Gateway, key: &Key) -> Result<AdminList, OutOfMemory>
    ensures { IfOk result (λ l. l ≡ entries_met key.now gateway.now.state) }
{
    let own = Source {
        zid: gateway.zid(),
        mode: gateway.north(),
    };
    let mut list = Items::new(alloc);
    add_queriers(&mut list, alloc, gateway, own, key)?;
    add_queryables(&mut list, alloc, gateway, own, key)?;
    Ok(list)
}

/// The entries whose keys meet the key, in the order of their keys: under `@/ZID/MODE/querier/KEY` who asks
/// to hear of a key, and under `@/ZID/MODE/queryable/KEY` who declared it, as in zenoh's administration
/// space. ZID is the gateway's own id in decimal, and MODE the mode of North.
pub fn list(alloc: Global, gateway: &Gateway, key: &Key) -> Result<AdminList, OutOfMemory>
    ensures entries { IfOk result (λ l. l ≡ entries_met key.now gateway.now.state) }
    ensures ordered { IfOk result AreInOrder }
    ensures traced { IfOk result (AreTraced key.now gateway.now.state) }
{
    entries_met(alloc, gateway, key)
}
