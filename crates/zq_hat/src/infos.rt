//! What a region has on each of its keys.
ghost use Rattle.std.specs.Prelude.{◌≡◌, IfOk, IsTrue, None, filter, map, string_bytes, true};
ghost use Rattle.std.specs.List.{AllByRecursion, filter_map};
ghost use Rattle.std.specs.Option.{option_copied};
ghost use Rattle.zq_key.specs.Key.{is_key};
ghost use Rattle.zq_interests.specs.Interests.{meets};
ghost use Rattle.zq_hat.specs.Infos.{info_keys, info_on, remote_queryables};

use crate::hat::Hat;
use std::alloc::Global;
use std::collections::BTreeSet;
use zq_key::items::Items;
use zq_key::memory::OutOfMemory;
use zq_key::text::Text;
use zq_key::{Key, intersects};
use zq_routers::entries::StandingList;

/// Keys, by text, with the information on each.
pub type InfoList = StandingList;

/// The keys on which the region has information, in order.
fn info_keys(alloc: Global, hat: &Hat) -> Result<BTreeSet<String>, OutOfMemory>
    ensures keys { IfOk result (λ s. map string_bytes s.keys ≡ info_keys hat.now) }
    ensures valid { IfOk result (λ s. AllByRecursion (λ k. is_key k ≡ true) (map string_bytes s.keys)) }
{
    let mut keys = BTreeSet::new(alloc);
    hat.add_keys(&mut keys)?;
    Ok(keys)
}

/// Whether what is asked for has no key, or its key meets the key.
fn meets(asked: Option<&Key>, key: &str) -> bool
    requires { IsTrue (is_key key.now) }
    ensures { result ≡ meets (option_copied asked.entry) key.now }
{
    match asked {
        Some(asked) => intersects(asked.as_str(), key),
        None => true,
    }
}

/// The region's informations on those of the keys that meet what is asked for.
fn infos_on(
    alloc: Global,
    hat: &Hat,
    keys: BTreeSet<String>,
    asked: Option<&Key>,
) -> Result<InfoList, OutOfMemory>
    requires { AllByRecursion (λ k. is_key k ≡ true) (map string_bytes keys.keys) }
    ensures infos { IfOk result (λ l. l ≡ filter_map (info_on hat.now) (filter (meets (option_copied asked.entry)) (map string_bytes keys.keys))) }
    ensures valid { IfOk result (AllByRecursion (λ e. is_key e.0 ≡ true)) }
{
    let mut list = Items::new(alloc);
    for key in keys {
        if !meets(asked, key.as_str()) {
            continue;
        }
        if let Some(info) = hat.remote_queryables_of(key.as_str()) {
            list.push((Text::from_string(key), info))?;
        }
    }
    Ok(list)
}

/// The region's informations on its keys that meet the key, or on all of them, by text.
/// (`HatQueriesTrait::remote_queryables_matching`)
pub fn remote_queryables_matching(
    alloc: Global,
    hat: &Hat,
    key: Option<&Key>,
) -> Result<InfoList, OutOfMemory>
    ensures infos { IfOk result (λ l. l ≡ remote_queryables (option_copied key.entry) hat.now) }
    ensures valid { IfOk result (AllByRecursion (λ e. is_key e.0 ≡ true)) }
{
    let keys = info_keys(alloc, hat)?;
    infos_on(alloc, hat, keys, key)
}

/// The region's information on each of its keys, by text. (`HatQueriesTrait::remote_queryables`)
pub fn remote_queryables(alloc: Global, hat: &Hat) -> Result<InfoList, OutOfMemory>
    ensures infos { IfOk result (λ l. l ≡ remote_queryables None hat.now) }
    ensures valid { IfOk result (AllByRecursion (λ e. is_key e.0 ≡ true)) }
{
    remote_queryables_matching(alloc, hat, None)
}
