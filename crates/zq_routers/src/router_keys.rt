//! The keys on which each router has an entry.
ghost use Rattle.std.specs.Prelude.{◌≡◌, ℕ, List, ◌||◌, IfOk, OnOk, OnErr, true, false, None, map, string_bytes};
ghost use Rattle.std.specs.BTreeMap.{is_at};
ghost use Rattle.std.specs.BTreeSet.{contains_text};
ghost use Rattle.std.specs.List.{list_any};
ghost use Rattle.std.specs.List.Sorted.{IsStrictlySortedBy};
ghost use Rattle.std.specs.Map.{lookup};
ghost use Rattle.std.specs.Option.{is_some, option_map_or};
ghost use Rattle.std.specs.Ordering.{nat_cmp};
ghost use Rattle.zq_index.specs.Texts.{text_cmp};
ghost use Rattle.zq_strategy.specs.Entries.{AreAlike, AreKeysOf, Gains, Loses, LosesAll, has_key, has_key_of, unlisted_of};

use std::alloc::Global;
use std::collections::{BTreeMap, BTreeSet};
use zq_index::text_set::put_text;
use zq_key::items::Items;
use zq_key::memory::OutOfMemory;
use zq_key::message::{TextList, Zid};
use zq_key::text::Text;
use zq_strategy::nets::IndexedNetwork;
use zq_strategy::network::ZidList;

/// The keys of each router, by its id.
pub type RouterKeys = BTreeMap<u128, BTreeSet<String>>;

/// Equal keys of each router.
pub fn copy_router_keys(routers: &RouterKeys) -> Result<RouterKeys, OutOfMemory>
    ensures { IfOk result (λ made. AreAlike routers.now.entries made.entries) }
{
    Ok(routers.clone()?)
}

/// A key more for a router that has some.
fn list_beside(
    routers: &mut RouterKeys,
    alloc: Global,
    router: u128,
    key: &str,
) -> Result<(), OutOfMemory>
    requires { is_some (lookup (is_at (nat_cmp router)) routers.old.entries) ≡ true }
    ensures ok { OnOk result (Gains router key.now routers.old.entries routers.new.entries) }
    ensures err { OnErr result (AreAlike routers.old.entries routers.new.entries) }
{
    let text = String::from_str(alloc, key)?;
    match routers.get_mut(&router) {
        Some(keys) => match keys.insert(text) {
            Ok(_) => Ok(()),
            Err(_) => Err(OutOfMemory),
        },
        None => unreachable!(),
    }
}

/// A router's first key.
fn list_first(
    routers: &mut RouterKeys,
    alloc: Global,
    router: u128,
    key: &str,
) -> Result<(), OutOfMemory>
    requires { lookup (is_at (nat_cmp router)) routers.old.entries ≡ None }
    ensures ok { OnOk result (Gains router key.now routers.old.entries routers.new.entries) }
    ensures err { OnErr result (AreAlike routers.old.entries routers.new.entries) }
{
    let mut keys = BTreeSet::new(alloc);
    keys.insert(String::from_str(alloc, key)?)?;
    match routers.insert(router, keys) {
        Ok(_) => Ok(()),
        Err(_) => Err(OutOfMemory),
    }
}

/// A key more for the router.
pub fn list_key(
    routers: &mut RouterKeys,
    alloc: Global,
    router: u128,
    key: &str,
) -> Result<(), OutOfMemory>
    ensures ok { OnOk result (Gains router key.now routers.old.entries routers.new.entries) }
    ensures err { OnErr result (AreAlike routers.old.entries routers.new.entries) }
{
    if routers.contains_key(&router) {
        list_beside(routers, alloc, router, key)
    } else {
        list_first(routers, alloc, router, key)
    }
}

/// The key leaves the router's; answers whether none is left.
fn take_key(routers: &mut RouterKeys, router: u128, key: &str) -> bool
    ensures left { Loses router key.now routers.old.entries routers.new.entries }
    ensures empty { result ≡ true → (k : List ℕ) → has_key router k routers.new.entries ≡ false }
{
    match routers.get_mut(&router) {
        Some(keys) => {
            let _ = keys.remove(key);
            keys.is_empty()
        }
        None => false,
    }
}

/// The keys of the router go.
pub fn take_router(routers: &mut RouterKeys, router: u128) -> Option<BTreeSet<String>>
    ensures keys { (k : List ℕ) → option_map_or (λ keys. contains_text keys k) result false ≡ has_key router k routers.old.entries }
    ensures left { LosesAll router routers.old.entries routers.new.entries }
{
    routers.remove(&router)
}

/// The key leaves the router's.
pub fn unlist_key(routers: &mut RouterKeys, router: u128, key: &str)
    ensures { Loses router key.now routers.old.entries routers.new.entries }
{
    if take_key(routers, router, key) {
        let _ = take_router(routers, router);
    }
}

/// The routers that the network does not list.
pub fn unlisted(
    routers: &RouterKeys,
    alloc: Global,
    net: &IndexedNetwork,
) -> Result<ZidList, OutOfMemory>
    ensures { IfOk result (λ ids. ids ≡ unlisted_of net.now routers.now.entries) }
{
    let mut ids = Items::new(alloc);
    for (router, _) in routers {
        let router = Zid(*router);
        if !net.is_listed(router) {
            ids.push(router)?;
        }
    }
    Ok(ids)
}

/// These keys join the texts.
fn gather(
    texts: &mut BTreeSet<String>,
    alloc: Global,
    keys: &BTreeSet<String>,
) -> Result<(), OutOfMemory>
    ensures { OnOk result ((k : List ℕ) → contains_text texts.new k ≡ (contains_text texts.old k || contains_text keys.now k)) }
{
    for key in keys {
        put_text(texts, alloc, key.as_str())?;
    }
    Ok(())
}

/// The keys of the router join the texts.
fn gather_of(
    texts: &mut BTreeSet<String>,
    alloc: Global,
    routers: &RouterKeys,
    router: u128,
) -> Result<(), OutOfMemory>
    ensures { OnOk result ((k : List ℕ) → contains_text texts.new k ≡ (contains_text texts.old k || has_key router k routers.now.entries)) }
{
    match routers.get(&router) {
        Some(keys) => match gather(texts, alloc, keys) {
            Ok(()) => Ok(()),
            Err(error) => Err(error),
        },
        None => Ok(()),
    }
}

/// The keys of these routers, each once.
fn keys_of_all(
    routers: &RouterKeys,
    alloc: Global,
    ids: &[Zid],
) -> Result<BTreeSet<String>, OutOfMemory>
    ensures { IfOk result (λ texts. (k : List ℕ) → contains_text texts k ≡ list_any (has_key_of routers.now.entries k) ids.now) }
{
    let mut texts = BTreeSet::new(alloc);
    for id in ids {
        gather_of(&mut texts, alloc, routers, id.0)?;
    }
    Ok(texts)
}

/// The texts, in order.
fn list_of(texts: &BTreeSet<String>, alloc: Global) -> Result<TextList, OutOfMemory>
    ensures value { IfOk result (λ list. list ≡ map string_bytes texts.now.keys) }
    ensures ordered { OnOk result (IsStrictlySortedBy text_cmp (map string_bytes texts.now.keys)) }
{
    let mut list = Items::new(alloc);
    for text in texts {
        list.push(Text::new(alloc, text.as_str())?)?;
    }
    Ok(list)
}

/// The keys of these routers, in order, each once.
pub fn keys_in_order(
    routers: &RouterKeys,
    alloc: Global,
    ids: &[Zid],
) -> Result<TextList, OutOfMemory>
    ensures { IfOk result (λ list. AreKeysOf routers.now.entries ids.now list) }
{
    let texts = keys_of_all(routers, alloc, ids)?;
    match list_of(&texts, alloc) {
        Ok(list) => Ok(list),
        Err(error) => Err(error),
    }
}
