//! What routers of a region announced: their entries on keys, found by key and by router.
ghost use Rattle.std.specs.Prelude.{◌≡◌, [], IfOk, OnOk, OnErr, Some, true, fold, map, string_bytes};
ghost use Rattle.std.specs.List.{AllByRecursion, filter_map};
ghost use Rattle.std.specs.List.Sorted.{IsStrictlySortedBy};
ghost use Rattle.std.specs.Ordering.{nat_cmp};
ghost use Rattle.zq_key.specs.Key.{is_key};
ghost use Rattle.zq_index.specs.Texts.{text_cmp};
ghost use Rattle.zq_index.specs.Holders.{IsOrderedBy};
ghost use Rattle.zq_strategy.specs.Nets.{is_listed};
ghost use Rattle.zq_strategy.specs.Entries.{entries_at, entry_of, is_one_of, is_another, is_unlisted, keyed, keys_by, routed_info, standing, staying, with_entry, without_entry, without_key, without_routers};

use crate::router_keys::{
    RouterKeys, copy_router_keys, keys_in_order, list_key, take_router, unlist_key, unlisted,
};
use std::alloc::Global;
use std::collections::{BTreeMap, BTreeSet};
use std::marker::Model;
use zq_index::holders::{KeyHolders, PlaceTest};
use zq_key::Key;
use zq_key::items::Items;
use zq_key::memory::OutOfMemory;
use zq_key::message::{QueryableInfoType, TextList, Zid};
use zq_key::text::Text;
use zq_strategy::nets::IndexedNetwork;
use zq_strategy::network::ZidList;

/// Keys, and the informations that stand on them.
pub type StandingList = Items<(Text, QueryableInfoType)>;

/// The entries on each key, seen by the keys' texts; the keys of each router stand beside them.
pub struct Entries {
    by_key: KeyHolders<u128>,
    by_router: RouterKeys,
}

impl Drop for Entries {
    fn drop(self) {
        let Entries { by_key, by_router } = self;
    }
}

impl Model for Entries {
    ghost use Rattle.zq_strategy.specs.Entries.{Entries, IsTied};

    ghost Value = { Entries };

    ghost view = { λ e. e.by_key };

    ghost invariant = { λ e. IsTied e.by_key e.by_router.entries };
}

/// The routers that a network lists.
#[derive(Drop)]
struct Listed<'a> {
    net: &'a IndexedNetwork,
}

impl<'a> PlaceTest<u128> for Listed<'a> {
    ghost passes = { λ l router. is_listed l.net.now (record { 0 = router }) };

    fn is_passed(&self, place: u128) -> bool {
        self.net.is_listed(Zid(place))
    }
}

/// The router's entries on these keys go.
fn forget(by_key: &mut KeyHolders<u128>, router: u128, keys: &BTreeSet<String>)
    ensures { by_key.new ≡ fold (without_key router) by_key.old (map string_bytes keys.now.keys) }
{
    for key in keys {
        by_key.take(key.as_str(), router);
    }
}

impl Entries {
    /// No entries.
    pub fn new(alloc: Global) -> Entries
        ensures { result ≡ [] }
    {
        Entries {
            by_key: KeyHolders::new(alloc),
            by_router: BTreeMap::new(alloc),
        }
    }

    /// Equal entries.
    pub fn copy(&self, alloc: Global) -> Result<Entries, OutOfMemory>
        ensures { IfOk result (λ e. e ≡ self.now) }
    {
        Ok(Entries {
            by_key: self.by_key.copy(alloc)?,
            by_router: copy_router_keys(&self.by_router)?,
        })
    }

    /// The entries on each key, by its text.
    pub fn by_key(&self) -> &KeyHolders<u128>
        ensures value { result.now ≡ self.now }
        ensures keys { AllByRecursion (λ e. is_key e.0 ≡ true) self.now }
        ensures ordered { IsOrderedBy nat_cmp self.now }
    {
        &self.by_key
    }

    /// The router's entry on the key.
    pub fn get(&self, router: Zid, key: &str) -> Option<QueryableInfoType>
        ensures { result ≡ entry_of router.0 key.now self.now }
    {
        match self.by_key.get(key) {
            Some(routed) => routed.infos().get(&router.0).copied(),
            None => None,
        }
    }

    /// The entries on the key, merged.
    pub fn merged(&self, key: &str) -> Option<QueryableInfoType>
        ensures { result ≡ routed_info (entries_at key.now self.now) }
    {
        match self.by_key.get(key) {
            Some(routed) => routed.merged(),
            None => None,
        }
    }

    /// What the entries on the key would be, merged, with this one of the router.
    pub fn merged_with(&self, router: Zid, key: &str, info: QueryableInfoType) -> QueryableInfoType
        ensures { Some result ≡ routed_info (entries_at key.now (with_entry router.0 key.now info self.now)) }
    {
        match self.by_key.get(key) {
            Some(routed) => routed.merged_with(router.0, info),
            None => info,
        }
    }

    /// What the entries on the key would be, merged, without that of the router.
    pub fn merged_without(&self, router: Zid, key: &str) -> Option<QueryableInfoType>
        ensures { result ≡ routed_info (entries_at key.now (without_entry router.0 key.now self.now)) }
    {
        match self.by_key.get(key) {
            Some(routed) => routed.merged_without(router.0),
            None => None,
        }
    }

    /// What the entries on the key would be, merged, without those of routers that the network does
    /// not list.
    pub fn merged_listed(&self, net: &IndexedNetwork, key: &str) -> Option<QueryableInfoType>
        ensures { result ≡ routed_info (entries_at key.now (staying (is_listed net.now) self.now)) }
    {
        match self.by_key.get(key) {
            Some(routed) => routed.merged_of(&Listed { net }),
            None => None,
        }
    }

    /// The router's entries on these keys.
    fn standing_on(
        &self,
        alloc: Global,
        router: Zid,
        keys: &BTreeSet<String>,
    ) -> Result<StandingList, OutOfMemory>
        ensures found { IfOk result (λ es. es ≡ filter_map (keyed router.0 self.now) (map string_bytes keys.now.keys)) }
        ensures ordered { OnOk result (IsStrictlySortedBy text_cmp (map string_bytes keys.now.keys)) }
    {
        let mut standing = Items::new(alloc);
        for key in keys {
            if let Some(info) = self.get(router, key.as_str()) {
                standing.push((Text::new(alloc, key.as_str())?, info))?;
            }
        }
        Ok(standing)
    }

    /// All entries of the router, in the order of the keys' texts.
    pub fn of_router(&self, alloc: Global, router: Zid) -> Result<StandingList, OutOfMemory>
        ensures { IfOk result (λ es. es ≡ standing router self.now) }
    {
        match self.by_router.get(&router.0) {
            Some(keys) => match self.standing_on(alloc, router, keys) {
                Ok(standing) => Ok(standing),
                Err(error) => Err(error),
            },
            None => Ok(Items::new(alloc)),
        }
    }

    /// The router's entry on the key is this one from now on.
    pub fn put(
        &mut self,
        alloc: Global,
        router: Zid,
        key: &Key,
        info: QueryableInfoType,
    ) -> Result<(), OutOfMemory>
        ensures ok { OnOk result (self.new ≡ with_entry router.0 key.now info self.old) }
        ensures err { OnErr result (self.new ≡ self.old) }
    {
        let text = key.as_str();
        if self.get(router, text).is_some() {
            self.by_key.put(alloc, text, router.0, info)?;
            return Ok(());
        }
        list_key(&mut self.by_router, alloc, router.0, text)?;
        match self.by_key.put(alloc, text, router.0, info) {
            Ok(()) => Ok(()),
            Err(error) => {
                unlist_key(&mut self.by_router, router.0, text);
                Err(error)
            }
        }
    }

    /// The router's entry on the key goes.
    pub fn take(&mut self, router: Zid, key: &str)
        ensures { self.new ≡ without_entry router.0 key.now self.old }
    {
        self.by_key.take(key, router.0);
        unlist_key(&mut self.by_router, router.0, key);
    }

    /// All entries of the router go.
    pub fn drop_router(&mut self, router: Zid)
        ensures { self.new ≡ staying (is_another router) self.old }
    {
        match take_router(&mut self.by_router, router.0) {
            Some(keys) => forget(&mut self.by_key, router.0, &keys),
            None => (),
        }
    }

    /// All entries of these routers go.
    pub fn drop_routers(&mut self, routers: &[Zid])
        ensures { self.new ≡ without_routers routers.now self.old }
    {
        for router in routers {
            self.drop_router(*router);
        }
    }

    /// The routers that the network does not list, of those with entries.
    pub fn unlisted(&self, alloc: Global, net: &IndexedNetwork) -> Result<ZidList, OutOfMemory>
        ensures left { IfOk result (λ ids. without_routers ids self.now ≡ staying (is_listed net.now) self.now) }
        ensures losing { IfOk result (λ ids. keys_by (is_one_of ids) self.now ≡ keys_by (is_unlisted net.now) self.now) }
    {
        match unlisted(&self.by_router, alloc, net) {
            Ok(ids) => Ok(ids),
            Err(error) => Err(error),
        }
    }

    /// The keys that have an entry of one of these routers, in order, each once.
    pub fn losing(&self, alloc: Global, routers: &[Zid]) -> Result<TextList, OutOfMemory>
        ensures { IfOk result (λ keys. keys ≡ keys_by (is_one_of routers.now) self.now) }
    {
        match keys_in_order(&self.by_router, alloc, routers) {
            Ok(keys) => Ok(keys),
            Err(error) => Err(error),
        }
    }
}
