//! The entries of routers to which no way leads.
ghost use Rattle.std.specs.Prelude.{◌≡◌, ◌++◌, IfOk, OnOk, IsTrue, filter, is_none};
ghost use Rattle.std.specs.List.{AllByRecursion, flat_map};
ghost use Rattle.std.specs.Option.{option_and_then};
ghost use Rattle.zq_key.specs.Key.{is_key};
ghost use Rattle.zq_strategy.specs.Met.{is_met};
ghost use Rattle.zq_strategy.specs.OfferOrder.{IsKeyed};
ghost use Rattle.zq_strategy.specs.Routed.{way_to};
ghost use Rattle.zq_strategy.specs.Seating.{seated};
ghost use Rattle.zq_hat.specs.Unreached.{unreached_on};

use std::alloc::Global;
use std::collections::BTreeMap;
use zq_index::holders::{Holders, KeyHolders};
use zq_key::items::Items;
use zq_key::memory::OutOfMemory;
use zq_key::message::{NodeId, QueryableInfoType, Zid};
use zq_key::text::Text;
use zq_strategy::met::{Gather, gather_all};
use zq_strategy::nets::IndexedNetwork;
use zq_strategy::seats::FacesById;

/// A key on which a router has an entry, and the router.
#[derive(Drop)]
pub struct RouterEntry {
    /// The key.
    pub key: Text,
    /// The router's id.
    pub router: Zid,
}

/// Entries, by key and router.
pub type RouterEntryList = Items<RouterEntry>;

/// The ways of a region from a source, if there is one.
#[derive(Drop)]
pub(crate) struct Ways<'a> {
    /// The allocator of what is gathered.
    pub alloc: Global,
    /// The region's network.
    pub net: &'a IndexedNetwork,
    /// Which open faces have which ids.
    pub seats: &'a FacesById,
    /// The place in the network of the source, whose tree gives the ways.
    pub source: Option<NodeId>,
}

impl<'a> Ways<'a> {
    /// Whether no open face stands on the way to a router.
    fn is_unreached(&self, router: u128) -> bool
        ensures { result ≡ is_none (option_and_then (λ n. way_to self.now.net.now (λ zid. seated zid self.now.seats.now) n router) self.now.source) }
    {
        let Some(source) = self.source else {
            return true;
        };
        match self.net.towards(source, Zid(router)) {
            Some((next, _)) => self.seats.face_with(next).is_none(),
            None => true,
        }
    }

    /// Adds the entries on a key to which no way leads.
    fn push_unreached(
        &self,
        found: &mut Vec<RouterEntry>,
        key: &str,
        infos: &BTreeMap<u128, QueryableInfoType>,
    ) -> Result<(), OutOfMemory>
        ensures { OnOk result (found.new.items ≡ found.old.items ++ unreached_on self.now.net.now (λ zid. seated zid self.now.seats.now) self.now.source (key.now, infos.now.entries)) }
    {
        for (router, _info) in infos {
            if self.is_unreached(*router) {
                found.push(RouterEntry {
                    key: Text::new(self.alloc, key)?,
                    router: Zid(*router),
                })?;
            }
        }
        Ok(())
    }
}

impl<'a> Gather<Holders<u128>, Vec<RouterEntry>> for Ways<'a> {
    ghost gathers = { λ w q was e is. is.items ≡ was.items ++ unreached_on w.net.now (λ zid. seated zid w.seats.now) w.source e };

    fn gather(
        &self,
        found: &mut Vec<RouterEntry>,
        key: &str,
        held: &Holders<u128>,
        _q: &str,
    ) -> Result<(), OutOfMemory> {
        self.push_unreached(found, key, held.infos())
    }
}

/// The entries on keys that meet the request's to which no way leads.
pub(crate) fn unreached_for(
    ways: &Ways<'_>,
    entries: &KeyHolders<u128>,
    q: &str,
) -> Result<Vec<RouterEntry>, OutOfMemory>
    requires keys { AllByRecursion IsKeyed entries.now }
    requires asked { IsTrue (is_key q.now) }
    ensures { IfOk result (λ v. v.items ≡ flat_map (unreached_on ways.now.net.now (λ zid. seated zid ways.now.seats.now) ways.now.source) (filter (is_met q.now) entries.now)) }
{
    let mut found = Vec::new(ways.alloc);
    gather_all(
        ways.alloc,
        ways,
        &mut found,
        entries.keys(),
        entries.lists(),
        q,
    )?;
    Ok(found)
}
