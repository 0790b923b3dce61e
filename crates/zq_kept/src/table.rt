//! The routes of texts, by the region that they lead to.
ghost use Rattle.std.specs.Prelude.{◌≡◌, ◌<◌, ℕ, List, [], None, Some, IfOk, IsTrue, OnOk, is_some, true, option_copied, length, if◌then◌else◌, string_bytes};
ghost use Rattle.std.specs.List.{All};
ghost use Rattle.std.specs.BTreeMap.{is_at};
ghost use Rattle.std.specs.Map.{remove_entry, values_of};
ghost use Rattle.zq_key.specs.Key.{is_key as key_of};
ghost use Rattle.zq_message.specs.declared.message.Region.{Region};
ghost use Rattle.zq_message.specs.Region.{HasIndex};
ghost use Rattle.zq_index.specs.Texts.{at_text, text_cmp, texts_of};
ghost use Rattle.zq_tables.specs.Naming.{has_context};
ghost use Rattle.zq_route.specs.Selection.{picked, with_offers};
ghost use Rattle.zq_machine.specs.Selecting.{parts_for};
ghost use Rattle.zq_egress.specs.Askers.{asker_of};
ghost use Rattle.zq_kept.specs.Current.{AreCurrent, ArePlaced, IsKeptFor, Keeps};
ghost use Rattle.zq_kept.specs.Table.{Fewer, NamedRoutes, OnlyNamed, OtherTexts, Others, route_of, version_of};

use crate::asking::Asking;
use crate::fill::{Choice, fill_beside, fill_first};
use crate::text::{INDICES, Spot, TextRoutes, route_in, version_in};
use std::alloc::Global;
use std::collections::BTreeMap;
use std::marker::Model;
use zq_message::memory::OutOfMemory;
use zq_message::message::{NodeId, Region};
use zq_message::region_to_index;
use zq_route::RoutesVersion;
use zq_strategy::types::{OfferList, QueryTargetQabl};
use zq_tables::naming::Naming;

/// The routes of texts, by the region that they lead to, each under that region's version.
pub struct RouteTable<T> {
    versions: Vec<RoutesVersion>,
    texts: BTreeMap<String, TextRoutes<T>>,
    alloc: Global,
}

impl<T: Drop> Drop for RouteTable<T> {
    fn drop(self) {
        let RouteTable {
            versions,
            texts,
            alloc,
        } = self;
    }
}

impl<T> Model for RouteTable<T> {
    ghost use Rattle.zq_index.specs.Texts.{texts_of};
    ghost use Rattle.zq_kept.specs.Table.{IsTable, Table};

    ghost Value = { Table T };

    ghost view = { λ t. (t.versions.items, texts_of t.texts.entries) };

    ghost invariant = { λ t. IsTable (t.versions.items, texts_of t.texts.entries) };
}

// The text goes.
#[tactic(auto, using(zq_index::proofs::Texts::text_remove))]
fn take_out<T: Drop>(texts: &mut BTreeMap<String, TextRoutes<T>>, key: &str)
    ensures after { texts_of texts.new.entries ≡ remove_entry (is_at (text_cmp key.now)) (texts_of texts.old.entries) }
    ensures gone { at_text key.now (texts_of texts.new.entries) ≡ None }
{
    let _ = texts.remove(key);
}

// The texts whose node the names have stay.
fn retain_named<T: Drop>(texts: &mut BTreeMap<String, TextRoutes<T>>, names: &Naming)
    ensures { (k : List ℕ) → at_text k (texts_of texts.new.entries) ≡ (if has_context k names.now then at_text k (texts_of texts.old.entries) else None) }
{
    texts.retain(
        |text: &String, routes: &mut TextRoutes<T>| -> bool
            ensures value { result ≡ has_context (string_bytes text.now) names.entry.now }
            ensures same { routes.new ≡ routes.old }
        { names.has_context(text.as_str()) },
    );
}

impl<T> RouteTable<T> {
    /// No routes, and the version 0 for each region.
    pub fn new(alloc: Global) -> Result<RouteTable<T>, OutOfMemory>
    where
        T: Drop,
        ensures { IfOk result (λ t. t.1 ≡ []) }
    {
        Ok(RouteTable {
            versions: Vec::from_elem(alloc, 0, INDICES)?,
            texts: BTreeMap::new(alloc),
            alloc,
        })
    }

    pub(crate) fn alloc(&self) -> Global {
        self.alloc
    }

    /// How many texts have routes, or had some under a version before.
    pub fn len(&self) -> usize
        ensures { result ≡ length self.now.1 }
    {
        self.texts.len()
    }

    /// The version of each region.
    pub(crate) fn versions(&self) -> &[RoutesVersion]
        ensures versions { result.now ≡ self.now.0 }
        ensures all { length self.now.0 ≡ 770 }
    {
        self.versions.as_slice()
    }

    /// The routes of a text.
    #[tactic(auto, using(zq_index::proofs::Texts::text_lookup))]
    pub fn of_text(&self, key: &str) -> Option<&TextRoutes<T>>
        ensures { option_copied result ≡ at_text key.now self.now.1 }
    {
        self.texts.get(key)
    }

    /// The route of a text to a region. It takes no memory.
    pub fn get(&self, dst: &Region, key: &str, src: &Region, node: NodeId) -> Option<&T>
        requires dst { HasIndex dst.now }
        requires src { HasIndex src.now }
        ensures { option_copied result ≡ route_of dst.now key.now src.now node self.now }
    {
        match self.of_text(key) {
            Some(routes) => {
                let spot = Spot {
                    version: version_in(self.versions(), dst),
                    dst: *dst,
                    src: *src,
                    node,
                };
                route_in(routes, spot)
            }
            None => None,
        }
    }

    /// No route to the region stands any more. Those to other regions stay, unless the region's version was
    /// the last one: then all texts go. It takes no memory.
    pub fn disable(&mut self, dst: &Region)
    where
        T: Drop,
        requires { HasIndex dst.now }
        ensures gone { (k : List ℕ) (s : Region) (n : ℕ) → route_of dst.now k s n self.new ≡ None }
        ensures fewer { Fewer self.old self.new }
        ensures others { version_of dst.now self.old < 18446744073709551615 → Others self.old self.new dst.now }
    {
        let i = region_to_index(dst);
        let version = self.versions[i];
        if version == RoutesVersion::MAX {
            self.texts.clear();
            self.versions[i] = 0;
            return;
        }
        self.versions[i] = version + 1;
    }

    /// The text has no routes any more, and takes no memory any more. It takes none to forget it.
    pub fn forget(&mut self, key: &str)
    where
        T: Drop,
        ensures gone { at_text key.now self.new.1 ≡ None }
        ensures fewer { Fewer self.old self.new }
        ensures others { OtherTexts self.old self.new key.now }
    {
        take_out(&mut self.texts, key);
    }

    /// Only the texts whose node the names have stay: the others have no routes any more. It takes no memory.
    pub fn sweep(&mut self, names: &Naming)
    where
        T: Drop,
        ensures texts { OnlyNamed self.old self.new names.now }
        ensures routes { NamedRoutes self.old self.new names.now }
    {
        retain_named(&mut self.texts, names);
    }
}

impl RouteTable<OfferList> {
    /// The offers of the asker's request on a text that has routes, once what these lack is stored.
    pub(crate) fn fill_beside(
        &mut self,
        asking: &Asking,
        choice: Choice,
    ) -> Result<Vec<QueryTargetQabl>, OutOfMemory>
        requires key { IsTrue (key_of asking.now.key.now) }
        requires src { HasIndex asking.now.asker.opened.region }
        requires placed { ArePlaced asking.now.hats.now }
        requires current { AreCurrent self.old asking.now.hats.now }
        requires there { is_some (at_text asking.now.key.now self.old.1) ≡ true }
        ensures offers { IfOk result (λ v. v.items ≡ values_of (with_offers [] (picked choice.best choice.target (parts_for (asker_of asking.now.asker) asking.now.key.now (values_of asking.now.hats.now))))) }
        ensures kept { OnOk result (All (IsKeptFor (asker_of asking.now.asker) asking.now.key.now self.new) (values_of asking.now.hats.now)) }
        ensures current { AreCurrent self.new asking.now.hats.now }
        ensures keeps { Keeps self.old self.new }
        ensures others { OtherTexts self.old self.new asking.now.key.now }
    {
        fill_beside(
            asking,
            self.alloc,
            self.versions.as_slice(),
            &mut self.texts,
            choice,
        )
    }

    /// The offers of the asker's request on a text that has no routes, once these are stored.
    pub(crate) fn fill_first(
        &mut self,
        asking: &Asking,
        choice: Choice,
    ) -> Result<Vec<QueryTargetQabl>, OutOfMemory>
        requires key { IsTrue (key_of asking.now.key.now) }
        requires src { HasIndex asking.now.asker.opened.region }
        requires placed { ArePlaced asking.now.hats.now }
        requires current { AreCurrent self.old asking.now.hats.now }
        requires absent { at_text asking.now.key.now self.old.1 ≡ None }
        ensures offers { IfOk result (λ v. v.items ≡ values_of (with_offers [] (picked choice.best choice.target (parts_for (asker_of asking.now.asker) asking.now.key.now (values_of asking.now.hats.now))))) }
        ensures kept { OnOk result (All (IsKeptFor (asker_of asking.now.asker) asking.now.key.now self.new) (values_of asking.now.hats.now)) }
        ensures current { AreCurrent self.new asking.now.hats.now }
        ensures keeps { Keeps self.old self.new }
        ensures others { OtherTexts self.old self.new asking.now.key.now }
    {
        fill_first(
            asking,
            self.alloc,
            self.versions.as_slice(),
            &mut self.texts,
            choice,
        )
    }
}
