//! A map from regions.
ghost use Rattle.std.specs.Prelude.{◌≡◌, [], OnOk, IfOk, OnErr, option_copied};
ghost use Rattle.zq_message.specs.Region.{HasIndex};
ghost use Rattle.zq_message.specs.RegionMap.{value_at, with_entry, without, made_of, shown, MapsEach, GoByIndex};
ghost use Rattle.zq_message.specs.RegionMapLends.{LendsEntry};
ghost use Rattle.std.specs.Borrow.{sem};
ghost use Rattle.std.specs.Map.{keys_of, values_of};
ghost use Rattle.std.specs.Prelude.{IsSome, IsNone, IfSome, Some, None, ◌↔◌, map};
ghost use Rattle.std.specs.List.{All};
ghost use Rattle.std.specs.Fn.{FnReturnsAt};
ghost use Rattle.std.specs.BTreeMap.{insert_entry};
ghost use Rattle.std.specs.Ordering.{nat_cmp};
ghost use Rattle.std.specs.Option.{option_copied_mut};

use crate::index::{index_to_region, region_to_index};
use crate::iter::{RegionIntoIter, RegionIter, Regions, Values};
use crate::memory::OutOfMemory;
use crate::message::Region;
use std::alloc::Global;
use std::collections::BTreeMap;
use std::marker::Model;
use std::ops::{Index, IndexMut};

/// A value for some regions, seen as the list of indices with values, by rising index. Each of its
/// iterators goes in that order. (`RegionMap`)
///
/// There is no `Default`, since an empty map keeps the allocator for what is put in.
#[derive(Drop)]
pub struct RegionMap<D> {
    entries: BTreeMap<usize, D>,
}

impl<D> Model for RegionMap<D> {
    ghost use Rattle.std.specs.Prelude.{List, ℕ};
    ghost use Rattle.zq_message.specs.RegionMap.{AreIndices};

    ghost Value = { List (ℕ × D) };

    ghost view = { λ m. m.entries.entries };

    ghost invariant = { λ m. AreIndices m.entries.entries };
}

impl<D> RegionMap<D> {
    /// A map without values.
    pub fn new(alloc: Global) -> RegionMap<D>
        ensures { result ≡ [] }
    {
        RegionMap {
            entries: BTreeMap::new(alloc),
        }
    }

    /// The region's value, None where it has none.
    pub fn get(&self, r: &Region) -> Option<&D>
        requires { HasIndex r.now }
        ensures { option_copied result ≡ value_at self.now r.now }
    {
        self.entries.get(&region_to_index(r))
    }

    /// The region's value, to be changed in place.
    pub fn get_mut(&mut self, r: &Region) -> Option<&mut D>
        requires { HasIndex r.now }
        ensures* writes_back { sem 𝓛 (LendsEntry D.row self.entry r.now result) }
        ensures value { option_copied_mut result ≡ value_at self.old r.now }
    {
        let i = region_to_index(r);
        self.entries.get_mut(&i)
    }

    /// Gives the region a value, and answers the one that it had. Want of memory changes nothing.
    pub fn insert(&mut self, r: Region, d: D) -> Result<Option<D>, OutOfMemory>
    where
        D: Drop,
        requires { HasIndex r }
        ensures old { IfOk result (λ old. old ≡ value_at self.old r) }
        ensures new { OnOk result (self.new ≡ with_entry self.old r d) }
        ensures err { OnErr result (self.new ≡ self.old) }
    {
        let i = region_to_index(&r);
        match self.entries.insert(i, d) {
            Ok(old) => Ok(old),
            Err(_) => Err(OutOfMemory),
        }
    }

    /// The entries, in index order.
    pub fn iter(&self) -> RegionIter<'_, D>
        ensures entries { result ≡ self.now }
        ensures ordered { GoByIndex self.now }
    {
        RegionIter {
            inner: self.entries.iter(),
        }
    }

    /// The regions, in index order.
    pub fn regions(&self) -> Regions<'_, D>
        ensures indices { result ≡ keys_of self.now }
        ensures ordered { GoByIndex self.now }
    {
        Regions {
            inner: self.entries.keys(),
        }
    }

    /// The values, in index order.
    pub fn values(&self) -> Values<'_, D>
        ensures values { result ≡ values_of self.now }
        ensures ordered { GoByIndex self.now }
    {
        Values {
            inner: self.entries.values(),
        }
    }

    /// A map of these regions, each with what `f` makes of its value.
    pub fn map_ref<E, F: Fn(&D) -> E>(
        &self,
        alloc: Global,
        f: F,
    ) -> Result<RegionMap<E>, OutOfMemory>
    where
        E: Drop,
        F: Drop,
        requires { F.IsAlwaysCallable f }
        ensures { IfOk result (MapsEach (FnReturnsAt F.Fn f) self.now) }
    {
        let mut entries = BTreeMap::new(alloc);
        for (i, d) in &self.entries {
            put(&mut entries, *i, f(d))?;
        }
        Ok(RegionMap { entries })
    }

    /// A map of these regions, each with what `f` makes of its value, which it takes.
    pub fn map<E, F: Fn(D) -> E>(self, alloc: Global, f: F) -> Result<RegionMap<E>, OutOfMemory>
    where
        D: Drop,
        E: Drop,
        F: Drop,
        requires { F.IsAlwaysCallable f }
        ensures { IfOk result (MapsEach (F.post f) self) }
    {
        let mut entries = BTreeMap::new(alloc);
        for (i, d) in self.entries {
            put(&mut entries, i, f(d))?;
        }
        Ok(RegionMap { entries })
    }

    /// The region's value and the other entries, None where the region has no value.
    pub fn partition(
        &self,
        alloc: Global,
        r: &Region,
    ) -> Result<Option<(&D, RegionMap<&D>)>, OutOfMemory>
        requires { HasIndex r.now }
        ensures absent { IfOk result (λ parts. IsNone parts ↔ (value_at self.now r.now ≡ None)) }
        ensures value { IfOk result (λ parts. IfSome parts (λ p. value_at self.now r.now ≡ Some p.0.now)) }
        ensures others { IfOk result (λ parts. IfSome parts (λ p. map shown p.1 ≡ without self.now r.now)) }
    {
        let Some(own) = self.get(r) else {
            return Ok(None);
        };
        let at = region_to_index(r);
        let mut entries = BTreeMap::new(alloc);
        for (i, d) in &self.entries {
            if *i != at {
                put(&mut entries, *i, d)?;
            }
        }
        Ok(Some((own, RegionMap { entries })))
    }

    /// The map of these entries, a later one in the place of an earlier.
    pub fn from_entries(
        alloc: Global,
        entries: Vec<(Region, D)>,
    ) -> Result<RegionMap<D>, OutOfMemory>
    where
        D: Drop,
        requires { All (λ e. HasIndex e.0) entries.items }
        ensures { IfOk result (λ m. m ≡ made_of entries.items) }
    {
        let mut made = RegionMap::new(alloc);
        for (r, d) in entries {
            made.insert(r, d)?;
        }
        Ok(made)
    }

    /// Drops all values.
    pub fn clear(&mut self)
    where
        D: Drop,
        ensures { self.new ≡ [] }
    {
        self.entries.clear();
    }
}

impl<'r, D> Index<&'r Region> for RegionMap<D> {
    type Output = D;

    ghost can_index = { λ m r. HasIndex r.now × IsSome (value_at m r.now) };

    ghost index_gives = { λ m r d. value_at m r.now ≡ Some d };

    fn index(&self, r: &'r Region) -> &D {
        self.get(r).unwrap()
    }
}

impl<D> Index<Region> for RegionMap<D> {
    type Output = D;

    ghost can_index = { λ m r. HasIndex r × IsSome (value_at m r) };

    ghost index_gives = { λ m r d. value_at m r ≡ Some d };

    fn index(&self, r: Region) -> &D {
        self.get(&r).unwrap()
    }
}

impl<D: Drop> IntoIterator for RegionMap<D> {
    type Item = (Region, D);

    type IntoIter = RegionIntoIter<D>;

    ghost into_iter_gives = { λ m r. (r ≡ m) × GoByIndex m };

    fn into_iter(self) -> RegionIntoIter<D> {
        RegionIntoIter {
            inner: self.entries.into_iter(),
        }
    }
}

impl<'r, D> IndexMut<&'r Region> for RegionMap<D> {
    ghost use Rattle.zq_message.specs.RegionMapLends.{LendsValue};

    fn index_mut(&mut self, r: &'r Region) -> &mut D
        requires { HasIndex r.now × IsSome (value_at self.old r.now) }
        ensures* writes_back { sem 𝓛 (LendsValue D.row self.entry r.now result) }
        ensures value { value_at self.old r.now ≡ Some result.now }
    {
        match self.get_mut(r) {
            Some(d) => d,
            None => unreachable!(),
        }
    }
}

impl<D> IndexMut<Region> for RegionMap<D> {
    ghost use Rattle.zq_message.specs.RegionMapLends.{LendsValue};

    fn index_mut(&mut self, r: Region) -> &mut D
        requires { HasIndex r × IsSome (value_at self.old r) }
        ensures* writes_back { sem 𝓛 (LendsValue D.row self.entry r result) }
        ensures value { value_at self.old r ≡ Some result.now }
    {
        match self.get_mut(&r) {
            Some(d) => d,
            None => unreachable!(),
        }
    }
}

// Puts the value at the index.
fn put<D: Drop>(entries: &mut BTreeMap<usize, D>, i: usize, d: D) -> Result<(), OutOfMemory>
    ensures { OnOk result (entries.new.entries ≡ insert_entry nat_cmp entries.old.entries i d) }
{
    match entries.insert(i, d) {
        Ok(_) => Ok(()),
        Err(_) => Err(OutOfMemory),
    }
}
