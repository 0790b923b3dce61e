//! The iterators of a `RegionMap`, each seen as the list of what it has left.
ghost use Rattle.std.specs.Prelude.{◌≡◌, length};
ghost use Rattle.std.specs.Iterator.{YieldsFirst, YieldsFirstBy, YieldsFirstRef, item_count};
ghost use Rattle.zq_message.specs.RegionMap.{shown_entry, given_entry};
ghost use Rattle.zq_message.specs.Region.{region_index};

use crate::index::index_to_region;
use crate::message::Region;
use std::alloc::Global;
use std::collections::btree_map::{IntoIter, Iter, Keys, Values as MapValues};
use std::marker::Model;

/// The entries, each as a region and its value.
#[derive(Drop)]
pub struct RegionIter<'a, D> {
    pub(crate) inner: Iter<'a, usize, D>,
}

impl<'a, D> Model for RegionIter<'a, D> {
    ghost use Rattle.std.specs.Prelude.{List, ℕ};
    ghost use Rattle.zq_message.specs.RegionMap.{AreIndices};

    ghost Value = { List (ℕ × D) };

    ghost view = { λ s. s.inner };

    ghost invariant = { λ s. AreIndices s.inner };
}

impl<'a, D> Iterator for RegionIter<'a, D> {
    type Item = (Region, &'a D);

    ghost next_gives = { YieldsFirstBy shown_entry (λ s. s) };

    ghost remaining = { item_count (λ s. s) };

    fn next(&mut self) -> Option<(Region, &'a D)> {
        let (i, d) = self.inner.next()?;
        Some((index_to_region(*i), d))
    }
}

/// The regions.
#[derive(Drop)]
pub struct Regions<'a, D> {
    pub(crate) inner: Keys<'a, usize, D>,
}

impl<'a, D> Model for Regions<'a, D> {
    ghost use Rattle.std.specs.Prelude.{List, ℕ, ◌<◌};
    ghost use Rattle.std.specs.List.{All};

    ghost Value = { List ℕ };

    ghost view = { λ s. s.inner };

    ghost invariant = { λ s. All (λ k. k < 770) s.inner };
}

impl<'a, D> Iterator for Regions<'a, D> {
    type Item = Region;

    ghost next_gives = { YieldsFirstBy region_index (λ s. s) };

    ghost remaining = { item_count (λ s. s) };

    fn next(&mut self) -> Option<Region> {
        let i = self.inner.next()?;
        Some(index_to_region(*i))
    }
}

/// The values.
#[derive(Drop)]
pub struct Values<'a, D> {
    pub(crate) inner: MapValues<'a, usize, D>,
}

impl<'a, D> Model for Values<'a, D> {
    ghost use Rattle.std.specs.Prelude.{List};

    ghost Value = { List D };

    ghost view = { λ s. s.inner };
}

impl<'a, D> Iterator for Values<'a, D> {
    type Item = &'a D;

    ghost next_gives = { YieldsFirstRef (λ s. s) };

    ghost remaining = { item_count (λ s. s) };

    fn next(&mut self) -> Option<&'a D> {
        self.inner.next()
    }
}

/// The entries, by value.
#[derive(Drop)]
pub struct RegionIntoIter<D> {
    pub(crate) inner: IntoIter<usize, D, Global>,
}

impl<D> Model for RegionIntoIter<D> {
    ghost use Rattle.std.specs.Prelude.{List, ℕ};
    ghost use Rattle.zq_message.specs.RegionMap.{AreIndices};

    ghost Value = { List (ℕ × D) };

    ghost view = { λ s. s.inner };

    ghost invariant = { λ s. AreIndices s.inner };
}

impl<D: Drop> Iterator for RegionIntoIter<D> {
    type Item = (Region, D);

    ghost next_gives = { YieldsFirstBy given_entry (λ s. s) };

    ghost remaining = { item_count (λ s. s) };

    fn next(&mut self) -> Option<(Region, D)> {
        let (i, d) = self.inner.next()?;
        Some((index_to_region(i), d))
    }
}
