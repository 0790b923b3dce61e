//! Where interests are kept by what they ask for.
ghost use Rattle.std.specs.Prelude.{◌≡◌, ◌||◌, ◌&&◌, [], ◌++◌, not, ℕ, List, Option, OnOk, OnErr, IfOk, IsTrue, fold, option_copied, true};
ghost use Rattle.std.specs.List.{AllByRecursion, flat_map};
ghost use Rattle.std.specs.List.Sorted.{IsStrictlySortedBy};
ghost use Rattle.std.specs.Map.{keys_of};
ghost use Rattle.zq_key.specs.Key.{is_key};
ghost use Rattle.zq_index.specs.Holders.{Place};
ghost use Rattle.zq_index.specs.Texts.{text_cmp};
ghost use Rattle.zq_interests.specs.Interests.{same_asked};
ghost use Rattle.zq_interests.specs.Kept.{is_kept, is_spot, met_faces, spots_at, with_spot};

use crate::keyed::{KeyedMap, put_keyed, take_keyed};
use crate::places::{PlaceSet, SpotList};
use crate::walk::{add_met_faces, add_met_spots};
use std::alloc::Global;
use std::cmp::Ordering;
use std::collections::{BTreeMap, BTreeSet};
use std::marker::Model;
use zq_index::holders::FacePlace;
use zq_index::text_set::{KeyLists, compare_texts};
use zq_key::Key;
use zq_key::items::Items;
use zq_key::memory::OutOfMemory;

/// The places of interests in all keys, and of those in a key by its text.
pub(crate) struct Shelf {
    all: PlaceSet,
    keyed: KeyedMap,
    lists: KeyLists,
}

impl Drop for Shelf {
    fn drop(self) {
        let Shelf { all, keyed, lists } = self;
    }
}

impl Model for Shelf {
    ghost use Rattle.zq_index.specs.Texts.{texts_of};
    ghost use Rattle.zq_interests.specs.Kept.{AreFit, Shelf};

    ghost Value = { Shelf };

    ghost view = { λ s. record { all = s.all; keyed = texts_of s.keyed.entries } };

    ghost invariant = { λ s. AreFit (texts_of s.keyed.entries) s.lists };
}

/// Whether the same is asked for.
pub(crate) fn same_asked(a: &Option<Key>, b: Option<&Key>) -> bool
    ensures { result ≡ same_asked a.now (option_copied b.entry) }
{
    match (a, b) {
        (None, None) => true,
        (Some(a), Some(b)) => compare_texts(a.as_str(), b.as_str()) == Ordering::Equal,
        _ => false,
    }
}

impl Shelf {
    /// Nothing is kept.
    pub(crate) fn new(alloc: Global) -> Shelf
        ensures { result ≡ record { all = []; keyed = [] } }
    {
        Shelf {
            all: PlaceSet::new(alloc),
            keyed: BTreeMap::new(alloc),
            lists: KeyLists::new(alloc),
        }
    }

    /// The place is kept under what is asked for.
    pub(crate) fn put(
        &mut self,
        alloc: Global,
        asked: &Option<Key>,
        place: FacePlace,
    ) -> Result<(), OutOfMemory>
        ensures ok { OnOk result ((other : Option (List ℕ)) (q : Place) → is_kept other q self.new ≡ (is_spot asked.now place other q || is_kept other q self.old)) }
        ensures err { OnErr result (self.new ≡ self.old) }
    {
        match asked {
            Some(key) => {
                let text = key.as_str();
                put_keyed(&mut self.keyed, &mut self.lists, alloc, text, place)
            }
            None => self.all.put(place),
        }
    }

    /// The place is not kept under what was asked for.
    pub(crate) fn take(&mut self, asked: &Option<Key>, place: FacePlace)
        ensures { (other : Option (List ℕ)) (q : Place) → is_kept other q self.new ≡ (not (is_spot asked.now place other q) && is_kept other q self.old) }
    {
        match asked {
            Some(key) => take_keyed(&mut self.keyed, &mut self.lists, key.as_str(), place),
            None => {
                let _ = self.all.take(place);
            }
        }
    }

    /// The faces of those who ask for the key.
    pub(crate) fn met_faces(&self, alloc: Global, key: &str) -> Result<BTreeSet<u32>, OutOfMemory>
        requires { IsTrue (is_key key.now) }
        ensures faces { IfOk result (λ f. f.keys ≡ met_faces key.now self.now) }
        ensures ordered { IfOk result (λ f. IsStrictlySortedBy text_cmp (keys_of self.now.keyed)) }
    {
        let mut found = BTreeSet::new(alloc);
        self.all.add_faces(&mut found)?;
        add_met_faces(&mut found, alloc, &self.keyed, &self.lists, key)?;
        Ok(found)
    }

    /// The places of those who ask for what meets the key, each with its text.
    pub(crate) fn met_spots(&self, alloc: Global, key: &str) -> Result<SpotList, OutOfMemory>
        requires { IsTrue (is_key key.now) }
        ensures spots { IfOk result (λ l. l ≡ fold with_spot [] (flat_map (spots_at key.now) self.now.keyed)) }
        ensures ordered { IfOk result (λ l. IsStrictlySortedBy text_cmp (keys_of self.now.keyed)) }
        ensures valid { IfOk result (λ l. AllByRecursion (λ s. is_key s.1 ≡ true) l) }
    {
        let mut found = Items::new(alloc);
        add_met_spots(&mut found, alloc, &self.keyed, &self.lists, key)?;
        Ok(found)
    }
}
