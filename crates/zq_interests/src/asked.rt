//! The interests of one face, by id.
ghost use Rattle.std.specs.Prelude.{◌≡◌, ◌&&◌, [], not, ℕ, List, Option, None, OnOk, OnErr, IfOk, IsTrue};
ghost use Rattle.std.specs.List.{list_any};
ghost use Rattle.std.specs.List.Sorted.{IsStrictlySortedBy};
ghost use Rattle.std.specs.Map.{keys_of, remove_entry};
ghost use Rattle.std.specs.Option.{option_copied};
ghost use Rattle.std.specs.BTreeMap.{insert_entry, is_at};
ghost use Rattle.std.specs.Ordering.{nat_cmp};
ghost use Rattle.zq_key.specs.Key.{is_key};
ghost use Rattle.zq_index.specs.Holders.{Place};
ghost use Rattle.zq_interests.specs.Kept.{is_kept, is_of};
ghost use Rattle.zq_interests.specs.Interests.{asked_for, at, folded_for, is_own, is_passing, meets, own_key, passes};

use crate::shelf::Shelf;
use crate::types::{InterestEntry, Test};
use std::alloc::Global;
use std::cmp::Ordering;
use std::collections::BTreeMap;
use std::marker::Model;
use zq_index::text_set::compare_texts;
use zq_key::memory::OutOfMemory;
use zq_key::{Key, intersects};

/// What one face asks, by id.
#[derive(Drop)]
pub(crate) struct Asked {
    entries: BTreeMap<u32, InterestEntry>,
}

impl Model for Asked {
    ghost use Rattle.zq_interests.specs.Interests.{Asked};

    ghost Value = { Asked };

    ghost view = { λ a. a.entries.entries };
}

/// Whether what is asked for has no key, or its key meets the key.
pub(crate) fn meets(asked: &Option<Key>, key: &str) -> bool
    requires { IsTrue (is_key key.now) }
    ensures { result ≡ meets asked.now key.now }
{
    match asked {
        Some(asked) => intersects(asked.as_str(), key),
        None => true,
    }
}

/// Whether what is asked for has no key, or the key itself.
fn is_own(asked: &Option<Key>, key: &str) -> bool
    ensures { result ≡ is_own asked.now key.now }
{
    let Some(own) = asked else {
        return true;
    };
    compare_texts(own.as_str(), key) == Ordering::Equal
}

/// Whether the interest asks for the key: its own, if it is aggregating, and else each that it meets.
fn asked_for(entry: &InterestEntry, key: &str) -> bool
    requires { IsTrue (is_key key.now) }
    ensures { result ≡ asked_for entry.now key.now }
{
    if entry.aggregate {
        is_own(&entry.key, key)
    } else {
        meets(&entry.key, key)
    }
}

/// Whether the interest is aggregating, and the key is its own.
fn is_folded(entry: &InterestEntry, key: &str) -> bool
    ensures { result ≡ folded_for entry.now key.now }
{
    entry.aggregate && entry.key.is_some() && is_own(&entry.key, key)
}

impl InterestEntry {
    /// Whether the interest asks for the key.
    pub fn asks_for(&self, key: &str) -> bool
        requires { IsTrue (is_key key.now) }
        ensures { result ≡ asked_for self.now key.now }
    {
        asked_for(self, key)
    }

    /// The key of which it is to hear aggregated, if there is one.
    pub fn own_key(&self) -> Option<&Key>
        ensures { option_copied result ≡ own_key self.now }
    {
        if self.aggregate {
            self.key.as_ref()
        } else {
            None
        }
    }
}

/// Whether the interest passes the test on the key.
pub(crate) fn passes(entry: &InterestEntry, test: Test, key: &str) -> bool
    requires { IsTrue (is_key key.now) }
    ensures { result ≡ passes test key.now entry.now }
{
    match test {
        Test::Asks => asked_for(entry, key),
        Test::Folds => is_folded(entry, key),
        Test::Keyed => entry.keys && meets(&entry.key, key),
    }
}

/// Whether one of the interests passes the test on the key.
fn any_passes(entries: &BTreeMap<u32, InterestEntry>, test: Test, key: &str) -> bool
    requires { IsTrue (is_key key.now) }
    ensures { result ≡ list_any (is_passing test key.now) entries.now.entries }
{
    for (_, entry) in entries {
        if passes(entry, test, key) {
            return true;
        }
    }
    false
}

/// Whether an interest under another id passes the test on the key.
fn any_besides(entries: &BTreeMap<u32, InterestEntry>, id: u32, test: Test, key: &str) -> bool
    requires { IsTrue (is_key key.now) }
    ensures any { result ≡ list_any (is_passing test key.now) (remove_entry (is_at (nat_cmp id)) entries.now.entries) }
    ensures ordered { IsStrictlySortedBy nat_cmp (keys_of entries.now.entries) }
{
    for (other, entry) in entries {
        if *other != id && passes(entry, test, key) {
            return true;
        }
    }
    false
}

/// None of the face's interests is kept any more.
fn leave_all(entries: &BTreeMap<u32, InterestEntry>, shelf: &mut Shelf, face: u32)
    ensures { (other : Option (List ℕ)) (q : Place) → is_kept other q shelf.new ≡ (not (is_of face entries.now.entries other q) && is_kept other q shelf.old) }
{
    for (id, entry) in entries {
        shelf.take(&entry.key, (face, *id));
    }
}

impl Asked {
    /// Nothing is asked.
    pub(crate) fn new(alloc: Global) -> Asked
        ensures { result ≡ [] }
    {
        Asked {
            entries: BTreeMap::new(alloc),
        }
    }

    /// What is asked, by id.
    pub(crate) fn entries(&self) -> &BTreeMap<u32, InterestEntry>
        ensures { result.now.entries ≡ self.now }
    {
        &self.entries
    }

    /// What is asked under the id.
    pub(crate) fn get(&self, id: u32) -> Option<&InterestEntry>
        ensures { option_copied result ≡ at id self.now }
    {
        self.entries.get(&id)
    }

    /// This is asked under the id; answers what was before. Only a new id can lack memory.
    pub(crate) fn put(
        &mut self,
        id: u32,
        entry: InterestEntry,
    ) -> Result<Option<InterestEntry>, OutOfMemory>
        ensures ok { OnOk result (self.new ≡ insert_entry nat_cmp self.old id entry) }
        ensures before { IfOk result (λ b. b ≡ at id self.old) }
        ensures err { OnErr result (self.new ≡ self.old) }
        ensures absent { OnErr result (at id self.old ≡ None) }
    {
        match self.entries.insert(id, entry) {
            Ok(before) => Ok(before),
            Err(_) => Err(OutOfMemory),
        }
    }

    /// Nothing is asked under the id; answers what was before.
    pub(crate) fn end(&mut self, id: u32) -> Option<InterestEntry>
        ensures after { self.new ≡ remove_entry (is_at (nat_cmp id)) self.old }
        ensures before { result ≡ at id self.old }
    {
        self.entries.remove(&id)
    }

    /// None of the face's interests is kept any more.
    pub(crate) fn leave(&self, shelf: &mut Shelf, face: u32)
        ensures { (other : Option (List ℕ)) (q : Place) → is_kept other q shelf.new ≡ (not (is_of face self.now other q) && is_kept other q shelf.old) }
    {
        leave_all(&self.entries, shelf, face);
    }

    /// Whether an interest passes the test on the key.
    pub(crate) fn any(&self, test: Test, key: &str) -> bool
        requires { IsTrue (is_key key.now) }
        ensures { result ≡ list_any (is_passing test key.now) self.now }
    {
        any_passes(&self.entries, test, key)
    }

    /// Whether an interest under another id passes the test on the key.
    pub(crate) fn any_besides(&self, id: u32, test: Test, key: &str) -> bool
        requires { IsTrue (is_key key.now) }
        ensures { result ≡ list_any (is_passing test key.now) (remove_entry (is_at (nat_cmp id)) self.now) }
    {
        any_besides(&self.entries, id, test, key)
    }

    /// Whether an interest would pass the test on the key, if this one stood under the id.
    pub(crate) fn any_with(&self, id: u32, entry: &InterestEntry, test: Test, key: &str) -> bool
        requires { IsTrue (is_key key.now) }
        ensures { result ≡ list_any (is_passing test key.now) (insert_entry nat_cmp self.now id entry.now) }
    {
        let others = any_besides(&self.entries, id, test, key);
        passes(entry, test, key) || others
    }
}
