//! What was told of each key, and rooms for more: a key that is about to be told has its place before
//! anything changes.
ghost use Rattle.std.specs.Prelude.{◌≡◌, [], ℕ, List, true, None, Some, OnOk, OnErr, IfOk, is_some};
ghost use Rattle.std.specs.Map.{keys_of, remove_entry, set_value};
ghost use Rattle.std.specs.BTreeMap.{insert_entry, is_at};
ghost use Rattle.zq_index.specs.Texts.{at_text, text_cmp, texts_of};
ghost use Rattle.zq_told.specs.Rooms.{IsRoomy, entries_in, has_room, is_free};
ghost use Rattle.zq_told.specs.Telling.{put_row};

use crate::types::ToldEntry;
use std::alloc::Global;
use std::collections::BTreeMap;
use std::marker::Model;
use zq_key::items::Items;
use zq_key::memory::OutOfMemory;
use zq_key::message::TextList;
use zq_key::text::Text;

/// Keys with their entries, or with room for one.
type SlotMap = BTreeMap<String, Option<ToldEntry>>;

/// What was told of each key, by text; a key without an entry is room for one.
#[derive(Drop)]
pub(crate) struct Slots {
    slots: SlotMap,
}

impl Model for Slots {
    ghost use Rattle.std.specs.List.Sorted.{IsStrictlySortedBy};
    ghost use Rattle.std.specs.Map.{keys_of};
    ghost use Rattle.zq_index.specs.Texts.{text_cmp, texts_of};
    ghost use Rattle.zq_told.specs.Rooms.{Shelf, entries_in};

    ghost Value = { Shelf };

    ghost view = { λ s. record { told = entries_in (texts_of s.slots.entries); rooms = keys_of (texts_of s.slots.entries) } };

    ghost invariant = { λ s. IsStrictlySortedBy text_cmp (keys_of (texts_of s.slots.entries)) };
}

/// What stands at the key: its entry, or room for one.
#[tactic(auto, using(zq_index::proofs::Texts::text_lookup))]
fn slot_at(slots: &SlotMap, key: &str) -> Option<Option<ToldEntry>>
    ensures { result ≡ at_text key.now (texts_of slots.now.entries) }
{
    slots.get(key).copied()
}

/// Whether there is room at the key, and no entry.
fn is_room(slots: &SlotMap, key: &str) -> bool
    ensures { result ≡ is_free (at_text key.now (texts_of slots.now.entries)) }
{
    match slot_at(slots, key) {
        Some(None) => true,
        Some(Some(_)) => false,
        None => false,
    }
}

/// Room at a key.
#[tactic(auto, using(zq_index::proofs::Texts::text_insert))]
fn insert_room(slots: &mut SlotMap, alloc: Global, key: &str) -> Result<(), OutOfMemory>
    ensures ok { OnOk result (texts_of slots.new.entries ≡ insert_entry text_cmp (texts_of slots.old.entries) key.now None) }
    ensures err { OnErr result (texts_of slots.new.entries ≡ texts_of slots.old.entries) }
{
    let text = String::from_str(alloc, key)?;
    match slots.insert(text, None) {
        Ok(_) => Ok(()),
        Err(_) => Err(OutOfMemory),
    }
}

/// The key goes.
#[tactic(auto, using(zq_index::proofs::Texts::text_remove))]
fn remove_slot(slots: &mut SlotMap, key: &str)
    ensures { texts_of slots.new.entries ≡ remove_entry (is_at (text_cmp key.now)) (texts_of slots.old.entries) }
{
    let _ = slots.remove(key);
}

/// A key that is there becomes the entry.
#[tactic(auto, using(zq_index::proofs::Texts::text_lookup, zq_index::proofs::Texts::text_set))]
fn set_slot(slots: &mut SlotMap, key: &str, entry: Option<ToldEntry>)
    requires { is_some (at_text key.now (texts_of slots.old.entries)) ≡ true }
    ensures { texts_of slots.new.entries ≡ set_value (is_at (text_cmp key.now)) (texts_of slots.old.entries) entry }
{
    match slots.get_mut(key) {
        Some(slot) => *slot = entry,
        None => unreachable!(),
    }
}

/// The keys of which something was told, in order.
fn told_keys(slots: &SlotMap, alloc: Global) -> Result<TextList, OutOfMemory>
    ensures { IfOk result (λ ks. ks ≡ keys_of (entries_in (texts_of slots.now.entries))) }
{
    let mut keys = Items::new(alloc);
    for (key, slot) in slots {
        if slot.is_some() {
            keys.push(Text::new(alloc, key.as_str())?)?;
        }
    }
    Ok(keys)
}

impl Slots {
    /// Nothing was told.
    pub(crate) fn new(alloc: Global) -> Slots
        ensures told { result.told ≡ [] }
        ensures rooms { result.rooms ≡ [] }
    {
        Slots {
            slots: BTreeMap::new(alloc),
        }
    }

    /// What was told of the key.
    pub(crate) fn get(&self, key: &str) -> Option<ToldEntry>
        ensures { result ≡ at_text key.now self.now.told }
    {
        match slot_at(&self.slots, key) {
            Some(slot) => slot,
            None => None,
        }
    }

    /// The keys of which something was told, in order.
    pub(crate) fn told_keys(&self, alloc: Global) -> Result<TextList, OutOfMemory>
        ensures { IfOk result (λ ks. ks ≡ keys_of self.now.told) }
    {
        told_keys(&self.slots, alloc)
    }

    /// Room for what is told of the key.
    pub(crate) fn add_room(&mut self, alloc: Global, key: &str) -> Result<(), OutOfMemory>
        ensures told { self.new.told ≡ self.old.told }
        ensures room { OnOk result (has_room self.new key.now ≡ true) }
        ensures others { (q : List ℕ) → has_room self.old q ≡ true → has_room self.new q ≡ true }
    {
        if slot_at(&self.slots, key).is_some() {
            return Ok(());
        }
        insert_room(&mut self.slots, alloc, key)?;
        Ok(())
    }

    /// The key's room is given back, if it is one.
    pub(crate) fn give_back(&mut self, key: &str)
        ensures told { self.new.told ≡ self.old.told }
        ensures bare { has_room self.new key.now ≡ true → is_some (at_text key.now self.new.told) ≡ true }
        ensures fewer { (q : List ℕ) → has_room self.new q ≡ true → has_room self.old q ≡ true }
    {
        if is_room(&self.slots, key) {
            remove_slot(&mut self.slots, key);
        }
    }

    /// This was told of the key from now on, or nothing. A key that is told has room.
    pub(crate) fn set(&mut self, key: &str, entry: Option<ToldEntry>)
        requires { IsRoomy (has_room self.old) (key.now, entry) }
        ensures told { self.new.told ≡ put_row self.old.told (key.now, entry) }
        ensures rooms { (q : List ℕ) → has_room self.new q ≡ has_room self.old q }
    {
        if slot_at(&self.slots, key).is_some() {
            set_slot(&mut self.slots, key, entry);
        }
    }
}
