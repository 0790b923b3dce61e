//! What one face was told, and the id that it was given last.
ghost use Rattle.std.specs.Prelude.{◌≡◌, [], ℕ, List, true, OnOk, IfOk, fold};
ghost use Rattle.std.specs.List.{All};
ghost use Rattle.std.specs.Map.{keys_of};
ghost use Rattle.zq_index.specs.Texts.{at_text};
ghost use Rattle.zq_told.specs.Rooms.{IsBare, IsRoomy, has_room};
ghost use Rattle.zq_told.specs.Telling.{put_row};

use crate::slots::Slots;
use crate::types::ToldEntry;
use std::alloc::Global;
use std::marker::Model;
use zq_key::memory::OutOfMemory;
use zq_key::message::TextList;
use zq_key::text::Text;

/// The id given last, and what was told of each key.
pub(crate) struct Book {
    last: u32,
    slots: Slots,
}

impl Drop for Book {
    fn drop(self) {
        let Book { last, slots } = self;
    }
}

impl Model for Book {
    ghost use Rattle.zq_told.specs.Rooms.{Book};

    ghost Value = { Book };

    ghost view = { λ b. record { last = b.last; shelf = b.slots } };
}

/// Room for a row that tells.
fn add_room(
    slots: &mut Slots,
    alloc: Global,
    key: &Text,
    entry: Option<ToldEntry>,
) -> Result<(), OutOfMemory>
    ensures told { slots.new.told ≡ slots.old.told }
    ensures room { OnOk result (IsRoomy (has_room slots.new) (key.now, entry)) }
    ensures others { (q : List ℕ) → has_room slots.old q ≡ true → has_room slots.new q ≡ true }
{
    if entry.is_none() {
        return Ok(());
    }
    slots.add_room(alloc, key.as_str())?;
    Ok(())
}

/// Room for each row that tells.
fn add_rooms(
    slots: &mut Slots,
    alloc: Global,
    rows: &[(Text, Option<ToldEntry>)],
) -> Result<(), OutOfMemory>
    ensures told { slots.new.told ≡ slots.old.told }
    ensures rooms { OnOk result (All (IsRoomy (has_room slots.new)) rows.now) }
    ensures others { (q : List ℕ) → has_room slots.old q ≡ true → has_room slots.new q ≡ true }
{
    for (key, entry) in rows {
        add_room(slots, alloc, key, *entry)?;
    }
    Ok(())
}

/// The rooms of rows are given back.
fn give_back(slots: &mut Slots, rows: &[(Text, Option<ToldEntry>)])
    ensures told { slots.new.told ≡ slots.old.told }
    ensures bare { All (IsBare slots.new) rows.now }
    ensures fewer { (q : List ℕ) → has_room slots.new q ≡ true → has_room slots.old q ≡ true }
{
    for (key, _) in rows {
        slots.give_back(key.as_str());
    }
}

/// A key becomes its entry.
fn set_row(slots: &mut Slots, row: &(Text, Option<ToldEntry>))
    requires { IsRoomy (has_room slots.old) row.now }
    ensures told { slots.new.told ≡ put_row slots.old.told row.now }
    ensures rooms { (q : List ℕ) → has_room slots.new q ≡ has_room slots.old q }
{
    slots.set(row.0.as_str(), row.1);
}

/// Each key becomes its entry.
fn set_all(slots: &mut Slots, rows: &[(Text, Option<ToldEntry>)])
    requires { All (IsRoomy (has_room slots.old)) rows.now }
    ensures told { slots.new.told ≡ fold put_row slots.old.told rows.now }
    ensures rooms { (q : List ℕ) → has_room slots.new q ≡ has_room slots.old q }
{
    for row in rows {
        set_row(slots, row);
    }
}

impl Book {
    /// Nothing was told, and there is room for nothing.
    pub(crate) fn new(alloc: Global, last: u32) -> Book
        ensures last { result.last ≡ last }
        ensures told { result.shelf.told ≡ [] }
        ensures rooms { result.shelf.rooms ≡ [] }
    {
        Book {
            last,
            slots: Slots::new(alloc),
        }
    }

    /// The id given last.
    pub(crate) fn last(&self) -> u32
        ensures { result ≡ self.now.last }
    {
        self.last
    }

    /// What was told of the key.
    pub(crate) fn get(&self, key: &str) -> Option<ToldEntry>
        ensures { result ≡ at_text key.now self.now.shelf.told }
    {
        self.slots.get(key)
    }

    /// The keys of which something was told, in order.
    pub(crate) fn told_keys(&self, alloc: Global) -> Result<TextList, OutOfMemory>
        ensures { IfOk result (λ ks. ks ≡ keys_of self.now.shelf.told) }
    {
        self.slots.told_keys(alloc)
    }

    /// Room for each row that tells.
    pub(crate) fn add_rooms(
        &mut self,
        alloc: Global,
        rows: &[(Text, Option<ToldEntry>)],
    ) -> Result<(), OutOfMemory>
        ensures last { self.new.last ≡ self.old.last }
        ensures told { self.new.shelf.told ≡ self.old.shelf.told }
        ensures rooms { OnOk result (All (IsRoomy (has_room self.new.shelf)) rows.now) }
        ensures others { (q : List ℕ) → has_room self.old.shelf q ≡ true → has_room self.new.shelf q ≡ true }
    {
        add_rooms(&mut self.slots, alloc, rows)?;
        Ok(())
    }

    /// The rooms of rows are given back.
    pub(crate) fn give_back(&mut self, rows: &[(Text, Option<ToldEntry>)])
        ensures last { self.new.last ≡ self.old.last }
        ensures told { self.new.shelf.told ≡ self.old.shelf.told }
        ensures bare { All (IsBare self.new.shelf) rows.now }
        ensures fewer { (q : List ℕ) → has_room self.new.shelf q ≡ true → has_room self.old.shelf q ≡ true }
    {
        give_back(&mut self.slots, rows);
    }

    /// Each key becomes its entry, and this is the id given last. A row that tells has room.
    pub(crate) fn put(&mut self, last: u32, rows: &[(Text, Option<ToldEntry>)])
        requires { All (IsRoomy (has_room self.old.shelf)) rows.now }
        ensures last { self.new.last ≡ last }
        ensures told { self.new.shelf.told ≡ fold put_row self.old.shelf.told rows.now }
        ensures rooms { (q : List ℕ) → has_room self.new.shelf q ≡ has_room self.old.shelf q }
    {
        self.last = last;
        set_all(&mut self.slots, rows);
    }
}
