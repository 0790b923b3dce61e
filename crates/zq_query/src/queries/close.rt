//! Closing: a face's entries are released, and its requests get no replies and no finals any more.
ghost use Rattle.std.specs.Prelude.{◌≡◌, ◌++◌, [], ℕ, map, IfOk, OnErr, OnOk};
ghost use Rattle.std.specs.List.{filter_map, cons_option};
ghost use Rattle.std.specs.List.Sorted.{IsStrictlySortedBy};
ghost use Rattle.std.specs.Map.{keys_of};
ghost use Rattle.std.specs.Ordering.{nat_cmp};
ghost use Rattle.zq_query.specs.Records.{letting_go, letting_go_all};
ghost use Rattle.zq_query.specs.FaceEntries.{entries_of_face, ending, has_key};
ghost use Rattle.zq_query.specs.Closing.{at_face, closed_with, closing_finals, after_close};

use crate::numbers::Numbers;
use crate::queries::{Open, Owed, Queries, listed};
use crate::records::{Final, FinalList};
use std::alloc::Global;
use std::collections::{BTreeMap, BTreeSet};
use zq_message::items::Items;
use zq_message::memory::OutOfMemory;
use zq_message::message::FaceId;

/// The face's entries, by id.
fn places_in(
    alloc: Global,
    pending: &BTreeMap<(u32, u32), Owed>,
    face: u32,
) -> Result<Vec<(u32, u32)>, OutOfMemory>
    ensures { IfOk result (λ places. places.items ≡ keys_of (entries_of_face face pending.now.entries)) }
{
    let mut places = Vec::new(alloc);
    for (place, _) in pending.range((face, 0)..=(face, u32::MAX)) {
        places.push(*place)?;
    }
    Ok(places)
}

/// The number of the request of each of the face's entries.
fn numbers_in(
    alloc: Global,
    pending: &BTreeMap<(u32, u32), Owed>,
    face: u32,
) -> Result<Vec<u64>, OutOfMemory>
    ensures { IfOk result (λ numbers. numbers.items ≡ map (λ e. e.1.number) (entries_of_face face pending.now.entries)) }
{
    let mut numbers = Vec::new(alloc);
    for (_, owed) in pending.range((face, 0)..=(face, u32::MAX)) {
        numbers.push(owed.number)?;
    }
    Ok(numbers)
}

/// The numbers as a set.
fn set_of(alloc: Global, numbers: &[u64]) -> Result<BTreeSet<u64>, OutOfMemory>
    ensures { IfOk result (λ set. (n : ℕ) → has_key nat_cmp n set.keys ≡ has_key nat_cmp n numbers.now) }
{
    let mut set = BTreeSet::new(alloc);
    for number in numbers {
        match set.insert(*number) {
            Ok(_) => {}
            Err(_) => return Err(OutOfMemory),
        }
    }
    Ok(set)
}

/// The numbers in order, each once.
fn in_order(alloc: Global, numbers: &[u64]) -> Result<Vec<u64>, OutOfMemory>
    ensures members { IfOk result (λ list. (n : ℕ) → has_key nat_cmp n list.items ≡ has_key nat_cmp n numbers.now) }
    ensures order { IfOk result (λ list. IsStrictlySortedBy nat_cmp list.items) }
{
    let set = set_of(alloc, numbers)?;
    listed(alloc, &set)
}

/// The final of a request whose one entry is released while the face closes.
fn final_if_last(
    heads: &Numbers<Open>,
    closed: &BTreeSet<u32>,
    number: u64,
    face: u32,
) -> Option<Final>
    ensures { result ≡ ending heads.now.entries (closed_with face closed.now.keys) number }
{
    let open = heads.get(number)?;
    if open.pending != 1 {
        return None;
    }
    if open.in_flight != 0 {
        return None;
    }
    if open.asker.0 == face {
        return None;
    }
    if closed.contains(&open.asker.0) {
        return None;
    }
    Some(Final {
        number,
        asker: open.asker,
        id: open.id,
        qos: open.qos,
    })
}

/// One more final, if there is one.
fn push_some(finals: &mut FinalList, last: Option<Final>) -> Result<(), OutOfMemory>
    ensures { OnOk result (finals.new ≡ finals.old ++ cons_option last []) }
{
    match last {
        Some(last) => finals.push(last),
        None => Ok(()),
    }
}

/// The finals of these requests, while the face closes.
fn finals_in(
    alloc: Global,
    heads: &Numbers<Open>,
    closed: &BTreeSet<u32>,
    numbers: &[u64],
    face: u32,
) -> Result<FinalList, OutOfMemory>
    ensures { IfOk result (λ finals. finals ≡ filter_map (ending heads.now.entries (closed_with face closed.now.keys)) numbers.now) }
{
    let mut finals = Items::new(alloc);
    for number in numbers {
        let last = final_if_last(heads, closed, *number, face);
        match push_some(&mut finals, last) {
            Ok(()) => {}
            Err(_) => return Err(OutOfMemory),
        }
    }
    Ok(finals)
}

impl Queries {
    /// The face's entries, by id.
    fn places_at(&self, face: FaceId) -> Result<Vec<(u32, u32)>, OutOfMemory>
        ensures { IfOk result (λ places. letting_go_all self.now.records places.items ≡ letting_go (at_face face.0) self.now.records) }
    {
        let places = places_in(self.alloc, &self.pending, face.0)?;
        Ok(places)
    }

    /// The finals that the closing of the face hands, by number.
    pub fn would_close(&self, face: FaceId) -> Result<FinalList, OutOfMemory>
        ensures { IfOk result (λ finals. finals ≡ closing_finals face.0 self.now) }
    {
        let listed = numbers_in(self.alloc, &self.pending, face.0)?;
        let numbers = in_order(self.alloc, listed.as_slice())?;
        let finals = finals_in(
            self.alloc,
            &self.heads,
            &self.closed,
            numbers.as_slice(),
            face.0,
        )?;
        Ok(finals)
    }

    /// From here on the face is closed.
    fn mark_closed(&mut self, face: FaceId) -> Result<(), OutOfMemory>
        ensures ok { OnOk result (self.new ≡ record self.old { closed = closed_with face.0 self.old.closed }) }
        ensures err { OnErr result (self.new ≡ self.old) }
    {
        match self.closed.insert(face.0) {
            Ok(_) => Ok(()),
            Err(_) => Err(OutOfMemory),
        }
    }

    /// Closes a face: its entries are released, and from here on the requests that it asked get no
    /// reply number and no final; those that end with it are what `would_close` answered. Where memory
    /// is lacking all is as it was.
    pub fn close_planned(&mut self, face: FaceId) -> Result<(), OutOfMemory>
        ensures after { OnOk result (self.new ≡ after_close face.0 self.old) }
        ensures err { OnErr result (self.new ≡ self.old) }
    {
        let places = self.places_at(face)?;
        self.mark_closed(face)?;
        self.drop_all(places.as_slice());
        Ok(())
    }

    /// Closes a face: its entries are released, and from here on the requests that it asked get no
    /// reply number and no final. The finals stand by number. Where memory is lacking all is as it
    /// was. Upstream: `close_face`.
    pub fn close(&mut self, face: FaceId) -> Result<FinalList, OutOfMemory>
        ensures finals { IfOk result (λ finals. finals ≡ closing_finals face.0 self.old) }
        ensures after { OnOk result (self.new ≡ after_close face.0 self.old) }
        ensures err { OnErr result (self.new ≡ self.old) }
    {
        let finals = self.would_close(face)?;
        self.close_planned(face)?;
        Ok(finals)
    }
}
