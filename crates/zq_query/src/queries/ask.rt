//! Asking: a new request owes each of its targets an entry.
ghost use Rattle.std.specs.Prelude.{◌≡◌, ◌+◌, ◌-◌, ◌<◌, ◌≤◌, ◌^◌, true, false, map, length, IfOk, OnOk, OnErr, IsErrOf, take, ℕ, ◌&&◌};
ghost use Rattle.std.specs.List.{list_any, AllByRecursion};
ghost use Rattle.std.specs.List.Sorted.{IsStrictlySortedBy};
ghost use Rattle.std.specs.Map.{keys_of};
ghost use Rattle.std.specs.BTreeMap.{insert_entry};
ghost use Rattle.std.specs.Ordering.{nat_cmp};
ghost use Rattle.zq_query.specs.Tables.{at_number, filled, AreAbsent, all_rise};
ghost use Rattle.zq_query.specs.Asking.{are_distinct, face_numbers, is_full, lacks_number, given_id, given_place, giving, after_ask, asking_at, IsPlan};

use crate::numbers::Numbers;
use crate::queries::{Open, Owed, Queries, still_rising};
use crate::records::{AskRefusal, Asked, PlaceList, U32List};
use std::alloc::Global;
use std::collections::BTreeMap;
use zq_message::items::Items;
use zq_message::memory::OutOfMemory;
use zq_message::message::FaceId;

/// The entries at the first places are taken out again.
fn empty(pending: &mut BTreeMap<(u32, u32), Owed>, places: &[(u32, u32)], count: usize)
    requires within { count < length places.now + 1 }
    ensures { (es : _) (v : _) → AreAbsent es v places.now → pending.old.entries ≡ filled es (take count places.now) v → pending.new.entries ≡ es }
{
    for step in 0..count {
        let _ = pending.remove(&places[count - 1 - step]);
    }
}

/// An entry is put in at each place, alike; all or none.
fn fill(
    pending: &mut BTreeMap<(u32, u32), Owed>,
    places: &[(u32, u32)],
    owed: Owed,
) -> Result<(), OutOfMemory>
    requires { AreAbsent pending.old.entries owed places.now }
    ensures ok { OnOk result (pending.new.entries ≡ filled pending.old.entries places.now owed) }
    ensures err { OnErr result (pending.new.entries ≡ pending.old.entries) }
{
    for i in 0..places.len() {
        match pending.insert(places[i], owed) {
            Ok(_) => {}
            Err(_) => {
                empty(pending, places, i);
                return Err(OutOfMemory);
            }
        }
    }
    Ok(())
}

/// Each face is given its id, as the last one given there, where there is room for all of them.
/// Whether ids still rise, if they did before.
fn give_all(last_ids: &mut Numbers<u32>, places: &[(u32, u32)], rising: bool) -> bool
    requires { length places.now ≤ last_ids.old.spare }
    ensures given { last_ids.new.entries ≡ giving last_ids.old.entries places.now }
    ensures rising { result ≡ (rising && all_rise last_ids.old.entries places.now) }
{
    let mut still = rising;
    for place in places {
        let before = last_ids.put(place.0 as u64, place.1);
        still = still_rising(still, before, place.1);
    }
    still
}

/// The face, and the id there.
fn place_of(face: u32, id: u32) -> (u32, u32)
    ensures is { result ≡ (face, id) }
    ensures small { (result.0 < 2 ^ 32) × (result.1 < 2 ^ 32) }
{
    (face, id)
}

/// A copy of the places.
fn copy_of(alloc: Global, places: &[(u32, u32)]) -> Result<PlaceList, OutOfMemory>
    ensures { IfOk result (λ copy. copy ≡ places.now) }
{
    Ok(Items::from_vec(Vec::from_slice(alloc, places)?))
}

/// The ids of the places.
fn ids_in(alloc: Global, places: &[(u32, u32)]) -> Result<U32List, OutOfMemory>
    ensures { IfOk result (λ ids. ids ≡ map (λ p. p.1) places.now) }
{
    let mut ids = Vec::with_capacity(alloc, places.len())?;
    for (_, id) in places {
        ids.push(*id)?;
    }
    Ok(Items::from_vec(ids))
}

impl Queries {
    /// The place of each target, in their order.
    fn places_for(&self, targets: &[FaceId]) -> Result<PlaceList, AskRefusal>
        ensures places { IfOk result (λ places. places ≡ map (given_place self.now) targets.now) }
        ensures small { IfOk result (λ places. AllByRecursion (λ p. (p.0 < 2 ^ 32) × (p.1 < 2 ^ 32)) places) }
        ensures free { OnOk result (list_any (is_full self.now) targets.now ≡ false) }
        ensures no_free { IsErrOf result AskRefusal.NoFreeId → list_any (is_full self.now) targets.now ≡ true }
    {
        let Ok(room) = Vec::with_capacity(self.alloc, targets.len()) else {
            return Err(AskRefusal::OutOfMemory);
        };
        let mut places = Items::from_vec(room);
        for target in targets {
            let Some(id) = self.next_id(*target) else {
                return Err(AskRefusal::NoFreeId);
            };
            match places.push(place_of(target.0, id)) {
                Ok(()) => {}
                Err(_) => return Err(AskRefusal::OutOfMemory),
            }
        }
        Ok(places)
    }

    /// The places that a request would be given at its targets, in their order: each with its next id.
    /// `NoFreeId` where the number 2^64 - 1 is next or a target has no free id.
    pub fn plan(&self, targets: &[FaceId]) -> Result<PlaceList, AskRefusal>
        requires { are_distinct (face_numbers targets.now) ≡ true }
        ensures places { IfOk result (λ places. places ≡ map (given_place self.now) targets.now) }
        ensures fits { IfOk result (λ places. IsPlan self.now places) }
        ensures free { OnOk result (lacks_number targets.now self.now ≡ false) }
        ensures no_free { IsErrOf result AskRefusal.NoFreeId → lacks_number targets.now self.now ≡ true }
    {
        if self.requests == u64::MAX {
            return Err(AskRefusal::NoFreeId);
        }
        let places = self.places_for(targets)?;
        Ok(places)
    }

    /// A new request owes an entry at each place, under the place's id as the last given there; all
    /// or none. The places are listed under its deadline.
    fn enter(
        &mut self,
        opened: Open,
        places: &[(u32, u32)],
        listed: PlaceList,
        deadline: u64,
    ) -> Result<(), OutOfMemory>
        requires plan { IsPlan self.old places.now }
        requires some { 0 < length places.now }
        requires listed { listed ≡ places.now }
        requires counts { (opened.pending ≡ length places.now) × (opened.in_flight ≡ 0) }
        ensures ok { OnOk result (self.new ≡ asking_at opened.asker opened.id opened.qos places.now deadline self.old) }
        ensures err { OnErr result (self.new ≡ self.old) }
    {
        let number = self.requests;
        self.heads.reserve(1)?;
        self.last_ids.reserve(places.len())?;
        match self.dues.insert((deadline, number), listed) {
            Ok(_) => {}
            Err(_) => return Err(OutOfMemory),
        }
        match fill(&mut self.pending, places, Owed { number, deadline }) {
            Ok(()) => {}
            Err(_) => {
                let _ = self.dues.remove(&(deadline, number));
                return Err(OutOfMemory);
            }
        }
        self.rising = give_all(&mut self.last_ids, places, self.rising);
        self.heads.put(number, opened);
        self.requests += 1;
        Ok(())
    }

    /// The request without a record takes its number.
    fn skip_number(&mut self)
        requires { self.old.requests + 1 < 2 ^ 64 }
        ensures { self.new ≡ record self.old { requests = self.old.requests + 1 } }
    {
        self.requests += 1;
    }

    /// Accepts a request: it has the next number, and owes an entry at each place of the plan, whose
    /// id is the last given there from here on. Where memory is lacking all is as it was.
    pub fn ask_planned(
        &mut self,
        asker: FaceId,
        id: u32,
        qos: u8,
        places: &[(u32, u32)],
        deadline: u64,
    ) -> Result<(), OutOfMemory>
        requires { IsPlan self.old places.now }
        ensures ok { OnOk result (self.new ≡ asking_at asker id qos places.now deadline self.old) }
        ensures err { OnErr result (self.new ≡ self.old) }
    {
        if places.is_empty() {
            self.skip_number();
            return Ok(());
        }
        let opened = Open {
            asker,
            id,
            qos,
            pending: places.len() as u64,
            in_flight: 0,
        };
        let listed = copy_of(self.alloc, places)?;
        self.enter(opened, places, listed, deadline)
    }

    /// Accepts a request: it has the next number, and owes an entry at each target, under the next
    /// id there. `NoFreeId` where the number 2^64 - 1 is next or a target has no free id. A refusal
    /// leaves all as it was. Upstream: `route_query`.
    pub fn ask(
        &mut self,
        asker: FaceId,
        id: u32,
        qos: u8,
        targets: &[FaceId],
        deadline: u64,
    ) -> Result<Asked, AskRefusal>
        requires { are_distinct (face_numbers targets.now) ≡ true }
        ensures number { IfOk result (λ asked. asked.number ≡ self.old.requests) }
        ensures ids { IfOk result (λ asked. asked.ids ≡ map (given_id self.old) targets.now) }
        ensures free { OnOk result (lacks_number targets.now self.old ≡ false) }
        ensures after { OnOk result (self.new ≡ after_ask asker id qos targets.now deadline self.old) }
        ensures no_free { IsErrOf result AskRefusal.NoFreeId → lacks_number targets.now self.old ≡ true }
        ensures err { OnErr result (self.new ≡ self.old) }
    {
        let number = self.requests;
        let places = self.plan(targets)?;
        let Ok(ids) = ids_in(self.alloc, places.as_slice()) else {
            return Err(AskRefusal::OutOfMemory);
        };
        match self.ask_planned(asker, id, qos, places.as_slice(), deadline) {
            Ok(()) => Ok(Asked { number, ids }),
            Err(_) => Err(AskRefusal::OutOfMemory),
        }
    }
}
