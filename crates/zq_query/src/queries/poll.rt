//! Polling: the entries whose deadlines have come are released, with an error reply each.
ghost use Rattle.std.specs.Prelude.{◌≡◌, ◌∷◌, ◌||◌, if◌then◌else◌, ◌+◌, ◌-◌, ◌<◌, ◌≤◌, ◌^◌, ◌++◌, [], map, false, true, IfOk, OnOk, OnErr, IsErrOf};
ghost use Rattle.std.specs.List.{list_any, cons_option, filter, filter_map};
ghost use Rattle.std.specs.List.Sorted.{IsStrictlySortedBy};
ghost use Rattle.std.specs.Option.{option_map, IsSome};
ghost use Rattle.zq_query.specs.Records.{QueryState, request, any_entry, has_number, landing};
ghost use Rattle.zq_query.specs.Closing.{finals_after};
ghost use Rattle.zq_query.specs.Polling.{is_due, is_amiss, dues_at, timed_out, after_timeout, landing_from, timeouts_of, timeouts, numbers_in, lacks_replies, timing_out, after_poll, has_reply_from, lacks_record};
ghost use Rattle.zq_query.specs.Tables.{Due, due_cmp};
ghost use Rattle.zq_query.specs.FaceEntries.{has_key};
ghost use Rattle.zq_query.specs.DueEntries.{is_owed_at, live_until, due_at};

use crate::queries::{Owed, Queries, listed};
use crate::records::{PlaceList, PollRefusal, Timeout, TimeoutList};
use std::alloc::Global;
use std::collections::{BTreeMap, BTreeSet};
use zq_message::items::Items;
use zq_message::memory::OutOfMemory;
use zq_message::message::FaceId;

/// The place, if it is wanted.
fn push_if(live: &mut Vec<(u32, u32)>, place: (u32, u32), wanted: bool) -> Result<(), OutOfMemory>
    ensures { OnOk result (live.new.items ≡ live.old.items ++ (if wanted then place ∷ [] else [])) }
{
    if !wanted {
        return Ok(());
    }
    match live.push(place) {
        Ok(()) => Ok(()),
        Err(_) => Err(OutOfMemory),
    }
}

/// Of the places those where the request still owes its entry, one after another.
fn push_live(
    live: &mut Vec<(u32, u32)>,
    pending: &BTreeMap<(u32, u32), Owed>,
    places: &[(u32, u32)],
    number: u64,
) -> Result<(), OutOfMemory>
    ensures { OnOk result (live.new.items ≡ live.old.items ++ filter (is_owed_at pending.now.entries number) places.now) }
{
    for place in places {
        match push_if(live, *place, is_owed_at(pending, *place, number)) {
            Ok(()) => {}
            Err(_) => return Err(OutOfMemory),
        }
    }
    Ok(())
}

/// Whether the request owes the entry at the place.
fn is_owed_at(pending: &BTreeMap<(u32, u32), Owed>, place: (u32, u32), number: u64) -> bool
    ensures { result ≡ is_owed_at pending.now.entries number place }
{
    match pending.get(&place) {
        Some(owed) => owed.number == number,
        None => false,
    }
}

/// The places of the entries that are due, of the requests below this number.
fn live_in(
    alloc: Global,
    pending: &BTreeMap<(u32, u32), Owed>,
    dues: &BTreeMap<(u64, u64), PlaceList>,
    now: u64,
    requests: u64,
) -> Result<Vec<(u32, u32)>, OutOfMemory>
    ensures { IfOk result (λ live. live.items ≡ live_until now requests pending.now.entries dues.now.entries) }
{
    let mut live = Vec::new(alloc);
    for (due, places) in dues.range(..(now, requests)) {
        push_live(&mut live, pending, places.as_slice(), due.1)?;
    }
    Ok(live)
}

/// Deadline, number and face of what is owed at the place, if something is.
fn put_due(
    set: &mut BTreeSet<(u64, u64, u32)>,
    pending: &BTreeMap<(u32, u32), Owed>,
    place: (u32, u32),
) -> Result<(), OutOfMemory>
    ensures { OnOk result ((q : Due) → has_key due_cmp q set.new.keys ≡ (has_key due_cmp q set.old.keys || has_key due_cmp q (cons_option (due_at pending.now.entries place) []))) }
{
    let Some(owed) = pending.get(&place) else {
        return Ok(());
    };
    match set.insert((owed.deadline, owed.number, place.0)) {
        Ok(_) => Ok(()),
        Err(_) => Err(OutOfMemory),
    }
}

/// Deadline, number and face of what is owed at the places, as a set.
fn dues_set(
    alloc: Global,
    pending: &BTreeMap<(u32, u32), Owed>,
    places: &[(u32, u32)],
) -> Result<BTreeSet<(u64, u64, u32)>, OutOfMemory>
    ensures { IfOk result (λ set. (q : Due) → has_key due_cmp q set.keys ≡ has_key due_cmp q (filter_map (due_at pending.now.entries) places.now)) }
{
    let mut set = BTreeSet::new(alloc);
    for place in places {
        match put_due(&mut set, pending, *place) {
            Ok(()) => {}
            Err(_) => return Err(OutOfMemory),
        }
    }
    Ok(set)
}

/// Deadline, number and face of what is owed at the places, in order.
fn dues_in(
    alloc: Global,
    pending: &BTreeMap<(u32, u32), Owed>,
    places: &[(u32, u32)],
) -> Result<Vec<(u64, u64, u32)>, OutOfMemory>
    ensures members { IfOk result (λ list. (q : Due) → has_key due_cmp q list.items ≡ has_key due_cmp q (filter_map (due_at pending.now.entries) places.now)) }
    ensures order { IfOk result (λ list. IsStrictlySortedBy due_cmp list.items) }
{
    let set = dues_set(alloc, pending, places)?;
    listed(alloc, &set)
}

/// One more timeout, if there is one; the answer is the reply number after it.
fn push_timeout(
    list: &mut TimeoutList,
    next: u64,
    timeout: Option<Timeout>,
) -> Result<u64, PollRefusal>
    ensures list { OnOk result (list.new ≡ list.old ++ cons_option timeout []) }
    ensures next { IfOk result (λ after. after ≡ next + numbers_in (cons_option timeout [])) }
    ensures fits { IfOk result (λ after. after < 2 ^ 64) }
    ensures no_free { IsErrOf result PollRefusal.NoFreeId → next + numbers_in (cons_option timeout []) ≡ 2 ^ 64 }
{
    let Some(timeout) = timeout else {
        return Ok(next);
    };
    if timeout.reply.is_none() {
        return match list.push(timeout) {
            Ok(()) => Ok(next),
            Err(_) => Err(PollRefusal::OutOfMemory),
        };
    }
    if next == u64::MAX {
        return Err(PollRefusal::NoFreeId);
    }
    match list.push(timeout) {
        Ok(()) => Ok(next + 1),
        Err(_) => Err(PollRefusal::OutOfMemory),
    }
}

impl Queries {
    /// Deadline, number and face of the entries that are due.
    fn dues_by(&self, now: u64) -> Result<Vec<(u64, u64, u32)>, OutOfMemory>
        ensures { IfOk result (λ dues. dues.items ≡ dues_at now self.now.records) }
    {
        let places = live_in(self.alloc, &self.pending, &self.dues, now, self.requests)?;
        let dues = dues_in(self.alloc, &self.pending, places.as_slice())?;
        Ok(dues)
    }

    /// The timeout of an entry that is due, with this reply number if it takes one.
    fn timeout_of(&self, next: u64, due: &(u64, u64, u32)) -> Option<Timeout>
        ensures { result ≡ option_map (timed_out self.now next due.now) (request due.now.1 self.now.records) }
    {
        let found = self.request(due.1)?;
        let mut reply = None;
        if !self.is_closed(found.asker) {
            reply = Some(next);
        }
        Some(Timeout {
            number: found.number,
            asker: found.asker,
            id: found.id,
            qos: found.qos,
            target: FaceId(due.2),
            reply,
        })
    }

    /// A timeout for each of these.
    fn timeouts_for(&self, dues: &[(u64, u64, u32)]) -> Result<TimeoutList, PollRefusal>
        ensures list { IfOk result (λ list. list ≡ timeouts_of self.now dues.now) }
        ensures fits { IfOk result (λ list. lacks_replies list self.now ≡ false) }
        ensures no_free { IsErrOf result PollRefusal.NoFreeId → lacks_replies (timeouts_of self.now dues.now) self.now ≡ true }
    {
        let mut list = Items::new(self.alloc);
        let mut next = self.next_reply;
        for due in dues {
            let timeout = self.timeout_of(next, due);
            match push_timeout(&mut list, next, timeout) {
                Ok(after) => next = after,
                Err(PollRefusal::NoFreeId) => return Err(PollRefusal::NoFreeId),
                Err(PollRefusal::OutOfMemory) => return Err(PollRefusal::OutOfMemory),
            }
        }
        Ok(list)
    }

    /// A timeout for each entry whose deadline is at most now, in order of deadline, number and face;
    /// an error reply of each with an open asker takes the next number. `NoFreeId` where fewer reply
    /// numbers are left.
    pub fn would_poll(&self, now: u64) -> Result<TimeoutList, PollRefusal>
        ensures list { IfOk result (λ list. list ≡ timeouts now self.now) }
        ensures fits { OnOk result (lacks_replies (timeouts now self.now) self.now ≡ false) }
        ensures no_free { IsErrOf result PollRefusal.NoFreeId → lacks_replies (timeouts now self.now) self.now ≡ true }
    {
        match self.dues_by(now) {
            Ok(dues) => self.timeouts_for(dues.as_slice()),
            Err(_) => Err(PollRefusal::OutOfMemory),
        }
    }

    /// The replies from the first on are no longer in flight.
    fn land_from(&mut self, first: u64, count: u64)
        requires { first + count < 2 ^ 64 }
        ensures { self.new ≡ record self.old { records = landing_from first count self.old.records } }
    {
        for step in 0..count {
            self.land(first + (count - 1 - step));
        }
    }

    /// The replies from the first on are no longer in flight, and their numbers are free again.
    fn withdraw_replies(&mut self, first: u64)
        requires low { first ≤ self.old.replies }
        requires last { has_reply_from first (landing_from first (self.old.replies - first) self.old.records) ≡ false }
        ensures { self.new ≡ record self.old { records = landing_from first (self.old.replies - first) self.old.records; replies = first } }
    {
        let count = self.next_reply - first;
        self.land_from(first, count);
        self.next_reply = first;
    }

    /// The error reply of the timeout is put in flight.
    fn put_timeout(&mut self, timeout: &Timeout) -> Result<(), OutOfMemory>
        requires there { list_any (has_number timeout.now.number) self.old.records ≡ true }
        requires fits { IsSome timeout.now.reply → self.old.replies + 1 < 2 ^ 64 }
        ensures ok { OnOk result (self.new ≡ after_timeout self.old timeout.now) }
        ensures err { OnErr result (self.new ≡ self.old) }
    {
        match timeout.reply {
            Some(_) => self.fly(timeout.number),
            None => Ok(()),
        }
    }

    /// The error replies of the timeouts are put in flight; all or none.
    fn put_timeouts(&mut self, timeouts: &[Timeout]) -> Result<(), OutOfMemory>
        requires there { lacks_record self.old.records timeouts.now ≡ false }
        requires fits { lacks_replies timeouts.now self.old ≡ false }
        ensures ok { OnOk result (self.new ≡ timing_out timeouts.now self.old) }
        ensures err { OnErr result (self.new ≡ self.old) }
    {
        let first = self.next_reply;
        for i in 0..timeouts.len() {
            match self.put_timeout(&timeouts[i]) {
                Ok(()) => {}
                Err(_) => {
                    self.withdraw_replies(first);
                    return Err(OutOfMemory);
                }
            }
        }
        Ok(())
    }

    /// Lets go each entry whose deadline is at most now; the error reply of each timeout, as
    /// `would_poll` answered them, is in flight from here on, if it has a number. Where memory is
    /// lacking all is as it was.
    pub fn poll_planned(&mut self, now: u64, list: &[Timeout]) -> Result<(), OutOfMemory>
        requires list { list.now ≡ timeouts now self.old }
        requires fits { lacks_replies (timeouts now self.old) self.old ≡ false }
        ensures after { OnOk result (self.new ≡ after_poll now self.old) }
        ensures quiet { OnOk result (finals_after (is_due now) (timing_out (timeouts now self.old) self.old).closed (timing_out (timeouts now self.old) self.old).records ≡ []) }
        ensures err { OnErr result (self.new ≡ self.old) }
    {
        let places = live_in(self.alloc, &self.pending, &self.dues, now, self.requests)?;
        self.put_timeouts(list)?;
        self.drop_all(places.as_slice());
        Ok(())
    }

    /// Lets go each entry whose deadline is at most now, in order of deadline, number and face; an
    /// error reply of each with an open asker is in flight from here on. `NoFreeId` where fewer
    /// reply numbers are left. A refusal leaves all as it was. Upstream: the timeout of a query.
    pub fn poll(&mut self, now: u64) -> Result<TimeoutList, PollRefusal>
        ensures list { IfOk result (λ list. list ≡ timeouts now self.old) }
        ensures fits { OnOk result (lacks_replies (timeouts now self.old) self.old ≡ false) }
        ensures after { OnOk result (self.new ≡ after_poll now self.old) }
        ensures quiet { OnOk result (finals_after (is_due now) (timing_out (timeouts now self.old) self.old).closed (timing_out (timeouts now self.old) self.old).records ≡ []) }
        ensures no_free { IsErrOf result PollRefusal.NoFreeId → lacks_replies (timeouts now self.old) self.old ≡ true }
        ensures err { OnErr result (self.new ≡ self.old) }
    {
        let list = self.would_poll(now)?;
        match self.poll_planned(now, list.as_slice()) {
            Ok(()) => Ok(list),
            Err(_) => Err(PollRefusal::OutOfMemory),
        }
    }
}
