//! The open requests by number, their entries by place and by deadline, and the replies in flight.
ghost use Rattle.std.specs.Prelude.{◌≡◌, ℕ, find, true, ◌<◌, ◌-◌, ◌+◌, ◌^◌, ◌&&◌, ◌==◌, Some, None, if◌then◌else◌, OnSome, IfSome, IfNone, IfOk, OnOk, OnErr, IsErrOf, [], ◌++◌, ◌∷◌, false, length};
ghost use Rattle.std.specs.BTreeMap.{get, is_at, insert_entry};
ghost use Rattle.std.specs.Map.{remove_entry, set_value};
ghost use Rattle.std.specs.Option.{is_some, IsSome, option_map};
ghost use Rattle.std.specs.Ordering.{nat_cmp};
ghost use Rattle.std.specs.List.{list_any, cons_option};
ghost use Rattle.std.specs.List.Sorted.{IsStrictlySortedBy};
ghost use Rattle.zq_query.specs.Tables.{dues_left, flies_for, place_cmp, due_cmp, at_number, at_place, less_owed, less_flying, more_flying, is_spent, final_at, rises};
ghost use Rattle.zq_query.specs.declared.records.Final.{Final};
ghost use Rattle.zq_query.specs.Orderly.{IsOrderly};
ghost use Rattle.zq_query.specs.Closing.{finals_after, finals_landed};
ghost use Rattle.zq_query.specs.Records.{is_pending, is_entry, is_closed, final_if_open, request, owner, next_reply, lacks_reply, after_put, after_reply, first_free, next_id, pending_count, has_number, letting_go, letting_go_all, has_deadline, has_earlier, owes_any, over_after, ending_after, ending_landed, is_in_flight, flies, landing, over_after_reply};

mod ask;
mod close;
mod poll;

use crate::numbers::Numbers;
use crate::records::{Final, NotInFlight, PlaceList, QueryNotFound, ReplyRefusal, ReplyTo};
use std::alloc::Global;
use std::collections::{BTreeMap, BTreeSet};
use std::marker::Model;
use zq_message::memory::OutOfMemory;
use zq_message::message::FaceId;

/// An open request, with the counts of what is left of it.
#[derive(Clone, Copy)]
pub struct Open {
    /// The face that asked.
    pub asker: FaceId,
    /// The id that the asker gave.
    pub id: u32,
    /// The quality byte that the asker gave.
    pub qos: u8,
    /// How many targets still owe their final.
    pub pending: u64,
    /// How many of its replies are not yet reported as sent.
    pub in_flight: u64,
}

/// What a target owes.
#[derive(Clone, Copy)]
pub struct Owed {
    /// The number of the request.
    pub number: u64,
    /// The moment that ends the wait for it, in milliseconds.
    pub deadline: u64,
}

/// All open requests, and what is left of each (upstream's `pending_queries` of all faces).
pub struct Queries {
    alloc: Global,
    heads: Numbers<Open>,
    pending: BTreeMap<(u32, u32), Owed>,
    dues: BTreeMap<(u64, u64), PlaceList>,
    replies: BTreeMap<u64, u64>,
    last_ids: Numbers<u32>,
    rising: bool,
    closed: BTreeSet<u32>,
    requests: u64,
    next_reply: u64,
    request_ids: u32,
}

impl Drop for Queries {
    fn drop(self) {
        let Queries {
            alloc,
            heads,
            pending,
            dues,
            replies,
            last_ids,
            rising,
            closed,
            requests,
            next_reply,
            request_ids,
        } = self;
    }
}

impl Model for Queries {
    ghost use Rattle.zq_query.specs.Records.{QueryState};
    ghost use Rattle.zq_query.specs.Tables.{IsTied, IsBelow, IsRising, records_of};

    ghost Value = { QueryState };

    ghost view = { λ q. record { records = records_of q.heads.entries q.pending.entries q.replies.entries; last_ids = q.last_ids.entries; closed = q.closed.keys; requests = q.requests; replies = q.next_reply; request_ids = q.request_ids } };

    ghost invariant = { λ q. IsTied q.heads.entries q.pending.entries q.dues.entries q.replies.entries × IsBelow q.heads.entries q.replies.entries q.requests q.next_reply × IsRising q.rising q.pending.entries q.last_ids.entries };
}

/// The count of the request goes down by one.
fn owe_less(heads: &mut Numbers<Open>, number: u64) -> Open
    requires { (o : _) × (at_number number heads.old.entries ≡ Some o) × (0 < o.pending) }
    ensures left { option_map less_owed (at_number number heads.old.entries) ≡ Some result }
    ensures heads { heads.new.entries ≡ set_value (is_at (nat_cmp number)) heads.old.entries result }
{
    let Some(mut left) = heads.get(number) else {
        unreachable!()
    };
    left.pending -= 1;
    heads.set(number, left);
    left
}

/// The deadline of a request goes with its last entry.
fn due_less(dues: &mut BTreeMap<(u64, u64), PlaceList>, owed: Owed, left: Open)
    ensures { dues.new.entries ≡ dues_left owed left dues.old.entries }
{
    if left.pending == 0 {
        let _ = dues.remove(&(owed.deadline, owed.number));
    }
}

/// The count of the request's replies in flight goes down by one.
fn fly_less(heads: &mut Numbers<Open>, number: u64) -> Open
    requires { (o : _) × (at_number number heads.old.entries ≡ Some o) × (0 < o.in_flight) }
    ensures left { option_map less_flying (at_number number heads.old.entries) ≡ Some result }
    ensures heads { heads.new.entries ≡ set_value (is_at (nat_cmp number)) heads.old.entries result }
{
    let Some(mut left) = heads.get(number) else {
        unreachable!()
    };
    left.in_flight -= 1;
    heads.set(number, left);
    left
}

/// The count of the request's replies in flight goes up by one.
fn fly_more(heads: &mut Numbers<Open>, number: u64)
    requires { (o : _) × (at_number number heads.old.entries ≡ Some o) × (o.in_flight + 1 < 2 ^ 64) }
    ensures { (o : _) → at_number number heads.old.entries ≡ Some o → heads.new.entries ≡ set_value (is_at (nat_cmp number)) heads.old.entries (more_flying o) }
{
    let Some(mut more) = heads.get(number) else {
        unreachable!()
    };
    more.in_flight += 1;
    heads.set(number, more);
}

/// Whether ids still rise: they did, and this one is not below the one before it at its face.
fn still_rising(rising: bool, before: Option<u32>, id: u32) -> bool
    ensures { result ≡ (rising && rises before id) }
{
    match before {
        Some(before) => rising && before <= id,
        None => rising,
    }
}

/// The first reply of the request.
fn first_of(replies: &BTreeMap<u64, u64>, number: u64) -> Option<u64>
    ensures { result ≡ option_map (λ e. e.0) (find (flies_for number) replies.now.entries) }
{
    for (reply, owner) in replies {
        if *owner == number {
            return Some(*reply);
        }
    }
    None
}

/// The members of a set, in order.
fn listed<K: Copy + Ord>(alloc: Global, set: &BTreeSet<K>) -> Result<Vec<K>, OutOfMemory>
    ensures members { IfOk result (λ list. list.items ≡ set.now.keys) }
    ensures order { IfOk result (λ list. IsStrictlySortedBy K.cmp list.items) }
{
    let mut list = Vec::with_capacity(alloc, set.len())?;
    for member in set {
        list.push(*member)?;
    }
    Ok(list)
}

/// The request is over where nothing of it is left.
fn settle(heads: &mut Numbers<Open>, number: u64, left: Open) -> Option<Final>
    ensures over { result ≡ (if is_spent left then Some (final_at number left) else None) }
    ensures heads { heads.new.entries ≡ (if is_spent left then remove_entry (is_at (nat_cmp number)) heads.old.entries else heads.old.entries) }
{
    if left.pending == 0 && left.in_flight == 0 {
        let _ = heads.remove(number);
        return Some(Final {
            number,
            asker: left.asker,
            id: left.id,
            qos: left.qos,
        });
    }
    None
}

impl Queries {
    /// No open requests; the next request and the next reply have these numbers, and `request_ids` is
    /// the id last given at each face.
    pub fn new(alloc: Global, requests: u64, replies: u64, request_ids: u32) -> Queries
        ensures { result ≡ record { records = []; last_ids = []; closed = []; requests = requests; replies = replies; request_ids = request_ids } }
    {
        Queries {
            alloc,
            heads: Numbers::new(alloc),
            pending: BTreeMap::new(alloc),
            dues: BTreeMap::new(alloc),
            replies: BTreeMap::new(alloc),
            last_ids: Numbers::new(alloc),
            rising: true,
            closed: BTreeSet::new(alloc),
            requests,
            next_reply: replies,
            request_ids,
        }
    }

    /// Whether the id is pending at the face.
    pub fn is_pending(&self, face: FaceId, id: u32) -> bool
        ensures { result ≡ is_pending face.0 id self.now.records }
    {
        self.pending.contains_key(&(face.0, id))
    }

    /// Whether the face was closed.
    fn is_closed(&self, face: FaceId) -> bool
        ensures { result ≡ is_closed self.now.closed face.0 }
    {
        self.closed.contains(&face.0)
    }

    /// The final, if its asker is open.
    fn if_open(&self, over: Option<Final>) -> Option<Final>
        ensures { result ≡ final_if_open self.now.closed over }
    {
        let found = over?;
        if self.is_closed(found.asker) {
            return None;
        }
        Some(found)
    }

    /// Lets the entry go, if it is there: the request's final, if nothing of it is left.
    fn let_go(&mut self, face: u32, id: u32) -> Option<Option<Final>>
        ensures there { OnSome result (is_pending face id self.old.records ≡ true) }
        ensures records { self.new ≡ record self.old { records = letting_go (is_entry face id) self.old.records } }
        ensures over { IfSome result (λ over. over ≡ over_after (is_entry face id) self.old.records) }
        ensures only { IfSome result (λ over. cons_option over [] ≡ ending_after (is_entry face id) self.old.records) }
        ensures absent { IfNone result (is_pending face id self.old.records ≡ false) }
        ensures none { IfNone result (self.new ≡ self.old) }
    {
        let Some(owed) = self.pending.remove(&(face, id)) else {
            return None;
        };
        let left = owe_less(&mut self.heads, owed.number);
        due_less(&mut self.dues, owed, left);
        Some(settle(&mut self.heads, owed.number, left))
    }

    /// The reply is no longer in flight, if it was: the request's final, if nothing of it is left.
    fn land(&mut self, reply: u64) -> Option<Option<Final>>
        ensures there { OnSome result (is_in_flight reply self.old.records ≡ true) }
        ensures records { self.new ≡ record self.old { records = landing reply self.old.records } }
        ensures over { IfSome result (λ over. over ≡ over_after_reply reply self.old.records) }
        ensures only { IfSome result (λ over. cons_option over [] ≡ ending_landed reply self.old.records) }
        ensures absent { IfNone result (is_in_flight reply self.old.records ≡ false) }
        ensures none { IfNone result (self.new ≡ self.old) }
    {
        let Some(number) = self.replies.remove(&reply) else {
            return None;
        };
        let left = fly_less(&mut self.heads, number);
        Some(settle(&mut self.heads, number, left))
    }

    /// Lets go an entry that the exit blocked. The final, where nothing of the request is left and its
    /// asker is open; it takes no memory.
    pub fn deny(&mut self, face: FaceId, id: u32) -> Option<Final>
        requires { is_pending face.0 id self.old.records ≡ true }
        ensures closing { result ≡ final_if_open self.old.closed (over_after (is_entry face.0 id) self.old.records) }
        ensures all { cons_option result [] ≡ finals_after (is_entry face.0 id) self.old.closed self.old.records }
        ensures after { self.new ≡ record self.old { records = letting_go (is_entry face.0 id) self.old.records } }
    {
        match self.let_go(face.0, id) {
            Some(over) => self.if_open(over),
            None => unreachable!(),
        }
    }

    /// A target's final lets its entry go. The final of the request, where nothing of it is left and
    /// its asker is open. `QueryNotFound` where the id is not pending there, and then nothing changes.
    /// It takes no memory. Upstream: `route_send_response_final`.
    pub fn last(&mut self, face: FaceId, id: u32) -> Result<Option<Final>, QueryNotFound>
        ensures found { OnOk result (is_pending face.0 id self.old.records ≡ true) }
        ensures closing { IfOk result (λ f. f ≡ final_if_open self.old.closed (over_after (is_entry face.0 id) self.old.records)) }
        ensures all { IfOk result (λ f. cons_option f [] ≡ finals_after (is_entry face.0 id) self.old.closed self.old.records) }
        ensures after { OnOk result (self.new ≡ record self.old { records = letting_go (is_entry face.0 id) self.old.records }) }
        ensures not_found { OnErr result ((is_pending face.0 id self.old.records ≡ false) × (self.new ≡ self.old)) }
    {
        match self.let_go(face.0, id) {
            Some(over) => Ok(self.if_open(over)),
            None => Err(QueryNotFound),
        }
    }

    /// The reply was sent. The final of its request, where nothing of it is left and its asker is open.
    /// `NotInFlight` where the reply is not in flight, and then nothing changes. It takes no memory.
    pub fn sent(&mut self, reply: u64) -> Result<Option<Final>, NotInFlight>
        ensures found { OnOk result (is_in_flight reply self.old.records ≡ true) }
        ensures closing { IfOk result (λ f. f ≡ final_if_open self.old.closed (over_after_reply reply self.old.records)) }
        ensures all { IfOk result (λ f. cons_option f [] ≡ finals_landed reply self.old.closed self.old.records) }
        ensures after { OnOk result (self.new ≡ record self.old { records = landing reply self.old.records }) }
        ensures not_found { OnErr result ((is_in_flight reply self.old.records ≡ false) × (self.new ≡ self.old)) }
    {
        match self.land(reply) {
            Some(over) => Ok(self.if_open(over)),
            None => Err(NotInFlight),
        }
    }

    /// The request that has the entry.
    fn owner(&self, face: u32, id: u32) -> Option<Final>
        ensures { result ≡ owner face id self.now.records }
    {
        let Some(owed) = self.pending.get(&(face, id)) else {
            return None;
        };
        let Some(open) = self.heads.get(owed.number) else {
            return None;
        };
        Some(Final {
            number: owed.number,
            asker: open.asker,
            id: open.id,
            qos: open.qos,
        })
    }

    /// Where a reply to the entry goes: under the next reply number, if the asker is open; without a
    /// number if it was closed. `QueryNotFound` where the id is not pending there, `NoFreeId` where the
    /// number 2^64 - 1 is next.
    pub fn would_reply(&self, face: FaceId, id: u32) -> Result<ReplyTo, ReplyRefusal>
        ensures to { IfOk result (λ t. next_reply face.0 id self.now ≡ Some t) }
        ensures there { IfOk result (λ t. list_any (has_number t.number) self.now.records ≡ true) }
        ensures fits { IfOk result (λ t. IsSome t.reply → self.now.replies + 1 < 2 ^ 64) }
        ensures pending { OnOk result (is_pending face.0 id self.now.records ≡ true) }
        ensures free { OnOk result (lacks_reply face.0 id self.now ≡ false) }
        ensures not_found { IsErrOf result ReplyRefusal.QueryNotFound → next_reply face.0 id self.now ≡ None }
        ensures absent { IsErrOf result ReplyRefusal.QueryNotFound → is_pending face.0 id self.now.records ≡ false }
        ensures no_free { IsErrOf result ReplyRefusal.NoFreeId → lacks_reply face.0 id self.now ≡ true }
        ensures needs { IsErrOf result ReplyRefusal.NoFreeId → is_pending face.0 id self.now.records ≡ true }
        ensures memory { IsErrOf result ReplyRefusal.OutOfMemory → ⊥ }
    {
        let Some(found) = self.owner(face.0, id) else {
            return Err(ReplyRefusal::QueryNotFound);
        };
        if self.is_closed(found.asker) {
            return Ok(ReplyTo {
                number: found.number,
                asker: found.asker,
                id: found.id,
                qos: found.qos,
                reply: None,
            });
        }
        if self.next_reply == u64::MAX {
            return Err(ReplyRefusal::NoFreeId);
        }
        Ok(ReplyTo {
            number: found.number,
            asker: found.asker,
            id: found.id,
            qos: found.qos,
            reply: Some(self.next_reply),
        })
    }

    /// The open request with the number.
    fn request(&self, number: u64) -> Option<Final>
        ensures { result ≡ request number self.now.records }
    {
        match self.heads.get(number) {
            Some(open) => Some(Final {
                number,
                asker: open.asker,
                id: open.id,
                qos: open.qos,
            }),
            None => None,
        }
    }

    /// A reply of the request is put in flight.
    fn fly(&mut self, number: u64) -> Result<(), OutOfMemory>
        requires there { list_any (has_number number) self.old.records ≡ true }
        requires fits { self.old.replies + 1 < 2 ^ 64 }
        ensures ok { OnOk result (self.new ≡ after_put number self.old) }
        ensures err { OnErr result (self.new ≡ self.old) }
    {
        match self.replies.insert(self.next_reply, number) {
            Ok(_) => {}
            Err(_) => return Err(OutOfMemory),
        }
        fly_more(&mut self.heads, number);
        self.next_reply += 1;
        Ok(())
    }

    /// The reply that `would_reply` answered: in flight under its number, if it has one. Where memory
    /// is lacking all is as it was.
    pub fn put(&mut self, to: &ReplyTo) -> Result<(), OutOfMemory>
        requires there { list_any (has_number to.now.number) self.old.records ≡ true }
        requires fits { IsSome to.now.reply → self.old.replies + 1 < 2 ^ 64 }
        ensures after { OnOk result (self.new ≡ after_reply to.now self.old) }
        ensures err { OnErr result (self.new ≡ self.old) }
    {
        match to.reply {
            Some(_) => self.fly(to.number),
            None => Ok(()),
        }
    }

    /// A reply to the entry: under the next reply number, and in flight, if the asker is open; without
    /// a number if it was closed. `QueryNotFound` where the id is not pending there, `NoFreeId` where
    /// the number 2^64 - 1 is next. A refusal leaves all as it was. Upstream: `route_send_response`.
    pub fn reply(&mut self, face: FaceId, id: u32) -> Result<ReplyTo, ReplyRefusal>
        ensures to { IfOk result (λ t. next_reply face.0 id self.old ≡ Some t) }
        ensures after { IfOk result (λ t. self.new ≡ after_reply t self.old) }
        ensures free { OnOk result (lacks_reply face.0 id self.old ≡ false) }
        ensures not_found { IsErrOf result ReplyRefusal.QueryNotFound → next_reply face.0 id self.old ≡ None }
        ensures no_free { IsErrOf result ReplyRefusal.NoFreeId → lacks_reply face.0 id self.old ≡ true }
        ensures err { OnErr result (self.new ≡ self.old) }
    {
        let to = self.would_reply(face, id)?;
        match self.put(&to) {
            Ok(()) => Ok(to),
            Err(_) => Err(ReplyRefusal::OutOfMemory),
        }
    }

    /// The id last given at the face, if one was.
    fn last_at(&self, face: FaceId) -> Option<u32>
        ensures { result ≡ at_number face.0 self.now.last_ids }
    {
        self.last_ids.get(face.0 as u64)
    }

    /// The first id after this one, round, that is not pending at the face; none where all 2^32 are.
    fn free_after(&self, face: FaceId, last: u32) -> Option<u32>
        ensures { result ≡ first_free face.0 self.now.records last (2 ^ 32) }
    {
        let mut id = last;
        for _step in 0..4294967296u64 {
            id = id.wrapping_add(1);
            if !self.is_pending(face, id) {
                return Some(id);
            }
        }
        None
    }

    /// The id that the face is given next: the first one after the last given, round, that is not
    /// pending there; none where all 2^32 are. While ids rise it is searched only past 2^32 - 1.
    fn next_id(&self, face: FaceId) -> Option<u32>
        ensures { result ≡ next_id self.now face.0 }
    {
        let last = self.last_at(face).unwrap_or(self.request_ids);
        if self.rising && last < u32::MAX {
            return Some(last + 1);
        }
        self.free_after(face, last)
    }

    /// The number of the next request.
    pub fn next_number(&self) -> u64
        ensures { result ≡ self.now.requests }
    {
        self.requests
    }

    /// Sets the id last given at the face. Where memory is lacking nothing changes.
    pub fn start_at(&mut self, face: FaceId, last: u32) -> Result<(), OutOfMemory>
        ensures after { OnOk result (self.new ≡ record self.old { last_ids = insert_entry nat_cmp self.old.last_ids face.0 last }) }
        ensures err { OnErr result (self.new ≡ self.old) }
    {
        self.last_ids.reserve(1)?;
        let before = self.last_ids.put(face.0 as u64, last);
        self.rising = still_rising(self.rising, before, last);
        Ok(())
    }

    /// How many entries of the request are pending: 0 where it is not open.
    pub fn pending_of(&self, number: u64) -> u64
        ensures { result ≡ pending_count number self.now.records }
    {
        match self.heads.get(number) {
            Some(open) => open.pending,
            None => 0,
        }
    }

    /// The entries at the places are released.
    fn drop_all(&mut self, places: &[(u32, u32)])
        ensures { self.new ≡ record self.old { records = letting_go_all self.old.records places.now } }
    {
        for place in places {
            self.let_go(place.0, place.1);
        }
    }

    /// The least reply in flight of the request. It walks the replies in flight up to that one.
    pub fn first_in_flight(&self, number: u64) -> Option<u64>
        ensures there { IfSome result (λ reply. flies number reply self.now.records ≡ true) }
        ensures least { IfSome result (λ reply. (earlier : ℕ) → earlier < reply → flies number earlier self.now.records ≡ false) }
        ensures none { IfNone result ((reply : ℕ) → flies number reply self.now.records ≡ false) }
    {
        first_of(&self.replies, number)
    }

    /// The least deadline of all pending entries. The open requests are in order after every call.
    pub fn next_deadline(&self) -> Option<u64>
        ensures orderly { IsOrderly self.now }
        ensures there { IfSome result (λ d. has_deadline d self.now.records ≡ true) }
        ensures least { IfSome result (λ d. has_earlier d self.now.records ≡ false) }
        ensures none { IfNone result (owes_any self.now.records ≡ false) }
    {
        match self.dues.first_key_value() {
            Some((due, _)) => Some(due.0),
            None => None,
        }
    }
}
