//! A call that asks no request: what it puts in flight is held, and what waits for nothing any more is released.
ghost use Rattle.std.specs.Prelude.{◌≡◌, ℕ, ◌<◌, ◌≤◌, ◌+◌, ◌∷◌, [], false, true, if◌then◌else◌, length, vec_capacity, vec_len, None, IfNone, IfOk, IfSome, OnErr, OnOk};
ghost use Rattle.std.specs.List.{count_by, list_any};
ghost use Rattle.zq_hold.specs.Owners.{Slotted};
ghost use Rattle.zq_query.specs.Records.{Pending};
ghost use Rattle.zq_machine.specs.Calls.{is_sent};
ghost use Rattle.zq_machine.specs.Waiting.{ends_entry, hands_reply};
ghost use Rattle.zq_shared.specs.Holding.{AreHeld, OwnsKept};
ghost use Rattle.zq_shared.specs.Stored.{answer_to, asks_request, is_flying, with_call};
ghost use Rattle.zq_shared.specs.Ties.{AreWaiting, IsNearlyTied, IsTied};
ghost use Rattle.zq_shared.specs.Sharing.{AreLast, HoldsReplies, IsSameHolds, KeepsFlights};
ghost use Rattle.zq_shared.specs.Lending.{Lends, LetsGo};

use crate::journal::Journal;
use crate::shared::Stepped;
use crate::{LastList, hold_for};
use std::alloc::Global;
use zq_hold::{HoldSeat, Slot, SlotList, Slots};
use zq_key::memory::OutOfMemory;
use zq_machine::call::Call;
use zq_machine::handed::Handed;

/// Whether the call may end entries that are pending.
fn may_end(call: &Call) -> bool
    ensures { result ≡ false → (e : Pending) → ends_entry call.now e ≡ false }
{
    matches!(
        call,
        Call::ResponseFinal { .. } | Call::Close { .. } | Call::Poll { .. }
    )
}

/// The number of the message's request, if it is a reply.
fn replied(message: &Handed) -> Option<u64>
    ensures some { IfSome result (λ n. (is_flying message.now ≡ true) × ((r : ℕ) × (hands_reply n r message.now ≡ true))) }
    ensures alone { IfSome result (λ n. (m r : ℕ) → hands_reply m r message.now ≡ true → m ≡ n) }
    ensures none { IfNone result ((n r : ℕ) → hands_reply n r message.now ≡ false) }
{
    if message.reply().is_none() {
        return None;
    }
    message.number()
}

/// If the message is a reply, the seat holds the slot of its request.
fn hold_one(slots: &mut Slots, seat: &mut HoldSeat, held: &mut Vec<Slot>, message: &Handed)
    requires home { slots.old.keeper.home ≡ seat.old.home }
    requires owns { (n r : ℕ) → hands_reply n r message.now ≡ true → OwnsKept n slots.old }
    requires same { AreHeld held.old.items seat.old.held }
    requires room { is_flying message.now ≡ true → vec_len held.old < vec_capacity held.old }
    ensures lends { Lends (message.now ∷ []) slots.old slots.new seat.old seat.new }
    ensures same { AreHeld held.new.items seat.new.held }
    ensures few { vec_len held.new ≤ vec_len held.old + (if is_flying message.now then 1 else 0) }
    ensures room { vec_capacity held.new ≡ vec_capacity held.old }
{
    if let Some(number) = replied(message) {
        hold_for(slots, seat, held, number);
    }
}

/// The seat holds the slots of the requests of the replies among the messages, each once.
fn hold_all(slots: &mut Slots, seat: &mut HoldSeat, held: &mut Vec<Slot>, handed: &[Handed])
    requires home { slots.old.keeper.home ≡ seat.old.home }
    requires owns { (n r : ℕ) → list_any (hands_reply n r) handed.now ≡ true → OwnsKept n slots.old }
    requires none { (seat.old.held ≡ []) × (held.old.items ≡ []) }
    requires room { count_by is_flying handed.now ≤ vec_capacity held.old }
    ensures lends { Lends handed.now slots.old slots.new seat.old seat.new }
    ensures same { AreHeld held.new.items seat.new.held }
{
    'messages: for message in handed {
        hold_one(slots, seat, held, message);
    }
}

/// The keeper releases the slot, if its request waits for nothing; who held it last is told.
fn release_one(journal: &Journal, slots: &mut Slots, lasts: &mut LastList, slot: Slot)
    requires within { slot.0 < length slots.old.keeper.marks }
    requires room { length lasts.old.ended < lasts.old.most }
    ensures more { (m : Slotted) → LetsGo journal.now m slots.old lasts.old.ended slot.0 → LetsGo journal.now m slots.new lasts.new.ended (slot.0 + 1) }
    ensures room { lasts.new.most ≡ lasts.old.most }
{
    let Some(number) = slots.waiting(slot) else {
        return;
    };
    if journal.pending_of(number) > 0 {
        return;
    }
    if let Some(last) = slots.release_kept(slot) {
        lasts.push(last);
    }
}

/// The keeper releases the slots of requests that wait for nothing; who held each last is told.
fn release_all(journal: &Journal, slots: &mut Slots, lasts: &mut LastList)
    requires tied { IsNearlyTied None journal.now slots.old }
    requires none { lasts.old.ended ≡ [] }
    requires room { length slots.old.keeper.marks ≤ lasts.old.most }
    ensures { LetsGo journal.now slots.old slots.new lasts.new.ended (length slots.old.keeper.marks) }
{
    slots.recall();
    'slots: for i in 0..slots.len() {
        release_one(journal, slots, lasts, Slot(i as u16));
    }
}

/// The keeper releases the slots of requests that wait for nothing, where a call may have ended entries; otherwise all requests still
/// wait that did.
fn release_ended(journal: &Journal, slots: &mut Slots, lasts: &mut LastList, ends: bool)
    requires tied { IsNearlyTied None journal.now slots.old }
    requires quiet { ends ≡ false → AreWaiting journal.now slots.old }
    requires none { lasts.old.ended ≡ [] }
    requires room { ends ≡ true → length slots.old.keeper.marks ≤ lasts.old.most }
    ensures tied { IsTied journal.now slots.new }
    ensures slots { slots.new ≡ record slots.old { keeper = record slots.old.keeper { marks = slots.new.keeper.marks; ended = slots.new.keeper.ended } } }
    ensures wide { length slots.new.keeper.marks ≡ length slots.old.keeper.marks }
    ensures lasts { AreLast slots.old slots.new lasts.new.ended }
{
    if ends {
        release_all(journal, slots, lasts);
    }
}

/// Room for the slots that the call may come to hold, and for those that are released if it ends entries.
fn room_for(
    alloc: Global,
    journal: &Journal,
    slots: &Slots,
    call: &Call,
    ends: bool,
) -> Result<(Vec<Slot>, LastList), OutOfMemory>
    ensures held { IfOk result (λ r. (r.0.items ≡ []) × (count_by is_flying (answer_to journal.now call.now).handed ≤ vec_capacity r.0)) }
    ensures lasts { IfOk result (λ r. (r.1.ended ≡ []) × (ends ≡ true → length slots.now.keeper.marks ≤ r.1.most)) }
{
    let held = Vec::with_capacity(alloc, journal.most_replies(call)?)?;
    let count = if ends { slots.len() } else { 0 };
    let lasts = LastList::with_room(alloc, count)?;
    Ok((held, lasts))
}

/// Makes a call that asks no request. The seat holds what it puts in flight, and the slots of requests that wait for nothing any more are released.
pub(crate) fn tell(
    alloc: Global,
    journal: &mut Journal,
    slots: &mut Slots,
    seat: &mut HoldSeat,
    call: Call,
) -> Result<Stepped, OutOfMemory>
    requires tied { IsTied journal.old slots.old }
    requires told { (asks_request call ≡ false) × (is_sent call ≡ false) }
    requires home { slots.old.keeper.home ≡ seat.old.home }
    requires empty { seat.old.held ≡ [] }
    ensures tied { IsTied journal.new slots.new }
    ensures step { IfOk result (λ t. t.step ≡ answer_to journal.old call) }
    ensures stored { OnOk result (journal.new ≡ with_call journal.old call) }
    ensures holds { IfOk result (λ t. HoldsReplies t.step.handed slots.new seat.new.held) }
    ensures held { IfOk result (λ t. AreHeld t.held seat.new.held) }
    ensures lasts { IfOk result (λ t. AreLast slots.old slots.new t.lasts.ended) }
    ensures same { OnErr result ((journal.new ≡ journal.old) × (slots.new ≡ slots.old) × (seat.new ≡ seat.old)) }
    ensures flights { KeepsFlights None (record { stored = journal.old; slots = slots.old }) (record { stored = journal.new; slots = slots.new }) }
    ensures seat { seat.new.home ≡ seat.old.home }
    ensures wide { IsSameHolds slots.old slots.new }
{
    let ends = may_end(&call);
    let (mut held, mut lasts) = room_for(alloc, journal, slots, &call, ends)?;
    slots.recall();
    let Ok(step) = journal.step(call) else {
        lasts.end();
        return Err(OutOfMemory);
    };
    hold_all(slots, seat, &mut held, step.handed.as_slice());
    release_ended(journal, slots, &mut lasts, ends);
    let held = SlotList::from_vec(held);
    Ok(Stepped { step, held, lasts })
}
