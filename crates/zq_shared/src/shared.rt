//! The state that many threads share, under one lock.
ghost use Rattle.std.specs.Prelude.{◌≡◌, ◌<◌, ◌≤◌, [], length, false, None, Some, IfErr, IfOk, OnErr, OnOk};
ghost use Rattle.zq_hold.specs.declared.slot.Mark.TheVariants.{Gone};
ghost use Rattle.zq_hold.specs.Marks.{HasMark};
ghost use Rattle.zq_hold.specs.Owners.{owner_at};
ghost use Rattle.zq_machine.specs.Calls.{is_sent};
ghost use Rattle.zq_shared.specs.Holding.{AreHeld};
ghost use Rattle.zq_shared.specs.Stored.{answer_to, asks_request, flights, standing, with_call};
ghost use Rattle.zq_shared.specs.Answers.{behind};
ghost use Rattle.zq_shared.specs.Sharing.{AreLast, AreOrderly, HoldsReplies, IsFull, IsSameHolds, IsWithin, KeepsFlights, OthersAreGone, Refuses, Settles, all_spare, slot_vacated};

use crate::LastList;
use crate::asking::ask;
use crate::journal::Journal;
use crate::settling::report_all;
use crate::telling::tell;
use std::alloc::Global;
use std::marker::Model;
use zq_hold::{HoldSeat, Last, NoSlot, SeatList, SlotList, Slots};
use zq_key::memory::OutOfMemory;
use zq_machine::call::{Call, Step};
use zq_machine::config::Config;
use zq_machine::handed::Handed;

/// A gateway beside the calls that were made on it, and the slots of its requests.
pub struct Shared {
    alloc: Global,
    journal: Journal,
    slots: Slots,
}

impl Drop for Shared {
    fn drop(self) {
        let Shared {
            alloc,
            journal,
            slots,
        } = self;
    }
}

impl Model for Shared {
    ghost use Rattle.zq_shared.specs.Ties.{Sharing};
    ghost use Rattle.zq_shared.specs.Sharing.{IsShared};

    ghost Value = { Sharing };

    ghost view = { λ s. record { stored = s.journal; slots = s.slots } };

    ghost invariant = { λ s. IsShared s.journal s.slots };
}

/// What a step gives: what the call is answered, the slots that the seat holds for the replies that it put in flight, and what it released last.
/// Each of `lasts` has to be taken, and given to `Shared::settle`; then the list is ended.
pub struct Stepped {
    /// What the call is answered, and the messages that it hands.
    pub step: Step,
    /// The slots of the requests of which the seat sends replies, each once. Each has to be released behind its replies.
    pub held: SlotList,
    /// The `Last` of each release of the keeper in this call that was last, each to be settled.
    pub lasts: LastList,
}

/// Why a call was not made.
#[derive(Drop)]
pub enum StepRefusal {
    /// Every slot is allotted.
    Full(NoSlot),
    /// There is no memory.
    OutOfMemory,
}

/// Whether the call asks a request.
fn asks_request(call: &Call) -> bool
    ensures { result ≡ asks_request call.now }
{
    matches!(call, Call::Request { .. })
}

impl Shared {
    /// A new gateway and no calls, with that many slots, each spare, and that many seats, which hold nothing.
    pub fn new(
        alloc: Global,
        config: &Config,
        slots: u16,
        seats: u8,
    ) -> Result<(Shared, SeatList), OutOfMemory>
        requires slots { (0 < slots) × (slots ≤ 1024) }
        requires seats { (0 < seats) × (seats ≤ 63) }
        ensures stored { IfOk result (λ r. r.0.stored ≡ record { config = config.now; calls = [] }) }
        ensures slots { IfOk result (λ r. r.0.slots ≡ all_spare r.0.slots.keeper.home slots seats) }
        ensures seats { IfOk result (λ r. r.1 ≡ record { home = r.0.slots.keeper.home; count = seats }) }
    {
        let journal = Journal::new(alloc, config)?;
        let (slots, seats) = Slots::new(alloc, slots, seats)?;
        Ok((
            Shared {
                alloc,
                journal,
                slots,
            },
            seats,
        ))
    }

    /// The calls that were made, in order.
    pub fn calls(&self) -> &[Call]
        ensures { result.now ≡ self.now.stored.calls }
    {
        self.journal.calls()
    }

    /// What the gateway was made with.
    pub fn config(&self) -> &Config
        ensures { result.now ≡ self.now.stored.config }
    {
        self.journal.config()
    }

    /// At most how many replies are in flight once the call is made, and so how many reports may come behind it.
    pub fn most_in_flight(&self, call: &Call) -> Result<usize, OutOfMemory>
        ensures { IfOk result (λ n. length (flights (standing (with_call self.now.stored call.now))) ≤ n) }
    {
        self.journal.most_in_flight(call)
    }

    /// Tells a proof what holds between any two calls: no more requests wait for something than there are slots, at each point of the
    /// calls; and an allotted slot that no open request owns was released by the keeper, and is not lent. It does nothing.
    pub fn recall(&self)
        ensures within { IsWithin (length self.now.slots.keeper.marks) self.now.stored }
        ensures orderly { AreOrderly (length self.now.slots.keeper.marks) (behind self.now.stored.config []) self.now.stored.calls }
        ensures sized { length self.now.slots.keeper.marks ≡ self.now.slots.keeper.home.words }
        ensures others { OthersAreGone self.now }
    {
        self.slots.recall();
    }

    /// Makes one call that is no report, and stores it. A request that is asked and waits for something owns a slot from then on; `Full` exactly
    /// where every slot is allotted. The seat holds the slot of the request of each reply that the call puts in flight, until it releases it. A
    /// reply that was in flight before keeps its slot's owner, and stays in flight. The slots of requests that wait for nothing any more are released, and none is vacated; a moment,
    /// a closing and a final look at each slot for that, of which there are at most 1024, and no other call does. Where memory is lacking all but one slot,
    /// which may be spare then, is as it was; room for the reports is made here.
    pub fn step(&mut self, seat: &mut HoldSeat, call: Call) -> Result<Stepped, StepRefusal>
        requires home { self.old.slots.keeper.home ≡ seat.old.home }
        requires empty { seat.old.held ≡ [] }
        requires unsent { is_sent call ≡ false }
        ensures step { IfOk result (λ t. t.step ≡ answer_to self.old.stored call) }
        ensures stored { OnOk result (self.new.stored ≡ with_call self.old.stored call) }
        ensures room { OnOk result (IsFull self.old call → ⊥) }
        ensures holds { IfOk result (λ t. HoldsReplies t.step.handed self.new.slots seat.new.held) }
        ensures held { IfOk result (λ t. AreHeld t.held seat.new.held) }
        ensures lasts { IfOk result (λ t. AreLast self.old.slots self.new.slots t.lasts.ended) }
        ensures refused { IfErr result (λ e. Refuses self.old call e self.new) }
        ensures flights { KeepsFlights None self.old self.new }
        ensures seat { seat.new.home ≡ seat.old.home }
        ensures free { OnErr result (seat.new ≡ seat.old) }
        ensures same { IsSameHolds self.old.slots self.new.slots }
    {
        let Shared {
            alloc,
            journal,
            slots,
        } = self;
        slots.recall();
        if asks_request(&call) {
            return ask(*alloc, journal, slots, call);
        }
        match tell(*alloc, journal, slots, seat, call) {
            Ok(stepped) => Ok(stepped),
            Err(OutOfMemory) => Err(StepRefusal::OutOfMemory),
        }
    }

    /// Reports all replies in flight of the request that owns the slot, in order of number, and stores the reports; the slot is free then. Any
    /// other reply in flight keeps its slot's owner, and stays in flight. The final to the asker comes of the last of the reports, or none. It takes no memory.
    pub fn settle(&mut self, last: Last) -> Option<Handed>
        requires home { last.home ≡ self.old.slots.keeper.home }
        ensures gone { HasMark Gone self.old.slots.keeper.marks last.slot }
        ensures reports { Settles (owner_at self.old.slots.owners last.slot) self.old.stored result self.new.stored }
        ensures slots { self.new.slots ≡ slot_vacated self.old.slots last.slot }
        ensures flights { KeepsFlights (Some last.slot) self.old self.new }
        ensures same { IsSameHolds self.old.slots self.new.slots }
    {
        let Shared {
            alloc: _,
            journal,
            slots,
        } = self;
        slots.recall();
        let number = slots.vacate(last)?;
        report_all(journal, number)
    }
}
