//! A call on a locked gateway. Nothing here takes the lock: what `step` and `settle` answer is sent once it is free.
ghost use Rattle.std.specs.Prelude.{◌≡◌, ◌<◌, ◌≤◌, ℕ, [], All, false, IfErr, IfOk, OnErr, OnOk};
ghost use Rattle.zq_hold.specs.Slots.{times};
ghost use Rattle.zq_machine.specs.Calls.{is_sent};
ghost use Rattle.zq_shared.specs.Holding.{AreHeld};
ghost use Rattle.zq_shared.specs.Answers.{IsAnswer, IsListed};
ghost use Rattle.zq_shared.specs.Refusals.{Counts, Refuses};
ghost use Rattle.zq_shared.specs.Sending.{DeliversFinals, Sends};
ghost use Rattle.zq_shared.specs.Tallies.{HasParts, with_stored};

use crate::home::Home;
use crate::locked::Made;
use crate::refusal::CallRefusal;
use crate::sending::{send_final, send_on};
use crate::tally::Tally;
use crate::{LastList, Link, TablesLock};
use std::alloc::Global;
use std::sync::Wait;
use std::sync::ledger::Ledger;
use zq_hold::{HoldSeat, Last, SlotList, release};
use zq_machine::call::{Call, Step};

impl<H: Home, C: Ledger, Q: Ledger, P: Ledger> TablesLock<H, C, Q, P> {
    /// Settles what was released last, and sends the final outside the lock, if it comes.
    fn settle_one<L: Link, R: Wait>(
        &self,
        rt: &R,
        link: &mut L,
        sent: Result<u64, u64>,
        last: Last,
    ) -> Result<u64, u64>
        requires { last.home ≡ H.holds }
        ensures { DeliversFinals H.config H.list (record { taken = L.taken link.old; faults = L.faults link.old; sent = sent }) (record { taken = L.taken link.new; faults = L.faults link.new; sent = result }) }
    {
        let end = self.settle(rt, last);
        send_final(link, sent, end)
    }

    /// Settles all that is left to be settled, and sends each final that comes, outside the lock.
    fn settle_rest<L: Link, R: Wait>(
        &self,
        rt: &R,
        link: &mut L,
        mut sent: Result<u64, u64>,
        mut lasts: LastList,
    ) -> Result<u64, u64>
        requires { All (λ l. l.home ≡ H.holds) lasts.ended }
        ensures { DeliversFinals H.config H.list (record { taken = L.taken link.old; faults = L.faults link.old; sent = sent }) (record { taken = L.taken link.new; faults = L.faults link.new; sent = result }) }
    {
        'lasts: while let Some(last) = lasts.take() {
            sent = self.settle_one(rt, link, sent, last);
        }
        lasts.end();
        sent
    }

    /// The seat releases all that it holds, without the lock. What it was the last to hold is settled.
    fn release_all<L: Link, R: Wait>(
        &self,
        rt: &R,
        link: &mut L,
        mut sent: Result<u64, u64>,
        seat: &mut HoldSeat,
        held: SlotList,
    ) -> Result<u64, u64>
        requires home { seat.old.home ≡ H.holds }
        requires held { AreHeld held seat.old.held }
        requires once { (k : ℕ) → times k seat.old.held ≤ 1 }
        ensures sends { DeliversFinals H.config H.list (record { taken = L.taken link.old; faults = L.faults link.old; sent = sent }) (record { taken = L.taken link.new; faults = L.faults link.new; sent = result }) }
        ensures home { seat.new.home ≡ H.holds }
        ensures free { seat.new.held ≡ [] }
    {
        let mut held = held.into_vec();
        'slots: while let Some(slot) = held.pop() {
            if let Some(last) = release(seat, slot) {
                sent = self.settle_one(rt, link, sent, last);
            }
        }
        sent
    }

    /// Makes a call. It is one event under the lock, and what it hands is sent outside: first the messages of its step, then the finals
    /// of requests of whose slots the step or the seat was the last to hold one, each settled under the lock.
    pub fn call<L: Link, R: Wait>(
        &self,
        rt: &R,
        alloc: Global,
        seat: &mut HoldSeat,
        tally: &mut Tally<C, Q, P>,
        link: &mut L,
        call: Call,
    ) -> Result<Step, CallRefusal>
        requires home { seat.old.home ≡ H.holds }
        requires empty { seat.old.held ≡ [] }
        requires unsent { is_sent call ≡ false }
        requires listed { IsListed H.list call }
        requires parts { HasParts tally.old }
        ensures step { IfOk result (λ s. IsAnswer H.config H.list tally.old.made call s) }
        ensures sends { IfOk result (λ s. Sends H.config H.list s.handed (L.taken link.old) (L.taken link.new)) }
        ensures quiet { OnOk result (L.faults link.new ≡ L.faults link.old) }
        ensures later { L.faults link.old ≤ L.faults link.new }
        ensures refused { IfErr result (λ e. Refuses H.config H.list H.holds.words tally.old call e (L.taken link.old) (L.taken link.new) (L.faults link.old) (L.faults link.new)) }
        ensures made { OnOk result (tally.new ≡ with_stored call tally.old) }
        ensures counts { IfErr result (λ e. Counts call e tally.old tally.new) }
        ensures seat { seat.new.home ≡ H.holds }
        ensures free { seat.new.held ≡ [] }
    {
        let Made {
            step,
            held,
            lasts,
            finals,
        } = self.step(rt, alloc, seat, tally, call)?;
        let sent = send_on(link, Ok(0), step.handed.as_slice());
        let sent = send_on(link, sent, finals.as_slice());
        let sent = self.settle_rest(rt, link, sent, lasts);
        let sent = self.release_all(rt, link, sent, seat, held);
        match sent {
            Ok(_) => Ok(step),
            Err(sent) => Err(CallRefusal::LinkFault {
                outcome: step.outcome,
                sent,
            }),
        }
    }
}
