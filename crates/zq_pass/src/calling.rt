//! A call through the lock. Nothing here takes it: what `step` and `settle` answer is sent once it is free.
ghost use Rattle.std.specs.Prelude.{◌≡◌, ◌+◌, ◌<◌, ◌≤◌, ℕ, [], All, length, None, false, IfErr, IfOk, OnErr, OnOk};
ghost use mathlib.Core.List.{IsPrefix};
ghost use Rattle.zq_hold.specs.Slots.{times};
ghost use Rattle.zq_machine.specs.Calls.{is_sent};
ghost use Rattle.zq_shared.specs.Holding.{AreHeld};
ghost use Rattle.zq_shared.specs.Sending.{DeliversFinals, Sends};
ghost use Rattle.zq_pass.specs.Stepping.{IsMade};
ghost use Rattle.zq_pass.specs.Locking.{Refuses, more_stored};

use crate::home::PassHome;
use crate::lock::PassLock;
use crate::locked::Made;
use crate::pass::Pass;
use std::sync::Wait;
use std::sync::ledger::{Ledger, Share};
use zq_hold::{Last, SlotList};
use zq_machine::call::{Call, Step};
use zq_shared::{CallRefusal, LastList, Link, send_final, send_on};

/// What a call is answered, and its place in the journal.
#[derive(Drop)]
pub struct Passed {
    /// What the call is answered, and the messages that it handed.
    pub step: Step,
    /// Its place; the first is 0.
    pub place: u64,
}

impl<H: PassHome, M: Ledger> PassLock<H, M> {
    /// Settles what was released last, and sends the final outside the lock, if it comes.
    fn settle_one<L: Link, R: Wait>(
        &self,
        rt: &R,
        pass: &Pass,
        link: &mut L,
        sent: Result<u64, u64>,
        last: Last,
    ) -> Result<u64, u64>
        requires home { pass.now.home ≡ H.home }
        requires last { last.home ≡ H.home.holds }
        ensures { DeliversFinals H.config None (record { taken = L.taken link.old; faults = L.faults link.old; sent = sent }) (record { taken = L.taken link.new; faults = L.faults link.new; sent = result }) }
    {
        let end = self.settle(rt, pass, last);
        send_final(link, sent, end)
    }

    /// Settles all that is left to be settled, and sends each final that comes, outside the lock.
    fn settle_rest<L: Link, R: Wait>(
        &self,
        rt: &R,
        pass: &Pass,
        link: &mut L,
        mut sent: Result<u64, u64>,
        mut lasts: LastList,
    ) -> Result<u64, u64>
        requires home { pass.now.home ≡ H.home }
        requires lasts { All (λ l. l.home ≡ H.home.holds) lasts.ended }
        ensures { DeliversFinals H.config None (record { taken = L.taken link.old; faults = L.faults link.old; sent = sent }) (record { taken = L.taken link.new; faults = L.faults link.new; sent = result }) }
    {
        'lasts: while let Some(last) = lasts.take() {
            sent = self.settle_one(rt, pass, link, sent, last);
        }
        lasts.end();
        sent
    }

    /// The pass releases all that it holds, without the lock. What it was the last to hold is settled.
    fn release_all<L: Link, R: Wait>(
        &self,
        rt: &R,
        pass: &mut Pass,
        link: &mut L,
        mut sent: Result<u64, u64>,
        held: SlotList,
    ) -> Result<u64, u64>
        requires home { pass.old.home ≡ H.home }
        requires held { AreHeld held pass.old.held }
        requires once { (k : ℕ) → times k pass.old.held ≤ 1 }
        ensures sends { DeliversFinals H.config None (record { taken = L.taken link.old; faults = L.faults link.old; sent = sent }) (record { taken = L.taken link.new; faults = L.faults link.new; sent = result }) }
        ensures pass { pass.new ≡ record pass.old { held = []; ended = pass.new.ended } }
    {
        let mut held = held.into_vec();
        'slots: while let Some(slot) = held.pop() {
            if let Some(last) = pass.release(slot) {
                sent = self.settle_one(rt, pass, link, sent, last);
            }
        }
        sent
    }

    /// Makes a call. It is one event under the lock, and what it hands is sent outside: first the messages of its step, then the finals of
    /// the requests of which it was the last to hold a slot, each settled under the lock again. At every answer the pass has seen what it
    /// had seen, and where the call is stored its entry, whose place is answered.
    pub fn call<L: Link, R: Wait>(
        &self,
        rt: &R,
        pass: &mut Pass,
        made: &mut Share<M>,
        link: &mut L,
        call: Call,
    ) -> Result<Passed, CallRefusal>
        requires home { pass.old.home ≡ H.home }
        requires empty { pass.old.held ≡ [] }
        requires unsent { is_sent call ≡ false }
        requires part { 0 < made.old.parts }
        ensures seen { IsPrefix pass.old.seen pass.new.seen }
        ensures made { IfOk result (λ p. IsMade H.config pass.old.number (length pass.old.seen) pass.new.seen call p.place p.step) }
        ensures sends { IfOk result (λ p. Sends H.config None p.step.handed (L.taken link.old) (L.taken link.new)) }
        ensures quiet { OnOk result (L.faults link.new ≡ L.faults link.old) }
        ensures refused { IfErr result (λ e. Refuses H.config H.home.holds.words pass.old.number (length pass.old.seen) pass.new.seen call e (L.taken link.old) (L.taken link.new) (L.faults link.old) (L.faults link.new)) }
        ensures counted { OnOk result (made.new.amount ≡ made.old.amount + 1) }
        ensures counts { IfErr result (λ e. made.new.amount ≡ made.old.amount + more_stored e) }
        ensures parts { made.new.parts ≡ made.old.parts }
        ensures pass { pass.new ≡ record pass.old { ended = pass.new.ended; seen = pass.new.seen } }
    {
        let Made {
            step,
            place,
            held,
            lasts,
        } = self.step(rt, pass, made, call)?;
        let sent = send_on(link, Ok(0), step.handed.as_slice());
        let sent = self.settle_rest(rt, pass, link, sent, lasts);
        let sent = self.release_all(rt, pass, link, sent, held);
        match sent {
            Ok(_) => Ok(Passed { step, place }),
            Err(sent) => Err(CallRefusal::LinkFault {
                outcome: step.outcome,
                sent,
            }),
        }
    }
}
