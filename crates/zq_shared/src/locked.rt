//! What lies under the lock.
ghost use Rattle.std.specs.Prelude.{◌≡◌, ◌<◌, ◌≤◌, ◌+◌, ℕ, [], All, false, IfErr, IfOk, IfSome, OnErr, OnOk};
ghost use Rattle.zq_hold.specs.Slots.{times};
ghost use Rattle.zq_machine.specs.Calls.{is_sent};
ghost use Rattle.zq_shared.specs.Holding.{AreHeld};
ghost use Rattle.zq_shared.specs.Stored.{asks_request};
ghost use Rattle.zq_shared.specs.Answers.{AllFinals, IsAnswer, IsFinal, IsListed};
ghost use Rattle.zq_shared.specs.Refusals.{StepCounts, StepRefuses};
ghost use Rattle.zq_shared.specs.Tallies.{HasParts, with_stored};

use crate::home::Home;
use crate::tally::Tally;
use crate::{LastList, Shared, StepRefusal, Stepped};
use std::alloc::Global;
use std::marker::{Model, PhantomData};
use std::sync::ledger::{Book, Ledger};
use zq_hold::{HoldSeat, Last, SlotList};
use zq_machine::call::{Call, Step};
use zq_machine::handed::Handed;

/// The shared gateway that the name means, with the books of its stored calls.
#[derive(Drop)]
pub(crate) struct Locked<H: Home, C: Ledger, Q: Ledger, P: Ledger> {
    pub(crate) shared: Shared,
    pub(crate) calls: Book<C>,
    pub(crate) asks: Book<Q>,
    pub(crate) full: Book<P>,
    pub(crate) home: PhantomData<H>,
}

impl<H: Home, C: Ledger, Q: Ledger, P: Ledger> Model for Locked<H, C, Q, P> {
    ghost use Rattle.zq_shared.specs.Ties.{Sharing};
    ghost use Rattle.zq_shared.specs.Locking.{IsLocked};

    ghost Value = { Sharing };

    ghost view = { λ s. s.shared };

    ghost invariant = { λ s. IsLocked H.config H.holds H.list s.shared (record { calls = s.calls.total; asks = s.asks.total; full = s.full.total }) };
}

/// What a call leaves to its caller: its answer, the slots that the seat holds, what was released last and is not settled yet, and
/// the finals of what was.
pub(crate) struct Made {
    pub(crate) step: Step,
    pub(crate) held: SlotList,
    pub(crate) lasts: LastList,
    pub(crate) finals: Vec<Handed>,
}

/// Whether the call asks a request.
fn asks(call: &Call) -> bool
    ensures { result ≡ asks_request call.now }
{
    matches!(call, Call::Request { .. })
}

impl<H: Home, C: Ledger, Q: Ledger, P: Ledger> Locked<H, C, Q, P> {
    /// Makes the call, and counts it.
    fn perform(
        &mut self,
        seat: &mut HoldSeat,
        tally: &mut Tally<C, Q, P>,
        call: Call,
    ) -> Result<Stepped, StepRefusal>
        requires home { seat.old.home ≡ H.holds }
        requires empty { seat.old.held ≡ [] }
        requires unsent { is_sent call ≡ false }
        requires listed { IsListed H.list call }
        requires parts { HasParts tally.old }
        ensures step { IfOk result (λ t. IsAnswer H.config H.list tally.old.made call t.step) }
        ensures held { IfOk result (λ t. AreHeld t.held seat.new.held) }
        ensures once { OnOk result ((k : ℕ) → times k seat.new.held ≤ 1) }
        ensures lasts { IfOk result (λ t. All (λ l. l.home ≡ H.holds) t.lasts.ended) }
        ensures free { OnErr result (seat.new.held ≡ []) }
        ensures seat { seat.new.home ≡ H.holds }
        ensures made { OnOk result (tally.new ≡ with_stored call tally.old) }
        ensures refused { IfErr result (λ e. StepCounts call e tally.old tally.new) }
        ensures full { IfErr result (StepRefuses H.list H.holds.words tally.old) }
    {
        tally.bound(&mut self.calls, &mut self.asks);
        self.shared.recall();
        let asks = asks(&call);
        match self.shared.step(seat, call) {
            Ok(stepped) => {
                if asks {
                    tally.add_ask(&mut self.asks);
                } else {
                    tally.add_other(&mut self.calls);
                }
                Ok(stepped)
            }
            Err(StepRefusal::Full(none)) => {
                tally.add_full(&mut self.full);
                Err(StepRefusal::Full(none))
            }
            Err(StepRefusal::OutOfMemory) => Err(StepRefusal::OutOfMemory),
        }
    }

    /// Reports all that was sent of the request whose slot was released last, and answers the final, if it comes.
    pub(crate) fn settle(&mut self, last: Last) -> Option<Handed>
        requires { last.home ≡ H.holds }
        ensures { IfSome result (IsFinal H.config H.list) }
    {
        self.shared.settle(last)
    }

    /// Settles what was released last, as long as there is memory to keep the finals.
    fn settle_some(&mut self, alloc: Global, lasts: &mut LastList) -> Vec<Handed>
        requires { All (λ l. l.home ≡ H.holds) lasts.old.ended }
        ensures finals { AllFinals H.config H.list result.items }
        ensures rest { All (λ l. l.home ≡ H.holds) lasts.new.ended }
    {
        let mut finals = Vec::new(alloc);
        'lasts: while finals.reserve(1).is_ok() {
            let Some(last) = lasts.take() else {
                return finals;
            };
            if let Some(end) = self.settle(last) {
                finals.push_reserved(end);
            }
        }
        finals
    }

    /// Makes the call, counts it, and settles what it released last.
    pub(crate) fn step(
        &mut self,
        alloc: Global,
        seat: &mut HoldSeat,
        tally: &mut Tally<C, Q, P>,
        call: Call,
    ) -> Result<Made, StepRefusal>
        requires home { seat.old.home ≡ H.holds }
        requires empty { seat.old.held ≡ [] }
        requires unsent { is_sent call ≡ false }
        requires listed { IsListed H.list call }
        requires parts { HasParts tally.old }
        ensures step { IfOk result (λ m. IsAnswer H.config H.list tally.old.made call m.step) }
        ensures held { IfOk result (λ m. AreHeld m.held seat.new.held) }
        ensures once { OnOk result ((k : ℕ) → times k seat.new.held ≤ 1) }
        ensures lasts { IfOk result (λ m. All (λ l. l.home ≡ H.holds) m.lasts.ended) }
        ensures finals { IfOk result (λ m. AllFinals H.config H.list m.finals.items) }
        ensures free { OnErr result (seat.new.held ≡ []) }
        ensures seat { seat.new.home ≡ H.holds }
        ensures made { OnOk result (tally.new ≡ with_stored call tally.old) }
        ensures refused { IfErr result (λ e. StepCounts call e tally.old tally.new) }
        ensures full { IfErr result (StepRefuses H.list H.holds.words tally.old) }
    {
        let Stepped {
            step,
            held,
            mut lasts,
        } = self.perform(seat, tally, call)?;
        let finals = self.settle_some(alloc, &mut lasts);
        Ok(Made {
            step,
            held,
            lasts,
            finals,
        })
    }
}
