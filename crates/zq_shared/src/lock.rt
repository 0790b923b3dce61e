//! One gateway behind a lock. The lock is taken here alone: a function that takes it answers owned values, and none has a link.
ghost use Rattle.std.specs.Prelude.{◌≡◌, ◌<◌, ◌≤◌, ℕ, [], All, false, IfErr, IfOk, IfSome, OnErr, OnOk};
ghost use Rattle.zq_hold.specs.Slots.{times};
ghost use Rattle.zq_machine.specs.Calls.{is_sent};
ghost use Rattle.zq_shared.specs.Holding.{AreHeld};
ghost use Rattle.zq_shared.specs.Answers.{AllFinals, IsAnswer, IsFinal, IsListed};
ghost use Rattle.zq_shared.specs.Locking.{IsLocked};
ghost use Rattle.zq_shared.specs.Refusals.{StepCounts, StepRefuses};
ghost use Rattle.zq_shared.specs.Tallies.{HasParts, with_stored};

use crate::home::Home;
use crate::locked::{Locked, Made};
use crate::tally::Tally;
use crate::{Shared, StepRefusal};
use std::alloc::Global;
use std::marker::PhantomData;
use std::sync::ledger::{Book, Ledger};
use std::sync::{Mutex, Wait};
use zq_hold::{HoldSeat, Last};
use zq_machine::call::Call;
use zq_machine::handed::Handed;

/// The shared gateway that the name means, behind a lock, with the books of its stored calls: of those other than requests and reports,
/// of the requests, and of the calls that found every slot allotted.
pub struct TablesLock<H: Home, C: Ledger, Q: Ledger, P: Ledger> {
    inner: Mutex<Locked<H, C, Q, P>>,
}

impl<H: Home, C: Ledger, Q: Ledger, P: Ledger> Drop for TablesLock<H, C, Q, P> {
    fn drop(self) {
        let TablesLock { inner } = self;
    }
}

impl<H: Home, C: Ledger, Q: Ledger, P: Ledger> TablesLock<H, C, Q, P> {
    /// Puts a shared gateway behind a lock. Takes no memory.
    pub fn new(
        shared: Shared,
        calls: Book<C>,
        asks: Book<Q>,
        full: Book<P>,
    ) -> TablesLock<H, C, Q, P>
        requires { IsLocked H.config H.holds H.list shared (record { calls = calls.total; asks = asks.total; full = full.total }) }
    {
        TablesLock {
            inner: Mutex::new(Locked {
                shared,
                calls,
                asks,
                full,
                home: PhantomData,
            }),
        }
    }

    /// Takes the lock away. Takes no memory.
    pub fn into_shared(self) -> (Shared, Book<C>, Book<Q>, Book<P>)
        ensures { IsLocked H.config H.holds H.list result.0 (record { calls = result.1.total; asks = result.2.total; full = result.3.total }) }
    {
        let TablesLock { inner } = self;
        let Locked {
            shared,
            calls,
            asks,
            full,
            home: _,
        } = inner.into_inner();
        (shared, calls, asks, full)
    }

    /// The part of a call under the lock, which is free behind it. It sends nothing.
    pub(crate) fn step<R: Wait>(
        &self,
        rt: &R,
        alloc: Global,
        seat: &mut HoldSeat,
        tally: &mut Tally<C, Q, P>,
        call: Call,
    ) -> Result<Made, StepRefusal>
        requires home { seat.old.home ≡ H.holds }
        requires empty { seat.old.held ≡ [] }
        requires unsent { is_sent call ≡ false }
        requires listed { IsListed H.list call }
        requires parts { HasParts tally.old }
        ensures step { IfOk result (λ m. IsAnswer H.config H.list tally.old.made call m.step) }
        ensures held { IfOk result (λ m. AreHeld m.held seat.new.held) }
        ensures once { OnOk result ((k : ℕ) → times k seat.new.held ≤ 1) }
        ensures lasts { IfOk result (λ m. All (λ l. l.home ≡ H.holds) m.lasts.ended) }
        ensures finals { IfOk result (λ m. AllFinals H.config H.list m.finals.items) }
        ensures free { OnErr result (seat.new.held ≡ []) }
        ensures seat { seat.new.home ≡ H.holds }
        ensures made { OnOk result (tally.new ≡ with_stored call tally.old) }
        ensures refused { IfErr result (λ e. StepCounts call e tally.old tally.new) }
        ensures full { IfErr result (StepRefuses H.list H.holds.words tally.old) }
    {
        self.inner.lock(rt).step(alloc, seat, tally, call)
    }

    /// Settles what was released last, under the lock, and answers the final, if it comes. It sends nothing, and the lock is free behind it.
    pub(crate) fn settle<R: Wait>(&self, rt: &R, last: Last) -> Option<Handed>
        requires { last.home ≡ H.holds }
        ensures { IfSome result (IsFinal H.config H.list) }
    {
        self.inner.lock(rt).settle(last)
    }
}
