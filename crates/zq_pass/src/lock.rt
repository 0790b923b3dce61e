//! The state behind a lock. Here alone the lock is taken, and nothing is sent: what is answered is owned, and the lock is free behind it.
ghost use Rattle.std.specs.Prelude.{◌≡◌, ◌+◌, ◌<◌, ◌≤◌, ℕ, [], All, length, None, false, IfErr, IfOk, IfSome, OnErr, OnOk};
ghost use mathlib.Core.List.{IsPrefix};
ghost use Rattle.zq_hold.specs.Slots.{times};
ghost use Rattle.zq_machine.specs.Calls.{is_sent};
ghost use Rattle.zq_shared.specs.Holding.{AreHeld};
ghost use Rattle.zq_pass.specs.Stepping.{IsMade};
ghost use Rattle.zq_shared.specs.Answers.{IsFinal};
ghost use Rattle.zq_pass.specs.Locking.{IsLocked, StepRefuses};

use crate::home::PassHome;
use crate::locked::{Locked, Made};
use crate::pass::Pass;
use crate::state::PassState;
use std::marker::PhantomData;
use std::sync::ledger::{Book, Ledger, Share};
use std::sync::{Mutex, Wait};
use zq_hold::Last;
use zq_machine::call::Call;
use zq_machine::handed::Handed;
use zq_shared::StepRefusal;

/// The state that the name means, behind a lock, with the book of its stored calls that are no reports.
pub struct PassLock<H: PassHome, M: Ledger> {
    inner: Mutex<Locked<H, M>>,
}

impl<H: PassHome, M: Ledger> Drop for PassLock<H, M> {
    fn drop(self) {
        let PassLock { inner } = self;
    }
}

impl<H: PassHome, M: Ledger> PassLock<H, M> {
    /// Puts the state behind a lock. Takes no memory.
    pub fn new(state: PassState, made: Book<M>) -> PassLock<H, M>
        requires { IsLocked H.config H.home state made.total }
    {
        PassLock {
            inner: Mutex::new(Locked {
                state,
                made,
                home: PhantomData,
            }),
        }
    }

    /// Takes the lock away. Takes no memory.
    pub(crate) fn into_state(self) -> (PassState, Book<M>)
        ensures { IsLocked H.config H.home result.0 result.1.total }
    {
        let PassLock { inner } = self;
        let Locked {
            state,
            made,
            home: _,
        } = inner.into_inner();
        (state, made)
    }

    /// The part of a call under the lock.
    pub(crate) fn step<R: Wait>(
        &self,
        rt: &R,
        pass: &mut Pass,
        made: &mut Share<M>,
        call: Call,
    ) -> Result<Made, StepRefusal>
        requires home { pass.old.home ≡ H.home }
        requires empty { pass.old.held ≡ [] }
        requires unsent { is_sent call ≡ false }
        requires part { 0 < made.old.parts }
        ensures made { IfOk result (λ m. IsMade H.config pass.old.number (length pass.old.seen) pass.new.seen call m.place m.step) }
        ensures held { IfOk result (λ m. AreHeld m.held pass.new.held) }
        ensures once { OnOk result ((k : ℕ) → times k pass.new.held ≤ 1) }
        ensures lasts { IfOk result (λ m. All (λ l. l.home ≡ H.home.holds) m.lasts.ended) }
        ensures refused { IfErr result (StepRefuses H.home.holds.words call pass.new.seen) }
        ensures free { OnErr result (pass.new.held ≡ []) }
        ensures pass { pass.new ≡ record pass.old { held = pass.new.held; ended = pass.new.ended; seen = pass.new.seen } }
        ensures seen { IsPrefix pass.old.seen pass.new.seen }
        ensures counted { OnOk result (made.new.amount ≡ made.old.amount + 1) }
        ensures same { OnErr result (made.new.amount ≡ made.old.amount) }
        ensures parts { made.new.parts ≡ made.old.parts }
    {
        self.inner.lock(rt).step(pass, made, call)
    }

    /// Settles what was released last, under the lock, and answers the final, if it comes.
    pub(crate) fn settle<R: Wait>(&self, rt: &R, pass: &Pass, last: Last) -> Option<Handed>
        requires home { pass.now.home ≡ H.home }
        requires last { last.home ≡ H.home.holds }
        ensures { IfSome result (IsFinal H.config None) }
    {
        self.inner.lock(rt).settle(pass, last)
    }
}
