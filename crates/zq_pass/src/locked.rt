//! What lies under the lock.
ghost use Rattle.std.specs.Prelude.{◌≡◌, ◌+◌, ◌<◌, ◌≤◌, ℕ, [], All, length, false, IfErr, IfOk, IfSome, OnErr, OnOk};
ghost use mathlib.Core.List.{IsPrefix};
ghost use Rattle.zq_hold.specs.Slots.{times};
ghost use Rattle.zq_machine.specs.Calls.{is_sent};
ghost use Rattle.zq_shared.specs.Holding.{AreHeld};
ghost use Rattle.zq_pass.specs.Stepping.{IsMade};
ghost use Rattle.zq_shared.specs.Answers.{IsFinal};
ghost use Rattle.zq_pass.specs.Locking.{StepRefuses};

use crate::home::PassHome;
use crate::pass::Pass;
use crate::state::PassState;
use std::marker::{Model, PhantomData};
use std::sync::ledger::{Book, Ledger, Share};
use zq_hold::{Last, SlotList};
use zq_machine::call::{Call, Step};
use zq_machine::handed::Handed;
use zq_shared::{LastList, StepRefusal, Stepped};

/// The state that the name means, with the book of its stored calls that are no reports.
#[derive(Drop)]
pub(crate) struct Locked<H: PassHome, M: Ledger> {
    pub(crate) state: PassState,
    pub(crate) made: Book<M>,
    pub(crate) home: PhantomData<H>,
}

impl<H: PassHome, M: Ledger> Model for Locked<H, M> {
    ghost use Rattle.zq_pass.specs.Locking.{IsLocked};
    ghost use Rattle.zq_pass.specs.Passes.{Journaled};

    ghost Value = { Journaled };

    ghost view = { λ s. s.state };

    ghost invariant = { λ s. IsLocked H.config H.home s.state s.made.total };
}

/// What a call leaves to its caller: its answer and place, the slots that the pass holds, and what was released last.
pub(crate) struct Made {
    pub(crate) step: Step,
    pub(crate) place: u64,
    pub(crate) held: SlotList,
    pub(crate) lasts: LastList,
}

impl<H: PassHome, M: Ledger> Locked<H, M> {
    /// Tells a proof how many slots there are. It does nothing.
    fn recall(&self)
        ensures { length self.now.sharing.slots.keeper.marks ≡ H.home.holds.words }
    {
        self.state.recall();
    }

    /// Makes the call, and counts it.
    pub(crate) fn step(
        &mut self,
        pass: &mut Pass,
        made: &mut Share<M>,
        call: Call,
    ) -> Result<Made, StepRefusal>
        requires home { pass.old.home ≡ H.home }
        requires empty { pass.old.held ≡ [] }
        requires unsent { is_sent call ≡ false }
        requires part { 0 < made.old.parts }
        ensures made { IfOk result (λ m. IsMade H.config pass.old.number (length pass.old.seen) pass.new.seen call m.place m.step) }
        ensures held { IfOk result (λ m. AreHeld m.held pass.new.held) }
        ensures once { OnOk result ((k : ℕ) → times k pass.new.held ≤ 1) }
        ensures lasts { IfOk result (λ m. All (λ l. l.home ≡ H.home.holds) m.lasts.ended) }
        ensures refused { IfErr result (StepRefuses H.home.holds.words call pass.new.seen) }
        ensures free { OnErr result (pass.new.held ≡ []) }
        ensures pass { pass.new ≡ record pass.old { held = pass.new.held; ended = pass.new.ended; seen = pass.new.seen } }
        ensures seen { IsPrefix pass.old.seen pass.new.seen }
        ensures counted { OnOk result (made.new.amount ≡ made.old.amount + 1) }
        ensures same { OnErr result (made.new.amount ≡ made.old.amount) }
        ensures parts { made.new.parts ≡ made.old.parts }
    {
        let place = self.state.len();
        self.recall();
        let Stepped { step, held, lasts } = self.state.step(pass, call)?;
        self.made.add(made, 1);
        Ok(Made {
            step,
            place,
            held,
            lasts,
        })
    }

    /// Reports all that was sent of the request whose slot was released last, and answers the final, if it comes.
    pub(crate) fn settle(&mut self, pass: &Pass, last: Last) -> Option<Handed>
        requires home { pass.now.home ≡ H.home }
        requires last { last.home ≡ H.home.holds }
        ensures { IfSome result (IsFinal H.config None) }
    {
        self.state.settle(pass, last)
    }
}
