//! One that makes calls.
ghost use Rattle.std.specs.Prelude.{◌≡◌, ◌≤◌, All, [], ◌∷◌, false, true};
ghost use Rattle.zq_machine.specs.Calls.{is_sent};
ghost use Rattle.zq_program.specs.Faults.{HasFaults};
ghost use Rattle.zq_shared.specs.Answers.{IsListed};
ghost use Rattle.zq_shared.specs.Tallies.{HasParts};
ghost use Rattle.zq_program.specs.Working.{HasBegun, HasMade, IsReady, MayMake, Worked};

use crate::works::Works;
use std::alloc::Global;
use std::marker::Model;
use std::mem;
use std::sync::Wait;
use std::sync::ledger::Ledger;
use zq_machine::call::Call;
use zq_shared::{CallRefusal, HoldSeat, Home, Link, TablesLock, Tally};

/// How calls ended: whether each was made, and whether no link failed.
#[derive(Clone, Copy)]
pub(crate) struct Ended {
    pub(crate) whole: bool,
    pub(crate) sent: bool,
}

/// Makes a call.
#[tactic(auto, using(crate::proofs::Making::made_stored, crate::proofs::Making::made_full))]
pub(crate) fn make_call<H: Home, C: Ledger, Q: Ledger, P: Ledger, L: Link, R: Wait>(
    rt: &R,
    alloc: Global,
    lock: &TablesLock<H, C, Q, P>,
    seat: &mut HoldSeat,
    tally: &mut Tally<C, Q, P>,
    link: &mut L,
    call: Call,
) -> Ended
    requires home { seat.old.home ≡ H.holds }
    requires empty { seat.old.held ≡ [] }
    requires parts { HasParts tally.old }
    requires call { MayMake H.list call }
    ensures home { seat.new.home ≡ H.holds }
    ensures empty { seat.new.held ≡ [] }
    ensures parts { tally.new.parts ≡ tally.old.parts }
    ensures made { result.whole ≡ true → HasMade (call ∷ []) tally.old.made tally.new.made }
    ensures lacked { result.whole ≡ false → tally.new.made ≡ tally.old.made }
    ensures faults { HasFaults result.sent (L.faults link.old) (L.faults link.new) }
{
    match lock.call(rt, alloc, seat, tally, link, call) {
        Ok(_) => Ended {
            whole: true,
            sent: true,
        },
        Err(CallRefusal::Full(_)) => Ended {
            whole: true,
            sent: true,
        },
        Err(CallRefusal::LinkFault { .. }) => Ended {
            whole: true,
            sent: false,
        },
        Err(CallRefusal::OutOfMemory) => Ended {
            whole: false,
            sent: true,
        },
    }
}

/// Makes calls in order, and ends at the first for which there is no memory. A fault of the link ends nothing.
pub(crate) fn make_calls<H: Home, C: Ledger, Q: Ledger, P: Ledger, L: Link, R: Wait>(
    rt: &R,
    alloc: Global,
    lock: &TablesLock<H, C, Q, P>,
    seat: &mut HoldSeat,
    tally: &mut Tally<C, Q, P>,
    link: &mut L,
    calls: Vec<Call>,
) -> Ended
    requires home { seat.old.home ≡ H.holds }
    requires empty { seat.old.held ≡ [] }
    requires parts { HasParts tally.old }
    requires calls { All (MayMake H.list) calls.items }
    ensures home { seat.new.home ≡ H.holds }
    ensures empty { seat.new.held ≡ [] }
    ensures parts { tally.new.parts ≡ tally.old.parts }
    ensures made { result.whole ≡ true → HasMade calls.items tally.old.made tally.new.made }
    ensures begun { result.whole ≡ false → HasBegun calls.items tally.old.made tally.new.made }
    ensures faults { HasFaults result.sent (L.faults link.old) (L.faults link.new) }
{
    let mut sent = true;
    for call in calls {
        let ended = make_call(rt, alloc, lock, seat, tally, link, call);
        sent = sent && ended.sent;
        if !ended.whole {
            return Ended { whole: false, sent };
        }
    }
    Ended { whole: true, sent }
}

/// One that makes calls: its seat, what it counts, the calls that it is to make, and how they ended.
#[derive(Drop)]
pub(crate) struct Worker<C: Ledger, Q: Ledger, P: Ledger> {
    pub(crate) alloc: Global,
    pub(crate) seat: HoldSeat,
    pub(crate) tally: Tally<C, Q, P>,
    pub(crate) calls: Vec<Call>,
    pub(crate) whole: bool,
    pub(crate) sent: bool,
}

impl<C: Ledger, Q: Ledger, P: Ledger> Model for Worker<C, Q, P> {
    ghost use Rattle.zq_program.specs.Working.{Working};

    ghost Value = { Working };

    ghost view = { λ w. record { seat = w.seat; tally = w.tally; calls = w.calls.items; whole = w.whole; sent = w.sent } };
}

impl<C: Ledger, Q: Ledger, P: Ledger> Worker<C, Q, P> {
    /// Makes its calls over the link.
    pub(crate) fn work<H: Home, L: Link, R: Wait>(
        &mut self,
        rt: &R,
        lock: &TablesLock<H, C, Q, P>,
        link: &mut L,
    )
        requires { IsReady H.holds H.list self.old }
        ensures worked { Worked self.old self.new }
        ensures faults { HasFaults self.new.sent (L.faults link.old) (L.faults link.new) }
    {
        let calls = mem::replace(&mut self.calls, Vec::new(self.alloc));
        let ended = make_calls(
            rt,
            self.alloc,
            lock,
            &mut self.seat,
            &mut self.tally,
            link,
            calls,
        );
        self.whole = ended.whole;
        self.sent = ended.sent;
    }
}

impl<H: Home, C: Ledger, Q: Ledger, P: Ledger> Works<Worker<C, Q, P>> for TablesLock<H, C, Q, P> {
    ghost ready = { λ w. IsReady H.holds H.list w };

    ghost worked = { λ w v. Worked w v };

    ghost sent = { λ w. w.sent };

    fn run<L: Link, R: Wait>(&self, rt: &R, worker: &mut Worker<C, Q, P>, link: &mut L) {
        worker.work(rt, self, link);
    }
}
