//! Two callers of a locked gateway.
ghost use Rattle.std.specs.Prelude.{◌≡◌, [], None, false, IfOk, IfSome};
ghost use Rattle.zq_machine.specs.Calls.{is_sent};
ghost use Rattle.zq_shared.specs.Tallies.{HasParts, each};
ghost use Rattle.zq_tests_threads.specs.Callers.{IsReady};

use crate::given::print_calls;
use std::alloc::{AllocError, Global};
use std::mem;
use std::sync::Wait;
use std::sync::ledger::{Blank, Ledger};
use std::test::Fail;
use zq_lines::steps::push_step;
use zq_machine::call::{Call, Outcome, Step};
use zq_machine::handed::HandedList;
use zq_shared::{CallRefusal, HoldSeat, Home, Link, SeatList, Shared, TablesLock, Tally};

/// One that calls a gateway: its seat, what it counts, the calls that it is to make, and the steps of those that it made.
pub(crate) struct Caller<C: Ledger, Q: Ledger, P: Ledger> {
    pub(crate) alloc: Global,
    pub(crate) seat: HoldSeat,
    pub(crate) tally: Tally<C, Q, P>,
    pub(crate) calls: Vec<Call>,
    pub(crate) print: Vec<u8>,
}

impl<C: Ledger, Q: Ledger, P: Ledger> Drop for Caller<C, Q, P> {
    fn drop(self) {
        let Caller {
            alloc,
            seat,
            tally,
            calls,
            print,
        } = self;
    }
}

/// Makes a call that is no report.
fn make_call<H: Home, C: Ledger, Q: Ledger, P: Ledger, L: Link, R: Wait>(
    rt: &R,
    lock: &TablesLock<H, C, Q, P>,
    caller: &mut Caller<C, Q, P>,
    link: &mut L,
    call: Call,
) -> Result<Step, CallRefusal>
    requires list { H.list ≡ None }
    requires unsent { is_sent call ≡ false }
    requires ready { IsReady H.holds caller.old.seat caller.old.tally }
    ensures ready { IsReady H.holds caller.new.seat caller.new.tally }
{
    let alloc = caller.alloc;
    lock.call(rt, alloc, &mut caller.seat, &mut caller.tally, link, call)
}

/// Prints what a call whose link failed was answered, and how many of its messages were taken.
fn push_fault(
    alloc: Global,
    print: &mut Vec<u8>,
    outcome: Outcome,
    sent: u64,
) -> Result<(), AllocError> {
    let handed = HandedList::new(alloc);
    push_step(print, &Step { outcome, handed })?;
    let line = format!(in alloc; "link fault {sent}\n")?;
    print.extend_from_slice(line.as_str().as_bytes())
}

/// Prints what a call is answered. It says whether the call is stored.
fn push_answer(alloc: Global, print: &mut Vec<u8>, answer: Result<Step, CallRefusal>) -> bool {
    match answer {
        Ok(step) => push_step(print, &step).is_ok(),
        Err(CallRefusal::LinkFault { outcome, sent }) => {
            push_fault(alloc, print, outcome, sent).is_ok()
        }
        Err(_) => false,
    }
}

/// Makes a call, and prints what it is answered. It says whether it is no report, and is stored.
fn print_call<H: Home, C: Ledger, Q: Ledger, P: Ledger, L: Link, R: Wait>(
    rt: &R,
    lock: &TablesLock<H, C, Q, P>,
    caller: &mut Caller<C, Q, P>,
    link: &mut L,
    call: Call,
) -> bool
    requires list { H.list ≡ None }
    requires ready { IsReady H.holds caller.old.seat caller.old.tally }
    ensures ready { IsReady H.holds caller.new.seat caller.new.tally }
{
    if call.is_sent() {
        return false;
    }
    let answer = make_call(rt, lock, caller, link, call);
    push_answer(caller.alloc, &mut caller.print, answer)
}

/// Makes calls in order, up to one that is not stored.
fn make_calls<H: Home, C: Ledger, Q: Ledger, P: Ledger, L: Link, R: Wait>(
    rt: &R,
    lock: &TablesLock<H, C, Q, P>,
    caller: &mut Caller<C, Q, P>,
    link: &mut L,
    calls: Vec<Call>,
) -> bool
    requires list { H.list ≡ None }
    requires ready { IsReady H.holds caller.old.seat caller.old.tally }
    ensures ready { IsReady H.holds caller.new.seat caller.new.tally }
{
    for call in calls {
        if !print_call(rt, lock, caller, link, call) {
            return false;
        }
    }
    true
}

/// Where callers make their calls.
pub(crate) trait Desk<W> {
    /// The caller may begin.
    ghost ready: { W → Type 0 };

    /// The caller makes its calls over the link, and prints what they are answered. It says whether each is no report, and is stored.
    fn make<L: Link, R: Wait>(&self, rt: &R, caller: &mut W, link: &mut L) -> bool
        requires { ready caller.old }
        ensures { ready caller.new };

    /// What the caller printed.
    fn printed(&self, alloc: Global, caller: &W) -> Result<Vec<u8>, AllocError>;
}

impl<H: Home, C: Ledger, Q: Ledger, P: Ledger> Desk<Caller<C, Q, P>> for TablesLock<H, C, Q, P> {
    ghost ready = { λ w. (H.list ≡ None) × IsReady H.holds w.seat w.tally };

    fn make<L: Link, R: Wait>(&self, rt: &R, caller: &mut Caller<C, Q, P>, link: &mut L) -> bool {
        let calls = mem::replace(&mut caller.calls, Vec::new(caller.alloc));
        make_calls(rt, self, caller, link, calls)
    }

    fn printed(&self, alloc: Global, caller: &Caller<C, Q, P>) -> Result<Vec<u8>, AllocError> {
        Vec::from_slice(alloc, caller.print.as_slice())
    }
}

/// One that has made no call. None where no seat is left.
fn new_caller<C: Ledger, Q: Ledger, P: Ledger>(
    alloc: Global,
    seats: &mut SeatList,
    tally: Tally<C, Q, P>,
) -> Option<Caller<C, Q, P>>
    requires { HasParts tally }
    ensures caller { IfSome result (λ c. (c.seat.home ≡ seats.old.home) × (c.seat.held ≡ []) × HasParts c.tally) }
    ensures home { seats.new.home ≡ seats.old.home }
{
    let Some(seat) = seats.take() else {
        return None;
    };
    Some(Caller {
        alloc,
        seat,
        tally,
        calls: Vec::new(alloc),
        print: Vec::new(alloc),
    })
}

/// Half of what is counted, for each of two.
fn halve<C: Ledger, Q: Ledger, P: Ledger>(
    mut all: Tally<C, Q, P>,
) -> (Tally<C, Q, P>, Tally<C, Q, P>)
    requires { all ≡ record { parts = each 2; made = each 0 } }
    ensures one { HasParts result.0 }
    ensures two { HasParts result.1 }
{
    let one = all.split_one();
    (one, all)
}

/// A gateway behind its lock, and what two that call it count.
fn lock_for_two<H: Home, C: Ledger, Q: Ledger, P: Ledger>(
    shared: Shared,
    blanks: (Blank, Blank, Blank),
) -> (TablesLock<H, C, Q, P>, Tally<C, Q, P>)
    requires means { (H.config ≡ shared.stored.config) × (H.holds ≡ shared.slots.keeper.home) }
    requires list { H.list ≡ None }
    requires fresh { shared.stored.calls ≡ [] }
    requires calls { (blanks.0.name ≡ C.name) × (blanks.0.parts ≡ C.parts) × (C.parts ≡ 2) }
    requires asks { (blanks.1.name ≡ Q.name) × (blanks.1.parts ≡ Q.parts) × (Q.parts ≡ 2) }
    requires full { (blanks.2.name ≡ P.name) × (blanks.2.parts ≡ P.parts) × (P.parts ≡ 2) }
    ensures { result.1 ≡ record { parts = each 2; made = each 0 } }
{
    let (calls, asks, full) = blanks;
    let (calls, all_calls) = calls.open::<C>();
    let (asks, all_asks) = asks.open::<Q>();
    let (full, all_full) = full.open::<P>();
    let lock = TablesLock::<H, C, Q, P>::new(shared, calls, asks, full);
    let all = Tally {
        calls: all_calls,
        asks: all_asks,
        full: all_full,
    };
    (lock, all)
}

/// A gateway behind its lock, and two that may call it.
pub(crate) fn open_two<H: Home, C: Ledger, Q: Ledger, P: Ledger>(
    alloc: Global,
    shared: Shared,
    mut seats: SeatList,
    blanks: (Blank, Blank, Blank),
) -> Result<(TablesLock<H, C, Q, P>, Caller<C, Q, P>, Caller<C, Q, P>), Fail>
    requires means { (H.config ≡ shared.stored.config) × (H.holds ≡ shared.slots.keeper.home) }
    requires list { H.list ≡ None }
    requires fresh { shared.stored.calls ≡ [] }
    requires seats { seats.home ≡ H.holds }
    requires calls { (blanks.0.name ≡ C.name) × (blanks.0.parts ≡ C.parts) × (C.parts ≡ 2) }
    requires asks { (blanks.1.name ≡ Q.name) × (blanks.1.parts ≡ Q.parts) × (Q.parts ≡ 2) }
    requires full { (blanks.2.name ≡ P.name) × (blanks.2.parts ≡ P.parts) × (P.parts ≡ 2) }
    ensures one { IfOk result (λ r. IsReady H.holds r.1.seat r.1.tally) }
    ensures two { IfOk result (λ r. IsReady H.holds r.2.seat r.2.tally) }
{
    let (lock, all) = lock_for_two::<H, C, Q, P>(shared, blanks);
    let (one, two) = halve(all);
    let Some(one) = new_caller(alloc, &mut seats, one) else {
        return Err(Fail::from("a seat"));
    };
    let Some(two) = new_caller(alloc, &mut seats, two) else {
        return Err(Fail::from("a second seat"));
    };
    Ok((lock, one, two))
}

/// What is stored of the gateway behind a lock, which is taken away.
pub(crate) fn print_stored<H: Home, C: Ledger, Q: Ledger, P: Ledger>(
    alloc: Global,
    lock: TablesLock<H, C, Q, P>,
) -> Result<Vec<u8>, Fail> {
    let (shared, _, _, _) = lock.into_shared();
    print_calls(alloc, shared.calls())
}
