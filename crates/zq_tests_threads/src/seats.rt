//! One gateway that seats share, on one thread: one slot, and who is the last to hold it.
ghost use Rattle.std.specs.Prelude.{◌≡◌, [], All, IfOk, IfSome, OnOk, false, true};
ghost use Rattle.zq_machine.specs.Calls.{is_sent};
ghost use Rattle.zq_shared.specs.Holding.{AreHeld};

use crate::given::{last_part, parts_of, print_calls, print_leaving};
use std::alloc::Global;
use std::test::Fail;
use zq_hold::{Last, release};
use zq_lines::steps::push_step;
use zq_machine::call::Call;
use zq_shared::{HoldSeat, LastList, Shared, SlotList, StepRefusal, Stepped};

const ONE_SLOT: &str = "config 1 10000 north:client local\n\
    open local 10 client north -\n\
    open local 11 client north -\n\
    queryable 0 1 0:s:k c 0 0\n\
    ask 1 7 0:s:k all - 0 0 hi 0\n\
    ask 1 8 0:s:k all - 0 0 hi 0\n\
    final 0 1\n\
    ask 1 8 0:s:k all - 0 0 hi 0\n\
    worker\n\
    reply 0 2 0:s:k ok yo\n\
    worker\n\
    final 0 2\n";

/// Settles what was released last. It says whether a final came of it.
fn settle_one(shared: &mut Shared, last: Last) -> bool
    requires { last.home ≡ shared.old.slots.keeper.home }
    ensures { shared.new.slots.keeper.home ≡ shared.old.slots.keeper.home }
{
    shared.settle(last).is_some()
}

/// Settles all that was released last. It counts these, and the finals that come of them.
fn settle_all(shared: &mut Shared, mut lasts: LastList) -> (u64, u64)
    requires { All (λ l. l.home ≡ shared.old.slots.keeper.home) lasts.ended }
    ensures { shared.new.slots.keeper.home ≡ shared.old.slots.keeper.home }
{
    let mut counts = (0u64, 0u64);
    'lasts: while let Some(last) = lasts.take() {
        let ends = settle_one(shared, last);
        counts = (
            counts.0.saturating_add(1),
            counts.1.saturating_add(u64::from(ends)),
        );
    }
    lasts.end();
    counts
}

fn push_times(print: &mut Vec<u8>, times: u64, line: &str) -> Result<(), Fail> {
    for _i in 0..times {
        print.extend_from_slice(line.as_bytes())?;
    }
    Ok(())
}

/// A line `last` for each slot that was released last, and a line `end` for each final that came of it.
fn push_counts(print: &mut Vec<u8>, counts: (u64, u64)) -> Result<(), Fail> {
    push_times(print, counts.0, "last\n")?;
    push_times(print, counts.1, "end\n")
}

/// Makes a call, and settles what it released last. It prints the step or `full`, and what was settled, and gives the slots that the
/// seat holds.
fn give(
    alloc: Global,
    shared: &mut Shared,
    seat: &mut HoldSeat,
    print: &mut Vec<u8>,
    call: Call,
) -> Result<SlotList, Fail>
    requires home { seat.old.home ≡ shared.old.slots.keeper.home }
    requires empty { seat.old.held ≡ [] }
    ensures home { (seat.new.home ≡ seat.old.home) × (shared.new.slots.keeper.home ≡ shared.old.slots.keeper.home) }
    ensures held { IfOk result (λ h. AreHeld h seat.new.held) }
{
    if call.is_sent() {
        return Err(Fail::from("no report"));
    }
    match shared.step(seat, call) {
        Ok(Stepped { step, held, lasts }) => {
            let counts = settle_all(shared, lasts);
            push_step(print, &step)?;
            push_counts(print, counts)?;
            Ok(held)
        }
        Err(StepRefusal::Full(_)) => {
            print.extend_from_slice(b"full\n")?;
            Ok(SlotList::new(alloc))
        }
        Err(StepRefusal::OutOfMemory) => Err(Fail::from("memory")),
    }
}

/// Whether a seat that holds these slots holds nothing.
fn holds_nothing(held: &SlotList, seat: &HoldSeat) -> bool
    requires { AreHeld held.now seat.now.held }
    ensures { result ≡ true → seat.now.held ≡ [] }
{
    let _ = seat;
    held.is_empty()
}

/// Makes calls that put nothing in flight.
fn give_all(
    alloc: Global,
    shared: &mut Shared,
    seat: &mut HoldSeat,
    print: &mut Vec<u8>,
    calls: Vec<Call>,
) -> Result<(), Fail>
    requires home { seat.old.home ≡ shared.old.slots.keeper.home }
    requires empty { seat.old.held ≡ [] }
    ensures home { OnOk result ((seat.new.home ≡ seat.old.home) × (shared.new.slots.keeper.home ≡ shared.old.slots.keeper.home)) }
    ensures empty { OnOk result (seat.new.held ≡ []) }
{
    for call in calls {
        let held = give(alloc, shared, seat, print, call)?;
        if !holds_nothing(&held, seat) {
            return Err(Fail::from("nothing in flight"));
        }
    }
    Ok(())
}

/// The seat releases one of the slots that it holds. It gives the slot's `Last`, where the seat was the last to hold it.
fn let_go(seat: &mut HoldSeat, held: SlotList) -> Option<Last>
    requires { AreHeld held seat.old.held }
    ensures { IfSome result (λ l. l.home ≡ seat.old.home) }
{
    let mut held = held.into_vec();
    let Some(slot) = held.pop() else {
        return None;
    };
    release(seat, slot)
}

/// Makes the last of the calls. It gives the slots that the seat holds.
fn give_last(
    alloc: Global,
    shared: &mut Shared,
    seat: &mut HoldSeat,
    print: &mut Vec<u8>,
    mut calls: Vec<Call>,
) -> Result<SlotList, Fail>
    requires home { seat.old.home ≡ shared.old.slots.keeper.home }
    requires empty { seat.old.held ≡ [] }
    ensures home { OnOk result ((seat.new.home ≡ seat.old.home) × (shared.new.slots.keeper.home ≡ shared.old.slots.keeper.home)) }
    ensures held { IfOk result (λ h. AreHeld h seat.new.held) }
{
    let Some(call) = calls.pop() else {
        return Err(Fail::from("a call"));
    };
    give(alloc, shared, seat, print, call)
}

/// What comes of a slot that was released last, and what is stored then.
fn push_end(alloc: Global, shared: &mut Shared, print: &mut Vec<u8>, last: Last) -> Result<(), Fail>
    requires { last.home ≡ shared.old.slots.keeper.home }
{
    let Some(end) = shared.settle(last) else {
        return Err(Fail::from("a final"));
    };
    print.extend_from_slice(print_leaving(alloc, &[end])?.as_slice())?;
    print.extend_from_slice(print_calls(alloc, shared.calls())?.as_slice())?;
    Ok(())
}

/// The calls of three parts.
#[derive(Drop)]
struct Parts {
    earlier: Vec<Call>,
    replies: Vec<Call>,
    ends: Vec<Call>,
}

/// The first seat replies, the second ends the request, and the first releases it last; what all this gives, and what is stored.
fn two_seats(
    alloc: Global,
    shared: &mut Shared,
    one: &mut HoldSeat,
    two: &mut HoldSeat,
    parts: Parts,
) -> Result<Vec<u8>, Fail>
    requires one { (one.old.home ≡ shared.old.slots.keeper.home) × (one.old.held ≡ []) }
    requires two { (two.old.home ≡ shared.old.slots.keeper.home) × (two.old.held ≡ []) }
{
    let mut print = Vec::new(alloc);
    give_all(alloc, shared, one, &mut print, parts.earlier)?;
    let held = give_last(alloc, shared, one, &mut print, parts.replies)?;
    give_last(alloc, shared, two, &mut print, parts.ends)?;
    let Some(last) = let_go(one, held) else {
        return Err(Fail::from("the last"));
    };
    push_end(alloc, shared, &mut print, last)?;
    Ok(print)
}

/// What two seats come to on a gateway of one slot.
fn one_slot(alloc: Global) -> Result<Vec<u8>, Fail> {
    let (config, mut parts) = parts_of(alloc, ONE_SLOT)?;
    let ends = last_part(&mut parts)?;
    let replies = last_part(&mut parts)?;
    let earlier = last_part(&mut parts)?;
    let (mut shared, mut seats) = Shared::new(alloc, &config, 1, 2)?;
    let mut one = seats.take().ok_or("a seat")?;
    let mut two = seats.take().ok_or("a seat")?;
    let parts = Parts {
        earlier,
        replies,
        ends,
    };
    two_seats(alloc, &mut shared, &mut one, &mut two, parts)
}

#[test]
fn one_slot_two_seats(rt: HostRuntime) -> Result<(), Fail> {
    let print = one_slot(rt.alloc())?;
    let wanted =
        "= opened 0\n= opened 1\n= done\n= asked 0\n> 0 0 - request 1 0:s:k all - 0 0 hi\nfull\n= done\n> 1 0 - final 7 0\nlast\n\
        = asked 1\n> 0 1 - request 2 0:s:k all - 0 0 hi\n\
        = replied 0\n> 1 1 0 response 8 0:s:k 0 ok yo -\n= done\nfinal 8 0\n\
        open local 10 client north -\nopen local 11 client north -\nqueryable 0 1 0:s:k c 0 0\nask 1 7 0:s:k all - 0 0 hi 0\nfinal 0 1\n\
        ask 1 8 0:s:k all - 0 0 hi 0\nreply 0 2 0:s:k ok yo\nfinal 0 2\nsent 0\n";
    assert_eq!(rt; print.as_slice(), wanted.as_bytes());
    Ok(())
}
