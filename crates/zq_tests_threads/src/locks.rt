//! What a lock answers and sends.
ghost use Rattle.std.specs.Prelude.{◌≡◌, [], None};
ghost use Rattle.zq_tests_threads.specs.Callers.{IsReady};

use crate::callers::{Caller, Desk, open_two, print_stored};
use crate::given::{last_part, parts_of, print_leaving};
use std::alloc::Global;
use std::marker::Brand;
use std::mem;
use std::sync::Wait;
use std::sync::ledger::{Blank, Ledger};
use std::test::Fail;
use zq_given::ASKED;
use zq_machine::call::Call;
use zq_shared::{Home, MemoryLink, SeatList, Shared, TablesLock};

/// What the links of two callers take, one after the other.
fn in_turn<K: Desk<W>, W, R: Wait>(
    rt: &R,
    alloc: Global,
    desk: &K,
    first: &mut W,
    second: &mut W,
) -> Result<Vec<Vec<u8>>, Fail>
    requires { K.ready first.old × K.ready second.old }
{
    let mut one = MemoryLink::new(alloc, Vec::new(alloc));
    let mut two = MemoryLink::new(alloc, Vec::new(alloc));
    if !desk.make(rt, first, &mut one) || !desk.make(rt, second, &mut two) {
        return Err(Fail::from("all is made and sent"));
    }
    let mut prints = Vec::new(alloc);
    prints.push(print_leaving(alloc, one.taken())?)?;
    prints.push(print_leaving(alloc, two.taken())?)?;
    Ok(prints)
}

/// Calls in turn on the gateway under the lock.
fn in_turn_on<H: Home, C: Ledger, Q: Ledger, P: Ledger, R: Wait>(
    rt: &R,
    alloc: Global,
    lock: &TablesLock<H, C, Q, P>,
    first: &mut Caller<C, Q, P>,
    second: &mut Caller<C, Q, P>,
) -> Result<Vec<Vec<u8>>, Fail>
    requires list { H.list ≡ None }
    requires first { IsReady H.holds first.old.seat first.old.tally }
    requires second { IsReady H.holds second.old.seat second.old.tally }
{
    in_turn(rt, alloc, lock, first, second)
}

/// What links took, what callers were answered, and what is stored.
fn all_prints<H: Home, C: Ledger, Q: Ledger, P: Ledger>(
    alloc: Global,
    lock: TablesLock<H, C, Q, P>,
    first: Vec<u8>,
    second: Vec<u8>,
    mut prints: Vec<Vec<u8>>,
) -> Result<Vec<Vec<u8>>, Fail> {
    prints.push(first)?;
    prints.push(second)?;
    prints.push(print_stored(alloc, lock)?)?;
    Ok(prints)
}

/// Two callers, one after the other: what their links take, what they are answered, and what is stored.
fn two_callers<H: Home, C: Ledger, Q: Ledger, P: Ledger, R: Wait>(
    rt: &R,
    alloc: Global,
    shared: Shared,
    seats: SeatList,
    blanks: (Blank, Blank, Blank),
    parts: (Vec<Call>, Vec<Call>),
) -> Result<Vec<Vec<u8>>, Fail>
    requires means { (H.config ≡ shared.stored.config) × (H.holds ≡ shared.slots.keeper.home) }
    requires list { H.list ≡ None }
    requires fresh { shared.stored.calls ≡ [] }
    requires seats { seats.home ≡ H.holds }
    requires calls { (blanks.0.name ≡ C.name) × (blanks.0.parts ≡ C.parts) × (C.parts ≡ 2) }
    requires asks { (blanks.1.name ≡ Q.name) × (blanks.1.parts ≡ Q.parts) × (Q.parts ≡ 2) }
    requires full { (blanks.2.name ≡ P.name) × (blanks.2.parts ≡ P.parts) × (P.parts ≡ 2) }
{
    let (lock, mut first, mut second) = open_two::<H, C, Q, P>(alloc, shared, seats, blanks)?;
    first.calls = parts.0;
    second.calls = parts.1;
    let prints = in_turn_on(rt, alloc, &lock, &mut first, &mut second)?;
    let one = mem::replace(&mut first.print, Vec::new(alloc));
    let two = mem::replace(&mut second.print, Vec::new(alloc));
    all_prints(alloc, lock, one, two, prints)
}

fn prints_of<R: Wait>(rt: &R, alloc: Global) -> Result<Vec<Vec<u8>>, Fail> {
    let (config, mut parts) = parts_of(alloc, ASKED)?;
    let second = last_part(&mut parts)?;
    let first = last_part(&mut parts)?;
    let (shared, seats) = Shared::new(alloc, &config, 8, 2)?;
    let blanks = (Blank::new(2), Blank::new(2), Blank::new(2));
    two_callers::<Brand, Brand, Brand, Brand, R>(rt, alloc, shared, seats, blanks, (first, second))
}

#[test]
fn asked_and_answered(rt: HostRuntime) -> Result<(), Fail> {
    let prints = prints_of(&rt, rt.alloc())?;
    let wanted: [&str; 5] = [
        "request 1 0:s:k all - 0 0 hi\n",
        "response 7 0:s:k 0 ok yo -\nfinal 7 0\n",
        "= opened 0\n= opened 1\n= done\n= asked 0\n> 0 0 - request 1 0:s:k all - 0 0 hi\n",
        "= replied 0\n> 1 0 0 response 7 0:s:k 0 ok yo -\n= done\n",
        "open local 10 client north -\nopen local 11 client north -\nqueryable 0 1 0:s:k c 0 0\nask 1 7 0:s:k all - 0 0 hi 0\nreply 0 1 0:s:k ok yo\nfinal 0 1\nsent 0\n",
    ];
    assert_eq!(rt; prints.len(), 5);
    for i in 0..5usize {
        assert_eq!(rt; prints[i].as_slice(), wanted[i].as_bytes());
    }
    Ok(())
}
