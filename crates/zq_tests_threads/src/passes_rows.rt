//! Two callers on one thread.
ghost use Rattle.std.specs.Prelude.{◌≡◌, [], length};
ghost use Rattle.zq_pass.specs.Passes.{home_of, unused_passes};
ghost use Rattle.zq_tests_threads.specs.Passing.{MayPass};

use crate::passes::{Caller, calls_of, end_both, place_of, take_both};
use std::alloc::Global;
use std::marker::Brand;
use std::sync::Wait;
use std::sync::ledger::{Blank, Ledger};
use std::test::Fail;
use zq_machine::call::Call;
use zq_pass::{Finished, PassHome, PassList, PassLock, PassState};

/// One slot, so that the last ask finds none.
const OPENS: &str = "config 1 10000 north:client local\n\
    open local 10 client north -\n\
    open local 11 client north -\n\
    queryable 0 1 0:s:k c 0 0\n\
    ask 1 7 0:s:k all - 0 0 hi 0\n\
    ask 1 8 0:s:k all - 0 0 ho 0\n";

/// The last call finds nothing more to send.
const REPLIED: &str = "config 1 10000 north:client local\n\
    open local 10 client north -\n\
    open local 11 client north -\n\
    queryable 0 1 0:s:k c 0 0\n\
    ask 1 7 0:s:k all - 0 0 hi 0\n\
    reply 0 1 0:s:k ok yo\n\
    final 0 1\n";

/// Who makes which call.
#[derive(Drop)]
struct Turn {
    of_second: bool,
    call: Call,
}

/// The call of one of two callers. It answers its place, or whether every slot is allotted.
fn take_turn<H: PassHome, M: Ledger, R: Wait>(
    rt: &R,
    lock: &PassLock<H, M>,
    zero: &mut Caller<M>,
    one: &mut Caller<M>,
    turn: Turn,
) -> Result<u64, bool>
    requires zero { MayPass H.home zero.old.pass zero.old.made.parts }
    requires one { MayPass H.home one.old.pass one.old.made.parts }
    ensures zero { MayPass H.home zero.new.pass zero.new.made.parts }
    ensures one { MayPass H.home one.new.pass one.new.made.parts }
{
    if turn.of_second {
        return place_of(rt, lock, one, turn.call);
    }
    place_of(rt, lock, zero, turn.call)
}

/// The first meets the second behind the third call, which is the second's.
fn meet_at<M: Ledger>(count: usize, zero: &mut Caller<M>, one: &mut Caller<M>)
    requires { zero.old.pass.home ≡ one.old.pass.home }
    ensures zero { (zero.new.pass.home ≡ zero.old.pass.home) × (zero.new.pass.held ≡ zero.old.pass.held) × (zero.new.made ≡ zero.old.made) }
    ensures one { one.new ≡ one.old }
{
    if count == 2 {
        zero.pass.meet(one.pass.note());
    }
}

/// Calls, each of the caller that the list of flags says. It answers the places.
fn make_in_turn<H: PassHome, M: Ledger, R: Wait>(
    rt: &R,
    lock: &PassLock<H, M>,
    zero: &mut Caller<M>,
    one: &mut Caller<M>,
    turns: Vec<Turn>,
) -> Result<Vec<Result<u64, bool>>, Fail>
    requires zero { MayPass H.home zero.old.pass zero.old.made.parts }
    requires one { MayPass H.home one.old.pass one.old.made.parts }
    ensures zero { MayPass H.home zero.new.pass zero.new.made.parts }
    ensures one { MayPass H.home one.new.pass one.new.made.parts }
{
    let mut places = Vec::new(zero.alloc);
    let mut count = 0usize;
    'turns: for turn in turns {
        let place = take_turn(rt, lock, zero, one, turn);
        meet_at(count, zero, one);
        places.push(place)?;
        count = count.saturating_add(1);
    }
    Ok(places)
}

/// What two callers came to: the places of their calls, how many finals were sent to each, and what is left.
#[derive(Drop)]
struct Turns {
    places: Vec<Result<u64, bool>>,
    finals: (usize, usize),
    end: Finished,
}

/// The calls of two callers on a new state.
fn in_turn<H: PassHome, M: Ledger, R: Wait>(
    rt: &R,
    alloc: Global,
    new: (PassState, PassList),
    blank: Blank,
    turns: Vec<Turn>,
) -> Result<Turns, Fail>
    requires means { (H.config ≡ new.0.sharing.stored.config) × (H.home ≡ home_of new.0) }
    requires fresh { new.0.sharing.stored.calls ≡ [] }
    requires list { new.1 ≡ record { home = H.home; passes = unused_passes H.home 2; most = 2 } }
    requires blank { (blank.name ≡ M.name) × (blank.parts ≡ M.parts) × (M.parts ≡ 2) }
{
    let (state, mut list) = new;
    let (book, mut first) = blank.open::<M>();
    let second = first.split_off(1, 0);
    let (zero, one) = take_both::<H>(&mut list).ok_or("two passes")?;
    let lock = PassLock::<H, M>::new(state, book);
    let mut zero = Caller {
        alloc,
        pass: zero,
        made: first,
        finals: 0,
    };
    let mut one = Caller {
        alloc,
        pass: one,
        made: second,
        finals: 0,
    };
    let places = make_in_turn(rt, &lock, &mut zero, &mut one, turns)?;
    let finals = (zero.finals, one.finals);
    Ok(Turns {
        places,
        finals,
        end: end_both(lock, list, zero, one),
    })
}

/// The calls of a script, each with who makes it.
fn turns_of(alloc: Global, calls: Vec<Call>, seconds: &[bool]) -> Result<Vec<Turn>, Fail> {
    let mut turns = Vec::new(alloc);
    for call in calls {
        let of_second = turns.len() < seconds.len() && seconds[turns.len()];
        turns.push(Turn { of_second, call })?;
    }
    Ok(turns)
}

/// What the calls of a script are answered, on a state with one slot.
fn places_of<R: Wait>(rt: &R, alloc: Global, text: &str, seconds: &[bool]) -> Result<Turns, Fail> {
    let (config, calls) = calls_of(alloc, text)?;
    let turns = turns_of(alloc, calls, seconds)?;
    let new = PassState::new(alloc, &config, 1, 2)?;
    in_turn::<Brand, Brand, R>(rt, alloc, new, Blank::new(2), turns)
}

#[test]
fn two_in_turn(rt: HostRuntime) -> Result<(), Fail> {
    let Turns {
        places,
        finals,
        end,
    } = places_of(&rt, rt.alloc(), OPENS, &[false, false, true, false, true])?;
    assert!(rt; places.as_slice() == [Ok(0), Ok(1), Ok(2), Ok(3), Err(true)].as_slice());
    assert!(rt; finals == (0, 0));
    assert!(rt; end.made == 4 && end.owners.as_slice() == [0, 0, 1, 0].as_slice());
    Ok(())
}

#[test]
fn a_reply_is_reported(rt: HostRuntime) -> Result<(), Fail> {
    let seconds = [false, false, false, false, false, true];
    let Turns {
        places,
        finals,
        end,
    } = places_of(&rt, rt.alloc(), REPLIED, &seconds)?;
    assert!(rt; finals == (0, 1));
    assert!(rt; places.as_slice() == [Ok(0), Ok(1), Ok(2), Ok(3), Ok(4), Ok(5)].as_slice());
    assert!(rt; end.made == 6 && end.owners.as_slice() == [0, 0, 0, 0, 0, 1, 1].as_slice());
    Ok(())
}
