//! Two callers, each in a thread of its own.
ghost use Rattle.std.specs.Prelude.{◌≡◌, [], length};
ghost use Rattle.zq_pass.specs.Passes.{home_of, unused_passes};
ghost use Rattle.zq_tests_threads.specs.Passing.{MayPass};

use crate::passes::{Caller, calls_of, end_both, place_of, take_both};
use std::alloc::Global;
use std::marker::Brand;
use std::sync::Wait;
use std::sync::ledger::{Blank, Ledger};
use std::test::Fail;
use std::thread::{Threads, join_mut};
use zq_machine::call::Call;
use zq_pass::{PassHome, PassList, PassLock, PassState};

const CONFIG: &str = "config 1 10000 north:client local\n";

/// Where callers make their calls.
pub(crate) trait Desk<W> {
    /// The caller may begin.
    ghost ready: { W → Type 0 };

    /// The caller makes ten calls, in each of which a moment comes.
    fn make_ten<R: Wait>(&self, rt: &R, caller: &mut W)
        requires { ready caller.old }
        ensures { ready caller.new };
}

impl<H: PassHome, M: Ledger> Desk<Caller<M>> for PassLock<H, M> {
    ghost ready = { λ w. MayPass H.home w.pass w.made.parts };

    fn make_ten<R: Wait>(&self, rt: &R, caller: &mut Caller<M>) {
        'moments: for now in 0..10u64 {
            let _ = place_of(rt, self, caller, Call::Poll { now });
        }
    }
}

/// Both callers at once.
fn both_make<K: Desk<W> + Sync, W: Send, R: Threads + Wait + Sync>(
    rt: &R,
    desk: &K,
    zero: &mut W,
    one: &mut W,
)
    requires { K.ready zero.old × K.ready one.old }
    ensures { K.ready zero.new × K.ready one.new }
{
    join_mut(
        rt,
        &mut ||
            requires { K.ready zero.now }
            ensures { K.ready zero.exit.now }
        { desk.make_ten(rt, zero) },
        &mut ||
            requires { K.ready one.now }
            ensures { K.ready one.exit.now }
        { desk.make_ten(rt, one) },
    );
}

/// The callers of a lock at once.
fn both_on<H: PassHome + Send + Sync, M: Ledger + Send + Sync, R: Threads + Wait + Sync>(
    rt: &R,
    lock: &PassLock<H, M>,
    zero: &mut Caller<M>,
    one: &mut Caller<M>,
)
    requires zero { MayPass H.home zero.old.pass zero.old.made.parts }
    requires one { MayPass H.home one.old.pass one.old.made.parts }
    ensures zero { MayPass H.home zero.new.pass zero.new.made.parts }
    ensures one { MayPass H.home one.new.pass one.new.made.parts }
{
    both_make(rt, lock, zero, one);
}

/// Two callers of a new state, and how many calls they made.
fn made_by<H: PassHome + Send + Sync, M: Ledger + Send + Sync, R: Threads + Wait + Sync>(
    rt: &R,
    alloc: Global,
    new: (PassState, PassList),
    blank: Blank,
) -> Result<u64, Fail>
    requires means { (H.config ≡ new.0.sharing.stored.config) × (H.home ≡ home_of new.0) }
    requires fresh { new.0.sharing.stored.calls ≡ [] }
    requires list { new.1 ≡ record { home = H.home; passes = unused_passes H.home 2; most = 2 } }
    requires blank { (blank.name ≡ M.name) × (blank.parts ≡ M.parts) × (M.parts ≡ 2) }
{
    let (state, mut list) = new;
    let (book, mut first) = blank.open::<M>();
    let second = first.split_off(1, 0);
    let (zero, one) = take_both::<H>(&mut list).ok_or("two passes")?;
    let lock = PassLock::<H, M>::new(state, book);
    let mut zero = Caller {
        alloc,
        pass: zero,
        made: first,
        finals: 0,
    };
    let mut one = Caller {
        alloc,
        pass: one,
        made: second,
        finals: 0,
    };
    both_on(rt, &lock, &mut zero, &mut one);
    Ok(end_both(lock, list, zero, one).made)
}

fn made_beside<R: Threads + Wait + Sync>(rt: &R, alloc: Global) -> Result<u64, Fail> {
    let (config, _calls) = calls_of(alloc, CONFIG)?;
    let new = PassState::new(alloc, &config, 1, 2)?;
    made_by::<Brand, Brand, R>(rt, alloc, new, Blank::new(2))
}

#[test]
fn two_threads(rt: HostRuntime) -> Result<(), Fail> {
    assert!(rt; made_beside(&rt, rt.alloc())? == 20);
    Ok(())
}
