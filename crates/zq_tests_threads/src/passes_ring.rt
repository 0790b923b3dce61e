//! Four callers that meet in a ring.
ghost use Rattle.std.specs.Prelude.{◌≡◌, ◌<◌, [], IfSome, length};
ghost use mathlib.Core.List.{IsPrefix};
ghost use Rattle.zq_pass.specs.Passes.{home_of, unused_pass, unused_passes};
ghost use Rattle.zq_tests_threads.specs.Passing.{SeesAll};

use crate::passes::calls_of;
use std::alloc::Global;
use std::marker::Brand;
use std::sync::Wait;
use std::sync::ledger::{Blank, Ledger, Share};
use std::test::Fail;
use zq_machine::call::Call;
use zq_pass::{Finished, Pass, PassHome, PassList, PassLock, PassState};
use zq_shared::MemoryLink;

const CONFIG: &str = "config 1 10000 north:client local\n";

/// The second takes in what the first had seen.
fn pass_on(first: &mut Pass, second: &mut Pass)
    requires { first.old.home ≡ second.old.home }
    ensures first { first.new ≡ first.old }
    ensures second { (second.new.home ≡ second.old.home) × (second.new.held ≡ second.old.held) }
    ensures mine { IsPrefix second.old.seen second.new.seen }
    ensures theirs { IsPrefix first.old.seen second.new.seen }
{
    second.meet(first.note());
}

/// What each has seen goes on to the next, so that the last has seen what all had.
fn go_round(a: &mut Pass, b: &mut Pass, c: &mut Pass, d: &mut Pass)
    requires { (a.old.home ≡ b.old.home) × (b.old.home ≡ c.old.home) × (c.old.home ≡ d.old.home) }
    ensures homes { (a.new.home ≡ a.old.home) × (b.new.home ≡ b.old.home) × (c.new.home ≡ c.old.home) × (d.new.home ≡ d.old.home) }
    ensures held { (a.new.held ≡ a.old.held) × (b.new.held ≡ b.old.held) × (c.new.held ≡ c.old.held) × (d.new.held ≡ d.old.held) }
    ensures last { SeesAll a.old b.old c.old d.old d.new.seen }
{
    pass_on(a, b);
    pass_on(b, c);
    pass_on(c, d);
}

/// What each has seen goes round, until each has seen what all had.
fn meet_in_ring(a: &mut Pass, b: &mut Pass, c: &mut Pass, d: &mut Pass)
    requires { (a.old.home ≡ b.old.home) × (b.old.home ≡ c.old.home) × (c.old.home ≡ d.old.home) }
    ensures homes { (a.new.home ≡ a.old.home) × (b.new.home ≡ b.old.home) × (c.new.home ≡ c.old.home) × (d.new.home ≡ d.old.home) }
    ensures held { (a.new.held ≡ a.old.held) × (b.new.held ≡ b.old.held) × (c.new.held ≡ c.old.held) × (d.new.held ≡ d.old.held) }
    ensures a { SeesAll a.old b.old c.old d.old a.new.seen }
    ensures b { SeesAll a.old b.old c.old d.old b.new.seen }
    ensures c { SeesAll a.old b.old c.old d.old c.new.seen }
    ensures d { SeesAll a.old b.old c.old d.old d.new.seen }
{
    go_round(a, b, c, d);
    pass_on(d, a);
    pass_on(a, b);
    pass_on(b, c);
}

/// The four passes of a list.
fn take_four<H: PassHome>(list: &mut PassList) -> Option<(Pass, Pass, Pass, Pass)>
    requires { list.old ≡ record { home = H.home; passes = unused_passes H.home 4; most = 4 } }
    ensures passes { IfSome result (λ r. (r.0 ≡ unused_pass H.home 0) × (r.1 ≡ unused_pass H.home 1) × (r.2 ≡ unused_pass H.home 2) × (r.3 ≡ unused_pass H.home 3)) }
    ensures list { IfSome result (λ r. list.new ≡ record { home = H.home; passes = []; most = 4 }) }
{
    let a = list.take()?;
    let b = list.take()?;
    let c = list.take()?;
    let d = list.take()?;
    Some((a, b, c, d))
}

/// A moment comes, by a call of the pass.
fn poll<H: PassHome, M: Ledger, R: Wait>(
    rt: &R,
    alloc: Global,
    lock: &PassLock<H, M>,
    pass: &mut Pass,
    made: &mut Share<M>,
)
    requires pass { (pass.old.home ≡ H.home) × (pass.old.held ≡ []) }
    requires part { 0 < made.old.parts }
    ensures pass { (pass.new.home ≡ H.home) × (pass.new.held ≡ []) }
    ensures part { made.new.parts ≡ made.old.parts }
{
    let mut link = MemoryLink::new(alloc, Vec::new(alloc));
    let _ = lock.call(rt, pass, made, &mut link, Call::Poll { now: 1 });
}

/// Four passes, one call each; they meet; one call each again, the last pass first.
fn in_ring<H: PassHome, M: Ledger, R: Wait>(
    rt: &R,
    alloc: Global,
    new: (PassState, PassList),
    blank: Blank,
) -> Result<Finished, Fail>
    requires means { (H.config ≡ new.0.sharing.stored.config) × (H.home ≡ home_of new.0) }
    requires fresh { new.0.sharing.stored.calls ≡ [] }
    requires list { new.1 ≡ record { home = H.home; passes = unused_passes H.home 4; most = 4 } }
    requires blank { (blank.name ≡ M.name) × (blank.parts ≡ M.parts) × (M.parts ≡ 1) }
{
    let (state, mut list) = new;
    let (book, mut made) = blank.open::<M>();
    let (mut a, mut b, mut c, mut d) = take_four::<H>(&mut list).ok_or("four passes")?;
    let lock = PassLock::<H, M>::new(state, book);
    poll(rt, alloc, &lock, &mut a, &mut made);
    poll(rt, alloc, &lock, &mut b, &mut made);
    poll(rt, alloc, &lock, &mut c, &mut made);
    poll(rt, alloc, &lock, &mut d, &mut made);
    meet_in_ring(&mut a, &mut b, &mut c, &mut d);
    poll(rt, alloc, &lock, &mut d, &mut made);
    poll(rt, alloc, &lock, &mut c, &mut made);
    poll(rt, alloc, &lock, &mut b, &mut made);
    poll(rt, alloc, &lock, &mut a, &mut made);
    list.put(a);
    list.put(b);
    list.put(c);
    list.put(d);
    Ok(lock.finish(list, made))
}

fn ended<R: Wait>(rt: &R, alloc: Global) -> Result<Finished, Fail> {
    let (config, _calls) = calls_of(alloc, CONFIG)?;
    let new = PassState::new(alloc, &config, 1, 4)?;
    in_ring::<Brand, Brand, R>(rt, alloc, new, Blank::new(1))
}

#[test]
fn four_in_a_ring(rt: HostRuntime) -> Result<(), Fail> {
    let end = ended(&rt, rt.alloc())?;
    assert!(rt; end.made == 8 && end.owners.as_slice() == [0, 1, 2, 3, 3, 2, 1, 0].as_slice());
    Ok(())
}
