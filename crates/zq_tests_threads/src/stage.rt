//! Two callers of a locked gateway, and what they do.
ghost use Rattle.std.specs.Prelude.{◌≡◌, [], None};
ghost use Rattle.zq_tests_threads.specs.Callers.{IsReady};

use crate::callers::{Caller, Desk, open_two};
use crate::faults::play_failing;
use crate::gates::play_held;
use crate::given::{last_part, parts_of, print_calls};
use crate::within::play_within;
use std::alloc::Global;
use std::marker::Brand;
use std::process::Abort;
use std::sync::Wait;
use std::sync::ledger::{Blank, Ledger};
use std::test::Fail;
use std::thread::Threads;
use zq_gateway::replay;
use zq_lines::steps::print_steps;
use zq_machine::call::Call;
use zq_machine::config::Config;
use zq_shared::{Home, SeatList, Shared, SureLink, TablesLock};

/// What two callers do.
#[derive(Clone, Copy)]
pub(crate) enum Scene {
    /// While the send of that number of the first is held, the second makes its calls.
    Held(u64),
    /// During the second send of the first, the second makes its calls in the same thread.
    Within,
    /// The first makes its calls over a link of which the send of that number fails.
    Failing(u64),
}

/// The callers make their calls; what is printed of it.
fn play<K: Desk<W> + Sync, W: Send + Drop, R: Threads + Wait + Abort + Sync>(
    rt: &R,
    alloc: Global,
    scene: Scene,
    desk: &K,
    callers: (W, W),
) -> Result<Vec<u8>, Fail>
    requires { K.ready callers.0 × K.ready callers.1 }
{
    let (first, second) = callers;
    match scene {
        Scene::Held(number) => play_held(rt, alloc, desk, (first, second), number),
        Scene::Within => play_within(rt, alloc, desk, (first, second)),
        Scene::Failing(number) => play_failing(rt, alloc, desk, first, number),
    }
}

/// What is left of a scene: its print, the stored calls, and the steps of their replay.
#[derive(Drop)]
pub(crate) struct Played {
    pub(crate) print: Vec<u8>,
    pub(crate) stored: Vec<u8>,
    pub(crate) replay: Vec<u8>,
}

/// The scene on the gateway under the lock.
fn play_on<
    H: Home + Send + Sync,
    C: Ledger + Send + Sync,
    Q: Ledger + Send + Sync,
    P: Ledger + Send + Sync,
    R: Threads + Wait + Abort + Sync,
>(
    rt: &R,
    alloc: Global,
    scene: Scene,
    lock: &TablesLock<H, C, Q, P>,
    first: Caller<C, Q, P>,
    second: Caller<C, Q, P>,
) -> Result<Vec<u8>, Fail>
    requires list { H.list ≡ None }
    requires first { IsReady H.holds first.seat first.tally }
    requires second { IsReady H.holds second.seat second.tally }
{
    play(rt, alloc, scene, lock, (first, second))
}

/// The calls of three parts.
#[derive(Drop)]
struct Parts {
    earlier: Vec<Call>,
    ours: Vec<Call>,
    theirs: Vec<Call>,
}

/// The first part, over a link that takes all, and then the scene.
fn play_parts<
    H: Home + Send + Sync,
    C: Ledger + Send + Sync,
    Q: Ledger + Send + Sync,
    P: Ledger + Send + Sync,
    R: Threads + Wait + Abort + Sync,
>(
    rt: &R,
    alloc: Global,
    scene: Scene,
    lock: &TablesLock<H, C, Q, P>,
    callers: (Caller<C, Q, P>, Caller<C, Q, P>),
    parts: Parts,
) -> Result<Vec<u8>, Fail>
    requires list { H.list ≡ None }
    requires first { IsReady H.holds callers.0.seat callers.0.tally }
    requires second { IsReady H.holds callers.1.seat callers.1.tally }
{
    let (mut first, mut second) = callers;
    first.calls = parts.earlier;
    second.calls = parts.theirs;
    if !lock.make(rt, &mut first, &mut SureLink::new()) {
        return Err(Fail::from("the first part is made"));
    }
    first.calls = parts.ours;
    first.print.clear();
    play_on(rt, alloc, scene, lock, first, second)
}

/// The steps of the replay of these calls.
fn print_replay(alloc: Global, config: &Config, calls: &[Call]) -> Result<Vec<u8>, Fail> {
    let Ok(replay) = replay(alloc, config, calls) else {
        return Err(Fail::from("memory"));
    };
    let print = print_steps(alloc, replay.steps.as_slice())?;
    Ok(Vec::from_slice(alloc, print.as_slice())?)
}

/// What is left, once the lock is taken away.
fn end<H: Home, C: Ledger, Q: Ledger, P: Ledger>(
    alloc: Global,
    lock: TablesLock<H, C, Q, P>,
    print: Vec<u8>,
) -> Result<Played, Fail> {
    let (shared, _, _, _) = lock.into_shared();
    let stored = print_calls(alloc, shared.calls())?;
    let replay = print_replay(alloc, shared.config(), shared.calls())?;
    Ok(Played {
        print,
        stored,
        replay,
    })
}

/// The first part, and then the scene.
fn two_callers<
    H: Home + Send + Sync,
    C: Ledger + Send + Sync,
    Q: Ledger + Send + Sync,
    P: Ledger + Send + Sync,
    R: Threads + Wait + Abort + Sync,
>(
    rt: &R,
    alloc: Global,
    scene: Scene,
    shared: Shared,
    seats: SeatList,
    blanks: (Blank, Blank, Blank),
    parts: Parts,
) -> Result<Played, Fail>
    requires means { (H.config ≡ shared.stored.config) × (H.holds ≡ shared.slots.keeper.home) }
    requires list { H.list ≡ None }
    requires fresh { shared.stored.calls ≡ [] }
    requires seats { seats.home ≡ H.holds }
    requires calls { (blanks.0.name ≡ C.name) × (blanks.0.parts ≡ C.parts) × (C.parts ≡ 2) }
    requires asks { (blanks.1.name ≡ Q.name) × (blanks.1.parts ≡ Q.parts) × (Q.parts ≡ 2) }
    requires full { (blanks.2.name ≡ P.name) × (blanks.2.parts ≡ P.parts) × (P.parts ≡ 2) }
{
    let (lock, first, second) = open_two::<H, C, Q, P>(alloc, shared, seats, blanks)?;
    let print = play_parts(rt, alloc, scene, &lock, (first, second), parts)?;
    end(alloc, lock, print)
}

/// The configuration and the three parts of a script.
fn three_parts(alloc: Global, script: &str) -> Result<(Config, Parts), Fail> {
    let (config, mut parts) = parts_of(alloc, script)?;
    let theirs = last_part(&mut parts)?;
    let ours = last_part(&mut parts)?;
    let earlier = last_part(&mut parts)?;
    let parts = Parts {
        earlier,
        ours,
        theirs,
    };
    Ok((config, parts))
}

/// The first part of a script, and then the scene, in which each of two callers has a part.
pub(crate) fn play_script<R: Threads + Wait + Abort + Sync>(
    rt: &R,
    alloc: Global,
    scene: Scene,
    script: &str,
) -> Result<Played, Fail> {
    let (config, parts) = three_parts(alloc, script)?;
    let (shared, seats) = Shared::new(alloc, &config, 8, 2)?;
    let blanks = (Blank::new(2), Blank::new(2), Blank::new(2));
    two_callers::<Brand, Brand, Brand, Brand, R>(rt, alloc, scene, shared, seats, blanks, parts)
}
