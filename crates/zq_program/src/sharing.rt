//! The parts of a script, made by as many workers on one gateway.
ghost use Rattle.std.specs.Prelude.{◌≡◌, ◌<◌, ◌≤◌, ◌+◌, All, [], Some, IfOk, false, length, map, vec_len};
ghost use Rattle.zq_machine.specs.Calls.{is_sent};
ghost use Rattle.zq_program.specs.Faults.{HaveFaults, NeverFell};
ghost use Rattle.zq_shared.specs.Answers.{AllListed};
ghost use Rattle.zq_program.specs.Shares.{HasStored, all_calls};
ghost use Rattle.zq_program.specs.Working.{MayMake};

use crate::workers::{gather, make_crew, run_crew};
use std::alloc::Global;
use std::marker::Brand;
use std::sync::Wait;
use std::sync::ledger::{Blank, Ledger};
use std::thread::Threads;
use zq_key::memory::OutOfMemory;
use zq_machine::call::Call;
use zq_machine::config::Config;
use zq_message::items::Items;
use zq_shared::{Home, Link, SeatList, Shared, TablesLock, Tally};

/// Workers share the calls over the gateway that the name means.
#[tactic(auto, using(crate::proofs::Faults::fell_none, crate::proofs::Faults::fell_of))]
fn share_named<
    H: Home + Send + Sync,
    C: Ledger + Send + Sync,
    Q: Ledger + Send + Sync,
    P: Ledger + Send + Sync,
    L: Link + Send,
    R: Threads + Wait + Sync,
>(
    rt: &R,
    alloc: Global,
    shared: Shared,
    mut seats: SeatList,
    blanks: (Blank, Blank, Blank),
    parts: Vec<Items<Call>>,
    links: &mut [L],
) -> Result<(Shared, bool), OutOfMemory>
    requires means { (H.config ≡ shared.stored.config) × (H.holds ≡ shared.slots.keeper.home) }
    requires list { H.list ≡ Some (all_calls parts.items) }
    requires fresh { shared.stored.calls ≡ [] }
    requires seats { (seats.home ≡ H.holds) × (vec_len parts ≤ seats.count) }
    requires calls { (blanks.0.name ≡ C.name) × (blanks.0.parts ≡ C.parts) × (C.parts ≡ vec_len parts) }
    requires asks { (blanks.1.name ≡ Q.name) × (blanks.1.parts ≡ Q.parts) × (Q.parts ≡ vec_len parts) }
    requires full { (blanks.2.name ≡ P.name) × (blanks.2.parts ≡ P.parts) × (P.parts ≡ vec_len parts) }
    requires parts { All (All (MayMake H.list)) parts.items }
    requires links { (0 < length links.old) × (vec_len parts ≤ length links.old + 1) }
    ensures config { IfOk result (λ r. r.0.stored.config ≡ shared.stored.config) }
    ensures wide { IfOk result (λ r. length r.0.slots.keeper.marks ≡ length shared.slots.keeper.marks) }
    ensures stored { IfOk result (λ r. HasStored shared.stored.config (length shared.slots.keeper.marks) (all_calls parts.items) r.0.stored.calls) }
    ensures faults { IfOk result (λ r. HaveFaults r.1 (map L.faults links.old) (map L.faults links.new)) }
    ensures later { NeverFell (map L.faults links.old) (map L.faults links.new) }
{
    shared.recall();
    let (calls, asks, full) = blanks;
    let (calls, all_calls) = calls.open::<C>();
    let (asks, all_asks) = asks.open::<Q>();
    let (full, all_full) = full.open::<P>();
    let mut tally = Tally {
        calls: all_calls,
        asks: all_asks,
        full: all_full,
    };
    let crew = make_crew(alloc, &mut seats, &mut tally, parts)?;
    let lock = TablesLock::<H, C, Q, P>::new(shared, calls, asks, full);
    let crew = run_crew(rt, &lock, crew, links);
    let ended = gather(crew, &mut tally);
    if !ended.whole {
        return Err(OutOfMemory);
    }
    let (shared, mut calls, mut asks, mut full) = lock.into_shared();
    shared.recall();
    tally.audit(&mut calls, &mut asks, &mut full);
    Ok((shared, ended.sent))
}

/// Makes the calls of the first part over the first link, and then those of the other parts, each by a worker in a thread of its own and over
/// a link of its own, all on one gateway with that many slots. A call that finds every slot allotted is passed over. Whoever finds no memory
/// makes no further calls; the others go on, and the answer is `OutOfMemory`. Otherwise it answers the gateway with its stored calls, and
/// whether no link failed.
#[tactic(auto, using(crate::proofs::Faults::fell_none))]
pub fn share<L: Link + Send, R: Threads + Wait + Sync>(
    rt: &R,
    alloc: Global,
    config: &Config,
    slots: u16,
    parts: Vec<Items<Call>>,
    links: &mut [L],
) -> Result<(Shared, bool), OutOfMemory>
    requires slots { (0 < slots) × (slots ≤ 1024) }
    requires parts { (0 < vec_len parts) × (vec_len parts ≤ 63) }
    requires calls { All (All (λ c. is_sent c ≡ false)) parts.items }
    requires links { (0 < length links.old) × (vec_len parts ≤ length links.old + 1) }
    ensures config { IfOk result (λ r. r.0.stored.config ≡ config.now) }
    ensures wide { IfOk result (λ r. length r.0.slots.keeper.marks ≡ slots) }
    ensures stored { IfOk result (λ r. HasStored config.now slots (all_calls parts.items) r.0.stored.calls) }
    ensures faults { IfOk result (λ r. HaveFaults r.1 (map L.faults links.old) (map L.faults links.new)) }
    ensures later { NeverFell (map L.faults links.old) (map L.faults links.new) }
{
    let count = parts.len();
    let (shared, seats) = Shared::new(alloc, config, slots, count as u8)?;
    let count = count as u64;
    let blanks = (Blank::new(count), Blank::new(count), Blank::new(count));
    share_named::<Brand, Brand, Brand, Brand, L, R>(rt, alloc, shared, seats, blanks, parts, links)
}
