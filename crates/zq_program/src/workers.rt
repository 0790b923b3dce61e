//! The workers of a script.
ghost use Rattle.std.specs.Prelude.{◌≡◌, ◌<◌, ◌≤◌, ◌+◌, All, IfOk, OnOk, length, map, vec_len};
ghost use Rattle.std.specs.List.{AllZip};
ghost use Rattle.zq_program.specs.Faults.{HaveFaults};
ghost use Rattle.zq_shared.specs.Tallies.{each};
ghost use Rattle.zq_program.specs.Shares.{gathered};
ghost use Rattle.zq_program.specs.Working.{IsReady, Worked, all_sent, all_whole, new_worker};

use crate::crew::work_parts;
use crate::worker::{Ended, Worker};
use std::alloc::Global;
use std::sync::Wait;
use std::sync::ledger::Ledger;
use std::thread::Threads;
use zq_key::memory::OutOfMemory;
use zq_machine::call::Call;
use zq_message::items::Items;
use zq_shared::{Home, Link, SeatList, TablesLock, Tally};

/// A worker for each part of a script.
pub(crate) fn make_crew<C: Ledger, Q: Ledger, P: Ledger>(
    alloc: Global,
    seats: &mut SeatList,
    tally: &mut Tally<C, Q, P>,
    parts: Vec<Items<Call>>,
) -> Result<Vec<Worker<C, Q, P>>, OutOfMemory>
    requires seats { vec_len parts ≤ seats.old.count }
    requires tally { tally.old ≡ record { parts = each (vec_len parts); made = each 0 } }
    ensures crew { IfOk result (λ v. v.items ≡ map (new_worker seats.old.home) parts.items) }
    ensures tally { OnOk result (tally.new ≡ record { parts = each 0; made = each 0 }) }
{
    let mut crew = Vec::new(alloc);
    for part in parts {
        let Some(seat) = seats.take() else {
            unreachable!()
        };
        crew.push(Worker {
            alloc,
            seat,
            tally: tally.split_one(),
            calls: part.into_vec(),
            whole: true,
            sent: true,
        })?;
    }
    Ok(crew)
}

/// The workers make their calls on the gateway under the lock.
pub(crate) fn run_crew<
    H: Home + Send + Sync,
    C: Ledger + Send + Sync,
    Q: Ledger + Send + Sync,
    P: Ledger + Send + Sync,
    L: Link + Send,
    R: Threads + Wait + Sync,
>(
    rt: &R,
    lock: &TablesLock<H, C, Q, P>,
    mut crew: Vec<Worker<C, Q, P>>,
    links: &mut [L],
) -> Vec<Worker<C, Q, P>>
    requires ready { All (IsReady H.holds H.list) crew.items }
    requires links { (0 < length links.old) × (vec_len crew ≤ length links.old + 1) }
    ensures worked { AllZip Worked crew.items result.items }
    ensures faults { HaveFaults (all_sent result.items) (map L.faults links.old) (map L.faults links.new) }
{
    work_parts(rt, lock, crew.as_mut_slice(), links);
    crew
}

/// What the workers have counted, and how they ended.
pub(crate) fn gather<C: Ledger, Q: Ledger, P: Ledger>(
    crew: Vec<Worker<C, Q, P>>,
    tally: &mut Tally<C, Q, P>,
) -> Ended
    ensures tally { tally.new ≡ gathered tally.old crew.items }
    ensures ended { (result.whole ≡ all_whole crew.items) × (result.sent ≡ all_sent crew.items) }
{
    let mut ended = Ended {
        whole: true,
        sent: true,
    };
    for worker in crew {
        let Worker {
            alloc: _,
            seat: _,
            tally: own,
            calls: _,
            whole,
            sent,
        } = worker;
        tally.merge(own);
        ended = Ended {
            whole: ended.whole && whole,
            sent: ended.sent && sent,
        };
    }
    ended
}
