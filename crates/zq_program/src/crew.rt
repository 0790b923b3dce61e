//! Workers make their calls over links.
ghost use Rattle.std.specs.Prelude.{◌<◌, ◌≤◌, ◌+◌, All, ◌&&◌, length, map};
ghost use Rattle.std.specs.List.{AllZip, list_all};
ghost use Rattle.std.specs.Thread.{IsSync};
ghost use Rattle.zq_program.specs.Faults.{HasFaults, HaveFaults};

use crate::works::Works;
use std::sync::Wait;
use std::thread::{Threads, join_mut};
use zq_shared::Link;

/// Each of the workers makes its calls, over a link of its own and in a thread of its own.
fn work_all<K: Works<W> + Sync, W: Send, L: Link + Send, R: Threads + Wait + Sync>(
    rt: &R,
    desk: &K,
    crew: &mut [W],
    links: &mut [L],
)
    requires ready { All K.ready crew.old }
    requires links { length crew.old ≤ length links.old }
    ensures worked { AllZip K.worked crew.old crew.new }
    ensures faults { HaveFaults (list_all K.sent crew.new) (map L.faults links.old) (map L.faults links.new) }
{
    let Some((first, rest)) = crew.split_first_mut() else {
        return;
    };
    let Some((link, others)) = links.split_first_mut() else {
        unreachable!()
    };
    join_mut(
        rt,
        &mut ||
            requires ready { K.ready first.now }
            ensures worked { K.worked first.entry.now first.exit.now }
            ensures faults { HasFaults (K.sent first.exit.now) (L.faults link.entry.now) (L.faults link.exit.now) }
        { desk.run(rt, first, link) },
        &mut ||
            requires sync { IsSync R.row }
            requires ready { All K.ready rest.now }
            requires links { length rest.now ≤ length others.now }
            ensures worked { AllZip K.worked rest.entry.now rest.exit.now }
            ensures faults { HaveFaults (list_all K.sent rest.exit.now) (map L.faults others.entry.now) (map L.faults others.exit.now) }
        { work_all(rt, desk, rest, others) },
    );
}

/// The first worker makes its calls in this thread over the first link, and then the others theirs, each in a thread and over a link of
/// its own.
pub fn work_parts<K: Works<W> + Sync, W: Send, L: Link + Send, R: Threads + Wait + Sync>(
    rt: &R,
    desk: &K,
    crew: &mut [W],
    links: &mut [L],
)
    requires ready { All K.ready crew.old }
    requires some { 0 < length links.old }
    requires links { length crew.old ≤ length links.old + 1 }
    ensures worked { AllZip K.worked crew.old crew.new }
    ensures faults { HaveFaults (list_all K.sent crew.new) (map L.faults links.old) (map L.faults links.new) }
{
    let Some((first, rest)) = crew.split_first_mut() else {
        return;
    };
    desk.run(rt, first, &mut links[0]);
    work_all(rt, desk, rest, links);
}
