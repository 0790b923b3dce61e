//! Runs `share W SLOTS` over links that work on each message, as bench/share times it: the last two words say for how many turns, and
//! whether the links work `apart`, each in its own thread, or `together`, one after the other, as if one lock were held while sending.
#![tactic(auto)]

ghost use Rattle.std.specs.Prelude.{None};

use std::alloc::Global;
use std::env;
use std::hint::spin_loop;
use std::process::ExitCode;
use std::rt::Env;
use std::sync::Wait;
use std::sync::atomic::{AtomicU64, Ordering};
use std::thread::Threads;
use zq_io::streams::{ReadSource, Sink, Source, WriteSink};
use zq_io::words::number;
use zq_machine::handed::Handed;
use zq_message::text::Text;
use zq_program::{Failed, Link, program};
use zq_script::running::Status;

/// How many links there are: one for each worker.
const LINKS: usize = 16;

/// The most turns that a link works on a message.
const MOST_TURNS: u64 = 1_000_000;

/// How often a link looks whether another has ended its work.
const LOOKS: u64 = 100_000_000;

/// A link that works on each message for some turns, and never fails.
#[derive(Clone, Copy)]
struct WorkingLink<'a> {
    turns: u64,
    /// Taken by the link that works, where the links work together.
    door: Option<&'a AtomicU64>,
}

/// Goes on for so many turns.
fn spin(turns: u64) {
    for _turn in 0..turns {
        spin_loop();
    }
}

/// Whether the door was taken, in time.
fn enter(door: &AtomicU64) -> bool {
    for _look in 0..LOOKS {
        if door.swap(1, Ordering::SeqCst) == 0 {
            return true;
        }
        spin_loop();
    }
    false
}

/// Goes on for so many turns once no other does that took the door, or after a long wait.
fn spin_behind(door: &AtomicU64, turns: u64) {
    let taken = enter(door);
    spin(turns);
    if taken {
        door.store(0, Ordering::SeqCst);
    }
}

impl<'a> Link for WorkingLink<'a> {
    ghost taken = { λ l. None };

    ghost faults = { λ l. 0 };

    fn send(&mut self, _handed: &Handed) -> Result<(), Failed> {
        match self.door {
            Some(door) => spin_behind(door, self.turns),
            None => spin(self.turns),
        }
        Ok(())
    }
}

/// How the links work.
#[derive(Clone, Copy)]
struct Work {
    turns: u64,
    together: bool,
}

/// What the last two words say, which are taken.
fn take_work(words: &mut Vec<Text>) -> Option<Work> {
    let how = words.pop()?;
    let turns = words.pop()?;
    Some(Work {
        turns: number(MOST_TURNS, turns.as_str().as_bytes())?,
        together: how.as_str() == "together",
    })
}

/// The words behind the program's name, and what the last two of them say.
fn words_and_work(rt: &(impl Env + Alloc), alloc: Global) -> Option<(Vec<Text>, Work)> {
    let mut words = Vec::new(alloc);
    for arg in env::args(rt).ok()?.skip(1) {
        words.push(Text::new(alloc, arg.as_str()).ok()?).ok()?;
    }
    let work = take_work(&mut words)?;
    Some((words, work))
}

fn run<R: Threads + Wait + Sync, S: Source, K: Sink>(
    rt: &R,
    alloc: Global,
    words: &[Text],
    work: Work,
    source: &mut S,
    sink: &mut K,
) -> Status {
    let door = AtomicU64::new(0);
    let link = WorkingLink {
        turns: work.turns,
        door: if work.together { Some(&door) } else { None },
    };
    let mut links = [link; LINKS];
    program(rt, alloc, words, source, sink, &mut links)
}

fn main(rt: HostRuntime) -> ExitCode {
    let alloc = rt.alloc();
    let Some((words, work)) = words_and_work(&rt, alloc) else {
        return ExitCode::from(1);
    };
    let mut source = ReadSource::new(rt.stdin());
    let mut sink = WriteSink::new(rt.stdout());
    let status = run(&rt, alloc, words.as_slice(), work, &mut source, &mut sink);
    ExitCode::from(status.code())
}
