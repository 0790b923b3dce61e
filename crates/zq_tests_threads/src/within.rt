//! A call that is made while a final is sent, by the thread that sends it: the lock is free then.
ghost use Rattle.std.specs.Prelude.{◌≡◌};

use crate::callers::Desk;
use crate::given::print_leaving;
use crate::stage::{Scene, play_script};
use std::alloc::Global;
use std::marker::Model;
use std::process::Abort;
use std::sync::Wait;
use std::sync::atomic::{AtomicU64, Ordering};
use std::test::Fail;
use std::thread::{Threads, join};
use zq_machine::handed::Handed;
use zq_shared::{Failed, Link, MemoryLink, SureLink, is_set};

/// A link in memory, and a caller that makes its calls on the same gateway during the send of that number.
#[derive(Drop)]
struct CallingLink<'a, K: Desk<W>, W: Drop, R: Wait> {
    rt: &'a R,
    desk: &'a K,
    caller: W,
    number: u64,
    sends: u64,
    made: bool,
    inner: MemoryLink,
}

impl<'a, K: Desk<W>, W: Drop, R: Wait> Model for CallingLink<'a, K, W, R> {
    ghost use Rattle.std.specs.Prelude.{Some};
    ghost use Rattle.zq_tests_threads.specs.Callers.{Lined};

    ghost Value = { Lined };

    ghost view = { λ l. record { taken = Some l.inner.taken; faults = l.inner.faults } };

    ghost invariant = { λ l. K.ready l.caller };
}

impl<'a, K: Desk<W>, W: Drop, R: Wait> CallingLink<'a, K, W, R> {
    /// The caller makes its calls, if the send is the one of that number.
    fn call_if_due(&mut self)
        ensures { self.new ≡ self.old }
    {
        let number = self.sends;
        self.sends = self.sends.saturating_add(1);
        if number == self.number {
            self.made = self
                .desk
                .make(self.rt, &mut self.caller, &mut SureLink::new());
        }
    }
}

impl<'a, K: Desk<W>, W: Drop, R: Wait> Link for CallingLink<'a, K, W, R> {
    ghost taken = { λ l. l.taken };

    ghost faults = { λ l. l.faults };

    fn send(&mut self, handed: &Handed) -> Result<(), Failed> {
        self.call_if_due();
        self.inner.send(handed)
    }
}

/// Ends the process where the flag is not set in time: a call that waits for its own thread does so for ever.
fn watch(rt: &impl Abort, flag: &AtomicU64) {
    assert!(rt; is_set(flag), "the call is answered");
}

/// The caller makes its calls over the link, and a flag is set behind them. Whether all is made.
fn make_watched<K: Desk<W>, W, L: Link, R: Wait>(
    rt: &R,
    desk: &K,
    caller: &mut W,
    link: &mut L,
    flag: &AtomicU64,
) -> bool
    requires { K.ready caller.old }
{
    let made = desk.make(rt, caller, link);
    flag.store(1, Ordering::SeqCst);
    made
}

/// The caller makes its calls over the link, while another thread watches that they end in time. Whether all is made.
fn make_in_time<K: Desk<W> + Sync, W: Send, L: Link + Send, R: Threads + Wait + Abort + Sync>(
    rt: &R,
    desk: &K,
    caller: &mut W,
    link: &mut L,
) -> bool
    requires { K.ready caller.old }
{
    let flag = AtomicU64::new(0);
    let ((), made) = join(
        rt,
        || watch(rt, &flag),
        || -> bool
            requires { K.ready caller.now }
        { make_watched(rt, desk, caller, link, &flag) },
    );
    made
}

/// During the second send of the first, the second makes its calls in the same thread. What the link takes is printed, and what the second
/// is answered.
pub(crate) fn play_within<K: Desk<W> + Sync, W: Send + Drop, R: Threads + Wait + Abort + Sync>(
    rt: &R,
    alloc: Global,
    desk: &K,
    callers: (W, W),
) -> Result<Vec<u8>, Fail>
    requires { K.ready callers.0 × K.ready callers.1 }
{
    let (mut first, second) = callers;
    let mut link = CallingLink {
        rt,
        desk,
        caller: second,
        number: 1,
        sends: 0,
        made: false,
        inner: MemoryLink::new(alloc, Vec::new(alloc)),
    };
    if !make_in_time(rt, desk, &mut first, &mut link) || !link.made {
        return Err(Fail::from("all is made"));
    }
    let mut print = print_leaving(alloc, link.inner.taken())?;
    print.extend_from_slice(desk.printed(alloc, &link.caller)?.as_slice())?;
    Ok(print)
}

const TIMED_OUT: &str = "config 1 10000 north:client local\n\
    open local 10 client north -\n\
    open local 11 client north -\n\
    queryable 0 1 0:s:k c 0 0\n\
    ask 1 7 0:s:k all 5 0 0 hi 0\n\
    worker\n\
    poll 5\n\
    worker\n\
    poll 6\n";

#[test]
fn called_while_a_final_is_sent(rt: HostRuntime) -> Result<(), Fail> {
    let played = play_script(&rt, rt.alloc(), Scene::Within, TIMED_OUT)?;
    let print = "response 7 0:s:- 0 err Timeout 10\nfinal 7 0\n= done\n";
    assert_eq!(rt; played.print.as_slice(), print.as_bytes());
    assert!(rt;
        played
            .stored
            .as_slice()
            .ends_with(b"\npoll 5\nsent 0\npoll 6\n")
    );
    Ok(())
}
