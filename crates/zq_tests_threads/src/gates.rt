//! Messages are sent outside the lock, and a reply holds its request until it is sent: what another caller is answered while a send is held.
use crate::callers::Desk;
use crate::given::print_leaving;
use crate::stage::{Scene, play_script};
use std::alloc::Global;
use std::process::Abort;
use std::sync::Wait;
use std::sync::atomic::{AtomicU64, Ordering};
use std::test::Fail;
use std::thread::{Threads, join};
use zq_shared::{GateLink, Link, MemoryLink, is_set};

/// The caller makes its calls once a send has begun, which may go on then. It says whether all is made in time.
fn make_meanwhile<K: Desk<W>, W, L: Link, R: Wait>(
    rt: &R,
    desk: &K,
    caller: &mut W,
    link: &mut L,
    flags: (&AtomicU64, &AtomicU64),
) -> bool
    requires { K.ready caller.old }
{
    if !is_set(flags.0) {
        return false;
    }
    let made = desk.make(rt, caller, link);
    flags.1.store(1, Ordering::SeqCst);
    made
}

/// Two callers at once, each over its link: the second makes its calls once the first flag is set, and sets the second flag behind them.
fn both_make<K: Desk<W> + Sync, W: Send, L: Link + Send, M: Link + Send, R: Threads + Wait + Sync>(
    rt: &R,
    desk: &K,
    callers: (&mut W, &mut W),
    links: (&mut L, &mut M),
    flags: (&AtomicU64, &AtomicU64),
) -> bool
    requires { K.ready callers.0.now × K.ready callers.1.now }
{
    let (first, second) = callers;
    let (one, two) = links;
    let (also, made) = join(
        rt,
        || -> bool
            requires { K.ready second.now }
        { make_meanwhile(rt, desk, second, two, flags) },
        || -> bool
            requires { K.ready first.now }
        { desk.make(rt, first, one) },
    );
    made && also
}

/// While the send of that number of the first is held, the second makes its calls. What the links take is printed.
pub(crate) fn play_held<K: Desk<W> + Sync, W: Send + Drop, R: Threads + Wait + Sync>(
    rt: &R,
    alloc: Global,
    desk: &K,
    callers: (W, W),
    number: u64,
) -> Result<Vec<u8>, Fail>
    requires { K.ready callers.0 × K.ready callers.1 }
{
    let (mut first, mut second) = callers;
    let flags = (AtomicU64::new(0), AtomicU64::new(0));
    let one = MemoryLink::new(alloc, Vec::new(alloc));
    let mut one = GateLink::new(one, number, &flags.0, &flags.1);
    let mut two = MemoryLink::new(alloc, Vec::new(alloc));
    let made = both_make(
        rt,
        desk,
        (&mut first, &mut second),
        (&mut one, &mut two),
        (&flags.0, &flags.1),
    );
    if !made {
        return Err(Fail::from("all is made in time"));
    }
    let mut print = print_leaving(alloc, one.inner().taken())?;
    print.extend_from_slice(b"--\n")?;
    print.extend_from_slice(print_leaving(alloc, two.taken())?.as_slice())?;
    Ok(print)
}

/// A request is open, to which the first replies.
const REPLIED: &str = "config 1 10000 north:client local\n\
    open local 10 client north -\n\
    open local 11 client north -\n\
    queryable 0 1 0:s:k c 0 0\n\
    ask 1 7 0:s:k all - 0 0 hi 0\n\
    worker\n\
    reply 0 1 0:s:k ok yo\n\
    worker\n";

/// A request is open, whose time the first lets come: a reply and a final are sent.
const TIMED_OUT: &str = "config 1 10000 north:client local\n\
    open local 10 client north -\n\
    open local 11 client north -\n\
    queryable 0 1 0:s:k c 0 0\n\
    ask 1 7 0:s:k all 5 0 0 hi 0\n\
    worker\n\
    poll 5\n\
    worker\n";

/// What two callers leave, where the second makes the call that the line has while a send of the first is held.
fn is_left(
    rt: &(impl Threads + Wait + Abort + Sync),
    alloc: Global,
    number: u64,
    script: &str,
    line: &str,
    wanted: (&str, &str),
) -> Result<bool, Fail> {
    let script = format!(in alloc; "{script}{line}\n")?;
    let played = play_script(rt, alloc, Scene::Held(number), script.as_str())?;
    Ok(
        played.print.as_slice() == wanted.0.as_bytes()
            && played.stored.as_slice().ends_with(wanted.1.as_bytes()),
    )
}

/// A call that sends nothing is answered, and one that asks, whose message is sent. A final comes behind the reply, from who sent it.
/// And once a final is sent the lock is free.
#[test]
fn answered_meanwhile(rt: HostRuntime) -> Result<(), Fail> {
    for (number, script, line, print, stored) in [
        (
            0,
            REPLIED,
            "poll 0",
            "response 7 0:s:k 0 ok yo -\n--\n",
            "\nreply 0 1 0:s:k ok yo\npoll 0\n",
        ),
        (
            0,
            REPLIED,
            "ask 1 8 0:s:k all - 0 0 hi 0",
            "response 7 0:s:k 0 ok yo -\n--\nrequest 2 0:s:k all - 0 0 hi\n",
            "\nreply 0 1 0:s:k ok yo\nask 1 8 0:s:k all - 0 0 hi 0\n",
        ),
        (
            0,
            REPLIED,
            "final 0 1",
            "response 7 0:s:k 0 ok yo -\nfinal 7 0\n--\n",
            "\nreply 0 1 0:s:k ok yo\nfinal 0 1\nsent 0\n",
        ),
        (
            1,
            TIMED_OUT,
            "poll 6",
            "response 7 0:s:- 0 err Timeout 10\nfinal 7 0\n--\n",
            "\npoll 5\nsent 0\npoll 6\n",
        ),
    ] {
        let left = is_left(&rt, rt.alloc(), number, script, line, (print, stored))?;
        assert!(rt; left, "{line}");
    }
    Ok(())
}
