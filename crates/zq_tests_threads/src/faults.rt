//! A link that fails: what the call is answered, what the link took, and that the final still comes where the stored calls are made again.
use crate::callers::Desk;
use crate::given::print_leaving;
use crate::stage::{Scene, play_script};
use std::alloc::Global;
use std::sync::Wait;
use std::test::Fail;
use zq_shared::MemoryLink;

/// The caller makes its calls over a link in memory, of which the send of that number fails. What they are answered and what the link takes
/// is printed.
pub(crate) fn play_failing<K: Desk<W>, W: Drop, R: Wait>(
    rt: &R,
    alloc: Global,
    desk: &K,
    mut caller: W,
    number: u64,
) -> Result<Vec<u8>, Fail>
    requires { K.ready caller }
{
    let mut link = MemoryLink::new(alloc, vec![in alloc; number]?);
    if !desk.make(rt, &mut caller, &mut link) {
        return Err(Fail::from("all is stored"));
    }
    let mut print = desk.printed(alloc, &caller)?;
    print.extend_from_slice(b"--\n")?;
    print.extend_from_slice(print_leaving(alloc, link.taken())?.as_slice())?;
    Ok(print)
}

/// The target of a request closes.
const CLOSED: &str = "config 1 10000 north:client local\n\
    open local 10 client north -\n\
    open local 11 client north -\n\
    queryable 0 1 0:s:k c 0 0\n\
    worker\n\
    ask 1 7 0:s:k all - 0 0 hi 0\n\
    close 0\n\
    worker\n";

/// A request to two targets, which end it.
const BOTH: &str = "config 1 10000 north:client local\n\
    open local 10 client north -\n\
    open local 11 client north -\n\
    open local 12 client north -\n\
    queryable 0 1 0:s:k p 0 0\n\
    queryable 1 1 0:s:k p 0 0\n\
    worker\n\
    ask 2 7 0:s:k all - 0 0 - 0\n\
    final 0 1\n\
    final 1 1\n\
    worker\n";

#[test]
fn each_send_fails(rt: HostRuntime) -> Result<(), Fail> {
    for (script, number, print, end) in [
        (
            CLOSED,
            0,
            "= asked 0\nlink fault 0\n= done\n> 1 0 - final 7 0\n--\nfinal 7 0\n",
            "\n> 1 0 - final 7 0\n",
        ),
        (
            CLOSED,
            1,
            "= asked 0\n> 0 0 - request 1 0:s:k all - 0 0 hi\n= done\nlink fault 0\n--\nrequest 1 0:s:k all - 0 0 hi\n",
            "\n> 1 0 - final 7 0\n",
        ),
        (
            BOTH,
            1,
            "= asked 0\nlink fault 1\n= done\n= done\n> 2 0 - final 7 0\n--\nrequest 1 0:s:k all - 0 0 -\nfinal 7 0\n",
            "\n> 2 0 - final 7 0\n",
        ),
    ] {
        let played = play_script(&rt, rt.alloc(), Scene::Failing(number), script)?;
        assert_eq!(rt; played.print.as_slice(), print.as_bytes());
        assert!(rt; played.replay.as_slice().ends_with(end.as_bytes()));
    }
    Ok(())
}
