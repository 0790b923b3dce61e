use crate::given::{Fails, NONE, ends_as_shared, ends_over, links};
use std::alloc::Global;
use std::sync::Wait;
use std::sync::atomic::AtomicU64;
use std::thread::Threads;
use zq_given::ASKED;
use zq_key::memory::OutOfMemory;
use zq_script::running::Status;
use zq_shared::{GateLink, MemoryLink};

const PRINT: &str = "config 1 10000 north:client local\n\
    open local 10 client north -\n\
    open local 11 client north -\n\
    queryable 0 1 0:s:k c 0 0\n\
    ask 1 7 0:s:k all - 0 0 hi 0\n\
    reply 0 1 0:s:k ok yo\n\
    final 0 1\n\
    sent 0\n\
    --\n\
    = opened 0\n\
    = opened 1\n\
    = done\n\
    = asked 0\n\
    > 0 0 - request 1 0:s:k all - 0 0 hi\n\
    = replied 0\n\
    > 1 0 0 response 7 0:s:k 0 ok yo -\n\
    = done\n\
    = done\n\
    > 1 0 - final 7 0\n";

/// Whether a shared run ends so, where that send of each link fails, and the first link took so many messages.
fn takes<R: Threads + Wait + Sync>(
    rt: &R,
    alloc: Global,
    send: u64,
    status: Status,
    count: usize,
) -> Result<bool, OutOfMemory> {
    let mut links = links(alloc, send)?;
    let words = ["share", "2", "8"];
    let wanted = (status, PRINT);
    let ended = ends_over(rt, alloc, &words, ASKED, links.as_mut_slice(), NONE, wanted)?;
    let taken = match links.first() {
        Some(link) => link.taken().len(),
        None => 0,
    };
    Ok(ended && taken == count)
}

/// The request, the reply and the final are sent, but for the send that fails.
#[test]
fn asked_and_answered(rt: HostRuntime) {
    for (send, status, count) in [(u64::MAX, Status::Done, 3), (0, Status::LinkFault, 2)] {
        let ended = takes(&rt, rt.alloc(), send, status, count);
        assert_eq!(rt; ended, Ok(true));
    }
}

const ASKERS: &str = "config 1 10000 north:client local\n\
    open local 10 client north -\n\
    open local 11 client north -\n\
    queryable 0 1 0:s:k c 0 0\n\
    worker\n\
    ask 1 7 0:s:k all - 0 0 hi 0\n\
    worker\n\
    ask 1 7 0:s:k all - 0 0 hi 0\n";

const BOTH: &str = "config 1 10000 north:client local\n\
    open local 10 client north -\n\
    open local 11 client north -\n\
    queryable 0 1 0:s:k c 0 0\n\
    ask 1 7 0:s:k all - 0 0 hi 0\n\
    ask 1 7 0:s:k all - 0 0 hi 0\n\
    --\n\
    = opened 0\n\
    = opened 1\n\
    = done\n\
    = asked 0\n\
    > 0 0 - request 1 0:s:k all - 0 0 hi\n\
    = asked 1\n\
    > 0 1 - request 2 0:s:k all - 0 0 hi\n";

/// Whether two workers, each of whose sends is held until the other's has begun and fails where that takes too long, make their calls,
/// and each sends over its own link.
fn both_send<R: Threads + Wait + Sync>(rt: &R, alloc: Global) -> Result<bool, OutOfMemory> {
    let (one, two) = (AtomicU64::new(0), AtomicU64::new(0));
    let mut links = [
        GateLink::new(MemoryLink::new(alloc, Vec::new(alloc)), 0, &one, &two),
        GateLink::new(MemoryLink::new(alloc, Vec::new(alloc)), 0, &two, &one),
    ];
    let wanted = (Status::Done, BOTH);
    let ended = ends_over(
        rt,
        alloc,
        &["share", "2", "8"],
        ASKERS,
        &mut links,
        NONE,
        wanted,
    )?;
    let mut each = ended;
    for link in &links {
        each = each && link.inner().taken().len() == 1;
    }
    Ok(each)
}

#[test]
fn held_by_each_other(rt: HostRuntime) {
    let sent = both_send(&rt, rt.alloc());
    assert_eq!(rt; sent, Ok(true));
}

#[test]
fn faults_end(rt: HostRuntime) {
    for (read, write, status, print) in [
        (0, u64::MAX, Status::ReadFault, ""),
        (u64::MAX, 1, Status::WriteFault, "config 1"),
        (u64::MAX, 0, Status::WriteFault, ""),
    ] {
        let fails = Fails { read, write };
        let ended = ends_as_shared(
            &rt,
            rt.alloc(),
            &["share", "1", "8"],
            ASKED,
            fails,
            (status, print),
        );
        assert_eq!(rt; ended, Ok(true));
    }
}

#[test]
fn bad_lines_end(rt: HostRuntime) {
    for (script, print) in [
        ("", "bad line 1\n"),
        ("config 1 10000 north:client\nsent 0\n", "bad line 2\n"),
        (
            "config 1 10000 north:client\npoll 0\nworker\nworker\n",
            "bad line 4\n",
        ),
    ] {
        let wanted = (Status::Script, print);
        let ended = ends_as_shared(&rt, rt.alloc(), &["share", "1", "8"], script, NONE, wanted);
        assert_eq!(rt; ended, Ok(true), "{script}");
    }
}

#[test]
fn other_words_are_refused(rt: HostRuntime) {
    for words in [
        ["share"].as_slice(),
        &["share", "1"],
        &["share", "0", "8"],
        &["share", "3", "8"],
        &["share", "17", "8"],
        &["share", "1", "0"],
        &["share", "1", "1025"],
        &["share", "01", "8"],
        &["share", "1", "8", "8"],
        &["shared", "1", "8"],
    ] {
        let wanted = (Status::Words, "");
        let ended = ends_as_shared(&rt, rt.alloc(), words, ASKED, NONE, wanted);
        assert_eq!(rt; ended, Ok(true));
    }
}

#[test]
fn slots_bound_the_requests(rt: HostRuntime) {
    let script = "config 1 10000 north:client local\n\
        open local 10 client north -\n\
        queryable 0 1 0:s:k c 0 0\n\
        open local 11 client north -\n\
        ask 1 7 0:s:k all - 0 0 - 0\n\
        ask 1 8 0:s:k all - 0 0 - 0\n";
    let print = "config 1 10000 north:client local\n\
        open local 10 client north -\n\
        queryable 0 1 0:s:k c 0 0\n\
        open local 11 client north -\n\
        ask 1 7 0:s:k all - 0 0 - 0\n\
        --\n\
        = opened 0\n\
        = done\n\
        = opened 1\n\
        = asked 0\n\
        > 0 0 - request 1 0:s:k all - 0 0 -\n";
    let wanted = (Status::Done, print);
    let ended = ends_as_shared(&rt, rt.alloc(), &["share", "1", "1"], script, NONE, wanted);
    assert_eq!(rt; ended, Ok(true));
}

#[test]
fn other_words_are_for_a_run(rt: HostRuntime) {
    let counts = "calls 24 handed 9 requests 3 responses 3 finals 3\n";
    let wanted = (Status::Done, counts);
    let ended = ends_as_shared(&rt, rt.alloc(), &["load", "3"], "", NONE, wanted);
    assert_eq!(rt; ended, Ok(true));
}
