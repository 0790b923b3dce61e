use std::alloc::Global;
use zq_key::memory::OutOfMemory;
use zq_key::text::{Bytes, Text};
use zq_session::{MemorySink, MemorySource, Status, session_run};

/// How a run ends, and what it wrote in pieces of 8 bytes, where the read and the write of the number `fails` fail.
fn run_on(
    alloc: Global,
    words: &str,
    script: &[u8],
    fails: u64,
) -> Result<(Status, MemorySink), OutOfMemory> {
    let mut texts = Vec::new(alloc);
    for word in words.split(' ') {
        texts.push(Text::new(alloc, word)?)?;
    }
    let bytes = Bytes::new(alloc, script)?;
    let mut source = MemorySource::new(bytes, vec![in alloc; fails]?, 1 << 20);
    let mut sink = MemorySink::new(alloc, 4096, vec![in alloc; fails]?, 8)?;
    let status = session_run(alloc, texts.as_slice(), &mut source, &mut sink);
    Ok((status, sink))
}

/// Whether a run ends so and wrote this.
fn ends_as(
    alloc: Global,
    words: &str,
    script: &str,
    fails: u64,
    wanted: (Status, &str),
) -> Result<bool, OutOfMemory> {
    let (ended, sink) = run_on(alloc, words, script.as_bytes(), fails)?;
    Ok(ended == wanted.0 && sink.taken() == wanted.1.as_bytes())
}

/// One face answers for another, above both an upstream: a mark of the upstream, requests that it gets or not, and one reply.
const MARKED: &str = "config 1 10000 north:client local\n\
    open north 99 router south -\n\
    open local 10 client north -\n\
    open local 11 client north -\n\
    open local 12 client north -\n\
    queryable 1 1 0:s:demo/** c 0 0\n\
    queryable 2 1 0:s:demo/a p 0 0\n\
    ask 3 1 0:s:demo/a best - 0 0 - 0\n\
    finalize 0 key demo/a 1\n\
    ask 3 2 0:s:demo/a best - 0 0 - 0\n\
    ask 3 3 0:s:demo/a all - 0 0 - 0\n\
    ask 3 4 0:s:demo/a complete - 0 0 - 0\n\
    ask 3 5 0:s:demo/* complete - 0 0 - 0\n\
    reply 1 2 0:s:demo/a ok v1\n\
    final 1 2\n\
    sent 0\n";

/// What each face receives of it.
const RECEIVED: &str = "face 0\n\
    queryable 1 0:s:demo/** c 0 0 -\n\
    queryable 2 0:s:demo/a p 0 0 -\n\
    request 1 0:s:demo/a best - 0 0 -\n\
    request 2 0:s:demo/* complete - 0 0 -\n\
    face 1\n\
    request 1 0:s:demo/a best - 0 0 -\n\
    request 2 0:s:demo/a best - 0 0 -\n\
    request 3 0:s:demo/a all - 0 0 -\n\
    request 4 0:s:demo/a complete - 0 0 -\n\
    request 5 0:s:demo/* complete - 0 0 -\n\
    face 2\n\
    request 1 0:s:demo/a all - 0 0 -\n\
    face 3\n\
    response 2 0:s:demo/a 0 ok v1 -\n\
    final 2 0\n";

#[test]
fn what_faces_receive(rt: HostRuntime) {
    for words in ["inside n/m", "inside demo"] {
        let ended = ends_as(rt.alloc(), words, MARKED, 9999, (Status::Done, RECEIVED));
        assert_eq!(rt; ended, Ok(true), "{words}");
    }
}

#[test]
fn how_runs_end(rt: HostRuntime) {
    for (words, fails, status, print) in [
        ("replay", 9999, Status::Words, ""),
        ("inside", 9999, Status::Words, ""),
        ("inside n/*", 9999, Status::Words, ""),
        ("inside @n", 9999, Status::Words, ""),
        ("inside n m", 9999, Status::Words, ""),
        ("inside n", 1, Status::ReadFault, ""),
    ] {
        let ended = ends_as(rt.alloc(), words, MARKED, fails, (status, print));
        assert_eq!(rt; ended, Ok(true), "{words}");
    }
    let ended = ends_as(
        rt.alloc(),
        "inside n",
        "",
        1,
        (Status::WriteFault, "bad line"),
    );
    assert_eq!(rt; ended, Ok(true));
}

/// Calls that cannot be moved, a line each; but for the last three, which can.
const CALLS: &str = "queryable 0 1 0:s:- p 0 0
unqueryable 0 1 0:r:- 0
key 0 1 0:s:-
ask 0 1 0:s:- all - 0 0 - 0
ask 0 1 1:r:a all - 0 0 - 0
interest 0 1 2:r:- k
reply 0 1 0:s:- ok v
reply 0 1 1:r:- err v
finalize 0 key - 1
open local 12 client north n
open local 12 client north - in:-
open local 12 client north - out:a out:
reply 0 1 0:s:- err v
ask 0 1 0:r:a all - 0 0 - 0
unqueryable 0 1 - 0";

/// How the run of a script ends whose line 4 is this call, and line 5 is none.
fn end_of(alloc: Global, call: &str) -> Result<Vec<u8>, OutOfMemory> {
    let mut script = Vec::new(alloc);
    for part in [
        "config 1 10000 north:client local\nopen local 10 client north -\nopen local 11 client north -\n",
        call,
        "\nclose\n",
    ] {
        script.extend_from_slice(part.as_bytes())?;
    }
    let (_, sink) = run_on(alloc, "inside n", script.as_slice(), 9999)?;
    Ok(Vec::from_slice(alloc, sink.taken())?)
}

#[test]
fn calls_that_cannot_be_moved(rt: HostRuntime) {
    for (at, call) in CALLS.lines().enumerate() {
        let bad = if at < 12 {
            "bad line 4\n"
        } else {
            "bad line 5\n"
        };
        match end_of(rt.alloc(), call) {
            Ok(print) => assert!(rt; print.as_slice() == bad.as_bytes(), "{call}"),
            Err(_) => assert!(rt; false),
        }
    }
}
