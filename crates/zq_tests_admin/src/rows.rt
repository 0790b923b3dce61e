use std::alloc::Global;
use zq_admin::{Admin, MemorySink, MemorySource, Status, admin_run};
use zq_key::memory::OutOfMemory;
use zq_key::text::{Bytes, Text};
use zq_script::{print_steps, read_script};

/// Three faces of Local, of which two declare keys and one asks for one.
const SCRIPT: &str = "config 1 10000 north:client local\n\
    open local 10 client north -\n\
    open local 11 client north -\n\
    open local 12 client north -\n\
    queryable 0 1 0:s:a/b c 2 0\n\
    interest 1 5 0:s:a/* n\n\
    queryable 2 1 0:s:a/c p 0 0\n";

/// What is listed of it.
const ENTRIES: &str = "@/1/client/querier/a/* routers - peers - clients 11\n\
    @/1/client/queryable/a/b routers - peers - clients 10,1\n\
    @/1/client/queryable/a/c routers - peers - clients 12,1\n";

/// How a run ends, and what it wrote.
fn run_on(alloc: Global, words: &str, script: &str) -> Result<(Status, MemorySink), OutOfMemory> {
    let mut texts = Vec::new(alloc);
    for word in words.split(' ') {
        texts.push(Text::new(alloc, word)?)?;
    }
    let bytes = Bytes::new(alloc, script.as_bytes())?;
    let mut source = MemorySource::new(bytes, Vec::new(alloc), 1 << 20);
    let mut sink = MemorySink::new(alloc, 4096, Vec::new(alloc), 8)?;
    let status = admin_run(alloc, texts.as_slice(), &mut source, &mut sink);
    Ok((status, sink))
}

/// Whether a run ends so and wrote this.
fn ends_as(
    alloc: Global,
    words: &str,
    script: &str,
    status: Status,
    wanted: &str,
) -> Result<bool, OutOfMemory> {
    let (ended, sink) = run_on(alloc, words, script)?;
    Ok(ended == status && sink.taken() == wanted.as_bytes())
}

#[test]
fn how_runs_end(rt: HostRuntime) {
    for (words, script, status, print) in [
        ("list @/1/client/**", SCRIPT, Status::Done, ENTRIES),
        ("list **", SCRIPT, Status::Done, ""),
        ("list @/2/**", SCRIPT, Status::Done, ""),
        ("list a//b", SCRIPT, Status::Words, ""),
        ("list", SCRIPT, Status::Words, ""),
        ("replay @/**", SCRIPT, Status::Words, ""),
        ("list @/** a", SCRIPT, Status::Words, ""),
        ("list @/**", "config", Status::Script, "bad line 1\n"),
    ] {
        let ended = ends_as(rt.alloc(), words, script, status, print);
        assert_eq!(rt; ended, Ok(true), "{words}");
    }
}

/// The face 0 is the view's own; face 1 declares a key, and face 2 asks for it and then the view.
const ASKED: &str = "config 1 10000 north:client local\n\
    open local 10 client north -\n\
    open local 11 client north -\n\
    queryable 1 1 0:s:a/b c 2 0\n\
    interest 2 5 0:s:a/* n\n\
    ask 2 7 0:s:@/1/client/** all - 0 3 - 0\n\
    close 0\n\
    ask 2 8 0:s:@/1/client/** all - 0 3 - 0\n";

/// The steps of its calls.
const ANSWERED: &str = "= opened 1\n\
    = opened 2\n\
    = done\n\
    = done\n\
    > 2 - - queryable 1 0:s:a/b c 2 0 5\n\
    > 2 - - declfinal 5\n\
    = asked 0\n\
    > 0 0 - request 1 0:s:@/1/client/** all - 0 3 -\n\
    = replied 0\n\
    > 2 0 0 response 7 0:s:@/1/client/querier/a/* 3 ok routers%20-%20peers%20-%20clients%2011 -\n\
    = done\n\
    = replied 1\n\
    > 2 0 1 response 7 0:s:@/1/client/queryable/a/b 3 ok routers%20-%20peers%20-%20clients%2010,1 -\n\
    = done\n\
    = done\n\
    > 2 0 - final 7 3\n\
    = done\n\
    = asked 1\n\
    > 2 1 - final 8 3\n";

/// What the calls of a script print on a gateway with its own face.
fn answered(alloc: Global, script: &str) -> Result<Vec<u8>, OutOfMemory> {
    let mut out = Vec::new(alloc);
    let Ok(script) = read_script(alloc, script.as_bytes(), 0) else {
        return Err(OutOfMemory);
    };
    let Ok(mut admin) = Admin::new(alloc, &script.config) else {
        return Err(OutOfMemory);
    };
    for part in script.parts.as_slice() {
        for call in part.as_slice() {
            let Ok(steps) = admin.call(call) else {
                return Err(OutOfMemory);
            };
            let print = print_steps(alloc, steps.as_slice())?;
            out.extend_from_slice(print.as_slice())?;
        }
    }
    Ok(out)
}

#[test]
fn what_is_answered(rt: HostRuntime) {
    match answered(rt.alloc(), ASKED) {
        Ok(out) => assert!(rt; out.as_slice() == ANSWERED.as_bytes()),
        Err(_) => assert!(rt; false),
    }
}
