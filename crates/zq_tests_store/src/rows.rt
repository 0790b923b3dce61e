use std::alloc::Global;
use zq_key::memory::OutOfMemory;
use zq_key::text::{Bytes, Text};
use zq_store::{MemorySink, MemorySource, Status, store_run};

/// None fails.
const NONE: (u64, u64) = (9999, 9999);

/// How a run ends, and what it wrote in pieces of 8 bytes, where the read and the write of these numbers fail.
fn run_on(
    alloc: Global,
    words: &str,
    script: &[u8],
    fails: (u64, u64),
) -> Result<(Status, MemorySink), OutOfMemory> {
    let mut texts = Vec::new(alloc);
    for word in words.split(' ') {
        texts.push(Text::new(alloc, word)?)?;
    }
    let bytes = Bytes::new(alloc, script)?;
    let mut source = MemorySource::new(bytes, vec![in alloc; fails.0]?, 1 << 20);
    let mut sink = MemorySink::new(alloc, 4096, vec![in alloc; fails.1]?, 8)?;
    let status = store_run(alloc, texts.as_slice(), &mut source, &mut sink);
    Ok((status, sink))
}

/// Whether a run ends so and wrote this.
fn ends_as(
    alloc: Global,
    words: &str,
    script: &str,
    fails: (u64, u64),
    wanted: (Status, &str),
) -> Result<bool, OutOfMemory> {
    let (ended, sink) = run_on(alloc, words, script.as_bytes(), fails)?;
    Ok(ended == wanted.0 && sink.taken() == wanted.1.as_bytes())
}

/// Two storages, of which one is complete: gets of both and of one, and what is refused.
const STORED: &str = "storage demo/** c\n\
    storage demo/a p\n\
    put 0 demo/a v1\n\
    put 1 demo/a v2\n\
    put 0 demo/b/c v3\n\
    get demo/* all\n\
    get demo/a best\n\
    put 1 demo/b x\n\
    delete 0 demo/a\n\
    get demo/** all\n";

/// What is printed of it.
const PRINTED: &str = "storage 0\n\
    storage 1\n\
    done\n\
    done\n\
    done\n\
    demo/a v1\n\
    demo/a v2\n\
    end\n\
    demo/a v1\n\
    end\n\
    refused Outside\n\
    old v1\n\
    demo/b/c v3\n\
    demo/a v2\n\
    end\n";

#[test]
fn what_lines_print(rt: HostRuntime) {
    let ended = ends_as(rt.alloc(), "store", STORED, NONE, (Status::Done, PRINTED));
    assert_eq!(rt; ended, Ok(true));
}

#[test]
fn how_runs_end(rt: HostRuntime) {
    for (words, script, fails, status, print) in [
        ("replay", STORED, NONE, Status::Words, ""),
        ("store all", STORED, NONE, Status::Words, ""),
        ("store", "", NONE, Status::Done, ""),
        (
            "store",
            "get a//b all",
            NONE,
            Status::Script,
            "bad line 1\n",
        ),
        ("store", STORED, (0, 9999), Status::ReadFault, ""),
        ("store", STORED, (1, 9999), Status::ReadFault, ""),
    ] {
        let ended = ends_as(rt.alloc(), words, script, fails, (status, print));
        assert_eq!(rt; ended, Ok(true), "{words}");
    }
}

#[test]
fn each_write_fails(rt: HostRuntime) {
    for at in 0..14 {
        let fails = (9999, at as u64);
        let taken = PRINTED.get(..8 * at).expect(&rt, "a part of the print");
        let ended = ends_as(
            rt.alloc(),
            "store",
            STORED,
            fails,
            (Status::WriteFault, taken),
        );
        assert_eq!(rt; ended, Ok(true), "{at}");
    }
}
