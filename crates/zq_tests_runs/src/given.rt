//! What tests of runs are given: runs, shared runs and shown ones in memory, whose streams and links may fail.
use std::alloc::Global;
use std::sync::Wait;
use std::thread::Threads;
use zq_key::memory::OutOfMemory;
use zq_key::text::{Bytes, Text};
use zq_program::program;
use zq_script::live::live;
use zq_script::running::{Status, run};
use zq_script::{MemorySink, MemorySource, check};
use zq_shared::{Link, MemoryLink};
use zq_show::shown::show;
use zq_show::words::Form;

/// Which read and which write fails.
#[derive(Clone, Copy)]
pub(crate) struct Fails {
    pub(crate) read: u64,
    pub(crate) write: u64,
}

/// None fails.
pub(crate) const NONE: Fails = Fails {
    read: u64::MAX,
    write: u64::MAX,
};

fn texts(alloc: Global, words: &[&str]) -> Result<Vec<Text>, OutOfMemory> {
    let mut texts = Vec::new(alloc);
    for word in words {
        texts.push(Text::new(alloc, word)?)?;
    }
    Ok(texts)
}

/// How a run ends that reads pieces of 16 bytes, and what it wrote in pieces of 8, where one read and one write fail.
pub(crate) fn run_on(
    alloc: Global,
    words: &[&str],
    script: &[u8],
    fails: Fails,
) -> Result<(Status, MemorySink), OutOfMemory> {
    let words = texts(alloc, words)?;
    let bytes = Bytes::new(alloc, script)?;
    let mut source = MemorySource::new(bytes, vec![in alloc; fails.read]?, 16);
    let mut sink = MemorySink::new(alloc, 4096, vec![in alloc; fails.write]?, 8)?;
    let status = run(alloc, words.as_slice(), &mut source, &mut sink);
    Ok((status, sink))
}

/// Whether a run, where one read and one write fail, ends so and wrote this.
pub(crate) fn ends_as(
    alloc: Global,
    words: &[&str],
    script: &[u8],
    fails: Fails,
    wanted: (Status, &str),
) -> Result<bool, OutOfMemory> {
    let (ended, sink) = run_on(alloc, words, script, fails)?;
    Ok(ended == wanted.0 && sink.taken() == wanted.1.as_bytes())
}

/// A source of these bytes, and a sink that takes pieces of 8 bytes, which fail so.
fn streams(
    alloc: Global,
    given: &str,
    fails: Fails,
) -> Result<(MemorySource, MemorySink), OutOfMemory> {
    let bytes = Bytes::new(alloc, given.as_bytes())?;
    let source = MemorySource::new(bytes, vec![in alloc; fails.read]?, 1 << 20);
    let sink = MemorySink::new(alloc, 4096, vec![in alloc; fails.write]?, 8)?;
    Ok((source, sink))
}

/// Whether answering these lines at once ends so and wrote this. Each read is of one byte.
pub(crate) fn lives_as(
    alloc: Global,
    lines: &str,
    fails: Fails,
    wanted: (Status, &str),
) -> Result<bool, OutOfMemory> {
    let (mut source, mut sink) = streams(alloc, lines, fails)?;
    let ended = live(alloc, &mut source, &mut sink);
    Ok(ended == wanted.0 && sink.taken() == wanted.1.as_bytes())
}

/// Whether looking at a script ends so and wrote this.
pub(crate) fn checks_as(
    alloc: Global,
    workers: u8,
    script: &str,
    fails: Fails,
    wanted: (Status, &str),
) -> Result<bool, OutOfMemory> {
    let (mut source, mut sink) = streams(alloc, script, fails)?;
    let ended = check(alloc, workers, &mut source, &mut sink);
    Ok(ended == wanted.0 && sink.taken() == wanted.1.as_bytes())
}

/// How the showing of a script in a form ends, and what it wrote.
pub(crate) fn show_on(
    alloc: Global,
    script: &str,
    form: Form,
) -> Result<(Status, MemorySink), OutOfMemory> {
    let bytes = Bytes::new(alloc, script.as_bytes())?;
    let mut source = MemorySource::new(bytes, Vec::new(alloc), 1 << 20);
    let mut sink = MemorySink::new(alloc, 1 << 16, Vec::new(alloc), 1 << 16)?;
    let status = show(alloc, form, &mut source, &mut sink);
    Ok((status, sink))
}

/// Two links, of each of which that send fails.
pub(crate) fn links(alloc: Global, fails: u64) -> Result<Vec<MemoryLink>, OutOfMemory> {
    let one = MemoryLink::new(alloc, vec![in alloc; fails]?);
    let two = MemoryLink::new(alloc, vec![in alloc; fails]?);
    Ok(vec![in alloc; one, two]?)
}

/// Whether a run over these links ends so and wrote this, in pieces of 8 bytes.
pub(crate) fn ends_over<L: Link + Send, R: Threads + Wait + Sync>(
    rt: &R,
    alloc: Global,
    words: &[&str],
    script: &str,
    links: &mut [L],
    fails: Fails,
    wanted: (Status, &str),
) -> Result<bool, OutOfMemory> {
    let words = texts(alloc, words)?;
    let (mut source, mut sink) = streams(alloc, script, fails)?;
    let ended = program(rt, alloc, words.as_slice(), &mut source, &mut sink, links);
    Ok(ended == wanted.0 && sink.taken() == wanted.1.as_bytes())
}

/// How a shared run ends over two links in memory.
pub(crate) fn ends_as_shared<R: Threads + Wait + Sync>(
    rt: &R,
    alloc: Global,
    words: &[&str],
    script: &str,
    fails: Fails,
    wanted: (Status, &str),
) -> Result<bool, OutOfMemory> {
    let mut links = links(alloc, u64::MAX)?;
    ends_over(
        rt,
        alloc,
        words,
        script,
        links.as_mut_slice(),
        fails,
        wanted,
    )
}
