use std::alloc::Global;
use zq_io::stored::{MemorySink, MemorySource, SureSink, SureSource};
use zq_io::streams::{ReadSource, Source, WriteSink};
use zq_io::transfer::{ReadRefusal, read_all, write_all};
use zq_message::memory::OutOfMemory;
use zq_message::text::Bytes;

const PIECE: &[u8] = b"five5";

/// Whether a source gives the piece and ends.
fn gives_all<S: Source>(alloc: Global, source: &mut S) -> Result<bool, ReadRefusal> {
    Ok(read_all(alloc, source)?.as_slice() == PIECE)
}

/// The piece in memory, in pieces of two, of which one call fails.
fn source(alloc: Global, fails: u64) -> Result<MemorySource, OutOfMemory> {
    Ok(MemorySource::new(Bytes::new(alloc, PIECE)?, vec![in alloc; fails]?, 2))
}

fn is_read(alloc: Global, fails: u64) -> Result<Result<bool, ReadRefusal>, OutOfMemory> {
    Ok(gives_all(alloc, &mut source(alloc, fails)?))
}

#[test]
fn stored_bytes_are_read(rt: HostRuntime) {
    assert!(rt; is_read(rt.alloc(), 9) == Ok(Ok(true)));
    assert!(rt; is_read(rt.alloc(), 1) == Ok(Err(ReadRefusal::ReadFault)));
}

fn is_surely_read(alloc: Global) -> Result<Result<bool, ReadRefusal>, OutOfMemory> {
    Ok(gives_all(alloc, &mut SureSource::new(Bytes::new(alloc, PIECE)?)))
}

#[test]
fn other_sources_are_read(rt: HostRuntime) {
    assert!(rt; is_surely_read(rt.alloc()) == Ok(Ok(true)));
    assert!(rt; gives_all(rt.alloc(), &mut ReadSource::new(PIECE)) == Ok(true));
}

/// Whether a sink of the room, of which one call fails, takes the piece whole, and whether it takes this front
/// of it.
fn takes(
    alloc: Global,
    room: usize,
    fails: u64,
    front: usize,
) -> Result<(bool, bool), OutOfMemory> {
    let mut sink = MemorySink::new(alloc, room, vec![in alloc; fails]?, 2)?;
    let whole = write_all(&mut sink, PIECE).is_ok();
    Ok((whole, PIECE.get(..front) == Some(sink.taken())))
}

#[test]
fn stores_take_all_or_fail(rt: HostRuntime) {
    for (room, fails, front, whole) in [(5, 9, 5, true), (4, 9, 4, false), (5, 1, 2, false)] {
        assert!(rt; takes(rt.alloc(), room, fails, front) == Ok((whole, true)));
    }
}

#[test]
fn other_sinks_take_all(rt: HostRuntime) {
    assert_eq!(rt; write_all(&mut SureSink::new(), PIECE), Ok(()));
    let mut writer = WriteSink::new(Vec::new(rt.alloc()));
    assert_eq!(rt; write_all(&mut writer, PIECE), Ok(()));
}
