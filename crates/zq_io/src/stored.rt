//! Sources and sinks in memory, which fail where they are told to, and such that never fail.
ghost use Rattle.std.specs.Prelude.{◌≡◌, ◌-◌, ◌+◌, ◌^◌, ◌<◌, ◌≤◌, min, length, IfOk, IfSome, is_err, OnOk, Ok, Some, None, drop, take, [], ◌||◌, ◌&&◌, ◌==◌, nat_lt, vec_capacity};
ghost use Rattle.std.specs.Io.{ReadsAtMost, WritesAtMost};
ghost use Rattle.std.specs.Io.KnownBytes.{ReadConsumes, WriteAppends};
ghost use Rattle.zq_io.specs.Streams.{HasCause, moved, is_listed};

use crate::streams::{Failed, Sink, Source};
use std::alloc::Global;
use zq_message::memory::OutOfMemory;
use zq_message::text::Bytes;

/// Copies a front of the rest into the buffer: as much as the piece and both allow.
fn give(rest: &[u8], buf: &mut [u8], piece: usize) -> usize
    ensures count { result ≡ moved piece (length buf.old) (length rest.now) }
    ensures length { length buf.new ≡ length buf.old }
    ensures bytes { take result buf.new ≡ take result rest.now }
{
    let count = piece.min(buf.len().min(rest.len()));
    buf[..count].copy_from_slice(&rest[..count]);
    count
}

/// A source in memory: the bytes from `at` on are left, and the calls whose numbers are listed
/// fail.
#[derive(Debug, Drop)]
pub struct MemorySource {
    bytes: Bytes,
    at: usize,
    calls: u64,
    fails: Vec<u64>,
    piece: usize,
    faults: u64,
    ghost within: { at ≤ length bytes },
    ghost whole: { 1 ≤ piece },
}

impl MemorySource {
    /// All of the bytes, in pieces of at most `piece`; calls are counted from 0. Takes no memory.
    pub fn new(bytes: Bytes, fails: Vec<u64>, piece: usize) -> MemorySource
        requires { 1 ≤ piece }
        ensures bytes { result.bytes ≡ bytes }
        ensures fails { result.fails.items ≡ fails.items }
        ensures piece { result.piece ≡ piece }
        ensures fresh { (result.at ≡ 0) × (result.calls ≡ 0) × (result.faults ≡ 0) }
    {
        MemorySource {
            bytes,
            at: 0,
            calls: 0,
            fails,
            piece,
            faults: 0,
        }
    }
}

#[tactic(auto, using(crate::proofs::Transfers::drop_front, crate::proofs::Transfers::rose_by_one))]
impl Source for MemorySource {
    ghost left = { λ s. Some (drop s.at s.bytes) };

    ghost faults = { λ s. s.faults };

    /// Fails exactly where the call is listed.
    fn read(&mut self, buf: &mut [u8]) -> Result<usize, Failed>
        ensures bound { ReadsAtMost result buf.new }
        ensures bytes { ReadConsumes (Some (drop self.old.at self.old.bytes)) (Some (drop self.new.at self.new.bytes)) result buf.new }
        ensures cause { HasCause self.old.faults self.new.faults result }
        ensures fails { is_err result ≡ is_listed self.old.fails.items self.old.calls }
        ensures count { IfOk result (λ n. n ≡ moved self.old.piece (length buf.old) (length self.old.bytes - self.old.at)) }
        ensures calls { self.new.calls ≡ min (self.old.calls + 1) (2 ^ 64 - 1) }
        ensures same { (self.new.fails.items ≡ self.old.fails.items) × (self.new.piece ≡ self.old.piece) × (self.new.bytes ≡ self.old.bytes) }
    {
        let listed = self.fails.contains(&self.calls);
        self.calls = self.calls.saturating_add(1);
        if listed {
            self.faults = self.faults.saturating_add(1);
            return Err(Failed);
        }
        let rest = &self.bytes.as_slice()[self.at..];
        let count = give(rest, buf, self.piece);
        self.at += count;
        Ok(count)
    }
}

/// A sink in memory: it has room for so many bytes, and the calls whose numbers are listed fail.
#[derive(Debug, Drop)]
pub struct MemorySink {
    bytes: Vec<u8>,
    room: usize,
    calls: u64,
    fails: Vec<u64>,
    piece: usize,
    faults: u64,
    ghost within: { length bytes.items ≤ room },
    ghost held: { room ≤ vec_capacity bytes },
    ghost whole: { 1 ≤ piece },
}

impl MemorySink {
    /// Takes the whole room at once, and then bytes in pieces of at most `piece`; calls are counted
    /// from 0.
    pub fn new(
        alloc: Global,
        room: usize,
        fails: Vec<u64>,
        piece: usize,
    ) -> Result<MemorySink, OutOfMemory>
        requires { 1 ≤ piece }
        ensures room { IfOk result (λ s. s.room ≡ room) }
        ensures fails { IfOk result (λ s. s.fails.items ≡ fails.items) }
        ensures piece { IfOk result (λ s. s.piece ≡ piece) }
        ensures fresh { IfOk result (λ s. (s.bytes.items ≡ []) × (s.calls ≡ 0) × (s.faults ≡ 0)) }
    {
        Ok(MemorySink {
            bytes: Vec::with_capacity(alloc, room)?,
            room,
            calls: 0,
            fails,
            piece,
            faults: 0,
        })
    }

    /// What was taken, in order.
    pub fn taken(&self) -> &[u8]
        ensures { result.now ≡ self.now.bytes.items }
    {
        self.bytes.as_slice()
    }
}

#[tactic(auto, using(crate::proofs::Transfers::rose_by_one))]
impl Sink for MemorySink {
    ghost taken = { λ s. Some s.bytes.items };

    ghost faults = { λ s. s.faults };

    ghost writes = { λ s piece count t. (t.calls ≡ min (s.calls + 1) (2 ^ 64 - 1)) × IfSome count (λ n. n ≡ moved s.piece (length piece) (s.room - length s.bytes.items)) };

    /// Fails exactly where the call is listed, or finds no room for any byte.
    fn write(&mut self, piece: &[u8]) -> Result<usize, Failed>
        ensures bound { WritesAtMost result piece.now }
        ensures some { 0 < length piece.now → IfOk result (λ n. 0 < n) }
        ensures bytes { WriteAppends (Some self.old.bytes.items) (Some self.new.bytes.items) result piece.now }
        ensures cause { HasCause self.old.faults self.new.faults result }
        ensures fails { is_err result ≡ (is_listed self.old.fails.items self.old.calls || (length self.old.bytes.items == self.old.room && nat_lt 0 (length piece.now))) }
        ensures count { IfOk result (λ n. n ≡ moved self.old.piece (length piece.now) (self.old.room - length self.old.bytes.items)) }
        ensures calls { self.new.calls ≡ min (self.old.calls + 1) (2 ^ 64 - 1) }
        ensures same { (self.new.fails.items ≡ self.old.fails.items) × (self.new.piece ≡ self.old.piece) × (self.new.room ≡ self.old.room) }
    {
        let listed = self.fails.contains(&self.calls);
        self.calls = self.calls.saturating_add(1);
        let room = self.room - self.bytes.len();
        if listed || (room == 0 && !piece.is_empty()) {
            self.faults = self.faults.saturating_add(1);
            return Err(Failed);
        }
        let count = self.piece.min(piece.len().min(room));
        match self.bytes.extend_from_slice(&piece[..count]) {
            Ok(()) => Ok(count),
            Err(_) => unreachable!(),
        }
    }
}

/// A source in memory that gives all that it has and never fails.
#[derive(Debug, Drop)]
pub struct SureSource {
    bytes: Bytes,
    at: usize,
    ghost within: { at ≤ length bytes },
}

impl SureSource {
    /// All of the bytes. Takes no memory.
    pub fn new(bytes: Bytes) -> SureSource
        ensures bytes { result.bytes ≡ bytes }
        ensures fresh { result.at ≡ 0 }
    {
        SureSource { bytes, at: 0 }
    }
}

#[tactic(auto, using(crate::proofs::Transfers::drop_front))]
impl Source for SureSource {
    ghost left = { λ s. Some (drop s.at s.bytes) };

    ghost faults = { λ s. 0 };

    /// Gives as much as is left and the buffer holds, and never fails.
    fn read(&mut self, buf: &mut [u8]) -> Result<usize, Failed>
        ensures bound { ReadsAtMost result buf.new }
        ensures bytes { ReadConsumes (Some (drop self.old.at self.old.bytes)) (Some (drop self.new.at self.new.bytes)) result buf.new }
        ensures cause { HasCause 0 0 result }
        ensures sure { result ≡ Ok (min (length buf.old) (length self.old.bytes - self.old.at)) }
    {
        let rest = &self.bytes.as_slice()[self.at..];
        let count = give(rest, buf, rest.len());
        self.at += count;
        Ok(count)
    }
}

/// A sink that takes every piece, keeps nothing, and never fails.
#[derive(Clone, Copy, Debug, Default, PartialEq, Eq)]
pub struct SureSink;

impl SureSink {
    /// A sink. Takes no memory.
    pub fn new() -> SureSink
        ensures { result ≡ record {} }
    {
        SureSink
    }
}

impl Sink for SureSink {
    ghost taken = { λ s. None };

    ghost faults = { λ s. 0 };

    ghost writes = { λ s piece count t. count ≡ Some (length piece) };

    /// Takes the whole piece, and never fails.
    fn write(&mut self, piece: &[u8]) -> Result<usize, Failed>
        ensures bound { WritesAtMost result piece.now }
        ensures some { 0 < length piece.now → IfOk result (λ n. 0 < n) }
        ensures bytes { WriteAppends None None result piece.now }
        ensures cause { HasCause 0 0 result }
        ensures sure { result ≡ Ok (length piece.now) }
    {
        Ok(piece.len())
    }
}
