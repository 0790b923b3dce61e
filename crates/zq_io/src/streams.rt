//! A source and a sink, which count their faults.
ghost use Rattle.std.specs.Prelude.{◌≡◌, ℕ, List, Option, ◌<◌, length, IfOk};
ghost use Rattle.std.specs.Io.{ReadsAtMost, WritesAtMost};
ghost use Rattle.std.specs.Io.KnownBytes.{ReadConsumes, WriteAppends};
ghost use Rattle.zq_io.specs.Streams.{HasCause, count_of};

use std::io::{Read, Write};

/// A read or a write failed, and the count of faults rose.
#[derive(Clone, Copy, Debug, PartialEq, Eq)]
pub struct Failed;

/// Bytes that come in.
pub trait Source {
    /// The bytes that are left, where the source tells them.
    ghost left: { Self → Option (List ℕ) };

    /// How often it has failed; the count never falls.
    ghost faults: { Self → ℕ };

    /// Gives at most as many bytes as the buffer holds; none for a buffer with room is the end.
    fn read(&mut self, buf: &mut [u8]) -> Result<usize, Failed>
        ensures bound { ReadsAtMost result buf.new }
        ensures bytes { ReadConsumes (left self.old) (left self.new) result buf.new }
        ensures cause { HasCause (faults self.old) (faults self.new) result };
}

/// Bytes that go out.
pub trait Sink {
    /// The bytes that were taken, where the sink tells them.
    ghost taken: { Self → Option (List ℕ) };

    /// How often it has failed; the count never falls.
    ghost faults: { Self → ℕ };

    /// What one write is: the sink before it, the piece that it is offered, how many bytes it takes if it does not fail, and the sink then.
    ghost writes: { Self → List ℕ → Option ℕ → Self → Type 0 };

    /// Takes a front of the piece, and at least one byte of a piece that has any.
    fn write(&mut self, piece: &[u8]) -> Result<usize, Failed>
        ensures step { writes self.old piece.now (count_of result) self.new }
        ensures bound { WritesAtMost result piece.now }
        ensures some { 0 < length piece.now → IfOk result (λ n. 0 < n) }
        ensures bytes { WriteAppends (taken self.old) (taken self.new) result piece.now }
        ensures cause { HasCause (faults self.old) (faults self.new) result };
}

/// std's reader as a source.
#[derive(Drop)]
pub struct ReadSource<R> {
    inner: R,
    faults: u64,
}

impl<R> ReadSource<R> {
    /// The reader as a source that has not failed yet.
    pub fn new(inner: R) -> ReadSource<R>
        ensures inner { result.inner ≡ inner }
        ensures fresh { result.faults ≡ 0 }
    {
        ReadSource { inner, faults: 0 }
    }
}

#[tactic(auto, using(crate::proofs::Transfers::rose_by_one))]
impl<R: Read> Source for ReadSource<R> {
    ghost left = { λ s. R.remaining s.inner };

    ghost faults = { λ s. s.faults };

    fn read(&mut self, buf: &mut [u8]) -> Result<usize, Failed> {
        match self.inner.read(buf) {
            Ok(count) => Ok(count),
            Err(_) => {
                self.faults = self.faults.saturating_add(1);
                Err(Failed)
            }
        }
    }
}

/// std's writer as a sink.
#[derive(Drop)]
pub struct WriteSink<W> {
    inner: W,
    faults: u64,
}

impl<W> WriteSink<W> {
    /// The writer as a sink that has not failed yet.
    pub fn new(inner: W) -> WriteSink<W>
        ensures inner { result.inner ≡ inner }
        ensures fresh { result.faults ≡ 0 }
    {
        WriteSink { inner, faults: 0 }
    }
}

#[tactic(auto, using(crate::proofs::Transfers::rose_by_one))]
impl<W: Write> Sink for WriteSink<W> {
    ghost taken = { λ s. W.contents s.inner };

    ghost faults = { λ s. s.faults };

    ghost writes = { λ s piece count t. Unit {0} };

    fn write(&mut self, piece: &[u8]) -> Result<usize, Failed> {
        match self.inner.write(piece) {
            Ok(count) if count > 0 || piece.is_empty() => Ok(count),
            _ => {
                self.faults = self.faults.saturating_add(1);
                Err(Failed)
            }
        }
    }
}
