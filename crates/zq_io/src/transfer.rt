//! Whole transfers.
ghost use Rattle.std.specs.Prelude.{◌≡◌, ◌≢◌, ◌≤◌, ℕ, List, length, OnOk, OnErr, IfOk, Err};
ghost use Rattle.std.specs.Io.KnownBytes.{Consumes, Appends, IsAtEnd};
ghost use Rattle.zq_io.specs.declared.transfer.TheConstants.{LIMIT};
ghost use Rattle.zq_io.specs.Streams.{Rose, IsLonger, AppendsFront, Offers, OffersUpTo};

use crate::streams::{Sink, Source};
use std::alloc::Global;
use thiserror::Error;
use zq_message::text::Bytes;

/// The most bytes that are read from a source.
pub const LIMIT: usize = 16_777_216;

/// Why a source wasn't read whole: it failed, gave more than the limit, or no memory was found.
#[derive(Clone, Copy, Debug, PartialEq, Eq, Error)]
pub enum ReadRefusal {
    /// The source failed.
    #[error("ReadFault")]
    ReadFault,
    /// The source gave more than `LIMIT` bytes.
    #[error("TooLong")]
    TooLong,
    /// No memory was found.
    #[error("OutOfMemory")]
    OutOfMemory,
}

/// A sink failed before it had taken a whole piece.
#[derive(Clone, Copy, Debug, PartialEq, Eq)]
pub struct WriteFault;

/// All bytes of a source, read to its end.
#[tactic(auto, using(crate::proofs::Transfers::consumes_more, crate::proofs::Transfers::consumes_none, crate::proofs::Transfers::longer))]
pub fn read_all<S: Source>(alloc: Global, source: &mut S) -> Result<Bytes, ReadRefusal>
    ensures whole { IfOk result (λ b. Consumes (S.left source.old) (S.left source.new) b × IsAtEnd (S.left source.new)) }
    ensures front { (b : List ℕ) × Consumes (S.left source.old) (S.left source.new) b }
    ensures short { IfOk result (λ b. length b ≤ LIMIT) }
    ensures fault { result ≡ Err ReadRefusal.ReadFault → Rose (S.faults source.old) (S.faults source.new) }
    ensures quiet { result ≢ Err ReadRefusal.ReadFault → S.faults source.new ≡ S.faults source.old }
    ensures too_long { result ≡ Err ReadRefusal.TooLong → IsLonger LIMIT (S.left source.old) }
    ensures later { S.faults source.old ≤ S.faults source.new }
{
    let mut buf = [0; 4096];
    let mut bytes = Vec::new(alloc);
    'reads: while bytes.len() <= LIMIT {
        let Ok(count) = source.read(&mut buf) else {
            return Err(ReadRefusal::ReadFault);
        };
        if count == 0 {
            return Ok(Bytes::from_vec(bytes));
        }
        if bytes.extend_from_slice(&buf[..count]).is_err() {
            return Err(ReadRefusal::OutOfMemory);
        }
    }
    Err(ReadRefusal::TooLong)
}

/// Gives a whole piece to a sink, at each write all that isn't taken yet.
#[tactic(auto, using(crate::proofs::Transfers::appends_on, crate::proofs::Transfers::appends_none))]
pub fn write_all<K: Sink>(sink: &mut K, piece: &[u8]) -> Result<(), WriteFault>
    ensures offers { OnOk result (Offers K.writes piece.now sink.old (length piece.now) sink.new) }
    ensures offered { OnErr result (OffersUpTo K.writes piece.now sink.old sink.new) }
    ensures whole { OnOk result (Appends (K.taken sink.old) (K.taken sink.new) piece.now) }
    ensures front { OnErr result (AppendsFront (K.taken sink.old) (K.taken sink.new) piece.now) }
    ensures fault { OnErr result (Rose (K.faults sink.old) (K.faults sink.new)) }
    ensures quiet { OnOk result (K.faults sink.new ≡ K.faults sink.old) }
    ensures later { K.faults sink.old ≤ K.faults sink.new }
{
    let mut at = 0;
    'writes: while at < piece.len() {
        let Ok(count) = sink.write(&piece[at..]) else {
            return Err(WriteFault);
        };
        at += count;
    }
    Ok(())
}
