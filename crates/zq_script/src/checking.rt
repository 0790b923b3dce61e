//! The call that looks at a script, and runs nothing.
ghost use Rattle.std.specs.Prelude.{◌≡◌, ◌≢◌, ◌≤◌, IfOk, IfSome, false, length};
ghost use Rattle.zq_io.specs.declared.transfer.TheConstants.{LIMIT};
ghost use Rattle.zq_io.specs.Streams.{Rose};
ghost use Rattle.zq_lines.specs.Split.{lines_of};
ghost use Rattle.zq_script.specs.Checking.{LeavesChecked, check_words};
ghost use Rattle.zq_script.specs.Running.{IsEnd, wrote};
ghost use Rattle.zq_script.specs.Script.{script_of};

use crate::bad::{bad_lines, print_bad_lines};
use crate::running::Status;
use std::alloc::Global;
use zq_io::streams::{Sink, Source};
use zq_io::transfer::{ReadRefusal, read_all, write_all};
use zq_key::memory::OutOfMemory;
use zq_key::text::Bytes;

/// The bad lines of a script in words, and the status where they are taken.
fn checked(alloc: Global, workers: u8, bytes: &[u8]) -> Result<(Status, Bytes), OutOfMemory>
    ensures words { IfOk result (λ t. t.1 ≡ check_words workers bytes.now) }
    ensures status { IfOk result (λ t. IsEnd t.0 (script_of workers (lines_of bytes.now))) }
{
    let bad = bad_lines(alloc, workers, bytes)?;
    let status = if bad.is_empty() {
        Status::Done
    } else {
        Status::Script
    };
    Ok((status, print_bad_lines(alloc, bad.as_slice())?))
}

/// Gives the bad lines of a script in words to a sink.
fn give<K: Sink>(alloc: Global, workers: u8, bytes: &[u8], sink: &mut K) -> Status
    requires { length bytes.now ≤ LIMIT }
    ensures leaves { LeavesChecked result workers bytes.now (K.taken sink.old) (K.taken sink.new) }
    ensures write { result ≡ Status.WriteFault → Rose (K.faults sink.old) (K.faults sink.new) }
    ensures quiet { result ≢ Status.WriteFault → K.faults sink.new ≡ K.faults sink.old }
    ensures unwritten { wrote result ≡ false → sink.new ≡ sink.old }
    ensures ends { (result ≢ Status.Words) × (result ≢ Status.ReadFault) × (result ≢ Status.TooLong) × (result ≢ Status.LinkFault) }
{
    let Ok((status, words)) = checked(alloc, workers, bytes) else {
        return Status::Memory;
    };
    match write_all(sink, words.as_slice()) {
        Ok(()) => status,
        Err(_) => Status::WriteFault,
    }
}

/// Reads a script from a source, and gives all its bad lines to a sink, each as `bad line N: why` on
/// a line of its own, with so many lines `worker` at most. No call is made. It ends with `Done`
/// where there is no bad line, and with `Script` where there are some.
pub fn check<S: Source, K: Sink>(alloc: Global, workers: u8, source: &mut S, sink: &mut K) -> Status
    ensures leaves { IfSome (S.left source.old) (λ input. LeavesChecked result workers input (K.taken sink.old) (K.taken sink.new)) }
    ensures read { result ≡ Status.ReadFault → Rose (S.faults source.old) (S.faults source.new) }
    ensures steady { result ≢ Status.ReadFault → S.faults source.new ≡ S.faults source.old }
    ensures write { result ≡ Status.WriteFault → Rose (K.faults sink.old) (K.faults sink.new) }
    ensures quiet { result ≢ Status.WriteFault → K.faults sink.new ≡ K.faults sink.old }
    ensures unwritten { wrote result ≡ false → sink.new ≡ sink.old }
    ensures ends { (result ≢ Status.Words) × (result ≢ Status.LinkFault) }
{
    match read_all(alloc, source) {
        Ok(bytes) => give(alloc, workers, bytes.as_slice(), sink),
        Err(ReadRefusal::ReadFault) => Status::ReadFault,
        Err(ReadRefusal::TooLong) => Status::TooLong,
        Err(ReadRefusal::OutOfMemory) => Status::Memory,
    }
}
