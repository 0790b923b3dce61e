//! Reads a script for storages from a source, and gives its print to a sink.
ghost use Rattle.std.specs.Prelude.{◌≡◌, ◌≢◌, ◌≤◌, ◌↔◌, ◌⊎◌, IfOk, IfSome, false, length, true};
ghost use Rattle.std.specs.Io.KnownBytes.{IsAtEnd};
ghost use Rattle.zq_lines.specs.Split.{lines_of};
ghost use Rattle.zq_script.specs.Running.{EndsWell, wrote};
ghost use Rattle.zq_store.specs.Lines.{script_of};
ghost use Rattle.zq_store.specs.Running.{IsEnd, IsFit, Leaves, is_store, print_of};
ghost use Rattle.zq_io.specs.Streams.{Rose};
ghost use Rattle.zq_io.specs.declared.transfer.TheConstants.{LIMIT};

use crate::lines::read_lines;
use crate::printing::print_script;
use std::alloc::Global;
use zq_key::memory::OutOfMemory;
use zq_key::text::{Bytes, Text};
use zq_script::refusal::ScriptRefusal;
use zq_script::running::{Status, print_bad_line};
use zq_script::{ReadRefusal, Sink, Source, read_all, write_all};

/// Whether the word is `store`, and there is no other.
fn is_store(words: &[Text]) -> bool
    ensures { result ≡ is_store words.now }
{
    match words {
        [word] => word.as_str() == "store",
        _ => false,
    }
}

/// What is printed for the bytes, and the status where the print is taken.
fn print_of(alloc: Global, bytes: &[u8]) -> Result<(Status, Bytes), OutOfMemory>
    ensures print { IfOk result (λ t. t.1 ≡ print_of bytes.now) }
    ensures status { IfOk result (λ t. IsEnd t.0 (script_of (lines_of bytes.now))) }
{
    match read_lines(alloc, bytes) {
        Ok(lines) => Ok((Status::Done, print_script(alloc, lines.as_slice())?)),
        Err(ScriptRefusal::BadLine(number)) => {
            Ok((Status::Script, print_bad_line(alloc, number)?))
        }
        Err(ScriptRefusal::OutOfMemory) => Err(OutOfMemory),
    }
}

/// Gives the print for the bytes to the sink.
fn answer<K: Sink>(alloc: Global, bytes: &[u8], sink: &mut K) -> Status
    requires { length bytes.now ≤ LIMIT }
    ensures leaves { Leaves result bytes.now (K.taken sink.old) (K.taken sink.new) }
    ensures fault { result ≡ Status.WriteFault → Rose (K.faults sink.old) (K.faults sink.new) }
    ensures quiet { result ≢ Status.WriteFault → K.faults sink.new ≡ K.faults sink.old }
    ensures later { K.faults sink.old ≤ K.faults sink.new }
    ensures unwritten { wrote result ≡ false → sink.new ≡ sink.old }
    ensures ends { (result ≢ Status.Words) × (result ≢ Status.ReadFault) × (result ≢ Status.TooLong) × (result ≢ Status.LinkFault) }
{
    let Ok((status, print)) = print_of(alloc, bytes) else {
        return Status::Memory;
    };
    match write_all(sink, print.as_slice()) {
        Ok(()) => status,
        Err(_) => Status::WriteFault,
    }
}

/// Reads a script from the source, and gives its print to the sink.
#[tactic(auto, using(crate::proofs::Completed::read_fails, crate::proofs::Completed::too_long, crate::proofs::Completed::no_memory))]
fn store<S: Source, K: Sink>(alloc: Global, source: &mut S, sink: &mut K) -> Status
    ensures leaves { IfSome (S.left source.old) (λ input. Leaves result input (K.taken sink.old) (K.taken sink.new)) }
    ensures whole { (result ≡ Status.Done) ⊎ (result ≡ Status.Script) → IsAtEnd (S.left source.new) }
    ensures read { result ≡ Status.ReadFault → Rose (S.faults source.old) (S.faults source.new) }
    ensures steady { result ≢ Status.ReadFault → S.faults source.new ≡ S.faults source.old }
    ensures write { result ≡ Status.WriteFault → Rose (K.faults sink.old) (K.faults sink.new) }
    ensures quiet { result ≢ Status.WriteFault → K.faults sink.new ≡ K.faults sink.old }
    ensures unwritten { wrote result ≡ false → sink.new ≡ sink.old }
    ensures ends { (result ≢ Status.Words) × (result ≢ Status.LinkFault) }
    ensures complete { IfSome (S.left source.old) (λ input. IsFit input → (Rose (S.faults source.old) (S.faults source.new) → ⊥) → (Rose (K.faults sink.old) (K.faults sink.new) → ⊥) → EndsWell result) }
{
    match read_all(alloc, source) {
        Ok(bytes) => answer(alloc, bytes.as_slice(), sink),
        Err(ReadRefusal::ReadFault) => Status::ReadFault,
        Err(ReadRefusal::TooLong) => Status::TooLong,
        Err(ReadRefusal::OutOfMemory) => Status::Memory,
    }
}

/// Where the word is `store`, reads a script for storages from the source, does what its lines ask for, on a bus
/// of the load's configuration, and gives what they print to the sink. The first bad line is named in place of
/// the print.
pub fn store_run<S: Source, K: Sink>(
    alloc: Global,
    words: &[Text],
    source: &mut S,
    sink: &mut K,
) -> Status
    ensures words { (result ≡ Status.Words) ↔ (is_store words.now ≡ false) }
    ensures untouched { result ≡ Status.Words → (source.new ≡ source.old) × (sink.new ≡ sink.old) }
    ensures leaves { is_store words.now ≡ true → IfSome (S.left source.old) (λ input. Leaves result input (K.taken sink.old) (K.taken sink.new)) }
    ensures whole { (result ≡ Status.Done) ⊎ (result ≡ Status.Script) → IsAtEnd (S.left source.new) }
    ensures read { result ≡ Status.ReadFault → Rose (S.faults source.old) (S.faults source.new) }
    ensures steady { result ≢ Status.ReadFault → S.faults source.new ≡ S.faults source.old }
    ensures write { result ≡ Status.WriteFault → Rose (K.faults sink.old) (K.faults sink.new) }
    ensures quiet { result ≢ Status.WriteFault → K.faults sink.new ≡ K.faults sink.old }
    ensures unwritten { wrote result ≡ false → sink.new ≡ sink.old }
    ensures linked { result ≢ Status.LinkFault }
    ensures complete { is_store words.now ≡ true → IfSome (S.left source.old) (λ input. IsFit input → (Rose (S.faults source.old) (S.faults source.new) → ⊥) → (Rose (K.faults sink.old) (K.faults sink.new) → ⊥) → EndsWell result) }
{
    if !is_store(words) {
        return Status::Words;
    }
    store(alloc, source, sink)
}
