//! Reads a script from a source, and gives to a sink what faces receive of its run in a namespace.
ghost use Rattle.std.specs.Prelude.{◌≡◌, ◌≢◌, ◌≤◌, ◌↔◌, ◌⊎◌, None, IfOk, IfSome, IsTrue, false, length, option_copied, true};
ghost use Rattle.std.specs.Io.KnownBytes.{IsAtEnd};
ghost use Rattle.zq_key.specs.Key.{is_plain as plain_of};
ghost use Rattle.zq_lines.specs.Split.{lines_of};
ghost use Rattle.zq_script.specs.Running.{EndsWell, wrote};
ghost use Rattle.zq_session.specs.Running.{IsEnd, IsFitIn, LeavesIn, print_in, space_of as space_in};
ghost use Rattle.zq_session.specs.Session.{session_of};
ghost use Rattle.zq_io.specs.Streams.{Rose};
ghost use Rattle.zq_io.specs.declared.transfer.TheConstants.{LIMIT};

use crate::session::{print_inside, read_session};
use std::alloc::Global;
use zq_key::memory::OutOfMemory;
use zq_key::text::{Bytes, Text};
use zq_key::{Key, KeyError, is_plain};
use zq_script::refusal::ScriptRefusal;
use zq_script::running::{Status, print_bad_line};
use zq_script::{ReadRefusal, Sink, Source, read_all, write_all};

/// The namespace of the words `inside NS`, where it is a plain key.
fn space_of(words: &[Text]) -> Option<&str>
    ensures { option_copied result ≡ space_in words.now }
{
    match words {
        [word, ns] if word.as_str() == "inside" && is_plain(ns.as_str()) => Some(ns.as_str()),
        _ => None,
    }
}

/// What is printed for the bytes, and the status where the print is taken.
fn print_of(alloc: Global, ns: &Key, bytes: &[u8]) -> Result<(Status, Bytes), OutOfMemory>
    requires { IsTrue (plain_of ns.now) }
    ensures print { IfOk result (λ t. t.1 ≡ print_in ns.now bytes.now) }
    ensures status { IfOk result (λ t. IsEnd t.0 (session_of (lines_of bytes.now))) }
{
    match read_session(alloc, bytes) {
        Ok((config, calls)) => {
            let print = print_inside(alloc, &config, ns, calls.as_slice())?;
            Ok((Status::Done, print))
        }
        Err(ScriptRefusal::BadLine(number)) => {
            Ok((Status::Script, print_bad_line(alloc, number)?))
        }
        Err(ScriptRefusal::OutOfMemory) => Err(OutOfMemory),
    }
}

/// Gives the print for the bytes to the sink.
fn answer<K: Sink>(alloc: Global, ns: &Key, bytes: &[u8], sink: &mut K) -> Status
    requires plain { IsTrue (plain_of ns.now) }
    requires limit { length bytes.now ≤ LIMIT }
    ensures leaves { LeavesIn ns.now result bytes.now (K.taken sink.old) (K.taken sink.new) }
    ensures fault { result ≡ Status.WriteFault → Rose (K.faults sink.old) (K.faults sink.new) }
    ensures quiet { result ≢ Status.WriteFault → K.faults sink.new ≡ K.faults sink.old }
    ensures later { K.faults sink.old ≤ K.faults sink.new }
    ensures unwritten { wrote result ≡ false → sink.new ≡ sink.old }
    ensures ends { (result ≢ Status.Words) × (result ≢ Status.ReadFault) × (result ≢ Status.TooLong) × (result ≢ Status.LinkFault) }
{
    let Ok((status, print)) = print_of(alloc, ns, bytes) else {
        return Status::Memory;
    };
    match write_all(sink, print.as_slice()) {
        Ok(()) => status,
        Err(_) => Status::WriteFault,
    }
}

/// Reads a script from the source, and gives what faces receive of its run in the namespace to the sink.
#[tactic(auto, using(crate::proofs::Completed::read_fails, crate::proofs::Completed::too_long, crate::proofs::Completed::no_memory))]
fn inside<S: Source, K: Sink>(alloc: Global, ns: &Key, source: &mut S, sink: &mut K) -> Status
    requires { IsTrue (plain_of ns.now) }
    ensures leaves { IfSome (S.left source.old) (λ input. LeavesIn ns.now result input (K.taken sink.old) (K.taken sink.new)) }
    ensures whole { (result ≡ Status.Done) ⊎ (result ≡ Status.Script) → IsAtEnd (S.left source.new) }
    ensures read { result ≡ Status.ReadFault → Rose (S.faults source.old) (S.faults source.new) }
    ensures steady { result ≢ Status.ReadFault → S.faults source.new ≡ S.faults source.old }
    ensures write { result ≡ Status.WriteFault → Rose (K.faults sink.old) (K.faults sink.new) }
    ensures quiet { result ≢ Status.WriteFault → K.faults sink.new ≡ K.faults sink.old }
    ensures unwritten { wrote result ≡ false → sink.new ≡ sink.old }
    ensures ends { (result ≢ Status.Words) × (result ≢ Status.LinkFault) }
    ensures complete { IfSome (S.left source.old) (λ input. IsFitIn input → (Rose (S.faults source.old) (S.faults source.new) → ⊥) → (Rose (K.faults sink.old) (K.faults sink.new) → ⊥) → EndsWell result) }
{
    match read_all(alloc, source) {
        Ok(bytes) => answer(alloc, ns, bytes.as_slice(), sink),
        Err(ReadRefusal::ReadFault) => Status::ReadFault,
        Err(ReadRefusal::TooLong) => Status::TooLong,
        Err(ReadRefusal::OutOfMemory) => Status::Memory,
    }
}

/// The plain key of a text.
#[tactic(auto, unfolding(zq_key::specs::Key::is_plain))]
fn key_of(alloc: Global, ns: &str) -> Result<Key, OutOfMemory>
    requires { IsTrue (plain_of ns.now) }
    ensures { IfOk result (λ k. k ≡ ns.now) }
{
    match Key::new(alloc, ns) {
        Ok(key) => Ok(key),
        Err(KeyError::Invalid) => unreachable!(),
        Err(KeyError::OutOfMemory) => Err(OutOfMemory),
    }
}

/// Where the words are `inside NS`, NS a plain key, reads a script from the source, makes its calls with all faces
/// in the namespace, and gives what each face that was opened has received to the sink, by number: a line
/// `face F`, and the messages. A call that cannot be moved makes a bad line; the first bad line is named in
/// place of the print.
pub fn session_run<S: Source, K: Sink>(
    alloc: Global,
    words: &[Text],
    source: &mut S,
    sink: &mut K,
) -> Status
    ensures words { (result ≡ Status.Words) ↔ (space_in words.now ≡ None) }
    ensures untouched { result ≡ Status.Words → (source.new ≡ source.old) × (sink.new ≡ sink.old) }
    ensures leaves { IfSome (space_in words.now) (λ n. IfSome (S.left source.old) (λ input. LeavesIn n result input (K.taken sink.old) (K.taken sink.new))) }
    ensures whole { (result ≡ Status.Done) ⊎ (result ≡ Status.Script) → IsAtEnd (S.left source.new) }
    ensures read { result ≡ Status.ReadFault → Rose (S.faults source.old) (S.faults source.new) }
    ensures steady { result ≢ Status.ReadFault → S.faults source.new ≡ S.faults source.old }
    ensures write { result ≡ Status.WriteFault → Rose (K.faults sink.old) (K.faults sink.new) }
    ensures quiet { result ≢ Status.WriteFault → K.faults sink.new ≡ K.faults sink.old }
    ensures unwritten { wrote result ≡ false → sink.new ≡ sink.old }
    ensures linked { result ≢ Status.LinkFault }
    ensures complete { IfSome (space_in words.now) (λ n. IfSome (S.left source.old) (λ input. IsFitIn input → (Rose (S.faults source.old) (S.faults source.new) → ⊥) → (Rose (K.faults sink.old) (K.faults sink.new) → ⊥) → EndsWell result)) }
{
    let Some(ns) = space_of(words) else {
        return Status::Words;
    };
    let Ok(key) = key_of(alloc, ns) else {
        return Status::Memory;
    };
    inside(alloc, &key, source, sink)
}
