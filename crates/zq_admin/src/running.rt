//! Reads a script from a source, and gives the entries of its run to a sink.
ghost use Rattle.std.specs.Prelude.{◌≡◌, ◌≢◌, ◌≤◌, ◌↔◌, ◌⊎◌, None, IfOk, IfSome, IsTrue, false, length, option_copied, true};
ghost use Rattle.std.specs.Io.KnownBytes.{IsAtEnd};
ghost use Rattle.zq_key.specs.Key.{is_key as key_of};
ghost use Rattle.zq_lines.specs.Split.{lines_of};
ghost use Rattle.zq_script.specs.Running.{EndsWell, IsEnd, IsFit, first_part, wrote};
ghost use Rattle.zq_script.specs.Script.{script_of};
ghost use Rattle.zq_admin.specs.Running.{Lists, asked_of, listing, print_in};
ghost use Rattle.zq_admin.specs.Traced.{entries_after};
ghost use Rattle.zq_io.specs.Streams.{Rose};
ghost use Rattle.zq_io.specs.declared.transfer.TheConstants.{LIMIT};

use crate::entries::{AdminList, list};
use crate::gathering::gateway_after;
use crate::lines::print_entries;
use std::alloc::Global;
use zq_key::memory::OutOfMemory;
use zq_key::text::{Bytes, Text};
use zq_key::{Key, KeyError, is_key};
use zq_machine::call::Call;
use zq_script::refusal::ScriptRefusal;
use zq_script::running::{Status, print_bad_line};
use zq_script::script::{Script, read_script};
use zq_script::{ReadRefusal, Sink, Source, read_all, write_all};

/// The key of the words `list KEY`, where it is one.
fn asked_of(words: &[Text]) -> Option<&str>
    ensures value { option_copied result ≡ asked_of words.now }
    ensures key { IfSome (option_copied result) (λ k. key_of k ≡ true) }
{
    match words {
        [word, key] if word.as_str() == "list" && is_key(key.as_str()) => Some(key.as_str()),
        _ => None,
    }
}

/// The calls of the script.
fn first_calls(script: &Script) -> &[Call]
    ensures { result.now ≡ first_part script.now.parts }
{
    let none: &[Call] = &[];
    match script.parts.as_slice() {
        [first, ..] => first.as_slice(),
        [] => none,
    }
}

/// The entries of the script's calls whose keys meet the key.
fn entries_of(alloc: Global, key: &Key, script: &Script) -> Result<AdminList, OutOfMemory>
    ensures { IfOk result (λ l. l ≡ entries_after script.now.config (first_part script.now.parts) key.now) }
{
    let gateway = gateway_after(alloc, &script.config, first_calls(script))?;
    let found = list(alloc, &gateway, key);
    drop(gateway);
    found
}

/// The lines of the entries of the script's calls whose keys meet the key.
fn print_listing(alloc: Global, key: &Key, script: &Script) -> Result<Bytes, OutOfMemory>
    ensures { IfOk result (λ b. b ≡ listing key.now script.now) }
{
    let found = entries_of(alloc, key, script)?;
    print_entries(alloc, found.as_slice())
}

/// What is printed for the bytes, and the status where the print is taken.
fn print_of(alloc: Global, key: &Key, bytes: &[u8]) -> Result<(Status, Bytes), OutOfMemory>
    ensures print { IfOk result (λ t. t.1 ≡ print_in key.now bytes.now) }
    ensures status { IfOk result (λ t. IsEnd t.0 (script_of 0 (lines_of bytes.now))) }
{
    match read_script(alloc, bytes, 0) {
        Ok(script) => Ok((Status::Done, print_listing(alloc, key, &script)?)),
        Err(ScriptRefusal::BadLine(number)) => {
            Ok((Status::Script, print_bad_line(alloc, number)?))
        }
        Err(ScriptRefusal::OutOfMemory) => Err(OutOfMemory),
    }
}

/// Gives the print for the bytes to the sink.
fn answer<K: Sink>(alloc: Global, key: &Key, bytes: &[u8], sink: &mut K) -> Status
    requires { length bytes.now ≤ LIMIT }
    ensures leaves { Lists key.now result bytes.now (K.taken sink.old) (K.taken sink.new) }
    ensures fault { result ≡ Status.WriteFault → Rose (K.faults sink.old) (K.faults sink.new) }
    ensures quiet { result ≢ Status.WriteFault → K.faults sink.new ≡ K.faults sink.old }
    ensures later { K.faults sink.old ≤ K.faults sink.new }
    ensures unwritten { wrote result ≡ false → sink.new ≡ sink.old }
    ensures ends { (result ≢ Status.Words) × (result ≢ Status.ReadFault) × (result ≢ Status.TooLong) × (result ≢ Status.LinkFault) }
{
    let Ok((status, print)) = print_of(alloc, key, bytes) else {
        return Status::Memory;
    };
    match write_all(sink, print.as_slice()) {
        Ok(()) => status,
        Err(_) => Status::WriteFault,
    }
}

/// Reads a script from the source, and gives the lines of the entries of its run to the sink.
#[tactic(auto, using(crate::proofs::Completed::read_fails, crate::proofs::Completed::too_long, crate::proofs::Completed::no_memory))]
fn listed<S: Source, K: Sink>(alloc: Global, key: &Key, source: &mut S, sink: &mut K) -> Status
    ensures leaves { IfSome (S.left source.old) (λ input. Lists key.now result input (K.taken sink.old) (K.taken sink.new)) }
    ensures whole { (result ≡ Status.Done) ⊎ (result ≡ Status.Script) → IsAtEnd (S.left source.new) }
    ensures read { result ≡ Status.ReadFault → Rose (S.faults source.old) (S.faults source.new) }
    ensures steady { result ≢ Status.ReadFault → S.faults source.new ≡ S.faults source.old }
    ensures write { result ≡ Status.WriteFault → Rose (K.faults sink.old) (K.faults sink.new) }
    ensures quiet { result ≢ Status.WriteFault → K.faults sink.new ≡ K.faults sink.old }
    ensures unwritten { wrote result ≡ false → sink.new ≡ sink.old }
    ensures ends { (result ≢ Status.Words) × (result ≢ Status.LinkFault) }
    ensures complete { IfSome (S.left source.old) (λ input. IsFit input → (Rose (S.faults source.old) (S.faults source.new) → ⊥) → (Rose (K.faults sink.old) (K.faults sink.new) → ⊥) → EndsWell result) }
{
    match read_all(alloc, source) {
        Ok(bytes) => answer(alloc, key, bytes.as_slice(), sink),
        Err(ReadRefusal::ReadFault) => Status::ReadFault,
        Err(ReadRefusal::TooLong) => Status::TooLong,
        Err(ReadRefusal::OutOfMemory) => Status::Memory,
    }
}

/// A key of a text that is one.
fn key_of(alloc: Global, text: &str) -> Result<Key, OutOfMemory>
    requires { IsTrue (key_of text.now) }
    ensures { IfOk result (λ k. k ≡ text.now) }
{
    match Key::new(alloc, text) {
        Ok(key) => Ok(key),
        Err(KeyError::Invalid) => unreachable!(),
        Err(KeyError::OutOfMemory) => Err(OutOfMemory),
    }
}

/// Where the words are `list KEY`, KEY a key, reads a script from the source, makes its calls, and gives one line
/// for each entry whose key meets KEY to the sink. The first bad line is named in place of the print.
pub fn admin_run<S: Source, K: Sink>(
    alloc: Global,
    words: &[Text],
    source: &mut S,
    sink: &mut K,
) -> Status
    ensures words { (result ≡ Status.Words) ↔ (asked_of words.now ≡ None) }
    ensures untouched { result ≡ Status.Words → (source.new ≡ source.old) × (sink.new ≡ sink.old) }
    ensures leaves { IfSome (asked_of words.now) (λ key. IfSome (S.left source.old) (λ input. Lists key result input (K.taken sink.old) (K.taken sink.new))) }
    ensures whole { (result ≡ Status.Done) ⊎ (result ≡ Status.Script) → IsAtEnd (S.left source.new) }
    ensures read { result ≡ Status.ReadFault → Rose (S.faults source.old) (S.faults source.new) }
    ensures steady { result ≢ Status.ReadFault → S.faults source.new ≡ S.faults source.old }
    ensures write { result ≡ Status.WriteFault → Rose (K.faults sink.old) (K.faults sink.new) }
    ensures quiet { result ≢ Status.WriteFault → K.faults sink.new ≡ K.faults sink.old }
    ensures unwritten { wrote result ≡ false → sink.new ≡ sink.old }
    ensures linked { result ≢ Status.LinkFault }
    ensures complete { IfSome (asked_of words.now) (λ key. IfSome (S.left source.old) (λ input. IsFit input → (Rose (S.faults source.old) (S.faults source.new) → ⊥) → (Rose (K.faults sink.old) (K.faults sink.new) → ⊥) → EndsWell result)) }
{
    let Some(key) = asked_of(words) else {
        return Status::Words;
    };
    let Ok(key) = key_of(alloc, key) else {
        return Status::Memory;
    };
    listed(alloc, &key, source, sink)
}
