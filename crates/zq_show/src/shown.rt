//! The call that shows the run of a script.
ghost use Rattle.std.specs.Prelude.{◌≡◌, ◌≢◌, ◌≤◌, IfOk, IfSome, OnErr, false, is_none, length};
ghost use Rattle.zq_io.specs.declared.transfer.TheConstants.{LIMIT};
ghost use Rattle.zq_io.specs.Streams.{Rose};
ghost use Rattle.zq_lines.specs.Split.{lines_of};
ghost use Rattle.zq_script.specs.Script.{script_of};
ghost use Rattle.zq_script.specs.Running.{wrote, IsEnd};
ghost use Rattle.zq_show.specs.Replay.{run_of};
ghost use Rattle.zq_show.specs.Shown.{end_of, has_request, is_numbered, lacks, shown_words, shows_none, words_of, LeavesShown};

use crate::entry::Entry;
use crate::page::BadLine;
use crate::replay::run_of;
use crate::show::{Run, show_mermaid, show_page, show_text};
use crate::words::Form;
use std::alloc::Global;
use zq_io::streams::{Sink, Source};
use zq_io::transfer::{ReadRefusal, read_all, write_all};
use zq_key::memory::OutOfMemory;
use zq_key::text::Bytes;
use zq_machine::call::Outcome;
use zq_script::running::Status;

/// How a run ended: well, or at a bad line.
fn end_of(bad: &Option<BadLine>) -> Status
    ensures { result ≡ end_of bad.now }
{
    match bad {
        Some(_) => Status::Script,
        None => Status::Done,
    }
}

/// Whether an answer gives a request this number.
fn is_numbered(outcome: Outcome, number: u64) -> bool
    ensures { result ≡ is_numbered number outcome }
{
    match outcome {
        Outcome::Asked(asked) => asked == number,
        _ => false,
    }
}

/// Whether a call made a request of this number.
fn has_request(entries: &[Entry], number: u64) -> bool
    ensures { result ≡ has_request number entries.now }
{
    entries
        .iter()
        .any(|entry| is_numbered(entry.step.outcome, number))
}

/// Whether a form is of a request that no call made.
fn lacks(entries: &[Entry], form: Form) -> bool
    ensures { result ≡ lacks form entries.now }
{
    match form {
        Form::Page(Some(number)) | Form::Mermaid(Some(number)) => !has_request(entries, number),
        _ => false,
    }
}

/// A run in a form.
fn words_of(alloc: Global, run: Run, form: Form) -> Result<Bytes, OutOfMemory>
    ensures { IfOk result (λ b. b ≡ words_of form run) }
{
    match form {
        Form::Page(request) => show_page(alloc, run, request),
        Form::Plain(colours) => show_text(alloc, run, colours),
        Form::Mermaid(request) => show_mermaid(alloc, run, request),
    }
}

/// What is shown of a script in a form, and how its run ended; nothing where the form is of a request
/// that no call made.
#[tactic(auto, using(crate::proofs::Ended::ends_as_read), unfolding(crate::specs::Shown::shown_words, crate::specs::Shown::shows_none))]
fn shown(alloc: Global, bytes: &[u8], form: Form) -> Result<Option<(Status, Bytes)>, OutOfMemory>
    ensures none { IfOk result (λ o. is_none o ≡ shows_none form bytes.now) }
    ensures words { IfOk result (λ o. IfSome o (λ t. t.1 ≡ shown_words form bytes.now)) }
    ensures status { IfOk result (λ o. IfSome o (λ t. IsEnd t.0 (script_of 0 (lines_of bytes.now)))) }
{
    let run = run_of(alloc, bytes)?;
    if lacks(run.entries.as_slice(), form) {
        return Ok(None);
    }
    let status = end_of(&run.bad);
    Ok(Some((status, words_of(alloc, run, form)?)))
}

/// Gives what is shown of a script to a sink.
fn give<K: Sink>(alloc: Global, bytes: &[u8], form: Form, sink: &mut K) -> Status
    requires { length bytes.now ≤ LIMIT }
    ensures leaves { LeavesShown result form bytes.now (K.taken sink.old) (K.taken sink.new) }
    ensures fault { result ≡ Status.WriteFault → Rose (K.faults sink.old) (K.faults sink.new) }
    ensures quiet { result ≢ Status.WriteFault → K.faults sink.new ≡ K.faults sink.old }
    ensures unwritten { wrote result ≡ false → sink.new ≡ sink.old }
    ensures ends { (result ≢ Status.ReadFault) × (result ≢ Status.TooLong) × (result ≢ Status.LinkFault) }
{
    let (status, text) = match shown(alloc, bytes, form) {
        Ok(Some(shown)) => shown,
        Ok(None) => return Status::Words,
        Err(_) => return Status::Memory,
    };
    match write_all(sink, text.as_slice()) {
        Ok(()) => status,
        Err(_) => Status::WriteFault,
    }
}

/// Reads a script from the source, and gives its run to the sink, as a page or as text: the whole
/// run, or that of the lines before the first bad line, and that line. Where the form is of a request
/// that no call made, the words are wrong, and nothing is written.
pub fn show<S: Source, K: Sink>(alloc: Global, form: Form, source: &mut S, sink: &mut K) -> Status
    ensures leaves { IfSome (S.left source.old) (λ input. LeavesShown result form input (K.taken sink.old) (K.taken sink.new)) }
    ensures read { result ≡ Status.ReadFault → Rose (S.faults source.old) (S.faults source.new) }
    ensures steady { result ≢ Status.ReadFault → S.faults source.new ≡ S.faults source.old }
    ensures write { result ≡ Status.WriteFault → Rose (K.faults sink.old) (K.faults sink.new) }
    ensures quiet { result ≢ Status.WriteFault → K.faults sink.new ≡ K.faults sink.old }
    ensures unwritten { wrote result ≡ false → sink.new ≡ sink.old }
    ensures ends { result ≢ Status.LinkFault }
{
    match read_all(alloc, source) {
        Ok(bytes) => give(alloc, bytes.as_slice(), form, sink),
        Err(ReadRefusal::ReadFault) => Status::ReadFault,
        Err(ReadRefusal::TooLong) => Status::TooLong,
        Err(ReadRefusal::OutOfMemory) => Status::Memory,
    }
}
