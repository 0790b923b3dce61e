//! A gateway that answers each line at once.
ghost use Rattle.std.specs.Prelude.{◌≡◌, ◌≢◌, IfOk, IfSome, OnOk};
ghost use Rattle.zq_io.specs.Streams.{Rose};
ghost use Rattle.zq_machine.specs.Headline.{RunPromise};
ghost use Rattle.zq_trace.specs.Machine.{RunHeadline, RunTold};
ghost use Rattle.zq_lines.specs.Split.{lines_of};
ghost use Rattle.zq_script.specs.Live.{LeavesLive, IsReplayed, answer_words, answers, bad_words, end_of, good_lines, printed_step};
ghost use Rattle.zq_script.specs.Running.{first_part};
ghost use Rattle.zq_script.specs.Script.{script_of};
ghost use Rattle.zq_script.specs.Conversation.{fresh, taken, then};

use crate::bad::{BadLine, push_bad_line};
use crate::conversation::Conversation;
use crate::reading::read_line;
use crate::running::Status;
use std::alloc::{AllocError, Global};
use zq_io::stop::Stop;
use zq_io::streams::{Sink, Source};
use zq_io::transfer::{ReadRefusal, write_all};
use zq_key::memory::OutOfMemory;
use zq_key::text::Bytes;
use zq_lines::steps::push_step;
use zq_lines::why::why;
use zq_machine::call::Step;

/// The print of a step, if there is one.
fn print_step(alloc: Global, step: &Option<Step>) -> Result<Bytes, OutOfMemory>
    ensures { IfOk result (λ b. b ≡ printed_step step.now) }
{
    let mut print = Vec::new(alloc);
    if let Some(step) = step {
        push_step(&mut print, step)?;
    }
    Ok(Bytes::from_vec(print))
}

/// Why a line of a number is bad, where the line of a place of a script was to come.
fn print_bad(alloc: Global, number: u64, place: u64, line: &[u8]) -> Result<Bytes, OutOfMemory>
    ensures { IfOk result (λ b. b ≡ bad_words number place line.now) }
{
    let reason = why(alloc, place, line)?;
    let mut print = Vec::new(alloc);
    push_bad_line(&mut print, &BadLine { number, reason })?;
    Ok(Bytes::from_vec(print))
}

/// Gives a conversation the line of a number, and answers what is written for it.
fn answer_line(
    alloc: Global,
    conversation: &mut Conversation,
    number: u64,
    line: &[u8],
) -> Result<Bytes, OutOfMemory>
    ensures words { IfOk result (λ b. b ≡ answer_words number conversation.old line.now (taken conversation.old line.now)) }
    ensures then { OnOk result (conversation.new ≡ then conversation.old (taken conversation.old line.now)) }
{
    let place = conversation.place();
    match conversation.take(alloc, line) {
        Ok(step) => print_step(alloc, &step),
        Err(Stop::Bad) => print_bad(alloc, number, place, line),
        Err(Stop::OutOfMemory) => Err(OutOfMemory),
    }
}

/// How it ends where the source gave no line.
fn end_of(refusal: ReadRefusal) -> Status
    ensures { result ≡ end_of refusal }
{
    match refusal {
        ReadRefusal::ReadFault => Status::ReadFault,
        ReadRefusal::TooLong => Status::TooLong,
        ReadRefusal::OutOfMemory => Status::Memory,
    }
}

/// Gives a conversation the lines of a source, and a sink the answer to each before the next is read.
fn converse<S: Source, K: Sink>(
    alloc: Global,
    conversation: &mut Conversation,
    source: &mut S,
    sink: &mut K,
) -> Status
    requires { conversation.old ≡ fresh }
    ensures leaves { LeavesLive result (S.left source.old) (S.left source.new) (K.taken sink.old) (K.taken sink.new) }
    ensures read { result ≡ Status.ReadFault → Rose (S.faults source.old) (S.faults source.new) }
    ensures steady { result ≢ Status.ReadFault → S.faults source.new ≡ S.faults source.old }
    ensures write { result ≡ Status.WriteFault → Rose (K.faults sink.old) (K.faults sink.new) }
    ensures quiet { result ≢ Status.WriteFault → K.faults sink.new ≡ K.faults sink.old }
{
    let mut line = Vec::new(alloc);
    for number in 1..u64::MAX {
        match read_line(source, &mut line) {
            Ok(true) => {}
            Ok(false) => return Status::Done,
            Err(refusal) => return end_of(refusal),
        }
        let Ok(words) = answer_line(alloc, conversation, number, line.as_slice()) else {
            return Status::Memory;
        };
        if write_all(sink, words.as_slice()).is_err() {
            return Status::WriteFault;
        }
    }
    Status::TooLong
}

/// Answers each line of a source at once: a line is read, its call is made, and the print of its
/// step is given to the sink, before any byte of the next line is read. A bad line is answered
/// `bad line N: why`, and changes nothing. It ends with the source. The lines that were taken are a
/// script, what they were answered is what `run` prints for it, and its steps keep what each run
/// promises.
pub fn live<S: Source, K: Sink>(alloc: Global, source: &mut S, sink: &mut K) -> Status
    ensures leaves { LeavesLive result (S.left source.old) (S.left source.new) (K.taken sink.old) (K.taken sink.new) }
    ensures replayed { IfSome (S.left source.old) (λ input. IsReplayed (answers 1 fresh (lines_of input))) }
    ensures read { result ≡ Status.ReadFault → Rose (S.faults source.old) (S.faults source.new) }
    ensures steady { result ≢ Status.ReadFault → S.faults source.new ≡ S.faults source.old }
    ensures write { result ≡ Status.WriteFault → Rose (K.faults sink.old) (K.faults sink.new) }
    ensures quiet { result ≢ Status.WriteFault → K.faults sink.new ≡ K.faults sink.old }
    ensures headline { IfSome (S.left source.old) (λ input. IfOk (script_of 0 (good_lines (answers 1 fresh (lines_of input)))) (λ s. RunHeadline s.config (first_part s.parts))) }
    ensures told { IfSome (S.left source.old) (λ input. IfOk (script_of 0 (good_lines (answers 1 fresh (lines_of input)))) (λ s. RunTold s.config (first_part s.parts))) }
    ensures promise { IfSome (S.left source.old) (λ input. IfOk (script_of 0 (good_lines (answers 1 fresh (lines_of input)))) (λ s. RunPromise s.config (first_part s.parts))) }
{
    let mut conversation = Conversation::new();
    let status = converse(alloc, &mut conversation, source, sink);
    drop(conversation);
    status
}
