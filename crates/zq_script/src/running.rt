//! The call that runs a script.
ghost use Rattle.std.specs.Prelude.{◌≡◌, ◌≢◌, ◌↔◌, ◌≤◌, ◌<◌, ◌++◌, ◌∷◌, [], ◌⊎◌, IfOk, IfSome, Some, None, codes, length, false};
ghost use Rattle.std.specs.Fmt.{decimal};
ghost use Rattle.std.specs.Io.KnownBytes.{IsAtEnd};
ghost use Rattle.zq_machine.specs.Headline.{RunPromise};
ghost use Rattle.zq_trace.specs.Machine.{RunHeadline, RunTold};
ghost use Rattle.zq_io.specs.declared.transfer.TheConstants.{LIMIT};
ghost use Rattle.zq_io.specs.Streams.{Rose};
ghost use Rattle.zq_lines.specs.Split.{lines_of};
ghost use Rattle.zq_script.specs.Script.{script_of};
ghost use Rattle.zq_script.specs.Bad.{Names};
ghost use Rattle.zq_script.specs.Running.{amount_of, command_of, load_of, first_part, print_of, EndsWell, IsFit, IsReplay, ReadsBack, IsEnd, Leaves, LeavesLoad, Tells, wrote, status_code};

use crate::bad::{BadLine, bad_line_at};
use crate::print_load;
use crate::printing::print_script;
use crate::refusal::ScriptRefusal;
use std::alloc::Global;
use zq_io::streams::{Sink, Source};
use zq_io::transfer::{ReadRefusal, read_all, write_all};
use zq_io::words::{number, push_number, push_text};
use zq_key::memory::OutOfMemory;
use zq_key::text::{Bytes, Text};

/// How a run ended.
#[derive(Clone, Copy, Debug, PartialEq, Eq)]
pub enum Status {
    /// The whole source was read, and the whole print was taken.
    Done,
    /// The words are no command; nothing was read or written.
    Words,
    /// The source gave no script; the print names the first bad line.
    Script,
    /// The source failed; nothing was written.
    ReadFault,
    /// The sink failed; a front of the print was taken.
    WriteFault,
    /// No memory was found; nothing was written.
    Memory,
    /// The source gave more bytes than a script may have; nothing was written.
    TooLong,
    /// A link failed; no run of this crate ends so.
    LinkFault,
}

impl Status {
    /// The number of the status.
    pub fn code(self) -> u8
        ensures { result ≡ status_code self }
    {
        match self {
            Status::Done => 0,
            Status::Words => 1,
            Status::Script => 2,
            Status::ReadFault => 3,
            Status::WriteFault => 4,
            Status::Memory => 5,
            Status::TooLong => 6,
            Status::LinkFault => 7,
        }
    }
}

/// How a run ended, and the bad line of its script.
#[derive(Debug, Drop)]
pub struct RunOutcome {
    /// How it ended.
    pub status: Status,
    /// The first bad line, where it ended with `Script`.
    pub bad_line: Option<BadLine>,
}

impl RunOutcome {
    /// The end at a bad line.
    pub fn at(bad_line: BadLine) -> RunOutcome
        ensures status { result.status ≡ Status.Script }
        ensures bad_line { result.bad_line ≡ Some bad_line }
    {
        RunOutcome {
            status: Status::Script,
            bad_line: Some(bad_line),
        }
    }

    /// Another end.
    pub fn of(status: Status) -> RunOutcome
        ensures status { result.status ≡ status }
        ensures bad_line { result.bad_line ≡ None }
    {
        RunOutcome {
            status,
            bad_line: None,
        }
    }
}

/// What the words of a run ask for.
#[derive(Clone, Copy)]
pub enum Command {
    /// `replay`: the source is a script, and the steps of its calls are printed.
    Replay,
    /// `load N`: the calls of so many queries are made, and the messages that they hand are counted.
    Load(u16),
}

/// The number of queries of a load: from 1 to 10000, in digits alone, without a leading zero.
#[tactic(auto, unfolding(crate::specs::Running::amount_of))]
fn amount_of(word: &[u8]) -> Option<u16>
    ensures { result ≡ amount_of word.now }
{
    match number(10_000, word)? {
        0 => None,
        amount => Some(amount as u16),
    }
}

/// What the words ask for, if they are a command.
pub fn command_of(words: &[Text]) -> Option<Command>
    ensures { result ≡ command_of words.now }
{
    match words {
        [word] if word.as_str() == "replay" => Some(Command::Replay),
        [word, amount] if word.as_str() == "load" => {
            Some(Command::Load(amount_of(amount.as_str().as_bytes())?))
        }
        _ => None,
    }
}

/// The line that names a bad line.
pub fn print_bad_line(alloc: Global, number: u64) -> Result<Bytes, OutOfMemory>
    ensures { IfOk result (λ b. b ≡ codes "bad line " ++ decimal number ++ 10 ∷ []) }
{
    let mut out = Vec::new(alloc);
    push_text(&mut out, "bad line ")?;
    push_number(&mut out, number)?;
    push_text(&mut out, "\n")?;
    Ok(Bytes::from_vec(out))
}

/// What is printed for the bytes, and how a run ends where the print is taken.
fn print_of(alloc: Global, bytes: &[u8]) -> Result<(RunOutcome, Bytes), OutOfMemory>
    ensures print { IfOk result (λ t. t.1 ≡ print_of bytes.now) }
    ensures back { IfOk result (λ _. IfOk (script_of 0 (lines_of bytes.now)) ReadsBack) }
    ensures status { IfOk result (λ t. IsEnd t.0.status (script_of 0 (lines_of bytes.now))) }
    ensures tells { IfOk result (λ t. Tells t.0) }
    ensures named { IfOk result (λ t. IfSome t.0.bad_line (Names 0 bytes.now)) }
{
    match print_script(alloc, bytes) {
        Ok(print) => Ok((RunOutcome::of(Status::Done), print)),
        Err(ScriptRefusal::BadLine(number)) => {
            let outcome = RunOutcome::at(bad_line_at(alloc, number, bytes)?);
            Ok((outcome, print_bad_line(alloc, number)?))
        }
        Err(ScriptRefusal::OutOfMemory) => Err(OutOfMemory),
    }
}

/// Gives the print for the bytes to the sink.
fn answer<K: Sink>(alloc: Global, bytes: &[u8], sink: &mut K) -> RunOutcome
    requires { length bytes.now ≤ LIMIT }
    ensures leaves { Leaves result.status bytes.now (K.taken sink.old) (K.taken sink.new) }
    ensures back { result.status ≡ Status.Done → IfOk (script_of 0 (lines_of bytes.now)) ReadsBack }
    ensures fault { result.status ≡ Status.WriteFault → Rose (K.faults sink.old) (K.faults sink.new) }
    ensures quiet { result.status ≢ Status.WriteFault → K.faults sink.new ≡ K.faults sink.old }
    ensures later { K.faults sink.old ≤ K.faults sink.new }
    ensures unwritten { wrote result.status ≡ false → sink.new ≡ sink.old }
    ensures tells { Tells result }
    ensures named { IfSome result.bad_line (Names 0 bytes.now) }
    ensures ends { (result.status ≢ Status.Words) × (result.status ≢ Status.ReadFault) × (result.status ≢ Status.TooLong) × (result.status ≢ Status.LinkFault) }
{
    let Ok((outcome, print)) = print_of(alloc, bytes) else {
        return RunOutcome::of(Status::Memory);
    };
    match write_all(sink, print.as_slice()) {
        Ok(()) => outcome,
        Err(_) => RunOutcome::of(Status::WriteFault),
    }
}

/// Reads a script from the source, and gives the print of its steps to the sink.
#[tactic(auto, using(crate::proofs::Completed::read_fails, crate::proofs::Completed::too_long, crate::proofs::Completed::no_memory))]
fn replay<S: Source, K: Sink>(alloc: Global, source: &mut S, sink: &mut K) -> RunOutcome
    ensures leaves { IfSome (S.left source.old) (λ input. Leaves result.status input (K.taken sink.old) (K.taken sink.new)) }
    ensures back { IfSome (S.left source.old) (λ input. result.status ≡ Status.Done → IfOk (script_of 0 (lines_of input)) ReadsBack) }
    ensures whole { (result.status ≡ Status.Done) ⊎ (result.status ≡ Status.Script) → IsAtEnd (S.left source.new) }
    ensures read { result.status ≡ Status.ReadFault → Rose (S.faults source.old) (S.faults source.new) }
    ensures steady { result.status ≢ Status.ReadFault → S.faults source.new ≡ S.faults source.old }
    ensures write { result.status ≡ Status.WriteFault → Rose (K.faults sink.old) (K.faults sink.new) }
    ensures quiet { result.status ≢ Status.WriteFault → K.faults sink.new ≡ K.faults sink.old }
    ensures unwritten { wrote result.status ≡ false → sink.new ≡ sink.old }
    ensures tells { Tells result }
    ensures named { IfSome (S.left source.old) (λ input. IfSome result.bad_line (Names 0 input)) }
    ensures ends { (result.status ≢ Status.Words) × (result.status ≢ Status.LinkFault) }
    ensures complete { IfSome (S.left source.old) (λ input. IsFit input → (Rose (S.faults source.old) (S.faults source.new) → ⊥) → (Rose (K.faults sink.old) (K.faults sink.new) → ⊥) → EndsWell result.status) }
{
    match read_all(alloc, source) {
        Ok(bytes) => answer(alloc, bytes.as_slice(), sink),
        Err(ReadRefusal::ReadFault) => RunOutcome::of(Status::ReadFault),
        Err(ReadRefusal::TooLong) => RunOutcome::of(Status::TooLong),
        Err(ReadRefusal::OutOfMemory) => RunOutcome::of(Status::Memory),
    }
}

/// Makes the calls of a load, and gives the line of what they hand to the sink.
fn load<K: Sink>(alloc: Global, amount: u16, sink: &mut K) -> Status
    ensures leaves { LeavesLoad result amount (K.taken sink.old) (K.taken sink.new) }
    ensures write { result ≡ Status.WriteFault → Rose (K.faults sink.old) (K.faults sink.new) }
    ensures quiet { result ≢ Status.WriteFault → K.faults sink.new ≡ K.faults sink.old }
    ensures unwritten { wrote result ≡ false → sink.new ≡ sink.old }
{
    let Ok(line) = print_load(alloc, amount) else {
        return Status::Memory;
    };
    match write_all(sink, line.as_slice()) {
        Ok(()) => Status::Done,
        Err(_) => Status::WriteFault,
    }
}

/// What `run` does: it also answers which line is bad, where one is, and why.
pub fn run_outcome<S: Source, K: Sink>(
    alloc: Global,
    words: &[Text],
    source: &mut S,
    sink: &mut K,
) -> RunOutcome
    ensures words { (result.status ≡ Status.Words) ↔ (command_of words.now ≡ None) }
    ensures untouched { result.status ≡ Status.Words → (source.new ≡ source.old) × (sink.new ≡ sink.old) }
    ensures leaves { IsReplay words.now → IfSome (S.left source.old) (λ input. Leaves result.status input (K.taken sink.old) (K.taken sink.new)) }
    ensures back { IsReplay words.now → IfSome (S.left source.old) (λ input. result.status ≡ Status.Done → IfOk (script_of 0 (lines_of input)) ReadsBack) }
    ensures whole { IsReplay words.now → (result.status ≡ Status.Done) ⊎ (result.status ≡ Status.Script) → IsAtEnd (S.left source.new) }
    ensures load { IfSome (load_of words.now) (λ n. (source.new ≡ source.old) × LeavesLoad result.status n (K.taken sink.old) (K.taken sink.new)) }
    ensures read { result.status ≡ Status.ReadFault → Rose (S.faults source.old) (S.faults source.new) }
    ensures steady { result.status ≢ Status.ReadFault → S.faults source.new ≡ S.faults source.old }
    ensures write { result.status ≡ Status.WriteFault → Rose (K.faults sink.old) (K.faults sink.new) }
    ensures quiet { result.status ≢ Status.WriteFault → K.faults sink.new ≡ K.faults sink.old }
    ensures unwritten { wrote result.status ≡ false → sink.new ≡ sink.old }
    ensures linked { result.status ≢ Status.LinkFault }
    ensures complete { IsReplay words.now → IfSome (S.left source.old) (λ input. IsFit input → (Rose (S.faults source.old) (S.faults source.new) → ⊥) → (Rose (K.faults sink.old) (K.faults sink.new) → ⊥) → EndsWell result.status) }
    ensures tells { Tells result }
    ensures named { IsReplay words.now → IfSome (S.left source.old) (λ input. IfSome result.bad_line (Names 0 input)) }
    ensures headline { IfSome (S.left source.old) (λ input. IfOk (script_of 0 (lines_of input)) (λ s. RunHeadline s.config (first_part s.parts))) }
    ensures told { IfSome (S.left source.old) (λ input. IfOk (script_of 0 (lines_of input)) (λ s. RunTold s.config (first_part s.parts))) }
    ensures promise { IfSome (S.left source.old) (λ input. IfOk (script_of 0 (lines_of input)) (λ s. RunPromise s.config (first_part s.parts))) }
{
    match command_of(words) {
        Some(Command::Replay) => replay(alloc, source, sink),
        Some(Command::Load(amount)) => RunOutcome::of(load(alloc, amount, sink)),
        None => RunOutcome::of(Status::Words),
    }
}

/// Where the words are `replay`, reads a script from the source, and gives the print of its steps
/// to the sink: each line is read, answered and printed before the next, and the whole print is
/// given at the end, so that a bad line anywhere leaves its number alone. Where they are `load N`,
/// makes the calls of N queries, and gives one line of what they hand to the sink; nothing is read.
/// The steps keep what each run promises.
pub fn run<S: Source, K: Sink>(
    alloc: Global,
    words: &[Text],
    source: &mut S,
    sink: &mut K,
) -> Status
    ensures words { (result ≡ Status.Words) ↔ (command_of words.now ≡ None) }
    ensures untouched { result ≡ Status.Words → (source.new ≡ source.old) × (sink.new ≡ sink.old) }
    ensures leaves { IsReplay words.now → IfSome (S.left source.old) (λ input. Leaves result input (K.taken sink.old) (K.taken sink.new)) }
    ensures back { IsReplay words.now → IfSome (S.left source.old) (λ input. result ≡ Status.Done → IfOk (script_of 0 (lines_of input)) ReadsBack) }
    ensures whole { IsReplay words.now → (result ≡ Status.Done) ⊎ (result ≡ Status.Script) → IsAtEnd (S.left source.new) }
    ensures load { IfSome (load_of words.now) (λ n. (source.new ≡ source.old) × LeavesLoad result n (K.taken sink.old) (K.taken sink.new)) }
    ensures read { result ≡ Status.ReadFault → Rose (S.faults source.old) (S.faults source.new) }
    ensures steady { result ≢ Status.ReadFault → S.faults source.new ≡ S.faults source.old }
    ensures write { result ≡ Status.WriteFault → Rose (K.faults sink.old) (K.faults sink.new) }
    ensures quiet { result ≢ Status.WriteFault → K.faults sink.new ≡ K.faults sink.old }
    ensures unwritten { wrote result ≡ false → sink.new ≡ sink.old }
    ensures linked { result ≢ Status.LinkFault }
    ensures complete { IsReplay words.now → IfSome (S.left source.old) (λ input. IsFit input → (Rose (S.faults source.old) (S.faults source.new) → ⊥) → (Rose (K.faults sink.old) (K.faults sink.new) → ⊥) → EndsWell result) }
    ensures headline { IfSome (S.left source.old) (λ input. IfOk (script_of 0 (lines_of input)) (λ s. RunHeadline s.config (first_part s.parts))) }
    ensures told { IfSome (S.left source.old) (λ input. IfOk (script_of 0 (lines_of input)) (λ s. RunTold s.config (first_part s.parts))) }
    ensures promise { IfSome (S.left source.old) (λ input. IfOk (script_of 0 (lines_of input)) (λ s. RunPromise s.config (first_part s.parts))) }
{
    run_outcome(alloc, words, source, sink).status
}
