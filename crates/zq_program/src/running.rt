//! The call that the command makes.
ghost use Rattle.std.specs.Prelude.{◌≡◌, ◌≢◌, ◌↔◌, ◌⊎◌, IfOk, IfSome, None, length, map, true};
ghost use Rattle.std.specs.Io.KnownBytes.{IsAtEnd};
ghost use Rattle.zq_machine.specs.Headline.{RunPromise};
ghost use Rattle.zq_trace.specs.Machine.{RunHeadline, RunTold};
ghost use Rattle.zq_io.specs.Streams.{Rose};
ghost use Rattle.zq_lines.specs.Split.{lines_of};
ghost use Rattle.zq_script.specs.Script.{script_of};
ghost use Rattle.zq_script.specs.Running.{EndsWell, IsBad, IsFit, IsReplay, Leaves, LeavesLoad, ReadsBack, Tells, command_of, first_part, load_of};
ghost use Rattle.zq_script.specs.Bad.{Names};
ghost use Rattle.zq_program.specs.Faults.{SomeRose};
ghost use Rattle.zq_program.specs.Words.{sharing_of};
ghost use Rattle.zq_program.specs.Running.{IsFitFor, LeavesShared, is_idle, is_unwritten, is_whole};

use crate::shared_run::share_source;
use crate::words::sharing_of;
use std::alloc::Global;
use std::sync::Wait;
use std::thread::Threads;
use zq_io::streams::{Sink, Source};
use zq_key::text::Text;
use zq_script::running::{RunOutcome, Status, run_outcome};
use zq_shared::Link;

/// What `program` does: it also answers which line is bad, where one is, and why.
pub fn program_outcome<S: Source, K: Sink, L: Link + Send, R: Threads + Wait + Sync>(
    rt: &R,
    alloc: Global,
    words: &[Text],
    source: &mut S,
    sink: &mut K,
    links: &mut [L],
) -> RunOutcome
    ensures words { (result.status ≡ Status.Words) ↔ ((command_of words.now ≡ None) × (sharing_of (length links.old) words.now ≡ None)) }
    ensures untouched { result.status ≡ Status.Words → (source.new ≡ source.old) × (sink.new ≡ sink.old) × (links.new ≡ links.old) }
    ensures alone { sharing_of (length links.old) words.now ≡ None → (result.status ≢ Status.LinkFault) × (links.new ≡ links.old) }
    ensures leaves { IsReplay words.now → IfSome (S.left source.old) (λ input. Leaves result.status input (K.taken sink.old) (K.taken sink.new)) }
    ensures back { IsReplay words.now → IfSome (S.left source.old) (λ input. result.status ≡ Status.Done → IfOk (script_of 0 (lines_of input)) ReadsBack) }
    ensures load { IfSome (load_of words.now) (λ n. (source.new ≡ source.old) × LeavesLoad result.status n (K.taken sink.old) (K.taken sink.new)) }
    ensures shared { IfSome (sharing_of (length links.old) words.now) (λ s. IfSome (S.left source.old) (λ input. LeavesShared s result.status input (K.taken sink.old) (K.taken sink.new))) }
    ensures whole { (load_of words.now ≡ None) → is_whole result.status ≡ true → IsAtEnd (S.left source.new) }
    ensures read { result.status ≡ Status.ReadFault → Rose (S.faults source.old) (S.faults source.new) }
    ensures steady { result.status ≢ Status.ReadFault → S.faults source.new ≡ S.faults source.old }
    ensures write { result.status ≡ Status.WriteFault → Rose (K.faults sink.old) (K.faults sink.new) }
    ensures quiet { result.status ≢ Status.WriteFault → K.faults sink.new ≡ K.faults sink.old }
    ensures unwritten { is_unwritten result.status ≡ true → sink.new ≡ sink.old }
    ensures sent { result.status ≡ Status.Done → map L.faults links.new ≡ map L.faults links.old }
    ensures linked { result.status ≡ Status.LinkFault → SomeRose (map L.faults links.old) (map L.faults links.new) }
    ensures idle { is_idle result.status ≡ true → links.new ≡ links.old }
    ensures unsent { IfSome (sharing_of (length links.old) words.now) (λ s. IfSome (S.left source.old) (λ input. IsBad (script_of s.workers (lines_of input)) → links.new ≡ links.old)) }
    ensures complete { IsReplay words.now → IfSome (S.left source.old) (λ input. IsFit input → (Rose (S.faults source.old) (S.faults source.new) → ⊥) → (Rose (K.faults sink.old) (K.faults sink.new) → ⊥) → EndsWell result.status) }
    ensures completed { IfSome (sharing_of (length links.old) words.now) (λ s. IfSome (S.left source.old) (λ input. IsFitFor s.workers input → (Rose (S.faults source.old) (S.faults source.new) → ⊥) → (Rose (K.faults sink.old) (K.faults sink.new) → ⊥) → (SomeRose (map L.faults links.old) (map L.faults links.new) → ⊥) → EndsWell result.status)) }
    ensures tells { Tells result }
    ensures named { IsReplay words.now → IfSome (S.left source.old) (λ input. IfSome result.bad_line (Names 0 input)) }
    ensures named_shared { IfSome (sharing_of (length links.old) words.now) (λ s. IfSome (S.left source.old) (λ input. IfSome result.bad_line (Names s.workers input))) }
    ensures headline { IfSome (S.left source.old) (λ input. IfOk (script_of 0 (lines_of input)) (λ s. RunHeadline s.config (first_part s.parts))) }
    ensures told { IfSome (S.left source.old) (λ input. IfOk (script_of 0 (lines_of input)) (λ s. RunTold s.config (first_part s.parts))) }
    ensures promise { IfSome (S.left source.old) (λ input. IfOk (script_of 0 (lines_of input)) (λ s. RunPromise s.config (first_part s.parts))) }
{
    match sharing_of(words, links.len()) {
        Some(sharing) => share_source(rt, alloc, sharing, source, sink, links),
        None => run_outcome(alloc, words, source, sink),
    }
}

/// Where the words are `share W SLOTS`, reads a script with at most W lines `worker` from the source; makes the calls of its first part, sent
/// over the first link, and then those behind each line `worker` in a thread of its own, each over a link of its own, all on one gateway with
/// that many slots; and gives the print of the stored calls and of their replay to the sink, by one call. Where they are other words, it is
/// `run`, and nothing is sent.
pub fn program<S: Source, K: Sink, L: Link + Send, R: Threads + Wait + Sync>(
    rt: &R,
    alloc: Global,
    words: &[Text],
    source: &mut S,
    sink: &mut K,
    links: &mut [L],
) -> Status
    ensures words { (result ≡ Status.Words) ↔ ((command_of words.now ≡ None) × (sharing_of (length links.old) words.now ≡ None)) }
    ensures untouched { result ≡ Status.Words → (source.new ≡ source.old) × (sink.new ≡ sink.old) × (links.new ≡ links.old) }
    ensures alone { sharing_of (length links.old) words.now ≡ None → (result ≢ Status.LinkFault) × (links.new ≡ links.old) }
    ensures leaves { IsReplay words.now → IfSome (S.left source.old) (λ input. Leaves result input (K.taken sink.old) (K.taken sink.new)) }
    ensures back { IsReplay words.now → IfSome (S.left source.old) (λ input. result ≡ Status.Done → IfOk (script_of 0 (lines_of input)) ReadsBack) }
    ensures load { IfSome (load_of words.now) (λ n. (source.new ≡ source.old) × LeavesLoad result n (K.taken sink.old) (K.taken sink.new)) }
    ensures shared { IfSome (sharing_of (length links.old) words.now) (λ s. IfSome (S.left source.old) (λ input. LeavesShared s result input (K.taken sink.old) (K.taken sink.new))) }
    ensures whole { (load_of words.now ≡ None) → is_whole result ≡ true → IsAtEnd (S.left source.new) }
    ensures read { result ≡ Status.ReadFault → Rose (S.faults source.old) (S.faults source.new) }
    ensures steady { result ≢ Status.ReadFault → S.faults source.new ≡ S.faults source.old }
    ensures write { result ≡ Status.WriteFault → Rose (K.faults sink.old) (K.faults sink.new) }
    ensures quiet { result ≢ Status.WriteFault → K.faults sink.new ≡ K.faults sink.old }
    ensures unwritten { is_unwritten result ≡ true → sink.new ≡ sink.old }
    ensures sent { result ≡ Status.Done → map L.faults links.new ≡ map L.faults links.old }
    ensures linked { result ≡ Status.LinkFault → SomeRose (map L.faults links.old) (map L.faults links.new) }
    ensures idle { is_idle result ≡ true → links.new ≡ links.old }
    ensures unsent { IfSome (sharing_of (length links.old) words.now) (λ s. IfSome (S.left source.old) (λ input. IsBad (script_of s.workers (lines_of input)) → links.new ≡ links.old)) }
    ensures complete { IsReplay words.now → IfSome (S.left source.old) (λ input. IsFit input → (Rose (S.faults source.old) (S.faults source.new) → ⊥) → (Rose (K.faults sink.old) (K.faults sink.new) → ⊥) → EndsWell result) }
    ensures completed { IfSome (sharing_of (length links.old) words.now) (λ s. IfSome (S.left source.old) (λ input. IsFitFor s.workers input → (Rose (S.faults source.old) (S.faults source.new) → ⊥) → (Rose (K.faults sink.old) (K.faults sink.new) → ⊥) → (SomeRose (map L.faults links.old) (map L.faults links.new) → ⊥) → EndsWell result)) }
    ensures headline { IfSome (S.left source.old) (λ input. IfOk (script_of 0 (lines_of input)) (λ s. RunHeadline s.config (first_part s.parts))) }
    ensures told { IfSome (S.left source.old) (λ input. IfOk (script_of 0 (lines_of input)) (λ s. RunTold s.config (first_part s.parts))) }
    ensures promise { IfSome (S.left source.old) (λ input. IfOk (script_of 0 (lines_of input)) (λ s. RunPromise s.config (first_part s.parts))) }
{
    program_outcome(rt, alloc, words, source, sink, links).status
}
