//! A shared run of a script.
ghost use Rattle.std.specs.Prelude.{◌≡◌, ◌≢◌, ◌<◌, ◌≤◌, ◌+◌, IfOk, IfSome, length, map, true};
ghost use Rattle.std.specs.Io.KnownBytes.{IsAtEnd};
ghost use Rattle.zq_io.specs.declared.transfer.TheConstants.{LIMIT};
ghost use Rattle.zq_io.specs.Streams.{Rose};
ghost use Rattle.zq_lines.specs.Split.{lines_of};
ghost use Rattle.zq_script.specs.Script.{script_of};
ghost use Rattle.zq_script.specs.Running.{EndsWell, IsBad, IsScript, Tells};
ghost use Rattle.zq_script.specs.Bad.{Names};
ghost use Rattle.zq_program.specs.Faults.{HaveFaults, SomeRose};
ghost use Rattle.zq_program.specs.Words.{IsSharing};
ghost use Rattle.zq_program.specs.Parts.{ArePartsFor};
ghost use Rattle.zq_program.specs.SharedPrinting.{IsSharedPrint, MayPrint};
ghost use Rattle.zq_program.specs.Running.{IsFitFor, IsSharedEnd, LeavesShared, end_of, is_idle, is_unwritten, is_whole};

use crate::parts::read_shared;
use crate::printing::print_shared;
use crate::share;
use crate::words::Sharing;
use std::alloc::Global;
use std::sync::Wait;
use std::thread::Threads;
use zq_io::streams::{Sink, Source};
use zq_io::transfer::{ReadRefusal, read_all, write_all};
use zq_key::memory::OutOfMemory;
use zq_key::text::Bytes;
use zq_script::bad::bad_line_at;
use zq_script::refusal::ScriptRefusal;
use zq_script::running::{RunOutcome, Status, print_bad_line};
use zq_script::script::Script;
use zq_shared::Link;

/// Makes the calls of the script's parts, and prints what is stored then; it also answers whether no link failed.
#[tactic(auto, using(zq_machine::proofs::Kept::headline))]
fn share_script<L: Link + Send, R: Threads + Wait + Sync>(
    rt: &R,
    alloc: Global,
    sharing: Sharing,
    script: Script,
    links: &mut [L],
) -> Result<(Bytes, bool), OutOfMemory>
    requires bounds { IsSharing (length links.old) sharing }
    requires parts { ArePartsFor sharing.workers script.parts }
    ensures print { IfOk result (λ t. IsSharedPrint sharing.slots script t.0) }
    ensures faults { IfOk result (λ t. HaveFaults t.1 (map L.faults links.old) (map L.faults links.new)) }
{
    let Script {
        head,
        config,
        parts,
    } = script;
    let (shared, sent) = share(rt, alloc, &config, sharing.slots, parts.into_vec(), links)?;
    let print = print_shared(alloc, head.as_slice(), shared.config(), shared.calls());
    drop(shared);
    Ok((print?, sent))
}

/// The status of a shared run whose print is taken.
fn end_of(sent: bool) -> Status
    ensures { result ≡ end_of sent }
{
    if sent {
        Status::Done
    } else {
        Status::LinkFault
    }
}

/// What is printed for the bytes, and how the run ends where the print is taken.
fn print_of<L: Link + Send, R: Threads + Wait + Sync>(
    rt: &R,
    alloc: Global,
    sharing: Sharing,
    bytes: &[u8],
    links: &mut [L],
) -> Result<(RunOutcome, Bytes), OutOfMemory>
    requires bounds { IsSharing (length links.old) sharing }
    ensures print { IfOk result (λ t. MayPrint sharing.slots (script_of sharing.workers (lines_of bytes.now)) t.1) }
    ensures status { IfOk result (λ t. IsSharedEnd t.0.status (script_of sharing.workers (lines_of bytes.now))) }
    ensures tells { IfOk result (λ t. Tells t.0) }
    ensures named { IfOk result (λ t. IfSome t.0.bad_line (Names sharing.workers bytes.now)) }
    ensures sent { IfOk result (λ t. t.0.status ≡ Status.Done → map L.faults links.new ≡ map L.faults links.old) }
    ensures linked { IfOk result (λ t. t.0.status ≡ Status.LinkFault → SomeRose (map L.faults links.old) (map L.faults links.new)) }
    ensures idle { IfOk result (λ t. is_idle t.0.status ≡ true → links.new ≡ links.old) }
    ensures unsent { IsBad (script_of sharing.workers (lines_of bytes.now)) → links.new ≡ links.old }
{
    match read_shared(alloc, bytes, sharing.workers) {
        Ok(script) => {
            let (print, sent) = share_script(rt, alloc, sharing, script, links)?;
            Ok((RunOutcome::of(end_of(sent)), print))
        }
        Err(ScriptRefusal::BadLine(number)) => {
            let outcome = RunOutcome::at(bad_line_at(alloc, number, bytes)?);
            Ok((outcome, print_bad_line(alloc, number)?))
        }
        Err(ScriptRefusal::OutOfMemory) => Err(OutOfMemory),
    }
}

/// Gives the print for the bytes to the sink, by one call.
#[tactic(auto, using(crate::proofs::Completed::answered))]
fn answer<K: Sink, L: Link + Send, R: Threads + Wait + Sync>(
    rt: &R,
    alloc: Global,
    sharing: Sharing,
    bytes: &[u8],
    sink: &mut K,
    links: &mut [L],
) -> RunOutcome
    requires bounds { IsSharing (length links.old) sharing }
    requires limit { length bytes.now ≤ LIMIT }
    ensures leaves { LeavesShared sharing result.status bytes.now (K.taken sink.old) (K.taken sink.new) }
    ensures write { result.status ≡ Status.WriteFault → Rose (K.faults sink.old) (K.faults sink.new) }
    ensures quiet { result.status ≢ Status.WriteFault → K.faults sink.new ≡ K.faults sink.old }
    ensures unwritten { is_unwritten result.status ≡ true → sink.new ≡ sink.old }
    ensures sent { result.status ≡ Status.Done → map L.faults links.new ≡ map L.faults links.old }
    ensures linked { result.status ≡ Status.LinkFault → SomeRose (map L.faults links.old) (map L.faults links.new) }
    ensures idle { is_idle result.status ≡ true → links.new ≡ links.old }
    ensures unsent { IsBad (script_of sharing.workers (lines_of bytes.now)) → links.new ≡ links.old }
    ensures tells { Tells result }
    ensures named { IfSome result.bad_line (Names sharing.workers bytes.now) }
    ensures ends { (result.status ≢ Status.Words) × (result.status ≢ Status.ReadFault) × (result.status ≢ Status.TooLong) }
    ensures complete { IsScript (script_of sharing.workers (lines_of bytes.now)) → (Rose (K.faults sink.old) (K.faults sink.new) → ⊥) → (SomeRose (map L.faults links.old) (map L.faults links.new) → ⊥) → EndsWell result.status }
{
    let Ok((outcome, print)) = print_of(rt, alloc, sharing, bytes, links) else {
        return RunOutcome::of(Status::Memory);
    };
    match write_all(sink, print.as_slice()) {
        Ok(()) => outcome,
        Err(_) => RunOutcome::of(Status::WriteFault),
    }
}

/// Reads a script from the source, lets workers make its calls on one gateway, and gives the print of what is stored then to the sink.
#[tactic(auto, using(crate::proofs::Completed::read_fails, crate::proofs::Completed::too_long, crate::proofs::Completed::no_memory, crate::proofs::Completed::none_sent))]
pub(crate) fn share_source<S: Source, K: Sink, L: Link + Send, R: Threads + Wait + Sync>(
    rt: &R,
    alloc: Global,
    sharing: Sharing,
    source: &mut S,
    sink: &mut K,
    links: &mut [L],
) -> RunOutcome
    requires bounds { IsSharing (length links.old) sharing }
    ensures leaves { IfSome (S.left source.old) (λ input. LeavesShared sharing result.status input (K.taken sink.old) (K.taken sink.new)) }
    ensures whole { is_whole result.status ≡ true → IsAtEnd (S.left source.new) }
    ensures read { result.status ≡ Status.ReadFault → Rose (S.faults source.old) (S.faults source.new) }
    ensures steady { result.status ≢ Status.ReadFault → S.faults source.new ≡ S.faults source.old }
    ensures write { result.status ≡ Status.WriteFault → Rose (K.faults sink.old) (K.faults sink.new) }
    ensures quiet { result.status ≢ Status.WriteFault → K.faults sink.new ≡ K.faults sink.old }
    ensures unwritten { is_unwritten result.status ≡ true → sink.new ≡ sink.old }
    ensures sent { result.status ≡ Status.Done → map L.faults links.new ≡ map L.faults links.old }
    ensures linked { result.status ≡ Status.LinkFault → SomeRose (map L.faults links.old) (map L.faults links.new) }
    ensures idle { is_idle result.status ≡ true → links.new ≡ links.old }
    ensures unsent { IfSome (S.left source.old) (λ input. IsBad (script_of sharing.workers (lines_of input)) → links.new ≡ links.old) }
    ensures tells { Tells result }
    ensures named { IfSome (S.left source.old) (λ input. IfSome result.bad_line (Names sharing.workers input)) }
    ensures ends { result.status ≢ Status.Words }
    ensures complete { IfSome (S.left source.old) (λ input. IsFitFor sharing.workers input → (Rose (S.faults source.old) (S.faults source.new) → ⊥) → (Rose (K.faults sink.old) (K.faults sink.new) → ⊥) → (SomeRose (map L.faults links.old) (map L.faults links.new) → ⊥) → EndsWell result.status) }
{
    match read_all(alloc, source) {
        Ok(bytes) => answer(rt, alloc, sharing, bytes.as_slice(), sink, links),
        Err(ReadRefusal::ReadFault) => RunOutcome::of(Status::ReadFault),
        Err(ReadRefusal::TooLong) => RunOutcome::of(Status::TooLong),
        Err(ReadRefusal::OutOfMemory) => RunOutcome::of(Status::Memory),
    }
}
