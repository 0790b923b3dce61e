//! A script is read line by line and its calls are made, and what each gave is kept to be shown.
ghost use Rattle.std.specs.Prelude.{◌≡◌, ◌<◌, ◌+◌, ◌^◌, [], IfOk, None, Ok, OnOk, length, false, true};
ghost use Rattle.std.specs.Option.{option_map};
ghost use Rattle.zq_lines.specs.Split.{lines_of};
ghost use Rattle.zq_script.specs.Script.{script_call, script_of};
ghost use Rattle.zq_show.specs.Replay.{asking, bad_from, bad_line, begun, ended_from, entries_from, entry_of, first_line, given, judgement_of, key_of, next, run_of, seen_next, unreached_of, written, Adds, Shows};
ghost use Rattle.zq_show.specs.Seen.{no_faces};
ghost use Rattle.zq_show.specs.Standing.{standing};

use crate::entry::{Entry, EntryList};
use crate::machine::Machine;
use crate::page::{BadLine, BytesList};
use crate::reasons::{Judgement, judged_for, no_judgement};
use crate::seen::Seen;
use crate::show::Run;
use crate::unreached::unreached_for;
use std::alloc::Global;
use zq_hat::RouterEntryList;
use zq_io::stop::Stop;
use zq_key::items::Items;
use zq_key::memory::OutOfMemory;
use zq_key::message::{FaceId, Request, WireExpr};
use zq_key::text::{Bytes, Text};
use zq_lines::split::next_line;
use zq_lines::why::why;
use zq_machine::call::{Call, Step};
use zq_machine::config::Config;
use zq_script::head::head_of;
use zq_script::refusal::ScriptRefusal;
use zq_script::script::script_call;

/// Who asks what, if the call is a request.
fn asking(call: &Call) -> Option<(FaceId, &Request)>
    ensures { option_map (λ t. (t.0, t.1.now)) result ≡ asking call.now }
{
    match call {
        Call::Request { face, request, .. } => Some((*face, request)),
        _ => None,
    }
}

/// The expression of a call that has one, and the face that writes it.
fn written(call: &Call) -> Option<(FaceId, &WireExpr)>
    ensures { option_map (λ t. (t.0, t.1.now)) result ≡ written call.now }
{
    match call {
        Call::DeclareKeyExpr { face, wire, .. } | Call::DeclareQueryable { face, wire, .. } => {
            Some((*face, wire))
        }
        Call::UndeclareQueryable { face, wire, .. } | Call::Interest { face, wire, .. } => {
            match wire {
                Some(wire) => Some((*face, wire)),
                None => None,
            }
        }
        Call::Request { face, request, .. } => Some((*face, &request.wire)),
        Call::Response { face, response } => Some((*face, &response.wire)),
        _ => None,
    }
}

/// The key that a call's expression says, where it has one that says a key.
#[tactic(auto, unfolding(crate::specs::Replay::key_of))]
fn key_of(seen: &Seen, call: &Call) -> Result<Option<Text>, OutOfMemory>
    ensures { IfOk result (λ k. k ≡ key_of seen.now call.now) }
{
    match written(call) {
        Some((face, wire)) => seen.key_said(face, wire),
        None => Ok(None),
    }
}

/// What comes of a call's choice, if it is a request.
#[tactic(auto, unfolding(crate::specs::Replay::judgement_of))]
fn judgement_of(
    alloc: Global,
    machine: &Machine,
    seen: &Seen,
    call: &Call,
) -> Result<Judgement, OutOfMemory>
    ensures { IfOk result (λ j. j ≡ judgement_of machine.now seen.now call.now) }
{
    match asking(call) {
        Some((face, request)) => {
            judged_for(seen, machine.hats(), machine.config(), face, request)
        }
        None => Ok(no_judgement(alloc)),
    }
}

/// The entries of routers that a call does not reach, if it is a request.
#[tactic(auto, unfolding(crate::specs::Replay::unreached_of))]
fn unreached_of(
    alloc: Global,
    machine: &Machine,
    seen: &Seen,
    call: &Call,
) -> Result<RouterEntryList, OutOfMemory>
    ensures { IfOk result (λ l. l ≡ unreached_of machine.now seen.now call.now) }
{
    match asking(call) {
        Some((face, request)) => unreached_for(seen, machine.hats(), machine.own(), face, request),
        None => Ok(Items::new(alloc)),
    }
}

/// Makes a call, and takes note of it.
#[tactic(auto, unfolding(crate::specs::Replay::seen_next))]
fn make(machine: &mut Machine, seen: &mut Seen, call: &Call) -> Result<Step, OutOfMemory>
    ensures step { IfOk result (λ t. t ≡ given machine.old call.now) }
    ensures after { OnOk result (machine.new ≡ next machine.old call.now) }
    ensures seen { OnOk result (seen.new ≡ seen_next machine.old seen.old call.now) }
{
    let gone = seen.withdrawn(machine.hats(), call)?;
    let step = machine.call(call)?;
    seen.notice(machine.hats(), &gone, call, &step)?;
    Ok(step)
}

/// Makes a call, and keeps what it gave, and what came of its choice.
fn entry_of(
    alloc: Global,
    machine: &mut Machine,
    seen: &mut Seen,
    number: u64,
    line: &[u8],
    call: Call,
) -> Result<Entry, OutOfMemory>
    ensures entry { IfOk result (λ e. e ≡ entry_of machine.old seen.old number line.now call) }
    ensures after { OnOk result (machine.new ≡ next machine.old call) }
    ensures seen { OnOk result (seen.new ≡ seen_next machine.old seen.old call) }
{
    let best = machine.config().best();
    let judgement = judgement_of(alloc, machine, seen, &call)?;
    let unreached = unreached_of(alloc, machine, seen, &call)?;
    let key = key_of(seen, &call)?;
    let step = make(machine, seen, &call)?;
    let text = Bytes::new(alloc, line)?;
    Ok(Entry {
        number,
        text,
        call,
        key,
        step,
        best,
        judgement,
        unreached,
    })
}

/// The call of a line, if it is one.
fn call_at(alloc: Global, line: &[u8]) -> Result<Option<Call>, OutOfMemory>
    ensures { IfOk result (λ o. o ≡ script_call false line.now) }
{
    match script_call(alloc, false, line) {
        Ok(call) => Ok(Some(call)),
        Err(Stop::Bad) => Ok(None),
        Err(Stop::OutOfMemory) => Err(OutOfMemory),
    }
}

/// The line of a number that could not be read, and what was expected there.
fn bad_line(alloc: Global, number: u64, line: &[u8]) -> Result<BadLine, OutOfMemory>
    ensures { IfOk result (λ b. b ≡ bad_line number line.now) }
{
    Ok(BadLine {
        number,
        text: Bytes::new(alloc, line)?,
        reason: why(alloc, number, line)?,
    })
}

/// Makes the call of a line, and adds what it gave; false where the line is no call.
fn push_line(
    alloc: Global,
    machine: &mut Machine,
    seen: &mut Seen,
    entries: &mut EntryList,
    number: u64,
    line: &[u8],
) -> Result<bool, OutOfMemory>
    ensures called { result ≡ Ok true → Adds number line.now machine.old seen.old entries.old machine.new seen.new entries.new }
    ensures bad { result ≡ Ok false → (script_call false line.now ≡ None) × (entries.new ≡ entries.old) }
    ensures still { result ≡ Ok false → machine.new ≡ machine.old }
{
    match call_at(alloc, line)? {
        Some(call) => {
            let entry = entry_of(alloc, machine, seen, number, line, call)?;
            entries.push(entry)?;
            Ok(true)
        }
        None => Ok(false),
    }
}

/// The calls of the lines with what they gave, the lines numbered from `first` on, and the first
/// line that is no call, if there is one: it ends them.
fn entries_from(
    alloc: Global,
    machine: &mut Machine,
    seen: &mut Seen,
    first: u64,
    bytes: &[u8],
) -> Result<(EntryList, Option<BadLine>), OutOfMemory>
    requires { first + length bytes.now < 2 ^ 64 }
    ensures entries { IfOk result (λ t. t.0 ≡ entries_from first machine.old seen.old (lines_of bytes.now)) }
    ensures bad { IfOk result (λ t. t.1 ≡ bad_from first (lines_of bytes.now)) }
    ensures after { OnOk result (machine.new ≡ ended_from machine.old (lines_of bytes.now)) }
{
    let mut entries = Items::new(alloc);
    let mut number = first;
    let mut rest = bytes;
    'lines: while let Some((line, after)) = next_line(rest) {
        if !push_line(alloc, machine, seen, &mut entries, number, line)? {
            let bad = bad_line(alloc, number, line)?;
            return Ok((entries, Some(bad)));
        }
        number += 1;
        rest = after;
    }
    Ok((entries, None))
}

/// Calls with what they gave, the line that ended them, if one did, and what stands behind them.
#[derive(Drop)]
struct Made {
    entries: EntryList,
    bad: Option<BadLine>,
    stands: BytesList,
}

/// The calls of the lines from a new gateway of a configuration on.
fn entries_of(alloc: Global, config: &Config, first: u64, bytes: &[u8]) -> Result<Made, OutOfMemory>
    requires { first + length bytes.now < 2 ^ 64 }
    ensures entries { IfOk result (λ m. m.entries ≡ entries_from first (begun config.now) no_faces (lines_of bytes.now)) }
    ensures bad { IfOk result (λ m. m.bad ≡ bad_from first (lines_of bytes.now)) }
    ensures stands { IfOk result (λ m. m.stands ≡ standing (ended_from (begun config.now) (lines_of bytes.now))) }
{
    let mut machine = Machine::new(alloc, config)?;
    let mut seen = Seen::new(alloc)?;
    let (entries, bad) = entries_from(alloc, &mut machine, &mut seen, first, bytes)?;
    Ok(Made {
        entries,
        bad,
        stands: machine.standing(alloc)?,
    })
}

/// The lines that bytes are.
pub(crate) fn lines(alloc: Global, bytes: &[u8]) -> Result<BytesList, OutOfMemory>
    ensures { IfOk result (λ l. l ≡ lines_of bytes.now) }
{
    let mut read = Items::new(alloc);
    let mut rest = bytes;
    'lines: while let Some((line, after)) = next_line(rest) {
        read.push(Bytes::new(alloc, line)?)?;
        rest = after;
    }
    Ok(read)
}

/// The first line, empty where there is none.
fn first_line(bytes: &[u8]) -> &[u8]
    ensures { result.now ≡ first_line (lines_of bytes.now) }
{
    match next_line(bytes) {
        Some((line, _)) => line,
        None => &[],
    }
}

/// The run of bytes of which the first line is bad.
fn headless(alloc: Global, number: u64, bytes: &[u8]) -> Result<Run, OutOfMemory>
    ensures { IfOk result (λ r. r ≡ record { head = []; timeout = 0; entries = []; bad = Some (bad_line number (first_line (lines_of bytes.now))); stands = [] }) }
{
    Ok(Run {
        head: Items::new(alloc),
        timeout: 0,
        entries: Items::new(alloc),
        bad: Some(bad_line(alloc, number, first_line(bytes))?),
        stands: Items::new(alloc),
    })
}

/// The run of bytes: of the whole script, or of the lines before the first bad one, and that line.
/// Each call stands with the step that a gateway answered it, one after another.
#[tactic(auto, using(crate::proofs::Replayed::run_headed, crate::proofs::Replayed::run_headless, crate::proofs::Replayed::run_shows))]
pub fn run_of(alloc: Global, bytes: &[u8]) -> Result<Run, OutOfMemory>
    ensures run { IfOk result (λ r. r ≡ run_of (lines_of bytes.now)) }
    ensures script { IfOk result (λ r. Shows r (script_of 0 (lines_of bytes.now))) }
{
    match head_of(alloc, bytes) {
        Ok((config, head, first, rest)) => {
            let Made {
                entries,
                bad,
                stands,
            } = entries_of(alloc, &config, first, rest)?;
            Ok(Run {
                head: lines(alloc, head.as_slice())?,
                timeout: config.timeout(),
                entries,
                bad,
                stands,
            })
        }
        Err(ScriptRefusal::BadLine(number)) => headless(alloc, number, bytes),
        Err(ScriptRefusal::OutOfMemory) => Err(OutOfMemory),
    }
}
