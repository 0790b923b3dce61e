//! Scripts whose calls can be moved, and the print of their runs in a namespace.
ghost use Rattle.std.specs.Prelude.{◌≡◌, ◌<◌, ◌+◌, ◌^◌, ◌++◌, true, IfOk, OnOk, IsTrue, MatchResult, Ok, length};
ghost use Rattle.zq_key.specs.Key.{is_plain};
ghost use Rattle.zq_lines.specs.Split.{lines_of};
ghost use Rattle.zq_machine.specs.Machine.{steps};
ghost use Rattle.zq_moved.specs.Moving.{can_move, can_move_call};
ghost use Rattle.zq_moved.specs.Received.{received as received_by};
ghost use Rattle.zq_script.specs.Script.{Gives, Refuses};
ghost use Rattle.zq_session.specs.Session.{call_in, calls_from, face_words, inside_words, message_line, opened_words, run_words, session_of};
ghost use Rattle.zq_io.specs.Words.{Reads};

use crate::inside::replay_in;
use std::alloc::Global;
use zq_io::stop::Stop;
use zq_io::words::{push_number, push_text};
use zq_key::Key;
use zq_key::items::Items;
use zq_key::memory::OutOfMemory;
use zq_key::message::{FaceId, Message};
use zq_key::text::Bytes;
use zq_lines::split::next_line;
use zq_machine::call::{Call, Outcome, Step};
use zq_machine::config::Config;
use zq_moved::moving::can_move_call;
use zq_moved::received;
use zq_script::head::head_of;
use zq_script::print_message;
use zq_script::refusal::{ScriptRefusal, at_line};
use zq_script::script::{CallList, script_call};

/// The call of a line, which has to be one that can be moved.
fn call_in(alloc: Global, line: &[u8]) -> Result<Call, Stop>
    ensures value { Reads result (call_in line.now) }
    ensures moves { IfOk result (λ c. can_move_call c ≡ true) }
{
    let call = script_call(alloc, false, line)?;
    if can_move_call(&call) {
        Ok(call)
    } else {
        Err(Stop::Bad)
    }
}

/// The calls of the lines, numbered from `first` on.
#[tactic(auto, using(crate::proofs::Sessions::call_put, crate::proofs::Sessions::one_more))]
fn calls_of(alloc: Global, first: u64, bytes: &[u8]) -> Result<CallList, ScriptRefusal>
    requires { first + length bytes.now < 2 ^ 64 }
    ensures value { Gives result (calls_from first (lines_of bytes.now)) }
    ensures moves { IfOk result (λ l. can_move l ≡ true) }
{
    let mut calls: CallList = Items::new(alloc);
    let mut number = first;
    let mut rest = bytes;
    'lines: while let Some((line, after)) = next_line(rest) {
        calls.push(at_line(number, call_in(alloc, line))?)?;
        number += 1;
        rest = after;
    }
    Ok(calls)
}

/// The configuration and the calls of a script whose calls can all be moved. Refused is the first bad line, as
/// which counts a call that cannot be moved.
pub fn read_session(alloc: Global, bytes: &[u8]) -> Result<(Config, CallList), ScriptRefusal>
    ensures value { MatchResult result (λ t. session_of (lines_of bytes.now) ≡ Ok (t.0, t.1)) (λ e. Refuses e (session_of (lines_of bytes.now))) }
    ensures moves { IfOk result (λ t. can_move t.1 ≡ true) }
{
    let (config, _, number, rest) = head_of(alloc, bytes)?;
    let calls = calls_of(alloc, number, rest)?;
    Ok((config, calls))
}

/// Writes a message on a line of its own.
fn push_message(alloc: Global, out: &mut Vec<u8>, message: &Message) -> Result<(), OutOfMemory>
    ensures { OnOk result (out.new.items ≡ out.old.items ++ message_line message.now) }
{
    let words = print_message(alloc, message)?;
    out.extend_from_slice(words.as_slice())?;
    push_text(out, "\n")?;
    Ok(())
}

/// Writes a face with what it has received.
fn push_face(
    alloc: Global,
    out: &mut Vec<u8>,
    face: FaceId,
    messages: &[Message],
) -> Result<(), OutOfMemory>
    ensures { OnOk result (out.new.items ≡ out.old.items ++ face_words face.0 messages.now) }
{
    push_text(out, "face ")?;
    push_number(out, face.0)?;
    push_text(out, "\n")?;
    for message in messages {
        push_message(alloc, out, message)?;
    }
    Ok(())
}

/// Writes the face that an answer opens, with what it has received of the run; else nothing.
fn push_opened(
    alloc: Global,
    out: &mut Vec<u8>,
    calls: &[Call],
    steps: &[Step],
    answer: &Outcome,
) -> Result<(), OutOfMemory>
    requires { length calls.now ≡ length steps.now }
    ensures { OnOk result (out.new.items ≡ out.old.items ++ opened_words (λ face. received_by face calls.now steps.now) answer.now) }
{
    if let Outcome::Opened(face) = answer {
        let messages = received(alloc, calls, steps, *face)?;
        push_face(alloc, out, *face, messages.as_slice())?;
    }
    Ok(())
}

/// The print of what each face that was opened has received of the run.
fn print_run(alloc: Global, calls: &[Call], steps: &[Step]) -> Result<Bytes, OutOfMemory>
    requires { length calls.now ≡ length steps.now }
    ensures { IfOk result (λ b. b ≡ run_words calls.now steps.now) }
{
    let mut out = Vec::new(alloc);
    for step in steps {
        push_opened(alloc, &mut out, calls, steps, &step.outcome)?;
    }
    Ok(Bytes::from_vec(out))
}

/// The print of the run of the calls in a namespace: for each face that was opened a line, and the messages that
/// it has received. It is the print of the run in no namespace.
pub fn print_inside(
    alloc: Global,
    config: &Config,
    ns: &Key,
    calls: &[Call],
) -> Result<Bytes, OutOfMemory>
    requires plain { IsTrue (is_plain ns.now) }
    requires moves { IsTrue (can_move calls.now) }
    ensures inside { IfOk result (λ b. b ≡ inside_words config.now ns.now calls.now) }
    ensures unnoticed { IfOk result (λ b. b ≡ run_words calls.now (steps config.now calls.now)) }
{
    let run = replay_in(alloc, config, ns, calls)?;
    print_run(alloc, calls, run.steps.as_slice())
}
