//! The bad lines of a script, and why they are bad.
ghost use Rattle.std.specs.Prelude.{ℕ, List, ◌≡◌, ◌<◌, ◌≤◌, ◌+◌, ◌^◌, ◌++◌, ◌∷◌, [], IfOk, OnOk, is_some, length, nat_lt};
ghost use Rattle.zq_lines.specs.Split.{lines_of};
ghost use Rattle.zq_script.specs.Bad.{bad_behind, bad_calls, bad_from, bad_line, bad_line_at, bad_line_words, bad_lines, bad_lines_words, first_number, is_config, lacking, line_at, stop_of, unless_call, unless_config};
ghost use Rattle.zq_machine.specs.declared.config.Counters.{Counters};
ghost use Rattle.zq_script.specs.Head.{best_at, with_best};
ghost use Rattle.zq_script.specs.Script.{script_call, script_of};

use crate::head::{NO_COUNTS, USUAL_BEST, best_at, config_of, configured, start_at};
use crate::refusal::ScriptRefusal;
use crate::script::script_call;
use std::alloc::{AllocError, Global};
use zq_io::stop::Stop;
use zq_io::words::{is, push_byte, push_number, push_text};
use zq_key::items::Items;
use zq_key::memory::OutOfMemory;
use zq_key::text::Bytes;
use zq_lines::split::next_line;
use zq_lines::why::why;

/// What is said of an empty script.
pub const EMPTY: &str =
    "the script is empty: its first line is `config`, an id, a timeout and the regions";

/// A line that a script cannot have at its place.
#[derive(Debug, Drop)]
pub struct BadLine {
    /// The number of the line, from 1 on.
    pub number: u64,
    /// Why it is bad, as a sentence of printed text.
    pub reason: Bytes,
}

/// Bad lines, in order.
pub type BadLineList = Items<BadLine>;

/// Why the line of a number is bad, of a line that is.
pub fn bad_line(alloc: Global, number: u64, line: &[u8]) -> Result<BadLine, OutOfMemory>
    ensures { IfOk result (λ b. b ≡ bad_line number line.now) }
{
    Ok(BadLine {
        number,
        reason: why(alloc, number, line)?,
    })
}

/// What is said of an empty script.
fn lacking(alloc: Global) -> Result<BadLine, OutOfMemory>
    ensures { IfOk result (λ b. b ≡ lacking) }
{
    Ok(BadLine {
        number: 1,
        reason: Bytes::new(alloc, EMPTY.as_bytes())?,
    })
}

/// The line of a number, from 1; empty where there is none.
fn line_at(number: u64, script: &[u8]) -> &[u8]
    ensures { result.now ≡ line_at number (lines_of script.now) }
{
    let mut left = number;
    let mut rest = script;
    'lines: while let Some((line, after)) = next_line(rest) {
        if left <= 1 {
            return line;
        }
        left -= 1;
        rest = after;
    }
    &[]
}

/// Why the line of a number is bad in a script that stops there.
pub fn bad_line_at(alloc: Global, number: u64, script: &[u8]) -> Result<BadLine, OutOfMemory>
    ensures { IfOk result (λ b. b ≡ bad_line_at number (lines_of script.now)) }
{
    match next_line(script) {
        Some(_) => bad_line(alloc, number, line_at(number, script)),
        None => lacking(alloc),
    }
}

/// Whether a line is one that a script can have where calls stand.
fn is_call(alloc: Global, shared: bool, line: &[u8]) -> Result<bool, OutOfMemory>
    ensures { IfOk result (λ b. b ≡ is_some (script_call shared line.now)) }
{
    match script_call(alloc, shared, line) {
        Ok(_) => Ok(true),
        Err(Stop::Bad) => Ok(false),
        Err(Stop::OutOfMemory) => Err(OutOfMemory),
    }
}

/// Whether a first line says a configuration.
fn is_config(alloc: Global, line: &[u8]) -> Result<bool, OutOfMemory>
    ensures { IfOk result (λ b. b ≡ is_config line.now) }
{
    let said = match config_of(alloc, line) {
        Ok(said) => said,
        Err(Stop::Bad) => return Ok(false),
        Err(Stop::OutOfMemory) => return Err(OutOfMemory),
    };
    match configured(alloc, &said, NO_COUNTS, USUAL_BEST) {
        Ok(_) => Ok(true),
        Err(ScriptRefusal::BadLine(_)) => Ok(false),
        Err(ScriptRefusal::OutOfMemory) => Err(OutOfMemory),
    }
}

/// Appends a line, where it is none that may stand where calls do.
fn push_unless_call(
    alloc: Global,
    found: &mut Vec<BadLine>,
    number: u64,
    shared: bool,
    line: &[u8],
) -> Result<(), OutOfMemory>
    ensures { OnOk result (found.new.items ≡ found.old.items ++ unless_call number line.now (script_call shared line.now) []) }
{
    if !is_call(alloc, shared, line)? {
        found.push(bad_line(alloc, number, line)?)?;
    }
    Ok(())
}

/// Appends the bad ones of the lines from a number on, where calls are to stand, with so many lines
/// `worker` at most.
#[tactic(auto, using(crate::proofs::BadLines::worker_on, crate::proofs::BadLines::call_on))]
fn push_bad_calls(
    alloc: Global,
    found: &mut Vec<BadLine>,
    first: u64,
    workers: u8,
    bytes: &[u8],
) -> Result<(), OutOfMemory>
    requires { first + length bytes.now < 2 ^ 64 }
    ensures { OnOk result (found.new.items ≡ found.old.items ++ bad_calls first (nat_lt 0 workers) workers (lines_of bytes.now)) }
{
    let shared = workers > 0;
    let mut number = first;
    let mut left = workers;
    let mut rest = bytes;
    'lines: while let Some((line, after)) = next_line(rest) {
        if is(line, "worker") && left > 0 {
            left -= 1;
        } else {
            push_unless_call(alloc, found, number, shared, line)?;
        }
        number += 1;
        rest = after;
    }
    Ok(())
}

/// Appends the bad ones of the lines from a number on, where a line `best` may stand and then calls.
fn push_bad_from(
    alloc: Global,
    found: &mut Vec<BadLine>,
    number: u64,
    workers: u8,
    bytes: &[u8],
) -> Result<(), OutOfMemory>
    requires { number ≤ 3 }
    ensures { (start : Counters) (text : List ℕ) → OnOk result (found.new.items ≡ found.old.items ++ bad_from workers (with_best start text number (lines_of bytes.now) (best_at (lines_of bytes.now)))) }
{
    match best_at(bytes) {
        Some((_, _, rest)) => push_bad_calls(alloc, found, number + 1, workers, rest),
        None => push_bad_calls(alloc, found, number, workers, bytes),
    }
}

/// Appends the bad lines behind the first.
fn push_bad_behind(
    alloc: Global,
    found: &mut Vec<BadLine>,
    workers: u8,
    bytes: &[u8],
) -> Result<(), OutOfMemory>
    ensures { (line : List ℕ) → OnOk result (found.new.items ≡ found.old.items ++ bad_behind workers line (lines_of bytes.now)) }
{
    match start_at(alloc, bytes) {
        Ok((_, _, rest)) => push_bad_from(alloc, found, 3, workers, rest),
        Err(Stop::Bad) => push_bad_from(alloc, found, 2, workers, bytes),
        Err(Stop::OutOfMemory) => Err(OutOfMemory),
    }
}

/// Appends a first line, where it says no configuration.
fn push_unless_config(
    alloc: Global,
    found: &mut Vec<BadLine>,
    line: &[u8],
) -> Result<(), OutOfMemory>
    ensures { OnOk result (found.new.items ≡ found.old.items ++ unless_config line.now) }
{
    if !is_config(alloc, line)? {
        found.push(bad_line(alloc, 1, line)?)?;
    }
    Ok(())
}

/// Appends all bad lines of a script.
fn push_bad_lines(
    alloc: Global,
    found: &mut Vec<BadLine>,
    workers: u8,
    bytes: &[u8],
) -> Result<(), OutOfMemory>
    ensures { OnOk result (found.new.items ≡ found.old.items ++ bad_lines workers (lines_of bytes.now)) }
{
    let Some((line, rest)) = next_line(bytes) else {
        found.push(lacking(alloc)?)?;
        return Ok(());
    };
    push_unless_config(alloc, found, line)?;
    push_bad_behind(alloc, found, workers, rest)
}

/// All bad lines of a script, in order, with so many lines `worker` at most. The first is the line
/// at which reading the script stops; there is none where the bytes are a script.
#[tactic(auto, using(crate::proofs::BadLines::first_is_stop))]
pub fn bad_lines(alloc: Global, workers: u8, bytes: &[u8]) -> Result<BadLineList, OutOfMemory>
    ensures value { IfOk result (λ l. l ≡ bad_lines workers (lines_of bytes.now)) }
    ensures first { IfOk result (λ l. first_number l ≡ stop_of (script_of workers (lines_of bytes.now))) }
{
    let mut found = Vec::new(alloc);
    push_bad_lines(alloc, &mut found, workers, bytes)?;
    Ok(Items::from_vec(found))
}

/// Writes a bad line in words, and a newline.
pub fn push_bad_line(out: &mut Vec<u8>, bad: &BadLine) -> Result<(), AllocError>
    ensures { OnOk result (out.new.items ≡ out.old.items ++ bad_line_words bad.now) }
{
    push_text(out, "bad line ")?;
    push_number(out, bad.number)?;
    push_text(out, ": ")?;
    out.extend_from_slice(bad.reason.as_slice())?;
    push_byte(out, b'\n')
}

/// Bad lines in words, each on a line.
pub fn print_bad_lines(alloc: Global, bad: &[BadLine]) -> Result<Bytes, OutOfMemory>
    ensures { IfOk result (λ b. b ≡ bad_lines_words bad.now) }
{
    let mut out = Vec::new(alloc);
    for line in bad {
        push_bad_line(&mut out, line)?;
    }
    Ok(Bytes::from_vec(out))
}
