//! The lines of a run as text for a terminal, of at most so many columns.
ghost use Rattle.std.specs.Prelude.{◌≡◌, ◌++◌, IfOk, OnOk};
ghost use Rattle.zq_show.specs.Plain.{bad_plain, breaks, column_after, fitted, folded_byte, folded, head_line_plain, head_plain, laid, line_plain, lines_plain, look_of, messages_plain, numbered_plain, plain_words, under_plain};

use crate::escape::push_shown;
use crate::page::{BadLine, Line, Shown};
use std::alloc::{AllocError, Global};
use zq_io::words::{push_byte, push_number, push_text};
use zq_message::memory::OutOfMemory;
use zq_message::text::Bytes;

/// The columns that a line has at most.
pub const WIDTH: usize = 100;

/// The column from which on a line that is too long ends at a space.
pub const LOOSE: usize = 76;

/// How a text looks in a terminal with colours.
#[derive(Clone, Copy)]
pub enum Look {
    /// As any other.
    Usual,
    /// A refusal, or a line that could not be read.
    Wrong,
}

/// Whether a line that is too long ends before a byte at a column.
fn breaks(column: usize, byte: u8) -> bool
    ensures { result ≡ breaks column byte }
{
    column >= WIDTH || (byte == b' ' && column >= LOOSE)
}

/// Writes a byte at a column, on the next line where this one is full; answers the column behind it.
fn push_folded_byte(out: &mut Vec<u8>, column: usize, byte: u8) -> Result<usize, AllocError>
    ensures bytes { OnOk result (out.new.items ≡ out.old.items ++ folded_byte column byte) }
    ensures column { IfOk result (λ c. c ≡ column_after column byte) }
{
    if !breaks(column, byte) {
        push_byte(out, byte)?;
        return Ok(column + 1);
    }
    push_text(out, "\n        ")?;
    if byte == b' ' {
        return Ok(8);
    }
    push_byte(out, byte)?;
    Ok(9)
}

/// Writes bytes that are too long for a line on several.
fn push_folded(out: &mut Vec<u8>, bytes: &[u8]) -> Result<(), AllocError>
    ensures { OnOk result (out.new.items ≡ out.old.items ++ folded 0 bytes.now) }
{
    let mut column = 0;
    for byte in bytes {
        column = push_folded_byte(out, column, *byte)?;
    }
    Ok(())
}

/// Writes bytes on a line, or on several where they are too long for one.
fn push_fitted(out: &mut Vec<u8>, bytes: &[u8]) -> Result<(), AllocError>
    ensures { OnOk result (out.new.items ≡ out.old.items ++ fitted bytes.now) }
{
    if bytes.len() <= WIDTH {
        return out.extend_from_slice(bytes);
    }
    push_folded(out, bytes)
}

/// Writes bytes in the colour of a look, where there are colours and it has one, and ends the line.
fn push_laid(out: &mut Vec<u8>, colours: bool, look: Look, bytes: &[u8]) -> Result<(), AllocError>
    ensures { OnOk result (out.new.items ≡ out.old.items ++ laid colours look bytes.now) }
{
    match look {
        Look::Wrong if colours => {
            push_text(out, "\x1b[31m")?;
            push_fitted(out, bytes)?;
            push_text(out, "\x1b[0m\n")
        }
        _ => {
            push_fitted(out, bytes)?;
            push_text(out, "\n")
        }
    }
}

/// Writes a line of the script, behind its number.
fn push_numbered(
    alloc: Global,
    out: &mut Vec<u8>,
    number: u64,
    text: &Bytes,
) -> Result<(), AllocError>
    ensures { OnOk result (out.new.items ≡ out.old.items ++ numbered_plain number text.now) }
{
    let mut line = Vec::new(alloc);
    push_number(&mut line, number)?;
    push_text(&mut line, "  ")?;
    push_shown(&mut line, text.as_slice())?;
    push_laid(out, false, Look::Usual, line.as_slice())
}

/// How lines are written.
#[derive(Clone, Copy)]
struct Pen {
    alloc: Global,
    colours: bool,
}

/// Writes a text on a line of its own, under the line that it is of.
fn push_under(
    pen: Pen,
    out: &mut Vec<u8>,
    look: Look,
    mark: &str,
    text: &Bytes,
) -> Result<(), AllocError>
    ensures { OnOk result (out.new.items ≡ out.old.items ++ under_plain pen.colours look mark.now text.now) }
{
    let mut line = Vec::new(pen.alloc);
    push_text(&mut line, "    ")?;
    push_text(&mut line, mark)?;
    push_shown(&mut line, text.as_slice())?;
    push_laid(out, pen.colours, look, line.as_slice())
}

/// Writes texts under the line that they are of, each on a line of its own.
fn push_all(pen: Pen, out: &mut Vec<u8>, mark: &str, texts: &[Bytes]) -> Result<(), AllocError>
    ensures { OnOk result (out.new.items ≡ out.old.items ++ messages_plain mark.now texts.now) }
{
    for text in texts {
        push_under(pen, out, Look::Usual, mark, text)?;
    }
    Ok(())
}

fn look_of(refused: bool) -> Look
    ensures { result ≡ look_of refused }
{
    if refused { Look::Wrong } else { Look::Usual }
}

/// Writes a line, and under it what it was answered and the messages that it handed.
fn push_line(pen: Pen, out: &mut Vec<u8>, line: &Line) -> Result<(), AllocError>
    ensures { OnOk result (out.new.items ≡ out.old.items ++ line_plain pen.colours line.now) }
{
    push_numbered(pen.alloc, out, line.number, &line.text)?;
    push_under(pen, out, look_of(line.refused), "= ", &line.answer)?;
    push_all(pen, out, "  ", line.notes.as_slice())?;
    push_all(pen, out, "> ", line.messages.as_slice())
}

/// Writes the lines, in order.
fn push_lines(pen: Pen, out: &mut Vec<u8>, lines: &[Line]) -> Result<(), AllocError>
    ensures { OnOk result (out.new.items ≡ out.old.items ++ lines_plain pen.colours lines.now) }
{
    for line in lines {
        push_line(pen, out, line)?;
    }
    Ok(())
}

/// Writes the lines before the calls, from the first on.
fn push_head(alloc: Global, out: &mut Vec<u8>, head: &[Bytes]) -> Result<(), AllocError>
    ensures { OnOk result (out.new.items ≡ out.old.items ++ head_plain head.now) }
{
    for (i, text) in head.iter().enumerate() {
        push_head_line(alloc, out, i, text)?;
    }
    Ok(())
}

/// Writes a line before the calls, by its place.
fn push_head_line(
    alloc: Global,
    out: &mut Vec<u8>,
    place: usize,
    text: &Bytes,
) -> Result<(), AllocError>
    ensures { OnOk result (out.new.items ≡ out.old.items ++ head_line_plain place text.now) }
{
    let mut line = Vec::new(alloc);
    push_number(&mut line, place as u128 + 1)?;
    push_text(&mut line, "  ")?;
    push_shown(&mut line, text.as_slice())?;
    push_laid(out, false, Look::Usual, line.as_slice())
}

/// Writes the line that could not be read, if there is one, and under it what was expected there.
fn push_bad(pen: Pen, out: &mut Vec<u8>, bad: &Option<BadLine>) -> Result<(), AllocError>
    ensures { OnOk result (out.new.items ≡ out.old.items ++ bad_plain pen.colours bad.now) }
{
    let Some(bad) = bad else {
        return Ok(());
    };
    push_numbered(pen.alloc, out, bad.number, &bad.text)?;
    push_under(pen, out, Look::Wrong, "bad line: ", &bad.reason)
}

/// The lines of a run as text, each with its number; with colours where they are wanted.
pub fn plain(alloc: Global, colours: bool, shown: &Shown) -> Result<Bytes, OutOfMemory>
    ensures { IfOk result (λ b. b ≡ plain_words colours shown.now) }
{
    let mut out = Vec::new(alloc);
    let pen = Pen { alloc, colours };
    push_head(alloc, &mut out, shown.head.as_slice())?;
    push_lines(pen, &mut out, shown.lines.as_slice())?;
    push_bad(pen, &mut out, &shown.bad)?;
    Ok(Bytes::from_vec(out))
}
