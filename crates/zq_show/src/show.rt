//! The page and the text of a run.
ghost use Rattle.std.specs.Prelude.{◌≡◌, ◌++◌, IfOk, OnOk, None, take};
ghost use Rattle.zq_show.specs.Lanes.{lanes_shown};
ghost use Rattle.zq_show.specs.Mermaid.{mermaid_words};
ghost use Rattle.zq_show.specs.Page.{page_words};
ghost use Rattle.zq_show.specs.Plain.{plain_words};
ghost use Rattle.zq_show.specs.Showing.{face_lines, face_text, face_texts, handed_texts, is_shown, line_of, lines_shown, rows_shown, scope_words, shown_of};

use crate::answer::{answer, handed_text, is_refused};
use crate::choice::{RowList, chosen, has_line};
use crate::entry::Entry;
use crate::lanes::lanes_shown;
use crate::mermaid::mermaid;
use crate::notes::notes_of;
use crate::page::{BadLine, BytesList, Line, LineList, Shown, page};
use crate::plain::plain;
use crate::row::Row;
use crate::rows::all_rows;
use std::alloc::Global;
use zq_io::words::{push_number, push_text};
use zq_key::items::Items;
use zq_key::memory::OutOfMemory;
use zq_key::text::Bytes;
use zq_lines::calls::print_call;
use zq_machine::call::Outcome;
use zq_machine::handed::Handed;

/// How many calls a picture has where it is of no request.
pub const DRAWN: usize = 100;

/// How many rows a picture has at most.
pub const ROWS: usize = 400;

/// A run: the lines before the calls, the calls, and the line that could not be read.
#[derive(Drop)]
pub struct Run {
    /// The lines before the calls, as they stand in the script.
    pub head: BytesList,
    /// The timeout in milliseconds of a request that gives none.
    pub timeout: u64,
    /// The calls, in order.
    pub entries: Items<Entry>,
    /// The line at which the script ends because it could not be read, if there is one.
    pub bad: Option<BadLine>,
    /// Who declared each key and who asks to hear of it once the calls are made, each key as a line.
    pub stands: BytesList,
}

/// The messages of a call, each as a text, in order.
fn handed_texts(alloc: Global, handed: &[Handed]) -> Result<BytesList, OutOfMemory>
    ensures { IfOk result (λ l. l ≡ handed_texts handed.now) }
{
    let mut texts = Items::new(alloc);
    for message in handed {
        texts.push(handed_text(alloc, message)?)?;
    }
    Ok(texts)
}

/// What is shown of a call.
fn line_of(alloc: Global, entry: &Entry) -> Result<Line, OutOfMemory>
    ensures { IfOk result (λ l. l ≡ line_of entry.now) }
{
    Ok(Line {
        number: entry.number,
        text: entry.text.copy(alloc)?,
        answer: answer(alloc, entry.step.outcome)?,
        refused: is_refused(entry.step.outcome),
        notes: notes_of(alloc, entry)?,
        messages: handed_texts(alloc, entry.step.handed.as_slice())?,
    })
}

/// Whether a call is shown: each, or where a request is, one that has a row.
fn is_shown(request: Option<u64>, rows: &[Row], entry: &Entry) -> bool
    ensures { result ≡ is_shown request rows.now entry.now }
{
    request.is_none() || has_line(rows, entry.number)
}

/// What is shown of the calls, in order: of all, or of those that concern a request.
fn lines_shown(
    alloc: Global,
    request: Option<u64>,
    rows: &[Row],
    entries: &[Entry],
) -> Result<LineList, OutOfMemory>
    ensures { IfOk result (λ l. l ≡ lines_shown request rows.now entries.now) }
{
    let mut lines = Items::new(alloc);
    for entry in entries {
        if is_shown(request, rows, entry) {
            lines.push(line_of(alloc, entry)?)?;
        }
    }
    Ok(lines)
}

/// A face by its number and the call that opened it.
fn face_text(alloc: Global, face: u32, entry: &Entry) -> Result<Bytes, OutOfMemory>
    ensures { IfOk result (λ b. b ≡ face_text face entry.now) }
{
    let mut out = Vec::new(alloc);
    push_text(&mut out, "face ")?;
    push_number(&mut out, face)?;
    push_text(&mut out, ": ")?;
    out.extend_from_slice(print_call(alloc, &entry.call)?.as_slice())?;
    Ok(Bytes::from_vec(out))
}

/// Adds the face that a call opened, if it opened one.
fn push_face(alloc: Global, texts: &mut BytesList, entry: &Entry) -> Result<(), OutOfMemory>
    ensures { OnOk result (texts.new ≡ texts.old ++ face_texts entry.now) }
{
    match entry.step.outcome {
        Outcome::Opened(face) => texts.push(face_text(alloc, face.0, entry)?),
        _ => Ok(()),
    }
}

/// The faces that the calls opened, in order.
fn face_lines(alloc: Global, entries: &[Entry]) -> Result<BytesList, OutOfMemory>
    ensures { IfOk result (λ l. l ≡ face_lines entries.now) }
{
    let mut texts = Items::new(alloc);
    for entry in entries {
        push_face(alloc, &mut texts, entry)?;
    }
    Ok(texts)
}

/// The first calls, as many as a picture has.
fn first_calls(entries: &[Entry]) -> &[Entry]
    ensures { result.now ≡ take DRAWN entries.now }
{
    if entries.len() <= DRAWN {
        return entries;
    }
    let (front, _) = entries.split_at(DRAWN);
    front
}

/// The first rows, as many as a picture has.
fn first_rows(rows: &[Row]) -> &[Row]
    ensures { result.now ≡ take ROWS rows.now }
{
    if rows.len() <= ROWS {
        return rows;
    }
    let (front, _) = rows.split_at(ROWS);
    front
}

/// No more rows than a picture has.
fn cut_off(rows: RowList) -> RowList
    ensures { result ≡ take ROWS rows }
{
    let mut rows = rows.into_vec();
    rows.truncate(ROWS);
    Items::from_vec(rows)
}

/// The rows of the picture: of the first calls, or of those that concern a request.
fn rows_shown(
    alloc: Global,
    request: Option<u64>,
    timeout: u64,
    entries: &[Entry],
) -> Result<RowList, OutOfMemory>
    ensures { IfOk result (λ l. l ≡ rows_shown request timeout entries.now) }
{
    match request {
        Some(number) => chosen(alloc, number, all_rows(alloc, timeout, entries)?),
        None => all_rows(alloc, timeout, first_calls(entries)),
    }
}

/// Writes which of the calls a picture shows.
fn scope(alloc: Global, request: Option<u64>, calls: usize) -> Result<Bytes, OutOfMemory>
    ensures { IfOk result (λ b. b ≡ scope_words request calls) }
{
    let mut out = Vec::new(alloc);
    match request {
        Some(number) => {
            push_text(
                &mut out,
                "The picture and the lines are of the calls that concern request #",
            )?;
            push_number(&mut out, number)?;
            push_text(&mut out, ".")?;
        }
        None if calls <= DRAWN => push_text(&mut out, "The picture shows all calls.")?,
        None => push_text(
            &mut out,
            "The picture shows the first 100 calls; `zq show --request N` draws those of request #N.",
        )?,
    }
    Ok(Bytes::from_vec(out))
}

/// What is shown of a run: its calls once each and in order, each with the messages that it handed,
/// and a picture of the first; or both of the calls that concern a request.
fn shown_of(alloc: Global, run: Run, request: Option<u64>) -> Result<Shown, OutOfMemory>
    ensures value { IfOk result (λ s. s ≡ shown_of run request) }
{
    let Run {
        head,
        timeout,
        entries,
        bad,
        stands,
    } = run;
    let calls = entries.as_slice();
    let rows = rows_shown(alloc, request, timeout, calls)?;
    Ok(Shown {
        head,
        faces: face_lines(alloc, calls)?,
        lines: lines_shown(alloc, request, rows.as_slice(), calls)?,
        bad,
        stands,
        scope: scope(alloc, request, calls.len())?,
        lanes: lanes_shown(alloc, calls, first_rows(rows.as_slice()))?,
        rows: cut_off(rows),
    })
}

/// The page of a run.
pub fn show_page(alloc: Global, run: Run, request: Option<u64>) -> Result<Bytes, OutOfMemory>
    ensures { IfOk result (λ b. b ≡ page_words (shown_of run request)) }
{
    let shown = shown_of(alloc, run, request)?;
    page(alloc, &shown)
}

/// The picture of a run as a sequence diagram.
pub fn show_mermaid(alloc: Global, run: Run, request: Option<u64>) -> Result<Bytes, OutOfMemory>
    ensures { IfOk result (λ b. b ≡ mermaid_words (shown_of run request)) }
{
    let shown = shown_of(alloc, run, request)?;
    mermaid(alloc, &shown)
}

/// The text of a run for a terminal, with colours where they are wanted.
pub fn show_text(alloc: Global, run: Run, colours: bool) -> Result<Bytes, OutOfMemory>
    ensures { IfOk result (λ b. b ≡ plain_words colours (shown_of run None)) }
{
    let shown = shown_of(alloc, run, None)?;
    plain(alloc, colours, &shown)
}
