//! The picture of rows as a sequence diagram, in the words of Mermaid.
ghost use Rattle.std.specs.Prelude.{◌≡◌, ◌++◌, IfOk, OnOk};
ghost use Rattle.zq_show.specs.Mermaid.{about_line, arrow_line, arrow_of, bad_line, ends_line, label_line, lane_line, lanes_lines, mermaid_words, note_line, number_line, refusal_of, row_line, rows_lines, spelled, spelled_byte, stroke_of};

use crate::escape::push_shown;
use crate::lanes::{About, Lane};
use crate::page::{BadLine, Shown};
use crate::row::{Kind, Row};
use std::alloc::{AllocError, Global};
use zq_io::show::push_field;
use zq_io::words::{push_byte, push_number, push_text};
use zq_message::memory::OutOfMemory;
use zq_message::text::Bytes;

/// Writes a byte, or what a diagram has in its place.
fn push_spelled_byte(out: &mut Vec<u8>, byte: u8) -> Result<(), AllocError>
    ensures { OnOk result (out.new.items ≡ out.old.items ++ spelled_byte byte) }
{
    match byte {
        b'#' => push_text(out, "#35;"),
        b'&' => push_text(out, "#38;"),
        b';' => push_text(out, "#59;"),
        b'<' => push_text(out, "#60;"),
        b'>' => push_text(out, "#62;"),
        _ => push_byte(out, byte),
    }
}

/// Writes bytes, each that a diagram is made of spelled out.
fn push_spelled(out: &mut Vec<u8>, bytes: &[u8]) -> Result<(), AllocError>
    ensures { OnOk result (out.new.items ≡ out.old.items ++ spelled bytes.now) }
{
    for byte in bytes {
        push_spelled_byte(out, *byte)?;
    }
    Ok(())
}

/// Writes a label as printed text, and ends the line.
fn push_label(alloc: Global, out: &mut Vec<u8>, label: &Bytes) -> Result<(), AllocError>
    ensures { OnOk result (out.new.items ≡ out.old.items ++ label_line label.now) }
{
    let mut text = Vec::new(alloc);
    push_shown(&mut text, label.as_slice())?;
    push_spelled(out, text.as_slice())?;
    push_text(out, "\n")
}

/// Writes the region, the mode and the id of a face, if it was opened.
fn push_about(out: &mut Vec<u8>, about: Option<About>) -> Result<(), AllocError>
    ensures { OnOk result (out.new.items ≡ out.old.items ++ about_line about) }
{
    let Some(about) = about else {
        return Ok(());
    };
    push_text(out, ":")?;
    push_field(out, &about.region)?;
    push_field(out, &about.mode)?;
    push_field(out, &about.zid)
}

/// Writes a face that takes part.
#[tactic(auto, unfolding(crate::specs::Mermaid::lane_line))]
fn push_lane(out: &mut Vec<u8>, lane: Lane) -> Result<(), AllocError>
    ensures { OnOk result (out.new.items ≡ out.old.items ++ lane_line lane) }
{
    push_text(out, "    participant F")?;
    push_number(out, lane.face)?;
    push_text(out, " as face ")?;
    push_number(out, lane.face)?;
    push_about(out, lane.about)?;
    push_text(out, "\n")
}

/// Writes the faces that take part.
fn push_lanes(out: &mut Vec<u8>, lanes: &[Lane]) -> Result<(), AllocError>
    ensures { OnOk result (out.new.items ≡ out.old.items ++ lanes_lines lanes.now) }
{
    for lane in lanes {
        push_lane(out, *lane)?;
    }
    Ok(())
}

fn stroke_of(kind: Kind) -> &'static str
    ensures { result.now ≡ stroke_of kind }
{
    match kind {
        Kind::Request | Kind::Declaration | Kind::Time | Kind::Note => "->>",
        Kind::Reply => "-->>",
        Kind::Final => "--)",
    }
}

/// The arrow of a row: with a cross where it is refused or stopped.
fn arrow_of(row: &Row) -> &'static str
    ensures { result.now ≡ arrow_of row.now }
{
    if row.refused || row.stopped {
        "-x"
    } else {
        stroke_of(row.kind)
    }
}

/// Writes from whom to whom an arrow goes.
#[tactic(auto, unfolding(crate::specs::Mermaid::ends_line))]
fn push_ends(out: &mut Vec<u8>, row: &Row, face: u32) -> Result<(), AllocError>
    ensures { OnOk result (out.new.items ≡ out.old.items ++ ends_line row.now face) }
{
    if row.handed {
        push_text(out, "G")?;
        push_text(out, arrow_of(row))?;
        push_text(out, "F")?;
        push_number(out, face)
    } else {
        push_text(out, "F")?;
        push_number(out, face)?;
        push_text(out, arrow_of(row))?;
        push_text(out, "G")
    }
}

/// Writes an arrow.
#[tactic(auto, unfolding(crate::specs::Mermaid::arrow_line))]
fn push_arrow(alloc: Global, out: &mut Vec<u8>, row: &Row, face: u32) -> Result<(), AllocError>
    ensures { OnOk result (out.new.items ≡ out.old.items ++ arrow_line row.now face) }
{
    push_text(out, "    ")?;
    push_ends(out, row, face)?;
    push_text(out, ": ")?;
    push_label(alloc, out, &row.label)
}

fn refusal_of(refused: bool) -> &'static str
    ensures { result.now ≡ refusal_of refused }
{
    if refused { "refused: " } else { "" }
}

/// Writes a row of no face.
#[tactic(auto, unfolding(crate::specs::Mermaid::note_line))]
fn push_note(alloc: Global, out: &mut Vec<u8>, row: &Row) -> Result<(), AllocError>
    ensures { OnOk result (out.new.items ≡ out.old.items ++ note_line row.now) }
{
    push_text(out, "    Note over G: ")?;
    push_text(out, refusal_of(row.refused))?;
    push_label(alloc, out, &row.label)
}

/// Writes a row.
fn push_row(alloc: Global, out: &mut Vec<u8>, row: &Row) -> Result<(), AllocError>
    ensures { OnOk result (out.new.items ≡ out.old.items ++ row_line row.now) }
{
    match row.face {
        Some(face) => push_arrow(alloc, out, row, face),
        None => push_note(alloc, out, row),
    }
}

/// Writes the rows, from above.
fn push_rows(alloc: Global, out: &mut Vec<u8>, rows: &[Row]) -> Result<(), AllocError>
    ensures { OnOk result (out.new.items ≡ out.old.items ++ rows_lines rows.now) }
{
    for row in rows {
        push_row(alloc, out, row)?;
    }
    Ok(())
}

/// Writes the number of a line that could not be read.
#[tactic(auto, unfolding(crate::specs::Mermaid::number_line))]
fn push_bad_number(out: &mut Vec<u8>, number: u64) -> Result<(), AllocError>
    ensures { OnOk result (out.new.items ≡ out.old.items ++ number_line number) }
{
    push_text(out, "    Note over G: bad line ")?;
    push_number(out, number)?;
    push_text(out, "\n")
}

/// Writes the number of the line that could not be read, if there is one.
fn push_bad(out: &mut Vec<u8>, bad: &Option<BadLine>) -> Result<(), AllocError>
    ensures { OnOk result (out.new.items ≡ out.old.items ++ bad_line bad.now) }
{
    match bad {
        Some(bad) => push_bad_number(out, bad.number),
        None => Ok(()),
    }
}

/// The picture of a run as a sequence diagram.
pub fn mermaid(alloc: Global, shown: &Shown) -> Result<Bytes, OutOfMemory>
    ensures { IfOk result (λ b. b ≡ mermaid_words shown.now) }
{
    let mut out = Vec::new(alloc);
    push_text(&mut out, "sequenceDiagram\n    participant G as gateway\n")?;
    push_lanes(&mut out, shown.lanes.as_slice())?;
    push_rows(alloc, &mut out, shown.rows.as_slice())?;
    push_bad(&mut out, &shown.bad)?;
    Ok(Bytes::from_vec(out))
}
