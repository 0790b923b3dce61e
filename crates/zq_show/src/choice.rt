//! Which rows concern a request, and the faces that rows name.
ghost use Rattle.std.specs.Prelude.{◌≡◌, IfOk, OnOk};
ghost use Rattle.zq_show.specs.PageRows.{is_of};
ghost use Rattle.zq_show.specs.Choice.{begun, chosen, has, has_line, is_ended, is_own, lanes_of, own_lines, rows_at, with_face};

use crate::row::{Event, Row};
use std::alloc::Global;
use zq_message::items::Items;
use zq_message::memory::OutOfMemory;

/// Rows, from above.
pub type RowList = Items<Row>;

/// What begins or ends with the rows of a request.
fn begun(alloc: Global, request: u64, rows: &[Row]) -> Result<Items<Event>, OutOfMemory>
    ensures { IfOk result (λ l. l ≡ begun request rows.now) }
{
    let mut events = Items::new(alloc);
    for row in rows {
        if row.is_of(request) {
            events.push(row.event)?;
        }
    }
    Ok(events)
}

/// Whether the event ends what began with one of these.
fn is_ended(events: &[Event], other: Event) -> bool
    ensures { result ≡ is_ended events.now other }
{
    events.iter().any(|event| event.ends_with(other))
}

/// Whether the row is of the request, or ends what began with it.
fn is_own(request: u64, events: &[Event], row: &Row) -> bool
    ensures { result ≡ is_own request events.now row.now }
{
    row.is_of(request) || is_ended(events, row.event)
}

/// The lines of the rows that are of the request, or end what began with these.
fn own_lines(
    alloc: Global,
    request: u64,
    events: &[Event],
    rows: &[Row],
) -> Result<Items<u64>, OutOfMemory>
    ensures { IfOk result (λ l. l ≡ own_lines request events.now rows.now) }
{
    let mut lines = Items::new(alloc);
    for row in rows {
        if is_own(request, events, row) {
            lines.push(row.line)?;
        }
    }
    Ok(lines)
}

/// Whether the number is among these.
fn has(numbers: &[u64], number: u64) -> bool
    ensures { result ≡ has number numbers.now }
{
    numbers.iter().any(|n| *n == number)
}

/// The rows of these lines.
fn rows_at(alloc: Global, lines: &[u64], rows: RowList) -> Result<RowList, OutOfMemory>
    ensures { IfOk result (λ l. l ≡ rows_at lines.now rows) }
{
    let mut kept = Items::new(alloc);
    for row in rows.into_vec() {
        if has(lines, row.line) {
            kept.push(row)?;
        }
    }
    Ok(kept)
}

/// The rows of the lines that concern a request: the request, its replies and finals, and what ends
/// what began with them.
pub fn chosen(alloc: Global, request: u64, rows: RowList) -> Result<RowList, OutOfMemory>
    ensures { IfOk result (λ l. l ≡ chosen request rows) }
{
    let events = begun(alloc, request, rows.as_slice())?;
    let lines = own_lines(alloc, request, events.as_slice(), rows.as_slice())?;
    rows_at(alloc, lines.as_slice(), rows)
}

/// Whether a line has a row here.
pub fn has_line(rows: &[Row], line: u64) -> bool
    ensures { result ≡ has_line line rows.now }
{
    rows.iter().any(|row| row.line == line)
}

/// Whether the face is among these.
fn is_lane(lanes: &[u32], face: u32) -> bool
    ensures { result ≡ has face lanes.now }
{
    lanes.iter().any(|lane| *lane == face)
}

/// Adds the face of a row, where it has one that is not there yet.
fn add_face(lanes: &mut Vec<u32>, face: Option<u32>) -> Result<(), OutOfMemory>
    ensures { OnOk result (lanes.new.items ≡ with_face lanes.old.items face) }
{
    if let Some(face) = face
        && !is_lane(lanes.as_slice(), face)
    {
        lanes.push(face)?;
    }
    Ok(())
}

/// The faces that the rows name, each once, in the order in which they first come.
pub fn lanes_of(alloc: Global, rows: &[Row]) -> Result<Vec<u32>, OutOfMemory>
    ensures { IfOk result (λ v. v.items ≡ lanes_of rows.now) }
{
    let mut lanes = Vec::new(alloc);
    for row in rows {
        add_face(&mut lanes, row.face)?;
    }
    Ok(lanes)
}
