//! The rows of a picture: one for a call, and one for each message that it hands.
ghost use Rattle.std.specs.Prelude.{◌≡◌, IfOk, OnOk, ◌++◌, option_copied};
ghost use Rattle.zq_show.specs.Rows.{call_event, call_face, call_kind, call_label, call_row, handed_event, handed_label, handed_row, handed_rows, is_stopped, kind_of, leaves_tag, opened, pending_from, request_of, rows_of, until, all_rows};

use crate::answer::{is_refused, push_number_tag};
use crate::choice::RowList;
use crate::entry::Entry;
use crate::labels::{push_call_label, push_message_label};
use crate::row::{Event, Kind, Row};
use std::alloc::{AllocError, Global};
use zq_io::words::push_text;
use zq_key::items::Items;
use zq_key::memory::OutOfMemory;
use zq_key::message::Message;
use zq_key::text::{Bytes, Text};
use zq_machine::call::{Call, Outcome, Step};
use zq_machine::handed::Handed;

/// The stroke of a call.
fn call_kind(call: &Call) -> Kind
    ensures { result ≡ call_kind call.now }
{
    match call {
        Call::Request { .. } => Kind::Request,
        Call::Response { .. } => Kind::Reply,
        Call::ResponseFinal { .. } => Kind::Final,
        Call::Poll { .. } => Kind::Time,
        Call::Sent { .. } | Call::SetGateways { .. } | Call::SetNetwork { .. } => Kind::Note,
        _ => Kind::Declaration,
    }
}

/// The face that an answer opened.
fn opened(outcome: Outcome) -> Option<u32>
    ensures { result ≡ opened outcome }
{
    match outcome {
        Outcome::Opened(face) => Some(face.0),
        _ => None,
    }
}

/// The face that makes a call; of an opening the one that it opened.
fn call_face(call: &Call, outcome: Outcome) -> Option<u32>
    ensures { result ≡ call_face outcome call.now }
{
    match call {
        Call::Open(_) => opened(outcome),
        Call::Sent { .. } | Call::Poll { .. } => None,
        Call::SetGateways { .. } | Call::SetNetwork { .. } => None,
        Call::Close { face }
        | Call::DeclareKeyExpr { face, .. }
        | Call::UndeclareKeyExpr { face, .. }
        | Call::DeclareQueryable { face, .. }
        | Call::UndeclareQueryable { face, .. }
        | Call::Interest { face, .. }
        | Call::InterestFinal { face, .. }
        | Call::FinalizeInterest { face, .. }
        | Call::Request { face, .. }
        | Call::Response { face, .. }
        | Call::ResponseFinal { face, .. }
        | Call::SetNodeIds { face, .. } => Some(face.0),
    }
}

/// What ends with a call that is not refused.
fn call_event(call: &Call, refused: bool) -> Event
    ensures { result ≡ call_event refused call.now }
{
    if refused {
        return Event::Nothing;
    }
    match call {
        Call::ResponseFinal { face, rid } => Event::Finished {
            face: face.0,
            id: *rid,
        },
        Call::Close { face } => Event::Closed { face: face.0 },
        Call::Sent { reply } => Event::Sent { reply: *reply },
        Call::Poll { now } => Event::Moment { now: *now },
        _ => Event::Nothing,
    }
}

/// The request that a step is of: the one that it numbered, or that of the first message.
fn request_of(step: &Step) -> Option<u64>
    ensures { result ≡ request_of step.now }
{
    if let Outcome::Asked(number) = step.outcome {
        return Some(number);
    }
    match step.handed.as_slice() {
        [first, ..] => first.number(),
        [] => None,
    }
}

/// What stands beside the arrow of a call: what a person reads of it, behind the number of the
/// request that it made.
fn call_label(
    alloc: Global,
    key: Option<&Text>,
    call: &Call,
    outcome: Outcome,
) -> Result<Bytes, OutOfMemory>
    ensures { IfOk result (λ b. b ≡ call_label (option_copied key.entry) call.now outcome) }
{
    let mut out = Vec::new(alloc);
    if let Outcome::Asked(number) = outcome {
        push_number_tag(&mut out, Some(number))?;
    }
    push_call_label(&mut out, key, call)?;
    Ok(Bytes::from_vec(out))
}

/// The row of a call.
fn call_row(alloc: Global, entry: &Entry) -> Result<Row, OutOfMemory>
    ensures { IfOk result (λ r. r ≡ call_row entry.now) }
{
    let refused = is_refused(entry.step.outcome);
    Ok(Row {
        line: entry.number,
        kind: call_kind(&entry.call),
        face: call_face(&entry.call, entry.step.outcome),
        handed: false,
        refused,
        stopped: false,
        event: call_event(&entry.call, refused),
        request: request_of(&entry.step),
        label: call_label(alloc, entry.key.as_ref(), &entry.call, entry.step.outcome)?,
    })
}

/// The stroke of a message.
fn kind_of(message: &Message) -> Kind
    ensures { result ≡ kind_of message.now }
{
    match message {
        Message::Request(_) => Kind::Request,
        Message::Response(_) => Kind::Reply,
        Message::ResponseFinal(_) => Kind::Final,
        _ => Kind::Declaration,
    }
}

/// The moment up to which the requests that a call hands are pending.
fn until(timeout: u64, call: &Call) -> u64
    ensures { result ≡ until timeout call.now }
{
    match call {
        Call::Request { request, now, .. } => now.saturating_add(
            request.timeout.unwrap_or(timeout),
        ),
        _ => 0,
    }
}

/// A request is pending at a face up to a moment, if it leaves and has a number.
fn pending_from(handed: &Handed, id: u32, until: u64) -> Event
    ensures { result ≡ pending_from handed.now id until }
{
    match (handed.leaves(), handed.number()) {
        (Some(_), Some(request)) => Event::Pending {
            face: handed.to().0,
            id,
            request,
            until,
        },
        _ => Event::Nothing,
    }
}

/// What begins or ends with a message, where requests are pending up to a moment.
fn handed_event(handed: &Handed, until: u64) -> Event
    ensures { result ≡ handed_event until handed.now }
{
    match (handed.message(), handed.number(), handed.reply()) {
        (Message::Request(asked), _, _) => pending_from(handed, asked.id, until),
        (Message::Response(_), _, Some(reply)) => Event::InFlight { reply },
        (Message::ResponseFinal(_), Some(request), _) => Event::Over { request },
        _ => Event::Nothing,
    }
}

/// Whether nothing leaves of what is handed.
fn is_stopped(handed: &Handed) -> bool
    ensures { result ≡ is_stopped handed.now }
{
    handed.leaves().is_none()
}

/// Writes that nothing leaves of a message, if that is so.
fn push_leaves_tag(out: &mut Vec<u8>, stopped: bool) -> Result<(), AllocError>
    ensures { OnOk result (out.new.items ≡ out.old.items ++ leaves_tag stopped) }
{
    if stopped {
        push_text(out, "stopped at the exit: ")?;
    }
    Ok(())
}

/// What stands beside the arrow of a message: what a person reads of it, behind the number of its
/// request.
fn handed_label(alloc: Global, key: Option<&Text>, handed: &Handed) -> Result<Bytes, OutOfMemory>
    ensures { IfOk result (λ b. b ≡ handed_label (option_copied key.entry) handed.now) }
{
    let mut out = Vec::new(alloc);
    push_number_tag(&mut out, handed.number())?;
    push_leaves_tag(&mut out, is_stopped(handed))?;
    push_message_label(&mut out, key, handed.message())?;
    Ok(Bytes::from_vec(out))
}

/// The row of a message that a call handed, whose requests are pending up to a moment.
fn handed_row(alloc: Global, entry: &Entry, until: u64, handed: &Handed) -> Result<Row, OutOfMemory>
    ensures { IfOk result (λ r. r ≡ handed_row entry.now until handed.now) }
{
    Ok(Row {
        line: entry.number,
        kind: kind_of(handed.message()),
        face: Some(handed.to().0),
        handed: true,
        refused: false,
        stopped: is_stopped(handed),
        event: handed_event(handed, until),
        request: handed.number(),
        label: handed_label(alloc, entry.key.as_ref(), handed)?,
    })
}

/// Adds the rows of the messages that a call handed.
fn push_handed(
    alloc: Global,
    rows: &mut RowList,
    until: u64,
    entry: &Entry,
) -> Result<(), OutOfMemory>
    ensures { OnOk result (rows.new ≡ rows.old ++ handed_rows entry.now until entry.now.step.handed) }
{
    let handed = entry.step.handed.as_slice();
    for message in handed {
        rows.push(handed_row(alloc, entry, until, message)?)?;
    }
    Ok(())
}

/// Adds the rows of a call: its own, and one for each message that it handed, in order.
fn push_rows(
    alloc: Global,
    rows: &mut RowList,
    timeout: u64,
    entry: &Entry,
) -> Result<(), OutOfMemory>
    ensures { OnOk result (rows.new ≡ rows.old ++ rows_of timeout entry.now) }
{
    rows.push(call_row(alloc, entry)?)?;
    let until = until(timeout, &entry.call);
    push_handed(alloc, rows, until, entry)
}

/// The rows of calls, in order; a request that gives no timeout has this one.
pub fn all_rows(alloc: Global, timeout: u64, entries: &[Entry]) -> Result<RowList, OutOfMemory>
    ensures { IfOk result (λ l. l ≡ all_rows timeout entries.now) }
{
    let mut rows = Items::new(alloc);
    for entry in entries {
        push_rows(alloc, &mut rows, timeout, entry)?;
    }
    Ok(rows)
}
