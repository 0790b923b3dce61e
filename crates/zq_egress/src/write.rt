//! The messages that a step hands, written for their receivers.
ghost use Rattle.std.specs.Prelude.{◌≡◌, ◌<◌, [], ◌∷◌, IfOk, IfSome, Some, map, vec_capacity, vec_len};
ghost use Rattle.std.specs.List.{cons_option};
ghost use Rattle.zq_tables.specs.Naming.{best, face_naming, plain};
ghost use Rattle.zq_machine.specs.Selecting.{target_of, zid_of};
ghost use Rattle.zq_query.specs.Asking.{given_id, given_place};
ghost use Rattle.zq_message.specs.declared.message.Message.TheVariants as message_of;
ghost use Rattle.zq_message.specs.declared.message.ReplyBody.TheVariants as body;
ghost use Rattle.zq_machine.specs.Writing.{sent_final, write, written};
ghost use Rattle.zq_machine.specs.Deciding.{timed_out, timeout_word, handed_replies, handed_reply, handed_request, handed_timeout, handed_timeouts};

use crate::select::zid_of;
use std::alloc::{AllocError, Global};
use std::collections::BTreeMap;
use zq_key::items::Items;
use zq_key::memory::OutOfMemory;
use zq_key::message::{
    FaceId, Mapping, Message, ReplyBody, Request, Response, ResponseFinal, WireExpr,
};
use zq_key::text::{Bytes, Text};
use zq_machine::face::OpenFace;
use zq_machine::handed::{Handed, HandedList};
use zq_query::queries::Queries;
use zq_query::records::{Final, ReplyTo, Timeout};
use zq_strategy::types::QueryTargetQabl;
use zq_tables::naming::Naming;

/// A final to its asker. It takes no memory.
pub fn written_final(last: Final) -> Handed
    ensures { result ≡ sent_final last }
{
    let message = ResponseFinal {
        rid: last.id,
        qos: last.qos,
    };
    Handed::new(
        last.asker,
        Some(last.number),
        None,
        Message::ResponseFinal(message),
    )
}

/// An empty list with room for so many messages.
fn room_for(alloc: Global, count: usize) -> Result<HandedList, OutOfMemory>
    ensures { IfOk result (λ l. l ≡ []) }
{
    Ok(Items::from_vec(Vec::with_capacity(alloc, count)?))
}

/// Room for the one message that a final may need.
pub fn room_for_final(alloc: Global) -> Result<Vec<Handed>, AllocError>
    ensures empty { IfOk result (λ v. v.items ≡ []) }
    ensures room { IfOk result (λ v. vec_len v < vec_capacity v) }
{
    Vec::with_capacity(alloc, 1)
}

/// The final, where there is one. It takes no memory.
pub fn final_in(alloc: Global, mut room: Vec<Handed>, last: Option<Final>) -> HandedList
    requires empty { room.items ≡ [] }
    requires room { vec_len room < vec_capacity room }
    ensures { result ≡ map sent_final (cons_option last []) }
{
    let Some(last) = last else {
        return Items::new(alloc);
    };
    match room.push(written_final(last)) {
        Ok(()) => Items::from_vec(room),
        Err(_) => unreachable!(),
    }
}

/// Finals to their askers.
pub fn written_finals(alloc: Global, finals: &[Final]) -> Result<HandedList, OutOfMemory>
    ensures { IfOk result (λ l. l ≡ map sent_final finals.now) }
{
    let mut handed = room_for(alloc, finals.len())?;
    for last in finals {
        handed.push(written_final(*last))?;
    }
    Ok(handed)
}

/// A text as an expression that takes no number.
pub fn whole(text: Text) -> WireExpr
    ensures { result ≡ plain text }
{
    WireExpr {
        scope: 0,
        mapping: Mapping::Sender,
        suffix: text,
    }
}

fn reply_message(
    alloc: Global,
    text: Text,
    response: &Response,
    to: &ReplyTo,
) -> Result<Response, OutOfMemory>
    ensures { IfOk result (λ r. r ≡ record { rid = to.now.id; wire = plain text; qos = to.now.qos; payload = response.now.payload; responder = response.now.responder }) }
{
    Ok(Response {
        rid: to.id,
        wire: whole(text),
        qos: to.qos,
        payload: response.payload.copy(alloc)?,
        responder: response.responder,
    })
}

/// A reply to its asker; to no one, where the asker is closed.
pub fn written_replies(
    alloc: Global,
    names: &Naming,
    text: Text,
    response: &Response,
    to: &ReplyTo,
) -> Result<HandedList, OutOfMemory>
    ensures { IfOk result (λ l. l ≡ write names.now (handed_replies text response.now to.now)) }
{
    let Some(reply) = to.reply else {
        return Ok(Items::new(alloc));
    };
    let mut handed = room_for(alloc, 1)?;
    let message = reply_message(alloc, text, response, to)?;
    handed.push(in_flight(to.asker, to.number, reply, message))?;
    Ok(handed)
}

// A reply that its asker is handed.
fn in_flight(to: FaceId, number: u64, reply: u64, message: Response) -> Handed
    ensures { result ≡ record { to = to; number = Some number; reply = Some reply; message = message_of.Response message; leaves = Some (message_of.Response message) } }
{
    Handed::new(to, Some(number), Some(reply), Message::Response(message))
}

fn request_message(
    alloc: Global,
    names: &Naming,
    text: &Text,
    request: &Request,
    offer: &QueryTargetQabl,
    id: u32,
) -> Result<Request, OutOfMemory>
    ensures { IfOk result (λ r. r ≡ record { id = id; wire = best (face_naming offer.now.face.0 names.now) text.now; target = request.now.target; timeout = request.now.timeout; node = offer.now.node; qos = request.now.qos; payload = request.now.payload }) }
{
    Ok(Request {
        id,
        wire: names.best(offer.face, text)?,
        target: request.target,
        timeout: request.timeout,
        node: offer.node,
        qos: request.qos,
        payload: request.payload.copy(alloc)?,
    })
}

// A request to the face of an offer, under the id that it is given there.
fn written_request(
    alloc: Global,
    queries: &Queries,
    names: &Naming,
    text: &Text,
    request: &Request,
    offer: &QueryTargetQabl,
    id: u32,
) -> Result<Handed, OutOfMemory>
    requires { id ≡ given_id queries.now offer.now.face }
    ensures { IfOk result (λ h. h ≡ written names.now (handed_request queries.now text.now request.now offer.now)) }
{
    let message = request_message(alloc, names, text, request, offer, id)?;
    Ok(Handed::new(
        offer.face,
        Some(queries.next_number()),
        None,
        Message::Request(message),
    ))
}

fn requests_to(
    alloc: Global,
    queries: &Queries,
    names: &Naming,
    text: &Text,
    request: &Request,
    offers: &[QueryTargetQabl],
    places: &[(u32, u32)],
) -> Result<HandedList, OutOfMemory>
    requires { places.now ≡ map (given_place queries.now) (map target_of offers.now) }
    ensures { IfOk result (λ l. l ≡ write names.now (map (handed_request queries.now text.now request.now) offers.now)) }
{
    let mut handed = room_for(alloc, offers.len())?;
    for i in 0..offers.len() {
        handed.push(written_request(
            alloc,
            queries,
            names,
            text,
            request,
            &offers[i],
            places[i].1,
        )?)?;
    }
    Ok(handed)
}

// An equal request, of which each copy shares the payload.
fn shared(alloc: Global, request: &Request) -> Result<Request, OutOfMemory>
    ensures { IfOk result (λ r. r ≡ request.now) }
{
    Ok(Request {
        id: request.id,
        wire: request.wire.copy(alloc)?,
        target: request.target,
        timeout: request.timeout,
        node: request.node,
        qos: request.qos,
        payload: request.payload.copy(alloc)?.shared(alloc)?,
    })
}

/// A text that is written so often. Several messages share its memory.
pub fn text_for(alloc: Global, text: Text, count: usize) -> Result<Text, OutOfMemory>
    ensures { IfOk result (λ t. t ≡ text) }
{
    if count < 2 {
        return Ok(text);
    }
    text.shared(alloc)
}

/// The requests to the faces of offers. Several share the payload.
pub fn written_requests(
    alloc: Global,
    queries: &Queries,
    names: &Naming,
    text: &Text,
    request: &Request,
    offers: &[QueryTargetQabl],
    places: &[(u32, u32)],
) -> Result<HandedList, OutOfMemory>
    requires { places.now ≡ map (given_place queries.now) (map target_of offers.now) }
    ensures { IfOk result (λ l. l ≡ write names.now (map (handed_request queries.now text.now request.now) offers.now)) }
{
    if offers.len() < 2 {
        return requests_to(alloc, queries, names, text, request, offers, places);
    }
    let request = shared(alloc, request)?;
    requests_to(alloc, queries, names, text, &request, offers, places)
}

fn timeout_message(
    alloc: Global,
    faces: &BTreeMap<u32, OpenFace>,
    timeout: &Timeout,
) -> Result<Response, OutOfMemory>
    ensures { IfOk result (λ r. r ≡ record { rid = timeout.now.id; wire = plain []; qos = timeout.now.qos; payload = body.Err timeout_word; responder = zid_of timeout.now.target.0 faces.now.entries }) }
{
    Ok(Response {
        rid: timeout.id,
        wire: whole(Text::from_string(String::new(alloc))),
        qos: timeout.qos,
        payload: ReplyBody::Err(Bytes::new(alloc, b"Timeout")?),
        responder: zid_of(faces, timeout.target),
    })
}

fn written_timeout(
    alloc: Global,
    names: &Naming,
    faces: &BTreeMap<u32, OpenFace>,
    timeout: &Timeout,
    reply: u64,
) -> Result<Handed, OutOfMemory>
    ensures { IfOk result (λ h. h ≡ written names.now (timed_out faces.now.entries timeout.now reply)) }
{
    let message = timeout_message(alloc, faces, timeout)?;
    Ok(in_flight(timeout.asker, timeout.number, reply, message))
}

/// Error replies to the askers that are open.
pub fn written_timeouts(
    alloc: Global,
    names: &Naming,
    faces: &BTreeMap<u32, OpenFace>,
    timeouts: &[Timeout],
) -> Result<HandedList, OutOfMemory>
    ensures { IfOk result (λ l. l ≡ write names.now (handed_timeouts faces.now.entries timeouts.now)) }
{
    let mut handed = room_for(alloc, timeouts.len())?;
    for timeout in timeouts {
        if let Some(reply) = timeout.reply {
            handed.push(written_timeout(alloc, names, faces, timeout, reply)?)?;
        }
    }
    Ok(handed)
}
