//! How calls are written.
ghost use Rattle.std.specs.Prelude.{◌≡◌, ◌++◌, IfOk, OnOk, Some, true};
ghost use Rattle.std.specs.List.{flat_map};
ghost use Rattle.zq_io.specs.Words.{lacks};
ghost use Rattle.zq_lines.specs.Lines.{call_of};
ghost use Rattle.zq_machine.specs.declared.call.Call.TheVariants as call;
ghost use Rattle.zq_lines.specs.Fits.{FitsCall};
ghost use Rattle.zq_lines.specs.CallLines.{deny_item, aggregate_words, opening_words, info_words, mark_words, body_words, by_words, first_words, ids_words, declaring_words, ask_words, reply_words, asking_words, table_words, call_words};

use crate::tables::push_items;
use std::alloc::{AllocError, Global};
use zq_io::show::{Shown, push_field, push_flag};
use zq_io::words::push_text;
use zq_key::memory::OutOfMemory;
use zq_key::message::{FaceId, QueryableInfoType, ReplyBody, Request, Response, WireExpr, Zid};
use zq_key::text::{Bytes, Text};
use zq_machine::call::{Call, Opening};
use zq_strategy::types::FinalMark;

/// Writes an item of a deny list, behind the name of its side.
fn push_deny(out: &mut Vec<u8>, side: &str, text: &Text) -> Result<(), AllocError>
    ensures { OnOk result (out.new.items ≡ out.old.items ++ deny_item side.now text.now) }
{
    push_text(out, " ")?;
    push_text(out, side)?;
    text.show(out)
}

fn push_denies(out: &mut Vec<u8>, side: &str, texts: &[Text]) -> Result<(), AllocError>
    ensures { OnOk result (out.new.items ≡ out.old.items ++ flat_map (deny_item side.now) texts.now) }
{
    for text in texts {
        push_deny(out, side, text)?;
    }
    Ok(())
}

fn push_opening(out: &mut Vec<u8>, opening: &Opening) -> Result<(), AllocError>
    ensures { OnOk result (out.new.items ≡ out.old.items ++ opening_words opening.now) }
{
    push_field(out, &opening.region)?;
    push_field(out, &opening.zid)?;
    push_field(out, &opening.mode)?;
    push_field(out, &opening.remote_bound)?;
    push_field(out, &opening.namespace)?;
    push_denies(out, "in:", opening.entry_deny.as_slice())?;
    push_denies(out, "out:", opening.exit_deny.as_slice())
}

/// Writes c or p, and a distance.
pub fn push_info(out: &mut Vec<u8>, info: &QueryableInfoType) -> Result<(), AllocError>
    ensures { OnOk result (out.new.items ≡ out.old.items ++ info_words info.now) }
{
    push_flag(out, "c", "p", info.complete)?;
    push_field(out, &info.distance)
}

fn push_mark(out: &mut Vec<u8>, mark: &FinalMark) -> Result<(), AllocError>
    ensures { OnOk result (out.new.items ≡ out.old.items ++ mark_words mark.now) }
{
    match mark {
        FinalMark::Initial => push_text(out, " initial"),
        FinalMark::Key(text) => {
            push_text(out, " key")?;
            push_field(out, text)
        }
    }
}

/// Writes what a reply brings.
pub fn push_body(out: &mut Vec<u8>, body: &ReplyBody) -> Result<(), AllocError>
    ensures { OnOk result (out.new.items ≡ out.old.items ++ body_words body.now) }
{
    match body {
        ReplyBody::Reply(payload) => {
            push_text(out, " ok")?;
            push_field(out, payload)
        }
        ReplyBody::Err(payload) => {
            push_text(out, " err")?;
            push_field(out, payload)
        }
    }
}

fn push_by(out: &mut Vec<u8>, responder: &Option<Zid>) -> Result<(), AllocError>
    ensures { OnOk result (out.new.items ≡ out.old.items ++ by_words responder.now) }
{
    match responder {
        Some(zid) => {
            push_text(out, " by:")?;
            zid.show(out)
        }
        None => Ok(()),
    }
}

/// Writes a last word, where an interest is aggregating.
pub fn push_aggregate(out: &mut Vec<u8>, aggregate: bool) -> Result<(), AllocError>
    ensures { OnOk result (out.new.items ≡ out.old.items ++ aggregate_words aggregate) }
{
    if aggregate {
        push_text(out, " a")?;
    }
    Ok(())
}

/// Writes the name of a call, and its one field or its first.
fn push_first<T: Shown>(out: &mut Vec<u8>, name: &str, x: &T) -> Result<(), AllocError>
    ensures { OnOk result (out.new.items ≡ out.old.items ++ first_words name.now (T.word x.now)) }
{
    push_text(out, name)?;
    push_field(out, x)
}

/// Writes the name of a call, its face and its id.
fn push_ids<T: Shown>(out: &mut Vec<u8>, name: &str, face: FaceId, id: &T) -> Result<(), AllocError>
    ensures { OnOk result (out.new.items ≡ out.old.items ++ ids_words name.now face (T.word id.now)) }
{
    push_first(out, name, &face)?;
    push_field(out, id)
}

/// Writes the line of a declaration or of its end, and nothing for another call.
fn push_declaring(out: &mut Vec<u8>, call: &Call) -> Result<(), AllocError>
    ensures { OnOk result (out.new.items ≡ out.old.items ++ declaring_words call.now) }
{
    match call {
        Call::DeclareKeyExpr { face, id, wire } => {
            push_ids(out, "key", *face, id)?;
            push_field(out, wire)
        }
        Call::UndeclareKeyExpr { face, id } => push_ids(out, "unkey", *face, id),
        Call::DeclareQueryable {
            face,
            id,
            wire,
            info,
            node,
        } => {
            push_ids(out, "queryable", *face, id)?;
            push_field(out, wire)?;
            push_info(out, info)?;
            push_field(out, node)
        }
        Call::UndeclareQueryable {
            face,
            id,
            wire,
            node,
        } => {
            push_ids(out, "unqueryable", *face, id)?;
            push_field(out, wire)?;
            push_field(out, node)
        }
        _ => Ok(()),
    }
}

fn push_ask(out: &mut Vec<u8>, face: FaceId, request: &Request, now: u64) -> Result<(), AllocError>
    ensures { OnOk result (out.new.items ≡ out.old.items ++ ask_words face request.now now) }
{
    push_ids(out, "ask", face, &request.id)?;
    push_field(out, &request.wire)?;
    push_field(out, &request.target)?;
    push_field(out, &request.timeout)?;
    push_field(out, &request.node)?;
    push_field(out, &request.qos)?;
    push_field(out, &request.payload)?;
    push_field(out, &now)
}

fn push_reply(out: &mut Vec<u8>, face: FaceId, response: &Response) -> Result<(), AllocError>
    ensures { OnOk result (out.new.items ≡ out.old.items ++ reply_words face response.now) }
{
    push_ids(out, "reply", face, &response.rid)?;
    push_field(out, &response.wire)?;
    push_body(out, &response.payload)?;
    push_by(out, &response.responder)
}

/// Writes the line of a request, of what answers it, or of a moment; else of a declaration.
fn push_asking(out: &mut Vec<u8>, call: &Call) -> Result<(), AllocError>
    ensures { OnOk result (out.new.items ≡ out.old.items ++ asking_words call.now) }
{
    match call {
        Call::Request { face, request, now } => push_ask(out, *face, request, *now),
        Call::Response { face, response } => push_reply(out, *face, response),
        Call::ResponseFinal { face, rid } => push_ids(out, "final", *face, rid),
        Call::Sent { reply } => push_first(out, "sent", reply),
        Call::Poll { now } => push_first(out, "poll", now),
        _ => push_declaring(out, call),
    }
}

/// Writes the line of a region's table or of a face's; else of a request or a declaration.
fn push_table(out: &mut Vec<u8>, call: &Call) -> Result<(), AllocError>
    ensures { OnOk result (out.new.items ≡ out.old.items ++ table_words call.now) }
{
    match call {
        Call::SetGateways { region, table } => {
            push_first(out, "gateways", region)?;
            push_items(out, table.of.as_slice())?;
            push_field(out, &table.all)
        }
        Call::SetNetwork { region, net } => {
            push_first(out, "network", region)?;
            push_field(out, &net.nodes)?;
            push_items(out, net.trees.as_slice())?;
            push_field(out, &net.distances)
        }
        Call::SetNodeIds { face, ids } => {
            push_first(out, "nodes", face)?;
            push_field(out, &ids.ids)
        }
        _ => push_asking(out, call),
    }
}

/// Writes the line of an interest.
fn push_interest(
    out: &mut Vec<u8>,
    face: FaceId,
    id: u32,
    keys: bool,
    aggregate: bool,
    wire: &Option<WireExpr>,
) -> Result<(), AllocError>
    ensures { OnOk result (out.new.items ≡ out.old.items ++ call_words (call.Interest face id keys aggregate wire.now)) }
{
    push_ids(out, "interest", face, &id)?;
    push_field(out, wire)?;
    push_flag(out, "k", "n", keys)?;
    push_aggregate(out, aggregate)
}

/// Writes a call as a line.
pub fn push_call(out: &mut Vec<u8>, call: &Call) -> Result<(), AllocError>
    ensures { OnOk result (out.new.items ≡ out.old.items ++ call_words call.now) }
{
    match call {
        Call::Open(opening) => {
            push_text(out, "open")?;
            push_opening(out, opening)
        }
        Call::Close { face } => push_first(out, "close", face),
        Call::Interest {
            face,
            id,
            keys,
            aggregate,
            wire,
        } => push_interest(out, *face, *id, *keys, *aggregate, wire),
        Call::InterestFinal { face, id } => push_ids(out, "uninterest", *face, id),
        Call::FinalizeInterest { face, mark, set } => {
            push_first(out, "finalize", face)?;
            push_mark(out, mark)?;
            push_flag(out, "1", "0", *set)
        }
        _ => push_table(out, call),
    }
}

/// The line of a call, without the newline that ends it in a script.
#[tactic(auto, using(crate::proofs::Flat::call_flat, crate::proofs::LinesBack::call_back))]
pub fn print_call(alloc: Global, call: &Call) -> Result<Bytes, OutOfMemory>
    ensures words { IfOk result (λ b. b ≡ call_words call.now) }
    ensures newline { IfOk result (λ b. lacks 10 b ≡ true) }
    ensures back { FitsCall call.now → call_of (call_words call.now) ≡ Some call.now }
{
    let mut out = Vec::new(alloc);
    push_call(&mut out, call)?;
    Ok(Bytes::from_vec(out))
}
