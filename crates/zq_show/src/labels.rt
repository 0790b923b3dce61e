//! What a person reads of a call and of a message, beside its arrow.
ghost use Rattle.std.specs.Prelude.{◌≡◌, ◌++◌, OnOk, option_copied};
ghost use Rattle.zq_show.specs.Labels.{ask_label, body_label, call_label, declared_label, interest_label, key_words, mark_label, message_label, numbered_key, numbered_words, regional, reply_label, withdrawn_label, worded};

use crate::answer::push_named;
use std::alloc::AllocError;
use zq_io::show::push_field;
use zq_io::words::{push_number, push_text};
use zq_key::message::{
    DeclareBody, Message, QueryableInfoType, Region, ReplyBody, Request, Response, WireExpr,
};
use zq_key::text::Text;
use zq_machine::call::Call;
use zq_strategy::FinalMark;

/// Writes the text that an expression by a number stands for; where it is not known, the number in
/// brackets, and the rest.
fn push_numbered(out: &mut Vec<u8>, key: Option<&Text>, wire: &WireExpr) -> Result<(), AllocError>
    ensures { OnOk result (out.new.items ≡ out.old.items ++ numbered_words (option_copied key.entry) wire.now) }
{
    if let Some(key) = key {
        return push_text(out, key.as_str());
    }
    push_text(out, "[")?;
    push_number(out, wire.scope)?;
    push_text(out, "]")?;
    push_text(out, wire.suffix.as_str())
}

/// Writes an expression: its text, or what its number stands for.
fn push_key(out: &mut Vec<u8>, key: Option<&Text>, wire: &WireExpr) -> Result<(), AllocError>
    ensures { OnOk result (out.new.items ≡ out.old.items ++ key_words (option_copied key.entry) wire.now) }
{
    if wire.scope == 0 {
        return push_text(out, wire.suffix.as_str());
    }
    push_numbered(out, key, wire)
}

/// Writes a word, and the key that it is about.
fn push_worded(
    out: &mut Vec<u8>,
    word: &str,
    key: Option<&Text>,
    wire: &WireExpr,
) -> Result<(), AllocError>
    ensures { OnOk result (out.new.items ≡ out.old.items ++ worded word.now (option_copied key.entry) wire.now) }
{
    push_text(out, word)?;
    push_key(out, key, wire)
}

/// Writes a queryable that is declared.
fn push_declared(
    out: &mut Vec<u8>,
    key: Option<&Text>,
    wire: &WireExpr,
    info: QueryableInfoType,
) -> Result<(), AllocError>
    ensures { OnOk result (out.new.items ≡ out.old.items ++ declared_label (option_copied key.entry) wire.now info) }
{
    push_worded(out, "queryable ", key, wire)?;
    if info.complete {
        push_text(out, ", complete")?;
    }
    Ok(())
}

/// Writes a queryable that is withdrawn, by its key where that is said.
fn push_withdrawn(
    out: &mut Vec<u8>,
    id: u32,
    key: Option<&Text>,
    wire: &Option<WireExpr>,
) -> Result<(), AllocError>
    ensures { OnOk result (out.new.items ≡ out.old.items ++ withdrawn_label id (option_copied key.entry) wire.now) }
{
    match wire {
        Some(wire) => push_worded(out, "end of queryable ", key, wire),
        None => push_named(out, "end of queryable ", u64::from(id)),
    }
}

/// Writes a number that is given to a key.
fn push_numbered_key(
    out: &mut Vec<u8>,
    id: u16,
    key: Option<&Text>,
    wire: &WireExpr,
) -> Result<(), AllocError>
    ensures { OnOk result (out.new.items ≡ out.old.items ++ numbered_key id (option_copied key.entry) wire.now) }
{
    push_named(out, "key ", u64::from(id))?;
    push_worded(out, ": ", key, wire)
}

/// Writes an interest in a key, or in all.
fn push_interest(
    out: &mut Vec<u8>,
    key: Option<&Text>,
    wire: &Option<WireExpr>,
) -> Result<(), AllocError>
    ensures { OnOk result (out.new.items ≡ out.old.items ++ interest_label (option_copied key.entry) wire.now) }
{
    match wire {
        Some(wire) => push_worded(out, "interest in ", key, wire),
        None => push_text(out, "interest in all keys"),
    }
}

/// Writes a mark.
fn push_mark(out: &mut Vec<u8>, mark: &FinalMark, set: bool) -> Result<(), AllocError>
    ensures { OnOk result (out.new.items ≡ out.old.items ++ mark_label mark.now set) }
{
    push_text(
        out,
        if set {
            "all is declared"
        } else {
            "more may come"
        },
    )?;
    match mark {
        FinalMark::Initial => Ok(()),
        FinalMark::Key(text) => {
            push_text(out, " on ")?;
            push_text(out, text.as_str())
        }
    }
}

/// Writes a question.
fn push_ask(out: &mut Vec<u8>, key: Option<&Text>, request: &Request) -> Result<(), AllocError>
    ensures { OnOk result (out.new.items ≡ out.old.items ++ ask_label (option_copied key.entry) request.now) }
{
    push_worded(out, "ask ", key, &request.wire)?;
    push_text(out, ",")?;
    push_field(out, &request.target)
}

/// Writes a reply, or an error.
fn push_reply(out: &mut Vec<u8>, key: Option<&Text>, response: &Response) -> Result<(), AllocError>
    ensures { OnOk result (out.new.items ≡ out.old.items ++ reply_label (option_copied key.entry) response.now) }
{
    match &response.payload {
        ReplyBody::Reply(bytes) => {
            push_worded(out, "reply ", key, &response.wire)?;
            push_text(out, ": ")?;
            out.extend_from_slice(bytes.as_slice())
        }
        ReplyBody::Err(bytes) => {
            push_text(out, "error: ")?;
            out.extend_from_slice(bytes.as_slice())
        }
    }
}

/// Writes a word, and a region.
fn push_regional(out: &mut Vec<u8>, word: &str, region: &Region) -> Result<(), AllocError>
    ensures { OnOk result (out.new.items ≡ out.old.items ++ regional word.now region.now) }
{
    push_text(out, word)?;
    push_field(out, region)
}

/// Writes what a person reads of a call whose expression is of a key, if that is known.
pub fn push_call_label(out: &mut Vec<u8>, key: Option<&Text>, call: &Call) -> Result<(), AllocError>
    ensures { OnOk result (out.new.items ≡ out.old.items ++ call_label (option_copied key.entry) call.now) }
{
    match call {
        Call::Open(opening) => push_regional(out, "open in", &opening.region),
        Call::Close { .. } => push_text(out, "close"),
        Call::DeclareKeyExpr { id, wire, .. } => push_numbered_key(out, *id, key, wire),
        Call::UndeclareKeyExpr { id, .. } => push_named(out, "end of key ", u64::from(*id)),
        Call::DeclareQueryable { wire, info, .. } => push_declared(out, key, wire, *info),
        Call::UndeclareQueryable { id, wire, .. } => push_withdrawn(out, *id, key, wire),
        Call::Interest { wire, .. } => push_interest(out, key, wire),
        Call::InterestFinal { id, .. } => push_named(out, "end of interest ", u64::from(*id)),
        Call::FinalizeInterest { mark, set, .. } => push_mark(out, mark, *set),
        Call::Request { request, .. } => push_ask(out, key, request),
        Call::Response { response, .. } => push_reply(out, key, response),
        Call::ResponseFinal { .. } => push_text(out, "final"),
        Call::Sent { reply } => push_named(out, "sent reply ", *reply),
        Call::Poll { now } => push_named(out, "time ", *now),
        Call::SetGateways { region, .. } => push_regional(out, "gateways of", region),
        Call::SetNetwork { region, .. } => push_regional(out, "network of", region),
        Call::SetNodeIds { .. } => push_text(out, "node ids"),
    }
}

/// Writes what a person reads of a declaration.
fn push_body(out: &mut Vec<u8>, body: &DeclareBody) -> Result<(), AllocError>
    ensures { OnOk result (out.new.items ≡ out.old.items ++ body_label body.now) }
{
    match body {
        DeclareBody::DeclareKeyExpr { id, wire } => push_numbered_key(out, *id, None, wire),
        DeclareBody::UndeclareKeyExpr { id } => push_named(out, "end of key ", u64::from(*id)),
        DeclareBody::DeclareQueryable { wire, info, .. } => push_declared(out, None, wire, *info),
        DeclareBody::UndeclareQueryable { id, wire } => push_withdrawn(out, *id, None, wire),
        DeclareBody::DeclareFinal => push_text(out, "all is told"),
    }
}

/// Writes what a person reads of a message; a request is of this key, if it is known.
pub fn push_message_label(
    out: &mut Vec<u8>,
    key: Option<&Text>,
    message: &Message,
) -> Result<(), AllocError>
    ensures { OnOk result (out.new.items ≡ out.old.items ++ message_label (option_copied key.entry) message.now) }
{
    match message {
        Message::Interest(interest) => push_interest(out, None, &interest.wire),
        Message::InterestFinal(id) => push_named(out, "end of interest ", u64::from(*id)),
        Message::Declare(declare) => push_body(out, &declare.body),
        Message::Request(request) => push_worded(out, "request ", key, &request.wire),
        Message::Response(response) => push_reply(out, None, response),
        Message::ResponseFinal(_) => push_text(out, "final"),
    }
}
