//! Which calls can be moved into a namespace, and the moved calls.
ghost use Rattle.std.specs.Prelude.{◌≡◌, true, IfOk, IsTrue, List, map};
ghost use Rattle.std.specs.List.{list_all};
ghost use Rattle.zq_key.specs.Key.{is_plain};
ghost use Rattle.zq_key.specs.Space.{behind};
ghost use Rattle.zq_strategy.specs.Moved.{move_mark};
ghost use Rattle.zq_machine.specs.Hearing.{has_text};
ghost use Rattle.zq_moved.specs.Moving.{can_move, can_move_call, can_move_mark, can_move_opening, can_move_option, can_move_reply, can_move_wire, is_copied, is_declaring, is_queryable, moved, moved_call, moved_opening};

use std::alloc::Global;
use zq_key::Key;
use zq_key::items::Items;
use zq_key::memory::OutOfMemory;
use zq_key::message::{Mapping, ReplyBody, Response, TextList, WireExpr, copy_option};
use zq_key::text::Text;
use zq_machine::call::{Call, Opening};
use zq_strategy::types::FinalMark;

fn can_move_wire(wire: &WireExpr) -> bool
    ensures { result ≡ can_move_wire wire.now }
{
    if wire.scope == 0 {
        return !wire.suffix.as_str().is_empty();
    }
    wire.mapping == Mapping::Sender
}

fn can_move_option(wire: &Option<WireExpr>) -> bool
    ensures { result ≡ can_move_option wire.now }
{
    match wire {
        Some(wire) => can_move_wire(wire),
        None => true,
    }
}

fn can_move_reply(response: &Response) -> bool
    ensures { result ≡ can_move_reply response.now }
{
    let bare = response.wire.scope == 0 && response.wire.suffix.as_str().is_empty();
    (matches!(&response.payload, ReplyBody::Err(_)) && bare) || can_move_wire(&response.wire)
}

fn can_move_mark(mark: &FinalMark) -> bool
    ensures { result ≡ can_move_mark mark.now }
{
    match mark {
        FinalMark::Initial => true,
        FinalMark::Key(text) => !text.as_str().is_empty(),
    }
}

fn have_text(texts: &[Text]) -> bool
    ensures { result ≡ list_all has_text texts.now }
{
    texts.iter().all(|text| !text.as_str().is_empty())
}

fn can_move_opening(opening: &Opening) -> bool
    ensures { result ≡ can_move_opening opening.now }
{
    opening.namespace.is_none()
        && have_text(opening.entry_deny.as_slice())
        && have_text(opening.exit_deny.as_slice())
}

/// Whether one call can be moved into a namespace.
pub fn can_move_call(call: &Call) -> bool
    ensures { result ≡ can_move_call call.now }
{
    match call {
        Call::Open(opening) => can_move_opening(opening),
        Call::DeclareKeyExpr { wire, .. } => can_move_wire(wire),
        Call::DeclareQueryable { wire, .. } => can_move_wire(wire),
        Call::UndeclareQueryable { wire, .. } => can_move_option(wire),
        Call::Request { request, .. } => can_move_wire(&request.wire),
        Call::Response { response, .. } => can_move_reply(response),
        Call::FinalizeInterest { mark, .. } => can_move_mark(mark),
        Call::Interest { wire, .. } => can_move_option(wire),
        _ => true,
    }
}

/// Whether calls can be moved into a namespace: no face is opened in one, none writes an empty text without a
/// number but in an error reply, nor a number of its receiver, and no mark and no deny list has an empty text.
pub fn can_move(calls: &[Call]) -> bool
    ensures { result ≡ can_move calls.now }
{
    calls.iter().all(|call| can_move_call(call))
}

fn behind(alloc: Global, ns: &str, text: &Text) -> Result<Text, OutOfMemory>
    ensures { IfOk result (λ t. t ≡ behind ns.now text.now) }
{
    Text::joined(alloc, ns, "/", text.as_str())
}

fn all_behind(alloc: Global, ns: &str, texts: &[Text]) -> Result<TextList, OutOfMemory>
    ensures { IfOk result (λ l. l ≡ map (behind ns.now) texts.now) }
{
    let mut moved = Items::new(alloc);
    for text in texts {
        moved.push(behind(alloc, ns, text)?)?;
    }
    Ok(moved)
}

fn moved_mark(alloc: Global, ns: &str, mark: &FinalMark) -> Result<FinalMark, OutOfMemory>
    ensures { IfOk result (λ m. m ≡ move_mark (behind ns.now) mark.now) }
{
    match mark {
        FinalMark::Initial => Ok(FinalMark::Initial),
        FinalMark::Key(text) => Ok(FinalMark::Key(behind(alloc, ns, text)?)),
    }
}

fn moved_opening(alloc: Global, ns: &str, opening: &Opening) -> Result<Opening, OutOfMemory>
    ensures { IfOk result (λ o. o ≡ moved_opening ns.now opening.now) }
{
    Ok(Opening {
        region: opening.region,
        zid: opening.zid,
        mode: opening.mode,
        remote_bound: opening.remote_bound,
        namespace: Some(Text::new(alloc, ns)?),
        entry_deny: all_behind(alloc, ns, opening.entry_deny.as_slice())?,
        exit_deny: all_behind(alloc, ns, opening.exit_deny.as_slice())?,
    })
}

/// A copy of a queryable's declaration or withdrawal.
fn copied_queryable(alloc: Global, call: &Call) -> Result<Call, OutOfMemory>
    requires { IsTrue (is_queryable call.now) }
    ensures { IfOk result (λ c. c ≡ call.now) }
{
    Ok(match call {
        Call::DeclareQueryable {
            face,
            id,
            wire,
            info,
            node,
        } => Call::DeclareQueryable {
            face: *face,
            id: *id,
            wire: wire.copy(alloc)?,
            info: *info,
            node: *node,
        },
        Call::UndeclareQueryable {
            face,
            id,
            wire,
            node,
        } => Call::UndeclareQueryable {
            face: *face,
            id: *id,
            wire: copy_option(alloc, wire)?,
            node: *node,
        },
        _ => unreachable!(),
    })
}

/// A copy of a call that declares something or asks to hear, or that ends it.
fn copied_declaring(alloc: Global, call: &Call) -> Result<Call, OutOfMemory>
    requires { IsTrue (is_declaring call.now) }
    ensures { IfOk result (λ c. c ≡ call.now) }
{
    Ok(match call {
        Call::DeclareKeyExpr { face, id, wire } => Call::DeclareKeyExpr {
            face: *face,
            id: *id,
            wire: wire.copy(alloc)?,
        },
        Call::UndeclareKeyExpr { face, id } => Call::UndeclareKeyExpr {
            face: *face,
            id: *id,
        },
        Call::Interest {
            face,
            id,
            keys,
            aggregate,
            wire,
        } => Call::Interest {
            face: *face,
            id: *id,
            keys: *keys,
            aggregate: *aggregate,
            wire: copy_option(alloc, wire)?,
        },
        Call::InterestFinal { face, id } => Call::InterestFinal {
            face: *face,
            id: *id,
        },
        _ => copied_queryable(alloc, call)?,
    })
}

/// A copy of a call that is no opening and sets no mark.
fn copied(alloc: Global, call: &Call) -> Result<Call, OutOfMemory>
    requires { IsTrue (is_copied call.now) }
    ensures { IfOk result (λ c. c ≡ call.now) }
{
    Ok(match call {
        Call::Close { face } => Call::Close { face: *face },
        Call::Request { face, request, now } => Call::Request {
            face: *face,
            request: request.copy(alloc)?,
            now: *now,
        },
        Call::Response { face, response } => Call::Response {
            face: *face,
            response: response.copy(alloc)?,
        },
        Call::ResponseFinal { face, rid } => Call::ResponseFinal {
            face: *face,
            rid: *rid,
        },
        Call::Sent { reply } => Call::Sent { reply: *reply },
        Call::Poll { now } => Call::Poll { now: *now },
        Call::SetGateways { region, table } => Call::SetGateways {
            region: *region,
            table: table.copy(alloc)?,
        },
        Call::SetNetwork { region, net } => Call::SetNetwork {
            region: *region,
            net: net.copy(alloc)?,
        },
        Call::SetNodeIds { face, ids } => Call::SetNodeIds {
            face: *face,
            ids: ids.copy(alloc)?,
        },
        _ => copied_declaring(alloc, call)?,
    })
}

/// One call as it is made in the namespace.
fn moved_call(alloc: Global, ns: &str, call: &Call) -> Result<Call, OutOfMemory>
    ensures { IfOk result (λ c. c ≡ moved_call ns.now call.now) }
{
    match call {
        Call::Open(opening) => Ok(Call::Open(moved_opening(alloc, ns, opening)?)),
        Call::FinalizeInterest { face, mark, set } => Ok(Call::FinalizeInterest {
            face: *face,
            mark: moved_mark(alloc, ns, mark)?,
            set: *set,
        }),
        _ => copied(alloc, call),
    }
}

/// The calls as they are made in the namespace: each face is opened in it, and each text of a mark and of a deny list goes
/// behind it.
pub fn moved(alloc: Global, ns: &Key, calls: &[Call]) -> Result<Items<Call>, OutOfMemory>
    requires plain { IsTrue (is_plain ns.now) }
    requires moves { IsTrue (can_move calls.now) }
    ensures { IfOk result (λ l. l ≡ moved ns.now calls.now) }
{
    let mut all = Items::new(alloc);
    for call in calls {
        all.push(moved_call(alloc, ns.as_str(), call)?)?;
    }
    Ok(all)
}
