//! What one line says.
ghost use Rattle.std.specs.Prelude.{◌≡◌, IfOk, map, filter, take, length};
ghost use Rattle.std.specs.Result.{result_map_both};
ghost use Rattle.zq_io.specs.Words.{Reads, read_at, at_end, read_each, pieces};
ghost use Rattle.zq_lines.specs.Lines.{deny_of, denies_of, at_side, deny_text, opening_of, close_of, key_of, unkey_of, info_at, queryable_of, unqueryable_of, aggregate_of, interest_of, uninterest_of, mark_by, mark_at, finalize_of, manner_at, ask_of, body_by, body_at, by_of, responder_of, reply_of, final_of, sent_of, poll_of, gateways_of, network_of, nodes_of, call_by, other_by, call_of};

use crate::tables::{EntriesOf, TreesOf};
use std::alloc::Global;
use zq_io::stop::Stop;
use zq_io::values::{flag_at, flag_of};
use zq_io::words::{Word, at_end, cut, is, len_to, read_at, read_each, text_of};
use zq_key::items::Items;
use zq_key::memory::OutOfMemory;
use zq_key::message::{
    Bound, FaceId, Mode, QueryTarget, QueryableInfoType, Region, ReplyBody, Request, Response,
    TextList, WireExpr, Zid,
};
use zq_key::text::{Bytes, Text};
use zq_machine::call::{Call, Opening};
use zq_route::gateways::Gateways;
use zq_strategy::types::{FinalMark, Network, NodeIds};

/// An entry of one of the two deny lists.
#[derive(Debug, Drop)]
pub struct Deny {
    /// Whether it is of the list for what the face asks (`in:`), not for what it is asked (`out:`).
    pub entry: bool,
    /// A key: what it includes is denied.
    pub text: Text,
}

impl Word for Deny {
    type Value = Deny;

    ghost of = { deny_of };

    #[tactic(auto, unfolding(crate::specs::Lines::deny_of))]
    fn read(alloc: Global, word: &[u8]) -> Result<Deny, Stop> {
        let (side, text) = cut(b':', word).ok_or(Stop::Bad)?;
        let entry = flag_of("in", "out", side).ok_or(Stop::Bad)?;
        let text = text_of(alloc, text)?;
        Ok(Deny { entry, text })
    }
}

/// The items of the two lists, up to the end of the line.
fn denies_of(alloc: Global, bytes: &[u8]) -> Result<Items<Deny>, Stop>
    ensures { Reads result (denies_of bytes.now) }
{
    match bytes {
        [] => Ok(Items::new(alloc)),
        [b' ', rest @ ..] => read_each::<Deny>(alloc, b' ', rest),
        _ => Err(Stop::Bad),
    }
}

/// The texts of the items of this side, in order.
fn texts_at(alloc: Global, entry: bool, denies: &[Deny]) -> Result<TextList, OutOfMemory>
    ensures { IfOk result (λ t. t ≡ map deny_text (filter (at_side entry) denies.now)) }
{
    let mut texts = Items::new(alloc);
    'denies: for deny in denies {
        if deny.entry == entry {
            texts.push(deny.text.copy(alloc)?)?;
        }
    }
    Ok(texts)
}

#[tactic(auto, unfolding(crate::specs::Lines::opening_of))]
fn opening_of(alloc: Global, bytes: &[u8]) -> Result<Call, Stop>
    ensures { Reads result (opening_of bytes.now) }
{
    let (region, rest) = read_at::<Region>(alloc, bytes)?;
    let (zid, rest) = read_at::<Zid>(alloc, rest)?;
    let (mode, rest) = read_at::<Mode>(alloc, rest)?;
    let (remote_bound, rest) = read_at::<Bound>(alloc, rest)?;
    let (namespace, rest) = read_at::<Option<Text>>(alloc, rest)?;
    let denies = denies_of(alloc, rest)?;
    Ok(Call::Open(Opening {
        region,
        zid,
        mode,
        remote_bound,
        namespace,
        entry_deny: texts_at(alloc, true, denies.as_slice())?,
        exit_deny: texts_at(alloc, false, denies.as_slice())?,
    }))
}

#[tactic(auto, unfolding(crate::specs::Lines::close_of))]
fn close_of(alloc: Global, bytes: &[u8]) -> Result<Call, Stop>
    ensures { Reads result (close_of bytes.now) }
{
    let (face, rest) = read_at::<FaceId>(alloc, bytes)?;
    at_end(rest, Call::Close { face })
}

#[tactic(auto, unfolding(crate::specs::Lines::key_of))]
fn key_of(alloc: Global, bytes: &[u8]) -> Result<Call, Stop>
    ensures { Reads result (key_of bytes.now) }
{
    let (face, rest) = read_at::<FaceId>(alloc, bytes)?;
    let (id, rest) = read_at::<u16>(alloc, rest)?;
    let (wire, rest) = read_at::<WireExpr>(alloc, rest)?;
    at_end(rest, Call::DeclareKeyExpr { face, id, wire })
}

#[tactic(auto, unfolding(crate::specs::Lines::unkey_of))]
fn unkey_of(alloc: Global, bytes: &[u8]) -> Result<Call, Stop>
    ensures { Reads result (unkey_of bytes.now) }
{
    let (face, rest) = read_at::<FaceId>(alloc, bytes)?;
    let (id, rest) = read_at::<u16>(alloc, rest)?;
    at_end(rest, Call::UndeclareKeyExpr { face, id })
}

/// c or p, and a distance.
#[tactic(auto, unfolding(crate::specs::Lines::info_at))]
fn info_at(alloc: Global, bytes: &[u8]) -> Result<(QueryableInfoType, &[u8]), Stop>
    ensures { Reads (result_map_both (λ t. (t.0, t.1.now)) (λ e. e) result) (info_at bytes.now) }
{
    let (complete, rest) = flag_at("c", "p", bytes).ok_or(Stop::Bad)?;
    let (distance, rest) = read_at::<u16>(alloc, rest)?;
    Ok((QueryableInfoType { complete, distance }, rest))
}

#[tactic(auto, unfolding(crate::specs::Lines::queryable_of))]
fn queryable_of(alloc: Global, bytes: &[u8]) -> Result<Call, Stop>
    ensures { Reads result (queryable_of bytes.now) }
{
    let (face, rest) = read_at::<FaceId>(alloc, bytes)?;
    let (id, rest) = read_at::<u32>(alloc, rest)?;
    let (wire, rest) = read_at::<WireExpr>(alloc, rest)?;
    let (info, rest) = info_at(alloc, rest)?;
    let (node, rest) = read_at::<u16>(alloc, rest)?;
    at_end(
        rest,
        Call::DeclareQueryable {
            face,
            id,
            wire,
            info,
            node,
        },
    )
}

#[tactic(auto, unfolding(crate::specs::Lines::unqueryable_of))]
fn unqueryable_of(alloc: Global, bytes: &[u8]) -> Result<Call, Stop>
    ensures { Reads result (unqueryable_of bytes.now) }
{
    let (face, rest) = read_at::<FaceId>(alloc, bytes)?;
    let (id, rest) = read_at::<u32>(alloc, rest)?;
    let (wire, rest) = read_at::<Option<WireExpr>>(alloc, rest)?;
    let (node, rest) = read_at::<u16>(alloc, rest)?;
    at_end(
        rest,
        Call::UndeclareQueryable {
            face,
            id,
            wire,
            node,
        },
    )
}

/// Whether an interest is aggregating: the line goes on, with a last word.
#[tactic(auto, unfolding(crate::specs::Lines::aggregate_of))]
fn aggregate_of(bytes: &[u8]) -> Result<bool, Stop>
    ensures { Reads result (aggregate_of bytes.now) }
{
    match bytes {
        [] => Ok(false),
        [b' ', b'a'] => Ok(true),
        _ => Err(Stop::Bad),
    }
}

#[tactic(auto, unfolding(crate::specs::Lines::interest_of))]
fn interest_of(alloc: Global, bytes: &[u8]) -> Result<Call, Stop>
    ensures { Reads result (interest_of bytes.now) }
{
    let (face, rest) = read_at::<FaceId>(alloc, bytes)?;
    let (id, rest) = read_at::<u32>(alloc, rest)?;
    let (wire, rest) = read_at::<Option<WireExpr>>(alloc, rest)?;
    let (keys, rest) = flag_at("k", "n", rest).ok_or(Stop::Bad)?;
    let aggregate = aggregate_of(rest)?;
    Ok(Call::Interest {
        face,
        id,
        keys,
        aggregate,
        wire,
    })
}

#[tactic(auto, unfolding(crate::specs::Lines::uninterest_of))]
fn uninterest_of(alloc: Global, bytes: &[u8]) -> Result<Call, Stop>
    ensures { Reads result (uninterest_of bytes.now) }
{
    let (face, rest) = read_at::<FaceId>(alloc, bytes)?;
    let (id, rest) = read_at::<u32>(alloc, rest)?;
    at_end(rest, Call::InterestFinal { face, id })
}

#[tactic(auto, unfolding(crate::specs::Lines::mark_by))]
fn mark_by(alloc: Global, key: bool, bytes: &[u8]) -> Result<(FinalMark, &[u8]), Stop>
    ensures { Reads (result_map_both (λ t. (t.0, t.1.now)) (λ e. e) result) (mark_by key bytes.now) }
{
    if !key {
        return Ok((FinalMark::Initial, bytes));
    }
    let (text, rest) = read_at::<Text>(alloc, bytes)?;
    Ok((FinalMark::Key(text), rest))
}

#[tactic(auto, unfolding(crate::specs::Lines::mark_at))]
fn mark_at(alloc: Global, bytes: &[u8]) -> Result<(FinalMark, &[u8]), Stop>
    ensures { Reads (result_map_both (λ t. (t.0, t.1.now)) (λ e. e) result) (mark_at bytes.now) }
{
    let (key, rest) = flag_at("key", "initial", bytes).ok_or(Stop::Bad)?;
    mark_by(alloc, key, rest)
}

#[tactic(auto, unfolding(crate::specs::Lines::finalize_of))]
fn finalize_of(alloc: Global, bytes: &[u8]) -> Result<Call, Stop>
    ensures { Reads result (finalize_of bytes.now) }
{
    let (face, rest) = read_at::<FaceId>(alloc, bytes)?;
    let (mark, rest) = mark_at(alloc, rest)?;
    let (set, rest) = flag_at("1", "0", rest).ok_or(Stop::Bad)?;
    at_end(rest, Call::FinalizeInterest { face, mark, set })
}

/// What stands between the expression and the payload of a request.
#[tactic(auto, unfolding(crate::specs::Lines::manner_at))]
fn manner_at(
    alloc: Global,
    bytes: &[u8],
) -> Result<(QueryTarget, Option<u64>, u16, u8, &[u8]), Stop>
    ensures { Reads (result_map_both (λ t. (t.0, t.1, t.2, t.3, t.4.now)) (λ e. e) result) (manner_at bytes.now) }
{
    let (target, rest) = read_at::<QueryTarget>(alloc, bytes)?;
    let (timeout, rest) = read_at::<Option<u64>>(alloc, rest)?;
    let (node, rest) = read_at::<u16>(alloc, rest)?;
    let (qos, rest) = read_at::<u8>(alloc, rest)?;
    Ok((target, timeout, node, qos, rest))
}

#[tactic(auto, unfolding(crate::specs::Lines::ask_of))]
fn ask_of(alloc: Global, bytes: &[u8]) -> Result<Call, Stop>
    ensures { Reads result (ask_of bytes.now) }
{
    let (face, rest) = read_at::<FaceId>(alloc, bytes)?;
    let (id, rest) = read_at::<u32>(alloc, rest)?;
    let (wire, rest) = read_at::<WireExpr>(alloc, rest)?;
    let (target, timeout, node, qos, rest) = manner_at(alloc, rest)?;
    let (payload, rest) = read_at::<Bytes>(alloc, rest)?;
    let (now, rest) = read_at::<u64>(alloc, rest)?;
    at_end(
        rest,
        Call::Request {
            face,
            request: Request {
                id,
                wire,
                target,
                timeout,
                node,
                qos,
                payload,
            },
            now,
        },
    )
}

fn body_by(ok: bool, payload: Bytes) -> ReplyBody
    ensures { result ≡ body_by ok payload }
{
    if ok {
        ReplyBody::Reply(payload)
    } else {
        ReplyBody::Err(payload)
    }
}

#[tactic(auto, unfolding(crate::specs::Lines::body_at))]
fn body_at(alloc: Global, bytes: &[u8]) -> Result<(ReplyBody, &[u8]), Stop>
    ensures { Reads (result_map_both (λ t. (t.0, t.1.now)) (λ e. e) result) (body_at bytes.now) }
{
    let (ok, rest) = flag_at("ok", "err", bytes).ok_or(Stop::Bad)?;
    let (payload, rest) = read_at::<Bytes>(alloc, rest)?;
    Ok((body_by(ok, payload), rest))
}

/// The word of a responder: `by:` and an id.
struct ByOf;

impl Word for ByOf {
    type Value = Zid;

    ghost of = { by_of };

    #[tactic(auto, unfolding(crate::specs::Lines::by_of))]
    fn read(alloc: Global, word: &[u8]) -> Result<Zid, Stop> {
        let (front, zid) = cut(b':', word).ok_or(Stop::Bad)?;
        if !is(front, "by") {
            return Err(Stop::Bad);
        }
        Zid::read(alloc, zid)
    }
}

/// The responder, if the line goes on.
#[tactic(auto, unfolding(crate::specs::Lines::responder_of))]
fn responder_of(alloc: Global, bytes: &[u8]) -> Result<Option<Zid>, Stop>
    ensures { Reads result (responder_of bytes.now) }
{
    if bytes.is_empty() {
        return Ok(None);
    }
    let (zid, rest) = read_at::<ByOf>(alloc, bytes)?;
    at_end(rest, Some(zid))
}

#[tactic(auto, unfolding(crate::specs::Lines::reply_of))]
fn reply_of(alloc: Global, bytes: &[u8]) -> Result<Call, Stop>
    ensures { Reads result (reply_of bytes.now) }
{
    let (face, rest) = read_at::<FaceId>(alloc, bytes)?;
    let (rid, rest) = read_at::<u32>(alloc, rest)?;
    let (wire, rest) = read_at::<WireExpr>(alloc, rest)?;
    let (payload, rest) = body_at(alloc, rest)?;
    let responder = responder_of(alloc, rest)?;
    Ok(Call::Response {
        face,
        response: Response {
            rid,
            wire,
            qos: 0,
            payload,
            responder,
        },
    })
}

#[tactic(auto, unfolding(crate::specs::Lines::final_of))]
fn final_of(alloc: Global, bytes: &[u8]) -> Result<Call, Stop>
    ensures value { Reads result (final_of bytes.now) }
{
    let (face, rest) = read_at::<FaceId>(alloc, bytes)?;
    let (rid, rest) = read_at::<u32>(alloc, rest)?;
    at_end(rest, Call::ResponseFinal { face, rid })
}

#[tactic(auto, unfolding(crate::specs::Lines::sent_of))]
fn sent_of(alloc: Global, bytes: &[u8]) -> Result<Call, Stop>
    ensures { Reads result (sent_of bytes.now) }
{
    let (reply, rest) = read_at::<u64>(alloc, bytes)?;
    at_end(rest, Call::Sent { reply })
}

#[tactic(auto, unfolding(crate::specs::Lines::poll_of))]
fn poll_of(alloc: Global, bytes: &[u8]) -> Result<Call, Stop>
    ensures { Reads result (poll_of bytes.now) }
{
    let (now, rest) = read_at::<u64>(alloc, bytes)?;
    at_end(rest, Call::Poll { now })
}

#[tactic(auto, unfolding(crate::specs::Lines::gateways_of))]
fn gateways_of(alloc: Global, bytes: &[u8]) -> Result<Call, Stop>
    ensures { Reads result (gateways_of bytes.now) }
{
    let (region, rest) = read_at::<Region>(alloc, bytes)?;
    let (of, rest) = read_at::<EntriesOf>(alloc, rest)?;
    let (all, rest) = read_at::<Option<Items<Zid>>>(alloc, rest)?;
    at_end(
        rest,
        Call::SetGateways {
            region,
            table: Gateways { of, all },
        },
    )
}

#[tactic(auto, unfolding(crate::specs::Lines::network_of))]
fn network_of(alloc: Global, bytes: &[u8]) -> Result<Call, Stop>
    ensures { Reads result (network_of bytes.now) }
{
    let (region, rest) = read_at::<Region>(alloc, bytes)?;
    let (nodes, rest) = read_at::<Items<Zid>>(alloc, rest)?;
    let (trees, rest) = read_at::<TreesOf>(alloc, rest)?;
    let (distances, rest) = read_at::<Items<u16>>(alloc, rest)?;
    at_end(
        rest,
        Call::SetNetwork {
            region,
            net: Network {
                nodes,
                trees,
                distances,
            },
        },
    )
}

#[tactic(auto, unfolding(crate::specs::Lines::nodes_of))]
fn nodes_of(alloc: Global, bytes: &[u8]) -> Result<Call, Stop>
    ensures { Reads result (nodes_of bytes.now) }
{
    let (face, rest) = read_at::<FaceId>(alloc, bytes)?;
    let (ids, rest) = read_at::<Items<Zid>>(alloc, rest)?;
    at_end(
        rest,
        Call::SetNodeIds {
            face,
            ids: NodeIds { ids },
        },
    )
}

#[tactic(auto, unfolding(crate::specs::Lines::other_by))]
fn other_by(alloc: Global, head: &[u8], bytes: &[u8]) -> Result<Call, Stop>
    ensures { Reads result (other_by head.now bytes.now) }
{
    if is(head, "open") {
        opening_of(alloc, bytes)
    } else if is(head, "close") {
        close_of(alloc, bytes)
    } else if is(head, "interest") {
        interest_of(alloc, bytes)
    } else if is(head, "uninterest") {
        uninterest_of(alloc, bytes)
    } else if is(head, "finalize") {
        finalize_of(alloc, bytes)
    } else if is(head, "gateways") {
        gateways_of(alloc, bytes)
    } else if is(head, "network") {
        network_of(alloc, bytes)
    } else if is(head, "nodes") {
        nodes_of(alloc, bytes)
    } else {
        Err(Stop::Bad)
    }
}

/// The kinds of calls that a long script is made of come first.
#[tactic(auto, unfolding(crate::specs::Lines::call_by))]
fn call_by(alloc: Global, head: &[u8], bytes: &[u8]) -> Result<Call, Stop>
    ensures { Reads result (call_by head.now bytes.now) }
{
    if is(head, "ask") {
        ask_of(alloc, bytes)
    } else if is(head, "reply") {
        reply_of(alloc, bytes)
    } else if is(head, "final") {
        final_of(alloc, bytes)
    } else if is(head, "sent") {
        sent_of(alloc, bytes)
    } else if is(head, "poll") {
        poll_of(alloc, bytes)
    } else if is(head, "queryable") {
        queryable_of(alloc, bytes)
    } else if is(head, "unqueryable") {
        unqueryable_of(alloc, bytes)
    } else if is(head, "key") {
        key_of(alloc, bytes)
    } else if is(head, "unkey") {
        unkey_of(alloc, bytes)
    } else {
        other_by(alloc, head, bytes)
    }
}

/// The call that a line says.
pub fn call_of(alloc: Global, line: &[u8]) -> Result<Call, Stop>
    ensures { Reads result (call_of line.now) }
{
    let (head, rest) = line.split_at(len_to(b' ', line));
    call_by(alloc, head, rest)
}
