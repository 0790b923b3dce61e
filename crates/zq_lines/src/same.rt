//! Whether two messages are the same.
ghost use Rattle.std.specs.Prelude.{◌≡◌, Decides};
ghost use Rattle.std.specs.Option.{option_eq};
ghost use Rattle.zq_lines.specs.Same.{same_mapping, same_target, same_wire, same_info, same_reply, same_request, same_response, same_interest, same_body, same_declare, same_message};

use zq_key::message::{
    Declare, DeclareBody, Interest, Mapping, Message, QueryTarget, QueryableInfoType, ReplyBody,
    Request, Response, WireExpr,
};

fn same_mapping(a: Mapping, b: Mapping) -> bool
    ensures { result ≡ same_mapping a b }
{
    matches!(
        (a, b),
        (Mapping::Sender, Mapping::Sender) | (Mapping::Receiver, Mapping::Receiver)
    )
}

fn same_target(a: QueryTarget, b: QueryTarget) -> bool
    ensures { result ≡ same_target a b }
{
    matches!(
        (a, b),
        (QueryTarget::All, QueryTarget::All)
            | (QueryTarget::AllComplete, QueryTarget::AllComplete)
            | (QueryTarget::BestMatching, QueryTarget::BestMatching)
    )
}

fn same_wire(a: &WireExpr, b: &WireExpr) -> bool
    ensures { result ≡ same_wire a.now b.now }
{
    a.scope == b.scope
        && same_mapping(a.mapping, b.mapping)
        && a.suffix.as_str().as_bytes() == b.suffix.as_str().as_bytes()
}

fn same_option_wire(a: &Option<WireExpr>, b: &Option<WireExpr>) -> bool
    ensures { result ≡ option_eq same_wire a.now b.now }
{
    match (a, b) {
        (None, None) => true,
        (Some(a), Some(b)) => same_wire(a, b),
        _ => false,
    }
}

fn same_info(a: &QueryableInfoType, b: &QueryableInfoType) -> bool
    ensures { result ≡ same_info a.now b.now }
{
    a.complete == b.complete && a.distance == b.distance
}

fn same_request(a: &Request, b: &Request) -> bool
    ensures { result ≡ same_request a.now b.now }
{
    a.id == b.id
        && same_wire(&a.wire, &b.wire)
        && same_target(a.target, b.target)
        && a.timeout == b.timeout
        && a.node == b.node
        && a.qos == b.qos
        && a.payload.as_slice() == b.payload.as_slice()
}

fn same_reply(a: &ReplyBody, b: &ReplyBody) -> bool
    ensures { result ≡ same_reply a.now b.now }
{
    match (a, b) {
        (ReplyBody::Reply(a), ReplyBody::Reply(b)) => a.as_slice() == b.as_slice(),
        (ReplyBody::Err(a), ReplyBody::Err(b)) => a.as_slice() == b.as_slice(),
        _ => false,
    }
}

fn same_response(a: &Response, b: &Response) -> bool
    ensures { result ≡ same_response a.now b.now }
{
    a.rid == b.rid
        && same_wire(&a.wire, &b.wire)
        && a.qos == b.qos
        && same_reply(&a.payload, &b.payload)
        && a.responder == b.responder
}

fn same_interest(a: &Interest, b: &Interest) -> bool
    ensures { result ≡ same_interest a.now b.now }
{
    a.id == b.id
        && a.keys == b.keys
        && a.aggregate == b.aggregate
        && same_option_wire(&a.wire, &b.wire)
}

fn same_body(a: &DeclareBody, b: &DeclareBody) -> bool
    ensures { result ≡ same_body a.now b.now }
{
    use DeclareBody::*;
    match (a, b) {
        (
            DeclareKeyExpr { id, wire },
            DeclareKeyExpr {
                id: id2,
                wire: wire2,
            },
        ) => { id == id2 && same_wire(wire, wire2) }
        (UndeclareKeyExpr { id }, UndeclareKeyExpr { id: id2 }) => id == id2,
        (
            DeclareQueryable { id, wire, info },
            DeclareQueryable {
                id: id2,
                wire: wire2,
                info: info2,
            },
        ) => id == id2 && same_wire(wire, wire2) && same_info(info, info2),
        (
            UndeclareQueryable { id, wire },
            UndeclareQueryable {
                id: id2,
                wire: wire2,
            },
        ) => { id == id2 && same_option_wire(wire, wire2) }
        (DeclareFinal, DeclareFinal) => true,
        _ => false,
    }
}

fn same_declare(a: &Declare, b: &Declare) -> bool
    ensures { result ≡ same_declare a.now b.now }
{
    a.interest == b.interest && a.node == b.node && same_body(&a.body, &b.body)
}

fn same_kind(a: &Message, b: &Message) -> bool
    ensures { result ≡ same_message a.now b.now }
{
    match (a, b) {
        (Message::Interest(a), Message::Interest(b)) => same_interest(a, b),
        (Message::InterestFinal(a), Message::InterestFinal(b)) => a == b,
        (Message::Declare(a), Message::Declare(b)) => same_declare(a, b),
        (Message::Request(a), Message::Request(b)) => same_request(a, b),
        (Message::Response(a), Message::Response(b)) => same_response(a, b),
        (Message::ResponseFinal(a), Message::ResponseFinal(b)) => a.rid == b.rid && a.qos == b.qos,
        _ => false,
    }
}

/// Whether the messages are the same, field by field.
#[tactic(auto, using(crate::proofs::Sameness::message_same))]
pub fn same_message(a: &Message, b: &Message) -> bool
    ensures value { result ≡ same_message a.now b.now }
    ensures same { Decides result (a.now ≡ b.now) }
{
    same_kind(a, b)
}
