//! The messages of a face as calls.
ghost use Rattle.std.specs.Prelude.{◌≡◌};
ghost use Rattle.zq_machine.specs.declared.call.Call.TheVariants as call;
ghost use Rattle.zq_machine.specs.Calls.{declared_call, ending_call, message_call};

use std::marker::Model;
use zq_key::message::{Declare, DeclareBody, FaceId, Message};
use zq_machine::call::Call;
use zq_strategy::types::FinalMark;

/// Turns the messages of a face into calls (upstream's `DeMux`).
#[derive(Clone, Copy, Debug, PartialEq, Eq)]
pub struct DeMux {
    /// The face that sends them.
    pub face: FaceId,
}

/// The end of declarations sets the face's initial mark where it answers the interest 0.
fn ended(face: FaceId, interest: Option<u32>) -> Option<Call>
    ensures { result ≡ ending_call face interest }
{
    match interest {
        Some(0) => Some(Call::FinalizeInterest {
            face,
            mark: FinalMark::Initial,
            set: true,
        }),
        _ => None,
    }
}

fn declared(face: FaceId, declare: Declare) -> Option<Call>
    ensures { result ≡ declared_call face declare }
{
    let Declare {
        interest,
        node,
        body,
    } = declare;
    match body {
        DeclareBody::DeclareKeyExpr { id, wire } => Some(Call::DeclareKeyExpr { face, id, wire }),
        DeclareBody::UndeclareKeyExpr { id } => Some(Call::UndeclareKeyExpr { face, id }),
        DeclareBody::DeclareQueryable { id, wire, info } => Some(Call::DeclareQueryable {
            face,
            id,
            wire,
            info,
            node,
        }),
        DeclareBody::UndeclareQueryable { id, wire } => Some(Call::UndeclareQueryable {
            face,
            id,
            wire,
            node,
        }),
        DeclareBody::DeclareFinal => ended(face, interest),
    }
}

impl DeMux {
    /// The call that a message makes, at a moment in milliseconds, which is read for requests alone.
    /// None for the end of declarations that answers another interest than 0, or none.
    pub fn handle_message(&self, msg: Message, now: u64) -> Option<Call>
        ensures { result ≡ message_call self.now.face msg now }
    {
        let face = self.face;
        match msg {
            Message::Interest(interest) => Some(Call::Interest {
                face,
                id: interest.id,
                keys: interest.keys,
                aggregate: interest.aggregate,
                wire: interest.wire,
            }),
            Message::InterestFinal(id) => Some(Call::InterestFinal { face, id }),
            Message::Declare(declare) => declared(face, declare),
            Message::Request(request) => Some(Call::Request { face, request, now }),
            Message::Response(response) => Some(Call::Response { face, response }),
            Message::ResponseFinal(last) => Some(Call::ResponseFinal {
                face,
                rid: last.rid,
            }),
        }
    }

    /// The call that the end of the face's connection makes.
    pub fn closed(&self) -> Call
        ensures { result ≡ call.Close self.now.face }
    {
        Call::Close { face: self.face }
    }
}
