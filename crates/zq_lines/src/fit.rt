//! What lies in memory fits its fields: a number is within its type, and a text is UTF-8. To know
//! it a number is read, and no byte of a text or of a payload is looked at.
ghost use Rattle.std.specs.Prelude.{◌≤◌};
ghost use Rattle.std.specs.List.{AllByRecursion};
ghost use Rattle.std.specs.Option.{option_copied};
ghost use Rattle.zq_io.specs.Fits.{IsBytes, IsText, FitsWire, FitsOption, FitsZid};
ghost use Rattle.zq_io.specs.Values.{most_8, most_32, most_64};
ghost use Rattle.zq_lines.specs.Fits.{FitsBody, FitsRequest, FitsResponse};
ghost use Rattle.zq_lines.specs.StepsFit.{FitsFinal, FitsInterest, FitsDeclareBody, FitsDeclare, FitsMessage, FitsOutcome, FitsHanded, FitsStep, ShowsDeclare, ShowsMessage, ShowsHanded, ShowsStep};

use zq_key::message::{
    Declare, DeclareBody, Interest, Message, ReplyBody, Request, Response, ResponseFinal, WireExpr,
    Zid,
};
use zq_machine::call::{Outcome, Step};
use zq_machine::handed::Handed;

fn bytes_fit(bytes: &[u8])
    ensures { IsBytes bytes.now }
{}

fn text_fits(text: &str)
    ensures { IsText text.now }
{
    bytes_fit(text.as_bytes());
}

fn id_fits(id: Option<u32>)
    ensures { FitsOption (λ n. n ≤ most_32) id }
{
    if let Some(_id) = id {}
}

fn number_fits(number: Option<u64>)
    ensures { FitsOption (λ n. n ≤ most_64) number }
{
    if let Some(_number) = number {}
}

fn wire_fits(wire: &WireExpr)
    ensures { FitsWire wire.now }
{
    let _scope = wire.scope;
    text_fits(wire.suffix.as_str());
}

fn wire_option_fits(wire: &Option<WireExpr>)
    ensures { FitsOption FitsWire wire.now }
{
    if let Some(wire) = wire {
        wire_fits(wire);
    }
}

fn zid_fits(zid: Option<Zid>)
    ensures { FitsOption FitsZid zid }
{
    if let Some(_zid) = zid {}
}

fn request_fits(request: &Request)
    ensures { FitsRequest request.now }
{
    let _id = request.id;
    let _node = request.node;
    let _qos = request.qos;
    wire_fits(&request.wire);
    number_fits(request.timeout);
    bytes_fit(request.payload.as_slice());
}

fn body_fits(body: &ReplyBody)
    ensures { FitsBody body.now }
{
    match body {
        ReplyBody::Reply(payload) => bytes_fit(payload.as_slice()),
        ReplyBody::Err(payload) => bytes_fit(payload.as_slice()),
    }
}

fn response_fits(response: &Response)
    ensures { FitsResponse most_8 response.now }
{
    let _rid = response.rid;
    let _qos = response.qos;
    wire_fits(&response.wire);
    body_fits(&response.payload);
    zid_fits(response.responder);
}

fn final_fits(last: ResponseFinal)
    ensures { FitsFinal last }
{}

fn interest_fits(interest: &Interest)
    ensures { FitsInterest interest.now }
{
    let _id = interest.id;
    wire_option_fits(&interest.wire);
}

fn declare_body_fits(body: &DeclareBody)
    ensures { FitsDeclareBody body.now }
{
    match body {
        DeclareBody::DeclareKeyExpr { id, wire } => {
            let _id = *id;
            wire_fits(wire);
        }
        DeclareBody::UndeclareKeyExpr { id } => {
            let _id = *id;
        }
        DeclareBody::DeclareQueryable { id, wire, info } => {
            let _id = *id;
            let _distance = info.distance;
            wire_fits(wire);
        }
        DeclareBody::UndeclareQueryable { id, wire } => {
            let _id = *id;
            wire_option_fits(wire);
        }
        DeclareBody::DeclareFinal => {}
    }
}

fn declare_fits(declare: &Declare)
    ensures { ShowsDeclare declare.now.interest declare.now.node declare.now.body → FitsDeclare declare.now.interest declare.now.node declare.now.body }
{
    let _node = declare.node;
    id_fits(declare.interest);
    declare_body_fits(&declare.body);
}

/// A message fits where its line shows all of it.
pub fn message_fits(message: &Message)
    ensures { ShowsMessage message.now → FitsMessage message.now }
{
    match message {
        Message::Request(request) => request_fits(request),
        Message::Response(response) => response_fits(response),
        Message::ResponseFinal(last) => final_fits(*last),
        Message::Declare(declare) => declare_fits(declare),
        Message::Interest(interest) => interest_fits(interest),
        Message::InterestFinal(id) => {
            let _id = *id;
        }
    }
}

fn leaving_fits(leaves: Option<&Message>)
    ensures { FitsOption ShowsMessage (option_copied leaves.entry) → FitsOption FitsMessage (option_copied leaves.entry) }
{
    if let Some(message) = leaves {
        message_fits(message);
    }
}

fn handed_fits(handed: &Handed)
    ensures { ShowsHanded handed.now → FitsHanded handed.now }
{
    let _to = handed.to().0;
    number_fits(handed.number());
    number_fits(handed.reply());
    message_fits(handed.message());
    leaving_fits(handed.leaves());
}

fn outcome_fits(outcome: Outcome)
    ensures { FitsOutcome outcome }
{
    match outcome {
        Outcome::Opened(_face) => {}
        Outcome::Asked(_number) => {}
        Outcome::Replied(reply) => number_fits(reply),
        Outcome::Done => {}
        Outcome::Refused(_refusal) => {}
    }
}

/// A step fits where its lines show all of it.
pub fn step_fits(step: &Step)
    ensures { ShowsStep step.now → FitsStep step.now }
{
    outcome_fits(step.outcome);
    for handed in step.handed.as_slice() {
        handed_fits(handed);
    }
}

/// Steps fit where their lines show all of them.
pub fn steps_fit(steps: &[Step])
    ensures { AllByRecursion ShowsStep steps.now → AllByRecursion FitsStep steps.now }
{
    for step in steps {
        step_fits(step);
    }
}
