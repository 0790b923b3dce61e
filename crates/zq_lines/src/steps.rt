//! How messages and steps are printed.
ghost use Rattle.std.specs.Prelude.{◌≡◌, ◌++◌, ◌∷◌, [], IfOk, OnOk, Some, true};
ghost use Rattle.std.specs.Fmt.{decimal};
ghost use Rattle.std.specs.List.{AllByRecursion};
ghost use Rattle.zq_machine.specs.Handing.{left};
ghost use Rattle.zq_io.specs.Words.{field, lacks, option_word};
ghost use Rattle.zq_lines.specs.Steps.{request_words, response_words, interest_words, declare_words, message_words, refusal_name, outcome_words, leaving_words, handed_words, step_words, steps_words};
ghost use Rattle.zq_lines.specs.StepsRead.{message_of, steps_of};
ghost use Rattle.zq_lines.specs.StepsFit.{ShowsMessage, ShowsStep};

use crate::calls::{push_aggregate, push_body, push_info};
use crate::fit::{message_fits, steps_fit};
use crate::same::same_message;
use std::alloc::{AllocError, Global};
use zq_io::show::{Shown, push_field, push_flag};
use zq_io::words::{push_number, push_text};
use zq_key::memory::OutOfMemory;
use zq_key::message::{Declare, DeclareBody, Interest, Message, Request, Response};
use zq_key::text::Bytes;
use zq_machine::call::{Outcome, Refusal, Step};
use zq_machine::handed::{Handed, Leaves};

/// Writes the id of an interest, or a dash.
fn push_id(out: &mut Vec<u8>, id: Option<u32>) -> Result<(), AllocError>
    ensures { OnOk result (out.new.items ≡ out.old.items ++ field (option_word decimal id)) }
{
    match id {
        Some(id) => push_field(out, &id),
        None => push_text(out, " -"),
    }
}

fn push_request(out: &mut Vec<u8>, request: &Request) -> Result<(), AllocError>
    ensures { OnOk result (out.new.items ≡ out.old.items ++ request_words request.now) }
{
    push_text(out, "request")?;
    push_field(out, &request.id)?;
    push_field(out, &request.wire)?;
    push_field(out, &request.target)?;
    push_field(out, &request.timeout)?;
    push_field(out, &request.node)?;
    push_field(out, &request.qos)?;
    push_field(out, &request.payload)
}

fn push_response(out: &mut Vec<u8>, response: &Response) -> Result<(), AllocError>
    ensures { OnOk result (out.new.items ≡ out.old.items ++ response_words response.now) }
{
    push_text(out, "response")?;
    push_field(out, &response.rid)?;
    push_field(out, &response.wire)?;
    push_field(out, &response.qos)?;
    push_body(out, &response.payload)?;
    push_field(out, &response.responder)
}

fn push_interest(out: &mut Vec<u8>, interest: &Interest) -> Result<(), AllocError>
    ensures { OnOk result (out.new.items ≡ out.old.items ++ interest_words interest.now) }
{
    push_text(out, "interest")?;
    push_field(out, &interest.id)?;
    push_field(out, &interest.wire)?;
    push_flag(out, "k", "n", interest.keys)?;
    push_aggregate(out, interest.aggregate)
}

fn push_declare(out: &mut Vec<u8>, declare: &Declare) -> Result<(), AllocError>
    ensures { OnOk result (out.new.items ≡ out.old.items ++ declare_words declare.now.interest declare.now.node declare.now.body) }
{
    match &declare.body {
        DeclareBody::DeclareKeyExpr { id, wire } => {
            push_text(out, "key")?;
            push_field(out, id)?;
            push_field(out, wire)
        }
        DeclareBody::UndeclareKeyExpr { id } => {
            push_text(out, "unkey")?;
            push_field(out, id)
        }
        DeclareBody::DeclareQueryable { id, wire, info } => {
            push_text(out, "queryable")?;
            push_field(out, id)?;
            push_field(out, wire)?;
            push_info(out, info)?;
            push_field(out, &declare.node)?;
            push_id(out, declare.interest)
        }
        DeclareBody::UndeclareQueryable { id, wire } => {
            push_text(out, "unqueryable")?;
            push_field(out, id)?;
            push_field(out, wire)?;
            push_field(out, &declare.node)
        }
        DeclareBody::DeclareFinal => {
            push_text(out, "declfinal")?;
            push_id(out, declare.interest)
        }
    }
}

/// Writes the words of a message.
fn push_message(out: &mut Vec<u8>, message: &Message) -> Result<(), AllocError>
    ensures { OnOk result (out.new.items ≡ out.old.items ++ message_words message.now) }
{
    match message {
        Message::Request(request) => push_request(out, request),
        Message::Response(response) => push_response(out, response),
        Message::ResponseFinal(last) => {
            push_text(out, "final")?;
            push_field(out, &last.rid)?;
            push_field(out, &last.qos)
        }
        Message::Declare(declare) => push_declare(out, declare),
        Message::Interest(interest) => push_interest(out, interest),
        Message::InterestFinal(id) => {
            push_text(out, "uninterest")?;
            push_field(out, id)
        }
    }
}

/// The words of a message, without a newline, which are read back as that message where they show
/// all of it.
#[tactic(auto, using(crate::proofs::StepsBack::message_flat, crate::proofs::StepsBack::message_back))]
pub fn print_message(alloc: Global, message: &Message) -> Result<Bytes, OutOfMemory>
    ensures words { IfOk result (λ b. b ≡ message_words message.now) }
    ensures newline { IfOk result (λ b. lacks 10 b ≡ true) }
    ensures back { IfOk result (λ b. ShowsMessage message.now → message_of b ≡ Some message.now) }
{
    message_fits(message);
    let mut out = Vec::new(alloc);
    push_message(&mut out, message)?;
    Ok(Bytes::from_vec(out))
}

fn refusal_name(refusal: Refusal) -> &'static str
    ensures { result.now ≡ refusal_name refusal }
{
    match refusal {
        Refusal::UnknownFace => "UnknownFace",
        Refusal::UnknownRegion => "UnknownRegion",
        Refusal::UpstreamInUse => "UpstreamInUse",
        Refusal::UnknownScope => "UnknownScope",
        Refusal::InvalidKeyExpr => "InvalidKeyExpr",
        Refusal::QueryNotFound => "QueryNotFound",
        Refusal::NotInFlight => "NotInFlight",
        Refusal::Remapped => "Remapped",
        Refusal::UnknownId => "UnknownId",
        Refusal::IdInUse => "IdInUse",
        Refusal::UnknownRouter => "UnknownRouter",
        Refusal::NoFreeId => "NoFreeId",
    }
}

fn push_outcome(out: &mut Vec<u8>, outcome: &Outcome) -> Result<(), AllocError>
    ensures { OnOk result (out.new.items ≡ out.old.items ++ outcome_words outcome.now) }
{
    match outcome {
        Outcome::Opened(face) => {
            push_text(out, "opened ")?;
            push_number(out, face.0)
        }
        Outcome::Asked(number) => {
            push_text(out, "asked ")?;
            push_number(out, *number)
        }
        Outcome::Replied(reply) => {
            push_text(out, "replied ")?;
            reply.show(out)
        }
        Outcome::Done => push_text(out, "done"),
        Outcome::Refused(refusal) => {
            push_text(out, "refused ")?;
            push_text(out, refusal_name(*refusal))
        }
    }
}

/// Writes what leaves in the place of a message, on a line of its own, where it isn't the same.
fn push_other(out: &mut Vec<u8>, message: &Message, other: &Message) -> Result<(), AllocError>
    ensures { OnOk result (out.new.items ≡ out.old.items ++ leaving_words message.now (Some other.now)) }
{
    if same_message(message, other) {
        return Ok(());
    }
    push_text(out, "< ")?;
    push_message(out, other)?;
    push_text(out, "\n")
}

/// Writes what leaves, on a line of its own, where it isn't what was handed.
fn push_leaving(out: &mut Vec<u8>, message: &Message, leaves: &Leaves) -> Result<(), AllocError>
    ensures { OnOk result (out.new.items ≡ out.old.items ++ leaving_words message.now (left message.now leaves.now)) }
{
    match leaves {
        Leaves::Same => Ok(()),
        Leaves::Other(other) => push_other(out, message, &**other),
        Leaves::Nothing => push_text(out, "< -\n"),
    }
}

fn push_handed(out: &mut Vec<u8>, handed: &Handed) -> Result<(), AllocError>
    ensures { OnOk result (out.new.items ≡ out.old.items ++ handed_words handed.now) }
{
    push_text(out, "> ")?;
    push_number(out, handed.to().0)?;
    push_field(out, &handed.number())?;
    push_field(out, &handed.reply())?;
    push_text(out, " ")?;
    push_message(out, handed.message())?;
    push_text(out, "\n")?;
    push_leaving(out, handed.message(), handed.leaving())
}

/// Writes the line of an answer, and the lines of what is handed.
pub fn push_step(out: &mut Vec<u8>, step: &Step) -> Result<(), AllocError>
    ensures { OnOk result (out.new.items ≡ out.old.items ++ step_words step.now) }
{
    push_text(out, "= ")?;
    push_outcome(out, &step.outcome)?;
    push_text(out, "\n")?;
    for handed in step.handed.as_slice() {
        push_handed(out, handed)?;
    }
    Ok(())
}

/// The print of steps, one step after the other, which is read back as those steps where it shows
/// all of them.
pub fn print_steps(alloc: Global, steps: &[Step]) -> Result<Bytes, OutOfMemory>
    ensures words { IfOk result (λ b. b ≡ steps_words steps.now) }
    ensures back { IfOk result (λ b. AllByRecursion ShowsStep steps.now → steps_of b ≡ Some steps.now) }
{
    steps_fit(steps);
    let mut out = Vec::new(alloc);
    for step in steps {
        push_step(&mut out, step)?;
    }
    Ok(Bytes::from_vec(out))
}
