//! How the gateway's own face answers a request.
ghost use Rattle.std.specs.Prelude.{◌≡◌, ◌+◌, ◌<◌, ◌≤◌, ◌++◌, ◌∷◌, [], List, Ok, Err, IfErr, IfOk, OnErr, OnOk};
ghost use Rattle.std.specs.List.{cons_option};
ghost use Rattle.std.specs.Vec.{vec_capacity, vec_len};
ghost use Rattle.zq_machine.specs.declared.call.Call.TheVariants as call;
ghost use Rattle.zq_machine.specs.Machine.{after, done, refused_step, step};
ghost use Rattle.zq_admin.specs.Entries.{Entry};
ghost use Rattle.zq_admin.specs.Admin.{Answers, AreCut, AreMade};
ghost use Rattle.zq_admin.specs.Answering.{going_on, reply_call, with_answer, with_replies, with_reply, with_reported};

use crate::entries::AdminList;
use crate::lines::push_sources;
use crate::refusal::AdminRefusal;
use std::alloc::Global;
use zq_gateway::Gateway;
use zq_hat::sources::Sources;
use zq_key::items::Items;
use zq_key::memory::OutOfMemory;
use zq_key::message::{FaceId, ReplyBody, Response};
use zq_key::text::{Bytes, Text};
use zq_machine::call::{Call, Outcome, Refusal, Step, StepList};
use zq_machine::handed::Handed;
use zq_tables::choice::whole;

/// A request that the own face was handed.
#[derive(Clone, Copy)]
pub struct Asked {
    /// The own face.
    pub own: FaceId,
    /// The request's id there.
    pub rid: u32,
}

/// Steps that were made, with room for more, and room for what the last of them hands.
#[derive(Drop)]
pub struct Begun {
    /// The steps.
    pub steps: Vec<Step>,
    /// The room.
    pub room: Vec<Handed>,
}

/// The step of what was handed, in room that was taken before.
fn step_of(given: Result<Option<Handed>, Refusal>, room: Vec<Handed>) -> Step
    requires empty { room.items ≡ [] }
    requires place { vec_len room < vec_capacity room }
    ensures ok { IfOk given (λ o. result ≡ done (cons_option o [])) }
    ensures err { IfErr given (λ r. result ≡ refused_step r) }
{
    let mut room = room;
    let outcome = match given {
        Ok(Some(handed)) => {
            if room.push(handed).is_err() {
                unreachable!();
            }
            Outcome::Done
        }
        Ok(None) => Outcome::Done,
        Err(refusal) => Outcome::Refused(refusal),
    };
    Step {
        outcome,
        handed: Items::from_vec(room),
    }
}

/// The final is made. It takes no memory.
fn final_step(gateway: &mut Gateway, asked: Asked, room: Vec<Handed>) -> Step
    requires empty { room.items ≡ [] }
    requires place { vec_len room < vec_capacity room }
    ensures step { result ≡ step gateway.old.state (call.ResponseFinal asked.own asked.rid) }
    ensures after { gateway.new.state ≡ after gateway.old.state (call.ResponseFinal asked.own asked.rid) }
{
    step_of(gateway.send_response_final(asked.own, asked.rid), room)
}

/// A reply is reported as sent. It takes no memory.
fn sent_step(gateway: &mut Gateway, number: u64, room: Vec<Handed>) -> Step
    requires empty { room.items ≡ [] }
    requires place { vec_len room < vec_capacity room }
    ensures step { result ≡ step gateway.old.state (call.Sent number) }
    ensures after { gateway.new.state ≡ after gateway.old.state (call.Sent number) }
{
    step_of(gateway.sent(number), room)
}

/// A step joins others, where there is room.
pub fn put_step(steps: &mut Vec<Step>, step: Step)
    requires { vec_len steps.old < vec_capacity steps.old }
    ensures items { steps.new.items ≡ steps.old.items ++ step ∷ [] }
    ensures len { vec_len steps.new ≡ vec_len steps.old + 1 }
    ensures capacity { vec_capacity steps.old ≤ vec_capacity steps.new }
{
    if steps.push(step).is_err() {
        unreachable!();
    }
}

/// The reply of an entry.
fn reply_call(
    alloc: Global,
    asked: Asked,
    key: Text,
    sources: &Sources,
) -> Result<Call, OutOfMemory>
    ensures { IfOk result (λ c. c ≡ reply_call asked.own asked.rid (key, sources.now)) }
{
    let mut line = Vec::new(alloc);
    push_sources(&mut line, sources)?;
    Ok(Call::Response {
        face: asked.own,
        response: Response {
            rid: asked.rid,
            wire: whole(key),
            qos: 0,
            payload: ReplyBody::Reply(Bytes::from_vec(line)),
            responder: None,
        },
    })
}

/// A call is made, and what it replies is reported as sent. False where it is refused.
fn report(
    gateway: &mut Gateway,
    call: &Call,
    steps: &mut Vec<Step>,
    room: Vec<Handed>,
) -> Result<bool, OutOfMemory>
    requires places { vec_len steps.old + 3 ≤ vec_capacity steps.old }
    requires empty { room.items ≡ [] }
    requires room { vec_len room < vec_capacity room }
    ensures place { vec_len steps.new < vec_capacity steps.new }
    ensures ok { IfOk result (λ b. record { steps = steps.new.items; state = gateway.new.state; going = b } ≡ with_reported (going_on steps.old.items gateway.old.state) call.now) }
    ensures none { OnErr result (steps.new.items ≡ steps.old.items) }
    ensures still { OnErr result (gateway.new.state ≡ gateway.old.state) }
{
    let step = gateway.call(call)?;
    let outcome = step.outcome;
    put_step(steps, step);
    match outcome {
        Outcome::Replied(reply) => match reply {
            Some(number) => {
                put_step(steps, sent_step(gateway, number, room));
                Ok(true)
            }
            None => Ok(true),
        },
        Outcome::Refused(_) => Ok(false),
        Outcome::Opened(_) => Ok(true),
        Outcome::Asked(_) => Ok(true),
        Outcome::Done => Ok(true),
    }
}

/// The reply of an entry is made, and reported as sent; a place stays free behind the steps. False where it is refused.
fn reply(
    alloc: Global,
    gateway: &mut Gateway,
    asked: Asked,
    entry: (Text, Sources),
    steps: &mut Vec<Step>,
) -> Result<bool, OutOfMemory>
    requires { vec_len steps.old < vec_capacity steps.old }
    ensures place { vec_len steps.new < vec_capacity steps.new }
    ensures ok { IfOk result (λ b. record { steps = steps.new.items; state = gateway.new.state; going = b } ≡ with_reply asked.own asked.rid (going_on steps.old.items gateway.old.state) entry) }
    ensures none { OnErr result (steps.new.items ≡ steps.old.items) }
    ensures still { OnErr result (gateway.new.state ≡ gateway.old.state) }
{
    let (key, sources) = entry;
    steps.reserve(3)?;
    let room = Vec::with_capacity(alloc, 1)?;
    let call = reply_call(alloc, asked, key, &sources)?;
    report(gateway, &call, steps, room)
}

/// The replies of entries are made, each reported as sent, up to the first that is refused.
fn replies(
    alloc: Global,
    gateway: &mut Gateway,
    asked: Asked,
    entries: AdminList,
    steps: &mut Vec<Step>,
) -> Result<(), OutOfMemory>
    requires { vec_len steps.old < vec_capacity steps.old }
    ensures place { vec_len steps.new < vec_capacity steps.new }
    ensures ok { OnOk result (AreMade (with_replies asked.own asked.rid (going_on steps.old.items gateway.old.state) entries) steps.new.items gateway.new.state) }
    ensures cut { OnErr result (AreCut (with_replies asked.own asked.rid (going_on steps.old.items gateway.old.state)) entries steps.new.items gateway.new.state) }
{
    let mut going = true;
    for entry in entries.into_vec() {
        if going {
            going = reply(alloc, gateway, asked, entry, steps)?;
        }
    }
    Ok(())
}

/// The final is made behind the steps.
fn ended(gateway: &mut Gateway, asked: Asked, begun: Begun) -> StepList
    requires place { vec_len begun.steps < vec_capacity begun.steps }
    requires empty { begun.room.items ≡ [] }
    requires room { vec_len begun.room < vec_capacity begun.room }
    ensures steps { result ≡ begun.steps.items ++ step gateway.old.state (call.ResponseFinal asked.own asked.rid) ∷ [] }
    ensures after { gateway.new.state ≡ after gateway.old.state (call.ResponseFinal asked.own asked.rid) }
{
    let Begun { steps, room } = begun;
    let mut steps = steps;
    put_step(&mut steps, final_step(gateway, asked, room));
    Items::from_vec(steps)
}

/// The replies of entries, as many as memory was found for, and the final behind them, for which the room was taken before.
fn answered(
    alloc: Global,
    gateway: &mut Gateway,
    asked: Asked,
    entries: AdminList,
    begun: Begun,
) -> (Result<(), OutOfMemory>, StepList)
    requires place { vec_len begun.steps < vec_capacity begun.steps }
    requires empty { begun.room.items ≡ [] }
    requires room { vec_len begun.room < vec_capacity begun.room }
    ensures ok { OnOk result.0 (AreMade (with_answer asked.own asked.rid (going_on begun.steps.items gateway.old.state) entries) result.1 gateway.new.state) }
    ensures cut { OnErr result.0 (AreCut (with_answer asked.own asked.rid (going_on begun.steps.items gateway.old.state)) entries result.1 gateway.new.state) }
{
    let Begun { steps, room } = begun;
    let mut steps = steps;
    let all = replies(alloc, gateway, asked, entries, &mut steps);
    let steps = ended(gateway, asked, Begun { steps, room });
    (all, steps)
}

/// The steps of an answer, cut off or whole.
fn given(all: Result<(), OutOfMemory>, steps: StepList) -> Result<StepList, AdminRefusal>
    ensures whole { OnOk all (result ≡ Ok steps) }
    ensures cut { OnErr all (result ≡ Err (AdminRefusal.Cut steps)) }
{
    match all {
        Ok(()) => Ok(steps),
        Err(OutOfMemory) => Err(AdminRefusal::Cut { steps }),
    }
}

/// A request is answered by the entries that were found for it, and by the final; by the final alone where no
/// memory was found for them.
pub fn answer(
    alloc: Global,
    gateway: &mut Gateway,
    asked: Asked,
    found: Result<AdminList, OutOfMemory>,
    begun: Begun,
) -> Result<StepList, AdminRefusal>
    requires place { vec_len begun.steps < vec_capacity begun.steps }
    requires empty { begun.room.items ≡ [] }
    requires room { vec_len begun.room < vec_capacity begun.room }
    ensures { (all : List Entry) → IfOk found (λ l. l ≡ all) → Answers (with_answer asked.own asked.rid (going_on begun.steps.items gateway.old.state)) all result gateway.new.state }
{
    let Ok(entries) = found else {
        let steps = ended(gateway, asked, begun);
        return Err(AdminRefusal::Cut { steps });
    };
    let (all, steps) = answered(alloc, gateway, asked, entries, begun);
    given(all, steps)
}
