//! The calls of a get.
ghost use Rattle.std.specs.Prelude.{◌≡◌, ◌+◌, ◌++◌, ◌<◌, ◌^◌, IfOk, OnOk, length, map};
ghost use Rattle.zq_tables.specs.Naming.{plain};
ghost use Rattle.zq_machine.specs.declared.call.Call.TheVariants as call;
ghost use Rattle.zq_machine.specs.Machine.{after, state_after, step, steps_from};
ghost use Rattle.zq_store.specs.Getting.{ask_call, end_call, got_reply, handed_over, reply_call, reply_calls, request_on, response_of};

use crate::answers::{Answer, AskedStore};
use crate::got::{GotList, GotReply, StoreId};
use crate::joining::plain;
use std::alloc::Global;
use zq_gateway::Gateway;
use zq_key::Key;
use zq_key::items::Items;
use zq_key::memory::OutOfMemory;
use zq_key::message::{FaceId, QueryTarget, ReplyBody, Request, Response};
use zq_key::text::{Bytes, Text};
use zq_machine::call::Step;
use zq_machine::handed::HandedList;

/// Puts what a step hands behind the rest.
fn take_handed(handed: &mut HandedList, step: Step) -> Result<(), OutOfMemory>
    ensures { OnOk result (handed.new ≡ handed.old ++ step.handed) }
{
    let Step {
        outcome: _,
        handed: more,
    } = step;
    'messages: for message in more.into_vec() {
        handed.push(message)?;
    }
    Ok(())
}

/// What is asked.
fn request_on(alloc: Global, key: &Key, target: QueryTarget) -> Result<Request, OutOfMemory>
    ensures { IfOk result (λ r. r ≡ request_on key.now target) }
{
    Ok(Request {
        id: 0,
        wire: plain(alloc, key.as_str())?,
        target,
        timeout: None,
        node: 0,
        qos: 0,
        payload: Bytes::from_vec(Vec::new(alloc)),
    })
}

/// What a step hands.
fn handed_of(step: Step) -> HandedList
    ensures { result ≡ step.handed }
{
    let Step { outcome: _, handed } = step;
    handed
}

/// The asker asks; answers what that hands.
pub fn request(
    alloc: Global,
    gateway: &mut Gateway,
    asker: FaceId,
    key: &Key,
    target: QueryTarget,
    now: u64,
) -> Result<HandedList, OutOfMemory>
    ensures handed { IfOk result (λ l. l ≡ (step gateway.old.state (ask_call asker key.now target now)).handed) }
    ensures after { OnOk result (gateway.new.state ≡ after gateway.old.state (ask_call asker key.now target now)) }
{
    let request = request_on(alloc, key, target)?;
    let step = gateway.send_request(asker, &request, now)?;
    Ok(handed_of(step))
}

/// A reply.
fn response_of(alloc: Global, answer: &Answer) -> Result<Response, OutOfMemory>
    ensures { IfOk result (λ r. r ≡ response_of answer.now) }
{
    Ok(Response {
        rid: answer.asked.rid,
        wire: plain(alloc, answer.key.as_str())?,
        qos: 0,
        payload: ReplyBody::Reply(answer.value.copy(alloc)?),
        responder: None,
    })
}

/// A reply is reported as sent, and what that hands is put behind the rest.
fn report(gateway: &mut Gateway, handed: &mut HandedList, number: u64) -> Result<(), OutOfMemory>
    ensures handed { OnOk result (handed.new ≡ handed.old ++ (step gateway.old.state (call.Sent number)).handed) }
    ensures after { OnOk result (gateway.new.state ≡ after gateway.old.state (call.Sent number)) }
{
    match gateway.sent(number) {
        Ok(Some(message)) => handed.push(message),
        Ok(None) | Err(_) => Ok(()),
    }
}

/// A storage ends, and what that hands is put behind the rest.
fn end(gateway: &mut Gateway, handed: &mut HandedList, asked: AskedStore) -> Result<(), OutOfMemory>
    ensures handed { OnOk result (handed.new ≡ handed.old ++ (step gateway.old.state (end_call asked)).handed) }
    ensures after { OnOk result (gateway.new.state ≡ after gateway.old.state (end_call asked)) }
{
    match gateway.send_response_final(asked.face, asked.rid) {
        Ok(Some(message)) => handed.push(message),
        Ok(None) | Err(_) => Ok(()),
    }
}

/// An answer is replied, and what that hands is put behind the rest.
fn respond(
    alloc: Global,
    gateway: &mut Gateway,
    handed: &mut HandedList,
    answer: &Answer,
) -> Result<(), OutOfMemory>
    ensures handed { OnOk result (handed.new ≡ handed.old ++ (step gateway.old.state (reply_call answer.now)).handed) }
    ensures after { OnOk result (gateway.new.state ≡ after gateway.old.state (reply_call answer.now)) }
{
    let response = response_of(alloc, answer)?;
    let step = gateway.send_response(answer.asked.face, &response)?;
    take_handed(handed, step)
}

/// An answer is replied, and reported as sent by this number.
fn reply(
    alloc: Global,
    gateway: &mut Gateway,
    handed: &mut HandedList,
    number: u64,
    answer: &Answer,
) -> Result<(), OutOfMemory>
    ensures handed { OnOk result (handed.new ≡ (handed.old ++ (step gateway.old.state (reply_call answer.now)).handed) ++ (step (after gateway.old.state (reply_call answer.now)) (call.Sent number)).handed) }
    ensures after { OnOk result (gateway.new.state ≡ after (after gateway.old.state (reply_call answer.now)) (call.Sent number)) }
{
    respond(alloc, gateway, handed, answer)?;
    report(gateway, handed, number)?;
    Ok(())
}

/// Each answer is replied, and reported as sent, by the numbers from `first` on.
pub fn reply_all(
    alloc: Global,
    gateway: &mut Gateway,
    handed: &mut HandedList,
    first: u64,
    answers: &[Answer],
) -> Result<(), OutOfMemory>
    requires { first + length answers.now < 2 ^ 64 }
    ensures handed { OnOk result (handed.new ≡ handed.old ++ handed_over (steps_from gateway.old.state (reply_calls first answers.now))) }
    ensures after { OnOk result (gateway.new.state ≡ state_after gateway.old.state (reply_calls first answers.now)) }
{
    let mut number = first;
    for answer in answers {
        reply(alloc, gateway, handed, number, answer)?;
        number += 1;
    }
    Ok(())
}

/// Each storage that was asked ends.
pub fn end_all(
    gateway: &mut Gateway,
    handed: &mut HandedList,
    asked: &[AskedStore],
) -> Result<(), OutOfMemory>
    ensures handed { OnOk result (handed.new ≡ handed.old ++ handed_over (steps_from gateway.old.state (map end_call asked.now))) }
    ensures after { OnOk result (gateway.new.state ≡ state_after gateway.old.state (map end_call asked.now)) }
{
    for one in asked {
        end(gateway, handed, *one)?;
    }
    Ok(())
}

/// The replies that these answers are.
pub fn replies_of(alloc: Global, answers: Items<Answer>) -> Result<GotList, OutOfMemory>
    ensures { IfOk result (λ l. l ≡ map got_reply answers) }
{
    let mut replies = Items::new(alloc);
    for answer in answers.into_vec() {
        let Answer { asked, key, value } = answer;
        replies.push(GotReply {
            store: StoreId(asked.store),
            key,
            value,
        })?;
    }
    Ok(replies)
}
