use crate::given::{Trial, found, opens};
use std::alloc::Global;
use zq_gateway::demux::DeMux;
use zq_gateway::gateway::Gateway;
use zq_gateway::primitives::{DummyPrimitives, Primitives};
use zq_given::{information, wire};
use zq_key::items::Items;
use zq_key::memory::OutOfMemory;
use zq_key::message::{
    Declare, DeclareBody, FaceId, Interest, Message, QueryTarget, ReplyBody, Request, Response,
    ResponseFinal,
};
use zq_key::text::Bytes;
use zq_lines::calls::print_call;
use zq_lines::lines::call_of;
use zq_lines::steps::print_steps;
use zq_machine::call::{Call, Outcome, Step, StepList};

/// What faces say: who says it, and the line of its call, if it makes one.
const SAID: [(u32, &str); 10] = [
    (0, "key 0 1 0:s:k"),
    (0, "queryable 0 1 0:s:k c 0 0"),
    (1, "interest 1 5 0:s:k/** n a"),
    (1, "ask 1 7 0:s:k best 5 0 0 hi 3"),
    (0, "reply 0 1 0:s:k ok yo"),
    (0, "final 0 1"),
    (0, "finalize 0 initial 1"),
    (0, "unqueryable 0 1 - 0"),
    (0, "unkey 0 1"),
    (0, ""),
];

fn declare(interest: Option<u32>, body: DeclareBody) -> Message {
    Message::Declare(Declare {
        interest,
        node: 0,
        body,
    })
}

fn request(alloc: Global) -> Result<Message, OutOfMemory> {
    Ok(Message::Request(Request {
        id: 7,
        wire: wire(alloc, 0, "k")?,
        target: QueryTarget::BestMatching,
        timeout: Some(5),
        node: 0,
        qos: 0,
        payload: Bytes::new(alloc, b"hi".as_slice())?,
    }))
}

fn response(alloc: Global) -> Result<Message, OutOfMemory> {
    Ok(Message::Response(Response {
        rid: 1,
        wire: wire(alloc, 0, "k")?,
        qos: 0,
        payload: ReplyBody::Reply(Bytes::new(alloc, b"yo".as_slice())?),
        responder: None,
    }))
}

// What is said, as a message.
fn message(alloc: Global, at: usize) -> Result<Message, OutOfMemory> {
    match at {
        0 => Ok(declare(
            None,
            DeclareBody::DeclareKeyExpr {
                id: 1,
                wire: wire(alloc, 0, "k")?,
            },
        )),
        1 => Ok(declare(
            None,
            DeclareBody::DeclareQueryable {
                id: 1,
                wire: wire(alloc, 0, "k")?,
                info: information(true, 0),
            },
        )),
        2 => Ok(Message::Interest(Interest {
            id: 5,
            keys: false,
            aggregate: true,
            wire: Some(wire(alloc, 0, "k/**")?),
        })),
        3 => request(alloc),
        4 => response(alloc),
        5 => Ok(Message::ResponseFinal(ResponseFinal { rid: 1, qos: 0 })),
        6 => Ok(declare(Some(0), DeclareBody::DeclareFinal)),
        7 => Ok(declare(None, DeclareBody::UndeclareQueryable { id: 1, wire: None })),
        8 => Ok(declare(None, DeclareBody::UndeclareKeyExpr { id: 1 })),
        _ => Ok(declare(Some(1), DeclareBody::DeclareFinal)),
    }
}

// A message goes to what takes it.
fn send<P: Primitives>(to: &mut P, face: FaceId, msg: &Message) -> Result<Step, OutOfMemory> {
    match msg {
        Message::Interest(interest) => to.send_interest(face, interest),
        Message::Declare(declare) => to.send_declare(face, declare),
        Message::Request(request) => to.send_request(face, request, 3),
        Message::Response(response) => to.send_response(face, response),
        Message::ResponseFinal(last) => to.send_response_final(face, last.rid),
        Message::InterestFinal(_) => to.send_close(face),
    }
}

fn nothing(alloc: Global) -> Step {
    Step {
        outcome: Outcome::Done,
        handed: Items::new(alloc),
    }
}

const PRINT: &str = "= done\n\
     = done\n\
     = done\n\
     > 1 - - queryable 1 0:s:k/** p 0 0 5\n\
     > 1 - - declfinal 5\n\
     = asked 0\n\
     > 0 0 - request 1 1:r:- best 5 0 0 hi\n\
     = replied 0\n\
     > 1 0 0 response 7 0:s:k 0 ok yo -\n\
     = done\n\
     = done\n\
     = done\n\
     > 1 - - unqueryable 1 - 0\n\
     = done\n\
     = done\n";

fn is_print(print: Result<Bytes, OutOfMemory>, wanted: &str) -> bool {
    match print {
        Ok(print) => print.as_slice() == wanted.as_bytes(),
        Err(_) => false,
    }
}

// A way in which what is said reaches what takes it.
trait Reason<T> {
    // What is said there is taken; the face and the line are those of `SAID`.
    fn step(
        to: &mut T,
        alloc: Global,
        at: usize,
        face: FaceId,
        line: &str,
    ) -> Result<Step, OutOfMemory>;
}

fn push(steps: &mut StepList, step: Result<Step, OutOfMemory>) -> bool {
    match step {
        Ok(step) => steps.push(step).is_ok(),
        Err(_) => false,
    }
}

// All that is said goes to what takes it. It says whether there was memory.
fn push_all<T, W: Reason<T>>(to: &mut T, alloc: Global, steps: &mut StepList) -> bool {
    for at in 0..SAID.len() {
        let (face, line) = SAID[at];
        if !push(steps, W::step(to, alloc, at, FaceId(face), line)) {
            return false;
        }
    }
    true
}

fn is_print_of(alloc: Global, steps: &StepList, wanted: &str) -> bool {
    is_print(print_steps(alloc, steps.as_slice()), wanted)
}

// Whether the print of what is said, sent to what takes it, is this.
fn prints<T, W: Reason<T>>(to: &mut T, alloc: Global, wanted: &str) -> bool {
    let mut steps: StepList = Items::new(alloc);
    let all = push_all::<T, W>(to, alloc, &mut steps);
    all & is_print_of(alloc, &steps, wanted)
}

// Whether it is that of the calls, where a gateway with two applications takes it.
fn pair_prints<W: Reason<Gateway>>(gateway: &mut Gateway, alloc: Global) -> bool {
    opens(gateway, alloc, 10).is_some()
        && opens(gateway, alloc, 11).is_some()
        && prints::<Gateway, W>(gateway, alloc, PRINT)
}

// The lines are read as calls.
struct Lined;

impl Reason<Gateway> for Lined {
    fn step(
        to: &mut Gateway,
        alloc: Global,
        _: usize,
        _: FaceId,
        line: &str,
    ) -> Result<Step, OutOfMemory> {
        match call_of(alloc, line.as_bytes()) {
            Ok(call) => to.call(&call),
            Err(_) => Ok(nothing(alloc)),
        }
    }
}

impl Trial for Lined {
    type Found = bool;

    fn found(gateway: &mut Gateway, alloc: Global) -> bool {
        pair_prints::<Lined>(gateway, alloc)
    }
}

fn called(gateway: &mut Gateway, alloc: Global, call: Option<Call>) -> Result<Step, OutOfMemory> {
    match call {
        Some(call) => gateway.call(&call),
        None => Ok(nothing(alloc)),
    }
}

// The messages are made calls.
struct Demuxed;

impl Reason<Gateway> for Demuxed {
    fn step(
        to: &mut Gateway,
        alloc: Global,
        at: usize,
        face: FaceId,
        _: &str,
    ) -> Result<Step, OutOfMemory> {
        match message(alloc, at) {
            Ok(said) => called(to, alloc, DeMux { face }.handle_message(said, 3)),
            Err(_) => Err(OutOfMemory),
        }
    }
}

impl Trial for Demuxed {
    type Found = bool;

    fn found(gateway: &mut Gateway, alloc: Global) -> bool {
        pair_prints::<Demuxed>(gateway, alloc)
    }
}

// The messages are sent by the methods.
struct Sent;

impl<P: Primitives> Reason<P> for Sent {
    fn step(
        to: &mut P,
        alloc: Global,
        at: usize,
        face: FaceId,
        _: &str,
    ) -> Result<Step, OutOfMemory> {
        match message(alloc, at) {
            Ok(said) => send(to, face, &said),
            Err(_) => Err(OutOfMemory),
        }
    }
}

impl Trial for Sent {
    type Found = bool;

    fn found(gateway: &mut Gateway, alloc: Global) -> bool {
        pair_prints::<Sent>(gateway, alloc)
    }
}

#[test]
fn messages_are_calls(rt: HostRuntime) {
    assert!(rt; found::<Lined>(rt.alloc()) == Ok(true));
    assert!(rt; found::<Demuxed>(rt.alloc()) == Ok(true));
    assert!(rt; found::<Sent>(rt.alloc()) == Ok(true));
}

#[test]
fn what_answers_all_alike(rt: HostRuntime) {
    let mut alike = DummyPrimitives::new(rt.alloc());
    let done = "= done\n= done\n= done\n= done\n= done\n= done\n= done\n= done\n= done\n= done\n";
    assert!(rt; prints::<DummyPrimitives, Sent>(&mut alike, rt.alloc(), done));
}

// Whether it makes a call, of this line.
fn is_line(alloc: Global, call: Option<Call>, line: &str) -> bool {
    match call {
        Some(call) => is_print(print_call(alloc, &call), line),
        None => false,
    }
}

#[test]
fn ends_of_interests_and_faces(rt: HostRuntime) {
    let from = DeMux { face: FaceId(1) };
    let end = from.handle_message(Message::InterestFinal(5), 0);
    assert!(rt; is_line(rt.alloc(), end, "uninterest 1 5"));
    assert!(rt; is_line(rt.alloc(), Some(from.closed()), "close 1"));
}
