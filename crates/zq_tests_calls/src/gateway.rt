use crate::given::{Seen, Trial, config, found, opens, seen};
use std::alloc::Global;
use zq_gateway::gateway::Gateway;
use zq_gateway::runs::replay;
use zq_given::{CLIENTS, information, wire};
use zq_key::items::Items;
use zq_key::memory::OutOfMemory;
use zq_key::message::{
    Declare, DeclareBody, FaceId, Interest, Message, QueryTarget, Region, ReplyBody, Request,
    Response,
};
use zq_key::text::Bytes;
use zq_machine::call::{Call, Outcome, Refusal, Step};
use zq_machine::config::Config;
use zq_machine::handed::Handed;
use zq_route::gateways::Gateways;
use zq_strategy::types::{FinalMark, Network, NodeIds};

fn declares(gateway: &mut Gateway, body: DeclareBody) -> Seen {
    let declared = Declare {
        interest: None,
        node: 0,
        body,
    };
    seen(gateway.send_declare(FaceId(0), &declared))
}

fn names_key(gateway: &mut Gateway, alloc: Global) -> Seen {
    let Ok(wire) = wire(alloc, 0, "k") else {
        return None;
    };
    declares(gateway, DeclareBody::DeclareKeyExpr { id: 1, wire })
}

fn registers(gateway: &mut Gateway, alloc: Global) -> Seen {
    let Ok(wire) = wire(alloc, 0, "k") else {
        return None;
    };
    let info = information(true, 0);
    declares(gateway, DeclareBody::DeclareQueryable { id: 1, wire, info })
}

fn request(alloc: Global, id: u32, timeout: u64) -> Result<Request, OutOfMemory> {
    Ok(Request {
        id,
        wire: wire(alloc, 0, "k")?,
        target: QueryTarget::BestMatching,
        timeout: Some(timeout),
        node: 0,
        qos: 0,
        payload: Bytes::new(alloc, b"ask".as_slice())?,
    })
}

fn asks(gateway: &mut Gateway, alloc: Global, id: u32, timeout: u64) -> Seen {
    let Ok(asked) = request(alloc, id, timeout) else {
        return None;
    };
    seen(gateway.send_request(FaceId(1), &asked, 0))
}

fn routes(gateway: &mut Gateway, alloc: Global) -> Seen {
    let Ok(asked) = request(alloc, 8, 5) else {
        return None;
    };
    seen(gateway.route_query(FaceId(1), &asked, 0))
}

fn response(alloc: Global) -> Result<Response, OutOfMemory> {
    Ok(Response {
        rid: 1,
        wire: wire(alloc, 0, "k")?,
        qos: 0,
        payload: ReplyBody::Reply(Bytes::new(alloc, b"v".as_slice())?),
        responder: None,
    })
}

fn replies(gateway: &mut Gateway, alloc: Global) -> Seen {
    let Ok(reply) = response(alloc) else {
        return None;
    };
    seen(gateway.send_response(FaceId(0), &reply))
}

fn lists(gateway: &mut Gateway, alloc: Global) -> Seen {
    let table = Gateways {
        of: Items::new(alloc),
        all: None,
    };
    seen(gateway.set_gateways(Region::Local, &table))
}

fn is_final(handed: &Option<Handed>) -> bool {
    match handed {
        Some(handed) => {
            handed.to() == FaceId(1) && matches!(handed.message(), Message::ResponseFinal(_))
        }
        None => false,
    }
}

// Whether the call hands a final to the asker; none where it is refused.
fn hands_final(last: Result<Option<Handed>, Refusal>) -> Option<bool> {
    match last {
        Ok(handed) => Some(is_final(&handed)),
        Err(_) => None,
    }
}

// A face that answers is opened, and one that asks.
fn open_two(gateway: &mut Gateway, alloc: Global) {
    let _ = opens(gateway, alloc, 10);
    let _ = opens(gateway, alloc, 11);
    let _ = registers(gateway, alloc);
}

const DONE: Seen = Some((Outcome::Done, 0));

const UNKNOWN_FACE: Seen = Some((Outcome::Refused(Refusal::UnknownFace), 0));

// What a face is answered that opens and declares.
struct Declared;

impl Trial for Declared {
    type Found = [Seen; 4];

    fn found(gateway: &mut Gateway, alloc: Global) -> [Seen; 4] {
        [
            opens(gateway, alloc, 10),
            names_key(gateway, alloc),
            registers(gateway, alloc),
            declares(gateway, DeclareBody::DeclareFinal),
        ]
    }
}

#[test]
fn declarations(rt: HostRuntime) {
    let opened = Some((Outcome::Opened(FaceId(0)), 0));
    let want = [opened, DONE, DONE, DONE];
    assert!(rt; found::<Declared>(rt.alloc()) == Ok(want));
}

// What a face is answered that withdraws what it declared, its number twice.
struct Withdrawn;

impl Trial for Withdrawn {
    type Found = [Seen; 3];

    fn found(gateway: &mut Gateway, alloc: Global) -> [Seen; 3] {
        open_two(gateway, alloc);
        let _ = names_key(gateway, alloc);
        [
            declares(
                gateway,
                DeclareBody::UndeclareQueryable { id: 1, wire: None },
            ),
            declares(gateway, DeclareBody::UndeclareKeyExpr { id: 1 }),
            declares(gateway, DeclareBody::UndeclareKeyExpr { id: 1 }),
        ]
    }
}

#[test]
fn withdrawals(rt: HostRuntime) {
    let again = Some((Outcome::Refused(Refusal::UnknownId), 0));
    assert!(rt; found::<Withdrawn>(rt.alloc()) == Ok([DONE, DONE, again]));
}

fn listens(gateway: &mut Gateway, id: u32, face: u32) -> Seen {
    let interest = Interest {
        id,
        keys: false,
        aggregate: false,
        wire: None,
    };
    seen(gateway.send_interest(FaceId(face), &interest))
}

// What a face is answered that asks to hear, twice under one id, and ends that twice.
struct Listened;

impl Trial for Listened {
    type Found = [Seen; 4];

    fn found(gateway: &mut Gateway, alloc: Global) -> [Seen; 4] {
        open_two(gateway, alloc);
        [
            listens(gateway, 5, 1),
            listens(gateway, 5, 0),
            seen(gateway.send_interest_final(FaceId(1), 5)),
            seen(gateway.send_interest_final(FaceId(1), 5)),
        ]
    }
}

#[test]
fn interests(rt: HostRuntime) {
    let told = Some((Outcome::Done, 2));
    let alone = Some((Outcome::Done, 1));
    let again = Some((Outcome::Refused(Refusal::UnknownId), 0));
    assert!(rt; found::<Listened>(rt.alloc()) == Ok([told, alone, DONE, again]));
}

fn clients_of_first(gateway: &Gateway) -> Option<usize> {
    match gateway.sourced_queryables() {
        Ok(on) => match on.get(0) {
            Some(first) => Some(first.1.clients.len()),
            None => None,
        },
        Err(_) => None,
    }
}

fn keys_asked_for(gateway: &Gateway) -> Option<usize> {
    match gateway.sourced_queriers() {
        Ok(on) => Some(on.len()),
        Err(_) => None,
    }
}

// How many ids count as clients on the first declared key, and how many keys are asked for.
struct Sourced;

impl Trial for Sourced {
    type Found = [Option<usize>; 2];

    fn found(gateway: &mut Gateway, alloc: Global) -> [Option<usize>; 2] {
        open_two(gateway, alloc);
        let _ = listens(gateway, 5, 1);
        [clients_of_first(gateway), keys_asked_for(gateway)]
    }
}

#[test]
fn sources(rt: HostRuntime) {
    assert!(rt; found::<Sourced>(rt.alloc()) == Ok([Some(2), Some(0)]));
}

// Whether the key of a queryable, another and the root's text have a context, and the first once the
// queryable is withdrawn.
struct Known;

impl Trial for Known {
    type Found = [bool; 4];

    fn found(gateway: &mut Gateway, alloc: Global) -> [bool; 4] {
        open_two(gateway, alloc);
        let declared = gateway.has_context("k");
        let _ = declares(
            gateway,
            DeclareBody::UndeclareQueryable { id: 1, wire: None },
        );
        [
            declared,
            gateway.has_context("x"),
            gateway.has_context(""),
            gateway.has_context("k"),
        ]
    }
}

#[test]
fn contexts(rt: HostRuntime) {
    assert!(rt; found::<Known>(rt.alloc()) == Ok([true, false, false, false]));
}

// What a request and its reply come to, and whether the target's final and two reports of the reply
// hand the final to the asker.
struct Answered;

impl Trial for Answered {
    type Found = ([Seen; 2], [Option<bool>; 3]);

    fn found(gateway: &mut Gateway, alloc: Global) -> ([Seen; 2], [Option<bool>; 3]) {
        open_two(gateway, alloc);
        let steps = [asks(gateway, alloc, 7, 5), replies(gateway, alloc)];
        let finals = [
            hands_final(gateway.send_response_final(FaceId(0), 1)),
            hands_final(gateway.sent(0)),
            hands_final(gateway.sent(0)),
        ];
        (steps, finals)
    }
}

#[test]
fn a_query_and_its_end(rt: HostRuntime) {
    let asked = Some((Outcome::Asked(0), 1));
    let replied = Some((Outcome::Replied(Some(0)), 1));
    let finals = [Some(false), Some(true), None];
    assert!(rt; found::<Answered>(rt.alloc()) == Ok(([asked, replied], finals)));
}

// What comes of a request that is out of time, of a list of gateways and of a closing.
struct OutOfTime;

impl Trial for OutOfTime {
    type Found = [Seen; 4];

    fn found(gateway: &mut Gateway, alloc: Global) -> [Seen; 4] {
        open_two(gateway, alloc);
        [
            routes(gateway, alloc),
            seen(gateway.poll(5)),
            lists(gateway, alloc),
            seen(gateway.send_close(FaceId(0))),
        ]
    }
}

#[test]
fn time_and_closing(rt: HostRuntime) {
    let asked = Some((Outcome::Asked(0), 1));
    let ended = Some((Outcome::Done, 1));
    assert!(rt; found::<OutOfTime>(rt.alloc()) == Ok([asked, ended, DONE, DONE]));
}

// What comes of a face's initial mark, of that of a face that is not there, and of the end of what
// was declared at the opening.
struct Marked;

impl Trial for Marked {
    type Found = [Seen; 3];

    fn found(gateway: &mut Gateway, alloc: Global) -> [Seen; 3] {
        open_two(gateway, alloc);
        let mark = FinalMark::Initial;
        let end = Declare {
            interest: Some(0),
            node: 0,
            body: DeclareBody::DeclareFinal,
        };
        [
            seen(gateway.finalize_local_interest(FaceId(0), &mark, true)),
            seen(gateway.finalize_local_interest(FaceId(9), &mark, true)),
            seen(gateway.send_declare(FaceId(0), &end)),
        ]
    }
}

#[test]
fn marks(rt: HostRuntime) {
    assert!(rt; found::<Marked>(rt.alloc()) == Ok([DONE, UNKNOWN_FACE, DONE]));
}

// What comes of a network in North, and in a region that is not there.
struct NetworksPut;

impl Trial for NetworksPut {
    type Found = [Seen; 2];

    fn found(gateway: &mut Gateway, alloc: Global) -> [Seen; 2] {
        open_two(gateway, alloc);
        let net = Network::empty(alloc);
        [
            seen(gateway.set_network(Region::North, &net)),
            seen(gateway.set_network(CLIENTS, &net)),
        ]
    }
}

// Outside regions of routers a network changes nothing.
#[test]
fn networks(rt: HostRuntime) {
    let unknown = Some((Outcome::Refused(Refusal::UnknownRegion), 0));
    assert!(rt; found::<NetworksPut>(rt.alloc()) == Ok([DONE, unknown]));
}

// What comes of a table of nodes, and of one for a face that is not there.
struct NodesPut;

impl Trial for NodesPut {
    type Found = [Seen; 2];

    fn found(gateway: &mut Gateway, alloc: Global) -> [Seen; 2] {
        open_two(gateway, alloc);
        let ids = NodeIds::empty(alloc);
        [
            seen(gateway.set_node_ids(FaceId(0), &ids)),
            seen(gateway.set_node_ids(FaceId(9), &ids)),
        ]
    }
}

// Nor does a table of nodes.
#[test]
fn node_tables(rt: HostRuntime) {
    assert!(rt; found::<NodesPut>(rt.alloc()) == Ok([DONE, UNKNOWN_FACE]));
}

fn outcome_at(steps: &[Step], at: usize) -> Option<Outcome> {
    match steps.get(at) {
        Some(step) => Some(step.outcome),
        None => None,
    }
}

// The outcomes of the first steps of a run; none past its end.
fn outcomes_of(steps: &[Step]) -> [Option<Outcome>; 4] {
    [
        outcome_at(steps, 0),
        outcome_at(steps, 1),
        outcome_at(steps, 2),
        outcome_at(steps, 3),
    ]
}

// The same of a run of the calls from a configuration.
fn replayed(alloc: Global, config: &Config, calls: &[Call]) -> Option<[Option<Outcome>; 4]> {
    match replay(alloc, config, calls) {
        Ok(run) => Some(outcomes_of(run.steps.as_slice())),
        Err(_) => None,
    }
}

// The same of a run of the calls.
fn run_of(alloc: Global, calls: &[Call]) -> Option<[Option<Outcome>; 4]> {
    match config(alloc) {
        Ok(config) => replayed(alloc, &config, calls),
        Err(_) => None,
    }
}

// A poll, a report and a closing.
#[test]
fn runs(rt: HostRuntime) {
    let calls = [
        Call::Poll { now: 1 },
        Call::Sent { reply: 0 },
        Call::Close { face: FaceId(3) },
    ];
    let outcomes = [
        Some(Outcome::Done),
        Some(Outcome::Refused(Refusal::NotInFlight)),
        Some(Outcome::Refused(Refusal::UnknownFace)),
        None,
    ];
    assert!(rt; run_of(rt.alloc(), &calls) == Some(outcomes));
}

fn asks_each(gateway: &mut Gateway, alloc: Global, count: u32) {
    for id in 0..count {
        let _ = asks(gateway, alloc, id, u64::from(id) + 1);
    }
}

// Whether each poll lets one entry go, and each report ends its query.
fn each_ends(gateway: &mut Gateway, count: u64) -> bool {
    for reply in 0..count {
        let polled = seen(gateway.poll(reply + 1));
        if polled != Some((Outcome::Done, 1)) || hands_final(gateway.sent(reply)) != Some(true) {
            return false;
        }
    }
    true
}

// Whether each of so many open requests ends by itself.
struct Deadlines;

impl Trial for Deadlines {
    type Found = bool;

    fn found(gateway: &mut Gateway, alloc: Global) -> bool {
        open_two(gateway, alloc);
        asks_each(gateway, alloc, 100_000);
        each_ends(gateway, 100_000)
    }
}

// What else is open costs nothing.
#[test]
fn many_deadlines(rt: HostRuntime) {
    assert!(rt; found::<Deadlines>(rt.alloc()) == Ok(true));
}
