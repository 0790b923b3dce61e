//! The generated load: its calls by their number, and what is counted of the messages that they
//! hand.
ghost use Rattle.std.specs.Prelude.{OnOk, if◌then◌else◌, ◌≡◌, ◌+◌, ◌*◌, ◌-◌, ◌^◌, ◌<◌, IfOk};
ghost use Rattle.std.specs.Fmt.{decimal};
ghost use Rattle.std.specs.List.{count_by};
ghost use Rattle.zq_machine.specs.Machine.{after, step, steps};
ghost use Rattle.zq_machine.specs.State.{opening_state};
ghost use Rattle.zq_script.specs.Load.{IsBelow, ask_call, asked_key, count, declare_call, declared_key, handed_over, load_call, load_calls, load_config, load_line, open_call, plus, query_call, reply_call, kind_test};

use crate::head::USUAL_BEST;
use std::alloc::Global;
use zq_egress::write::whole;
use zq_gateway::gateway::Gateway;
use zq_io::words::{push_number, push_text};
use zq_key::items::Items;
use zq_key::memory::OutOfMemory;
use zq_key::message::{
    Bound, FaceId, Message, Mode, QueryTarget, QueryableInfoType, Region, ReplyBody, Request,
    Response, Zid,
};
use zq_key::text::{Bytes, Text};
use zq_machine::call::{Call, Opening};
use zq_machine::config::{Config, ConfigRefusal, Counters, Entry};
use zq_machine::handed::Handed;

/// How many messages were handed, and of which kinds.
#[derive(Clone, Copy, Default)]
pub struct Counts {
    /// All messages.
    pub handed: u128,
    /// Requests among them.
    pub requests: u128,
    /// Replies among them.
    pub responses: u128,
    /// Finals among them.
    pub finals: u128,
}

impl Counts {
    /// Counts these messages, too.
    fn add(&mut self, handed: &[Handed])
        requires { IsBelow (2 ^ 128 - 2 ^ 64) self.old }
        ensures { self.new ≡ plus self.old (count handed.now) }
    {
        self.handed += handed.len() as u128;
        self.requests += count_of(Kind::Request, handed) as u128;
        self.responses += count_of(Kind::Response, handed) as u128;
        self.finals += count_of(Kind::Final, handed) as u128;
    }
}

// A kind of message that is counted.
#[derive(Clone, Copy)]
enum Kind {
    Request,
    Response,
    Final,
}

fn is_kind(kind: Kind, handed: &Handed) -> bool
    ensures { result ≡ kind_test kind handed.now }
{
    match kind {
        Kind::Request => matches!(handed.message(), Message::Request(_)),
        Kind::Response => matches!(handed.message(), Message::Response(_)),
        Kind::Final => matches!(handed.message(), Message::ResponseFinal(_)),
    }
}

// One more, if it counts.
fn more(count: usize, counts: bool) -> usize
    requires { count + 1 < 2 ^ 64 }
    ensures { result ≡ (if counts then count + 1 else count) }
{
    if counts {
        return count + 1;
    }
    count
}

// How many of the messages are of the kind.
#[tactic(auto, using(crate::proofs::Loaded::counted_more, crate::proofs::Loaded::few_counted))]
fn count_of(kind: Kind, handed: &[Handed]) -> usize
    ensures { result ≡ count_by (kind_test kind) handed.now }
{
    let mut count = 0;
    for h in handed {
        count = more(count, is_kind(kind, h));
    }
    count
}

/// The configuration of the load: North as a client, and Local.
pub fn load_config(alloc: Global) -> Result<Config, OutOfMemory>
    ensures { IfOk result (λ c. c ≡ load_config) }
{
    let entries = [Entry::North(Mode::Client), Entry::Local];
    match Config::new(
        alloc,
        Zid(1),
        &entries,
        10_000,
        Counters::default(),
        USUAL_BEST,
    ) {
        Ok(config) => Ok(config),
        Err(ConfigRefusal::OutOfMemory) => Err(OutOfMemory),
        Err(ConfigRefusal::BadConfig(_)) => unreachable!(),
    }
}

/// The key on which a face declares its queryable.
fn declared_key(alloc: Global, face: u32) -> Result<Text, OutOfMemory>
    ensures { IfOk result (λ t. t ≡ declared_key face) }
{
    Ok(Text::from_string(format!(in alloc; "load/{face}/**")?))
}

/// The key of a query.
fn asked_key(alloc: Global, query: u32) -> Result<Text, OutOfMemory>
    ensures { IfOk result (λ t. t ≡ asked_key query) }
{
    let face = query % 4;
    Ok(Text::from_string(format!(in alloc; "load/{face}/{query}")?))
}

/// The payload of a query, and of its reply.
fn payload(alloc: Global, query: u32) -> Result<Bytes, OutOfMemory>
    ensures { IfOk result (λ b. b ≡ decimal query) }
{
    let mut digits = Vec::new(alloc);
    push_number(&mut digits, query)?;
    Ok(Bytes::from_vec(digits))
}

fn open_call(alloc: Global, face: u32) -> Call
    ensures { result ≡ open_call face }
{
    Call::Open(Opening {
        region: Region::Local,
        zid: Zid(100 + u128::from(face)),
        mode: Mode::Client,
        remote_bound: Bound::North,
        namespace: None,
        entry_deny: Items::new(alloc),
        exit_deny: Items::new(alloc),
    })
}

fn declare_call(alloc: Global, face: u32) -> Result<Call, OutOfMemory>
    ensures { IfOk result (λ c. c ≡ declare_call face) }
{
    Ok(Call::DeclareQueryable {
        face: FaceId(face),
        id: 1,
        wire: whole(declared_key(alloc, face)?),
        info: QueryableInfoType {
            complete: true,
            distance: 0,
        },
        node: 0,
    })
}

fn ask_call(alloc: Global, query: u32) -> Result<Call, OutOfMemory>
    ensures { IfOk result (λ c. c ≡ ask_call query) }
{
    Ok(Call::Request {
        face: FaceId(4 + query % 4),
        request: Request {
            id: query,
            wire: whole(asked_key(alloc, query)?),
            target: QueryTarget::All,
            timeout: None,
            node: 0,
            qos: 0,
            payload: payload(alloc, query)?,
        },
        now: u64::from(query),
    })
}

fn reply_call(alloc: Global, query: u32) -> Result<Call, OutOfMemory>
    ensures { IfOk result (λ c. c ≡ reply_call query) }
{
    Ok(Call::Response {
        face: FaceId(query % 4),
        response: Response {
            rid: query / 4 + 1,
            wire: whole(asked_key(alloc, query)?),
            qos: 0,
            payload: ReplyBody::Reply(payload(alloc, query)?),
            responder: None,
        },
    })
}

/// One of the four calls of a query.
fn query_call(alloc: Global, query: u32, part: u32) -> Result<Call, OutOfMemory>
    ensures { IfOk result (λ c. c ≡ query_call query part) }
{
    match part {
        0 => ask_call(alloc, query),
        1 => reply_call(alloc, query),
        2 => Ok(Call::ResponseFinal {
            face: FaceId(query % 4),
            rid: query / 4 + 1,
        }),
        _ => Ok(Call::Sent {
            reply: u64::from(query),
        }),
    }
}

/// A call of the load, by its number.
fn load_call(alloc: Global, number: u32) -> Result<Call, OutOfMemory>
    ensures { IfOk result (λ c. c ≡ load_call number) }
{
    if number < 8 {
        Ok(open_call(alloc, number))
    } else if number < 12 {
        declare_call(alloc, number - 8)
    } else {
        query_call(alloc, (number - 12) / 4, (number - 12) % 4)
    }
}

// The call of the number is made, and what it hands is counted. It and its step are let go.
#[tactic(auto, using(crate::proofs::Loaded::more_below))]
fn count_call(
    alloc: Global,
    gateway: &mut Gateway,
    counts: &mut Counts,
    number: u32,
) -> Result<(), OutOfMemory>
    requires { IsBelow (number * 2 ^ 64) counts.old }
    ensures after { OnOk result (gateway.new.state ≡ after gateway.old.state (load_call number)) }
    ensures counted { OnOk result (counts.new ≡ plus counts.old (count (step gateway.old.state (load_call number)).handed)) }
    ensures below { OnOk result (IsBelow ((number + 1) * 2 ^ 64) counts.new) }
{
    let call = load_call(alloc, number)?;
    let step = gateway.call(&call)?;
    counts.add(step.handed.as_slice());
    Ok(())
}

// What the load's calls hand, made on a new gateway.
fn count_on(alloc: Global, gateway: &mut Gateway, amount: u16) -> Result<Counts, OutOfMemory>
    requires { gateway.old.state ≡ opening_state load_config }
    ensures { IfOk result (λ c. c ≡ count (handed_over (steps load_config (load_calls amount)))) }
{
    let mut counts = Counts::default();
    'calls: for number in 0..12 + 4 * u32::from(amount) {
        count_call(alloc, gateway, &mut counts, number)?;
    }
    Ok(counts)
}

// The same; the gateway is dropped in one place.
fn count_anew(alloc: Global, config: &Config, amount: u16) -> Result<Counts, OutOfMemory>
    requires { config.now ≡ load_config }
    ensures { IfOk result (λ c. c ≡ count (handed_over (steps load_config (load_calls amount)))) }
{
    match Gateway::new(alloc, config) {
        Ok(mut gateway) => {
            let counted = count_on(alloc, &mut gateway, amount);
            drop(gateway);
            counted
        }
        Err(error) => Err(error),
    }
}

/// What the load's calls hand.
fn count_load(alloc: Global, amount: u16) -> Result<Counts, OutOfMemory>
    ensures { IfOk result (λ c. c ≡ count (handed_over (steps load_config (load_calls amount)))) }
{
    count_anew(alloc, &load_config(alloc)?, amount)
}

/// The line that says what was counted.
#[tactic(auto, using(crate::proofs::Loaded::how_many))]
pub fn print_load(alloc: Global, amount: u16) -> Result<Bytes, OutOfMemory>
    ensures { IfOk result (λ b. b ≡ load_line amount) }
{
    let counts = count_load(alloc, amount)?;
    let mut print = Vec::new(alloc);
    push_text(&mut print, "calls ")?;
    push_number(&mut print, 12 + 4 * u32::from(amount))?;
    push_text(&mut print, " handed ")?;
    push_number(&mut print, counts.handed)?;
    push_text(&mut print, " requests ")?;
    push_number(&mut print, counts.requests)?;
    push_text(&mut print, " responses ")?;
    push_number(&mut print, counts.responses)?;
    push_text(&mut print, " finals ")?;
    push_number(&mut print, counts.finals)?;
    push_text(&mut print, "\n")?;
    Ok(Bytes::from_vec(print))
}
