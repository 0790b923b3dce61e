//! The gateway beside the calls that it stands for.
ghost use Rattle.std.specs.Prelude.{◌≡◌, ◌+◌, ◌<◌, ◌≤◌, ◌^◌, [], length, vec_capacity, vec_len, true, if◌then◌else◌, false, ℕ, IfNone, IfOk, IfSome, OnErr, OnOk};
ghost use Rattle.std.specs.List.{cons_option, count_by};
ghost use Rattle.zq_machine.specs.declared.call.Call.TheVariants as call;
ghost use Rattle.zq_gateway.specs.Making.{Performs};
ghost use Rattle.zq_machine.specs.Asked.{replies_of};
ghost use Rattle.zq_machine.specs.Machine.{done, step};
ghost use Rattle.zq_shared.specs.Stored.{answer_to, flights, in_flight, is_flying, standing, waiting, with_call};

use std::alloc::Global;
use std::marker::Model;
use zq_gateway::gateway::Gateway;
use zq_key::memory::OutOfMemory;
use zq_machine::call::{Call, Step};
use zq_machine::config::Config;
use zq_machine::handed::Handed;
use zq_query::records::NotInFlight;

/// A gateway beside the calls that were made on it. There is room for the report of each reply that is in flight.
pub struct Journal {
    config: Config,
    gateway: Gateway,
    calls: Vec<Call>,
    flying: usize,
}

impl Drop for Journal {
    fn drop(self) {
        let Journal {
            config,
            gateway,
            calls,
            flying,
        } = self;
    }
}

impl Model for Journal {
    ghost use Rattle.std.specs.Prelude.{vec_capacity, vec_len};
    ghost use Rattle.zq_shared.specs.Stored.{IsStored, Stored};

    ghost Value = { Stored };

    ghost view = { λ j. record { config = j.config; calls = j.calls.items } };

    ghost invariant = { λ j. IsStored j.config j.gateway.state j.calls.items j.flying (vec_len j.calls) (vec_capacity j.calls) };
}

/// One more, if it counts.
fn more(count: usize, counts: bool) -> usize
    requires { count + 1 < 2 ^ 64 }
    ensures { result ≡ (if counts then count + 1 else count) }
{
    if counts {
        return count + 1;
    }
    count
}

/// Whether the message is a reply, which is in flight from then on.
fn is_flying(message: &Handed) -> bool
    ensures { result ≡ is_flying message.now }
{
    message.reply().is_some()
}

/// How many of the messages are replies.
#[tactic(auto, using(crate::proofs::Journals::counted_more, crate::proofs::Journals::few_counted))]
fn count_replies(handed: &[Handed]) -> usize
    ensures { result ≡ count_by is_flying handed.now }
{
    let mut count = 0;
    'messages: for message in handed {
        count = more(count, is_flying(message));
    }
    count
}

/// At most how many replies are in flight once the call is made.
fn all_flying(gateway: &Gateway, flying: usize, call: &Call) -> Result<usize, OutOfMemory>
    ensures { IfOk result (λ n. flying + length (replies_of (step gateway.now.state call.now)) ≤ n) }
{
    let more = gateway.most_replies(call)?;
    flying.checked_add(more).ok_or(OutOfMemory)
}

/// A number of places that holds the call and a report of each reply that is in flight behind it.
fn room_for(gateway: &Gateway, flying: usize, call: &Call) -> Result<usize, OutOfMemory>
    ensures { IfOk result (λ room. flying + length (replies_of (step gateway.now.state call.now)) + 1 ≤ room) }
{
    let room = all_flying(gateway, flying, call)?;
    room.checked_add(1).ok_or(OutOfMemory)
}

/// Performs the call, and counts the replies that it hands as flying. Where memory is lacking all is as it was.
fn perform(gateway: &mut Gateway, flying: &mut usize, call: &Call) -> Result<Step, OutOfMemory>
    requires few { flying.old + length (replies_of (step gateway.old.state call.now)) < 2 ^ 64 }
    ensures performed { Performs gateway.old gateway.new call.now result }
    ensures counted { OnOk result (flying.new ≡ flying.old + length (replies_of (step gateway.old.state call.now))) }
    ensures same { OnErr result (flying.new ≡ flying.old) }
{
    let step = gateway.call(call)?;
    *flying += count_replies(step.handed.as_slice());
    Ok(step)
}

/// Performs the call, once there is room to store it and a report of each reply that is in flight behind it. Where memory is lacking all is as it was.
fn make(
    gateway: &mut Gateway,
    calls: &mut Vec<Call>,
    flying: &mut usize,
    call: &Call,
) -> Result<Step, OutOfMemory>
    ensures performed { Performs gateway.old gateway.new call.now result }
    ensures counted { OnOk result (flying.new ≡ flying.old + length (replies_of (step gateway.old.state call.now))) }
    ensures same { OnErr result (flying.new ≡ flying.old) }
    ensures calls { calls.new.items ≡ calls.old.items }
    ensures length { vec_len calls.new ≡ vec_len calls.old }
    ensures grown { vec_capacity calls.old ≤ vec_capacity calls.new }
    ensures room { OnOk result (vec_len calls.new + flying.new + 1 ≤ vec_capacity calls.new) }
{
    let room = room_for(gateway, *flying, call)?;
    calls.reserve(room)?;
    perform(gateway, flying, call)
}

impl Journal {
    /// A new gateway, and no calls.
    pub fn new(alloc: Global, config: &Config) -> Result<Journal, OutOfMemory>
        ensures { IfOk result (λ j. j ≡ record { config = config.now; calls = [] }) }
    {
        Ok(Journal {
            config: config.copy(alloc)?,
            gateway: Gateway::new(alloc, config)?,
            calls: Vec::new(alloc),
            flying: 0,
        })
    }

    /// The calls that were made, in order.
    pub fn calls(&self) -> &[Call]
        ensures { result.now ≡ self.now.calls }
    {
        self.calls.as_slice()
    }

    /// What the gateway was made with.
    pub fn config(&self) -> &Config
        ensures { result.now ≡ self.now.config }
    {
        &self.config
    }

    /// How many entries of the request are pending; 0 where it is not open.
    pub fn pending_of(&self, number: u64) -> u64
        ensures { result ≡ waiting self.now number }
    {
        self.gateway.pending_of(number)
    }

    /// The least reply in flight of the request. It takes no memory.
    pub fn first_in_flight(&self, number: u64) -> Option<u64>
        ensures there { IfSome result (λ reply. in_flight self.now number reply ≡ true) }
        ensures least { IfSome result (λ reply. (earlier : ℕ) → earlier < reply → in_flight self.now number earlier ≡ false) }
        ensures none { IfNone result ((reply : ℕ) → in_flight self.now number reply ≡ false) }
    {
        self.gateway.first_in_flight(number)
    }

    /// At most how many replies the call would put in flight.
    pub fn most_replies(&self, call: &Call) -> Result<usize, OutOfMemory>
        ensures { IfOk result (λ n. length (replies_of (answer_to self.now call.now)) ≤ n) }
    {
        self.gateway.most_replies(call)
    }

    /// At most how many replies are in flight once the call is made, and so how many reports may come behind it.
    pub fn most_in_flight(&self, call: &Call) -> Result<usize, OutOfMemory>
        ensures { IfOk result (λ n. length (flights (standing (with_call self.now call.now))) ≤ n) }
    {
        all_flying(&self.gateway, self.flying, call)
    }

    /// Makes one call, and stores it. Where memory is lacking all is as it was.
    pub fn step(&mut self, call: Call) -> Result<Step, OutOfMemory>
        ensures step { IfOk result (λ t. t ≡ answer_to self.old call) }
        ensures stored { OnOk result (self.new ≡ with_call self.old call) }
        ensures same { OnErr result (self.new ≡ self.old) }
    {
        let step = make(&mut self.gateway, &mut self.calls, &mut self.flying, &call)?;
        self.calls.push_reserved(call);
        Ok(step)
    }

    /// Reports that a reply was sent, and stores the report; the final to the asker comes of it, or none. It takes no memory.
    /// `NotInFlight` exactly where the reply is not in flight, and then nothing is stored.
    pub fn sent(&mut self, reply: u64) -> Result<Option<Handed>, NotInFlight>
        ensures answer { IfOk result (λ o. answer_to self.old (call.Sent reply) ≡ done (cons_option o [])) }
        ensures stored { OnOk result (self.new ≡ with_call self.old (call.Sent reply)) }
        ensures refused { OnErr result ((number : ℕ) → in_flight self.old number reply ≡ false) }
        ensures same { OnErr result (self.new ≡ self.old) }
    {
        match self.gateway.sent(reply) {
            Ok(last) => {
                self.flying -= 1;
                self.calls.push_reserved(Call::Sent { reply });
                Ok(last)
            }
            Err(_) => Err(NotInFlight),
        }
    }
}
