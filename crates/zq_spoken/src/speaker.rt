//! What is spoken to by lines.
ghost use Rattle.std.specs.Prelude.{◌≡◌, ◌⊎◌, List, None, Err, IfOk, IsSomeAnd, OnOk, OnErr};
ghost use Rattle.zq_spoken.specs.Line.{said};
ghost use Rattle.zq_spoken.specs.Talk.{Answered};
ghost use Rattle.zq_machine.specs.declared.call.Call.{Call};
ghost use Rattle.zq_machine.specs.Headline.{RunPromise};
ghost use Rattle.zq_trace.specs.Machine.{RunHeadline, RunTold};
ghost use Rattle.zq_spoken.specs.Opening.{Opens, config_of};
ghost use Rattle.zq_spoken.specs.Speaker.{Answers, IsNext, IsNoLine, IsSpentBus, IsUnprinted, opens_bus, opens_gateway, print_of, printed};
ghost use Rattle.zq_spoken.specs.declared.refusal.LineRefusal.TheVariants as refusal;

use crate::refusal::{LineRefusal, OpenRefusal};
use crate::storages::Storages;
use crate::talk::Talk;
use std::alloc::Global;
use zq_io::stop::Stop;
use zq_key::memory::OutOfMemory;

/// What is spoken to by lines.
#[derive(Drop)]
pub enum Speaker {
    /// A gateway, to which the lines of a script's calls are said.
    Gateway(Talk),
    /// A bus, to which the lines of a script for storages are said.
    Bus(Storages),
}

/// Makes the call that a line says, on a gateway.
fn call_gateway(talk: &mut Talk, alloc: Global, line: &[u8]) -> Result<(), LineRefusal>
    ensures made { OnOk result (IsSomeAnd (said line.now) (λ c. Answered talk.old talk.new c)) }
    ensures bad { result ≡ Err refusal.Bad → said line.now ≡ None }
    ensures kept { OnErr result (talk.new ≡ talk.old) }
    ensures whole { result ≡ Err refusal.Spent → ⊥ }
{
    match talk.call(alloc, line) {
        Ok(()) => Ok(()),
        Err(Stop::Bad) => Err(LineRefusal::Bad),
        Err(Stop::OutOfMemory) => Err(LineRefusal::OutOfMemory),
    }
}

impl Speaker {
    /// A gateway of the configuration that a script's lines before its calls say. Whatever calls are
    /// made on it, one after another, their steps keep the headline, and each call the promises of a run.
    pub fn open_gateway(alloc: Global, head: &[u8]) -> Result<Speaker, OpenRefusal>
        ensures opened { Opens result (opens_gateway head.now) }
        ensures headline { OnOk result (IfOk (config_of head.now) (λ c. (calls : List Call) → RunHeadline c calls)) }
        ensures told { OnOk result (IfOk (config_of head.now) (λ c. (calls : List Call) → RunTold c calls)) }
        ensures promise { OnOk result (IfOk (config_of head.now) (λ c. (calls : List Call) → RunPromise c calls)) }
    {
        match Talk::open(alloc, head) {
            Ok(talk) => Ok(Speaker::Gateway(talk)),
            Err(refusal) => Err(refusal),
        }
    }

    /// A bus without storages, of the configuration that a script's lines before its calls say.
    pub fn open_bus(alloc: Global, head: &[u8]) -> Result<Speaker, OpenRefusal>
        ensures { Opens result (opens_bus head.now) }
    {
        match Storages::open(alloc, head) {
            Ok(storages) => Ok(Speaker::Bus(storages)),
            Err(refusal) => Err(refusal),
        }
    }

    /// Does what a line says; what comes of it is kept, and not printed yet. Where it is no line of its
    /// kind, or no memory is found, nothing changes, but where a bus is spent by it.
    pub fn call(&mut self, alloc: Global, line: &[u8]) -> Result<(), LineRefusal>
        ensures made { OnOk result (Answers self.old self.new line.now) }
        ensures bad { result ≡ Err refusal.Bad → IsNoLine self.old line.now }
        ensures kept { (result ≡ Err refusal.Bad) ⊎ (result ≡ Err refusal.OutOfMemory) → self.new ≡ self.old }
        ensures spent { result ≡ Err refusal.Spent → IsSpentBus self.old self.new }
    {
        match self {
            Speaker::Gateway(talk) => call_gateway(talk, alloc, line),
            Speaker::Bus(storages) => storages.call(alloc, line),
        }
    }

    /// Prints what came of the last line, where it is not printed yet. Where no memory is found, it is
    /// kept, and this can be called again.
    pub fn write(&mut self) -> Result<(), OutOfMemory>
        ensures ok { OnOk result (self.new ≡ printed self.old) }
        ensures kept { OnErr result (IsUnprinted self.old self.new) }
    {
        match self {
            Speaker::Gateway(talk) => talk.write(),
            Speaker::Bus(storages) => storages.write(),
        }
    }

    /// What was printed last.
    pub fn print(&self) -> &[u8]
        ensures { result.now ≡ print_of self.now }
    {
        match self {
            Speaker::Gateway(talk) => talk.print(),
            Speaker::Bus(storages) => storages.print(),
        }
    }

    /// When a gateway is to be told next that a moment has come, in milliseconds, and None exactly where it
    /// waits for nothing (`Gateway::next_deadline`). A bus waits for nothing between two lines.
    pub fn next_deadline(&self) -> Option<u64>
        ensures { IsNext self.now result }
    {
        match self {
            Speaker::Gateway(talk) => talk.next_deadline(),
            Speaker::Bus(_) => None,
        }
    }
}
