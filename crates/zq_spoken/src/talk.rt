//! A gateway that is spoken to by lines, and the step of its last call.
ghost use Rattle.std.specs.Prelude.{◌≡◌, List, None, Some, Err, IfOk, OnOk, OnErr, IsSomeAnd};
ghost use Rattle.zq_gateway.specs.Deadline.{IsNextDeadline};
ghost use Rattle.zq_io.specs.Words.{Reads};
ghost use Rattle.zq_io.specs.declared.stop.Stop.TheVariants as stop;
ghost use Rattle.zq_machine.specs.declared.call.Call.{Call};
ghost use Rattle.zq_machine.specs.Headline.{RunPromise};
ghost use Rattle.zq_machine.specs.Machine.{after, step};
ghost use Rattle.zq_machine.specs.State.{opening_state};
ghost use Rattle.zq_spoken.specs.Line.{said};
ghost use Rattle.zq_spoken.specs.Opening.{Opens, config_of};
ghost use Rattle.zq_spoken.specs.Talk.{Answered, fresh, opens, printed};
ghost use Rattle.zq_trace.specs.Machine.{RunHeadline, RunTold};

use crate::line::is_line;
use crate::opening::config_of;
use crate::refusal::OpenRefusal;
use std::alloc::Global;
use std::marker::Model;
use zq_gateway::gateway::Gateway;
use zq_io::stop::Stop;
use zq_key::memory::OutOfMemory;
use zq_lines::lines::call_of;
use zq_lines::steps::push_step;
use zq_machine::call::{Call, Step};
use zq_machine::config::Config;

/// A gateway that is spoken to by lines, the step of its last call while that is not printed, and the
/// print of it once it is.
pub struct Talk {
    gateway: Gateway,
    step: Option<Step>,
    print: Vec<u8>,
}

impl Drop for Talk {
    fn drop(self) {
        let Talk {
            gateway,
            step,
            print,
        } = self;
    }
}

impl Model for Talk {
    ghost use Rattle.zq_spoken.specs.Talk.{Spoken};

    ghost Value = { Spoken };

    ghost view = { λ s. record { state = s.gateway.state; step = s.step; print = s.print.items } };
}

/// The gateway of a configuration, before any call.
fn begun(alloc: Global, config: &Config) -> Result<Talk, OutOfMemory>
    ensures fresh { IfOk result (λ s. s ≡ fresh (opening_state config.now)) }
    ensures headline { IfOk result (λ _. (calls : List Call) → RunHeadline config.now calls) }
    ensures told { IfOk result (λ _. (calls : List Call) → RunTold config.now calls) }
    ensures promise { IfOk result (λ _. (calls : List Call) → RunPromise config.now calls) }
{
    Ok(Talk {
        gateway: Gateway::new(alloc, config)?,
        step: None,
        print: Vec::new(alloc),
    })
}

/// The call that the bytes say, where they are one line.
fn said(alloc: Global, bytes: &[u8]) -> Result<Call, Stop>
    ensures { Reads result (said bytes.now) }
{
    if !is_line(bytes) {
        return Err(Stop::Bad);
    }
    call_of(alloc, bytes)
}

impl Talk {
    /// A gateway of the configuration that a script's lines before its calls say. Whatever calls are
    /// made on it, one after another, their steps keep the headline, and each call the promises of a run.
    pub fn open(alloc: Global, head: &[u8]) -> Result<Talk, OpenRefusal>
        ensures opened { Opens result (opens head.now) }
        ensures headline { OnOk result (IfOk (config_of head.now) (λ c. (calls : List Call) → RunHeadline c calls)) }
        ensures told { OnOk result (IfOk (config_of head.now) (λ c. (calls : List Call) → RunTold c calls)) }
        ensures promise { OnOk result (IfOk (config_of head.now) (λ c. (calls : List Call) → RunPromise c calls)) }
    {
        let config = config_of(alloc, head)?;
        Ok(begun(alloc, &config)?)
    }

    /// Makes a call, and keeps its step.
    fn make(&mut self, call: &Call) -> Result<(), OutOfMemory>
        ensures state { OnOk result (self.new.state ≡ after self.old.state call.now) }
        ensures step { OnOk result (self.new.step ≡ Some (step self.old.state call.now)) }
        ensures kept { OnErr result (self.new ≡ self.old) }
    {
        let step = self.gateway.call(call)?;
        self.step = Some(step);
        Ok(())
    }

    /// Makes the call that the bytes say, which are to be one line; its step is kept, and not printed
    /// yet. Where they are no call, or no memory is found, nothing changes.
    pub fn call(&mut self, alloc: Global, line: &[u8]) -> Result<(), Stop>
        ensures made { OnOk result (IsSomeAnd (said line.now) (λ c. Answered self.old self.new c)) }
        ensures bad { result ≡ Err stop.Bad → said line.now ≡ None }
        ensures kept { OnErr result (self.new ≡ self.old) }
    {
        let call = said(alloc, line)?;
        self.make(&call)?;
        Ok(())
    }

    /// Prints the step of the last call, where it is not printed yet. Where no memory is found, the
    /// step is kept, and this can be called again.
    pub fn write(&mut self) -> Result<(), OutOfMemory>
        ensures ok { OnOk result (self.new ≡ printed self.old) }
        ensures state { OnErr result (self.new.state ≡ self.old.state) }
        ensures step { OnErr result (self.new.step ≡ self.old.step) }
    {
        let Some(step) = &self.step else {
            return Ok(());
        };
        self.print.clear();
        push_step(&mut self.print, step)?;
        self.step = None;
        Ok(())
    }

    /// The print of the last step that was printed.
    pub fn print(&self) -> &[u8]
        ensures { result.now ≡ self.now.print }
    {
        self.print.as_slice()
    }

    /// The least deadline of all that open requests wait for, in milliseconds, and None exactly where they
    /// wait for nothing (`Gateway::next_deadline`).
    pub fn next_deadline(&self) -> Option<u64>
        ensures { IsNextDeadline self.now.state.core.queries.records result }
    {
        self.gateway.next_deadline()
    }
}
