//! A gateway that is spoken to by lines: those of a script, one after another.
ghost use Rattle.std.specs.Prelude.{◌≡◌, None, Some, Ok, Err, true, false, IfOk, IfSome, OnErr, OnOk};
ghost use Rattle.zq_io.specs.declared.stop.Stop.TheVariants as stop;
ghost use Rattle.zq_machine.specs.State.{opening_state};
ghost use Rattle.zq_script.specs.Head.{configured};

use crate::head::{NO_COUNTS, Said, USUAL_BEST, best_of, config_of, configured, start_of};
use crate::refusal::ScriptRefusal;
use crate::script::script_call;
use std::alloc::Global;
use std::marker::Model;
use zq_gateway::gateway::Gateway;
use zq_io::stop::Stop;
use zq_machine::call::Step;
use zq_machine::config::Counters;
use zq_route::selection::Best;

/// A gateway that is spoken to by lines.
pub struct Conversation {
    // The gateway, once a line `config` was taken.
    gateway: Option<Gateway>,
    // What that line said, while further lines of the head may follow it.
    said: Option<Said>,
    // What a line `start` said behind it.
    start: Option<Counters>,
}

impl Drop for Conversation {
    fn drop(self) {
        let Conversation {
            gateway,
            said,
            start,
        } = self;
    }
}

impl Model for Conversation {
    ghost use Rattle.std.specs.Option.{option_map};
    ghost use Rattle.zq_script.specs.Conversation.{Spoken};

    ghost Value = { Spoken };

    ghost view = { λ s. record { state = option_map (λ g. g.state) s.gateway; said = s.said; start = s.start } };
}

/// A gateway of what a line `config` said, with these counters and this choice.
fn opened(alloc: Global, said: &Said, counters: Counters, best: Best) -> Result<Gateway, Stop>
    ensures gateway { IfOk result (λ g. (c : _) × (configured said.now counters best ≡ Ok c) × (g.state ≡ opening_state c)) }
    ensures bad { result ≡ Err stop.Bad → (n : _) × (configured said.now counters best ≡ Err n) }
{
    match configured(alloc, said, counters, best) {
        Ok(config) => Ok(Gateway::new(alloc, &config)?),
        Err(ScriptRefusal::BadLine(_)) => Err(Stop::Bad),
        Err(ScriptRefusal::OutOfMemory) => Err(Stop::OutOfMemory),
    }
}

impl Conversation {
    ghost use Rattle.zq_script.specs.Conversation.{fresh, place, taken, take_best, take_call, take_config, take_head, take_start};
    ghost use Rattle.zq_script.specs.Script.{script_call};

    /// Before any line. Takes no memory.
    pub fn new() -> Conversation
        ensures { result ≡ fresh }
    {
        Conversation {
            gateway: None,
            said: None,
            start: None,
        }
    }

    /// Which line of a script may come next: 1, `config`; 2, `start`, `best` or a call; 3, `best` or
    /// a call; 4, a call.
    pub fn place(&self) -> u64
        ensures { result ≡ place self.now }
    {
        match (&self.gateway, &self.said, &self.start) {
            (None, _, _) => 1,
            (Some(_), Some(_), None) => 2,
            (Some(_), Some(_), Some(_)) => 3,
            (Some(_), None, _) => 4,
        }
    }

    /// Takes a line `config`.
    fn begin(&mut self, alloc: Global, line: &[u8]) -> Result<(), Stop>
        ensures ok { OnOk result (take_config line.now ≡ Some (None, self.new)) }
        ensures bad { result ≡ Err stop.Bad → take_config line.now ≡ None }
        ensures kept { OnErr result (self.new ≡ self.old) }
    {
        let said = config_of(alloc, line)?;
        self.gateway = Some(opened(alloc, &said, NO_COUNTS, USUAL_BEST)?);
        self.said = Some(said);
        self.start = None;
        Ok(())
    }

    /// Takes a line `start`, where it may stand; false where it is none.
    fn restart(&mut self, alloc: Global, line: &[u8]) -> Result<bool, Stop>
        ensures ok { result ≡ Ok true → take_start self.old.said self.old.start line.now ≡ Some (Some (None, self.new)) }
        ensures none { result ≡ Ok false → take_start self.old.said self.old.start line.now ≡ None }
        ensures bad { result ≡ Err stop.Bad → take_start self.old.said self.old.start line.now ≡ Some None }
        ensures unchanged { result ≡ Ok false → self.new ≡ self.old }
        ensures kept { OnErr result (self.new ≡ self.old) }
    {
        let Some(said) = &self.said else {
            return Ok(false);
        };
        match self.start {
            Some(_) => return Ok(false),
            None => {}
        }
        let counters = match start_of(alloc, line) {
            Ok(counters) => counters,
            Err(Stop::Bad) => return Ok(false),
            Err(Stop::OutOfMemory) => return Err(Stop::OutOfMemory),
        };
        self.gateway = Some(opened(alloc, said, counters, USUAL_BEST)?);
        self.start = Some(counters);
        Ok(true)
    }

    /// Takes a line `best`, where it may stand; false where it is none.
    fn choose(&mut self, alloc: Global, line: &[u8]) -> Result<bool, Stop>
        ensures ok { result ≡ Ok true → take_best self.old.said self.old.start line.now ≡ Some (Some (None, self.new)) }
        ensures none { result ≡ Ok false → take_best self.old.said self.old.start line.now ≡ None }
        ensures bad { result ≡ Err stop.Bad → take_best self.old.said self.old.start line.now ≡ Some None }
        ensures unchanged { result ≡ Ok false → self.new ≡ self.old }
        ensures kept { OnErr result (self.new ≡ self.old) }
    {
        let Some(said) = &self.said else {
            return Ok(false);
        };
        let Some(best) = best_of(line) else {
            return Ok(false);
        };
        let counters = self.start.unwrap_or(NO_COUNTS);
        self.gateway = Some(opened(alloc, said, counters, best)?);
        self.said = None;
        self.start = None;
        Ok(true)
    }

    /// Takes a further line of the head, where it may stand; false where it is none.
    fn tune(&mut self, alloc: Global, line: &[u8]) -> Result<bool, Stop>
        ensures ok { result ≡ Ok true → take_head self.old line.now ≡ Some (Some (None, self.new)) }
        ensures none { result ≡ Ok false → take_head self.old line.now ≡ None }
        ensures bad { result ≡ Err stop.Bad → take_head self.old line.now ≡ Some None }
        ensures unchanged { result ≡ Ok false → self.new ≡ self.old }
        ensures kept { OnErr result (self.new ≡ self.old) }
    {
        if self.restart(alloc, line)? {
            return Ok(true);
        }
        self.choose(alloc, line)
    }

    /// Makes the call of a line.
    fn call(&mut self, alloc: Global, line: &[u8]) -> Result<Step, Stop>
        ensures ok { IfOk result (λ t. IfSome self.old.state (λ s. take_call s (script_call false line.now) ≡ Some (Some t, self.new))) }
        ensures bad { result ≡ Err stop.Bad → IfSome self.old.state (λ s. take_call s (script_call false line.now) ≡ None) }
        ensures kept { OnErr result (self.new ≡ self.old) }
    {
        let call = script_call(alloc, false, line)?;
        let Some(gateway) = &mut self.gateway else {
            return Err(Stop::Bad);
        };
        let step = gateway.call(&call)?;
        self.said = None;
        self.start = None;
        Ok(step)
    }

    /// Takes a line, and answers the step of its call, if it is one. Where the line is bad, or no
    /// memory is found, nothing changes.
    pub fn take(&mut self, alloc: Global, line: &[u8]) -> Result<Option<Step>, Stop>
        ensures ok { IfOk result (λ t. taken self.old line.now ≡ Some (t, self.new)) }
        ensures bad { result ≡ Err stop.Bad → taken self.old line.now ≡ None }
        ensures kept { OnErr result (self.new ≡ self.old) }
    {
        if self.gateway.is_none() {
            self.begin(alloc, line)?;
            return Ok(None);
        }
        if self.tune(alloc, line)? {
            return Ok(None);
        }
        Ok(Some(self.call(alloc, line)?))
    }
}
