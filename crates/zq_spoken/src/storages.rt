//! A bus of storages that is spoken to by lines, and what came of its last line.
ghost use Rattle.std.specs.Prelude.{◌≡◌, ◌⊎◌, Some, None, Err, OnOk, OnErr, IsSomeAnd};
ghost use Rattle.zq_io.specs.Words.{Reads};
ghost use Rattle.zq_spoken.specs.Line.{asked};
ghost use Rattle.zq_spoken.specs.Opening.{Opens};
ghost use Rattle.zq_spoken.specs.Storages.{Did, Spends, opened, opens, printed};
ghost use Rattle.zq_spoken.specs.declared.refusal.LineRefusal.TheVariants as refusal;
ghost use Rattle.zq_store.specs.Bus.{IsSpent};
ghost use Rattle.zq_store.specs.Outcomes.{line_after, line_outcome};

use crate::line::is_line;
use crate::opening::config_of;
use crate::refusal::{LineRefusal, OpenRefusal};
use std::alloc::Global;
use std::marker::Model;
use zq_io::stop::Stop;
use zq_key::memory::OutOfMemory;
use zq_machine::config::Config;
use zq_store::bus::{Bus, BusRefusal};
use zq_store::lines::{Line, line_of};
use zq_store::outcome::{Lack, LineOutcome, do_line};
use zq_store::printing::push_outcome;

/// A bus of storages that is spoken to by lines, what came of its last line while that is not printed,
/// and the print of it once it is.
pub struct Storages {
    bus: Bus,
    outcome: Option<LineOutcome>,
    print: Vec<u8>,
}

impl Drop for Storages {
    fn drop(self) {
        let Storages {
            bus,
            outcome,
            print,
        } = self;
    }
}

impl Model for Storages {
    ghost use Rattle.zq_spoken.specs.Storages.{Stocked};

    ghost Value = { Stocked };

    ghost view = { λ s. record { bus = s.bus; outcome = s.outcome; print = s.print.items } };
}

/// The line for storages that the bytes are, where they are one line.
fn asked(alloc: Global, bytes: &[u8]) -> Result<Line, Stop>
    ensures { Reads result (asked bytes.now) }
{
    if !is_line(bytes) {
        return Err(Stop::Bad);
    }
    line_of(alloc, bytes)
}

/// The storages of a configuration: none.
fn begun(alloc: Global, config: &Config) -> Result<Storages, OpenRefusal>
    ensures { Opens result (opened config.now) }
{
    match Bus::new(alloc, config) {
        Ok(bus) => Ok(Storages {
            bus,
            outcome: None,
            print: Vec::new(alloc),
        }),
        Err(BusRefusal::NoLocal) => Err(OpenRefusal::NoLocal),
        Err(BusRefusal::NoFreeId) => Err(OpenRefusal::NoFreeId),
        Err(_) => Err(OpenRefusal::OutOfMemory),
    }
}

impl Storages {
    /// A bus without storages, of the configuration that a script's lines before its calls say.
    pub fn open(alloc: Global, head: &[u8]) -> Result<Storages, OpenRefusal>
        ensures { Opens result (opens head.now) }
    {
        let config = config_of(alloc, head)?;
        begun(alloc, &config)
    }

    /// Does what a line asks for, and keeps what comes of it.
    fn make(&mut self, line: &Line) -> Result<(), Lack>
        ensures bus { OnOk result (self.new.bus ≡ line_after self.old.bus line.now) }
        ensures outcome { OnOk result (self.new.outcome ≡ Some (line_outcome self.old.bus line.now)) }
        ensures kept { result ≡ Err Lack.Kept → self.new ≡ self.old }
        ensures spent { result ≡ Err Lack.Spent → IsSpent self.old.bus self.new.bus }
        ensures before { OnErr result (self.new.outcome ≡ self.old.outcome) }
        ensures print { OnErr result (self.new.print ≡ self.old.print) }
    {
        let outcome = do_line(&mut self.bus, line)?;
        self.outcome = Some(outcome);
        Ok(())
    }

    /// Does what the bytes ask for, which are to be one line; what comes of it is kept, and not printed
    /// yet. Where they are no line for storages, or no memory is found, nothing changes, but where that
    /// is said of the bus.
    pub fn call(&mut self, alloc: Global, line: &[u8]) -> Result<(), LineRefusal>
        ensures made { OnOk result (IsSomeAnd (asked line.now) (λ l. Did self.old self.new l)) }
        ensures bad { result ≡ Err refusal.Bad → asked line.now ≡ None }
        ensures kept { (result ≡ Err refusal.Bad) ⊎ (result ≡ Err refusal.OutOfMemory) → self.new ≡ self.old }
        ensures spent { result ≡ Err refusal.Spent → Spends self.old self.new }
    {
        match asked(alloc, line) {
            Ok(line) => match self.make(&line) {
                Ok(()) => Ok(()),
                Err(Lack::Kept) => Err(LineRefusal::OutOfMemory),
                Err(Lack::Spent) => Err(LineRefusal::Spent),
            },
            Err(Stop::Bad) => Err(LineRefusal::Bad),
            Err(Stop::OutOfMemory) => Err(LineRefusal::OutOfMemory),
        }
    }

    /// Prints what came of the last line, where it is not printed yet. Where no memory is found, it is
    /// kept, and this can be called again.
    pub fn write(&mut self) -> Result<(), OutOfMemory>
        ensures ok { OnOk result (self.new ≡ printed self.old) }
        ensures bus { OnErr result (self.new.bus ≡ self.old.bus) }
        ensures outcome { OnErr result (self.new.outcome ≡ self.old.outcome) }
    {
        let Some(outcome) = &self.outcome else {
            return Ok(());
        };
        self.print.clear();
        push_outcome(&mut self.print, outcome)?;
        self.outcome = None;
        Ok(())
    }

    /// What was printed last.
    pub fn print(&self) -> &[u8]
        ensures { result.now ≡ self.now.print }
    {
        self.print.as_slice()
    }
}
