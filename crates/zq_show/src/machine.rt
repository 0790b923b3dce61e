//! The gateway of a run, with a look at its hats and at what stands.
ghost use Rattle.std.specs.Prelude.{◌≡◌, IfOk, OnOk, codes};
ghost use Rattle.zq_show.specs.Replay.{begun, given, next};
ghost use Rattle.zq_show.specs.Standing.{standing};

use crate::page::BytesList;
use crate::replay::lines;
use std::alloc::Global;
use std::marker::Model;
use zq_admin::{list, print_entries};
use zq_gateway::Gateway;
use zq_hat::Hat;
use zq_key::Key;
use zq_key::memory::OutOfMemory;
use zq_key::message::Zid;
use zq_machine::call::{Call, Step};
use zq_machine::config::Config;
use zq_message::RegionMap;

/// The gateway of a run. Calls made it of a new one, so that all that holds of runs holds of it.
pub struct Machine {
    gateway: Gateway,
}

impl Drop for Machine {
    fn drop(self) {
        let Machine { gateway } = self;
    }
}

impl Model for Machine {
    ghost use Rattle.zq_machine.specs.State.{State};

    ghost Value = { State };

    ghost view = { λ m. m.gateway.state };
}

impl Machine {
    /// A gateway of a configuration, before any call.
    pub fn new(alloc: Global, config: &Config) -> Result<Machine, OutOfMemory>
        ensures { IfOk result (λ m. m ≡ begun config.now) }
    {
        Ok(Machine {
            gateway: Gateway::new(alloc, config)?,
        })
    }

    /// Makes a call.
    pub fn call(&mut self, call: &Call) -> Result<Step, OutOfMemory>
        ensures step { IfOk result (λ t. t ≡ given self.old call.now) }
        ensures after { OnOk result (self.new ≡ next self.old call.now) }
    {
        self.gateway.call(call)
    }

    /// The hat of each region.
    pub fn hats(&self) -> &RegionMap<Hat>
        ensures { result.now ≡ self.now.core.hats }
    {
        self.gateway.hats()
    }

    /// The configuration.
    pub fn config(&self) -> &Config
        ensures { result.now ≡ self.now.core.config }
    {
        self.gateway.config()
    }

    /// The gateway's own id.
    pub fn own(&self) -> Zid
        ensures { result ≡ self.now.core.config.zid }
    {
        self.gateway.zid()
    }

    /// What stands: the entries of the administration view, each as a line.
    #[tactic(auto, unfolding(crate::specs::Standing::standing))]
    pub fn standing(&self, alloc: Global) -> Result<BytesList, OutOfMemory>
        ensures { IfOk result (λ l. l ≡ standing self.now) }
    {
        let key = all_entries(alloc)?;
        let entries = list(alloc, &self.gateway, &key)?;
        lines(alloc, print_entries(alloc, entries.as_slice())?.as_slice())
    }
}

/// The key that all entries meet but those of keys with a verbatim chunk.
fn all_entries(alloc: Global) -> Result<Key, OutOfMemory>
    ensures { IfOk result (λ k. k ≡ codes "@/**") }
{
    match Key::new(alloc, "@/**") {
        Ok(key) => Ok(key),
        Err(_) => Err(OutOfMemory),
    }
}
