//! Whole runs.
ghost use Rattle.std.specs.Prelude.{◌≡◌, IfOk};
ghost use Rattle.zq_machine.specs.Machine.{steps};
ghost use Rattle.zq_machine.specs.Headline.{RunPromise};
ghost use Rattle.zq_trace.specs.Headline.{Headline};
ghost use Rattle.zq_trace.specs.Machine.{of_machine};
ghost use Rattle.zq_trace.specs.Told.{Told};

use crate::gateway::Gateway;
use std::alloc::Global;
use zq_key::items::Items;
use zq_key::memory::OutOfMemory;
use zq_machine::call::{Call, Replay};
use zq_machine::config::Config;

/// The steps of a new gateway for calls, one after another. They keep the headline and tell faces what
/// is due to them, which is said of the calls and of these steps; and what each run promises, which is
/// said of the machine.
pub fn replay(alloc: Global, config: &Config, calls: &[Call]) -> Result<Replay, OutOfMemory>
    ensures machine { IfOk result (λ r. r.steps ≡ steps config.now calls.now) }
    ensures headline { IfOk result (λ r. Headline (of_machine config.now) config.now calls.now r.steps) }
    ensures told { IfOk result (λ r. Told config.now calls.now r.steps) }
    ensures promise { IfOk result (λ _. RunPromise config.now calls.now) }
{
    let mut gateway = Gateway::new(alloc, config)?;
    let mut steps = Items::new(alloc);
    for call in calls {
        steps.push(gateway.call(call)?)?;
    }
    Ok(Replay { steps })
}
