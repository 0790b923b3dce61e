//! A gateway on which calls were made.
ghost use Rattle.std.specs.Prelude.{◌≡◌, IfOk};
ghost use Rattle.zq_machine.specs.Machine.{state_after};
ghost use Rattle.zq_machine.specs.State.{opening_state};

use std::alloc::Global;
use zq_gateway::Gateway;
use zq_key::memory::OutOfMemory;
use zq_machine::call::Call;
use zq_machine::config::Config;

/// A gateway on which the calls were made, one after another.
pub fn gateway_after(alloc: Global, config: &Config, calls: &[Call]) -> Result<Gateway, OutOfMemory>
    ensures { IfOk result (λ g. g.state ≡ state_after (opening_state config.now) calls.now) }
{
    let mut gateway = Gateway::new(alloc, config)?;
    for call in calls {
        gateway.call(call)?;
    }
    Ok(gateway)
}
