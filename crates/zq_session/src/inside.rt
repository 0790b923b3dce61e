//! The run of moved calls.
ghost use Rattle.std.specs.Prelude.{◌≡◌, true, IfOk, IsTrue, ℕ, map};
ghost use Rattle.zq_key.specs.Key.{is_plain};
ghost use Rattle.zq_machine.specs.Machine.{steps};
ghost use Rattle.zq_moved.specs.Inside.{outcome_of};
ghost use Rattle.zq_moved.specs.Moving.{can_move, moved};
ghost use Rattle.zq_moved.specs.Received.{received};

use std::alloc::Global;
use zq_gateway::replay;
use zq_key::Key;
use zq_key::memory::OutOfMemory;
use zq_machine::call::{Call, Replay};
use zq_machine::config::Config;
use zq_moved::moved;

/// The run of the calls with all faces in a namespace: each call is answered as without it, and each face has
/// received the same.
pub fn replay_in(
    alloc: Global,
    config: &Config,
    ns: &Key,
    calls: &[Call],
) -> Result<Replay, OutOfMemory>
    requires plain { IsTrue (is_plain ns.now) }
    requires moves { IsTrue (can_move calls.now) }
    ensures machine { IfOk result (λ r. r.steps ≡ steps config.now (moved ns.now calls.now)) }
    ensures outcomes { IfOk result (λ r. map outcome_of r.steps ≡ map outcome_of (steps config.now calls.now)) }
    ensures messages { IfOk result (λ r. (face : ℕ) → received face (moved ns.now calls.now) r.steps ≡ received face calls.now (steps config.now calls.now)) }
{
    let calls = moved(alloc, ns, calls)?;
    replay(alloc, config, calls.as_slice())
}
