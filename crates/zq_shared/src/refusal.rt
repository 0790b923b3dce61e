//! Why a call was refused.
use crate::StepRefusal;
use zq_hold::NoSlot;
use zq_machine::call::Outcome;

/// Why a call gave no step.
#[derive(Drop)]
pub enum CallRefusal {
    /// The call is a request, and every slot is allotted. It is not stored.
    Full(NoSlot),
    /// The call is stored and was answered so, but its link failed when it had taken that many messages.
    LinkFault { outcome: Outcome, sent: u64 },
    /// There is no memory. The call is not stored, and nothing was sent.
    OutOfMemory,
}

impl From<StepRefusal> for CallRefusal {
    ghost use Rattle.std.specs.Prelude.{◌≡◌};
    ghost use Rattle.zq_shared.specs.Refusals.{refused};

    ghost from_gives = { λ e r. r ≡ refused e };

    fn from(refusal: StepRefusal) -> CallRefusal {
        match refusal {
            StepRefusal::Full(none) => CallRefusal::Full(none),
            StepRefusal::OutOfMemory => CallRefusal::OutOfMemory,
        }
    }
}
