//! What a call tells goes through the gates of faces.
ghost use Rattle.std.specs.Prelude.{◌≡◌, IfOk, OnErr};
ghost use Rattle.std.specs.List.{AllByRecursion};
ghost use Rattle.zq_egress.specs.Exits.{undone_by};
ghost use Rattle.zq_egress.specs.Gone.{AreOut, IsTold};

use crate::{Exit, FaceMuxes};
use zq_key::memory::OutOfMemory;
use zq_machine::handed::HandedList;

/// Messages of a call that is no request go through the gates of their faces. Where no face has a gate,
/// nothing is looked at.
pub fn let_told_out(gates: &mut FaceMuxes, told: &HandedList) -> Result<Vec<Exit>, OutOfMemory>
    requires { AllByRecursion IsTold told.now }
    ensures out { IfOk result (λ es. AreOut gates.old told.now gates.new es.items) }
    ensures back { IfOk result (λ es. undone_by es.items told.now gates.new ≡ gates.old) }
    ensures err { OnErr result (gates.new ≡ gates.old) }
{
    match gates.let_out("", told.as_slice()) {
        Ok(exits) => Ok(exits),
        Err(error) => Err(error),
    }
}
