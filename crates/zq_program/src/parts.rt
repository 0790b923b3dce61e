//! Scripts whose parts workers may make.
ghost use Rattle.std.specs.Prelude.{◌<◌, IfOk};
ghost use Rattle.zq_lines.specs.Split.{lines_of};
ghost use Rattle.zq_script.specs.Script.{Gives, script_of};
ghost use Rattle.zq_program.specs.Parts.{ArePartsFor};

use std::alloc::Global;
use zq_script::refusal::ScriptRefusal;
use zq_script::script::{Script, read_script};

/// The script that the bytes are, with so many lines `worker` at most, and at least one that may stand. Its parts may be made by a first and
/// so many workers.
#[tactic(auto, using(crate::proofs::Dealt::parts_given))]
pub fn read_shared(alloc: Global, bytes: &[u8], workers: u8) -> Result<Script, ScriptRefusal>
    requires { 0 < workers }
    ensures value { Gives result (script_of workers (lines_of bytes.now)) }
    ensures parts { IfOk result (λ s. ArePartsFor workers s.parts) }
{
    read_script(alloc, bytes, workers)
}
