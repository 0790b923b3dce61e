//! What the lines of a script before its calls open.
ghost use Rattle.std.specs.Prelude.{◌≡◌, [], true, false};
ghost use Rattle.zq_lines.specs.Split.{lines_of};
ghost use Rattle.zq_spoken.specs.Opening.{Opens, config_of};

use crate::refusal::OpenRefusal;
use std::alloc::Global;
use zq_lines::split::next_line;
use zq_machine::config::Config;
use zq_script::head::head_of;
use zq_script::refusal::ScriptRefusal;

/// Whether no line is left.
fn at_end(rest: &[u8]) -> bool
    ensures whole { result ≡ true → lines_of rest.now ≡ [] }
    ensures more { result ≡ false → lines_of rest.now ≡ [] → ⊥ }
{
    next_line(rest).is_none()
}

/// The configuration that the bytes say, which are to be the lines of a script before its calls, and no
/// other.
#[tactic(auto, using(crate::proofs::Opened::config_whole, crate::proofs::Opened::config_more, crate::proofs::Opened::config_bad))]
pub fn config_of(alloc: Global, head: &[u8]) -> Result<Config, OpenRefusal>
    ensures { Opens result (config_of head.now) }
{
    match head_of(alloc, head) {
        Ok((config, _, number, rest)) => {
            if at_end(rest) {
                Ok(config)
            } else {
                Err(OpenRefusal::BadLine(number))
            }
        }
        Err(ScriptRefusal::BadLine(number)) => Err(OpenRefusal::BadLine(number)),
        Err(ScriptRefusal::OutOfMemory) => Err(OpenRefusal::OutOfMemory),
    }
}
