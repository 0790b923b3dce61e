//! Why bytes are not read as a script.
ghost use Rattle.std.specs.Prelude.{◌≡◌};
ghost use Rattle.std.specs.Result.{result_map_both};
ghost use Rattle.zq_script.specs.Script.{refusal_at};
ghost use Rattle.zq_script.specs.declared.refusal.ScriptRefusal.TheVariants as refusal;

use thiserror::Error;
use zq_io::stop::Stop;
use zq_key::memory::OutOfMemory;

/// Why bytes were not read as a script: their first bad line, counted from 1, or no memory was
/// found.
#[derive(Clone, Copy, Debug, PartialEq, Eq, Error)]
pub enum ScriptRefusal {
    /// The number of the first bad line, from 1 on.
    #[error("BadLine")]
    BadLine(u64),
    /// No memory was found.
    #[error("OutOfMemory")]
    OutOfMemory,
}

impl From<OutOfMemory> for ScriptRefusal {
    ghost from_gives = { λ _ e. e ≡ refusal.OutOfMemory };

    fn from(_error: OutOfMemory) -> ScriptRefusal {
        ScriptRefusal::OutOfMemory
    }
}

/// What was read in the line of this number, or the refusal of the line.
pub fn at_line<X: Drop>(number: u64, read: Result<X, Stop>) -> Result<X, ScriptRefusal>
    ensures { result ≡ result_map_both (λ x. x) (refusal_at number) read }
{
    match read {
        Ok(x) => Ok(x),
        Err(Stop::Bad) => Err(ScriptRefusal::BadLine(number)),
        Err(Stop::OutOfMemory) => Err(ScriptRefusal::OutOfMemory),
    }
}
