//! Why a reader gave nothing.
ghost use Rattle.std.specs.Prelude.{◌≡◌};
ghost use Rattle.zq_io.specs.declared.stop.Stop.TheVariants as stop;

use zq_message::memory::OutOfMemory;

/// Why a reader gave nothing.
#[derive(Clone, Copy, Debug, PartialEq, Eq)]
pub enum Stop {
    /// Nothing of the kind stands there.
    Bad,
    /// No memory was found.
    OutOfMemory,
}

impl From<OutOfMemory> for Stop {
    ghost from_gives = { λ _ e. e ≡ stop.OutOfMemory };

    fn from(_error: OutOfMemory) -> Stop {
        Stop::OutOfMemory
    }
}
