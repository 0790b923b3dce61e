//! Why a line was not done, or nothing was opened.
ghost use Rattle.std.specs.Prelude.{◌≡◌};
ghost use Rattle.zq_spoken.specs.declared.refusal.OpenRefusal.TheVariants as refusal;

use zq_key::memory::OutOfMemory;

/// Why a line was not done.
#[derive(Clone, Copy, Debug, PartialEq, Eq)]
pub enum LineRefusal {
    /// The bytes are no line of their kind, or no line alone. Nothing changed.
    Bad,
    /// No memory was found. Nothing changed, and the same line can be given again.
    OutOfMemory,
    /// No memory was found for a storage that joins or for a get, and the bus may be amid its calls: it
    /// joins and gets no more. Its pairs stay.
    Spent,
}

/// Why nothing was opened.
#[derive(Clone, Copy, Debug, PartialEq, Eq)]
pub enum OpenRefusal {
    /// The number of the first bad line, from 1 on.
    BadLine(u64),
    /// The configuration of a bus lacks Local.
    NoLocal,
    /// No number is left for a face of a bus.
    NoFreeId,
    /// No memory was found.
    OutOfMemory,
}

impl From<OutOfMemory> for OpenRefusal {
    ghost from_gives = { λ _ e. e ≡ refusal.OutOfMemory };

    fn from(_error: OutOfMemory) -> OpenRefusal {
        OpenRefusal::OutOfMemory
    }
}
