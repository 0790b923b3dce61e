//! Why a name or an id is refused.
use zq_key::memory::OutOfMemory;

/// Why a name or an id is refused, in the order in which the reasons are looked at.
#[derive(Clone, Copy, Debug, PartialEq, Eq)]
pub enum NameRefusal {
    /// The scope of an expression is no known id.
    UnknownScope,
    /// The text is no key.
    InvalidKeyExpr,
    /// The id is 0, or stands for another text.
    Remapped,
    /// The id stands for nothing.
    UnknownId,
    /// No memory was found.
    OutOfMemory,
}

impl From<OutOfMemory> for NameRefusal {
    ghost use Rattle.std.specs.Prelude.{◌≡◌};
    ghost use Rattle.zq_names.specs.declared.refusal.NameRefusal.{NameRefusal};
    ghost use Rattle.zq_names.specs.declared.refusal.NameRefusal.TheVariants.{OutOfMemory};

    ghost from_gives = { λ _ r. r ≡ OutOfMemory };

    fn from(_: OutOfMemory) -> NameRefusal {
        NameRefusal::OutOfMemory
    }
}
