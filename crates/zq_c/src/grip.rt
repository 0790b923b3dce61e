//! What C holds.
ghost use Rattle.std.specs.Prelude.{◌≡◌, Some, None, MatchOption, IsSome, ◌↔◌, IsTrue, false};

use crate::owned_box::Owned;
use crate::parts::Parts;
use std::alloc::Global;
use std::mem::replace;
use zq_spoken::speaker::Speaker;

/// What C holds: all bytes zero, or what is spoken to by lines.
#[repr(C)]
#[derive(Drop)]
pub struct Handle {
    /// What is spoken to, if there is something.
    pub owned: Owned,
    live: bool,
    ghost agree: { IsTrue live ↔ IsSome owned.value },
}

impl Handle {
    /// Whether there is something.
    #[tactic(auto, using(crate::proofs::Holding::none_of))]
    pub fn is_live(&self) -> bool
        ensures some { IsTrue result ↔ IsSome self.now.owned.value }
        ensures none { result ≡ false → self.now.owned.value ≡ None }
    {
        self.live
    }

    /// Puts a speaker where none is.
    pub fn put(&mut self, speaker: Box<Speaker>)
        requires { self.old.owned.value ≡ None }
        ensures { self.new.owned.value ≡ Some speaker.value }
    {
        *self = Handle {
            owned: Owned::of(Parts::of(speaker)),
            live: true,
        };
    }

    /// Takes the speaker that is there.
    pub fn take(&mut self, alloc: Global) -> Option<Box<Speaker>>
        ensures taken { MatchOption result (self.old.owned.value ≡ None) (λ b. self.old.owned.value ≡ Some b.value) }
        ensures none { self.new.owned.value ≡ None }
    {
        let none = Handle {
            owned: Owned::none(alloc),
            live: false,
        };
        let Handle { owned, live } = replace(self, none);
        if live {
            Some(owned.into_parts().into_box())
        } else {
            None
        }
    }
}
