//! What was released last.
ghost use Rattle.std.specs.Prelude.{◌≡◌, ◌<◌, ◌≤◌, ◌++◌, ◌∷◌, [], length, IfNone, IfOk, IfSome};

use std::alloc::{AllocError, Global};
use std::marker::Model;
use zq_hold::Last;

/// What a step released last. Each has to be taken, and given to `settle`; then the list has to be ended.
pub struct LastList {
    lasts: Vec<Last>,
}

impl Model for LastList {
    ghost use Rattle.std.specs.Prelude.{vec_capacity};
    ghost use Rattle.zq_shared.specs.Holding.{Lasts};

    ghost Value = { Lasts };

    ghost view = { λ l. record { ended = l.lasts.items; most = vec_capacity l.lasts } };
}

impl LastList {
    /// None, and no room for any.
    pub fn new(alloc: Global) -> LastList
        ensures { result.ended ≡ [] }
    {
        LastList {
            lasts: Vec::new(alloc),
        }
    }

    /// None yet, with room for that many.
    pub fn with_room(alloc: Global, count: usize) -> Result<LastList, AllocError>
        ensures none { IfOk result (λ l. l.ended ≡ []) }
        ensures room { IfOk result (λ l. count ≤ l.most) }
    {
        Ok(LastList {
            lasts: Vec::with_capacity(alloc, count)?,
        })
    }

    /// One more, for which there is room.
    pub fn push(&mut self, last: Last)
        requires { length self.old.ended < self.old.most }
        ensures { self.new ≡ record { ended = self.old.ended ++ last ∷ []; most = self.old.most } }
    {
        self.lasts.push_reserved(last);
    }

    /// One of them; none exactly where the list is empty.
    pub fn take(&mut self) -> Option<Last>
        ensures some { IfSome result (λ l. self.old ≡ record { ended = self.new.ended ++ l ∷ []; most = self.old.most }) }
        ensures none { IfNone result ((self.old.ended ≡ []) × (self.new ≡ self.old)) }
    {
        self.lasts.pop()
    }

    /// The list is empty, and goes.
    pub fn end(self)
        requires { self.ended ≡ [] }
    {
        let LastList { lasts } = self;
        lasts.destroy_empty();
    }
}
