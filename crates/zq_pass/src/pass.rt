//! Passes, and the list that they are taken from.
ghost use Rattle.std.specs.Prelude.{◌≡◌, ◌+◌, ◌<◌, ◌++◌, ◌∷◌, [], All, length, IfNone, IfSome};
ghost use mathlib.Core.List.{IsPrefix};
ghost use Rattle.zq_hold.specs.Slots.{times, without};
ghost use Rattle.zq_journal_view.specs.Views.{longer};

use std::marker::Model;
use zq_hold::{HoldSeat, Last, SeatList, Slot, release};
use zq_journal_view::{Note, Seen};
use zq_machine::call::Call;

/// What a caller keeps: its number, the seat that it holds slots with, and what it has seen of the journal.
#[derive(Drop)]
pub struct Pass {
    pub(crate) number: u32,
    pub(crate) seat: HoldSeat,
    pub(crate) seen: Seen<Call>,
}

impl Model for Pass {
    ghost use Rattle.std.specs.Prelude.{◌≡◌};
    ghost use Rattle.zq_pass.specs.Passes.{Passing};

    ghost Value = { Passing };

    ghost view = { λ p. record { home = record { holds = p.seat.home; journal = p.seen.home }; number = p.number; held = p.seat.held; ended = p.seat.ended; seen = p.seen.seen } };

    ghost invariant = { λ p. p.seen.number ≡ p.number };
}

impl Pass {
    /// Its number, by which the journal names it.
    pub fn number(&self) -> u32
        ensures { result ≡ self.now.number }
    {
        self.number
    }

    /// It releases the slot, by one step. `Last` exactly where nobody holds it afterwards.
    pub fn release(&mut self, slot: Slot) -> Option<Last>
        requires { 0 < times slot.0 self.old.held }
        ensures pass { self.new ≡ record self.old { held = without slot.0 self.old.held; ended = self.new.ended } }
        ensures last { IfSome result (λ l. (l ≡ record { home = self.old.home.holds; slot = slot.0 }) × (self.new.ended ≡ self.old.ended + 1)) }
        ensures none { IfNone result (self.new.ended ≡ self.old.ended) }
    {
        release(&mut self.seat, slot)
    }

    /// A note, which has seen what the pass has.
    pub fn note(&mut self) -> Note<Call>
        ensures pass { self.new ≡ self.old }
        ensures note { result ≡ record { home = self.old.home.journal; seen = self.old.seen } }
    {
        self.seen.note()
    }

    /// The pass has seen the longer of what it and the note had seen, both of which begin it.
    pub fn meet(&mut self, note: Note<Call>)
        requires { note.home ≡ self.old.home.journal }
        ensures pass { self.new ≡ record self.old { seen = longer self.old.seen note.seen } }
        ensures mine { IsPrefix self.old.seen self.new.seen }
        ensures theirs { IsPrefix note.seen self.new.seen }
    {
        self.seen.meet(note);
    }
}

/// Passes that are still to be taken, or were put back.
#[derive(Drop)]
pub struct PassList {
    pub(crate) seats: SeatList,
    pub(crate) note: Note<Call>,
    pub(crate) passes: Vec<Pass>,
}

impl Model for PassList {
    ghost use Rattle.std.specs.Prelude.{◌≡◌, All, vec_capacity};
    ghost use Rattle.zq_pass.specs.Passes.{Passes};

    ghost Value = { Passes };

    ghost view = { λ l. record { home = record { holds = l.seats.home; journal = l.note.home }; passes = l.passes.items; most = vec_capacity l.passes } };

    ghost invariant = { λ l. All (λ p. p.home ≡ record { holds = l.seats.home; journal = l.note.home }) l.passes.items };
}

impl PassList {
    /// The next pass; none exactly where no pass is left.
    pub fn take(&mut self) -> Option<Pass>
        ensures some { IfSome result (λ p. self.old ≡ record self.new { passes = p ∷ self.new.passes }) }
        ensures none { IfNone result ((self.old.passes ≡ []) × (self.new ≡ self.old)) }
        ensures home { IfSome result (λ p. p.home ≡ self.old.home) }
    {
        if self.passes.is_empty() {
            return None;
        }
        Some(self.passes.remove(0))
    }

    /// A pass is given back.
    pub fn put(&mut self, pass: Pass)
        requires home { pass.home ≡ self.old.home }
        requires room { length self.old.passes < self.old.most }
        ensures { self.new ≡ record self.old { passes = self.old.passes ++ pass ∷ [] } }
    {
        self.passes.push_reserved(pass);
    }
}
