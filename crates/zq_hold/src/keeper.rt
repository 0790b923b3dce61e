//! The keeper of all slots, and what it does with slots that it allotted.
ghost use Rattle.std.specs.Prelude.{◌≡◌, ◌<◌, ◌+◌, ◌∷◌, [], true, false, IfNone, IfSome, length, slice_set};
ghost use Rattle.zq_hold.specs.declared.slot.Mark.TheVariants.{Gone, Kept, Spare, Vacant};
ghost use Rattle.zq_hold.specs.Slots.{times, without};
ghost use Rattle.zq_hold.specs.Marks.{AllAllotted, HasMark, IsNext};

use crate::last::Last;
use crate::marked::{first_with, open_slot, release_marked, vacate_slot};
use crate::seat::HoldSeat;
use crate::slot::{Mark, Slot};
use crate::table::{CountSeat, CountTable, hold_slot, join_seat};
use std::alloc::Global;
use std::marker::Model;
use std::sync::Arc;

/// The keeper of all slots.
pub struct Keeper {
    pub(crate) table: Arc<CountTable, Global>,
    pub(crate) seat: CountSeat,
    pub(crate) marks: Vec<Mark>,
}

impl Drop for Keeper {
    fn drop(self) {
        let Keeper { table, seat, marks } = self;
    }
}

impl Model for Keeper {
    ghost use Rattle.std.specs.Arc.{arc_value};
    ghost use Rattle.zq_hold.specs.Seats.{IsKeeper, Keeping};

    ghost Value = { Keeping };

    ghost view = { λ k. record { home = k.seat.table_id; marks = k.marks.items; lent = k.seat.me.0.lent; ended = k.seat.me.0.ended; vacated = k.seat.me.0.vacated; made = k.seat.me.0.made; joined = k.seat.me.0.joined } };

    ghost invariant = { λ k. IsKeeper k.seat (arc_value k.table).shared k.marks.items };
}

impl Keeper {
    /// The least spare slot; where none is spare, the least vacant one, by one exchange from 0. None exactly where every slot is allotted.
    pub(crate) fn next_slot(&mut self) -> Option<Slot>
        ensures some { IfSome result (λ s. IsNext self.old.marks s.0 × (self.new ≡ record self.old { marks = slice_set self.old.marks s.0 Kept })) }
        ensures lent { IfSome result (λ s. times s.0 self.new.lent ≡ 0) }
        ensures none { IfNone result ((self.new ≡ self.old) × AllAllotted self.old.marks) }
    {
        if let Some(at) = first_with(self.marks.as_slice(), Mark::Spare) {
            self.marks[at] = Mark::Kept;
            return Some(Slot(at as u16));
        }
        let at = first_with(self.marks.as_slice(), Mark::Vacant)?;
        let Keeper { table, seat, marks } = self;
        open_slot(&**table, seat, marks.as_mut_slice(), at);
        Some(Slot(at as u16))
    }

    /// Tells a proof that each slot of its holds has a mark. It does nothing.
    pub fn recall(&self)
        ensures { length self.now.marks ≡ self.now.home.words }
    {
        let _ = &self.seat;
    }

    /// Whether the slot is allotted and the keeper holds it.
    pub fn keeps(&self, slot: Slot) -> bool
        ensures kept { result ≡ true → HasMark Kept self.now.marks slot.0 }
        ensures other { result ≡ false → HasMark Kept self.now.marks slot.0 → ⊥ }
    {
        let at = slot.0 as usize;
        at < self.marks.len() && self.marks[at] == Mark::Kept
    }

    /// The slot is spare, and no longer allotted. No step is made.
    pub fn put_back(&mut self, slot: Slot)
        requires kept { HasMark Kept self.old.marks slot.0 }
        requires unlent { times slot.0 self.old.lent ≡ 0 }
        ensures { self.new ≡ record self.old { marks = slice_set self.old.marks slot.0 Spare } }
    {
        self.marks[slot.0 as usize] = Mark::Spare;
    }

    /// The slot that the `Last` stands for, which was allotted and which nobody holds: it is no longer allotted.
    pub fn vacate(&mut self, last: Last) -> Slot
        requires { last.home ≡ self.old.home }
        ensures slot { (result.0 ≡ last.slot) × HasMark Gone self.old.marks last.slot }
        ensures keeper { self.new ≡ record self.old { marks = slice_set self.old.marks last.slot Vacant; lent = without last.slot self.old.lent; vacated = self.old.vacated + 1 } }
    {
        let Keeper { table, seat, marks } = self;
        vacate_slot(&**table, seat, marks.as_mut_slice(), last)
    }

    /// A seat that holds nothing is given back, and is no seat any more. What it released last counts as the keeper's.
    pub fn join(&mut self, seat: HoldSeat)
        requires home { self.old.home ≡ seat.home }
        requires empty { seat.held ≡ [] }
        ensures { self.new ≡ record self.old { ended = self.old.ended + seat.ended; joined = self.old.joined + 1 } }
    {
        let Keeper {
            table,
            seat: mine,
            marks: _,
        } = self;
        let HoldSeat {
            table: _,
            seat: theirs,
        } = seat;
        join_seat(&**table, mine, theirs);
    }
}

/// The seat holds the slot, too. It is lent from now on, until `Keeper::vacate`.
pub fn hold(keeper: &mut Keeper, seat: &mut HoldSeat, slot: Slot)
    requires home { keeper.old.home ≡ seat.old.home }
    requires kept { HasMark Kept keeper.old.marks slot.0 }
    requires free { times slot.0 seat.old.held ≡ 0 }
    ensures keeper { keeper.new ≡ record keeper.old { lent = slot.0 ∷ keeper.old.lent } }
    ensures seat { seat.new ≡ record seat.old { held = slot.0 ∷ seat.old.held } }
{
    let Keeper {
        table,
        seat: mine,
        marks: _,
    } = keeper;
    let HoldSeat {
        table: _,
        seat: theirs,
    } = seat;
    hold_slot(&**table, mine, theirs, slot);
}

/// The keeper releases the slot, by one step. `Last` exactly where nobody holds it afterwards, and so always where it is not lent.
pub fn release_kept(keeper: &mut Keeper, slot: Slot) -> Option<Last>
    requires { HasMark Kept keeper.old.marks slot.0 }
    ensures keeper { keeper.new ≡ record keeper.old { marks = slice_set keeper.old.marks slot.0 Gone; ended = keeper.new.ended } }
    ensures last { IfSome result (λ l. (l ≡ record { home = keeper.old.home; slot = slot.0 }) × (keeper.new.ended ≡ keeper.old.ended + 1)) }
    ensures none { IfNone result ((keeper.new.ended ≡ keeper.old.ended) × (0 < times slot.0 keeper.old.lent)) }
{
    let Keeper { table, seat, marks } = keeper;
    release_marked(&**table, seat, marks.as_mut_slice(), slot)
}
