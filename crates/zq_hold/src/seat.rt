//! Seats, and the list that they are taken from.
ghost use Rattle.std.specs.Prelude.{◌≡◌, ◌<◌, ◌+◌, IfNone, IfSome, OnSome};
ghost use Rattle.zq_hold.specs.Slots.{times, without};
ghost use Rattle.zq_hold.specs.Seats.{unused_seat};

use crate::last::Last;
use crate::slot::Slot;
use crate::table::{CountSeat, CountTable, release_slot, see_end};
use std::alloc::Global;
use std::marker::Model;
use std::sync::Arc;

/// A seat, which a thread holds slots with. A seat that is dropped holds what it held, for good.
#[derive(Drop)]
pub struct HoldSeat {
    pub(crate) table: Arc<CountTable, Global>,
    pub(crate) seat: CountSeat,
}

impl Model for HoldSeat {
    ghost use Rattle.std.specs.Arc.{arc_value};
    ghost use Rattle.zq_hold.specs.Seats.{Holder, IsSeat};

    ghost Value = { Holder };

    ghost view = { λ s. record { home = s.seat.table_id; held = s.seat.me.0.held; ended = s.seat.me.0.ended } };

    ghost invariant = { λ s. IsSeat s.seat (arc_value s.table).shared };
}

/// The seat releases the slot, by one step. `Last` exactly where nobody holds it afterwards.
pub fn release(seat: &mut HoldSeat, slot: Slot) -> Option<Last>
    requires { 0 < times slot.0 seat.old.held }
    ensures seat { seat.new ≡ record seat.old { held = without slot.0 seat.old.held; ended = seat.new.ended } }
    ensures last { IfSome result (λ l. (l ≡ record { home = seat.old.home; slot = slot.0 }) × (seat.new.ended ≡ seat.old.ended + 1)) }
    ensures none { IfNone result (seat.new.ended ≡ seat.old.ended) }
{
    let HoldSeat { table, seat } = seat;
    release_slot(&**table, seat, slot)
}

/// Tells a proof that a seat does not hold the slot that a `Last` stands for. It changes nothing, and takes no memory.
pub fn apart(seat: &mut HoldSeat, last: Last) -> Last
    requires { seat.old.home ≡ last.home }
    ensures seat { seat.new ≡ seat.old }
    ensures last { result ≡ last }
    ensures apart { times last.slot seat.old.held ≡ 0 }
{
    let HoldSeat { table, seat } = seat;
    see_end(&**table, seat, last)
}

/// The seats that are still to be taken, each of which holds nothing.
pub struct SeatList {
    pub(crate) table: Arc<CountTable, Global>,
    pub(crate) seats: Vec<HoldSeat>,
}

impl Drop for SeatList {
    fn drop(self) {
        let SeatList { table, seats } = self;
    }
}

impl Model for SeatList {
    ghost use Rattle.std.specs.Prelude.{◌≡◌, All, length};
    ghost use Rattle.std.specs.Arc.{arc_value};
    ghost use Rattle.zq_hold.specs.Seats.{Untaken, unused_seat};

    ghost Value = { Untaken };

    ghost view = { λ l. record { home = (arc_value l.table).shared.table_id; count = length l.seats.items } };

    ghost invariant = { λ l. All (λ s. s ≡ unused_seat (arc_value l.table).shared.table_id) l.seats.items };
}

impl SeatList {
    /// A seat that holds nothing; none exactly where no seat is left.
    pub fn take(&mut self) -> Option<HoldSeat>
        ensures seat { IfSome result (λ s. s ≡ unused_seat self.old.home) }
        ensures some { OnSome result (self.old ≡ record self.new { count = self.new.count + 1 }) }
        ensures none { IfNone result ((self.old.count ≡ 0) × (self.new ≡ self.old)) }
    {
        self.seats.pop()
    }
}
