//! What stands for the end of a slot's holds.
use crate::slot::Slot;
use crate::table::CountSeat;
use std::marker::Model;

/// It stands for a slot that nobody holds any more. It has to be spent, and only `Keeper::vacate` spends it.
pub struct Last {
    pub(crate) seat: CountSeat,
    pub(crate) slot: Slot,
}

impl Model for Last {
    ghost use Rattle.zq_hold.specs.Seats.{Ended, IsLast};

    ghost Value = { Ended };

    ghost view = { λ l. record { home = l.seat.table_id; slot = l.slot.0 } };

    ghost invariant = { λ l. IsLast l.seat l.slot.0 };
}
