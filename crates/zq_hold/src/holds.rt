//! How a keeper and its seats are made.
ghost use Rattle.std.specs.Prelude.{◌≡◌, ◌<◌, ◌≤◌, [], IfOk, replicate};
ghost use Rattle.zq_hold.specs.declared.slot.Mark.TheVariants.{Spare};

use crate::keeper::Keeper;
use crate::seat::{HoldSeat, SeatList};
use crate::slot::Mark;
use crate::table::{CountSeat, CountTable, make_seat};
use atomic_table::Table;
use std::alloc::Global;
use std::sync::Arc;
use zq_message::memory::OutOfMemory;

/// The holds of one table: a keeper, slots and seats that belong together.
pub struct Holds;

impl Holds {
    /// A keeper of that many slots, each of which is spare, and that many seats, which hold nothing; no other seat is made.
    pub fn new(alloc: Global, slots: u16, seats: u8) -> Result<(Keeper, SeatList), OutOfMemory>
        requires slots { (0 < slots) × (slots ≤ 1024) }
        requires seats { (0 < seats) × (seats ≤ 63) }
        ensures keeper { IfOk result (λ r. r.0 ≡ record { home = r.0.home; marks = replicate slots Spare; lent = []; ended = 0; vacated = 0; made = seats; joined = 0 }) }
        ensures sized { IfOk result (λ r. r.0.home.words ≡ slots) }
        ensures seats { IfOk result (λ r. r.1 ≡ record { home = r.0.home; count = seats }) }
    {
        let words = Vec::from_elem(alloc, 1u64, slots as usize)?;
        let marks = Vec::from_elem(alloc, Mark::Spare, slots as usize)?;
        let count = slots as u64;
        let (table, mut seat): (CountTable, CountSeat) = Table::of_words(
            alloc,
            words.as_slice(),
            &count,
        )?;
        let table = Arc::new(alloc, table)?;
        let mut list = Vec::with_capacity(alloc, seats as usize)?;
        for _i in 0..seats {
            let theirs = Arc::try_clone(&table)?;
            let made = make_seat(&*table, &mut seat);
            list.push_reserved(HoldSeat {
                table: theirs,
                seat: made,
            });
        }
        let shared = Arc::try_clone(&table)?;
        let untaken = SeatList {
            table: shared,
            seats: list,
        };
        Ok((Keeper { table, seat, marks }, untaken))
    }
}
