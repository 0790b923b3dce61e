//! Counted holds: slots that a keeper allots, and that seats in other threads hold until they release them, without a lock.
//! Whoever lets a slot go last knows it, and gets a `Last`, which the keeper takes back. Each slot has a word in a table that all
//! share: how many hold it.
//!
//! - `slot`: `Slot` with `SlotList`, and `Mark`, how a slot stands with the keeper
//! - `holds`: `Holds::new`, which makes the keeper and the seats
//! - `seat`: `HoldSeat` with `release` and the law `apart`, and `SeatList`
//! - `keeper`: `Keeper` with `put_back`, `vacate` and `join`; `hold` and `release_kept`
//! - `allotting`: `allot`, and `NoSlot`, which it alone makes
//! - `last`: `Last`, which has to be spent, by `vacate`
//! - `table`: the steps on the table that the keeper and seats make
//! - `marked`: the steps of the keeper that change a mark
//! - `steps`: what each step tells the one that makes it, and how views are cut and joined
//! - `laws`: what follows from the rule: who leaves the number of a slot 0 is told
//! - `view`: what the keeper, a seat and a `Last` know, which exists in proofs alone
//! - `slots`: `Slots`, the keeper with the request that owns each slot
//! - `find`: the slot that a request owns
//!
//! The rule that holds between any two steps of any threads is `IsKept`, in `specs/Rule.antt`: among others, that the number of a slot is
//! how many hold it, and that exactly one view stands for a slot that is not vacated and that nobody holds. The keeper and each seat count
//! how often they released a slot last (`ended`), and the sum of these counts is how many slots the keeper vacated and how many views stand
//! for one. `laws` says what follows for whatever keeps the rule: a seat that stood for nothing and leaves the number of a slot 0 stands
//! for the slot, and its count goes up by one, and so it is with the keeper, unless it vacates the slot by that very step; no cut of a
//! seat, nor its join with a view that is neither seat nor keeper, loses either, and one of the keeper's only where the slot is vacated.
//! So whatever a seat does with its own views, its count is greater than it was for as long as a number is 0 that it left so; and a
//! release that answers no `Last` left its count as it was.
//!
//! No call waits for another thread, and only `Holds::new` takes memory. Nothing is said of progress: no clause promises that a thread
//! ever releases what it holds. A seat that is dropped holds what it held.
#![tactic(auto)]

mod allotting;
mod find;
mod holds;
mod keeper;
mod last;
mod laws;
mod marked;
mod seat;
mod slot;
mod slots;
mod steps;
mod table;
mod view;

pub use allotting::{NoSlot, allot};
pub use holds::Holds;
pub use keeper::{Keeper, hold, release_kept};
pub use last::Last;
pub use laws::{
    counts_settle, entry_is_empty, keeper_step_counts, seat_cut_counts, seat_is_told,
    seat_step_counts, stands_on, unlent_stands,
};
pub use seat::{HoldSeat, SeatList, apart, release};
pub use slot::{Mark, Slot, SlotList};
pub use slots::Slots;
