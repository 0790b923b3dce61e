//! The steps on the table that the keeper and seats make.
ghost use Rattle.std.specs.Prelude.{◌≡◌, ◌+◌, ◌<◌, ◌∷◌, [], IfNone, IfSome};
ghost use Rattle.zq_hold.specs.Slots.{times, without};
ghost use Rattle.zq_hold.specs.Views.{joined_one, lends, made_one};
ghost use Rattle.zq_hold.specs.Seats.{IsKeeperSeat, IsSeat};

use crate::last::Last;
use crate::slot::Slot;
use crate::steps::{
    Ends, Gains, Leaves, MakesSeat, Pledges, Releases, SeesEnd, Shows, SlotName, TakesBack,
};
use crate::view::{Counts, HoldView};
use atomic_table::{Seat, Table};
use std::alloc::Global;
use std::marker::Brand;

/// A word for each slot: how many hold it.
pub(crate) type CountTable = Table<(), HoldView, u64, Counts, Global>;

/// What the keeper, a seat and a `Last` step with.
pub(crate) type CountSeat = Seat<(), HoldView>;

/// The keeper makes a seat.
pub(crate) fn make_seat(table: &CountTable, keeper: &mut CountSeat) -> CountSeat
    requires keeper { IsKeeperSeat keeper.old table.now.shared }
    requires room { keeper.old.me.0.made < 63 }
    ensures keeper { IsKeeperSeat keeper.new table.now.shared × (keeper.new.me.0 ≡ made_one keeper.old.me.0) }
    ensures seat { IsSeat result table.now.shared × (result.me.0.held ≡ []) × (result.me.0.ended ≡ 0) }
{
    table.shared.split_seat::<MakesSeat>(keeper)
}

/// A seat that holds nothing is joined to the keeper.
pub(crate) fn join_seat(table: &CountTable, keeper: &mut CountSeat, seat: CountSeat)
    requires keeper { IsKeeperSeat keeper.old table.now.shared }
    requires seat { IsSeat seat table.now.shared × (seat.me.0.held ≡ []) }
    ensures { IsKeeperSeat keeper.new table.now.shared × (keeper.new.me.0 ≡ joined_one keeper.old.me.0 seat.me.0.ended) }
{
    table.shared.join_seat::<Leaves>(keeper, seat);
}

/// The keeper pledges the slot, the seat makes its step, and the pledge goes back.
fn hold_named<N: SlotName>(
    table: &CountTable,
    keeper: &mut CountSeat,
    seat: &mut CountSeat,
    slot: Slot,
)
    requires name { slot.0 ≡ N.slot }
    requires keeper { IsKeeperSeat keeper.old table.now.shared }
    requires seat { IsSeat seat.old table.now.shared }
    requires kept { 0 < times slot.0 keeper.old.me.0.held }
    requires free { times slot.0 seat.old.me.0.held ≡ 0 }
    requires within { slot.0 < table.now.shared.table_id.words }
    ensures keeper { IsKeeperSeat keeper.new table.now.shared × (keeper.new.me.0 ≡ lends keeper.old.me.0 slot.0) }
    ensures seat { IsSeat seat.new table.now.shared × (seat.new.me.0.held ≡ slot.0 ∷ seat.old.me.0.held) × (seat.new.me.0.ended ≡ seat.old.me.0.ended) }
{
    let pledge = table.shared.split_seat::<Pledges<N>>(keeper);
    table.shared.join_seat::<Shows>(seat, pledge);
    table.shared.fetch_add::<Gains>(seat, slot.0 as usize, 1);
    let back = table.shared.split_seat::<Shows>(seat);
    table.shared.join_seat::<TakesBack>(keeper, back);
}

/// A seat holds a slot that the keeper holds.
pub(crate) fn hold_slot(
    table: &CountTable,
    keeper: &mut CountSeat,
    seat: &mut CountSeat,
    slot: Slot,
)
    requires keeper { IsKeeperSeat keeper.old table.now.shared }
    requires seat { IsSeat seat.old table.now.shared }
    requires kept { 0 < times slot.0 keeper.old.me.0.held }
    requires free { times slot.0 seat.old.me.0.held ≡ 0 }
    requires within { slot.0 < table.now.shared.table_id.words }
    ensures keeper { IsKeeperSeat keeper.new table.now.shared × (keeper.new.me.0 ≡ lends keeper.old.me.0 slot.0) }
    ensures seat { IsSeat seat.new table.now.shared × (seat.new.me.0.held ≡ slot.0 ∷ seat.old.me.0.held) × (seat.new.me.0.ended ≡ seat.old.me.0.ended) }
{
    hold_named::<Brand>(table, keeper, seat, slot);
}

/// A seat lets a slot go. If it was the last to hold it, the view of a `Last` is split off.
pub(crate) fn release_slot(table: &CountTable, seat: &mut CountSeat, slot: Slot) -> Option<Last>
    requires seat { IsSeat seat.old table.now.shared }
    requires held { 0 < times slot.0 seat.old.me.0.held }
    ensures seat { IsSeat seat.new table.now.shared × (seat.new.me.0.held ≡ without slot.0 seat.old.me.0.held) }
    ensures last { IfSome result (λ l. (l ≡ record { home = table.now.shared.table_id; slot = slot.0 }) × (seat.new.me.0.ended ≡ seat.old.me.0.ended + 1)) }
    ensures none { IfNone result (seat.new.me.0.ended ≡ seat.old.me.0.ended) }
{
    let found = table.shared.fetch_sub::<Releases>(seat, slot.0 as usize, 1);
    if found != 1 {
        return None;
    }
    let end = table.shared.split_seat::<Ends>(seat);
    Some(Last { seat: end, slot })
}

/// A seat takes a `Last` in, learns by a look that it does not hold its slot, and gives the `Last` back.
pub(crate) fn see_end(table: &CountTable, seat: &mut CountSeat, last: Last) -> Last
    requires seat { IsSeat seat.old table.now.shared }
    requires home { last.home ≡ table.now.shared.table_id }
    ensures seat { IsSeat seat.new table.now.shared × (seat.new.me.0.held ≡ seat.old.me.0.held) × (seat.new.me.0.ended ≡ seat.old.me.0.ended) }
    ensures last { result ≡ last }
    ensures apart { times last.slot seat.old.me.0.held ≡ 0 }
{
    let Last { seat: end, slot } = last;
    table.shared.join_seat::<Ends>(seat, end);
    table.shared.load::<SeesEnd>(seat, slot.0 as usize);
    let end = table.shared.split_seat::<Ends>(seat);
    Last { seat: end, slot }
}
