//! The steps of the keeper that change a mark, and the search for a mark.
ghost use Rattle.std.specs.Prelude.{◌≡◌, ◌+◌, ◌<◌, IfNone, IfSome, length, slice_set};
ghost use Rattle.zq_hold.specs.declared.slot.Mark.TheVariants.{Gone, Kept, Vacant};
ghost use Rattle.zq_hold.specs.Slots.{times};
ghost use Rattle.zq_hold.specs.Views.{closed, opened};
ghost use Rattle.zq_hold.specs.Marks.{HasMark, IsLeast, NoneHas};
ghost use Rattle.zq_hold.specs.Seats.{IsKeeper};

use crate::last::Last;
use crate::slot::{Mark, Slot};
use crate::steps::{Ends, Opens, ReleasesKept, Vacates};
use crate::table::{CountSeat, CountTable};

/// The place of the least slot with that mark.
pub(crate) fn first_with(marks: &[Mark], mark: Mark) -> Option<usize>
    ensures some { IfSome result (λ k. IsLeast mark marks.now k) }
    ensures none { IfNone result (NoneHas mark marks.now) }
{
    for i in 0..marks.len() {
        if marks[i] == mark {
            return Some(i);
        }
    }
    None
}

/// The keeper takes a vacant slot, by one exchange from 0, which finds 0.
pub(crate) fn open_slot(table: &CountTable, keeper: &mut CountSeat, marks: &mut [Mark], at: usize)
    requires keeper { IsKeeper keeper.old table.now.shared marks.old }
    requires vacant { HasMark Vacant marks.old at }
    ensures keeper { IsKeeper keeper.new table.now.shared marks.new }
    ensures marks { marks.new ≡ slice_set marks.old at Kept }
    ensures view { keeper.new.me.0 ≡ opened keeper.old.me.0 at }
{
    let _ = table.shared.compare_exchange::<Opens>(keeper, at, 0, 1);
    marks[at] = Mark::Kept;
}

/// The keeper releases a slot. If it was the last to hold it, the view of a `Last` is split off.
pub(crate) fn release_marked(
    table: &CountTable,
    keeper: &mut CountSeat,
    marks: &mut [Mark],
    slot: Slot,
) -> Option<Last>
    requires keeper { IsKeeper keeper.old table.now.shared marks.old }
    requires kept { HasMark Kept marks.old slot.0 }
    ensures keeper { IsKeeper keeper.new table.now.shared marks.new }
    ensures marks { marks.new ≡ slice_set marks.old slot.0 Gone }
    ensures view { (keeper.new.me.0.lent ≡ keeper.old.me.0.lent) × (keeper.new.me.0.vacated ≡ keeper.old.me.0.vacated) × (keeper.new.me.0.made ≡ keeper.old.me.0.made) × (keeper.new.me.0.joined ≡ keeper.old.me.0.joined) }
    ensures last { IfSome result (λ l. (l ≡ record { home = table.now.shared.table_id; slot = slot.0 }) × (keeper.new.me.0.ended ≡ keeper.old.me.0.ended + 1)) }
    ensures none { IfNone result ((keeper.new.me.0.ended ≡ keeper.old.me.0.ended) × (0 < times slot.0 keeper.old.me.0.lent)) }
{
    marks[slot.0 as usize] = Mark::Gone;
    let found = table
        .shared
        .fetch_sub::<ReleasesKept>(keeper, slot.0 as usize, 1);
    if found != 1 {
        return None;
    }
    let end = table.shared.split_seat::<Ends>(keeper);
    Some(Last { seat: end, slot })
}

/// The keeper takes a `Last` in, and learns by a look that its slot was gone and that nobody holds it.
pub(crate) fn vacate_slot(
    table: &CountTable,
    keeper: &mut CountSeat,
    marks: &mut [Mark],
    last: Last,
) -> Slot
    requires keeper { IsKeeper keeper.old table.now.shared marks.old }
    requires home { last.home ≡ table.now.shared.table_id }
    ensures keeper { IsKeeper keeper.new table.now.shared marks.new }
    ensures slot { (result.0 ≡ last.slot) × HasMark Gone marks.old last.slot }
    ensures marks { marks.new ≡ slice_set marks.old last.slot Vacant }
    ensures view { keeper.new.me.0 ≡ closed keeper.old.me.0 last.slot }
{
    let Last { seat, slot } = last;
    table.shared.join_seat::<Ends>(keeper, seat);
    table.shared.load::<Vacates>(keeper, slot.0 as usize);
    marks[slot.0 as usize] = Mark::Vacant;
    slot
}
