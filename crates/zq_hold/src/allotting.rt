//! How slots are allotted.
ghost use Rattle.std.specs.Prelude.{◌≡◌, IfOk, OnErr, slice_set};
ghost use Rattle.zq_hold.specs.declared.slot.Mark.TheVariants.{Kept};
ghost use Rattle.zq_hold.specs.Slots.{times};
ghost use Rattle.zq_hold.specs.Marks.{AllAllotted, IsNext};

use crate::keeper::Keeper;
use crate::slot::Slot;

/// Every slot was allotted. `allot` alone makes one.
#[derive(Drop)]
pub struct NoSlot {
    made: (),
}

/// The least spare slot, without a step; where none is spare, the least vacant one, by one exchange from 0, which finds 0.
/// It is allotted then, the keeper holds it, and it is not lent. `NoSlot` exactly where every slot is allotted; nothing has changed then.
pub fn allot(keeper: &mut Keeper) -> Result<Slot, NoSlot>
    ensures ok { IfOk result (λ s. IsNext keeper.old.marks s.0 × (keeper.new ≡ record keeper.old { marks = slice_set keeper.old.marks s.0 Kept })) }
    ensures lent { IfOk result (λ s. times s.0 keeper.new.lent ≡ 0) }
    ensures err { OnErr result ((keeper.new ≡ keeper.old) × AllAllotted keeper.old.marks) }
{
    match keeper.next_slot() {
        Some(slot) => Ok(slot),
        None => Err(NoSlot { made: () }),
    }
}
