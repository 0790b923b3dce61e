//! A request gets its slot.
ghost use Rattle.std.specs.Prelude.{◌≡◌, ℕ, ◌<◌, [], true, None, Some, IfErr, IfNone, IfOk, IfSome, OnErr, OnOk};
ghost use Rattle.zq_hold.specs.declared.slot.Mark.TheVariants.{Kept, Spare};
ghost use Rattle.zq_hold.specs.Marks.{HasMark};
ghost use Rattle.zq_hold.specs.Slots.{times};
ghost use Rattle.zq_hold.specs.Owners.{owned, owner_at, with_mark, with_owner};
ghost use Rattle.zq_machine.specs.declared.call.Outcome.TheVariants.{Asked};
ghost use Rattle.zq_shared.specs.Stored.{answer_to, asks_request, waiting, with_call};
ghost use Rattle.zq_shared.specs.Ties.{IsTied};
ghost use Rattle.zq_shared.specs.Sharing.{AreLast, IsFull, IsSameHolds, KeepsFlights, Refuses};

use crate::LastList;
use crate::journal::Journal;
use crate::shared::{StepRefusal, Stepped};
use std::alloc::Global;
use zq_hold::{Slot, SlotList, Slots};
use zq_machine::call::{Call, Outcome};

/// The number of the request that waits for something, if the outcome asks one.
fn number_of(journal: &Journal, outcome: Outcome) -> Option<u64>
    ensures some { IfSome result (λ n. (outcome ≡ Asked n) × (0 < waiting journal.now n)) }
    ensures none { IfNone result ((n : ℕ) → outcome ≡ Asked n → waiting journal.now n ≡ 0) }
{
    let Outcome::Asked(number) = outcome else {
        return None;
    };
    if journal.pending_of(number) == 0 {
        return None;
    }
    Some(number)
}

/// The request owns the slot, if there is one; otherwise the slot is put back.
fn give_to(slots: &mut Slots, slot: Slot, owner: Option<u64>)
    requires kept { HasMark Kept slots.old.keeper.marks slot.0 }
    requires unlent { times slot.0 slots.old.keeper.lent ≡ 0 }
    requires free { owner_at slots.old.owners slot.0 ≡ None }
    requires new { IfSome owner (λ n. owned n slots.old.owners ≡ 0) }
    ensures given { IfSome owner (λ n. slots.new ≡ with_owner slots.old slot.0 (Some n)) }
    ensures back { IfNone owner (slots.new ≡ with_mark slots.old slot.0 Spare) }
{
    match owner {
        Some(number) => slots.give(slot, number),
        None => slots.put_back(slot),
    }
}

/// Makes a request, which owns a slot from then on if it waits for something.
pub(crate) fn ask(
    alloc: Global,
    journal: &mut Journal,
    slots: &mut Slots,
    call: Call,
) -> Result<Stepped, StepRefusal>
    requires tied { IsTied journal.old slots.old }
    requires asks { asks_request call ≡ true }
    ensures tied { IsTied journal.new slots.new }
    ensures step { IfOk result (λ t. t.step ≡ answer_to journal.old call) }
    ensures stored { OnOk result (journal.new ≡ with_call journal.old call) }
    ensures room { OnOk result (IsFull (record { stored = journal.old; slots = slots.old }) call → ⊥) }
    ensures unstored { OnErr result (journal.new ≡ journal.old) }
    ensures held { IfOk result (λ t. t.held ≡ []) }
    ensures lasts { IfOk result (λ t. AreLast slots.old slots.new t.lasts.ended) }
    ensures refused { IfErr result (λ e. Refuses (record { stored = journal.old; slots = slots.old }) call e (record { stored = journal.new; slots = slots.new })) }
    ensures flights { KeepsFlights None (record { stored = journal.old; slots = slots.old }) (record { stored = journal.new; slots = slots.new }) }
    ensures same { IsSameHolds slots.old slots.new }
{
    slots.recall();
    let slot = match slots.allot() {
        Ok(slot) => slot,
        Err(full) => return Err(StepRefusal::Full(full)),
    };
    let Ok(step) = journal.step(call) else {
        slots.put_back(slot);
        return Err(StepRefusal::OutOfMemory);
    };
    give_to(slots, slot, number_of(journal, step.outcome));
    Ok(Stepped {
        step,
        held: SlotList::new(alloc),
        lasts: LastList::new(alloc),
    })
}
