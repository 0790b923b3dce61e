//! A reply that is to be sent holds the slot of its request.
ghost use Rattle.std.specs.Prelude.{◌≡◌, ◌⊎◌, ◌<◌, ◌≤◌, ◌+◌, ℕ, Some, true, false, vec_len, vec_capacity};
ghost use Rattle.zq_hold.specs.Slots.{times};
ghost use Rattle.zq_hold.specs.Owners.{owned, owner_at};
ghost use Rattle.zq_shared.specs.Holding.{AreHeld, OwnsKept, places};

use zq_hold::{HoldSeat, Slot, Slots};

/// Whether the slot is among these.
pub(crate) fn is_held(held: &[Slot], slot: Slot) -> bool
    ensures yes { result ≡ true → 0 < times slot.0 (places held.now) }
    ensures no { result ≡ false → times slot.0 (places held.now) ≡ 0 }
{
    'slots: for i in 0..held.len() {
        if held[i].0 == slot.0 {
            return true;
        }
    }
    false
}

/// The seat holds the slot of the request, if it does not yet.
pub fn hold_for(slots: &mut Slots, seat: &mut HoldSeat, held: &mut Vec<Slot>, number: u64)
    requires home { slots.old.keeper.home ≡ seat.old.home }
    requires owns { OwnsKept number slots.old }
    requires same { AreHeld held.old.items seat.old.held }
    requires room { vec_len held.old < vec_capacity held.old }
    ensures slots { slots.new ≡ record slots.old { keeper = record slots.old.keeper { lent = slots.new.keeper.lent } } }
    ensures lent { (k : ℕ) → 0 < times k slots.new.keeper.lent → (0 < times k slots.old.keeper.lent) ⊎ (owner_at slots.old.owners k ≡ Some number) }
    ensures seat { seat.new ≡ record seat.old { held = seat.new.held } }
    ensures same { AreHeld held.new.items seat.new.held }
    ensures more { (k : ℕ) → 0 < times k seat.old.held → 0 < times k seat.new.held }
    ensures holds { (k : ℕ) → owner_at slots.old.owners k ≡ Some number → 0 < times k seat.new.held }
    ensures only { (k : ℕ) → 0 < times k seat.new.held → (0 < times k seat.old.held) ⊎ (owner_at slots.old.owners k ≡ Some number) }
    ensures once { ((k : ℕ) → times k seat.old.held ≤ 1) → (k : ℕ) → times k seat.new.held ≤ 1 }
    ensures room { (vec_len held.new ≤ vec_len held.old + 1) × (vec_capacity held.new ≡ vec_capacity held.old) }
{
    slots.recall();
    let Some(slot) = slots.slot_of(number) else {
        return;
    };
    if is_held(held.as_slice(), slot) {
        return;
    }
    slots.hold(seat, slot);
    held.push_reserved(slot);
}
