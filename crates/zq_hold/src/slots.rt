//! The keeper of the slots, with the request that owns each.
ghost use Rattle.std.specs.Prelude.{◌≡◌, ◌+◌, ◌<◌, ◌≤◌, ◌∷◌, [], false, true, length, replicate, slice_set, Some, None, IfNone, IfOk, IfSome, OnErr};
ghost use Rattle.zq_hold.specs.declared.slot.Mark.TheVariants.{Gone, Kept, Spare, Vacant};
ghost use Rattle.zq_hold.specs.Slots.{times, without};
ghost use Rattle.zq_hold.specs.Marks.{AllAllotted, HasMark, IsNext};
ghost use Rattle.zq_hold.specs.Owners.{IsSlotted, owned, owner_at, with_mark, with_owner};

use crate::find::{no_owners, place_of};
use crate::{HoldSeat, Holds, Keeper, Last, NoSlot, SeatList, Slot, allot, hold, release_kept};
use std::alloc::Global;
use std::marker::Model;
use zq_message::memory::OutOfMemory;

/// The keeper of the slots, with the request that owns each.
pub struct Slots {
    keeper: Keeper,
    owners: Vec<Option<u64>>,
}

impl Drop for Slots {
    fn drop(self) {
        let Slots { keeper, owners } = self;
    }
}

impl Model for Slots {
    ghost use Rattle.zq_hold.specs.Owners.{IsSlotted, Slotted};

    ghost Value = { Slotted };

    ghost view = { λ s. record { keeper = s.keeper; owners = s.owners.items } };

    ghost invariant = { λ s. IsSlotted s.keeper.marks s.owners.items };
}

impl Slots {
    /// That many slots, each spare, and that many seats, which hold nothing; no other seat is made.
    pub fn new(alloc: Global, slots: u16, seats: u8) -> Result<(Slots, SeatList), OutOfMemory>
        requires slots { (0 < slots) × (slots ≤ 1024) }
        requires seats { (0 < seats) × (seats ≤ 63) }
        ensures slots { IfOk result (λ r. r.0 ≡ record { keeper = record { home = r.0.keeper.home; marks = replicate slots Spare; lent = []; ended = 0; vacated = 0; made = seats; joined = 0 }; owners = replicate slots None }) }
        ensures sized { IfOk result (λ r. r.0.keeper.home.words ≡ slots) }
        ensures seats { IfOk result (λ r. r.1 ≡ record { home = r.0.keeper.home; count = seats }) }
    {
        let owners = no_owners(alloc, slots as usize)?;
        let (keeper, list) = Holds::new(alloc, slots, seats)?;
        Ok((Slots { keeper, owners }, list))
    }

    /// Tells a proof what holds of the slots between any two calls. It does nothing.
    pub fn recall(&self)
        ensures slotted { IsSlotted self.now.keeper.marks self.now.owners }
        ensures sized { length self.now.keeper.marks ≡ self.now.keeper.home.words }
    {
        self.keeper.recall();
    }

    /// How many slots there are.
    pub fn len(&self) -> usize
        ensures { result ≡ length self.now.keeper.marks }
    {
        self.owners.len()
    }

    /// The next slot is allotted, as `crate::allot` says; nobody owns it yet.
    pub fn allot(&mut self) -> Result<Slot, NoSlot>
        ensures ok { IfOk result (λ s. IsNext self.old.keeper.marks s.0 × (self.new ≡ with_mark self.old s.0 Kept)) }
        ensures kept { IfOk result (λ s. HasMark Kept self.new.keeper.marks s.0) }
        ensures lent { IfOk result (λ s. times s.0 self.new.keeper.lent ≡ 0) }
        ensures free { IfOk result (λ s. owner_at self.new.owners s.0 ≡ None) }
        ensures err { OnErr result ((self.new ≡ self.old) × AllAllotted self.old.keeper.marks) }
    {
        allot(&mut self.keeper)
    }

    /// The slot is spare again. No step is made.
    pub fn put_back(&mut self, slot: Slot)
        requires kept { HasMark Kept self.old.keeper.marks slot.0 }
        requires unlent { times slot.0 self.old.keeper.lent ≡ 0 }
        requires free { owner_at self.old.owners slot.0 ≡ None }
        ensures { self.new ≡ with_mark self.old slot.0 Spare }
    {
        self.keeper.put_back(slot);
    }

    /// The request owns the slot from now on.
    pub fn give(&mut self, slot: Slot, number: u64)
        requires kept { HasMark Kept self.old.keeper.marks slot.0 }
        requires free { owner_at self.old.owners slot.0 ≡ None }
        requires new { owned number self.old.owners ≡ 0 }
        ensures { self.new ≡ with_owner self.old slot.0 (Some number) }
    {
        self.owners[slot.0 as usize] = Some(number);
    }

    /// The slot that the request owns.
    pub fn slot_of(&self, number: u64) -> Option<Slot>
        ensures some { IfSome result (λ s. (s.0 < length self.now.keeper.marks) × (owner_at self.now.owners s.0 ≡ Some number)) }
        ensures none { IfNone result (owned number self.now.owners ≡ 0) }
    {
        let at = place_of(self.owners.as_slice(), number)?;
        Some(Slot(at as u16))
    }

    /// The request that owns the slot, where the keeper still holds it.
    pub fn waiting(&self, slot: Slot) -> Option<u64>
        requires { slot.0 < length self.now.keeper.marks }
        ensures some { IfSome result (λ n. (owner_at self.now.owners slot.0 ≡ Some n) × HasMark Kept self.now.keeper.marks slot.0) }
        ensures none { IfNone result (HasMark Kept self.now.keeper.marks slot.0 → owner_at self.now.owners slot.0 ≡ None) }
    {
        if !self.keeper.keeps(slot) {
            return None;
        }
        self.owners[slot.0 as usize]
    }

    /// The seat holds the slot, too, which is lent from now on.
    pub fn hold(&mut self, seat: &mut HoldSeat, slot: Slot)
        requires home { self.old.keeper.home ≡ seat.old.home }
        requires kept { HasMark Kept self.old.keeper.marks slot.0 }
        requires free { times slot.0 seat.old.held ≡ 0 }
        ensures keeper { self.new ≡ record self.old { keeper = record self.old.keeper { lent = slot.0 ∷ self.old.keeper.lent } } }
        ensures seat { seat.new ≡ record seat.old { held = slot.0 ∷ seat.old.held } }
    {
        hold(&mut self.keeper, seat, slot);
    }

    /// The keeper releases the slot, by one step. `Last` exactly where nobody holds it afterwards, and so always where it is not lent.
    pub fn release_kept(&mut self, slot: Slot) -> Option<Last>
        requires { HasMark Kept self.old.keeper.marks slot.0 }
        ensures keeper { self.new ≡ record self.old { keeper = record self.old.keeper { marks = slice_set self.old.keeper.marks slot.0 Gone; ended = self.new.keeper.ended } } }
        ensures last { IfSome result (λ l. (l ≡ record { home = self.old.keeper.home; slot = slot.0 }) × (self.new.keeper.ended ≡ self.old.keeper.ended + 1)) }
        ensures none { IfNone result ((self.new.keeper.ended ≡ self.old.keeper.ended) × (0 < times slot.0 self.old.keeper.lent)) }
    {
        release_kept(&mut self.keeper, slot)
    }

    /// The slot that the `Last` stands for is no longer allotted, and no longer owned. Answered is who owned it.
    pub fn vacate(&mut self, last: Last) -> Option<u64>
        requires { last.home ≡ self.old.keeper.home }
        ensures gone { HasMark Gone self.old.keeper.marks last.slot }
        ensures owner { result ≡ owner_at self.old.owners last.slot }
        ensures new { self.new ≡ record {
          keeper = record self.old.keeper { marks = slice_set self.old.keeper.marks last.slot Vacant; lent = without last.slot self.old.keeper.lent; vacated = self.old.keeper.vacated + 1 };
          owners = slice_set self.old.owners last.slot None;
        } }
    {
        let slot = self.keeper.vacate(last);
        let owner = self.owners[slot.0 as usize];
        self.owners[slot.0 as usize] = None;
        owner
    }
}
