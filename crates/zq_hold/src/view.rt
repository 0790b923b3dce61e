//! What the keeper, a seat, a pledge and a `Last` know. It exists in proofs alone.
use atomic_table::TableRule;
use std::collections::LinkedList;

/// Whose a view is.
pub enum Role {
    /// The keeper's.
    Keeper,
    /// A seat's.
    Seat,
    /// That of a pledge: it shows a seat that the keeper holds a slot.
    Pledge,
    /// That of a `Last`.
    Last,
    /// Nobody's: it was joined to another.
    Spent,
}

/// What one of them knows. No value of it is made.
pub struct HoldView {
    /// Whose it is.
    pub role: Role,
    /// The slots that it holds.
    pub held: LinkedList<u64>,
    /// The slot that the keeper pledges to it.
    pub shows: Option<u64>,
    /// The slot that it stands for: its step left the number 0.
    pub stands: Option<u64>,
    /// How often it released a slot last: its step left the number 0.
    pub ended: u64,
    /// Of the keeper: how many seats were made.
    pub made: u64,
    /// Of the keeper: how many seats were joined back.
    pub joined: u64,
    /// Of the keeper: how many `Last`s it took in.
    pub vacated: u64,
    /// Of the keeper: the slots that are not vacated.
    pub used: LinkedList<u64>,
    /// Of the keeper: the slots that are lent.
    pub lent: LinkedList<u64>,
    /// Of the keeper: the slot that it pledges.
    pub pledged: Option<u64>,
}

/// The rule of counted holds. The table's key is the number of slots.
pub struct Counts;

impl TableRule<(), HoldView, u64> for Counts {
    ghost use Rattle.zq_hold.specs.Rule.{IsKept};
    ghost use Rattle.zq_hold.specs.Views.{first_keeper};

    ghost holds = { IsKept };

    ghost first = { first_keeper };
}
