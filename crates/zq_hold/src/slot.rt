//! Slots, and how they stand with the keeper.
use zq_message::items::Items;

/// A slot, by its place; the first is 0.
#[derive(Clone, Copy, Debug, PartialEq, Eq)]
pub struct Slot(pub u16);

/// Slots, in some order.
pub type SlotList = Items<Slot>;

/// How a slot stands with the keeper.
#[derive(Clone, Copy, Debug, PartialEq, Eq)]
pub enum Mark {
    /// The keeper holds it, and it is not allotted.
    Spare,
    /// It is allotted, and the keeper holds it.
    Kept,
    /// It is allotted, and the keeper does not hold it any more.
    Gone,
    /// It is not allotted, and nobody holds it.
    Vacant,
}
