//! What follows from the rule of counted holds alone, as the contracts of calls: who leaves the number of a slot 0 is told.
ghost use Rattle.zq_hold.specs.Histories.{SeatHasCounted, SeatIsTold};
ghost use Rattle.zq_hold.specs.Laws.{
  CutSettles,
  CutStands,
  EntryIsEmpty,
  JoinSettles,
  JoinStands,
  KeeperLeavesNone,
  KeeperLeavesZero,
  KeeperSteps,
  SeatCut,
  SeatJoin,
  SeatLeavesNone,
  SeatLeavesZero,
  SeatSteps,
  StepSettles,
  StepStands,
  UnlentStands,
};

/// A seat that stood for nothing and leaves the number of a slot 0 stands for the slot afterwards, and its count goes up by one; if its
/// step leaves no number 0, its count stays as it was. Whatever it stood for, it stands afterwards for exactly the slot that falls to it.
pub fn seat_step_counts()
    ensures last { SeatLeavesZero }
    ensures none { SeatLeavesNone }
    ensures exactly { SeatSteps }
{}

/// A cut of a seat, and its join with a view that is neither seat nor keeper, leaves exactly one seat, with the whole count, and loses no
/// view that stands for a slot.
pub fn seat_cut_counts()
    ensures cut { SeatCut }
    ensures join { SeatJoin }
{}

/// The keeper that stood for nothing, leaves the number of a slot 0 and does not vacate it at once stands for the slot afterwards, and its
/// count goes up by one; if its step leaves no number 0, and puts no slot to use whose number is 0, its count stays as it was. What it
/// vacates by the step is added to the count.
pub fn keeper_step_counts()
    ensures last { KeeperLeavesZero }
    ensures none { KeeperLeavesNone }
    ensures exactly { KeeperSteps }
{}

/// By a step, a cut or a join of anyone the counts change exactly as do the views that stand for a slot and what the keeper vacated.
pub fn counts_settle()
    ensures step { StepSettles }
    ensures cut { CutSettles }
    ensures join { JoinSettles }
{}

/// By a step, a cut or a join of anyone no view that stands for a slot is lost, unless the slot is vacated or its number is 0 no more.
pub fn stands_on()
    ensures step { StepStands }
    ensures cut { CutStands }
    ensures join { JoinStands }
{}

/// A slot in use that is not lent and that the keeper does not hold has exactly one view that stands for it. Who let it go last was the
/// keeper, as nobody else held it since it was allotted; and its `Last` is not taken in, as the slot is in use.
pub fn unlent_stands()
    ensures { UnlentStands }
{}

/// A view that enters the table counts nothing, stands for nothing, and leaves no number 0.
pub fn entry_is_empty()
    ensures { EntryIsEmpty }
{}

/// Whatever a seat does with its own views, while others do what they do: once it left the number of a slot 0, its count is greater than it
/// was for as long as that number is 0; and at any time its count is what it was, and as many more as its views stand for slots.
pub fn seat_is_told()
    ensures told { SeatIsTold }
    ensures counted { SeatHasCounted }
{}
