//! What each step tells the one that makes it, and how views are cut and joined.
use crate::view::HoldView;
use atomic_table::{Join, Play, Split};
use std::marker::{Brand, PhantomData};

/// Which slot is pledged. Each call picks it.
pub trait SlotName {
    ghost use Rattle.std.specs.Prelude.{ℕ};

    ghost slot: { ℕ };
}

impl SlotName for Brand {
    ghost slot = { 0 };
}

/// A seat holds one slot more: plus 1.
pub struct Gains;

impl Play<(), HoldView> for Gains {
    ghost use Rattle.zq_hold.specs.Steps.{Gains};

    ghost then = { Gains };
}

/// A seat lets a slot go: minus 1.
pub struct Releases;

impl Play<(), HoldView> for Releases {
    ghost use Rattle.zq_hold.specs.Steps.{Releases};

    ghost then = { Releases };
}

/// The keeper releases a slot: minus 1.
pub struct ReleasesKept;

impl Play<(), HoldView> for ReleasesKept {
    ghost use Rattle.zq_hold.specs.Steps.{ReleasesKept};

    ghost then = { ReleasesKept };
}

/// The keeper takes a vacated slot: an exchange from 0.
pub struct Opens;

impl Play<(), HoldView> for Opens {
    ghost use Rattle.zq_hold.specs.Steps.{Opens};

    ghost then = { Opens };
}

/// The keeper vacates a slot: a look.
pub struct Vacates;

impl Play<(), HoldView> for Vacates {
    ghost use Rattle.zq_hold.specs.Steps.{Vacates};

    ghost then = { Vacates };
}

/// A seat that took a `Last` in looks at its slot.
pub struct SeesEnd;

impl Play<(), HoldView> for SeesEnd {
    ghost use Rattle.zq_hold.specs.Steps.{SeesEnd};

    ghost then = { SeesEnd };
}

/// The keeper makes a seat.
pub struct MakesSeat;

impl Split<HoldView> for MakesSeat {
    ghost use Rattle.zq_hold.specs.Views.{made_one, new_seat};

    ghost left = { made_one };

    ghost right = { λ _. new_seat };
}

/// The keeper pledges a slot.
pub struct Pledges<N> {
    name: PhantomData<N>,
}

impl<N: SlotName> Split<HoldView> for Pledges<N> {
    ghost use Rattle.std.specs.Prelude.{Some};
    ghost use Rattle.zq_hold.specs.Views.{pledging, showing_only};

    ghost left = { λ v. pledging v N.slot };

    ghost right = { λ _. showing_only (Some N.slot) };
}

/// A seat takes a pledge in, or gives it back.
pub struct Shows;

impl Join<HoldView> for Shows {
    ghost use Rattle.zq_hold.specs.Views.{nobody};

    ghost both = { λ v w. record v { shows = w.shows } };

    ghost spent = { nobody };
}

impl Split<HoldView> for Shows {
    ghost use Rattle.std.specs.Prelude.{None};
    ghost use Rattle.zq_hold.specs.Views.{showing_only};

    ghost left = { λ v. record v { shows = None } };

    ghost right = { λ v. showing_only v.shows };
}

/// The keeper has its pledge back.
pub struct TakesBack;

impl Join<HoldView> for TakesBack {
    ghost use Rattle.std.specs.Prelude.{None};
    ghost use Rattle.zq_hold.specs.Views.{nobody};

    ghost both = { λ v _. record v { pledged = None } };

    ghost spent = { nobody };
}

/// The view of a `Last` is split off the one that stands for its slot, or joined to the keeper or to a seat.
pub struct Ends;

impl Split<HoldView> for Ends {
    ghost use Rattle.std.specs.Prelude.{None};
    ghost use Rattle.zq_hold.specs.Views.{last_of};

    ghost left = { λ v. record v { stands = None } };

    ghost right = { λ v. last_of v.stands };
}

impl Join<HoldView> for Ends {
    ghost use Rattle.zq_hold.specs.Views.{nobody};

    ghost both = { λ v w. record v { stands = w.stands } };

    ghost spent = { nobody };
}

/// A seat that holds nothing is joined to the keeper.
pub struct Leaves;

impl Join<HoldView> for Leaves {
    ghost use Rattle.zq_hold.specs.Views.{joined_one, nobody};

    ghost both = { λ v w. joined_one v w.ended };

    ghost spent = { nobody };
}
