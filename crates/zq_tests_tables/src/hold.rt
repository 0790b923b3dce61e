ghost use Rattle.std.specs.Prelude.{◌≡◌, ◌<◌, IfSome};
ghost use Rattle.zq_hold.specs.declared.slot.Mark.TheVariants.{Kept};
ghost use Rattle.zq_hold.specs.Marks.{HasMark};
ghost use Rattle.zq_hold.specs.Slots.{times, without};

use std::thread::join;
use zq_hold::{HoldSeat, Holds, Keeper, Last, Slot, allot, hold, release, release_kept};

// Whether there is a `Last`, which is spent.
fn was_last(keeper: &mut Keeper, last: Option<Last>) -> bool
    requires { IfSome last (λ l. l.home ≡ keeper.old.home) }
    ensures { keeper.new.home ≡ keeper.old.home }
{
    match last {
        Some(last) => {
            keeper.vacate(last);
            true
        }
        None => false,
    }
}

// What the seat, which holds the slot, is answered when it lets it go.
fn released(mut seat: HoldSeat, slot: Slot) -> Option<Last>
    requires { 0 < times slot.0 seat.held }
    ensures { IfSome result (λ l. l.home ≡ seat.home) }
{
    release(&mut seat, slot)
}

// Whether the keeper, which keeps the slot, is the last when it lets it go.
fn is_last_kept(keeper: &mut Keeper, slot: Slot) -> bool
    requires { HasMark Kept keeper.old.marks slot.0 }
    ensures { keeper.new.home ≡ keeper.old.home }
{
    let last = release_kept(keeper, slot);
    was_last(keeper, last)
}

// Whether the seat, which holds the slot, is the last when it lets it go.
fn is_last(keeper: &mut Keeper, seat: &mut HoldSeat, slot: Slot) -> bool
    requires home { seat.old.home ≡ keeper.old.home }
    requires held { 0 < times slot.0 seat.old.held }
    ensures home { keeper.new.home ≡ keeper.old.home }
    ensures seat { seat.new.home ≡ seat.old.home }
    ensures held { seat.new.held ≡ without slot.0 seat.old.held }
{
    let last = release(seat, slot);
    was_last(keeper, last)
}

#[test]
fn as_many_as_were_made(rt: HostRuntime) {
    let (mut keeper, mut seats) = Holds::new(rt.alloc(), 1, 2).ok().expect(&rt, "memory");
    let one = seats.take().is_some();
    let two = seats.take().is_some();
    let three = seats.take().is_some();
    let slot = allot(&mut keeper).is_ok();
    let other = allot(&mut keeper).is_ok();
    assert!(rt; [one, two, three, slot, other] == [true, true, false, true, false]);
}

#[test]
fn one_slot_two_seats(rt: HostRuntime) {
    let (mut keeper, mut seats) = Holds::new(rt.alloc(), 1, 2).ok().expect(&rt, "memory");
    let mut one = seats.take().expect(&rt, "a seat");
    let mut two = seats.take().expect(&rt, "another");
    let slot = allot(&mut keeper).ok().expect(&rt, "a slot");
    hold(&mut keeper, &mut one, slot);
    hold(&mut keeper, &mut two, slot);
    let kept = is_last_kept(&mut keeper, slot);
    let first = is_last(&mut keeper, &mut one, slot);
    keeper.join(one);
    let second = is_last(&mut keeper, &mut two, slot);
    let again = allot(&mut keeper).ok().expect(&rt, "the slot again");
    keeper.put_back(again);
    assert!(rt; [kept, first, second, again == slot] == [false, false, true, true]);
}

#[test]
fn one_of_two_threads_is_last(rt: HostRuntime) {
    let (mut keeper, mut seats) = Holds::new(rt.alloc(), 2, 2).ok().expect(&rt, "memory");
    let mut one = seats.take().expect(&rt, "a seat");
    let mut two = seats.take().expect(&rt, "another");
    let slot = allot(&mut keeper).ok().expect(&rt, "a slot");
    hold(&mut keeper, &mut one, slot);
    hold(&mut keeper, &mut two, slot);
    let kept = is_last_kept(&mut keeper, slot);
    let (first, second) = join(
        &rt,
        || -> Option<Last>
            requires { 0 < times slot.0 one.held }
            ensures { IfSome result (λ l. l.home ≡ one.home) }
        { released(one, slot) },
        || -> Option<Last>
            requires { 0 < times slot.0 two.held }
            ensures { IfSome result (λ l. l.home ≡ two.home) }
        { released(two, slot) },
    );
    let first = was_last(&mut keeper, first);
    let second = was_last(&mut keeper, second);
    assert!(rt; [kept, first == second] == [false, false]);
}
