use std::alloc::Global;
use zq_message::memory::OutOfMemory;
use zq_names::{Seat, Tree};

// Numbers by place, of which the middle one is taken out again: how many stand before 9, which was taken,
// which has its place, and how many a copy has.
fn come_and_go(alloc: Global) -> Result<[usize; 4], OutOfMemory> {
    let mut row = Tree::new();
    row.insert(0, 7, Seat::new(alloc)?);
    row.insert(1, 9, Seat::new(alloc)?);
    row.insert(1, 8, Seat::new(alloc)?);
    let before = row.partition_point(|number| number < 9);
    let copy = row.copy(alloc)?;
    let taken = row.remove(1);
    Ok([before, taken, row.get(1), copy.len()])
}

#[test]
fn numbers_come_and_go_by_place(rt: HostRuntime) {
    assert!(rt; come_and_go(rt.alloc()) == Ok([2, 8, 9, 3]));
}
