//! The one owner of a region's hat, whose drop is long to prove.
use std::alloc::Global;
use zq_hat::hat::Hat;
use zq_key::message::{Mode, Region, Zid};

/// What is found of a new region of that mode.
pub fn in_region<T, F: FnOnce(&mut Hat, Global) -> T>(
    alloc: Global,
    region: Region,
    mode: Mode,
    find: F,
) -> T
where
    F: Drop,
    requires { F.IsAlwaysCallable find }
{
    let mut hat = Hat::new(alloc, region, mode, Zid(1), 0);
    let found = find(&mut hat, alloc);
    drop(hat);
    found
}
