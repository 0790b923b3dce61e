use std::alloc::Global;
use zq_given::information;
use zq_index::info::merge_qabl_infos;
use zq_index::search::{Step, next_step};
use zq_index::text_set::KeyLists;
use zq_key::is_plain;
use zq_key::memory::OutOfMemory;

#[test]
fn merging(rt: HostRuntime) {
    for (this, other, want) in [
        ((true, 5), (false, 1), (true, 5)),
        ((true, 5), (true, 2), (true, 2)),
        ((false, 5), (false, 1), (false, 1)),
    ] {
        let merged = merge_qabl_infos(information(this.0, this.1), information(other.0, other.1));
        assert_eq!(rt; merged, information(want.0, want.1));
    }
}

/// Where a search goes on: at the bound, `=` where it is to look there, and `.` at the end.
fn goes_on(step: Step, bound: &str) -> &str {
    match step {
        Step::Look => "=",
        Step::Jump => bound,
        Step::End => ".",
    }
}

/// Whether a search for the request's key goes on there at a key, once one is declared beside it.
fn is_next(
    lists: &mut KeyLists,
    alloc: Global,
    (declared, key, q, want): (&str, &str, &str, &str),
) -> Result<bool, OutOfMemory> {
    lists.put(alloc, declared)?;
    let key = String::from_str(alloc, key)?;
    let mut bound = String::new(alloc);
    let mut bytes = Vec::new(alloc);
    let step = next_step(&mut bound, &mut bytes, lists, is_plain(q), &key, q)?;
    Ok(goes_on(step, bound.as_str()) == want)
}

/// The four words of a row.
fn words(row: &str) -> Option<(&str, &str, &str, &str)> {
    let (first, rest) = row.split_once(' ')?;
    let (second, rest) = rest.split_once(' ')?;
    let (third, fourth) = rest.split_once(' ')?;
    Some((first, second, third, fourth))
}

/// Whether a search goes on as the row says.
fn is_right(lists: &mut KeyLists, alloc: Global, row: &str) -> Result<bool, OutOfMemory> {
    match words(row) {
        Some(words) => is_next(lists, alloc, words),
        None => Ok(false),
    }
}

// A declared key, the key at which the search is, the request's key, and where the search goes on.
const STEPS: &str = "\
k a a =
k a b b
k b a .
k/z$* k/a k/é k/\u{bf}
k/z$* k/a k/é/* k/\u{bf}
k/z$* k/a k/\u{80} k/\u{7f}
k/é$* k/è k/ê k/ê
k/é$* k/è/a k/ê/* k/ê
k/丮$* k/中 k/乐 k/丿
k/ab$* k/aa k/abc k/ab$*
k/ab$* k/aa k/ac k/ac
z/* z zzz z/*
z/* z/* zzz zzz
k/b/* k/a/b k/€€€€€€€€€€€€ k/€€€€€€€€€€€";

#[test]
fn steps(rt: HostRuntime) {
    for row in STEPS.lines() {
        let mut lists = KeyLists::new(rt.alloc());
        assert!(rt; is_right(&mut lists, rt.alloc(), row) == Ok(true), "{row}");
    }
}
