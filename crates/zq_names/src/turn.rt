//! Branches whose sides are alike in weight.
ghost use Rattle.std.specs.Prelude.{◌≡◌, ◌<◌, ◌^◌, ◌++◌, ◌∷◌, length};
ghost use Rattle.zq_names.specs.Branch.{side};

use crate::branch::{Branch, Link, count, fork, parts};

// A fork whose sides are turned towards each other where one weighs more than thrice the other.
pub(crate) fn balanced(seat: Box<Branch>, left: Link, number: usize, right: Link) -> Box<Branch>
    requires { length (side left ++ number ∷ side right) < 2 ^ 64 }
    ensures { result.value ≡ side left ++ number ∷ side right }
{
    let before = count(&left);
    let after = count(&right);
    if before / 3 > after {
        return turned_right(seat, left, number, right);
    }
    if after / 3 > before {
        return turned_left(seat, left, number, right);
    }
    fork(seat, left, number, right)
}

fn turned_left(seat: Box<Branch>, left: Link, number: usize, right: Link) -> Box<Branch>
    requires { length (side left ++ number ∷ side right) < 2 ^ 64 }
    ensures { result.value ≡ side left ++ number ∷ side right }
{
    let Some(b) = right else {
        return fork(seat, left, number, None);
    };
    let (inner, next, outer, top) = parts(b);
    let weight = count(&inner);
    if weight - weight / 2 > count(&outer) {
        let inner = turned_right_once(top, inner, next, outer);
        return turned_left_once(seat, left, number, Some(inner));
    }
    let low = fork(seat, left, number, inner);
    fork(top, Some(low), next, outer)
}

fn turned_left_once(seat: Box<Branch>, left: Link, number: usize, right: Link) -> Box<Branch>
    requires { length (side left ++ number ∷ side right) < 2 ^ 64 }
    ensures { result.value ≡ side left ++ number ∷ side right }
{
    let Some(b) = right else {
        return fork(seat, left, number, None);
    };
    let (inner, next, outer, top) = parts(b);
    let low = fork(seat, left, number, inner);
    fork(top, Some(low), next, outer)
}

fn turned_right(seat: Box<Branch>, left: Link, number: usize, right: Link) -> Box<Branch>
    requires { length (side left ++ number ∷ side right) < 2 ^ 64 }
    ensures { result.value ≡ side left ++ number ∷ side right }
{
    let Some(b) = left else {
        return fork(seat, None, number, right);
    };
    let (outer, next, inner, top) = parts(b);
    let weight = count(&inner);
    if weight - weight / 2 > count(&outer) {
        let inner = turned_left_once(top, outer, next, inner);
        return turned_right_once(seat, Some(inner), number, right);
    }
    let high = fork(seat, inner, number, right);
    fork(top, outer, next, Some(high))
}

fn turned_right_once(seat: Box<Branch>, left: Link, number: usize, right: Link) -> Box<Branch>
    requires { length (side left ++ number ∷ side right) < 2 ^ 64 }
    ensures { result.value ≡ side left ++ number ∷ side right }
{
    let Some(b) = left else {
        return fork(seat, None, number, right);
    };
    let (outer, next, inner, top) = parts(b);
    let high = fork(seat, inner, number, right);
    fork(top, outer, next, Some(high))
}
