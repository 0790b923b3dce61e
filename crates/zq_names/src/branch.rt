//! A number with those before it and those after it.
ghost use Rattle.std.specs.Prelude.{◌≡◌, ◌+◌, ◌<◌, ◌≤◌, ◌^◌, ◌++◌, ◌∷◌, length, slice_index, IfOk, true, false};
ghost use Rattle.std.specs.List.{All, insert, remove};
ghost use Rattle.zq_names.specs.Branch.{side};
ghost use Rattle.zq_names.specs.Border.{IsBorder};

use crate::turn::balanced;
use std::alloc::{AllocError, Global};
use std::marker::Model;
use std::mem;

pub(crate) type Link = Option<Box<Branch>>;

// Those before a number, the number, and those after it; and how many they all are.
#[derive(Drop)]
pub(crate) struct Branch {
    left: Link,
    number: usize,
    len: usize,
    right: Link,
}

impl Model for Branch {
    ghost use Rattle.std.specs.Prelude.{◌≡◌, ℕ, List, ◌++◌, ◌∷◌, length};
    ghost use Rattle.zq_names.specs.Branch.{side};

    ghost Value = { List ℕ };

    ghost view = { λ b. side b.left ++ b.number ∷ side b.right };

    ghost invariant = { λ b. b.len ≡ length (side b.left ++ b.number ∷ side b.right) };

    ghost size = { length };

    ghost use Rattle.zq_names.specs.BranchFalls.{deep_le-length};

    ghost size_decreases = { λ b h. deep_le-length b };
}

// A branch of one number.
pub(crate) fn new_branch(alloc: Global) -> Result<Box<Branch>, AllocError> {
    let branch = Branch {
        left: None,
        number: 0,
        len: 1,
        right: None,
    };
    Ok(Box::new(alloc, branch)?)
}

pub(crate) fn count(link: &Link) -> usize
    ensures { result ≡ length (side link.now) }
{
    match link {
        None => 0,
        Some(b) => b.len,
    }
}

pub(crate) fn at_place(b: &Branch, at: usize) -> usize
    requires { at < length b.now }
    ensures { result ≡ slice_index b.now at }
{
    let before = count(&b.left);
    if at < before {
        let Some(l) = &b.left else { unreachable!() };
        return at_place(l, at);
    }
    if at == before {
        return b.number;
    }
    let Some(r) = &b.right else { unreachable!() };
    at_place(r, at - before - 1)
}

// A place where a number that passes is right before one that doesn't, or one of the ends.
pub(crate) fn border<F: Fn(usize) -> bool>(b: &Branch, passes: &F) -> usize
    requires { All (F.pre passes.now) b.now }
    ensures { IsBorder (λ x. F.post passes.now x true) (λ x. F.post passes.now x false) b.now result }
{
    let _len = b.len;
    if passes(b.number) {
        let past = count(&b.left) + 1;
        return match &b.right {
            None => past,
            Some(r) => past + border(r, passes),
        };
    }
    match &b.left {
        None => 0,
        Some(l) => border(l, passes),
    }
}

#[cycle(copied)]
pub(crate) fn copied(link: &Link, alloc: Global) -> Result<Link, AllocError>
    ensures { IfOk result (λ l. side l ≡ side link.now) }
{
    match link {
        None => Ok(None),
        Some(b) => Ok(Some(copied_branch(b, alloc)?)),
    }
}

#[cycle(copied)]
fn copied_branch(b: &Branch, alloc: Global) -> Result<Box<Branch>, AllocError>
    ensures { IfOk result (λ c. c.value ≡ b.now) }
{
    let _len = b.len;
    let left = copied(&b.left, alloc)?;
    let right = copied(&b.right, alloc)?;
    Ok(fork(new_branch(alloc)?, left, b.number, right))
}

pub(crate) fn inserted(link: Link, at: usize, number: usize, seat: Box<Branch>) -> Box<Branch>
    requires place { at ≤ length (side link) }
    requires room { length (side link) + 1 < 2 ^ 64 }
    ensures { result.value ≡ insert (side link) at number }
{
    let Some(b) = link else {
        return fork(seat, None, number, None);
    };
    let (left, middle, right, top) = parts(b);
    let before = count(&left);
    if at <= before {
        let more = inserted(left, at, number, seat);
        return balanced(top, Some(more), middle, right);
    }
    let more = inserted(right, at - before - 1, number, seat);
    balanced(top, left, middle, Some(more))
}

// The number at a place, and the others.
pub(crate) fn removed(link: Link, at: usize) -> (usize, Link)
    requires place { at < length (side link) }
    requires room { length (side link) < 2 ^ 64 }
    ensures number { result.0 ≡ slice_index (side link) at }
    ensures rest { side result.1 ≡ remove (side link) at }
{
    let Some(b) = link else { unreachable!() };
    let (left, middle, right, top) = parts(b);
    let before = count(&left);
    if at < before {
        let (number, rest) = removed(left, at);
        return (number, Some(balanced(top, rest, middle, right)));
    }
    if at > before {
        let (number, rest) = removed(right, at - before - 1);
        return (number, Some(balanced(top, left, middle, rest)));
    }
    if count(&right) == 0 {
        return (middle, left);
    }
    let (next, rest) = removed(right, 0);
    (middle, Some(balanced(top, left, next, rest)))
}

// Takes out what a branch is made of.
fn open(b: &mut Branch) -> (Link, usize, Link)
    ensures { b.old ≡ side result.0 ++ result.1 ∷ side result.2 }
{
    let left = mem::replace(&mut b.left, None);
    let right = mem::replace(&mut b.right, None);
    b.len = 1;
    (left, b.number, right)
}

// What a branch is made of, and the branch without it.
pub(crate) fn parts(mut b: Box<Branch>) -> (Link, usize, Link, Box<Branch>)
    ensures { b.value ≡ side result.0 ++ result.1 ∷ side result.2 }
{
    let (left, number, right) = open(&mut b);
    (left, number, right, b)
}

fn fill(b: &mut Branch, left: Link, number: usize, right: Link)
    requires { length (side left ++ number ∷ side right) < 2 ^ 64 }
    ensures { b.new ≡ side left ++ number ∷ side right }
{
    b.len = count(&left) + count(&right) + 1;
    b.left = left;
    b.number = number;
    b.right = right;
}

// A number between two sides, in the memory of the seat.
pub(crate) fn fork(mut seat: Box<Branch>, left: Link, number: usize, right: Link) -> Box<Branch>
    requires { length (side left ++ number ∷ side right) < 2 ^ 64 }
    ensures { result.value ≡ side left ++ number ∷ side right }
{
    fill(&mut seat, left, number, right);
    seat
}
