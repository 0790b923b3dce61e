//! A row of numbers, and the memory for one more.
ghost use Rattle.std.specs.Prelude.{◌≡◌, ◌↔◌, IsTrue, ◌+◌, ◌<◌, ◌≤◌, ◌^◌, [], length, slice_index, slice_index_or, IfOk, true, false};
ghost use Rattle.std.specs.List.{All, insert, remove};
ghost use Rattle.zq_names.specs.Border.{IsBorder};

use crate::branch::{Branch, Link, at_place, border, copied, count, inserted, new_branch, removed};
use std::alloc::{AllocError, Global};
use std::marker::Model;
use std::mem;

/// The memory for one more number.
#[derive(Drop)]
pub struct Seat {
    branch: Box<Branch>,
}

impl Seat {
    /// Takes the memory. Each seat is room for one number and has no value, so no clause tells it.
    pub fn new(alloc: Global) -> Result<Seat, AllocError> {
        Ok(Seat {
            branch: new_branch(alloc)?,
        })
    }
}

/// Numbers in a row.
pub struct Tree {
    top: Link,
}

impl Drop for Tree {
    fn drop(self) {
        let Tree { top } = self;
    }
}

impl Model for Tree {
    ghost use Rattle.std.specs.Prelude.{ℕ, List};
    ghost use Rattle.zq_names.specs.Branch.{side};

    ghost Value = { List ℕ };

    ghost view = { λ a. side a.top };
}

impl Tree {
    /// No numbers.
    pub fn new() -> Tree
        ensures { result ≡ [] }
    {
        Tree { top: None }
    }

    /// How many numbers there are.
    pub fn len(&self) -> usize
        ensures { result ≡ length self.now }
    {
        count(&self.top)
    }

    /// Whether there is none.
    pub fn is_empty(&self) -> bool
        ensures { IsTrue result ↔ (length self.now ≡ 0) }
    {
        self.len() == 0
    }

    /// The number at a place.
    pub fn get(&self, at: usize) -> usize
        requires { at < length self.now }
        ensures number { result ≡ slice_index self.now at }
        ensures here { result ≡ slice_index_or self.now at result }
    {
        let Some(b) = &self.top else { unreachable!() };
        at_place(b, at)
    }

    /// A place where a number that passes is right before one that doesn't, or one of the ends.
    ///
    /// Where all that pass stand before all others, it is the first place of those. (`slice::partition_point`)
    pub fn partition_point<F: Fn(usize) -> bool>(&self, passes: F) -> usize
        requires { All (F.pre passes) self.now }
        ensures { IsBorder (λ x. F.post passes x true) (λ x. F.post passes x false) self.now result }
    {
        match &self.top {
            None => 0,
            Some(b) => border(b, &passes),
        }
    }

    /// An equal row.
    pub fn copy(&self, alloc: Global) -> Result<Tree, AllocError>
        ensures { IfOk result (λ t. t ≡ self.now) }
    {
        Ok(Tree {
            top: copied(&self.top, alloc)?,
        })
    }

    /// Puts a number at a place, in the memory of the seat.
    pub fn insert(&mut self, at: usize, number: usize, seat: Seat)
        requires place { at ≤ length self.old }
        requires room { length self.old + 1 < 2 ^ 64 }
        ensures { self.new ≡ insert self.old at number }
    {
        let branch = inserted(mem::replace(&mut self.top, None), at, number, seat.branch);
        self.top = Some(branch);
    }

    /// Takes out the number at a place.
    pub fn remove(&mut self, at: usize) -> usize
        requires { at < length self.old }
        ensures number { result ≡ slice_index_or self.old at result }
        ensures rest { self.new ≡ remove self.old at }
    {
        let _len = self.len();
        let (number, rest) = removed(mem::replace(&mut self.top, None), at);
        self.top = rest;
        number
    }
}
