//! A map from numbers: a hash map that contracts see in order of the numbers.
ghost use Rattle.std.specs.Prelude.{◌≡◌, ◌+◌, ◌<◌, ◌≤◌, [], Some, OnOk};
ghost use Rattle.std.specs.Option.{IsSome};
ghost use Rattle.std.specs.Map.{remove_entry, set_value};
ghost use Rattle.std.specs.BTreeMap.{is_at, insert_entry};
ghost use Rattle.std.specs.Ordering.{nat_cmp};
ghost use Rattle.zq_query.specs.Tables.{at_number};

use std::alloc::Global;
use std::collections::HashMap;
use std::marker::Model;
use zq_message::memory::OutOfMemory;

/// A value at each of some numbers.
pub struct Numbers<V> {
    inner: HashMap<u64, V>,
}

impl<V: Drop> Drop for Numbers<V> {
    fn drop(self) {
        let Numbers { inner } = self;
    }
}

impl<V> Model for Numbers<V> {
    ghost use Rattle.std.specs.Prelude.{nat_eq};
    ghost use Rattle.std.specs.HashMap.{IsUnique, spare};
    ghost use Rattle.zq_query.specs.ByNumber.{ByNumber, in_order};

    ghost Value = { ByNumber V };

    ghost view = { λ s. record { entries = in_order s.inner.entries; spare = spare s.inner } };

    ghost invariant = { λ s. IsUnique nat_eq s.inner };
}

impl<V: Copy> Numbers<V> {
    /// No value at any number.
    pub fn new(alloc: Global) -> Numbers<V>
        ensures { result.entries ≡ [] }
    {
        Numbers {
            inner: HashMap::new(alloc),
        }
    }

    /// The value at the number, if there is one.
    pub fn get(&self, number: u64) -> Option<V>
        ensures { result ≡ at_number number self.now.entries }
    {
        self.inner.get(&number).copied()
    }

    /// Room for so many more values.
    pub fn reserve(&mut self, more: usize) -> Result<(), OutOfMemory>
        ensures entries { self.new.entries ≡ self.old.entries }
        ensures ok { OnOk result (more ≤ self.new.spare) }
    {
        match self.inner.reserve(more) {
            Ok(()) => Ok(()),
            Err(_) => Err(OutOfMemory),
        }
    }

    /// Puts a value where there is room, and answers the one before it. It takes no memory.
    pub fn put(&mut self, number: u64, value: V) -> Option<V>
        requires { 0 < self.old.spare }
        ensures before { result ≡ at_number number self.old.entries }
        ensures entries { self.new.entries ≡ insert_entry nat_cmp self.old.entries number value }
        ensures spare { self.old.spare ≤ self.new.spare + 1 }
    {
        match self.inner.insert(number, value) {
            Ok(before) => before,
            Err(_) => unreachable!(),
        }
    }

    /// Writes the value at a number that has one. It takes no memory.
    pub fn set(&mut self, number: u64, value: V)
        requires { IsSome (at_number number self.old.entries) }
        ensures { self.new.entries ≡ set_value (is_at (nat_cmp number)) self.old.entries value }
    {
        match self.inner.get_mut(&number) {
            Some(found) => *found = value,
            None => unreachable!(),
        }
    }

    /// Takes out the value at the number, if there is one.
    pub fn remove(&mut self, number: u64) -> Option<V>
        ensures value { result ≡ at_number number self.old.entries }
        ensures entries { self.new.entries ≡ remove_entry (is_at (nat_cmp number)) self.old.entries }
    {
        self.inner.remove(&number)
    }
}
