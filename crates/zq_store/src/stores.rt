//! The storages of a bus.
ghost use Rattle.std.specs.Prelude.{◌≡◌, ℕ, ◌+◌, ◌-◌, ◌++◌, ◌∷◌, ◌<◌, ◌≤◌, ◌^◌, [], None, IfOk, IfErr, IfSome, IsTrue, Err, OnOk, OnErr, if◌then◌else◌, is_some, length, slice_get};
ghost use Rattle.std.specs.Option.{option_copied};
ghost use Rattle.std.specs.Result.{is_ok};
ghost use Rattle.zq_index.specs.Texts.{at_text};
ghost use Rattle.zq_store.specs.Stores.{IsSize, change_at, held_at, refusal_at, size_all};
ghost use Rattle.zq_store.specs.Held.{delete, put};

use crate::storage::Storage;
use std::alloc::Global;
use std::marker::Model;
use zq_key::memory::OutOfMemory;
use zq_key::text::Bytes;
use zq_key::{Key, includes, is_plain};

/// Why a storage did not take a pair, or let one go: the first cause of those that hold.
#[derive(Clone, Copy, Debug, PartialEq, Eq)]
pub enum PutRefusal {
    /// No storage has the number.
    UnknownStore,
    /// The key is not plain.
    NotPlain,
    /// The storage's key does not include it.
    Outside,
    /// No memory was found.
    OutOfMemory,
}

/// Storages by number, and how many pairs they have.
pub struct Stores {
    list: Vec<Storage>,
    /// No less than the number of all pairs, unless it is the greatest number.
    size: u64,
}

impl Drop for Stores {
    fn drop(self) {
        let Stores { list, size } = self;
    }
}

impl Model for Stores {
    ghost use Rattle.std.specs.Prelude.{List};
    ghost use Rattle.zq_store.specs.Stores.{IsSize, Stored};

    ghost Value = { List Stored };

    ghost view = { λ s. s.list.items };

    ghost invariant = { λ s. IsSize s.size s.list.items };
}

/// The storage with this number.
pub fn storage_at(list: &[Storage], number: u32) -> Option<&Storage>
    ensures { option_copied result ≡ slice_get list.now number }
{
    list.get(number as usize)
}

/// Why the storage does not take the key, if it does not.
fn refusal_at(list: &[Storage], store: u32, key: &Key) -> Option<PutRefusal>
    ensures { result ≡ refusal_at key.now (slice_get list.now store) }
{
    match storage_at(list, store) {
        None => Some(PutRefusal::UnknownStore),
        Some(storage) => {
            if !is_plain(key.as_str()) {
                Some(PutRefusal::NotPlain)
            } else if !includes(storage.key.as_str(), key.as_str()) {
                Some(PutRefusal::Outside)
            } else {
                None
            }
        }
    }
}

/// The storage with this number has the value at the key from now on; answers the value before.
fn put_at(
    list: &mut Vec<Storage>,
    store: u32,
    key: &Key,
    value: &Bytes,
) -> Result<Option<Bytes>, PutRefusal>
    ensures old { IfOk result (λ o. o ≡ at_text key.now (held_at list.old.items store)) }
    ensures new { OnOk result (list.new.items ≡ change_at store (put key.now value.now) list.old.items) }
    ensures size { IfOk result (λ o. size_all list.new.items ≡ size_all list.old.items + (if is_some o then 0 else 1)) }
    ensures refused { IfSome (refusal_at key.now (slice_get list.old.items store)) (λ e. result ≡ Err e) }
    ensures memory { refusal_at key.now (slice_get list.old.items store) ≡ None → IfErr result (λ e. e ≡ PutRefusal.OutOfMemory) }
    ensures kept { OnErr result (list.new.items ≡ list.old.items) }
{
    if let Some(refusal) = refusal_at(list.as_slice(), store, key) {
        return Err(refusal);
    }
    match list.get_mut(store as usize) {
        Some(storage) => match storage.held.put(key, value) {
            Ok(before) => Ok(before),
            Err(_) => Err(PutRefusal::OutOfMemory),
        },
        None => Err(PutRefusal::UnknownStore),
    }
}

/// The storage with this number has no value at the key from now on; answers the value before.
fn delete_at(list: &mut Vec<Storage>, store: u32, key: &Key) -> Result<Option<Bytes>, PutRefusal>
    ensures old { IfOk result (λ o. o ≡ at_text key.now (held_at list.old.items store)) }
    ensures new { OnOk result (list.new.items ≡ change_at store (delete key.now) list.old.items) }
    ensures size { IfOk result (λ o. size_all list.new.items + (if is_some o then 1 else 0) ≡ size_all list.old.items) }
    ensures refused { IfSome (refusal_at key.now (slice_get list.old.items store)) (λ e. result ≡ Err e) }
    ensures taken { refusal_at key.now (slice_get list.old.items store) ≡ None → IsTrue (is_ok result) }
    ensures kept { OnErr result (list.new.items ≡ list.old.items) }
{
    if let Some(refusal) = refusal_at(list.as_slice(), store, key) {
        return Err(refusal);
    }
    match list.get_mut(store as usize) {
        Some(storage) => Ok(storage.held.delete(key.as_str())),
        None => Err(PutRefusal::UnknownStore),
    }
}

/// One more, up to the greatest number, unless one was replaced.
fn more_by(size: u64, replaced: bool) -> u64
    ensures { (m n : ℕ) → (size < 2 ^ 64 - 1 → m ≤ size) → n ≡ m + (if replaced then 0 else 1) → result < 2 ^ 64 - 1 → n ≤ result }
{
    if replaced {
        size
    } else {
        size.saturating_add(1)
    }
}

/// One less, where one was taken, but not of the greatest number.
fn less_by(size: u64, taken: bool) -> u64
    ensures { (m n : ℕ) → (size < 2 ^ 64 - 1 → m ≤ size) → n + (if taken then 1 else 0) ≡ m → result < 2 ^ 64 - 1 → n ≤ result }
{
    if taken && size < u64::MAX && size > 0 {
        size - 1
    } else {
        size
    }
}

impl Stores {
    /// No storage.
    pub fn new(alloc: Global) -> Stores
        ensures { result ≡ [] }
    {
        Stores {
            list: Vec::new(alloc),
            size: 0,
        }
    }

    /// How many there are.
    pub fn len(&self) -> usize
        ensures { result ≡ length self.now }
    {
        self.list.len()
    }

    /// No less than the number of all pairs, unless it is the greatest number.
    pub fn size(&self) -> u64
        ensures { IsSize result self.now }
    {
        self.size
    }

    /// All of them.
    pub fn as_slice(&self) -> &[Storage]
        ensures { result.now ≡ self.now }
    {
        self.list.as_slice()
    }

    /// One more, which has no pairs yet and stands last.
    pub fn push(&mut self, storage: Storage) -> Result<(), OutOfMemory>
        requires { storage.held ≡ [] }
        ensures ok { OnOk result (self.new ≡ self.old ++ storage ∷ []) }
        ensures err { OnErr result (self.new ≡ self.old) }
    {
        self.list.push(storage)?;
        Ok(())
    }

    /// The storage has this value at the key from now on; answers the value before.
    pub fn put(&mut self, store: u32, key: &Key, value: &Bytes) -> Result<Option<Bytes>, PutRefusal>
        ensures old { IfOk result (λ o. o ≡ at_text key.now (held_at self.old store)) }
        ensures new { OnOk result (self.new ≡ change_at store (put key.now value.now) self.old) }
        ensures refused { IfSome (refusal_at key.now (slice_get self.old store)) (λ e. result ≡ Err e) }
        ensures memory { refusal_at key.now (slice_get self.old store) ≡ None → IfErr result (λ e. e ≡ PutRefusal.OutOfMemory) }
        ensures kept { OnErr result (self.new ≡ self.old) }
    {
        let before = put_at(&mut self.list, store, key, value)?;
        self.size = more_by(self.size, before.is_some());
        Ok(before)
    }

    /// The storage has no value at the key from now on; answers the value before. It takes no memory.
    pub fn delete(&mut self, store: u32, key: &Key) -> Result<Option<Bytes>, PutRefusal>
        ensures old { IfOk result (λ o. o ≡ at_text key.now (held_at self.old store)) }
        ensures new { OnOk result (self.new ≡ change_at store (delete key.now) self.old) }
        ensures refused { IfSome (refusal_at key.now (slice_get self.old store)) (λ e. result ≡ Err e) }
        ensures taken { refusal_at key.now (slice_get self.old store) ≡ None → IsTrue (is_ok result) }
        ensures kept { OnErr result (self.new ≡ self.old) }
    {
        let before = delete_at(&mut self.list, store, key)?;
        self.size = less_by(self.size, before.is_some());
        Ok(before)
    }
}
