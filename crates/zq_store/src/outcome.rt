//! What the lines of a script for storages come to.
ghost use Rattle.std.specs.Prelude.{◌≡◌, Err, IfOk, IfErr, OnOk};
ghost use Rattle.zq_store.specs.Bus.{IsSpent, add_refusal, added, put_refusal, with_change};
ghost use Rattle.zq_store.specs.Getting.{after_get, get_refusal};
ghost use Rattle.zq_store.specs.Held.{delete, put};
ghost use Rattle.zq_store.specs.Outcomes.{change_outcome, get_outcome, line_after, line_outcome, storage_outcome, unless};

use crate::bus::{Bus, BusRefusal};
use crate::got::{GotList, StoreId};
use crate::lines::Line;
use crate::stores::PutRefusal;
use zq_key::Key;
use zq_key::message::QueryTarget;
use zq_key::text::Bytes;

/// What a line comes to.
#[derive(Debug, Drop)]
pub enum LineOutcome {
    /// A storage joined, under this number.
    Joined(StoreId),
    /// A storage has another value at a key, or none; this was the value before.
    Changed(Option<Bytes>),
    /// A get brought these replies.
    Got(GotList),
    /// The bus refused the line.
    Refused(BusRefusal),
    /// The storage refused the pair.
    PutRefused(PutRefusal),
}

/// No memory was found for a line, and what is then.
#[derive(Clone, Copy, Debug, PartialEq, Eq)]
pub enum Lack {
    /// Nothing changed.
    Kept,
    /// The bus is spent.
    Spent,
}

/// A storage joins. Where no memory is found, the bus is spent.
#[tactic(auto, using(crate::proofs::Outcomes::joined_at, crate::proofs::Outcomes::add_spent))]
fn join_storage(bus: &mut Bus, key: &Key, complete: bool) -> Result<LineOutcome, Lack>
    ensures outcome { IfOk result (λ o. o ≡ storage_outcome bus.old (add_refusal bus.old)) }
    ensures after { OnOk result (bus.new ≡ unless (add_refusal bus.old) (added key.now complete bus.old) bus.old) }
    ensures lack { IfErr result (λ e. (e ≡ Lack.Spent) × IsSpent bus.old bus.new) }
{
    match bus.add(key, complete) {
        Ok(store) => Ok(LineOutcome::Joined(store)),
        Err(BusRefusal::OutOfMemory) => Err(Lack::Spent),
        Err(refusal) => Ok(LineOutcome::Refused(refusal)),
    }
}

/// A storage has a value from now on. Where no memory is found, nothing changes.
fn put_value(bus: &mut Bus, store: u32, key: &Key, value: &Bytes) -> Result<LineOutcome, Lack>
    ensures outcome { IfOk result (λ o. o ≡ change_outcome store key.now bus.old (put_refusal store key.now bus.old)) }
    ensures after { OnOk result (bus.new ≡ unless (put_refusal store key.now bus.old) (with_change store (put key.now value.now) bus.old) bus.old) }
    ensures lack { IfErr result (λ e. (e ≡ Lack.Kept) × (bus.new ≡ bus.old)) }
{
    match bus.put(StoreId(store), key, value) {
        Ok(before) => Ok(LineOutcome::Changed(before)),
        Err(PutRefusal::OutOfMemory) => Err(Lack::Kept),
        Err(refusal) => Ok(LineOutcome::PutRefused(refusal)),
    }
}

/// A storage has no value from now on.
fn delete_value(bus: &mut Bus, store: u32, key: &Key) -> LineOutcome
    ensures outcome { result ≡ change_outcome store key.now bus.old (put_refusal store key.now bus.old) }
    ensures after { bus.new ≡ unless (put_refusal store key.now bus.old) (with_change store (delete key.now) bus.old) bus.old }
{
    match bus.delete(StoreId(store), key) {
        Ok(before) => LineOutcome::Changed(before),
        Err(refusal) => LineOutcome::PutRefused(refusal),
    }
}

/// A get, at moment 0. Where no memory is found, the bus is spent.
#[tactic(auto, using(crate::proofs::Outcomes::get_spent))]
fn get_values(bus: &mut Bus, key: &Key, target: QueryTarget) -> Result<LineOutcome, Lack>
    ensures outcome { IfOk result (λ o. o ≡ get_outcome key.now target bus.old (get_refusal key.now bus.old)) }
    ensures after { OnOk result (bus.new ≡ unless (get_refusal key.now bus.old) (after_get bus.old key.now target 0) bus.old) }
    ensures lack { IfErr result (λ e. (e ≡ Lack.Spent) × IsSpent bus.old bus.new) }
{
    match bus.get(key, target, 0) {
        Ok(got) => Ok(LineOutcome::Got(got.replies)),
        Err(BusRefusal::OutOfMemory) => Err(Lack::Spent),
        Err(refusal) => Ok(LineOutcome::Refused(refusal)),
    }
}

/// Does what a line asks for. Where no memory is found, it says what is left.
pub fn do_line(bus: &mut Bus, line: &Line) -> Result<LineOutcome, Lack>
    ensures outcome { IfOk result (λ o. o ≡ line_outcome bus.old line.now) }
    ensures after { OnOk result (bus.new ≡ line_after bus.old line.now) }
    ensures kept { result ≡ Err Lack.Kept → bus.new ≡ bus.old }
    ensures spent { result ≡ Err Lack.Spent → IsSpent bus.old bus.new }
{
    match line {
        Line::Storage { key, complete } => join_storage(bus, key, *complete),
        Line::Put { store, key, value } => put_value(bus, *store, key, value),
        Line::Delete { store, key } => Ok(delete_value(bus, *store, key)),
        Line::Get { key, target } => get_values(bus, key, *target),
    }
}
