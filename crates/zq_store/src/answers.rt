//! Which storages are asked, and what they answer.
ghost use Rattle.std.specs.Prelude.{◌≡◌, ◌++◌, ◌<◌, ◌^◌, IfOk, OnOk, length, map, position, true};
ghost use Rattle.zq_store.specs.Getting.{answer_of, answers_at, answers_of, asked_in, asked_of};
ghost use Rattle.zq_store.specs.Held.{meeting};
ghost use Rattle.zq_store.specs.Pair.{pair_of};
ghost use Rattle.zq_store.specs.Stores.{held_at, is_face, numbered};

use crate::held::Pair;
use crate::storage::Storage;
use crate::stores::storage_at;
use std::alloc::Global;
use zq_key::Key;
use zq_key::items::Items;
use zq_key::memory::OutOfMemory;
use zq_key::message::{FaceId, Message};
use zq_key::text::{Bytes, Text};
use zq_machine::handed::Handed;

/// A storage that was handed a request: its number, its face, and the id of the request there.
#[derive(Clone, Copy)]
pub struct AskedStore {
    /// The number of the storage.
    pub store: u32,
    /// Its face.
    pub face: FaceId,
    /// The id of the request at the face.
    pub rid: u32,
}

/// A pair with which a storage answers.
#[derive(Drop)]
pub struct Answer {
    /// The storage that was asked.
    pub asked: AskedStore,
    /// The key of the pair.
    pub key: Text,
    /// Its value.
    pub value: Bytes,
}

/// The number of the storage at a face, where the first storage has this face.
#[tactic(auto, using(crate::proofs::Faces::found_below, crate::proofs::Faces::found_there, crate::proofs::Faces::found_above))]
fn store_at(stores: &[Storage], first: u32, face: FaceId) -> Option<u32>
    requires few { length stores.now < 2 ^ 32 }
    requires faces { numbered first stores.now ≡ true }
    ensures { result ≡ position (is_face face) stores.now }
{
    if face.0 < first {
        return None;
    }
    let number = face.0 - first;
    if (number as usize) < stores.len() {
        Some(number)
    } else {
        None
    }
}

/// Puts the storage that a message asks behind the others, if it asks one.
fn push_asked(
    asked: &mut Items<AskedStore>,
    stores: &[Storage],
    first: u32,
    message: &Handed,
) -> Result<(), OutOfMemory>
    requires few { length stores.now < 2 ^ 32 }
    requires faces { numbered first stores.now ≡ true }
    ensures { OnOk result (asked.new ≡ asked.old ++ asked_in stores.now message.now) }
{
    let Message::Request(request) = message.message() else {
        return Ok(());
    };
    let Some(store) = store_at(stores, first, message.to()) else {
        return Ok(());
    };
    asked.push(AskedStore {
        store,
        face: message.to(),
        rid: request.id,
    })
}

/// The storages that were handed the request, in the order in which they were, where the first storage has
/// this face.
pub fn asked_of(
    alloc: Global,
    stores: &[Storage],
    first: u32,
    handed: &[Handed],
) -> Result<Items<AskedStore>, OutOfMemory>
    requires few { length stores.now < 2 ^ 32 }
    requires faces { numbered first stores.now ≡ true }
    ensures { IfOk result (λ l. l ≡ asked_of stores.now handed.now) }
{
    let mut asked = Items::new(alloc);
    for message in handed {
        push_asked(&mut asked, stores, first, message)?;
    }
    Ok(asked)
}

/// Puts the pairs behind the answers, as those of a storage.
fn push_pairs(
    answers: &mut Items<Answer>,
    asked: AskedStore,
    pairs: Items<Pair>,
) -> Result<(), OutOfMemory>
    ensures { OnOk result (answers.new ≡ answers.old ++ map (answer_of asked) pairs) }
{
    for Pair { key, value } in pairs.into_vec() {
        answers.push(Answer { asked, key, value })?;
    }
    Ok(())
}

/// The pairs that the storage with this number has and that meet the key.
fn meeting_at(
    alloc: Global,
    stores: &[Storage],
    store: u32,
    key: &Key,
) -> Result<Items<Pair>, OutOfMemory>
    ensures { IfOk result (λ l. l ≡ map pair_of (meeting key.now (held_at stores.now store))) }
{
    match storage_at(stores, store) {
        Some(storage) => storage.held.meeting(alloc, key),
        None => Ok(Items::new(alloc)),
    }
}

/// Puts what the storage answers behind the answers.
#[tactic(auto, using(crate::proofs::Pairs::answers_as))]
fn push_answers(
    alloc: Global,
    answers: &mut Items<Answer>,
    stores: &[Storage],
    asked: AskedStore,
    key: &Key,
) -> Result<(), OutOfMemory>
    ensures { OnOk result (answers.new ≡ answers.old ++ answers_at stores.now key.now asked) }
{
    let pairs = meeting_at(alloc, stores, asked.store, key)?;
    push_pairs(answers, asked, pairs)?;
    Ok(())
}

/// What storages answer to a request on a key, one after another.
pub fn answers_of(
    alloc: Global,
    stores: &[Storage],
    asked: &[AskedStore],
    key: &Key,
) -> Result<Items<Answer>, OutOfMemory>
    ensures { IfOk result (λ l. l ≡ answers_of stores.now key.now asked.now) }
{
    let mut answers = Items::new(alloc);
    for one in asked {
        push_answers(alloc, &mut answers, stores, *one, key)?;
    }
    Ok(answers)
}
