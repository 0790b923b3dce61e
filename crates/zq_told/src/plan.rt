//! What a face is told of the keys that a call looks at.
ghost use Rattle.std.specs.Prelude.{◌≡◌, ◌++◌, ◌∷◌, [], ◌≤◌, ◌^◌, Some, IfOk, IfSome, IfNone, OnOk, IsErrOf, None};
ghost use Rattle.zq_told.specs.Telling.{answer, change, difference, entry_for as entry_of, id_for, last_for as last_of, noted, renewed as renewed_of, tell_key, tell_keys, tellings_for, told_under};
ghost use Rattle.zq_told.specs.Rooms.{ear_of};

use crate::book::Book;
use crate::types::{Reason, Rows, TellRefusal, ToldEntry};
use std::alloc::Global;
use zq_index::info::same_info;
use zq_key::items::Items;
use zq_key::memory::OutOfMemory;
use zq_key::message::{DEFAULT_NODE_ID, FaceId, QueryableInfoType};
use zq_key::text::Text;
use zq_strategy::network::{Telling, TellingList};

/// What becomes of a face key by key: the id given last, the keys looked at, and what it and those
/// before it are told.
#[derive(Drop)]
pub(crate) struct Account {
    pub(crate) last: u32,
    pub(crate) rows: Rows,
    pub(crate) tellings: TellingList,
}

/// The face is told of the key under the id: its information, or that the id stands no more.
fn tell_under(
    tellings: &mut TellingList,
    alloc: Global,
    face: FaceId,
    key: &Text,
    id: u32,
    info: Option<QueryableInfoType>,
) -> Result<(), OutOfMemory>
    ensures { OnOk result (tellings.new ≡ tellings.old ++ told_under face.0 key.now id info ∷ []) }
{
    let telling = Telling {
        face,
        id,
        key: key.copy(alloc)?,
        info,
        node: DEFAULT_NODE_ID,
    };
    tellings.push(telling)?;
    Ok(())
}

/// The face is told the difference between two entries.
fn tell_difference(
    tellings: &mut TellingList,
    alloc: Global,
    face: FaceId,
    key: &Text,
    old: Option<ToldEntry>,
    new: Option<ToldEntry>,
) -> Result<(), OutOfMemory>
    ensures { OnOk result (tellings.new ≡ tellings.old ++ difference face.0 key.now old new) }
{
    match (old, new) {
        (None, None) => Ok(()),
        (Some(told), None) => tell_under(tellings, alloc, face, key, told.id, None),
        (None, Some(entry)) => tell_under(tellings, alloc, face, key, entry.id, Some(entry.info)),
        (Some(told), Some(entry)) => {
            if same_info(told.info, entry.info) {
                return Ok(());
            }
            tell_under(tellings, alloc, face, key, entry.id, Some(entry.info))
        }
    }
}

/// The face is told a change of the information alone.
fn tell_change(
    tellings: &mut TellingList,
    alloc: Global,
    face: FaceId,
    key: &Text,
    old: Option<ToldEntry>,
    new: Option<ToldEntry>,
) -> Result<(), OutOfMemory>
    ensures { OnOk result (tellings.new ≡ tellings.old ++ change face.0 key.now old new) }
{
    match (old, new) {
        (None, _) => Ok(()),
        (Some(_), None) => Ok(()),
        (Some(told), Some(entry)) => {
            tell_difference(tellings, alloc, face, key, Some(told), Some(entry))
        }
    }
}

/// The face is told what is due.
fn tell_answer(
    tellings: &mut TellingList,
    alloc: Global,
    face: FaceId,
    key: &Text,
    new: Option<ToldEntry>,
) -> Result<(), OutOfMemory>
    ensures { OnOk result (tellings.new ≡ tellings.old ++ answer face.0 key.now new) }
{
    match new {
        None => Ok(()),
        Some(entry) => tell_under(tellings, alloc, face, key, entry.id, Some(entry.info)),
    }
}

/// The face is told what a key has become.
fn tell(
    tellings: &mut TellingList,
    alloc: Global,
    way: Reason,
    face: FaceId,
    key: &Text,
    old: Option<ToldEntry>,
    new: Option<ToldEntry>,
) -> Result<(), OutOfMemory>
    ensures { OnOk result (tellings.new ≡ tellings.old ++ tellings_for way face.0 key.now old new) }
{
    match way {
        Reason::Update => tell_difference(tellings, alloc, face, key, old, new),
        Reason::Answer => tell_answer(tellings, alloc, face, key, new),
        Reason::End => tell_change(tellings, alloc, face, key, old, new),
    }
}

/// The id of a key at a face: that which it has, or the next, if there is one.
fn id_of(last: u32, old: Option<ToldEntry>) -> Option<u32>
    ensures some { IfSome result (λ id. id ≡ id_for last old) }
    ensures none { IfNone result (2 ^ 32 ≤ id_for last old) }
    ensures new { IfNone result (old ≡ None) }
{
    match old {
        Some(told) => Some(told.id),
        None => {
            if last == u32::MAX {
                return None;
            }
            Some(last + 1)
        }
    }
}

/// The entry under its id, if there is one.
fn due_entry(
    last: u32,
    old: Option<ToldEntry>,
    info: QueryableInfoType,
) -> Result<Option<ToldEntry>, TellRefusal>
    ensures entry { IfOk result (λ new. new ≡ Some (record { id = id_for last old; info = info })) }
    ensures no_free { IsErrOf result TellRefusal.NoFreeId → 2 ^ 32 ≤ last_of last old (Some (record { id = id_for last old; info = info })) }
{
    match id_of(last, old) {
        Some(id) => Ok(Some(ToldEntry { id, info })),
        None => Err(TellRefusal::NoFreeId),
    }
}

/// What was told, with other information.
fn renewed(old: Option<ToldEntry>, info: QueryableInfoType) -> Option<ToldEntry>
    ensures { result ≡ renewed_of old info }
{
    match old {
        Some(told) => Some(ToldEntry { id: told.id, info }),
        None => None,
    }
}

/// What a face was told of a key after the call. `NoFreeId` where it needs an id above those of 32 bits.
fn entry_for(
    way: Reason,
    last: u32,
    old: Option<ToldEntry>,
    due: Option<QueryableInfoType>,
) -> Result<Option<ToldEntry>, TellRefusal>
    ensures entry { IfOk result (λ new. new ≡ entry_of way last old due) }
    ensures no_free { IsErrOf result TellRefusal.NoFreeId → 2 ^ 32 ≤ last_of last old (entry_of way last old due) }
{
    match (way, due) {
        (_, None) => Ok(None),
        (Reason::Update, Some(info)) => due_entry(last, old, info),
        (Reason::Answer, Some(info)) => due_entry(last, old, info),
        (Reason::End, Some(info)) => Ok(renewed(old, info)),
    }
}

/// The id given last, once a key has become the entry.
fn last_for(last: u32, old: Option<ToldEntry>, new: Option<ToldEntry>) -> u32
    ensures { result ≡ last_of last old new }
{
    match (old, new) {
        (None, Some(entry)) => entry.id,
        _ => last,
    }
}

/// A key of a face has become the entry.
fn note(
    account: &mut Account,
    alloc: Global,
    way: Reason,
    face: FaceId,
    key: &Text,
    old: Option<ToldEntry>,
    new: Option<ToldEntry>,
) -> Result<(), OutOfMemory>
    ensures { OnOk result (account.new ≡ noted way face.0 key.now old new account.old) }
{
    account.last = last_for(account.last, old, new);
    account.rows.push((key.copy(alloc)?, new))?;
    tell(&mut account.tellings, alloc, way, face, key, old, new)?;
    Ok(())
}

/// A face is told of a key. `NoFreeId` where it needs an id above those of 32 bits.
fn plan_key(
    account: &mut Account,
    alloc: Global,
    way: Reason,
    face: FaceId,
    book: &Book,
    due: &(Text, Option<QueryableInfoType>),
) -> Result<(), TellRefusal>
    ensures ok { OnOk result (account.new ≡ tell_key way face.0 book.now.shelf.told account.old due.now) }
    ensures no_free { IsErrOf result TellRefusal.NoFreeId → 2 ^ 32 ≤ (tell_key way face.0 book.now.shelf.told account.old due.now).last }
{
    let (key, info) = due;
    let old = book.get(key.as_str());
    let new = entry_for(way, account.last, old, *info)?;
    match note(account, alloc, way, face, key, old, new) {
        Ok(()) => Ok(()),
        Err(_) => Err(TellRefusal::OutOfMemory),
    }
}

/// A face is told of keys, behind what others are told. `NoFreeId` where it needs an id above those of
/// 32 bits.
pub(crate) fn plan_keys(
    alloc: Global,
    way: Reason,
    face: FaceId,
    book: &Book,
    keys: &[(Text, Option<QueryableInfoType>)],
    before: TellingList,
) -> Result<Account, TellRefusal>
    ensures ok { IfOk result (λ a. a ≡ tell_keys way face.0 (ear_of book.now) keys.now before) }
    ensures no_free { IsErrOf result TellRefusal.NoFreeId → 2 ^ 32 ≤ (tell_keys way face.0 (ear_of book.now) keys.now before).last }
{
    let mut account = Account {
        last: book.last(),
        rows: Items::new(alloc),
        tellings: before,
    };
    for key in keys {
        match plan_key(&mut account, alloc, way, face, book, key) {
            Ok(()) => {}
            Err(refusal) => return Err(refusal),
        }
    }
    Ok(account)
}
