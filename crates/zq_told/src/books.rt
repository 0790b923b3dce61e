//! What all faces were told, as a map of books: one face is planned, given room, and put.
ghost use Rattle.std.specs.Prelude.{◌≡◌, ℕ, List, true, false, IfOk, OnOk, OnErr, IsErrOf};
ghost use Rattle.std.specs.List.{list_any};
ghost use Rattle.zq_told.specs.Rooms.{AreBare, HasRooms, IsBareAt, IsReady, ear_of, ears_of, room_at};
ghost use Rattle.zq_told.specs.Telling.{is_above, lacks_ids, put_face as face_put, put_plan, tell_face, tell_faces, tell_keys, with_account};

use crate::book::Book;
use crate::plan::plan_keys;
use crate::types::{FacePlan, FaceUpdate, Planned, Reason, TellRefusal};
use std::alloc::Global;
use std::collections::BTreeMap;
use zq_key::items::Items;
use zq_key::memory::OutOfMemory;

/// What was told of each face, by number.
pub(crate) type BookMap = BTreeMap<u32, Book>;

/// A face that is there is told, behind what others are told.
fn plan_book(
    book: &Book,
    alloc: Global,
    way: Reason,
    dues: &FaceUpdate,
    planned: Planned,
) -> Result<Planned, TellRefusal>
    requires { list_any is_above planned.plan ≡ false }
    ensures ok { IfOk result (λ p. p ≡ with_account dues.now.face.0 (tell_keys way dues.now.face.0 (ear_of book.now) dues.now.keys planned.tellings) planned) }
    ensures free { IfOk result (λ p. list_any is_above p.plan ≡ false) }
    ensures no_free { IsErrOf result TellRefusal.NoFreeId → list_any is_above (with_account dues.now.face.0 (tell_keys way dues.now.face.0 (ear_of book.now) dues.now.keys planned.tellings) planned).plan ≡ true }
{
    let Planned { mut plan, tellings } = planned;
    match plan_keys(alloc, way, dues.face, book, dues.keys.as_slice(), tellings) {
        Ok(account) => {
            let left = FacePlan {
                face: dues.face,
                last: account.last,
                rows: account.rows,
            };
            match plan.push(left) {
                Ok(()) => Ok(Planned {
                    plan,
                    tellings: account.tellings,
                }),
                Err(_) => Err(TellRefusal::OutOfMemory),
            }
        }
        Err(refusal) => Err(refusal),
    }
}

/// A face is told, if it is there, behind what others are told.
fn plan_face(
    books: &BookMap,
    alloc: Global,
    way: Reason,
    dues: &FaceUpdate,
    planned: Planned,
) -> Result<Planned, TellRefusal>
    requires { list_any is_above planned.plan ≡ false }
    ensures ok { IfOk result (λ p. p ≡ tell_face way (ears_of books.now.entries) planned dues.now) }
    ensures free { IfOk result (λ p. list_any is_above p.plan ≡ false) }
    ensures no_free { IsErrOf result TellRefusal.NoFreeId → list_any is_above (tell_face way (ears_of books.now.entries) planned dues.now).plan ≡ true }
{
    match books.get(&dues.face.0) {
        Some(book) => match plan_book(book, alloc, way, dues, planned) {
            Ok(planned) => Ok(planned),
            Err(refusal) => Err(refusal),
        },
        None => Ok(planned),
    }
}

/// Room for what a face is told.
fn add_face(books: &mut BookMap, alloc: Global, plan: &FacePlan) -> Result<(), OutOfMemory>
    ensures ears { ears_of books.new.entries ≡ ears_of books.old.entries }
    ensures ready { OnOk result (HasRooms books.new.entries plan.now) }
    ensures others { (n : ℕ) (q : List ℕ) → room_at books.old.entries n q ≡ true → room_at books.new.entries n q ≡ true }
{
    match books.get_mut(&plan.face.0) {
        Some(book) => match book.add_rooms(alloc, plan.rows.as_slice()) {
            Ok(()) => Ok(()),
            Err(error) => Err(error),
        },
        None => Ok(()),
    }
}

/// The rooms of a face's plan are given back.
fn give_back_face(books: &mut BookMap, plan: &FacePlan)
    ensures ears { ears_of books.new.entries ≡ ears_of books.old.entries }
    ensures bare { IsBareAt books.new.entries plan.now }
    ensures others { (p : FacePlan) → IsBareAt books.old.entries p → IsBareAt books.new.entries p }
{
    match books.get_mut(&plan.face.0) {
        Some(book) => book.give_back(plan.rows.as_slice()),
        None => {}
    }
}

/// A face was told what its plan says from now on.
fn put_face(books: &mut BookMap, plan: &FacePlan)
    requires { HasRooms books.old.entries plan.now }
    ensures ears { ears_of books.new.entries ≡ face_put (ears_of books.old.entries) plan.now }
    ensures rooms { (n : ℕ) (q : List ℕ) → room_at books.new.entries n q ≡ room_at books.old.entries n q }
{
    match books.get_mut(&plan.face.0) {
        Some(book) => book.put(plan.last, plan.rows.as_slice()),
        None => {}
    }
}

/// What faces are told of the keys that a call looks at, and what it leaves of them.
pub(crate) fn plan_faces(
    books: &BookMap,
    alloc: Global,
    way: Reason,
    dues: &[FaceUpdate],
) -> Result<Planned, TellRefusal>
    ensures ok { IfOk result (λ p. p ≡ tell_faces way (ears_of books.now.entries) dues.now) }
    ensures free { OnOk result (lacks_ids way (ears_of books.now.entries) dues.now ≡ false) }
    ensures no_free { IsErrOf result TellRefusal.NoFreeId → lacks_ids way (ears_of books.now.entries) dues.now ≡ true }
{
    let mut planned = Planned {
        plan: Items::new(alloc),
        tellings: Items::new(alloc),
    };
    for due in dues {
        match plan_face(books, alloc, way, due, planned) {
            Ok(more) => planned = more,
            Err(refusal) => return Err(refusal),
        }
    }
    Ok(planned)
}

/// Room for what faces are told.
fn add_faces(books: &mut BookMap, alloc: Global, plan: &[FacePlan]) -> Result<(), OutOfMemory>
    ensures ears { ears_of books.new.entries ≡ ears_of books.old.entries }
    ensures ready { OnOk result (IsReady plan.now books.new.entries) }
{
    for face in plan {
        add_face(books, alloc, face)?;
    }
    Ok(())
}

/// The rooms of a plan are given back.
pub(crate) fn give_back_faces(books: &mut BookMap, plan: &[FacePlan])
    ensures ears { ears_of books.new.entries ≡ ears_of books.old.entries }
    ensures bare { AreBare plan.now books.new.entries }
{
    for face in plan {
        give_back_face(books, face);
    }
}

/// Room for what faces are told, or none.
pub(crate) fn make_room(
    books: &mut BookMap,
    alloc: Global,
    plan: &[FacePlan],
) -> Result<(), OutOfMemory>
    ensures ears { ears_of books.new.entries ≡ ears_of books.old.entries }
    ensures ready { OnOk result (IsReady plan.now books.new.entries) }
    ensures bare { OnErr result (AreBare plan.now books.new.entries) }
{
    match add_faces(books, alloc, plan) {
        Ok(()) => Ok(()),
        Err(error) => {
            give_back_faces(books, plan);
            Err(error)
        }
    }
}

/// The faces were told what the plan says.
pub(crate) fn put_faces(books: &mut BookMap, plan: &[FacePlan])
    requires { IsReady plan.now books.old.entries }
    ensures { ears_of books.new.entries ≡ put_plan plan.now (ears_of books.old.entries) }
{
    for face in plan {
        put_face(books, face);
    }
}
