//! The interests of all faces, and where they are kept.
ghost use Rattle.std.specs.Prelude.{◌≡◌, ◌&&◌, not, filter, map, ℕ, List, Option, OnOk, OnErr, IfOk, IsTrue, true};
ghost use Rattle.std.specs.List.{AllByRecursion};
ghost use Rattle.zq_key.specs.Key.{is_key};
ghost use Rattle.zq_index.specs.Holders.{Place};
ghost use Rattle.zq_interests.specs.Interests.{AreFolders, askers, closed_face, with_interest, without_interest};
ghost use Rattle.zq_interests.specs.Kept.{AreKept, folder_at, is_folding, is_kept, is_left, numbered};

use crate::faces::{AskedMap, close_face, end_interest, get_interest, put_interest};
use crate::shelf::{Shelf, same_asked};
use crate::types::{FaceKey, FaceList, FolderList, InterestEntry};
use std::alloc::Global;
use std::collections::BTreeSet;
use zq_index::holders::FacePlace;
use zq_key::Key;
use zq_key::items::Items;
use zq_key::memory::OutOfMemory;
use zq_key::message::FaceId;
use zq_key::text::Text;

/// What is asked for, once more.
fn copy_asked(alloc: Global, asked: &Option<Key>) -> Result<Option<Key>, OutOfMemory>
    ensures { IfOk result (λ a. a ≡ asked.now) }
{
    match asked {
        Some(key) => Ok(Some(key.copy(alloc)?)),
        None => Ok(None),
    }
}

/// An interest that another one replaced is not kept any more, where it asked for something else.
fn leave_old(
    shelf: &mut Shelf,
    before: &Option<InterestEntry>,
    asked: &Option<Key>,
    place: FacePlace,
)
    ensures { (other : Option (List ℕ)) (q : Place) → is_kept other q shelf.new ≡ (not (is_left before.now asked.now place other q) && is_kept other q shelf.old) }
{
    if let Some(old) = before {
        if !same_asked(&old.key, asked.as_ref()) {
            shelf.take(&old.key, place);
        }
    }
}

/// The face asks this under the id, and it is kept.
pub(crate) fn put_kept(
    faces: &mut AskedMap,
    shelf: &mut Shelf,
    alloc: Global,
    face: u32,
    id: u32,
    entry: InterestEntry,
) -> Result<(), OutOfMemory>
    requires { AreKept faces.old.entries shelf.old }
    ensures ok { OnOk result (faces.new.entries ≡ with_interest face id entry faces.old.entries) }
    ensures err { OnErr result (faces.new.entries ≡ faces.old.entries) }
    ensures kept { AreKept faces.new.entries shelf.new }
{
    let asked = copy_asked(alloc, &entry.key)?;
    shelf.put(alloc, &asked, (face, id))?;
    match put_interest(faces, alloc, face, id, entry) {
        Ok(before) => {
            leave_old(shelf, &before, &asked, (face, id));
            Ok(())
        }
        Err(error) => {
            shelf.take(&asked, (face, id));
            Err(error)
        }
    }
}

/// The face asks nothing under the id, and nothing of it is kept.
pub(crate) fn end_kept(faces: &mut AskedMap, shelf: &mut Shelf, face: u32, id: u32)
    requires { AreKept faces.old.entries shelf.old }
    ensures after { faces.new.entries ≡ without_interest face id faces.old.entries }
    ensures kept { AreKept faces.new.entries shelf.new }
{
    match end_interest(faces, face, id) {
        Some(gone) => shelf.take(&gone.key, (face, id)),
        None => {}
    }
}

/// The face asks nothing at all, and nothing of it is kept.
pub(crate) fn close_kept(faces: &mut AskedMap, shelf: &mut Shelf, face: u32)
    requires { AreKept faces.old.entries shelf.old }
    ensures after { faces.new.entries ≡ closed_face face faces.old.entries }
    ensures kept { AreKept faces.new.entries shelf.new }
{
    match close_face(faces, face) {
        Some(asked) => asked.leave(shelf, face),
        None => {}
    }
}

/// The numbers as a list of faces.
fn list_faces(alloc: Global, numbers: &BTreeSet<u32>) -> Result<FaceList, OutOfMemory>
    ensures { IfOk result (λ l. l ≡ map numbered numbers.now.keys) }
{
    let mut faces = Items::new(alloc);
    for number in numbers {
        faces.push(FaceId(*number))?;
    }
    Ok(faces)
}

/// The faces with an interest that meets the key, found by where interests are kept.
pub(crate) fn kept_askers(
    faces: &AskedMap,
    shelf: &Shelf,
    alloc: Global,
    key: &str,
) -> Result<FaceList, OutOfMemory>
    requires key { IsTrue (is_key key.now) }
    requires kept { AreKept faces.now.entries shelf.now }
    ensures { IfOk result (λ l. l ≡ askers key.now faces.now.entries) }
{
    let numbers = shelf.met_faces(alloc, key)?;
    Ok(list_faces(alloc, &numbers)?)
}

/// Whether the interest at the place is aggregating.
fn is_folding(faces: &AskedMap, place: FacePlace, key: &str) -> bool
    ensures { result ≡ is_folding faces.now.entries (place, key.now) }
{
    match get_interest(faces, place.0, place.1) {
        Some(entry) => entry.aggregate,
        None => false,
    }
}

/// Those of the spots at which interests are aggregating, as faces with keys.
fn list_folders(
    alloc: Global,
    faces: &AskedMap,
    spots: &[(FacePlace, Text)],
) -> Result<FolderList, OutOfMemory>
    ensures { IfOk result (λ l. l ≡ map folder_at (filter (is_folding faces.now.entries) spots.now)) }
{
    let mut folders = Items::new(alloc);
    for spot in spots {
        let (place, text) = spot;
        if is_folding(faces, *place, text.as_str()) {
            let face = FaceId(place.0);
            let key = text.copy(alloc)?;
            folders.push(FaceKey { face, key })?;
        }
    }
    Ok(folders)
}

/// The keys of aggregating interests that meet the key, each with its face, found by where interests are
/// kept.
pub(crate) fn kept_folders(
    faces: &AskedMap,
    shelf: &Shelf,
    alloc: Global,
    key: &str,
) -> Result<FolderList, OutOfMemory>
    requires key { IsTrue (is_key key.now) }
    requires kept { AreKept faces.now.entries shelf.now }
    ensures found { IfOk result (λ l. AreFolders key.now faces.now.entries l) }
    ensures valid { IfOk result (λ l. AllByRecursion (λ f. is_key f.key ≡ true) l) }
{
    let spots = shelf.met_spots(alloc, key)?;
    Ok(list_folders(alloc, faces, spots.as_slice())?)
}
