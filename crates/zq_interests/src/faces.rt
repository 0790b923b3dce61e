//! The interests of all faces, as a map.
ghost use Rattle.std.specs.Prelude.{◌≡◌, None, OnOk, OnErr, IfOk, IsTrue, is_some, true};
ghost use Rattle.std.specs.List.{list_any};
ghost use Rattle.std.specs.Option.{option_copied};
ghost use Rattle.zq_key.specs.Key.{is_key};
ghost use Rattle.zq_interests.specs.Interests.{asks_another, at, closed_face, interest_at, interests_of, is_passing, with_interest, without_interest};

use crate::asked::{Asked, passes};
use crate::shelf::same_asked;
use crate::types::{InterestEntry, Test};
use std::alloc::Global;
use std::collections::BTreeMap;
use zq_key::Key;
use zq_key::memory::OutOfMemory;

/// What each face asks, by number.
pub(crate) type AskedMap = BTreeMap<u32, Asked>;

/// What the face asks under the id.
pub(crate) fn get_interest(faces: &AskedMap, face: u32, id: u32) -> Option<&InterestEntry>
    ensures { option_copied result ≡ interest_at face id faces.now.entries }
{
    match faces.get(&face) {
        Some(asked) => asked.get(id),
        None => None,
    }
}

/// A face that is there asks this under the id; answers what was before.
fn put_beside(
    faces: &mut AskedMap,
    face: u32,
    id: u32,
    entry: InterestEntry,
) -> Result<Option<InterestEntry>, OutOfMemory>
    requires { is_some (at face faces.old.entries) ≡ true }
    ensures ok { OnOk result (faces.new.entries ≡ with_interest face id entry faces.old.entries) }
    ensures before { IfOk result (λ b. b ≡ interest_at face id faces.old.entries) }
    ensures err { OnErr result (faces.new.entries ≡ faces.old.entries) }
    ensures absent { OnErr result (interest_at face id faces.old.entries ≡ None) }
{
    match faces.get_mut(&face) {
        Some(asked) => match asked.put(id, entry) {
            Ok(before) => Ok(before),
            Err(error) => Err(error),
        },
        None => unreachable!(),
    }
}

/// A face asks this under the id, and nothing else.
fn put_first(
    faces: &mut AskedMap,
    alloc: Global,
    face: u32,
    id: u32,
    entry: InterestEntry,
) -> Result<(), OutOfMemory>
    requires { at face faces.old.entries ≡ None }
    ensures ok { OnOk result (faces.new.entries ≡ with_interest face id entry faces.old.entries) }
    ensures err { OnErr result (faces.new.entries ≡ faces.old.entries) }
{
    let mut asked = Asked::new(alloc);
    let _ = asked.put(id, entry)?;
    match faces.insert(face, asked) {
        Ok(_) => Ok(()),
        Err(_) => Err(OutOfMemory),
    }
}

/// The face asks this under the id; answers what was before. Only what is new can lack memory.
pub(crate) fn put_interest(
    faces: &mut AskedMap,
    alloc: Global,
    face: u32,
    id: u32,
    entry: InterestEntry,
) -> Result<Option<InterestEntry>, OutOfMemory>
    ensures ok { OnOk result (faces.new.entries ≡ with_interest face id entry faces.old.entries) }
    ensures before { IfOk result (λ b. b ≡ interest_at face id faces.old.entries) }
    ensures err { OnErr result (faces.new.entries ≡ faces.old.entries) }
    ensures absent { OnErr result (interest_at face id faces.old.entries ≡ None) }
{
    if faces.contains_key(&face) {
        return match put_beside(faces, face, id, entry) {
            Ok(before) => Ok(before),
            Err(error) => Err(error),
        };
    }
    match put_first(faces, alloc, face, id, entry) {
        Ok(()) => Ok(None),
        Err(error) => Err(error),
    }
}

/// The face asks nothing under the id; answers what was before.
pub(crate) fn end_interest(faces: &mut AskedMap, face: u32, id: u32) -> Option<InterestEntry>
    ensures after { faces.new.entries ≡ without_interest face id faces.old.entries }
    ensures before { result ≡ interest_at face id faces.old.entries }
{
    match faces.get_mut(&face) {
        Some(asked) => asked.end(id),
        None => None,
    }
}

/// The face asks nothing at all; answers what it asked.
pub(crate) fn close_face(faces: &mut AskedMap, face: u32) -> Option<Asked>
    ensures after { faces.new.entries ≡ closed_face face faces.old.entries }
    ensures before { result ≡ at face faces.old.entries }
{
    faces.remove(&face)
}

/// Whether an interest of the face passes the test on the key.
pub(crate) fn face_any(faces: &AskedMap, face: u32, test: Test, key: &str) -> bool
    requires { IsTrue (is_key key.now) }
    ensures { result ≡ list_any (is_passing test key.now) (interests_of face faces.now.entries) }
{
    match faces.get(&face) {
        Some(asked) => asked.any(test, key),
        None => false,
    }
}

/// Whether an interest of the face under another id does.
pub(crate) fn face_any_besides(faces: &AskedMap, face: u32, id: u32, test: Test, key: &str) -> bool
    requires { IsTrue (is_key key.now) }
    ensures { result ≡ list_any (is_passing test key.now) (interests_of face (without_interest face id faces.now.entries)) }
{
    match faces.get(&face) {
        Some(asked) => asked.any_besides(id, test, key),
        None => false,
    }
}

/// Whether an interest of the face would, if it asked this under the id.
pub(crate) fn face_any_with(
    faces: &AskedMap,
    face: u32,
    id: u32,
    entry: &InterestEntry,
    test: Test,
    key: &str,
) -> bool
    requires { IsTrue (is_key key.now) }
    ensures { result ≡ list_any (is_passing test key.now) (interests_of face (with_interest face id entry.now faces.now.entries)) }
{
    match faces.get(&face) {
        Some(asked) => asked.any_with(id, entry, test, key),
        None => passes(entry, test, key),
    }
}

/// Whether the face asks for something else under the id.
pub(crate) fn face_asks_another(faces: &AskedMap, face: u32, id: u32, asked: Option<&Key>) -> bool
    ensures { result ≡ asks_another face id (option_copied asked.entry) faces.now.entries }
{
    match get_interest(faces, face, id) {
        Some(entry) => !same_asked(&entry.key, asked),
        None => false,
    }
}
