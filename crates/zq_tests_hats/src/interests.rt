use std::alloc::Global;
use zq_interests::interests::Interests;
use zq_interests::numbers::{WantsKeys, WithInterest};
use zq_interests::types::InterestEntry;
use zq_key::memory::OutOfMemory;
use zq_key::message::FaceId;
use zq_key::{Key, is_key};

/// The key of the text, if there is one.
fn key_of(alloc: Global, text: Option<&str>) -> Result<Option<Key>, OutOfMemory> {
    match text {
        Some(text) => match Key::new(alloc, text) {
            Ok(key) => Ok(Some(key)),
            Err(_) => Err(OutOfMemory),
        },
        None => Ok(None),
    }
}

/// A face asks for a key, or for all.
fn ask(
    asked: &mut Interests,
    alloc: Global,
    face: u32,
    id: u32,
    text: Option<&str>,
    keys: bool,
) -> Result<(), OutOfMemory> {
    let entry = InterestEntry {
        key: key_of(alloc, text)?,
        keys,
        aggregate: false,
    };
    asked.put(alloc, FaceId(face), id, entry)
}

/// Whether these are the numbers of the faces.
fn are_faces(faces: &[FaceId], want: &[u32]) -> bool {
    for (face, number) in faces.iter().zip(want) {
        if face.0 != *number {
            return false;
        }
    }
    faces.len() == want.len()
}

/// Whether these are the faces that ask for the key; not of a text that is no key.
fn are_askers(
    asked: &Interests,
    alloc: Global,
    text: &str,
    want: &[u32],
) -> Result<bool, OutOfMemory> {
    if !is_key(text) {
        return Ok(false);
    }
    let found = asked.askers(alloc, text)?;
    Ok(are_faces(found.as_slice(), want))
}

/// Whether the face asks for the key, and whether numbers may be declared for keys there; none where the
/// text is no key.
fn asks(asked: &Interests, face: u32, text: &str) -> Option<(bool, bool)> {
    if !is_key(text) {
        return None;
    }
    let face = FaceId(face);
    Some((asked.asks_for(face, text), asked.has_keyed(face, text)))
}

/// How many interests the face has.
fn count(asked: &Interests, face: u32) -> Option<usize> {
    match asked.asked_by(FaceId(face)) {
        Some(entries) => Some(entries.len()),
        None => None,
    }
}

/// Face 9 asks for `a/*` with numbers, 3 for `a/b` and `a/**`, 5 for all keys with numbers.
fn three_ask(asked: &mut Interests, alloc: Global) -> Result<(), OutOfMemory> {
    ask(asked, alloc, 9, 1, Some("a/*"), true)?;
    ask(asked, alloc, 3, 1, Some("a/b"), false)?;
    ask(asked, alloc, 3, 2, Some("a/**"), false)?;
    ask(asked, alloc, 5, 7, None, true)
}

/// Whether those ask for keys who should.
fn all_ask(asked: &mut Interests, alloc: Global) -> Result<[bool; 3], OutOfMemory> {
    three_ask(asked, alloc)?;
    Ok([
        are_askers(asked, alloc, "a/b", &[3, 5, 9])?,
        are_askers(asked, alloc, "a/b/c", &[3, 5])?,
        are_askers(asked, alloc, "b", &[5])?,
    ])
}

#[test]
fn faces_ask(rt: HostRuntime) {
    let mut asked = Interests::new(rt.alloc());
    assert!(rt; all_ask(&mut asked, rt.alloc()) == Ok([true, true, true]));
}

/// What faces 9 and 3 ask for, and how many interests 3 has.
fn asked_of_three(
    asked: &mut Interests,
    alloc: Global,
) -> Result<([Option<(bool, bool)>; 3], Option<usize>), OutOfMemory> {
    three_ask(asked, alloc)?;
    let answers = [
        asks(asked, 9, "a/c"),
        asks(asked, 3, "a/c"),
        asks(asked, 3, "b"),
    ];
    Ok((answers, count(asked, 3)))
}

#[test]
fn a_face_asks(rt: HostRuntime) {
    let mut asked = Interests::new(rt.alloc());
    let answers = [
        Some((true, true)),
        Some((true, false)),
        Some((false, false)),
    ];
    assert!(rt; asked_of_three(&mut asked, rt.alloc()) == Ok((answers, Some(2))));
}

/// Whether face 3 has an interest 2, and an interest 7.
fn has_interests(asked: &mut Interests, alloc: Global) -> Result<[bool; 2], OutOfMemory> {
    three_ask(asked, alloc)?;
    Ok([
        asked.get(FaceId(3), 2).is_some(),
        asked.get(FaceId(3), 7).is_some(),
    ])
}

#[test]
fn interests_are_found(rt: HostRuntime) {
    let mut asked = Interests::new(rt.alloc());
    assert!(rt; has_interests(&mut asked, rt.alloc()) == Ok([true, false]));
}

/// Whether another interest under an id takes its place.
fn changed(asked: &mut Interests, alloc: Global) -> Result<[bool; 2], OutOfMemory> {
    three_ask(asked, alloc)?;
    ask(asked, alloc, 9, 1, Some("c"), false)?;
    Ok([
        are_askers(asked, alloc, "a/x", &[3, 5])?,
        are_askers(asked, alloc, "c", &[5, 9])?,
    ])
}

#[test]
fn interests_change(rt: HostRuntime) {
    let mut asked = Interests::new(rt.alloc());
    assert!(rt; changed(&mut asked, rt.alloc()) == Ok([true, true]));
}

/// How many interests 3 and 8 have once some have ended, and whether those ask for a key whom a closed face
/// leaves.
fn ended(
    asked: &mut Interests,
    alloc: Global,
) -> Result<(Option<usize>, Option<usize>, bool), OutOfMemory> {
    three_ask(asked, alloc)?;
    asked.end(FaceId(3), 2);
    asked.end(FaceId(3), 8);
    asked.end(FaceId(8), 1);
    let counts = (count(asked, 3), count(asked, 8));
    asked.close(FaceId(3));
    let left = are_askers(asked, alloc, "a/b", &[5, 9])?;
    Ok((counts.0, counts.1, left))
}

#[test]
fn interests_end(rt: HostRuntime) {
    let mut asked = Interests::new(rt.alloc());
    assert!(rt; ended(&mut asked, rt.alloc()) == Ok((Some(1), None, true)));
}

/// Whether the face asks for the key by other interests; none where the text is no key.
fn besides(asked: &Interests, face: u32, id: u32, text: &str) -> Option<bool> {
    if !is_key(text) {
        return None;
    }
    Some(asked.asks_besides(FaceId(face), id, text))
}

/// Whether faces ask for keys by other interests than one.
fn left_out(asked: &mut Interests, alloc: Global) -> Result<[Option<bool>; 4], OutOfMemory> {
    three_ask(asked, alloc)?;
    Ok([
        besides(asked, 3, 1, "a/b"),
        besides(asked, 3, 2, "a/c"),
        besides(asked, 3, 8, "a/c"),
        besides(asked, 8, 1, "a/c"),
    ])
}

#[test]
fn an_interest_is_left_out(rt: HostRuntime) {
    let mut asked = Interests::new(rt.alloc());
    let found = [Some(true), Some(false), Some(true), Some(false)];
    assert!(rt; left_out(&mut asked, rt.alloc()) == Ok(found));
}

/// Whether the face asks for something else under the id.
fn another(
    asked: &Interests,
    alloc: Global,
    face: u32,
    id: u32,
    text: Option<&str>,
) -> Result<bool, OutOfMemory> {
    let key = key_of(alloc, text)?;
    Ok(asked.asks_another(FaceId(face), id, key.as_ref()))
}

/// Whether the interests 1 of face 3, and 7 and 8 of face 5, are for something else.
fn anothers(asked: &mut Interests, alloc: Global) -> Result<[bool; 5], OutOfMemory> {
    three_ask(asked, alloc)?;
    Ok([
        another(asked, alloc, 3, 1, Some("a/b"))?,
        another(asked, alloc, 3, 1, Some("a/*"))?,
        another(asked, alloc, 5, 7, None)?,
        another(asked, alloc, 5, 7, Some("a"))?,
        another(asked, alloc, 5, 8, Some("a"))?,
    ])
}

#[test]
fn an_id_asks_for_another_key(rt: HostRuntime) {
    let mut asked = Interests::new(rt.alloc());
    let found = [false, true, false, true, false];
    assert!(rt; anothers(&mut asked, rt.alloc()) == Ok(found));
}

/// Whether the face wants numbers for the key; none where the text is no key.
fn numbers<K: WantsKeys>(keyed: &K, face: u32, text: &str) -> Option<bool> {
    if !is_key(text) {
        return None;
    }
    Some(keyed.has_keyed(FaceId(face), text))
}

/// Whether faces 3 and 9 want numbers for `a/c`, as they ask, and with the interest of a face under id 1.
fn numbers_beside(interests: &Interests, face: u32, entry: &InterestEntry) -> [Option<bool>; 4] {
    let with = WithInterest {
        interests,
        face: FaceId(face),
        id: 1,
        entry,
    };
    [
        numbers(interests, 3, "a/c"),
        numbers(interests, 9, "a/c"),
        numbers(&with, 3, "a/c"),
        numbers(&with, 9, "a/c"),
    ]
}

/// What is counted once three ask, with an interest in the key, or in all.
fn numbers_with(
    asked: &mut Interests,
    alloc: Global,
    face: u32,
    text: Option<&str>,
    keys: bool,
) -> Result<[Option<bool>; 4], OutOfMemory> {
    three_ask(asked, alloc)?;
    let entry = InterestEntry {
        key: key_of(alloc, text)?,
        keys,
        aggregate: false,
    };
    Ok(numbers_beside(asked, face, &entry))
}

#[test]
fn one_interest_more(rt: HostRuntime) {
    let mut asked = Interests::new(rt.alloc());
    assert!(rt;
        numbers_with(&mut asked, rt.alloc(), 3, Some("a/*"), true)
            == Ok([Some(false), Some(true), Some(true), Some(true)])
    );
}

#[test]
fn an_interest_takes_the_place_of_another(rt: HostRuntime) {
    let mut asked = Interests::new(rt.alloc());
    assert!(rt;
        numbers_with(&mut asked, rt.alloc(), 9, None, false)
            == Ok([Some(false), Some(true), Some(false), Some(false)])
    );
}
