use std::alloc::Global;
use zq_given::information;
use zq_key::items::Items;
use zq_key::memory::OutOfMemory;
use zq_key::message::{FaceId, QueryableInfoType};
use zq_key::text::Text;
use zq_strategy::network::Telling;
use zq_told::told_sets::ToldSets;
use zq_told::types::{FaceUpdate, KeyUpdates, Planned, Reason, TellRefusal};

const FACE: FaceId = FaceId(7);

/// What is due at a distance.
fn at_distance(due: Option<u16>) -> Option<QueryableInfoType> {
    match due {
        Some(distance) => Some(information(true, distance)),
        None => None,
    }
}

/// One more key that a call looks at, with the distance of what is due there.
fn push_due(
    list: &mut KeyUpdates,
    alloc: Global,
    key: &str,
    due: Option<u16>,
) -> Result<(), OutOfMemory> {
    let key = Text::new(alloc, key)?;
    list.push((key, at_distance(due)))
}

/// The keys that a call looks at, with the distance of what is due there.
fn look_at(
    list: &mut KeyUpdates,
    alloc: Global,
    keys: &[(&str, Option<u16>)],
) -> Result<(), OutOfMemory> {
    for (key, due) in keys {
        push_due(list, alloc, key, *due)?;
    }
    Ok(())
}

/// How many tellings a call has, and of the last one the id and the distance that it tells.
type Told = (usize, Option<(u32, Option<u16>)>);

/// The id of the telling, and the distance that it tells.
fn id_and_distance(telling: &Telling) -> (u32, Option<u16>) {
    match telling.info {
        Some(info) => (telling.id, Some(info.distance)),
        None => (telling.id, None),
    }
}

/// How many tellings there are, and what the last one tells.
fn last_of(tellings: &[Telling]) -> Told {
    match tellings.last() {
        Some(telling) => (tellings.len(), Some(id_and_distance(telling))),
        None => (tellings.len(), None),
    }
}

/// The face is told what is planned.
fn put(ears: &mut ToldSets, alloc: Global, planned: &Planned) -> Result<Told, OutOfMemory> {
    ears.make_room(alloc, planned.plan.as_slice())?;
    ears.put(planned.plan.as_slice());
    Ok(last_of(planned.tellings.as_slice()))
}

/// What the face is told of what is due.
fn tell(
    ears: &mut ToldSets,
    alloc: Global,
    way: Reason,
    dues: &[FaceUpdate],
) -> Result<Told, OutOfMemory> {
    match ears.plan(alloc, way, dues) {
        Ok(planned) => put(ears, alloc, &planned),
        Err(_) => Err(OutOfMemory),
    }
}

/// A call looks at no key of the face.
fn no_dues(alloc: Global) -> [FaceUpdate; 1] {
    [FaceUpdate {
        face: FACE,
        keys: Items::new(alloc),
    }]
}

/// What the face is told of the keys, with room for what is due there.
fn tell_keys(
    ears: &mut ToldSets,
    alloc: Global,
    way: Reason,
    keys: &[(&str, Option<u16>)],
    dues: &mut [FaceUpdate; 1],
) -> Result<Told, OutOfMemory> {
    look_at(&mut dues[0].keys, alloc, keys)?;
    tell(ears, alloc, way, dues)
}

/// What the face is told of the keys.
fn told(
    alloc: Global,
    ears: &mut ToldSets,
    way: Reason,
    keys: &[(&str, Option<u16>)],
) -> Result<Told, OutOfMemory> {
    let mut dues = no_dues(alloc);
    tell_keys(ears, alloc, way, keys, &mut dues)
}

/// What the face is told of changes that it did not ask for.
fn unasked(ears: &mut ToldSets, alloc: Global) -> Result<[Told; 2], OutOfMemory> {
    let news = [("a", Some(3)), ("b", Some(4))];
    let change = [("a", Some(3)), ("b", Some(5))];
    Ok([
        told(alloc, ears, Reason::Update, &news)?,
        told(alloc, ears, Reason::Update, &change)?,
    ])
}

/// What it is told then as an interest is answered, of a change again, and as the interest ends.
fn asked(ears: &mut ToldSets, alloc: Global) -> Result<[Told; 3], OutOfMemory> {
    let answer = [("a", None), ("b", Some(5)), ("c", Some(1))];
    Ok([
        told(alloc, ears, Reason::Answer, &answer)?,
        told(alloc, ears, Reason::Update, &[("a", Some(3))])?,
        told(alloc, ears, Reason::End, &[("c", None)])?,
    ])
}

/// What it is told last, as two keys go.
fn at_last(ears: &mut ToldSets, alloc: Global) -> Result<Told, OutOfMemory> {
    told(alloc, ears, Reason::Update, &[("b", None), ("c", None)])
}

fn is_told_all(ears: &mut ToldSets, alloc: Global) -> bool {
    unasked(ears, alloc) == Ok([(2, Some((2, Some(4)))), (1, Some((2, Some(5))))])
        && asked(ears, alloc) == Ok([(2, Some((3, Some(1)))), (1, Some((4, Some(3)))), (0, None)])
        && at_last(ears, alloc) == Ok((1, Some((2, None))))
}

fn is_known(ears: &ToldSets) -> bool {
    ears.last(FACE) == Some(4)
        && ears.told_of(FACE, "a").is_some()
        && ears.told_of(FACE, "b").is_none()
}

/// Whether the text is the one key of these.
fn is_only(keys: &[Text], text: &str) -> bool {
    match keys {
        [key] => key.as_str() == text,
        _ => false,
    }
}

/// Whether the text is the one key that the face was told.
fn is_one(ears: &ToldSets, alloc: Global, text: &str) -> Result<bool, OutOfMemory> {
    let keys = ears.told_keys(alloc, FACE)?;
    Ok(is_only(keys.as_slice(), text))
}

/// Whether the face is told the differences, and none of it is kept once it closed.
fn tells_differences(ears: &mut ToldSets, alloc: Global) -> Result<bool, OutOfMemory> {
    ears.open(alloc, FACE, 0)?;
    let told = is_told_all(ears, alloc) && is_known(ears) && is_one(ears, alloc, "a")?;
    ears.close(FACE);
    Ok(told && ears.last(FACE).is_none())
}

#[test]
fn a_face_is_told_the_difference(rt: HostRuntime) {
    let mut ears = ToldSets::new(rt.alloc());
    assert!(rt; tells_differences(&mut ears, rt.alloc()) == Ok(true));
}

/// Why no more is told of what is due.
fn refusal_of(ears: &ToldSets, alloc: Global, dues: &[FaceUpdate]) -> Option<TellRefusal> {
    match ears.plan(alloc, Reason::Update, dues) {
        Ok(_) => None,
        Err(refusal) => Some(refusal),
    }
}

/// Why no more is told of a key, with room for what is due there.
fn refusal(
    ears: &ToldSets,
    alloc: Global,
    dues: &mut [FaceUpdate; 1],
) -> Result<Option<TellRefusal>, OutOfMemory> {
    look_at(&mut dues[0].keys, alloc, &[("b", Some(3))])?;
    Ok(refusal_of(ears, alloc, dues))
}

/// Why no more is told.
fn refused(ears: &ToldSets, alloc: Global) -> Result<Option<TellRefusal>, OutOfMemory> {
    let mut dues = no_dues(alloc);
    refusal(ears, alloc, &mut dues)
}

/// What the last id is used for, and why there is none after it.
fn last_id(ears: &mut ToldSets, alloc: Global) -> Result<(Told, Option<TellRefusal>), OutOfMemory> {
    ears.open(alloc, FACE, u32::MAX - 1)?;
    let last = told(alloc, ears, Reason::Update, &[("a", Some(3))])?;
    Ok((last, refused(ears, alloc)?))
}

#[test]
fn ids_end_with_those_of_32_bits(rt: HostRuntime) {
    let mut ears = ToldSets::new(rt.alloc());
    let last = (1, Some((u32::MAX, Some(3))));
    assert!(rt; last_id(&mut ears, rt.alloc()) == Ok((last, Some(TellRefusal::NoFreeId))));
}
