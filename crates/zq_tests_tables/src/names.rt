ghost use Rattle.std.specs.Prelude.{◌≡◌, true};
ghost use Rattle.zq_names.specs.Linking.{HasContext};

use std::alloc::Global;
use zq_key::memory::OutOfMemory;
use zq_names::{NameRefusal, Names, ResourceId, ResourceList};

fn number(r: Option<ResourceId>) -> Option<u64> {
    match r {
        Some(r) => Some(r.0),
        None => None,
    }
}

fn place(names: &Names, text: &str) -> Option<u64> {
    number(names.get_resource(names.root(), text))
}

// Whether a text is seen as its parts.
fn has_parts(names: &mut Names) -> Result<[bool; 6], NameRefusal> {
    let key = names.make_resource(names.root(), "Ȳ/a/b$*/c")?;
    let (prefix, rest) = names.nonwild_prefix(key);
    Ok([
        names.expr(key) == "Ȳ/a/b$*/c",
        names.suffix(key) == "/c",
        names.keyexpr(names.root()).is_none(),
        names.has_context(key),
        rest == "/b$*/c",
        number(prefix) == place(names, "Ȳ/a"),
    ])
}

#[test]
fn texts_and_their_parts(rt: HostRuntime) {
    let mut names = Names::new(rt.alloc()).ok().expect(&rt, "memory");
    assert_eq!(rt;
        has_parts(&mut names),
        Ok([true, true, true, true, true, true])
    );
}

// Makes two texts, which have two parts in common.
fn make_two(names: &mut Names) -> Result<(), NameRefusal> {
    names.make_resource(names.root(), "Ȳ/a/😀")?;
    names.make_resource(names.root(), "Ȳ/a/b")?;
    Ok(())
}

// Lets the text go, if it is there.
fn let_go(names: &mut Names, text: &str) {
    if let Some(r) = names.get_resource_ref(names.root(), text) {
        names.clean(r);
    }
}

// Which are there: the parts that two texts have in common, and the two.
fn there(names: &Names) -> [bool; 4] {
    [
        place(names, "Ȳ").is_some(),
        place(names, "Ȳ/a").is_some(),
        place(names, "Ȳ/a/😀").is_some(),
        place(names, "Ȳ/a/b").is_some(),
    ]
}

// Whether a text goes with those of its parts that no other text has, and comes again.
fn come_and_go(names: &mut Names) -> Result<[bool; 4], NameRefusal> {
    make_two(names)?;
    let_go(names, "Ȳ/a");
    let both = there(names) == [true, true, true, true];
    let_go(names, "Ȳ/a/😀");
    let one = there(names) == [true, true, false, true];
    let_go(names, "Ȳ/a/b");
    let none = there(names) == [false, false, false, false];
    names.make_resource(names.root(), "Ȳ/a/b")?;
    Ok([both, one, none, there(names) == [true, true, false, true]])
}

#[test]
fn texts_come_and_go(rt: HostRuntime) {
    let mut names = Names::new(rt.alloc()).ok().expect(&rt, "memory");
    assert_eq!(rt; come_and_go(&mut names), Ok([true, true, true, true]));
}

// Whether a copy keeps what the other lets go.
fn copy_keeps(names: &mut Names, alloc: Global) -> Result<bool, NameRefusal> {
    make_two(names)?;
    let copy = names.copy(alloc)?;
    let_go(names, "Ȳ/a/😀");
    Ok(there(&copy) == [true, true, true, true])
}

#[test]
fn a_copy_stays_as_it_is(rt: HostRuntime) {
    let mut names = Names::new(rt.alloc()).ok().expect(&rt, "memory");
    assert_eq!(rt; copy_keeps(&mut names, rt.alloc()), Ok(true));
}

// Whether the table refuses the text as no key.
fn is_refused(names: &mut Names, text: &str) -> bool {
    let made = names.make_resource(names.root(), text);
    matches!(made, Err(NameRefusal::InvalidKeyExpr))
}

// Which of three texts that are no keys the table refuses.
fn refused(names: &mut Names) -> [bool; 3] {
    [
        is_refused(names, ""),
        is_refused(names, "a//b"),
        is_refused(names, "a/"),
    ]
}

#[test]
fn no_keys_are_refused(rt: HostRuntime) {
    let mut names = Names::new(rt.alloc()).ok().expect(&rt, "memory");
    assert_eq!(rt; refused(&mut names), [true, true, true]);
}

fn may_meet(names: &Names, r: ResourceId) -> bool
    ensures { result ≡ true → HasContext names.now r }
{
    names.is_live(r) && names.has_context(r)
}

// Makes b the one match of a.
fn meet(
    alloc: Global,
    names: &mut Names,
    a: ResourceId,
    b: ResourceId,
) -> Result<bool, OutOfMemory> {
    if !may_meet(names, a) || !may_meet(names, b) {
        return Ok(false);
    }
    let mut list = ResourceList::new(alloc);
    list.push(b)?;
    names.match_resource(a, list)?;
    Ok(true)
}

fn matches_of(names: &Names, r: ResourceId, other: ResourceId) -> usize {
    if !names.is_live(r) {
        return 0;
    }
    names.matches(r).iter().filter(|m| m.0 == other.0).count()
}

fn met(alloc: Global, names: &mut Names, a: ResourceId, b: ResourceId) -> bool {
    meet(alloc, names, a, b).unwrap_or(false)
}

// A wild key and two that it meets.
#[derive(Clone, Copy)]
struct Keys {
    star: ResourceId,
    b: ResourceId,
    c: ResourceId,
}

fn make_keys(names: &mut Names) -> Result<Keys, NameRefusal> {
    let star = names.make_resource(names.root(), "a/*")?;
    let b = names.make_resource(names.root(), "a/b")?;
    let c = names.make_resource(names.root(), "a/c")?;
    Ok(Keys { star, b, c })
}

// How often the wild key has each among its matches, and each the wild key.
fn counts(names: &Names, keys: Keys) -> [usize; 4] {
    [
        matches_of(names, keys.star, keys.b),
        matches_of(names, keys.star, keys.c),
        matches_of(names, keys.b, keys.star),
        matches_of(names, keys.c, keys.star),
    ]
}

fn close(names: &mut Names, r: ResourceId) {
    if names.is_live(r) {
        names.close(r);
    }
}

// Whether the matches of two are those that were set last, in both directions.
fn are_met(alloc: Global, names: &mut Names, keys: Keys) -> [bool; 5] {
    [
        met(alloc, names, keys.star, keys.b),
        met(alloc, names, keys.star, keys.b),
        counts(names, keys) == [1, 0, 1, 0],
        met(alloc, names, keys.star, keys.c),
        counts(names, keys) == [0, 1, 1, 1],
    ]
}

// Whether they are those, and none once the wild key is closed.
fn go_both_ways(names: &mut Names, alloc: Global) -> Result<[bool; 2], NameRefusal> {
    let keys = make_keys(names)?;
    let are_set = are_met(alloc, names, keys) == [true, true, true, true, true];
    close(names, keys.star);
    Ok([are_set, counts(names, keys) == [0, 0, 0, 0]])
}

#[test]
fn matches_go_both_ways(rt: HostRuntime) {
    let mut names = Names::new(rt.alloc()).ok().expect(&rt, "memory");
    assert_eq!(rt; go_both_ways(&mut names, rt.alloc()), Ok([true, true]));
}

fn moved<T: Send>(value: T) -> T {
    value
}

// How many texts a table has that went to another.
fn moved_texts(alloc: Global) -> Result<usize, OutOfMemory> {
    Ok(moved(Names::new(alloc)?).len())
}

#[test]
fn a_table_may_go_to_a_thread(rt: HostRuntime) {
    assert_eq!(rt; moved_texts(rt.alloc()), Ok(1));
}
