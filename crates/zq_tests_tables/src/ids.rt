use std::alloc::Global;
use std::marker::Model;
use zq_given::{KEYS, wire};
use zq_key::is_key;
use zq_key::memory::OutOfMemory;
use zq_key::message::Mapping;
use zq_names::{NameRefusal, Names, ResourceId};
use zq_tables::FaceNames;

// A face with its names, whose ids are live.
#[derive(Drop)]
struct Known {
    names: Names,
    face: FaceNames,
}

impl Model for Known {
    ghost use Rattle.zq_tables.specs.FaceIds.{AreLive};

    ghost Value = { Unit {0} };

    ghost view = { λ _. tt };

    ghost invariant = { λ s. AreLive s.names s.face };
}

// A text with the number in it.
fn numbered_text(alloc: Global, id: u16) -> Result<String, OutOfMemory> {
    Ok(format!(in alloc; "n/m/{id}")?)
}

impl Known {
    // A face without ids, and no names.
    fn new(alloc: Global) -> Result<Known, OutOfMemory> {
        Ok(Known {
            names: Names::new(alloc)?,
            face: FaceNames::new(alloc),
        })
    }

    fn add(&mut self, text: &str) -> Result<(), NameRefusal> {
        self.names.make_resource(self.names.root(), text)?;
        Ok(())
    }

    fn register(&mut self, alloc: Global, id: u16, text: &str) -> Result<(), NameRefusal> {
        let wire = wire(alloc, 0, text)?;
        self.face.register_expr(alloc, &mut self.names, id, &wire)
    }

    fn unregister(&mut self, id: u16) -> Result<(), NameRefusal> {
        self.face.unregister_expr(&mut self.names, id)
    }

    // The new id under which a text is declared.
    fn declare(&mut self, alloc: Global, text: &str) -> Result<Option<u16>, OutOfMemory> {
        let Some(r) = self.names.get_resource(self.names.root(), text) else {
            return Ok(None);
        };
        let key = self.face.decl_key(alloc, &mut self.names, r, false, true)?;
        Ok(key.declared)
    }

    // The id under which a new text is declared.
    fn declare_new(&mut self, alloc: Global, text: &str) -> Result<Option<u16>, NameRefusal> {
        self.add(text)?;
        Ok(self.declare(alloc, text)?)
    }

    // Whether a new text, which has the id in it, is declared under that id.
    fn gives(&mut self, alloc: Global, id: u16) -> Result<bool, NameRefusal> {
        let text = numbered_text(alloc, id)?;
        Ok(self.declare_new(alloc, text.as_str())? == Some(id))
    }

    fn best_is(&self, alloc: Global, row: &Row<'_>) -> Result<bool, OutOfMemory> {
        let Some(r) = self.names.get_resource(self.names.root(), row.at) else {
            return Ok(false);
        };
        let best = self.face.get_best_key(alloc, &self.names, r, row.suffix)?;
        Ok(
            best.scope == row.scope
                && best.mapping == row.mapping
                && best.suffix.as_str() == row.rest,
        )
    }

    // Whether a key meets the names that its row marks, and no other.
    fn meets(&self, alloc: Global, key: &str, marks: &str) -> Result<bool, OutOfMemory> {
        if !is_key(key) {
            return Ok(false);
        }
        let found = self.names.get_matches(alloc, key)?;
        Ok(self.are_marked(found.as_slice(), marks))
    }

    // Whether these are the names that the row marks.
    fn are_marked(&self, found: &[ResourceId], marks: &str) -> bool {
        for ((other, _), mark) in KEYS.iter().zip(marks.as_bytes()) {
            let Some(r) = self.names.get_resource(self.names.root(), other) else {
                return false;
            };
            let is_found = found.iter().any(|m| m.0 == r.0);
            if is_found != (*mark == b'x') {
                return false;
            }
        }
        true
    }

    // The first row that does not hold.
    fn wrong_row(&self, alloc: Global, rows: &[Row<'_>]) -> Result<Option<usize>, OutOfMemory> {
        for k in 0..rows.len() {
            if !self.best_is(alloc, &rows[k])? {
                return Ok(Some(k));
            }
        }
        Ok(None)
    }
}

// The best key of the text at a node with a suffix behind it.
#[derive(Clone, Copy)]
struct Row<'a> {
    at: &'a str,
    suffix: &'a str,
    scope: u16,
    mapping: Mapping,
    rest: &'a str,
}

fn by_face<'a>(at: &'a str, suffix: &'a str, scope: u16, rest: &'a str) -> Row<'a> {
    Row {
        at,
        suffix,
        scope,
        mapping: Mapping::Receiver,
        rest,
    }
}

fn by_gateway<'a>(at: &'a str, suffix: &'a str, scope: u16, rest: &'a str) -> Row<'a> {
    Row {
        at,
        suffix,
        scope,
        mapping: Mapping::Sender,
        rest,
    }
}

// Which is another of a reply's key by a number of its queryable's, and one that only begins like it.
fn wrong_reply(known: &mut Known, alloc: Global) -> Result<Option<usize>, NameRefusal> {
    known.add("a")?;
    known.register(alloc, 11, "test/queryable/reply")?;
    let rows = [
        by_face("", "test/queryable/reply/*", 11, "/*"),
        by_gateway("", "test/queryable/replying", 0, "test/queryable/replying"),
    ];
    Ok(known.wrong_row(alloc, &rows)?)
}

#[test]
fn best_keys(rt: HostRuntime) {
    let mut known = Known::new(rt.alloc()).ok().expect(&rt, "memory");
    assert_eq!(rt; wrong_reply(&mut known, rt.alloc()), Ok(None));
}

// What the face answers to the id 0.
fn name_by_0(known: &mut Known, alloc: Global) -> Result<(), NameRefusal> {
    known.add("a")?;
    known.register(alloc, 0, "a")
}

#[test]
fn no_id_is_0(rt: HostRuntime) {
    let mut known = Known::new(rt.alloc()).ok().expect(&rt, "memory");
    assert_eq!(rt;
        name_by_0(&mut known, rt.alloc()),
        Err(NameRefusal::Remapped)
    );
}

// Which is another of those of a face that named `a`, the first of zenoh's own test of best keys.
fn wrong_of_one_id(known: &mut Known, alloc: Global) -> Result<Option<usize>, NameRefusal> {
    known.add("a/b/c")?;
    known.register(alloc, 1, "a")?;
    let rows = [
        by_face("", "a", 1, ""),
        by_face("", "a/b", 1, "/b"),
        by_face("a", "", 1, ""),
        by_face("a", "/b", 1, "/b"),
        by_face("a/b", "", 1, "/b"),
        by_gateway("", "e", 0, "e"),
    ];
    Ok(known.wrong_row(alloc, &rows)?)
}

#[test]
fn best_keys_of_one_id(rt: HostRuntime) {
    let mut known = Known::new(rt.alloc()).ok().expect(&rt, "memory");
    assert_eq!(rt; wrong_of_one_id(&mut known, rt.alloc()), Ok(None));
}

// The second of that test: the face names `a/b` by 2 and `a/b/c` by 3.
fn name_nested(known: &mut Known, alloc: Global) -> Result<(), NameRefusal> {
    known.add("a/d")?;
    known.register(alloc, 2, "a/b")?;
    known.register(alloc, 3, "a/b/c")
}

// Which of the best keys from the root is another, of a face that names these.
fn wrong_from_the_root(known: &mut Known, alloc: Global) -> Result<Option<usize>, NameRefusal> {
    name_nested(known, alloc)?;
    let rows = [
        by_gateway("", "a", 0, "a"),
        by_face("", "a/b", 2, ""),
        by_face("", "a/b/c", 3, ""),
        by_face("", "a/b/c/d", 3, "/d"),
        by_face("", "a/b/cd", 2, "/cd"),
    ];
    Ok(known.wrong_row(alloc, &rows)?)
}

#[test]
fn best_keys_from_the_root(rt: HostRuntime) {
    let mut known = Known::new(rt.alloc()).ok().expect(&rt, "memory");
    assert_eq!(rt; wrong_from_the_root(&mut known, rt.alloc()), Ok(None));
}

// Which of those from a node is another.
fn wrong_from_a_node(known: &mut Known, alloc: Global) -> Result<Option<usize>, NameRefusal> {
    name_nested(known, alloc)?;
    let rows = [
        by_gateway("a", "", 0, "a"),
        by_face("a", "/b", 2, ""),
        by_gateway("a", "/d", 0, "a/d"),
        by_face("a/b", "", 2, ""),
    ];
    Ok(known.wrong_row(alloc, &rows)?)
}

#[test]
fn best_keys_from_a_node(rt: HostRuntime) {
    let mut known = Known::new(rt.alloc()).ok().expect(&rt, "memory");
    assert_eq!(rt; wrong_from_a_node(&mut known, rt.alloc()), Ok(None));
}

// Whether the best key is the next shorter one each time that an id goes.
fn are_shorter(known: &mut Known, alloc: Global) -> Result<[bool; 2], NameRefusal> {
    name_nested(known, alloc)?;
    known.unregister(3)?;
    let by_one = known.best_is(alloc, &by_face("a/b/c", "/d", 2, "/c/d"))?;
    known.unregister(2)?;
    let by_none = known.best_is(alloc, &by_gateway("a/b/c", "/d", 0, "a/b/c/d"))?;
    Ok([by_one, by_none])
}

#[test]
fn best_keys_as_ids_go(rt: HostRuntime) {
    let mut known = Known::new(rt.alloc()).ok().expect(&rt, "memory");
    assert_eq!(rt; are_shorter(&mut known, rt.alloc()), Ok([true, true]));
}

// Whether the best key of `x/y/z` at `x` is by an id of the face's, once it has named `x/y` by this one.
fn is_by(known: &mut Known, alloc: Global, named: u16, best: u16) -> Result<bool, NameRefusal> {
    known.register(alloc, named, "x/y")?;
    Ok(known.best_is(alloc, &by_face("x", "/y/z", best, "/z"))?)
}

// Whether it is by this id of the gateway's.
fn is_by_gateway(known: &Known, alloc: Global) -> Result<bool, OutOfMemory> {
    known.best_is(alloc, &by_gateway("x", "/y/z", 1, "/z"))
}

// Whether an id of the face goes before one of the gateway, and of several the least is taken.
fn face_first(known: &mut Known, alloc: Global) -> Result<[bool; 3], NameRefusal> {
    known.declare_new(alloc, "x/y/**")?;
    Ok([
        is_by_gateway(known, alloc)?,
        is_by(known, alloc, 9, 9)?,
        is_by(known, alloc, 5, 5)?,
    ])
}

// The same as the ids go again.
fn gateway_last(known: &mut Known, alloc: Global) -> Result<[bool; 2], NameRefusal> {
    known.unregister(5)?;
    let by_faces = known.best_is(alloc, &by_face("x", "/y/z", 9, "/z"))?;
    known.unregister(9)?;
    Ok([by_faces, is_by_gateway(known, alloc)?])
}

// Whether both hold, one after the other.
fn are_of_both(known: &mut Known, alloc: Global) -> Result<[bool; 2], NameRefusal> {
    Ok([
        face_first(known, alloc)? == [true, true, true],
        gateway_last(known, alloc)? == [true, true],
    ])
}

#[test]
fn best_keys_of_both_sides(rt: HostRuntime) {
    let mut known = Known::new(rt.alloc()).ok().expect(&rt, "memory");
    assert_eq!(rt; are_of_both(&mut known, rt.alloc()), Ok([true, true]));
}

// Whether an equal face has the same ids, and its own ids alone change once one is given up there.
fn copy_apart(known: &mut Known, alloc: Global) -> Result<[bool; 2], NameRefusal> {
    name_nested(known, alloc)?;
    let mut copy = known.face.copy(alloc)?;
    let same = copy.first_id() == known.face.first_id();
    copy.unregister_expr(&mut known.names, 2)?;
    Ok([
        same && known.face.first_id() == Some(2),
        copy.first_id() == Some(3),
    ])
}

#[test]
fn copied_ids(rt: HostRuntime) {
    let mut known = Known::new(rt.alloc()).ok().expect(&rt, "memory");
    assert_eq!(rt; copy_apart(&mut known, rt.alloc()), Ok([true, true]));
}

// Lets the face name `a` by each id up to this.
fn name_often(known: &mut Known, alloc: Global, last: u16) -> Result<(), NameRefusal> {
    for id in 1..=last {
        known.register(alloc, id, "a")?;
    }
    Ok(())
}

// Whether new texts are declared under each id from this to the last, in order.
fn gives_from(known: &mut Known, alloc: Global, first: u16) -> Result<bool, NameRefusal> {
    for id in first..=65535 {
        if !known.gives(alloc, id)? {
            return Ok(false);
        }
    }
    Ok(true)
}

// Lets all ids be in use: those up to 65,000 by the face, and the others by the gateway. Whether these were
// given in order.
fn fill(known: &mut Known, alloc: Global) -> Result<bool, NameRefusal> {
    known.add("n/m")?;
    name_often(known, alloc, 65000)?;
    gives_from(known, alloc, 65001)
}

// The ids under which `o` is declared while none is free, and once the face gave up 7 and 5.
fn ids_at_the_end(
    known: &mut Known,
    alloc: Global,
) -> Result<(Option<u16>, Option<u16>), NameRefusal> {
    known.add("o")?;
    let first = known.declare(alloc, "o")?;
    known.unregister(7)?;
    known.unregister(5)?;
    Ok((first, known.declare(alloc, "o")?))
}

fn last_ids(
    known: &mut Known,
    alloc: Global,
) -> Result<Option<(Option<u16>, Option<u16>)>, NameRefusal> {
    if !fill(known, alloc)? {
        return Ok(None);
    }
    Ok(Some(ids_at_the_end(known, alloc)?))
}

// The gateway is given each id that the face has not, the least first, and then those that the face gives up.
#[test]
fn ids_until_none_is_free(rt: HostRuntime) {
    let mut known = Known::new(rt.alloc()).ok().expect(&rt, "memory");
    assert_eq!(rt; last_ids(&mut known, rt.alloc()), Ok(Some((None, Some(5)))));
}

// Lets the face name the keys, by ids from 1.
fn name_keys(known: &mut Known, alloc: Global) -> Result<(), NameRefusal> {
    known.add("a")?;
    for k in 0..KEYS.len() {
        known.register(alloc, k as u16 + 1, KEYS[k].0)?;
    }
    Ok(())
}

// The first key whose matches are not those that its row marks.
fn wrong_key(known: &mut Known, alloc: Global) -> Result<Option<usize>, NameRefusal> {
    name_keys(known, alloc)?;
    for k in 0..KEYS.len() {
        if !known.meets(alloc, KEYS[k].0, KEYS[k].1)? {
            return Ok(Some(k));
        }
    }
    Ok(None)
}

#[test]
fn matches_of_numbered_keys(rt: HostRuntime) {
    let mut known = Known::new(rt.alloc()).ok().expect(&rt, "memory");
    assert_eq!(rt; wrong_key(&mut known, rt.alloc()), Ok(None));
}
