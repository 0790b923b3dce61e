use std::alloc::AllocError;
use zq_given::KEYS;
use zq_key::message::node_id_as_source;
use zq_key::space::{split_first_chunk, strip};
use zq_key::{includes, intersects, is_key, is_plain};

// Texts, and what they are beside the empty one, which is none.
const KINDS: &str = "\
a/b plain
a/b@c plain
Ȳ/😀 plain
a/@b key
@a key
a/* key
a$* key
*/** key
** key
* key
$*a key
a$*b$* key
@a$* key
**/@a/**/b key
a//b none
/a none
a/ none
a* none
$* none
**/* none
**/** none
$*$* none
a$*$*b none
a$ none
$a none
a#b none
a? none
*** none
a/$*/b none
$ none
/ none";

// What a text is.
fn kind(text: &str) -> &'static str {
    match (is_key(text), is_plain(text)) {
        (true, true) => "plain",
        (true, false) => "key",
        (false, false) => "none",
        (false, true) => "no key that is plain",
    }
}

// Whether the row of a text says what it is.
fn says_kind(row: &str) -> bool {
    let mut words = row.split(' ');
    match (words.next(), words.next()) {
        (Some(text), Some(said)) => kind(text) == said,
        _ => false,
    }
}

#[test]
fn keys(rt: HostRuntime) {
    assert!(rt; kind("") == "none");
    for row in KINDS.lines() {
        assert!(rt; says_kind(row), "{row}");
    }
}

// Two keys, and what the first is to the second.
const RELATIONS: &str = "\
@a **/@a meets
**/@a @a includes
@a ** apart
** @a apart
* @a apart
** a/b includes
*/** **/x meets
**/x */** meets
a$*b a$*c$*b includes
a$*c$*b a$*b meets
a$*b ab includes
a$*b * meets
* a$*b includes
** ** includes
**/a/** x/a/y/a includes
x/**/@v/**/y **/@v/y meets
x/**/@v/**/y x/a/@v/b/y includes
x/**/@v/**/y **/@v/b/** meets
**/a a/** meets
**/a/** b/**/c meets
a/**/b a/b includes
a/**/b/c a/b/** meets
@a$* @ab apart
a$* @a apart
$*a$*b $*b meets
$*b $*a$*b includes
a$*a a apart
**/b a/** meets
a b apart
**/a$*b **/b$*ba apart
**/@ab **/@bb apart
$*ab bab includes
$*xb a$*b meets
**/xb **/b apart
*/b a/b includes
**/a/x **/b/x apart
a/b ab apart
**/a/x */x meets";

// What the first is to the second; none where one is no key, or where it includes what it does not meet.
fn relation(a: &str, b: &str) -> Option<&'static str> {
    if !is_key(a) || !is_key(b) {
        return None;
    }
    match (intersects(a, b), includes(a, b)) {
        (true, true) => Some("includes"),
        (true, false) => Some("meets"),
        (false, false) => Some("apart"),
        (false, true) => None,
    }
}

// Whether the row of two keys says what the first is to the second.
fn holds(row: &str) -> bool {
    let mut words = row.split(' ');
    match (words.next(), words.next(), words.next()) {
        (Some(a), Some(b), Some(said)) => relation(a, b) == Some(said),
        _ => false,
    }
}

#[test]
fn relations(rt: HostRuntime) {
    for row in RELATIONS.lines() {
        assert!(rt; holds(row), "{row}");
    }
}

// Whether the first meets the second; none where one is no key.
fn meet(a: &str, b: &str) -> Option<bool> {
    Some(relation(a, b)? != "apart")
}

// Whether the key meets exactly the marked ones.
fn meets_marked(a: &str, marks: &str) -> bool {
    KEYS.iter()
        .zip(marks.as_bytes())
        .all(|((b, _), mark)| meet(a, b) == Some(*mark == b'x'))
}

#[test]
fn each_against_each(rt: HostRuntime) {
    for (a, marks) in KEYS {
        assert!(rt; meets_marked(a, marks), "{a}");
    }
}

// A text, its first chunk, and the rest, where there is one.
const FIRST_CHUNKS: &str = "\
/a/b /a /b
a/b a /b
/a /a
Ȳ/b Ȳ /b
Ȳ Ȳ
/Ȳ/😀 /Ȳ /😀";

// Whether the row of a text says how it is parted.
fn is_parted(row: &str) -> bool {
    let mut words = row.split(' ');
    match (words.next(), words.next(), words.next()) {
        (Some(text), Some(chunk), rest) => {
            split_first_chunk(text) == Some((chunk, rest.unwrap_or("")))
        }
        _ => false,
    }
}

#[test]
fn first_chunks(rt: HostRuntime) {
    assert!(rt; split_first_chunk("").is_none());
    for row in FIRST_CHUNKS.lines() {
        assert!(rt; is_parted(row), "{row}");
    }
}

fn behind<'a>(ns: &str, key: &'a str) -> Option<&'a str> {
    if is_plain(ns) && is_key(key) {
        strip(ns, key)
    } else {
        None
    }
}

#[test]
fn what_is_behind_a_prefix(rt: HostRuntime) {
    assert!(rt; behind("n", "n").is_none());
    assert!(rt; behind("n/m", "n/**") == Some("**"));
    assert!(rt; behind("n", "*/a") == Some("a"));
}

// Writes the part so often, and then the end.
fn repeat(text: &mut String, part: &str, times: usize, end: &str) -> Result<(), AllocError> {
    for _ in 0..times {
        text.push_str(part)?;
    }
    text.push_str(end)
}

// Whether runs are apart from two others, of which the ends tell of the first two alone, and include themselves.
fn long_relations(
    runs: &mut String,
    others: &mut String,
    plain: &mut String,
) -> Result<[bool; 3], AllocError> {
    repeat(runs, "a$*", 300, "b$*d")?;
    repeat(others, "$*a", 300, "c")?;
    repeat(plain, "a", 600, "cd")?;
    Ok([
        relation(runs.as_str(), others.as_str()) == Some("apart"),
        relation(runs.as_str(), plain.as_str()) == Some("apart"),
        relation(runs.as_str(), runs.as_str()) == Some("includes"),
    ])
}

#[test]
fn long_chunks(rt: HostRuntime) {
    let mut runs = String::new(rt.alloc());
    let mut others = String::new(rt.alloc());
    let mut plain = String::new(rt.alloc());
    let found = long_relations(&mut runs, &mut others, &mut plain);
    assert!(rt; found == Ok([true, true, true]));
}

// Whether chunks are apart from two others, and include themselves.
fn many_relations(
    stars: &mut String,
    chunks: &mut String,
    flat: &mut String,
) -> Result<[bool; 3], AllocError> {
    repeat(stars, "**/a/", 300, "b/*")?;
    repeat(chunks, "a/**/", 300, "c/*")?;
    repeat(flat, "a/", 600, "c/*")?;
    Ok([
        relation(stars.as_str(), chunks.as_str()) == Some("apart"),
        relation(stars.as_str(), flat.as_str()) == Some("apart"),
        relation(stars.as_str(), stars.as_str()) == Some("includes"),
    ])
}

#[test]
fn many_chunks(rt: HostRuntime) {
    let mut stars = String::new(rt.alloc());
    let mut chunks = String::new(rt.alloc());
    let mut flat = String::new(rt.alloc());
    let found = many_relations(&mut stars, &mut chunks, &mut flat);
    assert!(rt; found == Ok([true, true, true]));
}

#[test]
fn nodes_as_sources(rt: HostRuntime) {
    assert!(rt; [node_id_as_source(0), node_id_as_source(3)] == [None, Some(3)]);
}
