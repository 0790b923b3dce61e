ghost use Rattle.zq_message.specs.Region.{HasIndex};

use std::alloc::Global;
use zq_given::wire;
use zq_key::memory::OutOfMemory;
use zq_key::message::{FaceId, Region, WireExpr};
use zq_key::text::Text;
use zq_key::{Key, is_key};
use zq_names::NameRefusal;
use zq_tables::DeclKey;
use zq_tables::naming::Naming;
use zq_tables::resolved::Resolved;

const FACE: FaceId = FaceId(3);

const OTHER: FaceId = FaceId(5);

// What is done at one of two open faces, or asked, in a row of five words: which it is, the face, a number or
// another id, a text, and what must come of it. `.` is an empty text, or that there is nothing to say.
#[derive(Clone, Copy)]
struct Row<'a> {
    // open, close: the face
    // declare: the face declares the number for the text; `ok`, or why it can't
    // undeclare: the face gives up the number
    // stands: whether the number stands for something
    // hold: the face declares a queryable, and whether none of that id was there
    // release: the face withdraws it
    // holds: whether a queryable of that id is there
    // ask: the face declares an interest, and whether none of that id was there
    // end: the face withdraws it
    // asks: whether an interest of that id is there
    // best: the text is handed to the face under the number, with a suffix
    // says: the full text that the suffix says under the number
    // unscoped: the suffix says nothing, as the face has not that number
    // context: whether the text has a context
    // enter: routers of the region have an entry on the text, and whether they had none before
    // leave: they have none any more
    // enters: whether they have one; the regions are North for one face and Local for the other
    // whole: the text is declared to the face, which may have no new number, under the number, with a suffix
    // told: the same where it may have one, and has none
    // fresh: the same where the number is new
    // back: the gateway gives up a number that it declared
    deed: &'a str,
    face: FaceId,
    id: u32,
    text: &'a str,
    want: &'a str,
}

// The text that a word of a row stands for.
fn text_of(word: &str) -> &str {
    if word == "." { "" } else { word }
}

// The row of the line, if it is one.
fn row_of(line: &str) -> Option<Row<'_>> {
    let mut words = line.split(' ');
    Some(Row {
        deed: words.next()?,
        face: FaceId(words.next()?.parse().ok()?),
        id: words.next()?.parse().ok()?,
        text: text_of(words.next()?),
        want: text_of(words.next()?),
    })
}

// An answer, as rows have it.
fn yes_or_no(answer: bool) -> &'static str {
    if answer { "true" } else { "false" }
}

// What came of a declaration, as rows have it.
fn reason(declared: Result<(), NameRefusal>) -> &'static str {
    match declared {
        Ok(()) => "ok",
        Err(NameRefusal::InvalidKeyExpr) => "InvalidKeyExpr",
        Err(NameRefusal::Remapped) => "Remapped",
        Err(_) => "other",
    }
}

// Whether none of that id was there before the face declared a queryable, or else an interest.
fn is_new(names: &mut Naming, row: &Row<'_>, key: &Key) -> Result<bool, OutOfMemory> {
    if row.deed == "hold" {
        names.hold_queryable(row.face, row.id, key)
    } else {
        names.hold_interest(row.face, row.id, key)
    }
}

// Whether what is held for a key comes out as it must.
fn key_comes_out(names: &mut Naming, alloc: Global, row: &Row<'_>) -> Result<bool, OutOfMemory> {
    match Key::new(alloc, row.text) {
        Ok(key) => Ok(yes_or_no(is_new(names, row, &key)?) == row.want),
        Err(_) => Ok(false),
    }
}

// Whether the expression has the row's number, and the suffix that it must have.
fn is_under(wire: &WireExpr, row: &Row<'_>) -> bool {
    wire.scope as u32 == row.id && wire.suffix.as_str() == row.want
}

// Whether the best expression for the text comes out as it must.
fn best_comes_out(names: &Naming, alloc: Global, row: &Row<'_>) -> Result<bool, OutOfMemory> {
    let text = Text::new(alloc, row.text)?;
    let wire = names.best(row.face, &text)?;
    Ok(is_under(&wire, row))
}

// Whether it is what the row must say.
fn is_said(said: &Resolved, row: &Row<'_>) -> bool {
    match said {
        Resolved::Full(text) => row.deed == "says" && text.as_str() == row.want,
        Resolved::Empty => false,
        Resolved::Unscoped => row.deed == "unscoped",
    }
}

// Whether what the suffix says under the number comes out as it must.
fn said_comes_out(
    names: &Naming,
    alloc: Global,
    row: &Row<'_>,
    number: u16,
) -> Result<bool, OutOfMemory> {
    let wire = wire(alloc, number, row.text)?;
    let said = names.said(row.face, &wire)?;
    Ok(is_said(&said, row))
}

// Whether the key is the row's, under a new number where there must be one.
fn is_declared(key: &DeclKey, row: &Row<'_>) -> bool {
    let fresh = if row.deed == "fresh" {
        Some(key.wire.scope)
    } else {
        None
    };
    key.declared == fresh && is_under(&key.wire, row)
}

// Whether the key under which the text is declared comes out as it must.
fn telling_comes_out(names: &mut Naming, row: &Row<'_>) -> Result<bool, OutOfMemory> {
    if !is_key(row.text) {
        return Ok(false);
    }
    let key = names.declared(row.face, row.text, false, row.deed != "whole")?;
    Ok(is_declared(&key, row))
}

// Whether what is done with a number comes out as it must.
fn number_comes_out(
    names: &mut Naming,
    alloc: Global,
    row: &Row<'_>,
    number: u16,
) -> Result<bool, OutOfMemory> {
    match row.deed {
        "declare" => Ok(reason(names.declare(row.face, number, row.text)) == row.want),
        "undeclare" => {
            names.undeclare(row.face, number);
            Ok(true)
        }
        "stands" => Ok(yes_or_no(names.standing(row.face, number).is_some()) == row.want),
        "says" | "unscoped" => said_comes_out(names, alloc, row, number),
        "back" => {
            names.take_back(row.face, number);
            Ok(true)
        }
        _ => Ok(false),
    }
}

// Whether what is done with an id that is held comes out as it must, or else with a number.
fn id_comes_out(names: &mut Naming, alloc: Global, row: &Row<'_>) -> Result<bool, OutOfMemory> {
    match row.deed {
        "release" => {
            names.release_queryable(row.face, row.id);
            Ok(true)
        }
        "holds" => Ok(yes_or_no(names.holds_queryable(row.face, row.id)) == row.want),
        "end" => {
            names.release_interest(row.face, row.id);
            Ok(true)
        }
        "asks" => Ok(yes_or_no(names.holds_interest(row.face, row.id)) == row.want),
        _ => match u16::try_from(row.id) {
            Ok(number) => number_comes_out(names, alloc, row, number),
            Err(_) => Ok(false),
        },
    }
}

// The region of a row.
fn region_of(row: &Row<'_>) -> Region
    ensures { HasIndex result }
{
    if row.face == FACE {
        Region::North
    } else {
        Region::Local
    }
}

// Whether what is done with a router's entry comes out as it must.
fn entry_comes_out(names: &mut Naming, alloc: Global, row: &Row<'_>) -> Result<bool, OutOfMemory> {
    let region = region_of(row);
    match row.deed {
        "leave" => {
            names.release_entry(&region, row.text);
            Ok(true)
        }
        "enters" => Ok(yes_or_no(names.holds_entry(&region, row.text)) == row.want),
        _ => match Key::new(alloc, row.text) {
            Ok(key) => Ok(yes_or_no(names.hold_entry(&region, &key)?) == row.want),
            Err(_) => Ok(false),
        },
    }
}

// Whether what is done comes out as it must.
fn comes_out(names: &mut Naming, alloc: Global, row: &Row<'_>) -> Result<bool, OutOfMemory> {
    match row.deed {
        "open" => {
            names.open(row.face)?;
            Ok(true)
        }
        "close" => {
            names.close(row.face);
            Ok(true)
        }
        "context" => Ok(yes_or_no(names.has_context(row.text)) == row.want),
        "hold" | "ask" => key_comes_out(names, alloc, row),
        "enter" | "leave" | "enters" => entry_comes_out(names, alloc, row),
        "best" => best_comes_out(names, alloc, row),
        "whole" | "told" | "fresh" => telling_comes_out(names, row),
        _ => id_comes_out(names, alloc, row),
    }
}

// Whether what the row says came out as it must.
fn is_right(names: &mut Naming, alloc: Global, line: &str) -> Result<bool, OutOfMemory> {
    match row_of(line) {
        Some(row) => comes_out(names, alloc, &row),
        None => Ok(false),
    }
}

// The first row, from two open faces on, that did not come out as it must.
fn wrong_of<'a>(
    names: &mut Naming,
    alloc: Global,
    rows: &'a str,
) -> Result<Option<&'a str>, OutOfMemory> {
    names.open(FACE)?;
    names.open(OTHER)?;
    for line in rows.lines() {
        if !is_right(names, alloc, line)? {
            return Ok(Some(line));
        }
    }
    Ok(None)
}

// The same, with names of its own.
fn wrong_row(alloc: Global, rows: &str) -> Result<Option<&str>, OutOfMemory> {
    match Naming::new(alloc) {
        Ok(mut names) => wrong_of(&mut names, alloc, rows),
        Err(error) => Err(error),
    }
}

// Numbers on nested texts: the longest part of whole chunks, and the least of several numbers.
const BEST_KEYS: &str = "\
declare 3 7 a ok
declare 3 5 a/b ok
declare 3 9 a/b/c/d ok
declare 3 6 a/b ok
declare 3 2 x/* ok
best 3 7 a .
best 3 5 a/b .
best 3 5 a/b/c /c
best 3 9 a/b/c/d .
best 3 9 a/b/c/d/e /e
best 3 7 a/bc /bc
best 3 0 ab ab
best 3 2 x/* .
best 3 0 x/y x/y
best 5 0 a a
best 5 0 a/b a/b
best 5 0 a/b/c a/b/c
best 5 0 a/b/c/d a/b/c/d
best 5 0 a/b/c/d/e a/b/c/d/e
best 5 0 a/bc a/bc
best 5 0 ab ab
best 5 0 x/* x/*
best 5 0 x/y x/y";

#[test]
fn best_keys(rt: HostRuntime) {
    assert_eq!(rt; wrong_row(rt.alloc(), BEST_KEYS), Ok(None));
}

// A number that is given up is no key, and leaves the other numbers of its text and of the texts
// above and below it.
const GIVEN_UP: &str = "\
declare 3 7 a ok
declare 3 5 a/b ok
declare 3 6 a/b ok
declare 3 9 a/b/c ok
undeclare 3 5 . .
best 3 6 a/b .
undeclare 3 6 . .
stands 3 6 . false
best 3 7 a/b /b
best 3 9 a/b/c .
undeclare 3 9 . .
best 3 7 a/b/c /b/c
declare 3 5 a/b/c ok
declare 3 5 a/b/c ok
declare 3 5 a/b Remapped
undeclare 3 5 . .
best 3 7 a/b/c /b/c";

#[test]
fn given_up(rt: HostRuntime) {
    assert_eq!(rt; wrong_row(rt.alloc(), GIVEN_UP), Ok(None));
}

// A face that closes gives up its own numbers, and not those of another face for the same text.
const CLOSED: &str = "\
declare 3 7 a/b ok
declare 3 8 c ok
declare 5 4 a/b ok
close 3 0 . .
best 3 0 a/b a/b
best 5 4 a/b/c /c
open 5 0 . .
best 5 0 a/b/c a/b/c";

#[test]
fn closed(rt: HostRuntime) {
    assert_eq!(rt; wrong_row(rt.alloc(), CLOSED), Ok(None));
}

const SAID: &str = "\
declare 3 7 a ok
says 3 7 /b a/b
unscoped 5 7 /b .
says 3 0 c c
says 5 0 c c";

#[test]
fn said(rt: HostRuntime) {
    assert_eq!(rt; wrong_row(rt.alloc(), SAID), Ok(None));
}

// What can't be declared, and why.
const REFUSED: &str = "\
declare 3 7 a ok
declare 3 0 a//b InvalidKeyExpr
declare 3 7 . InvalidKeyExpr
declare 3 0 a Remapped
declare 3 7 b Remapped
best 3 7 a .";

#[test]
fn refused(rt: HostRuntime) {
    assert_eq!(rt; wrong_row(rt.alloc(), REFUSED), Ok(None));
}

// A queryable holds its node from its declaration on, whatever numbers stand for the same text,
// until it is withdrawn or its face closes. Its id may be wider than a number.
const QUERYABLES: &str = "\
hold 3 1 a/b true
hold 3 1 c false
hold 5 1 a/b true
declare 3 7 a/b ok
hold 3 65543 c true
release 3 65543 . .
release 3 1 . .
holds 3 1 . false
best 3 7 a/b .
undeclare 3 7 . .
holds 5 1 . true
close 5 0 . .
hold 5 1 a/b true
holds 5 1 . false";

#[test]
fn queryables(rt: HostRuntime) {
    assert_eq!(rt; wrong_row(rt.alloc(), QUERYABLES), Ok(None));
}

// An interest holds the node of its key from its declaration on, beside the queryable of the same
// id, until it is withdrawn or its face closes.
const INTERESTS: &str = "\
ask 3 1 a/* true
ask 3 1 b false
hold 3 1 c true
ask 5 65543 d true
context 0 0 a/* true
context 0 0 b false
end 3 1 . .
asks 3 1 . false
holds 3 1 . true
context 0 0 a false
asks 5 65543 . true
close 5 0 . .
asks 5 65543 . false
context 0 0 d false";

#[test]
fn interests(rt: HostRuntime) {
    assert_eq!(rt; wrong_row(rt.alloc(), INTERESTS), Ok(None));
}

// A text has a context as long as a number or a queryable stands for it, or for one that it is a
// part of whole chunks from the front of.
const CONTEXTS: &str = "\
context 0 0 . false
declare 3 7 a/b/c ok
hold 5 1 a/x true
context 0 0 . false
context 0 0 a true
context 0 0 a/b true
context 0 0 a/b/c true
context 0 0 a/b/c/d false
context 0 0 a/ false
context 0 0 b false
undeclare 3 7 . .
context 0 0 a/b false
context 0 0 a true
release 5 1 . .
context 0 0 a false";

#[test]
fn contexts(rt: HostRuntime) {
    assert_eq!(rt; wrong_row(rt.alloc(), CONTEXTS), Ok(None));
}

// The key of routers' entries in a region holds its node once, whatever faces declare, until the
// region has no entry on it any more. A face that closes leaves it.
const ENTRIES: &str = "\
enter 3 0 a/b true
enter 3 0 a/b false
enter 3 0 c true
enter 3 0 a true
enter 5 0 a/b true
hold 3 1 c true
close 3 0 . .
context 0 0 c true
enters 3 0 a/b true
enters 5 0 a/b true
enters 5 0 c false
leave 3 0 a/b .
leave 3 0 x .
enters 3 0 a/b false
enters 3 0 a true
context 0 0 a/b true
leave 5 0 a/b .
context 0 0 a/b false
context 0 0 a true
leave 3 0 a .
leave 3 0 c .
context 0 0 a false
context 0 0 c false
enter 3 0 c true";

#[test]
fn entries(rt: HostRuntime) {
    assert_eq!(rt; wrong_row(rt.alloc(), ENTRIES), Ok(None));
}

// A text is declared by a number of its part before the first chunk with a `*`, by a new one where
// there may be one, the least that neither side has, or whole.
const TOLD: &str = "\
whole 3 0 a/b/* a/b/*
context 0 0 a/b false
fresh 3 1 a/b/* /*
told 3 1 a/b/c$* /c$*
told 3 0 */a */a
context 0 0 a/b true
declare 3 2 c ok
told 3 2 c/** /**
fresh 3 3 d .
back 3 1 . .
context 0 0 a/b false
fresh 3 1 e .";

#[test]
fn told(rt: HostRuntime) {
    assert_eq!(rt; wrong_row(rt.alloc(), TOLD), Ok(None));
}
