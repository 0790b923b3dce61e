//! What the lines of a script for storages say.
ghost use Rattle.std.specs.Prelude.{◌≡◌};
ghost use Rattle.zq_io.specs.Words.{Reads};
ghost use Rattle.zq_lines.specs.Split.{lines_of};
ghost use Rattle.zq_script.specs.Script.{Gives};
ghost use Rattle.zq_store.specs.Lines.{delete_of, get_of, key_of, line_by, line_of, put_of, script_of, storage_of};

use std::alloc::Global;
use zq_io::stop::Stop;
use zq_io::values::flag_at;
use zq_io::words::{Word, at_end, is, len_to, read_at, text_of};
use zq_key::items::Items;
use zq_key::message::QueryTarget;
use zq_key::text::Bytes;
use zq_key::{Key, KeyError};
use zq_lines::split::next_line;
use zq_script::refusal::{ScriptRefusal, at_line};

/// What a line asks for.
#[derive(Drop)]
pub enum Line {
    /// A storage joins.
    Storage {
        /// The key that it answers for.
        key: Key,
        /// Whether it is complete.
        complete: bool,
    },
    /// A storage has a value at a key from now on.
    Put {
        /// The number of the storage.
        store: u32,
        /// The key.
        key: Key,
        /// The value.
        value: Bytes,
    },
    /// A storage has no value at a key from now on.
    Delete {
        /// The number of the storage.
        store: u32,
        /// The key.
        key: Key,
    },
    /// A get.
    Get {
        /// The key that is asked on.
        key: Key,
        /// Which storages are to answer.
        target: QueryTarget,
    },
}

/// Lines, in order.
pub type LineList = Items<Line>;

/// The word of a key.
pub struct KeyOf;

impl Word for KeyOf {
    type Value = Key;

    ghost of = { key_of };

    fn read(alloc: Global, word: &[u8]) -> Result<Key, Stop> {
        let text = text_of(alloc, word)?;
        match Key::new(alloc, text.as_str()) {
            Ok(key) => Ok(key),
            Err(KeyError::Invalid) => Err(Stop::Bad),
            Err(KeyError::OutOfMemory) => Err(Stop::OutOfMemory),
        }
    }
}

#[tactic(auto, unfolding(crate::specs::Lines::storage_of))]
fn storage_of(alloc: Global, bytes: &[u8]) -> Result<Line, Stop>
    ensures { Reads result (storage_of bytes.now) }
{
    let (key, rest) = read_at::<KeyOf>(alloc, bytes)?;
    let (complete, rest) = flag_at("c", "p", rest).ok_or(Stop::Bad)?;
    at_end(rest, Line::Storage { key, complete })
}

#[tactic(auto, unfolding(crate::specs::Lines::put_of))]
fn put_of(alloc: Global, bytes: &[u8]) -> Result<Line, Stop>
    ensures { Reads result (put_of bytes.now) }
{
    let (store, rest) = read_at::<u32>(alloc, bytes)?;
    let (key, rest) = read_at::<KeyOf>(alloc, rest)?;
    let (value, rest) = read_at::<Bytes>(alloc, rest)?;
    at_end(rest, Line::Put { store, key, value })
}

#[tactic(auto, unfolding(crate::specs::Lines::delete_of))]
fn delete_of(alloc: Global, bytes: &[u8]) -> Result<Line, Stop>
    ensures { Reads result (delete_of bytes.now) }
{
    let (store, rest) = read_at::<u32>(alloc, bytes)?;
    let (key, rest) = read_at::<KeyOf>(alloc, rest)?;
    at_end(rest, Line::Delete { store, key })
}

#[tactic(auto, unfolding(crate::specs::Lines::get_of))]
fn get_of(alloc: Global, bytes: &[u8]) -> Result<Line, Stop>
    ensures { Reads result (get_of bytes.now) }
{
    let (key, rest) = read_at::<KeyOf>(alloc, bytes)?;
    let (target, rest) = read_at::<QueryTarget>(alloc, rest)?;
    at_end(rest, Line::Get { key, target })
}

#[tactic(auto, unfolding(crate::specs::Lines::line_by))]
fn line_by(alloc: Global, head: &[u8], bytes: &[u8]) -> Result<Line, Stop>
    ensures { Reads result (line_by head.now bytes.now) }
{
    if is(head, "put") {
        put_of(alloc, bytes)
    } else if is(head, "get") {
        get_of(alloc, bytes)
    } else if is(head, "delete") {
        delete_of(alloc, bytes)
    } else if is(head, "storage") {
        storage_of(alloc, bytes)
    } else {
        Err(Stop::Bad)
    }
}

/// What a line says.
pub fn line_of(alloc: Global, text: &[u8]) -> Result<Line, Stop>
    ensures { Reads result (line_of text.now) }
{
    let (head, rest) = text.split_at(len_to(b' ', text));
    line_by(alloc, head, rest)
}

/// What the lines of the bytes say, or the first bad line.
#[tactic(auto, using(crate::proofs::Scripts::line_put))]
pub fn read_lines(alloc: Global, bytes: &[u8]) -> Result<LineList, ScriptRefusal>
    ensures { Gives result (script_of (lines_of bytes.now)) }
{
    let mut lines: LineList = Items::new(alloc);
    let mut number: u64 = 1;
    let mut rest = bytes;
    'lines: while let Some((text, after)) = next_line(rest) {
        lines.push(at_line(number, line_of(alloc, text))?)?;
        number += 1;
        rest = after;
    }
    Ok(lines)
}
