//! A search among declared keys for those that meet a request's: which are passed over.
//!
//! Where both are plain, the search goes on at least at the next key that is not plain, or at the request's
//! own text, if that comes first, and ends where neither is left. Besides:
//!
//! Where a key and the request's part, and the request's goes on by a greater byte, the search goes on at
//! the first bytes of the key and the rest of the request's chunk, or its first characters: keys with other
//! plain chunks there are passed over at once. A mixed key may stand between, as `ab$*` before `abc`; where
//! one does, the search goes on at that, or at the next byte or character, if that comes later. Where the
//! request's goes on by a smaller byte, whatever begins like the key is passed over, and the search ends if
//! nothing that is wild was passed before.
ghost use Rattle.std.specs.Prelude.{◌≡◌, ◌+◌, ◌<◌, ◌≤◌, ◌++◌, ◌∷◌, [], List, ℕ, IfOk, IfSome, OnOk, length, take, drop, slice_index, true};
ghost use Rattle.std.specs.String.{string_bytes};
ghost use Rattle.zq_key.specs.Key.{is_plain};
ghost use Rattle.zq_index.specs.Texts.{Lists};
ghost use Rattle.zq_index.specs.Forks.{IsForkAt, IsHeld, IsLast, IsNext, Leads};
ghost use Rattle.zq_index.specs.Skipping.{is_run, run_of, IsPlaceAbove, Skips, SkipsListed, SkipsUnmixed, StepIs};

use crate::forks::{Mode, Parting, fork, next_byte};
use crate::text_set::{KeyLists, comes_before, compare_texts};
use std::cmp::Ordering;
use zq_key::is_plain;
use zq_key::memory::OutOfMemory;
use zq_key::pruning::may_be_wild;

/// The byte after that at the place, if it is an ASCII one.
fn byte_above(key: &[u8], at: usize) -> Option<(usize, u8)>
    requires { at < length key.now }
    ensures { IfSome result (λ r. (r.0 ≡ at) × (r.1 ≡ slice_index key.now at + 1) × (r.1 < 128)) }
{
    if key[at] < 127 {
        Some((at, key[at] + 1))
    } else {
        None
    }
}

/// The bound behind the keys that begin like this one, up to a place: the lowest from which on none
/// that goes on by a greater byte meets the request's, or else the first that has an ASCII byte.
fn place_above(key: &[u8], held: usize, at: usize) -> Option<(usize, u8)>
    requires within { held ≤ at }
    requires in_range { at < length key.now }
    ensures { IfSome result (λ r. IsPlaceAbove key.now held at r.0 r.1) }
{
    let lowest = if held > 0 { held - 1 } else { 0 };
    if let Some(found) = byte_above(key, lowest) {
        return Some(found);
    }
    if at > 0 && key[at - 1] < 127 {
        return byte_above(key, at - 1);
    }
    byte_above(key, at)
}

/// The next step of a search for what meets a request's key.
#[derive(Clone, Copy)]
pub enum Step {
    /// To look at the key.
    Look,
    /// To go on at a bound.
    Jump,
    /// None is left.
    End,
}

/// Writes a text and a byte.
fn write_bound(bound: &mut String, front: &str, byte: u8) -> Result<(), OutOfMemory>
    requires { byte < 128 }
    ensures { OnOk result (string_bytes bound.new ≡ front.now ++ byte ∷ []) }
{
    bound.clear();
    bound.push_str(front)?;
    bound.push(byte as char)?;
    Ok(())
}

/// The step to the key's first bytes and a greater byte; to the last ASCII byte, if that comes before.
fn to_byte(bound: &mut String, key: &str, at: usize, byte: u8) -> Result<Step, OutOfMemory>
    requires in_range { at < length key.now }
    requires after { slice_index key.now at < byte }
    ensures { (lists : Lists) (q : List ℕ) → Skips q key.now (take at key.now ++ byte ∷ []) → IfOk result (StepIs lists q key.now (string_bytes bound.new)) }
{
    let least = byte.min(127);
    if key.as_bytes()[at] >= least {
        return Ok(Step::Look);
    }
    write_bound(bound, &key[..at], least)?;
    Ok(Step::Jump)
}

/// The step where the request's key goes on by a smaller byte.
fn past(bound: &mut String, key: &str, held: usize, at: usize) -> Result<Step, OutOfMemory>
    requires within { held ≤ at }
    requires in_range { at < length key.now }
    ensures { (lists : Lists) (q : List ℕ) (want : ℕ) → IsForkAt key.now q at want → IsLast (slice_index key.now at) want → IsHeld key.now q held at → IfOk result (StepIs lists q key.now (string_bytes bound.new)) }
{
    if held == 0 {
        return Ok(Step::End);
    }
    match place_above(key.as_bytes(), held, at) {
        Some((place, byte)) => to_byte(bound, key, place, byte),
        None => Ok(Step::Look),
    }
}

/// Whether a byte ends no chunk and is not wild.
fn is_run(byte: u8) -> bool
    ensures { result ≡ is_run byte }
{
    byte != b'/' && !may_be_wild(byte)
}

/// Adds the first bytes, as long as they are such.
fn push_run(bytes: &mut Vec<u8>, left: &[u8]) -> Result<(), OutOfMemory>
    ensures { OnOk result (bytes.new.items ≡ bytes.old.items ++ run_of left.now) }
{
    for byte in left {
        if !is_run(*byte) {
            return Ok(());
        }
        bytes.push(*byte)?;
    }
    Ok(())
}

/// Writes a text and the first bytes of another, as long as they are such.
fn write_run(bytes: &mut Vec<u8>, front: &[u8], left: &[u8]) -> Result<(), OutOfMemory>
    ensures { OnOk result (bytes.new.items ≡ front.now ++ run_of left.now) }
{
    bytes.clear();
    bytes.extend_from_slice(front)?;
    push_run(bytes, left)
}

/// Writes the text of these bytes, which may have begun within a character. False says nothing.
fn write_text(bound: &mut String, bytes: &[u8]) -> Result<bool, OutOfMemory>
    ensures { IfOk result (λ found. found ≡ true → string_bytes bound.new ≡ bytes.now) }
{
    match str::from_utf8(bytes) {
        Ok(text) => {
            bound.clear();
            bound.push_str(text)?;
            Ok(true)
        }
        Err(_) => Ok(false),
    }
}

/// Writes some bytes and one more.
fn write_byte(bytes: &mut Vec<u8>, front: &[u8], byte: u8) -> Result<(), OutOfMemory>
    ensures { OnOk result (bytes.new.items ≡ front.now ++ byte ∷ []) }
{
    bytes.clear();
    bytes.extend_from_slice(front)?;
    bytes.push(byte)?;
    Ok(())
}

/// Writes the text of these bytes and as many of the greatest that follow in a character as end one.
/// False says nothing.
fn write_greatest(bound: &mut String, bytes: &mut Vec<u8>) -> Result<bool, OutOfMemory>
    ensures { IfOk result (λ found. found ≡ true → (more : List ℕ) × (string_bytes bound.new ≡ bytes.old.items ++ more)) }
{
    for _ in 0..3 {
        bytes.push(0xBF)?;
        if write_text(bound, bytes.as_slice())? {
            return Ok(true);
        }
    }
    Ok(false)
}

/// The step to the key's first bytes and a greater byte; where that ends no character, to the last
/// character that begins by a lesser one.
fn to_character(
    bound: &mut String,
    bytes: &mut Vec<u8>,
    key: &str,
    at: usize,
    byte: u8,
) -> Result<Step, OutOfMemory>
    requires in_range { at < length key.now }
    requires after { slice_index key.now at < byte }
    ensures { (lists : Lists) (q : List ℕ) → Skips q key.now (take at key.now ++ byte ∷ []) → IfOk result (StepIs lists q key.now (string_bytes bound.new)) }
{
    if byte < 128 {
        return to_byte(bound, key, at, byte);
    }
    write_byte(bytes, &key.as_bytes()[..at], byte)?;
    if write_text(bound, bytes.as_slice())? {
        return Ok(Step::Jump);
    }
    write_byte(bytes, &key.as_bytes()[..at], byte - 1)?;
    if !write_greatest(bound, bytes)? {
        return to_byte(bound, key, at, byte);
    }
    if comes_before(key, bound.as_str()) {
        Ok(Step::Jump)
    } else {
        Ok(Step::Look)
    }
}

/// What is left of the request's chunk and what follows, from a place on: so many bytes at most, in
/// whole characters.
fn part_from(q: &str, place: usize, most: usize) -> &[u8]
    ensures { (n : ℕ) × (result.now ≡ take n (drop place q.now)) }
{
    let end = q.floor_char_boundary(place.saturating_add(most));
    if place < end {
        &q.as_bytes()[place..end]
    } else {
        &[]
    }
}

/// Whether the request's key goes on by a greater byte of a plain chunk, and no chunk `*` comes between.
fn goes_beyond(byte: u8, left: &[u8]) -> bool
    ensures { result ≡ true → (42 < byte) × (0 < length left.now) × (byte < slice_index left.now 0) × (is_run (slice_index left.now 0) ≡ true) }
{
    b'*' < byte && !left.is_empty() && byte < left[0] && is_run(left[0])
}

/// Writes the key's first bytes and the rest of the chunk by which the request's goes on, or of a longer
/// one the first characters: 32 bytes, and as many as the key's first, so that no step takes longer than
/// to find where they part, and few climb a long chunk. False says nothing.
fn after_chunk(
    bound: &mut String,
    bytes: &mut Vec<u8>,
    key: &[u8],
    q: &str,
    at: usize,
    place: usize,
) -> Result<bool, OutOfMemory>
    requires in_range { at < length key.now }
    requires leads { Leads key.now q.now at Mode.Chunk place }
    ensures { IfOk result (λ found. found ≡ true → SkipsUnmixed q.now key.now (string_bytes bound.new)) }
{
    let left = part_from(q, place, at.saturating_add(32));
    if !goes_beyond(key[at], left) {
        return Ok(false);
    }
    write_run(bytes, &key[..at], left)?;
    Ok(write_text(bound, bytes.as_slice())?)
}

/// Writes the bound.
fn set_bound(bound: &mut String, text: &str) -> Result<(), OutOfMemory>
    ensures { OnOk result (string_bytes bound.new ≡ text.now) }
{
    bound.clear();
    bound.push_str(text)?;
    Ok(())
}

/// The step, or that to a text, if it goes further.
fn farther(bound: &mut String, step: Step, text: &str) -> Result<Step, OutOfMemory>
    ensures { (lists : Lists) (q key : List ℕ) → StepIs lists q key (string_bytes bound.old) step → SkipsListed lists q key text.now → IfOk result (StepIs lists q key (string_bytes bound.new)) }
{
    match step {
        Step::End => Ok(Step::End),
        Step::Jump if comes_before(text, bound.as_str()) => Ok(Step::Jump),
        _ => {
            set_bound(bound, text)?;
            Ok(Step::Jump)
        }
    }
}

/// The step where the request's key goes on by a greater byte: to the bound behind a plain chunk; where a
/// mixed key comes before, to that or to the byte, whichever is further; to the byte, where the chunk is
/// not plain.
fn beyond(
    bound: &mut String,
    bytes: &mut Vec<u8>,
    lists: &KeyLists,
    key: &String,
    q: &str,
    parting: Parting,
    next: u8,
) -> Result<Step, OutOfMemory>
    requires fork { IsForkAt (string_bytes key.now) q.now parting.at parting.wanted }
    requires leads { Leads (string_bytes key.now) q.now parting.at Mode.Chunk parting.place }
    requires next { IsNext (slice_index (string_bytes key.now) parting.at) parting.wanted next }
    ensures { IfOk result (StepIs lists.now q.now (string_bytes key.now) (string_bytes bound.new)) }
{
    let text = key.as_str();
    if !after_chunk(bound, bytes, text.as_bytes(), q, parting.at, parting.place)? {
        return to_byte(bound, text, parting.at, next);
    }
    match lists.mixed_between(key, bound.as_str()) {
        Some(first) => {
            let step = to_character(bound, bytes, text, parting.at, next)?;
            farther(bound, step, first.as_str())
        }
        None => Ok(Step::Jump),
    }
}

/// The step where a key and the request's part.
fn step_from(
    bound: &mut String,
    bytes: &mut Vec<u8>,
    lists: &KeyLists,
    key: &String,
    q: &str,
    parting: Parting,
) -> Result<Step, OutOfMemory>
    requires fork { IsForkAt (string_bytes key.now) q.now parting.at parting.wanted }
    requires leads { Leads (string_bytes key.now) q.now parting.at Mode.Chunk parting.place }
    requires held { IsHeld (string_bytes key.now) q.now parting.held parting.at }
    requires within { parting.held ≤ parting.at }
    ensures { IfOk result (StepIs lists.now q.now (string_bytes key.now) (string_bytes bound.new)) }
{
    let text = key.as_str();
    match next_byte(text.as_bytes()[parting.at], parting.wanted) {
        Some(next) => beyond(bound, bytes, lists, key, q, parting, next),
        None => past(bound, text, parting.held, parting.at),
    }
}

/// The step at a key by where it and the request's part.
fn fork_step(
    bound: &mut String,
    bytes: &mut Vec<u8>,
    lists: &KeyLists,
    key: &String,
    q: &str,
) -> Result<Step, OutOfMemory>
    ensures { IfOk result (StepIs lists.now q.now (string_bytes key.now) (string_bytes bound.new)) }
{
    match fork(key.as_bytes(), q.as_bytes()) {
        Some(parting) => step_from(bound, bytes, lists, key, q, parting),
        None => Ok(Step::Look),
    }
}

/// The step at a key, or that to a text, if it goes further.
fn step_or(
    bound: &mut String,
    bytes: &mut Vec<u8>,
    lists: &KeyLists,
    key: &String,
    q: &str,
    text: &str,
) -> Result<Step, OutOfMemory>
    requires { SkipsListed lists.now q.now (string_bytes key.now) text.now }
    ensures { IfOk result (StepIs lists.now q.now (string_bytes key.now) (string_bytes bound.new)) }
{
    let step = fork_step(bound, bytes, lists, key, q)?;
    farther(bound, step, text)
}

/// The step at a plain key where the request's is plain: on to this one, or at least to the next key that
/// is not plain, if that comes first.
fn plain_step(
    bound: &mut String,
    bytes: &mut Vec<u8>,
    lists: &KeyLists,
    key: &String,
    q: &str,
) -> Result<Step, OutOfMemory>
    requires plain { is_plain q.now ≡ true }
    requires plain_key { is_plain (string_bytes key.now) ≡ true }
    ensures { IfOk result (StepIs lists.now q.now (string_bytes key.now) (string_bytes bound.new)) }
{
    match compare_texts(key.as_str(), q) {
        Ordering::Equal => Ok(Step::Look),
        Ordering::Less => match lists.wild_between(key, q) {
            Some(wild) => step_or(bound, bytes, lists, key, q, wild.as_str()),
            None => {
                set_bound(bound, q)?;
                Ok(Step::Jump)
            }
        },
        Ordering::Greater => match lists.wild_after(key) {
            Some(wild) => step_or(bound, bytes, lists, key, q, wild.as_str()),
            None => Ok(Step::End),
        },
    }
}

/// The step at a key. The bytes are room to write in.
pub fn next_step(
    bound: &mut String,
    bytes: &mut Vec<u8>,
    lists: &KeyLists,
    plain: bool,
    key: &String,
    q: &str,
) -> Result<Step, OutOfMemory>
    requires { plain ≡ is_plain q.now }
    ensures { IfOk result (StepIs lists.now q.now (string_bytes key.now) (string_bytes bound.new)) }
{
    if plain && is_plain(key.as_str()) {
        plain_step(bound, bytes, lists, key, q)
    } else {
        fork_step(bound, bytes, lists, key, q)
    }
}
