//! Words of a line, and what they say.
ghost use Rattle.std.specs.Prelude.{◌≡◌, ◌<◌, ℕ, List, Option, IfOk, OnOk, map, length, ◌≤◌, ◌++◌, ◌∷◌, [], position, IfSome, ◌+◌};
ghost use Rattle.std.specs.Fmt.{decimal};
ghost use Rattle.std.specs.Option.{option_map};
ghost use Rattle.std.specs.Str.{bytes_eq};
ghost use Rattle.percent_encoding.specs.Percent.{percent_encode};
ghost use Rattle.zq_io.specs.Values.{most_128};
ghost use Rattle.std.specs.Result.{result_map_both};
ghost use Rattle.zq_io.specs.Words.{Reads, at_end, pieces, read_each, is_byte, len_to, cut, number_from, number, payload_of, payload_word, text_of, word_at, read_at, list_of, option_of, IsWord};

use crate::stop::Stop;
use itoa::{Buffer, Integer};
use percent_encoding::{AsciiSet, CONTROLS, ascii_set, percent_decode, percent_encode};
use std::alloc::{AllocError, Global};
use std::borrow::CowSlice;
use zq_message::items::Items;
use zq_message::memory::OutOfMemory;
use zq_message::text::{Bytes, Text};

/// The bytes that are escaped in a word, beside those above 126.
pub const ESCAPED: AsciiSet = ascii_set!(CONTROLS.add(b' ').add(b'%'));

/// Whether the word is this text.
pub fn is(word: &[u8], text: &str) -> bool
    ensures { result ≡ bytes_eq word.now text.now }
{
    word == text.as_bytes()
}

fn first_of(byte: u8, bytes: &[u8]) -> Option<usize>
    ensures { result ≡ position (is_byte byte) bytes.now }
{
    bytes.iter().position(|b| *b == byte)
}

/// How many bytes stand before the first such byte.
#[tactic(auto, using(crate::proofs::Known::position_none))]
pub fn len_to(byte: u8, bytes: &[u8]) -> usize
    ensures word { result ≡ len_to byte bytes.now }
    ensures within { result ≤ length bytes.now }
{
    match first_of(byte, bytes) {
        Some(at) => at,
        None => bytes.len(),
    }
}

/// What stands before and after the first such byte.
pub fn cut(byte: u8, bytes: &[u8]) -> Option<(&[u8], &[u8])>
    ensures value { option_map (λ t. (t.0.now, t.1.now)) result ≡ cut byte bytes.now }
    ensures shorter { IfSome result (λ t. length t.1.now < length bytes.now) }
{
    let (front, back) = bytes.split_at(len_to(byte, bytes));
    match back {
        [_, back @ ..] => Some((front, back)),
        [] => None,
    }
}

/// A space, a word that isn't empty, and what follows the word.
pub fn word_at(bytes: &[u8]) -> Option<(&[u8], &[u8])>
    ensures { option_map (λ t. (t.0.now, t.1.now)) result ≡ word_at bytes.now }
{
    match bytes {
        [b' ', rest @ ..] => {
            let len = len_to(b' ', rest);
            if len == 0 {
                return None;
            }
            Some(rest.split_at(len))
        }
        _ => None,
    }
}

fn number_from(most: u64, word: &[u8]) -> Option<u64>
    ensures value { result ≡ number_from most 0 word.now }
    ensures bound { IfSome result (λ n. n ≤ most) }
{
    let mut number: u64 = 0;
    'digits: for c in word {
        if !c.is_ascii_digit() {
            return None;
        }
        let digit = u64::from(*c - b'0');
        number = number.checked_mul(10)?.checked_add(digit)?;
        if number > most {
            return None;
        }
    }
    Some(number)
}

/// Decimal digits without a leading zero.
pub fn number(most: u64, word: &[u8]) -> Option<u64>
    ensures value { result ≡ number most word.now }
    ensures bound { IfSome result (λ n. n ≤ most) }
{
    match word {
        [] => None,
        [b'0', _, ..] => None,
        _ => number_from(most, word),
    }
}

fn wide_number_from(word: &[u8]) -> Option<u128>
    ensures { result ≡ number_from most_128 0 word.now }
{
    let mut number: u128 = 0;
    'digits: for c in word {
        if !c.is_ascii_digit() {
            return None;
        }
        let digit = u128::from(*c - b'0');
        number = number.checked_mul(10)?.checked_add(digit)?;
    }
    Some(number)
}

/// Decimal digits of a number of 128 bits, without a leading zero.
pub fn wide_number(word: &[u8]) -> Option<u128>
    ensures { result ≡ number most_128 word.now }
{
    match word {
        [b'0', _, ..] | [] => None,
        _ => wide_number_from(word),
    }
}

/// The bytes that a PAYLOAD word stands for, which a vector holds.
fn decoded(alloc: Global, word: &[u8]) -> Result<Vec<u8>, OutOfMemory>
    ensures { IfOk result (λ b. b.items ≡ payload_of word.now) }
{
    if is(word, "-") {
        return Ok(Vec::new(alloc));
    }
    match percent_decode(word).into_cow(alloc)? {
        CowSlice::Borrowed(bytes) => Ok(Vec::from_slice(alloc, bytes)?),
        CowSlice::Owned(bytes) => Ok(bytes),
    }
}

/// The bytes that a PAYLOAD word stands for.
pub fn read_word(alloc: Global, word: &[u8]) -> Result<Bytes, OutOfMemory>
    ensures { IfOk result (λ b. b ≡ payload_of word.now) }
{
    Ok(Bytes::from_vec(decoded(alloc, word)?))
}

/// Writes a text as it is.
pub fn push_text(out: &mut Vec<u8>, text: &str) -> Result<(), AllocError>
    ensures { OnOk result (out.new.items ≡ out.old.items ++ text.now) }
{
    out.extend_from_slice(text.as_bytes())
}

/// Writes a byte as it is.
pub fn push_byte(out: &mut Vec<u8>, byte: u8) -> Result<(), AllocError>
    ensures { OnOk result (out.new.items ≡ out.old.items ++ byte ∷ []) }
{
    match out.push(byte) {
        Ok(()) => Ok(()),
        Err(_) => Err(AllocError),
    }
}

/// Writes a number in decimal digits; one digit as a byte, since most numbers have one.
#[tactic(auto, using(std::proofs::lemmas::Fmt::decimal_digit))]
pub fn push_decimal(out: &mut Vec<u8>, number: u64) -> Result<(), AllocError>
    ensures { OnOk result (out.new.items ≡ out.old.items ++ decimal number) }
{
    if number < 10 {
        return push_byte(out, b'0' + number as u8);
    }
    push_number(out, number)
}

/// Writes a number in decimal digits.
pub fn push_number<N: Integer>(out: &mut Vec<u8>, number: N) -> Result<(), AllocError>
    ensures { OnOk result (out.new.items ≡ out.old.items ++ N.text number) }
{
    let mut buffer = Buffer::new();
    push_text(out, buffer.format(number))
}

/// Writes bytes, of which those are escaped that have to be.
fn push_escaped(out: &mut Vec<u8>, bytes: &[u8]) -> Result<(), AllocError>
    ensures { OnOk result (out.new.items ≡ out.old.items ++ percent_encode ESCAPED bytes.now) }
{
    'pieces: for piece in percent_encode(bytes, ESCAPED) {
        push_text(out, piece)?;
    }
    Ok(())
}

/// Writes the word of bytes.
pub fn push_word(out: &mut Vec<u8>, bytes: &[u8]) -> Result<(), AllocError>
    ensures { OnOk result (out.new.items ≡ out.old.items ++ payload_word bytes.now) }
{
    if bytes.is_empty() {
        return push_byte(out, b'-');
    }
    if is(bytes, "-") {
        return push_text(out, "%2D");
    }
    push_escaped(out, bytes)
}

/// The word of bytes: what `read_word` reads back.
#[tactic(auto, using(crate::proofs::Back::payload_back, crate::proofs::Back::payload_is_word))]
pub fn print_word(alloc: Global, bytes: &[u8]) -> Result<Bytes, OutOfMemory>
    ensures value { IfOk result (λ w. w ≡ payload_word bytes.now) }
    ensures word { IfOk result (λ w. IsWord w) }
    ensures back { IfOk result (λ w. payload_of w ≡ bytes.now) }
{
    let mut out = Vec::new(alloc);
    push_word(&mut out, bytes)?;
    Ok(Bytes::from_vec(out))
}

/// The text that a TEXT word stands for; refused where its bytes are no UTF-8.
#[tactic(auto, using(crate::proofs::Known::not_utf8, crate::proofs::Known::string_utf8))]
pub fn text_of(alloc: Global, word: &[u8]) -> Result<Text, Stop>
    ensures { Reads result (text_of word.now) }
{
    match String::from_utf8(decoded(alloc, word)?) {
        Ok(text) => Ok(Text::from_string(text)),
        Err(_) => Err(Stop::Bad),
    }
}

/// What one word can stand for.
pub trait Word {
    /// The type of what a word stands for, which mostly is the type that has the words.
    type Value: Drop;

    /// What a word stands for, if it does.
    ghost of: { List ℕ → Option Self.Value };

    /// Reads a whole word.
    fn read(alloc: Global, word: &[u8]) -> Result<Self::Value, Stop>
        ensures { Reads result (of word.now) };
}

/// A space, a word that stands for something, and what follows the word.
#[tactic(auto, unfolding(crate::specs::Words::read_at))]
pub fn read_at<T: Word>(alloc: Global, bytes: &[u8]) -> Result<(T::Value, &[u8]), Stop>
    ensures { Reads (result_map_both (λ t. (t.0, t.1.now)) (λ e. e) result) (read_at T.of bytes.now) }
{
    let (word, rest) = word_at(bytes).ok_or(Stop::Bad)?;
    Ok((T::read(alloc, word)?, rest))
}

/// Nothing follows.
pub fn at_end<X: Drop>(rest: &[u8], x: X) -> Result<X, Stop>
    ensures { Reads result (at_end rest.now x) }
{
    if rest.is_empty() {
        Ok(x)
    } else {
        Err(Stop::Bad)
    }
}

/// The pieces of a word, each of which stands for something.
#[tactic(auto, using(crate::proofs::Split::pieces_cut, crate::proofs::Split::pieces_whole, crate::proofs::Split::put_step))]
pub fn read_each<T: Word>(alloc: Global, byte: u8, word: &[u8]) -> Result<Items<T::Value>, Stop>
    ensures { Reads result (read_each T.of (pieces byte word.now)) }
{
    let mut items: Items<T::Value> = Items::new(alloc);
    let mut left = word;
    'pieces: while let Some((piece, rest)) = cut(byte, left) {
        items.push(T::read(alloc, piece)?)?;
        left = rest;
    }
    items.push(T::read(alloc, left)?)?;
    Ok(items)
}

/// A list joined by a byte, or a dash for the empty one.
pub fn list_of<T: Word>(alloc: Global, byte: u8, word: &[u8]) -> Result<Items<T::Value>, Stop>
    ensures { Reads result (list_of byte T.of word.now) }
{
    if is(word, "-") {
        return Ok(Items::new(alloc));
    }
    read_each::<T>(alloc, byte, word)
}
