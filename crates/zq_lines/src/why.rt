//! Why a line is bad, as a sentence.
ghost use Rattle.std.specs.Prelude.{◌≡◌, ◌++◌, IfOk, OnOk};
ghost use Rattle.std.specs.Option.{option_map};
ghost use Rattle.zq_lines.specs.Near.{nearest};
ghost use Rattle.zq_lines.specs.Why.{call_reason, count_words, first_wrong, fits_count, form_words, has_words, meant_words, name_reason, number_words, printed, quoted, reason, unknown_words, wanted, words_of, wrong_words};

use crate::foreign::{WORKER, foreign};
use crate::form::{Span, form_at, span_of, tail_of};
use crate::kind::{Kind, expected, is_kind};
use crate::near::nearest;
use percent_encoding::{CONTROLS, percent_encode};
use std::alloc::{AllocError, Global};
use zq_io::words::{is, len_to, push_number, push_text, word_at};
use zq_message::memory::OutOfMemory;
use zq_message::text::Bytes;

/// What is said of a first line.
pub const CONFIG: &str =
    "the first line is `config`, an id, a timeout and the regions: one is north, none stands twice, and the ids of the South are at most 255";

/// What is said of a line `start` that is well formed: it stands at another place.
pub const START: &str = "`start` stands directly behind `config`, and nowhere else";

/// What is said of a line `best` that is well formed: it stands at another place.
pub const BEST: &str =
    "`best` stands once, directly behind `start`, or behind `config` where no `start` stands";

/// What is said of a line `sent` that is well formed: it is bad where workers share a gateway.
pub const SENT: &str =
    "`sent` stands in no script for `share`: the gateway itself reports what was sent";

/// What is said of a reply whose first words are as they should be.
pub const REPLY: &str =
    "behind its payload `reply` has one word at most: `by:` and an id below 2^128";

/// What is said of a mark whose first words are as they should be.
pub const FINALIZE: &str =
    "`finalize F` goes on with `initial` or with `key TEXT`, and ends with `1` or `0`";

/// What is said of a line `gateways` of a region.
pub const GATEWAYS: &str =
    "`gateways REGION` goes on with entries `Z=LIST` joined by `;`, or `-`, and ends with a list of ids, or `none`";

/// What is said of a line `network` of a region.
pub const NETWORK: &str =
    "`network REGION NODES` goes on with trees CHILDREN/DIRECTIONS joined by `;`, numbers joined by `,` in both, and ends with distances below 2^16 joined by `,`";

/// What is said of a call each of whose words is as it should be.
pub const FORM: &str = "the gateway takes no such call";

/// What is said of an empty word.
pub const EMPTY: &str = "a word is empty: one space stands between two words";

/// How many words stand behind the name of a line.
fn words_behind(rest: &[u8]) -> usize
    ensures { result ≡ words_of rest.now }
{
    rest.iter().filter(|b| **b == b' ').count()
}

/// Whether a call can have so many words behind its name.
fn fits_count(all: usize, span: Span, count: usize) -> bool
    ensures { result ≡ fits_count all span count }
{
    match span {
        Span::Exact => all == count,
        Span::Less => all == count || (all > 0 && all - 1 == count),
        Span::More => all <= count,
    }
}

/// The first word that is not what is expected at its place, if there is one.
fn first_wrong<'a>(
    alloc: Global,
    kinds: &[Kind],
    rest: &'a [u8],
) -> Result<Option<(Kind, &'a [u8])>, OutOfMemory>
    ensures { IfOk result (λ o. option_map (λ t. (t.0, t.1.now)) o ≡ first_wrong kinds.now rest.now) }
{
    let mut left = rest;
    'kinds: for kind in kinds {
        let Some((word, after)) = word_at(left) else {
            return Ok(Some((*kind, &[])));
        };
        if !is_kind(alloc, *kind, word)? {
            return Ok(Some((*kind, word)));
        }
        left = after;
    }
    Ok(None)
}

/// Writes bytes as printed text on one line: control bytes and those above 126 as `%` and two
/// hexadecimal digits.
fn push_printed(out: &mut Vec<u8>, bytes: &[u8]) -> Result<(), AllocError>
    ensures { OnOk result (out.new.items ≡ out.old.items ++ printed bytes.now) }
{
    'pieces: for piece in percent_encode(bytes, CONTROLS) {
        push_text(out, piece)?;
    }
    Ok(())
}

/// Writes bytes between two marks.
#[tactic(auto, unfolding(crate::specs::Why::quoted))]
fn push_quoted(out: &mut Vec<u8>, bytes: &[u8]) -> Result<(), AllocError>
    ensures { OnOk result (out.new.items ≡ out.old.items ++ quoted bytes.now) }
{
    push_text(out, "`")?;
    push_printed(out, bytes)?;
    push_text(out, "`")
}

/// Writes the name that was meant, if one is near.
fn push_meant(alloc: Global, out: &mut Vec<u8>, name: &[u8]) -> Result<(), AllocError>
    ensures { OnOk result (out.new.items ≡ out.old.items ++ meant_words (nearest name.now)) }
{
    let Some(meant) = nearest(alloc, name)? else {
        return Ok(());
    };
    push_text(out, "; is `")?;
    push_text(out, meant)?;
    push_text(out, "` meant?")
}

/// A name that is that of no call.
fn unknown(alloc: Global, name: &[u8]) -> Result<Bytes, OutOfMemory>
    ensures { IfOk result (λ b. b ≡ unknown_words name.now) }
{
    let mut out = Vec::new(alloc);
    push_quoted(&mut out, name)?;
    push_text(&mut out, " is no call")?;
    push_meant(alloc, &mut out, name)?;
    Ok(Bytes::from_vec(out))
}

/// Writes how many words a call has, its name among them.
#[tactic(auto, unfolding(crate::specs::Why::number_words))]
fn push_count(out: &mut Vec<u8>, all: usize, span: Span) -> Result<(), AllocError>
    ensures { OnOk result (out.new.items ≡ out.old.items ++ number_words all span) }
{
    match span {
        Span::Exact => push_number(out, all as u128 + 1),
        Span::Less => {
            push_number(out, all as u128)?;
            push_text(out, " or ")?;
            push_number(out, all as u128 + 1)
        }
        Span::More => {
            push_number(out, all as u128 + 1)?;
            push_text(out, " or more")
        }
    }
}

/// Writes how many words a call has.
#[tactic(auto, unfolding(crate::specs::Why::has_words))]
fn push_has(out: &mut Vec<u8>, name: &[u8], all: usize, span: Span) -> Result<(), AllocError>
    ensures { OnOk result (out.new.items ≡ out.old.items ++ has_words name.now all span) }
{
    push_quoted(out, name)?;
    push_text(out, " has ")?;
    push_count(out, all, span)
}

/// How many words a call has, and how many stand there.
fn counts(
    alloc: Global,
    name: &[u8],
    all: usize,
    span: Span,
    count: usize,
) -> Result<Bytes, OutOfMemory>
    ensures { IfOk result (λ b. b ≡ count_words name.now all span count) }
{
    let mut out = Vec::new(alloc);
    push_has(&mut out, name, all, span)?;
    push_text(&mut out, " words, this has ")?;
    push_number(&mut out, count as u128 + 1)?;
    Ok(Bytes::from_vec(out))
}

/// A word that is not what is expected at its place.
fn wrong(alloc: Global, kind: Kind, word: &[u8]) -> Result<Bytes, OutOfMemory>
    ensures { IfOk result (λ b. b ≡ wrong_words kind word.now) }
{
    if word.is_empty() {
        return Ok(Bytes::new(alloc, EMPTY.as_bytes())?);
    }
    let mut out = Vec::new(alloc);
    push_quoted(&mut out, word)?;
    push_text(&mut out, " is ")?;
    push_text(&mut out, expected(kind))?;
    Ok(Bytes::from_vec(out))
}

/// What is said of a call whose words are as expected, as far as each is looked at alone.
fn form_words(name: &[u8]) -> &'static str
    ensures { result.now ≡ form_words name.now }
{
    if is(name, "config") {
        CONFIG
    } else if is(name, "start") {
        START
    } else if is(name, "best") {
        BEST
    } else if is(name, "sent") {
        SENT
    } else if is(name, "reply") {
        REPLY
    } else if is(name, "finalize") {
        FINALIZE
    } else if is(name, "gateways") {
        GATEWAYS
    } else if is(name, "network") {
        NETWORK
    } else {
        FORM
    }
}

/// What is expected of each of so many words behind a name.
fn wanted(
    alloc: Global,
    name: &[u8],
    kinds: &[Kind],
    count: usize,
) -> Result<Vec<Kind>, OutOfMemory>
    ensures { IfOk result (λ v. v.items ≡ wanted name.now kinds.now count) }
{
    let mut all = Vec::new(alloc);
    all.extend_from_slice(kinds)?;
    all.resize(count, tail_of(name))?;
    Ok(all)
}

/// What is wrong with the words of a call behind its name.
fn why_call(alloc: Global, name: &[u8], kinds: &[Kind], rest: &[u8]) -> Result<Bytes, OutOfMemory>
    ensures { IfOk result (λ b. b ≡ call_reason name.now rest.now kinds.now) }
{
    let count = words_behind(rest);
    let span = span_of(name);
    if !fits_count(kinds.len(), span, count) {
        return counts(alloc, name, kinds.len(), span, count);
    }
    let kinds = wanted(alloc, name, kinds, count)?;
    match first_wrong(alloc, kinds.as_slice(), rest)? {
        Some((kind, word)) => wrong(alloc, kind, word),
        None => Ok(Bytes::new(alloc, form_words(name).as_bytes())?),
    }
}

/// What is wrong with a line of a number, by its name and the words behind it.
fn why_name(alloc: Global, number: u64, name: &[u8], rest: &[u8]) -> Result<Bytes, OutOfMemory>
    ensures { IfOk result (λ b. b ≡ name_reason number name.now rest.now) }
{
    if number == 1 && !is(name, "config") {
        return Ok(Bytes::new(alloc, CONFIG.as_bytes())?);
    }
    if is(name, "worker") {
        return Ok(Bytes::new(alloc, WORKER.as_bytes())?);
    }
    match form_at(number, name) {
        Some(kinds) => why_call(alloc, name, kinds, rest),
        None => unknown(alloc, name),
    }
}

/// Why a line of a number is bad, of a line that is: it has what is no part of the format, its name is
/// that of no call, it has too few words or too many, or one of them is not what is expected at its
/// place. The sentence is printed text on one line, whatever the words are that it names.
pub fn why(alloc: Global, number: u64, line: &[u8]) -> Result<Bytes, OutOfMemory>
    ensures { IfOk result (λ b. b ≡ reason number line.now) }
{
    if let Some(said) = foreign(line) {
        return Ok(Bytes::new(alloc, said.as_bytes())?);
    }
    let (name, rest) = line.split_at(len_to(b' ', line));
    why_name(alloc, number, name, rest)
}
