//! Texts behind a namespace.
ghost use Rattle.std.specs.Prelude.{◌≡◌, ◌==◌, ◌<◌, ◌++◌, ◌∷◌, [], true, length, IsTrue, IfOk, IfSome, Option, MatchOption};
ghost use Rattle.std.specs.Option.{option_map};
ghost use Rattle.std.specs.List.{position};
ghost use Rattle.zq_key.specs.Key.{chunks, includes as includes_of, is_key as key_of, is_plain as plain_of};
ghost use Rattle.zq_key.specs.Space.{behind, prefixed, is_slash, strip as strip_of, first_chunk as first_chunk_of};

use crate::chunk::{chunks_meet, is_stars};
use crate::key::cut;
use std::alloc::Global;
use zq_message::memory::OutOfMemory;
use zq_message::text::Text;

/// The place of the first `/`.
fn slash(text: &[u8]) -> Option<usize>
    ensures { result ≡ position is_slash text.now }
{
    text.iter().position(|c| *c == b'/')
}

/// The first character of a text with all up to the next `/`, and what follows.
#[tactic(auto, using(crate::proofs::Strips::firsts))]
pub fn split_first_chunk(text: &str) -> Option<(&str, &str)>
    ensures { option_map (λ r. (r.0.now, r.1.now)) result ≡ first_chunk_of text.now }
{
    if text.is_empty() {
        return None;
    }
    match slash(&text.as_bytes()[1..]) {
        Some(at) => Some(text.split_at(at + 1)),
        None => Some((text, "")),
    }
}

/// A text behind a namespace.
fn put_behind(alloc: Global, ns: &str, text: &str) -> Result<Text, OutOfMemory>
    ensures { IfOk result (λ t. t ≡ prefixed ns.now text.now) }
{
    if text.is_empty() {
        return Text::new(alloc, ns);
    }
    Text::joined(alloc, ns, "/", text)
}

/// A text behind a namespace, from which `strip` gives it back.
#[tactic(auto, using(crate::proofs::Behind::back_again))]
pub fn prefix(alloc: Global, ns: &str, text: &str) -> Result<Text, OutOfMemory>
    ensures text { IfOk result (λ t. t ≡ prefixed ns.now text.now) }
    ensures back { plain_of ns.now ≡ true → 0 < length text.now → IfOk result (λ t. strip_of ns.now t ≡ Some text.now) }
{
    put_behind(alloc, ns, text)
}

/// A text cut at its first `/`, or None where it has none.
fn cut_text(text: &str) -> Option<(&str, &str)>
    ensures { MatchOption result (chunks text.now ≡ text.now ∷ []) (λ r. (chunks text.now ≡ r.0.now ∷ chunks r.1.now) × (length r.1.now < length text.now)) }
{
    text.split_once('/')
}

/// What is left of a key behind a namespace, by the recursion on their chunks.
#[tactic(auto, using(crate::proofs::Strips::strips))]
fn strip_by_chunks<'a>(ns: &str, key: &'a str) -> Option<&'a str>
    ensures { option_map (λ r. r.now) result ≡ strip_of ns.now key.now }
{
    let mut head = ns.as_bytes();
    let mut rest = key;
    'chunks: loop {
        match cut_text(rest) {
            None => {
                if is_stars(rest.as_bytes()) {
                    return Some(rest);
                }
                return None;
            }
            Some((chunk, after)) => {
                if is_stars(chunk.as_bytes()) {
                    return Some(rest);
                }
                match cut(head) {
                    None => {
                        if chunks_meet(head, chunk.as_bytes()) {
                            return Some(after);
                        }
                        return None;
                    }
                    Some((x, head_rest)) => {
                        if !chunks_meet(x, chunk.as_bytes()) {
                            return None;
                        }
                        head = head_rest;
                        rest = after;
                    }
                }
            }
        }
    }
}

/// What is left of a key behind a namespace (upstream's `strip_nonwild_prefix`), None where nothing
/// is: a key that, put behind the namespace again, is within the key. Of a plain key it is all that
/// follows the namespace. It takes no memory.
pub fn strip<'a>(ns: &str, key: &'a str) -> Option<&'a str>
    requires plain { IsTrue (plain_of ns.now) }
    requires key { IsTrue (key_of key.now) }
    ensures left { option_map (λ r. r.now) result ≡ strip_of ns.now key.now }
    ensures key { IfSome result (λ r. key_of r.now ≡ true) }
    ensures within { IfSome result (λ r. includes_of key.now (behind ns.now r.now) ≡ true) }
    ensures whole { plain_of key.now ≡ true → IfSome result (λ r. key.now ≡ behind ns.now r.now) }
{
    strip_by_chunks(ns, key)
}
