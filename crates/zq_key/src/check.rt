//! Which texts are keys, and which keys are plain.

ghost use Rattle.std.specs.Prelude.{◌≡◌, ◌==◌, ◌&&◌, ◌||◌, not, ℕ, length, Option, None, Some};
ghost use Rattle.std.specs.List.{list_all, list_any};
ghost use Rattle.zq_key.specs.Key.{parts, part_fits, runs_apart, is_chunk as chunk_of, is_key as key_of, is_plain as plain_of, is_plain_chunk as plain_chunk_of, chunks};
ghost use Rattle.zq_key.specs.Checks.{parts_fit as parts_fit_of, chunk_fits as chunk_fits_of, chunks_fit as chunks_fit_of};

use crate::chunk::{is_star, is_stars, is_verbatim, next_part};
use crate::key::cut;

/// Whether a chunk has no character that it may not have, and no two `$*` side by side.
#[tactic(auto, using(crate::proofs::Checks::part_checks))]
fn parts_fit(chunk: &[u8]) -> bool
    ensures { result ≡ (list_all part_fits (parts chunk.now) && runs_apart (parts chunk.now)) }
{
    let mut rest = chunk;
    let mut after_run = false;
    while !rest.is_empty() {
        match next_part(rest) {
            (None, after) => {
                if after_run {
                    return false;
                }
                after_run = true;
                rest = after;
            }
            (Some(c), after) => {
                if c == b'#' || c == b'?' || c == b'*' || c == b'$' {
                    return false;
                }
                after_run = false;
                rest = after;
            }
        }
    }
    true
}

/// Whether a text without `/` may stand as a chunk.
#[tactic(auto, unfolding(crate::specs::Key::is_chunk))]
fn is_chunk(chunk: &[u8]) -> bool
    ensures { result ≡ chunk_of chunk.now }
{
    if chunk.is_empty() {
        return false;
    }
    is_star(chunk) || is_stars(chunk) || (chunk != b"$*".as_slice() && parts_fit(chunk))
}

/// Whether a chunk fits, after `**` or not.
fn chunk_fits(after_stars: bool, chunk: &[u8]) -> bool
    ensures { result ≡ chunk_fits_of after_stars chunk.now }
{
    is_chunk(chunk) && !(after_stars && (is_stars(chunk) || is_star(chunk)))
}

/// Whether a text is a key.
#[tactic(auto, using(crate::proofs::Checks::chunk_checks))]
pub fn is_key(text: &str) -> bool
    ensures { result ≡ key_of text.now }
{
    let mut rest = text.as_bytes();
    let mut after_stars = false;
    loop {
        match cut(rest) {
            None => return chunk_fits(after_stars, rest),
            Some((chunk, after)) => {
                if !chunk_fits(after_stars, chunk) {
                    return false;
                }
                after_stars = is_stars(chunk);
                rest = after;
            }
        }
    }
}

/// Whether a chunk has a `*` or a `$`.
fn has_wild_character(chunk: &[u8]) -> bool
    ensures { result ≡ list_any (λ c. c == 42 || c == 36) chunk.now }
{
    chunk.iter().any(|c| *c == b'*' || *c == b'$')
}

/// Whether a chunk is neither wild in part nor verbatim.
fn is_plain_chunk(chunk: &[u8]) -> bool
    ensures { result ≡ plain_chunk_of chunk.now }
{
    !is_verbatim(chunk) && !has_wild_character(chunk)
}

/// Whether each chunk of a text is plain.
#[tactic(auto, using(crate::proofs::Checks::plain_checks))]
fn has_plain_chunks(text: &[u8]) -> bool
    ensures { result ≡ list_all plain_chunk_of (chunks text.now) }
{
    let mut rest = text;
    loop {
        match cut(rest) {
            None => return is_plain_chunk(rest),
            Some((chunk, after)) => {
                if !is_plain_chunk(chunk) {
                    return false;
                }
                rest = after;
            }
        }
    }
}

/// Whether a text is a key that is neither wild in part nor has a verbatim chunk.
#[tactic(auto, unfolding(crate::specs::Key::is_plain))]
pub fn is_plain(text: &str) -> bool
    ensures { result ≡ plain_of text.now }
{
    is_key(text) && has_plain_chunks(text.as_bytes())
}
