//! How two keys relate, by their chunks.

ghost use Rattle.std.specs.List.{position};
ghost use Rattle.std.specs.Prelude.{◌≡◌, ◌==◌, ◌+◌, take, drop, ℕ, length, ◌∷◌, [], ◌≤◌, ◌<◌, ◌&&◌, ◌||◌, true, false, None, Some, List, Option, MatchOption};
ghost use Rattle.zq_key.specs.Key.{chunks, chunk_meets, chunk_covers, is_verbatim as verbatim_of, is_stars as stars_of};
ghost use Rattle.zq_key.specs.Chunks.{chunks_left, free_left, verbatim_left, relates, lists_cover, lists_meet, lists_relate, keys_relate};
ghost use Rattle.zq_key.specs.Match.{covers_by, meets_by};
ghost use Rattle.zq_key.specs.Walk.{wild_covers, wild_takes, starts_wild, never, after_last, has_none, Stops, Advances, is_nil};

use crate::chunk::{chunks_meet, covers_chunk, is_stars, is_verbatim};
use crate::ends::ends_apart;
use crate::matching::{Cursor, covers, meets};

/// How two chunks are compared.
#[derive(Clone, Copy)]
pub enum Relation {
    /// By whether they meet, as for `intersects`.
    Meets,
    /// By whether the first covers the second, as for `includes`.
    Covers,
}

/// The index of the first `/` of a text.
fn first_slash(text: &[u8]) -> Option<usize>
    ensures { result ≡ position (λ c. c == 47) text.now }
{
    text.iter().position(|c| *c == b'/')
}

/// A text cut at its first `/`, or None where it has none.
#[tactic(auto, using(crate::proofs::Chunks::cuts))]
pub fn cut(text: &[u8]) -> Option<(&[u8], &[u8])>
    ensures { MatchOption result (chunks text.now ≡ text.now ∷ []) (λ r. (chunks text.now ≡ r.0.now ∷ chunks r.1.now) × (length r.1.now < length text.now)) }
{
    match first_slash(text) {
        Some(end) => Some((&text[..end], &text[end + 1..])),
        None => None,
    }
}

/// The first chunk of a text, and what follows its `/`.
#[tactic(auto, using(crate::proofs::Chunks::splits))]
fn next_chunk(text: &[u8]) -> (&[u8], &[u8])
    requires { 0 < length text.now }
    ensures split { chunks_left text.now ≡ result.0.now ∷ chunks_left result.1.now }
    ensures shorter { length result.1.now < length text.now }
{
    match cut(text) {
        Some(pieces) => pieces,
        None => (text, &text[text.len()..]),
    }
}

/// The first chunk and what follows it, where that isn't verbatim.
#[tactic(auto, using(crate::proofs::Chunks::free_steps))]
fn next_free(text: &[u8]) -> Option<(&[u8], &[u8])>
    ensures { MatchOption result ((free_left text.now ≡ []) × (verbatim_left text.now ≡ chunks_left text.now))
        (λ r. (free_left text.now ≡ r.0.now ∷ free_left r.1.now) × (length r.1.now < length text.now) × (verbatim_left text.now ≡ verbatim_left r.1.now)) }
{
    if text.is_empty() {
        return None;
    }
    let (chunk, rest) = next_chunk(text);
    if is_verbatim(chunk) {
        None
    } else {
        Some((chunk, rest))
    }
}

/// The chunks that are left before a verbatim one, which agree if they meet.
#[derive(Clone, Copy)]
struct MeetingChunks<'a>(&'a [u8]);

impl Cursor for MeetingChunks<'_> {
    ghost Part = { List ℕ };

    ghost left = { λ c. free_left c.0.now };

    ghost size = { λ c. length c.0.now };

    ghost wild = { stars_of };

    ghost agree = { chunk_meets };

    fn after_first(self) -> Option<Self> {
        match next_free(self.0) {
            Some((_, rest)) => Some(MeetingChunks(rest)),
            None => None,
        }
    }

    fn after_wild(self) -> Option<Self> {
        match next_free(self.0) {
            Some((chunk, rest)) if is_stars(chunk) => Some(MeetingChunks(rest)),
            _ => None,
        }
    }

    fn after_agreeing(self, other: Self) -> Option<(Self, Self)> {
        let (x, rest) = next_free(self.0)?;
        let (y, other_rest) = next_free(other.0)?;
        if is_stars(x) || is_stars(y) {
            return None;
        }
        if chunks_meet(x, y) {
            Some((MeetingChunks(rest), MeetingChunks(other_rest)))
        } else {
            None
        }
    }
}

/// Chunks that are left, which agree if the first covers the second.
#[derive(Clone, Copy)]
struct CoveringChunks<'a>(&'a [u8]);

impl Cursor for CoveringChunks<'_> {
    ghost Part = { List ℕ };

    ghost left = { λ c. free_left c.0.now };

    ghost size = { λ c. length c.0.now };

    ghost wild = { stars_of };

    ghost agree = { chunk_covers };

    fn after_first(self) -> Option<Self> {
        match next_free(self.0) {
            Some((_, rest)) => Some(CoveringChunks(rest)),
            None => None,
        }
    }

    fn after_wild(self) -> Option<Self> {
        match next_free(self.0) {
            Some((chunk, rest)) if is_stars(chunk) => Some(CoveringChunks(rest)),
            _ => None,
        }
    }

    fn after_agreeing(self, other: Self) -> Option<(Self, Self)> {
        let (x, rest) = next_free(self.0)?;
        let (y, other_rest) = next_free(other.0)?;
        if is_stars(x) || is_stars(y) {
            return None;
        }
        if covers_chunk(x, y) {
            Some((CoveringChunks(rest), CoveringChunks(other_rest)))
        } else {
            None
        }
    }
}

/// Whether two chunks are in the relation, neither of them `**`.
fn relate(relation: Relation, a: &[u8], b: &[u8]) -> bool
    ensures { result ≡ relates relation a.now b.now }
{
    match relation {
        Relation::Meets => chunks_meet(a, b),
        Relation::Covers => covers_chunk(a, b),
    }
}

/// What is left of a text from its first verbatim chunk on.
#[tactic(auto, using(crate::proofs::Chunks::free_steps))]
fn after_free(text: &[u8]) -> &[u8]
    ensures split { verbatim_left text.now ≡ chunks_left result.now }
    ensures shorter { length result.now ≤ length text.now }
{
    let mut rest = text;
    while let Some((_, after)) = next_free(rest) {
        rest = after;
    }
    rest
}

/// The first chunk of what is left of a key, and what follows it.
#[tactic(auto, using(crate::proofs::Chunks::ends))]
fn first_chunk(text: &[u8]) -> Option<(&[u8], &[u8])>
    ensures { MatchOption result (chunks_left text.now ≡ []) (λ r. (chunks_left text.now ≡ r.0.now ∷ chunks_left r.1.now) × (length r.1.now < length text.now)) }
{
    if text.is_empty() {
        None
    } else {
        Some(next_chunk(text))
    }
}

/// Whether two texts are in the relation, both up to a verbatim chunk.
#[tactic(auto, using(crate::proofs::Relations::swaps))]
fn fronts_relate(relation: Relation, a: &[u8], b: &[u8]) -> bool
    ensures { result ≡ lists_relate relation (free_left a.now) (free_left b.now) }
{
    match relation {
        Relation::Meets => meets(MeetingChunks(a), MeetingChunks(b)),
        Relation::Covers => covers(CoveringChunks(a), CoveringChunks(b)),
    }
}

/// Whether two keys are in the relation, by walks from their starts.
#[tactic(auto, using(crate::proofs::Related::rounds))]
fn chunks_relate(relation: Relation, a: &[u8], b: &[u8]) -> bool
    ensures { result ≡ keys_relate relation (chunks_left a.now) (chunks_left b.now) }
{
    let mut p = a;
    let mut q = b;
    loop {
        if !fronts_relate(relation, p, q) {
            return false;
        }
        let p_left = after_free(p);
        let q_left = after_free(q);
        match first_chunk(p_left) {
            None => match first_chunk(q_left) {
                None => return true,
                Some(_) => return false,
            },
            Some((x, p_rest)) => match first_chunk(q_left) {
                None => return false,
                Some((y, q_rest)) => {
                    if !relate(relation, x, y) {
                        return false;
                    }
                    p = p_rest;
                    q = q_rest;
                }
            },
        }
    }
}

/// Whether two keys are in the relation. Where their ends show that they aren't, nothing is walked.
#[tactic(auto, using(crate::proofs::Endings::apart))]
pub fn related(relation: Relation, a: &[u8], b: &[u8]) -> bool
    ensures { result ≡ keys_relate relation (chunks_left a.now) (chunks_left b.now) }
{
    !ends_apart(a, b) && chunks_relate(relation, a, b)
}
