//! How two chunks relate, by the parts that they are made of: characters, and `$*` for any run of them.

ghost use Rattle.std.specs.Prelude.{◌≡◌, ℕ, length, ◌∷◌, ◌<◌, is_none, Option};
ghost use Rattle.zq_key.specs.Key.{parts, parts_meet, parts_cover, same_part, chunk_meets, chunk_covers, is_verbatim as verbatim_of, is_star as star_of, is_stars as stars_of};

use crate::matching::{Cursor, covers, meets};

/// The first part of a chunk, and what follows it.
pub fn next_part(text: &[u8]) -> (Option<u8>, &[u8])
    requires { 0 < length text.now }
    ensures split { parts text.now ≡ result.0 ∷ parts result.1.now }
    ensures shorter { length result.1.now < length text.now }
{
    if text.len() > 1 && text[0] == b'$' && text[1] == b'*' {
        (None, &text[2..])
    } else {
        (Some(text[0]), &text[1..])
    }
}

/// The parts of a chunk that are left.
#[derive(Clone, Copy)]
pub struct Parts<'a>(&'a [u8]);

impl Cursor for Parts<'_> {
    ghost Part = { Option ℕ };

    ghost left = { λ p. parts p.0.now };

    ghost size = { λ p. length p.0.now };

    ghost wild = { λ x. is_none x };

    ghost agree = { same_part };

    fn after_first(self) -> Option<Self> {
        if self.0.is_empty() {
            return None;
        }
        let (_, rest) = next_part(self.0);
        Some(Parts(rest))
    }

    fn after_wild(self) -> Option<Self> {
        if self.0.is_empty() {
            return None;
        }
        match next_part(self.0) {
            (None, rest) => Some(Parts(rest)),
            (Some(_), _) => None,
        }
    }

    fn after_agreeing(self, other: Self) -> Option<(Self, Self)> {
        if self.0.is_empty() || other.0.is_empty() {
            return None;
        }
        let (x, rest) = next_part(self.0);
        let (y, other_rest) = next_part(other.0);
        match (x, y) {
            (Some(c), Some(d)) if c == d => Some((Parts(rest), Parts(other_rest))),
            _ => None,
        }
    }
}

/// Whether two chunks meet, neither of them `**`.
#[tactic(auto, using(crate::proofs::Parts::swaps), unfolding(crate::specs::Key::chunk_meets))]
pub fn chunks_meet(a: &[u8], b: &[u8]) -> bool
    ensures { result ≡ chunk_meets a.now b.now }
{
    if is_verbatim(a) || is_verbatim(b) {
        return a == b;
    }
    is_star(a) || is_star(b) || meets(Parts(a), Parts(b))
}

/// Whether chunk a covers chunk b, neither of them `**`.
#[tactic(auto, unfolding(crate::specs::Key::chunk_covers))]
pub fn covers_chunk(a: &[u8], b: &[u8]) -> bool
    ensures { result ≡ chunk_covers a.now b.now }
{
    if is_verbatim(a) || is_verbatim(b) {
        return a == b;
    }
    is_star(a) || (!is_star(b) && covers(Parts(a), Parts(b)))
}

/// Whether a chunk begins with `@`.
pub fn is_verbatim(chunk: &[u8]) -> bool
    ensures { result ≡ verbatim_of chunk.now }
{
    !chunk.is_empty() && chunk[0] == b'@'
}

/// Whether a chunk is `*`.
pub fn is_star(chunk: &[u8]) -> bool
    ensures { result ≡ star_of chunk.now }
{
    chunk == b"*".as_slice()
}

/// Whether a chunk is `**`.
pub fn is_stars(chunk: &[u8]) -> bool
    ensures { result ≡ stars_of chunk.now }
{
    chunk == b"**".as_slice()
}
