//! Where a text and a request's key part, chunk by chunk.
//!
//! Where one of two chunks is wild, both are passed over as if they met: then nothing is taken for dead that may meet the key.
ghost use Rattle.std.specs.Prelude.{◌≡◌, ◌≢◌, ◌==◌, ◌+◌, ◌<◌, ◌≤◌, false, true, length, drop, None, Some, IfSome, MatchOption};
ghost use Rattle.std.specs.List.{position};
ghost use Rattle.zq_key.specs.Key.{chunks};
ghost use Rattle.zq_key.specs.Apart.{is_wild};
ghost use Rattle.zq_index.specs.Forks.{chunks_from, EndsAbove, GoesOn, IsForkAt, IsHeld, IsLast, IsNext, Leads, Parts, PassesOver};

use zq_key::pruning::may_be_wild;

/// How a text goes on beside a key.
#[derive(Clone, Copy, PartialEq, Eq)]
pub enum Mode {
    /// Byte by byte.
    Chunk,
    /// Its chunk, a `*`, ends here.
    Star,
    /// Up to the end of its chunk.
    Free,
}

/// Where a text and a key part: the place in the text, that in the key, the byte with which the key
/// goes on there, and the place of the text from which on none that goes on by a greater byte meets the
/// key.
#[derive(Clone, Copy)]
pub struct Parting {
    /// The place in the text of the byte by which it parts.
    pub at: usize,
    /// The place in the key at which it goes on there.
    pub place: usize,
    /// The byte with which the key goes on there.
    pub wanted: u8,
    /// The first place of the text from which on a greater byte leads to no match, at most `at`.
    pub held: usize,
}

/// The place of the first `/` of a text.
fn first_slash(text: &[u8]) -> Option<usize>
    ensures { result ≡ position (λ c. c == 47) text.now }
{
    text.iter().position(|c| *c == b'/')
}

/// The place after the first chunk from a place on, which must not be `**`, and the `/` that ends it.
fn pass_chunk(q: &[u8], j: usize) -> Option<usize>
    requires { j ≤ length q.now }
    ensures { IfSome result (PassesOver q.now j) }
{
    let left = &q[j..];
    if left.starts_with(b"**") {
        return None;
    }
    match first_slash(left) {
        Some(end) => Some(j + end + 1),
        None => Some(q.len() + 1),
    }
}

/// How the text goes on after a chunk's first byte, where the key's chunk is passed over.
fn pass(q: &[u8], j: usize, byte: u8) -> Option<(Mode, usize)>
    requires { j ≤ length q.now }
    ensures { IfSome result (λ r. GoesOn Mode.Chunk (chunks_from q.now j) byte r.0 (chunks_from q.now r.1)) }
{
    let next = pass_chunk(q, j)?;
    let mode = if byte == b'*' {
        Mode::Star
    } else if byte == b'/' {
        Mode::Chunk
    } else {
        Mode::Free
    };
    Some((mode, next))
}

/// How the text goes on by a byte that is compared.
fn compare(q: &[u8], j: usize, byte: u8) -> Option<(Mode, usize)>
    ensures { IfSome result (λ r. GoesOn Mode.Chunk (chunks_from q.now j) byte r.0 (chunks_from q.now r.1)) }
{
    if j > q.len() {
        return None;
    }
    if j == q.len() {
        return if byte == b'/' {
            Some((Mode::Chunk, j + 1))
        } else {
            None
        };
    }
    if may_be_wild(byte) || may_be_wild(q[j]) {
        return pass(q, j, byte);
    }
    if byte == q[j] {
        Some((Mode::Chunk, j + 1))
    } else {
        None
    }
}

/// How the text goes on by a byte.
fn go_on(q: &[u8], mode: Mode, j: usize, byte: u8) -> Option<(Mode, usize)>
    ensures { IfSome result (λ r. GoesOn mode (chunks_from q.now j) byte r.0 (chunks_from q.now r.1)) }
{
    match mode {
        Mode::Chunk => compare(q, j, byte),
        Mode::Star if byte != b'/' => None,
        Mode::Free if byte != b'/' => Some((Mode::Free, j)),
        _ => Some((Mode::Chunk, j)),
    }
}

/// The byte with which the key goes on, where a text that goes on by the given one and any that goes
/// on by yet another, not wild, is dead.
fn wanted(q: &[u8], mode: Mode, j: usize, byte: u8) -> Option<u8>
    ensures parts { IfSome result (λ want. (is_wild byte ≡ false) × (byte ≢ want) × Parts mode (chunks_from q.now j) want) }
    ensures chunk { IfSome result (λ want. mode ≡ Mode.Chunk) }
{
    if mode != Mode::Chunk || may_be_wild(byte) {
        return None;
    }
    let want = if j > q.len() {
        b'*'
    } else if j == q.len() {
        b'/'
    } else {
        q[j]
    };
    if byte == want || j < q.len() && may_be_wild(want) {
        return None;
    }
    Some(want)
}

/// Whether the key goes on by the byte, and whatever goes on by a greater one is dead.
#[tactic(auto, using(crate::proofs::ForkLemmas::byte_ends))]
fn is_held(q: &[u8], mode: Mode, j: usize, byte: u8) -> bool
    ensures { result ≡ true → EndsAbove mode (chunks_from q.now j) byte }
{
    mode == Mode::Chunk && byte > b'*' && j < q.len() && q[j] == byte
}

/// Where the text and the key part. None says nothing.
pub fn fork(text: &[u8], q: &[u8]) -> Option<Parting>
    ensures fork { IfSome result (λ f. IsForkAt text.now q.now f.at f.wanted) }
    ensures leads { IfSome result (λ f. Leads text.now q.now f.at Mode.Chunk f.place) }
    ensures held { IfSome result (λ f. IsHeld text.now q.now f.held f.at) }
    ensures within { IfSome result (λ f. f.held ≤ f.at) }
{
    let mut mode = Mode::Chunk;
    let mut j = 0;
    let mut held = 0;
    for at in 0..text.len() {
        let byte = text[at];
        match go_on(q, mode, j, byte) {
            Some((next, place)) => {
                held = if is_held(q, mode, j, byte) {
                    held
                } else {
                    at + 1
                };
                mode = next;
                j = place;
            }
            None => {
                return match wanted(q, mode, j, byte) {
                    Some(wanted) => Some(Parting {
                        at,
                        place: j,
                        wanted,
                        held,
                    }),
                    None => None,
                };
            }
        }
    }
    None
}

/// The least wild byte after the given one.
fn next_wild(byte: u8) -> Option<u8>
    requires { is_wild byte ≡ false }
    ensures { MatchOption result (IsLast byte 42) (IsNext byte 42) }
{
    if byte < b'$' {
        Some(b'$')
    } else if byte < b'*' {
        Some(b'*')
    } else {
        None
    }
}

/// The least byte after the given one by which a key may go on: wild, or the wanted one.
pub fn next_byte(byte: u8, want: u8) -> Option<u8>
    requires wild { is_wild byte ≡ false }
    requires other { byte ≢ want }
    ensures { MatchOption result (IsLast byte want) (IsNext byte want) }
{
    let wild = next_wild(byte);
    if want < byte {
        return wild;
    }
    match wild {
        Some(next) if next < want => Some(next),
        _ => Some(want),
    }
}
