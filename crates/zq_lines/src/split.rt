//! The lines that bytes are.
ghost use Rattle.std.specs.Prelude.{◌≡◌, ◌<◌, ◌∷◌, [], IfSome, MatchOption, length};
ghost use Rattle.zq_lines.specs.Split.{lines_of};

use zq_io::words::cut;

/// The first line, and what follows it.
#[tactic(auto, using(crate::proofs::Splitting::lines_cut, crate::proofs::Splitting::lines_last))]
pub fn next_line(bytes: &[u8]) -> Option<(&[u8], &[u8])>
    ensures value { MatchOption result (lines_of bytes.now ≡ []) (λ t. lines_of bytes.now ≡ t.0.now ∷ lines_of t.1.now) }
    ensures shorter { IfSome result (λ t. length t.1.now < length bytes.now) }
{
    if bytes.is_empty() {
        return None;
    }
    match cut(b'\n', bytes) {
        Some((line, rest)) => Some((line, rest)),
        None => Some(bytes.split_at(bytes.len())),
    }
}
