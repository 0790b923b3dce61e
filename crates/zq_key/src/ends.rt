//! Where the last bytes of two texts already show that they are apart.
ghost use Rattle.std.specs.Prelude.{◌≡◌};
ghost use Rattle.zq_key.specs.Ends.{ends_differ};

/// Whether two texts end alike up to two bytes that differ and aren't `/`, with no `*` from there on.
#[tactic(auto, using(crate::proofs::Endings::steps))]
pub fn ends_apart(a: &[u8], b: &[u8]) -> bool
    ensures { result ≡ ends_differ a.now b.now }
{
    let mut i = a.len();
    let mut j = b.len();
    while i > 0 && j > 0 {
        i -= 1;
        j -= 1;
        let x = a[i];
        let y = b[j];
        if x == b'*' || y == b'*' {
            return false;
        }
        if x != y {
            return x != b'/' && y != b'/';
        }
    }
    false
}
