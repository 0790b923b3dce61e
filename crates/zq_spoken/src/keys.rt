//! How two texts relate as keys.
ghost use Rattle.std.specs.Prelude.{◌≡◌};
ghost use Rattle.std.specs.Option.{option_map};
ghost use Rattle.zq_spoken.specs.Keys.{including, key_in, meeting};

use zq_key::{includes, intersects, is_key};

/// The text that the bytes are, where it is a key.
#[tactic(auto, using(crate::proofs::KeyTexts::key_is, crate::proofs::KeyTexts::no_key, crate::proofs::KeyTexts::no_text))]
fn key_in(bytes: &[u8]) -> Option<&str>
    ensures { option_map (λ t. t.now) result ≡ key_in bytes.now }
{
    match str::from_utf8(bytes) {
        Ok(text) if is_key(text) => Some(text),
        _ => None,
    }
}

/// Whether two keys intersect (upstream's `keyexpr::intersects`), and None where one of them is no key. It
/// takes no memory.
pub fn keys_meet(a: &[u8], b: &[u8]) -> Option<bool>
    ensures { result ≡ meeting a.now b.now }
{
    let a = key_in(a)?;
    let b = key_in(b)?;
    Some(intersects(a, b))
}

/// Whether key a includes key b (upstream's `keyexpr::includes`), and None where one of them is no key. It
/// takes no memory.
pub fn key_includes(a: &[u8], b: &[u8]) -> Option<bool>
    ensures { result ≡ including a.now b.now }
{
    let a = key_in(a)?;
    let b = key_in(b)?;
    Some(includes(a, b))
}
