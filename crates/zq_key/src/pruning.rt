//! Where the first bytes of a text already show that it does not meet a key.
ghost use Rattle.std.specs.Prelude.{◌≡◌, IfSome};
ghost use Rattle.zq_key.specs.Apart.{is_wild, IsApartAt};

/// Whether a byte may be of a `*` or of a `$*`.
pub fn may_be_wild(byte: u8) -> bool
    ensures { result ≡ is_wild byte }
{
    byte == b'*' || byte == b'$'
}

/// The place of the first byte that shows that the text, and any that begins like it up to there,
/// doesn't meet the key. None says nothing.
pub fn apart(text: &[u8], key: &[u8]) -> Option<usize>
    ensures { IfSome result (IsApartAt text.now key.now) }
{
    for k in 0..text.len() {
        let byte = text[k];
        if may_be_wild(byte) || byte == 255 {
            return None;
        }
        if k >= key.len() {
            if byte == b'/' {
                return None;
            }
            return Some(k);
        }
        if may_be_wild(key[k]) {
            return None;
        }
        if byte != key[k] {
            return Some(k);
        }
    }
    None
}
