//! The deny lists of a face.
ghost use Rattle.std.specs.Prelude.{◌≡◌, IsTrue};
ghost use Rattle.zq_key.specs.Key.{is_key as key_of};
ghost use Rattle.zq_namespace.specs.Denied.{is_denied as is_denied_of};

use zq_key::{Key, includes};
use zq_message::items::Items;

/// Keys, in order.
pub type KeyList = Items<Key>;

/// Whether a key of the list includes the key.
pub fn is_denied(denied: &[Key], key: &str) -> bool
    requires { IsTrue (key_of key.now) }
    ensures { result ≡ is_denied_of denied.now key.now }
{
    denied.iter().any(|k| includes(k.as_str(), key))
}

/// The keys that a face may not ask for, and those that it may not be asked for. Each blocks the
/// keys that it includes. A request is asked about by its whole text, behind the namespace of the
/// face that sends it and before that of the face that is handed it is taken off.
#[derive(Drop)]
pub struct Deny {
    /// Keys that the face may not ask for.
    pub entry: KeyList,
    /// Keys that the face may not be asked for.
    pub exit: KeyList,
}

impl Deny {
    /// Whether the face may not ask for the key.
    pub fn blocks_entry(&self, key: &str) -> bool
        requires { IsTrue (key_of key.now) }
        ensures { result ≡ is_denied_of self.now.entry key.now }
    {
        is_denied(self.entry.as_slice(), key)
    }

    /// Whether the face may not be asked for the key.
    pub fn blocks_exit(&self, key: &str) -> bool
        requires { IsTrue (key_of key.now) }
        ensures { result ≡ is_denied_of self.now.exit key.now }
    {
        is_denied(self.exit.as_slice(), key)
    }
}
