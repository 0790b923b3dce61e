//! A key that is kept.

ghost use Rattle.std.specs.Prelude.{◌≡◌, ℕ, List, true, false, IfOk, MatchResult};
ghost use Rattle.std.specs.String.{string_bytes};
ghost use Rattle.zq_key.specs.Key.{is_key as key_of};
ghost use Rattle.zq_key.specs.KeyRefusals.{IsRefusal};

use crate::check::is_key;
use std::alloc::Global;
use std::marker::Model;
use zq_message::memory::OutOfMemory;

/// A text that is a key.
pub struct Key {
    text: String,
}

impl Drop for Key {
    fn drop(self) {
        let Key { text } = self;
    }
}

impl Model for Key {
    ghost Value = { List ℕ };

    ghost view = { λ k. string_bytes k.text };

    ghost invariant = { λ k. key_of (string_bytes k.text) ≡ true };
}

/// Why a text gave no key.
#[derive(Debug, Drop)]
pub enum KeyError {
    /// The text is no key.
    Invalid,
    /// No memory was found.
    OutOfMemory,
}

impl Key {
    /// The text as a key. `Invalid` where it is no key.
    pub fn new(alloc: Global, text: &str) -> Result<Key, KeyError>
        ensures { MatchResult result (λ key. (key ≡ text.now) × (key_of text.now ≡ true)) (λ e. IsRefusal e text.now) }
    {
        if !is_key(text) {
            return Err(KeyError::Invalid);
        }
        match String::from_str(alloc, text) {
            Ok(text) => Ok(Key { text }),
            Err(_) => Err(KeyError::OutOfMemory),
        }
    }

    /// An equal key.
    pub fn copy(&self, alloc: Global) -> Result<Key, OutOfMemory>
        ensures { IfOk result (λ k. k ≡ self.now) }
    {
        Ok(Key {
            text: String::from_str(alloc, self.text.as_str())?,
        })
    }

    /// The text of the key.
    pub fn as_str(&self) -> &str
        ensures text { result.now ≡ self.now }
        ensures key { key_of result.now ≡ true }
    {
        self.text.as_str()
    }
}
