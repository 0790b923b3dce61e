//! Texts and byte strings, which contracts see as lists of bytes.
ghost use Rattle.std.specs.Prelude.{◌≡◌, ◌++◌, ℕ, List, IfOk, string_bytes};

use crate::kept::Kept;
use crate::memory::OutOfMemory;
use std::alloc::Global;
use std::marker::Model;

/// A text, seen as the list of its bytes. It may share its memory with its copies.
#[derive(Debug)]
pub struct Text {
    inner: Kept<String>,
}

impl Drop for Text {
    fn drop(self) {
        let Text { inner } = self;
    }
}

impl Model for Text {
    ghost use Rattle.std.specs.Prelude.{ℕ, List};
    ghost use Rattle.std.specs.String.{string_bytes};
    ghost use Rattle.zq_message.specs.Kept.{kept_value};

    ghost Value = { List ℕ };

    ghost view = { λ s. string_bytes (kept_value s.inner) };
}

impl Text {
    /// A copy of the text.
    pub fn new(alloc: Global, text: &str) -> Result<Text, OutOfMemory>
        ensures { IfOk result (λ t. t ≡ text.now) }
    {
        Ok(Text::from_string(String::from_str(alloc, text)?))
    }

    /// The text of a string.
    pub fn from_string(text: String) -> Text
        ensures { result ≡ string_bytes text }
    {
        Text {
            inner: Kept::Own(text),
        }
    }

    /// Three texts in a row.
    pub fn joined(alloc: Global, a: &str, b: &str, c: &str) -> Result<Text, OutOfMemory>
        ensures { IfOk result (λ t. t ≡ a.now ++ b.now ++ c.now) }
    {
        let mut inner = String::from_str(alloc, a)?;
        inner.push_str(b)?;
        inner.push_str(c)?;
        Ok(Text::from_string(inner))
    }

    /// An equal text, whose copies may share its memory.
    pub fn shared(self, alloc: Global) -> Result<Text, OutOfMemory>
        ensures { IfOk result (λ t. t ≡ self) }
    {
        let Text { inner } = self;
        Ok(Text {
            inner: inner.shared(alloc)?,
        })
    }

    /// An equal text. It may share the memory of this one.
    pub fn copy(&self, alloc: Global) -> Result<Text, OutOfMemory>
        ensures { IfOk result (λ t. t ≡ self.now) }
    {
        match self.inner.another() {
            Some(inner) => Ok(Text { inner }),
            None => Text::new(alloc, self.as_str()),
        }
    }

    /// The text.
    pub fn as_str(&self) -> &str
        ensures { result.now ≡ self.now }
    {
        self.inner.get().as_str()
    }
}

/// Bytes, seen as a list. They may share their memory with their copies.
#[derive(Debug)]
pub struct Bytes {
    inner: Kept<Vec<u8>>,
}

impl Drop for Bytes {
    fn drop(self) {
        let Bytes { inner } = self;
    }
}

impl Model for Bytes {
    ghost use Rattle.std.specs.Prelude.{ℕ, List};
    ghost use Rattle.zq_message.specs.Kept.{kept_value};

    ghost Value = { List ℕ };

    ghost view = { λ s. (kept_value s.inner).items };
}

impl Bytes {
    /// A copy of the bytes.
    pub fn new(alloc: Global, bytes: &[u8]) -> Result<Bytes, OutOfMemory>
        ensures { IfOk result (λ t. t ≡ bytes.now) }
    {
        Ok(Bytes::from_vec(Vec::from_slice(alloc, bytes)?))
    }

    /// Equal bytes, whose copies may share their memory.
    pub fn shared(self, alloc: Global) -> Result<Bytes, OutOfMemory>
        ensures { IfOk result (λ b. b ≡ self) }
    {
        let Bytes { inner } = self;
        Ok(Bytes {
            inner: inner.shared(alloc)?,
        })
    }

    /// Equal bytes. They may share the memory of these.
    pub fn copy(&self, alloc: Global) -> Result<Bytes, OutOfMemory>
        ensures { IfOk result (λ t. t ≡ self.now) }
    {
        match self.inner.another() {
            Some(inner) => Ok(Bytes { inner }),
            None => Bytes::new(alloc, self.as_slice()),
        }
    }

    /// The bytes of a vector.
    pub fn from_vec(bytes: Vec<u8>) -> Bytes
        ensures { result ≡ bytes.items }
    {
        Bytes {
            inner: Kept::Own(bytes),
        }
    }

    /// The bytes.
    pub fn as_slice(&self) -> &[u8]
        ensures { result.now ≡ self.now }
    {
        self.inner.get().as_slice()
    }
}
