//! Parts of texts, of which those of one text share its memory.
ghost use Rattle.std.specs.Prelude.{◌≡◌, ◌<◌, length, take, slice_index, IfOk};

use std::alloc::Global;
use std::marker::Model;
use std::sync::Arc;
use zq_key::memory::OutOfMemory;
use zq_key::text::Text;

/// A text, which others that it is the beginning of may keep.
#[derive(Drop)]
pub(crate) struct Part {
    whole: Arc<Text, Global>,
    end: usize,
}

impl Model for Part {
    ghost use Rattle.std.specs.Prelude.{ℕ, List, take};
    ghost use Rattle.std.specs.Arc.{arc_value};
    ghost use Rattle.std.specs.Str.{IsCharBoundary};

    ghost Value = { List ℕ };

    ghost view = { λ p. take p.end (arc_value p.whole) };

    ghost invariant = { λ p. IsCharBoundary (arc_value p.whole) p.end };
}

impl Part {
    /// A copy of the text.
    pub(crate) fn new(alloc: Global, text: &str) -> Result<Part, OutOfMemory>
        ensures { IfOk result (λ p. p ≡ text.now) }
    {
        let end = text.len();
        let text = Text::new(alloc, text)?;
        let whole = Arc::new(alloc, text)?;
        Ok(Part { whole, end })
    }

    /// The text.
    pub(crate) fn as_str(&self) -> &str
        ensures { result.now ≡ self.now }
    {
        &self.whole.as_str()[..self.end]
    }

    /// An equal text, in the same memory.
    pub(crate) fn share(&self) -> Result<Part, OutOfMemory>
        ensures { IfOk result (λ p. p ≡ self.now) }
    {
        Ok(Part {
            whole: Arc::try_clone(&self.whole)?,
            end: self.end,
        })
    }

    /// What stands before a `/`, in the same memory.
    pub(crate) fn cut(&self, end: usize) -> Result<Part, OutOfMemory>
        requires in_range { end < length self.now }
        requires slash { slice_index self.now end ≡ 47 }
        ensures { IfOk result (λ p. p ≡ take end self.now) }
    {
        Ok(Part {
            whole: Arc::try_clone(&self.whole)?,
            end,
        })
    }
}
