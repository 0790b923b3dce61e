//! The choice of an id for a text.
ghost use Rattle.std.specs.Prelude.{◌≡◌, ◌++◌, IfOk, IfSome};
ghost use Rattle.std.specs.Str.{IsCharBoundary};
ghost use Rattle.zq_tables.specs.FaceTexts.{key_from, under as under_of, whole as whole_of, whole_key as whole_key_of};

use crate::decl::DeclKey;
use std::alloc::Global;
use zq_key::memory::OutOfMemory;
use zq_key::message::{Mapping, WireExpr};
use zq_key::text::Text;

// Two texts in a row.
pub(crate) fn joined(alloc: Global, head: &str, tail: &str) -> Result<Text, OutOfMemory>
    ensures { IfOk result (λ t. t ≡ head.now ++ tail.now) }
{
    Text::joined(alloc, head, tail, "")
}

/// A text under scope 0.
pub fn whole(suffix: Text) -> WireExpr
    ensures { result ≡ whole_of suffix }
{
    WireExpr {
        scope: 0,
        mapping: Mapping::Sender,
        suffix,
    }
}

/// A copy of a text under scope 0, which may share the memory of the text.
pub fn plain(alloc: Global, text: &Text) -> Result<WireExpr, OutOfMemory>
    ensures { IfOk result (λ w. w ≡ whole_of text.now) }
{
    Ok(whole(text.copy(alloc)?))
}

// The expression of a text whose first bytes are known, or of the whole text.
pub(crate) fn expression(
    alloc: Global,
    part: Option<(u16, Mapping, usize)>,
    text: &Text,
) -> Result<WireExpr, OutOfMemory>
    requires { IfSome part (λ p. IsCharBoundary text.now p.2) }
    ensures { IfOk result (λ w. w ≡ key_from part text.now) }
{
    match part {
        Some((scope, mapping, k)) => Ok(WireExpr {
            scope,
            mapping,
            suffix: Text::new(alloc, &text.as_str()[k..])?,
        }),
        None => plain(alloc, text),
    }
}

// A rest behind an id, which is declared first where it is new.
pub(crate) fn under(scope: u16, mapping: Mapping, suffix: Text, declared: Option<u16>) -> DeclKey
    ensures { result ≡ under_of scope mapping suffix declared }
{
    DeclKey {
        wire: WireExpr {
            scope,
            mapping,
            suffix,
        },
        declared,
    }
}

// The text under scope 0, with nothing declared.
pub(crate) fn whole_key(alloc: Global, text: &str) -> Result<DeclKey, OutOfMemory>
    ensures { IfOk result (λ d. d ≡ whole_key_of text.now) }
{
    Ok(DeclKey {
        wire: whole(Text::new(alloc, text)?),
        declared: None,
    })
}
