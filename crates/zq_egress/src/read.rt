//! What is asked of an expression that was read.
ghost use Rattle.std.specs.Prelude.{◌≡◌, true, IfErr, IfOk, Some};
ghost use Rattle.zq_key.specs.Key.{is_key as key_of};
ghost use Rattle.zq_tables.specs.declared.resolved.Resolved.{Resolved};
ghost use Rattle.zq_machine.specs.Deciding.{marks_key};
ghost use Rattle.zq_machine.specs.Selecting.{full_text, is_unscoped, says_key, says_key_or_nothing};
ghost use Rattle.zq_egress.specs.Reading.{key_refusal};

use std::alloc::Global;
use zq_key::memory::OutOfMemory;
use zq_key::text::Text;
use zq_key::{Key, KeyError, is_key};
use zq_machine::call::Refusal;
use zq_strategy::types::FinalMark;
use zq_tables::resolved::Resolved;

/// Whether the number of the expression stands for nothing.
pub fn is_unscoped(said: &Resolved) -> bool
    ensures { result ≡ is_unscoped said.now }
{
    matches!(said, Resolved::Unscoped)
}

/// Whether the full text is a key, or there is none to be one.
pub fn says_key_or_nothing(said: &Resolved) -> bool
    ensures { result ≡ says_key_or_nothing said.now }
{
    match said {
        Resolved::Unscoped => false,
        Resolved::Empty => true,
        Resolved::Full(text) => is_key(text.as_str()),
    }
}

/// Whether a mark of a key has a key.
pub fn marks_key(mark: &FinalMark) -> bool
    ensures { result ≡ marks_key mark.now }
{
    match mark {
        FinalMark::Initial => true,
        FinalMark::Key(text) => is_key(text.as_str()),
    }
}

/// The full text, empty where there is none.
pub fn full_text(said: &Resolved) -> &str
    ensures { result.now ≡ full_text said.now }
{
    match said {
        Resolved::Unscoped => "",
        Resolved::Empty => "",
        Resolved::Full(text) => text.as_str(),
    }
}

/// The full text, moved out; empty where there is none. It takes no memory.
pub fn into_text(alloc: Global, said: Resolved) -> Text
    ensures { result ≡ full_text said }
{
    match said {
        Resolved::Unscoped => Text::from_string(String::new(alloc)),
        Resolved::Empty => Text::from_string(String::new(alloc)),
        Resolved::Full(text) => text,
    }
}

/// Whether the full text is a key.
pub fn says_key(said: &Resolved) -> bool
    ensures { result ≡ says_key said.now }
{
    match said {
        Resolved::Unscoped => false,
        Resolved::Empty => false,
        Resolved::Full(text) => is_key(text.as_str()),
    }
}

/// The key that an expression says, or what refuses it.
pub fn key_said(alloc: Global, said: &Resolved) -> Result<Result<Key, Refusal>, OutOfMemory>
    ensures says { IfOk result (λ r. IfOk r (λ k. said.now ≡ Resolved.Full k)) }
    ensures key { IfOk result (λ r. IfOk r (λ k. key_of k ≡ true)) }
    ensures refused { IfOk result (λ r. IfErr r (λ x. key_refusal said.now ≡ Some x)) }
{
    let text = match said {
        Resolved::Unscoped => return Ok(Err(Refusal::UnknownScope)),
        Resolved::Empty => return Ok(Err(Refusal::InvalidKeyExpr)),
        Resolved::Full(text) => text,
    };
    match Key::new(alloc, text.as_str()) {
        Ok(key) => Ok(Ok(key)),
        Err(KeyError::Invalid) => Ok(Err(Refusal::InvalidKeyExpr)),
        Err(KeyError::OutOfMemory) => Err(OutOfMemory),
    }
}
