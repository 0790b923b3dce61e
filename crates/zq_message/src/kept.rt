//! A value that has one owner, or several that share its memory.
ghost use Rattle.std.specs.Prelude.{◌≡◌, true, IfOk, IfSome};
ghost use Rattle.zq_message.specs.Kept.{kept_value, is_shared};

use crate::memory::OutOfMemory;
use std::alloc::Global;
use std::sync::Arc;

/// A value, of its own or shared.
#[derive(Debug, Drop)]
pub(crate) enum Kept<T> {
    Own(T),
    Shared(Arc<T>),
}

impl<T> Kept<T> {
    /// The value.
    pub(crate) fn get(&self) -> &T
        ensures { result.now ≡ kept_value self.now }
    {
        match self {
            Kept::Own(value) => value,
            Kept::Shared(value) => value,
        }
    }

    /// Another owner of the value, where it is shared. None says nothing.
    pub(crate) fn another(&self) -> Option<Kept<T>>
        ensures value { IfSome result (λ k. kept_value k ≡ kept_value self.now) }
        ensures owners { IfSome result (λ k. is_shared k ≡ true) }
    {
        match self {
            Kept::Own(_) => None,
            Kept::Shared(value) => match Arc::try_clone(value) {
                Ok(value) => Some(Kept::Shared(value)),
                Err(_) => None,
            },
        }
    }

    /// The value, for several owners.
    pub(crate) fn shared(self, alloc: Global) -> Result<Kept<T>, OutOfMemory>
    where
        T: Drop,
        ensures value { IfOk result (λ k. kept_value k ≡ kept_value self) }
        ensures owners { IfOk result (λ k. is_shared k ≡ true) }
    {
        match self {
            Kept::Own(value) => Ok(Kept::Shared(Arc::new(alloc, value)?)),
            Kept::Shared(value) => Ok(Kept::Shared(value)),
        }
    }
}
