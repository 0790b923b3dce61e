//! What is spoken to, in a box, by its pointer alone, as it crosses to C.
ghost use Rattle.std.specs.Prelude.{◌≡◌, Some, None, Option, IsSome};
ghost use Rattle.zq_c.specs.Owning.{Kept, coded_kept, owned_at};

use crate::parts::Parts;
use std::alloc::Global;
use std::marker::Model;
use zq_spoken::speaker::Speaker;

/// A box, or nothing.
#[repr(C)]
#[derive(Drop)]
pub struct Owned {
    at: *mut u8,
    alloc: Global,
    pub ghost value: { Option Kept } by { coded_kept },
}

impl Model for Owned {
    ghost also_owns = { λ o. owned_at o.alloc o.at o.value };
}

unsafe impl Send for Owned {}

impl Owned {
    /// Nothing.
    pub fn none(alloc: Global) -> Owned
        ensures { result.value ≡ None }
    {
        Owned {
            at: std::ptr::null_mut(),
            alloc,
        }
    }

    /// The box of these parts.
    pub fn of(parts: Parts<Speaker, Global>) -> Owned
        ensures { result.value ≡ Some parts.value }
    {
        let Parts { ptr, alloc } = parts;
        Owned {
            at: ptr as *mut u8,
            alloc,
        }
    }

    /// The parts of the box that is there.
    pub fn into_parts(self) -> Parts<Speaker, Global>
        requires { IsSome self.value }
        ensures { self.value ≡ Some result.value }
    {
        let Owned { at, alloc } = self;
        Parts {
            ptr: at as *mut Speaker,
            alloc,
        }
    }
}
