//! What the gateway's own face is asked.
ghost use Rattle.std.specs.Prelude.{◌≡◌, IfOk, option_copied};
ghost use Rattle.zq_admin.specs.Answering.{asked_by, entries_asked, first_asked};

use crate::entries::{AdminList, list};
use std::alloc::Global;
use zq_gateway::Gateway;
use zq_key::items::Items;
use zq_key::memory::OutOfMemory;
use zq_key::message::{FaceId, Message, Request};
use zq_key::{Key, KeyError};
use zq_machine::handed::Handed;

/// The request of a message to the face, if it is one.
fn asked_by(own: FaceId, handed: &Handed) -> Option<&Request>
    ensures { option_copied result ≡ asked_by own handed.now }
{
    if handed.to() != own {
        return None;
    }
    match handed.message() {
        Message::Request(request) => Some(request),
        _ => None,
    }
}

/// The first request that the face is handed.
pub fn first_asked(own: FaceId, handed: &[Handed]) -> Option<&Request>
    ensures { option_copied result ≡ first_asked own handed.now }
{
    for h in handed {
        if let Some(request) = asked_by(own, h) {
            return Some(request);
        }
    }
    None
}

/// The entries that a request asks for.
pub fn entries_asked(
    alloc: Global,
    gateway: &Gateway,
    request: &Request,
) -> Result<AdminList, OutOfMemory>
    ensures { IfOk result (λ l. l ≡ entries_asked request.now gateway.now.state) }
{
    if request.wire.scope != 0 {
        return Ok(Items::new(alloc));
    }
    match Key::new(alloc, request.wire.suffix.as_str()) {
        Ok(key) => list(alloc, gateway, &key),
        Err(KeyError::Invalid) => Ok(Items::new(alloc)),
        Err(KeyError::OutOfMemory) => Err(OutOfMemory),
    }
}
