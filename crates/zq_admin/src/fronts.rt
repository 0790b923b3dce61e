//! What the keys of the administration view begin with.
ghost use Rattle.std.specs.Prelude.{◌≡◌, IfOk, codes, true};
ghost use Rattle.zq_io.specs.Values.{mode_word, zid_word};
ghost use Rattle.zq_io.specs.Words.{lacks};
ghost use Rattle.zq_key.specs.Space.{behind};
ghost use Rattle.zq_admin.specs.Entries.{front};

use itoa::Buffer;
use std::alloc::Global;
use zq_hat::sources::Source;
use zq_key::memory::OutOfMemory;
use zq_key::message::{Mode, Zid};
use zq_key::text::Text;

/// A text behind a `/` and what stands before it.
pub fn behind(alloc: Global, before: &str, text: &str) -> Result<Text, OutOfMemory>
    ensures { IfOk result (λ t. t ≡ behind before.now text.now) }
{
    Text::joined(alloc, before, "/", text)
}

/// `@/ZID`, in which no `*` stands.
pub fn zid_front(alloc: Global, zid: Zid) -> Result<Text, OutOfMemory>
    ensures text { IfOk result (λ t. t ≡ behind (codes "@") (zid_word zid)) }
    ensures tame { IfOk result (λ t. lacks 42 t ≡ true) }
{
    let mut buffer = Buffer::new();
    behind(alloc, "@", buffer.format(zid.0))
}

/// The name of a mode.
fn mode_name(mode: Mode) -> &'static str
    ensures { result.now ≡ mode_word mode }
{
    match mode {
        Mode::Router => "router",
        Mode::Peer => "peer",
        Mode::Client => "client",
    }
}

/// What stands before the keys of a kind: `@/ZID/MODE/KIND`, in which no `*` stands if none does in KIND.
pub fn front(alloc: Global, own: Source, kind: &str) -> Result<Text, OutOfMemory>
    ensures text { IfOk result (λ t. t ≡ front own kind.now) }
    ensures tame { lacks 42 kind.now ≡ true → IfOk result (λ t. lacks 42 t ≡ true) }
{
    let zid = zid_front(alloc, own.zid)?;
    let mode = behind(alloc, zid.as_str(), mode_name(own.mode))?;
    behind(alloc, mode.as_str(), kind)
}
