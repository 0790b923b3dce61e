//! The line of an entry.
ghost use Rattle.std.specs.Prelude.{◌≡◌, ◌++◌, IfOk, OnOk};
ghost use Rattle.zq_admin.specs.Entries.{entries_lines, entry_line, sources_words};

use std::alloc::Global;
use zq_hat::sources::Sources;
use zq_io::show::push_field;
use zq_io::words::{push_text, push_word};
use zq_key::memory::OutOfMemory;
use zq_key::text::{Bytes, Text};

/// Writes the ids on a key.
pub fn push_sources(out: &mut Vec<u8>, sources: &Sources) -> Result<(), OutOfMemory>
    ensures { OnOk result (out.new.items ≡ out.old.items ++ sources_words sources.now) }
{
    push_text(out, "routers")?;
    push_field(out, &sources.routers)?;
    push_text(out, " peers")?;
    push_field(out, &sources.peers)?;
    push_text(out, " clients")?;
    push_field(out, &sources.clients)?;
    Ok(())
}

/// Writes an entry on a line of its own.
fn push_entry(out: &mut Vec<u8>, key: &str, sources: &Sources) -> Result<(), OutOfMemory>
    ensures { OnOk result (out.new.items ≡ out.old.items ++ entry_line (key.now, sources.now)) }
{
    push_word(out, key.as_bytes())?;
    push_text(out, " ")?;
    push_sources(out, sources)?;
    push_text(out, "\n")?;
    Ok(())
}

/// The lines of entries.
pub fn print_entries(alloc: Global, entries: &[(Text, Sources)]) -> Result<Bytes, OutOfMemory>
    ensures { IfOk result (λ b. b ≡ entries_lines entries.now) }
{
    let mut out = Vec::new(alloc);
    for (key, sources) in entries {
        push_entry(&mut out, key.as_str(), sources)?;
    }
    Ok(Bytes::from_vec(out))
}
