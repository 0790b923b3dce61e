//! What regions have on each key, one behind another.
ghost use Rattle.std.specs.Prelude.{◌≡◌, IfOk, OnOk};
ghost use Rattle.zq_hat.specs.Joining.{joined, with_own};

use crate::gathered::Gathered;
use crate::sources::{Source, SourceList, Sources};
use std::alloc::Global;
use zq_key::memory::OutOfMemory;

/// The own id stands behind others, if there is one to add.
fn with_own(sources: Sources, own: Option<Source>) -> Result<Sources, OutOfMemory>
    ensures { IfOk result (λ s. s ≡ with_own own sources) }
{
    let mut sources = sources;
    if let Some(own) = own {
        sources.add(own)?;
    }
    Ok(sources)
}

/// What a region has on its keys joins what those before have.
pub(crate) fn join(
    all: &mut Gathered,
    alloc: Global,
    own: Option<Source>,
    list: SourceList,
) -> Result<(), OutOfMemory>
    ensures { OnOk result (all.new ≡ joined own all.old list) }
{
    for (key, sources) in list.into_vec() {
        all.extend(alloc, key.as_str(), with_own(sources, own)?)?;
    }
    Ok(())
}
