//! What a number says.
ghost use Rattle.std.specs.Prelude.{◌≡◌, ◌≢◌, IfOk, option_copied};
ghost use Rattle.zq_tables.specs.FaceIds.{AreLive};
ghost use Rattle.zq_tables.specs.FaceTexts.{texts_of};
ghost use Rattle.zq_tables.specs.Naming.{remaps as remaps_of, said_of, said_plainly as plainly_of};

use crate::FaceNames;
use crate::resolved::Resolved;
use std::alloc::Global;
use zq_key::memory::OutOfMemory;
use zq_key::message::WireExpr;
use zq_key::text::Text;
use zq_names::Names;

// Whether the face can not declare the number for the text: it is 0 or stands for another one.
pub(crate) fn remaps(id: u16, text: &str, standing: Option<&str>) -> bool
    ensures { result ≡ remaps_of id text.now (option_copied standing.entry) }
{
    if id == 0 {
        return true;
    }
    match standing {
        Some(other) => other != text,
        None => false,
    }
}

// What a suffix says under no number.
pub(crate) fn said_plainly(alloc: Global, suffix: &str) -> Result<Resolved, OutOfMemory>
    ensures { IfOk result (λ s. s ≡ plainly_of suffix.now) }
{
    if suffix.is_empty() {
        return Ok(Resolved::Empty);
    }
    Ok(Resolved::Full(Text::new(alloc, suffix)?))
}

// What an expression says under a number.
pub(crate) fn said_under(
    alloc: Global,
    names: &Names,
    numbers: &FaceNames,
    wire: &WireExpr,
) -> Result<Resolved, OutOfMemory>
    requires live { AreLive names.now numbers.now }
    requires numbered { wire.now.scope ≢ 0 }
    ensures { IfOk result (λ s. s ≡ said_of (texts_of names.now numbers.now) wire.now) }
{
    match numbers.full(alloc, names, wire)? {
        Some(text) => Ok(Resolved::Full(text)),
        None => Ok(Resolved::Unscoped),
    }
}
