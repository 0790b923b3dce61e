//! What was kept of a number or an id before, so that it can be undone without memory.
ghost use Rattle.std.specs.Prelude.{◌≡◌, IfOk, OnOk, OnErr};
ghost use Rattle.zq_namespace.specs.Leaves.{with_head, with_id};
ghost use Rattle.zq_namespace.specs.Undone.{head_set, head_undone, id_undone};

use crate::expr::HeadMap;
use std::collections::BTreeSet;
use zq_message::memory::OutOfMemory;
use zq_message::text::Text;

/// What was kept of a number or an id before a message gave it: enough to undo what is kept of the
/// message.
#[derive(Debug, Drop)]
pub enum Kept {
    /// Nothing: it is newly kept.
    Newly,
    /// What the message gave was kept before: nothing changed.
    Already,
    /// Another text of the number.
    InPlaceOf(Text),
}

/// Keeps a text as the head of a number.
pub(crate) fn put_head(heads: &mut HeadMap, id: u16, text: Text) -> Result<Kept, OutOfMemory>
    ensures ok { OnOk result (heads.new.entries ≡ with_head id text heads.old.entries) }
    ensures back { IfOk result (λ k. head_undone k id heads.new.entries ≡ heads.old.entries) }
    ensures err { OnErr result (heads.new.entries ≡ heads.old.entries) }
{
    match heads.insert(id, text)? {
        Some(old) => Ok(Kept::InPlaceOf(old)),
        None => Ok(Kept::Newly),
    }
}

/// Keeps an id.
pub(crate) fn put_id(ids: &mut BTreeSet<u32>, id: u32) -> Result<Kept, OutOfMemory>
    ensures ok { OnOk result (ids.new.keys ≡ with_id id ids.old.keys) }
    ensures back { IfOk result (λ k. id_undone k id ids.new.keys ≡ ids.old.keys) }
    ensures err { OnErr result (ids.new ≡ ids.old) }
{
    if ids.insert(id)? {
        Ok(Kept::Newly)
    } else {
        Ok(Kept::Already)
    }
}

/// Another text as the head of a number that has one.
fn set_head(heads: &mut HeadMap, id: u16, text: Text)
    ensures { heads.new.entries ≡ head_set id text heads.old.entries }
{
    match heads.get_mut(&id) {
        Some(head) => *head = text,
        None => {}
    }
}

/// Undoes what `put_head` kept, by what it answered.
pub(crate) fn undo_head(heads: &mut HeadMap, id: u16, kept: Kept)
    ensures { heads.new.entries ≡ head_undone kept id heads.old.entries }
{
    match kept {
        Kept::Newly => {
            let _ = heads.remove(&id);
        }
        Kept::Already => {}
        Kept::InPlaceOf(text) => set_head(heads, id, text),
    }
}

/// Undoes what `put_id` kept, by what it answered.
pub(crate) fn undo_id(ids: &mut BTreeSet<u32>, id: u32, kept: Kept)
    ensures { ids.new.keys ≡ id_undone kept id ids.old.keys }
{
    match kept {
        Kept::Newly => {
            let _ = ids.remove(&id);
        }
        Kept::Already | Kept::InPlaceOf(_) => {}
    }
}
