//! Faces of Local: the asker's, and those of storages.
ghost use Rattle.std.specs.Prelude.{◌≡◌, [], IfOk, OnOk};
ghost use Rattle.zq_tables.specs.Naming.{plain};
ghost use Rattle.zq_machine.specs.declared.call.Call.TheVariants as call;
ghost use Rattle.zq_machine.specs.Machine.{after, state_after};
ghost use Rattle.zq_store.specs.Bus.{join_calls, local_opening, store_call};
ghost use Rattle.zq_store.specs.Stores.{new_store};

use crate::held::Held;
use crate::storage::Storage;
use std::alloc::Global;
use zq_gateway::Gateway;
use zq_key::Key;
use zq_key::items::Items;
use zq_key::memory::OutOfMemory;
use zq_key::message::{Bound, FaceId, Mapping, Mode, QueryableInfoType, Region, WireExpr, Zid};
use zq_key::text::Text;
use zq_machine::call::{Call, Opening};

/// A text under no number.
pub fn plain(alloc: Global, text: &str) -> Result<WireExpr, OutOfMemory>
    ensures { IfOk result (λ w. w ≡ plain text.now) }
{
    Ok(WireExpr {
        scope: 0,
        mapping: Mapping::Sender,
        suffix: Text::new(alloc, text)?,
    })
}

/// How the asker and each storage is opened.
fn local_opening(alloc: Global, zid: Zid) -> Opening
    ensures { result ≡ local_opening zid }
{
    Opening {
        region: Region::Local,
        zid,
        mode: Mode::Client,
        remote_bound: Bound::North,
        namespace: None,
        entry_deny: Items::new(alloc),
        exit_deny: Items::new(alloc),
    }
}

/// A storage's declaration.
fn store_call(alloc: Global, face: FaceId, key: &Key, complete: bool) -> Result<Call, OutOfMemory>
    ensures { IfOk result (λ c. c ≡ store_call face key.now complete) }
{
    Ok(Call::DeclareQueryable {
        face,
        id: 1,
        wire: plain(alloc, key.as_str())?,
        info: QueryableInfoType {
            complete,
            distance: 0,
        },
        node: 0,
    })
}

/// A face is opened as the asker and each storage is.
pub fn open_local(alloc: Global, gateway: &mut Gateway) -> Result<(), OutOfMemory>
    ensures { OnOk result (gateway.new.state ≡ after gateway.old.state (call.Open (local_opening gateway.old.state.core.config.zid))) }
{
    let opening = local_opening(alloc, gateway.zid());
    gateway.open_face(&opening)?;
    Ok(())
}

/// A storage's key is declared.
fn declare(
    alloc: Global,
    gateway: &mut Gateway,
    face: FaceId,
    key: &Key,
    complete: bool,
) -> Result<(), OutOfMemory>
    ensures { OnOk result (gateway.new.state ≡ after gateway.old.state (store_call face key.now complete)) }
{
    let call = store_call(alloc, face, key, complete)?;
    gateway.call(&call)?;
    Ok(())
}

/// A storage joins.
pub fn join(
    alloc: Global,
    gateway: &mut Gateway,
    face: FaceId,
    key: &Key,
    complete: bool,
) -> Result<Storage, OutOfMemory>
    ensures storage { IfOk result (λ s. s ≡ new_store key.now face complete) }
    ensures after { OnOk result (gateway.new.state ≡ state_after gateway.old.state (join_calls gateway.old.state.core.config.zid face key.now complete)) }
{
    open_local(alloc, gateway)?;
    declare(alloc, gateway, face, key, complete)?;
    Ok(Storage {
        key: key.copy(alloc)?,
        face,
        complete,
        held: Held::new(alloc),
    })
}
