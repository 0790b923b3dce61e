//! How the gateway's own face is opened, and what it declares.
ghost use Rattle.std.specs.Prelude.{◌≡◌, IfOk, OnOk, true};
ghost use Rattle.zq_key.specs.Key.{is_key};
ghost use Rattle.zq_admin.specs.Answering.{own_declaration, own_key, own_opening, own_state};

use crate::fronts::{behind, zid_front};
use std::alloc::Global;
use zq_gateway::Gateway;
use zq_key::items::Items;
use zq_key::memory::OutOfMemory;
use zq_key::message::{Bound, FaceId, Mode, QueryableInfoType, Region};
use zq_key::text::Text;
use zq_machine::call::{Call, Opening};
use zq_machine::config::Config;
use zq_tables::choice::whole;

fn own_opening(alloc: Global, config: &Config) -> Call
    ensures { result ≡ own_opening config.now }
{
    Call::Open(Opening {
        region: Region::Local,
        zid: config.zid(),
        mode: Mode::Client,
        remote_bound: Bound::North,
        namespace: None,
        entry_deny: Items::new(alloc),
        exit_deny: Items::new(alloc),
    })
}

fn own_key(alloc: Global, config: &Config) -> Result<Text, OutOfMemory>
    ensures text { IfOk result (λ t. t ≡ own_key config.now) }
    ensures key { OnOk result (is_key (own_key config.now) ≡ true) }
{
    let front = zid_front(alloc, config.zid())?;
    behind(alloc, front.as_str(), "**")
}

fn own_declaration(alloc: Global, own: FaceId, config: &Config) -> Result<Call, OutOfMemory>
    ensures call { IfOk result (λ c. c ≡ own_declaration own config.now) }
    ensures key { OnOk result (is_key (own_key config.now) ≡ true) }
{
    Ok(Call::DeclareQueryable {
        face: own,
        id: 1,
        wire: whole(own_key(alloc, config)?),
        info: QueryableInfoType {
            complete: true,
            distance: 0,
        },
        node: 0,
    })
}

/// A gateway with its own face, which has declared its queryable.
pub fn opened(alloc: Global, config: &Config, own: FaceId) -> Result<Gateway, OutOfMemory>
    ensures state { IfOk result (λ g. g.state ≡ own_state own config.now) }
    ensures key { OnOk result (is_key (own_key config.now) ≡ true) }
{
    let mut gateway = Gateway::new(alloc, config)?;
    gateway.call(&own_opening(alloc, config))?;
    gateway.call(&own_declaration(alloc, own, config)?)?;
    Ok(gateway)
}
