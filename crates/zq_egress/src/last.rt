//! What a call tells goes through the gates of faces, and then its last step is made that may fail. Where that finds no
//! memory, the gates are as they were.
ghost use Rattle.std.specs.Prelude.{◌≡◌, false, true, None, Some, IfOk, OnErr, OnOk};
ghost use Rattle.std.specs.List.{AllByRecursion};
ghost use Rattle.std.specs.Option.{is_some};
ghost use Rattle.zq_strategy.specs.Kept.{registered, unregistered};
ghost use Rattle.zq_interests.specs.Interests.{with_interest};
ghost use Rattle.zq_query.specs.Closing.{after_close};
ghost use Rattle.zq_machine.specs.Gates.{gate_at, with_gate};
ghost use Rattle.zq_machine.specs.State.{change_hat, hat_at, joined};
ghost use Rattle.zq_egress.specs.Exits.{undone_by};
ghost use Rattle.zq_dispatcher.specs.Routers.{entered};
ghost use Rattle.zq_dispatcher.specs.Seats.{seats};
ghost use Rattle.zq_egress.specs.Gone.{AreOut, IsTold};

use crate::gone::let_told_out;
use crate::{Exit, FaceMux, FaceMuxes};
use std::alloc::Global;
use zq_dispatcher::hats;
use zq_dispatcher::routers::put_entry;
use zq_hat::hat::Hat;
use zq_interests::interests::Interests;
use zq_interests::types::InterestEntry;
use zq_key::Key;
use zq_key::memory::OutOfMemory;
use zq_key::message::{FaceId, QueryableInfoType, Region, Zid};
use zq_machine::handed::HandedList;
use zq_query::queries::Queries;
use zq_strategy::types::FaceRecord;
use zq_tables::RegionMap;

/// Messages go back through the gates, where memory is lacking.
fn undone(gates: &mut FaceMuxes, told: &HandedList, exits: Vec<Exit>) -> OutOfMemory
    ensures { gates.new ≡ undone_by exits.items told.now gates.old }
{
    gates.take_back(told.as_slice(), exits);
    OutOfMemory
}

/// What an opening tells goes through the gates, and the face joins its region's hat.
fn join_told(
    gates: &mut FaceMuxes,
    hats: &mut RegionMap<Hat>,
    told: &HandedList,
    region: Region,
    face: FaceRecord,
) -> Result<Vec<Exit>, OutOfMemory>
    requires told { AllByRecursion IsTold told.now }
    requires vacant { seats region face.face.0 hats.old ≡ Some false }
    ensures out { IfOk result (λ es. AreOut gates.old told.now gates.new es.items) }
    ensures ok { OnOk result (hats.new ≡ change_hat region (joined face) hats.old) }
    ensures no_gates { OnErr result (gates.new ≡ gates.old) }
    ensures no_hats { OnErr result (hats.new ≡ hats.old) }
{
    let exits = let_told_out(gates, told)?;
    match hats::join(hats, region, face) {
        Ok(()) => Ok(exits),
        Err(_) => Err(undone(gates, told, exits)),
    }
}

/// What an opening tells goes through the gates, that of the new face among them, if it has one, and
/// the face joins its region's hat.
pub fn enter_told(
    gates: &mut FaceMuxes,
    hats: &mut RegionMap<Hat>,
    gate: Option<FaceMux>,
    told: &HandedList,
    region: Region,
    face: FaceRecord,
) -> Result<Vec<Exit>, OutOfMemory>
    requires told { AllByRecursion IsTold told.now }
    requires vacant { seats region face.face.0 hats.old ≡ Some false }
    requires ungated { gate_at face.face.0 gates.old ≡ None }
    ensures out { IfOk result (λ es. AreOut (with_gate face.face.0 gate gates.old) told.now gates.new es.items) }
    ensures ok { OnOk result (hats.new ≡ change_hat region (joined face) hats.old) }
    ensures no_gates { OnErr result (gates.new ≡ gates.old) }
    ensures no_hats { OnErr result (hats.new ≡ hats.old) }
{
    let number = face.face;
    gates.open(number, gate)?;
    match join_told(gates, hats, told, region, face) {
        Ok(exits) => Ok(exits),
        Err(error) => {
            gates.close(number);
            Err(error)
        }
    }
}

/// What a closing tells goes through the gates, and the face's entries are released.
pub fn close_told(
    gates: &mut FaceMuxes,
    queries: &mut Queries,
    told: &HandedList,
    face: FaceId,
) -> Result<Vec<Exit>, OutOfMemory>
    requires { AllByRecursion IsTold told.now }
    ensures out { IfOk result (λ es. AreOut gates.old told.now gates.new es.items) }
    ensures ok { OnOk result (queries.new ≡ after_close face.0 queries.old) }
    ensures no_gates { OnErr result (gates.new ≡ gates.old) }
    ensures no_queries { OnErr result (queries.new ≡ queries.old) }
{
    let exits = let_told_out(gates, told)?;
    match queries.close_planned(face) {
        Ok(()) => Ok(exits),
        Err(_) => Err(undone(gates, told, exits)),
    }
}

/// What a declaration tells goes through the gates, and its queryable is registered.
pub fn register_told(
    gates: &mut FaceMuxes,
    hats: &mut RegionMap<Hat>,
    told: &HandedList,
    region: Region,
    face: FaceId,
    id: u32,
    key: &Key,
    node: u16,
    info: QueryableInfoType,
) -> Result<Vec<Exit>, OutOfMemory>
    requires told { AllByRecursion IsTold told.now }
    requires seated { seats region face.0 hats.old ≡ Some true }
    ensures out { IfOk result (λ es. AreOut gates.old told.now gates.new es.items) }
    ensures ok { OnOk result (hats.new ≡ change_hat region (registered face.0 id key.now node info) hats.old) }
    ensures no_gates { OnErr result (gates.new ≡ gates.old) }
    ensures no_hats { OnErr result (hats.new ≡ hats.old) }
{
    let exits = let_told_out(gates, told)?;
    match hats::register(hats, region, face, id, key, node, info) {
        Ok(()) => Ok(exits),
        Err(_) => Err(undone(gates, told, exits)),
    }
}

/// What a withdrawal tells goes through the gates, and its queryable is released.
pub fn withdraw_told(
    gates: &mut FaceMuxes,
    hats: &mut RegionMap<Hat>,
    told: &HandedList,
    region: Region,
    face: FaceId,
    id: u32,
    node: u16,
) -> Result<Vec<Exit>, OutOfMemory>
    requires told { AllByRecursion IsTold told.now }
    requires seated { seats region face.0 hats.old ≡ Some true }
    ensures out { IfOk result (λ es. AreOut gates.old told.now gates.new es.items) }
    ensures ok { OnOk result (hats.new ≡ change_hat region (unregistered face.0 id) hats.old) }
    ensures no_gates { OnErr result (gates.new ≡ gates.old) }
    ensures no_hats { OnErr result (hats.new ≡ hats.old) }
{
    let exits = let_told_out(gates, told)?;
    match hats::withdraw(hats, region, face, id, node) {
        Ok(()) => Ok(exits),
        Err(_) => Err(undone(gates, told, exits)),
    }
}

/// What a change of an entry tells goes through the gates, and the entry is changed.
pub fn put_entry_told(
    gates: &mut FaceMuxes,
    hats: &mut RegionMap<Hat>,
    told: &HandedList,
    region: Region,
    router: Zid,
    key: &Key,
    info: Option<QueryableInfoType>,
) -> Result<Vec<Exit>, OutOfMemory>
    requires told { AllByRecursion IsTold told.now }
    requires there { is_some (hat_at region hats.old) ≡ true }
    ensures out { IfOk result (λ es. AreOut gates.old told.now gates.new es.items) }
    ensures ok { OnOk result (hats.new ≡ change_hat region (entered router key.now info) hats.old) }
    ensures no_gates { OnErr result (gates.new ≡ gates.old) }
    ensures no_hats { OnErr result (hats.new ≡ hats.old) }
{
    let exits = let_told_out(gates, told)?;
    match put_entry(hats, region, router, key, info) {
        Ok(()) => Ok(exits),
        Err(_) => Err(undone(gates, told, exits)),
    }
}

/// What an interest is answered goes through the gates, and the interest is put in place.
pub fn ask_told(
    alloc: Global,
    gates: &mut FaceMuxes,
    interests: &mut Interests,
    told: &HandedList,
    face: FaceId,
    id: u32,
    entry: InterestEntry,
) -> Result<Vec<Exit>, OutOfMemory>
    requires { AllByRecursion IsTold told.now }
    ensures out { IfOk result (λ es. AreOut gates.old told.now gates.new es.items) }
    ensures ok { OnOk result (interests.new ≡ with_interest face.0 id entry interests.old) }
    ensures no_gates { OnErr result (gates.new ≡ gates.old) }
    ensures no_interests { OnErr result (interests.new ≡ interests.old) }
{
    let exits = let_told_out(gates, told)?;
    match interests.put(alloc, face, id, entry) {
        Ok(()) => Ok(exits),
        Err(_) => Err(undone(gates, told, exits)),
    }
}
