//! A gateway with a face of its own, which answers requests on who declared which key.
ghost use Rattle.std.specs.Prelude.{◌≡◌, ◌+◌, ◌≤◌, ◌<◌, [], IfNone, IfOk, IfSome, None};
ghost use Rattle.std.specs.Vec.{vec_capacity, vec_len};
ghost use Rattle.zq_admin.specs.Admin.{AnswersStep, Calls, IsAsked, IsJoined, RefusesFull, RefusesNew};
ghost use Rattle.zq_admin.specs.Answering.{first_asked, own_state};
ghost use Rattle.zq_admin.specs.Traced.{AsksTraced};

use crate::answering::{Asked, Begun, answer, put_step};
use crate::asking::{entries_asked, first_asked};
use crate::entries::AdminList;
use crate::opening::opened;
use crate::refusal::AdminRefusal;
use std::alloc::Global;
use std::marker::Model;
use zq_gateway::Gateway;
use zq_key::items::Items;
use zq_key::memory::OutOfMemory;
use zq_key::message::FaceId;
use zq_machine::call::{Call, Step, StepList};
use zq_machine::config::Config;

/// A gateway with a face of its own.
pub struct Admin {
    gateway: Gateway,
    own: FaceId,
    alloc: Global,
}

impl Drop for Admin {
    fn drop(self) {
        let Admin {
            gateway,
            own,
            alloc,
        } = self;
    }
}

impl Model for Admin {
    ghost use Rattle.zq_admin.specs.Admin.{Seat};

    ghost Value = { Seat };

    ghost view = { λ a. (a.own, a.gateway.state) };
}

/// Room for the step of a call and for a final.
fn begin(alloc: Global) -> Result<Begun, OutOfMemory>
    ensures steps { IfOk result (λ b. b.steps.items ≡ []) }
    ensures places { IfOk result (λ b. vec_len b.steps + 2 ≤ vec_capacity b.steps) }
    ensures empty { IfOk result (λ b. b.room.items ≡ []) }
    ensures room { IfOk result (λ b. vec_len b.room < vec_capacity b.room) }
{
    Ok(Begun {
        steps: Vec::with_capacity(alloc, 2)?,
        room: Vec::with_capacity(alloc, 1)?,
    })
}

/// What a step asks the own face: the id of the request there, and the entries.
fn asked_in(
    alloc: Global,
    gateway: &Gateway,
    own: FaceId,
    step: &Step,
) -> Option<(u32, Result<AdminList, OutOfMemory>)>
    ensures none { IfNone result (first_asked own step.now.handed ≡ None) }
    ensures some { IfSome result (λ a. IsAsked gateway.now.state (first_asked own step.now.handed) a.0 a.1) }
{
    match first_asked(own, step.handed.as_slice()) {
        Some(request) => Some((request.id, entries_asked(alloc, gateway, request))),
        None => None,
    }
}

/// The step of a call, and what the own face answers to the request that it hands it, if there is one.
fn answer_step(
    alloc: Global,
    gateway: &mut Gateway,
    own: FaceId,
    step: Step,
    begun: Begun,
) -> Result<StepList, AdminRefusal>
    requires steps { begun.steps.items ≡ [] }
    requires places { vec_len begun.steps + 2 ≤ vec_capacity begun.steps }
    requires empty { begun.room.items ≡ [] }
    requires room { vec_len begun.room < vec_capacity begun.room }
    ensures { AnswersStep own step gateway.old.state result gateway.new.state }
{
    let asked = asked_in(alloc, gateway, own, &step);
    let Begun { steps, room } = begun;
    let mut steps = steps;
    put_step(&mut steps, step);
    match asked {
        Some((rid, found)) => {
            let begun = Begun { steps, room };
            answer(alloc, gateway, Asked { own, rid }, found, begun)
        }
        None => Ok(Items::from_vec(steps)),
    }
}

impl Admin {
    /// A gateway of this configuration, with a face of its own in Local that has declared the queryable 1 on
    /// `@/ZID/**`. `NoLocal` where there is no Local region, `NoFreeId` where no number is left for the face.
    #[tactic(auto, using(crate::proofs::Joined::joined))]
    pub fn new(alloc: Global, config: &Config) -> Result<Admin, AdminRefusal>
        ensures ok { IfOk result (λ a. a ≡ (record { 0 = config.now.start.faces }, own_state (record { 0 = config.now.start.faces }) config.now)) }
        ensures joined { IfOk result (λ a. IsJoined a.0 config.now) }
        ensures refused { RefusesNew config.now result }
    {
        if !config.has_local() {
            return Err(AdminRefusal::NoLocal);
        }
        let number = config.counters().faces;
        if number == u32::MAX {
            return Err(AdminRefusal::NoFreeId);
        }
        let own = FaceId(number);
        match opened(alloc, config, own) {
            Ok(gateway) => Ok(Admin {
                gateway,
                own,
                alloc,
            }),
            Err(OutOfMemory) => Err(AdminRefusal::OutOfMemory),
        }
    }

    /// The view's own face.
    pub fn own(&self) -> FaceId
        ensures { result ≡ self.now.0 }
    {
        self.own
    }

    /// Performs a call. Where it hands the own face a request, that face answers it: by a reply for each entry
    /// that meets the request's key, in order, each reported as sent, and by its final. A reply that no number
    /// is left for ends them, and the final follows it. `OutOfMemory` where the call itself found no memory,
    /// and then nothing changed; `Cut` where the list or a reply found none.
    #[tactic(auto, using(crate::proofs::Traced::asks_traced, crate::proofs::Refusing::refuses_full))]
    pub fn call(&mut self, call: &Call) -> Result<StepList, AdminRefusal>
        ensures calls { Calls self.old self.new call.now result }
        ensures traced { AsksTraced self.old.0 self.old.1 call.now }
        ensures alone { RefusesFull self.old.0 self.old.1 call.now }
    {
        let Ok(begun) = begin(self.alloc) else {
            return Err(AdminRefusal::OutOfMemory);
        };
        match self.gateway.call(call) {
            Ok(step) => answer_step(self.alloc, &mut self.gateway, self.own, step, begun),
            Err(OutOfMemory) => Err(AdminRefusal::OutOfMemory),
        }
    }
}
