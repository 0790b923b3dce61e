//! What a gateway keeps, and a call by its kind.
ghost use Rattle.std.specs.Prelude.{◌≡◌, ℕ, ◌<◌, ◌≤◌, ◌^◌, [], true, false, length, Some, IfOk, IfErr, IfSome, IfNone, OnOk};
ghost use Rattle.zq_query.specs.Records.{flies, pending_count};
ghost use Rattle.zq_machine.specs.Asked.{replies_of};
ghost use Rattle.std.specs.List.{cons_option};
ghost use Rattle.zq_machine.specs.declared.call.Call.TheVariants as call;
ghost use Rattle.zq_machine.specs.Calls.{declared_call};
ghost use Rattle.zq_machine.specs.Machine.{after, done, refused_step, step};
ghost use Rattle.zq_machine.specs.State.{at, face_region, is_open, opening_state};
ghost use Rattle.zq_machine.specs.TextCalls.{listing};
ghost use Rattle.zq_tables.specs.Naming.{has_context};
ghost use Rattle.zq_gateway.specs.Contexts.{has_standing};
ghost use Rattle.zq_kept.specs.Current.{AreCurrent, KeepsNamed};
ghost use Rattle.zq_gateway.specs.Caching.{KeepsAsked, may_region_changed, region_changed};
ghost use Rattle.zq_gateway.specs.Making.{IsReached, Makes, MayMake, Settles};
ghost use Rattle.zq_dispatcher.specs.Seats.{seats};

use std::alloc::Global;
use std::collections::BTreeMap;
use std::marker::Model;
use zq_dispatcher::hats;
use zq_egress::FaceMuxes;
use zq_egress::write::written_final;
use zq_hat::hat::Hat;
use zq_interests::interests::Interests;
use zq_kept::cache::RouteCache;
use zq_key::items::Items;
use zq_key::memory::OutOfMemory;
use zq_key::message::{Declare, DeclareBody, FaceId, Region, Request, Response};
use zq_machine::call::{Call, Outcome, Refusal, Step};
use zq_machine::config::Config;
use zq_machine::face::OpenFace;
use zq_machine::handed::Handed;
use zq_query::queries::Queries;
use zq_query::records::PollRefusal;
use zq_route::gateways::Gateways;
use zq_strategy::types::FinalMark;
use zq_tables::RegionMap;
use zq_tables::naming::Naming;
use zq_told::told_sets::ToldSets;

/// What a gateway keeps (upstream's `Tables` with its faces): the open faces, a hat for each region,
/// the gateways that were listed, the open queries, the numbers of keys, what faces ask to hear,
/// what they were told, and the gates of those that have one.
pub struct Tables {
    pub(crate) alloc: Global,
    pub(crate) config: Config,
    pub(crate) faces: BTreeMap<u32, OpenFace>,
    pub(crate) next_face: u32,
    pub(crate) hats: RegionMap<Hat>,
    pub(crate) tables: RegionMap<Gateways>,
    pub(crate) queries: Queries,
    pub(crate) names: Naming,
    pub(crate) interests: Interests,
    pub(crate) ears: ToldSets,
    pub(crate) gates: FaceMuxes,
}

impl Drop for Tables {
    fn drop(self) {
        let Tables {
            alloc,
            config,
            faces,
            next_face,
            hats,
            tables,
            queries,
            names,
            interests,
            ears,
            gates,
        } = self;
    }
}

impl Model for Tables {
    ghost use Rattle.zq_told.specs.Rooms.{ears_of};
    ghost use Rattle.zq_machine.specs.State.{State};

    ghost Value = { State };

    ghost view = { λ t. record {
      core = record {
        config = t.config;
        faces = t.faces.entries;
        next_face = t.next_face;
        hats = t.hats;
        tables = t.tables;
        queries = t.queries;
        interests = t.interests;
        ears = ears_of t.ears;
      };
      names = t.names;
      gates = t.gates;
    } };
}

impl Tables {
    /// A new gateway's.
    pub fn new(alloc: Global, config: &Config) -> Result<Tables, OutOfMemory>
        ensures opening { IfOk result (λ t. t ≡ opening_state config.now) }
        ensures low { OnOk result (config.now.start.told < 2 ^ 32) }
    {
        let counters = *config.counters();
        let _told = counters.told;
        Ok(Tables {
            alloc,
            config: config.copy(alloc)?,
            faces: BTreeMap::new(alloc),
            next_face: counters.faces,
            hats: hats::first_hats(alloc, config)?,
            tables: RegionMap::new(alloc),
            queries: Queries::new(
                alloc,
                counters.requests,
                counters.replies,
                counters.request_ids,
            ),
            names: Naming::new(alloc)?,
            interests: Interests::new(alloc),
            ears: ToldSets::new(alloc),
            gates: FaceMuxes::new(alloc),
        })
    }

    /// What the gateway was made with.
    pub fn config(&self) -> &Config
        ensures { result.now ≡ self.now.core.config }
    {
        &self.config
    }

    /// The allocator that all of it is kept in.
    pub fn alloc(&self) -> Global {
        self.alloc
    }

    /// The hat of each region.
    pub fn hats(&self) -> &RegionMap<Hat>
        ensures { result.now ≡ self.now.core.hats }
    {
        &self.hats
    }

    /// What faces ask to hear.
    pub fn interests(&self) -> &Interests
        ensures { result.now ≡ self.now.core.interests }
    {
        &self.interests
    }

    /// Makes a call: one event, which is answered by a step. The first cause that holds refuses it,
    /// and then nothing changes; a call that finds no memory changes nothing either.
    pub fn call(&mut self, routes: &mut RouteCache, call: &Call) -> Result<Step, OutOfMemory>
        requires reached { IsReached self.old }
        requires current { AreCurrent routes.old self.old.core.hats }
        ensures makes { Makes self.old self.new call.now result }
        ensures kept { OnOk result (KeepsAsked self.old routes.new call.now) }
        ensures current { AreCurrent routes.new self.old.core.hats }
        ensures stays { KeepsNamed self.old.names routes.old routes.new }
    {
        match call {
            Call::Open(asked) => self.open(asked),
            Call::Close { face } => self.close(*face),
            Call::DeclareKeyExpr { face, id, wire } => self.name_key(*face, *id, wire),
            Call::UndeclareKeyExpr { face, id } => self.undeclare_key(*face, *id),
            Call::DeclareQueryable {
                face,
                id,
                wire,
                info,
                node,
            } => self.register(*face, *id, wire, *info, *node),
            Call::UndeclareQueryable {
                face,
                id,
                wire,
                node,
            } => self.unregister(*face, *id, wire, *node),
            Call::Request { face, request, now } => self.send_request(routes, *face, request, *now),
            Call::Response { face, response } => self.send_response(*face, response),
            Call::ResponseFinal { face, rid } => self.response_final(*face, *rid),
            Call::Sent { reply } => self.report(*reply),
            Call::Poll { now } => self.pass(*now),
            Call::SetGateways { region, table } => self.list_gateways(*region, table),
            Call::FinalizeInterest { face, mark, set } => self.finalize(*face, mark, *set),
            Call::Interest {
                face,
                id,
                keys,
                aggregate,
                wire,
            } => self.register_interest(*face, *id, *keys, *aggregate, wire),
            Call::InterestFinal { face, id } => self.unregister_interest(*face, *id),
            Call::SetNetwork { region, net } => self.set_network(*region, net),
            Call::SetNodeIds { face, ids } => self.set_node_ids(*face, ids),
        }
    }

    /// A request of a face, with its expression read.
    pub fn send_request(
        &mut self,
        routes: &mut RouteCache,
        face: FaceId,
        msg: &Request,
        now: u64,
    ) -> Result<Step, OutOfMemory>
        requires reached { IsReached self.old }
        requires current { AreCurrent routes.old self.old.core.hats }
        ensures makes { Makes self.old self.new (call.Request face msg.now now) result }
        ensures kept { OnOk result (KeepsAsked self.old routes.new (call.Request face msg.now now)) }
        ensures current { AreCurrent routes.new self.old.core.hats }
        ensures stays { KeepsNamed self.old.names routes.old routes.new }
    {
        let said = self.asked_said(face, msg)?;
        self.request(routes, face, said, msg, now)
    }

    /// A reply of a target, with its expression read.
    pub fn send_response(&mut self, face: FaceId, msg: &Response) -> Result<Step, OutOfMemory>
        ensures { Makes self.old self.new (call.Response face msg.now) result }
    {
        let said = self.said_by_reply(face, msg)?;
        self.reply(face, said, msg)
    }

    /// A declaration of a face.
    pub fn send_declare(&mut self, face: FaceId, msg: &Declare) -> Result<Step, OutOfMemory>
        requires reached { IsReached self.old }
        ensures { MayMake self.old self.new (declared_call face msg.now) result }
    {
        match &msg.body {
            DeclareBody::DeclareKeyExpr { id, wire } => self.name_key(face, *id, wire),
            DeclareBody::UndeclareKeyExpr { id } => self.undeclare_key(face, *id),
            DeclareBody::DeclareQueryable { id, wire, info } => {
                self.register(face, *id, wire, *info, msg.node)
            }
            DeclareBody::UndeclareQueryable { id, wire } => {
                self.unregister(face, *id, wire, msg.node)
            }
            DeclareBody::DeclareFinal => match msg.interest {
                Some(0) => self.finalize(face, &FinalMark::Initial, true),
                _ => Ok(self.done()),
            },
        }
    }

    /// A target ends a query. It takes no memory.
    #[tactic(auto, using(zq_machine::proofs::Writing::finals_written))]
    pub fn send_response_final(&mut self, face: FaceId, rid: u32) -> Result<Option<Handed>, Refusal>
        ensures handed { IfOk result (λ o. step self.old (call.ResponseFinal face rid) ≡ done (cons_option o [])) }
        ensures refused { IfErr result (λ r. step self.old (call.ResponseFinal face rid) ≡ refused_step r) }
        ensures after { self.new ≡ after self.old (call.ResponseFinal face rid) }
    {
        if !self.is_open(face) {
            return Err(Refusal::UnknownFace);
        }
        match self.queries.last(face, rid) {
            Ok(Some(last)) => Ok(Some(written_final(last))),
            Ok(None) => Ok(None),
            Err(_) => Err(Refusal::QueryNotFound),
        }
    }

    /// A reply was sent. It takes no memory.
    #[tactic(auto, using(zq_machine::proofs::Writing::finals_written))]
    pub fn sent(&mut self, reply: u64) -> Result<Option<Handed>, Refusal>
        ensures handed { IfOk result (λ o. step self.old (call.Sent reply) ≡ done (cons_option o [])) }
        ensures refused { IfErr result (λ r. step self.old (call.Sent reply) ≡ refused_step r) }
        ensures after { self.new ≡ after self.old (call.Sent reply) }
    {
        match self.queries.sent(reply) {
            Ok(Some(last)) => Ok(Some(written_final(last))),
            Ok(None) => Ok(None),
            Err(_) => Err(Refusal::NotInFlight),
        }
    }

    /// Whether the table of texts has a node for the key. It takes no memory.
    pub fn has_context(&self, key: &str) -> bool
        requires { IsReached self.now }
        ensures names { result ≡ has_context key.now self.now.names }
        ensures standing { result ≡ has_standing key.now self.now }
    {
        self.names.has_context(key)
    }

    /// How many entries of the request are pending; 0 where it is not open. It takes no memory.
    pub fn pending_of(&self, number: u64) -> u64
        ensures { result ≡ pending_count number self.now.core.queries.records }
    {
        self.queries.pending_of(number)
    }

    /// The least reply in flight of the request. It takes no memory.
    pub fn first_in_flight(&self, number: u64) -> Option<u64>
        ensures there { IfSome result (λ reply. flies number reply self.now.core.queries.records ≡ true) }
        ensures least { IfSome result (λ reply. (earlier : ℕ) → earlier < reply → flies number earlier self.now.core.queries.records ≡ false) }
        ensures none { IfNone result ((reply : ℕ) → flies number reply self.now.core.queries.records ≡ false) }
    {
        self.queries.first_in_flight(number)
    }

    /// At most how many replies the call would hand, and so put in flight.
    #[tactic(auto, using(crate::proofs::Passing::passing_hands, crate::proofs::Passing::lacking_hands, crate::proofs::Passing::response_hands, crate::proofs::Passing::others_hand))]
    pub fn most_replies(&self, call: &Call) -> Result<usize, OutOfMemory>
        ensures { IfOk result (λ n. length (replies_of (step self.now call.now)) ≤ n) }
    {
        match call {
            Call::Poll { now } => match self.queries.would_poll(*now) {
                Ok(timeouts) => Ok(timeouts.as_slice().len()),
                Err(PollRefusal::NoFreeId) => Ok(0),
                Err(PollRefusal::OutOfMemory) => Err(OutOfMemory),
            },
            Call::Response { .. } => Ok(1),
            _ => Ok(0),
        }
    }

    pub(crate) fn refused(&self, refusal: Refusal) -> Step
        ensures { result ≡ refused_step refusal }
    {
        Step {
            outcome: Outcome::Refused(refusal),
            handed: Items::new(self.alloc),
        }
    }

    pub(crate) fn done(&self) -> Step
        ensures { result ≡ done [] }
    {
        Step {
            outcome: Outcome::Done,
            handed: Items::new(self.alloc),
        }
    }

    pub(crate) fn is_open(&self, face: FaceId) -> bool
        ensures { result ≡ is_open face.0 self.now.core }
    {
        self.faces.contains_key(&face.0)
    }

    /// The region of an open face. Its hat has the face.
    #[tactic(auto, using(crate::proofs::Reached::reached_seated))]
    pub(crate) fn region_of(&self, face: FaceId) -> Option<Region>
        requires { IsReached self.now }
        ensures region { result ≡ face_region face.0 self.now.core }
        ensures seated { IfSome result (λ r. seats r face.0 self.now.core.hats ≡ Some true) }
    {
        match self.faces.get(&face.0) {
            Some(open) => Some(open.region),
            None => None,
        }
    }

    /// An open face. The hat of its region has it.
    #[tactic(auto, using(crate::proofs::Reached::reached_seated))]
    pub(crate) fn opened(&self, face: FaceId) -> Option<OpenFace>
        requires { IsReached self.now }
        ensures found { result ≡ at face.0 self.now.core.faces }
        ensures seated { IfSome result (λ o. seats o.region face.0 self.now.core.hats ≡ Some true) }
    {
        match self.faces.get(&face.0) {
            Some(opened) => Some(*opened),
            None => None,
        }
    }

    /// The region whose hat the call changes, if it changes one.
    pub(crate) fn region_changed(&self, call: &Call) -> Option<Region>
        requires { IsReached self.now }
        ensures { result ≡ region_changed self.now call.now }
    {
        match call {
            Call::Open(asked) => Some(asked.region),
            Call::SetNetwork { region, .. } => Some(*region),
            Call::Close { face } => self.region_of(*face),
            Call::DeclareQueryable { face, .. } => self.region_of(*face),
            Call::UndeclareQueryable { face, .. } => self.region_of(*face),
            Call::FinalizeInterest { face, .. } => self.region_of(*face),
            Call::SetNodeIds { face, .. } => self.region_of(*face),
            _ => None,
        }
    }

    /// The region whose hat the call changes that a declaration makes, if it makes one that does.
    pub(crate) fn region_declared(&self, face: FaceId, msg: &Declare) -> Option<Region>
        requires { IsReached self.now }
        ensures { result ≡ may_region_changed self.now (declared_call face msg.now) }
    {
        match &msg.body {
            DeclareBody::DeclareQueryable { .. } => self.region_of(face),
            DeclareBody::UndeclareQueryable { .. } => self.region_of(face),
            DeclareBody::DeclareFinal => match msg.interest {
                Some(0) => self.region_of(face),
                _ => None,
            },
            _ => None,
        }
    }

    /// The gateways of a region are listed.
    pub fn list_gateways(&mut self, region: Region, table: &Gateways) -> Result<Step, OutOfMemory>
        ensures { Settles self.old self.new (listing region table.now) result }
    {
        if hats::hat_at(&self.hats, region).is_none() {
            return Ok(self.refused(Refusal::UnknownRegion));
        }
        let copy = table.copy(self.alloc)?;
        hats::put_table(&mut self.tables, region, copy)?;
        Ok(self.done())
    }
}
