//! The gateway: each call is one event.
#![tactic(auto, using(crate::proofs::Reached::reached_given))]

ghost use Rattle.std.specs.Prelude.{ℕ, List, length, None, IfErr, IfNone, IfSome, ◌≡◌, ◌<◌, ◌≤◌, [], true, false, IfOk};
ghost use Rattle.std.specs.List.{cons_option};
ghost use Rattle.zq_query.specs.Records.{flies, pending_count};
ghost use Rattle.zq_machine.specs.Asked.{replies_of};
ghost use Rattle.zq_machine.specs.Configs.{bad_config, north_of};
ghost use Rattle.zq_machine.specs.declared.call.Call.TheVariants as call;
ghost use Rattle.zq_machine.specs.Calls.{declared_call};
ghost use Rattle.zq_machine.specs.declared.call.Call.{Call};
ghost use Rattle.zq_machine.specs.Headline.{RunPromise};
ghost use Rattle.zq_trace.specs.Machine.{RunHeadline, RunTold};
ghost use Rattle.zq_machine.specs.Machine.{after, done, refused_step, step};
ghost use Rattle.zq_machine.specs.State.{opening_state};
ghost use Rattle.zq_tables.specs.Naming.{has_context};
ghost use Rattle.zq_gateway.specs.Contexts.{has_standing};
ghost use Rattle.zq_gateway.specs.Caching.{LetsGo, has_accepted};
ghost use Rattle.zq_gateway.specs.Making.{Performs, MayPerform};
ghost use Rattle.zq_hat.specs.Sourced.{all_queriers, all_queryables};

mod cached;
mod deadline;
mod sourced;

use crate::tables::Tables;
use std::alloc::Global;
use std::marker::Model;
use zq_dispatcher::hats::is_region;
use zq_hat::hat::Hat;
use zq_hat::queriers::all_queriers;
use zq_hat::queryables::all_queryables;
use zq_hat::sources::{Source, SourceList};
use zq_kept::cache::RouteCache;
use zq_key::memory::OutOfMemory;
use zq_key::message::{Declare, FaceId, Interest, Mode, Region, Request, Response, Zid};
use zq_machine::call::{Call, Opening, Outcome, Refusal, Step};
use zq_machine::config::Config;
use zq_machine::handed::Handed;
use zq_route::gateways::Gateways;
use zq_strategy::types::{FinalMark, Network, NodeIds};
use zq_tables::RegionMap;

/// What carries queries between faces. Whatever its tables keep, calls made it of a new gateway's, so that
/// all that holds of every run holds of it; and what is kept of what a region offers is what it offers now.
pub struct Gateway {
    tables: Tables,
    routes: RouteCache,
}

impl Drop for Gateway {
    fn drop(self) {
        let Gateway { tables, routes } = self;
    }
}

impl Model for Gateway {
    ghost use Rattle.zq_kept.specs.Current.{AreCurrent};
    ghost use Rattle.zq_gateway.specs.Caching.{Cached};
    ghost use Rattle.zq_gateway.specs.Making.{IsReached};

    ghost Value = { Cached };

    ghost view = { λ g. record { state = g.tables; routes = g.routes } };

    ghost invariant = { λ g. IsReached g.tables × AreCurrent g.routes g.tables.core.hats };
}

// Whether a call was accepted.
fn has_accepted(made: &Result<Step, OutOfMemory>) -> bool
    ensures { result ≡ has_accepted made.now }
{
    match made {
        Ok(step) => match step.outcome {
            Outcome::Refused(_) => false,
            _ => true,
        },
        Err(_) => false,
    }
}

// Where a call was accepted, no offers are kept any more of the region whose hat it changed, if it changed
// one.
fn let_go(routes: &mut RouteCache, region: Option<Region>, made: &Result<Step, OutOfMemory>)
    ensures { LetsGo region made.now routes.old routes.new }
{
    let Some(region) = region else {
        return;
    };
    if !is_region(region) {
        return;
    }
    if has_accepted(made) {
        routes.let_go(&region);
    }
}

impl Gateway {
    /// A gateway of this configuration, before any call. Whatever calls are made on it, one after
    /// another, their steps keep the headline and tell faces what is due to them, and each call keeps
    /// the promises of a run.
    pub fn new(alloc: Global, config: &Config) -> Result<Gateway, OutOfMemory>
        ensures opening { IfOk result (λ g. g.state ≡ opening_state config.now) }
        ensures headline { IfOk result (λ _. (calls : List Call) → RunHeadline config.now calls) }
        ensures told { IfOk result (λ _. (calls : List Call) → RunTold config.now calls) }
        ensures promise { IfOk result (λ _. (calls : List Call) → RunPromise config.now calls) }
        ensures valid { IfOk result (λ _. bad_config config.now.entries ≡ None) }
    {
        let _valid = config.entries();
        Ok(Gateway {
            tables: Tables::new(alloc, config)?,
            routes: RouteCache::new(alloc)?,
        })
    }

    /// Performs a call: one event, which is answered by a step. The first cause that holds refuses it,
    /// and then nothing changes; a call that finds no memory changes nothing either.
    pub fn call(&mut self, call: &Call) -> Result<Step, OutOfMemory>
        ensures { Performs self.old self.new call.now result }
    {
        let region = self.tables.region_changed(call);
        let made = self.tables.call(&mut self.routes, call);
        let_go(&mut self.routes, region, &made);
        made
    }

    /// A face is opened in its region, with its namespace and deny lists, if it has them. `InvalidKeyExpr`
    /// where the namespace is no plain key, or a deny list has what is no key.
    pub fn open_face(&mut self, opening: &Opening) -> Result<Step, OutOfMemory>
        ensures { Performs self.old self.new (call.Open opening.now) result }
    {
        let made = self.tables.open(opening);
        let_go(&mut self.routes, Some(opening.region), &made);
        made
    }

    /// A face is closed (upstream's `Primitives::send_close`).
    pub fn send_close(&mut self, face: FaceId) -> Result<Step, OutOfMemory>
        ensures { Performs self.old self.new (call.Close face) result }
    {
        let region = self.tables.region_of(face);
        let made = self.tables.close(face);
        let_go(&mut self.routes, region, &made);
        made
    }

    /// A request of a face at a moment (upstream's `Primitives::send_request`).
    pub fn send_request(
        &mut self,
        face: FaceId,
        msg: &Request,
        now: u64,
    ) -> Result<Step, OutOfMemory>
        ensures { Performs self.old self.new (call.Request face msg.now now) result }
    {
        self.tables.send_request(&mut self.routes, face, msg, now)
    }

    /// A request of a face at a moment, as `send_request` (upstream's `Face::route_query`).
    pub fn route_query(
        &mut self,
        face: FaceId,
        msg: &Request,
        now: u64,
    ) -> Result<Step, OutOfMemory>
        ensures { Performs self.old self.new (call.Request face msg.now now) result }
    {
        self.send_request(face, msg, now)
    }

    /// A reply of a target (upstream's `Primitives::send_response`).
    pub fn send_response(&mut self, face: FaceId, msg: &Response) -> Result<Step, OutOfMemory>
        ensures { Performs self.old self.new (call.Response face msg.now) result }
    {
        self.tables.send_response(face, msg)
    }

    /// A declaration of a face, of a number or of a queryable, or that one is given up (upstream's
    /// `Primitives::send_declare`). The end of declarations that answers the interest 0, which every
    /// face has from its opening, sets the face's initial mark; any other changes nothing.
    pub fn send_declare(&mut self, face: FaceId, msg: &Declare) -> Result<Step, OutOfMemory>
        ensures { MayPerform self.old self.new (declared_call face msg.now) result }
    {
        let region = self.tables.region_declared(face, msg);
        let made = self.tables.send_declare(face, msg);
        let_go(&mut self.routes, region, &made);
        made
    }

    /// A face asks to hear of the queryables on the keys that meet its interest's, or on all keys, from
    /// now on, or on its key alone, aggregated over all keys that meet it, and is answered by
    /// all that is due there, and by the end of declarations (upstream's `Primitives::send_interest`).
    /// `IdInUse` where the id stands for an interest in another key; one in the same key is replaced, and
    /// answered anew.
    pub fn send_interest(&mut self, face: FaceId, msg: &Interest) -> Result<Step, OutOfMemory>
        ensures { Performs self.old self.new (call.Interest face msg.now.id msg.now.keys msg.now.aggregate msg.now.wire) result }
    {
        self.tables
            .register_interest(face, msg.id, msg.keys, msg.aggregate, &msg.wire)
    }

    /// A face asks no longer under the id; it is handed what stays due on the interest's key with other
    /// information, if anything does (upstream's
    /// `Primitives::send_interest_final`). `UnknownId` where it has no interest of that id.
    pub fn send_interest_final(&mut self, face: FaceId, id: u32) -> Result<Step, OutOfMemory>
        ensures { Performs self.old self.new (call.InterestFinal face id) result }
    {
        self.tables.unregister_interest(face, id)
    }

    /// A mark of a face is set or unset: that all which it had to declare has come, at its opening
    /// or on a key. It decides what the face is offered without a declaration (upstream learns it
    /// from the finals of interests).
    pub fn finalize_local_interest(
        &mut self,
        face: FaceId,
        mark: &FinalMark,
        set: bool,
    ) -> Result<Step, OutOfMemory>
        ensures { Performs self.old self.new (call.FinalizeInterest face mark.now set) result }
    {
        let region = self.tables.region_of(face);
        let made = self.tables.finalize(face, mark, set);
        let_go(&mut self.routes, region, &made);
        made
    }

    /// A moment has come, in milliseconds: each entry whose deadline has come is released, with an error reply.
    pub fn poll(&mut self, now: u64) -> Result<Step, OutOfMemory>
        ensures { Performs self.old self.new (call.Poll now) result }
    {
        self.tables.pass(now)
    }

    /// The gateways of a region are listed.
    pub fn set_gateways(&mut self, region: Region, table: &Gateways) -> Result<Step, OutOfMemory>
        ensures { Performs self.old self.new (call.SetGateways region table.now) result }
    {
        self.tables.list_gateways(region, table)
    }

    /// A network of a region of routers is put in place: entries of routers that it does not list go,
    /// and children of its trees that are new are told what stands of the roots. Elsewhere it changes
    /// nothing. `UnknownRegion` where the region has no hat.
    pub fn set_network(&mut self, region: Region, net: &Network) -> Result<Step, OutOfMemory>
        ensures { Performs self.old self.new (call.SetNetwork region net.now) result }
    {
        let made = self.tables.set_network(region, net);
        let_go(&mut self.routes, Some(region), &made);
        made
    }

    /// The node numbers of a face stand for these ids from now on. `UnknownFace` where the face is not
    /// open.
    pub fn set_node_ids(&mut self, face: FaceId, ids: &NodeIds) -> Result<Step, OutOfMemory>
        ensures { Performs self.old self.new (call.SetNodeIds face ids.now) result }
    {
        let region = self.tables.region_of(face);
        let made = self.tables.set_node_ids(face, ids);
        let_go(&mut self.routes, region, &made);
        made
    }

    /// A target ends a query (upstream's `Primitives::send_response_final`); the final to the asker
    /// comes of it, or none. It takes no memory.
    pub fn send_response_final(&mut self, face: FaceId, rid: u32) -> Result<Option<Handed>, Refusal>
        ensures handed { IfOk result (λ o. step self.old.state (call.ResponseFinal face rid) ≡ done (cons_option o [])) }
        ensures refused { IfErr result (λ r. step self.old.state (call.ResponseFinal face rid) ≡ refused_step r) }
        ensures after { self.new.state ≡ after self.old.state (call.ResponseFinal face rid) }
        ensures routes { self.new.routes ≡ self.old.routes }
    {
        self.tables.send_response_final(face, rid)
    }

    /// A reply was sent; the final to the asker comes of it, or none. It takes no memory.
    pub fn sent(&mut self, reply: u64) -> Result<Option<Handed>, Refusal>
        ensures handed { IfOk result (λ o. step self.old.state (call.Sent reply) ≡ done (cons_option o [])) }
        ensures refused { IfErr result (λ r. step self.old.state (call.Sent reply) ≡ refused_step r) }
        ensures after { self.new.state ≡ after self.old.state (call.Sent reply) }
        ensures routes { self.new.routes ≡ self.old.routes }
    {
        self.tables.sent(reply)
    }

    /// Who declared each key, by text: the ids of those who did, region by region in the order of their
    /// places, and behind those of each south-bound region that has the key the gateway's own id, under
    /// the mode of North (upstream's `Tables::sourced_queryables`).
    pub fn sourced_queryables(&self) -> Result<SourceList, OutOfMemory>
        ensures { IfOk result (λ l. l ≡ all_queryables (record { zid = self.now.state.core.config.zid; mode = north_of self.now.state.core.config.entries }) self.now.state.core.hats) }
    {
        let own = Source {
            zid: self.zid(),
            mode: self.north(),
        };
        all_queryables(self.tables.alloc(), self.tables.hats(), own)
    }

    /// Who asks to hear of each key, by text: the ids of those who do, region by region in the order of
    /// their places (upstream's `Tables::sourced_queriers`).
    pub fn sourced_queriers(&self) -> Result<SourceList, OutOfMemory>
        ensures { IfOk result (λ l. l ≡ all_queriers self.now.state.core.interests self.now.state.core.hats) }
    {
        all_queriers(
            self.tables.alloc(),
            self.tables.hats(),
            self.tables.interests(),
        )
    }

    /// Whether the table of texts has a node for the key (upstream's resource with a context): the key, or
    /// one of which it is a part that ends before a `/`, is what a number, a queryable or an interest of
    /// an open face stands for, or the key of a router's entry. The empty text is the root's, which has
    /// none. It takes no memory.
    pub fn has_context(&self, key: &str) -> bool
        ensures names { result ≡ has_context key.now self.now.state.names }
        ensures standing { result ≡ has_standing key.now self.now.state }
    {
        self.tables.has_context(key)
    }

    /// How many entries of the request are pending; 0 where it is not open. It takes no memory.
    pub fn pending_of(&self, number: u64) -> u64
        ensures { result ≡ pending_count number self.now.state.core.queries.records }
    {
        self.tables.pending_of(number)
    }

    /// The least of the request's replies in flight, and None exactly where there is none. It takes no
    /// memory.
    pub fn first_in_flight(&self, number: u64) -> Option<u64>
        ensures there { IfSome result (λ reply. flies number reply self.now.state.core.queries.records ≡ true) }
        ensures least { IfSome result (λ reply. (earlier : ℕ) → earlier < reply → flies number earlier self.now.state.core.queries.records ≡ false) }
        ensures none { IfNone result ((reply : ℕ) → flies number reply self.now.state.core.queries.records ≡ false) }
    {
        self.tables.first_in_flight(number)
    }

    /// At most how many replies the call would hand, and so put in flight.
    pub fn most_replies(&self, call: &Call) -> Result<usize, OutOfMemory>
        ensures { IfOk result (λ n. length (replies_of (step self.now.state call.now)) ≤ n) }
    {
        self.tables.most_replies(call)
    }

    /// What it was made with.
    pub fn config(&self) -> &Config
        ensures { result.now ≡ self.now.state.core.config }
    {
        self.tables.config()
    }

    /// The hat of each region.
    pub fn hats(&self) -> &RegionMap<Hat>
        ensures { result.now ≡ self.now.state.core.hats }
    {
        self.tables.hats()
    }

    /// The gateway's own id.
    pub fn zid(&self) -> Zid
        ensures { result ≡ self.now.state.core.config.zid }
    {
        self.tables.config().zid()
    }

    /// The mode of the entry North.
    pub fn north(&self) -> Mode
        ensures { result ≡ north_of self.now.state.core.config.entries }
    {
        self.tables.config().north()
    }
}
