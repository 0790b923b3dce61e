//! Requests, and whom they are handed to.
ghost use Rattle.std.specs.Prelude.{◌≡◌, Some, [], true, false, IfOk, OnOk, map};
ghost use Rattle.zq_query.specs.Asking.{are_distinct, face_numbers, given_place};
ghost use Rattle.zq_machine.specs.Deciding.{opened};
ghost use Rattle.zq_machine.specs.Selecting.{full_text, says_key, select_for, target_of};
ghost use Rattle.zq_machine.specs.State.{at};
ghost use Rattle.zq_machine.specs.TextCalls.{asking};
ghost use Rattle.zq_machine.specs.declared.face.OpenFace.{OpenFace as Opened};
ghost use Rattle.zq_kept.specs.Current.{AreCurrent, KeepsNamed};
ghost use Rattle.zq_gateway.specs.Caching.{IsKeptOf};
ghost use Rattle.zq_gateway.specs.Making.{IsReached, Settles};
ghost use Rattle.zq_gateway.specs.Requesting.{asked_out};
ghost use Rattle.zq_dispatcher.specs.Seats.{seats};

use crate::leaving::{let_out, with_final};
use crate::tables::Tables;
use zq_dispatcher::hats;
use zq_egress::let_go_unsent;
use zq_egress::read::{full_text, into_text, says_key};
use zq_egress::select::{Asker, targets_of};
use zq_egress::write::{text_for, written_requests};
use zq_hat::hat::Hat;
use zq_kept::asking::Asking;
use zq_kept::cache::RouteCache;
use zq_key::memory::OutOfMemory;
use zq_key::message::{FaceId, Request};
use zq_machine::call::{Outcome, Refusal, Step};
use zq_machine::face::OpenFace;
use zq_machine::handed::HandedList;
use zq_query::records::{AskRefusal, Final};
use zq_strategy::types::QueryTargetQabl;
use zq_tables::RegionMap;
use zq_tables::resolved::Resolved;

// Who asks on this key.
fn asking_on<'a>(asker: Asker<'a>, hats: &'a RegionMap<Hat>, key: &'a str) -> Asking<'a>
    ensures { result ≡ record { asker = asker.entry; hats = hats.entry; key = key.entry } }
{
    Asking { asker, hats, key }
}

impl Tables {
    // The offers that a request is handed to, of each face one.
    fn select(
        &self,
        routes: &mut RouteCache,
        face: FaceId,
        opened: OpenFace,
        said: &Resolved,
        request: &Request,
    ) -> Result<Vec<QueryTargetQabl>, OutOfMemory>
        requires reached { IsReached self.now }
        requires open { at face.0 self.now.core.faces ≡ Some opened }
        requires seated { seats opened.region face.0 self.now.core.hats ≡ Some true }
        requires current { AreCurrent routes.old self.now.core.hats }
        ensures offers { IfOk result (λ v. v.items ≡ select_for self.now.core face said.now request.now (Some opened)) }
        ensures distinct { IfOk result (λ v. are_distinct (face_numbers (map target_of v.items)) ≡ true) }
        ensures kept { OnOk result (IsKeptOf self.now routes.new face request.now said.now opened) }
        ensures current { AreCurrent routes.new self.now.core.hats }
        ensures stays { KeepsNamed self.now.names routes.old routes.new }
    {
        if !says_key(said) {
            return Ok(Vec::new(self.alloc));
        }
        let asker = Asker {
            faces: &self.faces,
            tables: &self.tables,
            own: self.config.zid(),
            face,
            opened,
            source: hats::router_by(&self.hats, opened.region, face, request.node),
            context: hats::place_by(&self.hats, opened.region, face, request.node),
        };
        let asking = asking_on(asker, &self.hats, full_text(said));
        routes.offers_for(&asking, &self.names, request.target, self.config.best())
    }

    // What a request hands, and what leaves of it: a message to the face of each offer, and behind
    // them its final where none of them leaves.
    fn requests_out(
        &mut self,
        face: FaceId,
        said: Resolved,
        request: &Request,
        offers: &[QueryTargetQabl],
        places: &[(u32, u32)],
    ) -> Result<HandedList, OutOfMemory>
        requires key { says_key said ≡ false → offers.now ≡ [] }
        requires places { places.now ≡ map (given_place self.old.core.queries) (map target_of offers.now) }
        ensures out { IfOk result (λ l. l ≡ asked_out self.old face (full_text said) request.now offers.now) }
        ensures same { self.new ≡ self.old }
    {
        let text = text_for(self.alloc, into_text(self.alloc, said), offers.len())?;
        let handed = written_requests(
            self.alloc,
            &self.queries,
            &self.names,
            &text,
            request,
            offers,
            places,
        )?;
        let handed = let_out(&mut self.gates, text.as_str(), handed)?;
        let last = Final {
            number: self.queries.next_number(),
            asker: face,
            id: request.id,
            qos: request.qos,
        };
        with_final(handed, last)
    }

    // A request of a face.
    #[tactic(auto, using(crate::proofs::Asked::kept_for))]
    pub(crate) fn request(
        &mut self,
        routes: &mut RouteCache,
        face: FaceId,
        said: Resolved,
        request: &Request,
        now: u64,
    ) -> Result<Step, OutOfMemory>
        requires reached { IsReached self.old }
        requires current { AreCurrent routes.old self.old.core.hats }
        ensures settles { Settles self.old self.new (asking face said request.now now) result }
        ensures kept { OnOk result ((o : Opened) → at face.0 self.old.core.faces ≡ Some o → IsKeptOf self.old routes.new face request.now said o) }
        ensures current { AreCurrent routes.new self.old.core.hats }
        ensures stays { KeepsNamed self.old.names routes.old routes.new }
    {
        let Some(opened) = self.opened(face) else {
            return Ok(self.refused(Refusal::UnknownFace));
        };
        let offers = self.select(routes, face, opened, &said, request)?;
        let targets = targets_of(self.alloc, offers.as_slice())?;
        let places = match self.queries.plan(targets.as_slice()) {
            Ok(places) => places,
            Err(AskRefusal::NoFreeId) => return Ok(self.refused(Refusal::NoFreeId)),
            Err(AskRefusal::OutOfMemory) => return Err(OutOfMemory),
        };
        let handed = self.requests_out(face, said, request, offers.as_slice(), places.as_slice())?;
        let number = self.queries.next_number();
        let deadline = now.saturating_add(request.timeout.unwrap_or(self.config.timeout()));
        self.queries
            .ask_planned(face, request.id, request.qos, places.as_slice(), deadline)?;
        let_go_unsent(&mut self.queries, handed.as_slice());
        Ok(Step {
            outcome: Outcome::Asked(number),
            handed,
        })
    }
}
