//! What faces ask to hear.
ghost use Rattle.std.specs.Prelude.{◌≡◌, None, Some, IfErr, IfOk};
ghost use Rattle.std.specs.Option.{option_copied, option_map};
ghost use Rattle.zq_machine.specs.declared.call.Call.TheVariants as call;
ghost use Rattle.zq_machine.specs.Selecting.{full_text};
ghost use Rattle.zq_machine.specs.TextCalls.{hearing, unhearing};
ghost use Rattle.zq_egress.specs.Neighbours.{is_fresh};
ghost use Rattle.zq_gateway.specs.Asking.{asking_refusal, interest_looks, manner_of, said_by, said_key};
ghost use Rattle.zq_gateway.specs.Gathering.{OnlyIdsLack};
ghost use Rattle.zq_gateway.specs.Making.{IsReached, Makes, Settles};

use crate::leaving::done_telling;
use crate::tables::Tables;
use std::alloc::Global;
use zq_dispatcher::asked::{dues_asked, dues_ended};
use zq_dispatcher::types::DuesList;
use zq_egress::answers::{hold_and_answer, take_back_answered, tell_end};
use zq_egress::neighbours::take_back;
use zq_egress::read::key_said;
use zq_egress::without::WithoutInterest;
use zq_egress::{ask_told, let_told_out};
use zq_interests::numbers::WithInterest;
use zq_interests::types::InterestEntry;
use zq_key::Key;
use zq_key::memory::OutOfMemory;
use zq_key::message::{FaceId, WireExpr};
use zq_machine::call::{Refusal, Step};
use zq_tables::resolved::Resolved;
use zq_told::types::TellRefusal;

// The key that an interest asks for, none where it has no expression; or what refuses it.
fn key_asked(
    alloc: Global,
    said: &Option<Resolved>,
) -> Result<Result<Option<Key>, Refusal>, OutOfMemory>
    ensures key { IfOk result (λ r. IfOk r (λ k. k ≡ option_map full_text said.now)) }
    ensures says { IfOk result (λ r. IfOk r (λ k. said.now ≡ said_key k)) }
    ensures valid { IfOk result (λ r. IfOk r (λ k. asking_refusal said.now ≡ None)) }
    ensures refused { IfOk result (λ r. IfErr r (λ x. asking_refusal said.now ≡ Some x)) }
{
    let Some(said) = said else {
        return Ok(Ok(None));
    };
    match key_said(alloc, said)? {
        Ok(key) => Ok(Ok(Some(key))),
        Err(refusal) => Ok(Err(refusal)),
    }
}

impl Tables {
    // Whether an interest with the key, if it has one, would hold a node afresh.
    fn is_fresh(&self, face: FaceId, id: u32, key: Option<&Key>) -> bool
        ensures { result ≡ is_fresh face.0 id (option_copied key.entry) self.now.names }
    {
        match key {
            Some(_) => !self.names.holds_interest(face, id),
            None => false,
        }
    }

    // A face asks to hear of the keys that meet an expression's key, or of all; it is answered by all
    // that is due there.
    fn ask_to_hear(
        &mut self,
        face: FaceId,
        id: u32,
        keys: bool,
        aggregate: bool,
        said: &Option<Resolved>,
    ) -> Result<Step, OutOfMemory>
        requires { IsReached self.old }
        ensures { Settles self.old self.new (hearing face id (record { keys = keys; aggregate = aggregate }) said.now) result }
    {
        let Some(opened) = self.opened(face) else {
            return Ok(self.refused(Refusal::UnknownFace));
        };
        let key = match key_asked(self.alloc, said)? {
            Ok(key) => key,
            Err(refusal) => return Ok(self.refused(refusal)),
        };
        if self.interests.asks_another(face, id, key.as_ref()) {
            return Ok(self.refused(Refusal::IdInUse));
        }
        let entry = InterestEntry {
            key,
            keys,
            aggregate,
        };
        let dues = dues_asked(
            self.alloc,
            &self.hats,
            &self.interests,
            face,
            id,
            opened,
            &entry,
        )?;
        self.answer_interest(face, id, entry, dues)
    }

    // An interest that nothing refuses but ids that lack is answered by what it looks at, and is put in
    // place.
    fn answer_interest(
        &mut self,
        face: FaceId,
        id: u32,
        entry: InterestEntry,
        dues: DuesList,
    ) -> Result<Step, OutOfMemory>
        requires reached { IsReached self.old }
        requires ids { OnlyIdsLack self.old.core (hearing face id (manner_of entry) (said_by entry)) }
        requires dues { dues ≡ interest_looks self.old.core face id (manner_of entry) (said_by entry) }
        ensures { Settles self.old self.new (hearing face id (manner_of entry) (said_by entry)) result }
    {
        let held = entry.key.as_ref();
        let fresh = self.is_fresh(face, id, held);
        let asked = WithInterest {
            interests: &self.interests,
            face,
            id,
            entry: &entry,
        };
        let all = match hold_and_answer(
            self.alloc,
            &self.faces,
            &asked,
            &mut self.names,
            &mut self.ears,
            face,
            id,
            held,
            dues.as_slice(),
        ) {
            Ok(all) => all,
            Err(TellRefusal::NoFreeId) => return Ok(self.refused(Refusal::NoFreeId)),
            Err(TellRefusal::OutOfMemory) => return Err(OutOfMemory),
        };
        match ask_told(
            self.alloc,
            &mut self.gates,
            &mut self.interests,
            &all.handed,
            face,
            id,
            entry,
        ) {
            Ok(exits) => Ok(done_telling(&mut self.ears, &mut self.gates, all, exits)),
            Err(_) => {
                take_back_answered(&mut self.names, &mut self.ears, &all, face, id, fresh);
                Err(OutOfMemory)
            }
        }
    }

    /// A face asks to hear, with its expression read.
    pub fn register_interest(
        &mut self,
        face: FaceId,
        id: u32,
        keys: bool,
        aggregate: bool,
        wire: &Option<WireExpr>,
    ) -> Result<Step, OutOfMemory>
        requires { IsReached self.old }
        ensures { Makes self.old self.new (call.Interest face id keys aggregate wire.now) result }
    {
        let said = self.said_if(face, wire)?;
        self.ask_to_hear(face, id, keys, aggregate, &said)
    }

    /// A face asks no longer. It is told what stays due with other information, under the id that it has,
    /// which can be on the interest's own key alone; of what it was told only what is still due is kept.
    pub fn unregister_interest(&mut self, face: FaceId, id: u32) -> Result<Step, OutOfMemory>
        requires { IsReached self.old }
        ensures { Settles self.old self.new (unhearing face id) result }
    {
        let Some(opened) = self.opened(face) else {
            return Ok(self.refused(Refusal::UnknownFace));
        };
        let Some(entry) = self.interests.get(face, id) else {
            return Ok(self.refused(Refusal::UnknownId));
        };
        let dues = dues_ended(
            self.alloc,
            &self.hats,
            &self.interests,
            &self.ears,
            face,
            id,
            opened,
            entry.key.as_ref(),
        )?;
        let without = WithoutInterest {
            interests: &self.interests,
            face,
            id,
        };
        let all = tell_end(
            self.alloc,
            &self.faces,
            &without,
            &mut self.names,
            &mut self.ears,
            dues.as_slice(),
        )?;
        match let_told_out(&mut self.gates, &all.handed) {
            Ok(exits) => {
                self.interests.end(face, id);
                self.names.release_interest(face, id);
                Ok(done_telling(&mut self.ears, &mut self.gates, all, exits))
            }
            Err(_) => {
                take_back(&mut self.names, &mut self.ears, &all, 0);
                Err(OutOfMemory)
            }
        }
    }
}
