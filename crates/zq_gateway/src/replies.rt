//! Replies, finals, reports that a reply was sent, and moments that have come.
ghost use Rattle.std.specs.Prelude.{◌≡◌, ◌<◌, ◌+◌, ◌^◌, [], Some, map, true};
ghost use Rattle.std.specs.Option.{IsSome};
ghost use Rattle.std.specs.List.{list_any};
ghost use Rattle.zq_query.specs.Records.{has_number, next_reply};
ghost use Rattle.zq_machine.specs.Deciding.{messages_of, outcome_of};
ghost use Rattle.zq_machine.specs.Gates.{through};
ghost use Rattle.zq_machine.specs.Writing.{write};
ghost use Rattle.zq_machine.specs.Machine.{accepted_state};
ghost use Rattle.zq_machine.specs.TextCalls.{ending, passing, replying, reporting};
ghost use Rattle.zq_gateway.specs.Making.{Answers, Settles};

use crate::leaving::let_out;
use crate::tables::Tables;
use zq_egress::read::{into_text, is_unscoped, says_key_or_nothing};
use zq_egress::write::{final_in, room_for_final, written_replies, written_timeouts};
use zq_key::memory::OutOfMemory;
use zq_key::message::{FaceId, Response};
use zq_machine::call::{Outcome, Refusal, Step};
use zq_query::records::{PollRefusal, ReplyRefusal, ReplyTo};
use zq_tables::resolved::Resolved;

impl Tables {
    // A target ends a query.
    #[tactic(auto, using(zq_machine::proofs::Writing::finals_written))]
    pub(crate) fn response_final(&mut self, face: FaceId, rid: u32) -> Result<Step, OutOfMemory>
        ensures { Settles self.old self.new (ending face rid) result }
    {
        if !self.is_open(face) {
            return Ok(self.refused(Refusal::UnknownFace));
        }
        let room = room_for_final(self.alloc)?;
        match self.queries.last(face, rid) {
            Ok(last) => Ok(Step {
                outcome: Outcome::Done,
                handed: final_in(self.alloc, room, last),
            }),
            Err(_) => Ok(self.refused(Refusal::QueryNotFound)),
        }
    }

    // A reply was sent.
    #[tactic(auto, using(zq_machine::proofs::Writing::finals_written))]
    pub(crate) fn report(&mut self, reply: u64) -> Result<Step, OutOfMemory>
        ensures { Settles self.old self.new (reporting reply) result }
    {
        let room = room_for_final(self.alloc)?;
        match self.queries.sent(reply) {
            Ok(last) => Ok(Step {
                outcome: Outcome::Done,
                handed: final_in(self.alloc, room, last),
            }),
            Err(_) => Ok(self.refused(Refusal::NotInFlight)),
        }
    }

    // A reply of a target.
    pub(crate) fn reply(
        &mut self,
        face: FaceId,
        said: Resolved,
        response: &Response,
    ) -> Result<Step, OutOfMemory>
        ensures { Settles self.old self.new (replying face said response.now) result }
    {
        if !self.is_open(face) {
            return Ok(self.refused(Refusal::UnknownFace));
        }
        if is_unscoped(&said) {
            return Ok(self.refused(Refusal::UnknownScope));
        }
        match self.queries.would_reply(face, response.rid) {
            Ok(to) => {
                if !says_key_or_nothing(&said) {
                    return Ok(self.refused(Refusal::InvalidKeyExpr));
                }
                self.put_reply(face, said, response, &to)
            }
            Err(ReplyRefusal::NoFreeId) => {
                if !says_key_or_nothing(&said) {
                    return Ok(self.refused(Refusal::InvalidKeyExpr));
                }
                Ok(self.refused(Refusal::NoFreeId))
            }
            Err(ReplyRefusal::QueryNotFound) => Ok(self.refused(Refusal::QueryNotFound)),
            Err(ReplyRefusal::OutOfMemory) => unreachable!(),
        }
    }

    // A reply is handed to its asker and put in flight.
    fn put_reply(
        &mut self,
        face: FaceId,
        said: Resolved,
        response: &Response,
        to: &ReplyTo,
    ) -> Result<Step, OutOfMemory>
        requires next { next_reply face.0 response.now.rid self.old.core.queries ≡ Some to.now }
        requires there { list_any (has_number to.now.number) self.old.core.queries.records ≡ true }
        requires fits { IsSome to.now.reply → self.old.core.queries.replies + 1 < 2 ^ 64 }
        ensures { let call = replying face said response.now in
            Answers self.old self.new
            (record {
              outcome = outcome_of self.old.core call;
              handed = map (through [] self.old.gates) (write self.old.names (messages_of self.old.core call));
            })
            (accepted_state self.old call) result }
    {
        let text = into_text(self.alloc, said);
        let handed = written_replies(self.alloc, &self.names, text, response, to)?;
        let handed = let_out(&mut self.gates, "", handed)?;
        self.queries.put(to)?;
        Ok(Step {
            outcome: Outcome::Replied(to.reply),
            handed,
        })
    }

    /// A moment has come: entries whose deadlines have come are released.
    pub fn pass(&mut self, now: u64) -> Result<Step, OutOfMemory>
        ensures { Settles self.old self.new (passing now) result }
    {
        let timeouts = match self.queries.would_poll(now) {
            Ok(timeouts) => timeouts,
            Err(PollRefusal::NoFreeId) => return Ok(self.refused(Refusal::NoFreeId)),
            Err(PollRefusal::OutOfMemory) => return Err(OutOfMemory),
        };
        let handed = written_timeouts(self.alloc, &self.names, &self.faces, timeouts.as_slice())?;
        let handed = let_out(&mut self.gates, "", handed)?;
        self.queries.poll_planned(now, timeouts.as_slice())?;
        Ok(Step {
            outcome: Outcome::Done,
            handed,
        })
    }
}
