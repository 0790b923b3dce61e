//! Expressions of faces as they are read: each behind the namespace of the face that sends it.
ghost use Rattle.std.specs.Prelude.{◌≡◌, IfOk, unwrap_or};
ghost use Rattle.zq_tables.specs.Naming.{face_naming, said_of};
ghost use Rattle.zq_machine.specs.TextCalls.{asked_said, said, said_by_reply, said_if, said_or_none};

use crate::tables::Tables;
use zq_egress::read::full_text;
use zq_key::memory::OutOfMemory;
use zq_key::message::{FaceId, Request, Response, WireExpr};
use zq_tables::resolved::Resolved;

impl Tables {
    // What an expression says that is read as another, if there is one.
    fn said_as(
        &self,
        face: FaceId,
        entered: &Option<WireExpr>,
        wire: &WireExpr,
    ) -> Result<Resolved, OutOfMemory>
        ensures { IfOk result (λ s. s ≡ said_of (face_naming face.0 self.now.names) (unwrap_or entered.now wire.now)) }
    {
        match entered {
            Some(entered) => self.names.said(face, entered),
            None => self.names.said(face, wire),
        }
    }

    // What an expression says that the face sends.
    pub(crate) fn said(&self, face: FaceId, wire: &WireExpr) -> Result<Resolved, OutOfMemory>
        ensures { IfOk result (λ s. s ≡ said face wire.now self.now) }
    {
        let entered = self.gates.enter(face, wire)?;
        self.said_as(face, &entered, wire)
    }

    // What the expression of a reply of the face says.
    pub(crate) fn said_by_reply(
        &self,
        face: FaceId,
        response: &Response,
    ) -> Result<Resolved, OutOfMemory>
        ensures { IfOk result (λ s. s ≡ said_by_reply face response.now self.now) }
    {
        let entered = self.gates.enter_reply(face, response)?;
        self.said_as(face, &entered, &response.wire)
    }

    // What a request of the face asks for: nothing, where the face may not ask for it.
    #[tactic(auto, using(crate::proofs::Saying::says_is))]
    pub(crate) fn asked_said(
        &self,
        face: FaceId,
        request: &Request,
    ) -> Result<Resolved, OutOfMemory>
        ensures { IfOk result (λ s. s ≡ asked_said face request.now self.now) }
    {
        let said = self.said(face, &request.wire)?;
        if self.gates.denies(face, full_text(&said)) {
            return Ok(Resolved::Empty);
        }
        Ok(said)
    }

    // What an expression says that may be missing.
    pub(crate) fn said_or_none(
        &self,
        face: FaceId,
        wire: &Option<WireExpr>,
    ) -> Result<Resolved, OutOfMemory>
        ensures { IfOk result (λ s. s ≡ said_or_none face wire.now self.now) }
    {
        match wire {
            Some(wire) => self.said(face, wire),
            None => Ok(Resolved::Empty),
        }
    }

    // What an expression says, if there is one.
    pub(crate) fn said_if(
        &self,
        face: FaceId,
        wire: &Option<WireExpr>,
    ) -> Result<Option<Resolved>, OutOfMemory>
        ensures { IfOk result (λ s. s ≡ said_if face wire.now self.now) }
    {
        match wire {
            Some(wire) => Ok(Some(self.said(face, wire)?)),
            None => Ok(None),
        }
    }
}
