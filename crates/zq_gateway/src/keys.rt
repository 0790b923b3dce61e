//! Numbers that faces declare for keys.
ghost use Rattle.zq_machine.specs.declared.call.Call.TheVariants as call;
ghost use Rattle.zq_tables.specs.Naming.{face_naming, text_at};
ghost use Rattle.zq_machine.specs.TextCalls.{naming, unnaming};
ghost use Rattle.zq_gateway.specs.Making.{Makes, Settles};

use crate::tables::Tables;
use zq_key::memory::OutOfMemory;
use zq_key::message::{FaceId, WireExpr};
use zq_machine::call::{Refusal, Step};
use zq_tables::NameRefusal;
use zq_tables::resolved::Resolved;

impl Tables {
    // The face declares a number for a text.
    fn declare_key(&mut self, face: FaceId, id: u16, said: &Resolved) -> Result<Step, OutOfMemory>
        ensures { Settles self.old self.new (naming face id said.now (text_at id (face_naming face.0 self.old.names).theirs)) result }
    {
        if !self.is_open(face) {
            return Ok(self.refused(Refusal::UnknownFace));
        }
        let text = match said {
            Resolved::Unscoped => return Ok(self.refused(Refusal::UnknownScope)),
            Resolved::Empty => return Ok(self.refused(Refusal::InvalidKeyExpr)),
            Resolved::Full(text) => text,
        };
        match self.names.declare(face, id, text.as_str()) {
            Ok(()) => Ok(self.done()),
            Err(NameRefusal::InvalidKeyExpr) => Ok(self.refused(Refusal::InvalidKeyExpr)),
            Err(NameRefusal::Remapped) => Ok(self.refused(Refusal::Remapped)),
            Err(NameRefusal::OutOfMemory) => Err(OutOfMemory),
            Err(NameRefusal::UnknownScope) => unreachable!(),
            Err(NameRefusal::UnknownId) => unreachable!(),
        }
    }

    // The face gives a number up.
    pub(crate) fn undeclare_key(&mut self, face: FaceId, id: u16) -> Result<Step, OutOfMemory>
        ensures { Settles self.old self.new (unnaming face id (text_at id (face_naming face.0 self.old.names).theirs)) result }
    {
        if !self.is_open(face) {
            return Ok(self.refused(Refusal::UnknownFace));
        }
        if self.names.standing(face, id).is_none() {
            return Ok(self.refused(Refusal::UnknownId));
        }
        self.names.undeclare(face, id);
        Ok(self.done())
    }

    // A number that a face declares, with its expression read.
    pub(crate) fn name_key(
        &mut self,
        face: FaceId,
        id: u16,
        wire: &WireExpr,
    ) -> Result<Step, OutOfMemory>
        ensures { Makes self.old self.new (call.DeclareKeyExpr face id wire.now) result }
    {
        let said = self.said(face, wire)?;
        self.declare_key(face, id, &said)
    }
}
