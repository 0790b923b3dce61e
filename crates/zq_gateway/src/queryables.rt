//! Queryables that faces declare and withdraw, and marks of what they have declared.
ghost use Rattle.std.specs.Prelude.{◌≡◌, None, Some};
ghost use Rattle.zq_machine.specs.declared.call.Call.TheVariants as call;
ghost use Rattle.zq_machine.specs.Deciding.{refusal_of};
ghost use Rattle.zq_machine.specs.State.{face_region};
ghost use Rattle.zq_machine.specs.TextCalls.{declaring, finalizing, withdrawing};
ghost use Rattle.zq_gateway.specs.Gathering.{Gathers, OnlyIdsLack};
ghost use Rattle.zq_gateway.specs.Making.{IsReached, Makes, Settles};

use crate::leaving::done_telling;
use crate::tables::Tables;
use zq_dispatcher::changes::{Gathered, gather};
use zq_dispatcher::hats;
use zq_egress::holding::{Hold, hold_and_tell, take_back_held};
use zq_egress::neighbours::{take_back, tell_all};
use zq_egress::read::{key_said, marks_key};
use zq_egress::{register_told, withdraw_told};
use zq_key::Key;
use zq_key::items::Items;
use zq_key::memory::OutOfMemory;
use zq_key::message::{FaceId, QueryableInfoType, Region, WireExpr};
use zq_machine::call::{Refusal, Step};
use zq_strategy::types::{Change, FinalMark};
use zq_tables::resolved::Resolved;
use zq_told::types::TellRefusal;

impl Tables {
    // A face declares a queryable.
    pub(crate) fn declare_queryable(
        &mut self,
        face: FaceId,
        id: u32,
        said: &Resolved,
        info: QueryableInfoType,
        node: u16,
    ) -> Result<Step, OutOfMemory>
        requires { IsReached self.old }
        ensures { Settles self.old self.new (declaring face id said.now info node) result }
    {
        let Some(region) = self.region_of(face) else {
            return Ok(self.refused(Refusal::UnknownFace));
        };
        let key = match key_said(self.alloc, said)? {
            Ok(key) => key,
            Err(refusal) => return Ok(self.refused(refusal)),
        };
        let hat = hats::home(&self.hats, region, face);
        if hat.clashes(face, id, key.as_str()) {
            return Ok(self.refused(Refusal::IdInUse));
        }
        let change = Change::Declared { face, id, info };
        let found = gather(
            self.alloc,
            &self.faces,
            &self.hats,
            &self.interests,
            region,
            hat,
            change,
            key.as_str(),
        )?;
        self.put_queryable(region, face, id, &key, info, node, found)
    }

    // A queryable that nothing refuses but ids that lack is held and told, and put in place.
    fn put_queryable(
        &mut self,
        region: Region,
        face: FaceId,
        id: u32,
        key: &Key,
        info: QueryableInfoType,
        node: u16,
        found: Gathered,
    ) -> Result<Step, OutOfMemory>
        requires reached { IsReached self.old }
        requires home { face_region face.0 self.old.core ≡ Some region }
        requires ids { OnlyIdsLack self.old.core (declaring face id (Resolved.Full key.now) info node) }
        requires found { Gathers self.old.core (declaring face id (Resolved.Full key.now) info node) self.old.core.ears found.dues found.told }
        ensures { Settles self.old self.new (declaring face id (Resolved.Full key.now) info node) result }
    {
        let Gathered { told, dues } = found;
        let by = Hold::Queryable { face, id, key };
        let all = match hold_and_tell(
            self.alloc,
            &self.faces,
            &self.interests,
            &mut self.names,
            &mut self.ears,
            &by,
            dues.as_slice(),
            told,
        ) {
            Ok(all) => all,
            Err(TellRefusal::NoFreeId) => return Ok(self.refused(Refusal::NoFreeId)),
            Err(TellRefusal::OutOfMemory) => return Err(OutOfMemory),
        };
        match register_told(
            &mut self.gates,
            &mut self.hats,
            &all.told.handed,
            region,
            face,
            id,
            key,
            node,
            info,
        ) {
            Ok(exits) => Ok(done_telling(&mut self.ears, &mut self.gates, all.told, exits)),
            Err(_) => {
                take_back_held(&mut self.names, &mut self.ears, &all, &by);
                Err(OutOfMemory)
            }
        }
    }

    // A face withdraws a queryable.
    pub(crate) fn undeclare_queryable(
        &mut self,
        face: FaceId,
        id: u32,
        node: u16,
    ) -> Result<Step, OutOfMemory>
        requires { IsReached self.old }
        ensures { Settles self.old self.new (withdrawing face id) result }
    {
        let Some(region) = self.region_of(face) else {
            return Ok(self.refused(Refusal::UnknownFace));
        };
        let hat = hats::home(&self.hats, region, face);
        let Some(key) = hat.key_at(face, id) else {
            return Ok(self.refused(Refusal::UnknownId));
        };
        let change = Change::Withdrawn { face, id };
        let found = gather(
            self.alloc,
            &self.faces,
            &self.hats,
            &self.interests,
            region,
            hat,
            change,
            key,
        )?;
        self.remove_queryable(region, face, id, node, found)
    }

    // A queryable that nothing refuses to withdraw is told to be gone, and is let go.
    fn remove_queryable(
        &mut self,
        region: Region,
        face: FaceId,
        id: u32,
        node: u16,
        found: Gathered,
    ) -> Result<Step, OutOfMemory>
        requires reached { IsReached self.old }
        requires home { face_region face.0 self.old.core ≡ Some region }
        requires fits { refusal_of self.old.core (withdrawing face id) ≡ None }
        requires found { Gathers self.old.core (withdrawing face id) self.old.core.ears found.dues found.told }
        ensures { Settles self.old self.new (withdrawing face id) result }
    {
        let Gathered { told, dues } = found;
        let none = Items::new(self.alloc);
        let all = match tell_all(
            self.alloc,
            &self.faces,
            &self.interests,
            &mut self.names,
            &mut self.ears,
            dues.as_slice(),
            told,
            none,
        ) {
            Ok(all) => all,
            Err(TellRefusal::NoFreeId) => unreachable!(),
            Err(TellRefusal::OutOfMemory) => return Err(OutOfMemory),
        };
        match withdraw_told(
            &mut self.gates,
            &mut self.hats,
            &all.handed,
            region,
            face,
            id,
            node,
        ) {
            Ok(exits) => {
                self.names.release_queryable(face, id);
                Ok(done_telling(&mut self.ears, &mut self.gates, all, exits))
            }
            Err(_) => {
                take_back(&mut self.names, &mut self.ears, &all, 0);
                Err(OutOfMemory)
            }
        }
    }

    // A queryable that a face declares, with its expression read.
    pub(crate) fn register(
        &mut self,
        face: FaceId,
        id: u32,
        wire: &WireExpr,
        info: QueryableInfoType,
        node: u16,
    ) -> Result<Step, OutOfMemory>
        requires { IsReached self.old }
        ensures { Makes self.old self.new (call.DeclareQueryable face id wire.now info node) result }
    {
        let said = self.said(face, wire)?;
        if self.is_routing(face) {
            return self.change_entry(face, &said, Some(info), node);
        }
        self.declare_queryable(face, id, &said, info, node)
    }

    // A queryable that a face withdraws: by its expression in a region of routers, else by its id.
    pub(crate) fn unregister(
        &mut self,
        face: FaceId,
        id: u32,
        wire: &Option<WireExpr>,
        node: u16,
    ) -> Result<Step, OutOfMemory>
        requires { IsReached self.old }
        ensures { Makes self.old self.new (call.UndeclareQueryable face id wire.now node) result }
    {
        if self.is_routing(face) {
            let said = self.said_or_none(face, wire)?;
            return self.change_entry(face, &said, None, node);
        }
        self.undeclare_queryable(face, id, node)
    }

    /// A mark of a face is set or unset.
    pub fn finalize(
        &mut self,
        face: FaceId,
        mark: &FinalMark,
        set: bool,
    ) -> Result<Step, OutOfMemory>
        requires { IsReached self.old }
        ensures { Settles self.old self.new (finalizing face mark.now set) result }
    {
        let Some(region) = self.region_of(face) else {
            return Ok(self.refused(Refusal::UnknownFace));
        };
        if !marks_key(mark) {
            return Ok(self.refused(Refusal::InvalidKeyExpr));
        }
        hats::mark(&mut self.hats, region, face, mark, set)?;
        Ok(self.done())
    }
}
