//! What all faces were told. A call is planned, room is made for what it tells, and the plan is put:
//! only the last step changes what was told, and it cannot fail.
ghost use Rattle.std.specs.Prelude.{◌≡◌, List, [], true, false, IfOk, OnOk, OnErr, IsErrOf};
ghost use Rattle.zq_told.specs.ToldSets.{closed, last_at, opened, told_at, told_keys};
ghost use Rattle.zq_told.specs.Rooms.{AreBare, IsReady, ears_of};
ghost use Rattle.zq_told.specs.Telling.{lacks_ids, put_plan, tell_faces};

use crate::book::Book;
use crate::books::{BookMap, give_back_faces, make_room, plan_faces, put_faces};
use crate::types::{FacePlan, FaceUpdate, Planned, Reason, TellRefusal, ToldEntry};
use std::alloc::Global;
use std::collections::BTreeMap;
use std::marker::Model;
use zq_key::items::Items;
use zq_key::memory::OutOfMemory;
use zq_key::message::{FaceId, TextList};

/// What each face was told, and the id that it was given last.
pub struct ToldSets {
    books: BookMap,
}

impl Drop for ToldSets {
    fn drop(self) {
        let ToldSets { books } = self;
    }
}

impl Model for ToldSets {
    ghost use Rattle.zq_told.specs.Rooms.{Books};

    ghost Value = { Books };

    ghost view = { λ e. e.books.entries };
}

impl ToldSets {
    /// No faces.
    pub fn new(alloc: Global) -> ToldSets
        ensures { ears_of result ≡ [] }
    {
        ToldSets {
            books: BTreeMap::new(alloc),
        }
    }

    /// A face that was told nothing is there; its next id is the one after the last. There is no more room
    /// than before.
    pub fn open(&mut self, alloc: Global, face: FaceId, last: u32) -> Result<(), OutOfMemory>
        ensures ok { OnOk result (ears_of self.new ≡ opened face.0 last (ears_of self.old)) }
        ensures err { OnErr result (ears_of self.new ≡ ears_of self.old) }
        ensures rooms { (plan : List FacePlan) → AreBare plan self.old → AreBare plan self.new }
    {
        match self.books.insert(face.0, Book::new(alloc, last)) {
            Ok(_) => Ok(()),
            Err(_) => Err(OutOfMemory),
        }
    }

    /// The face goes, with all that it was told and its rooms.
    pub fn close(&mut self, face: FaceId)
        ensures ears { ears_of self.new ≡ closed face.0 (ears_of self.old) }
        ensures rooms { (plan : List FacePlan) → AreBare plan self.old → AreBare plan self.new }
    {
        let _ = self.books.remove(&face.0);
    }

    /// What the face was told of the key.
    pub fn told_of(&self, face: FaceId, key: &str) -> Option<ToldEntry>
        ensures { result ≡ told_at face.0 key.now (ears_of self.now) }
    {
        match self.books.get(&face.0) {
            Some(book) => book.get(key),
            None => None,
        }
    }

    /// The keys that the face was told, in order; none where it is not there. It looks at this face
    /// alone. Refused only where memory is lacking.
    pub fn told_keys(&self, alloc: Global, face: FaceId) -> Result<TextList, OutOfMemory>
        ensures { IfOk result (λ ks. ks ≡ told_keys face.0 (ears_of self.now)) }
    {
        match self.books.get(&face.0) {
            Some(book) => book.told_keys(alloc),
            None => Ok(Items::new(alloc)),
        }
    }

    /// The id that the face was given last, if it is there.
    pub fn last(&self, face: FaceId) -> Option<u32>
        ensures { result ≡ last_at face.0 (ears_of self.now) }
    {
        match self.books.get(&face.0) {
            Some(book) => Some(book.last()),
            None => None,
        }
    }

    /// What the faces are told of the keys that a call looks at, in the order in which the call has
    /// them, and what it leaves of them; faces that are not there are told nothing. `NoFreeId` where a
    /// face needs an id above those of 32 bits.
    pub fn plan(
        &self,
        alloc: Global,
        way: Reason,
        dues: &[FaceUpdate],
    ) -> Result<Planned, TellRefusal>
        ensures ok { IfOk result (λ p. p ≡ tell_faces way (ears_of self.now) dues.now) }
        ensures free { OnOk result (lacks_ids way (ears_of self.now) dues.now ≡ false) }
        ensures no_free { IsErrOf result TellRefusal.NoFreeId → lacks_ids way (ears_of self.now) dues.now ≡ true }
    {
        plan_faces(&self.books, alloc, way, dues)
    }

    /// The rooms of a plan that is not put are given back.
    pub fn give_back(&mut self, plan: &[FacePlan])
        ensures ears { ears_of self.new ≡ ears_of self.old }
        ensures bare { AreBare plan.now self.new }
    {
        give_back_faces(&mut self.books, plan);
    }

    /// Room for what a plan tells, so that it can be put. Nothing else changes; where memory is lacking,
    /// the room that was made is given back.
    pub fn make_room(&mut self, alloc: Global, plan: &[FacePlan]) -> Result<(), OutOfMemory>
        ensures ears { ears_of self.new ≡ ears_of self.old }
        ensures ready { OnOk result (IsReady plan.now self.new) }
        ensures bare { OnErr result (AreBare plan.now self.new) }
    {
        make_room(&mut self.books, alloc, plan)?;
        Ok(())
    }

    /// The faces were told what the plan says, from now on; rooms that it leaves empty are given back.
    /// There is room for it, and it takes no memory.
    pub fn put(&mut self, plan: &[FacePlan])
        requires { IsReady plan.now self.old }
        ensures ears { ears_of self.new ≡ put_plan plan.now (ears_of self.old) }
        ensures bare { AreBare plan.now self.new }
    {
        put_faces(&mut self.books, plan);
        give_back_faces(&mut self.books, plan);
    }
}
