//! What faces ask to hear.
ghost use Rattle.std.specs.Prelude.{◌≡◌, [], OnOk, OnErr, IfOk, IsTrue, true};
ghost use Rattle.std.specs.List.{AllByRecursion};
ghost use Rattle.std.specs.Option.{option_copied, option_map};
ghost use Rattle.zq_key.specs.Key.{is_key};
ghost use Rattle.zq_interests.specs.Interests.{AreFolders, asks_another, asks_folded, asks_for, askers, at, closed_face, has_keyed, interest_at, with_interest, without_interest};

use crate::faces::{
    AskedMap, face_any, face_any_besides, face_any_with, face_asks_another, get_interest,
};
use crate::kept::{close_kept, end_kept, kept_askers, kept_folders, put_kept};
use crate::shelf::Shelf;
use crate::types::{FaceList, FolderList, InterestEntry, Test};
use std::alloc::Global;
use std::collections::BTreeMap;
use std::marker::Model;
use zq_key::Key;
use zq_key::memory::OutOfMemory;
use zq_key::message::FaceId;

/// What each face asks, under which ids; and once more by the texts of keys, so that those who ask for
/// a key are found without a look at the others.
pub struct Interests {
    faces: AskedMap,
    shelf: Shelf,
}

impl Drop for Interests {
    fn drop(self) {
        let Interests { faces, shelf } = self;
    }
}

impl Model for Interests {
    ghost use Rattle.zq_interests.specs.Interests.{Interests};
    ghost use Rattle.zq_interests.specs.Kept.{AreKept};

    ghost Value = { Interests };

    ghost view = { λ s. s.faces.entries };

    ghost invariant = { λ s. AreKept s.faces.entries s.shelf };
}

impl Interests {
    /// No interests.
    pub fn new(alloc: Global) -> Interests
        ensures { result ≡ [] }
    {
        Interests {
            faces: BTreeMap::new(alloc),
            shelf: Shelf::new(alloc),
        }
    }

    /// What the face asks under the id.
    pub fn get(&self, face: FaceId, id: u32) -> Option<&InterestEntry>
        ensures { option_copied result ≡ interest_at face.0 id self.now }
    {
        get_interest(&self.faces, face.0, id)
    }

    /// What the face asks, by id; none where it never asked, or went.
    pub fn asked_by(&self, face: FaceId) -> Option<&BTreeMap<u32, InterestEntry>>
        ensures { option_map (λ m. m.now.entries) result ≡ at face.0 self.now }
    {
        match self.faces.get(&face.0) {
            Some(asked) => Some(asked.entries()),
            None => None,
        }
    }

    /// The face asks this under the id, from now on; another interest under the id is replaced. All is as it
    /// was where memory is lacking.
    pub fn put(
        &mut self,
        alloc: Global,
        face: FaceId,
        id: u32,
        entry: InterestEntry,
    ) -> Result<(), OutOfMemory>
        ensures ok { OnOk result (self.new ≡ with_interest face.0 id entry self.old) }
        ensures err { OnErr result (self.new ≡ self.old) }
    {
        match put_kept(&mut self.faces, &mut self.shelf, alloc, face.0, id, entry) {
            Ok(()) => Ok(()),
            Err(error) => Err(error),
        }
    }

    /// The face asks nothing under the id, from now on. It takes no memory.
    pub fn end(&mut self, face: FaceId, id: u32)
        ensures { self.new ≡ without_interest face.0 id self.old }
    {
        end_kept(&mut self.faces, &mut self.shelf, face.0, id);
    }

    /// The face goes, with all that it asked.
    pub fn close(&mut self, face: FaceId)
        ensures { self.new ≡ closed_face face.0 self.old }
    {
        close_kept(&mut self.faces, &mut self.shelf, face.0);
    }

    /// Whether an interest of the face asks for the key. It looks at this face's interests alone.
    pub fn asks_for(&self, face: FaceId, key: &str) -> bool
        requires { IsTrue (is_key key.now) }
        ensures { result ≡ asks_for face.0 key.now self.now }
    {
        face_any(&self.faces, face.0, Test::Asks, key)
    }

    /// Whether an interest of the face under another id asks for the key, so that it asks for it once this
    /// one has ended. It looks at this face's interests alone.
    pub fn asks_besides(&self, face: FaceId, id: u32, key: &str) -> bool
        requires { IsTrue (is_key key.now) }
        ensures { result ≡ asks_for face.0 key.now (without_interest face.0 id self.now) }
    {
        face_any_besides(&self.faces, face.0, id, Test::Asks, key)
    }

    /// Whether an interest of the face asks for the key, once the face asks this under the id.
    pub fn asks_with(&self, face: FaceId, id: u32, entry: &InterestEntry, key: &str) -> bool
        requires { IsTrue (is_key key.now) }
        ensures { result ≡ asks_for face.0 key.now (with_interest face.0 id entry.now self.now) }
    {
        face_any_with(&self.faces, face.0, id, entry, Test::Asks, key)
    }

    /// Whether an interest of the face asks for the key aggregated over all keys that meet it. It
    /// looks at this face's interests alone.
    pub fn folds(&self, face: FaceId, key: &str) -> bool
        requires { IsTrue (is_key key.now) }
        ensures { result ≡ asks_folded face.0 key.now self.now }
    {
        face_any(&self.faces, face.0, Test::Folds, key)
    }

    /// Whether one under another id does.
    pub fn folds_besides(&self, face: FaceId, id: u32, key: &str) -> bool
        requires { IsTrue (is_key key.now) }
        ensures { result ≡ asks_folded face.0 key.now (without_interest face.0 id self.now) }
    {
        face_any_besides(&self.faces, face.0, id, Test::Folds, key)
    }

    /// Whether one asks for the key aggregated, once the face asks this under the id.
    pub fn folds_with(&self, face: FaceId, id: u32, entry: &InterestEntry, key: &str) -> bool
        requires { IsTrue (is_key key.now) }
        ensures { result ≡ asks_folded face.0 key.now (with_interest face.0 id entry.now self.now) }
    {
        face_any_with(&self.faces, face.0, id, entry, Test::Folds, key)
    }

    /// Whether the face asks for something else under the id: for another key, or for all where this is a
    /// key, or the other way round.
    pub fn asks_another(&self, face: FaceId, id: u32, asked: Option<&Key>) -> bool
        ensures { result ≡ asks_another face.0 id (option_copied asked.entry) self.now }
    {
        face_asks_another(&self.faces, face.0, id, asked)
    }

    /// Whether an interest of the face meets the key, and numbers may be declared for keys. It looks at this
    /// face's interests alone.
    pub fn has_keyed(&self, face: FaceId, key: &str) -> bool
        requires { IsTrue (is_key key.now) }
        ensures { result ≡ has_keyed face.0 key.now self.now }
    {
        face_any(&self.faces, face.0, Test::Keyed, key)
    }

    /// Whether one meets the key, and numbers may be declared for keys, once the face asks this under the id.
    pub(crate) fn has_keyed_with(
        &self,
        face: FaceId,
        id: u32,
        entry: &InterestEntry,
        key: &str,
    ) -> bool
        requires { IsTrue (is_key key.now) }
        ensures { result ≡ has_keyed face.0 key.now (with_interest face.0 id entry.now self.now) }
    {
        face_any_with(&self.faces, face.0, id, entry, Test::Keyed, key)
    }

    /// The faces with an interest that meets the key, in order of their numbers, each once. They are found by
    /// the texts of keys: interests in keys whose first bytes show that they do not meet this one are passed over.
    pub fn askers(&self, alloc: Global, key: &str) -> Result<FaceList, OutOfMemory>
        requires { IsTrue (is_key key.now) }
        ensures { IfOk result (λ l. l ≡ askers key.now self.now) }
    {
        kept_askers(&self.faces, &self.shelf, alloc, key)
    }

    /// The keys of aggregating interests that the key meets, each with its face; a face that has several
    /// interests in one key may have it several times. They are found by the texts of keys, as those who
    /// ask are.
    pub fn folders(&self, alloc: Global, key: &str) -> Result<FolderList, OutOfMemory>
        requires { IsTrue (is_key key.now) }
        ensures found { IfOk result (λ l. AreFolders key.now self.now l) }
        ensures valid { IfOk result (λ l. AllByRecursion (λ f. is_key f.key ≡ true) l) }
    {
        kept_folders(&self.faces, &self.shelf, alloc, key)
    }
}
