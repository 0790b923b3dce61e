//! A route that takes each face once.
ghost use Rattle.std.specs.Prelude.{◌≡◌, ◌++◌, ◌∷◌, [], true, false, Option, Ok, OnOk, OnErr};
ghost use Rattle.std.specs.Map.{values_of};
ghost use Rattle.zq_route.specs.Built.{has_face, pair_of};

use crate::taken::Taken;
use std::alloc::Global;
use std::marker::Model;
use zq_key::memory::OutOfMemory;
use zq_key::message::FaceId;

/// Elements for faces, in the order in which they came; each face has its first (upstream's
/// `RouteBuilder`).
pub struct RouteBuilder<T> {
    faces: Taken,
    route: Vec<T>,
}

impl<T: Drop> Drop for RouteBuilder<T> {
    fn drop(self) {
        let RouteBuilder { faces, route } = self;
    }
}

impl<T> Model for RouteBuilder<T> {
    ghost use Rattle.std.specs.Prelude.{List, ℕ, ◌≡◌, length};
    ghost use Rattle.std.specs.List.{zip};

    ghost Value = { List (ℕ × T) };

    ghost view = { λ b. zip b.faces b.route.items };

    ghost invariant = { λ b. length b.faces ≡ length b.route.items };
}

impl<T> RouteBuilder<T> {
    /// A route without elements.
    pub fn new(alloc: Global) -> RouteBuilder<T>
        ensures { result ≡ [] }
    {
        RouteBuilder {
            faces: Taken::new(alloc),
            route: Vec::new(alloc),
        }
    }

    /// Whether the face has an element.
    pub fn has_face(&self, face: FaceId) -> bool
        ensures { result ≡ has_face face.0 self.now }
    {
        self.faces.has(face.0)
    }

    /// Adds an element for a face that has none.
    pub fn put(&mut self, face: FaceId, element: T) -> Result<(), OutOfMemory>
    where
        T: Drop,
        requires { has_face face.0 self.old ≡ false }
        ensures ok { OnOk result (self.new ≡ self.old ++ (face.0, element) ∷ []) }
        ensures err { OnErr result (self.new ≡ self.old) }
    {
        self.route.reserve(1)?;
        match self.faces.put(face.0) {
            Ok(()) => {}
            Err(error) => return Err(error),
        }
        self.route.push_reserved(element);
        Ok(())
    }

    /// Gives the face what `direction` answers, unless it has an element.
    pub fn insert<F: FnOnce() -> T>(
        &mut self,
        face: FaceId,
        direction: F,
    ) -> Result<(), OutOfMemory>
    where
        T: Drop,
        F: Drop,
        requires { F.IsAlwaysCallable direction }
        ensures there { has_face face.0 self.old ≡ true → (self.new ≡ self.old) × (result ≡ Ok tt) }
        ensures added { has_face face.0 self.old ≡ false → OnOk result ((d : T) × F.post direction d × (self.new ≡ self.old ++ (face.0, d) ∷ [])) }
        ensures err { OnErr result (self.new ≡ self.old) }
    {
        if self.has_face(face) {
            return Ok(());
        }
        self.put(face, direction())
    }

    /// Gives the face what `direction` answers, if that is something and the face has no element.
    pub fn try_insert<F: FnOnce() -> Option<T>>(
        &mut self,
        face: FaceId,
        direction: F,
    ) -> Result<(), OutOfMemory>
    where
        T: Drop,
        F: Drop,
        requires { F.IsAlwaysCallable direction }
        ensures there { has_face face.0 self.old ≡ true → (self.new ≡ self.old) × (result ≡ Ok tt) }
        ensures added { has_face face.0 self.old ≡ false → OnOk result ((d : Option T) × F.post direction d × (self.new ≡ self.old ++ pair_of face.0 d)) }
        ensures err { OnErr result (self.new ≡ self.old) }
    {
        if self.has_face(face) {
            return Ok(());
        }
        match direction() {
            Some(element) => self.put(face, element),
            None => Ok(()),
        }
    }

    /// The elements, in order.
    pub fn build(self) -> Vec<T>
        ensures { result.items ≡ values_of self }
    {
        let RouteBuilder { faces: _, route } = self;
        route
    }
}
