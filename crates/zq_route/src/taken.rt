//! The faces that a route has.
ghost use Rattle.std.specs.Prelude.{◌≡◌, ◌++◌, ◌∷◌, [], ◌<◌, ℕ, List, true, OnOk, OnErr, IfOk};
ghost use Rattle.std.specs.List.{All};
ghost use Rattle.zq_route.specs.Taken.{has, IsKept, IsSetOf, Rises};

use std::alloc::Global;
use std::collections::BTreeSet;
use std::marker::Model;
use zq_key::memory::OutOfMemory;

/// Faces in the order in which they came. As long as they rise, the row is searched; from the first
/// that does not on they stand in a set, too.
#[derive(Drop)]
pub(crate) struct Taken {
    faces: Vec<u32>,
    set: Option<BTreeSet<u32>>,
    alloc: Global,
}

impl Model for Taken {
    ghost use Rattle.std.specs.Prelude.{List, ℕ};
    ghost use Rattle.zq_route.specs.Taken.{IsKept};

    ghost Value = { List ℕ };

    ghost view = { λ t. t.faces.items };

    ghost invariant = { λ t. IsKept t.faces.items t.set };
}

/// Whether the face comes after the last one.
fn rises(faces: &[u32], face: u32) -> bool
    requires { Rises faces.now }
    ensures { result ≡ true → All (λ f. f < face) faces.now }
{
    match faces.last() {
        Some(last) => *last < face,
        None => true,
    }
}

/// Whether the face is in a row that rises.
fn is_in_row(faces: &[u32], face: u32) -> bool
    requires { Rises faces.now }
    ensures { result ≡ has face faces.now }
{
    if rises(faces, face) {
        return false;
    }
    faces.binary_search(&face).is_ok()
}

/// The face joins the set.
fn join(set: &mut BTreeSet<u32>, face: u32) -> Result<(), OutOfMemory>
    ensures ok { OnOk result ((faces : List ℕ) → IsSetOf faces set.old → IsSetOf (faces ++ face ∷ []) set.new) }
    ensures err { OnErr result ((faces : List ℕ) → IsSetOf faces set.old → IsSetOf faces set.new) }
{
    match set.insert(face) {
        Ok(_) => Ok(()),
        Err(_) => Err(OutOfMemory),
    }
}

/// The set of the faces.
fn set_of(alloc: Global, faces: &[u32]) -> Result<BTreeSet<u32>, OutOfMemory>
    ensures { IfOk result (IsSetOf faces.now) }
{
    let mut set = BTreeSet::new(alloc);
    for face in faces {
        join(&mut set, *face)?;
    }
    Ok(set)
}

/// The set with the face that comes next; it is made where the face does not rise.
#[tactic(auto, using(crate::proofs::Rising::rises_on))]
fn keep(
    set: &mut Option<BTreeSet<u32>>,
    alloc: Global,
    faces: &[u32],
    face: u32,
) -> Result<(), OutOfMemory>
    requires { IsKept faces.now set.old }
    ensures ok { OnOk result (IsKept (faces.now ++ face ∷ []) set.new) }
    ensures err { OnErr result (IsKept faces.now set.new) }
{
    if let Some(there) = set {
        return join(there, face);
    }
    if rises(faces, face) {
        return Ok(());
    }
    let mut made = set_of(alloc, faces)?;
    join(&mut made, face)?;
    *set = Some(made);
    Ok(())
}

impl Taken {
    pub(crate) fn new(alloc: Global) -> Taken
        ensures { result ≡ [] }
    {
        Taken {
            faces: Vec::new(alloc),
            set: None,
            alloc,
        }
    }

    /// Whether the face is there.
    pub(crate) fn has(&self, face: u32) -> bool
        ensures { result ≡ has face self.now }
    {
        match &self.set {
            Some(set) => set.contains(&face),
            None => is_in_row(self.faces.as_slice(), face),
        }
    }

    /// Adds a face.
    pub(crate) fn put(&mut self, face: u32) -> Result<(), OutOfMemory>
        ensures ok { OnOk result (self.new ≡ self.old ++ face ∷ []) }
        ensures err { OnErr result (self.new ≡ self.old) }
    {
        self.faces.reserve(1)?;
        match keep(&mut self.set, self.alloc, self.faces.as_slice(), face) {
            Ok(()) => {}
            Err(error) => return Err(error),
        }
        self.faces.push_reserved(face);
        Ok(())
    }
}
