//! Which faces want numbers for keys: by the interests as they are, or as they will be with one more.
ghost use Rattle.std.specs.Prelude.{◌≡◌, ℕ, Bool, List, IsTrue};
ghost use Rattle.zq_key.specs.Key.{is_key};

use crate::interests::Interests;
use crate::types::InterestEntry;
use zq_key::message::FaceId;

/// Which faces want numbers for keys.
pub trait WantsKeys {
    ghost keyed: { Self → ℕ → List ℕ → Bool };

    /// Whether an interest of the face meets the key, and numbers may be declared for keys.
    fn has_keyed(&self, face: FaceId, key: &str) -> bool
        requires { IsTrue (is_key key.now) }
        ensures { result ≡ keyed self.now face.0 key.now };
}

impl WantsKeys for Interests {
    ghost use Rattle.zq_interests.specs.Interests.{has_keyed};

    ghost keyed = { λ s face key. has_keyed face key s };

    fn has_keyed(&self, face: FaceId, key: &str) -> bool {
        Interests::has_keyed(self, face, key)
    }
}

/// The interests with one that is not put yet; it stands for another under its id.
#[derive(Drop)]
pub struct WithInterest<'a> {
    /// The interests as they are.
    pub interests: &'a Interests,
    /// The face that asks.
    pub face: FaceId,
    /// The id of its interest.
    pub id: u32,
    /// What it asks.
    pub entry: &'a InterestEntry,
}

impl<'a> WantsKeys for WithInterest<'a> {
    ghost use Rattle.zq_interests.specs.Interests.{has_keyed, with_interest};

    ghost keyed = { λ w face key. has_keyed face key (with_interest w.face.0 w.id w.entry.now w.interests.now) };

    fn has_keyed(&self, face: FaceId, key: &str) -> bool {
        if face.0 == self.face.0 {
            self.interests
                .has_keyed_with(face, self.id, self.entry, key)
        } else {
            self.interests.has_keyed(face, key)
        }
    }
}
