//! What a face was told of a key, and whether it wants numbers for it.
ghost use Rattle.std.specs.Prelude.{◌≡◌, IsTrue};
ghost use Rattle.std.specs.Option.{option_map};
ghost use Rattle.zq_key.specs.Key.{is_key};
ghost use Rattle.zq_interests.specs.Interests.{has_keyed};
ghost use Rattle.zq_told.specs.ToldSets.{told_at};
ghost use Rattle.zq_told.specs.Rooms.{ears_of};

use zq_interests::interests::Interests;
use zq_key::message::{FaceId, QueryableInfoType};
use zq_told::told_sets::ToldSets;

/// What the face was told of the key: the id, and the information under it. None exactly where nothing
/// on the key is told, and so always at a face in a region of routers, of which nothing is kept.
/// (`told_of`)
pub fn told_of(ears: &ToldSets, face: FaceId, key: &str) -> Option<(u32, QueryableInfoType)>
    ensures { result ≡ option_map (λ t. (t.id, t.info)) (told_at face.0 key.now (ears_of ears.now)) }
{
    match ears.told_of(face, key) {
        Some(told) => Some((told.id, told.info)),
        None => None,
    }
}

/// Whether an interest of the face for which numbers may be declared has no key, or a key that meets
/// this one. (`wants_key`)
pub fn wants_key(interests: &Interests, face: FaceId, key: &str) -> bool
    requires { IsTrue (is_key key.now) }
    ensures { result ≡ has_keyed face.0 key.now interests.now }
{
    interests.has_keyed(face, key)
}
