//! Which faces want numbers for keys, once an interest has ended.
ghost use Rattle.std.specs.Prelude.{◌≡◌, ◌&&◌, IsTrue};
ghost use Rattle.std.specs.BTreeMap.{is_at};
ghost use Rattle.std.specs.List.{list_any};
ghost use Rattle.std.specs.Map.{remove_entry};
ghost use Rattle.std.specs.Ordering.{nat_cmp};
ghost use Rattle.zq_key.specs.Key.{is_key};
ghost use Rattle.zq_interests.specs.Interests.{meets, wants_keyed};

use std::collections::BTreeMap;
use zq_interests::interests::Interests;
use zq_interests::numbers::WantsKeys;
use zq_interests::types::InterestEntry;
use zq_key::intersects;
use zq_key::message::FaceId;

/// The interests without one that ends.
#[derive(Drop)]
pub struct WithoutInterest<'a> {
    /// The interests as they are.
    pub interests: &'a Interests,
    /// The face whose interest ends.
    pub face: FaceId,
    /// The id of the interest.
    pub id: u32,
}

// Whether the interest meets the key, and numbers may be declared for keys.
fn wants_keyed(entry: &InterestEntry, key: &str) -> bool
    requires { IsTrue (is_key key.now) }
    ensures { result ≡ (entry.now.keys && meets entry.now.key key.now) }
{
    entry.keys
        && match &entry.key {
            Some(own) => intersects(own.as_str(), key),
            None => true,
        }
}

// Whether an interest under another id does so.
fn any_keyed(entries: &BTreeMap<u32, InterestEntry>, id: u32, key: &str) -> bool
    requires { IsTrue (is_key key.now) }
    ensures { result ≡ list_any (wants_keyed key.now) (remove_entry (is_at (nat_cmp id)) entries.now.entries) }
{
    for (other, entry) in entries {
        if *other != id && wants_keyed(entry, key) {
            return true;
        }
    }
    false
}

impl<'a> WantsKeys for WithoutInterest<'a> {
    ghost use Rattle.zq_interests.specs.Interests.{has_keyed, without_interest};

    ghost keyed = { λ w face key. has_keyed face key (without_interest w.face.0 w.id w.interests.now) };

    fn has_keyed(&self, face: FaceId, key: &str) -> bool {
        if face.0 != self.face.0 {
            return self.interests.has_keyed(face, key);
        }
        match self.interests.asked_by(face) {
            Some(entries) => any_keyed(entries, self.id, key),
            None => false,
        }
    }
}
