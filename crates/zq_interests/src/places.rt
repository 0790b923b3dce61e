//! Places of interests: faces' numbers, and ids there.
ghost use Rattle.std.specs.Prelude.{◌≡◌, ◌==◌, ◌||◌, ◌&&◌, [], not, length, fold, map, OnOk, OnErr};
ghost use Rattle.std.specs.BTreeMap.{is_at};
ghost use Rattle.zq_index.specs.Holders.{Place, place_cmp};
ghost use Rattle.zq_interests.specs.Kept.{has_place, with_face, with_spot};

use std::alloc::Global;
use std::collections::BTreeSet;
use std::marker::Model;
use zq_index::holders::FacePlace;
use zq_key::items::Items;
use zq_key::memory::OutOfMemory;
use zq_key::text::Text;

/// Places, each once.
#[derive(Drop)]
pub(crate) struct PlaceSet {
    places: BTreeSet<FacePlace>,
}

impl Model for PlaceSet {
    ghost use Rattle.std.specs.Prelude.{List};
    ghost use Rattle.zq_index.specs.Holders.{Place};

    ghost Value = { List Place };

    ghost view = { λ s. s.places.keys };
}

/// The faces of places join others.
fn add_faces(found: &mut BTreeSet<u32>, places: &BTreeSet<FacePlace>) -> Result<(), OutOfMemory>
    ensures { OnOk result (found.new.keys ≡ fold with_face found.old.keys places.now.keys) }
{
    for place in places {
        found.insert(place.0)?;
    }
    Ok(())
}

/// Places, each with the text under which it is.
pub(crate) type SpotList = Items<(FacePlace, Text)>;

/// Places join others, each with the text.
fn add_spots(
    found: &mut SpotList,
    alloc: Global,
    key: &str,
    places: &BTreeSet<FacePlace>,
) -> Result<(), OutOfMemory>
    ensures { OnOk result (found.new ≡ fold with_spot found.old (map (λ (p : Place). (p, key.now)) places.now.keys)) }
{
    for place in places {
        found.push((*place, Text::new(alloc, key)?))?;
    }
    Ok(())
}

impl PlaceSet {
    /// No places.
    pub(crate) fn new(alloc: Global) -> PlaceSet
        ensures { result ≡ [] }
    {
        PlaceSet {
            places: BTreeSet::new(alloc),
        }
    }

    /// The place joins the others.
    pub(crate) fn put(&mut self, place: FacePlace) -> Result<(), OutOfMemory>
        ensures ok { OnOk result ((q : Place) → has_place q self.new ≡ (is_at (place_cmp place) q || has_place q self.old)) }
        ensures err { OnErr result (self.new ≡ self.old) }
    {
        self.places.insert(place)?;
        Ok(())
    }

    /// The place leaves the others; answers whether none is left.
    pub(crate) fn take(&mut self, place: FacePlace) -> bool
        ensures after { (q : Place) → has_place q self.new ≡ (not (is_at (place_cmp place) q) && has_place q self.old) }
        ensures empty { result ≡ (length self.new == 0) }
    {
        let _ = self.places.remove(&place);
        self.places.len() == 0
    }

    /// The faces of the places join others.
    pub(crate) fn add_faces(&self, found: &mut BTreeSet<u32>) -> Result<(), OutOfMemory>
        ensures { OnOk result (found.new.keys ≡ fold with_face found.old.keys self.now) }
    {
        add_faces(found, &self.places)
    }

    /// The places join others, each with the text.
    pub(crate) fn add_spots(
        &self,
        found: &mut SpotList,
        alloc: Global,
        key: &str,
    ) -> Result<(), OutOfMemory>
        ensures { OnOk result (found.new ≡ fold with_spot found.old (map (λ (p : Place). (p, key.now)) self.now)) }
    {
        add_spots(found, alloc, key, &self.places)
    }
}
