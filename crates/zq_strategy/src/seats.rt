//! Which open faces have which ids.
ghost use Rattle.std.specs.Prelude.{◌≡◌, [], OnOk, OnErr, IfOk, option_map};
ghost use Rattle.std.specs.BTreeMap.{is_at};
ghost use Rattle.std.specs.BTreeSet.{insert_key};
ghost use Rattle.std.specs.Set.{remove_key};
ghost use Rattle.zq_message.specs.declared.message.FaceId.{FaceId};
ghost use Rattle.zq_strategy.specs.Seating.{seat_cmp, seated};

use std::alloc::Global;
use std::collections::BTreeSet;
use std::marker::Model;
use zq_key::memory::OutOfMemory;
use zq_key::message::{FaceId, Zid};

/// The ids of open faces, seen as pairs of an id and a face's number, in order.
pub struct FacesById {
    seats: BTreeSet<(u128, u32)>,
}

impl Drop for FacesById {
    fn drop(self) {
        let FacesById { seats } = self;
    }
}

impl Model for FacesById {
    ghost use Rattle.std.specs.Prelude.{List};
    ghost use Rattle.zq_strategy.specs.Seating.{Seat};

    ghost Value = { List Seat };

    ghost view = { λ s. s.seats.keys };
}

impl FacesById {
    /// No seats.
    pub fn new(alloc: Global) -> FacesById
        ensures { result ≡ [] }
    {
        FacesById {
            seats: BTreeSet::new(alloc),
        }
    }

    /// Equal seats.
    pub fn copy(&self) -> Result<FacesById, OutOfMemory>
        ensures { IfOk result (λ s. s ≡ self.now) }
    {
        Ok(FacesById {
            seats: self.seats.clone()?,
        })
    }

    /// The face takes a seat of the id.
    pub fn take(&mut self, zid: Zid, face: FaceId) -> Result<(), OutOfMemory>
        ensures ok { OnOk result (self.new ≡ insert_key seat_cmp self.old (zid.0, face.0)) }
        ensures err { OnErr result (self.new ≡ self.old) }
    {
        match self.seats.insert((zid.0, face.0)) {
            Ok(_) => Ok(()),
            Err(_) => Err(OutOfMemory),
        }
    }

    /// The face gives its seat of the id back.
    pub fn give_back(&mut self, zid: Zid, face: FaceId)
        ensures { self.new ≡ remove_key (is_at (seat_cmp (zid.0, face.0))) self.old }
    {
        let _ = self.seats.remove(&(zid.0, face.0));
    }

    /// The face of least number with the id.
    pub fn face_with(&self, zid: Zid) -> Option<FaceId>
        ensures { option_map (λ (f : FaceId). f.0) result ≡ seated zid self.now }
    {
        let mut seats = self.seats.range((zid.0, 0)..);
        match seats.next() {
            Some((id, face)) => {
                if *id == zid.0 {
                    Some(FaceId(*face))
                } else {
                    None
                }
            }
            None => None,
        }
    }
}
