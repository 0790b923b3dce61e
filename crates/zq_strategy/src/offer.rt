//! Offers of faces.
ghost use Rattle.std.specs.Prelude.{◌≡◌, IfOk};

use std::alloc::Global;
use zq_key::items::Items;
use zq_key::memory::OutOfMemory;
use zq_key::message::{FaceId, QueryableInfoType, Region};
use zq_key::text::Text;

/// An offer of a face (upstream's `QueryTargetQabl`): who would answer a key, and how completely.
#[derive(Debug, Drop)]
pub struct QueryTargetQabl {
    /// The face that would be asked (upstream's `dir`).
    pub face: FaceId,
    /// How completely it answers, and how far it is; none where no declaration stands behind it.
    pub info: Option<QueryableInfoType>,
    /// The key that was declared; without an information the key that is asked for.
    pub key: Text,
    /// The region that the face is of.
    pub region: Region,
    /// The node number of a request to it: with routers the place of its source, else 0.
    pub node: u16,
}

impl QueryTargetQabl {
    /// An equal offer.
    pub fn copy(&self, alloc: Global) -> Result<QueryTargetQabl, OutOfMemory>
        ensures { IfOk result (λ o. o ≡ self.now) }
    {
        Ok(QueryTargetQabl {
            face: self.face,
            info: self.info,
            key: self.key.copy(alloc)?,
            region: self.region,
            node: self.node,
        })
    }
}

/// Offers, by distance, key text and face.
pub type OfferList = Items<QueryTargetQabl>;
