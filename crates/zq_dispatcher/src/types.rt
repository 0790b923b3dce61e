//! The change of a hat, and what is due to faces.
use zq_key::items::Items;
use zq_key::message::Region;
use zq_strategy::types::Change;
use zq_told::types::FaceUpdate;

/// The hat of a region changes.
#[derive(Drop)]
pub struct RegionChange {
    /// The region whose hat changes.
    pub region: Region,
    /// What the call changes there.
    pub change: Change,
}

/// Faces, each with keys and what is due to it there.
pub type DuesList = Items<FaceUpdate>;
