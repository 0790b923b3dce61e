//! An interest of a face.
use zq_key::Key;
use zq_key::items::Items;
use zq_key::message::FaceId;
use zq_key::text::Text;

/// An interest of a face in the queryables of others: all, or those that meet a key. Numbers may be
/// declared for keys, or not; an aggregating one is to hear of its own key alone, aggregated over all keys
/// that meet it, if it has a key.
#[derive(Drop)]
pub struct InterestEntry {
    /// The key that queryables have to meet; with none all are asked for.
    pub key: Option<Key>,
    /// Whether numbers may be declared for the keys that are told.
    pub keys: bool,
    /// Whether its own key alone is to be told, if it has one.
    pub aggregate: bool,
}

/// What an interest is tested for on a key: that it asks for it; that it asks for it aggregated
/// over all keys that meet it; or that it meets it, and numbers may be declared for keys.
#[derive(Clone, Copy, Debug)]
pub(crate) enum Test {
    Asks,
    Folds,
    Keyed,
}

/// Faces, in order of their numbers.
pub type FaceList = Items<FaceId>;

/// A face, and the key of one of its aggregating interests.
#[derive(Debug, Drop)]
pub struct FaceKey {
    /// The face that asks.
    pub face: FaceId,
    /// The key of its aggregating interest.
    pub key: Text,
}

/// Faces, each with the key of one of its aggregating interests; the same may stand twice.
pub type FolderList = Items<FaceKey>;
