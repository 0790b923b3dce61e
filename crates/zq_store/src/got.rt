//! What a get brings.
use zq_key::items::Items;
use zq_key::text::{Bytes, Text};
use zq_machine::handed::HandedList;

/// The number of a storage: they are numbered from 0, as they joined.
#[derive(Clone, Copy, Debug, PartialEq, Eq)]
pub struct StoreId(pub u32);

/// A reply that a get brought.
#[derive(Debug, Drop)]
pub struct GotReply {
    /// The storage that replied.
    pub store: StoreId,
    /// The key of its pair.
    pub key: Text,
    /// The value of its pair.
    pub value: Bytes,
}

/// Replies, in order.
pub type GotList = Items<GotReply>;

/// What a get brought.
#[derive(Debug, Drop)]
pub struct Got {
    /// The replies, in order.
    pub replies: GotList,
    /// All that the gateway handed meanwhile, in order.
    pub handed: HandedList,
}
