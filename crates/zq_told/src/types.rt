//! What a face was told of a key, what is due to it, and why telling is refused.
use zq_key::items::Items;
use zq_key::message::{FaceId, QueryableInfoType};
use zq_key::text::Text;
use zq_strategy::network::TellingList;

/// What a face was told of a key: the id, and the information under it.
#[derive(Clone, Copy, Debug)]
pub struct ToldEntry {
    /// The id that the face was given for the key.
    pub id: u32,
    /// The information that it was told last.
    pub info: QueryableInfoType,
}

/// How a call tells a face: it brings news that no one asked for; it answers an interest of the face;
/// or an interest of the face ended.
#[derive(Clone, Copy, Debug)]
pub enum Reason {
    /// What became different is told, and a key that ended is withdrawn.
    Update,
    /// All that is due on the keys is told, as if it had not been told before.
    Answer,
    /// The keys that are not due any more are forgotten untold; other information of a key is told.
    End,
}

/// Keys that a call looks at, with what is due there.
pub type KeyUpdates = Items<(Text, Option<QueryableInfoType>)>;

/// The keys that a call looks at for a face.
#[derive(Debug, Drop)]
pub struct FaceUpdate {
    /// The face that may be told of them.
    pub face: FaceId,
    /// The keys, and what is due to it on each.
    pub keys: KeyUpdates,
}

/// Keys, and what a face was told of each once the plan is put; none where it was told nothing.
pub type Rows = Items<(Text, Option<ToldEntry>)>;

/// What a call leaves of a face: the id given last, and the keys that it looked at.
#[derive(Debug)]
pub struct FacePlan {
    pub(crate) face: FaceId,
    pub(crate) last: u32,
    pub(crate) rows: Rows,
}

impl Drop for FacePlan {
    fn drop(self) {
        let FacePlan { face, last, rows } = self;
    }
}

/// What a call leaves of faces.
pub type Plan = Items<FacePlan>;

/// What a call leaves of faces, and what they are told.
#[derive(Debug, Drop)]
pub struct Planned {
    /// What the call leaves of the faces, to be put when nothing can fail any more.
    pub plan: Plan,
    /// What the faces are told of the keys that the call looks at.
    pub tellings: TellingList,
}

/// Why faces are not told: one of them needs an id above the last of 32 bits, or memory is lacking.
#[derive(Clone, Copy, Debug, PartialEq, Eq)]
pub enum TellRefusal {
    /// A face needs an id above 2^32 - 1.
    NoFreeId,
    /// No memory was found.
    OutOfMemory,
}
