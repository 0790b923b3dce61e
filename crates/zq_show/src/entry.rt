//! A call of a run with what it gave.

use crate::reasons::Judgement;
use zq_hat::RouterEntryList;
use zq_key::items::Items;
use zq_key::message::FaceId;
use zq_key::text::{Bytes, Text};
use zq_machine::call::{Call, Step};
use zq_route::selection::Best;

/// Faces, in order.
pub type FaceList = Items<FaceId>;

/// A call of a run.
#[derive(Drop)]
pub struct Entry {
    /// The number of its line in the script, from 1.
    pub number: u64,
    /// The bytes of its line.
    pub text: Bytes,
    /// The call.
    pub call: Call,
    /// The key that its expression says, where it has one that says a key.
    pub key: Option<Text>,
    /// What it gave.
    pub step: Step,
    /// Whether the target `best` chooses in each region, or over all regions.
    pub best: Best,
    /// What was declared on keys that meet its own and was not asked, and what was chosen over all
    /// regions, if it is a request.
    pub judgement: Judgement,
    /// The entries of routers on keys that meet its own to which no way leads, if it is a request.
    pub unreached: RouterEntryList,
}

/// Calls of a run, in order.
pub type EntryList = Items<Entry>;
