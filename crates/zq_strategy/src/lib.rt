//! What each region has of its faces, what it offers, in which order, and how, as definitions and plain types; networks of routers and their trees. The type that keeps it is `Hat`, of `zq_hat`.
//!
//! - `network`: networks, what node numbers stand for, and what faces are told
//! - `nets`: a network whose ids' places are found by look-up
//! - `seats`: which open faces have which ids
//! - `offer`: offers of faces
//! - `merges`: the keys of declarations, and what these say, merged, but for what is left out
//! - `order`: offers in order
//! - `met`: a search for the declared keys that meet one that is asked for
//! - `texts`: the texts of those
//! - `walk`: offers over those of a request
//! - `groups`: what faces offer by their declarations
//! - `routers`: what routers offer by their entries
//! - `types`: what hats keep, offer and tell
//! - `strategy`: how a region keeps and offers queryables
#![tactic(auto)]

pub mod groups;
pub mod merges;
pub mod met;
pub mod nets;
pub mod network;
pub mod offer;
pub mod order;
pub mod routers;
pub mod seats;
pub mod strategy;
pub mod texts;
pub mod types;
pub mod walk;

pub use network::{
    DirectionList, Network, NodeIds, Telling, TellingList, Tree, TreeList, U16List, U32List,
    ZidList,
};
pub use offer::{OfferList, QueryTargetQabl};
pub use types::{FaceRecord, FinalMark, HatRefusal, Strategy, UnregisterEntityResult};
pub use zq_index::info;
