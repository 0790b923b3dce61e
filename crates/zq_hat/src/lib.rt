//! The hat of a region: its faces with what they declared, what it offers, who declared each key and who asks for it, and the trait of what a gateway asks of it.
//!
//! - `face`: what one face declared
//! - `faces`: the faces of a hat, their seats and their declarations in the index
//! - `offers`: what a region offers for the key of a request
//! - `hat`: the hat of one region
//! - `sources`: the ids of those who declared a key, or ask for it
//! - `gathered`: the ids on each key, as they are gathered
//! - `queryables`: who declared each key, of a region and of all
//! - `queriers`: who asks for each key, of a region and of all
//! - `asked`: who declared the keys that meet one that is asked for, and who asks for them
//! - `joining`: what regions have on each key, one behind another
//! - `laws`: what lists of sources say, key by key, as contracts
//! - `infos`: what a region has on each of its keys
//! - `status`: whether a key is matched
//! - `neighbours`: what a face was told of a key, and whether it wants numbers for it
//! - `unreached`: the entries of routers to which no way leads
//! - `queries`: `HatQueriesTrait`, and `Hat` as one that has it
#![tactic(auto)]

pub mod asked;
pub mod face;
mod faces;
mod gathered;
pub mod hat;
pub mod infos;
mod joining;
pub mod laws;
pub mod neighbours;
mod offers;
pub mod queriers;
mod queries;
pub mod queryables;
pub mod sources;
pub mod status;
pub mod unreached;

pub use hat::Hat;
pub use infos::InfoList;
pub use queries::HatQueriesTrait;
pub use sources::{SourceList, Sources};
pub use status::Locality;
pub use unreached::{RouterEntry, RouterEntryList};
pub use zq_index::info::merge_qabl_infos;
pub use zq_strategy::{
    DirectionList, FaceRecord, FinalMark, HatRefusal, Network, NodeIds, OfferList, QueryTargetQabl,
    Telling, TellingList, Tree, TreeList, U16List, U32List, UnregisterEntityResult, ZidList,
};
