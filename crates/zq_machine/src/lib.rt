//! What a gateway is asked and answers, and what it does, as definitions: every promise of a run is
//! proved here, of the definitions alone.
//!
//! - `config`: what a gateway is made with
//! - `call`: what it is asked, and what it answers
//! - `face`: an open face
//! - `handed`: a message that a call hands
//! - `laws`: what every run promises, and how what is decided moves with its texts
//! - `neighbours`: that faces outside regions of routers are told what is due to them
//! - `interest_laws`: what an interest adds to what is due, as contracts
#![tactic(auto)]

pub mod call;
pub mod config;
pub mod face;
pub mod handed;
pub mod interest_laws;
pub mod laws;
pub mod neighbours;

pub use call::{Call, Opening, Outcome, Refusal, Replay, Step, StepList};
pub use config::{BadConfig, Config, ConfigRefusal, Counters, Entry, EntryList};
pub use face::OpenFace;
pub use handed::{Handed, HandedList, Leaves};
