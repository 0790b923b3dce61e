//! The gateway: calls in, steps out. Each call is one event.
//!
//! - `tables`: what a gateway keeps, and a call by its kind
//! - `entries`: the keys of routers' entries are let go with the last entry on them
//! - `faces`: faces that come and go
//! - `interests`: what faces ask to hear
//! - `keys`: numbers that faces declare for keys
//! - `leaving`: messages go out through the gates of their faces
//! - `networks`: networks of regions of routers, and what node numbers stand for
//! - `queryables`: queryables that faces declare and withdraw, and marks of what they have declared
//! - `routers`: what routers announce and retract
//! - `reading`: expressions of faces as they are read
//! - `requests`: requests, and whom they are handed to
//! - `replies`: replies, finals, reports that a reply was sent, and moments that have come
//! - `gateway`: each call is one event, behind which offers that it changed are kept no more
//! - `demux`: the messages of a face as calls
//! - `primitives`: what takes the messages of faces
//! - `runs`: whole runs, with what they promise of each request, reply and final
#![tactic(auto)]

pub mod demux;
mod entries;
mod faces;
pub mod gateway;
mod interests;
mod keys;
mod leaving;
mod networks;
pub mod primitives;
mod queryables;
mod reading;
mod replies;
mod requests;
mod routers;
pub mod runs;
pub mod tables;

pub use demux::DeMux;
pub use gateway::Gateway;
pub use primitives::{DummyPrimitives, Primitives};
pub use runs::replay;
pub use zq_machine::{
    BadConfig, Call, Config, ConfigRefusal, Counters, Entry, EntryList, Handed, HandedList, Leaves,
    Opening, Outcome, Refusal, Replay, Step, StepList,
};
pub use zq_namespace::Mux;
