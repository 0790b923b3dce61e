//! Storages that answer queries, and a tool that asks them, over one gateway.
//!
//! - `held`: the pairs of a storage
//! - `storage`: a storage
//! - `stores`: the storages of a bus
//! - `answers`: which storages are asked, and what they answer
//! - `room`: whether the numbers that are left suffice for replies
//! - `joining`: faces of Local
//! - `got`: what a get brings
//! - `asking`: the calls of a get
//! - `bus`: the gateway with its asker and its storages
//! - `lines`: what the lines of a script for storages say
//! - `outcome`: what these lines come to
//! - `printing`: what is printed of it
//! - `running`: reads a script from a source, and gives its print to a sink
//! - `laws`: which storages a pair's key leads to
#![tactic(auto)]

pub mod answers;
mod asking;
pub mod bus;
pub mod got;
mod held;
mod joining;
pub mod laws;
pub mod lines;
pub mod outcome;
pub mod printing;
mod room;
pub mod running;
pub mod storage;
pub mod stores;

pub use bus::{Bus, BusRefusal};
pub use got::{Got, GotList, GotReply, StoreId};
pub use running::store_run;
pub use stores::PutRefusal;
pub use zq_script::{MemorySink, MemorySource, ReadSource, Status, WriteSink};
