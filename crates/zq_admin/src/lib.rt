//! The administration view: who declared which key, and who asks for it, under keys of the gateway's own.
//!
//! - `fronts`: what the keys of entries begin with
//! - `reach`: which of the keys behind a front can meet a key
//! - `entries`: the entries whose keys meet a key
//! - `lines`: the line of an entry
//! - `gathering`: a gateway on which calls were made
//! - `running`: the entries of a script's run, from a source to a sink
//! - `opening`: how the gateway's own face is opened, and what it declares
//! - `asking`: what the own face is asked
//! - `answering`: how it answers
//! - `refusal`: why a view gave no answer
//! - `admin`: a gateway with a face of its own
//! - `laws`: what the entries are by the calls of a run
#![tactic(auto)]

pub mod admin;
mod answering;
mod asking;
pub mod entries;
mod fronts;
mod gathering;
pub mod laws;
pub mod lines;
mod opening;
mod reach;
pub mod refusal;
pub mod running;

pub use admin::Admin;
pub use entries::{AdminList, list};
pub use lines::print_entries;
pub use refusal::AdminRefusal;
pub use running::admin_run;
pub use zq_script::{MemorySink, MemorySource, ReadSource, Status, WriteSink};
