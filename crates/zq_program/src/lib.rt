//! The call that a command makes: it runs scripts, loads, and scripts that several workers make on one gateway, each in a thread and over a link of its own.
//!
//! - `works`: where workers make their calls
//! - `crew`: they make them
//! - `worker`: one that makes calls, in a thread of its own
//! - `workers`: the workers of a script
//! - `sharing`: the parts of a script, made by as many workers
//! - `words`: what the words ask for
//! - `parts`: scripts whose parts workers may make
//! - `printing`: the print of a shared run
//! - `running`: the call itself
#![tactic(auto)]

pub mod crew;
pub mod parts;
pub mod printing;
mod running;
mod shared_run;
mod sharing;
pub mod words;
mod worker;
mod workers;
pub mod works;

pub use running::{program, program_outcome};
pub use sharing::share;
pub use words::{Sharing, sharing_of};
pub use zq_shared::{
    CallRefusal, Failed, Home, Link, MemoryLink, Shared, StepRefusal, Stepped, SureLink,
    TablesLock, Tally,
};
