//! One gateway for callers that each keep a pass. Every stored call stands in one journal, with the number of the pass that made it, and
//! each step is answered with its place there.
//!
//! - `pass`: `Pass`, and `PassList`
//! - `state`: `PassState`, the shared gateway with the journal of its calls
//! - `owning`: stored calls get their entries
//! - `home`: which state a lock is of
//! - `locked`: what lies under the lock
//! - `lock`: `PassLock`, and what takes the lock
//! - `calling`: its `call`, which sends once the lock is free
//! - `finish`: the end: who made each stored call
#![tactic(auto)]

mod calling;
mod finish;
mod home;
mod lock;
mod locked;
mod owning;
mod pass;
mod state;

pub use calling::Passed;
pub use finish::Finished;
pub use home::PassHome;
pub use lock::PassLock;
pub use pass::{Pass, PassList};
pub use state::PassState;
pub use zq_journal_view::Note;
pub use zq_shared::CallRefusal;
