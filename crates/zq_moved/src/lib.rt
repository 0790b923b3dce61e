//! Runs inside one namespace: which calls can be moved there, the moved calls, and what each face receives of a run.
//!
//! - `moving`: which calls can be moved into a namespace, and the moved calls
//! - `receiving`: what a face receives of a run
//! - `laws`: that a run in a namespace is answered as the run in none, and that each face receives the same
#![tactic(auto)]

pub mod laws;
pub mod moving;
pub mod receiving;

pub use moving::{can_move, moved};
pub use receiving::{MessageList, received};
