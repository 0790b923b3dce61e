//! What is spoken to by lines, for programs in other languages: a line in, its print out.
//!
//! - `line`: which bytes are one line
//! - `refusal`: why a line was not done, or nothing was opened
//! - `opening`: what the lines of a script before its calls open
//! - `talk`: a gateway that is spoken to by lines, and the step of its last call
//! - `storages`: a bus of storages that is spoken to by lines, and what came of its last line
//! - `speaker`: what is spoken to by lines
//! - `keys`: how two texts relate as keys
#![tactic(auto)]

pub mod keys;
mod line;
mod opening;
pub mod refusal;
pub mod speaker;
pub mod storages;
pub mod talk;

pub use keys::{key_includes, keys_meet};
pub use refusal::{LineRefusal, OpenRefusal};
pub use speaker::Speaker;
pub use storages::Storages;
pub use talk::Talk;
