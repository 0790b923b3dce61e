//! Namespaces and deny lists: what a face sends as it is read inside, and what its exit lets out of
//! what it is handed.
//!
//! - `entry`: `Namespace`, which puts what a face sends behind its namespace
//! - `out`: what an exit lets out: the same, something in its place, or nothing
//! - `expr`: what an exit lets out of an expression
//! - `exit`: `ENamespace`, which takes the namespace off what a face is handed
//! - `kept`: `Kept`, what was kept of a number or an id before a message gave it
//! - `deny`: `Deny`, the keys that a face may neither ask for nor be asked for
//! - `mux`: `Mux`, a face's exit: its deny list, and then its namespace
//! - `laws`: what follows from the definitions
#![tactic(auto)]

pub mod deny;
pub mod entry;
pub mod exit;
mod expr;
pub mod kept;
pub mod laws;
pub mod mux;
pub mod out;

pub use deny::{Deny, KeyList};
pub use entry::Namespace;
pub use exit::ENamespace;
pub use kept::Kept;
pub use mux::Mux;
pub use out::Out;
