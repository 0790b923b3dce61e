//! What each face outside regions of routers was told, and what it is told of by a call.
//!
//! - `types`: what a face was told of a key, what is due to it, and why telling is refused
//! - `told_sets`: `ToldSets`, what all faces were told; a call is planned, room is made, and the plan is put
//! - `plan`: what a face is told of the keys that a call looks at
//! - `books`: the same of all faces, as a map
//! - `book`: what one face was told
//! - `laws`: that a receiver keeps what is due, as contracts
//! - `slots`: what was told of each key, and rooms for more
#![tactic(auto)]

mod book;
mod books;
pub mod laws;
mod plan;
mod slots;
pub mod told_sets;
pub mod types;
