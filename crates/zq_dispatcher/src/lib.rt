//! The hats of all regions together: how they are read and changed, what a change of one tells in regions of routers, and what is due to each face outside them.
//!
//! Of a gateway's own entries in regions of routers, and of what is due, nothing is kept: it is looked up in the hats, as they are or as a change of one region would make them.
//!
//! - `hats`: the hats of the regions, read and changed
//! - `seating`: a face enters the open ones, or leaves them
//! - `entries`: own entries, looked up
//! - `telling`: whom a change of them is told
//! - `routers`: what entries of routers change and tell
//! - `networks`: what networks tell
//! - `types`: the change of a hat, and what of interests counts
//! - `asking`: what a face asks of keys by its interests
//! - `due`: whether a face is interested in a key, and what will be due to it there
//! - `folded`: one entry for all keys that meet a key
//! - `folds`: what was gathered for such entries in a call
//! - `dues`: the same of some keys
//! - `asked`: what an interest of a face looks at, and what its end looks at
//! - `listeners`: which faces can be interested in some of the keys
//! - `keys`: the keys on which regions have information
//! - `owns`: the keys of aggregating interests that some keys meet, by face
//! - `sorted`: keys in order, each once
//! - `over`: what a whole call looks at
//! - `changes`: the same of a call that changes a hat
#![tactic(auto)]

pub mod asked;
pub mod asking;
pub mod changes;
pub mod due;
pub mod dues;
pub mod entries;
pub mod folded;
pub mod folds;
pub mod hats;
pub mod keys;
pub mod listeners;
pub mod networks;
pub mod over;
mod owns;
pub mod routers;
pub mod seating;
pub mod sorted;
pub mod telling;
pub mod types;
