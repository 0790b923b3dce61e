//! Who declared each key: the keys in order, and a search among them for those that meet a request's.
//!
//! - `info`: informations on queryables, and their merge
//! - `text_set`: texts that are kept in order, and the keys that are listed beside the others
//! - `holders`: the declarations on each key, by its text
//! - `forks`: where a text and a key part, chunk by chunk
//! - `search`: which keys a search for a request's passes over
#![tactic(auto)]

mod forks;
pub mod holders;
pub mod info;
pub mod search;
pub mod text_set;
