//! Offers that are kept from call to call.
//!
//! - `text`: the routes of one text, each under its region's version
//! - `asking`: who asks on which key, and what is kept for its request of its text's routes
//! - `pick`: which offers of the lists that are kept it is handed to
//! - `fill`: the offers of a request once what its text's routes lack is stored
//! - `table`: the routes of texts, and the versions of the regions
//! - `offers`: the offers of a request, and what becomes of those that are kept
//! - `cache`: the offers that are kept with the room that their texts may take
#![tactic(auto)]

pub mod asking;
pub mod cache;
mod fill;
pub mod offers;
mod pick;
pub mod table;
mod text;
