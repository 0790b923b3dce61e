//! What routers announced, and what is told along the trees of their networks.
//!
//! - `children`: the children of trees, the faces on them, and what these are told of a key
//! - `tellings`: tellings in order
//! - `entries`: what routers announced, by key and by router
//! - `networks`: what a network hands
#![tactic(auto)]

pub mod children;
pub mod entries;
pub mod networks;
mod router_keys;
pub mod tellings;
