//! The choice among offers, the filter between regions, and routes that are kept.
#![tactic(auto)]

pub mod builder;
pub mod filter;
pub mod gateways;
pub mod overall;
pub mod routes;
pub mod selection;
mod taken;

pub use builder::RouteBuilder;
pub use filter::InterRegionFilter;
pub use gateways::{GatewayEntry, GatewayEntryList, Gateways};
pub use overall::compute_best_overall;
pub use routes::{Routes, RoutesVersion, get_or_set_route};
pub use selection::{Best, compute_final_route};
