//! Tests of declared keys, networks, what faces ask to hear and were told, of hats, of the choice among offers, and of routes that are kept.
#![tactic(auto)]

#[cfg(test)]
mod hat;
#[cfg(test)]
mod hats;
#[cfg(test)]
mod index;
#[cfg(test)]
mod interests;
#[cfg(test)]
mod region;
#[cfg(test)]
mod route;
#[cfg(test)]
mod routes;
#[cfg(test)]
mod sources;
#[cfg(test)]
mod told;
#[cfg(test)]
mod trees;
