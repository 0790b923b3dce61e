//! Tests of calls: lines and prints, pages and reasons, what configurations are refused, each method of the gateway, and messages of faces as calls.
#![tactic(auto)]

#[cfg(test)]
mod cached;
#[cfg(test)]
mod config;
#[cfg(test)]
mod gateway;
#[cfg(test)]
mod given;
#[cfg(test)]
mod lines;
#[cfg(test)]
mod page;
#[cfg(test)]
mod primitives;
#[cfg(test)]
mod prints;
#[cfg(test)]
mod reasons;
#[cfg(test)]
mod why;
