//! Tests of counted holds, of what stands on messages and keys alone, of the table of texts, and of what a gateway keeps of all faces: each file tests the crate or the module of its name.
#![tactic(auto)]

#[cfg(test)]
mod hold;
#[cfg(test)]
mod ids;
#[cfg(test)]
mod key;
#[cfg(test)]
mod names;
#[cfg(test)]
mod namespace;
#[cfg(test)]
mod naming;
#[cfg(test)]
mod query;
#[cfg(test)]
mod regions;
#[cfg(test)]
mod rows;
#[cfg(test)]
mod streams;
#[cfg(test)]
mod words;
