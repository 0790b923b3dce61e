//! Tests of the administration view: worked listings, what the own face answers, and how runs end.
#![tactic(auto)]

#[cfg(test)]
mod rows;
