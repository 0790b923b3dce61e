//! Tests of storages: a worked script with its print, and how runs end.
#![tactic(auto)]

#[cfg(test)]
mod rows;
