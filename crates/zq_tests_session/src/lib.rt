//! Tests of runs inside a namespace: worked scripts with what each face receives, how runs end, and which calls cannot be moved.
#![tactic(auto)]

#[cfg(test)]
mod rows;
