//! Tests of what is spoken to by lines: worked lines with their prints.
#![tactic(auto)]

#[cfg(test)]
mod rows;
