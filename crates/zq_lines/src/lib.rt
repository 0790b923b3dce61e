//! Lines of calls: which call a line says, why a line is bad, and how calls, messages and steps are written; what is written reads back as what it was.
//!
//! - `split`: the lines that bytes are.
//! - `tables`: the words of the gateways of nodes, and of trees.
//! - `lines`: which call a line says.
//! - `calls`: how a call is written.
//! - `steps`: how messages and steps are printed.
//! - `same`: whether what leaves is what was handed.
//! - `fit`: that what lies in memory fits the fields of a print.
//! - `kind`: what can stand at a place of a line.
//! - `form`: the words of each call.
//! - `foreign`: what a line may have that is no part of the format.
//! - `near`: a name that was meant.
//! - `why`: the sentence.
#![tactic(auto)]

pub mod calls;
pub mod fit;
pub mod foreign;
pub mod form;
pub mod kind;
pub mod lines;
pub mod near;
mod same;
pub mod split;
pub mod steps;
pub mod tables;
pub mod why;
