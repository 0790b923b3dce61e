//! Bytes that come in and go out, with the count of their faults, and the words that lines of scripts and prints are made of.
//!
//! - `streams`: the traits `Source` and `Sink`, which count their faults, over std's readers and
//!   writers.
//! - `stored`: sources and sinks in memory.
//! - `transfer`: a whole source read, and a whole piece given to a sink.
//! - `words`: a word of a line, numbers, texts and payloads, and the trait `Word` of what a word
//!   can stand for.
//! - `stop`: why a reader gave nothing.
//! - `values`: the words of ids, modes, regions, expressions and tables.
//! - `show`: how each of these values is written, the trait `Shown`.
#![tactic(auto)]

pub mod show;
pub mod stop;
pub mod stored;
pub mod streams;
pub mod transfer;
pub mod values;
pub mod words;
