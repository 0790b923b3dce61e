//! The names: every text that stands for something, as a node with marks, in an order that is kept as a balanced tree.
//!
//! That the tree is balanced is no clause: contracts see the row alone, and nothing here is about time.
//!
//! - `tree`: `Tree`, which callers use, and `Seat`, the memory for one more number
//! - `branch`: a number with those before it and those after it
//! - `turn`: branches whose sides are alike in weight
//! - `node`: what is kept of a text, and the number that names it
//! - `refusal`: why a name or an id is refused
//! - `part`: texts, of which those that begin one text share its memory
//! - `order`: the nodes in the order of their texts, and the search in it; what stands before a text's first `*`
//! - `edit`: how nodes come and go
//! - `close`: how all nodes below a text go
//! - `forget`: how a number leaves the matches of other nodes
//! - `linking`: how a node gets its matches, and each of them gets it
//! - `matching`: the nodes whose texts meet a key, without a test of every node
//! - `names`: `Names`, which callers use
#![tactic(auto)]

mod branch;
mod close;
mod edit;
mod forget;
mod linking;
mod matching;
pub mod names;
pub mod node;
mod order;
mod part;
pub mod refusal;
mod tree;
mod turn;

pub use names::Names;
pub use node::{ResourceId, ResourceList};
pub use order::nonwild;
pub use refusal::NameRefusal;
pub use tree::{Seat, Tree};
