//! Keys, and how they relate.
//!
//! - `name`: keys that are kept
//! - `check`: which texts are keys, and which keys are plain
//! - `matching`, `chunk`, `key`: whether two keys intersect, and whether one includes the other,
//!   without memory and in time that is at most the product of their lengths
//! - `ends`: where the last bytes of two texts show that neither is in relation to the other
//! - `pruning`: where the first bytes of a text show that it does not meet a key
//! - `laws`: that keys intersect both ways alike, and include and intersect themselves
//! - `space`: texts cut by chunks, and texts behind a prefix
//! - `message`, `text`, `items` and `memory` are of the crate below, `zq_message`
#![tactic(auto)]

mod check;
mod chunk;
mod ends;
mod key;
pub mod laws;
mod matching;
mod name;
pub mod pruning;
pub mod space;

ghost use Rattle.std.specs.Prelude.{◌≡◌, IsTrue};
ghost use Rattle.std.specs.Str.{chars};
ghost use Rattle.zq_key.specs.Key.{is_key as key_of, intersects as intersects_of, includes as includes_of};

pub use check::{is_key, is_plain};
use key::{Relation, related};
pub use name::{Key, KeyError};
pub use space::{prefix, split_first_chunk, strip};
pub use zq_message::{
    Bound, Bytes, DEFAULT_NODE_ID, Declare, DeclareBody, FaceId, Interest, Items, Mapping, Message,
    Mode, NodeId, OutOfMemory, QueryTarget, QueryableInfoType, Region, ReplyBody, Request,
    Response, ResponseFinal, Text, TextList, WireExpr, Zid, items, memory, message,
    node_id_as_source, text,
};

/// Whether two keys intersect (upstream's `keyexpr::intersects`), by the recursion on their chunks. It
/// takes no memory.
#[tactic(auto, using(crate::proofs::Characters::relations))]
pub fn intersects(a: &str, b: &str) -> bool
    requires first { IsTrue (key_of a.now) }
    requires second { IsTrue (key_of b.now) }
    ensures bytes { result ≡ intersects_of a.now b.now }
    ensures characters { result ≡ intersects_of (chars a.now) (chars b.now) }
{
    related(Relation::Meets, a.as_bytes(), b.as_bytes())
}

/// Whether key a includes key b (upstream's `keyexpr::includes`), by the recursion on their chunks. It
/// may be false where a matches all that b matches, as for `*/**` and `**/x`. It takes no memory.
#[tactic(auto, using(crate::proofs::Characters::relations))]
pub fn includes(a: &str, b: &str) -> bool
    requires first { IsTrue (key_of a.now) }
    requires second { IsTrue (key_of b.now) }
    ensures bytes { result ≡ includes_of a.now b.now }
    ensures characters { result ≡ includes_of (chars a.now) (chars b.now) }
{
    related(Relation::Covers, a.as_bytes(), b.as_bytes())
}
