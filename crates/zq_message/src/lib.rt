//! What faces send and are handed, and what it is made of; regions, and maps from them.
//!
//! - `message`: ids, regions, expressions and the messages of faces
//! - `text`, `items`: texts, bytes and lists, which contracts see as lists
//! - `memory`: the one error of a call that can only lack memory
//! - `kept`: a value of one owner, or shared by several
//! - `index`: the place of a region in the order of regions, and the region of a place
//! - `map`: a value for some regions
//! - `iter`: its entries, regions and values, in index order
#![tactic(auto)]

pub mod index;
pub mod items;
pub mod iter;
mod kept;
pub mod map;
pub mod memory;
pub mod message;
pub mod text;

pub use index::{index_to_region, region_to_index};
pub use items::Items;
pub use iter::{RegionIntoIter, RegionIter, Regions, Values};
pub use map::RegionMap;
pub use memory::OutOfMemory;
pub use message::{
    Bound, DEFAULT_NODE_ID, Declare, DeclareBody, FaceId, Interest, Mapping, Message, Mode, NodeId,
    QueryTarget, QueryableInfoType, Region, ReplyBody, Request, Response, ResponseFinal, TextList,
    WireExpr, Zid, node_id_as_source,
};
pub use text::{Bytes, Text};
