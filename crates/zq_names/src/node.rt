//! A node of the table of names.
use crate::part::Part;
use std::alloc::AllocError;
use zq_key::items::Items;

/// The number of a node of `Names`.
#[derive(Clone, Copy, Debug, PartialEq, Eq, PartialOrd, Ord, Hash)]
pub struct ResourceId(pub u64);

/// Numbers of nodes.
pub type ResourceList = Items<ResourceId>;

// What is kept of a text.
#[derive(Drop)]
pub(crate) struct Node {
    pub(crate) text: Part,
    pub(crate) context: bool,
    pub(crate) holds: u128,
    pub(crate) matches: Vec<ResourceId>,
    // the matches that later ones took the place of
    pub(crate) former: Vec<ResourceId>,
}

impl Clone for Node {
    ghost use Rattle.zq_names.specs.Copying.{IsNodeCopy};

    ghost is_clone = { IsNodeCopy };

    fn clone(&self) -> Result<Node, AllocError> {
        let alloc = *self.matches.allocator();
        let Ok(text) = self.text.share() else {
            return Err(AllocError);
        };
        Ok(Node {
            text,
            context: self.context,
            holds: self.holds,
            matches: Vec::from_slice(alloc, &self.matches)?,
            former: Vec::from_slice(alloc, &self.former)?,
        })
    }
}
