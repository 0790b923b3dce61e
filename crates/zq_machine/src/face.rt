//! An open face.
use zq_key::message::{Bound, Mode, Region, Zid};

/// How an open face was opened.
#[derive(Clone, Copy)]
pub struct OpenFace {
    /// The region that the face is of.
    pub region: Region,
    /// The id of the node at its other end.
    pub zid: Zid,
    /// What that node is in its network (upstream's `WhatAmI`).
    pub mode: Mode,
    /// On which side of that node this gateway lies.
    pub remote_bound: Bound,
}
