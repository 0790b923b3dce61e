//! What hats keep and offer; networks and tellings are of `network`, offers of `offer`.
ghost use Rattle.std.specs.Prelude.{◌≡◌, IfOk};

use crate::nets::IndexedNetwork;
pub use crate::network::{
    DirectionList, Network, NodeIds, Telling, TellingList, Tree, TreeList, U16List, U32List,
    ZidList,
};
pub use crate::offer::{OfferList, QueryTargetQabl};
use std::alloc::Global;
use zq_key::Key;
use zq_key::memory::OutOfMemory;
use zq_key::message::{Bound, FaceId, Mode, QueryableInfoType, Region, Zid};
use zq_key::text::Text;

/// How a region keeps and offers queryables.
#[derive(Clone, Copy)]
pub enum Strategy {
    /// Local, and clients in the South: its faces answer each other, too (upstream's `hat/broker`).
    Broker,
    /// North with one upstream, which may have more than it declared (upstream's `hat/client`).
    Client,
    /// Peers, which offer nothing to one another (upstream's `hat/peer`).
    Peer,
    /// Routers, whose entries are passed on along trees (upstream's `hat/router`).
    Router,
}

/// A face of a hat, as it was opened.
#[derive(Clone, Copy)]
pub struct FaceRecord {
    /// The number of the face.
    pub face: FaceId,
    /// The id of the node at its other end.
    pub zid: Zid,
    /// What that node is in its network (upstream's `WhatAmI`).
    pub mode: Mode,
    /// On which side of that node this gateway lies.
    pub remote_bound: Bound,
}

/// A queryable that a face declared.
#[derive(Drop)]
pub struct Declaration {
    /// The key that it answers.
    pub key: Key,
    /// How completely it answers, and how far it is.
    pub info: QueryableInfoType,
}

impl Declaration {
    /// An equal declaration.
    pub fn copy(&self, alloc: Global) -> Result<Declaration, OutOfMemory>
        ensures { IfOk result (λ d. d ≡ self.now) }
    {
        Ok(Declaration {
            key: self.key.copy(alloc)?,
            info: self.info,
        })
    }
}

/// Why a hat refused a declaration or a withdrawal.
#[derive(Clone, Copy)]
pub enum HatRefusal {
    /// The id stands for another key.
    IdInUse,
    /// The id is not declared.
    UnknownId,
    /// No memory was found.
    OutOfMemory,
}

/// The key of a withdrawal, and what became of the region's information on it.
#[derive(Drop)]
pub enum UnregisterEntityResult {
    /// It stays.
    DisableRoutes(Text),
    /// It changed.
    InfoUpdate(Text),
    /// It ended.
    LastUnregistered(Text),
}

/// What a face no longer has to ask for: all of a north-bound peer's queryables, or those on one key.
#[derive(Debug, Drop)]
pub enum FinalMark {
    /// All that the face had to declare at its opening has come.
    Initial,
    /// All that it had to declare on this key has come.
    Key(Text),
}

/// What a call may change of what a region has on a key.
#[derive(Drop)]
pub enum Change {
    /// A face declares it under the id.
    Declared {
        /// The face that declares.
        face: FaceId,
        /// The id that the face gives.
        id: u32,
        /// What it says under the id from then on.
        info: QueryableInfoType,
    },
    /// A face withdraws the id.
    Withdrawn {
        /// The face that withdraws.
        face: FaceId,
        /// The id that the face gave.
        id: u32,
    },
    /// A face goes, with what it declared.
    Left(FaceId),
    /// A router has this entry on it.
    Announced {
        /// The router whose entry it is.
        router: Zid,
        /// What the entry says from then on.
        info: QueryableInfoType,
    },
    /// A router has no entry on it.
    Retracted(Zid),
    /// A network is put in place.
    Networked(IndexedNetwork),
}
