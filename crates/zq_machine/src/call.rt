//! What a gateway is asked, and what it answers.
ghost use Rattle.std.specs.Prelude.{◌≡◌};
ghost use Rattle.zq_machine.specs.Calls.{has_none, is_absent, is_plain_opening, is_sent};

use crate::handed::HandedList;
use zq_key::items::Items;
use zq_key::message::{
    Bound, FaceId, Mode, QueryableInfoType, Region, Request, Response, TextList, WireExpr, Zid,
};
use zq_key::text::Text;
use zq_route::gateways::Gateways;
use zq_strategy::types::{FinalMark, Network, NodeIds};

/// How a face is opened.
#[derive(Debug, Drop)]
pub struct Opening {
    /// The region that the face is of.
    pub region: Region,
    /// The id of the node at its other end.
    pub zid: Zid,
    /// What that node is in its network (upstream's `WhatAmI`).
    pub mode: Mode,
    /// On which side of that node this gateway lies.
    pub remote_bound: Bound,
    /// A plain key behind which all stands that the face writes without a number; or none.
    pub namespace: Option<Text>,
    /// Keys: the face may not ask for what one of them includes.
    pub entry_deny: TextList,
    /// Keys: the face is not asked for what one of them includes.
    pub exit_deny: TextList,
}

/// One event of the gateway.
#[derive(Debug, Drop)]
pub enum Call {
    /// A new face is opened in its region.
    Open(Opening),
    /// A face is closed: what it owes is released, and it is handed nothing any more.
    Close {
        /// The face that closes.
        face: FaceId,
    },
    /// A face gives a number to a key (upstream's `register_expr`).
    DeclareKeyExpr {
        /// The face that gives it.
        face: FaceId,
        /// The number, which may not be 0.
        id: u16,
        /// The key that it stands for from then on.
        wire: WireExpr,
    },
    /// A face takes a number back (upstream's `unregister_expr`).
    UndeclareKeyExpr {
        /// The face that gave it.
        face: FaceId,
        /// The number that stands for nothing from then on.
        id: u16,
    },
    /// A face declares that it answers a key (upstream's `declare_queryable`).
    DeclareQueryable {
        /// The face that declares it.
        face: FaceId,
        /// The id that the face gives it; in a region of routers it says nothing.
        id: u32,
        /// The key that it answers.
        wire: WireExpr,
        /// How completely it answers, and how far it is.
        info: QueryableInfoType,
        /// In a region of routers the number of the router that it is of.
        node: u16,
    },
    /// A face withdraws a queryable (upstream's `undeclare_queryable`).
    UndeclareQueryable {
        /// The face that withdraws it.
        face: FaceId,
        /// The id under which it was declared; in a region of routers it says nothing.
        id: u32,
        /// The key of the queryable, which is read in a region of routers alone.
        wire: Option<WireExpr>,
        /// In a region of routers the number of the router that it was of.
        node: u16,
    },
    /// A face asks to be told of queryables.
    Interest {
        /// The face that asks.
        face: FaceId,
        /// The id that the face gives the interest.
        id: u32,
        /// Whether numbers may be declared to it for the keys that it is told.
        keys: bool,
        /// Whether it is to hear of its key alone, aggregated over all keys that meet it.
        aggregate: bool,
        /// The key that queryables have to meet; with none all are asked for.
        wire: Option<WireExpr>,
    },
    /// A face asks no longer to be told.
    InterestFinal {
        /// The face that asked.
        face: FaceId,
        /// The id of the interest that ends.
        id: u32,
    },
    /// A mark of a face is set or unset (upstream's `set_finalized` and `unset_finalized`).
    FinalizeInterest {
        /// The face that is marked.
        face: FaceId,
        /// Of what all has come: of what the face had to declare at its opening, or on a key.
        mark: FinalMark,
        /// Whether the mark is set, and not unset.
        set: bool,
    },
    /// A face asks a query (upstream's `route_query`).
    Request {
        /// The face that asks.
        face: FaceId,
        /// The query, under the id that the face gives it.
        request: Request,
        /// The moment at which it asks, in milliseconds.
        now: u64,
    },
    /// A face replies to a request (upstream's `route_send_response`).
    Response {
        /// The face that replies.
        face: FaceId,
        /// The reply, under the id that the request has at the face.
        response: Response,
    },
    /// A face has no more to say to a request (upstream's `route_send_response_final`).
    ResponseFinal {
        /// The face that was asked.
        face: FaceId,
        /// The id that the request has at the face.
        rid: u32,
    },
    /// A reply has been sent, and is in flight no longer.
    Sent {
        /// The number of the reply.
        reply: u64,
    },
    /// A moment has come, and with it the end of what waited up to it (upstream's `QueryCleanup`).
    Poll {
        /// The moment, in milliseconds.
        now: u64,
    },
    /// The gateways of a region's nodes are handed in.
    SetGateways {
        /// The region whose nodes have them.
        region: Region,
        /// The gateways, in place of those before.
        table: Gateways,
    },
    /// The network of a region of routers is handed in; in other regions it changes nothing.
    SetNetwork {
        /// The region of the routers.
        region: Region,
        /// The whole network, in place of the one before.
        net: Network,
    },
    /// What the node numbers of a face stand for is handed in.
    SetNodeIds {
        /// The face that uses the numbers.
        face: FaceId,
        /// The ids by number, in place of those before.
        ids: NodeIds,
    },
}

impl Call {
    /// Whether it reports a reply as sent.
    pub fn is_sent(&self) -> bool
        ensures { result ≡ is_sent self.now }
    {
        matches!(self, Call::Sent { .. })
    }
}

impl Opening {
    /// Whether the face has neither a namespace nor deny lists.
    pub fn is_plain(&self) -> bool
        ensures { result ≡ is_plain_opening self.now }
    {
        self.namespace.is_none() && self.entry_deny.is_empty() && self.exit_deny.is_empty()
    }
}

/// Why a call changed nothing: the first cause of those that hold.
#[derive(Clone, Copy, Debug, PartialEq, Eq)]
pub enum Refusal {
    /// The face was never opened, or is closed.
    UnknownFace,
    /// The configuration lacks the region.
    UnknownRegion,
    /// The face would be a second upstream.
    UpstreamInUse,
    /// The number of an expression is neither 0 nor known at the face.
    UnknownScope,
    /// A text that has to be a key is none.
    InvalidKeyExpr,
    /// No request is pending at the face under the id.
    QueryNotFound,
    /// The reply is not in flight.
    NotInFlight,
    /// The number is 0, or stands for another text.
    Remapped,
    /// Nothing stands there that the call could take back.
    UnknownId,
    /// The id stands for another key.
    IdInUse,
    /// The node number stands for no router, or for the gateway itself.
    UnknownRouter,
    /// No number or no id is left for what the call brings.
    NoFreeId,
}

/// The answer to a call; of a request and of a reply with its number, of a reply none where its
/// asker was closed.
#[derive(Clone, Copy, Debug, PartialEq, Eq)]
pub enum Outcome {
    /// The face was opened, under this number.
    Opened(FaceId),
    /// The request was accepted, under this number.
    Asked(u64),
    /// The reply was accepted, under this number if its asker is open.
    Replied(Option<u64>),
    /// The call was accepted, and there is nothing to answer.
    Done,
    /// The call changed nothing, and hands nothing.
    Refused(Refusal),
}

/// What one call gives.
#[derive(Debug, Drop)]
pub struct Step {
    /// What the call is answered.
    pub outcome: Outcome,
    /// The messages that the call hands to faces, in order.
    pub handed: HandedList,
}

/// Steps, in order.
pub type StepList = Items<Step>;

/// The steps of a whole run, one for each call.
#[derive(Debug, Drop)]
pub struct Replay {
    /// The step of each call, in the order of the calls.
    pub steps: StepList,
}
