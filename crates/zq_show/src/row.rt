//! The rows of a picture, from above: what a call says, and each message that it hands.
ghost use Rattle.std.specs.Prelude.{◌≡◌};
ghost use Rattle.zq_show.specs.PageRows.{ends, is_bar, is_of};

use zq_message::text::Bytes;

/// What a row shows, each drawn by a stroke of its own.
#[derive(Clone, Copy)]
pub enum Kind {
    /// A question.
    Request,
    /// A reply.
    Reply,
    /// The end of a request.
    Final,
    /// A face, a key, a queryable or another declaration.
    Declaration,
    /// A moment that came.
    Time,
    /// What is of no face.
    Note,
}

/// What begins or ends with a row.
#[derive(Clone, Copy)]
pub enum Event {
    /// Nothing.
    Nothing,
    /// A request is pending at a face, under an id, up to a moment.
    Pending {
        /// The number of the face that is asked.
        face: u32,
        /// The id that the request has there.
        id: u32,
        /// The number of the request.
        request: u64,
        /// The moment that ends the wait, in milliseconds.
        until: u64,
    },
    /// A reply is in flight.
    InFlight {
        /// The number of the reply.
        reply: u64,
    },
    /// A face has no more to say to the request of an id.
    Finished {
        /// The number of the face that was asked.
        face: u32,
        /// The id that the request had there.
        id: u32,
    },
    /// A request ended for the one who asked.
    Over {
        /// The number of the request.
        request: u64,
    },
    /// A face closed.
    Closed {
        /// The number of the face.
        face: u32,
    },
    /// A reply was sent.
    Sent {
        /// The number of the reply.
        reply: u64,
    },
    /// A moment came.
    Moment {
        /// The moment, in milliseconds.
        now: u64,
    },
}

impl Event {
    /// Whether something lasts from here on, until another event ends it.
    pub fn is_bar(self) -> bool
        ensures { result ≡ is_bar self }
    {
        matches!(self, Event::Pending { .. } | Event::InFlight { .. })
    }

    /// Whether the other event ends what began with this one.
    pub fn ends_with(self, other: Event) -> bool
        ensures { result ≡ ends self other }
    {
        match (self, other) {
            (
                Event::Pending { face, id, .. },
                Event::Finished {
                    face: by,
                    id: ended,
                },
            ) => face == by && id == ended,
            (Event::Pending { request, .. }, Event::Over { request: over }) => request == over,
            (Event::Pending { face, .. }, Event::Closed { face: closed }) => face == closed,
            (Event::Pending { until, .. }, Event::Moment { now }) => until <= now,
            (Event::InFlight { reply }, Event::Sent { reply: sent }) => reply == sent,
            _ => false,
        }
    }
}

/// A row of a picture.
#[derive(Drop)]
pub struct Row {
    /// The number of the script's line that it belongs to.
    pub line: u64,
    /// Which stroke it has.
    pub kind: Kind,
    /// The face that speaks or is spoken to, if one is.
    pub face: Option<u32>,
    /// Whether the gateway hands it to the face, and not the face to the gateway.
    pub handed: bool,
    /// Whether the gateway refused it.
    pub refused: bool,
    /// Whether nothing of it leaves: the exit of the face stops it.
    pub stopped: bool,
    /// What begins or ends with it.
    pub event: Event,
    /// The request that it is of, if it is of one.
    pub request: Option<u64>,
    /// What stands beside the arrow.
    pub label: Bytes,
}

impl Row {
    /// Whether it is of this request.
    pub fn is_of(&self, request: u64) -> bool
        ensures { result ≡ is_of request self.now }
    {
        match self.request {
            Some(number) => number == request,
            None => false,
        }
    }
}
