//! A message that a call hands, and what leaves of it.
ghost use Rattle.std.specs.Prelude.{◌≡◌, Some, option_copied};
ghost use Rattle.zq_machine.specs.Handing.{left};

use std::marker::Model;
use zq_key::items::Items;
use zq_key::message::{FaceId, Message};

/// What a face's exit lets out of a message that it is handed.
#[derive(Debug, Drop)]
pub enum Leaves {
    /// The message as it is handed.
    Same,
    /// Another message in its place, kept aside so that an entry has the size of one message.
    Other(Box<Message>),
    /// Nothing.
    Nothing,
}

/// A message that is given to a face's exit, with the numbers of its request and of its reply, and
/// what leaves. What leaves as it was handed is kept once.
#[derive(Debug)]
pub struct Handed {
    to: FaceId,
    number: Option<u64>,
    reply: Option<u64>,
    message: Message,
    leaves: Leaves,
}

impl Drop for Handed {
    fn drop(self) {
        let Handed {
            to,
            number,
            reply,
            message,
            leaves,
        } = self;
    }
}

impl Model for Handed {
    ghost use Rattle.zq_machine.specs.Handing.{Handed as Handing, left};

    ghost Value = { Handing };

    ghost view = { λ h. record { to = h.to; number = h.number; reply = h.reply; message = h.message; leaves = left h.message h.leaves } };
}

impl Handed {
    /// A message that leaves as it is handed.
    pub fn new(to: FaceId, number: Option<u64>, reply: Option<u64>, message: Message) -> Handed
        ensures { result ≡ record { to = to; number = number; reply = reply; message = message; leaves = Some message } }
    {
        Handed::through(to, number, reply, message, Leaves::Same)
    }

    /// A message of which the exit lets this out.
    pub fn through(
        to: FaceId,
        number: Option<u64>,
        reply: Option<u64>,
        message: Message,
        leaves: Leaves,
    ) -> Handed
        ensures { result ≡ record { to = to; number = number; reply = reply; message = message; leaves = left message leaves } }
    {
        Handed {
            to,
            number,
            reply,
            message,
            leaves,
        }
    }

    /// The face that it is handed to.
    pub fn to(&self) -> FaceId
        ensures { result ≡ self.now.to }
    {
        self.to
    }

    /// The number of its request; none where it is of no request.
    pub fn number(&self) -> Option<u64>
        ensures { result ≡ self.now.number }
    {
        self.number
    }

    /// Its own number, which is reported when it was sent, if it is a reply.
    pub fn reply(&self) -> Option<u64>
        ensures { result ≡ self.now.reply }
    {
        self.reply
    }

    /// The message, as it is given to the face's exit.
    pub fn message(&self) -> &Message
        ensures { result.now ≡ self.now.message }
    {
        &self.message
    }

    /// What leaves, or None where nothing does.
    pub fn leaves(&self) -> Option<&Message>
        ensures { option_copied result ≡ self.now.leaves }
    {
        match &self.leaves {
            Leaves::Same => Some(&self.message),
            Leaves::Other(message) => Some(&**message),
            Leaves::Nothing => None,
        }
    }

    /// From now on this leaves in the place of the message.
    pub fn set_leaves(&mut self, leaves: Leaves)
        ensures { self.new ≡ record self.old { leaves = left self.old.message leaves } }
    {
        self.leaves = leaves;
    }

    /// What leaves in the place of the message.
    pub fn leaving(&self) -> &Leaves
        ensures { self.now.leaves ≡ left self.now.message result.now }
    {
        &self.leaves
    }
}

/// Handed messages, in order.
pub type HandedList = Items<Handed>;
