//! What a face has received: the messages that left to it, each with its text as the face reads it.
ghost use Rattle.std.specs.Prelude.{◌≡◌, ◌++◌, IfOk, OnOk, fold, length};
ghost use Rattle.std.specs.Option.{option_map};
ghost use Rattle.zq_tables.specs.FaceIds.{with_id};
ghost use Rattle.zq_machine.specs.Selecting.{full_text};
ghost use Rattle.zq_moved.specs.Received.{body_in_full, in_full, knows, knows_body, knows_handed, knows_step, listed, message_in_full, reads_all, reads_handed, received, wrote, wrote_if};
ghost use Rattle.zq_tables.specs.Naming.{Names, no_names, read_by, said_by, said_of};

use std::alloc::Global;
use std::collections::BTreeMap;
use std::marker::Model;
use zq_key::items::Items;
use zq_key::memory::OutOfMemory;
use zq_key::message::{Declare, DeclareBody, FaceId, Interest, Mapping, Message, WireExpr};
use zq_key::text::Text;
use zq_machine::call::{Call, Outcome, Step};
use zq_machine::handed::Handed;

/// Messages, in order.
pub type MessageList = Items<Message>;

/// Texts by number.
type TextMap = BTreeMap<u16, Text>;

/// What a face knows: its own numbers, each with the text that it wrote, and those whose declarations left to it.
struct Known {
    theirs: TextMap,
    ours: TextMap,
    alloc: Global,
}

impl Drop for Known {
    fn drop(self) {
        let Known {
            theirs,
            ours,
            alloc,
        } = self;
    }
}

impl Model for Known {
    ghost use Rattle.zq_tables.specs.Naming.{FaceNaming};

    ghost Value = { FaceNaming };

    ghost view = { λ k. record { theirs = k.theirs.entries; ours = k.ours.entries } };
}

/// What an expression says by these numbers.
#[tactic(auto, using(crate::proofs::Reading::full_plainly))]
fn text_by(alloc: Global, names: &TextMap, wire: &WireExpr) -> Result<Text, OutOfMemory>
    ensures { IfOk result (λ t. t ≡ full_text (said_by (λ m. names.now.entries) wire.now)) }
{
    let suffix = wire.suffix.as_str();
    if wire.scope == 0 {
        return Text::new(alloc, suffix);
    }
    match names.get(&wire.scope) {
        Some(text) => Text::joined(alloc, text.as_str(), "", suffix),
        None => Text::new(alloc, ""),
    }
}

impl Known {
    /// A face knows nothing at first.
    fn new(alloc: Global) -> Known
        ensures { result ≡ no_names }
    {
        Known {
            theirs: BTreeMap::new(alloc),
            ours: BTreeMap::new(alloc),
            alloc,
        }
    }

    /// The text that the face writes by an expression.
    fn written(&self, wire: &WireExpr) -> Result<Text, OutOfMemory>
        ensures { IfOk result (λ t. t ≡ full_text (said_of self.now wire.now)) }
    {
        match wire.mapping {
            Mapping::Sender => text_by(self.alloc, &self.theirs, wire),
            Mapping::Receiver => text_by(self.alloc, &self.ours, wire),
        }
    }

    /// The text that the face reads in an expression.
    fn read(&self, wire: &WireExpr) -> Result<Text, OutOfMemory>
        ensures { IfOk result (λ t. t ≡ full_text (read_by self.now wire.now)) }
    {
        match wire.mapping {
            Mapping::Sender => text_by(self.alloc, &self.ours, wire),
            Mapping::Receiver => text_by(self.alloc, &self.theirs, wire),
        }
    }

    /// An expression by its whole text.
    fn in_full(&self, wire: &WireExpr) -> Result<WireExpr, OutOfMemory>
        ensures { IfOk result (λ w. w ≡ in_full self.now wire.now) }
    {
        Ok(WireExpr {
            scope: 0,
            mapping: Mapping::Sender,
            suffix: self.read(wire)?,
        })
    }

    /// An expression by its whole text, where there is one.
    fn option_in_full(&self, wire: &Option<WireExpr>) -> Result<Option<WireExpr>, OutOfMemory>
        ensures { IfOk result (λ w. w ≡ option_map (in_full self.now) wire.now) }
    {
        match wire {
            Some(wire) => Ok(Some(self.in_full(wire)?)),
            None => Ok(None),
        }
    }

    /// From now on a number of the face's own stands for a text.
    fn put_own(&mut self, id: u16, text: Text) -> Result<(), OutOfMemory>
        ensures { OnOk result (self.new ≡ record self.old { theirs = with_id self.old.theirs id text }) }
    {
        self.theirs.insert(id, text)?;
        Ok(())
    }

    /// Notes what the face knows once a call is accepted.
    fn note_accepted(
        &mut self,
        face: FaceId,
        call: &Call,
        answer: &Outcome,
    ) -> Result<(), OutOfMemory>
        ensures { OnOk result (self.new ≡ wrote face.0 call.now answer.now self.old) }
    {
        match call {
            Call::Open(_) => {
                if let Outcome::Opened(opened) = answer {
                    if opened.0 == face.0 {
                        *self = Known::new(self.alloc);
                    }
                }
            }
            Call::DeclareKeyExpr { face: by, id, wire } => {
                if by.0 == face.0 {
                    let text = self.written(wire)?;
                    self.put_own(*id, text)?;
                }
            }
            Call::UndeclareKeyExpr { face: by, id } => {
                if by.0 == face.0 {
                    let _ = self.theirs.remove(id);
                }
            }
            _ => {}
        }
        Ok(())
    }

    /// Notes what it knows once a call is answered; a refused call changes nothing.
    fn note_answered(
        &mut self,
        face: FaceId,
        call: &Call,
        answer: &Outcome,
    ) -> Result<(), OutOfMemory>
        ensures { OnOk result (self.new ≡ wrote_if face.0 call.now answer.now self.old) }
    {
        match answer {
            Outcome::Refused(_) => Ok(()),
            _ => self.note_accepted(face, call, answer),
        }
    }

    /// Learns what a declaration that left to it says.
    fn learn_body(&mut self, body: &DeclareBody) -> Result<(), OutOfMemory>
        ensures { OnOk result (self.new ≡ knows_body self.old body.now) }
    {
        match body {
            DeclareBody::DeclareKeyExpr { id, wire } => {
                let text = self.read(wire)?;
                self.ours.insert(*id, text)?;
            }
            DeclareBody::UndeclareKeyExpr { id } => {
                let _ = self.ours.remove(id);
            }
            _ => {}
        }
        Ok(())
    }

    /// Learns what a message that left to it says.
    fn learn(&mut self, message: &Message) -> Result<(), OutOfMemory>
        ensures { OnOk result (self.new ≡ knows self.old message.now) }
    {
        match message {
            Message::Declare(declare) => self.learn_body(&declare.body),
            _ => Ok(()),
        }
    }

    /// A declaration with its text whole; none of a key's.
    fn body_in_full(&self, body: &DeclareBody) -> Result<Option<DeclareBody>, OutOfMemory>
        ensures { IfOk result (λ b. b ≡ body_in_full self.now body.now) }
    {
        match body {
            DeclareBody::DeclareKeyExpr { .. } => Ok(None),
            DeclareBody::UndeclareKeyExpr { .. } => Ok(None),
            DeclareBody::DeclareQueryable { id, wire, info } => {
                Ok(Some(DeclareBody::DeclareQueryable {
                    id: *id,
                    wire: self.in_full(wire)?,
                    info: *info,
                }))
            }
            DeclareBody::UndeclareQueryable { id, wire } => {
                Ok(Some(DeclareBody::UndeclareQueryable {
                    id: *id,
                    wire: self.option_in_full(wire)?,
                }))
            }
            DeclareBody::DeclareFinal => Ok(Some(DeclareBody::DeclareFinal)),
        }
    }

    /// A message with its text whole; none of a key's declaration.
    fn message_in_full(&self, message: &Message) -> Result<Option<Message>, OutOfMemory>
        ensures { IfOk result (λ m. m ≡ message_in_full self.now message.now) }
    {
        match message {
            Message::Interest(interest) => Ok(Some(Message::Interest(Interest {
                id: interest.id,
                keys: interest.keys,
                aggregate: interest.aggregate,
                wire: self.option_in_full(&interest.wire)?,
            }))),
            Message::InterestFinal(id) => Ok(Some(Message::InterestFinal(*id))),
            Message::Declare(declare) => match self.body_in_full(&declare.body)? {
                Some(body) => Ok(Some(Message::Declare(Declare {
                    interest: declare.interest,
                    node: declare.node,
                    body,
                }))),
                None => Ok(None),
            },
            Message::Request(request) => {
                let wire = self.in_full(&request.wire)?;
                Ok(Some(Message::Request(request.with_wire(self.alloc, wire)?)))
            }
            Message::Response(response) => {
                let wire = self.in_full(&response.wire)?;
                Ok(Some(Message::Response(response.with_wire(self.alloc, wire)?)))
            }
            Message::ResponseFinal(last) => Ok(Some(Message::ResponseFinal(*last))),
        }
    }

    /// Puts what the face reads of a message that left behind what it read before.
    fn take_left(&mut self, message: &Message, all: &mut MessageList) -> Result<(), OutOfMemory>
        ensures knows { OnOk result (self.new ≡ knows self.old message.now) }
        ensures reads { OnOk result (all.new ≡ all.old ++ listed (message_in_full self.old message.now)) }
    {
        if let Some(read) = self.message_in_full(message)? {
            all.push(read)?;
        }
        self.learn(message)
    }

    /// Puts what the face reads of a message that is handed, to this face or another, behind what it read before.
    fn take_handed(
        &mut self,
        face: FaceId,
        handed: &Handed,
        all: &mut MessageList,
    ) -> Result<(), OutOfMemory>
        ensures knows { OnOk result (self.new ≡ knows_handed face.0 self.old handed.now) }
        ensures reads { OnOk result (all.new ≡ all.old ++ reads_handed face.0 self.old handed.now) }
    {
        if handed.to().0 != face.0 {
            return Ok(());
        }
        match handed.leaves() {
            Some(message) => self.take_left(message, all),
            None => Ok(()),
        }
    }

    /// Puts what the face reads of all that a call hands behind what it read before.
    fn take_all(
        &mut self,
        face: FaceId,
        handed: &[Handed],
        all: &mut MessageList,
    ) -> Result<(), OutOfMemory>
        ensures knows { OnOk result (self.new ≡ fold (knows_handed face.0) self.old handed.now) }
        ensures reads { OnOk result (all.new ≡ all.old ++ reads_all face.0 self.old handed.now) }
    {
        for one in handed {
            self.take_handed(face, one, all)?;
        }
        Ok(())
    }

    /// Puts what the face reads of a call that is answered by this step behind what it read before.
    fn take_step(
        &mut self,
        face: FaceId,
        call: &Call,
        step: &Step,
        all: &mut MessageList,
    ) -> Result<(), OutOfMemory>
        ensures knows { OnOk result (self.new ≡ knows_step face.0 self.old call.now step.now) }
        ensures reads { OnOk result (all.new ≡ all.old ++ reads_all face.0 (wrote_if face.0 call.now step.now.outcome self.old) step.now.handed) }
    {
        self.note_answered(face, call, &step.outcome)?;
        self.take_all(face, step.handed.as_slice(), all)
    }
}

/// What a face has received of a run: the messages that left to it, in order, without declarations of numbers,
/// each with its whole text as the face reads it.
pub fn received(
    alloc: Global,
    calls: &[Call],
    steps: &[Step],
    face: FaceId,
) -> Result<MessageList, OutOfMemory>
    requires { length calls.now ≡ length steps.now }
    ensures { IfOk result (λ l. l ≡ received face.0 calls.now steps.now) }
{
    let mut known = Known::new(alloc);
    let mut all = Items::new(alloc);
    for i in 0..calls.len() {
        known.take_step(face, &calls[i], &steps[i], &mut all)?;
    }
    Ok(all)
}
