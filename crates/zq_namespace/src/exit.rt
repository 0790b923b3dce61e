//! The exit of a namespace.
ghost use Rattle.std.specs.Prelude.{◌≡◌, true, false, IfOk, OnOk, OnErr, Some, None, if◌then◌else◌};
ghost use Rattle.zq_key.specs.Key.{is_plain as plain_of};
ghost use Rattle.zq_message.specs.declared.message.Message.TheVariants as message_of;
ghost use Rattle.zq_message.specs.declared.message.DeclareBody.TheVariants as body_of;
ghost use Rattle.zq_namespace.specs.Exit.{option_out as option_out_of, wire_out as wire_out_of};
ghost use Rattle.zq_namespace.specs.Laws.{StaysWithin};
ghost use Rattle.zq_namespace.specs.Leaves.{after_leaving, body_gives, body_kept, body_leaves, kept, leaves, new_exit};
ghost use Rattle.zq_namespace.specs.Out.{left};
ghost use Rattle.zq_namespace.specs.Undone.{body_given, body_undone, ended, given, undone};

use crate::entry::is_bare_error;
use crate::expr::{HeadMap, option_out, wire_out};
use crate::kept::{Kept, put_head, put_id, undo_head, undo_id};
use crate::out::Out;
use std::alloc::Global;
use std::collections::{BTreeMap, BTreeSet};
use std::marker::Model;
use zq_key::Key;
use zq_message::memory::OutOfMemory;
use zq_message::message::{
    Declare, DeclareBody, Interest, Message, QueryableInfoType, Request, Response, WireExpr,
};
use zq_message::text::Text;

/// Takes a face's namespace off what is handed to it (upstream's `ENamespace`). Of declarations and
/// interests that did not leave it keeps numbers, with their texts, and ids, so that what ends them
/// does not leave either, and what is said under such a number leaves as its whole text.
pub struct ENamespace {
    ns: Key,
    heads: HeadMap,
    queryables: BTreeSet<u32>,
    interests: BTreeSet<u32>,
    alloc: Global,
}

impl Drop for ENamespace {
    fn drop(self) {
        let ENamespace {
            ns,
            heads,
            queryables,
            interests,
            alloc,
        } = self;
    }
}

impl Model for ENamespace {
    ghost use Rattle.std.specs.Prelude.{◌≡◌, true};
    ghost use Rattle.zq_key.specs.Key.{is_plain};
    ghost use Rattle.zq_namespace.specs.Laws.{StaysWithin};
    ghost use Rattle.zq_namespace.specs.Leaves.{ExitState};

    ghost Value = { ExitState };

    ghost view = { λ s. record { ns = s.ns; heads = s.heads.entries; queryables = s.queryables.keys; interests = s.interests.keys } };

    ghost invariant = { λ s. is_plain s.ns ≡ true };
}

impl ENamespace {
    /// The exit of a namespace, which is a plain key. It keeps nothing yet.
    pub fn new(alloc: Global, ns: Key) -> ENamespace
        requires { plain_of ns ≡ true }
        ensures { result ≡ new_exit ns }
    {
        ENamespace {
            ns,
            heads: BTreeMap::new(alloc),
            queryables: BTreeSet::new(alloc),
            interests: BTreeSet::new(alloc),
            alloc,
        }
    }

    /// The namespace.
    pub fn namespace(&self) -> &str
        ensures { result.now ≡ self.now.ns }
    {
        self.ns.as_str()
    }

    fn wire_out(&self, wire: &WireExpr) -> Result<Out<WireExpr>, OutOfMemory>
        ensures { IfOk result (λ o. left wire.now o ≡ wire_out_of self.now.ns self.now.heads wire.now) }
    {
        wire_out(self.alloc, self.ns.as_str(), &self.heads, wire)
    }

    fn interest_out(&self, interest: &Interest) -> Result<Out<Message>, OutOfMemory>
        ensures { IfOk result (λ o. left (message_of.Interest interest.now) o ≡ leaves self.now (message_of.Interest interest.now)) }
    {
        match option_out(self.alloc, self.ns.as_str(), &self.heads, &interest.wire)? {
            Out::Same => Ok(Out::Same),
            Out::Other(wire) => Ok(Out::Other(Message::Interest(Interest {
                id: interest.id,
                keys: interest.keys,
                aggregate: interest.aggregate,
                wire,
            }))),
            Out::Nothing => Ok(Out::Nothing),
        }
    }

    fn request_out(&self, request: &Request) -> Result<Out<Message>, OutOfMemory>
        ensures { IfOk result (λ o. left (message_of.Request request.now) o ≡ leaves self.now (message_of.Request request.now)) }
    {
        match self.wire_out(&request.wire)? {
            Out::Same => Ok(Out::Same),
            Out::Other(wire) => Ok(Out::Other(Message::Request(request.with_wire(
                self.alloc, wire,
            )?))),
            Out::Nothing => Ok(Out::Nothing),
        }
    }

    fn response_out(&self, response: &Response) -> Result<Out<Message>, OutOfMemory>
        ensures { IfOk result (λ o. left (message_of.Response response.now) o ≡ leaves self.now (message_of.Response response.now)) }
    {
        if is_bare_error(response) {
            return Ok(Out::Same);
        }
        match self.wire_out(&response.wire)? {
            Out::Same => Ok(Out::Same),
            Out::Other(wire) => Ok(Out::Other(Message::Response(response.with_wire(
                self.alloc, wire,
            )?))),
            Out::Nothing => Ok(Out::Nothing),
        }
    }

    fn key_out(&self, id: u16, wire: &WireExpr) -> Result<Out<DeclareBody>, OutOfMemory>
        ensures { IfOk result (λ o. left (body_of.DeclareKeyExpr id wire.now) o ≡ body_leaves self.now (body_of.DeclareKeyExpr id wire.now)) }
    {
        match self.wire_out(wire)? {
            Out::Same => Ok(Out::Same),
            Out::Other(wire) => Ok(Out::Other(DeclareBody::DeclareKeyExpr { id, wire })),
            Out::Nothing => Ok(Out::Nothing),
        }
    }

    fn queryable_out(
        &self,
        id: u32,
        wire: &WireExpr,
        info: QueryableInfoType,
    ) -> Result<Out<DeclareBody>, OutOfMemory>
        ensures { IfOk result (λ o. left (body_of.DeclareQueryable id wire.now info) o ≡ body_leaves self.now (body_of.DeclareQueryable id wire.now info)) }
    {
        match self.wire_out(wire)? {
            Out::Same => Ok(Out::Same),
            Out::Other(wire) => Ok(Out::Other(DeclareBody::DeclareQueryable { id, wire, info })),
            Out::Nothing => Ok(Out::Nothing),
        }
    }

    fn unqueryable_out(
        &self,
        id: u32,
        wire: &Option<WireExpr>,
    ) -> Result<Out<DeclareBody>, OutOfMemory>
        ensures { IfOk result (λ o. left (body_of.UndeclareQueryable id wire.now) o ≡ body_leaves self.now (body_of.UndeclareQueryable id wire.now)) }
    {
        let Some(wire) = wire else {
            return Ok(unless_kept(self.queryables.contains(&id)));
        };
        match self.wire_out(wire)? {
            Out::Same => Ok(Out::Same),
            Out::Other(wire) => Ok(Out::Other(DeclareBody::UndeclareQueryable {
                id,
                wire: Some(wire),
            })),
            Out::Nothing => Ok(Out::Nothing),
        }
    }

    fn body_out(&self, body: &DeclareBody) -> Result<Out<DeclareBody>, OutOfMemory>
        ensures { IfOk result (λ o. left body.now o ≡ body_leaves self.now body.now) }
    {
        match body {
            DeclareBody::DeclareKeyExpr { id, wire } => self.key_out(*id, wire),
            DeclareBody::UndeclareKeyExpr { id } => Ok(unless_kept(self.heads.contains_key(id))),
            DeclareBody::DeclareQueryable { id, wire, info } => {
                self.queryable_out(*id, wire, *info)
            }
            DeclareBody::UndeclareQueryable { id, wire } => self.unqueryable_out(*id, wire),
            DeclareBody::DeclareFinal => Ok(Out::Same),
        }
    }

    fn declare_out(&self, declare: &Declare) -> Result<Out<Message>, OutOfMemory>
        ensures { IfOk result (λ o. left (message_of.Declare declare.now) o ≡ leaves self.now (message_of.Declare declare.now)) }
    {
        match self.body_out(&declare.body)? {
            Out::Same => Ok(Out::Same),
            Out::Other(body) => Ok(Out::Other(Message::Declare(Declare {
                interest: declare.interest,
                node: declare.node,
                body,
            }))),
            Out::Nothing => Ok(Out::Nothing),
        }
    }

    fn message_out(&self, message: &Message) -> Result<Out<Message>, OutOfMemory>
        ensures { IfOk result (λ o. left message.now o ≡ leaves self.now message.now) }
    {
        match message {
            Message::Interest(interest) => self.interest_out(interest),
            Message::InterestFinal(id) => Ok(unless_kept(self.interests.contains(id))),
            Message::Declare(declare) => self.declare_out(declare),
            Message::Request(request) => self.request_out(request),
            Message::Response(response) => self.response_out(response),
            Message::ResponseFinal(_) => Ok(Out::Same),
        }
    }

    /// What leaves in place of a message. It changes nothing, and copies nothing of a message that
    /// leaves as it is.
    pub fn lets_out(&self, message: &Message) -> Result<Out<Message>, OutOfMemory>
        ensures leaves { IfOk result (λ o. left message.now o ≡ leaves self.now message.now) }
        ensures within { IfOk result (λ o. StaysWithin self.now message.now (left message.now o)) }
    {
        // the namespace is plain
        let _ = &self.ns;
        self.message_out(message)
    }

    fn keep_body(&mut self, body: &DeclareBody) -> Result<Kept, OutOfMemory>
        ensures ok { OnOk result (self.new ≡ body_given self.old body.now) }
        ensures back { IfOk result (λ k. body_undone k body.now self.new ≡ self.old) }
        ensures err { OnErr result (self.new ≡ self.old) }
    {
        match body {
            DeclareBody::DeclareKeyExpr { id, wire } => {
                put_head(&mut self.heads, *id, wire.suffix.copy(self.alloc)?)
            }
            DeclareBody::DeclareQueryable { id, .. } => put_id(&mut self.queryables, *id),
            DeclareBody::UndeclareKeyExpr { .. }
            | DeclareBody::UndeclareQueryable { .. }
            | DeclareBody::DeclareFinal => Ok(Kept::Already),
        }
    }

    /// Keeps what is to be known of a message that did not leave and that gives a number or an id:
    /// the text of a key's number, the id of a queryable or an interest. Of other messages it keeps
    /// nothing. By what it answers `undo` leaves what was.
    pub fn keep_given(&mut self, message: &Message) -> Result<Kept, OutOfMemory>
        ensures ok { OnOk result (self.new ≡ given self.old message.now) }
        ensures back { IfOk result (λ k. undone k message.now self.new ≡ self.old) }
        ensures err { OnErr result (self.new ≡ self.old) }
    {
        match message {
            Message::Interest(interest) => put_id(&mut self.interests, interest.id),
            Message::Declare(declare) => self.keep_body(&declare.body),
            Message::InterestFinal(_)
            | Message::Request(_)
            | Message::Response(_)
            | Message::ResponseFinal(_) => Ok(Kept::Already),
        }
    }

    fn end_body(&mut self, body: &DeclareBody)
        ensures { self.new ≡ if body_gives body.now then self.old else body_kept self.old body.now }
    {
        match body {
            DeclareBody::UndeclareKeyExpr { id } => {
                let _ = self.heads.remove(id);
            }
            DeclareBody::UndeclareQueryable { id, wire: None } => {
                let _ = self.queryables.remove(id);
            }
            DeclareBody::DeclareKeyExpr { .. }
            | DeclareBody::DeclareQueryable { .. }
            | DeclareBody::UndeclareQueryable { wire: Some(_), .. }
            | DeclareBody::DeclareFinal => {}
        }
    }

    /// Drops the number or the id that a message ends, which did not leave. Other messages change
    /// nothing. It takes no memory.
    pub fn end(&mut self, message: &Message)
        ensures { self.new ≡ ended self.old message.now }
    {
        match message {
            Message::InterestFinal(id) => {
                let _ = self.interests.remove(id);
            }
            Message::Declare(declare) => self.end_body(&declare.body),
            Message::Interest(_)
            | Message::Request(_)
            | Message::Response(_)
            | Message::ResponseFinal(_) => {}
        }
    }

    fn keep(&mut self, message: &Message) -> Result<(), OutOfMemory>
        ensures ok { OnOk result (self.new ≡ kept self.old message.now) }
        ensures err { OnErr result (self.new ≡ self.old) }
    {
        let _ = self.keep_given(message)?;
        self.end(message);
        Ok(())
    }

    fn undo_body(&mut self, body: &DeclareBody, kept: Kept)
        ensures { self.new ≡ body_undone kept body.now self.old }
    {
        match body {
            DeclareBody::DeclareKeyExpr { id, .. } => undo_head(&mut self.heads, *id, kept),
            DeclareBody::DeclareQueryable { id, .. } => undo_id(&mut self.queryables, *id, kept),
            DeclareBody::UndeclareKeyExpr { .. }
            | DeclareBody::UndeclareQueryable { .. }
            | DeclareBody::DeclareFinal => {}
        }
    }

    /// Undoes what `keep_given` kept of a message, by what it answered. It takes no memory.
    pub fn undo(&mut self, message: &Message, kept: Kept)
        ensures { self.new ≡ undone kept message.now self.old }
    {
        match message {
            Message::Interest(interest) => undo_id(&mut self.interests, interest.id, kept),
            Message::Declare(declare) => self.undo_body(&declare.body, kept),
            Message::InterestFinal(_)
            | Message::Request(_)
            | Message::Response(_)
            | Message::ResponseFinal(_) => {}
        }
    }

    fn pass(&mut self, message: &Message) -> Result<Option<Message>, OutOfMemory>
        ensures leaves { IfOk result (λ o. o ≡ leaves self.old message.now) }
        ensures after { OnOk result (self.new ≡ after_leaving self.old message.now) }
        ensures err { OnErr result (self.new ≡ self.old) }
    {
        match self.message_out(message)? {
            Out::Same => Ok(Some(message.copy(self.alloc)?)),
            Out::Other(other) => Ok(Some(other)),
            Out::Nothing => {
                self.keep(message)?;
                Ok(None)
            }
        }
    }

    /// What leaves in place of a message, or None where nothing does; then it is kept. What leaves
    /// changes nothing. (`send_declare` and the other methods of `EPrimitives` for `ENamespace`)
    pub fn leave(&mut self, message: &Message) -> Result<Option<Message>, OutOfMemory>
        ensures leaves { IfOk result (λ o. o ≡ leaves self.old message.now) }
        ensures within { IfOk result (λ o. StaysWithin self.old message.now o) }
        ensures after { OnOk result (self.new ≡ after_leaving self.old message.now) }
        ensures err { OnErr result (self.new ≡ self.old) }
    {
        // the namespace is plain
        let _ = &self.ns;
        self.pass(message)
    }
}

/// An end leaves as it is, unless what it ends is kept.
fn unless_kept<T>(is_kept: bool) -> Out<T>
    ensures { (x : T) → left x result ≡ if is_kept then None else Some x }
{
    if is_kept { Out::Nothing } else { Out::Same }
}
