//! The entry of a namespace.
ghost use Rattle.std.specs.Prelude.{◌≡◌, ◌<◌, length, true, IfOk, Some, unwrap_or};
ghost use Rattle.zq_key.specs.Key.{is_key as key_of, is_plain as plain_of};
ghost use Rattle.zq_key.specs.Space.{behind};
ghost use Rattle.zq_namespace.specs.Entry.{entered, entered_body, entered_message, entered_option, entered_response, is_bare as is_bare_of, is_bare_error as is_bare_error_of};
ghost use Rattle.zq_namespace.specs.Exit.{Heads, wire_out};

use std::alloc::Global;
use std::marker::Model;
use zq_key::Key;
use zq_key::space::prefix;
use zq_message::memory::OutOfMemory;
use zq_message::message::{Declare, DeclareBody, Interest, Message, ReplyBody, Response, WireExpr};

/// Whether an expression has neither a number nor a suffix.
fn is_bare(wire: &WireExpr) -> bool
    ensures { result ≡ is_bare_of wire.now }
{
    wire.scope == 0 && wire.suffix.as_str().is_empty()
}

/// Whether a reply is an error with the empty expression, which says no key.
pub(crate) fn is_bare_error(response: &Response) -> bool
    ensures { result ≡ is_bare_error_of response.now }
{
    match &response.payload {
        ReplyBody::Reply(_) => false,
        ReplyBody::Err(_) => is_bare(&response.wire),
    }
}

/// An expression behind a namespace; None where it has a number, and is read as it is.
pub fn wire_behind(
    alloc: Global,
    ns: &str,
    wire: &WireExpr,
) -> Result<Option<WireExpr>, OutOfMemory>
    ensures { IfOk result (λ o. unwrap_or o wire.now ≡ entered ns.now wire.now) }
{
    if wire.scope != 0 {
        return Ok(None);
    }
    Ok(Some(WireExpr {
        scope: 0,
        mapping: wire.mapping,
        suffix: prefix(alloc, ns, wire.suffix.as_str())?,
    }))
}

/// The expression of a reply behind a namespace; None where it is read as it is, as an error's empty
/// one is, which says no key.
pub fn reply_behind(
    alloc: Global,
    ns: &str,
    response: &Response,
) -> Result<Option<WireExpr>, OutOfMemory>
    ensures { IfOk result (λ o. unwrap_or o response.now.wire ≡ (entered_response ns.now response.now).wire) }
{
    if is_bare_error(response) {
        return Ok(None);
    }
    wire_behind(alloc, ns, &response.wire)
}

/// Puts what a face sends behind its namespace (upstream's `Namespace`).
pub struct Namespace {
    ns: Key,
    alloc: Global,
}

impl Drop for Namespace {
    fn drop(self) {
        let Namespace { ns, alloc } = self;
    }
}

impl Model for Namespace {
    ghost use Rattle.std.specs.Prelude.{◌≡◌, true, ℕ, List};
    ghost use Rattle.zq_key.specs.Key.{is_plain};

    ghost Value = { List ℕ };

    ghost view = { λ s. s.ns };

    ghost invariant = { λ s. is_plain s.ns ≡ true };
}

impl Namespace {
    /// The entry of a namespace, which is a plain key.
    pub fn new(alloc: Global, ns: Key) -> Namespace
        requires { plain_of ns ≡ true }
        ensures { result ≡ ns }
    {
        Namespace { ns, alloc }
    }

    fn put_behind(&self, wire: &WireExpr) -> Result<WireExpr, OutOfMemory>
        ensures { IfOk result (λ w. w ≡ entered self.now wire.now) }
    {
        match wire_behind(self.alloc, self.ns.as_str(), wire)? {
            Some(wire) => Ok(wire),
            None => wire.copy(self.alloc),
        }
    }

    /// An expression as it is read inside: behind the namespace, where it has no number. A key that
    /// is handed to a face of the same namespace leaves there as it was sent.
    /// (`handle_namespace_egress`)
    pub fn enter(&self, wire: &WireExpr) -> Result<WireExpr, OutOfMemory>
        ensures entered { IfOk result (λ w. w ≡ entered self.now wire.now) }
        ensures behind { wire.now.scope ≡ 0 → 0 < length wire.now.suffix → IfOk result (λ w. w.suffix ≡ behind self.now wire.now.suffix) }
        ensures back { (heads : Heads) → wire.now.scope ≡ 0 → key_of wire.now.suffix ≡ true → IfOk result (λ w. wire_out self.now heads w ≡ Some wire.now) }
    {
        // the namespace is plain
        let _ = &self.ns;
        self.put_behind(wire)
    }

    /// An expression that need not be there; one that is missing stays so.
    pub fn enter_option(&self, wire: &Option<WireExpr>) -> Result<Option<WireExpr>, OutOfMemory>
        ensures { IfOk result (λ w. w ≡ entered_option self.now wire.now) }
    {
        match wire {
            Some(wire) => Ok(Some(self.enter(wire)?)),
            None => Ok(None),
        }
    }

    /// A reply; the empty expression of an error says no key, and stays empty.
    pub fn enter_response(&self, response: &Response) -> Result<Response, OutOfMemory>
        ensures { IfOk result (λ r. r ≡ entered_response self.now response.now) }
    {
        if is_bare_error(response) {
            return response.copy(self.alloc);
        }
        response.with_wire(self.alloc, self.enter(&response.wire)?)
    }

    fn enter_body(&self, body: &DeclareBody) -> Result<DeclareBody, OutOfMemory>
        ensures { IfOk result (λ b. b ≡ entered_body self.now body.now) }
    {
        match body {
            DeclareBody::DeclareKeyExpr { id, wire } => Ok(DeclareBody::DeclareKeyExpr {
                id: *id,
                wire: self.enter(wire)?,
            }),
            DeclareBody::UndeclareKeyExpr { id } => Ok(DeclareBody::UndeclareKeyExpr { id: *id }),
            DeclareBody::DeclareQueryable { id, wire, info } => Ok(DeclareBody::DeclareQueryable {
                id: *id,
                wire: self.enter(wire)?,
                info: *info,
            }),
            DeclareBody::UndeclareQueryable { id, wire } => Ok(DeclareBody::UndeclareQueryable {
                id: *id,
                wire: self.enter_option(wire)?,
            }),
            DeclareBody::DeclareFinal => Ok(DeclareBody::DeclareFinal),
        }
    }

    /// A message as it is read inside: its expression, if it has one, enters.
    pub fn enter_message(&self, message: &Message) -> Result<Message, OutOfMemory>
        ensures { IfOk result (λ m. m ≡ entered_message self.now message.now) }
    {
        match message {
            Message::Interest(interest) => Ok(Message::Interest(Interest {
                id: interest.id,
                keys: interest.keys,
                aggregate: interest.aggregate,
                wire: self.enter_option(&interest.wire)?,
            })),
            Message::InterestFinal(id) => Ok(Message::InterestFinal(*id)),
            Message::Declare(declare) => Ok(Message::Declare(Declare {
                interest: declare.interest,
                node: declare.node,
                body: self.enter_body(&declare.body)?,
            })),
            Message::Request(request) => Ok(Message::Request(request.with_wire(
                self.alloc,
                self.enter(&request.wire)?,
            )?)),
            Message::Response(response) => Ok(Message::Response(self.enter_response(response)?)),
            Message::ResponseFinal(last) => Ok(Message::ResponseFinal(*last)),
        }
    }
}
