//! A face's exit: its deny list, and then its namespace.
ghost use Rattle.std.specs.Prelude.{◌≡◌, true, false, if◌then◌else◌, IfNone, IfOk, OnOk, OnErr, List, ℕ, Some, None, option_copied, option_map};
ghost use Rattle.zq_message.specs.declared.message.Message.{Message as AnyMessage};
ghost use Rattle.zq_namespace.specs.Denied.{after_mux, denies as denies_of, is_open, mux_kept, mux_leaves, new_mux, space_leaves, HasKey, IsPlainSpace};
ghost use Rattle.zq_namespace.specs.Laws.{StaysIn};
ghost use Rattle.zq_namespace.specs.Leaves.{ExitState};
ghost use Rattle.zq_namespace.specs.Out.{left};
ghost use Rattle.zq_namespace.specs.Undone.{mux_ended, mux_given, mux_undone};

use crate::deny::{KeyList, is_denied};
use crate::exit::ENamespace;
use crate::kept::Kept;
use crate::out::Out;
use std::alloc::Global;
use std::marker::Model;
use zq_key::Key;
use zq_message::memory::OutOfMemory;
use zq_message::message::Message;

/// A face's exit (upstream's `Mux`): its deny list, and then its namespace, if it has one.
pub struct Mux {
    space: Option<ENamespace>,
    exit: KeyList,
    alloc: Global,
}

impl Drop for Mux {
    fn drop(self) {
        let Mux { space, exit, alloc } = self;
    }
}

impl Model for Mux {
    ghost use Rattle.zq_namespace.specs.Denied.{MuxState};

    ghost Value = { MuxState };

    ghost view = { λ s. record { space = s.space; exit = s.exit } };
}

/// Whether a message is a request on a key that is denied.
fn denies(exit: &[Key], key: &str, message: &Message) -> bool
    requires { HasKey key.now message.now }
    ensures { result ≡ denies_of exit.now key.now message.now }
{
    match message {
        Message::Request(_) => is_denied(exit, key),
        Message::Interest(_)
        | Message::InterestFinal(_)
        | Message::Declare(_)
        | Message::Response(_)
        | Message::ResponseFinal(_) => false,
    }
}

/// What leaves a namespace, and all where there is none.
fn space_out(space: &Option<ENamespace>, message: &Message) -> Result<Out<Message>, OutOfMemory>
    ensures { IfOk result (λ o. left message.now o ≡ space_leaves space.now message.now) }
{
    match space {
        Some(space) => space.lets_out(message),
        None => Ok(Out::Same),
    }
}

impl Mux {
    /// The exit of a face with a namespace, which is plain, or without one, and a deny list. It keeps
    /// nothing yet.
    pub fn new(alloc: Global, namespace: Option<Key>, exit: KeyList) -> Mux
        requires { IsPlainSpace namespace }
        ensures { result ≡ new_mux namespace exit }
    {
        let space = match namespace {
            Some(ns) => Some(ENamespace::new(alloc, ns)),
            None => None,
        };
        Mux { space, exit, alloc }
    }

    /// The exit of a face, None where it has neither a namespace nor a denied key: then all leaves
    /// as it is handed, and nothing need be asked.
    pub fn for_face(alloc: Global, namespace: Option<Key>, exit: KeyList) -> Option<Mux>
        requires { IsPlainSpace namespace }
        ensures exit { result ≡ if is_open namespace exit then None else Some (new_mux namespace exit) }
        ensures open { IfNone result ((key : List ℕ) (m : AnyMessage) → mux_leaves (new_mux namespace exit) key m ≡ Some m) }
    {
        if namespace.is_none() && exit.is_empty() {
            return None;
        }
        Some(Mux::new(alloc, namespace, exit))
    }

    /// The namespace, if there is one.
    pub fn namespace(&self) -> Option<&str>
        ensures { option_copied result ≡ option_map (λ (e : ExitState). e.ns) self.now.space }
    {
        match &self.space {
            Some(space) => Some(space.namespace()),
            None => None,
        }
    }

    fn message_out(&self, key: &str, message: &Message) -> Result<Out<Message>, OutOfMemory>
        requires { HasKey key.now message.now }
        ensures { IfOk result (λ o. left message.now o ≡ mux_leaves self.now key.now message.now) }
    {
        if denies(self.exit.as_slice(), key, message) {
            return Ok(Out::Nothing);
        }
        space_out(&self.space, message)
    }

    /// What leaves in place of a message. The key is the whole text that a request is on; of other
    /// messages it is not read. It changes nothing, and copies nothing of a message that leaves as
    /// it is.
    pub fn lets_out(&self, key: &str, message: &Message) -> Result<Out<Message>, OutOfMemory>
        requires { HasKey key.now message.now }
        ensures leaves { IfOk result (λ o. left message.now o ≡ mux_leaves self.now key.now message.now) }
        ensures denied { IfOk result (λ o. StaysIn self.now.exit key.now message.now (left message.now o)) }
    {
        self.message_out(key, message)
    }

    /// Keeps what is to be known of a message that did not leave and that gives a number or an id,
    /// as `ENamespace::keep_given` does.
    pub fn keep_given(&mut self, message: &Message) -> Result<Kept, OutOfMemory>
        ensures ok { OnOk result (self.new ≡ mux_given self.old message.now) }
        ensures back { IfOk result (λ k. mux_undone k message.now self.new ≡ self.old) }
        ensures err { OnErr result (self.new ≡ self.old) }
    {
        let Some(space) = &mut self.space else {
            return Ok(Kept::Already);
        };
        space.keep_given(message)
    }

    /// Undoes what `keep_given` kept of a message, by what it answered. It takes no memory.
    pub fn undo(&mut self, message: &Message, kept: Kept)
        ensures { self.new ≡ mux_undone kept message.now self.old }
    {
        if let Some(space) = &mut self.space {
            space.undo(message, kept);
        }
    }

    /// Drops the number or the id that a message ends, which did not leave. It takes no memory.
    pub fn end(&mut self, message: &Message)
        ensures { self.new ≡ mux_ended self.old message.now }
    {
        if let Some(space) = &mut self.space {
            space.end(message);
        }
    }

    fn keep(&mut self, message: &Message) -> Result<(), OutOfMemory>
        ensures ok { OnOk result (self.new ≡ mux_kept self.old message.now) }
        ensures err { OnErr result (self.new ≡ self.old) }
    {
        let _ = self.keep_given(message)?;
        self.end(message);
        Ok(())
    }

    fn pass(&mut self, key: &str, message: &Message) -> Result<Option<Message>, OutOfMemory>
        requires { HasKey key.now message.now }
        ensures leaves { IfOk result (λ o. o ≡ mux_leaves self.old key.now message.now) }
        ensures after { OnOk result (self.new ≡ after_mux self.old key.now message.now) }
        ensures err { OnErr result (self.new ≡ self.old) }
    {
        match self.message_out(key, message)? {
            Out::Same => Ok(Some(message.copy(self.alloc)?)),
            Out::Other(other) => Ok(Some(other)),
            Out::Nothing => {
                self.keep(message)?;
                Ok(None)
            }
        }
    }

    /// What leaves in place of a message, or None where nothing does: a request on a denied key, or
    /// what the namespace keeps. The key is the whole text that a request is on; of other messages
    /// it is not read. What leaves changes nothing.
    pub fn leave(&mut self, key: &str, message: &Message) -> Result<Option<Message>, OutOfMemory>
        requires { HasKey key.now message.now }
        ensures leaves { IfOk result (λ o. o ≡ mux_leaves self.old key.now message.now) }
        ensures denied { IfOk result (λ o. StaysIn self.old.exit key.now message.now o) }
        ensures after { OnOk result (self.new ≡ after_mux self.old key.now message.now) }
        ensures err { OnErr result (self.new ≡ self.old) }
    {
        self.pass(key, message)
    }
}
