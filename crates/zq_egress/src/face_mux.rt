//! A face's gate.
ghost use Rattle.std.specs.Prelude.{◌≡◌, ◌&&◌, true, IfOk, OnOk, OnErr, option_copied};
ghost use Rattle.std.specs.List.{list_all};
ghost use Rattle.zq_key.specs.Key.{is_key as key_of};
ghost use Rattle.zq_machine.specs.Gates.{gate_for, is_sound as is_sound_of, is_space as is_space_of, space_in};
ghost use Rattle.zq_namespace.specs.Denied.{HasKey, is_denied as is_denied_of, mux_leaves};
ghost use Rattle.zq_namespace.specs.Out.{left};
ghost use Rattle.zq_namespace.specs.Undone.{mux_ended, mux_given, mux_undone};

use std::alloc::Global;
use std::marker::Model;
use zq_key::{Key, KeyError, is_key, is_plain};
use zq_machine::Opening;
use zq_message::items::Items;
use zq_message::memory::OutOfMemory;
use zq_message::message::Message;
use zq_message::text::Text;
use zq_namespace::deny::is_denied;
use zq_namespace::{Kept, KeyList, Mux, Out};

/// Whether each of these texts is a key.
fn are_keys(texts: &[Text]) -> bool
    ensures { result ≡ list_all key_of texts.now }
{
    texts.iter().all(|text| is_key(text.as_str()))
}

/// Whether a namespace, if there is one, is a plain key.
fn is_space(namespace: &Option<Text>) -> bool
    ensures { result ≡ is_space_of namespace.now }
{
    match namespace {
        Some(text) => is_plain(text.as_str()),
        None => true,
    }
}

/// Whether the namespace of an opening is a plain key, and what it denies are keys.
pub fn is_sound(asked: &Opening) -> bool
    ensures { result ≡ is_sound_of asked.now }
{
    is_space(&asked.namespace)
        && are_keys(asked.entry_deny.as_slice())
        && are_keys(asked.exit_deny.as_slice())
}

/// A text that is a key, as one.
fn key_from(alloc: Global, text: &str) -> Result<Key, OutOfMemory>
    requires { key_of text.now ≡ true }
    ensures { IfOk result (λ k. k ≡ text.now) }
{
    match Key::new(alloc, text) {
        Ok(key) => Ok(key),
        Err(KeyError::OutOfMemory) => Err(OutOfMemory),
        Err(KeyError::Invalid) => unreachable!(),
    }
}

/// Texts that are keys, as keys.
fn keys_from(alloc: Global, texts: &[Text]) -> Result<KeyList, OutOfMemory>
    requires { list_all key_of texts.now ≡ true }
    ensures { IfOk result (λ ks. ks ≡ texts.now) }
{
    let mut keys = Items::new(alloc);
    for text in texts {
        keys.push(key_from(alloc, text.as_str())?)?;
    }
    Ok(keys)
}

/// A namespace that is a plain key, if there is one, as a key.
fn space_from(alloc: Global, namespace: &Option<Text>) -> Result<Option<Key>, OutOfMemory>
    requires { is_space_of namespace.now ≡ true }
    ensures { IfOk result (λ n. n ≡ namespace.now) }
{
    match namespace {
        Some(text) => Ok(Some(key_from(alloc, text.as_str())?)),
        None => Ok(None),
    }
}

/// A face's gate: the keys that it may not ask for, and its exit.
pub struct FaceMux {
    entry: KeyList,
    exit: Mux,
}

impl Drop for FaceMux {
    fn drop(self) {
        let FaceMux { entry, exit } = self;
    }
}

impl Model for FaceMux {
    ghost use Rattle.zq_machine.specs.Gates.{Gate};

    ghost Value = { Gate };

    ghost view = { λ s. record { entry = s.entry; exit = s.exit } };
}

impl FaceMux {
    /// The gate that a face is opened with, None where it has neither a namespace nor a deny list.
    pub fn for_opening(alloc: Global, asked: &Opening) -> Result<Option<FaceMux>, OutOfMemory>
        requires { is_sound_of asked.now ≡ true }
        ensures { IfOk result (λ g. g ≡ gate_for asked.now) }
    {
        if asked.is_plain() {
            return Ok(None);
        }
        let entry = keys_from(alloc, asked.entry_deny.as_slice())?;
        let exit = keys_from(alloc, asked.exit_deny.as_slice())?;
        let namespace = space_from(alloc, &asked.namespace)?;
        Ok(Some(FaceMux {
            entry,
            exit: Mux::new(alloc, namespace, exit),
        }))
    }

    /// The face's namespace, if it has one.
    pub fn namespace(&self) -> Option<&str>
        ensures { option_copied result ≡ space_in self.now.exit }
    {
        self.exit.namespace()
    }

    /// Whether a text is a key that the face may not ask for. Where there are none such, the text is
    /// not looked at.
    #[tactic(auto, using(crate::proofs::Denied::none_denied))]
    pub fn denies(&self, key: &str) -> bool
        ensures { result ≡ (key_of key.now && is_denied_of self.now.entry key.now) }
    {
        !self.entry.is_empty() && is_key(key) && is_denied(self.entry.as_slice(), key)
    }

    /// What leaves in place of a message, as `Mux::lets_out` does.
    pub fn lets_out(&self, key: &str, message: &Message) -> Result<Out<Message>, OutOfMemory>
        requires { HasKey key.now message.now }
        ensures { IfOk result (λ o. left message.now o ≡ mux_leaves self.now.exit key.now message.now) }
    {
        self.exit.lets_out(key, message)
    }

    /// Keeps what is to be known of a message that did not leave, as `Mux::keep_given` does.
    pub fn keep(&mut self, message: &Message) -> Result<Kept, OutOfMemory>
        ensures ok { OnOk result (self.new ≡ record self.old { exit = mux_given self.old.exit message.now }) }
        ensures back { IfOk result (λ k. record self.new { exit = mux_undone k message.now self.new.exit } ≡ self.old) }
        ensures err { OnErr result (self.new ≡ self.old) }
    {
        self.exit.keep_given(message)
    }

    /// Undoes what `keep` kept of a message, by what it answered. It takes no memory.
    pub fn undo(&mut self, message: &Message, kept: Kept)
        ensures { self.new ≡ record self.old { exit = mux_undone kept message.now self.old.exit } }
    {
        self.exit.undo(message, kept);
    }

    /// Drops the number or the id that a message ends. It takes no memory.
    pub fn end(&mut self, message: &Message)
        ensures { self.new ≡ record self.old { exit = mux_ended self.old.exit message.now } }
    {
        self.exit.end(message);
    }
}
