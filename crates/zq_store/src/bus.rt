//! A gateway with an asker and storages.
ghost use Rattle.std.specs.Prelude.{◌≡◌, ◌+◌, ◌++◌, ◌∷◌, ◌<◌, ◌^◌, [], None, IfOk, IfErr, IfSome, IsTrue, Err, OnOk, OnErr, false, length};
ghost use Rattle.std.specs.Result.{is_ok};
ghost use Rattle.zq_index.specs.Texts.{at_text};
ghost use Rattle.zq_store.specs.Answered.{IsAnswered, meeting_replies};
ghost use Rattle.zq_store.specs.Bus.{IsServed, IsSpent, add_refusal, added, new_bus, new_refusal, put_refusal, with_change};
ghost use Rattle.zq_store.specs.Getting.{after_get, get_refusal, got_of};
ghost use Rattle.zq_store.specs.Held.{delete, put};
ghost use Rattle.zq_store.specs.Stores.{held_at};

use crate::answers::{answers_of, asked_of};
use crate::asking::{end_all, replies_of, reply_all, request};
use crate::got::{Got, StoreId};
use crate::joining::{join, open_local};
use crate::room::has_room;
use crate::stores::{PutRefusal, Stores};
use std::alloc::Global;
use std::marker::Model;
use zq_gateway::Gateway;
use zq_key::Key;
use zq_key::memory::OutOfMemory;
use zq_key::message::{FaceId, QueryTarget};
use zq_key::text::Bytes;
use zq_machine::config::Config;

/// Why a bus did not do it: the first cause of those that hold.
#[derive(Clone, Copy, Debug, PartialEq, Eq)]
pub enum BusRefusal {
    /// An earlier call found no memory.
    Spent,
    /// The configuration lacks Local.
    NoLocal,
    /// No number is left.
    NoFreeId,
    /// No memory was found.
    OutOfMemory,
}

/// A gateway with an asker and storages, all of them faces of Local. Where a call that joins a storage or
/// gets finds no memory, the gateway may be left amid its calls: the bus is spent, and joins and gets no
/// more. Its pairs stay.
pub struct Bus {
    gateway: Gateway,
    asker: FaceId,
    next_face: u32,
    next_request: u64,
    next_reply: u64,
    stores: Stores,
    spent: bool,
    alloc: Global,
}

impl Drop for Bus {
    fn drop(self) {
        let Bus {
            gateway,
            asker,
            next_face,
            next_request,
            next_reply,
            stores,
            spent,
            alloc,
        } = self;
    }
}

impl Model for Bus {
    ghost use Rattle.zq_store.specs.Bus.{BusState, IsBus};

    ghost Value = { BusState };

    ghost view = { λ b. record { gateway = b.gateway.state; asker = b.asker; next_face = b.next_face; next_request = b.next_request; next_reply = b.next_reply; stores = b.stores; spent = b.spent } };

    ghost invariant = { λ b. IsBus (record { gateway = b.gateway.state; asker = b.asker; next_face = b.next_face; next_request = b.next_request; next_reply = b.next_reply; stores = b.stores; spent = b.spent }) };
}

impl Bus {
    /// A bus over a new gateway, with its asker. `NoLocal` where the configuration has no Local;
    /// `NoFreeId` where no face can be opened.
    pub fn new(alloc: Global, config: &Config) -> Result<Bus, BusRefusal>
        ensures ok { IfOk result (λ b. b ≡ new_bus config.now) }
        ensures served { IfOk result (λ b. IsServed b) }
        ensures refused { IfSome (new_refusal config.now) (λ e. result ≡ Err e) }
        ensures memory { new_refusal config.now ≡ None → IfErr result (λ e. e ≡ BusRefusal.OutOfMemory) }
    {
        if !config.has_local() {
            return Err(BusRefusal::NoLocal);
        }
        let counters = *config.counters();
        if counters.faces == u32::MAX {
            return Err(BusRefusal::NoFreeId);
        }
        let Ok(mut gateway) = Gateway::new(alloc, config) else {
            return Err(BusRefusal::OutOfMemory);
        };
        if open_local(alloc, &mut gateway).is_err() {
            return Err(BusRefusal::OutOfMemory);
        }
        Ok(Bus {
            gateway,
            asker: FaceId(counters.faces),
            next_face: counters.faces + 1,
            next_request: counters.requests,
            next_reply: counters.replies,
            stores: Stores::new(alloc),
            spent: false,
            alloc,
        })
    }

    /// A storage joins at the next face. The bus is spent while it is amid the calls.
    fn join(&mut self, key: &Key, complete: bool) -> Result<StoreId, OutOfMemory>
        requires free { add_refusal self.old ≡ None }
        requires room { self.old.next_face + 1 < 2 ^ 32 }
        ensures ok { IfOk result (λ s. s.0 ≡ length self.old.stores) }
        ensures new { OnOk result (self.new ≡ added key.now complete self.old) }
        ensures served { OnOk result (IsServed self.new) }
        ensures err { OnErr result (IsSpent self.old self.new) }
    {
        let _text = key.as_str();
        self.spent = true;
        let face = FaceId(self.next_face);
        let storage = join(self.alloc, &mut self.gateway, face, key, complete)?;
        let number = self.stores.len() as u32;
        self.stores.push(storage)?;
        self.next_face += 1;
        self.spent = false;
        Ok(StoreId(number))
    }

    /// A storage joins, which answers for the key, and is complete there or not. `NoFreeId` where no face can
    /// be opened. The answers number the storages from 0.
    pub fn add(&mut self, key: &Key, complete: bool) -> Result<StoreId, BusRefusal>
        ensures ok { IfOk result (λ s. s.0 ≡ length self.old.stores) }
        ensures new { OnOk result (self.new ≡ added key.now complete self.old) }
        ensures served { OnOk result (IsServed self.new) }
        ensures refused { IfSome (add_refusal self.old) (λ e. (result ≡ Err e) × (self.new ≡ self.old)) }
        ensures memory { add_refusal self.old ≡ None → IfErr result (λ e. (e ≡ BusRefusal.OutOfMemory) × IsSpent self.old self.new) }
    {
        if self.spent {
            return Err(BusRefusal::Spent);
        }
        if self.next_face == u32::MAX {
            return Err(BusRefusal::NoFreeId);
        }
        match self.join(key, complete) {
            Ok(store) => Ok(store),
            Err(_) => Err(BusRefusal::OutOfMemory),
        }
    }

    /// The storage has this value at the key from now on; answers the value before. `UnknownStore` where no
    /// storage has the number, `NotPlain` where the key is not plain, and `Outside` where the storage's key
    /// does not include it.
    pub fn put(
        &mut self,
        store: StoreId,
        key: &Key,
        value: &Bytes,
    ) -> Result<Option<Bytes>, PutRefusal>
        ensures old { IfOk result (λ o. o ≡ at_text key.now (held_at self.old.stores store.0)) }
        ensures new { OnOk result (self.new ≡ with_change store.0 (put key.now value.now) self.old) }
        ensures refused { IfSome (put_refusal store.0 key.now self.old) (λ e. result ≡ Err e) }
        ensures memory { put_refusal store.0 key.now self.old ≡ None → IfErr result (λ e. e ≡ PutRefusal.OutOfMemory) }
        ensures kept { OnErr result (self.new ≡ self.old) }
        ensures served { self.old.spent ≡ false → IsServed self.new }
    {
        self.stores.put(store.0, key, value)
    }

    /// The storage has no value at the key from now on; answers the value before. It takes no memory, and is
    /// refused as `put` is.
    pub fn delete(&mut self, store: StoreId, key: &Key) -> Result<Option<Bytes>, PutRefusal>
        ensures old { IfOk result (λ o. o ≡ at_text key.now (held_at self.old.stores store.0)) }
        ensures new { OnOk result (self.new ≡ with_change store.0 (delete key.now) self.old) }
        ensures refused { IfSome (put_refusal store.0 key.now self.old) (λ e. result ≡ Err e) }
        ensures taken { put_refusal store.0 key.now self.old ≡ None → IsTrue (is_ok result) }
        ensures kept { OnErr result (self.new ≡ self.old) }
        ensures served { self.old.spent ≡ false → IsServed self.new }
    {
        self.stores.delete(store.0, key)
    }

    /// The calls of a get. The bus is spent while it is amid them.
    fn ask(&mut self, key: &Key, target: QueryTarget, now: u64) -> Result<Got, OutOfMemory>
        requires free { get_refusal key.now self.old ≡ None }
        requires room { self.old.next_request + 1 < 2 ^ 64 }
        ensures ok { IfOk result (λ g. g ≡ got_of self.old key.now target now) }
        ensures new { OnOk result (self.new ≡ after_get self.old key.now target now) }
        ensures answered { IfOk result (λ g. IsAnswered key.now target self.old g) }
        ensures all { target ≡ QueryTarget.All → IfOk result (λ g. g.replies ≡ meeting_replies key.now self.old.stores) }
        ensures ended { OnOk result (IsServed self.new) }
        ensures err { OnErr result (IsSpent self.old self.new) }
    {
        let alloc = self.alloc;
        let _text = key.as_str();
        self.spent = true;
        let mut handed = request(alloc, &mut self.gateway, self.asker, key, target, now)?;
        let stores = self.stores.as_slice();
        let asked = asked_of(alloc, stores, self.asker.0 + 1, handed.as_slice())?;
        let answers = answers_of(alloc, stores, asked.as_slice(), key)?;
        let first = self.next_reply;
        let next = first + answers.len() as u64;
        reply_all(
            alloc,
            &mut self.gateway,
            &mut handed,
            first,
            answers.as_slice(),
        )?;
        end_all(&mut self.gateway, &mut handed, asked.as_slice())?;
        let replies = replies_of(alloc, answers)?;
        self.next_request += 1;
        self.next_reply = next;
        self.spent = false;
        Ok(Got { replies, handed })
    }

    /// Asks on the key at a moment, and brings what the storages that the gateway picks reply with, in its
    /// order: each its pairs that meet the key, by text. Each reply is reported as sent, and then each storage
    /// ends; the asker is handed these replies and then its one final, and nothing stays open. For the target
    /// `All` the replies are all pairs, over all storages, that meet the key. `NoFreeId` where no number is
    /// left for the request, or fewer for replies than there are pairs that meet the key.
    pub fn get(&mut self, key: &Key, target: QueryTarget, now: u64) -> Result<Got, BusRefusal>
        ensures ok { IfOk result (λ g. g ≡ got_of self.old key.now target now) }
        ensures new { OnOk result (self.new ≡ after_get self.old key.now target now) }
        ensures answered { IfOk result (λ g. IsAnswered key.now target self.old g) }
        ensures all { target ≡ QueryTarget.All → IfOk result (λ g. g.replies ≡ meeting_replies key.now self.old.stores) }
        ensures ended { OnOk result (IsServed self.new) }
        ensures refused { IfSome (get_refusal key.now self.old) (λ e. (result ≡ Err e) × (self.new ≡ self.old)) }
        ensures memory { get_refusal key.now self.old ≡ None → IfErr result (λ e. (e ≡ BusRefusal.OutOfMemory) × IsSpent self.old self.new) }
    {
        if self.spent {
            return Err(BusRefusal::Spent);
        }
        if self.next_request == u64::MAX || !has_room(&self.stores, key, self.next_reply) {
            return Err(BusRefusal::NoFreeId);
        }
        match self.ask(key, target, now) {
            Ok(got) => Ok(got),
            Err(_) => Err(BusRefusal::OutOfMemory),
        }
    }
}
