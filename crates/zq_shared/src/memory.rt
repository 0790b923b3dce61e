//! A link in memory, which fails where it is told to, and one that never fails.
ghost use Rattle.std.specs.Prelude.{◌≡◌, ◌⊎◌, ◌+◌, ◌-◌, ◌^◌, ◌∷◌, ◌++◌, [], min, true, false, Some, None, IfOk, IsOk, OnErr, OnOk};
ghost use Rattle.zq_message.specs.declared.message.Message.{Message};
ghost use Rattle.zq_machine.specs.Handing.{left};
ghost use Rattle.zq_io.specs.Streams.{HasCause, Rose, is_listed};
ghost use Rattle.zq_shared.specs.Links.{Takes};

use crate::link::Link;
use std::alloc::Global;
use zq_io::streams::Failed;
use zq_key::items::Items;
use zq_key::memory::OutOfMemory;
use zq_machine::handed::{Handed, HandedList, Leaves};

/// What leaves, equally.
fn copy_leaving(alloc: Global, leaves: &Leaves) -> Result<Leaves, OutOfMemory>
    ensures { IfOk result (λ l. (m : Message) → left m l ≡ left m leaves.now) }
{
    match leaves {
        Leaves::Same => Ok(Leaves::Same),
        Leaves::Other(other) => Ok(Leaves::Other(Box::new(alloc, other.copy(alloc)?)?)),
        Leaves::Nothing => Ok(Leaves::Nothing),
    }
}

/// An equal message.
fn copy_handed(alloc: Global, handed: &Handed) -> Result<Handed, OutOfMemory>
    ensures { IfOk result (λ h. h ≡ handed.now) }
{
    let message = handed.message().copy(alloc)?;
    let leaves = copy_leaving(alloc, handed.leaving())?;
    Ok(Handed::through(
        handed.to(),
        handed.number(),
        handed.reply(),
        message,
        leaves,
    ))
}

/// A link in memory: it keeps what it takes, and the sends whose numbers are listed fail.
#[derive(Debug)]
pub struct MemoryLink {
    alloc: Global,
    taken: HandedList,
    sends: u64,
    fails: Vec<u64>,
    faults: u64,
    lacks: u64,
}

impl Drop for MemoryLink {
    fn drop(self) {
        let MemoryLink {
            alloc,
            taken,
            sends,
            fails,
            faults,
            lacks,
        } = self;
    }
}

impl MemoryLink {
    /// Nothing was taken yet; sends are counted from 0.
    pub fn new(alloc: Global, fails: Vec<u64>) -> MemoryLink
        ensures fails { result.fails.items ≡ fails.items }
        ensures fresh { (result.taken ≡ []) × (result.sends ≡ 0) × (result.faults ≡ 0) × (result.lacks ≡ 0) }
    {
        MemoryLink {
            alloc,
            taken: Items::new(alloc),
            sends: 0,
            fails,
            faults: 0,
            lacks: 0,
        }
    }

    /// What was taken, in order.
    pub fn taken(&self) -> &[Handed]
        ensures { result.now ≡ self.now.taken }
    {
        self.taken.as_slice()
    }

    /// Whether the next send is listed.
    fn is_listed(&self) -> bool
        ensures { result ≡ is_listed self.now.fails.items self.now.sends }
    {
        self.fails.contains(&self.sends)
    }

    /// Keeps a message.
    fn keep(&mut self, handed: &Handed) -> Result<(), OutOfMemory>
        ensures ok { OnOk result (self.new.taken ≡ self.old.taken ++ handed.now ∷ []) }
        ensures err { OnErr result (self.new.taken ≡ self.old.taken) }
        ensures same { (self.new.sends ≡ self.old.sends) × (self.new.faults ≡ self.old.faults) × (self.new.lacks ≡ self.old.lacks) × (self.new.fails.items ≡ self.old.fails.items) }
    {
        let copy = copy_handed(self.alloc, handed)?;
        self.taken.push(copy)
    }
}

#[tactic(auto, using(zq_io::proofs::Transfers::rose_by_one))]
impl Link for MemoryLink {
    ghost taken = { λ l. Some l.taken };

    ghost faults = { λ l. l.faults };

    /// Fails exactly where the send is listed, or where no memory is found, which is counted apart.
    fn send(&mut self, handed: &Handed) -> Result<(), Failed>
        ensures kept { Takes (Some self.old.taken) (Some self.new.taken) handed.now result }
        ensures cause { HasCause self.old.faults self.new.faults result }
        ensures listed { OnErr result ((is_listed self.old.fails.items self.old.sends ≡ true) ⊎ Rose self.old.lacks self.new.lacks) }
        ensures taken { OnOk result ((is_listed self.old.fails.items self.old.sends ≡ false) × (self.new.lacks ≡ self.old.lacks)) }
        ensures counted { OnErr result (self.new.faults ≡ min (self.old.faults + 1) (2 ^ 64 - 1)) }
        ensures lacks { is_listed self.old.fails.items self.old.sends ≡ true → self.new.lacks ≡ self.old.lacks }
        ensures sends { self.new.sends ≡ min (self.old.sends + 1) (2 ^ 64 - 1) }
        ensures fails { self.new.fails.items ≡ self.old.fails.items }
    {
        let listed = self.is_listed();
        self.sends = self.sends.saturating_add(1);
        if listed {
            self.faults = self.faults.saturating_add(1);
            return Err(Failed);
        }
        match self.keep(handed) {
            Ok(()) => Ok(()),
            Err(OutOfMemory) => {
                self.lacks = self.lacks.saturating_add(1);
                self.faults = self.faults.saturating_add(1);
                Err(Failed)
            }
        }
    }
}

/// A link that takes every message, keeps nothing, and never fails.
#[derive(Clone, Copy, Debug, Default, PartialEq, Eq)]
pub struct SureLink;

impl SureLink {
    /// A link. Takes no memory.
    pub fn new() -> SureLink
        ensures { result ≡ record {} }
    {
        SureLink
    }
}

impl Link for SureLink {
    ghost taken = { λ l. None };

    ghost faults = { λ l. 0 };

    /// Takes the message, and never fails.
    fn send(&mut self, handed: &Handed) -> Result<(), Failed>
        ensures kept { Takes None None handed.now result }
        ensures cause { HasCause 0 0 result }
        ensures sure { IsOk result }
    {
        Ok(())
    }
}
