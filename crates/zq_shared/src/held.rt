//! A link of which one send is held, as tests of threads need it.
ghost use Rattle.std.specs.Prelude.{◌≡◌, ◌+◌, ◌-◌, ◌^◌, min};

use crate::link::Link;
use std::sync::atomic::{AtomicU64, Ordering};
use zq_io::streams::Failed;
use zq_machine::handed::Handed;

/// How often a wait looks for its flag.
const TURNS: u64 = 100_000_000;

/// Whether the flag is set in time.
pub fn is_set(flag: &AtomicU64) -> bool {
    for _i in 0..TURNS {
        if flag.load(Ordering::SeqCst) != 0 {
            return true;
        }
    }
    false
}

/// A link of which one send, named by its count, sets a flag and is held until another flag is set: by a call that another thread is
/// answered, or by the held send of another such link. It fails where the flag is not set in 100,000,000 turns, and where the link in it
/// does.
#[derive(Drop)]
pub struct GateLink<'a, L: Link + Drop> {
    inner: L,
    held: u64,
    begun: &'a AtomicU64,
    opened: &'a AtomicU64,
    sends: u64,
    faults: u64,
}

impl<'a, L: Link + Drop> GateLink<'a, L> {
    /// The link, over which nothing was sent yet; the number of the send that is held, where sends are counted from 0; the flag that this
    /// send sets, and the one that ends the wait.
    pub fn new(inner: L, held: u64, begun: &'a AtomicU64, opened: &'a AtomicU64) -> GateLink<'a, L>
        ensures inner { result.inner ≡ inner }
        ensures fresh { (result.sends ≡ 0) × (result.faults ≡ 0) }
    {
        GateLink {
            inner,
            held,
            begun,
            opened,
            sends: 0,
            faults: 0,
        }
    }

    /// The link that takes the messages.
    pub fn inner(&self) -> &L
        ensures { result.now ≡ self.now.inner }
    {
        &self.inner
    }

    /// Counts a send. If it is the one that is held, it waits, and says whether its flag was set in time.
    fn is_opened(&mut self) -> bool
        ensures same { (self.new.inner ≡ self.old.inner) × (self.new.faults ≡ self.old.faults) }
        ensures counted { self.new.sends ≡ min (self.old.sends + 1) (2 ^ 64 - 1) }
    {
        let number = self.sends;
        self.sends = self.sends.saturating_add(1);
        if number != self.held {
            return true;
        }
        self.begun.store(1, Ordering::SeqCst);
        is_set(self.opened)
    }
}

#[tactic(auto, using(zq_io::proofs::Transfers::rose_by_one))]
impl<'a, L: Link + Drop> Link for GateLink<'a, L> {
    ghost taken = { λ g. L.taken g.inner };

    ghost faults = { λ g. g.faults };

    fn send(&mut self, handed: &Handed) -> Result<(), Failed> {
        if self.is_opened() && self.inner.send(handed).is_ok() {
            return Ok(());
        }
        self.faults = self.faults.saturating_add(1);
        Err(Failed)
    }
}
