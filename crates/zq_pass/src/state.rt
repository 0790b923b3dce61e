//! The state that callers with passes share.
ghost use Rattle.std.specs.Prelude.{◌≡◌, ◌+◌, ◌<◌, ◌≤◌, ◌++◌, ◌∷◌, ℕ, List, [], length, vec_capacity, vec_len, All, false, None, Some, IfErr, IfOk, OnErr, OnOk};
ghost use mathlib.Core.List.{IsPrefix};
ghost use Rattle.zq_hold.specs.declared.slot.Mark.TheVariants.{Gone};
ghost use Rattle.zq_hold.specs.Marks.{HasMark};
ghost use Rattle.zq_hold.specs.Owners.{owner_at};
ghost use Rattle.zq_machine.specs.Calls.{is_sent};
ghost use Rattle.zq_shared.specs.Holding.{AreHeld};
ghost use Rattle.zq_shared.specs.Stored.{answer_to, flights, standing, with_call};
ghost use Rattle.zq_shared.specs.Sharing.{AreLast, HoldsReplies, IsFull, IsSameHolds, KeepsFlights, Settles, all_spare, reports, slot_vacated, with_reports};
ghost use Rattle.zq_pass.specs.Entries.{IsJournal, calls_of, entries_by, owners_of};
ghost use Rattle.zq_pass.specs.Passes.{home_of, unused_pass, unused_passes};
ghost use Rattle.zq_pass.specs.Stepping.{PassRefuses};

use crate::owning::{own, own_all};
use crate::pass::{Pass, PassList};
use std::alloc::Global;
use std::marker::Model;
use zq_hold::{HoldSeat, Last};
use zq_journal_view::JournalKeeper;
use zq_key::memory::OutOfMemory;
use zq_machine::call::Call;
use zq_machine::config::Config;
use zq_machine::handed::Handed;
use zq_shared::{Shared, StepRefusal, Stepped};

/// A shared gateway, the numbers of the passes that made its stored calls, and the keeper of the journal that says so.
pub struct PassState {
    pub(crate) shared: Shared,
    pub(crate) owners: Vec<u32>,
    pub(crate) keeper: JournalKeeper<Call>,
}

impl Drop for PassState {
    fn drop(self) {
        let PassState {
            shared,
            owners,
            keeper,
        } = self;
    }
}

impl Model for PassState {
    ghost use Rattle.std.specs.Prelude.{vec_capacity, vec_len};
    ghost use Rattle.zq_pass.specs.Entries.{IsJournal};
    ghost use Rattle.zq_pass.specs.Passes.{Journaled};

    ghost Value = { Journaled };

    ghost view = { λ s. record { sharing = s.shared; journal = s.keeper.home; list = s.keeper.list } };

    ghost invariant = { λ s. IsJournal s.shared.stored s.owners.items s.keeper.list (vec_len s.owners) (vec_capacity s.owners) };
}

/// Room for the call, and for the reports that may come behind it.
fn make_room(shared: &Shared, owners: &mut Vec<u32>, call: &Call) -> Result<(), OutOfMemory>
    ensures items { owners.new.items ≡ owners.old.items }
    ensures len { vec_len owners.new ≡ vec_len owners.old }
    ensures grown { vec_capacity owners.old ≤ vec_capacity owners.new }
    ensures room { OnOk result (vec_len owners.new + 1 + length (flights (standing (with_call shared.now.stored call.now))) ≤ vec_capacity owners.new) }
{
    let reports = shared.most_in_flight(call)?;
    let Some(room) = reports.checked_add(1) else {
        return Err(OutOfMemory);
    };
    owners.reserve(room)?;
    Ok(())
}

/// Makes the call, and stores it with its entry.
fn store(
    shared: &mut Shared,
    owners: &mut Vec<u32>,
    keeper: &mut JournalKeeper<Call>,
    seat: &mut HoldSeat,
    number: u32,
    call: Call,
) -> Result<Stepped, StepRefusal>
    requires journal { IsJournal shared.old.stored owners.old.items keeper.old.list (vec_len owners.old) (vec_capacity owners.old) }
    requires home { shared.old.slots.keeper.home ≡ seat.old.home }
    requires empty { seat.old.held ≡ [] }
    requires unsent { is_sent call ≡ false }
    ensures journal { IsJournal shared.new.stored owners.new.items keeper.new.list (vec_len owners.new) (vec_capacity owners.new) }
    ensures step { IfOk result (λ t. t.step ≡ answer_to shared.old.stored call) }
    ensures stored { OnOk result (shared.new.stored ≡ with_call shared.old.stored call) }
    ensures room { OnOk result (IsFull shared.old call → ⊥) }
    ensures holds { IfOk result (λ t. HoldsReplies t.step.handed shared.new.slots seat.new.held) }
    ensures held { IfOk result (λ t. AreHeld t.held seat.new.held) }
    ensures lasts { IfOk result (λ t. AreLast shared.old.slots shared.new.slots t.lasts.ended) }
    ensures refused { IfErr result (λ e. PassRefuses shared.old call e shared.new) }
    ensures flights { KeepsFlights None shared.old shared.new }
    ensures seat { seat.new.home ≡ seat.old.home }
    ensures free { OnErr result (seat.new ≡ seat.old) }
    ensures same { IsSameHolds shared.old.slots shared.new.slots }
    ensures list { OnOk result (keeper.new ≡ record keeper.old { list = keeper.old.list ++ (number, call) ∷ [] }) }
    ensures unlisted { OnErr result (keeper.new ≡ keeper.old) }
{
    if make_room(shared, owners, &call).is_err() {
        return Err(StepRefusal::OutOfMemory);
    }
    let at = shared.calls().len();
    let stepped = shared.step(seat, call)?;
    own(owners, keeper, number, &shared.calls()[at]);
    Ok(stepped)
}

impl PassState {
    /// A new gateway and no calls, with that many slots, each spare, and that many passes, numbered from 0, which hold nothing and have
    /// seen nothing. No other pass is made.
    pub fn new(
        alloc: Global,
        config: &Config,
        slots: u16,
        seats: u8,
    ) -> Result<(PassState, PassList), OutOfMemory>
        requires slots { (0 < slots) × (slots ≤ 1024) }
        requires seats { (0 < seats) × (seats ≤ 63) }
        ensures stored { IfOk result (λ r. r.0.sharing.stored ≡ record { config = config.now; calls = [] }) }
        ensures slots { IfOk result (λ r. r.0.sharing.slots ≡ all_spare r.0.sharing.slots.keeper.home slots seats) }
        ensures list { IfOk result (λ r. r.0.list ≡ []) }
        ensures passes { IfOk result (λ r. r.1 ≡ record { home = home_of r.0; passes = unused_passes (home_of r.0) seats; most = seats }) }
    {
        let (shared, mut list) = Shared::new(alloc, config, slots, seats)?;
        let mut keeper = JournalKeeper::new(alloc)?;
        let mut passes = Vec::with_capacity(alloc, seats as usize)?;
        for number in 0..seats {
            let Some(seat) = list.take() else {
                unreachable!()
            };
            let seen = keeper.make_pass()?;
            passes.push_reserved(Pass {
                number: number as u32,
                seat,
                seen,
            });
        }
        let note = keeper.note();
        let state = PassState {
            shared,
            owners: Vec::new(alloc),
            keeper,
        };
        Ok((
            state,
            PassList {
                seats: list,
                note,
                passes,
            },
        ))
    }

    /// The shared gateway, who made its stored calls, and the keeper of the journal that says so.
    pub(crate) fn into_parts(self) -> (Shared, Vec<u32>, JournalKeeper<Call>)
        ensures shared { result.0 ≡ self.sharing }
        ensures keeper { (result.2.home ≡ self.journal) × (result.2.list ≡ self.list) }
        ensures calls { calls_of self.list ≡ self.sharing.stored.calls }
        ensures owners { owners_of self.list ≡ result.1.items }
    {
        let PassState {
            shared,
            owners,
            keeper,
        } = self;
        (shared, owners, keeper)
    }

    /// How many calls are stored: as many as the journal has entries.
    pub fn len(&self) -> u64
        ensures { result ≡ length self.now.list }
    {
        self.owners.len() as u64
    }

    /// Makes one call that is no report, and stores it; its entry is that of the pass. Before, the pass's note joins the journal, and at every
    /// answer the pass has seen the whole journal.
    pub fn step(&mut self, pass: &mut Pass, call: Call) -> Result<Stepped, StepRefusal>
        requires home { pass.old.home ≡ home_of self.old }
        requires empty { pass.old.held ≡ [] }
        requires unsent { is_sent call ≡ false }
        ensures step { IfOk result (λ t. t.step ≡ answer_to self.old.sharing.stored call) }
        ensures stored { OnOk result (self.new.sharing.stored ≡ with_call self.old.sharing.stored call) }
        ensures room { OnOk result (IsFull self.old.sharing call → ⊥) }
        ensures holds { IfOk result (λ t. HoldsReplies t.step.handed self.new.sharing.slots pass.new.held) }
        ensures held { IfOk result (λ t. AreHeld t.held pass.new.held) }
        ensures lasts { IfOk result (λ t. AreLast self.old.sharing.slots self.new.sharing.slots t.lasts.ended) }
        ensures refused { IfErr result (λ e. PassRefuses self.old.sharing call e self.new.sharing) }
        ensures flights { KeepsFlights None self.old.sharing self.new.sharing }
        ensures pass { pass.new ≡ record pass.old { held = pass.new.held; ended = pass.new.ended; seen = pass.new.seen } }
        ensures free { OnErr result (pass.new.held ≡ []) }
        ensures same { IsSameHolds self.old.sharing.slots self.new.sharing.slots }
        ensures journal { self.new.journal ≡ self.old.journal }
        ensures list { OnOk result (self.new.list ≡ self.old.list ++ (pass.old.number, call) ∷ []) }
        ensures unlisted { OnErr result (self.new.list ≡ self.old.list) }
        ensures before { IsPrefix pass.old.seen self.old.list }
        ensures seen { pass.new.seen ≡ self.new.list }
        ensures calls { (calls_of self.old.list ≡ self.old.sharing.stored.calls) × (calls_of self.new.list ≡ self.new.sharing.stored.calls) }
    {
        self.keeper.meet(pass.seen.note());
        let number = pass.number;
        let made = store(
            &mut self.shared,
            &mut self.owners,
            &mut self.keeper,
            &mut pass.seat,
            number,
            call,
        );
        pass.seen.meet(self.keeper.note());
        made
    }

    /// Tells a proof that there is a word for each slot. It does nothing.
    pub fn recall(&self)
        ensures { length self.now.sharing.slots.keeper.marks ≡ self.now.sharing.slots.keeper.home.words }
    {
        self.shared.recall();
    }

    /// Reports all replies in flight of the request that owns the slot, as `Shared::settle`; the entries of the reports are those of the pass.
    /// It takes no memory.
    pub fn settle(&mut self, pass: &Pass, last: Last) -> Option<Handed>
        requires home { pass.now.home ≡ home_of self.old }
        requires last { last.home ≡ self.old.sharing.slots.keeper.home }
        ensures gone { HasMark Gone self.old.sharing.slots.keeper.marks last.slot }
        ensures reports { Settles (owner_at self.old.sharing.slots.owners last.slot) self.old.sharing.stored result self.new.sharing.stored }
        ensures slots { self.new.sharing.slots ≡ slot_vacated self.old.sharing.slots last.slot }
        ensures flights { KeepsFlights (Some last.slot) self.old.sharing self.new.sharing }
        ensures same { IsSameHolds self.old.sharing.slots self.new.sharing.slots }
        ensures journal { self.new.journal ≡ self.old.journal }
        ensures list { (ks : List ℕ) × (self.new.sharing.stored ≡ with_reports self.old.sharing.stored ks) × (self.new.list ≡ self.old.list ++ entries_by pass.now.number (reports ks)) }
    {
        let PassState {
            shared,
            owners,
            keeper,
        } = self;
        let before = shared.calls().len();
        let end = shared.settle(last);
        own_all(owners, keeper, pass.number, &shared.calls()[before..]);
        end
    }
}
