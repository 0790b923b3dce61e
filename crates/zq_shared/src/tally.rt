//! What each caller keeps, by which stored calls are counted over all callers.
ghost use Rattle.std.specs.Prelude.{◌≡◌, ◌<◌, ◌≤◌, ◌+◌};
ghost use Rattle.zq_shared.specs.Tallies.{HasParts, each, merged, with_ask, with_full, with_other};

use std::marker::Model;
use std::sync::ledger::{Book, Ledger, Share};

/// What a caller keeps of three ledgers: of the stored calls other than requests and reports, of the stored requests, and of the
/// calls that found every slot allotted.
#[derive(Drop)]
pub struct Tally<C: Ledger, Q: Ledger, P: Ledger> {
    /// Its part of the ledger of stored calls other than requests and reports.
    pub calls: Share<C>,
    /// Its part of the ledger of stored requests.
    pub asks: Share<Q>,
    /// Its part of the ledger of calls that found every slot allotted.
    pub full: Share<P>,
}

impl<C: Ledger, Q: Ledger, P: Ledger> Model for Tally<C, Q, P> {
    ghost use Rattle.zq_shared.specs.Tallies.{Tallied};

    ghost Value = { Tallied };

    ghost view = { λ t. record {
      parts = record { calls = t.calls.parts; asks = t.asks.parts; full = t.full.parts };
      made = record { calls = t.calls.amount; asks = t.asks.amount; full = t.full.amount };
    } };
}

impl<C: Ledger, Q: Ledger, P: Ledger> Tally<C, Q, P> {
    /// One more stored call that is no request.
    pub(crate) fn add_other(&mut self, book: &mut Book<C>)
        requires { 0 < self.old.parts.calls }
        ensures book { book.new.total ≡ book.old.total + 1 }
        ensures tally { self.new ≡ with_other self.old }
    {
        book.add(&mut self.calls, 1);
    }

    /// One more stored request.
    pub(crate) fn add_ask(&mut self, book: &mut Book<Q>)
        requires { 0 < self.old.parts.asks }
        ensures book { book.new.total ≡ book.old.total + 1 }
        ensures tally { self.new ≡ with_ask self.old }
    {
        book.add(&mut self.asks, 1);
    }

    /// One more request that found every slot allotted.
    pub(crate) fn add_full(&mut self, book: &mut Book<P>)
        requires { 0 < self.old.parts.full }
        ensures book { book.new.total ≡ book.old.total + 1 }
        ensures tally { self.new ≡ with_full self.old }
    {
        book.add(&mut self.full, 1);
    }

    /// Tells a proof that the books count at least what this caller made. It does nothing.
    pub(crate) fn bound(&mut self, calls: &mut Book<C>, asks: &mut Book<Q>)
        ensures tally { self.new ≡ self.old }
        ensures books { (calls.new.total ≡ calls.old.total) × (asks.new.total ≡ asks.old.total) }
        ensures made { (self.old.made.calls ≤ calls.old.total) × (self.old.made.asks ≤ asks.old.total) }
    {
        calls.audit(&mut self.calls);
        asks.audit(&mut self.asks);
    }

    /// One part of each ledger, with nothing made yet.
    pub fn split_one(&mut self) -> Tally<C, Q, P>
        requires parts { HasParts self.old }
        requires fresh { self.old.made ≡ each 0 }
        ensures one { result ≡ record { parts = each 1; made = each 0 } }
        ensures rest { merged self.new result ≡ self.old }
    {
        Tally {
            calls: self.calls.split_off(1, 0),
            asks: self.asks.split_off(1, 0),
            full: self.full.split_off(1, 0),
        }
    }

    /// Takes what another has.
    pub fn merge(&mut self, other: Tally<C, Q, P>)
        ensures { self.new ≡ merged self.old other }
    {
        let Tally { calls, asks, full } = other;
        self.calls.merge(calls);
        self.asks.merge(asks);
        self.full.merge(full);
    }

    /// Tells a proof that who has every part of the ledgers made all that their books count. It does nothing.
    pub fn audit(&mut self, calls: &mut Book<C>, asks: &mut Book<Q>, full: &mut Book<P>)
        requires { self.old.parts ≡ record { calls = C.parts; asks = Q.parts; full = P.parts } }
        ensures tally { self.new ≡ self.old }
        ensures books { (calls.new.total ≡ calls.old.total) × (asks.new.total ≡ asks.old.total) × (full.new.total ≡ full.old.total) }
        ensures made { self.old.made ≡ record { calls = calls.old.total; asks = asks.old.total; full = full.old.total } }
    {
        calls.audit(&mut self.calls);
        asks.audit(&mut self.asks);
        full.audit(&mut self.full);
    }
}
