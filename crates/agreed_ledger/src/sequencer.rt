//! The sequencer that threads share.

ghost use Rattle.std.specs.Prelude.{◌≡◌, ◌≤◌, ◌<◌, IfOk, IfErr, OnOk, OnErr, None};
ghost use Rattle.model.specs.Records.{MovesFollow};
ghost use Rattle.agreed_ledger.specs.Refusals.{refusal_fault};
ghost use Rattle.agreed_ledger.specs.Sequencing.{
  HasMoved,
  HasSequenced,
  move_fault,
  sequence_fault,
};
ghost use Rattle.agreed_ledger.specs.declared.refusal.Refusal.TheVariants as refusals;

use crate::ledger::Ledger;
use crate::naming::Naming;
use crate::records::Records;
use crate::refusal::Refusal;
use crate::sequenced::Sequenced;
use crate::ticket::Ticket;
use model::{ProxyNumber, ResolverNumber};
use mutation::Batch;
use std::alloc::Global;
use std::marker::Model;
use std::sync::{Mutex, MutexGuard, Wait};
use system_keys::{KeyRange, OutOfMemory};

/// Gives each batch its row and version, in one order for all threads.
#[derive(Drop)]
pub struct Sequencer<'l, N: Naming> {
    ledger: &'l Ledger<N>,
    lock: Mutex<Sequenced<N>>,
}

impl<'l, N: Naming> Sequencer<'l, N> {
    /// A sequencer that has given out nothing. Fails only with `OutOfMemory`.
    pub fn new(alloc: Global, ledger: &'l Ledger<N>) -> Result<Sequencer<'l, N>, OutOfMemory> {
        Ok(Sequencer {
            ledger,
            lock: Mutex::new(Sequenced::new(alloc, ledger)?),
        })
    }

    /// Waits for the lock. What is under it is known by its type alone: records that are a history,
    /// and moves that follow them.
    pub fn lock<R: Wait>(&self, rt: &R) -> SequencerGuard<'_, N>
        ensures { MovesFollow N.cells.config result.records result.moves }
    {
        let guard = self.lock.lock(rt);
        // (its contract says what the type keeps of the records and moves)
        let _records = guard.records();
        SequencerGuard {
            ledger: self.ledger,
            guard,
        }
    }
}

/// The sequencer, locked.
#[derive(Drop)]
pub struct SequencerGuard<'a, N: Naming> {
    ledger: &'a Ledger<N>,
    guard: MutexGuard<'a, Sequenced<N>>,
}

impl<'a, N: Naming> Model for SequencerGuard<'a, N> {
    ghost use Rattle.agreed_ledger.specs.Sequencing.{SequencedView};

    ghost Value = { SequencedView };

    ghost view = { λ g. g.guard.value };
}

impl<'a, N: Naming> SequencerGuard<'a, N> {
    /// The records given out so far, from row 0. They are a history, and the moves follow them.
    pub fn records(&self) -> &Records<N>
        ensures value { result.now ≡ record { first = 0; known = self.now.records } }
        ensures kept { MovesFollow N.cells.config self.now.records self.now.moves }
    {
        self.guard.records()
    }

    /// Gives the batch of the proxy the next row and version, as [`Sequenced::sequence`] does.
    pub fn sequence(
        &mut self,
        proxy: ProxyNumber,
        batch: Batch,
    ) -> Result<Ticket<N>, (Refusal, Batch)>
        ensures ok { OnOk result (sequence_fault N.cells self.old proxy ≡ None) }
        ensures sequenced { IfOk result (λ ticket.
            HasSequenced N.cells.config self.old proxy batch self.new ticket) }
        ensures refused { IfErr result (λ refused.
            refusal_fault refused.0 ≡ sequence_fault N.cells self.old proxy) }
        ensures back { IfErr result (λ refused. (self.new ≡ self.old) × (refused.1 ≡ batch)) }
    {
        self.guard.sequence(self.ledger, proxy, batch)
    }

    /// Moves the keys of the range to the resolver, as [`Sequenced::move_range`] does.
    pub fn move_range(&mut self, range: &KeyRange, dest: ResolverNumber) -> Result<u64, Refusal>
        ensures ok { OnOk result (move_fault N.cells.config dest ≡ None) }
        ensures moved { IfOk result (λ date. HasMoved self.old range.now dest self.new date) }
        ensures refused { IfErr result (λ refusal.
            (N.cells.config.resolvers ≤ dest → refusal ≡ refusals.NoSuchResolver)
            × (dest < N.cells.config.resolvers → refusal ≡ refusals.OutOfMemory)) }
        ensures unchanged { OnErr result (self.new ≡ self.old) }
    {
        self.guard.move_range(self.ledger, range, dest)
    }
}
