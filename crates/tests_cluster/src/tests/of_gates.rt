//! The test of a gate: a request is judged by a resolver only once its gate lets it, and a proxy sends
//! to all resolvers before it waits for any.

use crate::tests::of_workers::sum_of_run;
use crate::tests::starting::{Cluster, Inboxes, blank};
use crate::tests::stories::{InboxStory, Story, tell};
use crate::tests::summing::Plan;
use agreed_ledger::{Ledger, Naming};
use inboxes::Channels;
use std::alloc::Global;
use std::process::Abort;
use std::sync::Wait;
use std::sync::atomic::{AtomicU64, Ordering};
use std::test::Fail;
use std::thread;
use std::thread::Threads;
use testing::is_memory_refused;
use workers::{Gate, Place};

/// How often the gate looks before it gives up. Then the test fails, unless resolver 1 was refused
/// memory, which nobody can see before resolver 0 has answered.
const TURNS: usize = 10_000_000;

/// How often it looks before it gives up if an allocation has failed.
const TURNS_WITHOUT_MEMORY: usize = 1_000_000;

/// Holds resolver 0 back until resolver 1 has judged row 0.
#[derive(Drop)]
struct Looks<'x, N: Naming> {
    alloc: Global,
    ledger: &'x Ledger<N>,
    /// How often the gate was entered.
    entered: AtomicU64,
    /// How often it has looked in vain, or was entered after its resolver had judged.
    missed: AtomicU64,
}

impl<'g, 'x, N: Naming> Gate for &'g Looks<'x, N> {
    ghost use Rattle.std.specs.Prelude.{⊤};

    ghost has_entered = { λ _ _. ⊤ };

    fn enter(&self, place: Place) {
        let _ = self.entered.fetch_add(1, Ordering::SeqCst);
        let is_early = !has_judged(self.ledger, place.resolver);
        if !is_early || place.resolver == 0 && !is_judged_in_time(self.alloc, self.ledger) {
            let _ = self.missed.fetch_add(1, Ordering::SeqCst);
        }
    }
}

/// Whether resolver 1 judges row 0 while somebody looks.
fn is_judged_in_time<N: Naming>(alloc: Global, ledger: &Ledger<N>) -> bool {
    for turn in 0..TURNS {
        if has_judged(ledger, 1) {
            return true;
        }
        if turn == TURNS_WITHOUT_MEMORY && is_memory_refused(alloc) {
            return false;
        }
        thread::yield_now();
    }
    false
}

/// Whether the verdict cell of row 0 and this resolver is filled, by a new note.
fn has_judged<N: Naming>(ledger: &Ledger<N>, resolver: usize) -> bool {
    let Some(mut note) = ledger.verdict_note(0, resolver) else {
        return false;
    };
    ledger.verdicts_at(0, resolver, &mut note).is_some()
}

/// A proxy with one empty batch.
const ONE_BATCH: Plan = Plan {
    closes: 0,
    batches: 1,
    own: 0,
    messages: 2,
    rows: 1,
};

/// The gate holds resolver 0 back, while a proxy commits.
pub(crate) fn hold_back<
    N: Naming + Send + Sync,
    M: Channels + Send + Sync,
    R: Abort + AllocGlobal + Threads + Wait + Sync,
>(rt: &R, alloc: Global, cluster: &Cluster<'_, N>, inboxes: Inboxes<N, M>) -> Result<(), Fail> {
    let gate = Looks {
        alloc,
        ledger: cluster.ledger,
        entered: AtomicU64::new(0),
        missed: AtomicU64::new(0),
    };
    let sum = sum_of_run(rt, alloc, cluster, inboxes, &ONE_BATCH, &[], &gate)?;
    let entered = gate.entered.load(Ordering::SeqCst);
    let missed = gate.missed.load(Ordering::SeqCst);
    assert!(rt; (sum.answered, entered, missed) == (10, 2, 0));
    Ok(())
}

#[test]
fn of_two_threads_resolver_1_answers_while_the_gate_holds_resolver_0(
    rt: HostRuntime,
) -> Result<(), Fail> {
    let alloc = rt.alloc();
    tell(
        &rt,
        alloc,
        blank(alloc, 1, 1, 2)?,
        &[0, 1],
        &Story::OfInboxes(InboxStory::Gated),
    )
}
