//! A gate that counts who enters, and can hold a worker until an inbox is full.

use std::sync::atomic::{AtomicU64, Ordering};
use std::time::Clock;
use testing_cluster::{pause, reaches};
use workers::{Gate, Place};

/// How many milliseconds a thread waits at most for what others have to do first.
pub(crate) const PATIENCE: u64 = 5_000;

/// How many milliseconds a thread leaves to others that are to wait by then.
pub(crate) const LEAVE: u64 = 50;

/// How many messages an inbox has room for.
const ROOM: u64 = 64;

/// What is counted at the gate of all workers.
#[derive(Drop)]
pub(crate) struct DoorCounts {
    /// How often it was entered.
    pub(crate) entered: AtomicU64,
    /// How often a proxy has told all workers to close, as far as its messages are sent.
    pub(crate) closings: AtomicU64,
    /// How often what it waited for did not come, or more came.
    pub(crate) missed: AtomicU64,
}

impl DoorCounts {
    /// Nothing was counted yet.
    pub(crate) fn new() -> DoorCounts {
        DoorCounts {
            entered: AtomicU64::new(0),
            closings: AtomicU64::new(0),
            missed: AtomicU64::new(0),
        }
    }
}

/// The gate of all workers.
#[derive(Drop)]
pub(crate) struct Door<'a, C: Clock> {
    pub(crate) clock: &'a C,
    /// Whether it holds the worker of resolver 0 until its inbox is full.
    pub(crate) holds: bool,
    pub(crate) counts: &'a DoorCounts,
}

impl<'a, C: Clock> Door<'a, C> {
    /// Waits until the inbox of resolver 0 is full, and leaves the proxy the time to send more: it
    /// cannot, since the worker takes nothing.
    fn hold(&self) {
        let closings = &self.counts.closings;
        let is_full = reaches(self.clock, closings, ROOM, PATIENCE);
        pause(self.clock, LEAVE);
        if !is_full || closings.load(Ordering::SeqCst) != ROOM {
            let _ = self.counts.missed.fetch_add(1, Ordering::SeqCst);
        }
    }
}

impl<'g, 'a, C: Clock> Gate for &'g Door<'a, C> {
    ghost use Rattle.std.specs.Prelude.{⊤};

    ghost has_entered = { λ _ _. ⊤ };

    fn enter(&self, place: Place) {
        let _ = self.counts.entered.fetch_add(1, Ordering::SeqCst);
        if self.holds && place.resolver == 0 {
            self.hold();
        }
    }
}
