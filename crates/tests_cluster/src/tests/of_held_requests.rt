//! The test of a request that a worker has to hold back: if the allocation for that fails, whoever asked
//! hears of it, and not of a closed resolver.

use crate::tests::phases::Step;
use crate::tests::serving::{Parts, serve};
use crate::tests::starting::{Cluster, Inboxes, Line, blank, requests, rows_after};
use crate::tests::stories::{InboxStory, Story, tell};
use crate::tests::summing::Called;
use agreed_ledger::Naming;
use inboxes::{Channels, FreshEnd};
use locked_cluster::Request;
use std::alloc::Global;
use std::process::Abort;
use std::sync::atomic::{AtomicU64, Ordering};
use std::sync::{Mutex, Wait};
use std::test::Fail;
use std::thread;
use std::thread::Threads;
use system_keys::OutOfMemory;
use testing::{EMPTY_TRANSACTION, TransactionLine, is_memory_refused, room};
use workers::{Gate, PendingRequest, Place, ProxyInboxes, ResolverWorker};

/// A record of proxy 1, and then one of proxy 0.
const TWO: &[Line<'static>] = &[(1, WRITE), (0, WRITE)];

/// A batch that writes one key.
const WRITE: &[TransactionLine<'static>] = &[TransactionLine {
    writes: &[(b"a", b"b")],
    ..EMPTY_TRANSACTION
}];

/// Both records are begun.
const BEGIN_TWO: &[Step] = &[(0, 1, None), (1, 0, None)];

/// How often a proxy looks for what is to come first before it goes on without it.
const LOOKS: usize = 10_000_000;

/// How often it looks if an allocation has failed.
const LOOKS_WITHOUT_MEMORY: usize = 100_000;

/// How far a run has come.
#[derive(Drop)]
struct Progress {
    alloc: Global,
    /// How many requests the worker of resolver 1 has judged, or is judging.
    entered: AtomicU64,
    /// How many requests were refused.
    refused: AtomicU64,
    /// How many workers have ended.
    ended: AtomicU64,
}

impl Progress {
    fn new(alloc: Global) -> Progress {
        Progress {
            alloc,
            entered: AtomicU64::new(0),
            refused: AtomicU64::new(0),
            ended: AtomicU64::new(0),
        }
    }

    /// Whether the worker of resolver 1 enters its gate so often while somebody looks.
    fn is_entered_in_time(&self, wanted: u64) -> bool {
        for look in 0..LOOKS {
            if wanted <= self.entered.load(Ordering::SeqCst) {
                return true;
            }
            let is_refused = 0 < self.refused.load(Ordering::SeqCst);
            if is_refused || look == LOOKS_WITHOUT_MEMORY && is_memory_refused(self.alloc) {
                return false;
            }
            thread::yield_now();
        }
        false
    }
}

impl<'g> Gate for &'g Progress {
    ghost use Rattle.std.specs.Prelude.{⊤};

    ghost has_entered = { λ _ _. ⊤ };

    fn enter(&self, place: Place) {
        if place.resolver == 1 {
            let _ = self.entered.fetch_add(1, Ordering::SeqCst);
        }
    }
}

/// Two proxies that ask so that record 1 comes to the worker of resolver 0 before record 0.
#[derive(Drop)]
struct LaterFirst<'a, 'l, N: Naming> {
    cluster: &'a Cluster<'l, N>,
    /// The requests for record 0, which is of proxy 1: of resolver 0 and of resolver 1.
    earlier: &'a [Request<N>],
    /// The requests for record 1, which is of proxy 0.
    later: &'a [Request<N>],
    progress: &'a Progress,
    /// The outcomes of the calls, in order.
    calls: &'a Mutex<Vec<Called>>,
}

impl<'a, 'l, N: Naming, M: Channels> Parts<FreshEnd<N, PendingRequest<N>, M>, ProxyInboxes<N, M>>
    for LaterFirst<'a, 'l, N> {
    fn work<R: AllocGlobal + Wait>(
        &self,
        rt: &R,
        alloc: Global,
        end: FreshEnd<N, PendingRequest<N>, M>,
    ) {
        let Some(resolver) = self.cluster.resolvers().get(end.resolver()) else {
            return;
        };
        if let Ok(worker) = ResolverWorker::new(alloc, resolver, end, self.progress) {
            let _ended = worker.run(rt);
            let _ = self.progress.ended.fetch_add(1, Ordering::SeqCst);
        }
    }

    /// Proxy 1 asks resolver 1 for record 0. Then proxy 0 asks both for record 1; resolver 1 judges it
    /// once it was sent to both. Then proxy 1 asks resolver 0 for record 0.
    fn commit<R: AllocGlobal + Wait>(&self, rt: &R, alloc: Global, side: &ProxyInboxes<N, M>) {
        if side.proxy() == 0 {
            if self.progress.is_entered_in_time(1) {
                self.ask(rt, alloc, side, self.later);
            }
            return;
        }
        if let Some((_, to_last)) = self.earlier.split_first() {
            self.ask(rt, alloc, side, to_last);
        }
        let _is_sent = self.progress.is_entered_in_time(2);
        if let Some((_, to_first)) = self.earlier.split_last() {
            self.ask(rt, alloc, side, to_first);
        }
    }

    fn end<R: AllocGlobal + Wait>(&self, rt: &R, side: ProxyInboxes<N, M>) {
        let _ended = side.end(rt);
    }
}

impl<'a, 'l, N: Naming> LaterFirst<'a, 'l, N> {
    /// Asks for the requests. After a refusal closes all resolvers, so that nobody waits.
    fn ask<M: Channels, R: AllocGlobal + Wait>(
        &self,
        rt: &R,
        alloc: Global,
        side: &ProxyInboxes<N, M>,
        requests: &[Request<N>],
    ) {
        let called = match side.ask(rt, alloc, requests) {
            Ok(replies) => Ok(replies.len() as u64),
            Err(refusal) => Err(refusal.number().unwrap_or(0)),
        };
        let _ = self.calls.lock(rt).push(called);
        if called.is_err() {
            let _ = self.progress.refused.fetch_add(1, Ordering::SeqCst);
            side.close(rt);
        }
    }
}

/// How many replies came, and the number of the first refusal, if there was one.
fn summed_up(calls: &[Called]) -> (u64, Option<u32>) {
    let mut replies = 0_u64;
    let mut first = None;
    for call in calls {
        match call {
            Ok(count) => replies = replies.saturating_add(*count),
            Err(number) => first = first.or(Some(*number)),
        }
    }
    (replies, first)
}

/// Proxies ask for record 1 before record 0. If that fails, the first refusal is for want of memory.
pub(crate) fn ask_later_first<
    N: Naming + Send + Sync,
    M: Channels + Send + Sync,
    R: Abort + AllocGlobal + Threads + Wait + Sync,
>(rt: &R, alloc: Global, cluster: &Cluster<'_, N>, inboxes: Inboxes<N, M>) -> Result<(), Fail> {
    let rows = rows_after(rt, alloc, cluster, TWO, BEGIN_TWO)?;
    let progress = Progress::new(alloc);
    let calls = Mutex::new(room(alloc, 3)?);
    let parts = LaterFirst {
        cluster,
        earlier: requests(rows.as_slice(), 0),
        later: requests(rows.as_slice(), 1),
        progress: &progress,
        calls: &calls,
    };
    let Inboxes { ends, sides } = inboxes;
    let started = serve(rt, alloc, &parts, ends, sides);
    // (who asks a worker that was not started hears that it is closed)
    if !started || progress.ended.load(Ordering::SeqCst) != 2 {
        return Err(Fail::from(OutOfMemory));
    }
    match summed_up(calls.into_inner().as_slice()) {
        (_, Some(0)) => Err(Fail::from(OutOfMemory)),
        sum => {
            assert!(rt; sum == (4, None));
            Ok(())
        }
    }
}

#[test]
fn threads_that_ask_before_their_turn_are_not_told_of_a_closed_resolver(
    rt: HostRuntime,
) -> Result<(), Fail> {
    let alloc = rt.alloc();
    tell(
        &rt,
        alloc,
        blank(alloc, 2, 2, 2)?,
        &[0, 1],
        &Story::OfInboxes(InboxStory::LaterFirst),
    )
}
