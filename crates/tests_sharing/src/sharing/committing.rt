//! Tests of one proxy by which several threads commit at once.

use crate::sharing::stories::{Story, tell};
use agreed_ledger::Naming;
use locked_cluster::{AllResolvers, Asking, NotedReply, Refusal, Request, SharedProxy};
use std::alloc::Global;
use std::process::Abort;
use std::sync::Wait;
use std::sync::atomic::{AtomicU64, Ordering};
use std::test::Fail;
use std::thread::{Threads, join};
use std::time::Clock;
use testing_cluster::{Cluster, blank, close_all, commit_empty, pause, reaches};

// ---- an order of those who have their replies

/// How many milliseconds an asker waits at most for those before it.
const PATIENCE: u64 = 5_000;

/// How many milliseconds an asker then leaves to those before it: by then they wait for the rows before
/// theirs to be finished.
const LEAVE: u64 = 50;

/// Asks all resolvers, and lets those who have their replies go on in an order of its own.
#[derive(Drop)]
struct InOrder<'a, 'l, N: Naming, C: Clock> {
    resolvers: &'a AllResolvers<'a, 'l, N>,
    clock: &'a C,
    /// How many go on before the asker of each row. The askers of further rows go on at once.
    before: &'a [u64],
    /// How many have gone on.
    gone_on: AtomicU64,
    /// How many have waited in vain.
    missed: AtomicU64,
}

impl<'a, 'l, N: Naming, C: Clock> InOrder<'a, 'l, N, C> {
    /// Lets the asker of the row go on in its turn.
    fn go_on(&self, row: usize) {
        let Some(before) = self.before.get(row) else {
            return;
        };
        if 0 < *before {
            if !reaches(self.clock, &self.gone_on, *before, PATIENCE) {
                let _ = self.missed.fetch_add(1, Ordering::SeqCst);
            }
            pause(self.clock, LEAVE);
        }
        let _ = self.gone_on.fetch_add(1, Ordering::SeqCst);
    }
}

impl<N: Naming, C: Clock> Asking<N> for InOrder<'_, '_, N, C> {
    ghost use Rattle.std.specs.Prelude.{None};

    ghost takes = { λ _. None };

    fn ask_all<R: Wait>(
        &self,
        rt: &R,
        alloc: Global,
        requests: &[Request<N>],
    ) -> Result<Vec<NotedReply<N>>, Refusal> {
        let replies = self.resolvers.ask_all(rt, alloc, requests)?;
        if let Some(request) = requests.first() {
            self.go_on(request.row());
        }
        Ok(replies)
    }
}

// ---- commits by three threads

/// What three threads do: each commits this number of empty batches by a proxy.
#[derive(Clone, Copy)]
pub(crate) struct Work {
    /// The proxy of each thread, and how many batches it commits.
    threads: [(usize, usize); 3],
    /// How many askers go on before that of each row.
    before: &'static [u64],
    /// The outcomes of the rows of all threads.
    rows: u64,
}

/// What a test compares of commits: the sum of the bits of their rows, that of row 0 being bit 1. If one
/// is refused, the number of the refusal.
type Rows = Result<u64, u32>;

/// The bit of the row of this version.
fn bit(version: u64) -> u64 {
    match u32::try_from(version / 10) {
        Ok(place) => 1_u64.wrapping_shl(place),
        Err(_) => 0,
    }
}

/// Commits this number of empty batches by the proxy. If one is refused, closes all resolvers.
fn commit_all<N: Naming, A: Asking<N>, R: Wait>(
    rt: &R,
    alloc: Global,
    cluster: &Cluster<'_, N>,
    asking: &A,
    work: (usize, usize),
) -> Rows {
    let Ok(proxy) = cluster.proxy(work.0) else {
        return Err(32);
    };
    let mut rows = 0_u64;
    for _batch in 0..work.1 {
        match commit_empty(rt, alloc, cluster, asking, proxy) {
            Ok(version) => rows = rows.saturating_add(bit(version)),
            Err(number) => {
                close_all(rt, cluster);
                return Err(number);
            }
        }
    }
    Ok(rows)
}

/// The rows of all three.
fn sum(rows: [Rows; 3]) -> Rows {
    match rows {
        [Ok(one), Ok(two), Ok(three)] => Ok(one.saturating_add(two).saturating_add(three)),
        [Err(number), _, _] | [_, Err(number), _] | [_, _, Err(number)] => Err(number),
    }
}

/// Commits in three threads by asking in this way.
fn commit_in_threads<N: Naming + Send + Sync, A: Asking<N> + Sync, R: Threads + Wait + Sync>(
    rt: &R,
    alloc: Global,
    cluster: &Cluster<'_, N>,
    asking: &A,
    threads: [(usize, usize); 3],
) -> Rows {
    let [one, two, three] = threads;
    let (first, (second, third)) = join(
        rt,
        || commit_all(rt, alloc, cluster, asking, one),
        || {
            join(
                rt,
                || commit_all(rt, alloc, cluster, asking, two),
                || commit_all(rt, alloc, cluster, asking, three),
            )
        },
    );
    sum([first, second, third])
}

/// Commits what the threads are to commit: each row comes once, and nobody waits in vain.
pub(crate) fn commit_by_three<N: Naming + Send + Sync, R: Abort + Clock + Threads + Wait + Sync>(
    rt: &R,
    alloc: Global,
    cluster: &Cluster<'_, N>,
    work: Work,
) -> Result<(), Fail> {
    let resolvers = cluster.asking()?;
    let asking = InOrder {
        resolvers: &resolvers,
        clock: rt,
        before: work.before,
        gone_on: AtomicU64::new(0),
        missed: AtomicU64::new(0),
    };
    let rows = commit_in_threads(rt, alloc, cluster, &asking, work.threads);
    let missed = asking.missed.load(Ordering::SeqCst);
    assert!(rt; (rows, missed) == (Ok(work.rows), 0));
    Ok(())
}

/// Two threads commit twenty batches each by one proxy, and a third by another.
const MANY: Work = Work {
    threads: [(0, 20), (0, 20), (1, 20)],
    before: &[],
    // (rows 0 to 59)
    rows: 0x1fff_ffff_ffff_fffe,
};

#[test]
fn two_threads_commit_many_batches_by_one_proxy(rt: HostRuntime) -> Result<(), Fail> {
    let alloc = rt.alloc();
    tell(&rt, alloc, blank(alloc, 60, 2, 2)?, Story::ByThree(MANY))
}

/// Who has row 1 waits for row 0 to be finished.
const TWO: Work = Work {
    threads: [(0, 1), (0, 1), (0, 0)],
    before: &[1, 0],
    rows: 0b110,
};

#[test]
fn of_two_threads_one_waits_for_the_row_before(rt: HostRuntime) -> Result<(), Fail> {
    let alloc = rt.alloc();
    tell(&rt, alloc, blank(alloc, 2, 1, 2)?, Story::ByThree(TWO))
}

/// Who has row 2 waits first, and then who has row 1. Row 0 is finished last.
const THREE: Work = Work {
    threads: [(0, 1), (0, 1), (0, 1)],
    before: &[2, 1, 0],
    rows: 0b1110,
};

#[test]
fn of_three_threads_two_wait_for_the_rows_before(rt: HostRuntime) -> Result<(), Fail> {
    let alloc = rt.alloc();
    tell(&rt, alloc, blank(alloc, 3, 1, 2)?, Story::ByThree(THREE))
}

// ---- a commit while the proxy is locked

/// How often a thread that has the proxy locked looks at the sequencer.
const LOOKS: usize = 50;

/// Locks the proxy for a while: whether no record was given out until then.
fn hold<N: Naming, R: Clock + Wait>(
    rt: &R,
    cluster: &Cluster<'_, N>,
    proxy: &SharedProxy<'_, N>,
    locked: &AtomicU64,
) -> bool {
    let _guard = proxy.lock(rt);
    locked.store(1, Ordering::SeqCst);
    for _look in 0..LOOKS {
        pause(rt, 2);
        if cluster.sequencer.lock(rt).records().end() != 0 {
            return false;
        }
    }
    true
}

/// Commits a batch by proxy 0 once another thread has it locked.
fn commit_once_locked<N: Naming, R: Clock + Wait>(
    rt: &R,
    alloc: Global,
    cluster: &Cluster<'_, N>,
    locked: &AtomicU64,
) -> Rows {
    let Ok(resolvers) = cluster.asking() else {
        return Err(33);
    };
    if !reaches(rt, locked, 1, PATIENCE) {
        return Err(0);
    }
    commit_all(rt, alloc, cluster, &resolvers, (0, 1))
}

/// A batch gets its record only when its proxy can be locked, and so the records of a proxy are begun in
/// the order in which they are given out.
pub(crate) fn commit_while_held<N: Naming + Send + Sync, R: Abort + Clock + Threads + Wait + Sync>(
    rt: &R,
    alloc: Global,
    cluster: &Cluster<'_, N>,
) -> Result<(), Fail> {
    let proxy = cluster.proxy(0)?;
    let locked = AtomicU64::new(0);
    let came = join(
        rt,
        || hold(rt, cluster, proxy, &locked),
        || commit_once_locked(rt, alloc, cluster, &locked),
    );
    assert!(rt; came == (true, Ok(0b10)));
    Ok(())
}

#[test]
fn no_thread_gets_a_row_for_a_proxy_that_another_has_locked(rt: HostRuntime) -> Result<(), Fail> {
    let alloc = rt.alloc();
    tell(&rt, alloc, blank(alloc, 1, 1, 1)?, Story::Held)
}
