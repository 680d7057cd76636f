//! The threads of a run's workers beside those of its proxies: starting them, waiting for them,
//! joining them. In a run each end is a worker's end of an inbox, and a worker serves it.

ghost use Rattle.std.specs.Prelude.{◌≡◌, ◌≤◌, [], length, All, IfOk, string_bytes};
ghost use Rattle.std.specs.Vec.{vec_capacity};
ghost use Rattle.threads_lines.specs.Threads.{AreAnswerLines};

use crate::committer::AnsweredLines;
use crate::faults::RunFault;
use crate::proxy_threads::{CommitsBatches, EndsProxies, commit_in_threads};
use agreed_ledger::Naming;
use mutation::Batch;
use std::alloc::Global;
use std::sync::Wait;
use std::thread;
use std::thread::{JoinHandle, Scope, Threads};
use system_keys::{Items, OutOfMemory};

/// Serves the proxies. `E` is an end that a thread takes messages from, and `L` what that thread leaves
/// when it has ended.
pub trait ServesInbox<E, L> {
    ghost can_serve: { Self → E → Type 0 };

    /// Takes what the proxies send to this end, until each of them has ended. Returns what is left
    /// then.
    fn serve<R: Wait>(&self, rt: &R, alloc: Global, end: E) -> L
        requires { can_serve self.now end };
}

/// The outcomes of proxies and of those who served them.
#[derive(Drop)]
pub struct RunOutcome<N: Naming, D: Drop, L: Drop> {
    /// The lines of the answers, or why there are none, as far as the proxies know.
    pub lines: Result<AnsweredLines<N>, RunFault>,
    /// What the proxies left.
    pub ended: D,
    /// What each thread that served left.
    pub workers: Vec<L>,
}

/// Serves each end in a thread of its own. Meanwhile commits the batches of each proxy, again in a
/// thread for each, lets the proxies close, in order, and then end. Returns the lines of all answers,
/// what the proxies left, and what each thread that served left, when all threads have ended.
///
/// Fails with `OutOfMemory` if the thread of an end could not be started, or an allocation failed
/// before. Then no proxy commits anything.
pub fn commit_over_workers<
    N: Naming + Send,
    E: Send + Drop,
    D: Drop,
    L: Send + Drop,
    S: ServesInbox<E, L> + Sync,
    C: CommitsBatches<N> + EndsProxies<D> + Sync + Drop,
    R: Threads + Wait + Sync,
>(
    rt: &R,
    alloc: Global,
    serving: &S,
    ends: Vec<E>,
    committing: C,
    work: &[Items<Batch>],
) -> Result<RunOutcome<N, D, L>, OutOfMemory>
    requires ends { All (S.can_serve serving.now) ends.items }
    requires work { length work.now ≤ C.proxies committing }
    ensures lines { IfOk result (λ outcome. IfOk outcome.lines (λ answered.
        AreAnswerLines N.cells.config (length N.cells.records) work.now (C.proxies committing)
        answered.history (string_bytes answered.text))) }
    ensures ended { IfOk result (λ outcome. C.ends_with committing outcome.ended) }
    ensures workers { IfOk result (λ outcome.
        length outcome.workers.items ≡ length ends.items) }
{
    thread::scope(
        thread::scope_env(),
        rt,
        |scope| -> Result<RunOutcome<N, D, L>, OutOfMemory>
            requires ends { All (S.can_serve serving.now) ends.items }
            requires work { length work.now ≤ C.proxies committing }
            ensures lines { IfOk result (λ outcome. IfOk outcome.lines (λ answered.
                AreAnswerLines N.cells.config (length N.cells.records) work.entry.now
                (C.proxies committing) answered.history (string_bytes answered.text))) }
            ensures ended { IfOk result (λ outcome. C.ends_with committing outcome.ended) }
            ensures workers { IfOk result (λ outcome.
                length outcome.workers.items ≡ length ends.items) }
        { commit_beside_workers(scope, rt, alloc, serving, ends, committing, work) },
    )
}

/// Starts a thread for each end, lets the proxies commit, lets them end, and then waits for the threads
/// that serve.
fn commit_beside_workers<
    's,
    X,
    N: Naming + Send + 's,
    E: Send + Drop + 's,
    D: Drop,
    L: Send + Drop + 's,
    S: ServesInbox<E, L> + Sync,
    C: CommitsBatches<N> + EndsProxies<D> + Sync + Drop,
    R: Threads + Wait + Sync,
>(
    scope: &'s Scope<'s, X>,
    rt: &'s R,
    alloc: Global,
    serving: &'s S,
    ends: Vec<E>,
    committing: C,
    work: &'s [Items<Batch>],
) -> Result<RunOutcome<N, D, L>, OutOfMemory>
    requires ends { All (S.can_serve serving.now) ends.items }
    requires work { length work.now ≤ C.proxies committing }
    ensures lines { IfOk result (λ outcome. IfOk outcome.lines (λ answered.
        AreAnswerLines N.cells.config (length N.cells.records) work.now (C.proxies committing)
        answered.history (string_bytes answered.text))) }
    ensures ended { IfOk result (λ outcome. C.ends_with committing outcome.ended) }
    ensures workers { IfOk result (λ outcome.
        length outcome.workers.items ≡ length ends.items) }
{
    let left = Vec::with_capacity(alloc, ends.len())?;
    let handles = match start_workers(scope, rt, alloc, serving, ends) {
        Ok(handles) => handles,
        Err(started) => {
            let _ended = committing.end(rt);
            await_workers(rt, started);
            return Err(OutOfMemory);
        }
    };
    let lines = answer_lines::<N, C, R>(rt, alloc, &committing, work);
    let ended = committing.end(rt);
    Ok(RunOutcome {
        lines,
        ended,
        workers: join_workers(rt, handles, left),
    })
}

/// Starts a thread for each end. If one cannot be started, or an allocation failed, returns the threads
/// that were started in `Err`.
fn start_workers<
    's,
    X,
    E: Send + Drop + 's,
    L: Send + Drop + 's,
    S: ServesInbox<E, L> + Sync,
    R: Threads + Wait + Sync,
>(
    scope: &'s Scope<'s, X>,
    rt: &'s R,
    alloc: Global,
    serving: &'s S,
    ends: Vec<E>,
) -> Result<Vec<JoinHandle<L>>, Vec<JoinHandle<L>>>
    requires { All (S.can_serve serving.now) ends.items }
    ensures { IfOk result (λ handles. length handles.items ≡ length ends.items) }
{
    let Ok(mut handles) = Vec::with_capacity(alloc, ends.len()) else {
        return Err(Vec::new(alloc));
    };
    for end in ends {
        let Ok(handle) = start_worker(scope, rt, alloc, serving, end) else {
            return Err(handles);
        };
        handles.push_reserved(handle);
    }
    Ok(handles)
}

/// Starts the thread of an end. Fails if it cannot be started.
fn start_worker<
    's,
    X,
    E: Send + Drop + 's,
    L: Send + Drop + 's,
    S: ServesInbox<E, L> + Sync,
    R: Threads + Wait + Sync,
>(
    scope: &'s Scope<'s, X>,
    rt: &'s R,
    alloc: Global,
    serving: &'s S,
    end: E,
) -> Result<JoinHandle<L>, OutOfMemory>
    requires { S.can_serve serving.now end }
{
    let run = move || -> L
        requires { S.can_serve serving.now end }
    { serving.serve(rt, alloc, end) };
    match scope.spawn(run) {
        Ok(handle) => Ok(handle),
        Err(_refused) => Err(OutOfMemory),
    }
}

/// Waits for the threads that serve to end.
fn await_workers<L: Drop, R: Threads>(rt: &R, handles: Vec<JoinHandle<L>>) {
    for handle in handles {
        let _left = handle.join(rt);
    }
}

/// Waits for the threads that serve to end, and returns what each left. `left` is the room for it.
fn join_workers<L: Drop, R: Threads>(
    rt: &R,
    handles: Vec<JoinHandle<L>>,
    mut left: Vec<L>,
) -> Vec<L>
    requires empty { left.items ≡ [] }
    requires room { length handles.items ≤ vec_capacity left }
    ensures { length result.items ≡ length handles.items }
{
    for handle in handles {
        left.push_reserved(handle.join(rt));
    }
    left
}

/// The lines of the answers to all batches, and to the closings after them.
fn answer_lines<N: Naming + Send, C: CommitsBatches<N> + Sync + Drop, R: Threads + Wait + Sync>(
    rt: &R,
    alloc: Global,
    committing: &C,
    work: &[Items<Batch>],
) -> Result<AnsweredLines<N>, RunFault>
    requires { length work.now ≤ C.proxies committing.now }
    ensures { IfOk result (λ answered.
        AreAnswerLines N.cells.config (length N.cells.records) work.now (C.proxies committing.now)
        answered.history (string_bytes answered.text)) }
{
    let AnsweredLines {
        mut text,
        mut history,
    } = commit_in_threads(rt, alloc, committing, work)?;
    committing.commit_and_print_closings(rt, alloc, &mut text, &mut history)?;
    Ok(AnsweredLines { text, history })
}
