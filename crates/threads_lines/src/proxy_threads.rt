//! The threads of a run's proxies: what they share (a trait), starting and joining them, and
//! their lines in order.

ghost use Rattle.std.specs.Prelude.{◌≡◌, ◌++◌, ◌≤◌, ◌<◌, [], length, ℕ, IfOk, OnOk};
ghost use Rattle.std.specs.Prelude.{Err, MatchResult, string_bytes};
ghost use Rattle.threads_lines.specs.Answers.{AreBatchLines, AreClosingLines, AreWorkLines};
ghost use Rattle.std.specs.Vec.{vec_capacity};
ghost use Rattle.system_keys.specs.AsSpecified.{IsAsSpecifiedIfAllocated};
ghost use Rattle.threads_lines.specs.Faults.{join_results, run_fault, texts_of};
ghost use Rattle.threads_lines.specs.Histories.{IsStartOf, Joins, nothing_known};
ghost use Rattle.threads_lines.specs.Parts.{GrowsBy, IsInTurns};
ghost use Rattle.threads_lines.specs.Threads.{AreInOrder, IsTextOf, KeepPromises};
ghost use Rattle.threads_lines.specs.declared.faults.RunFault.TheVariants as faults;

use crate::committer::AnsweredLines;
use crate::faults::RunFault;
use crate::run_history::RunHistory;
use agreed_ledger::Naming;
use model::ProxyNumber;
use mutation::Batch;
use std::alloc::Global;
use std::marker::PhantomData;
use std::sync::Wait;
use std::thread;
use std::thread::{Promise, PromisedHandle, Scope, Threads};
use system_keys::{Items, OutOfMemory};

/// A value that the threads of a run share, with which each thread commits the batches of one
/// proxy.
pub trait CommitsBatches<N: Naming> {
    ghost proxies: { Self → ℕ };

    /// Commits the batches of the proxy in order, and returns the lines of their answers. If it
    /// fails, no other thread waits for this one.
    fn commit_batches<R: Wait>(
        &self,
        rt: &R,
        alloc: Global,
        number: ProxyNumber,
        batches: &[Batch],
    ) -> Result<AnsweredLines<N>, RunFault>
        requires { number < proxies self.now }
        ensures { IfOk result (λ answered.
            AreBatchLines N.cells.config (length N.cells.records) number batches.now
            answered.history (string_bytes answered.text)) };

    /// Lets each proxy in order commit one empty batch, by which it closes, and prints the answers.
    fn commit_and_print_closings<R: Wait>(
        &self,
        rt: &R,
        alloc: Global,
        text: &mut String,
        history: &mut RunHistory<N>,
    ) -> Result<(), RunFault>
        ensures kept { IsStartOf history.old.records history.new.records }
        ensures closings { OnOk result (GrowsBy
            (AreClosingLines N.cells.config (length N.cells.records) (proxies self.now)
            history.old history.new)
            (string_bytes text.old) (string_bytes text.new)) };

    /// Lets all threads that wait for an answer end.
    fn close<R: Wait>(&self, rt: &R);
}

/// How such a value ends its proxies, and what these leave: a `D`.
pub trait EndsProxies<D> {
    ghost ends_with: { Self → D → Type 0 };

    /// Lets the proxies end: they ask no resolver any more. Returns what is left of them.
    fn end<R: Wait>(self, rt: &R) -> D
        ensures { ends_with self result };
}

/// What a thread promises of what it returns: the lines of answers to these batches of the proxy, or
/// why there are none.
#[derive(Drop)]
struct LinesOf<'a, N: Naming> {
    number: ProxyNumber,
    batches: &'a [Batch],
    of: PhantomData<N>,
}

impl<'a, N: Naming> Promise<Result<AnsweredLines<N>, RunFault>> for LinesOf<'a, N> {
    ghost use Rattle.std.specs.Prelude.{length, IfOk, string_bytes};
    ghost use Rattle.threads_lines.specs.Answers.{AreBatchLines};

    ghost kept_by = { λ promise returned. IfOk returned (λ answered.
        AreBatchLines N.cells.config (length N.cells.records) promise.number promise.batches.now
        answered.history (string_bytes answered.text)) };
}

/// A thread that commits the batches of a proxy.
type Handle<'a, N> = PromisedHandle<Result<AnsweredLines<N>, RunFault>, LinesOf<'a, N>>;

/// Commits the batches of each proxy in a thread of its own, and waits for all threads to end.
/// Returns the lines of the answers, in the order of the proxies.
///
/// Fails with `OutOfMemory` if a thread could not be started, or was refused memory.
pub(crate) fn commit_in_threads<
    N: Naming + Send,
    C: CommitsBatches<N> + Sync,
    R: Threads + Wait + Sync,
>(rt: &R, alloc: Global, shared: &C, work: &[Items<Batch>]) -> Result<AnsweredLines<N>, RunFault>
    requires { length work.now ≤ C.proxies shared.now }
    ensures { IfOk result (λ answered.
        AreWorkLines N.cells.config (length N.cells.records) work.now
        answered.history (string_bytes answered.text)) }
{
    thread::scope(
        thread::scope_env(),
        rt,
        |scope| -> Result<AnsweredLines<N>, RunFault>
            requires { length work.now ≤ C.proxies shared.now }
            ensures { IfOk result (λ answered.
                AreWorkLines N.cells.config (length N.cells.records) work.entry.now
                answered.history (string_bytes answered.text)) }
        { commit_in_scope(scope, rt, alloc, shared, work) },
    )
}

/// Starts the threads, and waits for them to end.
fn commit_in_scope<
    's,
    E,
    N: Naming + Send + 's,
    C: CommitsBatches<N> + Sync,
    R: Threads + Wait + Sync,
>(
    scope: &'s Scope<'s, E>,
    rt: &'s R,
    alloc: Global,
    shared: &'s C,
    work: &'s [Items<Batch>],
) -> Result<AnsweredLines<N>, RunFault>
    requires { length work.now ≤ C.proxies shared.now }
    ensures { IfOk result (λ answered.
        AreWorkLines N.cells.config (length N.cells.records) work.now
        answered.history (string_bytes answered.text)) }
{
    let Ok(room) = Vec::with_capacity(alloc, work.len()) else {
        return Err(RunFault::OutOfMemory);
    };
    let handles = start_proxy_threads::<E, N, C, R>(scope, rt, alloc, shared, work)?;
    join_answers(alloc, join_proxy_threads(rt, handles, room))
}

/// Starts a thread for each proxy. If one cannot be started, closes what the threads wait for, waits
/// for those that were started, and fails with `OutOfMemory`.
fn start_proxy_threads<
    's,
    E,
    N: Naming + Send + 's,
    C: CommitsBatches<N> + Sync,
    R: Threads + Wait + Sync,
>(
    scope: &'s Scope<'s, E>,
    rt: &'s R,
    alloc: Global,
    shared: &'s C,
    work: &'s [Items<Batch>],
) -> Result<Vec<Handle<'s, N>>, OutOfMemory>
    requires { length work.now ≤ C.proxies shared.now }
    ensures count { IfOk result (λ handles. length handles.items ≡ length work.now) }
    ensures ordered { IfOk result (λ handles. AreInOrder handles.items
        (λ thread. thread.promise.number) (λ thread. thread.promise.batches.now) work.now) }
{
    let mut handles = Vec::with_capacity(alloc, work.len())?;
    for number in 0..work.len() {
        let batches = work[number].as_slice();
        let Ok(handle) = start_proxy_thread(scope, rt, alloc, shared, number, batches) else {
            shared.close(rt);
            await_proxy_threads(rt, handles);
            return Err(OutOfMemory);
        };
        handles.push_reserved(handle);
    }
    Ok(handles)
}

/// Starts the thread of a proxy. Fails if it cannot be started.
fn start_proxy_thread<
    's,
    E,
    N: Naming + Send + 's,
    C: CommitsBatches<N> + Sync,
    R: Threads + Wait + Sync,
>(
    scope: &'s Scope<'s, E>,
    rt: &'s R,
    alloc: Global,
    shared: &'s C,
    number: ProxyNumber,
    batches: &'s [Batch],
) -> Result<Handle<'s, N>, OutOfMemory>
    requires { number < C.proxies shared.now }
    ensures number { IfOk result (λ handle. handle.promise.number ≡ number) }
    ensures batches { IfOk result (λ handle. handle.promise.batches.now ≡ batches.now) }
{
    let promise = LinesOf {
        number,
        batches,
        of: PhantomData,
    };
    let run = move || -> Result<AnsweredLines<N>, RunFault>
        requires { number < C.proxies shared.now }
        ensures { IfOk result (λ answered.
            AreBatchLines N.cells.config (length N.cells.records) number batches.entry.now
            answered.history (string_bytes answered.text)) }
    { shared.commit_batches(rt, alloc, number, batches) };
    let Ok(handle) = scope.spawn_with(promise, run) else {
        return Err(OutOfMemory);
    };
    Ok(handle)
}

/// Waits for the threads to end.
fn await_proxy_threads<N: Naming, R: Threads>(rt: &R, handles: Vec<Handle<'_, N>>) {
    for handle in handles {
        let _returned = handle.join(rt);
    }
}

/// Waits for the threads to end, and returns what each returned, in order. `returned` is the room for
/// it.
fn join_proxy_threads<N: Naming, R: Threads>(
    rt: &R,
    handles: Vec<Handle<'_, N>>,
    mut returned: Vec<Result<AnsweredLines<N>, RunFault>>,
) -> Vec<Result<AnsweredLines<N>, RunFault>>
    requires empty { returned.items ≡ [] }
    requires room { length handles.items ≤ vec_capacity returned }
    ensures count { length result.items ≡ length handles.entry.items }
    ensures kept { KeepPromises (λ p batches answered.
        AreBatchLines N.cells.config (length N.cells.records) p batches
        answered.history (string_bytes answered.text))
        handles.entry.items (λ thread. thread.promise.number)
        (λ thread. thread.promise.batches.now) result.items }
{
    for handle in handles {
        returned.push_reserved(handle.join(rt));
    }
    returned
}

/// Returns the lines of all results, one after the other, and what is known by all of them. If some of
/// the results are faults, fails with the gravest of them; or with `OutOfMemory`.
fn join_answers<N: Naming>(
    alloc: Global,
    results: Vec<Result<AnsweredLines<N>, RunFault>>,
) -> Result<AnsweredLines<N>, RunFault>
    ensures text { IsAsSpecifiedIfAllocated run_fault (λ answered. string_bytes answered.text)
        result (texts_of (λ answered. string_bytes answered.text) results.items) }
    ensures joined { IfOk result (λ answered. IsInTurns
        (IsTextOf (λ one. string_bytes one.text) (λ one. one.history) results.items)
        nothing_known (length results.items) answered.history (string_bytes answered.text)) }
{
    let mut text = String::new(alloc);
    let mut history = RunHistory::new(alloc);
    let mut outcome = Ok(());
    for one in results {
        outcome = join_results(outcome, append_returned(&mut text, &mut history, one));
    }
    match outcome {
        Ok(()) => Ok(AnsweredLines { text, history }),
        Err(fault) => Err(fault),
    }
}

/// Appends the lines that a thread returned, and joins what it knew, or fails as the thread did.
/// Otherwise fails only with `OutOfMemory`.
fn append_returned<N: Naming>(
    text: &mut String,
    history: &mut RunHistory<N>,
    returned: Result<AnsweredLines<N>, RunFault>,
) -> Result<(), RunFault>
    ensures text { MatchResult returned
        (λ answered. MatchResult result
        (λ _. string_bytes text.new ≡ string_bytes text.old ++ string_bytes answered.text)
        (λ fault. fault ≡ faults.OutOfMemory))
        (λ fault. result ≡ Err fault) }
    ensures kept { IsStartOf history.old.records history.new.records }
    ensures joined { OnOk result (IfOk returned (λ answered.
        Joins answered.history history.old history.new)) }
{
    let answered = returned?;
    history.join(&answered.history)?;
    let Ok(()) = text.push_str(answered.text.as_str()) else {
        return Err(RunFault::OutOfMemory);
    };
    Ok(())
}

/// `Ok` if both are, and otherwise the graver fault.
fn join_results(one: Result<(), RunFault>, other: Result<(), RunFault>) -> Result<(), RunFault>
    ensures { result ≡ join_results one other }
{
    match (one, other) {
        (Err(fault), Err(second)) => Err(fault.graver(second)),
        (Err(fault), Ok(())) => Err(fault),
        (Ok(()), last) => last,
    }
}
