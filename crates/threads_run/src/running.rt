//! What the threads of a run over inboxes share: the cluster, and the ends of its inboxes.

ghost use Rattle.std.specs.Prelude.{◌≡◌, ◌<◌, [], length, IfOk, Ok, OnOk, string_bytes};
ghost use Rattle.std.specs.List.{list_any};
ghost use Rattle.threads_run.specs.Beside.{lines_unless_cut_off, was_cut_off, was_refused_memory};
ghost use Rattle.threads_lines.specs.Parts.{GrowsBy, IsInParts};
ghost use Rattle.threads_lines.specs.Threads.{AreInPlace};

use crate::delivery::{Ended, EndedProxy, end_proxies};
use agreed_ledger::{Ledger, Naming};
use inboxes::{Channels, FreshEnd};
use locked_cluster::SharedResolver;
use model::{ProxyNumber, ResolverNumber};
use mutation::Batch;
use std::alloc::Global;
use std::sync::Wait;
use system_keys::OutOfMemory;
use threads_lines::{
    AnsweredLines, CommitsBatches, Committer, EndsProxies, RunCluster, RunFault, RunHistory,
    ServesInbox,
};
use workers::{Open, PendingRequest, ProxyInboxes, ResolverWorker};

/// The resolvers of the cluster, which workers ask for the proxies.
#[derive(Drop)]
pub(crate) struct RunResolvers<'a, 'l, N: Naming> {
    pub(crate) resolvers: &'a [SharedResolver<'l, N>],
    ghost in_place: { AreInPlace resolvers.now },
}

impl<'a, 'l, N: Naming> RunResolvers<'a, 'l, N> {
    /// The resolver of this number.
    fn resolver(&self, number: ResolverNumber) -> &'a SharedResolver<'l, N>
        requires { number < length self.now.resolvers.now }
        ensures { result.now ≡ number }
    {
        &self.resolvers[number]
    }
}

impl<'a, 'l, N: Naming, M: Channels> ServesInbox<FreshEnd<N, PendingRequest<N>, M>, Ended<N, M>>
    for RunResolvers<'a, 'l, N> {
    ghost can_serve = { λ serving end. end < length serving.resolvers.now };

    fn serve<R: Wait>(
        &self,
        rt: &R,
        alloc: Global,
        end: FreshEnd<N, PendingRequest<N>, M>,
    ) -> Ended<N, M> {
        let resolver = self.resolver(end.resolver());
        let Ok(worker) = ResolverWorker::new(alloc, resolver, end, Open) else {
            unreachable!();
        };
        worker.run(rt)
    }
}

/// The lines of the run, or why it has none. A worker that was refused memory may show to a proxy
/// only as a resolver that is closed, so the workers are asked too. If each proxy was answered, the
/// lines are right whatever the workers were refused; but a run in which a worker was cut off fails,
/// since some proxy did not send its last message to it.
pub(crate) fn lines_unless_cut_off<N: Naming, M: Channels>(
    lines: Result<AnsweredLines<N>, RunFault>,
    workers: &[Ended<N, M>],
) -> Result<AnsweredLines<N>, RunFault>
    ensures beside { result ≡ lines_unless_cut_off lines workers.now }
    ensures answered { IfOk result (λ answered. lines ≡ Ok answered) }
{
    let refused_memory = were_refused_memory(workers);
    let cut_off = were_cut_off(workers);
    match lines {
        Ok(_lines) if cut_off => Err(RunFault::Refused.fault_with_workers(refused_memory)),
        Ok(answered) => Ok(answered),
        Err(fault) => Err(fault.fault_with_workers(refused_memory)),
    }
}

/// Whether one of the workers was refused memory.
fn were_refused_memory<N: Naming, M: Channels>(workers: &[Ended<N, M>]) -> bool
    ensures { result ≡ list_any was_refused_memory workers.now }
{
    workers.iter().any(|ended| ended.wanted_memory())
}

/// Whether one of the workers was cut off.
fn were_cut_off<N: Naming, M: Channels>(workers: &[Ended<N, M>]) -> bool
    ensures { result ≡ list_any was_cut_off workers.now }
{
    workers.iter().any(|ended| ended.cut_off())
}

/// The cluster with its ledger, the inboxes of its resolvers as each proxy sends to them, and the
/// allocator for what is left of these.
#[derive(Drop)]
pub(crate) struct Running<'a, 'l, N: Naming, M: Channels> {
    pub(crate) ledger: &'a Ledger<N>,
    pub(crate) cluster: &'a RunCluster<'l, N>,
    pub(crate) inboxes: Vec<ProxyInboxes<N, M>>,
    pub(crate) alloc: Global,
    ghost as_many: { length inboxes.items ≡ length cluster.now.proxies.items },
    ghost inboxes_in_place: { AreInPlace inboxes.items },
}

impl<'a, 'l, N: Naming, M: Channels> Running<'a, 'l, N, M> {
    /// The proxy of this number, with what it commits by.
    fn committer(&self, number: ProxyNumber) -> Committer<'_, 'l, N, ProxyInboxes<N, M>>
        requires { number < length self.now.cluster.now.proxies.items }
        ensures number { result.number ≡ number }
        ensures asking { result.asking.now ≡ number }
    {
        Committer {
            number,
            proxy: self.cluster.proxy(number),
            ledger: self.ledger,
            sequencer: &self.cluster.sequencer,
            asking: &self.inboxes[number],
        }
    }
}

impl<'a, 'l, N: Naming, M: Channels> CommitsBatches<N> for Running<'a, 'l, N, M> {
    ghost proxies = { λ running. length running.cluster.now.proxies.items };

    fn commit_batches<R: Wait>(
        &self,
        rt: &R,
        alloc: Global,
        number: ProxyNumber,
        batches: &[Batch],
    ) -> Result<AnsweredLines<N>, RunFault> {
        let lines = self.committer(number).run(rt, alloc, batches);
        if lines.is_err() {
            // (so that no other proxy waits for this one)
            self.inboxes[number].close(rt);
        }
        lines
    }

    fn commit_and_print_closings<R: Wait>(
        &self,
        rt: &R,
        alloc: Global,
        text: &mut String,
        history: &mut RunHistory<N>,
    ) -> Result<(), RunFault> {
        let empty = empty_batch(alloc);
        for number in 0..self.cluster.proxies.len() {
            self.committer(number)
                .commit_and_print_closing(rt, text, history, &empty)?;
        }
        Ok(())
    }

    fn close<R: Wait>(&self, rt: &R) {
        if let Some(first) = self.inboxes.first() {
            first.close(rt);
        }
    }
}

impl<'a, 'l, N: Naming, M: Channels> EndsProxies<Result<Vec<EndedProxy<N, M>>, OutOfMemory>>
    for Running<'a, 'l, N, M> {
    ghost use Rattle.std.specs.Prelude.{IfOk};
    ghost use Rattle.threads_run.specs.Delivered.{AreEndedSides};

    ghost ends_with = { λ running ended. IfOk ended
        (λ sides. AreEndedSides running.inboxes.items sides.items) };

    fn end<R: Wait>(self, rt: &R) -> Result<Vec<EndedProxy<N, M>>, OutOfMemory> {
        end_proxies(rt, self.alloc, self.inboxes)
    }
}

/// The batch without transactions.
fn empty_batch(alloc: Global) -> Batch
    ensures { result ≡ [] }
{
    let Ok(batch) = Batch::new(Vec::new(alloc)) else {
        unreachable!();
    };
    batch
}
