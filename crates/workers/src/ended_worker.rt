//! A worker that has ended.

ghost use Rattle.std.specs.Prelude.{◌≡◌, ◌≢◌, IfErr, IfOk};
ghost use Rattle.inboxes.specs.Counts.{counted};
ghost use Rattle.inboxes.specs.Delivers.{of_proxy};
ghost use Rattle.inboxes.specs.Ends.{IsBeginning};
ghost use Rattle.inboxes.specs.declared.refusal.Refusal.TheVariants as refusals;
ghost use Rattle.workers.specs.Workers.{IsEnded};

use crate::gate::Gate;
use crate::pending_request::PendingRequest;
use agreed_ledger::{Column, Naming};
use inboxes::{Channels, Counts, EndedSender, Refusal, WorkerPass};
use std::marker::Model;

/// A worker that has ended.
///
/// By its type, unless it was closed or was refused memory, its column has every row for which it
/// took requests of this row and of all before: it dropped no request whose turn came. If it took
/// a Close, it was closed. It was closed only if it took a Close or a request to its resolver,
/// and refused memory only if it took such a request. It took as many Ends as there are proxies,
/// unless it was cut off.
#[derive(Drop)]
pub struct EndedWorker<N: Naming, M: Channels, G: Gate + Drop> {
    pass: WorkerPass<N, PendingRequest<N>, M>,
    column: Column<N>,
    closed: bool,
    wanted: bool,
    cut_off: bool,
    gate: G,
}

impl<N: Naming, M: Channels, G: Gate + Drop> Model for EndedWorker<N, M, G> {
    ghost use Rattle.workers.specs.Workers.{EndedView, IsEnded};

    ghost Value = { EndedView };

    ghost view = { λ w. record {
      taken = w.pass;
      column = w.column;
      closed = w.closed;
      wanted = w.wanted;
      cut_off = w.cut_off;
    } };

    ghost invariant = { λ w. IsEnded N.cells.config.proxies (record {
      taken = w.pass;
      column = w.column;
      closed = w.closed;
      wanted = w.wanted;
      cut_off = w.cut_off;
    }) };
}

impl<N: Naming, M: Channels, G: Gate + Drop> EndedWorker<N, M, G> {
    /// The worker that has ended, of these parts.
    pub(crate) fn of(
        pass: WorkerPass<N, PendingRequest<N>, M>,
        column: Column<N>,
        closed: bool,
        wanted: bool,
        cut_off: bool,
        gate: G,
    ) -> EndedWorker<N, M, G>
        requires { IsEnded N.cells.config.proxies (record {
          taken = pass;
          column = column;
          closed = closed;
          wanted = wanted;
          cut_off = cut_off;
        }) }
        ensures { result ≡ record {
          taken = pass;
          column = column;
          closed = closed;
          wanted = wanted;
          cut_off = cut_off;
        } }
    {
        EndedWorker {
            pass,
            column,
            closed,
            wanted,
            cut_off,
            gate,
        }
    }

    /// The verdict cells of its resolver, from row 0.
    pub fn column(&self) -> &Column<N>
        ensures value { result.now ≡ self.now.column }
        ensures kept { IsEnded N.cells.config.proxies self.now }
    {
        &self.column
    }

    /// Whether it took a Close, or its resolver refused a request as closed or with a taken cell.
    pub fn closed(&self) -> bool
        ensures value { result ≡ self.now.closed }
        ensures kept { IsEnded N.cells.config.proxies self.now }
    {
        self.closed
    }

    /// Whether an allocation failed, to hold a request back, to keep a column or to send an answer.
    pub fn wanted_memory(&self) -> bool
        ensures value { result ≡ self.now.wanted }
        ensures kept { IsEnded N.cells.config.proxies self.now }
    {
        self.wanted
    }

    /// Whether it was cut off: it ended since its inbox had no sender left, before it took an End of each
    /// proxy. No clause says that no sender was left.
    pub fn cut_off(&self) -> bool
        ensures value { result ≡ self.now.cut_off }
        ensures kept { IsEnded N.cells.config.proxies self.now }
    {
        self.cut_off
    }

    /// Compares what it took of a proxy that sends no more with what that proxy sent to it, and
    /// returns how many messages these are, Close and End among them. What it took is a beginning of
    /// what the proxy sent: the same messages, in the same order, each once.
    ///
    /// Fails with `NotSender` if the sender is to another resolver, and returns the sender.
    pub fn compare(
        &mut self,
        ended: EndedSender<N, PendingRequest<N>, M>,
    ) -> Result<Counts, (Refusal, EndedSender<N, PendingRequest<N>, M>)>
        ensures kept { self.new ≡ self.old }
        ensures resolver { IfOk result (λ counts. ended.resolver ≡ self.old.taken.resolver) }
        ensures begins { IfOk result (λ counts. IsBeginning self.old.taken ended) }
        ensures taken { IfOk result (λ counts.
            counts.taken ≡ counted (of_proxy ended.proxy self.old.taken.got)) }
        ensures sent { IfOk result (λ counts. counts.sent ≡ counted ended.put) }
        ensures refused { IfErr result (λ refused.
            (ended.resolver ≢ self.old.taken.resolver) × (refused.0 ≡ refusals.NotSender)
            × (refused.1 ≡ ended)) }
    {
        self.pass.compare(ended)
    }

    /// Returns the gate that was given to [`new`](crate::ResolverWorker::new).
    pub fn gate(&self) -> &G {
        &self.gate
    }
}
