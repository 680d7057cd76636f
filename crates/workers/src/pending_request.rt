//! A request, and where its answer goes.

ghost use Rattle.std.specs.Prelude.{◌≡◌};

use crate::worker_answer::WorkerAnswer;
use agreed_ledger::Naming;
use crossbeam_channel::Sender;
use inboxes::Question;
use locked_resolvers::Request;
use model::RowNumber;
use std::marker::Model;

/// A request that awaits its answer, and where that goes: the sender of a plain channel. Contracts see the request.
#[derive(Drop)]
pub struct PendingRequest<N: Naming> {
    pub(crate) request: Request<N>,
    reply: Sender<WorkerAnswer<N>>,
}

impl<N: Naming> Model for PendingRequest<N> {
    ghost use Rattle.locked_resolvers.specs.Requests.{RequestView};

    ghost Value = { RequestView };

    ghost view = { λ asked. asked.request };
}

impl<N: Naming> Question for PendingRequest<N> {
    ghost resolver_of = { λ asked. asked.plain.resolver };

    ghost row_of = { λ asked. asked.plain.row };
}

impl<N: Naming> PendingRequest<N> {
    /// The request, whose answer goes there.
    pub(crate) fn new(request: Request<N>, reply: Sender<WorkerAnswer<N>>) -> PendingRequest<N>
        ensures { result ≡ request }
    {
        PendingRequest { request, reply }
    }

    /// The row of the request.
    pub(crate) fn row(&self) -> RowNumber
        ensures { result ≡ self.now.plain.row }
    {
        self.request.row()
    }

    /// The request, and where its answer goes.
    pub(crate) fn into_parts(self) -> (Request<N>, Sender<WorkerAnswer<N>>)
        ensures { result.0 ≡ self }
    {
        let PendingRequest { request, reply } = self;
        (request, reply)
    }
}
