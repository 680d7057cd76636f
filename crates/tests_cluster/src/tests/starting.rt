//! What the tests start from: a ledger, the parts of a cluster, inboxes, tickets, and the requests
//! for records.

ghost use Rattle.std.specs.Prelude.{◌≡◌};

use crate::tests::phases::{Phase, Step, first_wrong_step};
use agreed_ledger::{BlankLedger, Ledger, Naming, Sequencer, Ticket};
use inboxes::{BlankInboxes, Channels, FreshEnd, InboxRoom, ProxySenders};
use locked_cluster::{Refusal, Request, SharedProxy, SharedResolver};
use model::Config;
use std::alloc::Global;
use std::sync::Wait;
use std::test::Fail;
use testing::{TransactionLine, batch, room, twice};
use workers::{PendingRequest, ProxyInboxes};

/// A ledger of `rows` rows for the given proxies and resolvers.
pub(crate) fn blank(
    alloc: Global,
    rows: usize,
    proxies: usize,
    resolvers: usize,
) -> Result<BlankLedger, Fail> {
    let config = Config::new(proxies, resolvers, 1000, 10)?;
    let made = twice!(
        alloc;
        Ledger::new(alloc, rows, config),
        agreed_ledger::Refusal::OutOfMemory
    );
    Ok(made?)
}

/// The parts of a cluster: all proxies, and some resolvers.
#[derive(Drop)]
pub(crate) struct Cluster<'l, N: Naming> {
    pub(crate) ledger: &'l Ledger<N>,
    pub(crate) sequencer: Sequencer<'l, N>,
    proxies: Vec<SharedProxy<'l, N>>,
    resolvers: Vec<SharedResolver<'l, N>>,
}

impl<'l, N: Naming> Cluster<'l, N> {
    /// The parts before the first record, with resolvers of these numbers.
    pub(crate) fn new(
        alloc: Global,
        ledger: &'l Ledger<N>,
        numbers: &[usize],
    ) -> Result<Cluster<'l, N>, Fail> {
        Ok(Cluster {
            ledger,
            sequencer: Sequencer::new(alloc, ledger)?,
            proxies: proxies(alloc, ledger)?,
            resolvers: resolvers(alloc, ledger, numbers)?,
        })
    }

    /// The proxy of this number.
    pub(crate) fn proxy(&self, number: usize) -> Option<&SharedProxy<'l, N>> {
        self.proxies.as_slice().get(number)
    }

    /// The resolvers.
    pub(crate) fn resolvers(&self) -> &[SharedResolver<'l, N>] {
        self.resolvers.as_slice()
    }
}

fn proxies<'l, N: Naming>(
    alloc: Global,
    ledger: &'l Ledger<N>,
) -> Result<Vec<SharedProxy<'l, N>>, Fail> {
    let count = ledger.config().proxies();
    let mut made = room(alloc, count)?;
    for number in 0..count {
        made.push(SharedProxy::new(alloc, ledger, number)?)?;
    }
    Ok(made)
}

/// The resolver of this number.
pub(crate) fn resolver<'l, N: Naming>(
    alloc: Global,
    ledger: &'l Ledger<N>,
    number: usize,
) -> Result<SharedResolver<'l, N>, Refusal> {
    twice!(
        alloc;
        SharedResolver::new(alloc, ledger, number),
        Refusal::OutOfMemory
    )
}

fn resolvers<'l, N: Naming>(
    alloc: Global,
    ledger: &'l Ledger<N>,
    numbers: &[usize],
) -> Result<Vec<SharedResolver<'l, N>>, Fail> {
    let mut made = room(alloc, numbers.len())?;
    for number in numbers {
        made.push(resolver(alloc, ledger, *number)?)?;
    }
    Ok(made)
}

// ---- inboxes

/// The ends of all inboxes: those of the workers, in the order of the resolvers, and those of the
/// proxies.
#[derive(Drop)]
pub(crate) struct Inboxes<N: Naming, M: Channels> {
    pub(crate) ends: Vec<FreshEnd<N, PendingRequest<N>, M>>,
    pub(crate) sides: Vec<ProxyInboxes<N, M>>,
}

impl<N: Naming, M: Channels> Inboxes<N, M> {
    /// The inboxes, named.
    pub(crate) fn new(
        alloc: Global,
        ledger: &Ledger<N>,
        blank: BlankInboxes<N, PendingRequest<N>>,
    ) -> Result<Inboxes<N, M>, Fail>
        requires { blank ≡ M.places }
    {
        let room = InboxRoom::new(alloc, ledger)?;
        let (senders, ends) = blank.named::<M>(room);
        Ok(Inboxes {
            ends,
            sides: sides(alloc, ledger, senders)?,
        })
    }
}

/// The inboxes of each proxy.
fn sides<N: Naming, M: Channels>(
    alloc: Global,
    ledger: &Ledger<N>,
    senders: Vec<ProxySenders<N, PendingRequest<N>, M>>,
) -> Result<Vec<ProxyInboxes<N, M>>, Fail> {
    let mut made = room(alloc, senders.len())?;
    for one in senders {
        made.push(ProxyInboxes::new(ledger, one))?;
    }
    Ok(made)
}

// ---- records

/// The proxy of a record, and its batch.
pub(crate) type Line<'a> = (usize, &'a [TransactionLine<'a>]);

/// The ticket of a batch.
fn ticket<N: Naming, R: AllocGlobal + Wait>(
    rt: &R,
    alloc: Global,
    cluster: &Cluster<'_, N>,
    line: Line<'_>,
) -> Result<Ticket<N>, Fail> {
    let batch = batch(alloc, line.1)?;
    match cluster.sequencer.lock(rt).sequence(line.0, batch) {
        Ok(ticket) => Ok(ticket),
        Err((refusal, _batch)) => Err(Fail::from(refusal)),
    }
}

/// The tickets of these batches, in the order of the rows.
pub(crate) fn tickets<N: Naming, R: AllocGlobal + Wait>(
    rt: &R,
    alloc: Global,
    cluster: &Cluster<'_, N>,
    lines: &[Line<'_>],
) -> Result<Vec<Phase<N>>, Fail> {
    let mut rows = room(alloc, lines.len())?;
    for line in lines {
        rows.push(Phase::Sequenced(ticket(rt, alloc, cluster, *line)?))?;
    }
    Ok(rows)
}

/// Goes through the steps, each of which is to be answered as it says.
pub(crate) fn go_through<N: Naming, R: AllocGlobal + Wait>(
    rt: &R,
    cluster: &Cluster<'_, N>,
    rows: &mut Vec<Phase<N>>,
    steps: &[Step],
) -> Result<(), Fail> {
    match first_wrong_step(rt, cluster, rows, steps) {
        None => Ok(()),
        Some(_) => Err(Fail::from("a phase is not answered as it is to be")),
    }
}

/// The records of these batches, after the steps.
pub(crate) fn rows_after<N: Naming, R: AllocGlobal + Wait>(
    rt: &R,
    alloc: Global,
    cluster: &Cluster<'_, N>,
    lines: &[Line<'_>],
    steps: &[Step],
) -> Result<Vec<Phase<N>>, Fail> {
    let mut rows = tickets(rt, alloc, cluster, lines)?;
    go_through(rt, cluster, &mut rows, steps)?;
    Ok(rows)
}

/// The requests for the record of this row, if it is begun.
pub(crate) fn requests<N: Naming>(rows: &[Phase<N>], row: usize) -> &[Request<N>] {
    match rows.get(row) {
        Some(Phase::Begun(begun)) => begun.requests(),
        _ => &[],
    }
}
