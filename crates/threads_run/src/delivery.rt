//! The check at a run's end that each worker took from each proxy just what it sent, and was not
//! closed.

ghost use Rattle.std.specs.Prelude.{◌≡◌, ◌<◌, ◌≤◌, ◌^◌, ◌-◌, [], length, map, All, IfErr, IfOk};
ghost use Rattle.std.specs.Prelude.{OnOk, string_bytes};
ghost use Rattle.std.specs.Vec.{vec_capacity};
ghost use Rattle.inboxes.specs.Sending.{HasEndLast, IsEndedSender};
ghost use Rattle.threads_lines.specs.Faults.{FailsCheckOf};
ghost use Rattle.threads_lines.specs.Threads.{AreInPlace};
ghost use Rattle.threads_run.specs.Delivered.{AreEndedSides, GoesByInboxes, IsDelivered};
ghost use Rattle.threads_run.specs.Delivered.{IsEndedSide, IsSideDelivered, IsTaken, proxy_of};

use agreed_ledger::{Ledger, Naming};
use inboxes::{Channels, EndedSender};
use model::ProxyNumber;
use std::alloc::Global;
use std::marker::Model;
use std::sync::Wait;
use system_keys::OutOfMemory;
use threads_lines::{RunFault, RunHistory, count_records_of};
use workers::{EndedWorker, Open, PendingRequest, ProxyInboxes};

/// What is left of the worker of an inbox.
pub(crate) type Ended<N, M> = EndedWorker<N, M, Open>;

/// What is left of a proxy that has ended: its number, and its sending ends, through which it sends no
/// more.
#[derive(Drop)]
pub(crate) struct EndedProxy<N: Naming, M: Channels> {
    proxy: ProxyNumber,
    ends: Vec<EndedSender<N, PendingRequest<N>, M>>,
}

impl<N: Naming, M: Channels> Model for EndedProxy<N, M> {
    ghost use Rattle.inboxes.specs.Ends.{ProxyView};
    ghost use Rattle.threads_run.specs.Delivered.{IsEndedSide};

    ghost Value = { ProxyView };

    ghost view = { λ s. record { proxy = s.proxy; ends = s.ends.items } };

    ghost invariant = { λ s. IsEndedSide N.cells.config
        (record { proxy = s.proxy; ends = s.ends.items }) };
}

impl<N: Naming, M: Channels> EndedProxy<N, M> {
    /// Lets the proxy end that has these inboxes.
    fn of<R: Wait>(rt: &R, inboxes: ProxyInboxes<N, M>) -> EndedProxy<N, M>
        ensures { result.proxy ≡ inboxes }
    {
        let proxy = inboxes.proxy();
        EndedProxy {
            proxy,
            ends: inboxes.end(rt),
        }
    }

    /// Room for what is left of so many proxies.
    fn room(alloc: Global, count: usize) -> Result<Vec<EndedProxy<N, M>>, OutOfMemory>
        ensures empty { IfOk result (λ sides. sides.items ≡ []) }
        ensures room { IfOk result (λ sides. count ≤ vec_capacity sides) }
    {
        Ok(Vec::with_capacity(alloc, count)?)
    }

    /// The number of the proxy.
    fn proxy(&self) -> ProxyNumber
        ensures { result ≡ self.now.proxy }
    {
        self.proxy
    }

    /// Compares what was sent through each end with what the worker of its resolver took. Fails exactly
    /// if not so many messages were delivered through each of them, requests and last an End, to a worker
    /// that was not closed, with `Refused`.
    fn check(self, messages: u64, workers: &mut Vec<Ended<N, M>>) -> Result<(), RunFault>
        requires { messages < 2 ^ 64 - 1 }
        ensures kept { IsEndedSide N.cells.config self }
        ensures same { workers.new.items ≡ workers.old.items }
        ensures checked { OnOk result (All (IsDelivered messages workers.old.items) self.ends) }
        ensures err { IfErr result (FailsCheckOf
            (All (IsDelivered messages workers.old.items) self.ends)) }
    {
        check_senders(messages, self.ends, workers)
    }
}

/// A run that went by its inboxes: its history, and its text. There is one only where what each worker
/// took of each proxy was compared with what that proxy sent.
#[derive(Drop)]
pub(crate) struct DeliveredRun<N: Naming> {
    history: RunHistory<N>,
    text: String,
}

impl<N: Naming> Model for DeliveredRun<N> {
    ghost use Rattle.std.specs.Prelude.{string_bytes};
    ghost use Rattle.threads_run.specs.Delivered.{HasGoneByInboxes, RunView};

    ghost Value = { RunView };

    ghost view = { λ d. record { history = d.history.records; text = string_bytes d.text } };

    ghost invariant = { λ d. HasGoneByInboxes N.cells.config d.history.records };
}

impl<N: Naming> DeliveredRun<N> {
    /// The run of this history and this text, if it went by its inboxes. `sides` and `workers` are what is
    /// left of these. Fails exactly if a worker did not take of a proxy one request for each of its records
    /// in the history, and its End, all that the proxy sent, or if it was closed, with `Refused`.
    pub(crate) fn of<M: Channels>(
        history: RunHistory<N>,
        text: String,
        ledger: &Ledger<N>,
        sides: Vec<EndedProxy<N, M>>,
        workers: Vec<Ended<N, M>>,
    ) -> Result<DeliveredRun<N>, RunFault>
        requires sides { length sides.items ≡ N.cells.config.proxies }
        requires in_order { AreInPlace (map proxy_of sides.items) }
        requires workers { length workers.items ≡ N.cells.config.resolvers }
        ensures run { IfOk result (λ run.
            run ≡ record { history = history.records; text = string_bytes text }) }
        ensures delivered { OnOk result
            (GoesByInboxes N.cells.config history.records sides.items workers.items) }
        ensures err { IfErr result (FailsCheckOf
            (GoesByInboxes N.cells.config history.records sides.items workers.items)) }
    {
        check_delivered(&history, ledger, sides, workers)?;
        Ok(DeliveredRun { history, text })
    }

    /// Its text.
    pub(crate) fn into_text(self) -> String
        ensures { string_bytes result ≡ self.text }
    {
        self.text
    }
}

/// Lets the proxies end that have these inboxes, in order. Returns what is left of each. Fails only with
/// `OutOfMemory`: all have ended then too.
pub(crate) fn end_proxies<N: Naming, M: Channels, R: Wait>(
    rt: &R,
    alloc: Global,
    inboxes: Vec<ProxyInboxes<N, M>>,
) -> Result<Vec<EndedProxy<N, M>>, OutOfMemory>
    ensures { IfOk result (λ sides. AreEndedSides inboxes.items sides.items) }
{
    let Ok(sides) = EndedProxy::room(alloc, inboxes.len()) else {
        for one in inboxes {
            let _ended = one.end(rt);
        }
        return Err(OutOfMemory);
    };
    Ok(end_each(rt, inboxes, sides))
}

/// Lets the proxies end that have these inboxes, in order. Returns what is left of each. `sides` is the
/// room for it.
fn end_each<N: Naming, M: Channels, R: Wait>(
    rt: &R,
    inboxes: Vec<ProxyInboxes<N, M>>,
    mut sides: Vec<EndedProxy<N, M>>,
) -> Vec<EndedProxy<N, M>>
    requires empty { sides.items ≡ [] }
    requires room { length inboxes.items ≤ vec_capacity sides }
    ensures { AreEndedSides inboxes.items result.items }
{
    for one in inboxes {
        sides.push_reserved(EndedProxy::of(rt, one));
    }
    sides
}

/// Compares what each worker took of each proxy with what that proxy sent to it. Fails exactly if these
/// are not one request for each of the proxy's records in the history, and its End, or if a worker was
/// closed, with `Refused`.
fn check_delivered<N: Naming, M: Channels>(
    history: &RunHistory<N>,
    ledger: &Ledger<N>,
    sides: Vec<EndedProxy<N, M>>,
    mut workers: Vec<Ended<N, M>>,
) -> Result<(), RunFault>
    ensures checked { OnOk result (All
        (IsSideDelivered N.cells.config history.now.records workers.items) sides.items) }
    ensures err { IfErr result (FailsCheckOf (All
        (IsSideDelivered N.cells.config history.now.records workers.items) sides.items)) }
{
    for side in sides {
        let messages = count_records_of(history, ledger, side.proxy()) + 1;
        side.check(messages as u64, &mut workers)?;
    }
    Ok(())
}

/// Compares what was sent through each of the ends with what the worker of its resolver took. Fails
/// exactly if not so many messages were delivered through each of them, requests and last an End, to a
/// worker that was not closed, with `Refused`.
fn check_senders<N: Naming, M: Channels>(
    messages: u64,
    senders: Vec<EndedSender<N, PendingRequest<N>, M>>,
    workers: &mut Vec<Ended<N, M>>,
) -> Result<(), RunFault>
    requires messages { messages < 2 ^ 64 - 1 }
    requires ended { All (λ sender. IsEndedSender sender.proxy sender) senders.items }
    ensures same { workers.new.items ≡ workers.old.items }
    ensures checked { OnOk result (All (IsDelivered messages workers.old.items) senders.items) }
    ensures err { IfErr result (FailsCheckOf
        (All (IsDelivered messages workers.old.items) senders.items)) }
{
    for sender in senders {
        check_sender(messages, sender, workers)?;
    }
    Ok(())
}

/// Compares what was sent through the end with what the worker of its resolver took. Fails exactly if not
/// so many messages were delivered, requests and last an End, to a worker that was not closed, with
/// `Refused`.
fn check_sender<N: Naming, M: Channels>(
    messages: u64,
    sender: EndedSender<N, PendingRequest<N>, M>,
    workers: &mut Vec<Ended<N, M>>,
) -> Result<(), RunFault>
    requires messages { messages < 2 ^ 64 - 1 }
    requires ended { IsEndedSender sender.proxy sender }
    ensures same { workers.new.items ≡ workers.old.items }
    ensures checked { OnOk result (IsDelivered messages workers.old.items sender) }
    ensures err { IfErr result (FailsCheckOf (IsDelivered messages workers.old.items sender)) }
{
    let resolver = sender.resolver();
    if sender.gone() {
        return Err(RunFault::Refused);
    }
    if resolver >= workers.len() {
        return Err(RunFault::Refused);
    }
    check_worker(messages, sender, &mut workers[resolver])
}

/// Compares what was sent through the end, where no message was refused, with what the worker took. Fails
/// exactly if not so many messages were delivered to it, requests and last an End, or if it was closed, with
/// `Refused`. (A worker that took a Close was closed, by its type.)
fn check_worker<N: Naming, M: Channels>(
    messages: u64,
    sender: EndedSender<N, PendingRequest<N>, M>,
    worker: &mut Ended<N, M>,
) -> Result<(), RunFault>
    requires messages { messages < 2 ^ 64 - 1 }
    requires ended { HasEndLast sender.proxy sender.put }
    ensures same { worker.new ≡ worker.old }
    ensures checked { OnOk result (IsTaken messages worker.old sender) }
    ensures err { IfErr result (FailsCheckOf (IsTaken messages worker.old sender)) }
{
    if worker.closed() {
        return Err(RunFault::Refused);
    }
    let Ok(counts) = worker.compare(sender) else {
        return Err(RunFault::Refused);
    };
    if counts.sent != messages {
        return Err(RunFault::Refused);
    }
    if counts.taken != messages {
        return Err(RunFault::Refused);
    }
    Ok(())
}
