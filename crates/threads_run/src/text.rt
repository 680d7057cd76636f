//! The whole text of a threads script: the cluster is run over inboxes, then the lines of its
//! proxies are printed.

ghost use Rattle.std.specs.Prelude.{◌≡◌, ◌++◌, length, map, IfOk, OnOk, string_bytes};
ghost use Rattle.inboxes.specs.Blanks.{AreSides};
ghost use Rattle.threads_lines.specs.Parts.{GrowsBy};
ghost use Rattle.threads_scripts.specs.Runnable.{IsRunnable};
ghost use Rattle.threads_lines.specs.Threads.{AreAnswerLines, AreInPlace};
ghost use Rattle.threads_run.specs.Delivered.{proxy_of};
ghost use Rattle.threads_run.specs.Text.{AreProxyTexts, IsThreadsText, IsThreadsTextOf, proxy_text};

use crate::delivery::{DeliveredRun, Ended, EndedProxy};
use crate::running::{RunResolvers, Running, lines_unless_cut_off};
use agreed_ledger::{BlankLedger, Ledger, Naming, Refusal};
use cluster_lines::print_proxy_metadata;
use inboxes::{BlankInboxes, Channels, InboxRoom, ProxySenders};
use locked_cluster::ProxyGuard;
use model::ProxyNumber;
use mutation::Batch;
use std::alloc::Global;
use std::marker::Brand;
use std::sync::Wait;
use std::thread::Threads;
use system_keys::{Bytes, Items, OutOfMemory};
use threads_lines::{
    AnsweredLines, RunCluster, RunFault, RunOutcome, check_answered, check_moves, check_proxies,
    check_resolvers, commit_over_workers, print_audits, print_meetings,
};
use threads_scripts::ThreadsScript;
use workers::{PendingRequest, ProxyInboxes};

/// Returns the text of a threads script (this project's profile): the lines of its batches, which
/// each proxy's own thread commits, of the closings, of each proxy, of each two proxies that meet, and
/// of the audits. Returns only when all threads have ended.
///
/// Fails with `OutOfMemory` if an allocation failed or a thread could not be started, and with
/// `Refused` if the cluster refuses a call in any other way than by the end of the ledger or of the
/// versions, if a worker was cut off, since some proxy did not send its last message, or if a check at
/// the end of the run fails, which no run is known to do: also if a worker was closed, or did not take of
/// a proxy one request for each of its batches and its last message, all that the proxy sent.
pub(crate) fn threads_text<R: Threads + Wait + Sync>(
    rt: &R,
    alloc: Global,
    script: &ThreadsScript,
) -> Result<String, RunFault>
    requires { IsRunnable script.now }
    ensures { IfOk result (λ text. IsThreadsText script.now (string_bytes text)) }
{
    let blank = blank_ledger(alloc, script)?;
    threads_text_by_ledger::<Brand, R>(rt, alloc, blank, script)
}

/// The ledger of the script before its first batch. Fails only with `OutOfMemory`.
fn blank_ledger(alloc: Global, script: &ThreadsScript) -> Result<BlankLedger, OutOfMemory>
    requires { IsRunnable script.now }
    ensures rows { IfOk result (λ blank. length blank.records ≡ script.now.rows) }
    ensures config { IfOk result (λ blank. blank.config ≡ script.now.config) }
{
    match Ledger::new(alloc, script.rows, script.config) {
        Ok(blank) => Ok(blank),
        Err(Refusal::OutOfMemory) => Err(OutOfMemory),
        Err(_) => unreachable!(),
    }
}

/// The text of the script, by a cluster about this ledger.
fn threads_text_by_ledger<N: Naming + Send + Sync, R: Threads + Wait + Sync>(
    rt: &R,
    alloc: Global,
    blank: BlankLedger,
    script: &ThreadsScript,
) -> Result<String, RunFault>
    requires ledger { blank ≡ N.cells }
    requires config { script.now.config ≡ N.cells.config }
    requires rows { script.now.rows ≡ length N.cells.records }
    requires work { length script.now.work ≡ script.now.config.proxies }
    ensures { IfOk result (λ text. IsThreadsText script.now (string_bytes text)) }
{
    let ledger = blank.named::<N>();
    let cluster = RunCluster::new(alloc, &ledger)?;
    cluster.move_ranges(rt, script.moves.as_slice())?;
    let inboxes = BlankInboxes::new(alloc, &ledger)?;
    let run = run_over_inboxes::<N, Brand, R>(rt, alloc, &ledger, &cluster, inboxes, script)?;
    Ok(run.into_text())
}

/// The outcome of the script in this cluster over these inboxes: a run that went by them.
fn run_over_inboxes<N: Naming + Send + Sync, M: Channels + Send + Sync, R: Threads + Wait + Sync>(
    rt: &R,
    alloc: Global,
    ledger: &Ledger<N>,
    cluster: &RunCluster<'_, N>,
    blank: BlankInboxes<N, PendingRequest<N>>,
    script: &ThreadsScript,
) -> Result<DeliveredRun<N>, RunFault>
    requires places { blank ≡ M.places }
    requires proxies { length cluster.now.proxies.items ≡ N.cells.config.proxies }
    requires resolvers { length cluster.now.resolvers.items ≡ N.cells.config.resolvers }
    requires config { script.now.config ≡ N.cells.config }
    requires rows { script.now.rows ≡ length N.cells.records }
    requires work { length script.now.work ≡ script.now.config.proxies }
    ensures { IfOk result (λ run. IsThreadsTextOf script.now run.history run.text) }
{
    let work = script.work.as_slice();
    let run = answers_over_inboxes::<N, M, R>(rt, alloc, ledger, cluster, blank, work)?;
    let AnsweredRun {
        lines,
        sides,
        workers,
    } = run;
    let AnsweredLines {
        mut text,
        mut history,
    } = lines;
    let proxies = cluster.lock_proxies(rt, alloc)?;
    let resolvers = cluster.lock_resolvers(rt, alloc)?;
    history.learn_from_proxies(proxies.as_slice())?;
    history.learn_from_resolvers(resolvers.as_slice())?;
    check_answered(&history)?;
    check_proxies(&history, ledger, proxies.as_slice())?;
    check_resolvers(&history, resolvers.as_slice())?;
    check_moves(&history, ledger, script.moves.as_slice())?;
    // (their contracts say that it is a history, which fits the ledger)
    let _end = history.records().end();
    print_proxies(alloc, &mut text, proxies.as_slice(), script.ask.as_slice())?;
    print_meetings(&mut text, proxies.as_slice())?;
    print_audits(&mut text, proxies.as_slice(), resolvers.as_slice())?;
    DeliveredRun::of(history, text, ledger, sides, workers)
}

/// A run in which each proxy was answered and no worker was cut off: the lines, and what is left of the
/// inboxes.
#[derive(Drop)]
struct AnsweredRun<N: Naming, M: Channels> {
    lines: AnsweredLines<N>,
    sides: Vec<EndedProxy<N, M>>,
    workers: Vec<Ended<N, M>>,
}

/// The lines of the answers to all batches and closings, over these inboxes, and what is left of the
/// proxies and the workers, each in the order of their numbers.
fn answers_over_inboxes<
    N: Naming + Send + Sync,
    M: Channels + Send + Sync,
    R: Threads + Wait + Sync,
>(
    rt: &R,
    alloc: Global,
    ledger: &Ledger<N>,
    cluster: &RunCluster<'_, N>,
    blank: BlankInboxes<N, PendingRequest<N>>,
    work: &[Items<Batch>],
) -> Result<AnsweredRun<N, M>, RunFault>
    requires places { blank ≡ M.places }
    requires proxies { length cluster.now.proxies.items ≡ N.cells.config.proxies }
    requires resolvers { length cluster.now.resolvers.items ≡ N.cells.config.resolvers }
    requires work { length work.now ≡ N.cells.config.proxies }
    ensures lines { IfOk result (λ run.
        AreAnswerLines N.cells.config (length N.cells.records) work.now N.cells.config.proxies
        run.lines.history (string_bytes run.lines.text)) }
    ensures sides { IfOk result (λ run. (length run.sides.items ≡ N.cells.config.proxies)
        × AreInPlace (map proxy_of run.sides.items)) }
    ensures workers { IfOk result (λ run.
        length run.workers.items ≡ N.cells.config.resolvers) }
{
    let room = InboxRoom::<N, PendingRequest<N>, M>::new(alloc, ledger)?;
    let (senders, ends) = blank.named::<M>(room);
    let serving = RunResolvers {
        resolvers: cluster.resolvers.as_slice(),
    };
    let running = Running {
        ledger,
        cluster,
        inboxes: inboxes_of(alloc, ledger, senders)?,
        alloc,
    };
    let RunOutcome {
        lines,
        ended,
        workers,
    } = commit_over_workers(rt, alloc, &serving, ends, running, work)?;
    let sides = ended?;
    Ok(AnsweredRun {
        lines: lines_unless_cut_off(lines, workers.as_slice())?,
        sides,
        workers,
    })
}

/// The inboxes as each proxy sends to them, in the order of the proxies.
fn inboxes_of<N: Naming, M: Channels>(
    alloc: Global,
    ledger: &Ledger<N>,
    senders: Vec<ProxySenders<N, PendingRequest<N>, M>>,
) -> Result<Vec<ProxyInboxes<N, M>>, OutOfMemory>
    ensures count { IfOk result (λ inboxes. length inboxes.items ≡ length senders.items) }
    ensures in_place { IfOk result (λ inboxes.
        AreSides N.cells.config.proxies N.cells.config.resolvers senders.items
        → AreInPlace inboxes.items) }
{
    let mut inboxes = Vec::with_capacity(alloc, senders.len())?;
    for one in senders {
        inboxes.push(ProxyInboxes::new(ledger, one))?;
    }
    Ok(inboxes)
}

/// Prints each of the proxies, in order: its place, its routing, and the tags of the asked keys. Fails
/// only with `OutOfMemory`.
fn print_proxies<N: Naming>(
    alloc: Global,
    text: &mut String,
    proxies: &[ProxyGuard<'_, N>],
    keys: &[Bytes],
) -> Result<(), OutOfMemory>
    ensures { OnOk result (GrowsBy (AreProxyTexts keys.now proxies.now)
        (string_bytes text.old) (string_bytes text.new)) }
{
    for number in 0..proxies.len() {
        print_proxy(alloc, text, number, &proxies[number], keys)?;
    }
    Ok(())
}

/// Prints a proxy, as its lock shows it. Fails only with `OutOfMemory`.
fn print_proxy<N: Naming>(
    alloc: Global,
    text: &mut String,
    number: ProxyNumber,
    guard: &ProxyGuard<'_, N>,
    keys: &[Bytes],
) -> Result<(), OutOfMemory>
    ensures { OnOk result (string_bytes text.new
        ≡ string_bytes text.old ++ proxy_text keys.now number guard.now) }
{
    print_proxy_metadata(alloc, text, number, guard.version(), guard.metadata(), keys)
}
