//! A program that embeds a cluster which its threads share. A commit proxy commits the metadata, a
//! range of keys moves to the other resolver, and two threads commit a write each, on two proxies.
//! Then both proxies show the same routing at the version of the metadata.
#![tactic(auto)]

ghost use Rattle.std.specs.Prelude.{◌≡◌, length, IfOk};

use agreed_ledger::{BlankLedger, Ledger, Naming, Sequencer};
use mutation::{Admitted, Batch, GivenRange, Mutation, Transaction, admit_owned};
use shared_cluster::{
    AllResolvers, CommitFault, Config, ConfigRefusal, Finished, NotedFinished, Routing,
    SharedProxy, SharedResolver, Version,
};
use std::alloc::{AllocError, Global};
use std::marker::Brand;
use std::sync::Wait;
use std::thread::{Threads, join};
use system_keys::{Bytes, Items, KeyRange, OutOfMemory, Tag, print_bytes};
use thiserror::Error;

/// The metadata: a server has the tag 1:7, and its team, which is this server alone, has all keys.
const METADATA: [(&[u8], &[u8]); 2] = [
    (b"\xff/serverTag/storage-server-1", b"\x01\x00\x07"),
    (b"\xff/keyServers/", b"\x01storage-server-1\x00"),
];

/// Which part refused a call, or what else failed.
#[derive(Debug, Drop, Error)]
enum Fault {
    #[error("the numbers of the cluster: {0}")]
    Numbers(#[from] ConfigRefusal),
    #[error("a range of keys: {0}")]
    Range(#[from] system_keys::Refusal),
    #[error("a transaction or a batch: {0}")]
    Transaction(#[from] mutation::Refusal),
    #[error("the ledger or the sequencer: {0}")]
    Ledger(#[from] agreed_ledger::Refusal),
    #[error("a resolver or a proxy: {0}")]
    Cluster(#[from] shared_cluster::Refusal),
    #[error("a write was not committed")]
    NotCommitted,
    #[error("printing: {0}")]
    Printing(#[from] std::io::Error),
    #[error("out of memory")]
    OutOfMemory(#[from] OutOfMemory),
    #[error("out of memory")]
    Allocation(#[from(alloc)] AllocError),
}

/// The parts of a cluster, which threads share by reference.
#[derive(Drop)]
struct Cluster<'l, N: Naming> {
    alloc: Global,
    sequencer: Sequencer<'l, N>,
    resolvers: Vec<SharedResolver<'l, N>>,
    one: SharedProxy<'l, N>,
    other: SharedProxy<'l, N>,
}

impl<'l, N: Naming + Send + Sync> Cluster<'l, N> {
    /// The parts before the first batch.
    fn new(alloc: Global, ledger: &'l Ledger<N>) -> Result<Cluster<'l, N>, Fault> {
        let low = SharedResolver::new(alloc, ledger, 0)?;
        let high = SharedResolver::new(alloc, ledger, 1)?;
        Ok(Cluster {
            alloc,
            sequencer: Sequencer::new(alloc, ledger)?,
            resolvers: vec![in alloc; low, high]?,
            one: SharedProxy::new(alloc, ledger, 0)?,
            other: SharedProxy::new(alloc, ledger, 1)?,
        })
    }

    /// Commits the batch, and lets the proxy go. If the commit fails once the batch has a row, closes all
    /// resolvers, so that no thread waits for this row.
    fn commit_or_close_if_sequenced<R: Wait>(
        &self,
        rt: &R,
        proxy: &SharedProxy<'_, N>,
        batch: Batch,
    ) -> Result<NotedFinished<N>, Fault> {
        let asking = AllResolvers::new(self.resolvers.as_slice())?;
        let refusal = match proxy.commit(rt, &self.sequencer, &asking, batch) {
            Ok((answer, _guard)) => return Ok(answer),
            Err(CommitFault::Sequencing { refusal, .. }) => return Err(Fault::from(refusal)),
            Err(CommitFault::Beginning { refusal, .. }) => refusal,
            Err(CommitFault::Resolving { refusal, .. }) => refusal,
            Err(CommitFault::Finishing { refusal, .. }) => refusal,
        };
        for resolver in self.resolvers.as_slice() {
            resolver.close(rt);
        }
        Err(Fault::from(refusal))
    }

    /// Commits the metadata, moves a range to resolver 1, and returns the version of the metadata.
    fn commit_metadata<R: Wait>(&self, rt: &R) -> Result<Version, Fault> {
        let answer = self.commit_or_close_if_sequenced(
            rt,
            &self.one,
            batch_of_sets(self.alloc, &METADATA)?,
        )?;
        let begin = Vec::from_slice(self.alloc, b"m")?;
        let range = KeyRange::new(begin, Vec::from_slice(self.alloc, b"\xff")?)?;
        self.sequencer.lock(rt).move_range(&range, 1)?;
        Ok(answer.value().version)
    }

    /// Writes a key on each proxy, in two threads, and prints the tags of both writes.
    fn write_on_both<R: Threads + Wait + Print + Sync>(&self, rt: &R) -> Result<(), Fault> {
        let apple = batch_of_sets(self.alloc, &[(b"apple", b"red")])?;
        let plum = batch_of_sets(self.alloc, &[(b"plum", b"blue")])?;
        let (first, second) = join(
            rt,
            || tags_of_write(
                self.commit_or_close_if_sequenced(rt, &self.one, apple)?
                    .value(),
            ),
            || tags_of_write(
                self.commit_or_close_if_sequenced(rt, &self.other, plum)?
                    .value(),
            ),
        );
        let apple = text_of_tags(self.alloc, first?.as_slice())?;
        let plum = text_of_tags(self.alloc, second?.as_slice())?;
        println!(rt; "proxy 0 wrote apple, tagged{apple}")?;
        Ok(println!(rt; "proxy 1 wrote plum, tagged{plum}")?)
    }

    /// Commits an empty batch on the proxy, by which it learns of all batches before, and returns the
    /// text of its routing at the version.
    fn catch_up<R: Wait>(
        &self,
        rt: &R,
        proxy: &SharedProxy<'_, N>,
        version: Version,
    ) -> Result<String, Fault> {
        let _answer = self.commit_or_close_if_sequenced(
            rt,
            proxy,
            batch_of(Vec::new(self.alloc))?,
        )?;
        let routing = proxy.lock(rt).routing_at(version)?;
        text_of_routing(self.alloc, routing.value())
    }

    /// Prints the routings of both proxies at the version, and whether they are the same.
    fn show_routings<R: Wait + Print>(&self, rt: &R, version: Version) -> Result<(), Fault> {
        let one = self.catch_up(rt, &self.one, version)?;
        let other = self.catch_up(rt, &self.other, version)?;
        println!(rt; "proxy 0 {one}")?;
        println!(rt; "proxy 1 {other}")?;
        Ok(println!(rt; "the routings are the same: {}", one == other)?)
    }
}

/// The text of some tags, each the locality and the id of a storage server.
fn text_of_tags(alloc: Global, tags: &[Tag]) -> Result<String, Fault> {
    let mut text = String::new(alloc);
    for tag in tags {
        write!(text, " {}:{}", tag.locality, tag.id)?;
    }
    Ok(text)
}

/// The text of a routing: from which key on the keys have which tags.
fn text_of_routing(alloc: Global, routing: &Routing) -> Result<String, Fault> {
    let mut text = format!(in alloc; "at version {}", routing.version)?;
    for route in routing.routes.as_slice() {
        let key = print_bytes(alloc, route.key.as_slice())?;
        let tags = text_of_tags(alloc, route.tags.as_slice())?;
        write!(text, ", from \"{key}\" on{tags}")?;
    }
    Ok(text)
}

/// The tags of the one write of a batch. Fails with `NotCommitted` if it was not committed.
fn tags_of_write(finished: &Finished) -> Result<Items<Tag>, Fault> {
    match finished.tagged.as_slice() {
        [write] => Ok(write.tags.clone()?),
        _ => Err(Fault::NotCommitted),
    }
}

/// A batch of one transaction that sets these rows; its write ranges are their keys.
fn batch_of_sets(alloc: Global, rows: &[(&[u8], &[u8])]) -> Result<Batch, Fault>
    ensures { IfOk result (λ batch. length batch ≡ 1) }
{
    let mut writes = Vec::with_capacity(alloc, rows.len())?;
    let mut mutations = Vec::with_capacity(alloc, rows.len())?;
    for (key, value) in rows {
        let begin = Bytes::from(Vec::from_slice(alloc, key)?);
        let mut end = Vec::from_slice(alloc, key)?;
        end.push(0)?;
        let end = Bytes::from(end);
        writes.push(GivenRange { begin, end })?;
        let key = Bytes::from(Vec::from_slice(alloc, key)?);
        let value = Bytes::from(Vec::from_slice(alloc, value)?);
        mutations.push(Mutation::Set { key, value })?;
    }
    let transaction = Transaction {
        snapshot: 0,
        reads: Items::from(Vec::new(alloc)),
        writes: Items::from(writes),
        mutations: Items::from(mutations),
        lock_aware: false,
    };
    let admitted = admit_owned(alloc, transaction)?;
    batch_of(vec![in alloc; admitted]?)
}

/// The batch of these transactions.
fn batch_of(transactions: Vec<Admitted>) -> Result<Batch, Fault>
    ensures { IfOk result (λ batch. batch ≡ transactions.items) }
{
    Ok(Batch::new(transactions).map_err(|(refusal, _transactions)| refusal)?)
}

/// Names the ledger, makes the cluster, and commits in it.
fn in_cluster<N: Naming + Send + Sync, R: Threads + Wait + Print + Sync>(
    rt: &R,
    alloc: Global,
    blank: BlankLedger,
) -> Result<(), Fault>
    requires { blank ≡ N.cells }
{
    let ledger = blank.named::<N>();
    let cluster = Cluster::new(alloc, &ledger)?;
    let version = cluster.commit_metadata(rt)?;
    cluster.write_on_both(rt)?;
    cluster.show_routings(rt, version)
}

/// Makes a ledger of five rows for two proxies and two resolvers, and picks its cells.
fn main(rt: HostRuntime) -> Result<(), Fault> {
    let blank = Ledger::new(rt.alloc(), 5, Config::new(2, 2, 1_000, 10)?)?;
    in_cluster::<Brand, HostRuntime>(&rt, rt.alloc(), blank)
}
