//! What the tests do with a new cluster behind locks.

ghost use Rattle.std.specs.Prelude.{◌≡◌};

use crate::calling::asking::ask_in_each_way;
use crate::calling::committing::commit_in_each_way;
use crate::calling::comparing::compare_routings;
use crate::calling::promising::take_promises;
use crate::calling::sequencing::sequence_in_each_way;
use agreed_ledger::{BlankLedger, Naming};
use std::alloc::Global;
use std::marker::Brand;
use std::process::Abort;
use std::sync::Wait;
use std::test::Fail;
use testing_cluster::Cluster;

/// What a test does with a new cluster.
#[derive(Clone, Copy)]
pub(crate) enum Story {
    /// Batches get their records.
    Sequencing,
    /// Batches are committed.
    Committing,
    /// Routings are compared.
    Comparing,
    /// Resolvers are asked.
    Asking,
    /// What is promised is taken.
    Promising,
}

/// Tells the story of a new cluster over the ledger.
pub(crate) fn tell<R: Abort + Wait>(
    rt: &R,
    alloc: Global,
    blank: BlankLedger,
    story: Story,
) -> Result<(), Fail> {
    tell_over::<Brand, _>(rt, alloc, blank, story)
}

/// Names the ledger, makes the cluster, and tells the story.
fn tell_over<N: Naming, R: Abort + Wait>(
    rt: &R,
    alloc: Global,
    blank: BlankLedger,
    story: Story,
) -> Result<(), Fail>
    requires { blank ≡ N.cells }
{
    let ledger = blank.named::<N>();
    let cluster = Cluster::new(alloc, &ledger)?;
    match story {
        Story::Sequencing => sequence_in_each_way(rt, alloc, &cluster),
        Story::Committing => commit_in_each_way(rt, alloc, &cluster),
        Story::Comparing => compare_routings(rt, alloc, &cluster),
        Story::Asking => ask_in_each_way(rt, alloc, &cluster),
        Story::Promising => take_promises(rt, alloc, &cluster),
    }
}
