//! What the tests do with a new cluster, of four proxies and three resolvers if its size is not told.

ghost use Rattle.std.specs.Prelude.{◌≡◌};

use crate::larger::beginning::{begin_three, leave_one_out};
use crate::larger::committing::commit_over_three;
use crate::larger::sizes::{ask_all_once, learn_all_at_once, move_often, repeat_the_last};
use agreed_ledger::{BlankLedger, Naming};
use std::alloc::Global;
use std::marker::Brand;
use std::process::Abort;
use std::sync::Wait;
use std::test::Fail;
use testing_cluster::{Cluster, blank};

/// What a test does with a new cluster.
#[derive(Clone, Copy)]
pub(crate) enum Story {
    /// Two proxies commit.
    Commits,
    /// A proxy begins three records before it finishes one.
    BegunThree,
    /// A proxy leaves out a record.
    LeftOut,
    /// Many moves are made.
    Moved,
    /// All resolvers are asked at once.
    AskedAtOnce,
    /// The last row is asked twice.
    RepeatedLast,
    /// A proxy learns all rows by the last one.
    LearnedAtOnce,
}

/// Tells the story of a new cluster.
pub(crate) fn tell<R: Abort + Wait>(rt: &R, alloc: Global, story: Story) -> Result<(), Fail> {
    tell_of_size(rt, alloc, (3, 4, 3), story)
}

/// Tells the story of a new cluster of these numbers of rows, proxies and resolvers.
pub(crate) fn tell_of_size<R: Abort + Wait>(
    rt: &R,
    alloc: Global,
    size: (usize, usize, usize),
    story: Story,
) -> Result<(), Fail> {
    let (rows, proxies, resolvers) = size;
    let blank = blank(alloc, rows, proxies, resolvers)?;
    tell_over::<Brand, _>(rt, alloc, blank, story)
}

/// Names the ledger, makes the cluster, and tells the story.
fn tell_over<N: Naming, R: Abort + Wait>(
    rt: &R,
    alloc: Global,
    blank: BlankLedger,
    story: Story,
) -> Result<(), Fail>
    requires { blank ≡ N.cells }
{
    let ledger = blank.named::<N>();
    let cluster = Cluster::new(alloc, &ledger)?;
    match story {
        Story::Commits => commit_over_three(rt, alloc, &cluster),
        Story::BegunThree => begin_three(rt, alloc, &cluster),
        Story::LeftOut => leave_one_out(rt, alloc, &cluster),
        Story::Moved => move_often(rt, alloc, &cluster),
        Story::AskedAtOnce => ask_all_once(rt, alloc, &cluster),
        Story::RepeatedLast => repeat_the_last(rt, alloc, &cluster),
        Story::LearnedAtOnce => learn_all_at_once(rt, alloc, &cluster),
    }
}
