//! What is done with the parts of a cluster, with inboxes and without.

ghost use Rattle.std.specs.Prelude.{◌≡◌};

use crate::tests::commits::Commit;
use crate::tests::of_commits::commit_in_order;
use crate::tests::of_gates::hold_back;
use crate::tests::of_held_requests::ask_later_first;
use crate::tests::of_left_requests::leave_held;
use crate::tests::of_meetings::meet_twice;
use crate::tests::of_phases::go_in_odd_order;
use crate::tests::of_refusals::misplace_ends;
use crate::tests::of_repeats::repeat;
use crate::tests::of_resolvers::{Ask, are_numbered, ask_by_hand, bring_to_another};
use crate::tests::of_threads::{close_on_waiting, commit_and_close};
use crate::tests::of_workers::{Trial, try_out};
use crate::tests::starting::{Cluster, Inboxes};
use agreed_ledger::{BlankLedger, Naming};
use inboxes::{BlankInboxes, Channels};
use std::alloc::Global;
use std::marker::Brand;
use std::process::Abort;
use std::sync::Wait;
use std::test::Fail;
use std::thread::Threads;
use workers::PendingRequest;

/// What a test does with a new cluster.
#[derive(Drop)]
pub(crate) enum Story {
    /// Batches are committed in order over this number of resolvers.
    InOrder(usize),
    /// Two proxies meet.
    Meetings,
    /// Phases are called in an odd order.
    InOddOrder,
    /// Resolvers are made.
    Numbers,
    /// Requests are brought by hand.
    Asked(&'static [Ask]),
    /// A request is brought to another resolver.
    BroughtToAnother,
    /// A resolver is closed while a thread waits.
    ClosedOnWaiting,
    /// Three threads commit, and then each proxy closes, the last one with this answer.
    ByThree(Commit),
    /// The resolvers have inboxes.
    OfInboxes(InboxStory),
}

/// What a test does with the inboxes of a new cluster.
#[derive(Drop)]
pub(crate) enum InboxStory {
    /// Ends and requests come to others.
    Misplaced,
    /// A gate holds a resolver back.
    Gated,
    /// Requests are asked again.
    Repeated,
    /// Requests for a later record come before those for an earlier one.
    LaterFirst,
    /// A request is still held back when all have ended.
    LeftHeld,
    /// Proxies follow a plan.
    Planned(&'static Trial),
}

/// Tells the story of a new cluster over the ledger, with resolvers of these numbers.
pub(crate) fn tell<R: Abort + AllocGlobal + Threads + Wait + Sync>(
    rt: &R,
    alloc: Global,
    blank: BlankLedger,
    numbers: &[usize],
    story: &Story,
) -> Result<(), Fail> {
    tell_over::<Brand, _>(rt, alloc, blank, numbers, story)
}

/// Names the ledger, makes the cluster, and tells the story.
fn tell_over<N: Naming + Send + Sync, R: Abort + AllocGlobal + Threads + Wait + Sync>(
    rt: &R,
    alloc: Global,
    blank: BlankLedger,
    numbers: &[usize],
    story: &Story,
) -> Result<(), Fail>
    requires { blank ≡ N.cells }
{
    let ledger = blank.named::<N>();
    let cluster = Cluster::new(alloc, &ledger, numbers)?;
    tell_of(rt, alloc, &cluster, story)
}

/// Tells the story of the cluster.
fn tell_of<N: Naming + Send + Sync, R: Abort + AllocGlobal + Threads + Wait + Sync>(
    rt: &R,
    alloc: Global,
    cluster: &Cluster<'_, N>,
    story: &Story,
) -> Result<(), Fail> {
    match story {
        Story::InOrder(resolvers) => commit_in_order(rt, alloc, cluster, *resolvers),
        Story::Meetings => meet_twice(rt, alloc, cluster),
        Story::InOddOrder => go_in_odd_order(rt, alloc, cluster),
        Story::Numbers => {
            are_numbered(rt, alloc, cluster);
            Ok(())
        }
        Story::Asked(asks) => ask_by_hand(rt, alloc, cluster, *asks),
        Story::BroughtToAnother => bring_to_another(rt, alloc, cluster),
        Story::ClosedOnWaiting => close_on_waiting(rt, alloc, cluster),
        Story::ByThree(last) => commit_and_close(rt, alloc, cluster, *last),
        Story::OfInboxes(story) => tell_with_inboxes(rt, alloc, cluster, story),
    }
}

/// Makes the inboxes of the cluster, and tells the story.
fn tell_with_inboxes<N: Naming + Send + Sync, R: Abort + AllocGlobal + Threads + Wait + Sync>(
    rt: &R,
    alloc: Global,
    cluster: &Cluster<'_, N>,
    story: &InboxStory,
) -> Result<(), Fail> {
    let blank = BlankInboxes::new(alloc, cluster.ledger)?;
    tell_with::<N, Brand, _>(rt, alloc, cluster, blank, story)
}

/// Names the inboxes, and tells the story.
fn tell_with<
    N: Naming + Send + Sync,
    M: Channels + Send + Sync,
    R: Abort + AllocGlobal + Threads + Wait + Sync,
>(
    rt: &R,
    alloc: Global,
    cluster: &Cluster<'_, N>,
    blank: BlankInboxes<N, PendingRequest<N>>,
    story: &InboxStory,
) -> Result<(), Fail>
    requires { blank ≡ M.places }
{
    let inboxes = Inboxes::<N, M>::new(alloc, cluster.ledger, blank)?;
    match story {
        InboxStory::Misplaced => misplace_ends(rt, alloc, cluster, inboxes),
        InboxStory::Gated => hold_back(rt, alloc, cluster, inboxes),
        InboxStory::Repeated => repeat(rt, alloc, cluster, inboxes),
        InboxStory::LaterFirst => ask_later_first(rt, alloc, cluster, inboxes),
        InboxStory::LeftHeld => leave_held(rt, alloc, cluster, inboxes),
        InboxStory::Planned(trial) => try_out(rt, alloc, cluster, inboxes, *trial),
    }
}
