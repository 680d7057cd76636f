//! Tests of the replies that a proxy collects, of their least verdict, and of refusals.

use crate::tests::of_proxy_state::{COMMITTED, no_replies};
use crate::tests::{Copied, copy_of};
use model::Reply;
use proxy_state::{Refusal, Replies, Verdict, join};
use std::alloc::Global;
use std::process::Abort;
use std::test::Fail;
use system_keys::{OutOfMemory, SharedItems};
use testing::none;

/// Each refusal with the number and the name that are printed.
const PRINTED: &[(Refusal, Option<u32>, &str)] = &[
    (Refusal::WrongResolver, Some(33), "WrongResolver"),
    (Refusal::NotMine, Some(40), "NotMine"),
    (Refusal::OutOfOrder { expected: 10 }, Some(41), "OutOfOrder"),
    (Refusal::OutOfTurn { expected: None }, Some(42), "OutOfTurn"),
    (
        Refusal::MissingReply { resolver: 1 },
        Some(43),
        "MissingReply",
    ),
    (
        Refusal::RepliesDisagree { version: 10 },
        Some(44),
        "RepliesDisagree",
    ),
    (Refusal::NotReached { version: 0 }, Some(45), "NotReached"),
    (
        Refusal::DoubleReply { resolver: 1 },
        Some(46),
        "DoubleReply",
    ),
    (Refusal::OutOfMemory, None, "OutOfMemory"),
];

#[test]
fn refusals_have_their_numbers_and_names(rt: HostRuntime) {
    for (refusal, number, name) in PRINTED {
        assert!(rt; refusal.number() == *number && refusal.name() == *name);
    }
}

const LEAST: &[(&[Verdict], Verdict)] = &[
    (&[], COMMITTED),
    (&[COMMITTED, Verdict::TooOld], Verdict::TooOld),
    (
        &[Verdict::TooOld, Verdict::Conflict, COMMITTED],
        Verdict::Conflict,
    ),
];

#[test]
fn the_least_verdict_is_the_answer(rt: HostRuntime) {
    for (verdicts, least) in LEAST {
        assert!(rt; join(*verdicts) == *least);
    }
}

/// A reply to row 0 without verdicts. The proxy's number tells it from others.
fn reply_of(alloc: Global, resolver: usize, proxy: usize) -> Result<Reply, Fail> {
    Ok(Reply {
        resolver,
        proxy,
        row: 0,
        version: 10,
        verdicts: none(alloc),
        unseen: SharedItems::new(alloc, none(alloc))?,
    })
}

const DOUBLE_0: Refusal = Refusal::DoubleReply { resolver: 0 };

const DOUBLE_1: Refusal = Refusal::DoubleReply { resolver: 1 };

/// Resolvers that reply in order, and why each reply is refused, if it is.
type Puts = &'static [(usize, Option<Refusal>)];

const FIRST: Puts = &[
    (1, None),
    (2, Some(Refusal::WrongResolver)),
    (1, Some(DOUBLE_1)),
];

const REST: Puts = &[
    (0, None),
    (0, Some(DOUBLE_0)),
    (usize::MAX, Some(Refusal::WrongResolver)),
    (1, Some(DOUBLE_1)),
];

/// Why the reply is refused, if it is, and the numbers of the one that comes back.
fn refused(replies: &mut Replies, reply: Reply) -> Option<(Refusal, usize, usize)> {
    match replies.put(reply) {
        Ok(()) => None,
        Err((refusal, back)) => Some((refusal, back.resolver, back.proxy)),
    }
}

/// The replies are put, and each that is refused comes back.
fn put_each<R: Abort + AllocGlobal>(rt: &R, replies: &mut Replies, puts: Puts) -> Result<(), Fail> {
    for (place, (resolver, refusal)) in puts.iter().enumerate() {
        let refused = refused(replies, reply_of(rt.alloc(), *resolver, place)?);
        let wanted = refusal.map(|refusal| (refusal, *resolver, place));
        assert!(rt; refused == wanted, "reply {place}");
    }
    Ok(())
}

impl Copied for Replies {
    fn copied(&self) -> Result<Replies, OutOfMemory> {
        self.copy()
    }
}

/// A copy is filled alone, and the replies after it.
fn fills_alone<R: Abort + AllocGlobal>(rt: &R, replies: &mut Replies) -> Result<(), Fail> {
    put_each(rt, replies, FIRST)?;
    let mut copy = copy_of(rt.alloc(), replies)?;
    put_each(rt, &mut copy, REST)?;
    put_each(rt, replies, REST)
}

#[test]
fn each_resolver_replies_once(rt: HostRuntime) -> Result<(), Fail> {
    let mut replies = no_replies(rt.alloc())?;
    fills_alone(&rt, &mut replies)
}
