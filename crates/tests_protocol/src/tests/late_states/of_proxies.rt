//! Tests of proxy_state: copies of the replies of three resolvers.

use crate::tests::are_alike;
use model::Config;
use proxy_state::{Replies, Verdict};
use std::alloc::Global;
use std::test::Fail;
use testing::{MutationLine, ReplyLine, reply};

/// A reply to a record of proxy 2, which tells it of a row.
const REPLY: ReplyLine<'static> = ReplyLine {
    resolver: 0,
    proxy: 2,
    row: 1,
    version: 20,
    verdicts: &[Verdict::Committed, Verdict::TooOld],
    unseen: &[(
        10,
        &[(
            Verdict::Conflict,
            (&[MutationLine::Set(b"\xff/dbLocked", b"L")], true),
        )],
    )],
};

/// The replies of three resolvers.
fn three_replies(alloc: Global) -> Result<Replies, Fail> {
    let config = Config::new(3, 3, 100, 10)?;
    let mut replies = Replies::new(alloc, &config)?;
    for resolver in 0..3usize {
        let reply = reply(alloc, ReplyLine { resolver, ..REPLY })?;
        if let Err((refusal, _)) = replies.put(reply) {
            return Err(Fail::from(refusal));
        }
    }
    Ok(replies)
}

/// Whether a copy of the replies holds the same.
fn are_copied(alloc: Global, replies: &Replies) -> Result<bool, Fail> {
    let copy = replies.copy()?;
    Ok(are_alike(alloc, replies, &copy)?)
}

#[test]
fn the_replies_of_three_resolvers_are_copied(rt: HostRuntime) -> Result<(), Fail> {
    let replies = three_replies(rt.alloc())?;
    assert!(rt; are_copied(rt.alloc(), &replies)?);
    Ok(())
}
