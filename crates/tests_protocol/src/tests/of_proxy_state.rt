//! Tests of proxy_state.

mod collecting;
mod disagreeing;
mod finishing;
mod tested;

ghost use Rattle.std.specs.Prelude.{◌≡◌, IfOk};

use model::Config;
use proxy_state::{Replies, Verdict};
use std::alloc::Global;
use std::test::Fail;
use system_keys::{OutOfMemory, Tag};
use testing::{ReplyLine, reply_with_content, twice};

pub(crate) const LOCK: &[u8] = b"\xff/dbLocked";

pub(crate) const TAG_ROW_1: &[u8] = b"\xff/serverTag/server0000000001";

pub(crate) const TAG_ROW_2: &[u8] = b"\xff/serverTag/server0000000002";

pub(crate) const ROW_OF_ALL: &[u8] = b"\xff/keyServers/";

pub(crate) const SERVER_1: &[u8] = b"\x01server0000000001\x00";

pub(crate) const SERVER_2: &[u8] = b"\x01server0000000002\x00";

pub(crate) const TAG_1: Tag = Tag { locality: 0, id: 1 };

pub(crate) const COMMITTED: Verdict = Verdict::Committed;

/// Two proxies and two resolvers, with versions 10 apart.
fn two_of_each() -> Result<Config, Fail>
    ensures { IfOk result (λ config. config.step ≡ 10) }
{
    Ok(Config::new(2, 2, 100, 10)?)
}

fn no_replies(alloc: Global) -> Result<Replies, Fail> {
    let config = two_of_each()?;
    Ok(twice!(alloc; Replies::new(alloc, &config), OutOfMemory)?)
}

/// Puts the replies, of which those of the carriers have the content of state transactions.
fn put_all(
    alloc: Global,
    replies: &mut Replies,
    carriers: &[usize],
    lines: &[ReplyLine<'_>],
) -> Result<(), Fail> {
    for line in lines {
        let reply = reply_with_content(alloc, carriers.contains(&line.resolver), *line)?;
        if let Err((refusal, _)) = replies.put(reply) {
            return Err(Fail::from(refusal));
        }
    }
    Ok(())
}

fn replies_of(alloc: Global, carriers: &[usize], lines: &[ReplyLine<'_>]) -> Result<Replies, Fail> {
    let mut replies = no_replies(alloc)?;
    put_all(alloc, &mut replies, carriers, lines)?;
    Ok(replies)
}
