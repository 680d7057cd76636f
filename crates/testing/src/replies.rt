//! State transactions, as a request carries them, as a reply tells them and in a row of the journal.

use crate::lists::{list, room};
use crate::transactions::{Content, changes};
use model::{Carried, JournalRow, Reply, StateTxn, UnseenRow, UnseenState, Verdict};
use std::alloc::Global;
use std::test::Fail;
use system_keys::{Items, SharedItems};

/// A state transaction of an unseen row: the resolver's verdict, and the content.
pub type UnseenLine<'a> = (Verdict, Content<'a>);

/// An unseen row: its version and its state transactions.
pub type UnseenRowLine<'a> = (u64, &'a [UnseenLine<'a>]);

/// A state transaction of the journal: the verdict of each resolver, and the content.
pub type StateLine<'a> = (&'a [Verdict], Content<'a>);

/// A reply as plain data.
#[derive(Clone, Copy)]
pub struct ReplyLine<'a> {
    /// The resolver that replies.
    pub resolver: usize,
    /// The proxy that asked.
    pub proxy: usize,
    /// The row of the record.
    pub row: usize,
    /// The version of the record.
    pub version: u64,
    /// The verdicts on the share.
    pub verdicts: &'a [Verdict],
    /// The rows that the proxy has not seen.
    pub unseen: &'a [UnseenRowLine<'a>],
}

/// The content of a state transaction.
pub fn content_of_line(alloc: Global, content: Content<'_>) -> Result<Carried, Fail> {
    let (lines, lock_aware) = content;
    let mutations = SharedItems::new(alloc, changes(alloc, lines)?)?;
    Ok(Carried {
        mutations,
        lock_aware,
    })
}

/// The content, if it is wanted.
pub fn content_if_wanted(
    alloc: Global,
    is_wanted: bool,
    content: Content<'_>,
) -> Result<Option<Carried>, Fail> {
    if is_wanted {
        Ok(Some(content_of_line(alloc, content)?))
    } else {
        Ok(None)
    }
}

fn unseen_state(alloc: Global, carries: bool, told: UnseenLine<'_>) -> Result<UnseenState, Fail> {
    let (verdict, content) = told;
    let carried = content_if_wanted(alloc, carries, content)?;
    Ok(UnseenState { verdict, carried })
}

fn unseen_row(alloc: Global, carries: bool, told: UnseenRowLine<'_>) -> Result<UnseenRow, Fail> {
    let (version, lines) = told;
    let mut states = room(alloc, lines.len())?;
    for line in lines {
        states.push(unseen_state(alloc, carries, *line)?)?;
    }
    let states = Items::from(states);
    Ok(UnseenRow { version, states })
}

/// The unseen rows, with the content of each state transaction or with none.
pub fn unseen_rows(
    alloc: Global,
    carries: bool,
    told: &[UnseenRowLine<'_>],
) -> Result<Items<UnseenRow>, Fail> {
    let mut rows = room(alloc, told.len())?;
    for row in told {
        rows.push(unseen_row(alloc, carries, *row)?)?;
    }
    Ok(Items::from(rows))
}

/// The reply, with the content of each state transaction or with none.
pub fn reply_with_content(
    alloc: Global,
    carries: bool,
    line: ReplyLine<'_>,
) -> Result<Reply, Fail> {
    let unseen = SharedItems::new(alloc, unseen_rows(alloc, carries, line.unseen)?)?;
    let verdicts = Items::from(list(alloc, line.verdicts)?);
    Ok(Reply {
        resolver: line.resolver,
        proxy: line.proxy,
        row: line.row,
        version: line.version,
        verdicts,
        unseen,
    })
}

/// The reply, in which resolver 0 alone has the content of state transactions.
pub fn reply(alloc: Global, line: ReplyLine<'_>) -> Result<Reply, Fail> {
    reply_with_content(alloc, line.resolver == 0, line)
}

fn state(alloc: Global, joined: StateLine<'_>) -> Result<StateTxn, Fail> {
    let (verdicts, (lines, lock_aware)) = joined;
    let mutations = SharedItems::new(alloc, changes(alloc, lines)?)?;
    let verdicts = Items::from(list(alloc, verdicts)?);
    Ok(StateTxn {
        mutations,
        lock_aware,
        verdicts,
    })
}

/// The row of the journal with these state transactions.
pub fn journal_row(
    alloc: Global,
    version: u64,
    lines: &[StateLine<'_>],
) -> Result<JournalRow, Fail> {
    let mut states = room(alloc, lines.len())?;
    for line in lines {
        states.push(state(alloc, *line)?)?;
    }
    let states = Items::from(states);
    Ok(JournalRow { version, states })
}
