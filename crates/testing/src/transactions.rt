//! Mutations, transactions and batches.

use crate::key_ranges::{Ends, given_ranges, range};
use crate::lists::{bytes, none, one, room};
use crate::shares::PartLine;
use mutation::{Admitted, Batch, Mutation, Transaction, admit};
use std::alloc::{AllocError, Global};
use std::test::Fail;
use system_keys::{Change, Items};

/// A mutation as plain data.
#[derive(Clone, Copy)]
pub enum MutationLine<'a> {
    /// A Set of the key to the value.
    Set(&'a [u8], &'a [u8]),
    /// A Clear from the one key up to the other.
    Clear(&'a [u8], &'a [u8]),
    /// A SetStamped of the key to the value.
    SetStamped(&'a [u8], &'a [u8]),
}

/// What a transaction changes, and whether it is lock aware.
pub type Content<'a> = (&'a [MutationLine<'a>], bool);

/// A transaction as plain data.
#[derive(Clone, Copy)]
pub struct TransactionLine<'a> {
    /// The version that it read at.
    pub snapshot: u64,
    /// What it read.
    pub reads: &'a [Ends<'a>],
    /// What it wants to write.
    pub writes: &'a [Ends<'a>],
    /// What it wants to change.
    pub mutations: &'a [MutationLine<'a>],
    /// Whether it may commit while the database is locked.
    pub lock_aware: bool,
}

/// A transaction with nothing in it, at snapshot 0 and not lock aware.
pub const EMPTY_TRANSACTION: TransactionLine<'static> = TransactionLine {
    snapshot: 0,
    reads: &[],
    writes: &[],
    mutations: &[],
    lock_aware: false,
};

/// The mutation, unchecked.
pub fn mutation(alloc: Global, line: MutationLine<'_>) -> Result<Mutation, AllocError> {
    Ok(match line {
        MutationLine::Set(key, value) => Mutation::Set {
            key: bytes(alloc, key)?,
            value: bytes(alloc, value)?,
        },
        MutationLine::Clear(begin, end) => Mutation::Clear {
            begin: bytes(alloc, begin)?,
            end: bytes(alloc, end)?,
        },
        MutationLine::SetStamped(key, value) => Mutation::SetStamped {
            key: bytes(alloc, key)?,
            value: bytes(alloc, value)?,
        },
    })
}

/// The mutations, unchecked.
pub fn mutations(alloc: Global, lines: &[MutationLine<'_>]) -> Result<Items<Mutation>, AllocError> {
    let mut list = room(alloc, lines.len())?;
    for line in lines {
        list.push(mutation(alloc, *line)?)?;
    }
    Ok(Items::from(list))
}

/// The change, whose range has no fault. There is none with a stamp.
pub fn change(alloc: Global, line: MutationLine<'_>) -> Result<Change, Fail> {
    match line {
        MutationLine::Set(key, value) => Ok(Change::Set {
            key: bytes(alloc, key)?,
            value: bytes(alloc, value)?,
        }),
        MutationLine::Clear(begin, end) => Ok(Change::clear(range(alloc, begin, end)?)),
        MutationLine::SetStamped(_, _) => Err(Fail::from("a change has no stamp")),
    }
}

/// The changes, whose ranges have no fault.
pub fn changes(alloc: Global, lines: &[MutationLine<'_>]) -> Result<Items<Change>, Fail> {
    let mut list = room(alloc, lines.len())?;
    for line in lines {
        list.push(change(alloc, *line)?)?;
    }
    Ok(Items::from(list))
}

/// The transaction, unchecked.
pub fn transaction(alloc: Global, given: TransactionLine<'_>) -> Result<Transaction, AllocError> {
    Ok(Transaction {
        snapshot: given.snapshot,
        reads: given_ranges(alloc, given.reads)?,
        writes: given_ranges(alloc, given.writes)?,
        mutations: mutations(alloc, given.mutations)?,
        lock_aware: given.lock_aware,
    })
}

/// The transaction of this mutation alone, unchecked, at snapshot 0 and lock aware.
pub fn transaction_of(alloc: Global, line: MutationLine<'_>) -> Result<Transaction, AllocError> {
    Ok(Transaction {
        snapshot: 0,
        reads: none(alloc),
        writes: none(alloc),
        mutations: one(alloc, mutation(alloc, line)?)?,
        lock_aware: true,
    })
}

/// The transaction, which has no fault.
pub fn admit_line(alloc: Global, given: TransactionLine<'_>) -> Result<Admitted, Fail> {
    Ok(admit(alloc, &transaction(alloc, given)?)?)
}

/// The batch of these transactions, which have no fault.
pub fn batch(alloc: Global, transactions: &[TransactionLine<'_>]) -> Result<Batch, Fail> {
    let mut list = room(alloc, transactions.len())?;
    for given in transactions {
        list.push(admit_line(alloc, *given)?)?;
    }
    batch_of(list)
}

/// The batch of these transactions, which are not too many.
pub fn batch_of(transactions: Vec<Admitted>) -> Result<Batch, Fail> {
    match Batch::new(transactions) {
        Ok(batch) => Ok(batch),
        Err(refused) => Err(Fail::from(refused.0)),
    }
}

/// The transaction without mutations, of these ranges, and not lock aware.
fn plain(alloc: Global, line: PartLine<'_>) -> Result<Transaction, AllocError> {
    let (snapshot, reads, writes) = line;
    Ok(Transaction {
        snapshot,
        reads: given_ranges(alloc, reads)?,
        writes: given_ranges(alloc, writes)?,
        mutations: none(alloc),
        lock_aware: false,
    })
}

/// The batch of transactions without mutations, which have no fault.
pub fn plain_batch(alloc: Global, lines: &[PartLine<'_>]) -> Result<Batch, Fail> {
    let mut list = room(alloc, lines.len())?;
    for line in lines {
        list.push(admit(alloc, &plain(alloc, *line)?)?)?;
    }
    batch_of(list)
}

/// The transaction of this content, without ranges, at snapshot 0.
fn content_transaction(alloc: Global, content: Content<'_>) -> Result<Transaction, AllocError> {
    let (lines, lock_aware) = content;
    Ok(Transaction {
        snapshot: 0,
        reads: none(alloc),
        writes: none(alloc),
        mutations: mutations(alloc, lines)?,
        lock_aware,
    })
}

/// The batch of transactions without ranges, which have no fault.
pub fn content_batch(alloc: Global, contents: &[Content<'_>]) -> Result<Batch, Fail> {
    let mut list = room(alloc, contents.len())?;
    for content in contents {
        list.push(admit(alloc, &content_transaction(alloc, *content)?)?)?;
    }
    batch_of(list)
}
