//! For each transaction the resolvers that its reads and writes ask.

ghost use Rattle.std.specs.Prelude.{◌≡◌, ◌∷◌, [], ◌&&◌, length, map, IfOk};
ghost use Rattle.system_keys.specs.Keys.{only};
ghost use Rattle.model.specs.Transactions.{locked_key, lock_read};
ghost use Rattle.dated_owners.specs.Flags.{Flags};
ghost use Rattle.request_builder.specs.AskedResolvers.{AreReadersBackTo};
ghost use Rattle.request_builder.specs.AskedResolvers.{AreReaderLists, AreWriterLists};
ghost use Rattle.request_builder.specs.AskedResolvers.{AreAskedResolvers, AreAllAskedResolvers};
ghost use Rattle.request_builder.specs.AskedResolvers.{is_in_some, is_asked_about, asked_by};

use dated_owners::{OwnerMap, ResolverFlags, ResolverSet};
use model::{ResolverNumber, Version};
use mutation::Stamped;
use std::alloc::Global;
use system_keys::{Items, KeyRange, LOCKED_KEY, OutOfMemory};

/// The resolvers that are asked about each range of a transaction.
#[derive(Drop)]
pub(crate) struct AskedResolvers {
    /// Whether it is a state transaction, which every resolver gets.
    pub(crate) is_state: bool,
    /// One set for each range that it reads.
    pub(crate) reads: Items<ResolverSet>,
    /// One set for the read of the lock row that is added, if it is added.
    pub(crate) lock: Items<ResolverSet>,
    /// One set for each range that it writes.
    pub(crate) writes: Items<ResolverSet>,
}

/// The keys of the lock row: one range. Most batches have no use for it.
pub(crate) fn lock_row_ranges(alloc: Global) -> Result<Vec<KeyRange>, OutOfMemory>
    ensures { IfOk result (λ row. row.items ≡ only locked_key ∷ []) }
{
    let begin = Vec::from_slice(alloc, LOCKED_KEY)?;
    let mut end = Vec::from_slice(alloc, LOCKED_KEY)?;
    end.push(0)?;
    let Ok(range) = KeyRange::new(begin, end) else {
        unreachable!();
    };
    let mut row = Vec::with_capacity(alloc, 1)?;
    row.push(range)?;
    Ok(row)
}

/// Whom the map asks about each transaction of the batch, by owners back to `oldest`. Each range is
/// asked about once.
pub(crate) fn all_asked_resolvers(
    alloc: Global,
    owners: &OwnerMap,
    oldest: Version,
    batch: &[Stamped],
) -> Result<Vec<AskedResolvers>, OutOfMemory>
    ensures length { IfOk result (λ askings. length askings.items ≡ length batch.now) }
    ensures asked { IfOk result (λ askings.
        AreAllAskedResolvers oldest owners.now batch.now askings.items) }
{
    let mut askings = Vec::with_capacity(alloc, batch.len())?;
    for transaction in batch {
        askings.push(resolvers_asked_about(alloc, owners, oldest, transaction)?)?;
    }
    Ok(askings)
}

/// Whom the map asks about a transaction.
fn resolvers_asked_about(
    alloc: Global,
    owners: &OwnerMap,
    oldest: Version,
    transaction: &Stamped,
) -> Result<AskedResolvers, OutOfMemory>
    ensures { IfOk result (λ asking. AreAskedResolvers oldest owners.now transaction.now asking) }
{
    let is_state = transaction.is_state();
    let snapshot = transaction.snapshot();
    let is_added = is_state && !transaction.lock_aware();
    Ok(AskedResolvers {
        is_state,
        reads: reader_sets(alloc, owners, oldest, transaction.reads(), snapshot)?,
        lock: lock_row_readers(alloc, owners, oldest, is_added, snapshot)?,
        writes: writer_sets(alloc, owners, transaction.writes())?,
    })
}

/// The resolvers that are asked to read the lock row, if that read is added, and otherwise no set.
fn lock_row_readers(
    alloc: Global,
    owners: &OwnerMap,
    oldest: Version,
    is_added: bool,
    snapshot: Version,
) -> Result<Items<ResolverSet>, OutOfMemory>
    ensures { IfOk result
        (λ sets. AreReaderLists oldest owners.now snapshot (lock_read is_added) sets) }
{
    if is_added {
        let row = lock_row_ranges(alloc)?;
        reader_sets(alloc, owners, oldest, &row, snapshot)
    } else {
        reader_sets(alloc, owners, oldest, &[], snapshot)
    }
}

/// The resolvers that are asked to read each range, back to the snapshot or to `oldest`, whichever is
/// later.
fn reader_sets(
    alloc: Global,
    owners: &OwnerMap,
    oldest: Version,
    ranges: &[KeyRange],
    snapshot: Version,
) -> Result<Items<ResolverSet>, OutOfMemory>
    ensures { IfOk result (λ sets. AreReaderLists oldest owners.now snapshot ranges.now sets) }
{
    let mut sets = Vec::with_capacity(alloc, ranges.len())?;
    for range in ranges {
        sets.push(readers_back_to(owners, oldest, range, snapshot))?;
    }
    Ok(Items::from(sets))
}

/// The resolvers that are asked to read the range, back to the snapshot or to `oldest`.
fn readers_back_to(
    owners: &OwnerMap,
    oldest: Version,
    range: &KeyRange,
    snapshot: Version,
) -> ResolverSet
    ensures { AreReadersBackTo oldest owners.now range.now snapshot result }
{
    owners.readers(range, snapshot.max(oldest))
}

/// The resolvers that are asked to write each range.
fn writer_sets(
    alloc: Global,
    owners: &OwnerMap,
    ranges: &[KeyRange],
) -> Result<Items<ResolverSet>, OutOfMemory>
    ensures { IfOk result (λ sets. AreWriterLists owners.now ranges.now sets) }
{
    let mut sets = Vec::with_capacity(alloc, ranges.len())?;
    for range in ranges {
        sets.push(owners.writers(range))?;
    }
    Ok(Items::from(sets))
}

/// The resolvers that get a part of each transaction, in rising order.
pub(crate) fn asked_lists(
    alloc: Global,
    owners: &OwnerMap,
    askings: &[AskedResolvers],
) -> Result<Items<Items<ResolverNumber>>, OutOfMemory>
    ensures { IfOk result (λ lists. lists ≡ map (asked_by owners.now.resolvers) askings.now) }
{
    let mut lists = Vec::with_capacity(alloc, askings.len())?;
    for asking in askings {
        lists.push(resolvers_asked_by(owners, asking).list(alloc)?)?;
    }
    Ok(Items::from(lists))
}

/// The resolvers that get a part of the transaction.
fn resolvers_asked_by(owners: &OwnerMap, asking: &AskedResolvers) -> ResolverSet
    ensures { result ≡ asked_by owners.now.resolvers asking.now }
{
    let mut flags = ResolverFlags::all(asking.is_state);
    flag_asked(asking, &mut flags);
    owners.flagged(flags)
}

/// Flags the resolvers that are asked about some range.
fn flag_asked(asking: &AskedResolvers, flags: &mut ResolverFlags)
    ensures { Flags flags.old (is_asked_about asking.now) flags.new }
{
    flag_sets(asking.reads.as_slice(), flags);
    flag_sets(asking.lock.as_slice(), flags);
    flag_sets(asking.writes.as_slice(), flags);
}

/// Flags the resolvers of the sets.
fn flag_sets(sets: &[ResolverSet], flags: &mut ResolverFlags)
    ensures { Flags flags.old (λ r. is_in_some r sets.now) flags.new }
{
    for set in sets {
        set.flag_in(flags);
    }
}
