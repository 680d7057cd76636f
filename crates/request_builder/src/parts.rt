//! The parts of a batch's transactions that one resolver gets.

ghost use Rattle.std.specs.Prelude.{◌≡◌, ◌∷◌, ◌++◌, [], if◌then◌else◌, length, IfOk, OnOk};
ghost use Rattle.system_keys.specs.Keys.{only};
ghost use Rattle.model.specs.Parts.{ArePlacesIn, at_places};
ghost use Rattle.model.specs.Transactions.{locked_key};
ghost use Rattle.model.specs.Journal.{list_at};
ghost use Rattle.request_builder.specs.AskedResolvers.{is_in, ranges_for, part_for, is_part_sent};
ghost use Rattle.request_builder.specs.AskedResolvers.{sent_part, parts_for};

use crate::asked_resolvers::{AskedResolvers, lock_row_ranges};
use dated_owners::ResolverSet;
use model::{Part, Places, ResolverNumber, TransactionNumber};
use mutation::Stamped;
use std::alloc::Global;
use system_keys::{Items, KeyRange, OutOfMemory};

/// The parts of the transactions that the resolver gets, in the order of the batch.
pub(crate) fn parts_for(
    alloc: Global,
    resolver: ResolverNumber,
    batch: &[Stamped],
    askings: &[AskedResolvers],
) -> Result<Vec<Part>, OutOfMemory>
    requires { length askings.now ≡ length batch.now }
    ensures { IfOk result (λ parts. parts.items ≡ parts_for resolver 0 batch.now askings.now) }
{
    let mut parts = Vec::new(alloc);
    for (number, transaction) in batch.iter().enumerate() {
        let asking = &askings[number];
        let part = part_for(alloc, resolver, number, transaction, asking)?;
        push_if_sent(&mut parts, asking.is_state, part)?;
    }
    Ok(parts)
}

/// Adds the part, if it is sent.
fn push_if_sent(parts: &mut Vec<Part>, is_state: bool, part: Part) -> Result<(), OutOfMemory>
    ensures { OnOk result (parts.new.items ≡ parts.old.items ++ sent_part is_state part) }
{
    if is_part_sent(is_state, &part) {
        parts.push(part)?;
    }
    Ok(())
}

/// Whether the part is sent: it has a range, or its transaction is a state transaction.
fn is_part_sent(is_state: bool, part: &Part) -> bool
    ensures { result ≡ is_part_sent is_state part.now }
{
    is_state || part.read_count() != 0 || part.write_count() != 0
}

/// The part of the transaction that the resolver gets. It shares the ranges.
fn part_for(
    alloc: Global,
    resolver: ResolverNumber,
    number: TransactionNumber,
    transaction: &Stamped,
    asking: &AskedResolvers,
) -> Result<Part, OutOfMemory>
    ensures { IfOk result (λ part. part ≡ part_for resolver number transaction.now asking.now) }
{
    let ranges = transaction.ranges().copy()?;
    let reads = asked_places(alloc, resolver, ranges.reads(), asking.reads.as_slice())?;
    let lock = asked_lock_row(alloc, resolver, asking.lock.as_slice())?;
    let writes = asked_places(alloc, resolver, ranges.writes(), asking.writes.as_slice())?;
    Ok(Part::at_places(number, transaction.snapshot(), ranges, reads, lock, writes))
}

/// The range of the lock row, if there is a set for it, and that has the resolver.
fn asked_lock_row(
    alloc: Global,
    resolver: ResolverNumber,
    sets: &[ResolverSet],
) -> Result<Items<KeyRange>, OutOfMemory>
    ensures { IfOk result (λ row. row ≡ ranges_for resolver (only locked_key ∷ []) sets.now) }
{
    if is_asked(resolver, sets, 0) {
        let row = lock_row_ranges(alloc)?;
        Ok(Items::from(row))
    } else {
        Ok(Items::from(Vec::new(alloc)))
    }
}

/// The places of the ranges whose sets have the resolver.
fn asked_places(
    alloc: Global,
    resolver: ResolverNumber,
    ranges: &[KeyRange],
    sets: &[ResolverSet],
) -> Result<Places, OutOfMemory>
    ensures places { IfOk result (λ places. ArePlacesIn ranges.now places) }
    ensures ranges { IfOk result
        (λ places. at_places ranges.now places ≡ ranges_for resolver ranges.now sets.now) }
{
    let mut places = Places::new(alloc);
    for place in 0..ranges.len() {
        push_if_asked(&mut places, is_asked(resolver, sets, place), place)?;
    }
    Ok(places)
}

/// Adds the place, if its range is asked for.
fn push_if_asked(places: &mut Places, is_asked: bool, place: usize) -> Result<(), OutOfMemory>
    ensures { OnOk result
        (places.new ≡ places.old ++ (if is_asked then place ∷ [] else [])) }
{
    if is_asked {
        places.push(place)?;
    }
    Ok(())
}

/// Whether the set at this place has the resolver.
fn is_asked(resolver: ResolverNumber, sets: &[ResolverSet], place: usize) -> bool
    ensures { result ≡ is_in resolver (list_at sets.now place) }
{
    match sets.get(place) {
        Some(set) => set.has(resolver),
        None => false,
    }
}
