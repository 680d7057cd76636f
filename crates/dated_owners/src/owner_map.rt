//! The map of owners, as its callers see it: ranges move, the resolvers asked about a range are
//! found, and old owners are forgotten.

ghost use Rattle.std.specs.Prelude.{◌≡◌, ◌≤◌, [], max, filter, IfOk, OnOk, IfErr, OnErr};
ghost use Rattle.model.specs.declared.moves.Move.{Move};
ghost use Rattle.model.specs.OwnerMaps.{StandsForMoves};
ghost use Rattle.dated_owners.specs.Pieces.{CountsPieces};
ghost use Rattle.dated_owners.specs.Answers.{AddsOwner, IsMoved, KeepsMoves, KeepsAsking, WalksAlike};
ghost use Rattle.dated_owners.specs.Answers.{AreReaders, AreWriters};
ghost use Rattle.model.specs.Shares.{each_below};
ghost use Rattle.dated_owners.specs.Flags.{is_flagged};
ghost use Rattle.dated_owners.specs.Walks.{asked_resolvers};
ghost use Rattle.dated_owners.specs.Refusals.{move_fault, refusal_fault};

use crate::flags::ResolverFlags;
use crate::later_owners::{LaterOwner, LaterOwners};
use crate::pieces::{Pieces, add_owner, count_owners, count_pieces, merge, sweep};
use crate::refusal::Refusal;
use crate::resolver_set::ResolverSet;
use crate::walks::{Walk, asked_resolvers};
use model::{ResolverNumber, Version};
use std::alloc::{AllocError, Global};
use std::collections::BTreeMap;
use std::marker::Model;
use system_keys::{Bytes, Items, KeyRange, OutOfMemory};

/// How many pieces are paid for by a move: each of its two ends makes one, which is swept a few
/// times.
const PAID_BY_MOVE: usize = 8;

/// Fewer owners than these are not merged.
const FEW_OWNERS: usize = 64;

/// The owners of every key, with the date from which each owned it.
///
/// Contracts say which lists of moves the map stands for, and not how it keeps them.
#[derive(Debug, Drop)]
pub struct OwnerMap {
    resolvers: usize,
    last_date: Version,
    oldest: Version,
    pieces: Pieces,
    /// Room for the longest list of owners.
    spare: LaterOwners,
    /// No sweep is tried before `oldest` is above this date.
    due: Version,
    /// How many pieces the moves and the calls of `forget` since the last sweep have paid for.
    paid: usize,
    /// How many owners moves have added to pieces since the last merge.
    added: usize,
    /// How many owners the last merge left.
    left: usize,
}

impl Model for OwnerMap {
    ghost use Rattle.std.specs.Prelude.{◌≤◌};
    ghost use Rattle.model.specs.OwnerMaps.{OwnerMapView};
    ghost use Rattle.dated_owners.specs.Starts.{moves_of, AreKept};

    ghost Value = { OwnerMapView };

    ghost view = { λ map. record {
      resolvers = map.resolvers;
      last_date = map.last_date;
      oldest = map.oldest;
      moves = moves_of map.pieces.entries;
    } };

    ghost invariant = { λ map. (map.resolvers ≤ 64) × AreKept map.pieces.entries };
}

impl OwnerMap {
    /// Returns the map before any move: resolver 0 owns every key. `resolvers` is the number of
    /// resolvers, from 1 to 64. Fails only with `OutOfMemory`.
    pub fn new(alloc: Global, resolvers: usize) -> Result<OwnerMap, OutOfMemory>
        requires { (1 ≤ resolvers) × (resolvers ≤ 64) }
        ensures resolvers { IfOk result (λ map. map.resolvers ≡ resolvers) }
        ensures oldest { IfOk result (λ map. map.oldest ≡ 0) }
        ensures stands { IfOk result (λ map. StandsForMoves map []) }
    {
        Ok(OwnerMap {
            resolvers,
            last_date: 0,
            oldest: 0,
            pieces: BTreeMap::new(alloc),
            spare: LaterOwners::new(alloc),
            due: Version::MAX,
            paid: 0,
            added: 0,
            left: 0,
        })
    }

    /// Returns the number of resolvers.
    pub fn resolvers(&self) -> usize
        ensures { result ≡ self.now.resolvers }
    {
        self.resolvers
    }

    /// Returns the date of the last move that was made, or 0 if there is none.
    pub fn last_date(&self) -> Version
        ensures { result ≡ self.now.last_date }
    {
        self.last_date
    }

    /// Returns the oldest version remembered.
    pub fn oldest(&self) -> Version
        ensures { result ≡ self.now.oldest }
    {
        self.oldest
    }

    /// Gives the keys of `range` to resolver `dest`, from version `date` on.
    ///
    /// Fails with `NoSuchResolver` if `dest` is not below the number of resolvers, otherwise with
    /// `DateGoesBack` if `date` is below the date of the last move (an equal date is allowed), and
    /// otherwise only with `OutOfMemory`. Each failure leaves the map unchanged.
    pub fn move_range(
        &mut self,
        range: &KeyRange,
        date: Version,
        dest: ResolverNumber,
    ) -> Result<(), Refusal>
        ensures moved { let m : Move = record { range = range.now; date = date; dest = dest } in
            OnOk result (IsMoved self.old m self.new) }
        ensures refused { let fault = move_fault self.old date dest in
            IfErr result (λ refusal. refusal_fault refusal ≡ fault) }
        ensures err { OnErr result (self.new ≡ self.old) }
    {
        if self.resolvers <= dest {
            return Err(Refusal::NoSuchResolver);
        }
        if date < self.last_date {
            return Err(Refusal::DateGoesBack);
        }
        self.add_move(range, date, dest)?;
        Ok(())
    }

    /// Adds an owner at each key of the range.
    fn add_move(
        &mut self,
        range: &KeyRange,
        date: Version,
        dest: ResolverNumber,
    ) -> Result<(), OutOfMemory>
        ensures ok { let m : Move = record { range = range.now; date = date; dest = dest } in
            OnOk result (AddsOwner self.old m self.new) }
        ensures date { OnOk result (self.new.last_date ≡ date) }
        ensures resolvers { self.new.resolvers ≡ self.old.resolvers }
        ensures oldest { self.new.oldest ≡ self.old.oldest }
        ensures err { OnErr result (self.new ≡ self.old) }
    {
        let begin = Bytes::from_slice(self.spare.alloc(), range.begin())?;
        let end = range.end_bytes();
        let owner = LaterOwner {
            date,
            resolver: dest,
        };
        let grown = add_owner(&mut self.pieces, &mut self.spare, &begin, end, owner)?;
        self.last_date = date;
        self.due = self.due.min(date);
        self.paid = self.paid.saturating_add(PAID_BY_MOVE);
        self.added = self.added.saturating_add(grown);
        Ok(())
    }

    /// Returns the resolvers that a read of `range` at version `snapshot` asks, in rising order.
    ///
    /// It asks the owners of each key, from the newest back to the first one dated below `snapshot`
    /// or below the oldest version remembered (this project's profile). Fails only with
    /// `OutOfMemory`.
    pub fn read_owners(
        &self,
        range: &KeyRange,
        snapshot: Version,
    ) -> Result<Items<ResolverNumber>, OutOfMemory>
        ensures { IfOk result (λ list. AreReaders self.now range.now snapshot list) }
    {
        self.readers(range, snapshot).list(self.spare.alloc())
    }

    /// Returns the same resolvers as [`OwnerMap::read_owners`], as a set. Allocates nothing.
    pub fn readers(&self, range: &KeyRange, snapshot: Version) -> ResolverSet
        ensures { AreReaders self.now range.now snapshot result }
    {
        let walk = Walk::BackTo(snapshot.max(self.oldest));
        self.resolvers_on_walk(walk, range)
    }

    /// Returns the resolvers that a write of `range` asks, in rising order: the last owner of each
    /// key. Fails only with `OutOfMemory`.
    pub fn write_owners(&self, range: &KeyRange) -> Result<Items<ResolverNumber>, OutOfMemory>
        ensures { IfOk result (λ list. AreWriters self.now range.now list) }
    {
        self.writers(range).list(self.spare.alloc())
    }

    /// Returns the same resolvers as [`OwnerMap::write_owners`], as a set. Allocates nothing.
    pub fn writers(&self, range: &KeyRange) -> ResolverSet
        ensures { AreWriters self.now range.now result }
    {
        self.resolvers_on_walk(Walk::LastOwner, range)
    }

    /// The resolvers that are asked about the range.
    fn resolvers_on_walk(&self, walk: Walk, range: &KeyRange) -> ResolverSet
        ensures { let map = self.now in
            result ≡ asked_resolvers map.resolvers map.moves walk range.now }
    {
        let end = range.end_bytes();
        asked_resolvers(self.resolvers, &self.pieces, walk, range.begin(), end)
    }

    /// Returns the set of those resolvers of the map that are flagged. Allocates nothing.
    pub fn flagged(&self, flags: ResolverFlags) -> ResolverSet
        ensures set { result ≡ filter (is_flagged flags) (each_below self.now.resolvers) }
        ensures few { self.now.resolvers ≤ 64 }
    {
        ResolverSet::of_flags(self.resolvers, flags)
    }

    /// Raises the oldest version remembered to `oldest`; a lower value changes nothing. Allocates
    /// nothing.
    ///
    /// The oldest owner of a key then no longer counts if the next one is dated below that version.
    pub fn forget(&mut self, oldest: Version)
        ensures resolvers { self.new.resolvers ≡ self.old.resolvers }
        ensures oldest { self.new.oldest ≡ max self.old.oldest oldest }
        ensures date { self.new.last_date ≡ self.old.last_date }
        ensures stands { KeepsMoves self.old self.new }
        ensures asks { KeepsAsking self.old self.new }
    {
        self.oldest = self.oldest.max(oldest);
        self.paid = self.paid.saturating_add(1);
        let pieces = self.pieces.len();
        if is_sweep_due(self.due, self.oldest, pieces, self.paid) {
            self.paid = self.paid.saturating_sub(pieces);
            self.due = next_sweep_date(self.last_date, self.oldest);
            sweep(&mut self.pieces, &mut self.spare, self.oldest);
        }
    }

    /// Merges owners where that is paid for by moves: the map asks as before, by fewer pieces and
    /// owners, but then no longer stands for moves. Without memory for a piece, that one stays as it
    /// is.
    ///
    /// At each key the last owner stays the same. Which other owners of one date are left, and in which
    /// order, is free, as long as each walk visits the same resolvers.
    pub fn merge(&mut self)
        ensures resolvers { self.new.resolvers ≡ self.old.resolvers }
        ensures oldest { self.new.oldest ≡ self.old.oldest }
        ensures date { self.new.last_date ≡ self.old.last_date }
        ensures walks { WalksAlike self.old self.new }
        ensures asks { KeepsAsking self.old self.new }
    {
        if self.left.max(FEW_OWNERS) <= self.added {
            merge(&mut self.pieces, &mut self.spare);
            self.left = count_owners(&self.pieces);
            self.added = 0;
        }
    }

    /// Returns the number of greatest ranges of keys, from the empty key to `\xff\xff`, with one
    /// list of owners left. Allocates nothing.
    pub fn pieces(&self) -> usize
        ensures { CountsPieces self.now result }
    {
        count_pieces(&self.pieces, self.oldest)
    }

    /// Returns a deep copy. Fails only with `OutOfMemory`.
    pub fn copy(&self) -> Result<OwnerMap, OutOfMemory>
        ensures { IfOk result (λ copy. copy ≡ self.now) }
    {
        Ok(self.clone()?)
    }
}

impl Clone for OwnerMap {
    ghost is_clone = { λ map copy. copy ≡ map };

    fn clone(&self) -> Result<OwnerMap, AllocError> {
        let mut spare = LaterOwners::new(self.spare.alloc());
        spare.clear_and_reserve(self.spare.room())?;
        Ok(OwnerMap {
            resolvers: self.resolvers,
            last_date: self.last_date,
            oldest: self.oldest,
            pieces: self.pieces.clone()?,
            spare,
            due: self.due,
            paid: self.paid,
            added: self.added,
            left: self.left,
        })
    }
}

/// Whether a sweep may find something, and is paid for.
fn is_sweep_due(due: Version, oldest: Version, pieces: usize, paid: usize) -> bool {
    due < oldest && pieces <= paid
}

/// The date above which `oldest` has to be before the next sweep: the date of the last move.
fn next_sweep_date(last_date: Version, oldest: Version) -> Version {
    if last_date < oldest {
        Version::MAX
    } else {
        last_date
    }
}
