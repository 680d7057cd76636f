//! The owners of a key after the first one: adding, trimming, merging and comparing them.

ghost use Rattle.std.specs.Prelude.{◌≡◌, ◌≤◌, ◌++◌, ◌∷◌, [], true, drop, length, IfOk};
ghost use Rattle.dated_owners.specs.LaterOwners.{is_initial_owner, is_first_needless, needed};
ghost use Rattle.dated_owners.specs.LaterOwners.{is_same_owner, are_same_owners};
ghost use Rattle.dated_owners.specs.MergedOwners.{IsMerged};

use crate::merging::{has_one_date_twice, merge_owners};
use model::{ResolverNumber, Version};
use std::alloc::{AllocError, Global};
use std::marker::Model;
use system_keys::OutOfMemory;

/// A resolver to which keys were moved, and the version from which on it owned them.
#[derive(Clone, Copy, Debug)]
pub(crate) struct LaterOwner {
    pub(crate) date: Version,
    pub(crate) resolver: ResolverNumber,
}

/// The owners of some keys after the first one, oldest first, perhaps without the oldest ones.
#[derive(Debug, Drop)]
pub(crate) struct LaterOwners {
    list: Vec<LaterOwner>,
}

impl Model for LaterOwners {
    ghost use Rattle.std.specs.Prelude.{List};
    ghost use Rattle.dated_owners.specs.declared.later_owners.LaterOwner.{LaterOwner};

    ghost Value = { List LaterOwner };

    ghost view = { λ owners. owners.list.items };
}

impl LaterOwners {
    /// No owners. Does not allocate.
    pub(crate) fn new(alloc: Global) -> LaterOwners
        ensures { result ≡ [] }
    {
        LaterOwners {
            list: Vec::new(alloc),
        }
    }

    /// A copy of the owners. Fails only with `OutOfMemory`.
    pub(crate) fn from_slice(
        alloc: Global,
        owners: &[LaterOwner],
    ) -> Result<LaterOwners, OutOfMemory>
        ensures { IfOk result (λ copy. copy ≡ owners.now) }
    {
        let mut list = Vec::new(alloc);
        list.extend_from_slice(owners)?;
        Ok(LaterOwners { list })
    }

    /// A copy of the owners, and one more. Fails only with `OutOfMemory`.
    pub(crate) fn with_newest(
        alloc: Global,
        owners: &[LaterOwner],
        newest: LaterOwner,
    ) -> Result<LaterOwners, OutOfMemory>
        ensures { IfOk result (λ more. more ≡ owners.now ++ newest ∷ []) }
    {
        let mut list = Vec::with_capacity(alloc, owners.len().saturating_add(1))?;
        list.extend_from_slice(owners)?;
        list.push(newest)?;
        Ok(LaterOwners { list })
    }

    pub(crate) fn as_slice(&self) -> &[LaterOwner]
        ensures { result.now ≡ self.now }
    {
        self.list.as_slice()
    }

    /// The allocator of the list.
    pub(crate) fn alloc(&self) -> Global {
        *self.list.allocator()
    }

    /// Removes the owners that no walk needs. Does not allocate.
    pub(crate) fn drop_needless(&mut self, oldest: Version)
        ensures { self.new ≡ needed oldest self.old }
    {
        let count = count_needless(self.list.as_slice(), oldest);
        let kept = self.list.len() - count;
        self.list.rotate_left(count);
        self.list.truncate(kept);
    }

    /// Leaves out owners that make no difference to any walk, and puts those of one date in order, so
    /// that lists by which walks visit the same resolvers are often equal. Without memory for it,
    /// changes nothing.
    pub(crate) fn merge(&mut self)
        ensures { IsMerged self.old self.new }
    {
        if has_one_date_twice(self.list.as_slice()) {
            if let Ok(list) = merge_owners(self.alloc(), self.list.as_slice()) {
                self.list = list;
            }
        }
    }

    /// How many owners there is room for.
    pub(crate) fn room(&self) -> usize {
        self.list.capacity()
    }

    /// Removes all owners, and makes room for this many.
    pub(crate) fn clear_and_reserve(&mut self, count: usize) -> Result<(), AllocError> {
        self.list.clear();
        self.list.reserve(count)
    }

    /// Removes all owners.
    pub(crate) fn clear(&mut self)
        ensures { self.new ≡ [] }
    {
        self.list.clear();
    }

    /// Copies the owners if there is room for them, and tells whether there is. Does not allocate.
    pub(crate) fn copy_within_room(&mut self, owners: &[LaterOwner]) -> bool
        ensures { result ≡ true → self.new ≡ owners.now }
    {
        self.list.clear();
        owners.len() <= self.list.capacity() && self.list.extend_from_slice(owners).is_ok()
    }
}

impl Clone for LaterOwners {
    ghost is_clone = { λ owners copy. copy ≡ owners };

    fn clone(&self) -> Result<LaterOwners, AllocError> {
        let alloc: Global = *self.list.allocator();
        Ok(LaterOwners {
            list: Vec::from_slice(alloc, &self.list)?,
        })
    }
}

/// How many owners at the front no walk needs.
fn count_needless(owners: &[LaterOwner], oldest: Version) -> usize
    ensures needed { drop result owners.now ≡ needed oldest owners.now }
    ensures within { result ≤ length owners.now }
{
    for count in 0..owners.len() {
        if !is_first_needless(&owners[count..], oldest) {
            return count;
        }
    }
    owners.len()
}

/// Whether no walk needs the first of these owners: it is dated below `oldest`, and so is the next
/// one, or it is the first owner of all keys over again.
fn is_first_needless(owners: &[LaterOwner], oldest: Version) -> bool
    ensures { result ≡ is_first_needless oldest owners.now }
{
    match owners {
        [] => false,
        [owner] => owner.date < oldest && is_initial_owner(owner),
        [owner, next, ..] => owner.date < oldest && (is_initial_owner(owner) || next.date < oldest),
    }
}

/// Whether it is the first owner of all keys: resolver 0 from version 0 on.
fn is_initial_owner(owner: &LaterOwner) -> bool
    ensures { result ≡ is_initial_owner owner.now }
{
    owner.date == 0 && owner.resolver == 0
}

/// The owners without those at the front that no walk needs.
pub(crate) fn needed_owners(owners: &[LaterOwner], oldest: Version) -> &[LaterOwner]
    ensures { result.now ≡ needed oldest owners.now }
{
    &owners[count_needless(owners, oldest)..]
}

/// Whether the lists are equal.
pub(crate) fn are_same_owners(owners: &[LaterOwner], others: &[LaterOwner]) -> bool
    ensures { result ≡ are_same_owners owners.now others.now }
{
    if owners.len() != others.len() {
        return false;
    }
    for i in 0..owners.len() {
        if !is_same_owner(&owners[i], &others[i]) {
            return false;
        }
    }
    true
}

fn is_same_owner(owner: &LaterOwner, other: &LaterOwner) -> bool
    ensures { result ≡ is_same_owner owner.now other.now }
{
    owner.date == other.date && owner.resolver == other.resolver
}
