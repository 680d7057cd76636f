//! A set of resolvers, which takes no memory of its own.

ghost use Rattle.std.specs.Prelude.{◌≡◌, nat_eq, filter, IfOk};
ghost use Rattle.std.specs.List.{list_any};
ghost use Rattle.model.specs.Shares.{each_below};
ghost use Rattle.dated_owners.specs.Flags.{is_flagged, Flags};

use crate::flags::ResolverFlags;
use model::ResolverNumber;
use std::alloc::Global;
use std::marker::Model;
use system_keys::{Items, OutOfMemory};

/// Some of a cluster's resolvers. Contracts see the list of their numbers, in rising order.
#[derive(Debug, Drop)]
pub struct ResolverSet {
    /// How many resolvers the cluster has.
    resolvers: usize,
    /// Whether each of them is in the set. No other resolver is flagged.
    flags: ResolverFlags,
}

impl Model for ResolverSet {
    ghost use Rattle.std.specs.Prelude.{List, ℕ, filter};
    ghost use Rattle.model.specs.Shares.{each_below};
    ghost use Rattle.dated_owners.specs.Flags.{is_flagged, NonePast};

    ghost Value = { List ℕ };

    ghost view = { λ set. filter (is_flagged set.flags) (each_below set.resolvers) };

    ghost invariant = { λ set. NonePast set.resolvers set.flags };
}

impl ResolverSet {
    /// The flagged ones of `resolvers` resolvers.
    pub(crate) fn of_flags(resolvers: usize, flags: ResolverFlags) -> ResolverSet
        ensures { result ≡ filter (is_flagged flags) (each_below resolvers) }
    {
        ResolverSet {
            resolvers,
            flags: flags.first(resolvers),
        }
    }

    /// Whether the resolver is in the set.
    pub fn has(&self, resolver: ResolverNumber) -> bool
        ensures { result ≡ list_any (λ r. nat_eq r resolver) self.now }
    {
        self.flags.has(resolver)
    }

    /// Flags the resolvers of the set.
    pub fn flag_in(&self, flags: &mut ResolverFlags)
        ensures { Flags flags.old (λ r. list_any (λ a. nat_eq a r) self.now) flags.new }
    {
        flags.add(&self.flags);
    }

    /// Returns the numbers of the resolvers in the set, in rising order. Fails only with
    /// `OutOfMemory`.
    pub fn list(&self, alloc: Global) -> Result<Items<ResolverNumber>, OutOfMemory>
        ensures { IfOk result (λ list. list ≡ self.now) }
    {
        self.flags.list(alloc, self.resolvers)
    }
}
