//! Flags of resolvers, from which a set of resolvers is made.

ghost use Rattle.std.specs.Prelude.{◌≡◌, nat_eq, filter, IfOk};
ghost use Rattle.model.specs.Shares.{each_below};
ghost use Rattle.dated_owners.specs.Flags.{is_flagged, Flags, AreAll, KeepsFirst};

use model::ResolverNumber;
use std::alloc::Global;
use std::marker::Model;
use system_keys::{Items, OutOfMemory};

/// The greatest number of resolvers of a cluster.
const MOST: usize = 64;

/// A flag for each of 64 resolvers, which are the bits of one number. Contracts see the list of the
/// flags.
#[derive(Debug, Drop)]
pub struct ResolverFlags {
    bits: u64,
}

impl Model for ResolverFlags {
    ghost use Rattle.std.specs.Prelude.{List, Bool};
    ghost use Rattle.dated_owners.specs.Flags.{flags_of};

    ghost Value = { List Bool };

    ghost view = { λ flags. flags_of flags.bits };
}

impl ResolverFlags {
    /// Each resolver has this flag.
    pub fn all(flag: bool) -> ResolverFlags
        ensures { AreAll flag result }
    {
        if flag {
            ResolverFlags { bits: u64::MAX }
        } else {
            ResolverFlags { bits: 0 }
        }
    }

    /// Flags the resolver, if there is a flag for it.
    pub fn flag(&mut self, resolver: ResolverNumber)
        ensures { Flags self.old (λ r. nat_eq resolver r) self.new }
    {
        if resolver < MOST {
            self.bits |= 1 << resolver;
        }
    }

    /// Flags the resolvers that are flagged in `other`.
    pub(crate) fn add(&mut self, other: &ResolverFlags)
        ensures { Flags self.old (is_flagged other.now) self.new }
    {
        self.bits |= other.bits;
    }

    /// Whether the resolver is flagged.
    pub(crate) fn has(&self, resolver: ResolverNumber) -> bool
        ensures { result ≡ is_flagged self.now resolver }
    {
        resolver < MOST && (self.bits >> resolver) & 1 == 1
    }

    /// Returns the numbers below `resolvers` of the resolvers that are flagged, in rising order. Fails
    /// only with `OutOfMemory`.
    pub(crate) fn list(
        &self,
        alloc: Global,
        resolvers: usize,
    ) -> Result<Items<ResolverNumber>, OutOfMemory>
        ensures { IfOk result
            (λ list. list ≡ filter (is_flagged self.now) (each_below resolvers)) }
    {
        let mut list = Vec::new(alloc);
        for resolver in 0..resolvers {
            if self.has(resolver) {
                list.push(resolver)?;
            }
        }
        Ok(Items::from(list))
    }

    /// The flags of the resolvers below `resolvers`; no other one is flagged.
    pub(crate) fn first(self, resolvers: usize) -> ResolverFlags
        ensures { KeepsFirst resolvers self result }
    {
        if resolvers < MOST {
            let mask = (1u64 << resolvers) - 1;
            ResolverFlags {
                bits: self.bits & mask,
            }
        } else {
            self
        }
    }
}
