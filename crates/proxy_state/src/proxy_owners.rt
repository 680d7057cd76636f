//! A proxy's own map of owners, which each `begin` takes and puts back, or makes anew.

ghost use Rattle.std.specs.Prelude.{◌≡◌, ◌≤◌, [], drop, IfOk};
ghost use Rattle.model.specs.OwnerMaps.{StandsForMoves};
ghost use Rattle.proxy_state.specs.Beginning.{MayGain, HasGained};
ghost use Rattle.proxy_state.specs.HeldMaps.{held_map, IsAlike, IsFilled, IsForgetful};

use crate::moving::{make_moves, remake_moves};
use dated_owners::OwnerMap;
use model::Version;
use request_builder::Moves;
use std::alloc::Global;
use std::marker::Model;
use system_keys::OutOfMemory;

/// The map of owners of a proxy. Contracts see a map that stands for its moves.
///
/// A `begin` takes the map, makes the further moves in it, and puts it back once nothing can
/// fail. A `begin` that fails in between, or asks the shared map, leaves no map. The next one
/// that needs a map makes all moves again in a new one.
#[derive(Drop)]
pub(crate) struct ProxyOwners {
    resolvers: usize,
    oldest: Version,
    /// The moves for which the map stands.
    moves: Moves,
    /// None if the map is used up.
    map: Option<OwnerMap>,
}

impl Model for ProxyOwners {
    ghost use Rattle.model.specs.OwnerMaps.{OwnerMapView};
    ghost use Rattle.proxy_state.specs.HeldMaps.{held_map, IsHeld};

    ghost Value = { OwnerMapView };

    ghost view = { λ o. held_map o.resolvers o.oldest o.moves };

    ghost invariant = { λ o. IsHeld o.resolvers o.oldest o.moves o.map };
}

impl ProxyOwners {
    /// The map before any move, for 1 to 64 resolvers. Fails only with `OutOfMemory`.
    #[tactic(auto, using(crate::proofs::HeldMaps::held_first, crate::proofs::HeldMaps::stands_first))]
    pub(crate) fn new(alloc: Global, resolvers: usize) -> Result<ProxyOwners, OutOfMemory>
        requires { (1 ≤ resolvers) × (resolvers ≤ 64) }
        ensures resolvers { IfOk result (λ map. map.resolvers ≡ resolvers) }
        ensures oldest { IfOk result (λ map. map.oldest ≡ 0) }
        ensures stands { IfOk result (λ map. StandsForMoves map []) }
    {
        Ok(ProxyOwners {
            resolvers,
            oldest: 0,
            moves: Moves::new(alloc),
            map: Some(OwnerMap::new(alloc, resolvers)?),
        })
    }

    /// Returns the map that follows: this one, in which the moves of the list from this place on have
    /// been made. Fails only with `OutOfMemory`.
    ///
    /// Uses up the map, also if it fails.
    #[tactic(auto, using(crate::proofs::HeldMaps::alike_may_gain, crate::proofs::HeldMaps::alike_gained))]
    pub(crate) fn next_map(
        &mut self,
        alloc: Global,
        moves: &Moves,
        from: usize,
    ) -> Result<OwnerMap, OutOfMemory>
        requires { MayGain self.old (drop from moves.now) }
        ensures gained { IfOk result (HasGained self.old (drop from moves.now)) }
        ensures same { self.new ≡ self.old }
    {
        let mut owners = self.take_map(alloc)?;
        make_moves(&mut owners, moves, from)?;
        Ok(owners)
    }

    /// The map itself, or a new one with all moves if it is used up. Afterwards it is used up.
    #[tactic(auto, using(crate::proofs::HeldMaps::held_none))]
    fn take_map(&mut self, alloc: Global) -> Result<OwnerMap, OutOfMemory>
        ensures alike { IfOk result (λ map. IsAlike self.old map) }
        ensures same { self.new ≡ self.old }
    {
        match self.map.take() {
            Some(map) => Ok(map),
            None => new_map_with_moves(alloc, self.resolvers, &self.moves, self.oldest),
        }
    }

    /// Keeps these moves and their map in the place of those before, and forgets back to `oldest`, as
    /// [`OwnerMap::forget`] does. Without a map it is used up. Does not allocate.
    #[tactic(auto, using(crate::proofs::HeldMaps::held_filled, crate::proofs::HeldMaps::stands_filled))]
    pub(crate) fn replace_map(&mut self, map: Option<OwnerMap>, moves: Moves, oldest: Version)
        requires { IsFilled self.old map moves oldest }
        ensures resolvers { self.new.resolvers ≡ self.old.resolvers }
        ensures oldest { self.new.oldest ≡ oldest }
        ensures stands { StandsForMoves self.new moves }
    {
        self.oldest = oldest;
        self.moves = moves;
        self.map = forget_back_to(map, oldest);
    }

    /// Returns a deep copy. Fails only with `OutOfMemory`.
    #[tactic(auto, using(crate::proofs::HeldMaps::held_copy))]
    pub(crate) fn copy(&self) -> Result<ProxyOwners, OutOfMemory>
        ensures { IfOk result (λ copy. copy ≡ self.now) }
    {
        Ok(ProxyOwners {
            resolvers: self.resolvers,
            oldest: self.oldest,
            moves: self.moves.copy()?,
            map: copy_map(&self.map)?,
        })
    }
}

/// The map once it has forgotten back to `oldest`, if there is one.
#[tactic(auto, using(crate::proofs::HeldMaps::forgetful_map))]
fn forget_back_to(map: Option<OwnerMap>, oldest: Version) -> Option<OwnerMap>
    ensures { IsForgetful map oldest result }
{
    match map {
        Some(map) => {
            let mut map = map;
            map.forget(oldest);
            Some(map)
        }
        None => None,
    }
}

/// A deep copy of the map, if there is one.
fn copy_map(map: &Option<OwnerMap>) -> Result<Option<OwnerMap>, OutOfMemory>
    ensures { IfOk result (λ copy. copy ≡ map.now) }
{
    match map {
        Some(map) => Ok(Some(map.copy()?)),
        None => Ok(None),
    }
}

/// A new map, in which all moves are made. Fails only with `OutOfMemory`.
#[tactic(auto, using(crate::proofs::HeldMaps::again_alike))]
fn new_map_with_moves(
    alloc: Global,
    resolvers: usize,
    moves: &Moves,
    oldest: Version,
) -> Result<OwnerMap, OutOfMemory>
    requires { (1 ≤ resolvers) × (resolvers ≤ 64) }
    ensures { IfOk result (λ map. IsAlike (held_map resolvers oldest moves.now) map) }
{
    let mut owners = OwnerMap::new(alloc, resolvers)?;
    remake_moves(&mut owners, moves)?;
    owners.forget(oldest);
    Ok(owners)
}
