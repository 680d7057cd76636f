//! The list of all moves, with a map of owners that proxies share.

ghost use Rattle.std.specs.Prelude.{◌≡◌, ◌++◌, ◌∷◌, [], IfOk, OnOk, OnErr, IfSome};
ghost use Rattle.proxy_state.specs.HeldMaps.{AsksBackTo, AsksAfterMove};

use dated_owners::OwnerMap;
use model::{Config, Move, Version};
use request_builder::Moves;
use std::alloc::Global;
use std::marker::Model;
use system_keys::OutOfMemory;

/// All moves so far, in the order in which they were made, and a map of owners that asks as they do.
///
/// Proxies that begin records one after another can share it, so each move is made in one map. Contracts
/// see the moves. The map forgets what no later record asks about, and merges owners that make no
/// difference to whom it asks, so it does not grow with moves that others of the same date cover. If an
/// allocation for it fails there is no map any more, and each proxy makes the moves in a map of its own.
#[derive(Drop)]
pub struct OwnedMoves {
    window: Version,
    moves: Moves,
    map: Option<OwnerMap>,
}

impl Model for OwnedMoves {
    ghost use Rattle.std.specs.Prelude.{List, IfSome};
    ghost use Rattle.model.specs.declared.moves.Move.{Move};
    ghost use Rattle.model.specs.OwnerMaps.{OwnerMapView, AsksAs};

    ghost Value = { List Move };

    ghost view = { λ o. o.moves };

    ghost invariant = { λ o. IfSome o.map (λ (map : OwnerMapView). AsksAs map o.moves) };
}

impl OwnedMoves {
    /// No moves, in a cluster with these numbers. Fails only with `OutOfMemory`.
    #[tactic(auto, using(crate::proofs::HeldMaps::asks_first))]
    pub fn new(alloc: Global, config: &Config) -> Result<OwnedMoves, OutOfMemory>
        ensures { IfOk result (λ made. made ≡ []) }
    {
        Ok(OwnedMoves {
            window: config.window(),
            moves: Moves::new(alloc),
            map: Some(OwnerMap::new(alloc, config.resolvers())?),
        })
    }

    /// The list of moves.
    pub fn list(&self) -> &Moves
        ensures { result.now ≡ self.now }
    {
        &self.moves
    }

    /// Appends a move. Fails only with `OutOfMemory`, and then nothing has changed.
    pub fn push(&mut self, one: Move) -> Result<(), OutOfMemory>
        ensures ok { OnOk result (self.new ≡ self.old ++ one ∷ []) }
        ensures err { OnErr result (self.new ≡ self.old) }
    {
        let oldest = one.date.saturating_sub(self.window).saturating_sub(1);
        let map = map_with_move(self.map.take(), &one, oldest);
        self.moves.push(one)?;
        self.map = map;
        Ok(())
    }

    /// The map, if there is one of this number of resolvers that remembers owners back to `oldest`.
    pub(crate) fn map_back_to(&self, resolvers: usize, oldest: Version) -> Option<&OwnerMap>
        ensures { IfSome result (λ map. AsksBackTo self.now resolvers oldest map.now) }
    {
        match &self.map {
            Some(map) => {
                if map.resolvers() == resolvers && map.oldest() <= oldest {
                    Some(map)
                } else {
                    None
                }
            }
            None => None,
        }
    }
}

/// The map with one move more, in which it forgets back to `oldest` and merges; None if there is no map,
/// or if the move cannot be made.
fn map_with_move(map: Option<OwnerMap>, one: &Move, oldest: Version) -> Option<OwnerMap>
    ensures { AsksAfterMove map one.now result }
{
    let Some(map) = map else {
        return None;
    };
    let mut map = map;
    match map.move_range(&one.range, one.date, one.dest) {
        Ok(()) => {
            map.forget(oldest);
            map.merge();
            Some(map)
        }
        Err(_) => None,
    }
}
