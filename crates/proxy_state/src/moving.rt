//! Making the moves of a record in a proxy's map of owners, and keeping that map.

ghost use Rattle.std.specs.Prelude.{◌≡◌, [], ◌∷◌, drop, None, OnOk};
ghost use Rattle.dated_owners.specs.Refusals.{move_fault};
ghost use Rattle.proxy_state.specs.Beginning.{MayGain, HasGained};
ghost use Rattle.proxy_state.specs.Beginning.{IsMapFor, IsKeptFor};

use crate::proxy_owners::ProxyOwners;
use dated_owners::OwnerMap;
use model::{Config, Move};
use request_builder::{Moves, Record};
use system_keys::OutOfMemory;

/// Makes the moves in the map, one after another, from this place on.
pub(crate) fn make_moves(
    owners: &mut OwnerMap,
    moves: &Moves,
    from: usize,
) -> Result<(), OutOfMemory>
    requires { MayGain owners.old (drop from moves.now) }
    ensures { OnOk result (HasGained owners.old (drop from moves.now) owners.new) }
{
    for place in from..moves.len() {
        let Some(one) = moves.get(place) else {
            unreachable!();
        };
        make_move(owners, one)?;
    }
    Ok(())
}

/// Makes one move, which has no fault.
fn make_move(owners: &mut OwnerMap, one: &Move) -> Result<(), OutOfMemory>
    requires { move_fault owners.old one.now.date one.now.dest ≡ None }
    ensures { OnOk result (HasGained owners.old (one.now ∷ []) owners.new) }
{
    apply_move(owners, one)
}

/// Makes all moves in the map, one after another. They were made before, in another map.
pub(crate) fn remake_moves(owners: &mut OwnerMap, moves: &Moves) -> Result<(), OutOfMemory>
    ensures { OnOk result (HasGained owners.old moves.now owners.new) }
{
    for place in 0..moves.len() {
        let Some(one) = moves.get(place) else {
            unreachable!();
        };
        apply_move(owners, one)?;
    }
    Ok(())
}

/// Makes one move. It is not refused, so it fails only with `OutOfMemory`.
fn apply_move(owners: &mut OwnerMap, one: &Move) -> Result<(), OutOfMemory>
    ensures { OnOk result (HasGained owners.old (one.now ∷ []) owners.new) }
{
    match owners.move_range(&one.range, one.date, one.dest) {
        Ok(()) => Ok(()),
        Err(_) => Err(OutOfMemory),
    }
}

/// Keeps the moves of the record and their map, if it has one, and forgets the owners that the record
/// does not ask about.
#[tactic(auto, using(crate::proofs::KeptProxies::filled_for, crate::proofs::KeptProxies::map_for))]
pub(crate) fn keep_map(
    owners: &mut ProxyOwners,
    config: &Config,
    rec: &Record,
    map: Option<OwnerMap>,
    moves: Moves,
)
    requires { IsKeptFor config.now rec.now owners.old map moves }
    ensures { IsMapFor config.now rec.now owners.new }
{
    owners.replace_map(map, moves, rec.previous().saturating_sub(config.window()));
}
