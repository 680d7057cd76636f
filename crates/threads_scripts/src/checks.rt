//! The checks of a threads script: of its moves, of its batches, and of the resolvers that its
//! moves name.

ghost use Rattle.std.specs.Prelude.{◌≡◌};
ghost use Rattle.std.specs.List.{list_all};
ghost use Rattle.threads_scripts.specs.Checks.{checked_move, checked_script, has_destination};

use crate::script::{RawThreads, ThreadsScript, UndatedMove};
use cluster_scripts::GivenMove;
use scripts::{Checked, ScriptFault, check_each, check_range};
use std::alloc::Global;

impl Checked<GivenMove> for UndatedMove {
    ghost checked = { checked_move };

    fn check(_alloc: Global, raw: GivenMove) -> Result<UndatedMove, ScriptFault> {
        Ok(UndatedMove {
            range: check_range(raw.range)?,
            dest: raw.dest,
        })
    }
}

impl Checked<RawThreads> for ThreadsScript {
    ghost checked = { checked_script };

    fn check(alloc: Global, raw: RawThreads) -> Result<ThreadsScript, ScriptFault> {
        let script = ThreadsScript {
            config: raw.config,
            rows: raw.rows,
            moves: check_each(alloc, raw.moves)?,
            work: check_each(alloc, raw.work)?,
            ask: raw.ask,
        };
        if have_destinations(script.config.resolvers(), script.moves.as_slice()) {
            Ok(script)
        } else {
            Err(ScriptFault::NoSuchResolver)
        }
    }
}

// Whether each move goes to one of this many resolvers.
fn have_destinations(resolvers: usize, moves: &[UndatedMove]) -> bool
    ensures { result ≡ list_all (has_destination resolvers) moves.now }
{
    moves.iter().all(|moved| has_destination(resolvers, moved))
}

fn has_destination(resolvers: usize, moved: &UndatedMove) -> bool
    ensures { result ≡ has_destination resolvers moved.now }
{
    moved.dest < resolvers
}
