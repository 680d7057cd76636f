//! A run of a turns script, over any source and sink.
ghost use Rattle.std.specs.Prelude.{◌-◌, ◌^◌, ◌<◌, refl};
ghost use Rattle.scripts.specs.Runs.{LeavesDevices};
ghost use Rattle.turns_run.specs.Scripts.{script_of};
ghost use Rattle.turns_run.specs.Text.{TakesTurns, printed_text, turns_text};

use crate::script::{RawTurns, TurnsScript};
use crate::text::{TurnsLeftover, TurnsText, print_turns};
use scripts::{
    Printed, RunStatus, ScriptKind, Sink, Source, make_of_tokens, run_script, run_script_leaving,
};
use std::alloc::Global;
use system_keys::OutOfMemory;

/// The kind of turns scripts.
pub(crate) struct TurnsKind;

impl ScriptKind for TurnsKind {
    type Raw = RawTurns;

    type Script = TurnsScript;

    type Leftover = TurnsLeftover;

    ghost printed = { printed_text };

    ghost output_to = { turns_text };

    fn stream(alloc: Global, bytes: &[u8]) -> Option<Printed<TurnsLeftover>> {
        let made: TurnsText = make_of_tokens(alloc, bytes)?;
        Some(Printed {
            text: made.text,
            leftover: made.leftover,
        })
    }

    fn print(alloc: Global, text: &mut String, script: TurnsScript) -> Result<(), OutOfMemory> {
        print_turns(alloc, text, script)
    }

    ghost answers = { λ bytes. unfold turns_text in unfold script_of in refl };
}

/// Reads a turns script from the source to its end, and writes its text. If a read
/// fails, or the limit on read calls is passed, nothing is written.
pub fn run_turns<S: Source, T: Sink>(alloc: Global, source: &mut S, sink: &mut T) -> RunStatus
    requires read_count { S.failed source.old < 2 ^ 64 - 1 }
    requires write_count { T.failed sink.old < 2 ^ 64 - 1 }
    ensures turns { TakesTurns (S.remaining source.old) (T.written sink.old) (T.written sink.new)
        result }
    ensures devices { LeavesDevices turns_text S.Source source.old source.new
        T.Sink sink.old sink.new result }
{
    run_script::<TurnsKind, S, T>(alloc, source, sink)
}

/// Runs a turns script as `run_turns` does, and drops nothing that was made to print it: that goes into
/// `leftover`. A program that ends then need not drop it.
pub fn run_turns_leaving<S: Source, T: Sink>(
    alloc: Global,
    source: &mut S,
    sink: &mut T,
    leftover: &mut Option<TurnsLeftover>,
) -> RunStatus
    requires read_count { S.failed source.old < 2 ^ 64 - 1 }
    requires write_count { T.failed sink.old < 2 ^ 64 - 1 }
    ensures turns { TakesTurns (S.remaining source.old) (T.written sink.old) (T.written sink.new)
        result }
    ensures devices { LeavesDevices turns_text S.Source source.old source.new
        T.Sink sink.old sink.new result }
{
    run_script_leaving::<TurnsKind, S, T>(alloc, source, sink, leftover)
}
