//! A run of a fold script, over any source and sink.
ghost use Rattle.std.specs.Prelude.{◌-◌, ◌^◌, ◌<◌, refl};
ghost use Rattle.scripts.specs.Runs.{LeavesDevices};
ghost use Rattle.fold_run.specs.Scripts.{script_of};
ghost use Rattle.fold_run.specs.Text.{Folds, fold_text, folded_text};

use crate::script::{FoldScript, RawFold};
use crate::text::{FoldLeftover, FoldText, print_folded};
use scripts::{
    Printed, RunStatus, ScriptKind, Sink, Source, make_of_tokens, run_script, run_script_leaving,
};
use std::alloc::Global;
use system_keys::OutOfMemory;

/// The kind of fold scripts.
pub(crate) struct FoldKind;

impl ScriptKind for FoldKind {
    type Raw = RawFold;

    type Script = FoldScript;

    type Leftover = FoldLeftover;

    ghost printed = { folded_text };

    ghost output_to = { fold_text };

    fn stream(alloc: Global, bytes: &[u8]) -> Option<Printed<FoldLeftover>> {
        let made: FoldText = make_of_tokens(alloc, bytes)?;
        Some(Printed {
            text: made.text,
            leftover: made.leftover,
        })
    }

    fn print(alloc: Global, text: &mut String, script: FoldScript) -> Result<(), OutOfMemory> {
        print_folded(alloc, text, script)
    }

    ghost answers = { λ bytes. unfold fold_text in unfold script_of in refl };
}

/// Reads a fold script from the source to its end, and writes its text. If a read
/// fails, or the limit on read calls is passed, nothing is written.
pub fn run_fold<S: Source, T: Sink>(alloc: Global, source: &mut S, sink: &mut T) -> RunStatus
    requires read_count { S.failed source.old < 2 ^ 64 - 1 }
    requires write_count { T.failed sink.old < 2 ^ 64 - 1 }
    ensures fold { Folds (S.remaining source.old) (T.written sink.old) (T.written sink.new) result }
    ensures devices { LeavesDevices fold_text S.Source source.old source.new
        T.Sink sink.old sink.new result }
{
    run_script::<FoldKind, S, T>(alloc, source, sink)
}

/// Runs a fold script as `run_fold` does, and drops nothing that was made to print it: that goes into
/// `leftover`. A program that ends then need not drop it.
pub fn run_fold_leaving<S: Source, T: Sink>(
    alloc: Global,
    source: &mut S,
    sink: &mut T,
    leftover: &mut Option<FoldLeftover>,
) -> RunStatus
    requires read_count { S.failed source.old < 2 ^ 64 - 1 }
    requires write_count { T.failed sink.old < 2 ^ 64 - 1 }
    ensures fold { Folds (S.remaining source.old) (T.written sink.old) (T.written sink.new) result }
    ensures devices { LeavesDevices fold_text S.Source source.old source.new
        T.Sink sink.old sink.new result }
{
    run_script_leaving::<FoldKind, S, T>(alloc, source, sink, leftover)
}
