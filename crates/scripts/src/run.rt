//! A run of a script of any kind, over any source and sink.
ghost use Rattle.std.specs.Prelude.{◌-◌, ◌^◌, ◌<◌};
ghost use Rattle.scripts.specs.Runs.{LeavesDevices, WritesTextOf};

use crate::devices::{Failed, ReadFault, Sink, Source, read_all, write_all};
use crate::script_kind::{ScriptKind, output_for};
use crate::status::RunStatus;
use std::alloc::Global;

/// Reads a script from the source to its end, and writes its text. If a read
/// fails, or the limit on read calls is passed, nothing is written.
pub fn run_script<K: ScriptKind, S: Source, T: Sink>(
    alloc: Global,
    source: &mut S,
    sink: &mut T,
) -> RunStatus
    requires read_count { S.failed source.old < 2 ^ 64 - 1 }
    requires write_count { T.failed sink.old < 2 ^ 64 - 1 }
    ensures text { WritesTextOf K.output_to (S.remaining source.old)
        (T.written sink.old) (T.written sink.new) result }
    ensures devices { LeavesDevices K.output_to S.Source source.old source.new
        T.Sink sink.old sink.new result }
{
    let mut leftover = None;
    run_script_leaving::<K, S, T>(alloc, source, sink, &mut leftover)
}

/// Runs a script as `run_script` does, and drops nothing that was made to print it: that goes into
/// `leftover`. A program that ends then need not drop it.
#[tactic(auto, using(crate::proofs::RunLemmas::begins_nothing, crate::proofs::RunLemmas::begins_text, crate::proofs::RunLemmas::writes_text))]
pub fn run_script_leaving<K: ScriptKind, S: Source, T: Sink>(
    alloc: Global,
    source: &mut S,
    sink: &mut T,
    leftover: &mut Option<K::Leftover>,
) -> RunStatus
    requires read_count { S.failed source.old < 2 ^ 64 - 1 }
    requires write_count { T.failed sink.old < 2 ^ 64 - 1 }
    ensures text { WritesTextOf K.output_to (S.remaining source.old)
        (T.written sink.old) (T.written sink.new) result }
    ensures devices { LeavesDevices K.output_to S.Source source.old source.new
        T.Sink sink.old sink.new result }
{
    let bytes = match read_all(alloc, source) {
        Ok(bytes) => bytes,
        Err(ReadFault::OutOfMemory) => return RunStatus::OutOfMemory,
        Err(ReadFault::Device) => return RunStatus::DeviceFailed,
        Err(ReadFault::Limit) => return RunStatus::DeviceFailed,
    };
    let Ok(output) = output_for::<K>(alloc, bytes, leftover) else {
        return RunStatus::OutOfMemory;
    };
    match write_all(sink, output.text.as_bytes()) {
        Ok(()) => output.status,
        Err(Failed) => RunStatus::DeviceFailed,
    }
}
