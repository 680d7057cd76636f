//! A run of a threads script, over any source and sink.

ghost use Rattle.std.specs.Prelude.{◌≡◌, ◌-◌, ◌^◌, ◌<◌, IfOk, IsOk, IsErrOf};
ghost use Rattle.scripts.specs.Statuses.{IsWholeText};
ghost use Rattle.threads_run.specs.Runs.{IsOutputFor, RunsThreads, view_of_output};
ghost use Rattle.threads_scripts.specs.Scripts.{script_of};
ghost use Rattle.threads_lines.specs.declared.faults.RunFault.TheVariants as faults;

use crate::text::threads_text;
use scripts::{
    Failed, Output, ReadFault, RunStatus, Sink, Source, output_of_fault, read_all, write_all,
};
use std::alloc::Global;
use std::sync::Wait;
use std::thread::Threads;
use threads_lines::RunFault;
use threads_scripts::read_threads;

/// Reads a threads script from the source to its end, commits its batches in a thread for each
/// proxy, and writes its text. Nothing is written before all threads have ended,
/// nor if a read fails, the limit on read calls is passed, or the threads have no text.
pub fn run_threads<R: Threads + Wait + Sync, S: Source, T: Sink>(
    rt: &R,
    alloc: Global,
    source: &mut S,
    sink: &mut T,
) -> RunStatus
    requires read_count { S.failed source.old < 2 ^ 64 - 1 }
    requires write_count { T.failed sink.old < 2 ^ 64 - 1 }
    ensures { RunsThreads S.Source source.old source.new T.Sink sink.old sink.new result }
{
    let bytes = match read_all(alloc, source) {
        Ok(bytes) => bytes,
        Err(ReadFault::OutOfMemory) => return RunStatus::OutOfMemory,
        Err(ReadFault::Device) => return RunStatus::DeviceFailed,
        Err(ReadFault::Limit) => return RunStatus::DeviceFailed,
    };
    let output = match threads_output(rt, alloc, &bytes) {
        Ok(output) => output,
        Err(fault) => return fault.status(),
    };
    match write_all(sink, output.text.as_bytes()) {
        Ok(()) => output.status,
        Err(Failed) => RunStatus::DeviceFailed,
    }
}

/// The output for a threads script: its text, or its first fault (this project's profile).
fn threads_output<R: Threads + Wait + Sync>(
    rt: &R,
    alloc: Global,
    bytes: &[u8],
) -> Result<Output, RunFault>
    ensures answer { IfOk result (λ output. IsOutputFor bytes.now (view_of_output output)) }
    ensures answered { IfOk result (λ output. IsWholeText output.status) }
    ensures refused { IsErrOf result faults.Refused → IsOk (script_of bytes.now) }
{
    match read_threads(alloc, bytes) {
        Ok(script) => Ok(Output {
            text: threads_text(rt, alloc, &script)?,
            status: RunStatus::Done,
        }),
        Err(fault) => Ok(output_of_fault(alloc, fault)?),
    }
}
