//! The texts of fold and turns scripts in memory.

ghost use Rattle.std.specs.Prelude.{◌≡◌, ◌<◌, length, IfOk, IsErrOf, OnErr};
ghost use Rattle.scripts.specs.Devices.{input_limit};
ghost use Rattle.scripts.specs.Statuses.{IsWholeText};
ghost use Rattle.fold_run.specs.Text.{fold_text};
ghost use Rattle.turns_run.specs.Text.{turns_text};
ghost use Rattle.script_texts.specs.Texts.{IsTextOf};

use crate::memory_sink::MemorySink;
use fold_run::run_fold;
use scripts::{Reader, RunStatus};
use std::alloc::Global;
use turns_run::run_turns;

// The longest script that a run reads to its end, in bytes.
const INPUT_LIMIT: usize = 4_294_963_200;

/// The text and the status of a script.
#[derive(Debug, Drop)]
pub struct ScriptText {
    /// The whole text.
    pub bytes: Vec<u8>,
    /// How the run ended: `Done`, or `ScriptRefused` with the line of the refusal as text.
    pub status: RunStatus,
}

/// Why there is no text.
#[derive(Clone, Copy, Debug, PartialEq, Eq)]
pub enum TextFault {
    /// An allocation failed.
    OutOfMemory,
    /// The script is longer than the limit on read calls permits.
    TooLong,
}

/// Returns the text of a fold script, or of its refusal (this project's profile).
pub fn fold_text(alloc: Global, script: &[u8]) -> Result<ScriptText, TextFault>
    ensures text { IfOk result (IsTextOf (fold_text script.now)) }
    ensures answered { IfOk result (λ made. IsWholeText made.status) }
    ensures long { IsErrOf result TextFault.TooLong → input_limit < length script.now }
    ensures refused { input_limit < length script.now → IsErrOf result TextFault.TooLong }
{
    if script.len() > INPUT_LIMIT {
        return Err(TextFault::TooLong);
    }
    let mut reader = Reader::new(script);
    let mut sink = MemorySink::new(alloc);
    let status = run_fold(alloc, &mut reader, &mut sink);
    text_of(sink, status)
}

/// Returns the text of a turns script, or of its refusal (this project's profile).
pub fn turns_text(alloc: Global, script: &[u8]) -> Result<ScriptText, TextFault>
    ensures text { IfOk result (IsTextOf (turns_text script.now)) }
    ensures answered { IfOk result (λ made. IsWholeText made.status) }
    ensures long { IsErrOf result TextFault.TooLong → input_limit < length script.now }
    ensures refused { input_limit < length script.now → IsErrOf result TextFault.TooLong }
{
    if script.len() > INPUT_LIMIT {
        return Err(TextFault::TooLong);
    }
    let mut reader = Reader::new(script);
    let mut sink = MemorySink::new(alloc);
    let status = run_turns(alloc, &mut reader, &mut sink);
    text_of(sink, status)
}

/// What a sink holds after a run that ended so. Without a whole text the fault is `OutOfMemory`.
fn text_of(sink: MemorySink, status: RunStatus) -> Result<ScriptText, TextFault>
    ensures text { IfOk result (λ made. (made.bytes ≡ sink.bytes) × (made.status ≡ status)) }
    ensures answered { IfOk result (λ made. IsWholeText made.status) }
    ensures memory { OnErr result (result ≡ Err TextFault.OutOfMemory) }
{
    match status {
        RunStatus::Done | RunStatus::ScriptRefused => Ok(ScriptText {
            bytes: sink.bytes,
            status,
        }),
        _ => Err(TextFault::OutOfMemory),
    }
}
