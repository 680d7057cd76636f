//! The trait of a kind of script, and the output for a script of such a kind.

ghost use Rattle.std.specs.Prelude.{◌≡◌, ◌++◌, ℕ, List, IfOk, IfSome, OnOk, Ok, string_bytes};
ghost use Rattle.scripts.specs.Outputs.{OutputView, IsOutput, output_for, done};
ghost use Rattle.scripts.specs.ScriptFaults.{IsReadAs};
ghost use Rattle.scripts.specs.Scripts.{read_as};
ghost use Rattle.scripts.specs.Statuses.{IsWholeText};

use crate::checks::Checked;
use crate::output::{Output, output_of_fault};
use crate::reading::read_whole;
use crate::script_fault::ScriptFault;
use crate::shaped::Shaped;
use crate::status::RunStatus;
use std::alloc::Global;
use system_keys::OutOfMemory;

/// What is printed of a script while it is read, and what was made for it.
#[derive(Drop)]
pub struct Printed<L: Drop> {
    /// The lines.
    pub text: String,
    /// What was made to print them, and is needed no more.
    pub leftover: L,
}

/// A kind of script: how one is read, and what is printed of it.
pub trait ScriptKind {
    /// A script as it is written.
    type Raw: Shaped;

    /// A script whose keys, values and ranges are checked.
    type Script: Checked<Self::Raw>;

    /// What is made to print a script as its tokens come.
    type Leftover: Drop;

    ghost printed: { Self.Script → List ℕ };

    ghost output_to: { List ℕ → OutputView };

    /// Prints the lines of a script as its tokens come, where the kind needs no whole script.
    /// `None` decides nothing: the script is then read and printed.
    fn stream(alloc: Global, bytes: &[u8]) -> Option<Printed<Self::Leftover>>
        ensures { IfSome result
            (λ printed. output_to bytes.now ≡ done (string_bytes printed.text)) };

    /// Prints the lines of a script. Fails only with `OutOfMemory`.
    fn print(alloc: Global, text: &mut String, script: Self::Script) -> Result<(), OutOfMemory>
        ensures { OnOk result (string_bytes text.new
            ≡ string_bytes text.old ++ printed script) };

    ghost answers: { (bytes : List ℕ) → output_to bytes
        ≡ output_for printed (read_as Self.Raw.shape Self.Script.checked bytes) };
}

/// The output for a script of this kind: what is printed of it, or its first fault (this project's
/// profile). So the bytes are read twice at most: as their tokens come, and as a JSON value. What was made
/// for a script that is printed as it comes goes into `leftover`. Fails only with `OutOfMemory`.
pub fn output_for<K: ScriptKind>(
    alloc: Global,
    bytes: Vec<u8>,
    leftover: &mut Option<K::Leftover>,
) -> Result<Output, OutOfMemory>
    ensures output { IfOk result (IsOutput (K.output_to bytes.items)) }
    ensures answered { IfOk result (λ output. IsWholeText output.status) }
{
    if let Some(printed) = K::stream(alloc, &bytes) {
        *leftover = Some(printed.leftover);
        return Ok(Output {
            text: printed.text,
            status: RunStatus::Done,
        });
    }
    output_for_whole::<K>(alloc, bytes)
}

/// The output for a script of this kind, which is read before anything of it is printed.
fn output_for_whole<K: ScriptKind>(alloc: Global, bytes: Vec<u8>) -> Result<Output, OutOfMemory>
    ensures output { IfOk result (IsOutput (K.output_to bytes.items)) }
    ensures answered { IfOk result (λ output. IsWholeText output.status) }
{
    match script_of_kind::<K>(alloc, bytes) {
        Ok(script) => output_of_script::<K>(alloc, script),
        Err(fault) => output_of_fault(alloc, fault),
    }
}

/// The script that the bytes hold, or their first fault. Drops the bytes.
fn script_of_kind<K: ScriptKind>(alloc: Global, bytes: Vec<u8>) -> Result<K::Script, ScriptFault>
    ensures { IsReadAs (λ script. script) result
        (read_as K.Raw.shape K.Script.checked bytes.items) }
{
    read_whole::<K::Raw, K::Script>(alloc, &bytes)
}

fn output_of_script<K: ScriptKind>(alloc: Global, script: K::Script) -> Result<Output, OutOfMemory>
    ensures output { IfOk result (IsOutput (output_for K.printed (Ok script))) }
    ensures answered { IfOk result (λ output. IsWholeText output.status) }
{
    let mut text = String::new(alloc);
    K::print(alloc, &mut text, script)?;
    Ok(Output {
        text,
        status: RunStatus::Done,
    })
}
