//! The output for a script: a text, and how the run ends.

ghost use Rattle.std.specs.Prelude.{IfOk, IsSome, OnOk};
ghost use Rattle.scripts.specs.Outputs.{IsOutput, refused_output};
ghost use Rattle.scripts.specs.ScriptFaults.{fault_number};
ghost use Rattle.scripts.specs.Statuses.{IsWholeText};

use crate::line_pieces::print_refused;
use crate::script_fault::ScriptFault;
use crate::status::RunStatus;
use std::alloc::Global;
use system_keys::OutOfMemory;

/// A text to write, and the status that goes with it.
#[derive(Debug, Drop)]
pub struct Output {
    /// The lines.
    pub text: String,
    /// How the run ends once the text is written.
    pub status: RunStatus,
}

/// The output for a script with this fault: the line of the refusal. Fails only with `OutOfMemory`,
/// which is also what it makes of the fault `OutOfMemory`.
pub fn output_of_fault(alloc: Global, fault: ScriptFault) -> Result<Output, OutOfMemory>
    ensures numbered { OnOk result (IsSome (fault_number fault)) }
    ensures output { IfOk result (IsOutput (refused_output fault)) }
    ensures answered { IfOk result (λ output. IsWholeText output.status) }
{
    let number = fault.number().ok_or(OutOfMemory)?;
    let mut text = String::new(alloc);
    print_refused(&mut text, number, fault.name())?;
    text.push_str("\n")?;
    Ok(Output {
        text,
        status: RunStatus::ScriptRefused,
    })
}
