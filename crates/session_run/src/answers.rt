//! The answer to a line that has a fault.

ghost use Rattle.std.specs.Prelude.{[], IsSome, OnErr, OnOk};
ghost use Rattle.pages.specs.Printing.{Prints};
ghost use Rattle.scripts.specs.Outputs.{refused_output};
ghost use Rattle.scripts.specs.ScriptFaults.{fault_number};
ghost use Rattle.session_run.specs.Session.{with_empty_line};

use pages::Page;
use scripts::{ScriptFault, output_of_fault};
use std::alloc::Global;
use system_keys::OutOfMemory;

/// Prints the answer to a line with this fault. Fails only with `OutOfMemory`, which is also what it
/// makes of the fault `OutOfMemory`; then nothing is printed.
pub(crate) fn print_fault<P: Page>(
    alloc: Global,
    fault: ScriptFault,
    page: &mut P,
) -> Result<(), OutOfMemory>
    ensures numbered { OnOk result (IsSome (fault_number fault)) }
    ensures text { OnOk result (Prints P.has_printed page.old page.new
        (with_empty_line (refused_output fault).text)) }
    ensures unprinted { OnErr result (Prints P.has_printed page.old page.new []) }
{
    let output = output_of_fault(alloc, fault)?;
    page.push(output.text.as_str());
    page.push("\n");
    Ok(())
}
