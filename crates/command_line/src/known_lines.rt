//! Scenarios: which command lines of one word fold, carry out events, commit in threads or are
//! rejected. No code: the contract shows what their definitions say.
ghost use Rattle.command_line.specs.KnownLines.{KnownLinesAreThese};

/// Which command lines of one word fold, carry out events, commit in threads, or are rejected.
pub fn known_lines_scenarios()
    ensures { KnownLinesAreThese }
{}
