//! Edge cases of what a run has written when it ends. No code: each contract is a list of cases.

ghost use Rattle.scripts.specs.Edges.{ABeginningIsWritten, TheWholeTextIsWritten};

/// What a run may leave of a sink by the answer to its input.
pub fn written_edges()
    ensures whole { TheWholeTextIsWritten }
    ensures beginning { ABeginningIsWritten }
{}
