//! Laws of how a text is placed in its caller's room. No code: the contract is a law of the definitions.

ghost use Rattle.script_texts.specs.Laws.{AFittingTextIsPlaced, AShortRoomTellsTheLength};
ghost use Rattle.script_texts.specs.Laws.{OneStatusOneOutcome};

/// A law: a text that fits is placed whole, with the status of its script; in a room that is too short nothing
/// is changed, and its length is told; and what a call leaves is determined by its status.
pub fn placed_texts_law()
    ensures one { OneStatusOneOutcome }
    ensures fitting { AFittingTextIsPlaced }
    ensures short { AShortRoomTellsTheLength }
{}
