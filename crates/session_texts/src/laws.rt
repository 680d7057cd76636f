//! Laws of how the answer to a line is placed in its caller's room. No code: the contract is a law of the
//! definitions.

ghost use Rattle.session_texts.specs.Laws.{AFittingAnswerIsPlaced, AFittingLineIsAnswered};
ghost use Rattle.session_texts.specs.Laws.{ALostAnswerIsNone, OneStatusOnePlace};
ghost use Rattle.session_texts.specs.Laws.{OneStatusOneSession};

/// A law: an answer that fits is placed whole, and a line that did not lack memory is carried out; what a call
/// leaves, of the session too, is determined by its status; and a lost answer is none.
pub fn placed_answers_law()
    ensures fitting { AFittingAnswerIsPlaced }
    ensures place { OneStatusOnePlace }
    ensures line { AFittingLineIsAnswered }
    ensures session { OneStatusOneSession }
    ensures lost { ALostAnswerIsNone }
{}
