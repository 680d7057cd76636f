//! Laws of how bytes are split into lines.
ghost use Rattle.std.specs.Prelude.{ℕ, List};
ghost use Rattle.sessions.specs.Laws.{OneSplit};
ghost use Rattle.sessions.specs.Lines.{LastLineCounts, Splits, open_line_of, whole_lines};

/// A law: the whole lines of bytes, each with a line feed, and the open line are those bytes, and have
/// no other line feed.
pub fn lines_are_exact_law()
    ensures { (bytes : List ℕ) → Splits bytes (whole_lines bytes) (open_line_of bytes) }
{}

/// A law: only these lines do so.
pub fn one_split_law()
    ensures { OneSplit }
{}

/// A law: a last line without a line feed is a line too.
pub fn last_line_counts()
    ensures { LastLineCounts }
{}
