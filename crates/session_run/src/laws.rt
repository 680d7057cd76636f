//! Laws of the text of a session: it answers all lines, and the events of a turns script have the
//! answers of that script.
ghost use Rattle.session_run.specs.Runs.{RunsAnswerInput, RunsInTurn, RunsLeaveSerial};
ghost use Rattle.session_run.specs.Runs.{RunsNeverWriteAhead, StatusTellsCounts};
ghost use Rattle.session_run.specs.Session.{TextAnswersLines, session_rules};
ghost use Rattle.session_run.specs.Shapes.{ClustersAreLines, EventsAreLines, ShowsAreLines};
ghost use Rattle.session_run.specs.TurnsScripts.{LinesGiveTurns, LinesInOrderGiveTurns};
ghost use Rattle.session_run.specs.TurnsScripts.{SessionGivesTurns};
ghost use Rattle.sessions.specs.Laws.{LinesOrNothing};

/// A law: the text of a session answers all lines of its input, by the rules.
pub fn text_answers_lines_law()
    ensures { TextAnswersLines }
{}

/// A law: if the lines of a session begin the cluster of a turns script, carry out its events and then
/// show each proxy, then the answers, without their empty lines, are the text of the script.
pub fn lines_give_turns_law()
    ensures { LinesGiveTurns }
{}

/// A law: the same, of lines of which each is said to be what it asks.
pub fn lines_in_order_give_turns()
    ensures { LinesInOrderGiveTurns }
{}

/// A law: the same of bytes, between the text of a session and that of turns.
pub fn session_gives_turns()
    ensures { SessionGivesTurns }
{}

/// A law: an event of a turns script is read as that event when it is a line.
pub fn events_are_lines()
    ensures { EventsAreLines }
{}

/// A law: an object with the only field `cluster` or `show` is a line if its value has the form of one,
/// and never an event.
pub fn other_lines_law()
    ensures clusters { ClustersAreLines }
    ensures shows { ShowsAreLines }
{}

/// A law: a run over a source and a sink answered in turn, and never wrote ahead; and once it is done, it has
/// answered each line of a known input. The records of its cluster obey the rule of commit, and the status
/// says which call failed.
pub fn runs_answer_law()
    ensures in_turn { RunsInTurn }
    ensures input { RunsAnswerInput }
    ensures never_ahead { RunsNeverWriteAhead }
    ensures serial { RunsLeaveSerial }
    ensures failures { StatusTellsCounts }
{}

/// A law: a line is carried out whole or not at all, so the state at the end is that after some of the
/// lines, in order.
pub fn lines_or_nothing()
    ensures { LinesOrNothing session_rules }
{}
