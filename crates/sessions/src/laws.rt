//! Laws of a session: each line has one answer, given in turn, and what the end of a session
//! says. No code: each function's contract is a law of the definitions.
ghost use Rattle.sessions.specs.Laws.{AnsweredAtEnd, AnswersBeforeItReadsOn, CarriesOutLines};
ghost use Rattle.sessions.specs.Laws.{GoesOnInTurn, GoesOnKnown, LinesOrNothing};
ghost use Rattle.sessions.specs.Laws.{NeverWritesAhead, OneAnswerForEach};
ghost use Rattle.sessions.specs.Laws.{AnswersWithoutMemory, ReadsAreThese, SomeOfTwoLines};
ghost use Rattle.sessions.specs.Laws.{StatusTellsFailures, UnendedIsLong};

use crate::answering::Answering;
use crate::device::Device;

/// Each line has one answer. If none of them is `out of memory`, they are those of the rules, in order,
/// and all lines were carried out. Whatever was answered `out of memory`, the state is that after some
/// of the lines, in order: a line is carried out whole or not at all.
pub fn answers_of_lines_law<A: Answering>()
    ensures one_for_each { OneAnswerForEach A.rules }
    ensures or_nothing { LinesOrNothing A.rules }
{}

/// A device that shows what is left to read, what was written and its history goes on to show them: what
/// came is taken from the front of what was left, what was written is added at the end, and the history
/// is longer by the events. Events that follow others are one list with them.
pub fn known_device_law<T: Device>()
    ensures known { GoesOnKnown T.Name }
    ensures in_turn { GoesOnInTurn T.Name }
{}

/// A session writes no answer before its line has come whole, and reads on only when it has answered.
pub fn answers_in_turn_law<A: Answering>()
    ensures never_ahead { NeverWritesAhead A.rules }
    ensures before_reads { AnswersBeforeItReadsOn A.rules }
{}

/// Unless a write failed, the answers to all lines are written at the end. However a session ends, its
/// state is that after some of the lines that had come, in order. It ends before the end of its input
/// only if that has 2^64 - 1 bytes; and the status says which call failed.
pub fn ended_session_law<A: Answering, T: Device>()
    ensures answered { AnsweredAtEnd A.rules T.Name }
    ensures carried_out { CarriesOutLines A.rules T.Name }
    ensures unended { UnendedIsLong A.rules T.Name }
    ensures failures { StatusTellsFailures }
{}

/// Edge cases of the words of these laws: which lines are some of others, in order; whether `out of memory` is
/// among answers; and what reads.
pub fn words_of_laws_edges()
    ensures some { SomeOfTwoLines }
    ensures without_memory { AnswersWithoutMemory }
    ensures reads { ReadsAreThese }
{}
