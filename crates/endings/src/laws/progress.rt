//! Laws of progress: no schedule gets stuck. No code: each function's contract is a law of the
//! definitions.

ghost use Rattle.endings.specs.Progress.{TheNextRowIsJudged, AProxyWaitsForAResolverThatCanJudge};
ghost use Rattle.endings.specs.Progress.{NothingIsStuck, EachStepTakesOne, OthersChangeNothing};
ghost use Rattle.endings.specs.Progress.{AsManyAreDoneAsWorkIsLess, NothingLeftIsAllFinished};
ghost use Rattle.endings.specs.Progress.{AllFinishedLeavesNothing, AllCanBeFinished};
ghost use Rattle.endings.specs.Progress.{EveryRunCanBeFinished};
ghost use Rattle.endings.specs.Orders.{EachIsDoneOnce};
ghost use Rattle.endings.specs.EventsLeft.{TheEventsLeftAreWork, TheEventsLeftAreDone};
ghost use Rattle.endings.specs.EventsLeft.{TheEventsLeftFinishAll, AsManyEventsAreLeftAsWork};

/// A resolver that has not judged every row judges the next one that is offered to it. A proxy with
/// an unfinished record finishes it, or the refusal names a resolver that can judge its next row. So
/// while a record is unfinished, some offer or finish is done.
pub fn never_stuck_law()
    ensures next { TheNextRowIsJudged }
    ensures waits { AProxyWaitsForAResolverThatCanJudge }
    ensures stuck { NothingIsStuck }
{}

/// Each offer or finish that is done takes one from the work that is left, and any other changes
/// nothing. So of any such events as many are done as the work that is left gets less. None is left
/// exactly if all records are finished.
pub fn work_decreases_law()
    ensures step { EachStepTakesOne }
    ensures others { OthersChangeNothing }
    ensures count { AsManyAreDoneAsWorkIsLess }
    ensures none { NothingLeftIsAllFinished }
    ensures all { AllFinishedLeavesNothing }
{}

/// From any world some offers and finishes finish all records, each of them done, and as many as
/// work is left. So every run can be continued until all records are finished.
pub fn completion_law()
    ensures finish { AllCanBeFinished }
    ensures run { EveryRunCanBeFinished }
{}

/// What is left can be written down as events: row by row the offers to the resolvers that have not
/// judged the row, and then a finish for each unfinished record. Each of them is done, they are as many
/// as work is left, and after them all records are finished.
pub fn events_left_law()
    ensures work { TheEventsLeftAreWork }
    ensures done { TheEventsLeftAreDone }
    ensures finish { TheEventsLeftFinishAll }
    ensures count { AsManyEventsAreLeftAsWork }
{}

/// No resolver judges a row twice, and no batch is finished twice.
pub fn judged_and_finished_once_law()
    ensures { EachIsDoneOnce }
{}
