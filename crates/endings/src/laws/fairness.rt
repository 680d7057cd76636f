//! Laws of fairness: which schedules finish all records, and how long they take. No code: each
//! function's contract is a law of the definitions.

ghost use Rattle.endings.specs.Fairness.{FairSegmentsFinishByWork, FairSegmentsFinishByRows};
ghost use Rattle.endings.specs.Fairness.{RoundsAreFair, RoundsFinishByWork, RoundsFinishByRows};
ghost use Rattle.endings.specs.Fairness.{FairSchedulesFinishAll, SomeScheduleIsFair};

/// Each event that can be done when a segment begins comes in that segment. Then all records are
/// finished after as many segments as work is left, and after one more than there are rows.
pub fn segments_finish_all_law()
    ensures work { FairSegmentsFinishByWork }
    ensures rows { FairSegmentsFinishByRows }
{}

/// A round makes every offer and every finish that the cluster has. Rounds are such segments, so
/// they finish all records within the same bounds.
pub fn rounds_finish_all_law()
    ensures fair { RoundsAreFair }
    ensures work { RoundsFinishByWork }
    ensures rows { RoundsFinishByRows }
{}

/// A schedule without end, in which each event that can be done at some time comes then or later,
/// finishes all records. From every sound world there is one.
pub fn fair_schedule_finishes_law()
    ensures finishes { FairSchedulesFinishAll }
    ensures there { SomeScheduleIsFair }
{}
