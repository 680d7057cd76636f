//! The laws of how schedules end, by topic.

mod distances;
mod fairness;
mod orders;
mod progress;

pub use distances::{
    catch_up_law, journals_are_prefixes_law, known_rows_law, lacks_only_unfinished_law,
    remembered_rows_law, unbounded_lag_law,
};
pub use fairness::{fair_schedule_finishes_law, rounds_finish_all_law, segments_finish_all_law};
pub use orders::{batches_finish_alike_law, common_end_law, one_end_law, rows_judged_alike_law};
pub use progress::{
    completion_law, judged_and_finished_once_law, never_stuck_law, work_decreases_law,
};
