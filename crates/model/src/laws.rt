//! The laws of the definitions, by topic.

mod agreement;
mod history;
mod journal;
mod metadata;
mod outcomes;
mod owners;
mod proxies;
mod resolvers;
mod serializability;
mod shares;
mod verdicts;
mod worlds;

pub use agreement::{
    agreed_view_law, agreeing_sources_finish_law, agreeing_sources_law, cells_equal_history_law,
    column_growth_law, column_replies_law, column_verdicts_law, holders_agree_law, view_growth_law,
};
pub use history::{
    history_growth_law, next_record_law, seen_then_unseen_law, split_at_version_law,
    version_chain_law, version_names_row_law,
};
pub use journal::{
    journal_prefix_law, journal_up_to_version_law, one_row_per_record_law, reply_rows_law,
};
pub use metadata::{
    change_at_key_law, fold_keeps_order_law, lock_rule_law, private_copy_law, serving_entry_law,
    tags_of_change_law,
};
pub use outcomes::{
    committed_version_law, finished_batch_law, finished_row_and_version_law, lock_stays_held_law,
    outcome_by_number_law,
};
pub use owners::{
    finite_asking_tests_law, map_asks_as_moves_law, map_asks_by_definition_law,
    map_stands_for_moves_law, moves_of_history_law, owners_of_history_law,
    trimming_keeps_walks_law, visited_resolvers_law, walk_visits_law,
};
pub use proxies::{
    finish_by_replies_law, finish_in_world_law, may_begin_law, proxy_journal_law,
    proxy_routing_law, replies_agree_law,
};
pub use resolvers::{
    acknowledged_version_law, enough_requests_remembered_law, enough_rows_remembered_law,
    judged_requests_law, offer_answer_law, request_rule_law, requests_tell_records_law,
    resolver_answer_law, resolver_stands_for_requests_law,
};
pub use serializability::{lock_row_law, overlap_by_begins_law, serial_law};
pub use shares::{
    forgetting_keeps_verdicts_law, judged_shares_law, last_versions_decide_law,
    parts_by_writes_law, shares_by_writes_law, verdicts_append_law, verdicts_of_share_law,
};
pub use verdicts::{
    conflict_by_pairs_law, joined_verdict_law, later_records_change_nothing_law,
    missing_is_conflict_law,
};
pub use worlds::{
    answers_of_history_law, events_append_law, finish_keeps_step_law, offer_keeps_step_law,
    parts_in_step_law, run_keeps_history_law, sequence_keeps_step_law,
};
