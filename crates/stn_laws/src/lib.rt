//! Laws of what is answered to questions, queries, scripts and commands on logs, of what mends a conflict, of loosened and robust
//! plans, of what the sites of a world hold, and of what bytes say as frames, sessions and logs. No function of the program calls one.
#![tactic(auto)]

pub use frames::{one_feeding, one_front, one_spelling, some_front};
pub use logs::{no_answer_nothing_saved, one_ending, one_log, some_log, told_word_refuses};
pub use loosened::{
    ends_have_their_durations, fragile_plans_have_no_promise, one_loosened_plan, one_robust_plan,
    promises_are_schedules_of_starts, robust_plans_promise, robust_runs_complete,
    too_many_are_not_few,
};
pub use queries::{chosen_all, every_query_has_an_answer, one_said, same_foreseen};
pub use questions::{
    every_question_has_an_answer, every_state_has_a_next, every_state_has_a_ready_text,
    every_state_has_a_rehearsal, every_state_has_a_report, one_answer, one_ready_text,
    ready_begins_with_next, same_answers,
};
pub use repairs::{kept_is_maximal, one_repairs_text, repairs_lie_on_each_cycle, same_repairs};
pub use scripts::{
    every_script_has_an_output, listed_bounds_read_back, one_script, questions_are_answered,
    ready_is_answered, runs_write_output, scripts_are_runs,
};
pub use sessions::{one_reception, one_session, some_reception, some_session};
pub use worlds::{
    amendments_are_whole, guarded_sites_keep_schedules, guards_are_steps, guards_guard_worlds,
    held_ever_after, none_refused, only_made_items, records_are_bounds, same_items_print_same,
    sites_are_unions, sites_took_same_same_bytes, states_agree, withdrawn_for_good,
};

mod frames;
mod logs;
mod loosened;
mod queries;
mod questions;
mod repairs;
mod scripts;
mod sessions;
mod worlds;
