//! What holds of every lawful history of a scheduler: where runs stand, who waits for whom, which jobs are in flight, that
//! something always comes, and what the datasets are.
#![tactic(auto)]

mod laws;

pub use laws::{
    a_job_is_in_flight_until_it_is_reported, a_job_is_reported_by_who_took_it,
    a_job_taken_flies_until_it_lands, a_paused_run_is_preempted_by_a_higher_one,
    a_paused_run_waits_for_higher_ones, a_run_in_flight_has_one_chair,
    a_run_in_flight_stands_by_its_job, a_run_keeps_what_it_was_submitted_with,
    at_most_1152_jobs_are_left, datasets_are_set_and_appended_in_order, each_report_uses_up_a_job,
    no_job_is_reported_twice, nothing_is_left_where_nothing_comes, one_job_of_a_run_is_in_flight,
    one_step_of_a_pipeline_is_in_flight, priorities_rise_along_each_stack,
    there_are_at_most_64_runs, what_is_over_stays_over,
};
