// What holds of every lawful history.

ghost use Rattle.sched_laws.specs.Ladder.{DatasetsAreSetAndAppended, NeverStuck, OneStepEach, PausedRunsWait, PreemptsByPriority, PrioritiesRise, RunsAreFew, RunsStay};
ghost use Rattle.sched_laws.specs.Workers.{FlightsFollow, FlyingJobsStand, JobsFlyUntilReported, OneChairARun, OneFlightARun, OverStays, TakersReport};
ghost use Rattle.sched_laws.specs.Left.{FewJobsAreLeft, JobsAreReportedOnce, ReportsUseUp};

/// A run is preempted only while it is paused, by a prepared run of its pipeline that has a strictly greater priority and began
/// to prepare when its due date was reached.
pub fn a_paused_run_is_preempted_by_a_higher_one()
    ensures { PreemptsByPriority }
{}

/// A paused run goes on only where no run of its pipeline is higher.
pub fn a_paused_run_waits_for_higher_ones()
    ensures { PausedRunsWait }
{}

/// Of the runs that hold or lent the core of a pipeline, each has a greater priority than the one that it stopped.
pub fn priorities_rise_along_each_stack()
    ensures { PrioritiesRise }
{}

/// Of each pipeline at most one step is in flight.
pub fn one_step_of_a_pipeline_is_in_flight()
    ensures { OneStepEach }
{}

/// Where no job is due, none is in flight and nothing comes later, no arrival is left and every run ended.
pub fn nothing_is_left_where_nothing_comes()
    ensures { NeverStuck }
{}

/// There are never more than 64 runs.
pub fn there_are_at_most_64_runs()
    ensures { RunsAreFew }
{}

/// A run keeps its experiment, its pipeline, its due date, its priority and its flush flag.
pub fn a_run_keeps_what_it_was_submitted_with()
    ensures { RunsStay }
{}

/// The datasets are those that the sets and appends of the history make, in its order.
pub fn datasets_are_set_and_appended_in_order()
    ensures { DatasetsAreSetAndAppended }
{}

/// A job is in flight for a chair while that chair has taken it and not yet reported it, and only then.
pub fn a_job_is_in_flight_until_it_is_reported()
    ensures { JobsFlyUntilReported }
{}

/// A job is reported by the chair that took it, which hasn't reported it since.
pub fn a_job_is_reported_by_who_took_it()
    ensures { TakersReport }
{}

/// Of each run at most one job is in flight.
pub fn one_job_of_a_run_is_in_flight()
    ensures { OneFlightARun }
{}

/// Jobs of one run that are in flight are the same job, for the same chair.
pub fn a_run_in_flight_has_one_chair()
    ensures { OneChairARun }
{}

/// A job that is taken goes into flight beside the others, one that is reported leaves, and no other entry changes what is in flight.
pub fn a_job_taken_flies_until_it_lands()
    ensures { FlightsFollow }
{}

/// While a job is in flight its run is there, with the status of the job, a pipeline, an experiment and a source of the session, and
/// the step of the job at its position.
pub fn a_run_in_flight_stands_by_its_job()
    ensures { FlyingJobsStand }
{}

/// Once no arrival is left and every run ended, no job is taken or reported and nothing changes; a halt may still be written down.
pub fn what_is_over_stays_over()
    ensures { OverStays }
{}

/// With each report there is at least one job less that may still be reported, and no entry adds any.
pub fn each_report_uses_up_a_job()
    ensures { ReportsUseUp }
{}

/// There are never more than 1,152 jobs left: of each of 64 runs a preparation, 16 steps and an analysis.
pub fn at_most_1152_jobs_are_left()
    ensures { FewJobsAreLeft }
{}

/// No job is reported twice: each step of a run stands in at most one report.
pub fn no_job_is_reported_twice()
    ensures { JobsAreReportedOnce }
{}
