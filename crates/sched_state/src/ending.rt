// What a step comes to.

ghost use Rattle.std.specs.Prelude.{◌≡◌, ◌||◌};
ghost use Rattle.exp_runs.specs.declared.run.Status.TheVariants as status;
ghost use Rattle.exp_runs.specs.Statuses.{is_paused, is_running};
ghost use Rattle.sched_state.specs.declared.entry.StepWord.TheVariants as word;
ghost use Rattle.sched_state.specs.Reports.{after_kernel, checked, fails, goes_on, status_then};
ghost use Rattle.sched_state.specs.State.{SchedState};
ghost use Rattle.sched_state.specs.Stepped.{effect_of};

use crate::entry::StepWord;
use exp_runs::{Run, Status};
use rtio_types::Outcome;

/// What a step comes to: its word, and where the run stands then.
#[derive(Clone, Copy, Debug)]
pub struct StepEnd {
    /// What became of it.
    pub word: StepWord,
    /// Where its run stands, before it is asked whether steps are left.
    pub status: Status,
}

/// The run goes on.
pub fn goes_on() -> StepEnd
    ensures { (state : SchedState) → effect_of result state ≡ goes_on state }
{
    StepEnd {
        word: StepWord::Ok,
        status: Status::Running,
    }
}

/// The run failed.
pub fn fails(word: StepWord) -> StepEnd
    ensures { (state : SchedState) → effect_of result state ≡ fails word state }
{
    StepEnd {
        word,
        status: Status::Failed,
    }
}

/// The run was ordered to end.
pub fn terminated() -> StepEnd
    ensures { (state : SchedState) → effect_of result state ≡ record { word = word.Terminated; status = status.Terminated; state = state } }
{
    StepEnd {
        word: StepWord::Terminated,
        status: Status::Terminated,
    }
}

/// What a kernel comes to.
pub fn kernel_end(outcome: Outcome) -> StepEnd
    ensures { (state : SchedState) → effect_of result state ≡ after_kernel outcome state }
{
    match outcome {
        Outcome::Returned => goes_on(),
        Outcome::Raised(exception) => fails(StepWord::Raised(exception)),
        Outcome::Budget => fails(StepWord::Budget),
        Outcome::Horizon => fails(StepWord::Horizon),
    }
}

/// What a question for termination comes to.
pub fn check_end(run: &Run) -> StepEnd
    ensures { (state : SchedState) → effect_of result state ≡ checked run.now state }
{
    if run.terminate {
        terminated()
    } else {
        goes_on()
    }
}

/// Where a run stands after a step, by its position and the number of its steps.
pub fn status_then(status: Status, pos: u32, steps: usize) -> Status
    ensures { result ≡ status_then status pos steps }
{
    match status {
        Status::Running if pos as usize >= steps => Status::RunDone,
        other => other,
    }
}

/// Whether a run that stands here holds a core or lent it.
pub fn is_stacked(status: Status) -> bool
    ensures { result ≡ (is_running status || is_paused status) }
{
    matches!(status, Status::Running | Status::Paused)
}
