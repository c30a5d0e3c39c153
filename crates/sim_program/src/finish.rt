// How a run is finished.
ghost use Rattle.std.specs.Prelude.{◌≡◌};
ghost use Rattle.sim_program.specs.Reports.{finish_of};

use rtio_types::Outcome;
use top_calls::Finish;

/// The finish of a run with this outcome, after which an event is still to be put out, or none.
pub fn finish_of(outcome: Outcome, pending: bool) -> Finish
    ensures { result ≡ finish_of outcome pending }
{
    match outcome {
        Outcome::Returned => {
            if pending {
                Finish::Unfinished
            } else {
                Finish::Whole
            }
        }
        Outcome::Raised(_) => Finish::Raised,
        Outcome::Budget | Outcome::Horizon => Finish::Unfinished,
    }
}
