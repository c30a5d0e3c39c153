// The slack of an output.

ghost use Rattle.std.specs.Prelude.{◌≡◌};
ghost use Rattle.rtio_types.specs.Time.{reading};
ghost use Rattle.trace_fates.specs.Slack.{slack_of};

use crate::TracedOutput;
use rtio_types::MU_PER_CYCLE;

/// How much later the stamp of an output was than what the counter read at its answer (mu); below 0 where it was earlier.
pub fn slack_of(output: &TracedOutput) -> i128
    ensures { result ≡ slack_of output.now }
{
    i128::from(output.event.stamp) - reading(output.at) as i128
}

/// What a counter of any number of cycles reads (mu).
pub fn reading(counter: u64) -> u128
    ensures { result ≡ reading counter }
{
    u128::from(MU_PER_CYCLE) * u128::from(counter)
}
