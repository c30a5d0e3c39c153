// What holds of the fates of outputs.

ghost use Rattle.std.specs.Prelude.{◌≡◌, ◌+◌, length};
ghost use Rattle.rtio_core.specs.Core.{CoreState};
ghost use Rattle.rtio_core.specs.Lawful.{IsLawful};
ghost use Rattle.rtio_core.specs.Reply.{outputs_at};
ghost use Rattle.trace_fates.specs.Asked.{outputs_of};
ghost use Rattle.trace_fates.specs.Fates.{came_out, lost};
ghost use Rattle.trace_fates.specs.Laws.{IsToldOnce, TellsAsked, TellsLate, TellsSubmitted};
ghost use Rattle.trace_fates.specs.Reasons.{TellsWhy};

use rtio_headline::what_is_put_out_was_submitted;

/// Of the outputs that were submitted exactly those came out that the headline says are put out. In every lawful history
/// this holds of all that were asked for, since none that came too late was submitted.
pub fn each_output_has_one_fate()
    ensures submitted { (core : CoreState) → TellsSubmitted core }
    ensures asked { (core : CoreState) → IsLawful core.config core.history → TellsAsked core }
{}

/// In every lawful history exactly those outputs came too late whose slack (their stamp, less what the counter read at
/// the answer) is below 8 mu.
pub fn late_is_a_slack_below_a_cycle()
    ensures { (core : CoreState) → IsLawful core.config core.history → TellsLate core }
{}

/// In every lawful history each output that was asked for either is put out, or stands once among the lost ones.
pub fn each_output_is_put_out_or_lost_once()
    ensures { (core : CoreState) → IsLawful core.config core.history → IsToldOnce core }
{}

/// In every lawful history the reason for each output's fate holds, in the words of the headline, and none of those that are
/// told before it does. One that was overridden tells the first later one that overrode it.
pub fn each_fate_is_the_first_reason_that_holds()
    ensures { (core : CoreState) → IsLawful core.config core.history → TellsWhy core }
{}

/// In every lawful history as many outputs came out as the core has put out, and the others are lost.
pub fn as_many_came_out_as_were_put_out()
    ensures out { (core : CoreState) → IsLawful core.config core.history →
        length (came_out core) ≡ length (outputs_at core.config core.history core.counter) }
    ensures all { (core : CoreState) → length (outputs_of core.history) ≡ length (came_out core) + length (lost core) }
{
    what_is_put_out_was_submitted();
}
