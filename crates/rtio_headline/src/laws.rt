// What holds of the outputs of every core, and of every lawful history up to any counter.

ghost use Rattle.std.specs.Prelude.{◌≤◌, ◌*◌, List, length};
ghost use Rattle.rtio_log.specs.declared.LogLine.{LogLine};
ghost use Rattle.rtio_core.specs.Core.{CoreState};
ghost use Rattle.rtio_core.specs.Lawful.{IsLawful};
ghost use Rattle.rtio_core.specs.Reply.{outputs_at};
ghost use Rattle.rtio_core.specs.Told.{TellsLog, log_at};
ghost use Rattle.rtio_headline.specs.Headline.{Headline};

/// The events that a core has put out up to its counter are, by stamp and channel, exactly the outputs that it was asked for
/// and answered with Done, less those overridden and those that its log names as sequence error, collision, busy or cleared.
/// And an output underflowed exactly where the counter had reached its cycle; then its number is that of no event put out and of no
/// line of the log. This holds wherever the history is lawful, at any counter.
pub fn what_is_put_out_was_submitted()
    ensures { (core : CoreState) → IsLawful core.config core.history → Headline core }
{}

/// The trace of a core has no more events than its history has entries, and no kind of its log more lines.
pub fn no_more_is_told_than_was_asked()
    ensures trace { (core : CoreState) → length (outputs_at core.config core.history core.counter) ≤ length core.history }
    ensures log { (core : CoreState) (lines : List LogLine) → TellsLog (log_at core.config core.history core.counter) lines
        → length lines ≤ 4 * length core.history }
{}
