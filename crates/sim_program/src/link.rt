// The lines of a link over which a run's events are sent.
ghost use Rattle.std.specs.Prelude.{◌+◌, ◌≤◌, length, IfOk};
ghost use Rattle.limits.specs.Limits.{most_budget, most_depth, most_lanes};
ghost use Rattle.sim_program.specs.Links.{IsSentAs};

use crate::run::Run;
use rtio_headline::no_more_is_told_than_was_asked;
use sat_rounds::{LinkWord, link_text, run_rounds};
use std::alloc::{AllocError, Global};

/// Sends what a run's core put out over a link to so many lanes of such a depth, in rounds of the word, and tells of
/// the link. It fails only for want of memory. A run has at most 1,000,000 requests, its start and its end.
pub fn lines_of(
    alloc: Global,
    run: &Run,
    lanes: u32,
    depth: u32,
    word: &LinkWord,
) -> Result<Vec<u8>, AllocError>
    requires lanes { (1 ≤ lanes) × (lanes ≤ most_lanes) }
    requires depth { (1 ≤ depth) × (depth ≤ most_depth) }
    requires few { length run.now.core.history ≤ most_budget + 2 }
    ensures { IfOk result (λ bytes. IsSentAs word.now lanes depth run.now.core bytes.items) }
{
    no_more_is_told_than_was_asked();
    // No event is of a later cycle than the counter, nor the counter beyond the horizon.
    let _lawful = run.core.history();
    let link = run_rounds(alloc, lanes, depth, word, run.core.trace())?;
    link_text(alloc, &link)
}
