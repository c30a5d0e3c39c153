// The end of a record block.

ghost use Rattle.std.specs.Prelude.{◌≡◌, ⊤, OnErr};
ghost use Rattle.slack_meaning.specs.Actions.{Completion, State as Run, take_unit};
ghost use Rattle.slack_meaning.specs.Statements.{end_recording, recording_in, save_after};
ghost use Rattle.slack_state.specs.Does.{Does};

use rtio_types::Name;
use slack_state::{Early, Recorder, SpanRecording, State};
use std::alloc::Global;

// Saves what a record block collected, with the cursor as its length. What was set aside is back before the recording is
// saved, and also where no unit is left for it.
fn save(alloc: Global, state: &mut State, name: Name, before: Recorder) -> Result<(), Early>
    ensures { (s : Run) → before ≡ (s.cursor, s.collected) →
        Does result state.new (save_after name (recording_in state.old) s (take_unit state.old)) }
{
    let taken = state.take_unit();
    let length = state.cursor();
    let collected = state.close_recording(before);
    taken?;
    let events = collected.unwrap_or(Vec::new(alloc));
    state.save(name, SpanRecording { events, length })
}

/// The end of a record block whose body has run: what it collected is saved, and nothing where it ended early, which is then
/// how the block ends. The cursor and what was set aside are back in any case.
pub fn end_recording(
    alloc: Global,
    state: &mut State,
    name: Name,
    before: Recorder,
    ran: Result<(), Early>,
) -> Result<(), Early>
    ensures does { (s : Run) (m : Completion ⊤) → before ≡ (s.cursor, s.collected) →
        Does ran state.old m → Does result state.new (end_recording name s m) }
    ensures ended { OnErr ran (result ≡ ran) }
{
    match ran {
        Ok(()) => save(alloc, state, name, before),
        Err(end) => {
            state.close_recording(before);
            Err(end)
        }
    }
}
