// The end of a record block.

ghost use Rattle.std.specs.Prelude.{◌≡◌};
ghost use Rattle.meaning_state.specs.Does.{Does};
ghost use Rattle.timeline_sem.specs.Actions.{State as Meant, take_unit};
ghost use Rattle.timeline_sem.specs.Statements.{save_after, save_request};

use meaning_state::{Early, Recorder, State};
use rtio_types::{Name, Recording, Request};
use std::alloc::Global;

// Saves what a record block collected, with the cursor as its length. What was set aside is back before the request is
// made, and also where no unit is left for it.
fn save(alloc: Global, state: &mut State<'_>, name: Name, before: Recorder) -> Result<(), Early>
    ensures { (s : Meant) → before ≡ (s.cursor, s.collected) →
        Does result state.new (save_after (save_request name state.old) s (take_unit state.old)) }
{
    let taken = state.take_unit();
    let length = state.cursor();
    let collected = state.close_recording(before);
    taken?;
    let events = collected.unwrap_or(Vec::new(alloc));
    let recording = Recording { events, length };
    state.ask(Request::Save { name, recording })?;
    Ok(())
}

ghost use Rattle.std.specs.Prelude.{⊤};
ghost use Rattle.timeline_sem.specs.Actions.{Completion};
ghost use Rattle.timeline_sem.specs.Statements.{end_recording};

/// The end of a record block whose body has run: what it collected is saved, and nothing where it ended early. The cursor
/// and what was set aside are back in any case.
pub fn end_recording(
    alloc: Global,
    state: &mut State<'_>,
    name: Name,
    before: Recorder,
    ran: Result<(), Early>,
) -> Result<(), Early>
    ensures { (s : Meant) (m : Completion ⊤) → before ≡ (s.cursor, s.collected) →
        Does ran state.old m → Does result state.new (end_recording name s m) }
{
    match ran {
        Ok(()) => save(alloc, state, name, before),
        Err(end) => {
            state.close_recording(before);
            Err(end)
        }
    }
}
