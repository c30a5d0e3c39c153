// Turns of loops.

ghost use Rattle.meaning_steps.specs.Turns.{GoesOn};
ghost use Rattle.meaning_state.specs.Does.{Does};
ghost use Rattle.std.specs.Prelude.{◌≡◌, ⊤, Err};
ghost use Rattle.timeline_sem.specs.Actions.{Action, Completion, State as Meant};
ghost use Rattle.timeline_sem.specs.Statements.{after_turn};

use meaning_state::{Early, Reason};

/// What the end of a loop's body means for the loop: whether it goes on. A `break` ends it, a `continue` goes on, and
/// anything else ends it early. Want of memory is the body's own alone.
pub fn settled(ran: Result<(), Early>) -> Result<bool, Early>
    ensures turn { (s : Meant) (m : Completion ⊤) (again : Action ⊤) → Does ran s m → GoesOn result s (after_turn m again) again }
    ensures memory { result ≡ Err Early.Memory → ran ≡ Err Early.Memory }
{
    match ran {
        Ok(()) => Ok(true),
        Err(Early::Ended(Reason::Continue)) => Ok(true),
        Err(Early::Ended(Reason::Break)) => Ok(false),
        Err(end) => Err(end),
    }
}
