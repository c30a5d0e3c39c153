// Turns of loops.

ghost use Rattle.std.specs.Prelude.{◌≡◌, ⊤, Err};
ghost use Rattle.slack_meaning.specs.Actions.{Action, Completion, State as Run};
ghost use Rattle.slack_meaning.specs.Statements.{after_turn};
ghost use Rattle.slack_state.specs.Does.{Does};
ghost use Rattle.slack_steps.specs.Turns.{GoesOn};

use slack_state::{Early, Reason};

/// What the end of a loop's body means for the loop: whether it goes on. A `break` ends it, a `continue` goes on, and
/// anything else ends it early. Want of memory is the body's own alone.
pub fn settled(ran: Result<(), Early>) -> Result<bool, Early>
    ensures turn { (s : Run) (m : Completion ⊤) (again : Action ⊤) → Does ran s m → GoesOn result s (after_turn m again) again }
    ensures memory { result ≡ Err Early.Memory → ran ≡ Err Early.Memory }
{
    match ran {
        Ok(()) => Ok(true),
        Err(Early::Ended(Reason::Continue)) => Ok(true),
        Err(Early::Ended(Reason::Break)) => Ok(false),
        Err(end) => Err(end),
    }
}
