// What holds of the requests of every session.

ghost use Rattle.std.specs.Prelude.{ℕ, List};
ghost use Rattle.core_isa.specs.declared.code.Code.{Code};
ghost use Rattle.core_isa.specs.Marks.{HasOrder, Marked};
ghost use Rattle.kernel_places.specs.Ends.{TellWhere};
ghost use Rattle.kernel_places.specs.Laws.{EndsAreTold, SessionsAnswer, SessionsAsk};

/// The run of a session of marked code asks each request that was answered, under the replies to the ones before it.
pub fn sessions_ask()
    ensures { (code : Code) → HasOrder code → Marked code → SessionsAsk code }
{}

/// The answered requests among the entries that a session adds to the history are those of the session, in order.
pub fn sessions_answer()
    ensures { SessionsAnswer }
{}

/// Where lines tell where code asks and begins, each run of it stops at an instruction that has a line.
pub fn ends_are_told()
    ensures { (code : Code) (lines : List ℕ) → TellWhere code lines → EndsAreTold code lines }
{}
