// What the chairs of a core's desk rest on.

ghost use Rattle.desk_kernels.specs.Alone.{OpenSessionsAreAlone, OpenSessionsWereOpenBefore};

/// While a session is open no chair but its own adds entries to its core: a worker that comes back finds the history that it left.
pub fn open_sessions_are_alone()
    ensures { OpenSessionsAreAlone }
{}

/// Where no session of a chair was open when it added its last entry, none is while it adds no other.
pub fn open_sessions_were_open_before()
    ensures { OpenSessionsWereOpenBefore }
{}
