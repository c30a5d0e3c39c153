// What holds of every past of the inputs.

ghost use Rattle.std.specs.Prelude.{◌≡◌, ◌≤◌, ◌+◌, ◌++◌, ℕ, ℤ, List, Some, None, true};
ghost use Rattle.rtio_types.specs.declared.event.Edge.{Edge};
ghost use Rattle.rtio_types.specs.declared.event.Event.{Event};
ghost use Rattle.rtio_types.specs.declared.request.Reply.{Reply};
ghost use Rattle.rtio_types.specs.declared.request.Request.TheVariants as kind;
ghost use Rattle.rtio_types.specs.Requests.{fits_request};
ghost use Rattle.rtio_input.specs.Script.{are_edges_ok};
ghost use Rattle.rtio_input.specs.Channel.{InputsState, edge_reply};
ghost use Rattle.rtio_input.specs.Past.{InputStep, InputsStandFor, are_made_by, are_put_out_by, unread_at};
ghost use Rattle.rtio_input.specs.Calls.{are_of_cycle, passed};

/// What is decided stays decided while nothing is asked: a request for an edge that isn't decided at the next counter
/// isn't decided at this one.
pub fn a_decided_edge_stays_decided()
    ensures { (script : List Edge) (outputs kept : List Event) (steps : List InputStep) (counter channel : ℕ) (up_to : ℤ) →
        are_edges_ok script ≡ true → are_put_out_by counter outputs ≡ true → are_made_by counter steps ≡ true →
        are_of_cycle (counter + 1) kept ≡ true →
        edge_reply (unread_at script (outputs ++ kept) steps (counter + 1) channel) (counter + 1) up_to ≡ None →
        edge_reply (unread_at script outputs steps counter channel) counter up_to ≡ None }
{}

/// Between edges a counter changes nothing: inputs with no edge to come up to a later counter stand there for the same
/// past.
pub fn no_edge_no_change()
    ensures { (s : InputsState) (script : List Edge) (outputs : List Event) (steps : List InputStep) (from to : ℕ) →
        from ≤ to → passed to s ≡ true → InputsStandFor s script outputs steps from → InputsStandFor s script outputs steps to }
{}

/// Each reply to a request for an edge is one that it may get: stamps are at least 0.
pub fn an_edge_reply_fits()
    ensures { (script : List Edge) (outputs : List Event) (steps : List InputStep) (counter channel : ℕ) (up_to : ℤ) (reply : Reply) →
        are_edges_ok script ≡ true →
        edge_reply (unread_at script outputs steps counter channel) counter up_to ≡ Some reply →
        fits_request (kind.Edge channel up_to) reply ≡ true }
{}
