// What holds of every history.

ghost use Rattle.std.specs.Prelude.{◌≡◌, ◌≤◌, ℕ, List, [], Some, IsTrue};
ghost use Rattle.rtio_types.specs.declared.request.Request.{Request};
ghost use Rattle.rtio_types.specs.declared.request.Request.TheVariants as ask;
ghost use Rattle.rtio_types.specs.declared.request.Reply.TheVariants as answer;
ghost use Rattle.rtio_core.specs.declared.data.Config.{Config};
ghost use Rattle.rtio_core.specs.declared.data.Entry.{Entry};
ghost use Rattle.rtio_core.specs.Entries.{is_config_ok, last_at, last_saved};
ghost use Rattle.rtio_core.specs.Errors.{BusyHaveReason, CollisionsHaveReason, HaveReasons};
ghost use Rattle.rtio_core.specs.Lawful.{IsLawful};
ghost use Rattle.rtio_core.specs.Recordings.{trace_or};
ghost use Rattle.rtio_core.specs.Reply.{is_decided, reply_to};

/// The right reply to a request for a name's recording is the one that was saved under it last, or else the one that the core
/// began with, and that there is none where there was no such, or the name was erased since.
pub fn a_name_fetches_what_was_saved_last()
    ensures { (config : Config) (history : List Entry) (name : List ℕ) (counter : ℕ) →
        reply_to config history (ask.Fetch name) counter ≡ Some (trace_or answer.NoTrace (last_saved config name history)) }
{}

/// A request that is decided at a counter, no earlier than the history, is decided at each later one.
pub fn what_is_decided_stays_decided()
    ensures { (config : Config) (history : List Entry) (request : Request) (from to : ℕ) → IsTrue (is_config_ok config) →
        IsLawful config history → last_at history ≤ from → from ≤ to →
        IsTrue (is_decided config history request from) → IsTrue (is_decided config history request to) }
{}

/// In every lawful history an output of a later cycle than all that were accepted before it since the last reset isn't out
/// of sequence, and one of a later cycle than the limit's doesn't underflow; an event that is alone in its group doesn't
/// collide; and one of a channel with a hold of 0 or 1 isn't busy.
pub fn no_error_comes_without_reason()
    ensures outputs { (config : Config) (history : List Entry) → IsTrue (is_config_ok config) → IsLawful config history → HaveReasons config [] history }
    ensures collisions { (config : Config) (history : List Entry) → IsLawful config history → CollisionsHaveReason config history }
    ensures busy { (config : Config) (history : List Entry) → IsLawful config history → BusyHaveReason config history }
{}
