// What holds of the meaning of every kernel.

ghost use Rattle.kern_syntax.specs.Tree.{ProgramTree};
ghost use Rattle.timeline_sem.specs.Laws.{UnitsNeverRise, RequestsTakeUnits, RequestsAreOnlyAdded, RepliesExtend, EachRequestTakesAReply};

/// No function ends with more units than it began with, whatever it is answered, and no call with more than there were
/// before it.
pub fn units_never_rise()
    ensures { (program : ProgramTree) → UnitsNeverRise program }
{}

/// Each request takes a unit: the requests asked and the units left at the end of a function are together at most the
/// units at its beginning, whatever it is answered, and so is what a call adds to the requests and leaves of the units.
pub fn requests_take_units()
    ensures { (program : ProgramTree) → RequestsTakeUnits program }
{}

/// A call, however it ends, keeps the requests that were asked before it, and adds its own behind them.
pub fn requests_are_only_added()
    ensures { (program : ProgramTree) → RequestsAreOnlyAdded program }
{}

/// With more replies the meaning of a function goes on from what it is with fewer: where no reply was lacking it is the
/// same, and else the requests asked so far are its first ones.
pub fn replies_extend_meanings()
    ensures { (program : ProgramTree) → RepliesExtend program }
{}

/// Each request takes one of the replies, and only the last one may find none: then the meaning is unanswered.
pub fn each_request_takes_a_reply()
    ensures { (program : ProgramTree) → EachRequestTakesAReply program }
{}
