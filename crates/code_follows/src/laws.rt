// What holds of parts whose code does what they mean.

ghost use Rattle.std.specs.Prelude.{List};
ghost use Rattle.rtio_types.specs.declared.request.Reply.{Reply};
ghost use Rattle.core_isa.specs.declared.code.Code.{Code};
ghost use Rattle.code_follows.specs.Laws.{BodiesRunAsMeant, CallsFollow, PartsFollowOneAnother};

/// Where the code of two parts stands one behind the other, the first gives a number of 64 bits, and each does what its part
/// means, the whole does what both mean: the number goes from the first to the second, and an early end of either is one of both.
/// Nothing is said of parts that give no number.
pub fn parts_follow_one_another()
    ensures { (given : List Reply) (code : Code) → PartsFollowOneAnother given code }
{}

/// A call does what the function's body means, and its early ends, where fewer than 64 functions are active and the body's code
/// does what the body means: a unit is taken, the arguments become the first names, and the caller has its own names back.
/// The call that would make a 65th function active raises an exception, of which this law says nothing.
pub fn calls_follow()
    ensures { (given : List Reply) (code : Code) → CallsFollow given code }
{}

/// A run of a function asks the same requests as its meaning, and ends so, at the same cursor and with the same units left,
/// where the code of its body does what the body means.
pub fn bodies_run_as_meant()
    ensures { (given : List Reply) (code : Code) → BodiesRunAsMeant given code }
{}
