// What holds of all code, and of every run of marked code.

ghost use Rattle.std.specs.Prelude.{ℕ, ◌↔◌, IsTrue};
ghost use Rattle.core_isa.specs.declared.code.Code.{Code};
ghost use Rattle.core_isa.specs.Falling.{HasOneRun, RunsEnd, StepsFall};
ghost use Rattle.core_isa.specs.Marks.{HasOrder, IsRightPlace, Marked};
ghost use Rattle.core_isa.specs.MarkTests.{is_right_place};
ghost use Rattle.core_isa.specs.Sound.{BeginsSound, NeverStuck, StepsStaySound};
ghost use Rattle.core_isa.specs.Units.{RequestsTakeUnits};
ghost use Rattle.core_isa.specs.WellAsked.{AsksWell};

/// The tests of the marks, which compute, decide the conditions on marks at every place.
pub fn tests_decide_marks()
    ensures { (code : Code) (place : ℕ) → IsTrue (is_right_place code place) ↔ IsRightPlace code place }
{}

/// A run of marked code begins with each frame as its mark says.
pub fn runs_begin_sound()
    ensures { (code : Code) → HasOrder code → Marked code → BeginsSound code }
{}

/// A step of marked code leaves each frame as its mark says, or ends the run.
pub fn steps_stay_sound()
    ensures { (code : Code) → HasOrder code → Marked code → StepsStaySound code }
{}

/// No run of marked code lacks an operand, a place, a slot, a handler or a recording, whatever it is answered.
pub fn marked_code_is_never_stuck()
    ensures { (code : Code) → HasOrder code → Marked code → NeverStuck code }
{}

/// Each step of marked code brings one of two numbers down: the units left and whether the instruction is free of them,
/// or the weight of the places.
pub fn steps_fall()
    ensures { (code : Code) → Marked code → StepsFall code }
{}

/// Every run of marked code comes to an end.
pub fn marked_code_ends()
    ensures { (code : Code) → HasOrder code → Marked code → RunsEnd code }
{}

/// A run of any code comes to one end at most.
pub fn one_end()
    ensures { (code : Code) → HasOneRun code }
{}

/// Under replies that fit, and with units of 32 bits, each request of a run of marked code is well formed.
pub fn marked_code_asks_well()
    ensures { (code : Code) → Marked code → AsksWell code }
{}

/// The requests of a run of any code and the units that it leaves are together at most the units that it began with.
pub fn requests_take_units()
    ensures { (code : Code) → RequestsTakeUnits code }
{}
