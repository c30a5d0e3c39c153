// What a yes at one cost and depth says of others.

ghost use Rattle.std.specs.Prelude.{ℕ};
ghost use Rattle.kern_syntax.specs.Tree.{ProgramTree};
ghost use Rattle.slack_order.specs.Stays.{StaysYes};

/// Where the slack run of a function that takes no arguments says yes at a cost (in mu) and a depth, it says yes at
/// every smaller cost and every greater depth too, with the same number of outputs. So one answer at the greatest
/// cost that a laboratory meets is enough. This project's own rule.
pub fn a_yes_stays_a_yes()
    ensures { (program : ProgramTree) (function : ℕ) → StaysYes program function }
{}
