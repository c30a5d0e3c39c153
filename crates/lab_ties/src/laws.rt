// What lasts while histories grow, how a tie grows with them, and what the ties make of a whole history.

ghost use Rattle.lab_ties.specs.Laws.{CoresAreAskedAtTop, JudgementsLast, KernelsAreSteps, TiesGrow, TiesLast};

/// What ties a chair's sessions and reports lasts while the histories grow.
pub fn ties_last()
    ensures { TiesLast }
{}

/// A session of a kernel step and its report are tied to those before them.
pub fn ties_grow()
    ensures { TiesGrow }
{}

/// What a kernel leaves on a core is a session of its step.
pub fn kernels_are_steps()
    ensures { KernelsAreSteps }
{}

/// A source that was accepted or refused stays so.
pub fn judgements_last()
    ensures { JudgementsLast }
{}

/// On a finished core each request was asked as late as it might be, whichever chair asked it.
pub fn cores_are_asked_at_top()
    ensures { CoresAreAskedAtTop }
{}
