// How the work of a command is finished.

ghost use Rattle.std.specs.Prelude.{◌≡◌};
ghost use Rattle.top_calls.specs.Statuses.{status_of};

/// How the work of a command is finished.
#[derive(Clone, Copy, Debug, PartialEq, Eq)]
pub enum Finish {
    /// All was done. Where a kernel was run, it returned, and all that it submitted was put out, overridden or logged.
    Whole,
    /// An exception ended the kernel.
    Raised,
    /// The kernel ran to the end of its units or to the last cycle, or events are still to be put out.
    Unfinished,
}

/// The status of what was finished so.
pub fn status_of(finish: Finish) -> u8
    ensures { result ≡ status_of finish }
{
    match finish {
        Finish::Whole => 0,
        Finish::Raised => 6,
        Finish::Unfinished => 7,
    }
}
