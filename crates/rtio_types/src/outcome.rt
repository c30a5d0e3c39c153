// How the run of a kernel ends.

/// The exceptions that a kernel can meet: the first three are the ARTIQ manual's, the next two Python's, and the last
/// is this project's own.
#[derive(Clone, Copy, Debug, PartialEq, Eq)]
pub enum Exc {
    /// An output's cycle wasn't above the counter any more.
    RTIOUnderflow,
    /// An input had more edges than it keeps.
    RTIOOverflow,
    /// A recording isn't kept, or can't be.
    DMAError,
    /// A division by zero.
    ZeroDivisionError,
    /// An index outside its array.
    IndexError,
    /// Too many functions were active.
    StackOverflow,
}

/// How a session on a core ends.
#[derive(Clone, Copy, Debug, PartialEq, Eq)]
pub enum Outcome {
    /// The kernel came to its end.
    Returned,
    /// It raised an exception that it didn't take.
    Raised(Exc),
    /// It used up its units.
    Budget,
    /// A request couldn't be answered up to the last cycle.
    Horizon,
}
