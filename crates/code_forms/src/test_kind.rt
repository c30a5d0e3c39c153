// Where the answers to conditions are tested.

/// Where the answer to what is asked for a condition is tested.
#[derive(Clone, Copy, Debug, PartialEq, Eq)]
pub enum TestKind {
    /// In front of a branch, which follows where the condition holds.
    Branch,
    /// At the end of a loop, which the test leaves where the condition doesn't hold.
    LoopEnd,
}
