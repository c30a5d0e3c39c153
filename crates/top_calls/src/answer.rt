// What a program says of the bytes of a command.

use crate::finish::Finish;

/// What a program says of the bytes of a command.
#[derive(Drop)]
pub enum Answer {
    /// The bytes that the command owes them, for out, and how its work was finished.
    Due { bytes: Vec<u8>, finish: Finish },
    /// The line that says why a text is refused, for err.
    Refused(Vec<u8>),
    /// The line that says why other bytes are refused, such as an image or a dump, for err.
    Bad(Vec<u8>),
}
