// The parts of frames.

use core_isa::CodeFunction;
use rtio_types::{Event, Name};

/// A function that is active: where it stands, and how many operands and handlers it has.
#[derive(Clone, Copy, Debug)]
pub struct Activation {
    pub function: CodeFunction,
    pub place: u32,
    pub height: usize,
    pub tries: usize,
}

/// Where a raised exception goes on, and whether a recording was open when the handler was added.
#[derive(Clone, Copy, Debug)]
pub struct Handler {
    pub place: u32,
    pub recording: bool,
}

/// An open recording: its name, the cursor before it in mu, its outputs so far, and how many callers its function has.
#[derive(Debug, Drop)]
pub struct OpenBlock {
    pub name: Name,
    pub saved: i64,
    pub events: Vec<Event>,
    pub callers: usize,
}
