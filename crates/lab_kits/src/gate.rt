// Where a test may hold a worker up.

/// A place in the work on a run.
#[derive(Clone, Copy, Debug, PartialEq, Eq)]
pub enum Place {
    /// Directly before the source of this run is compiled.
    Compiling { rid: u64 },
    /// Directly after the core on which a kernel of this run has ended was put back.
    KernelEnded { rid: u64 },
}

/// What a worker passes at these places. A test may hold it up there; gates are this project's own.
pub trait Gate {
    /// The worker of this number is at a place. It holds no desk there.
    fn at(&self, worker: u32, place: Place);
}

/// A gate that stands open.
#[derive(Clone, Copy, Debug, PartialEq, Eq)]
pub struct OpenGate;

impl Gate for OpenGate {
    fn at(&self, _worker: u32, _place: Place) {}
}
