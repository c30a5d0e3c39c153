// What becomes of a request that is asked once.

use rtio_types::{Reply, Request};

/// What became of a request.
#[derive(Debug, Drop)]
pub enum Turn {
    /// It got this reply.
    Replied(Reply),
    /// It has to be asked again.
    Again(Request),
    /// It isn't decided at the last cycle.
    Over,
}
