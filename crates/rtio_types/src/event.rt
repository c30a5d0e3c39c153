// What happens on a channel of the board, and when.

/// An output on a channel of the board.
#[derive(Clone, Copy, Debug, PartialEq, Eq)]
pub struct Event {
    /// The channel, 0 to 31 on the board.
    pub channel: u8,
    /// The address within the channel; which there are goes by the channel's kind.
    pub address: u8,
    /// The data that is put out.
    pub value: u32,
    /// The moment on the timeline, in machine units (mu).
    pub stamp: i64,
}

/// A change of an input's level.
#[derive(Clone, Copy, Debug, PartialEq, Eq)]
pub struct Edge {
    /// The input's channel, 24 to 31 on the board.
    pub channel: u8,
    /// The moment of the change, in machine units (mu).
    pub stamp: i64,
    /// Whether the level rises; else it falls.
    pub rising: bool,
}
