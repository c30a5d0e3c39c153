// Why no code was read.

/// Why some bytes give no code.
#[derive(Clone, Copy, Debug, PartialEq, Eq)]
pub enum ImageEnd {
    /// The bytes are no image.
    Fault {
        /// Where the first field begins that is cut off or out of its range, or where bytes follow the last field.
        offset: u32,
    },
    /// There was no memory for the code.
    Memory,
}
