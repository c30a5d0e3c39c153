// What runs leave.

use std::alloc::{AllocError, Global};
use table_rows::push_output;

/// What a run leaves: its status, and what the sinks hold.
#[derive(Drop)]
pub struct Left {
    pub status: u8,
    pub out: Vec<u8>,
    pub err: Vec<u8>,
}

impl Left {
    /// Whether the other run left the same.
    pub fn is_same(&self, other: &Left) -> bool {
        self.status == other.status && self.out == other.out && self.err == other.err
    }

    /// Pushes lines of out, but for those that begin with a hidden word, lines of err, and the status. Fails only for want of memory.
    pub fn push_lines(&self, told: &mut String, hidden: &str) -> Result<(), AllocError> {
        push_output(told, '>', hidden, &self.out)?;
        push_output(told, '!', "", &self.err)?;
        write!(told, "\n= {}", self.status)
    }

    /// The status, out and err in one line, lines parted by strokes. Fails only for want of memory.
    pub fn line(&self, alloc: Global) -> Result<String, AllocError> {
        let mut line = format!(in alloc; "{}", self.status)?;
        push_joined(&mut line, &self.out)?;
        push_joined(&mut line, &self.err)?;
        Ok(line)
    }
}

// Pushes the lines of a text; of bytes that are none, how many they are.
fn push_joined(line: &mut String, bytes: &[u8]) -> Result<(), AllocError> {
    if bytes.is_empty() {
        return Ok(());
    }
    let Ok(text) = str::from_utf8(bytes) else {
        return write!(line, ", {} bytes", bytes.len());
    };
    let parts = text.strip_suffix("\n").unwrap_or(text).split('\n');
    for (place, part) in parts.enumerate() {
        line.push_str(if place == 0 { ", " } else { " / " })?;
        line.push_str(part)?;
    }
    Ok(())
}
