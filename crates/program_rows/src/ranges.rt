// Answers to runs that are numbered in order.

use std::alloc::AllocError;

/// The last runs with one answer: their first number, their last one, and what they are answered.
#[derive(Drop)]
pub struct Ranges {
    first: u64,
    last: u64,
    answer: Option<String>,
    // Whether a line names the last number even where it is the first.
    names_both: bool,
}

impl Ranges {
    /// No run; a line names its last number even where it is the first, or doesn't.
    pub fn new(names_both: bool) -> Ranges {
        Ranges {
            first: 0,
            last: 0,
            answer: None,
            names_both,
        }
    }

    /// Takes the answer to the run of this number, and pushes a line for those before it where theirs is another. Fails only for
    /// want of memory.
    pub fn take(
        &mut self,
        told: &mut String,
        number: u64,
        answer: String,
    ) -> Result<(), AllocError> {
        if let Some(last) = &self.answer {
            if last.as_str() == answer.as_str() {
                self.last = number;
                return Ok(());
            }
        }
        self.close(told)?;
        self.first = number;
        self.last = number;
        self.answer = Some(answer);
        Ok(())
    }

    /// Pushes a line for the last runs. Fails only for want of memory.
    pub fn close(&self, told: &mut String) -> Result<(), AllocError> {
        let Some(answer) = &self.answer else {
            return Ok(());
        };
        write!(told, "\n= {}", self.first)?;
        if self.names_both || self.last != self.first {
            write!(told, "-{}", self.last)?;
        }
        write!(told, ": {answer}")
    }
}
