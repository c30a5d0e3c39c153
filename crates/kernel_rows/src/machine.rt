// Images of small programs, whose instructions are written in words.

use crate::forms::form_of;
use std::alloc::{AllocError, Global};

// The names of each image: 0 is p, 1 is q, 2 is d.
const NAMES: [u8; 6] = [1, b'p', 1, b'q', 1, b'd'];

/// The functions and instructions of an image, as far as they are written.
#[derive(Drop)]
pub struct Machine {
    functions: u16,
    heads: Vec<u8>,
    count: u32,
    lines: Vec<u8>,
    // Of the next instruction: how many operands lie before it, how many handlers, and which of them its recording has.
    mark: [u8; 3],
}

impl Machine {
    /// Nothing.
    pub fn new(alloc: Global) -> Machine {
        Machine {
            functions: 0,
            heads: Vec::new(alloc),
            count: 0,
            lines: Vec::new(alloc),
            mark: [0; 3],
        }
    }

    /// Whether nothing is written.
    pub fn is_empty(&self) -> bool {
        self.lines.is_empty()
    }

    /// Writes what stands between commas. An instruction without a function stands in one of 8 slots.
    pub fn write(&mut self, line: &str) -> Result<(), AllocError> {
        for part in line.split(", ") {
            let (word, rest) = part.split_once(' ').unwrap_or((part, ""));
            match word {
                "function" => self.put_function(rest)?,
                "mark" => self.mark = bytes_of(rest),
                _ => {
                    if self.functions == 0 {
                        self.put_function("0 8 0")?;
                    }
                    self.put_instruction(word, rest)?;
                }
            }
        }
        Ok(())
    }

    // A function of so many parameters and slots, with these flags.
    fn put_function(&mut self, words: &str) -> Result<(), AllocError> {
        let [params, slots, flags] = bytes_of(words);
        self.functions = self.functions.wrapping_add(1);
        self.mark = [0; 3];
        self.heads.extend_from_slice(&self.count.to_le_bytes())?;
        self.heads.extend_from_slice(&[params, slots, 0, flags])
    }

    // An instruction of a known word, with its mark, and the mark behind it.
    fn put_instruction(&mut self, word: &str, operands: &str) -> Result<(), AllocError> {
        let Some(form) = form_of(word) else {
            return Ok(());
        };
        self.count = self.count.wrapping_add(1);
        self.lines.push(form.number)?;
        self.lines.extend_from_slice(&self.mark)?;
        let mut operands = operands.split(' ');
        for width in form.widths {
            let number = operands.next().unwrap_or("").parse::<i64>().unwrap_or(0);
            let bytes = number.to_le_bytes();
            self.lines
                .extend_from_slice(bytes.get(..*width).unwrap_or(&[]))?;
        }
        let takes = number_or(operands.next(), form.takes);
        let leaves = number_or(operands.next(), form.leaves);
        self.mark = mark_after(self.mark, word, takes, leaves);
        Ok(())
    }

    /// The image, whose main function is the first one.
    pub fn image(&self, alloc: Global) -> Result<Vec<u8>, AllocError> {
        let mut image = Vec::from_slice(alloc, b"KIM1")?;
        image.extend_from_slice(&self.functions.to_le_bytes())?;
        image.extend_from_slice(&[0, 0, 3, 0])?;
        image.extend_from_slice(&self.count.to_le_bytes())?;
        image.extend_from_slice(&NAMES)?;
        image.extend_from_slice(&self.heads)?;
        image.extend_from_slice(&self.lines)?;
        Ok(image)
    }
}

// The mark of the next place. A wrong one is refused with the image.
fn mark_after(mark: [u8; 3], word: &str, takes: u8, leaves: u8) -> [u8; 3] {
    let [height, tries, rec] = mark;
    let height = height.wrapping_sub(takes).wrapping_add(leaves);
    match word {
        "Try" => [height, tries.wrapping_add(1), rec],
        "EndTry" => [height, tries.wrapping_sub(1), rec],
        "Record" => [height, tries, tries.wrapping_add(1)],
        "Save" => [height, tries, 0],
        _ => [height, tries, rec],
    }
}

// Three numbers between blanks; what is none counts as 0.
fn bytes_of(words: &str) -> [u8; 3] {
    let mut words = words.split(' ');
    [
        number_or(words.next(), 0),
        number_or(words.next(), 0),
        number_or(words.next(), 0),
    ]
}

fn number_or(word: Option<&str>, other: u8) -> u8 {
    word.and_then(|word| word.parse().ok()).unwrap_or(other)
}
