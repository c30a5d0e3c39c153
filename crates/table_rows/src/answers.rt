// Answers, as rows have them.

use std::alloc::AllocError;

/// Pushes the answer `= ANSWER`. Fails only for want of memory.
pub fn push_answer(told: &mut String, answer: &str) -> Result<(), AllocError> {
    told.push_str("\n= ")?;
    told.push_str(answer)
}

/// Pushes bytes behind a mark: the lines of a text, but for those whose first word is one of the hidden words, with `-` behind the
/// mark where no line feed ends the line; and in digits, twenty bytes a line behind `x`, what has a byte 0 or is no UTF-8. Fails
/// only for want of memory.
pub fn push_output(
    told: &mut String,
    mark: char,
    hidden: &str,
    bytes: &[u8],
) -> Result<(), AllocError> {
    match str::from_utf8(bytes) {
        Ok(text) if !bytes.contains(&0) => push_lines(told, mark, hidden, text),
        _ => push_digits(told, mark, bytes),
    }
}

fn push_lines(told: &mut String, mark: char, hidden: &str, text: &str) -> Result<(), AllocError> {
    let (whole, rest) = match text.rsplit_once('\n') {
        Some((whole, rest)) => (Some(whole), rest),
        None => (None, text),
    };
    if let Some(whole) = whole {
        for line in whole.split('\n') {
            if line.is_empty() {
                write!(told, "\n{mark}")?;
            } else if !is_hidden(hidden, line) {
                write!(told, "\n{mark} {line}")?;
            }
        }
    }
    if !rest.is_empty() {
        write!(told, "\n{mark}- {rest}")?;
    }
    Ok(())
}

// Whether the line begins with a hidden word and a blank.
fn is_hidden(hidden: &str, line: &str) -> bool {
    let Some((first, _)) = line.split_once(' ') else {
        return false;
    };
    for word in hidden.split(' ') {
        if !word.is_empty() && word == first {
            return true;
        }
    }
    false
}

fn push_digits(told: &mut String, mark: char, bytes: &[u8]) -> Result<(), AllocError> {
    for part in bytes.chunks(20) {
        write!(told, "\n{mark}x")?;
        for byte in part {
            write!(told, " {byte:02x}")?;
        }
    }
    Ok(())
}
