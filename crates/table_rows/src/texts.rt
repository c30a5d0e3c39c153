// Texts that rows give, line by line.

use std::alloc::AllocError;

/// Pushes what a line gives to a row's text: of `| LINE` the line and a line feed, of `|- LINE` the line alone, of `|x 4b 49` these
/// bytes, of `* N LINE` what the line behind it gives, N times; and of any other line nothing. Fails only for want of memory.
pub fn push_text(text: &mut Vec<u8>, line: &str) -> Result<(), AllocError> {
    match line.strip_prefix("* ") {
        Some(rest) => push_often(text, rest),
        None => push_line(text, line),
    }
}

// A line that says how often it stands.
fn push_often(text: &mut Vec<u8>, line: &str) -> Result<(), AllocError> {
    if let Some((count, line)) = line.split_once(' ') {
        for _time in 0..count.parse::<u32>().unwrap_or(0) {
            push_line(text, line)?;
        }
    }
    Ok(())
}

fn push_line(text: &mut Vec<u8>, line: &str) -> Result<(), AllocError> {
    if let Some(rest) = line.strip_prefix("|- ") {
        return text.extend_from_slice(rest.as_bytes());
    }
    if let Some(rest) = line.strip_prefix("|x ") {
        return push_bytes(text, rest);
    }
    if let Some(rest) = line.strip_prefix("|") {
        text.extend_from_slice(rest.strip_prefix(" ").unwrap_or(rest).as_bytes())?;
        text.push(b'\n')?;
    }
    Ok(())
}

/// Pushes bytes that are written in hexadecimal digits, between blanks; what is none is left out. Fails only for want of memory.
pub fn push_bytes(text: &mut Vec<u8>, words: &str) -> Result<(), AllocError> {
    for word in words.split(' ') {
        if let Ok(byte) = u8::from_str_radix(word, 16) {
            text.push(byte)?;
        }
    }
    Ok(())
}
