// Reports of a laboratory, and what stands apart in them.

use std::alloc::AllocError;
use table_rows::push_output;

/// Pushes a report, line by line behind `>`: the lines of each group of keys that stand apart, group by group, and then the others.
/// Fails only for want of memory.
pub fn push_report(told: &mut String, apart: &str, report: &[u8]) -> Result<(), AllocError> {
    let Ok(text) = str::from_utf8(report) else {
        return push_output(told, '>', "", report);
    };
    for (group, _keys) in apart.split(' ').enumerate() {
        push_group(told, apart, Some(group), text)?;
    }
    push_group(told, apart, None, text)
}

// Pushes the lines of a group, or those of none.
fn push_group(
    told: &mut String,
    apart: &str,
    group: Option<usize>,
    report: &str,
) -> Result<(), AllocError> {
    for (place, line) in report.split('\n').enumerate() {
        if !line.is_empty() && group_of(apart, line) == group {
            push_reported(told, place, line, group.is_some())?;
        }
    }
    Ok(())
}

// Pushes the line at a place of a report, from 0; where it stands apart without its clock, if that is one more than the place.
fn push_reported(
    told: &mut String,
    place: usize,
    line: &str,
    is_apart: bool,
) -> Result<(), AllocError> {
    if is_apart {
        if let Some(("step", rest)) = line.split_once(' ') {
            if let Some((clock, step)) = rest.split_once(' ') {
                if clock.parse() == Ok(place.saturating_add(1)) {
                    return write!(told, "\n> step {step}");
                }
            }
        }
    }
    write!(told, "\n> {line}")
}

// The number of the group that has the key of a line.
fn group_of(apart: &str, line: &str) -> Option<usize> {
    let key = key_of(line)?;
    for (group, keys) in apart.split(' ').enumerate() {
        for other in keys.split(',') {
            if other == key {
                return Some(group);
            }
        }
    }
    None
}

// The key of a line: the run of a step, or the name of a dataset.
fn key_of(line: &str) -> Option<&str> {
    let mut words = line.split(' ');
    match words.next()? {
        "step" => words.nth(1),
        "data" => words.next(),
        _ => None,
    }
}
