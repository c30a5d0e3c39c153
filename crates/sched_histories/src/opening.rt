// Schedulers before their calls.

use exp_json::read_session;
use sched_driver::Driver;
use std::alloc::{AllocError, Global};

const BEFORE_EXPERIMENTS: &str = r#"{"pipelines":[{},{}],"sources":["",""],"experiments":"#;

const BEFORE_ARRIVALS: &str = r#","arrivals":["#;

const BEHIND: &str = "]}";

/// A scheduler of the session with these experiments and the arrivals of the history; None where they are none, or there is no
/// memory.
pub fn driver_of(alloc: Global, experiments: &str, history: &str) -> Option<Driver> {
    let json = session_text(alloc, experiments, history).ok()?;
    let session = read_session(alloc, json.as_bytes()).ok()?;
    Driver::new(alloc, &session).ok()
}

fn session_text(alloc: Global, experiments: &str, history: &str) -> Result<String, AllocError> {
    let arrivals = arrivals_text(alloc, history)?;
    let mut json = String::from_str(alloc, BEFORE_EXPERIMENTS)?;
    json.push_str(experiments)?;
    json.push_str(BEFORE_ARRIVALS)?;
    json.push_str(arrivals.as_str())?;
    json.push_str(BEHIND)?;
    Ok(json)
}

// The arrivals of the history, in order.
fn arrivals_text(alloc: Global, history: &str) -> Result<String, AllocError> {
    let mut text = String::new(alloc);
    for line in history.lines() {
        if let Some(arrival) = line.strip_prefix("+") {
            push_arrival(&mut text, arrival)?;
        }
    }
    Ok(text)
}

// Pushes an arrival as often as it says, once where it says nothing.
fn push_arrival(text: &mut String, arrival: &str) -> Result<(), AllocError> {
    let Some((count, json)) = arrival.split_once(' ') else {
        return Ok(());
    };
    for _time in 0..count.parse::<u32>().unwrap_or(1) {
        if !text.is_empty() {
            text.push_str(",")?;
        }
        text.push_str(json)?;
    }
    Ok(())
}
