// The least slack.

ghost use Rattle.std.specs.Prelude.{◌≡◌, ◌++◌, OnOk, string_bytes};
ghost use Rattle.trace_report.specs.Lines.{least_line};
ghost use Rattle.trace_report.specs.Outputs.{least_of, lesser};

use crate::outputs::Placed;
use crate::place::write_place;
use std::alloc::AllocError;
use trace_fates::slack_of;

/// The output with the least slack, of equals the first.
pub fn least_of(outputs: &[Placed]) -> Option<Placed>
    ensures { result ≡ least_of outputs.now }
{
    let mut least = None;
    for output in outputs {
        least = lesser(least, *output);
    }
    least
}

// The one with the less slack of the least one before and an output behind it, of equals the first.
fn lesser(least: Option<Placed>, next: Placed) -> Option<Placed>
    ensures { result ≡ lesser least next }
{
    match least {
        None => Some(next),
        Some(least) => {
            if slack_of(&least.output) <= slack_of(&next.output) {
                Some(least)
            } else {
                Some(next)
            }
        }
    }
}

/// Appends the line of the least slack, where there is an output.
pub fn write_least(text: &mut String, least: Option<Placed>) -> Result<(), AllocError>
    ensures { OnOk result (string_bytes text.new ≡ string_bytes text.old ++ least_line least) }
{
    let Some(Placed { place, output }) = least else {
        return Ok(());
    };
    let slack = slack_of(&output);
    write!(text, "least {slack} ")?;
    write_place(text, place)?;
    let number = output.number;
    writeln!(text, " {number}")
}
