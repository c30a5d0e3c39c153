// The line of a verdict.

ghost use Rattle.std.specs.Prelude.{◌≡◌, ◌++◌, IfOk, OnOk, string_bytes};
ghost use Rattle.slack_check.specs.Lines.{slack_line, why_text};

use slack_meaning::{OpenKind, Verdict};
use std::alloc::{AllocError, Global};

// The name of a kind.
fn why_text(why: OpenKind) -> &'static str
    ensures { result.now ≡ why_text why }
{
    match why {
        OpenKind::Reading => "Reading",
        OpenKind::Edge => "Edge",
        OpenKind::Handle => "Handle",
        OpenKind::Kept => "Kept",
        OpenKind::Names => "Names",
        OpenKind::Span => "Span",
        OpenKind::Far => "Far",
    }
}

// Appends the line of a verdict.
fn write_verdict(text: &mut String, verdict: Verdict) -> Result<(), AllocError>
    ensures { OnOk result (string_bytes text.new ≡ string_bytes text.old ++ slack_line verdict) }
{
    match verdict {
        Verdict::Yes { outs } => writeln!(text, "slack yes {outs}"),
        Verdict::No {
            number,
            event,
            limit,
        } => {
            let stamp = event.stamp;
            let channel = event.channel;
            writeln!(text, "slack no {number} {stamp} {channel} {limit}")
        }
        Verdict::Open { requests, why } => {
            let why = why_text(why);
            writeln!(text, "slack open {requests} {why}")
        }
    }
}

/// The line of a verdict, as bytes: `slack yes OUTS` with the number of outputs; `slack no NUMBER STAMP CHANNEL LIMIT` with how
/// many outputs came before, the least stamp of the output (mu), its channel and the limit that may reach its cycle (mu); or
/// `slack open REQUESTS WHY` with how many requests came before and the kind's name. Numbers are decimal, and the line is this
/// project's own. The only error is want of memory.
pub fn slack_line(alloc: Global, verdict: Verdict) -> Result<Vec<u8>, AllocError>
    ensures { IfOk result (λ line. line.items ≡ slack_line verdict) }
{
    let mut text = String::new(alloc);
    write_verdict(&mut text, verdict)?;
    Ok(text.into_bytes())
}
