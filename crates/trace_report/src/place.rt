// Places in a kernel's text.

ghost use Rattle.std.specs.Prelude.{◌≡◌, ◌++◌, OnOk, string_bytes};
ghost use Rattle.trace_report.specs.Places.{place_text, under_text};

use std::alloc::AllocError;

/// Where something stands in a kernel's text.
#[derive(Clone, Copy, Debug, PartialEq, Eq)]
pub struct TextPlace {
    /// The line of the innermost statement, or of the `elif` or `except`, from 1; 0 for none.
    pub line: u32,
    /// Where that stands in a called function, the line of the call in `main` under which it ran.
    pub main: Option<u32>,
}

/// Appends a place: `LINE`, or `LINE<MAIN`.
pub fn write_place(text: &mut String, place: TextPlace) -> Result<(), AllocError>
    ensures { OnOk result (string_bytes text.new ≡ string_bytes text.old ++ place_text place) }
{
    let line = place.line;
    write!(text, "{line}")?;
    write_under(text, place.main)
}

// Appends the line of a call in `main`, if there is one.
fn write_under(text: &mut String, main: Option<u32>) -> Result<(), AllocError>
    ensures { OnOk result (string_bytes text.new ≡ string_bytes text.old ++ under_text main) }
{
    match main {
        None => Ok(()),
        Some(line) => write!(text, "<{line}"),
    }
}
