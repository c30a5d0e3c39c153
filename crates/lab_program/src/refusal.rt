// The lines that say why bytes are no session.

ghost use Rattle.std.specs.Prelude.{◌≡◌, IfOk};
ghost use Rattle.lab_program.specs.Refusals.{field_line, json_line, kind_text};

use exp_json::{FieldKind, PathText};
use std::alloc::{AllocError, Global};

/// `session json`: the bytes are no JSON value.
pub fn json_refusal(alloc: Global) -> Result<Vec<u8>, AllocError>
    ensures { IfOk result (λ line. line.items ≡ json_line) }
{
    let mut line = String::new(alloc);
    writeln!(line, "session json")?;
    Ok(line.into_bytes())
}

/// `session PATH KIND`: the path to the first fault of a value that is no session, and its kind.
pub fn field_refusal(alloc: Global, path: &PathText, kind: FieldKind) -> Result<Vec<u8>, AllocError>
    ensures { IfOk result (λ line. line.items ≡ field_line path.now kind) }
{
    let mut line = String::new(alloc);
    let path = path.as_str();
    let kind = kind_name(kind);
    writeln!(line, "session {path} {kind}")?;
    Ok(line.into_bytes())
}

// The name of a kind of fault.
fn kind_name(kind: FieldKind) -> &'static str
    ensures { result.now ≡ kind_text kind }
{
    match kind {
        FieldKind::Missing => "Missing",
        FieldKind::Unknown => "Unknown",
        FieldKind::Shape => "Type",
        FieldKind::Range => "Range",
        FieldKind::Index => "Index",
        FieldKind::Order => "Order",
    }
}
