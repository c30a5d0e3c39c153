// The lines that say why a text, an image or a dump is refused.
ghost use Rattle.std.specs.Prelude.{◌≡◌, IfOk};
ghost use Rattle.sim_program.specs.Images.{bad_code_line, image_line};
ghost use Rattle.sim_program.specs.Texts.{IsLineOfEnd, code_line, kind_text, lex_line, syntax_line, text_line, type_kind_text, type_line};
ghost use Rattle.sim_program.specs.Waves.{dump_line, early_line};

use kern_accepted::{KernelEnd, Refusal};
use kern_lexer::LexKind;
use kern_types::TypeKind;
use std::alloc::{AllocError, Global};

/// The line that says why a text is no accepted kernel's; none where memory ran out before that was known.
pub fn line_of_end(alloc: Global, end: KernelEnd) -> Result<Vec<u8>, AllocError>
    ensures { IfOk result (λ line. IsLineOfEnd end line.items) }
{
    match end {
        KernelEnd::Refused(refusal) => text_refusal(alloc, refusal),
        KernelEnd::Memory => Err(AllocError),
    }
}

// The line that says why a text is refused.
fn text_refusal(alloc: Global, refusal: Refusal) -> Result<Vec<u8>, AllocError>
    ensures { IfOk result (λ line. line.items ≡ text_line refusal) }
{
    match refusal {
        Refusal::Tokens { at, kind } => lex_refusal(alloc, at, kind),
        Refusal::Tree { token, at } => syntax_refusal(alloc, token, at),
        Refusal::Types { line, kind } => type_refusal(alloc, line, kind),
        Refusal::Nodes { count } => code_refusal(alloc, count),
    }
}

// `lex AT KIND`: the place of the first fault of a text without tokens, in bytes, and its kind.
fn lex_refusal(alloc: Global, at: u32, kind: LexKind) -> Result<Vec<u8>, AllocError>
    ensures { IfOk result (λ line. line.items ≡ lex_line at kind) }
{
    let mut line = String::new(alloc);
    let kind = kind_name(kind);
    writeln!(line, "lex {at} {kind}")?;
    Ok(line.into_bytes())
}

// The name of a kind of fault.
fn kind_name(kind: LexKind) -> &'static str
    ensures { result.now ≡ kind_text kind }
{
    match kind {
        LexKind::Byte => "Byte",
        LexKind::Tab => "Tab",
        LexKind::Indent => "Indent",
        LexKind::Number => "Number",
        LexKind::Text => "Text",
        LexKind::Name => "Name",
    }
}

// `syntax TOKEN AT`: the number of the first wrong token, from 0, and its place in bytes.
fn syntax_refusal(alloc: Global, token: u32, at: u32) -> Result<Vec<u8>, AllocError>
    ensures { IfOk result (λ line. line.items ≡ syntax_line token at) }
{
    let mut line = String::new(alloc);
    writeln!(line, "syntax {token} {at}")?;
    Ok(line.into_bytes())
}

// `type LINE KIND`: the line of the first fault of a program that isn't typed, from 1, and its kind.
fn type_refusal(alloc: Global, at: u32, kind: TypeKind) -> Result<Vec<u8>, AllocError>
    ensures { IfOk result (λ line. line.items ≡ type_line at kind) }
{
    let mut line = String::new(alloc);
    let kind = type_kind_name(kind);
    writeln!(line, "type {at} {kind}")?;
    Ok(line.into_bytes())
}

// The name of a kind of fault of types.
fn type_kind_name(kind: TypeKind) -> &'static str
    ensures { result.now ≡ type_kind_text kind }
{
    match kind {
        TypeKind::Name => "Name",
        TypeKind::Size => "Size",
        TypeKind::Unknown => "Unknown",
        TypeKind::Method => "Method",
        TypeKind::Arity => "Arity",
        TypeKind::Width => "Width",
        TypeKind::NotBool => "NotBool",
        TypeKind::Mismatch => "Type",
        TypeKind::BlockExit => "BlockExit",
        TypeKind::NestedRecord => "NestedRecord",
        TypeKind::LiveInRecord => "LiveInRecord",
        TypeKind::NoMain => "NoMain",
    }
}

// `code NODES`: the number of nodes of a program that has too many.
fn code_refusal(alloc: Global, count: u64) -> Result<Vec<u8>, AllocError>
    ensures { IfOk result (λ line. line.items ≡ code_line count) }
{
    let mut line = String::new(alloc);
    writeln!(line, "code {count}")?;
    Ok(line.into_bytes())
}

/// `image OFFSET`: where the first wrong field of bytes that are no image begins, in bytes.
pub fn image_refusal(alloc: Global, offset: u32) -> Result<Vec<u8>, AllocError>
    ensures { IfOk result (λ line. line.items ≡ image_line offset) }
{
    let mut line = String::new(alloc);
    writeln!(line, "image {offset}")?;
    Ok(line.into_bytes())
}

/// `bad code PLACE`: the first place of code that isn't accepted.
pub fn bad_code_refusal(alloc: Global, place: u32) -> Result<Vec<u8>, AllocError>
    ensures { IfOk result (λ line. line.items ≡ bad_code_line place) }
{
    let mut line = String::new(alloc);
    writeln!(line, "bad code {place}")?;
    Ok(line.into_bytes())
}

/// `dump OFFSET`: where the first wrong field of bytes that are no dump begins, in bytes.
pub fn dump_refusal(alloc: Global, offset: u64) -> Result<Vec<u8>, AllocError>
    ensures { IfOk result (λ line. line.items ≡ dump_line offset) }
{
    let mut line = String::new(alloc);
    writeln!(line, "dump {offset}")?;
    Ok(line.into_bytes())
}

/// `dump early`: a stamp of a dump is below 8.
pub fn early_refusal(alloc: Global) -> Result<Vec<u8>, AllocError>
    ensures { IfOk result (λ line. line.items ≡ early_line) }
{
    let mut line = String::new(alloc);
    writeln!(line, "dump early")?;
    Ok(line.into_bytes())
}
