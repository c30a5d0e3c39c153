// The accepted kernel that a text is, and its code.

ghost use Rattle.std.specs.Prelude.{◌≡◌, ◌<◌, ◌^◌, length, IfErr, IfOk};
ghost use Rattle.kern_syntax.specs.TreeOf.{tree_of};
ghost use Rattle.kern_types.specs.Programs.{IsTyped};
ghost use Rattle.code_forms.specs.Programs.{code_of_program};
ghost use Rattle.kern_accepted.specs.Refusals.{IsEndOf};
ghost use Rattle.kern_accepted.specs.Texts.{IsKernelText, IsTextOf};

use crate::end::{KernelEnd, Refusal};
use core_code::{CodeEnd, Compiled, compile};
use kern_lexer::{LexEnd, lex};
use kern_parser::{SyntaxEnd, parse};
use kern_syntax::nodes;
use kern_types::{Checked, check};
use limits::MOST_NODES;
use std::alloc::Global;

/// The accepted kernel that a text is. Any other text is refused: for its tokens, its tree, its types or its number of nodes,
/// in this order. Else it ends early only for want of memory.
pub fn accept(alloc: Global, text: &[u8]) -> Result<Checked, KernelEnd>
    requires { length text.now < 2 ^ 31 }
    ensures kernel { IfOk result (λ checked. IsKernelText text.now (tree_of checked)) }
    ensures end { IfErr result (IsEndOf text.now) }
{
    let checked = typed_of(alloc, text)?;
    let count = nodes(checked.program());
    if count > MOST_NODES {
        return Err(KernelEnd::Refused(Refusal::Nodes { count }));
    }
    Ok(checked)
}

/// The accepted kernel that a text is, with its code. Any other text is refused, as `accept` does.
pub fn compile_text(alloc: Global, text: &[u8]) -> Result<Compiled, KernelEnd>
    requires { length text.now < 2 ^ 31 }
    ensures kernel { IfOk result (λ compiled. IsKernelText text.now (tree_of compiled.0)) }
    ensures code { IfOk result (λ compiled. compiled.1 ≡ code_of_program (tree_of compiled.0)) }
    ensures end { IfErr result (IsEndOf text.now) }
{
    let checked = typed_of(alloc, text)?;
    match compile(alloc, checked) {
        Ok(compiled) => Ok(compiled),
        Err(CodeEnd::TooLarge { nodes }) => {
            Err(KernelEnd::Refused(Refusal::Nodes { count: nodes }))
        }
        Err(CodeEnd::Memory) => Err(KernelEnd::Memory),
    }
}

// The typed program that a text is, of any number of nodes.
fn typed_of(alloc: Global, text: &[u8]) -> Result<Checked, KernelEnd>
    requires { length text.now < 2 ^ 31 }
    ensures typed { IfOk result (λ checked. IsTextOf text.now (tree_of checked) × IsTyped (tree_of checked)) }
    ensures end { IfErr result (IsEndOf text.now) }
{
    let tokens = match lex(alloc, text) {
        Ok(tokens) => tokens,
        Err(LexEnd::Memory) => return Err(KernelEnd::Memory),
        Err(LexEnd::Fault { at, kind }) => {
            return Err(KernelEnd::Refused(Refusal::Tokens { at, kind }));
        }
    };
    let program = match parse(alloc, &tokens, text) {
        Ok(program) => program,
        Err(SyntaxEnd::Memory) => return Err(KernelEnd::Memory),
        Err(SyntaxEnd::Fault { token }) => {
            let at = tokens[token as usize].at;
            return Err(KernelEnd::Refused(Refusal::Tree { token, at }));
        }
    };
    match check(alloc, program) {
        Ok(checked) => Ok(checked),
        Err(fault) => Err(KernelEnd::Refused(Refusal::Types {
            line: fault.line,
            kind: fault.kind,
        })),
    }
}
