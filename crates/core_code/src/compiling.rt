// The code of a program, and what it promises.

ghost use Rattle.std.specs.Prelude.{◌≡◌, ◌≤◌, IfOk, IfErr, OnOk};
ghost use Rattle.limits.specs.Limits.{most_nodes};
ghost use Rattle.kern_syntax.specs.Nodes.{program_nodes};
ghost use Rattle.kern_syntax.specs.TreeOf.{tree_of};
ghost use Rattle.code_forms.specs.Programs.{code_of_program};
ghost use Rattle.code_law.specs.DoesAs.{DoesAs};
ghost use Rattle.code_law.specs.Laws.{IsFit};
ghost use Rattle.core_code.specs.Ends.{IsEndOf};

use crate::end::CodeEnd;
use crate::functions::put_functions;
use code_law::{checked_programs_are_fit, code_does_as, functions_are_ready};
use core_code_statements::texts_of;
use core_image::{Verified, verify};
use core_isa::{Code, CodeFunctionList, CodeLineList, NameList};
use kern_names::{Functions, number_functions};
use kern_syntax::nodes;
use kern_types::Checked;
use limits::MOST_NODES;
use std::alloc::{AllocError, Global};
use std::marker::Model;

/// A checked program with its code, which does what the program does. Contracts see it as the pair of both.
#[derive(Drop)]
pub struct Compiled {
    checked: Checked,
    code: Verified,
}

impl Model for Compiled {
    ghost use Rattle.std.specs.Prelude.{List};
    ghost use Rattle.std.specs.Coded.{codes};
    ghost use Rattle.kern_syntax.specs.declared.program.Function.{Function};
    ghost use Rattle.kern_syntax.specs.contracts.statement.Block as block;
    ghost use Rattle.kern_syntax.specs.TreeOf.{tree_of};
    ghost use Rattle.core_isa.specs.declared.code.Code.{Code};
    ghost use Rattle.code_law.specs.DoesAs.{DoesAs};

    ghost Value = { List Function × Code };

    ghost coded = { Prim.hlevel (codes, block.the_row.coded) };

    ghost view = { λ c. (c.checked, c.code) };

    ghost invariant = { λ c. DoesAs (tree_of c.checked) c.code };
}

impl Compiled {
    ghost use Rattle.std.specs.Prelude.{◌≡◌};
    ghost use Rattle.kern_syntax.specs.TreeOf.{tree_of};
    ghost use Rattle.code_law.specs.DoesAs.{DoesAs};

    /// The program.
    pub fn checked(&self) -> &Checked
        ensures kept { result.now ≡ self.now.0 }
        ensures does { DoesAs (tree_of result.now) self.now.1 }
    {
        &self.checked
    }

    /// Its code: accepted, with the program's functions at the same indexes, `main` as its main function and at most 16
    /// instructions a node; and every run of it asks what the program means, and ends so.
    pub fn code(&self) -> &Verified
        ensures kept { result.now ≡ self.now.1 }
        ensures does { DoesAs (tree_of self.now.0) result.now }
    {
        &self.code
    }
}

/// Compiles a checked program of at most 16,384 nodes, and keeps it. A larger one is refused with the number of its nodes,
/// which stands still at 2^64 - 1; else it ends early only for want of memory.
pub fn compile(alloc: Global, checked: Checked) -> Result<Compiled, CodeEnd>
    // The program is kept, and its code is the one that `docs/COMPILER.md` describes, construct by construct.
    ensures kept { IfOk result (λ compiled. compiled.0 ≡ checked) }
    ensures code { IfOk result (λ compiled. compiled.1 ≡ code_of_program (tree_of checked)) }
    // A run of the code from any function, under arguments that fit it, at any cursor, with any units and any replies that fit
    // their requests, asks what the program means, and ends so, at the same cursor and with the same units left.
    ensures does { IfOk result (λ compiled. DoesAs (tree_of checked) compiled.1) }
    // Exactly the programs of more than 16,384 nodes are too large.
    ensures small { OnOk result (program_nodes (tree_of checked) ≤ most_nodes) }
    ensures end { IfErr result (λ end. IsEndOf end (tree_of checked)) }
{
    let nodes = nodes(checked.program());
    if nodes > MOST_NODES {
        return Err(CodeEnd::TooLarge { nodes });
    }
    checked_programs_are_fit();
    code_does_as();
    let code = code_of(alloc, &checked)?;
    match verify(code) {
        Ok(code) => Ok(Compiled { checked, code }),
        Err(_) => unreachable!(),
    }
}

// The code of a program that is not too large.
fn code_of(alloc: Global, checked: &Checked) -> Result<Code, AllocError>
    requires { IsFit (tree_of checked.now) }
    ensures { IfOk result (λ code. code ≡ code_of_program (tree_of checked.now)) }
{
    functions_are_ready();
    let functions = checked.program().functions();
    let numbers = number_functions(alloc, functions)?;
    let texts = texts_of(alloc, functions)?;
    let plain = checked.plain_functions(alloc)?;
    let program = Functions {
        functions,
        numbers: &numbers,
    };
    let parts = put_functions(alloc, &program, &plain, &texts)?;
    let names = texts.names(alloc)?;
    Ok(Code {
        main: main_of(&program),
        names: NameList::of(names),
        functions: CodeFunctionList::of(parts.entries),
        lines: CodeLineList::of(parts.lines),
    })
}

ghost use Rattle.std.specs.Prelude.{◌<◌, ◌^◌, codes, length, unwrap_or};
ghost use Rattle.kern_types.specs.Programs.{place_of_function};
ghost use Rattle.kern_names.specs.ScopeOf.{program_of};

// The index of `main`.
fn main_of(functions: &Functions<'_>) -> u16
    requires { length functions.now.functions.now < 2 ^ 16 }
    ensures { result ≡ unwrap_or (place_of_function (program_of functions.now) (codes "main")) 0 }
{
    match functions.place(b"main".as_slice()) {
        Some(place) => place as u16,
        None => 0,
    }
}
