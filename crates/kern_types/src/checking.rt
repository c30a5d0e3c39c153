// The checker of kernels.

ghost use Rattle.std.specs.Prelude.{◌≡◌, IfOk, IfErr, OnOk, [], map, position, bytes_eq};
ghost use Rattle.kern_syntax.specs.Grammatical.{IsGrammatical};
ghost use Rattle.kern_syntax.specs.Spellable.{IsSpellableProgram};
ghost use Rattle.kern_syntax.specs.TreeOf.{tree_of};
ghost use Rattle.kern_expression_types.specs.Verdicts.{fault};
ghost use Rattle.kern_plain.specs.PlainFunctions.{plain_names};
ghost use Rattle.kern_types.specs.Programs.{IsTyped, program_verdict, place_of_function};

use crate::program::check_functions;
use kern_expression_types::TypeFault;
use kern_plain::plain_functions;
use kern_syntax::{Function, Program};
use std::alloc::{AllocError, Global};
use std::marker::Model;

/// A program of the grammar, with its limits and those of its tokens, that is typed. Contracts see it as its functions.
#[derive(Drop)]
pub struct Checked {
    program: Program,
}

impl Model for Checked {
    ghost use Rattle.std.specs.Prelude.{List};
    ghost use Rattle.kern_syntax.specs.declared.program.Function.{Function};
    ghost use Rattle.kern_syntax.specs.contracts.statement.Block as block;
    ghost use Rattle.kern_syntax.specs.TreeOf.{tree_of};
    ghost use Rattle.kern_types.specs.Checked.{IsChecked};
    ghost use Rattle.std.specs.Coded.{codes};

    ghost Value = { List Function };

    ghost coded = { Prim.hlevel (codes, block.the_row.coded) };

    ghost view = { λ c. c.program };

    ghost invariant = { λ c. IsChecked (tree_of c.program) };
}

/// Checks the types of a program of the grammar, whose names, texts and integers are those of tokens, by the rules of
/// `docs/LANGUAGE.md`, and keeps it. Else the first fault in the order of evaluation is told with its line, also where
/// memory is refused.
pub fn check(alloc: Global, program: Program) -> Result<Checked, TypeFault>
    requires grammatical { IsGrammatical (tree_of program) }
    requires spellable { IsSpellableProgram (tree_of program) }
    ensures kept { IfOk result (λ checked. checked ≡ program) }
    ensures typed { OnOk result (IsTyped (tree_of program)) }
    ensures fault { IfErr result (λ found. program_verdict (tree_of program) ≡ fault found.line found.kind) }
{
    check_functions(alloc, program.functions())?;
    Ok(Checked { program })
}

impl Checked {
    /// The program, which is in the grammar, can be written in tokens, and is typed.
    pub fn program(&self) -> &Program
        ensures kept { result.now ≡ self.now }
        ensures grammatical { IsGrammatical (tree_of result.now) }
        ensures spellable { IsSpellableProgram (tree_of result.now) }
        ensures typed { IsTyped (tree_of result.now) }
    {
        &self.program
    }

    /// The place of the function of a name in the order of the text, from 0; none exactly where no function has it.
    pub fn function(&self, name: &[u8]) -> Option<u32>
        ensures { result ≡ place_of_function (tree_of self.now) name.now }
    {
        let place = place_of(self.program.functions(), name)?;
        Some(place as u32)
    }

    /// The names of the functions that are plain, in the order of the text: those without a live call and without a
    /// record block, also in what they call. `Err` tells want of memory.
    pub fn plain_functions(&self, alloc: Global) -> Result<Vec<&[u8]>, AllocError>
        ensures names { IfOk result (λ plain. map (λ n. n.now) plain.items ≡ plain_names [] (tree_of self.now)) }
    {
        plain_functions(alloc, self.program.functions())
    }
}

// The place of the first function of a name.
fn place_of(functions: &[Function], name: &[u8]) -> Option<usize>
    ensures { result ≡ position (λ f. bytes_eq name.now f.name) functions.now }
{
    functions
        .iter()
        .position(|function| name == function.name.bytes())
}
