// The code of functions, one behind the other.

ghost use Rattle.std.specs.Prelude.{◌≡◌, ◌+◌, ◌<◌, ◌≤◌, ◌^◌, ◌++◌, [], ◌∷◌, Contains, IfOk, OnOk, is_some, length, map};
ghost use Rattle.kern_syntax.specs.TreeOf.{block_of, function_of};
ghost use Rattle.kern_expression_types.specs.Before.{is_in};
ghost use Rattle.code_forms.specs.Programs.{block_slots, entries_of, entry_of, function_code, function_size, functions_code};
ghost use Rattle.code_forms.specs.Setting.{slots_of_names};
ghost use Rattle.code_law.specs.Laws.{IsReadyFunction};
ghost use Rattle.kern_names.specs.ScopeOf.{program_of};
ghost use Rattle.core_code.specs.Ready.{AreReadyFrom};

use core_code_statements::{Setting, SlottedNames, Texts, block_slots, put_body};
use core_isa::{CodeFunction, CodeLine};
use kern_expression_types::is_among;
use kern_names::{Functions, names_of};
use kern_syntax::Function;
use std::alloc::{AllocError, Global};

/// The functions that are put: their entries, and their lines one behind the other.
#[derive(Drop)]
pub struct Parts {
    pub entries: Vec<CodeFunction>,
    pub lines: Vec<CodeLine>,
}

// Whether a function is one of those that are plain.
fn is_plain(plain: &[&[u8]], function: &Function) -> bool
    ensures { result ≡ is_in (map (λ n. n.now) plain.now) function.now.name }
{
    is_among(plain, function.name.bytes())
}

// The entry of a function that has these names and whose code begins at a place.
fn entry_of(
    plain: &[&[u8]],
    names: &SlottedNames,
    place: usize,
    function: &Function,
) -> CodeFunction
    requires place { place < 2 ^ 32 }
    requires parameters { length function.now.parameters ≤ 8 }
    requires slots { slots_of_names names.now + block_slots (block_of function.now.body) < 2 ^ 16 }
    ensures { result ≡ record {
      first = place;
      params = length function.now.parameters;
      slots = slots_of_names names.now + block_slots (block_of function.now.body);
      value = is_some function.now.result;
      plain = is_in (map (λ n. n.now) plain.now) function.now.name;
    } }
{
    CodeFunction {
        first: place as u32,
        params: function.parameters.items().len() as u8,
        slots: names.slots().saturating_add(block_slots(&function.body)),
        value: function.result.is_some(),
        plain: is_plain(plain, function),
    }
}

// Puts the entry and the code of a function behind those that there are.
fn put_function(
    alloc: Global,
    program: &Functions<'_>,
    plain: &[&[u8]],
    texts: &Texts,
    parts: &mut Parts,
    function: &Function,
) -> Result<(), AllocError>
    requires few { length program.now.functions.now < 2 ^ 16 }
    requires own { Contains (program_of program.now) (function_of function.now) }
    requires ready { IsReadyFunction (program_of program.now) texts.now (length parts.old.lines.items) (function_of function.now) }
    ensures entry { OnOk result (parts.new.entries.items ≡ parts.old.entries.items
        ++ entry_of (program_of program.now) (map (λ n. n.now) plain.now) (length parts.old.lines.items) (function_of function.now) ∷ []) }
    ensures code { OnOk result (parts.new.lines.items ≡ parts.old.lines.items
        ++ function_code (program_of program.now) texts.now (length parts.old.lines.items) (function_of function.now)) }
    ensures longer { OnOk result (length parts.new.lines.items ≡ length parts.old.lines.items
        + function_size (program_of program.now) texts.now (function_of function.now)) }
{
    let names = SlottedNames::of(alloc, names_of(alloc, program, function)?)?;
    let entry = entry_of(plain, &names, parts.lines.len(), function);
    parts.entries.push(entry)?;
    let value = function.result.is_some();
    let setting = Setting::new(*program, &names, texts, value);
    put_body(&mut parts.lines, &setting, &function.body)
}

/// Puts the entries and the code of the functions of a program one behind the other. It ends early only for want of memory.
pub fn put_functions(
    alloc: Global,
    program: &Functions<'_>,
    plain: &[&[u8]],
    texts: &Texts,
) -> Result<Parts, AllocError>
    requires few { length program.now.functions.now < 2 ^ 16 }
    requires ready { AreReadyFrom (program_of program.now) texts.now 0 (program_of program.now) }
    ensures entries { IfOk result (λ parts. parts.entries.items
        ≡ entries_of (program_of program.now) (map (λ n. n.now) plain.now) texts.now 0 (program_of program.now)) }
    ensures code { IfOk result (λ parts. parts.lines.items
        ≡ functions_code (program_of program.now) texts.now 0 (program_of program.now)) }
{
    let mut parts = Parts {
        entries: Vec::new(alloc),
        lines: Vec::new(alloc),
    };
    for function in program.functions.iter() {
        put_function(alloc, program, plain, texts, &mut parts, function)?;
    }
    Ok(parts)
}
