// The code of `try` and its handlers.

ghost use Rattle.std.specs.Prelude.{◌≡◌, ◌+◌, ◌<◌, ◌^◌, ◌++◌, OnOk, length};
ghost use Rattle.kern_syntax.specs.TreeOf.{block_of, handlers_of};
ghost use Rattle.code_forms.specs.Lines.{with_handler};
ghost use Rattle.code_forms.specs.Sizes.{handlers_size};
ghost use Rattle.code_forms.specs.StatementCode.{handlers_code};
ghost use Rattle.code_ranges.specs.ReadyStatements.{HasSpace, BlockFits, HandlersFit};
ghost use Rattle.core_code_names.specs.SettingOf.{setting_of};
ghost use Rattle.core_code_simple.specs.InsideOf.{inside_of};
ghost use Rattle.core_code_statements.specs.Parts.{tried_code, tried_size};

use crate::blocks::put_block;
use crate::exceptions::exception_code;
use core_code_names::Setting;
use core_code_simple::Inside;
use core_code_simple::lines::{put, put_all, raised, with_handler};
use core_code_sizes::block_size;
use core_isa::{CodeLine, Instr};
use kern_syntax::{Block, Handler};
use std::alloc::AllocError;

/// The body of a `try`, under a handler that is removed behind it.
#[cycle(statements)]
pub fn put_tried(
    lines: &mut Vec<CodeLine>,
    setting: &Setting<'_>,
    inside: Inside,
    body: &Block,
    end: u32,
) -> Result<(), AllocError>
    requires space { HasSpace inside.mark inside.free }
    requires added { HasSpace (with_handler inside.mark) inside.free }
    requires fits { BlockFits (setting_of setting.now) (with_handler inside.mark) inside.free (block_of body.now) }
    requires places { length lines.old.items + tried_size (setting_of setting.now) (inside_of inside) (block_of body.now) < 2 ^ 31 }
    ensures code { OnOk result (lines.new.items ≡ lines.old.items
        ++ tried_code (setting_of setting.now) (inside_of inside) (length lines.old.items) end (block_of body.now)) }
    ensures longer { OnOk result (length lines.new.items ≡ length lines.old.items
        + tried_size (setting_of setting.now) (inside_of inside) (block_of body.now)) }
{
    let mark = with_handler(inside.mark);
    let kept = u32::from(inside.enclosing.tries);
    let size = block_size(setting, u32::from(mark.tries), kept, body);
    let first = lines.len() as u32 + 1 + size + 2;
    put(lines, inside.mark, Instr::Try(first))?;
    put_block(lines, setting, Inside { mark, ..inside }, body)?;
    put_all(lines, mark, &[Instr::EndTry, Instr::Jump(end)])
}

/// The handlers of a `try`, in their order, and what raises the exception again behind them. Each goes on at the end.
#[cycle(statements)]
pub fn put_handlers(
    lines: &mut Vec<CodeLine>,
    setting: &Setting<'_>,
    inside: Inside,
    handlers: &[Handler],
    end: u32,
) -> Result<(), AllocError>
    requires space { HasSpace inside.mark inside.free }
    requires fits { HandlersFit (setting_of setting.now) inside.mark inside.free (handlers_of handlers.now) }
    requires places { length lines.old.items
        + handlers_size (setting_of setting.now) inside.mark.tries inside.enclosing.tries (handlers_of handlers.now) < 2 ^ 31 }
    ensures code { OnOk result (lines.new.items ≡ lines.old.items
        ++ handlers_code (setting_of setting.now) (inside_of inside) (length lines.old.items) end (handlers_of handlers.now)) }
    ensures longer { OnOk result (length lines.new.items ≡ length lines.old.items
        + handlers_size (setting_of setting.now) inside.mark.tries inside.enclosing.tries (handlers_of handlers.now)) }
{
    for handler in handlers.iter() {
        put_handler(lines, setting, inside, handler, end)?;
    }
    put(lines, raised(inside.mark, 1), Instr::Raise)
}

ghost use Rattle.kern_syntax.specs.Tree.{no_handler};
ghost use Rattle.kern_syntax.specs.TreeOf.{handler_of};
ghost use Rattle.core_code_statements.specs.Parts.{handler_code, handler_size};

// A handler is entered with the exception's code on the operands.
#[cycle(statements)]
fn put_handler(
    lines: &mut Vec<CodeLine>,
    setting: &Setting<'_>,
    inside: Inside,
    handler: &Handler,
    end: u32,
) -> Result<(), AllocError>
    requires space { HasSpace inside.mark inside.free }
    requires fits { HandlersFit (setting_of setting.now) inside.mark inside.free (handler_of handler.now no_handler) }
    requires places { length lines.old.items
        + handler_size (setting_of setting.now) (inside_of inside) (handler_of handler.now no_handler) < 2 ^ 31 }
    ensures code { OnOk result (lines.new.items ≡ lines.old.items
        ++ handler_code (setting_of setting.now) (inside_of inside) (length lines.old.items) end (handler_of handler.now no_handler)) }
    ensures longer { OnOk result (length lines.new.items ≡ length lines.old.items
        + handler_size (setting_of setting.now) (inside_of inside) (handler_of handler.now no_handler)) }
{
    let tries = u32::from(inside.mark.tries);
    let kept = u32::from(inside.enclosing.tries);
    let size = block_size(setting, tries, kept, &handler.body);
    let next = lines.len() as u32 + 5 + size + 1;
    put_handler_begin(lines, inside, handler.exception.bytes(), next)?;
    put_block(lines, setting, inside, &handler.body)?;
    put(lines, inside.mark, Instr::Jump(end))
}

ghost use Rattle.std.specs.Prelude.{[], ◌∷◌};
ghost use Rattle.core_isa.specs.declared.instr.Instr.TheVariants as I;
ghost use Rattle.code_forms.specs.Lines.{raised, straight};
ghost use Rattle.code_forms.specs.StatementCode.{code_of_name};

// An exception of another name goes on at the next handler.
fn put_handler_begin(
    lines: &mut Vec<CodeLine>,
    inside: Inside,
    name: &[u8],
    next: u32,
) -> Result<(), AllocError>
    requires { HasSpace inside.mark inside.free }
    ensures code { OnOk result (lines.new.items ≡ lines.old.items
        ++ straight (raised 1 inside.mark) (I.Dup ∷ I.Const (code_of_name name.now) ∷ I.Eq ∷ I.JumpZero next ∷ I.Pop ∷ [])) }
    ensures longer { OnOk result (length lines.new.items ≡ length lines.old.items + 5) }
{
    let begins = [
        Instr::Dup,
        Instr::Const(exception_code(name)),
        Instr::Eq,
        Instr::JumpZero(next),
        Instr::Pop,
    ];
    put_all(lines, raised(inside.mark, 1), &begins)
}
