// The code of statements without a block.

ghost use Rattle.std.specs.Prelude.{◌≡◌, ◌+◌, ◌<◌, ◌++◌, OnOk, length};
ghost use Rattle.kern_syntax.specs.TreeOf.{expression_of, statement_of};
ghost use Rattle.code_forms.specs.Sizes.{statement_size};
ghost use Rattle.code_forms.specs.StatementCode.{statement_code};
ghost use Rattle.core_code_names.specs.SettingOf.{setting_of};
ghost use Rattle.core_code_simple.specs.InsideOf.{inside_of};
ghost use Rattle.core_code_simple.specs.Parts.{IsSimple};
ghost use Rattle.core_code_simple.specs.ReadyStatement.{IsReadyStatement};

use crate::inside::Inside;
use crate::leaves::put_behind_handlers;
use core_code_expressions::lines::{put, put_all, raised};
use core_code_expressions::{put_effect, put_expression};
use core_code_names::Setting;
use core_isa::{CodeLine, Instr};
use kern_calls::ValueType;
use kern_syntax::{Augment, Expr, StmtKind, Target};
use std::alloc::AllocError;

/// Puts the code of a statement without a block behind the lines that there are.
pub fn put_simple(
    lines: &mut Vec<CodeLine>,
    setting: &Setting<'_>,
    inside: Inside,
    statement: &StmtKind,
) -> Result<(), AllocError>
    requires simple { IsSimple (statement_of statement.now) }
    requires ready { IsReadyStatement (setting_of setting.now) (inside_of inside) (length lines.old.items) (statement_of statement.now) }
    ensures code { OnOk result (lines.new.items ≡ lines.old.items
        ++ statement_code (setting_of setting.now) (inside_of inside) (length lines.old.items) (statement_of statement.now)) }
    ensures longer { OnOk result (length lines.new.items
        ≡ length lines.old.items + statement_size (setting_of setting.now) inside.mark.tries inside.enclosing.tries (statement_of statement.now)) }
{
    match statement {
        StmtKind::Break => put_leaving(lines, inside, inside.enclosing.past),
        StmtKind::Continue => put_leaving(lines, inside, inside.enclosing.again),
        StmtKind::Return(value) => put_return(lines, setting, inside, value),
        StmtKind::Evaluate(e) => put_effect(lines, setting, inside.free, inside.mark, e),
        StmtKind::Assign(Target::Variable(name), e) => {
            put_assigned(lines, setting, inside, name.bytes(), e)
        }
        StmtKind::Assign(Target::Element(array, index), e) => {
            put_element_assigned(lines, setting, inside, array.bytes(), index, e)
        }
        StmtKind::Augmented(Target::Variable(name), operator, e) => {
            put_augmented(lines, setting, inside, name.bytes(), *operator, e)
        }
        StmtKind::Augmented(Target::Element(array, index), operator, e) => {
            put_element_augmented(lines, setting, inside, array.bytes(), index, *operator, e)
        }
        StmtKind::ArrayRepeat(array, e, _) => {
            put_repeated(lines, setting, inside, array.bytes(), e)
        }
        StmtKind::ArrayList(array, elements) => {
            put_listed(lines, setting, inside, array.bytes(), elements)
        }
        _ => Ok(()),
    }
}

ghost use Rattle.code_forms.specs.StatementCode.{leaving};
ghost use Rattle.code_ranges.specs.ReadyStatements.{HasSpace};
ghost use Rattle.std.specs.Prelude.{◌-◌};

// A loop is left, or goes on, at a place, without the handlers that were added inside it.
fn put_leaving(lines: &mut Vec<CodeLine>, inside: Inside, to: u32) -> Result<(), AllocError>
    ensures code { OnOk result (lines.new.items ≡ lines.old.items ++ leaving (inside_of inside) to) }
    ensures longer { OnOk result (length lines.new.items ≡ length lines.old.items + (inside.mark.tries - inside.enclosing.tries + 1)) }
{
    let added = inside.mark.tries.saturating_sub(inside.enclosing.tries);
    put_behind_handlers(lines, inside.mark, added, Instr::Jump(to))
}

ghost use Rattle.std.specs.Prelude.{option_map};
ghost use Rattle.kern_syntax.specs.Tree.{return};

fn put_return(
    lines: &mut Vec<CodeLine>,
    setting: &Setting<'_>,
    inside: Inside,
    value: &Option<Expr>,
) -> Result<(), AllocError>
    requires { IsReadyStatement (setting_of setting.now) (inside_of inside) (length lines.old.items) (return (option_map expression_of value.now)) }
    ensures code { OnOk result (lines.new.items ≡ lines.old.items
        ++ statement_code (setting_of setting.now) (inside_of inside) (length lines.old.items) (return (option_map expression_of value.now))) }
    ensures longer { OnOk result (length lines.new.items ≡ length lines.old.items
        + statement_size (setting_of setting.now) inside.mark.tries inside.enclosing.tries (return (option_map expression_of value.now))) }
{
    put_result(lines, setting, inside, value)?;
    let mark = if setting.value {
        raised(inside.mark, 1)
    } else {
        inside.mark
    };
    put_behind_handlers(lines, mark, inside.mark.tries, Instr::Return)
}

ghost use Rattle.code_forms.specs.Sizes.{return_size};
ghost use Rattle.code_forms.specs.StatementCode.{return_code};

// The value of a `return`: 0 where a function has a value and none is given, and none where it has none.
fn put_result(
    lines: &mut Vec<CodeLine>,
    setting: &Setting<'_>,
    inside: Inside,
    value: &Option<Expr>,
) -> Result<(), AllocError>
    requires { IsReadyStatement (setting_of setting.now) (inside_of inside) (length lines.old.items) (return (option_map expression_of value.now)) }
    ensures code { OnOk result (lines.new.items ≡ lines.old.items
        ++ return_code (setting_of setting.now) (inside_of inside) (length lines.old.items) (option_map expression_of value.now)) }
    ensures longer { OnOk result (length lines.new.items ≡ length lines.old.items
        + return_size (setting_of setting.now) (option_map expression_of value.now)) }
{
    match value {
        Some(e) => {
            put_expression(lines, setting, inside.free, inside.mark, e)?;
            if setting.value {
                Ok(())
            } else {
                put(lines, raised(inside.mark, 1), Instr::Pop)
            }
        }
        None => {
            if setting.value {
                put(lines, inside.mark, Instr::Const(0))
            } else {
                Ok(())
            }
        }
    }
}

ghost use Rattle.kern_syntax.specs.Tree.{assign, assign_element};

fn put_assigned(
    lines: &mut Vec<CodeLine>,
    setting: &Setting<'_>,
    inside: Inside,
    name: &[u8],
    e: &Expr,
) -> Result<(), AllocError>
    requires { IsReadyStatement (setting_of setting.now) (inside_of inside) (length lines.old.items) (assign name.now (expression_of e.now)) }
    ensures code { OnOk result (lines.new.items ≡ lines.old.items
        ++ statement_code (setting_of setting.now) (inside_of inside) (length lines.old.items) (assign name.now (expression_of e.now))) }
    ensures longer { OnOk result (length lines.new.items ≡ length lines.old.items + (expression_size (setting_of setting.now) (expression_of e.now) + 1)) }
{
    put_expression(lines, setting, inside.free, inside.mark, e)?;
    put(
        lines,
        raised(inside.mark, 1),
        Instr::Store(setting.slot(name)),
    )
}

ghost use Rattle.code_forms.specs.Sizes.{expression_size};

fn put_element_assigned(
    lines: &mut Vec<CodeLine>,
    setting: &Setting<'_>,
    inside: Inside,
    array: &[u8],
    index: &Expr,
    e: &Expr,
) -> Result<(), AllocError>
    requires { IsReadyStatement (setting_of setting.now) (inside_of inside) (length lines.old.items) (assign_element array.now (expression_of index.now) (expression_of e.now)) }
    ensures code { OnOk result (lines.new.items ≡ lines.old.items
        ++ statement_code (setting_of setting.now) (inside_of inside) (length lines.old.items) (assign_element array.now (expression_of index.now) (expression_of e.now))) }
    ensures longer { OnOk result (length lines.new.items ≡ length lines.old.items
        + statement_size (setting_of setting.now) inside.mark.tries inside.enclosing.tries (assign_element array.now (expression_of index.now) (expression_of e.now))) }
{
    put_expression(lines, setting, inside.free, inside.mark, e)?;
    put_expression(lines, setting, inside.free, raised(inside.mark, 1), index)?;
    let element = Instr::StoreAt(setting.slot(array), setting.length(array));
    put(lines, raised(inside.mark, 2), element)
}

ghost use Rattle.kern_calls.specs.declared.types.ValueType.{ValueType};
ghost use Rattle.timeline_sem.specs.Statements.{operator_of};
ghost use Rattle.code_forms.specs.Operations.{operator_instr};

// The instruction of an augmented assignment.
fn augment_instr(operator: Augment) -> Instr
    ensures { (t : ValueType) → result ≡ operator_instr (operator_of operator) t }
{
    match operator {
        Augment::Add => Instr::Add,
        Augment::Subtract => Instr::Sub,
    }
}

ghost use Rattle.kern_syntax.specs.Tree.{augment, augment_element};

fn put_augmented(
    lines: &mut Vec<CodeLine>,
    setting: &Setting<'_>,
    inside: Inside,
    name: &[u8],
    operator: Augment,
    e: &Expr,
) -> Result<(), AllocError>
    requires { IsReadyStatement (setting_of setting.now) (inside_of inside) (length lines.old.items) (augment name.now operator (expression_of e.now)) }
    ensures code { OnOk result (lines.new.items ≡ lines.old.items
        ++ statement_code (setting_of setting.now) (inside_of inside) (length lines.old.items) (augment name.now operator (expression_of e.now))) }
    ensures longer { OnOk result (length lines.new.items ≡ length lines.old.items
        + statement_size (setting_of setting.now) inside.mark.tries inside.enclosing.tries (augment name.now operator (expression_of e.now))) }
{
    let slot = setting.slot(name);
    put(lines, inside.mark, Instr::Load(slot))?;
    put_expression(lines, setting, inside.free, raised(inside.mark, 1), e)?;
    let kind = setting.type_of_name(name);
    put_augment(lines, inside, augment_instr(operator), kind, slot)
}

ghost use Rattle.std.specs.Prelude.{[], ◌∷◌};
ghost use Rattle.code_forms.specs.Lines.{raised, straight};
ghost use Rattle.code_forms.specs.Operations.{wrapping};
ghost use Rattle.core_isa.specs.declared.instr.Instr.TheVariants as I;

// An operator whose result is kept in a slot, as a value of a type.
fn put_augment(
    lines: &mut Vec<CodeLine>,
    inside: Inside,
    operator: Instr,
    kind: ValueType,
    slot: u16,
) -> Result<(), AllocError>
    requires { HasSpace inside.mark inside.free }
    ensures code { OnOk result (lines.new.items ≡ lines.old.items ++ straight (raised 2 inside.mark) (operator ∷ wrapping kind ++ I.Store slot ∷ [])) }
    ensures longer { OnOk result (length lines.new.items ≡ length lines.old.items + (1 + length (wrapping kind) + 1)) }
{
    let mark = raised(inside.mark, 2);
    match kind {
        ValueType::Int32 => put_all(lines, mark, &[operator, Instr::Wrap32, Instr::Store(slot)]),
        _ => put_all(lines, mark, &[operator, Instr::Store(slot)]),
    }
}

fn put_element_augmented(
    lines: &mut Vec<CodeLine>,
    setting: &Setting<'_>,
    inside: Inside,
    array: &[u8],
    index: &Expr,
    operator: Augment,
    e: &Expr,
) -> Result<(), AllocError>
    requires { IsReadyStatement (setting_of setting.now) (inside_of inside) (length lines.old.items) (augment_element array.now (expression_of index.now) operator (expression_of e.now)) }
    ensures code { OnOk result (lines.new.items ≡ lines.old.items
        ++ statement_code (setting_of setting.now) (inside_of inside) (length lines.old.items) (augment_element array.now (expression_of index.now) operator (expression_of e.now))) }
    ensures longer { OnOk result (length lines.new.items ≡ length lines.old.items
        + statement_size (setting_of setting.now) inside.mark.tries inside.enclosing.tries (augment_element array.now (expression_of index.now) operator (expression_of e.now))) }
{
    let (slot, length) = (setting.slot(array), setting.length(array));
    let free = inside.free;
    let held = raised(inside.mark, 1);
    put_expression(lines, setting, free, inside.mark, index)?;
    let load = [Instr::Dup, Instr::Store(free), Instr::LoadAt(slot, length)];
    put_all(lines, held, &load)?;
    put_expression(lines, setting, free + 1, held, e)?;
    let store = [
        augment_instr(operator),
        Instr::Load(free),
        Instr::StoreAt(slot, length),
    ];
    put_all(lines, raised(inside.mark, 2), &store)
}

ghost use Rattle.std.specs.Prelude.{◌^◌};
ghost use Rattle.code_forms.specs.Setting.{slot_of, length_of};
ghost use Rattle.code_forms.specs.StatementCode.{value_code};
ghost use Rattle.code_ranges.specs.Ready.{ExpressionFits};

fn put_repeated(
    lines: &mut Vec<CodeLine>,
    setting: &Setting<'_>,
    inside: Inside,
    array: &[u8],
    e: &Expr,
) -> Result<(), AllocError>
    requires space { HasSpace inside.mark inside.free }
    requires fits { ExpressionFits inside.mark (expression_of e.now) }
    requires places { length lines.old.items + expression_size (setting_of setting.now) (expression_of e.now) < 2 ^ 32 }
    ensures code { OnOk result (lines.new.items ≡ lines.old.items
        ++ (value_code (setting_of setting.now) (inside_of inside) (length lines.old.items) (expression_of e.now)
        ++ straight (raised 1 inside.mark) (I.Fill (slot_of (setting_of setting.now) array.now) (length_of (setting_of setting.now) array.now) ∷ []))) }
    ensures longer { OnOk result (length lines.new.items ≡ length lines.old.items + (expression_size (setting_of setting.now) (expression_of e.now) + 1)) }
{
    put_expression(lines, setting, inside.free, inside.mark, e)?;
    let fill = Instr::Fill(setting.slot(array), setting.length(array));
    put(lines, raised(inside.mark, 1), fill)
}

ghost use Rattle.std.specs.Prelude.{map};
ghost use Rattle.kern_syntax.specs.Tree.{assign_list};

fn put_listed(
    lines: &mut Vec<CodeLine>,
    setting: &Setting<'_>,
    inside: Inside,
    array: &[u8],
    elements: &[Expr],
) -> Result<(), AllocError>
    requires { IsReadyStatement (setting_of setting.now) (inside_of inside) (length lines.old.items) (assign_list array.now (map expression_of elements.now)) }
    ensures code { OnOk result (lines.new.items ≡ lines.old.items
        ++ statement_code (setting_of setting.now) (inside_of inside) (length lines.old.items) (assign_list array.now (map expression_of elements.now))) }
    ensures longer { OnOk result (length lines.new.items ≡ length lines.old.items
        + statement_size (setting_of setting.now) inside.mark.tries inside.enclosing.tries (assign_list array.now (map expression_of elements.now))) }
{
    let first = setting.slot(array);
    let others = elements.len().saturating_sub(1) as u16;
    put_stored(lines, setting, inside, first + others, elements)?;
    put_moved(lines, inside, others, first)
}

ghost use Rattle.code_forms.specs.Sizes.{stored_size};
ghost use Rattle.code_forms.specs.StatementCode.{stored_code};
ghost use Rattle.code_ranges.specs.ReadyStatements.{EachFits};

// Some expressions, each of which is stored in a free slot, but the last one in its place in the array.
fn put_stored(
    lines: &mut Vec<CodeLine>,
    setting: &Setting<'_>,
    inside: Inside,
    last: u16,
    elements: &[Expr],
) -> Result<(), AllocError>
    requires space { HasSpace inside.mark inside.free }
    requires fits { EachFits inside.mark (map expression_of elements.now) }
    requires slots { inside.free + length elements.now < 2 ^ 16 }
    requires places { length lines.old.items + stored_size (setting_of setting.now) (map expression_of elements.now) < 2 ^ 32 }
    ensures code { OnOk result (lines.new.items ≡ lines.old.items
        ++ stored_code (setting_of setting.now) (inside_of inside) last (length lines.old.items) (map expression_of elements.now)) }
    ensures longer { OnOk result (length lines.new.items ≡ length lines.old.items + stored_size (setting_of setting.now) (map expression_of elements.now)) }
{
    let mut slot = inside.free;
    let mut left = elements.len();
    for element in elements.iter() {
        left -= 1;
        put_expression(lines, setting, slot, inside.mark, element)?;
        let store = Instr::Store(element_slot(left, slot, last));
        put(lines, raised(inside.mark, 1), store)?;
        slot += 1;
    }
    Ok(())
}

ghost use Rattle.code_forms.specs.StatementCode.{element_slot};

// The slot where an element of a list is stored, with so many behind it: a free one, but the last goes to its place in the array.
#[tactic(auto, using(crate::proofs::Straight::more_behind))]
fn element_slot(left: usize, free: u16, last: u16) -> u16
    ensures { result ≡ element_slot left free last }
{
    if left == 0 { last } else { free }
}

ghost use Rattle.std.specs.Prelude.{◌*◌};
ghost use Rattle.code_forms.specs.StatementCode.{moved};

// Numbers go from the slots that were free to others, one by one.
fn put_moved(
    lines: &mut Vec<CodeLine>,
    inside: Inside,
    count: u16,
    to: u16,
) -> Result<(), AllocError>
    requires space { HasSpace inside.mark inside.free }
    requires from_slots { inside.free + count < 2 ^ 16 }
    requires to_slots { to + count < 2 ^ 16 }
    ensures code { OnOk result (lines.new.items ≡ lines.old.items ++ straight inside.mark (moved count inside.free to)) }
    ensures longer { OnOk result (length lines.new.items ≡ length lines.old.items + 2 * count) }
{
    for step in 0..count {
        let pair = [Instr::Load(inside.free + step), Instr::Store(to + step)];
        put_all(lines, inside.mark, &pair)?;
    }
    Ok(())
}
