// The code of expressions, put behind the lines that there are.

ghost use Rattle.std.specs.Prelude.{◌≡◌, ◌+◌, ◌<◌, ◌++◌, [], ◌∷◌, IfOk, OnOk, length};
ghost use Rattle.kern_calls.specs.Calls.{builtin_named, method_named};
ghost use Rattle.kern_calls.specs.Types.{call_type, type_of};
ghost use Rattle.kern_syntax.specs.Tree.{no_more};
ghost use Rattle.kern_syntax.specs.TreeOf.{expression_of, argument_of, arguments_of};
ghost use Rattle.core_isa.specs.declared.instr.Instr.TheVariants as I;
ghost use Rattle.code_forms.specs.ExpressionCode.{arguments_code, call_code, expression_code, method_code, numbers_in};
ghost use Rattle.code_forms.specs.Lines.{line, raised};
ghost use Rattle.code_forms.specs.Operations.{call_has_value};
ghost use Rattle.code_forms.specs.Setting.{length_of, slot_of};
ghost use Rattle.code_forms.specs.Sizes.{arguments_size, call_size, expression_size, method_size};
ghost use Rattle.code_ranges.specs.Ready.{AreReady, IsReady};
ghost use Rattle.core_code_names.specs.SettingOf.{setting_of};
ghost use Rattle.core_code_expressions.specs.ReadyCalls.{IsReadyCall, IsReadyMethod};

use crate::pieces::{load_instr, put_and_end, put_and_test, put_filler, put_or_test};
use core_code_names::Setting;
use core_code_operations::lines::{put, raised};
use core_code_operations::{
    Callee, callee_of, method_has_value, put_comparison, put_method_instrs, put_not, put_operator,
    put_unary, text_in,
};
use core_code_sizes::{expression_size, negated, wrapped_type};
use core_isa::{CodeLine, Instr, Mark};
use kern_calls::{Operation, ValueType, binary_type, literal_type, method_named, method_type};
use kern_syntax::{Argument, Expr, Identifier};
use std::alloc::AllocError;

/// Puts the code of an expression, which leaves its value, behind the lines that there are, under a mark. The slot `free`
/// and those behind it are free. Tells the expression's type.
#[cycle(expressions)]
#[tactic(auto, using(crate::proofs::Put::longer))]
pub fn put_expression(
    lines: &mut Vec<CodeLine>,
    setting: &Setting<'_>,
    free: u16,
    mark: Mark,
    e: &Expr,
) -> Result<ValueType, AllocError>
    requires { IsReady (setting_of setting.now) mark (length lines.old.items) (expression_of e.now) }
    ensures code { OnOk result (lines.new.items ≡ lines.old.items
        ++ expression_code (setting_of setting.now) free mark (length lines.old.items) (expression_of e.now)) }
    ensures longer { OnOk result (length lines.new.items ≡ length lines.old.items + expression_size (setting_of setting.now) (expression_of e.now)) }
    ensures kind { IfOk result (λ kind. kind ≡ type_of (setting_of setting.now).scope (expression_of e.now)) }
{
    match e {
        Expr::Integer(value) => {
            put(lines, mark, Instr::Const(*value as i64))?;
            Ok(literal_type(*value))
        }
        Expr::True => {
            put(lines, mark, Instr::Const(1))?;
            Ok(ValueType::Bool)
        }
        Expr::False => {
            put(lines, mark, Instr::Const(0))?;
            Ok(ValueType::Bool)
        }
        Expr::Variable(name) => {
            put(lines, mark, load_instr(setting, name.bytes()))?;
            Ok(setting.type_of_name(name.bytes()))
        }
        Expr::Index(array, index) => {
            put_expression(lines, setting, free, mark, index)?;
            put_element(lines, setting, mark, array.bytes())?;
            Ok(ValueType::Int64)
        }
        Expr::Group(inner) => put_expression(lines, setting, free, mark, inner),
        Expr::Unary(operator, operand) => {
            if let Some(number) = negated(*operator, operand) {
                put(lines, mark, Instr::Const(-(number as i64)))?;
                return Ok(literal_type(number));
            }
            let kind = put_expression(lines, setting, free, mark, operand)?;
            put_unary(lines, raised(mark, 1), *operator, kind)?;
            Ok(kind)
        }
        Expr::Binary(operator, left, right) => {
            let first = put_expression(lines, setting, free, mark, left)?;
            let second = put_expression(lines, setting, free, raised(mark, 1), right)?;
            let kind = binary_type(*operator, first, second);
            let wrapped = wrapped_type(*operator, left, right, kind);
            put_operator(lines, raised(mark, 2), *operator, wrapped)?;
            Ok(kind)
        }
        Expr::Compare(comparison, left, right) => {
            put_expression(lines, setting, free, mark, left)?;
            put_expression(lines, setting, free, raised(mark, 1), right)?;
            put_comparison(lines, raised(mark, 2), *comparison)?;
            Ok(ValueType::Bool)
        }
        Expr::Not(operand) => {
            put_expression(lines, setting, free, mark, operand)?;
            put_not(lines, raised(mark, 1))?;
            Ok(ValueType::Bool)
        }
        Expr::And(left, right) => {
            put_expression(lines, setting, free, mark, left)?;
            put_and_test(lines, mark, expression_size(setting, right).size)?;
            put_expression(lines, setting, free, mark, right)?;
            put_and_end(lines, mark)?;
            Ok(ValueType::Bool)
        }
        Expr::Or(left, right) => {
            put_expression(lines, setting, free, mark, left)?;
            put_or_test(lines, mark, expression_size(setting, right).size)?;
            put_expression(lines, setting, free, mark, right)?;
            Ok(ValueType::Bool)
        }
        Expr::Call(name, arguments) => {
            let callee = put_call(lines, setting, free, mark, name, arguments)?;
            put_filler(lines, mark, callee.has_value)?;
            Ok(callee.kind)
        }
        Expr::Method(object, name, arguments) => {
            let method = put_method(lines, setting, free, mark, object, name, arguments)?;
            put_filler(lines, mark, method_has_value(method))?;
            Ok(method_type(method))
        }
    }
}

// Puts what reads an element of an array, whose index is on the operands behind those of a mark.
fn put_element(
    lines: &mut Vec<CodeLine>,
    setting: &Setting<'_>,
    mark: Mark,
    array: &[u8],
) -> Result<(), AllocError>
    requires { mark.height + 1 < 256 }
    ensures { OnOk result (lines.new.items ≡ lines.old.items
        ++ line (raised 1 mark) (I.LoadAt (slot_of (setting_of setting.now) array.now) (length_of (setting_of setting.now) array.now)) ∷ []) }
{
    let first = setting.slot(array);
    put(
        lines,
        raised(mark, 1),
        Instr::LoadAt(first, setting.length(array)),
    )
}

/// Puts the code of a call by name, which leaves a value if it has one. Tells what is called.
#[cycle(expressions)]
pub fn put_call(
    lines: &mut Vec<CodeLine>,
    setting: &Setting<'_>,
    free: u16,
    mark: Mark,
    name: &Identifier,
    arguments: &[Argument],
) -> Result<Callee, AllocError>
    requires { IsReadyCall (setting_of setting.now) mark (length lines.old.items) name.now (arguments_of arguments.now) }
    ensures code { OnOk result (lines.new.items ≡ lines.old.items
        ++ call_code (setting_of setting.now) free mark (length lines.old.items) name.now (arguments_of arguments.now)) }
    ensures longer { OnOk result (length lines.new.items ≡ length lines.old.items + call_size (setting_of setting.now) name.now (arguments_of arguments.now)) }
    ensures has_value { IfOk result (λ callee. callee.has_value ≡ call_has_value (setting_of setting.now) name.now (builtin_named name.now)) }
    ensures kind { IfOk result (λ callee. callee.kind ≡ call_type (setting_of setting.now).scope.program name.now (builtin_named name.now)) }
{
    let callee = callee_of(setting, name.bytes(), arguments);
    if callee.takes_numbers {
        let above = put_arguments(lines, setting, free, mark, arguments)?;
        callee.put(lines, above)?;
        return Ok(callee);
    }
    callee.put(lines, mark)?;
    Ok(callee)
}

/// Puts the code of a call of a method, which leaves a value if it has one. Tells the method.
#[cycle(expressions)]
pub fn put_method(
    lines: &mut Vec<CodeLine>,
    setting: &Setting<'_>,
    free: u16,
    mark: Mark,
    object: &Identifier,
    name: &Identifier,
    arguments: &[Argument],
) -> Result<Option<Operation>, AllocError>
    requires { IsReadyMethod (setting_of setting.now) mark (length lines.old.items) object.now name.now (arguments_of arguments.now) }
    ensures code { OnOk result (lines.new.items ≡ lines.old.items
        ++ method_code (setting_of setting.now) free mark (length lines.old.items) object.now name.now (arguments_of arguments.now)) }
    ensures longer { OnOk result (length lines.new.items ≡ length lines.old.items + method_size (setting_of setting.now) object.now name.now (arguments_of arguments.now)) }
    ensures method { IfOk result (λ method. method ≡ method_named object.now name.now) }
{
    let method = method_named(object.bytes(), name.bytes());
    let above = put_arguments(lines, setting, free, mark, arguments)?;
    put_method_instrs(lines, setting, free, above, text_in(arguments), method)?;
    Ok(method)
}

// Puts the code of the numbers among the arguments of a call, from left to right. Tells the mark that counts them.
#[cycle(expressions)]
fn put_arguments(
    lines: &mut Vec<CodeLine>,
    setting: &Setting<'_>,
    free: u16,
    mark: Mark,
    arguments: &[Argument],
) -> Result<Mark, AllocError>
    requires { AreReady (setting_of setting.now) mark (length lines.old.items) (arguments_of arguments.now) }
    ensures code { OnOk result (lines.new.items ≡ lines.old.items
        ++ arguments_code (setting_of setting.now) free mark (length lines.old.items) (arguments_of arguments.now)) }
    ensures longer { OnOk result (length lines.new.items ≡ length lines.old.items + arguments_size (setting_of setting.now) (arguments_of arguments.now)) }
    ensures above { IfOk result (λ above. above ≡ raised (numbers_in (arguments_of arguments.now)) mark) }
{
    let mut above = mark;
    for argument in arguments.iter() {
        above = put_argument(lines, setting, free, above, argument)?;
    }
    Ok(above)
}

#[cycle(expressions)]
fn put_argument(
    lines: &mut Vec<CodeLine>,
    setting: &Setting<'_>,
    free: u16,
    mark: Mark,
    argument: &Argument,
) -> Result<Mark, AllocError>
    requires { AreReady (setting_of setting.now) mark (length lines.old.items) (argument_of argument.now no_more) }
    ensures code { OnOk result (lines.new.items ≡ lines.old.items
        ++ arguments_code (setting_of setting.now) free mark (length lines.old.items) (argument_of argument.now no_more)) }
    ensures longer { OnOk result (length lines.new.items ≡ length lines.old.items + arguments_size (setting_of setting.now) (argument_of argument.now no_more)) }
    ensures above { IfOk result (λ above. above ≡ raised (numbers_in (argument_of argument.now no_more)) mark) }
{
    match argument {
        Argument::Value(e) => {
            put_expression(lines, setting, free, mark, e)?;
            Ok(raised(mark, 1))
        }
        Argument::Text(_) => Ok(mark),
    }
}
