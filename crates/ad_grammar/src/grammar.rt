// The rules of the grammar, each a function that reads what stands at the front of the words that are left, and tells a
// machine what builds its tree (ClassAd Language Reference Manual 2.4, grammar). `fuel` bounds how many expressions stand
// within one another; the number of words and one more is enough. Chains are read by loops, so that only brackets take
// stack.
ghost use Rattle.std.specs.Prelude.{◌≡◌, ◌-◌, ◌≤◌, ◌∷◌, suc, length, IfOk, OnOk};
ghost use Rattle.ad_grammar.specs.Levels.{climb};
ghost use Rattle.ad_builder.specs.Machine.{stack, top, below};
ghost use Rattle.ad_grammar.specs.Rules as rules;
ghost use Rattle.ad_grammar.specs.Rules.{Rule};
ghost use Rattle.ad_grammar.specs.Steps.{left, Adds, Puts, wrapped, applied, extended, completed};
ghost use Rattle.ad_grammar.specs.Words.{mark as mark_word};

use crate::phrase::{attribute, defined, finished, lone, lone_element, operand, selection, worded};
use crate::reader::Reader;
use crate::stop::Stop;
use ad_builder::{Instruction, Machine};
use ad_lexer::Mark;
use ad_tree::Scope;
use pool_text::{OutOfMemory, UnOp};
use std::alloc::Global;

/// The precedence of `||`, which binds least tightly of the operators between two operands.
const LAST_PRECEDENCE: usize = 10;

/// An expression. A literal alone, as most definitions have, is told by the mark behind it, and read at once.
#[cycle(grammar)]
pub fn expression(
    alloc: Global,
    reader: &mut Reader<'_>,
    machine: &mut Machine,
    fuel: usize,
) -> Result<(), Stop>
    ensures { Puts (rules.expression fuel (left reader.old)) result (left reader.new) (stack machine.old) (stack machine.new) }
{
    if fuel == 0 {
        return Err(Stop::Grammar);
    }
    if lone(alloc, reader, machine)? {
        return Ok(());
    }
    conditionals(alloc, reader, machine, fuel - 1)
}

/// A conditional, or what binds tighter.
#[cycle(grammar)]
fn conditionals(
    alloc: Global,
    reader: &mut Reader<'_>,
    machine: &mut Machine,
    fuel: usize,
) -> Result<(), Stop>
    ensures { Puts (rules.conditionals (rules.expression fuel) (suc (length (left reader.old))) (left reader.old))
        result (left reader.new) (stack machine.old) (stack machine.new) }
{
    let mut pending: usize = 0;
    let mut turns = reader.count() + 1;
    while turns > 0 {
        turns -= 1;
        level(alloc, reader, machine, fuel, LAST_PRECEDENCE)?;
        if !reader.takes(Mark::Question) {
            return Ok(machine.choose(pending)?);
        }
        expression(alloc, reader, machine, fuel)?;
        reader.expect(Mark::Colon)?;
        pending += 1;
    }
    Err(Stop::Grammar)
}

/// Operands and operators that bind at most this loosely.
#[cycle(grammar)]
fn level(
    alloc: Global,
    reader: &mut Reader<'_>,
    machine: &mut Machine,
    fuel: usize,
    precedence: usize,
) -> Result<(), Stop>
    ensures { Puts (rules.level_at (rules.expression fuel) precedence (left reader.old))
        result (left reader.new) (stack machine.old) (stack machine.new) }
{
    prefixes(alloc, reader, machine, fuel)?;
    climb(alloc, reader, machine, fuel, precedence)
}

/// Operators that bind at most this loosely behind an operand, each with its right operand. Behind one of them operators that
/// bind as tightly or looser may follow, since the right operand has taken those that bind tighter.
#[cycle(grammar)]
fn climb(
    alloc: Global,
    reader: &mut Reader<'_>,
    machine: &mut Machine,
    fuel: usize,
    precedence: usize,
) -> Result<(), Stop>
    ensures { Puts (climb (rules.expression fuel) 0 precedence (top (stack machine.old)) (left reader.old))
        result (left reader.new) (below (stack machine.old)) (stack machine.new) }
{
    let mut reached = 0;
    while let Some((next, operator)) = reader.operator(reached, precedence) {
        level(alloc, reader, machine, fuel, next - 1)?;
        machine.push(Instruction::Infix(operator))?;
        reached = next - 1;
    }
    Ok(())
}

/// Operators before an operand, which most have none of.
#[cycle(grammar)]
#[inline(always)]
fn prefixes(
    alloc: Global,
    reader: &mut Reader<'_>,
    machine: &mut Machine,
    fuel: usize,
) -> Result<(), Stop>
    ensures { Puts (rules.prefixes (rules.expression fuel) (left reader.old))
        result (left reader.new) (stack machine.old) (stack machine.new) }
{
    if operand(alloc, reader, machine)? {
        return Ok(());
    }
    if reader.has_prefix() {
        return prefixed(alloc, reader, machine, fuel);
    }
    postfix(alloc, reader, machine, fuel)
}

/// An operand behind operators before it.
#[cycle(grammar)]
#[inline(never)]
fn prefixed(
    alloc: Global,
    reader: &mut Reader<'_>,
    machine: &mut Machine,
    fuel: usize,
) -> Result<(), Stop>
    ensures { Puts (rules.prefixes (rules.expression fuel) (left reader.old))
        result (left reader.new) (stack machine.old) (stack machine.new) }
{
    let operators = read_operators(alloc, reader)?;
    postfix(alloc, reader, machine, fuel)?;
    Ok(apply(machine, operators)?)
}

/// A primary with selections and subscripts behind it, which few have.
#[cycle(grammar)]
#[inline(always)]
fn postfix(
    alloc: Global,
    reader: &mut Reader<'_>,
    machine: &mut Machine,
    fuel: usize,
) -> Result<(), Stop>
    ensures { Puts (rules.postfix (rules.expression fuel) (left reader.old))
        result (left reader.new) (stack machine.old) (stack machine.new) }
{
    primary(alloc, reader, machine, fuel)?;
    if reader.has_suffix() {
        return suffixes(alloc, reader, machine, fuel);
    }
    Ok(())
}

/// Selections and subscripts behind an operand.
#[cycle(grammar)]
#[inline(never)]
fn suffixes(
    alloc: Global,
    reader: &mut Reader<'_>,
    machine: &mut Machine,
    fuel: usize,
) -> Result<(), Stop>
    ensures { Puts (rules.suffixes (rules.expression fuel) (length (left reader.old)) (top (stack machine.old)) (left reader.old))
        result (left reader.new) (below (stack machine.old)) (stack machine.new) }
{
    let mut turns = reader.count();
    while turns > 0 {
        turns -= 1;
        if reader.takes(Mark::Dot) {
            selection(alloc, reader, machine)?;
        } else if reader.takes(Mark::OpenBracket) {
            expression(alloc, reader, machine, fuel)?;
            reader.expect(Mark::CloseBracket)?;
            machine.push(Instruction::Subscript)?;
        } else {
            return Ok(());
        }
    }
    Ok(())
}

/// What needs no operator.
#[cycle(grammar)]
#[inline(always)]
fn primary(
    alloc: Global,
    reader: &mut Reader<'_>,
    machine: &mut Machine,
    fuel: usize,
) -> Result<(), Stop>
    ensures { Puts (rules.primary (rules.expression fuel) (left reader.old))
        result (left reader.new) (stack machine.old) (stack machine.new) }
{
    if let Some(mark) = reader.take_mark() {
        return marked(alloc, reader, machine, fuel, mark);
    }
    if worded(alloc, reader, machine)? {
        return arguments(alloc, reader, machine, fuel);
    }
    Ok(())
}

/// A primary that begins with a mark, behind it.
#[cycle(grammar)]
#[inline(always)]
fn marked(
    alloc: Global,
    reader: &mut Reader<'_>,
    machine: &mut Machine,
    fuel: usize,
    mark: Mark,
) -> Result<(), Stop>
    ensures { Puts (rules.primary (rules.expression fuel) (mark_word mark ∷ left reader.old))
        result (left reader.new) (stack machine.old) (stack machine.new) }
{
    match mark {
        Mark::Dot => attribute(alloc, reader, machine, Scope::My),
        Mark::OpenBrace => {
            machine.push(Instruction::List(reader.elements_ahead()))?;
            elements(alloc, reader, machine, fuel)
        }
        Mark::OpenBracket => {
            machine.push(Instruction::Ad)?;
            definitions(alloc, reader, machine, fuel)?;
            Ok(machine.push(Instruction::Close)?)
        }
        Mark::OpenParen => {
            expression(alloc, reader, machine, fuel)?;
            reader.expect(Mark::CloseParen)
        }
        _ => Err(Stop::Grammar),
    }
}

/// The arguments of a call behind its opening mark.
#[cycle(grammar)]
fn arguments(
    alloc: Global,
    reader: &mut Reader<'_>,
    machine: &mut Machine,
    fuel: usize,
) -> Result<(), Stop>
    ensures { Puts (extended (top (stack machine.old)) (rules.arguments (rules.expression fuel) (left reader.old)))
        result (left reader.new) (below (stack machine.old)) (stack machine.new) }
{
    if reader.takes(Mark::CloseParen) {
        return Ok(());
    }
    several(alloc, reader, machine, fuel)?;
    reader.expect(Mark::CloseParen)
}

/// The elements of a list behind its opening mark.
#[cycle(grammar)]
#[inline(always)]
fn elements(
    alloc: Global,
    reader: &mut Reader<'_>,
    machine: &mut Machine,
    fuel: usize,
) -> Result<(), Stop>
    ensures { Puts (extended (top (stack machine.old)) (rules.elements (rules.expression fuel) (left reader.old)))
        result (left reader.new) (below (stack machine.old)) (stack machine.new) }
{
    if reader.takes(Mark::CloseBrace) {
        return Ok(());
    }
    several(alloc, reader, machine, fuel)?;
    reader.expect(Mark::CloseBrace)
}

/// One expression or more, divided by commas, which are added to the tree that is the last on the stack.
#[cycle(grammar)]
#[inline(always)]
fn several(
    alloc: Global,
    reader: &mut Reader<'_>,
    machine: &mut Machine,
    fuel: usize,
) -> Result<(), Stop>
    ensures { Puts (extended (top (stack machine.old))
        (rules.several (rules.expression fuel) (length (left reader.old)) (left reader.old)))
        result (left reader.new) (below (stack machine.old)) (stack machine.new) }
{
    let mut turns = reader.count();
    while turns > 0 {
        turns -= 1;
        element(alloc, reader, machine, fuel)?;
        if !reader.takes(Mark::Comma) {
            return Ok(());
        }
    }
    Err(Stop::Grammar)
}

/// An expression that is added to the tree that is the last on the stack. Most are a name or a literal alone.
#[cycle(grammar)]
fn element(
    alloc: Global,
    reader: &mut Reader<'_>,
    machine: &mut Machine,
    fuel: usize,
) -> Result<(), Stop>
    ensures { Adds (rules.expression fuel (left reader.old)) result (left reader.new) (stack machine.old) (stack machine.new) }
{
    if fuel == 0 {
        return Err(Stop::Grammar);
    }
    if lone_element(alloc, reader, machine)? {
        return Ok(());
    }
    expression(alloc, reader, machine, fuel)?;
    Ok(machine.push(Instruction::Element)?)
}

/// The definitions of an ad behind its opening mark, which are made in the tree that is the last on the stack.
#[cycle(grammar)]
pub fn definitions(
    alloc: Global,
    reader: &mut Reader<'_>,
    machine: &mut Machine,
    fuel: usize,
) -> Result<(), Stop>
    ensures { Puts (completed (top (stack machine.old)) (rules.ad_behind (rules.expression fuel) (left reader.old)))
        result (left reader.new) (below (stack machine.old)) (stack machine.new) }
{
    if reader.takes(Mark::CloseBracket) {
        return Ok(());
    }
    some_definitions(alloc, reader, machine, fuel)
}

#[cycle(grammar)]
fn some_definitions(
    alloc: Global,
    reader: &mut Reader<'_>,
    machine: &mut Machine,
    fuel: usize,
) -> Result<(), Stop>
    ensures { Puts (completed (top (stack machine.old))
        (rules.definitions_at (rules.expression fuel) (length (left reader.old)) (left reader.old)))
        result (left reader.new) (below (stack machine.old)) (stack machine.new) }
{
    let mut turns = reader.count();
    while turns > 0 {
        turns -= 1;
        let name = defined(alloc, reader)?;
        expression(alloc, reader, machine, fuel)?;
        if !finished(reader, machine, name)? {
            return Ok(());
        }
    }
    Err(Stop::Grammar)
}

/// The operators before an operand.
fn read_operators(alloc: Global, reader: &mut Reader<'_>) -> Result<Vec<UnOp>, OutOfMemory>
    ensures { IfOk result (λ operators. (e : Rule) → rules.prefixes e (left reader.old)
        ≡ wrapped operators.items (rules.postfix e (left reader.new))) }
{
    let mut operators = Vec::new(alloc);
    let mut turns = reader.count();
    while turns > 0 {
        turns -= 1;
        let Some(operator) = reader.prefix() else {
            return Ok(operators);
        };
        operators.push(operator)?;
    }
    Ok(operators)
}

/// The operators applied to the last tree, the last of them first.
fn apply(machine: &mut Machine, operators: Vec<UnOp>) -> Result<(), OutOfMemory>
    ensures top { OnOk result (top (stack machine.new) ≡ applied operators.items (top (stack machine.old))) }
    ensures below { OnOk result (below (stack machine.new) ≡ below (stack machine.old)) }
{
    let mut operators = operators;
    while let Some(operator) = operators.pop() {
        machine.push(Instruction::Unary(operator))?;
    }
    Ok(())
}
