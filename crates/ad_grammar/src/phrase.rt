// Parts of the rules that hold no expression.
ghost use Rattle.std.specs.Prelude.{◌≡◌, ◌∷◌, ℕ, Bool, true, false, List, Some, None, Ok, Err, OnOk, suc};
ghost use Rattle.ad_tree.specs.Inline.{Inline};
ghost use Rattle.ad_tree.specs.Tree.{name};
ghost use Rattle.ad_tree.specs.declared.tree.Scope.TheVariants.{Bare};
ghost use Rattle.ad_builder.specs.Shapes.{leaf};
ghost use Rattle.ad_builder.specs.declared.instruction.Instruction.TheVariants as instructions;
ghost use Rattle.ad_grammar.specs.declared.stop.Stop.TheVariants as stops;
ghost use Rattle.ad_grammar.specs.HeldMarks.{front_mark};
ghost use Rattle.ad_builder.specs.Machine.{stack, top, below, step};
ghost use Rattle.ad_grammar.specs.Rules.{Rule, expression, plain_at, prefixes, primary};
ghost use Rattle.ad_grammar.specs.Steps.{left, Begins, Continues, Gives, Puts, attribute_at, defined_at, put_at, reference, selected};
ghost use Rattle.ad_grammar.specs.Words.{scope_of};

use crate::reader::Reader;
use crate::stop::Stop;
use ad_builder::{Instruction, Machine};
use ad_lexer::Mark;
use ad_tree::Scope;
use pool_text::{OutOfMemory, Text};
use std::alloc::Global;

/// A plain name or a literal alone, with a mark behind it that no expression goes on with. Answers whether one stands there.
pub(crate) fn lone(
    alloc: Global,
    reader: &mut Reader<'_>,
    machine: &mut Machine,
) -> Result<bool, OutOfMemory>
    ensures read { result ≡ Ok true → (fuel : ℕ) → expression (suc fuel) (left reader.old) ≡ Some (top (stack machine.new), left reader.new) }
    ensures below { result ≡ Ok true → below (stack machine.new) ≡ stack machine.old }
    ensures kept { result ≡ Ok false → left reader.new ≡ left reader.old }
    ensures same { result ≡ Ok false → stack machine.new ≡ stack machine.old }
{
    if !reader.ends_behind_next() {
        return Ok(false);
    }
    leaf(alloc, reader, machine)
}

/// An operand that is a plain name or a literal, with which the mark behind it doesn't go on. Answers whether one stands there.
#[inline(always)]
pub(crate) fn operand(
    alloc: Global,
    reader: &mut Reader<'_>,
    machine: &mut Machine,
) -> Result<bool, OutOfMemory>
    ensures read { result ≡ Ok true → (e : Rule) → prefixes e (left reader.old) ≡ Some (top (stack machine.new), left reader.new) }
    ensures below { result ≡ Ok true → below (stack machine.new) ≡ stack machine.old }
    ensures kept { result ≡ Ok false → left reader.new ≡ left reader.old }
    ensures same { result ≡ Ok false → stack machine.new ≡ stack machine.old }
{
    if reader.extends_behind_next() {
        return Ok(false);
    }
    leaf(alloc, reader, machine)
}

/// An element of a list or a call that is a plain name or a literal alone. Answers whether one stands there.
#[inline(always)]
pub(crate) fn lone_element(
    alloc: Global,
    reader: &mut Reader<'_>,
    machine: &mut Machine,
) -> Result<bool, OutOfMemory>
    ensures added { result ≡ Ok true → (x : Inline) × ((fuel : ℕ) → expression (suc fuel) (left reader.old) ≡ Some (x, left reader.new))
        × (stack machine.new ≡ step instructions.Element (x ∷ stack machine.old)) }
    ensures kept { result ≡ Ok false → left reader.new ≡ left reader.old }
    ensures same { result ≡ Ok false → stack machine.new ≡ stack machine.old }
{
    if !reader.ends_behind_next() {
        return Ok(false);
    }
    match reader.leaf(alloc)? {
        Some(leaf) => {
            machine.push_element(leaf)?;
            Ok(true)
        }
        None => Ok(false),
    }
}

/// A plain name or a literal. Answers whether one stands there.
#[inline(always)]
fn leaf(alloc: Global, reader: &mut Reader<'_>, machine: &mut Machine) -> Result<bool, OutOfMemory>
    ensures put { result ≡ Ok true
        → (i : Instruction) × (put_at (left reader.old) ≡ Some (i, left reader.new)) × (stack machine.new ≡ step i (stack machine.old)) }
    ensures kept { result ≡ Ok false → left reader.new ≡ left reader.old }
    ensures same { result ≡ Ok false → stack machine.new ≡ stack machine.old }
{
    match reader.leaf(alloc)? {
        Some(leaf) => {
            machine.push(leaf)?;
            Ok(true)
        }
        None => Ok(false),
    }
}

/// A primary that begins with a word, and no mark. Answers whether it is a call, of which the arguments are still to be
/// read.
#[inline(always)]
pub(crate) fn worded(
    alloc: Global,
    reader: &mut Reader<'_>,
    machine: &mut Machine,
) -> Result<bool, Stop>
    requires { front_mark (left reader.now) ≡ None }
    ensures { Begins (λ e. primary e (left reader.old)) result (left reader.new) (stack machine.old) (stack machine.new) }
{
    if let Some(name) = reader.plain(alloc)? {
        return named(alloc, reader, machine, name);
    }
    if let Some(literal) = reader.literal(alloc)? {
        return put(machine, Instruction::Literal(literal));
    }
    match reader.quoted(alloc)? {
        Some(text) => put(machine, Instruction::Name(Scope::Bare, text)),
        None => Err(Stop::Grammar),
    }
}

/// A primary of one instruction, which is no call.
#[inline(always)]
fn put(machine: &mut Machine, instruction: Instruction) -> Result<bool, Stop>
    ensures whole { (call : Bool) → result ≡ Ok call → call ≡ false }
    ensures stack { (call : Bool) → result ≡ Ok call → stack machine.new ≡ step instruction (stack machine.old) }
    ensures none { result ≡ Err stops.Grammar → ⊥ }
{
    machine.push(instruction)?;
    Ok(false)
}

/// A plain name, a call, or a name in a scope. Answers whether it is a call.
#[inline(always)]
fn named(
    alloc: Global,
    reader: &mut Reader<'_>,
    machine: &mut Machine,
    name: Text,
) -> Result<bool, Stop>
    ensures { Begins (λ e. plain_at e name (left reader.old)) result (left reader.new) (stack machine.old) (stack machine.new) }
{
    if reader.takes(Mark::OpenParen) {
        machine.push(Instruction::Call(name, reader.elements_ahead()))?;
        return Ok(true);
    }
    reference(alloc, reader, machine, name)?;
    Ok(false)
}

/// A plain name, where no call begins, or a name in a scope.
#[inline(always)]
fn reference(
    alloc: Global,
    reader: &mut Reader<'_>,
    machine: &mut Machine,
    name: Text,
) -> Result<(), Stop>
    ensures { Puts (reference name (left reader.old)) result (left reader.new) (stack machine.old) (stack machine.new) }
{
    if let Some(scope) = scope_of(name.bytes()) {
        if reader.takes(Mark::Dot) {
            drop(name);
            return attribute(alloc, reader, machine, scope);
        }
    }
    Ok(bare(machine, name)?)
}

/// A plain name in no scope.
#[inline(always)]
fn bare(machine: &mut Machine, text: Text) -> Result<(), OutOfMemory>
    ensures { OnOk result (stack machine.new ≡ leaf (name Bare text) ∷ stack machine.old) }
{
    machine.push(Instruction::Name(Scope::Bare, text))
}

/// A name in a scope, behind the dot.
pub(crate) fn attribute(
    alloc: Global,
    reader: &mut Reader<'_>,
    machine: &mut Machine,
    scope: Scope,
) -> Result<(), Stop>
    ensures { Puts (attribute_at scope (left reader.old)) result (left reader.new) (stack machine.old) (stack machine.new) }
{
    let name = reader.name(alloc)?;
    Ok(machine.push(Instruction::Name(scope, name))?)
}

/// A selection from the last tree, behind the dot.
pub(crate) fn selection(
    alloc: Global,
    reader: &mut Reader<'_>,
    machine: &mut Machine,
) -> Result<(), Stop>
    ensures { Puts (selected (top (stack machine.old)) (left reader.old)) result (left reader.new) (below (stack machine.old)) (stack machine.new) }
{
    let name = reader.name(alloc)?;
    Ok(machine.push(Instruction::Select(name))?)
}

/// The name that a definition defines, with the mark behind it.
pub(crate) fn defined(alloc: Global, reader: &mut Reader<'_>) -> Result<Text, Stop>
    ensures { Gives (λ (t : List ℕ). t) (defined_at (left reader.old)) result (left reader.new) }
{
    let name = reader.name(alloc)?;
    reader.expect(Mark::Assign)?;
    Ok(name)
}

/// Defines the name as the last tree. Answers whether another definition stands behind it, with the marks between or
/// behind them taken.
pub(crate) fn finished(
    reader: &mut Reader<'_>,
    machine: &mut Machine,
    name: Text,
) -> Result<bool, Stop>
    ensures defined { (goes : Bool) → result ≡ Ok goes → stack machine.new ≡ step (instructions.Define name) (stack machine.old) }
    ensures marks { Continues (left reader.old) (left reader.new) result }
{
    machine.push(Instruction::Define(name))?;
    reader.goes_on()
}

/// The scope that a plain name is in front of a dot, in any case.
fn scope_of(name: &[u8]) -> Option<Scope>
    ensures { result ≡ scope_of name.now }
{
    if name.eq_ignore_ascii_case(b"my") || name.eq_ignore_ascii_case(b"self") {
        Some(Scope::My)
    } else if name.eq_ignore_ascii_case(b"target") || name.eq_ignore_ascii_case(b"other") {
        Some(Scope::Target)
    } else {
        None
    }
}
