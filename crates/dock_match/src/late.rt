// Tests that a requirement has once some resources are docked.
ghost use Rattle.std.specs.Prelude.{◌≡◌, ◌<◌, ◌++◌, [], length, IfOk, IfSome, OnOk, if◌then◌else◌};
ghost use Rattle.std.specs.List.{cons_option};
ghost use Rattle.std.specs.Option.{option_map};
ghost use Rattle.ad_tree.specs.Ad.{ad_frames};
ghost use Rattle.ad_tree.specs.Tree.{tree};
ghost use Rattle.conjunct_plan.specs.Decided.{is_decided};
ghost use Rattle.conjunct_plan.specs.Tests.{comparison_of, constant, requirement_expr};
ghost use Rattle.eval_scope.specs.Shown.{world_of};
ghost use Rattle.eval_scope.specs.World.{next_side};
ghost use Rattle.dock_match.specs.Late.{bare_name, docked_literal, is_ruled_out, late_test, late_tests, literal_in, next_operand};

use ad_tree::{Ad, Expr, Scope, copy_literal};
use conjunct_plan::{Test, Tests, asked_by, conjuncts_of, decided, is_comparison, requirement};
use eval_scope::{Found, World};
use pool_text::{BinOp, Lit, OutOfMemory, Text};
use std::alloc::Global;
use std::convert::AsSlice;

/// The tests that the requirement of the next port has by what is docked already, in the order of its conjuncts: those that
/// compare an attribute of the other side with an attribute of a docked ad, which they name by the label of its port, and
/// which is a literal there, or absent.
pub fn late_tests(alloc: Global, world: &World<'_>) -> Result<Tests, OutOfMemory>
    ensures { IfOk result (λ tests. tests ≡ late_tests (world_of world.now)) }
{
    let mut tests = Tests::new(alloc);
    let Some(expr) = next_requirement(world) else {
        return Ok(tests);
    };
    let conjuncts = conjuncts_of(alloc, expr)?;
    for conjunct in &conjuncts {
        let found = late_test(world, conjunct)?;
        keep(&mut tests, found)?;
    }
    Ok(tests)
}

/// Whether one of the tests is decided against by the root of an ad. No memory is taken.
pub fn is_ruled_out(tests: &Tests, ad: &Ad) -> bool
    ensures { result ≡ is_ruled_out tests.now (ad_frames ad.now) }
{
    tests.as_slice().iter().any(|test| is_against(test, ad))
}

// Whether the root of an ad decides against a test.
fn is_against(test: &Test, ad: &Ad) -> bool
    ensures { result ≡ is_decided test.now (ad_frames ad.now) 0 }
{
    decided(test, ad, 0)
}

// Adds a test, if there is one.
fn keep(tests: &mut Tests, next: Option<Test>) -> Result<(), OutOfMemory>
    ensures { OnOk result (tests.new ≡ tests.old ++ cons_option next []) }
{
    if let Some(next) = next {
        tests.push(next)?;
    }
    Ok(())
}

// The requirement of the next port.
fn next_requirement<'a>(world: &World<'a>) -> Option<&'a Expr>
    ensures expr { option_map (λ e. tree e.now) result ≡ requirement_expr (world_of world.now).request (next_side (world_of world.now)).frame }
    ensures within { IfSome result (λ e. (next_side (world_of world.now)).frame < length (world_of world.now).request) }
{
    let frame = world.next_place().frame;
    if frame >= world.request().frames() {
        return None;
    }
    requirement(world.request(), frame)
}

// The test that a conjunct of the next port's requirement is by what is docked already.
fn late_test(world: &World<'_>, conjunct: &Expr) -> Result<Option<Test>, OutOfMemory>
    requires { (next_side (world_of world.now)).frame < length (world_of world.now).request }
    ensures { IfOk result (λ test. test ≡ late_test (world_of world.now) (tree conjunct.now)) }
{
    let Expr::Binary(op, left, right) = conjunct else {
        return Ok(None);
    };
    if let Some(lit) = docked_literal(world, left)? {
        return compared(world, *op, right, lit, false);
    }
    match docked_literal(world, right)? {
        Some(lit) => compared(world, *op, left, lit, true),
        None => Ok(None),
    }
}

// The test that compares an attribute of the other side, where the expression is one, with a literal.
fn compared(
    world: &World<'_>,
    op: BinOp,
    expr: &Expr,
    lit: Lit,
    attr_left: bool,
) -> Result<Option<Test>, OutOfMemory>
    requires { (next_side (world_of world.now)).frame < length (world_of world.now).request }
    ensures { IfOk result (λ test. test ≡ (let side = next_operand (world_of world.now) (tree expr.now) in
        if attr_left then comparison_of op side (constant lit) else comparison_of op (constant lit) side)) }
{
    let frame = world.next_place().frame;
    let Some(name) = asked_by(world.request(), frame, world.ports(), expr) else {
        return Ok(None);
    };
    if !is_comparison(op) {
        return Ok(None);
    }
    Ok(Some(Test::Compare {
        name: name.copy()?,
        op,
        lit,
        attr_left,
    }))
}

// The literal of an attribute of a docked ad that an expression selects by the label of the ad's port.
fn docked_literal(world: &World<'_>, expr: &Expr) -> Result<Option<Lit>, OutOfMemory>
    ensures { IfOk result (λ lit. lit ≡ docked_literal (world_of world.now) (tree expr.now)) }
{
    let Expr::Select(base, name) = expr else {
        return Ok(None);
    };
    let Some(label) = bare_name(base) else {
        return Ok(None);
    };
    literal_in(
        world,
        name,
        world.find(world.next_place(), Scope::Bare, label.bytes()),
    )
}

// The bare name that an expression is.
fn bare_name(expr: &Expr) -> Option<&Text>
    ensures { option_map (λ name. name.now) result ≡ bare_name (tree expr.now) }
{
    match expr {
        Expr::Name(Scope::Bare, name) => Some(name),
        _ => None,
    }
}

// The literal of an attribute of the ad for which a label was found to stand: Undefined where the ad has no such attribute.
fn literal_in(world: &World<'_>, name: &Text, found: Found) -> Result<Option<Lit>, OutOfMemory>
    ensures { IfOk result (λ lit. lit ≡ literal_in (world_of world.now) name.now found) }
{
    let Found::Place(place) = found else {
        return Ok(None);
    };
    let Some(pos) = world.within(place, name.bytes()) else {
        return Ok(Some(Lit::Undefined));
    };
    match world.literal_at(pos) {
        Some(lit) => Ok(Some(copy_literal(lit)?)),
        None => Ok(None),
    }
}
