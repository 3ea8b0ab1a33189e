// Whole evaluations: of an expression, a requirement, a rank and a dock.
ghost use Rattle.std.specs.Prelude.{◌≡◌, ◌≤◌, ◌+◌, ◌*◌, option_map, unwrap_or, IfOk, IfSome, IsSome};
ghost use Rattle.ad_value.specs.Logic.{is_true};
ghost use Rattle.ad_value.specs.Plain.{Plain, error, plain};
ghost use Rattle.ad_tree.specs.Special.{requirement_of};
ghost use Rattle.ad_tree.specs.Tree.{tree};
ghost use Rattle.eval_scope.specs.Shown.{world_of};
ghost use Rattle.eval_scope.specs.World.{attribute_count, expr_of, frames_of_ad};
ghost use Rattle.ad_eval.specs.Answered.{IsValueOrError};
ghost use Rattle.ad_eval.specs.Dock.{attribute_of, evaluations_of_dock, evaluations_of_rank, evaluations_of_requirement};
ghost use Rattle.ad_eval.specs.Dock.{is_docked, meets_requirement, rank_by, rank_number};
ghost use Rattle.ad_eval.specs.Small.{AreSmall};
ghost use Rattle.ad_eval.specs.Value.{evaluation, evaluation_at, inner_evaluation, value_with};

use crate::evaluation::evaluate;
use crate::outcome::Outcome;
use crate::scene::Scene;
use crate::stop::Stop;
use ad_tree::Expr;
use ad_value::{MILLION, Value, from_lit};
use cycle_guard::Guard;
use eval_scope::World;
use pool_steps::Steps;
use pool_text::{AdPlace, OutOfMemory, Pos};
use std::alloc::Global;
use std::sync::ledger::Ledger;

/// An evaluation has so many references to spend.
const REFERENCES: u32 = 24;

/// What an attribute's expression has of them, since the reference to the attribute is the first.
const INNER_REFERENCES: u32 = 23;

/// The value of an expression that stands in the frame `at`. A reference, selection or subscript that finds an attribute
/// spends one of 24 references, and the attribute has what is left; an evaluation that demands more is Error as a whole, as
/// is one in which an attribute needs its own value. Each attribute is entered at most once.
///
/// It counts one in `tops`, and in `entry` each attribute that is entered.
pub fn value<F: Ledger, E: Ledger>(
    alloc: Global,
    world: &World<'_>,
    at: AdPlace,
    expr: &Expr,
    tops: &mut Steps<F>,
    entry: &mut Steps<E>,
) -> Result<Value, OutOfMemory>
    ensures value { IfOk result (λ v. plain v ≡ evaluation (world_of world.now) at (tree expr.now)) }
    ensures evaluations { tops.new ≡ tops.old + 1 }
    ensures entries { entry.new ≤ entry.old + attribute_count (world_of world.now) }
    ensures ratio { AreSmall (world_of world.now) → entry.new + 9216 * tops.old ≤ entry.old + 9216 * tops.new }
{
    let scene = Scene {
        alloc,
        world,
        at,
        left: REFERENCES,
    };
    spend(&scene, expr, tops, entry)
}

/// The value of a part of an attribute's expression, as the value of the attribute demands it: one of the 24 references is
/// spent already, and 23 are left. It stands in the frame `at`, and is Error as a whole where it demands more.
///
/// It counts one in `tops`, and in `entry` each attribute that is entered.
pub fn inner<F: Ledger, E: Ledger>(
    alloc: Global,
    world: &World<'_>,
    at: AdPlace,
    expr: &Expr,
    tops: &mut Steps<F>,
    entry: &mut Steps<E>,
) -> Result<Value, OutOfMemory>
    ensures value { IfOk result (λ v. plain v ≡ inner_evaluation (world_of world.now) at (tree expr.now)) }
    ensures evaluations { tops.new ≡ tops.old + 1 }
    ensures entries { entry.new ≤ entry.old + attribute_count (world_of world.now) }
    ensures ratio { AreSmall (world_of world.now) → entry.new + 9216 * tops.old ≤ entry.old + 9216 * tops.new }
{
    let scene = Scene {
        alloc,
        world,
        at,
        left: INNER_REFERENCES,
    };
    spend(&scene, expr, tops, entry)
}

/// Whether the requirement of the frame `at` is the Boolean true: its attribute `Requirements`, or else `Constraint`, which
/// aren't looked for in other frames. The reference to it is the first of the 24.
///
/// It counts one in `tops` where there is a requirement, and nothing where there is none.
pub fn requirement<F: Ledger, E: Ledger>(
    alloc: Global,
    world: &World<'_>,
    at: AdPlace,
    tops: &mut Steps<F>,
    entry: &mut Steps<E>,
) -> Result<bool, OutOfMemory>
    ensures value { IfOk result (λ b. b ≡ meets_requirement (world_of world.now) at) }
    ensures evaluations { tops.new ≤ tops.old + 1 }
    ensures counted { tops.new ≡ tops.old + evaluations_of_requirement (world_of world.now) at }
    ensures entries { entry.new ≤ entry.old + attribute_count (world_of world.now) }
    ensures ratio { AreSmall (world_of world.now) → entry.new + 9216 * tops.old ≤ entry.old + 9216 * tops.new }
{
    let Some(pos) = world.requirement(at) else {
        return Ok(false);
    };
    holds(value_at(alloc, world, pos, tops, entry))
}

/// The rank by the frame `at`, in millionths: its attribute `Rank` where that is an Integer or a Decimal, 1 where it is true,
/// and 0 for all else. The reference to it is the first of the 24.
///
/// It counts one in `tops` where there is a rank, and nothing where there is none.
pub fn rank<F: Ledger, E: Ledger>(
    alloc: Global,
    world: &World<'_>,
    at: AdPlace,
    tops: &mut Steps<F>,
    entry: &mut Steps<E>,
) -> Result<i128, OutOfMemory>
    ensures value { IfOk result (λ n. n ≡ rank_by (world_of world.now) at) }
    ensures evaluations { tops.new ≤ tops.old + 1 }
    ensures counted { tops.new ≡ tops.old + evaluations_of_rank (world_of world.now) at }
    ensures entries { entry.new ≤ entry.old + attribute_count (world_of world.now) }
    ensures ratio { AreSmall (world_of world.now) → entry.new + 9216 * tops.old ≤ entry.old + 9216 * tops.new }
{
    let Some(pos) = world.rank(at) else {
        return Ok(0);
    };
    number(value_at(alloc, world, pos, tops, entry))
}

/// Whether the last dock is true: the requirements of both its sides are, the request's first. The resource's side is
/// evaluated only where the request's is true.
pub fn dock<F: Ledger, E: Ledger>(
    alloc: Global,
    world: &World<'_>,
    tops: &mut Steps<F>,
    entry: &mut Steps<E>,
) -> Result<bool, OutOfMemory>
    ensures value { IfOk result (λ b. b ≡ is_docked (world_of world.now)) }
    ensures evaluations { tops.new ≤ tops.old + 2 }
    ensures counted { tops.new ≤ tops.old + evaluations_of_dock (world_of world.now) }
    ensures entries { entry.new ≤ entry.old + 2 * attribute_count (world_of world.now) }
    ensures ratio { AreSmall (world_of world.now) → entry.new + 9216 * tops.old ≤ entry.old + 9216 * tops.new }
{
    if !requirement(alloc, world, world.request_place(), tops, entry)? {
        return Ok(false);
    }
    requirement(alloc, world, world.resource_place(), tops, entry)
}

// The value of an expression with the references that the scene has left, Error where it demands more.
fn spend<F: Ledger, E: Ledger>(
    scene: &Scene<'_>,
    expr: &Expr,
    tops: &mut Steps<F>,
    entry: &mut Steps<E>,
) -> Result<Value, OutOfMemory>
    ensures value { IfOk result (λ v. plain v
        ≡ unwrap_or (value_with scene.now.left (world_of scene.now.world.now) scene.now.at (tree expr.now)) error) }
    ensures evaluations { tops.new ≡ tops.old + 1 }
    ensures entries { entry.new ≤ entry.old + attribute_count (world_of scene.now.world.now) }
    ensures ratio { AreSmall (world_of scene.now.world.now) → entry.new + 9216 * tops.old ≤ entry.old + 9216 * tops.new }
{
    tops.tick();
    let mut guard = Guard::new(scene.alloc);
    let evaluated = evaluate(scene, &mut guard, entry, expr);
    value_or_error(evaluated)
}

// The value of an attribute.
fn value_at<F: Ledger, E: Ledger>(
    alloc: Global,
    world: &World<'_>,
    pos: Pos,
    tops: &mut Steps<F>,
    entry: &mut Steps<E>,
) -> Result<Value, OutOfMemory>
    requires { IsSome (expr_of (world_of world.now) pos) }
    ensures value { IfOk result (λ v. plain v ≡ evaluation_at (world_of world.now) pos) }
    ensures evaluations { tops.new ≡ tops.old + 1 }
    ensures entries { entry.new ≤ entry.old + attribute_count (world_of world.now) }
    ensures ratio { AreSmall (world_of world.now) → entry.new + 9216 * tops.old ≤ entry.old + 9216 * tops.new }
{
    tops.tick();
    match world.literal_at(pos) {
        Some(lit) => from_lit(alloc, lit),
        None => by_expression(alloc, world, pos, entry),
    }
}

// The value of an attribute by its expression. No other is entered before it, and nothing asks for its value again, so that isn't
// kept.
fn by_expression<E: Ledger>(
    alloc: Global,
    world: &World<'_>,
    pos: Pos,
    entry: &mut Steps<E>,
) -> Result<Value, OutOfMemory>
    requires { IsSome (expr_of (world_of world.now) pos) }
    ensures value { IfOk result (λ v. plain v ≡ evaluation_at (world_of world.now) pos) }
    ensures entries { entry.new ≤ entry.old + attribute_count (world_of world.now) }
{
    let scene = Scene {
        alloc,
        world,
        at: AdPlace {
            ad: pos.ad,
            frame: pos.frame,
        },
        left: INNER_REFERENCES,
    };
    let mut guard = Guard::new(alloc);
    guard.enter(pos)?;
    let expr = world.expr_at(pos, entry);
    let evaluated = evaluate(&scene, &mut guard, entry, expr);
    value_or_error(evaluated)
}

// The value of an answer, Error where the references didn't suffice.
fn value_or_error(answer: Result<Outcome, Stop>) -> Result<Value, OutOfMemory>
    ensures { IsValueOrError answer result }
{
    match answer {
        Ok(outcome) => Ok(outcome.value),
        Err(Stop::References) => Ok(Value::Error),
        Err(Stop::OutOfMemory) => Err(OutOfMemory),
    }
}

// Whether the value of a requirement is true.
fn holds(value: Result<Value, OutOfMemory>) -> Result<bool, OutOfMemory>
    ensures { (v : Plain) → IfOk value (λ found. plain found ≡ v) → IfOk result (λ b. b ≡ is_true v) }
{
    let value = value?;
    let holds = matches!(value, Value::Boolean(true));
    drop(value);
    Ok(holds)
}

// The rank that a value stands for.
fn number(value: Result<Value, OutOfMemory>) -> Result<i128, OutOfMemory>
    ensures { (v : Plain) → IfOk value (λ found. plain found ≡ v) → IfOk result (λ n. n ≡ rank_number v) }
{
    let value = value?;
    let number = rank_number(&value);
    drop(value);
    Ok(number)
}

// The rank that a value stands for, in millionths.
fn rank_number(value: &Value) -> i128
    ensures { result ≡ rank_number (plain value.now) }
{
    match value {
        Value::Integer(n) => i128::from(*n) * MILLION,
        Value::Decimal(millionths) => i128::from(*millionths),
        Value::Boolean(true) => MILLION,
        _ => 0,
    }
}
