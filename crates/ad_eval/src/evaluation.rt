// The evaluation of expressions, in which each attribute is entered at most once.
ghost use Rattle.std.specs.Prelude.{◌≡◌, IsSome};
ghost use Rattle.ad_tree.specs.Tree.{tree};
ghost use Rattle.cycle_guard.specs.Sights.{unseen};
ghost use Rattle.cycle_guard.specs.Shown.{sight_of};
ghost use Rattle.eval_scope.specs.World.{expr_of};
ghost use Rattle.ad_eval.specs.Kept.{Answers, Counts, Ready};
ghost use Rattle.ad_eval.specs.Reference.{IsInWorld, value_of};
ghost use Rattle.ad_eval.specs.Scene.{values_in, world_in};
ghost use Rattle.ad_eval.specs.Value.{value_at};

use crate::chain::Chain;
use crate::chains::{call_function, chain, conditional, list_literal};
use crate::kept::{keep, recalled};
use crate::leaves::{literal, nested_ad};
use crate::operands::{binary_operation, selection, subscription, unary_operation};
use crate::outcome::Outcome;
use crate::reference::{Reference, look_up};
use crate::scene::{Scene, inside};
use crate::stop::Stop;
use ad_tree::Expr;
use cycle_guard::{Guard, Seen};
use pool_steps::Steps;
use pool_text::Pos;
use std::sync::ledger::Ledger;

/// The value of an expression, or none where the references that are left don't suffice.
#[cycle(evaluation)]
pub fn evaluate<E: Ledger>(
    scene: &Scene<'_>,
    guard: &mut Guard,
    entry: &mut Steps<E>,
    expr: &Expr,
) -> Result<Outcome, Stop>
    requires { Ready (world_in scene.now) guard.old (values_in scene.now (tree expr.now)) }
    ensures answer { Answers (world_in scene.now) (values_in scene.now (tree expr.now)) scene.now.left guard.old guard.new result }
    ensures counted { Counts (world_in scene.now) entry.old entry.new guard.old guard.new }
{
    // Compound kinds stand apart and are never built in here, since a call clears the places of all its variables.
    match expr {
        Expr::Literal(lit) => literal(scene.alloc, lit, 0),
        Expr::Name(scope, name) => {
            let named = look_up(scene, *scope, name.bytes());
            follow(scene, guard, entry, named)
        }
        Expr::Unary(op, a) => unary_operation(scene, guard, entry, *op, a),
        Expr::Binary(op, a, b) => binary_operation(scene, guard, entry, *op, a, b),
        Expr::And(items) => chain(scene, guard, entry, Chain::And, items),
        Expr::Or(items) => chain(scene, guard, entry, Chain::Or, items),
        Expr::Cond(condition, first, second) => {
            conditional(scene, guard, entry, condition, first, second)
        }
        Expr::Select(base, name) => selection(scene, guard, entry, base, name.bytes()),
        Expr::Subscript(base, index) => subscription(scene, guard, entry, base, index),
        Expr::Call(name, items) => call_function(scene, guard, entry, name.bytes(), items),
        Expr::List(items) => list_literal(scene, guard, entry, items),
        Expr::Frame(frame) => Ok(nested_ad(scene, *frame)),
    }
}

/// The value of a reference: its own, or that of the attribute which it comes to.
#[cycle(evaluation)]
pub fn follow<E: Ledger>(
    scene: &Scene<'_>,
    guard: &mut Guard,
    entry: &mut Steps<E>,
    reference: Reference,
) -> Result<Outcome, Stop>
    requires there { IsInWorld (world_in scene.now) reference }
    requires ready { Ready (world_in scene.now) guard.old (λ n. value_of (λ s. value_at n (world_in scene.now) s) reference) }
    ensures answer { Answers (world_in scene.now) (λ n. value_of (λ s. value_at n (world_in scene.now) s) reference) scene.now.left guard.old guard.new result }
    ensures counted { Counts (world_in scene.now) entry.old entry.new guard.old guard.new }
{
    match reference {
        Reference::Value(value) => Ok(Outcome::leaf(value)),
        Reference::Attribute(pos) => attribute(scene, guard, entry, pos),
    }
}

/// The value of an attribute. Where a reference is left, one whose expression is a literal has its value at once: it isn't
/// entered, and nothing is kept of it.
#[cycle(evaluation)]
pub fn attribute<E: Ledger>(
    scene: &Scene<'_>,
    guard: &mut Guard,
    entry: &mut Steps<E>,
    pos: Pos,
) -> Result<Outcome, Stop>
    requires there { IsSome (expr_of (world_in scene.now) pos) }
    requires ready { Ready (world_in scene.now) guard.old (λ n. value_at n (world_in scene.now) pos) }
    ensures answer { Answers (world_in scene.now) (λ n. value_at n (world_in scene.now) pos) scene.now.left guard.old guard.new result }
    ensures counted { Counts (world_in scene.now) entry.old entry.new guard.old guard.new }
{
    match scene.world.literal_at(pos) {
        Some(lit) if scene.left > 0 => literal(scene.alloc, lit, 1),
        _ => known(scene, guard, entry, pos),
    }
}

// The value of an attribute by what is known of it. One that is met while it is pending needs itself, so it has no value with
// any number of references; a kept value serves where the references that are left are at least as many as it needs.
#[cycle(evaluation)]
#[inline(never)]
fn known<E: Ledger>(
    scene: &Scene<'_>,
    guard: &mut Guard,
    entry: &mut Steps<E>,
    pos: Pos,
) -> Result<Outcome, Stop>
    requires there { IsSome (expr_of (world_in scene.now) pos) }
    requires ready { Ready (world_in scene.now) guard.old (λ n. value_at n (world_in scene.now) pos) }
    ensures answer { Answers (world_in scene.now) (λ n. value_at n (world_in scene.now) pos) scene.now.left guard.old guard.new result }
    ensures counted { Counts (world_in scene.now) entry.old entry.new guard.old guard.new }
{
    match guard.state(pos) {
        Seen::Unseen => enter(scene, guard, entry, pos),
        Seen::Pending => Err(Stop::References),
        Seen::Done(value, height) => recalled(scene, value, height),
    }
}

// The value of an attribute that wasn't entered yet. It is entered, and its value kept.
#[cycle(evaluation)]
fn enter<E: Ledger>(
    scene: &Scene<'_>,
    guard: &mut Guard,
    entry: &mut Steps<E>,
    pos: Pos,
) -> Result<Outcome, Stop>
    requires there { IsSome (expr_of (world_in scene.now) pos) }
    requires fresh { sight_of guard.old pos ≡ unseen }
    requires ready { Ready (world_in scene.now) guard.old (λ n. value_at n (world_in scene.now) pos) }
    ensures answer { Answers (world_in scene.now) (λ n. value_at n (world_in scene.now) pos) scene.now.left guard.old guard.new result }
    ensures counted { Counts (world_in scene.now) entry.old entry.new guard.old guard.new }
{
    if scene.left == 0 {
        return Err(Stop::References);
    }
    guard.enter(pos)?;
    let expr = scene.world.expr_at(pos, entry);
    let inner = inside(scene, pos);
    let found = evaluate(&inner, guard, entry, expr)?;
    keep(scene.alloc, guard, pos, found)
}
