// Operators, selections and subscripts, whose operands are evaluated from the left. A value has many kinds, so it is dropped by a
// call as soon as it has served, and few are open at each way out.
ghost use Rattle.ad_tree.specs.Tree.{tree};
ghost use Rattle.ad_eval.specs.Kept.{Answers, Counts, Ready};
ghost use Rattle.ad_eval.specs.Scene.{binary_in, selected_in, subscripted_in, unary_in, world_in};

use crate::evaluation::{evaluate, follow};
use crate::outcome::{Outcome, at_least, greater};
use crate::reference::{select, subscript};
use crate::scene::Scene;
use crate::stop::Stop;
use ad_tree::Expr;
use cycle_guard::Guard;
use pool_steps::Steps;
use pool_text::{BinOp, UnOp};
use std::sync::ledger::Ledger;

/// The value of an operator before its operand.
#[cycle(evaluation)]
#[inline(never)]
pub fn unary_operation<E: Ledger>(
    scene: &Scene<'_>,
    guard: &mut Guard,
    entry: &mut Steps<E>,
    op: UnOp,
    a: &Expr,
) -> Result<Outcome, Stop>
    requires { Ready (world_in scene.now) guard.old (unary_in scene.now op (tree a.now)) }
    ensures answer { Answers (world_in scene.now) (unary_in scene.now op (tree a.now)) scene.now.left guard.old guard.new result }
    ensures counted { Counts (world_in scene.now) entry.old entry.new guard.old guard.new }
{
    let operand = evaluate(scene, guard, entry, a)?;
    Ok(operand.unary(op))
}

/// The value of an operator between its operands, both of which are demanded.
#[cycle(evaluation)]
#[inline(never)]
pub fn binary_operation<E: Ledger>(
    scene: &Scene<'_>,
    guard: &mut Guard,
    entry: &mut Steps<E>,
    op: BinOp,
    a: &Expr,
    b: &Expr,
) -> Result<Outcome, Stop>
    requires { Ready (world_in scene.now) guard.old (binary_in scene.now op (tree a.now) (tree b.now)) }
    ensures answer { Answers (world_in scene.now) (binary_in scene.now op (tree a.now) (tree b.now)) scene.now.left guard.old guard.new result }
    ensures counted { Counts (world_in scene.now) entry.old entry.new guard.old guard.new }
{
    let left = evaluate(scene, guard, entry, a)?;
    match evaluate(scene, guard, entry, b) {
        Ok(right) => Ok(left.binary(op, right)),
        Err(stop) => {
            drop(left);
            Err(stop)
        }
    }
}

/// The value of `base.name`.
#[cycle(evaluation)]
#[inline(never)]
pub fn selection<E: Ledger>(
    scene: &Scene<'_>,
    guard: &mut Guard,
    entry: &mut Steps<E>,
    base: &Expr,
    name: &[u8],
) -> Result<Outcome, Stop>
    requires { Ready (world_in scene.now) guard.old (selected_in scene.now name.now (tree base.now)) }
    ensures answer { Answers (world_in scene.now) (selected_in scene.now name.now (tree base.now)) scene.now.left guard.old guard.new result }
    ensures counted { Counts (world_in scene.now) entry.old entry.new guard.old guard.new }
{
    let base = evaluate(scene, guard, entry, base)?;
    let selected = select(scene, &base.value, name);
    let height = base.height;
    drop(base);
    at_least(follow(scene, guard, entry, selected), height)
}

/// The value of `base[index]`.
#[cycle(evaluation)]
#[inline(never)]
pub fn subscription<E: Ledger>(
    scene: &Scene<'_>,
    guard: &mut Guard,
    entry: &mut Steps<E>,
    base: &Expr,
    index: &Expr,
) -> Result<Outcome, Stop>
    requires { Ready (world_in scene.now) guard.old (subscripted_in scene.now (tree base.now) (tree index.now)) }
    ensures answer { Answers (world_in scene.now) (subscripted_in scene.now (tree base.now) (tree index.now)) scene.now.left guard.old guard.new result }
    ensures counted { Counts (world_in scene.now) entry.old entry.new guard.old guard.new }
{
    let base = evaluate(scene, guard, entry, base)?;
    let index = match evaluate(scene, guard, entry, index) {
        Ok(index) => index,
        Err(stop) => {
            drop(base);
            return Err(stop);
        }
    };
    let subscripted = subscript(scene, &base.value, &index.value);
    let height = greater(base.height, index.height);
    drop(base);
    drop(index);
    let element = subscripted?;
    at_least(follow(scene, guard, entry, element), height)
}
