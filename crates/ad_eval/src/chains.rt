// Chains of expressions, lists and the conditional.
ghost use Rattle.ad_value.specs.Demands.{all_demanded};
ghost use Rattle.ad_tree.specs.Tree.{pack, three, tree, trees};
ghost use Rattle.ad_eval.specs.Chain.{chained, start};
ghost use Rattle.ad_eval.specs.Kept.{Answers, AnswersAll, Counts, Ready};
ghost use Rattle.ad_eval.specs.Node.{called, conditional};
ghost use Rattle.ad_eval.specs.Scene.{listed_in, results_in, world_in};

use crate::branch::{Branch, branch_of};
use crate::calls::{apply_function, is_named};
use crate::chain::Chain;
use crate::evaluation::evaluate;
use crate::listed::Listed;
use crate::outcome::{Outcome, Several, at_least};
use crate::scene::Scene;
use crate::stop::Stop;
use ad_tree::{Expr, Exprs};
use ad_value::{Value, Values};
use builtin_funcs::known;
use cycle_guard::Guard;
use pool_steps::Steps;
use std::sync::ledger::Ledger;

/// `first && second && ..` or `first || second || ..`, from the left up to the first that decides.
#[cycle(evaluation)]
#[inline(never)]
pub fn chain<E: Ledger>(
    scene: &Scene<'_>,
    guard: &mut Guard,
    entry: &mut Steps<E>,
    kind: Chain,
    items: &Exprs,
) -> Result<Outcome, Stop>
    requires { Ready (world_in scene.now) guard.old (λ n. chained kind (start kind) (results_in scene.now (pack (trees items.now)) n)) }
    ensures answer { Answers (world_in scene.now) (λ n. chained kind (start kind) (results_in scene.now (pack (trees items.now)) n)) scene.now.left guard.old
        guard.new result }
    ensures counted { Counts (world_in scene.now) entry.old entry.new guard.old guard.new }
{
    let mut so_far = kind.start();
    for i in 0..items.len() {
        if kind.is_decided(&so_far.value) {
            return Ok(so_far);
        }
        let next = match evaluate(scene, guard, entry, items.at(i)) {
            Ok(next) => next,
            Err(stop) => {
                drop(so_far);
                return Err(stop);
            }
        };
        so_far = kind.join(so_far, next);
    }
    Ok(so_far)
}

/// The values of all expressions of a list.
#[cycle(evaluation)]
#[inline(never)]
pub fn all_of<E: Ledger>(
    scene: &Scene<'_>,
    guard: &mut Guard,
    entry: &mut Steps<E>,
    items: &Exprs,
) -> Result<Several, Stop>
    requires { Ready (world_in scene.now) guard.old (λ n. all_demanded (results_in scene.now (pack (trees items.now)) n)) }
    ensures answer { AnswersAll (world_in scene.now) (λ n. all_demanded (results_in scene.now (pack (trees items.now)) n)) scene.now.left guard.old guard.new
        result }
    ensures counted { Counts (world_in scene.now) entry.old entry.new guard.old guard.new }
{
    let mut all = Several {
        values: Values::new(scene.alloc),
        height: 0,
    };
    for i in 0..items.len() {
        let next = match evaluate(scene, guard, entry, items.at(i)) {
            Ok(next) => next,
            Err(stop) => {
                drop(all);
                return Err(stop);
            }
        };
        all = all.with(next)?;
    }
    Ok(all)
}

/// A list of the values of all expressions, Error where it weighs too much. Then no more values are gathered, but all are demanded.
#[cycle(evaluation)]
#[inline(never)]
pub fn list_literal<E: Ledger>(
    scene: &Scene<'_>,
    guard: &mut Guard,
    entry: &mut Steps<E>,
    items: &Exprs,
) -> Result<Outcome, Stop>
    requires { Ready (world_in scene.now) guard.old (listed_in scene.now (pack (trees items.now))) }
    ensures answer { Answers (world_in scene.now) (listed_in scene.now (pack (trees items.now))) scene.now.left guard.old guard.new result }
    ensures counted { Counts (world_in scene.now) entry.old entry.new guard.old guard.new }
{
    let mut all = Listed::new(scene.alloc);
    for i in 0..items.len() {
        let next = match evaluate(scene, guard, entry, items.at(i)) {
            Ok(next) => next,
            Err(stop) => {
                drop(all);
                return Err(stop);
            }
        };
        all = all.with(next)?;
    }
    all.value(scene.alloc)
}

/// `condition ? first : second`, of which one branch at most is demanded.
#[cycle(evaluation)]
#[inline(never)]
pub fn conditional<E: Ledger>(
    scene: &Scene<'_>,
    guard: &mut Guard,
    entry: &mut Steps<E>,
    condition: &Expr,
    first: &Expr,
    second: &Expr,
) -> Result<Outcome, Stop>
    requires { Ready (world_in scene.now) guard.old (λ n. conditional
        (results_in scene.now (three (tree condition.now) (tree first.now) (tree second.now)) n)) }
    ensures answer { Answers (world_in scene.now) (λ n. conditional (results_in scene.now (three (tree condition.now) (tree first.now) (tree second.now)) n))
        scene.now.left guard.old guard.new result }
    ensures counted { Counts (world_in scene.now) entry.old entry.new guard.old guard.new }
{
    let condition = evaluate(scene, guard, entry, condition)?;
    let chosen = branch_of(&condition.value, first, second);
    let height = condition.height;
    drop(condition);
    match chosen {
        Branch::Taken(branch) => at_least(evaluate(scene, guard, entry, branch), height),
        Branch::Value(value) => Ok(Outcome { value, height }),
    }
}

/// A call: Error with no argument demanded where the name is unknown or the number of arguments is wrong.
#[cycle(evaluation)]
#[inline(never)]
pub fn call_function<E: Ledger>(
    scene: &Scene<'_>,
    guard: &mut Guard,
    entry: &mut Steps<E>,
    name: &[u8],
    items: &Exprs,
) -> Result<Outcome, Stop>
    requires { Ready (world_in scene.now) guard.old (λ n. called (world_in scene.now) name.now (results_in scene.now (pack (trees items.now)) n)) }
    ensures answer { Answers (world_in scene.now) (λ n. called (world_in scene.now) name.now (results_in scene.now (pack (trees items.now)) n)) scene.now.left
        guard.old guard.new result }
    ensures counted { Counts (world_in scene.now) entry.old entry.new guard.old guard.new }
{
    if !known(name, items.len()) {
        return Ok(Outcome::leaf(Value::Error));
    }
    if is_named(name, b"ifThenElse") {
        if items.len() != 3 {
            return Ok(Outcome::leaf(Value::Error));
        }
        return conditional(scene, guard, entry, items.at(0), items.at(1), items.at(2));
    }
    let args = all_of(scene, guard, entry, items)?;
    apply_function(scene, name, args)
}
