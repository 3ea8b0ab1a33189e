// Laws of the definitions, each on a function that does nothing.
ghost use Rattle.std.specs.Prelude.{◌≡◌, ◌≤◌, ◌<◌, ℕ, true, None, Some, IfSome, IsSome};
ghost use Rattle.pool_text.specs.declared.language.Pos.{Pos};
ghost use Rattle.ad_value.specs.Plain.{Plain};
ghost use Rattle.ad_tree.specs.Tree.{tree};
ghost use Rattle.eval_scope.specs.Shown.{world_of};
ghost use Rattle.ad_eval.specs.Dock.{is_docked, meets_requirement, rank_by};
ghost use Rattle.ad_eval.specs.Light.{IsLight, IsWrittenLight, has_light_literals};
ghost use Rattle.ad_eval.specs.Value.{evaluation, evaluation_at, value_at, value_with};

use ad_tree::Expr;
use eval_scope::World;
use pool_text::AdPlace;

/// A value with so many references to spend is the value with any more of them.
pub fn more_references_keep_a_value(world: &World<'_>, at: AdPlace, expr: &Expr)
    ensures expression { (n m : ℕ) (v : Plain) → n ≤ m
        → value_with n (world_of world.now) at (tree expr.now) ≡ Some v → value_with m (world_of world.now) at (tree expr.now) ≡ Some v }
    ensures attribute { (s : Pos) (n m : ℕ) (v : Plain) → n ≤ m
        → value_at n (world_of world.now) s ≡ Some v → value_at m (world_of world.now) s ≡ Some v }
{}

/// An attribute that needs its own value has none, with any number of references: so does each that needs, wherever it has a
/// value, to have one with fewer.
pub fn circles_have_no_value(world: &World<'_>)
    ensures { (s : Pos) → ((n : ℕ) → IsSome (value_at n (world_of world.now) s) → (m : ℕ) × (m < n) × IsSome (value_at m (world_of world.now) s))
        → (n : ℕ) → value_at n (world_of world.now) s ≡ None }
{}

/// Values, requirements, ranks and docks depend on the moment, the ads and the ports alone.
pub fn equal_worlds_are_evaluated_alike(
    one: &World<'_>,
    other: &World<'_>,
    at: AdPlace,
    expr: &Expr,
)
    ensures value { world_of one.now ≡ world_of other.now
        → evaluation (world_of one.now) at (tree expr.now) ≡ evaluation (world_of other.now) at (tree expr.now) }
    ensures requirement { world_of one.now ≡ world_of other.now → meets_requirement (world_of one.now) at ≡ meets_requirement (world_of other.now) at }
    ensures rank { world_of one.now ≡ world_of other.now → rank_by (world_of one.now) at ≡ rank_by (world_of other.now) at }
    ensures dock { world_of one.now ≡ world_of other.now → is_docked (world_of one.now) ≡ is_docked (world_of other.now) }
{}

/// Where no literal weighs more than a list literal and a function's result may, neither does the value of an expression or of
/// an attribute, nor what an evaluation keeps of an attribute. In an ad of 65,536 bytes no literal weighs more.
pub fn values_are_light(world: &World<'_>, at: AdPlace, expr: &Expr)
    ensures expression { IsWrittenLight (world_of world.now) → has_light_literals (tree expr.now) ≡ true
        → IsLight (evaluation (world_of world.now) at (tree expr.now)) }
    ensures attribute { IsWrittenLight (world_of world.now) → (s : Pos) → IsLight (evaluation_at (world_of world.now) s) }
    ensures kept { IsWrittenLight (world_of world.now) → (n : ℕ) (s : Pos) → IfSome (value_at n (world_of world.now) s) IsLight }
{}
