// Laws of the definitions, each on a function that does nothing.
ghost use Rattle.std.specs.Prelude.{◌≡◌, ◌<◌, ℕ, suc, false, true, [], All, List, Some, length};
ghost use Rattle.ad_value.specs.Plain.{Plain, boolean};
ghost use Rattle.ad_tree.specs.Frames.{Frame};
ghost use Rattle.ad_tree.specs.Tree.{tree};
ghost use Rattle.ad_eval.specs.Dock.{is_docked, meets_requirement};
ghost use Rattle.ad_eval.specs.Value.{value_with};
ghost use Rattle.conjunct_plan.specs.declared.test.Test.{Test};
ghost use Rattle.conjunct_plan.specs.Decided.{is_side_met, test_value};
ghost use Rattle.conjunct_plan.specs.Tests.{conjuncts, labels_of, test_of};
ghost use Rattle.eval_scope.specs.Shown.{world_of};
ghost use Rattle.eval_scope.specs.World.{next_side, request_side, resource_side, with_docked};
ghost use Rattle.dock_match.specs.Docks.{is_last_decided, last_ad, last_open};
ghost use Rattle.dock_match.specs.Late.{is_ruled_out, late_test, late_tests};

use ad_tree::Expr;
use eval_scope::World;
use pool_text::AdPlace;

/// Where a test has a value by the literals of the other side of the last dock, its conjunct evaluates to that very value,
/// with any number of references from one on: on the request's side, and on the resource's.
pub fn a_conjunct_has_the_value_of_its_test(world: &World<'_>, expr: &Expr)
    ensures request { (n : ℕ) (test : Test) (v : Plain) → let w = world_of world.now in
        0 < length w.docked
        → test_of w.request (request_side w).frame (labels_of w.ports) (tree expr.now) ≡ Some test
        → test_value test (last_ad w) 0 ≡ Some v
        → value_with (suc n) w (request_side w) (tree expr.now) ≡ Some v }
    ensures resource { (n : ℕ) (test : Test) (v : Plain) → let w = world_of world.now in
        0 < length w.docked
        → test_of (last_ad w) 0 [] (tree expr.now) ≡ Some test
        → test_value test w.request (request_side w).frame ≡ Some v
        → value_with (suc n) w (resource_side w) (tree expr.now) ≡ Some v }
{}

/// An expression is true only where each of its conjuncts is, whatever their order and whatever values the others have.
pub fn a_conjunction_is_true_only_where_its_conjuncts_are(
    world: &World<'_>,
    at: AdPlace,
    expr: &Expr,
)
    ensures { (n : ℕ) → let w = world_of world.now in
        value_with n w at (tree expr.now) ≡ Some (boolean true)
        → All (λ conjunct. value_with n w at conjunct ≡ Some (boolean true)) (conjuncts (tree expr.now)) }
{}

/// A dock in which some test of either side is decided against is not true: so it needs no evaluation.
pub fn a_decided_dock_is_never_true(world: &World<'_>)
    ensures { let w = world_of world.now in
        0 < length w.docked → is_last_decided w ≡ true → is_docked w ≡ false }
{}

/// Where a test by what is docked has a value by the literals of another ad, its conjunct evaluates to that very value once
/// that ad is docked, with any number of references from one on; and where one is decided against, the dock of that ad isn't
/// true: so it needs no evaluation.
pub fn a_dock_that_a_late_test_decides_is_never_true(world: &World<'_>, expr: &Expr)
    ensures value { (n : ℕ) (ad : List Frame) (test : Test) (v : Plain) → let w = world_of world.now in
        late_test w (tree expr.now) ≡ Some test → test_value test ad 0 ≡ Some v
        → value_with (suc n) (with_docked w ad) (next_side w) (tree expr.now) ≡ Some v }
    ensures dock { (ad : List Frame) → let w = world_of world.now in
        is_ruled_out (late_tests w) ad ≡ true → is_docked (with_docked w ad) ≡ false }
{}

/// A requirement each of whose conjuncts is a test that is met by the other side is true, and so is a dock of two such sides:
/// so it needs no evaluation.
pub fn a_dock_whose_tests_are_all_met_is_true(world: &World<'_>)
    ensures request { let w = world_of world.now in
        0 < length w.docked → is_side_met w.request (request_side w).frame (labels_of w.ports) (last_ad w) 0 ≡ true
        → meets_requirement w (request_side w) ≡ true }
    ensures resource { let w = world_of world.now in
        0 < length w.docked → is_side_met (last_ad w) 0 [] w.request (request_side w).frame ≡ true
        → meets_requirement w (resource_side w) ≡ true }
    ensures dock { let w = world_of world.now in
        0 < length w.docked → last_open w ≡ Some (record { request = false; resource = false }) → is_docked w ≡ true }
{}
