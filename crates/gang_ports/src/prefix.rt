// What the resources of a port are weighed behind.
ghost use Rattle.std.specs.Prelude.{◌≡◌};
ghost use Rattle.eval_scope.specs.Shown.{world_of};
ghost use Rattle.dock_match.specs.Late.{late_tests};

use conjunct_plan::Tests;
use eval_scope::World;

/// What is docked to the ports before a port: the world of it, the places of the resources, and the tests that the port has
/// by them.
#[derive(Drop)]
pub struct Prefix<'w, 'a> {
    pub world: &'w World<'a>,
    pub before: &'w [usize],
    pub late: Tests,
    pub ghost are_late: { late ≡ late_tests (world_of world.now) },
}
