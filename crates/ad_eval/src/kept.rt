// Values of attributes that are kept in the course of an evaluation.
ghost use Rattle.std.specs.Prelude.{◌≡◌, ◌<◌, ◌+◌, ◌^◌};
ghost use Rattle.ad_value.specs.Plain.{plain};
ghost use Rattle.cycle_guard.specs.Sights.{pending};
ghost use Rattle.cycle_guard.specs.Shown.{sight_of};
ghost use Rattle.ad_eval.specs.Answered.{IsKept, IsRecalled};

use crate::outcome::Outcome;
use crate::scene::Scene;
use crate::stop::Stop;
use ad_value::{Value, copy};
use cycle_guard::Guard;
use pool_text::{OutOfMemory, Pos};
use std::alloc::Global;

/// A kept value, which serves where the references that are left are at least as many as it needs.
pub fn recalled(scene: &Scene<'_>, value: &Value, height: u32) -> Result<Outcome, Stop>
    ensures { IsRecalled scene.now.left (plain value.now) height result }
{
    if height > scene.left {
        return Err(Stop::References);
    }
    match copy(scene.alloc, value) {
        Ok(value) => Ok(Outcome { value, height }),
        Err(OutOfMemory) => Err(Stop::OutOfMemory),
    }
}

/// Keeps the value of an attribute that is pending, which needs one reference more than its expression.
pub fn keep(alloc: Global, guard: &mut Guard, pos: Pos, found: Outcome) -> Result<Outcome, Stop>
    requires pending { sight_of guard.old pos ≡ pending }
    requires height { found.height + 1 < 2 ^ 32 }
    ensures { IsKept pos (plain found.value) (found.height + 1) guard.old guard.new result }
{
    match copy(alloc, &found.value) {
        Ok(value) => {
            guard.finish(pos, value, found.height + 1);
            Ok(found.one_more())
        }
        Err(OutOfMemory) => {
            drop(found);
            Err(Stop::OutOfMemory)
        }
    }
}
