// Where an expression is evaluated.
ghost use Rattle.std.specs.Prelude.{◌≡◌, ◌≢◌, ◌+◌};
ghost use Rattle.eval_scope.specs.World.{frame_of_attribute};
ghost use Rattle.ad_eval.specs.Scene.{world_in};

use eval_scope::World;
use pool_text::{AdPlace, Pos};
use std::alloc::Global;

/// The world of an evaluation, the frame in which the expression stands, and how many references are left to spend.
#[derive(Drop)]
pub struct Scene<'w> {
    pub alloc: Global,
    pub world: &'w World<'w>,
    pub at: AdPlace,
    pub left: u32,
}

/// Where the expression of an attribute is evaluated, with one reference less.
#[tactic(auto, unfolding(crate::specs::Scene::world_in))]
pub fn inside<'w>(scene: &Scene<'w>, pos: Pos) -> Scene<'w>
    requires { scene.now.left ≢ 0 }
    ensures world { world_in result ≡ world_in scene.now }
    ensures at { result.at ≡ frame_of_attribute pos }
    ensures left { result.left + 1 ≡ scene.now.left }
{
    Scene {
        alloc: scene.alloc,
        world: scene.world,
        at: AdPlace {
            ad: pos.ad,
            frame: pos.frame,
        },
        left: scene.left - 1,
    }
}
