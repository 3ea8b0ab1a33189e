// Values of expressions that have nothing below them.
ghost use Rattle.std.specs.Prelude.{◌≡◌};
ghost use Rattle.ad_value.specs.Plain.{plain, plain_of_lit, ad_at};
ghost use Rattle.ad_eval.specs.Answered.{IsApplied};

use crate::outcome::Outcome;
use crate::scene::Scene;
use crate::stop::Stop;
use ad_value::{Value, from_lit};
use pool_text::{AdPlace, Lit, OutOfMemory};
use std::alloc::Global;

/// The value of a literal, where so many references lead to it.
pub fn literal(alloc: Global, lit: &Lit, height: u32) -> Result<Outcome, Stop>
    ensures { IsApplied (plain_of_lit lit.now) height result }
{
    match from_lit(alloc, lit) {
        Ok(value) => Ok(Outcome { value, height }),
        Err(OutOfMemory) => Err(Stop::OutOfMemory),
    }
}

/// The Ad of a frame of the ad in which an expression stands.
pub fn nested_ad(scene: &Scene<'_>, frame: u32) -> Outcome
    ensures value { plain result.value ≡ ad_at (record { ad = scene.now.at.ad; frame = frame }) }
    ensures height { result.height ≡ 0 }
{
    Outcome::leaf(Value::Ad(AdPlace {
        ad: scene.at.ad,
        frame,
    }))
}
