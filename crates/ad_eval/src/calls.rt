// Functions of values.
ghost use Rattle.std.specs.Prelude.{◌≡◌, IfOk};
ghost use Rattle.ad_value.specs.Plain.{plain, plains};
ghost use Rattle.ad_tree.specs.Names.{same_name};
ghost use Rattle.ad_eval.specs.Answered.{IsApplied};
ghost use Rattle.ad_eval.specs.Node.{function_value, only_ad, sized_ad};
ghost use Rattle.ad_eval.specs.Scene.{world_in};

use crate::outcome::{Outcome, Several};
use crate::scene::Scene;
use crate::stop::Stop;
use ad_value::{Value, Values};
use builtin_funcs::call;
use pool_text::{AdPlace, OutOfMemory, same_folded};

/// A function of values of these arguments, with the references of all of them.
pub fn apply_function(scene: &Scene<'_>, name: &[u8], args: Several) -> Result<Outcome, Stop>
    ensures { IsApplied (function_value (world_in scene.now) name.now (plains args.values)) args.height result }
{
    let applied = value_of_function(scene, name, &args.values);
    let height = args.height;
    drop(args);
    match applied {
        Ok(value) => Ok(Outcome { value, height }),
        Err(OutOfMemory) => Err(Stop::OutOfMemory),
    }
}

// The value of a function of values.
#[tactic(auto, unfolding(crate::specs::Scene::world_in))]
fn value_of_function(scene: &Scene<'_>, name: &[u8], args: &Values) -> Result<Value, OutOfMemory>
    ensures { IfOk result (λ v. plain v ≡ function_value (world_in scene.now) name.now (plains args.now)) }
{
    match sized_ad(name, args) {
        Some(place) => Ok(Value::Integer(i64::from(scene.world.size_of(place)))),
        None => call(scene.alloc, name, args, scene.world.moment()),
    }
}

// The Ad whose size is asked for.
fn sized_ad(name: &[u8], args: &Values) -> Option<AdPlace>
    ensures { result ≡ sized_ad name.now (plains args.now) }
{
    if is_named(name, b"size") {
        only_ad(args)
    } else {
        None
    }
}

// The place of the only argument where that is an Ad.
fn only_ad(args: &Values) -> Option<AdPlace>
    ensures { result ≡ only_ad (plains args.now) }
{
    if args.len() != 1 {
        return None;
    }
    match args.at(0) {
        Value::Ad(place) => Some(*place),
        _ => None,
    }
}

/// Whether two names are equal, which ignore case.
pub fn is_named(name: &[u8], other: &[u8]) -> bool
    ensures { result ≡ same_name name.now other.now }
{
    same_folded(name, other)
}
