// What names, selections and subscripts come to.
ghost use Rattle.std.specs.Prelude.{◌≡◌, IfOk, Option};
ghost use Rattle.pool_text.specs.declared.language.Pos.{Pos};
ghost use Rattle.ad_value.specs.Demands.{element, selected, subscripted};
ghost use Rattle.ad_value.specs.Plain.{Plain, plain, plains, plains_of};
ghost use Rattle.eval_scope.specs.Look.{find};
ghost use Rattle.ad_eval.specs.Node.{attribute_value, named};
ghost use Rattle.ad_eval.specs.Reference.{IsInWorld, value_of};
ghost use Rattle.ad_eval.specs.Scene.{world_in};

use crate::scene::Scene;
use ad_tree::Scope;
use ad_value::{Value, Values, copy};
use eval_scope::Found;
use pool_text::{AdPlace, OutOfMemory, Pos};
use std::alloc::Global;

/// What a reference comes to: a value at once, or the attribute whose value it is.
#[derive(Drop)]
pub enum Reference {
    Value(Value),
    Attribute(Pos),
}

/// What a name comes to: Undefined where it finds nothing, the Ad of a label, or an attribute.
#[tactic(auto, unfolding(crate::specs::Scene::world_in))]
pub fn look_up(scene: &Scene<'_>, scope: Scope, name: &[u8]) -> Reference
    ensures value { (at : Pos → Option Plain) → value_of at result ≡ named at (find (world_in scene.now) scene.now.at scope name.now) }
    ensures there { IsInWorld (world_in scene.now) result }
{
    match scene.world.find(scene.at, scope, name) {
        Found::Nothing => Reference::Value(Value::Undefined),
        Found::Place(place) => Reference::Value(Value::Ad(place)),
        Found::Attr(pos) => Reference::Attribute(pos),
    }
}

/// What `base.name` comes to: an Ad has the attribute or Undefined, Undefined has Undefined, and all else Error.
#[tactic(auto, unfolding(crate::specs::Scene::world_in))]
pub fn select(scene: &Scene<'_>, base: &Value, name: &[u8]) -> Reference
    ensures value { (at : Pos → Option Plain) → value_of at result ≡ selected (attribute_value at (world_in scene.now)) name.now (plain base.now) }
    ensures there { IsInWorld (world_in scene.now) result }
{
    match base {
        Value::Ad(place) => attribute_within(scene, *place, name),
        Value::Undefined => Reference::Value(Value::Undefined),
        _ => Reference::Value(Value::Error),
    }
}

/// What `base[index]` comes to: an Integer has an element of a List, and a String an attribute of an Ad.
pub fn subscript(scene: &Scene<'_>, base: &Value, index: &Value) -> Result<Reference, OutOfMemory>
    ensures value { IfOk result (λ r. (at : Pos → Option Plain)
        → value_of at r ≡ subscripted (attribute_value at (world_in scene.now)) (plain base.now) (plain index.now)) }
    ensures there { IfOk result (λ r. IsInWorld (world_in scene.now) r) }
{
    match (base, index) {
        (Value::Error, _) | (_, Value::Error) => Ok(Reference::Value(Value::Error)),
        (Value::Undefined, _) | (_, Value::Undefined) => Ok(Reference::Value(Value::Undefined)),
        (Value::List(items), Value::Integer(n)) => {
            Ok(Reference::Value(element(scene.alloc, items, *n)?))
        }
        (Value::Ad(place), Value::Str(name)) => Ok(attribute_within(scene, *place, name.bytes())),
        _ => Ok(Reference::Value(Value::Error)),
    }
}

// The attribute of a frame alone, Undefined where the frame has no such name.
#[tactic(auto, unfolding(crate::specs::Scene::world_in))]
fn attribute_within(scene: &Scene<'_>, place: AdPlace, name: &[u8]) -> Reference
    ensures value { (at : Pos → Option Plain) → value_of at result ≡ attribute_value at (world_in scene.now) place name.now }
    ensures there { IsInWorld (world_in scene.now) result }
{
    match scene.world.within(place, name) {
        Some(pos) => Reference::Attribute(pos),
        None => Reference::Value(Value::Undefined),
    }
}

// The element of a list at an index from 0, Error where there is none.
fn element(alloc: Global, items: &Values, index: i64) -> Result<Value, OutOfMemory>
    ensures { IfOk result (λ v. plain v ≡ element (plains_of (plains items.now)) index) }
{
    if index < 0 {
        return Ok(Value::Error);
    }
    let place = index as usize;
    if place >= items.len() {
        return Ok(Value::Error);
    }
    copy(alloc, items.at(place))
}
