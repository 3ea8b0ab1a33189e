// Attributes of an ad, put into the order of places and taken out of it.
ghost use Rattle.std.specs.Prelude.{◌≡◌, ◌≤◌, ◌<◌, ◌^◌, length, None, OnOk, OnErr, IsTrue};
ghost use Rattle.std.specs.BTreeMap.{get};
ghost use Rattle.ad_tree.specs.Ad.{ad_frames};
ghost use Rattle.ad_tree.specs.Frames.{attributes_at};
ghost use Rattle.ad_tree.specs.Tree.{tree};
ghost use Rattle.literal_index.specs.Entries.{entry_of, is_place, place_of};
ghost use Rattle.literal_index.specs.Order.{place_order};
ghost use Rattle.literal_index.specs.Changes.{HasPut, HasPutOne, HasTaken, HasTakenOne, IsSame};

use crate::entry::{Entry, place_of};
use crate::name::NameCache;
use crate::place::Place;
use ad_tree::{Ad, Expr};
use pool_text::{OutOfMemory, Text};
use std::alloc::Global;
use std::collections::BTreeMap;

// An attribute of the root of an ad: its number there, its name and its expression.
#[derive(Clone, Copy)]
struct Attribute<'a> {
    number: u32,
    name: &'a Text,
    expr: &'a Expr,
}

/// Puts in the attributes of the root of the ad under a slot. At want of memory it takes out again what it put in.
pub fn put_attributes(
    alloc: Global,
    names: &mut NameCache,
    entries: &mut BTreeMap<Place, Entry>,
    slot: usize,
    ad: &Ad,
) -> Result<(), OutOfMemory>
    ensures few { length (attributes_at (ad_frames ad.now) 0) < 2 ^ 32 }
    ensures ok { OnOk result (HasPut (length (attributes_at (ad_frames ad.now) 0)) slot (attributes_at (ad_frames ad.now) 0) entries.old entries.new) }
    ensures err { OnErr result (((q : Place) → IsTrue (is_place slot (attributes_at (ad_frames ad.now) 0) q)
        → get place_order entries.old q ≡ None) → IsSame entries.old entries.new) }
{
    for attr in 0..ad.count(0) {
        let attribute = Attribute {
            number: attr,
            name: ad.name(0, attr),
            expr: ad.expr(0, attr),
        };
        if let Err(refused) = put_attribute(alloc, names, entries, slot, &attribute) {
            take_attributes(entries, slot, ad, attr);
            return Err(refused);
        }
    }
    Ok(())
}

fn put_attribute(
    alloc: Global,
    names: &mut NameCache,
    entries: &mut BTreeMap<Place, Entry>,
    slot: usize,
    attribute: &Attribute<'_>,
) -> Result<(), OutOfMemory>
    ensures ok { OnOk result (HasPutOne slot attribute.now.number (attribute.now.name.now, tree attribute.now.expr.now) entries.old entries.new) }
    ensures err { OnErr result (IsSame entries.old entries.new) }
{
    let place = place_of(slot, attribute.number, attribute.name, attribute.expr);
    let entry = Entry::of(alloc, names, place.name, attribute.name, attribute.expr)?;
    entries.insert(place, entry)?;
    Ok(())
}

/// Takes out the first so many attributes of the root of the ad under a slot. No memory is taken.
pub fn take_attributes(entries: &mut BTreeMap<Place, Entry>, slot: usize, ad: &Ad, count: u32)
    requires { count ≤ length (attributes_at (ad_frames ad.now) 0) }
    ensures { HasTaken count slot (attributes_at (ad_frames ad.now) 0) entries.old entries.new }
{
    for attr in 0..count {
        let attribute = Attribute {
            number: attr,
            name: ad.name(0, attr),
            expr: ad.expr(0, attr),
        };
        take_attribute(entries, slot, &attribute);
    }
}

fn take_attribute(entries: &mut BTreeMap<Place, Entry>, slot: usize, attribute: &Attribute<'_>)
    ensures { HasTakenOne slot attribute.now.number (attribute.now.name.now, tree attribute.now.expr.now) entries.old entries.new }
{
    entries.remove(&place_of(slot, attribute.number, attribute.name, attribute.expr));
}
