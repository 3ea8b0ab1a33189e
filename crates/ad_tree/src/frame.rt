// One frame of an ad or of a draft: its attributes in order, each name once.
ghost use Rattle.std.specs.Prelude.{◌≡◌, ◌<◌, ◌^◌, [], length, position, slice_get, Some, IfOk, OnOk, OnErr, IsTrue};
ghost use Rattle.ad_tree.specs.Tree.{tree, cited};
ghost use Rattle.ad_tree.specs.Names.{same_name, are_apart};
ghost use Rattle.ad_tree.specs.Frames.{defined_in, names_of, put_attribute};
ghost use Rattle.ad_tree.specs.Attributes.{attributes_of};
ghost use Rattle.ad_tree.specs.Steady.{MovesNone};

use crate::Expr;
use crate::attribute::Attribute;
use crate::hasher::NameHashers;
use crate::name_key::NameKey;
use indexmap::IndexSet;
use pool_text::{OutOfMemory, Text};
use std::alloc::Global;

/// One frame of an ad: the number of the frame in which its ad literal stands, and its attributes in order, each name once.
#[derive(Drop)]
pub struct AdFrame {
    pub parent: u32,
    attributes: IndexSet<Attribute, NameHashers>,
    ghost apart: { IsTrue (are_apart (names_of (attributes_of attributes.keys))) },
    ghost few: { length attributes.keys < 2 ^ 32 },
}

/// The places of a frame's requirement and of its rank, where it has them.
#[derive(Clone, Copy)]
pub struct MatchAttributes {
    pub requirement: Option<u32>,
    pub rank: Option<u32>,
}

impl AdFrame {
    ghost use Rattle.ad_tree.specs.Special.{match_attributes_of};
    ghost use Rattle.ad_tree.specs.Table.{frame_of};

    /// No attributes, in an ad literal that stands in this frame.
    pub fn new(alloc: Global, hashers: NameHashers, parent: u32) -> AdFrame
        ensures { frame_of result ≡ record { parent = parent; attributes = [] } }
    {
        AdFrame {
            parent,
            attributes: IndexSet::with_hasher(alloc, hashers),
        }
    }

    /// Makes room for so many more names.
    pub fn reserve(&mut self, more: usize) -> Result<(), OutOfMemory>
        ensures { frame_of self.new ≡ frame_of self.old }
    {
        self.attributes.reserve(more)?;
        Ok(())
    }

    /// Gives back the room that it doesn't need.
    pub fn shrink(&mut self)
        ensures { frame_of self.new ≡ frame_of self.old }
    {
        self.attributes.shrink_to_fit();
    }

    /// Defines a name: it keeps its first place, and takes this spelling and this expression. Answers whether no ad literal
    /// is moved or lost by that, as far as is told at a glance.
    pub fn define(&mut self, name: Text, expr: Expr) -> Result<bool, OutOfMemory>
        ensures ok { OnOk result (frame_of self.new ≡ defined_in (frame_of self.old) name (tree expr)) }
        ensures err { OnErr result (frame_of self.new ≡ frame_of self.old) }
        ensures steady { IfOk result (λ is_steady. IsTrue is_steady → MovesNone name (tree expr) (frame_of self.old).attributes) }
    {
        let attribute = Attribute { name, expr };
        if self.attributes.len() >= u32::MAX as usize {
            drop(attribute);
            return Err(OutOfMemory);
        }
        put(&mut self.attributes, attribute)
    }

    /// How many attributes there are.
    pub fn count(&self) -> u32
        ensures { result ≡ length (frame_of self.now).attributes }
    {
        self.attributes.len() as u32
    }

    /// The attribute at a place, counted from 0.
    pub fn at(&self, i: u32) -> &Attribute
        requires { i < length (frame_of self.now).attributes }
        ensures { slice_get (frame_of self.now).attributes i ≡ Some (result.now.name, tree result.now.expr) }
    {
        &self.attributes.as_slice()[i as usize]
    }

    /// The place of the attribute of this name, whatever the case of its letters.
    pub fn position(&self, name: &[u8]) -> Option<u32>
        ensures { result ≡ position (same_name name.now) (names_of (frame_of self.now).attributes) }
    {
        let key = NameKey { name };
        self.attributes.get_index_of(key).map(|place| place as u32)
    }

    /// The place of the requirement: the attribute `Requirements`, or `Constraint` where there is none.
    pub fn requirement(&self) -> Option<u32>
        ensures { result ≡ (match_attributes_of (frame_of self.now)).requirement }
    {
        match self.position(b"Requirements") {
            Some(attr) => Some(attr),
            None => self.position(b"Constraint"),
        }
    }

    /// The places of the requirement and of the rank.
    pub fn matching(&self) -> MatchAttributes
        ensures { result ≡ match_attributes_of (frame_of self.now) }
    {
        MatchAttributes {
            requirement: self.requirement(),
            rank: self.position(b"Rank"),
        }
    }
}

// Puts an attribute in the place of the one of its name, or behind all. Where one is there, neither has an ad literal if
// both are leaves. An attribute is large, and an inlined call doesn't move it.
#[inline(always)]
fn put(
    set: &mut IndexSet<Attribute, NameHashers>,
    attribute: Attribute,
) -> Result<bool, OutOfMemory>
    ensures ok { OnOk result (attributes_of set.new.keys ≡ put_attribute attribute.name (tree attribute.expr) (attributes_of set.old.keys)) }
    ensures err { OnErr result (set.new.keys ≡ set.old.keys) }
    ensures steady { IfOk result (λ is_steady. IsTrue is_steady → MovesNone attribute.name (tree attribute.expr) (attributes_of set.old.keys)) }
{
    let was_leaf = is_leaf(&attribute.expr);
    match set.replace(attribute)? {
        Some(replaced) => {
            let are_leaves = was_leaf && is_leaf(&replaced.expr);
            drop(replaced);
            Ok(are_leaves)
        }
        None => Ok(true),
    }
}

// Whether an expression is a literal or a name.
fn is_leaf(expr: &Expr) -> bool
    ensures { IsTrue result → cited (tree expr.now) ≡ [] }
{
    matches!(expr, Expr::Literal(_) | Expr::Name(_, _))
}
