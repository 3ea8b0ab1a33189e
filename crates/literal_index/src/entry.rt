// What the index keeps of an attribute.
ghost use Rattle.std.specs.Prelude.{◌≡◌, IfOk};
ghost use Rattle.std.specs.Option.{option_copied};
ghost use Rattle.ad_tree.specs.Tree.{tree};
ghost use Rattle.ad_value.specs.Plain.{plain_of_lit};
ghost use Rattle.conjunct_plan.specs.Decided.{asked, value_with};
ghost use Rattle.literal_index.specs.Entries.{entry_of, holds_with, is_chosen, is_chosen_by_both, is_of, is_pair, kind_of, literal_of, place_of, value_of};

use crate::digest::number_of_text;
use crate::literal::Literal;
use crate::name::{Name, NameCache};
use crate::place::{Kind, Place};
use crate::shortened::{ONE, shortened};
use ad_tree::Expr;
use ad_value::{MILLION, is_true_of_literals};
use conjunct_plan::Test;
use pool_text::{Lit, OutOfMemory, Text, name_digest, same_folded};
use std::alloc::Global;

/// The name of an attribute, and its literal where its expression is one.
#[derive(Drop)]
pub struct Entry {
    pub name: Name,
    pub literal: Literal,
}

impl Entry {
    /// What is kept of an attribute whose name has this digest.
    pub fn of(
        alloc: Global,
        names: &mut NameCache,
        digest: u64,
        name: &Text,
        expr: &Expr,
    ) -> Result<Entry, OutOfMemory>
        ensures { IfOk result (λ entry. entry ≡ entry_of (name.now, tree expr.now)) }
    {
        Ok(Entry {
            name: names.shared(digest, name)?,
            literal: Literal::of(alloc, literal_of(expr))?,
        })
    }

    /// Whether the attribute is the one that the test asks for, and of this choice.
    pub fn is_chosen(&self, test: &Test, choice: Choice) -> bool
        ensures { result ≡ is_chosen test.now choice self.now }
    {
        self.is_of(test, choice) && same_folded(asked(test).bytes(), self.name.bytes())
    }

    /// Whether the attribute is the one that both tests ask for, with a literal that makes both true.
    pub fn is_chosen_by_both(&self, first: &Test, second: &Test) -> bool
        ensures { result ≡ is_chosen_by_both first.now second.now self.now }
    {
        self.is_chosen(first, Choice::True) && self.is_chosen(second, Choice::True)
    }

    fn is_of(&self, test: &Test, choice: Choice) -> bool
        ensures { result ≡ is_of test.now choice self.now.literal }
    {
        match (self.literal.makes_true(test), choice) {
            (None, Choice::Open) => true,
            (Some(holds), Choice::True) => holds,
            (Some(holds), Choice::Untrue) => !holds,
            _ => false,
        }
    }
}

/// Attributes that have no literal, a literal that makes a test true, or one that doesn't.
#[derive(Clone, Copy)]
pub enum Choice {
    Open,
    True,
    Untrue,
}

/// The place of an attribute of the ad in a slot.
pub fn place_of(slot: usize, attr: u32, name: &Text, expr: &Expr) -> Place
    ensures { result ≡ place_of slot attr (name.now, tree expr.now) }
{
    let found = literal_of(expr);
    Place {
        name: name_digest(name.bytes()),
        kind: kind_of(found),
        value: value_of(found),
        slot,
        attr,
    }
}

/// The name of the attribute that a test asks for.
pub fn asked(test: &Test) -> &Text
    ensures { result.now ≡ asked test.now }
{
    match test {
        Test::Truth { name } => name,
        Test::Compare { name, .. } => name,
    }
}

/// Whether the test is true where its attribute is this literal. It takes no memory.
pub fn holds(test: &Test, found: &Lit) -> bool
    ensures { result ≡ holds_with test.now found.now }
{
    match test {
        Test::Truth { .. } => matches!(found, Lit::Boolean(true)),
        Test::Compare {
            op,
            lit,
            attr_left: true,
            ..
        } => is_true_of_literals(*op, found, lit),
        Test::Compare {
            op,
            lit,
            attr_left: false,
            ..
        } => is_true_of_literals(*op, lit, found),
    }
}

/// Whether two tests ask for one attribute, and its absence makes neither of them true. It takes no memory.
pub fn is_pair(first: &Test, second: &Test) -> bool
    ensures { result ≡ is_pair first.now second.now }
{
    same_folded(asked(first).bytes(), asked(second).bytes())
        && !holds(first, &Lit::Undefined)
        && !holds(second, &Lit::Undefined)
}

// The literal that an expression is, if it is one.
fn literal_of(expr: &Expr) -> Option<&Lit>
    ensures { option_copied result ≡ literal_of (tree expr.now) }
{
    match expr {
        Expr::Literal(lit) => Some(lit),
        _ => None,
    }
}

/// What an attribute is whose expression is this literal or none.
pub fn kind_of(found: Option<&Lit>) -> Kind
    ensures { result ≡ kind_of (option_copied found.entry) }
{
    match found {
        None => Kind::Open,
        Some(Lit::Undefined) => Kind::Undefined,
        Some(Lit::Error) => Kind::Error,
        Some(Lit::Boolean(_) | Lit::Integer(_) | Lit::Decimal(_)) => Kind::Number,
        Some(Lit::Str(_)) => Kind::Str,
    }
}

/// The number by which such attributes are ordered. Numbers of all kinds count in millionths.
pub fn value_of(found: Option<&Lit>) -> i64
    ensures { result ≡ value_of (option_copied found.entry) }
{
    match found {
        Some(Lit::Boolean(true)) => ONE,
        Some(Lit::Integer(n)) => shortened(i128::from(*n) * MILLION),
        Some(Lit::Decimal(millionths)) => shortened(i128::from(*millionths)),
        Some(Lit::Str(text)) => number_of_text(text.bytes()),
        _ => 0,
    }
}
