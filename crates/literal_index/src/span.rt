// Parts of the order of places.
ghost use Rattle.std.specs.Prelude.{◌≡◌};
ghost use Rattle.literal_index.specs.Spans.{failing_span, first_in_both, first_place, last_in_both, last_place, passing_span, span_at, span_from, span_up_to};

use crate::entry::{kind_of, value_of};
use crate::place::{Kind, Place};
use crate::shortened::ONE;
use conjunct_plan::Test;
use pool_text::{BinOp, Lit};

/// A part of the order of the attributes of one name.
#[derive(Clone, Copy)]
pub enum Span {
    /// The attributes of this kind and this number.
    At(Kind, i64),
    /// The numbers up to this one.
    UpTo(i64),
    /// The numbers from this one on.
    From(i64),
    /// All literals.
    Literals,
}

impl Span {
    /// A part in which all literals stand that make the test true.
    pub fn passing(test: &Test) -> Span
        ensures { result ≡ passing_span test.now }
    {
        match test {
            Test::Truth { .. } => Span::At(Kind::Number, ONE),
            Test::Compare {
                op,
                lit,
                attr_left,
                ..
            } => match (*op, *attr_left) {
                (BinOp::Same | BinOp::Equal, _) => span_at(lit),
                (BinOp::Less | BinOp::AtMost, true) => span_up_to(lit),
                (BinOp::Less | BinOp::AtMost, false) => span_from(lit),
                (BinOp::Greater | BinOp::AtLeast, true) => span_from(lit),
                (BinOp::Greater | BinOp::AtLeast, false) => span_up_to(lit),
                _ => Span::Literals,
            },
        }
    }

    /// A part in which all literals stand that don't make the test true, where the test is true of Undefined.
    pub fn failing(test: &Test) -> Span
        ensures { result ≡ failing_span test.now }
    {
        match test {
            Test::Compare {
                op: BinOp::NotSame,
                lit,
                ..
            } => span_at(lit),
            _ => Span::Literals,
        }
    }

    /// The first place that an attribute of this name can have in the span.
    pub fn first(self, name: u64) -> Place
        ensures { result ≡ first_place name self }
    {
        let (kind, value) = match self {
            Span::At(kind, value) => (kind, value),
            Span::UpTo(_) => (Kind::Error, 0),
            Span::From(value) => (Kind::Number, value),
            Span::Literals => (Kind::Undefined, 0),
        };
        Place {
            name,
            kind,
            value,
            slot: 0,
            attr: 0,
        }
    }

    /// The last place that an attribute of this name can have in the span.
    pub fn last(self, name: u64) -> Place
        ensures { result ≡ last_place name self }
    {
        let (kind, value) = match self {
            Span::At(kind, value) => (kind, value),
            Span::UpTo(value) => (Kind::Number, value),
            Span::From(_) => (Kind::Str, 0),
            Span::Literals => (Kind::Str, i64::MAX),
        };
        Place {
            name,
            kind,
            value,
            slot: usize::MAX,
            attr: u32::MAX,
        }
    }

    /// The first place that an attribute of this name can have in both spans.
    #[tactic(auto, unfolding(crate::specs::Spans::first_in_both))]
    pub fn first_in_both(self, other: Span, name: u64) -> Place
        ensures { result ≡ first_in_both name self other }
    {
        self.first(name).max(other.first(name))
    }

    /// The last one. Where no place is in both it is the first, since a range must not end before it begins.
    #[tactic(auto, unfolding(crate::specs::Spans::last_in_both))]
    pub fn last_in_both(self, other: Span, name: u64) -> Place
        ensures { result ≡ last_in_both name self other }
    {
        let last = self.last(name).min(other.last(name));
        last.max(self.first_in_both(other, name))
    }
}

// The attributes with a literal of the same kind and number.
fn span_at(lit: &Lit) -> Span
    ensures { result ≡ span_at lit.now }
{
    Span::At(kind_of(Some(lit)), value_of(Some(lit)))
}

// The numbers up to this one, or all literals where it is none.
fn span_up_to(lit: &Lit) -> Span
    ensures { result ≡ span_up_to lit.now }
{
    match kind_of(Some(lit)) {
        Kind::Number => Span::UpTo(value_of(Some(lit))),
        _ => Span::Literals,
    }
}

// The numbers from this one on, or all literals where it is none.
fn span_from(lit: &Lit) -> Span
    ensures { result ≡ span_from lit.now }
{
    match kind_of(Some(lit)) {
        Kind::Number => Span::From(value_of(Some(lit))),
        _ => Span::Literals,
    }
}
