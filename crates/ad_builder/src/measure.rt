// How high a tree is, told while it is built.
ghost use Rattle.std.specs.Prelude.{◌≡◌, ◌+◌, ℕ, List, min, max};
ghost use Rattle.ad_tree.specs.Inline.{Inline, Inlines, shape, inner, no_defs};
ghost use Rattle.ad_tree.specs.Tree.{Label};
ghost use Rattle.ad_builder.specs.Machine.{with_element, with_definition};
ghost use Rattle.ad_builder.specs.Shapes.{leaf, over_one, over_two, over_three, followed_by, joined};
ghost use Rattle.ad_builder.specs.Counts.{tallest_measured};
ghost use Rattle.ad_builder.specs.Measures.{IsMeasure, kind_at, kind_of};
ghost use Rattle.ad_builder.specs.declared.measure.Kind.TheVariants as kinds;

use crate::instruction::Infix;

/// A chain of `&&`, a chain of `||`, another node, or an ad literal.
#[derive(Clone, Copy, PartialEq, Eq)]
pub enum Kind {
    All,
    Any,
    Node,
    Ad,
}

/// The height of a tree, which stops at the largest `u8`, far above the limit of a parse, and of what kind the tree is.
#[derive(Clone, Copy)]
pub struct Measure {
    pub height: u8,
    pub kind: Kind,
}

impl Measure {
    /// A node with nothing below it, and a list and a call while they are empty.
    pub fn leaf() -> Measure
        ensures { (label : Label) → kind_at label ≡ kinds.Node → IsMeasure result (leaf label) }
    {
        Measure {
            height: 1,
            kind: Kind::Node,
        }
    }

    /// An ad literal without definitions.
    pub fn ad() -> Measure
        ensures { IsMeasure result (inner no_defs) }
    {
        Measure {
            height: 1,
            kind: Kind::Ad,
        }
    }

    /// Both side by side, with the kind of the first.
    fn beside(self, other: Measure) -> Measure
        ensures height { result.height ≡ max self.height other.height }
        ensures kind { result.kind ≡ self.kind }
    {
        Measure {
            height: self.height.max(other.height),
            kind: self.kind,
        }
    }

    /// The same one level higher.
    fn raised(self) -> Measure
        ensures height { result.height ≡ min (self.height + 1) tallest_measured }
        ensures kind { result.kind ≡ self.kind }
    {
        Measure {
            height: self.height.saturating_add(1),
            ..self
        }
    }

    /// A node above one tree.
    pub fn over_one(self) -> Measure
        ensures { (label : Label) (x : Inline) → kind_at label ≡ kinds.Node → IsMeasure self x
            → IsMeasure result (over_one label x) }
    {
        Measure {
            kind: Kind::Node,
            ..self.raised()
        }
    }

    /// A node above two trees.
    pub fn over_two(self, second: Measure) -> Measure
        ensures { (label : Label) (x y : Inline) → kind_at label ≡ kinds.Node → IsMeasure self x → IsMeasure second y
            → IsMeasure result (over_two label x y) }
    {
        Measure {
            kind: Kind::Node,
            ..self.beside(second).raised()
        }
    }

    /// A node above three trees.
    pub fn over_three(self, second: Measure, third: Measure) -> Measure
        ensures { (label : Label) (x y z : Inline) → kind_at label ≡ kinds.Node
            → IsMeasure self x → IsMeasure second y → IsMeasure third z → IsMeasure result (over_three label x y z) }
    {
        Measure {
            kind: Kind::Node,
            ..self.beside(second).beside(third).raised()
        }
    }

    /// Two operands joined.
    pub fn joined(self, operator: Infix, second: Measure) -> Measure
        ensures { (x y : Inline) → IsMeasure self x → IsMeasure second y → IsMeasure result (joined operator x y) }
    {
        match operator {
            Infix::And => self.chained(Kind::All, second),
            Infix::Or => self.chained(Kind::Any, second),
            Infix::Binary(_) => self.over_two(second),
        }
    }

    /// Two operands in a chain: one of its own kind takes the second as one operand more.
    fn chained(self, chain: Kind, second: Measure) -> Measure
        ensures longer { (label : Label) (xs : Inlines) (y : Inline) → kind_at label ≡ chain
            → IsMeasure self (shape label xs) → IsMeasure second y → IsMeasure result (shape label (followed_by xs y)) }
        ensures begun { (label : Label) (x y : Inline) → kind_at label ≡ chain → (kind_of x ≡ chain → ⊥)
            → IsMeasure self x → IsMeasure second y → IsMeasure result (over_two label x y) }
    {
        if self.kind == chain {
            return self.beside(second.raised());
        }
        Measure {
            kind: chain,
            ..self.beside(second).raised()
        }
    }

    /// A list or a call with one tree more.
    pub fn with_element(self, element: Measure) -> Measure
        ensures { (x y : Inline) → IsMeasure self x → IsMeasure element y → IsMeasure result (with_element x y) }
    {
        if self.kind == Kind::Ad {
            return self.over_two(element);
        }
        self.beside(element.raised())
    }

    /// An ad literal with one definition more.
    pub fn with_definition(self, value: Measure) -> Measure
        ensures { (name : List ℕ) (x y : Inline) → IsMeasure self x → IsMeasure value y
            → IsMeasure result (with_definition x name y) }
    {
        if self.kind != Kind::Ad {
            return self.over_two(value);
        }
        self.beside(value.raised())
    }
}
