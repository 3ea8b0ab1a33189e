// Tests that borrow what they are made of, so that asking takes no memory.
ghost use Rattle.std.specs.Prelude.{◌≡◌, ◌<◌, length, IfOk};
ghost use Rattle.std.specs.Option.{option_map};
ghost use Rattle.ad_tree.specs.Ad.{ad_frames};
ghost use Rattle.ad_tree.specs.Tree.{tree};
ghost use Rattle.conjunct_plan.specs.Decided.{asked};
ghost use Rattle.conjunct_plan.specs.Seen.{side_seen, test_seen};
ghost use Rattle.conjunct_plan.specs.Tests.{comparison_of, is_comparison, labels_of, test_of, truth_of};

use crate::Test;
use crate::side::{Side, side_of};
use ad_tree::{Ad, Expr, Ports, copy_literal};
use pool_text::{BinOp, Lit, OutOfMemory, Text};

/// A test whose name and literal stand elsewhere.
#[derive(Clone, Copy)]
pub(crate) enum Probe<'a> {
    Truth(&'a Text),
    Compare {
        name: &'a Text,
        op: BinOp,
        lit: &'a Lit,
        attr_left: bool,
    },
}

impl<'a> Probe<'a> {
    /// The same test, borrowed.
    pub(crate) fn of(test: &'a Test) -> Probe<'a>
        ensures { test_seen result ≡ test.now }
    {
        match test {
            Test::Truth { name } => Probe::Truth(name),
            Test::Compare {
                name,
                op,
                lit,
                attr_left,
            } => Probe::Compare {
                name,
                op: *op,
                lit,
                attr_left: *attr_left,
            },
        }
    }

    /// The name of the attribute that it asks for.
    pub(crate) fn asked(self) -> &'a Text
        ensures { result.now ≡ asked (test_seen self.entry) }
    {
        match self {
            Probe::Truth(name) => name,
            Probe::Compare { name, .. } => name,
        }
    }

    /// The same test with a name and a literal of its own.
    pub(crate) fn to_test(self) -> Result<Test, OutOfMemory>
        ensures { IfOk result (λ test. test ≡ test_seen self.entry) }
    {
        match self {
            Probe::Truth(name) => Ok(Test::Truth { name: name.copy()? }),
            Probe::Compare {
                name,
                op,
                lit,
                attr_left,
            } => Ok(Test::Compare {
                name: name.copy()?,
                op,
                lit: copy_literal(lit)?,
                attr_left,
            }),
        }
    }
}

/// The test that a conjunct is, if it is one, in a frame of an ad with these ports.
pub(crate) fn probe_of<'a>(
    ad: &'a Ad,
    frame: u32,
    ports: &Ports,
    expr: &'a Expr,
) -> Option<Probe<'a>>
    requires { frame < length (ad_frames ad.now) }
    ensures { option_map test_seen result ≡ test_of (ad_frames ad.now) frame (labels_of ports.now) (tree expr.now) }
{
    match expr {
        Expr::Binary(op, left, right) => comparison_of(
            *op,
            side_of(ad, frame, ports, left),
            side_of(ad, frame, ports, right),
        ),
        _ => truth_of(side_of(ad, frame, ports, expr)),
    }
}

// An attribute of the other side alone.
fn truth_of<'a>(side: Side<'a>) -> Option<Probe<'a>>
    ensures { option_map test_seen result ≡ truth_of (side_seen side.entry) }
{
    match side {
        Side::Named(name) => Some(Probe::Truth(name)),
        _ => None,
    }
}

// An attribute of the other side compared with a literal.
fn comparison_of<'a>(op: BinOp, left: Side<'a>, right: Side<'a>) -> Option<Probe<'a>>
    ensures { option_map test_seen result ≡ comparison_of op (side_seen left.entry) (side_seen right.entry) }
{
    if !is_comparison(op) {
        return None;
    }
    match (left, right) {
        (Side::Named(name), Side::Constant(lit)) => Some(Probe::Compare {
            name,
            op,
            lit,
            attr_left: true,
        }),
        (Side::Constant(lit), Side::Named(name)) => Some(Probe::Compare {
            name,
            op,
            lit,
            attr_left: false,
        }),
        _ => None,
    }
}

/// Whether tests have this operator.
pub fn is_comparison(op: BinOp) -> bool
    ensures { result ≡ is_comparison op }
{
    matches!(
        op,
        BinOp::Equal
            | BinOp::Unequal
            | BinOp::Same
            | BinOp::NotSame
            | BinOp::Less
            | BinOp::AtMost
            | BinOp::Greater
            | BinOp::AtLeast
    )
}
