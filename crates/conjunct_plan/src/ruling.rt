// What is decided by literals alone.
ghost use Rattle.std.specs.Prelude.{◌≡◌, ◌<◌, length, not, pos, ℕ, List};
ghost use Rattle.std.specs.Option.{option_map};
ghost use Rattle.ad_tree.specs.Ad.{ad_frames};
ghost use Rattle.ad_tree.specs.Enclosing.{enclosed_expr};
ghost use Rattle.ad_tree.specs.Frames.{Frame};
ghost use Rattle.ad_tree.specs.Tree.{pack, tree, trees};
ghost use Rattle.ad_value.specs.Logic.{is_true};
ghost use Rattle.ad_value.specs.Plain.{plain, plain_of_lit};
ghost use Rattle.conjunct_plan.specs.Decided.{asked, is_decided, is_met, rules_out, value_with, verdict_by, verdict_of, verdict_on};
ghost use Rattle.conjunct_plan.specs.Seen.{test_seen};
ghost use Rattle.conjunct_plan.specs.Tests.{conjuncts, conjuncts_of_all, labels_of};

use crate::Test;
use crate::enclosed::{enclosed, enclosed_near};
use crate::planning::requirement;
use crate::probe::{Probe, probe_of};
use crate::verdict::Verdict;
use ad_tree::{Ad, Expr, Exprs, Ports};
use ad_value::is_true_of_literals;
use pool_text::{Lit, Text};
use std::cell::Cell;

/// Whether the test is decided against by a frame of the other side and the frames that enclose it: the attribute that it
/// asks for is absent, or its expression is a literal, and with that the test isn't true. No memory is taken.
pub fn decided(test: &Test, ad: &Ad, frame: u32) -> bool
    requires { frame < length (ad_frames ad.now) }
    ensures { result ≡ is_decided test.now (ad_frames ad.now) frame }
{
    matches!(verdict_by(Probe::of(test), ad, frame), Verdict::Against)
}

/// Whether some test of the requirement of `frame` is decided against by the frame `at` of the other side. The ports are
/// those of the request in whose ad the frame stands, and none for a resource. No memory is taken.
pub fn rules_out(ad: &Ad, frame: u32, ports: &Ports, other: &Ad, at: u32) -> bool
    requires frame { frame < length (ad_frames ad.now) }
    requires at { at < length (ad_frames other.now) }
    ensures { result ≡ rules_out (ad_frames ad.now) frame (labels_of ports.now) (ad_frames other.now) at }
{
    matches!(verdict_of(ad, frame, ports, other, at), Verdict::Against)
}

/// What the tests of the requirement of `frame` say of it by the frame `at` of the other side: `Against` exactly where one
/// is decided against, and else `For` exactly where there is a requirement and each of its conjuncts is a test that is met.
/// The ports are those of the request in whose ad the frame stands, and none for a resource. No memory is taken.
pub fn verdict_of(ad: &Ad, frame: u32, ports: &Ports, other: &Ad, at: u32) -> Verdict
    requires frame { frame < length (ad_frames ad.now) }
    requires at { at < length (ad_frames other.now) }
    ensures { result ≡ verdict_of (ad_frames ad.now) frame (labels_of ports.now) (ad_frames other.now) at }
{
    match requirement(ad, frame) {
        Some(expr) => verdict_on(ad, frame, ports, expr, other, at),
        None => Verdict::Open,
    }
}

// What the tests among the conjuncts of an expression say of it.
#[cycle(ruling)]
fn verdict_on(ad: &Ad, frame: u32, ports: &Ports, expr: &Expr, other: &Ad, at: u32) -> Verdict
    requires frame { frame < length (ad_frames ad.now) }
    requires at { at < length (ad_frames other.now) }
    ensures { result ≡ verdict_on (ad_frames ad.now) frame (labels_of ports.now) (ad_frames other.now) at (conjuncts (tree expr.now)) }
{
    if let Expr::And(items) = expr {
        return verdict_on_all(ad, frame, ports, items, other, at);
    }
    match probe_of(ad, frame, ports, expr) {
        Some(probe) => verdict_by(probe, other, at),
        None => Verdict::Open,
    }
}

#[cycle(ruling)]
fn verdict_on_all(ad: &Ad, frame: u32, ports: &Ports, items: &Exprs, other: &Ad, at: u32) -> Verdict
    requires frame { frame < length (ad_frames ad.now) }
    requires at { at < length (ad_frames other.now) }
    ensures { result ≡ verdict_on (ad_frames ad.now) frame (labels_of ports.now) (ad_frames other.now) at (conjuncts_of_all (pack (trees items.now))) }
{
    let mut met = true;
    for i in 0..items.len() {
        match verdict_on(ad, frame, ports, items.at(i), other, at) {
            Verdict::Against => return Verdict::Against,
            Verdict::For => {}
            Verdict::Open => met = false,
        }
    }
    if met { Verdict::For } else { Verdict::Open }
}

/// What a test says.
pub(crate) fn verdict_by(probe: Probe<'_>, ad: &Ad, frame: u32) -> Verdict
    requires { frame < length (ad_frames ad.now) }
    ensures { result ≡ verdict_by (is_decided (test_seen probe.entry) (ad_frames ad.now) frame) (is_met (test_seen probe.entry) (ad_frames ad.now) frame) }
{
    verdict_with(probe, enclosed(ad, frame, probe.asked().bytes()))
}

/// The same, where the attribute is looked for first at the place `last`, which is then the place where it stands.
pub(crate) fn verdict_near(probe: Probe<'_>, last: &Cell<u32>, ad: &Ad, frame: u32) -> Verdict
    requires { frame < length (ad_frames ad.now) }
    ensures { result ≡ verdict_by (is_decided (test_seen probe.entry) (ad_frames ad.now) frame) (is_met (test_seen probe.entry) (ad_frames ad.now) frame) }
{
    let found = enclosed_near(ad, frame, probe.asked().bytes(), last);
    verdict_with(probe, found)
}

// What a test says where its attribute has this expression, if any.
fn verdict_with(probe: Probe<'_>, found: Option<&Expr>) -> Verdict
    ensures { (other : List Frame) (g : ℕ) → option_map (λ e. tree e.now) found.entry ≡ enclosed_expr other g (asked (test_seen probe.entry))
        → result ≡ verdict_by (is_decided (test_seen probe.entry) other g) (is_met (test_seen probe.entry) other g) }
{
    match found {
        None => decided_by(holds(probe, &Lit::Undefined)),
        Some(Expr::Literal(lit)) => decided_by(holds(probe, lit)),
        Some(_) => Verdict::Open,
    }
}

// What a test says that has a value.
fn decided_by(holds: bool) -> Verdict
    ensures { result ≡ verdict_by (not holds) holds }
{
    if holds {
        Verdict::For
    } else {
        Verdict::Against
    }
}

// Whether the test is true where its attribute is this literal.
fn holds(probe: Probe<'_>, found: &Lit) -> bool
    ensures { result ≡ is_true (value_with (test_seen probe.entry) (plain_of_lit found.now)) }
{
    match probe {
        Probe::Truth(_) => matches!(found, Lit::Boolean(true)),
        Probe::Compare {
            op,
            lit,
            attr_left: true,
            ..
        } => is_true_of_literals(op, found, lit),
        Probe::Compare {
            op,
            lit,
            attr_left: false,
            ..
        } => is_true_of_literals(op, lit, found),
    }
}
