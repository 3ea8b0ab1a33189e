// The tests of a requirement.
ghost use Rattle.std.specs.Prelude.{◌≡◌, ◌<◌, ◌++◌, length, map, IfOk, OnOk};
ghost use Rattle.std.specs.List.{filter_map, flat_map};
ghost use Rattle.std.specs.Option.{option_map};
ghost use Rattle.ad_tree.specs.Ad.{ad_frames};
ghost use Rattle.ad_tree.specs.Tree.{pack, tree, trees};
ghost use Rattle.conjunct_plan.specs.Tests.{conjuncts, conjuncts_of_all, labels_of, requirement_expr, test_of, tests_of};

use crate::Tests;
use crate::probe::probe_of;
use ad_tree::{Ad, Expr, Exprs, Ports};
use pool_text::OutOfMemory;
use std::alloc::Global;

/// The tests of the requirement of a frame, in the order of its conjuncts; none where the frame has no requirement. The
/// ports are those of the request in whose ad the frame stands, and none for a resource.
pub fn plan(alloc: Global, ad: &Ad, frame: u32, ports: &Ports) -> Result<Tests, OutOfMemory>
    requires { frame < length (ad_frames ad.now) }
    ensures { IfOk result (λ tests. tests ≡ tests_of (ad_frames ad.now) frame (labels_of ports.now)) }
{
    let mut tests = Tests::new(alloc);
    if let Some(expr) = requirement(ad, frame) {
        add_tests(ad, frame, ports, expr, &mut tests)?;
    }
    Ok(tests)
}

/// The expression of a frame's requirement: its `Requirements`, or its `Constraint` where it has none.
pub fn requirement<'a>(ad: &'a Ad, frame: u32) -> Option<&'a Expr>
    requires { frame < length (ad_frames ad.now) }
    ensures { option_map (λ e. tree e.now) result ≡ requirement_expr (ad_frames ad.now) frame }
{
    let attr = ad.requirement(frame)?;
    Some(ad.expr(frame, attr))
}

// Adds the tests among the conjuncts of an expression.
#[cycle(adding)]
fn add_tests(
    ad: &Ad,
    frame: u32,
    ports: &Ports,
    expr: &Expr,
    tests: &mut Tests,
) -> Result<(), OutOfMemory>
    requires { frame < length (ad_frames ad.now) }
    ensures { OnOk result (tests.new ≡ tests.old
        ++ filter_map (test_of (ad_frames ad.now) frame (labels_of ports.now)) (conjuncts (tree expr.now))) }
{
    if let Expr::And(items) = expr {
        return add_all(ad, frame, ports, items, tests);
    }
    if let Some(probe) = probe_of(ad, frame, ports, expr) {
        tests.push(probe.to_test()?)?;
    }
    Ok(())
}

#[cycle(adding)]
fn add_all(
    ad: &Ad,
    frame: u32,
    ports: &Ports,
    items: &Exprs,
    tests: &mut Tests,
) -> Result<(), OutOfMemory>
    requires { frame < length (ad_frames ad.now) }
    ensures { OnOk result (tests.new ≡ tests.old
        ++ filter_map (test_of (ad_frames ad.now) frame (labels_of ports.now)) (conjuncts_of_all (pack (trees items.now)))) }
{
    for i in 0..items.len() {
        add_tests(ad, frame, ports, items.at(i), tests)?;
    }
    Ok(())
}
