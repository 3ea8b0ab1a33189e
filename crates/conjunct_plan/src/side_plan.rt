// The tests of a requirement, found once for many ads on the other side.
ghost use Rattle.std.specs.Prelude.{◌≡◌, ◌<◌, length, map, ℕ, List, IfOk};
ghost use Rattle.ad_tree.specs.Ad.{ad_frames};
ghost use Rattle.ad_tree.specs.Frames.{Frame};
ghost use Rattle.ad_tree.specs.Tree.{tree};
ghost use Rattle.conjunct_plan.specs.Decided.{is_decided, is_met, verdict_by, verdict_of};
ghost use Rattle.conjunct_plan.specs.Planned.{ArePlanned, IsPlanOf, verdict_by_all};
ghost use Rattle.conjunct_plan.specs.Seen.{test_seen};
ghost use Rattle.conjunct_plan.specs.Tests.{conjuncts, labels_of};

use crate::gathering::conjuncts_of;
use crate::planning::requirement;
use crate::probe::{Probe, probe_of};
use crate::ruling::{verdict_by, verdict_near};
use crate::verdict::Verdict;
use ad_tree::{Ad, Expr, Ports};
use pool_text::OutOfMemory;
use std::alloc::Global;
use std::cell::Cell;

/// The tests of the requirement of one side, found once for all that may stand on the other side. They stay in its ad.
#[derive(Drop)]
pub struct SidePlan<'a> {
    tests: Vec<Probe<'a>>,
    // Where the attribute of each test was found last in an ad of the other side.
    places: Vec<Cell<u32>>,
    is_whole: bool,
}

impl<'a> SidePlan<'a> {
    /// The plan of a frame. The ports are those of the request in whose ad it stands, and none for a resource.
    pub fn of(
        alloc: Global,
        ad: &'a Ad,
        frame: u32,
        ports: &Ports,
    ) -> Result<SidePlan<'a>, OutOfMemory>
        requires { frame < length (ad_frames ad.now) }
        ensures { IfOk result (λ plan. IsPlanOf plan (ad_frames ad.now) frame (labels_of ports.now)) }
    {
        match requirement(ad, frame) {
            Some(expr) => plan_of(alloc, ad, frame, ports, expr),
            None => Ok(SidePlan {
                tests: Vec::new(alloc),
                places: Vec::new(alloc),
                is_whole: false,
            }),
        }
    }

    /// What the tests say of the requirement by the frame `at` of the other side, as `verdict_of` has it. No memory is taken.
    pub fn verdict(&self, other: &Ad, at: u32) -> Verdict
        requires { at < length (ad_frames other.now) }
        ensures { (fs : List Frame) (f : ℕ) (labels : List (List ℕ)) → IsPlanOf self.now fs f labels
            → result ≡ verdict_of fs f labels (ad_frames other.now) at }
    {
        verdict_by_all(&self.tests, &self.places, self.is_whole, other, at)
    }
}

// What tests say, where `met` tells whether all that stands beside them is met.
fn verdict_by_all(
    tests: &[Probe<'_>],
    places: &[Cell<u32>],
    met: bool,
    other: &Ad,
    at: u32,
) -> Verdict
    requires { at < length (ad_frames other.now) }
    ensures { result ≡ verdict_by_all (ad_frames other.now) at met (map test_seen tests.now) }
{
    let mut met = met;
    for i in 0..tests.len() {
        match verdict_at(tests[i], places, i, other, at) {
            Verdict::Against => return Verdict::Against,
            Verdict::For => {}
            Verdict::Open => met = false,
        }
    }
    if met { Verdict::For } else { Verdict::Open }
}

// What the test says whose attribute is looked for first at the place of this number.
fn verdict_at(test: Probe<'_>, places: &[Cell<u32>], i: usize, other: &Ad, at: u32) -> Verdict
    requires { at < length (ad_frames other.now) }
    ensures { result ≡ verdict_by (is_decided (test_seen test.entry) (ad_frames other.now) at) (is_met (test_seen test.entry) (ad_frames other.now) at) }
{
    match places.get(i) {
        Some(last) => verdict_near(test, last, other, at),
        None => verdict_by(test, other, at),
    }
}

// The plan of a frame whose requirement is this expression.
fn plan_of<'a>(
    alloc: Global,
    ad: &'a Ad,
    frame: u32,
    ports: &Ports,
    expr: &'a Expr,
) -> Result<SidePlan<'a>, OutOfMemory>
    requires { frame < length (ad_frames ad.now) }
    ensures { IfOk result (λ plan. ArePlanned plan (ad_frames ad.now) frame (labels_of ports.now) (conjuncts (tree expr.now))) }
{
    let conjuncts = conjuncts_of(alloc, expr)?;
    let mut tests = Vec::new(alloc);
    let mut places = Vec::new(alloc);
    let mut is_whole = true;
    for i in 0..conjuncts.len() {
        match probe_of(ad, frame, ports, conjuncts[i]) {
            Some(probe) => {
                tests.push(probe)?;
                places.push(Cell::new(0))?;
            }
            None => is_whole = false,
        }
    }
    Ok(SidePlan {
        tests,
        places,
        is_whole,
    })
}
