// What is remembered of tests, since jobs often have the same ones.
ghost use Rattle.std.specs.Prelude.{◌≡◌, ◌≤◌, ◌<◌, List, [], Some, All, IfOk, IfSome, IsTrue, length, slice_get};
ghost use Rattle.ad_store.specs.Stock.{Advert};
ghost use Rattle.ad_candidates.specs.Counts.{left_by};
ghost use Rattle.ad_candidates.specs.KnownTests.{ArePlaces, ArePlacesOfOne, AreTestsKnown, BoundsAsClosely, with_room};

use ad_tree::{copy_literal, same_literal};
use conjunct_plan::{Test, Tests};
use pool_text::{BinOp, Lit, OutOfMemory, Slots, same_binary};
use std::alloc::Global;
use std::convert::AsSlice;

// So many tests are remembered of each kind. When there are as many, the oldest gives way.
const TESTS_LIMIT: usize = 64;

/// A test with a number of ads that it leaves at least.
#[derive(Drop)]
pub struct Counted {
    pub test: Test,
    pub least: usize,
}

/// A test with the places of the ads that it leaves.
#[derive(Drop)]
pub struct Listed {
    pub test: Test,
    pub places: Slots,
}

/// What is known of the ads that tests leave, for few tests.
#[derive(Drop)]
pub struct KnownTests {
    counted: Vec<Counted>,
    listed: Vec<Listed>,
}

impl KnownTests {
    /// Nothing is known yet. It takes no memory.
    pub fn new(alloc: Global) -> KnownTests
        ensures { (ads : List Advert) → AreTestsKnown ads result }
    {
        KnownTests {
            counted: Vec::new(alloc),
            listed: Vec::new(alloc),
        }
    }

    /// Whether the test is known to leave no fewer ads than so many: it is counted, or one that leaves no ad but such as it leaves.
    pub(crate) fn leaves(&self, test: &Test, many: usize) -> bool
        ensures { IsTrue result → (ads : List Advert) → AreTestsKnown ads self.now → many ≤ left_by ads test.now }
    {
        for k in 0..self.counted.len() {
            let counted = &self.counted[k];
            if counted.least >= many && is_as_strict(&counted.test, test) {
                return true;
            }
        }
        false
    }

    /// Of the lists of places that one of the tests leaves the shortest, where one is known that is shorter than this.
    pub(crate) fn fewest(&self, tests: &Tests, most: usize) -> Option<&Slots>
        ensures few { IfSome result (λ places. length places.now < most) }
        ensures places { IfSome result (λ places. (ads : List Advert) → AreTestsKnown ads self.now → ArePlacesOfOne ads tests.now places.now) }
    {
        let mut least = most;
        let mut fewest = None;
        for test in tests.as_slice() {
            match self.places_left(test) {
                Some(places) if places.len() < least => {
                    least = places.len();
                    fewest = Some(places);
                }
                _ => {}
            }
        }
        fewest
    }

    // The places of the ads that a test leaves, if they are listed.
    fn places_left(&self, test: &Test) -> Option<&Slots>
        ensures { IfSome result (λ places. (ads : List Advert) → AreTestsKnown ads self.now → ArePlaces ads test.now places.now) }
    {
        for k in 0..self.listed.len() {
            if same_test(&self.listed[k].test, test) {
                return Some(&self.listed[k].places);
            }
        }
        None
    }

    /// Notes of tests that each leaves so many ads at least.
    pub(crate) fn note_least(&mut self, tests: &Tests, least: usize) -> Result<(), OutOfMemory>
        ensures { (ads : List Advert) → AreTestsKnown ads self.old → All (λ test. least ≤ left_by ads test) tests.now → AreTestsKnown ads self.new }
    {
        for test in tests.as_slice() {
            if !self.leaves(test, least) {
                self.note(test, least)?;
            }
        }
        Ok(())
    }

    // Notes that a test leaves so many ads at least, in place of what was noted of it.
    fn note(&mut self, test: &Test, least: usize) -> Result<(), OutOfMemory>
        ensures { (ads : List Advert) → AreTestsKnown ads self.old → least ≤ left_by ads test.now → AreTestsKnown ads self.new }
    {
        if let Some(k) = self.place_counted(test) {
            self.counted[k].least = least;
            return Ok(());
        }
        let test = copy_of_test(test)?;
        make_room(&mut self.counted);
        self.counted.push(Counted { test, least })?;
        Ok(())
    }

    // Where it is noted how many ads a test leaves.
    fn place_counted(&self, test: &Test) -> Option<usize>
        ensures within { IfSome result (λ k. k < length self.now.counted.items) }
        ensures same { IfSome result (λ k. (counted : Counted) → slice_get self.now.counted.items k ≡ Some counted → counted.test ≡ test.now) }
    {
        for k in 0..self.counted.len() {
            if same_test(&self.counted[k].test, test) {
                return Some(k);
            }
        }
        None
    }

    /// Lists the places of the ads that a test leaves.
    pub(crate) fn list(
        &mut self,
        alloc: Global,
        test: &Test,
        places: &Slots,
    ) -> Result<(), OutOfMemory>
        ensures { (ads : List Advert) → AreTestsKnown ads self.old → ArePlaces ads test.now places.now → AreTestsKnown ads self.new }
    {
        let test = copy_of_test(test)?;
        let places = copy_of_places(alloc, places)?;
        make_room(&mut self.listed);
        self.listed.push(Listed { test, places })?;
        Ok(())
    }
}

// Takes the oldest item out of a list that is full.
fn make_room<T: Drop>(items: &mut Vec<T>)
    ensures { items.new.items ≡ with_room items.old.items }
{
    if items.len() >= TESTS_LIMIT {
        items.remove(0);
    }
}

// Whether a test leaves no ad that another doesn't leave, as is told at a glance: they are the same, or bound one attribute by
// whole numbers on one side, and the first bounds it as closely.
fn is_as_strict(test: &Test, other: &Test) -> bool
    ensures { IsTrue result → (ads : List Advert) → left_by ads test.now ≤ left_by ads other.now }
{
    match (test, other) {
        (
            Test::Compare {
                name: x,
                op: p,
                lit: Lit::Integer(m),
                attr_left: s,
            },
            Test::Compare {
                name: y,
                op: q,
                lit: Lit::Integer(n),
                attr_left: t,
            },
        ) => {
            if s != t || !same_binary(p, q) || x != y {
                return false;
            }
            bounds_as_closely(*p, *s, *m, *n)
        }
        _ => same_test(test, other),
    }
}

// Whether an attribute beside the number m, on the left or on the right of the operator, makes it true only where it does beside n.
fn bounds_as_closely(op: BinOp, attr_left: bool, m: i64, n: i64) -> bool
    ensures { IsTrue result → BoundsAsClosely op attr_left m n }
{
    match (op, attr_left) {
        (BinOp::Greater | BinOp::AtLeast, true) | (BinOp::Less | BinOp::AtMost, false) => m >= n,
        (BinOp::Less | BinOp::AtMost, true) | (BinOp::Greater | BinOp::AtLeast, false) => m <= n,
        _ => m == n,
    }
}

// Whether two tests are the same. Their names have to be spelled alike, though tests ignore case.
fn same_test(a: &Test, b: &Test) -> bool
    ensures { IsTrue result → a.now ≡ b.now }
{
    match (a, b) {
        (Test::Truth { name: x }, Test::Truth { name: y }) => x == y,
        (
            Test::Compare {
                name: x,
                op: p,
                lit: l,
                attr_left: s,
            },
            Test::Compare {
                name: y,
                op: q,
                lit: m,
                attr_left: t,
            },
        ) => s == t && same_binary(p, q) && same_literal(l, m) && x == y,
        _ => false,
    }
}

// A second test that is the same.
fn copy_of_test(test: &Test) -> Result<Test, OutOfMemory>
    ensures { IfOk result (λ copy. copy ≡ test.now) }
{
    match test {
        Test::Truth { name } => Ok(Test::Truth { name: name.copy()? }),
        Test::Compare {
            name,
            op,
            lit,
            attr_left,
        } => Ok(Test::Compare {
            name: name.copy()?,
            op: *op,
            lit: copy_literal(lit)?,
            attr_left: *attr_left,
        }),
    }
}

/// A second list of the same places.
pub(crate) fn copy_of_places(alloc: Global, places: &Slots) -> Result<Slots, OutOfMemory>
    ensures { IfOk result (λ copy. copy ≡ places.now) }
{
    let mut copy = Slots::new(alloc);
    for place in places.as_slice() {
        copy.push(*place)?;
    }
    Ok(copy)
}
