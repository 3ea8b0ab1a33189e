// Which ads a query looks at: those that its narrowest test leaves, or two tests of one attribute together.
ghost use Rattle.std.specs.Prelude.{◌≡◌, ◌<◌, ◌≤◌, [], List, length, min, slice_get, map, All, IfOk, IfNone, IfSome, IsTrue, MatchOption, Some, Contains};
ghost use Rattle.std.specs.List.{range_with_len};
ghost use Rattle.std.specs.Option.{option_map_or};
ghost use Rattle.std.specs.List.Sorted.{IsPermutation};
ghost use Rattle.ad_tree.specs.Ad.{ad_frames};
ghost use Rattle.ad_store.specs.Stock.{Advert, Stock};
ghost use Rattle.ad_store.specs.Store.{stock_of};
ghost use Rattle.literal_index.specs.Rows.{Row};
ghost use Rattle.literal_index.specs.Shown.{IsIndex};
ghost use Rattle.conjunct_plan.specs.Tests.{labels_of};
ghost use Rattle.ad_candidates.specs.Candidates.{AreAmong, AreCandidates, AreCandidatesAt, AreFewForPairs, AreOfTests, ArePlacesLeft, better, better_pair};
ghost use Rattle.ad_candidates.specs.Candidates.{is_paired, slots_left};
ghost use Rattle.ad_candidates.specs.Counts.{least_left, least_within};
ghost use Rattle.ad_candidates.specs.KnownTests.{AreTestsKnown};
ghost use Rattle.ad_candidates.specs.Rows.{rows_of};

use crate::known_tests::{KnownTests, copy_of_places};
use ad_store::Store;
use ad_tree::Request;
use conjunct_plan::{Test, Tests, plan};
use literal_index::{Index, is_pair};
use pool_text::{OutOfMemory, Slots};
use std::alloc::Global;
use std::convert::AsSlice;

// Tests are counted up to each of these limits in turn, so that a test that leaves many ads costs no more than a narrow one.
const LIMITS: [usize; 4] = [16, 64, 256, 1024];

/// The places of the ads to look at for a request without ports, in any order. The dock of any other ad with it is decided, and
/// they are no more than the narrowest test of its requirement leaves.
pub fn candidates(
    alloc: Global,
    store: &Store,
    index: &Index,
    request: &Request,
) -> Result<Slots, OutOfMemory>
    requires index { IsIndex index.now (rows_of (stock_of store.now)) }
    requires single { request.now.ports ≡ [] }
    ensures places { IfOk result (AreCandidates (ad_frames request.now.ad) (stock_of store.now).ads) }
    ensures held { IfOk result (All (λ place. place < length (stock_of store.now).slots)) }
{
    candidates_at(alloc, store, index, request, 0)
}

/// The places of the ads to look at for a frame of a request, in any order. The dock of any other ad with the frame is
/// decided, and they are no more than the narrowest test of the frame's requirement leaves.
pub fn candidates_at(
    alloc: Global,
    store: &Store,
    index: &Index,
    request: &Request,
    frame: u32,
) -> Result<Slots, OutOfMemory>
    requires index { IsIndex index.now (rows_of (stock_of store.now)) }
    requires frame { frame < length (ad_frames request.now.ad) }
    ensures places { IfOk result (AreCandidatesAt (ad_frames request.now.ad) frame (labels_of request.now.ports) (stock_of store.now).ads) }
    ensures held { IfOk result (All (λ place. place < length (stock_of store.now).slots)) }
{
    let count = store.len();
    let tests = plan(alloc, &request.ad, frame, &request.ports)?;
    let known = KnownTests::new(alloc);
    let Some(lookup) = narrowest(store, index, &tests, &known, count) else {
        return Ok(all_places(alloc, count)?);
    };
    Ok(lookup.places(alloc, store, index)?)
}

/// The places of the ads to look at, as `candidates` has them, found with what is known of tests: a test that is known to leave
/// as many ads as another isn't counted, and the places of what is left aren't listed again. What is found is noted.
pub fn candidates_knowing(
    alloc: Global,
    store: &Store,
    index: &Index,
    request: &Request,
    known: &mut KnownTests,
) -> Result<Slots, OutOfMemory>
    requires index { IsIndex index.now (rows_of (stock_of store.now)) }
    requires single { request.now.ports ≡ [] }
    requires known { AreTestsKnown (stock_of store.now).ads known.old }
    ensures known { AreTestsKnown (stock_of store.now).ads known.new }
    ensures places { IfOk result (AreCandidates (ad_frames request.now.ad) (stock_of store.now).ads) }
    ensures held { IfOk result (All (λ place. place < length (stock_of store.now).slots)) }
{
    // The length comes with the fact that each ad has a slot.
    let _len = store.len();
    let tests = plan(alloc, &request.ad, 0, &request.ports)?;
    let places = places_knowing(alloc, store, index, &tests, known)?;
    known.note_least(&tests, places.len())?;
    Ok(places)
}

// The places of the ads that one of the tests leaves, or a pair of them: no more than any test leaves.
fn places_knowing(
    alloc: Global,
    store: &Store,
    index: &Index,
    tests: &Tests,
    known: &mut KnownTests,
) -> Result<Slots, OutOfMemory>
    requires index { IsIndex index.now (rows_of (stock_of store.now)) }
    requires known { AreTestsKnown (stock_of store.now).ads known.old }
    ensures known { AreTestsKnown (stock_of store.now).ads known.new }
    ensures places { IfOk result (AreOfTests (stock_of store.now).ads tests.now) }
{
    let count = store.len();
    let listed = known.fewest(tests, count);
    let Some(lookup) = narrowest(store, index, tests, known, many(listed, count)) else {
        return Ok(listed_or_all(alloc, listed, count)?);
    };
    let places = lookup.places(alloc, store, index)?;
    lookup.list(alloc, known, &places)?;
    Ok(places)
}

// How many places are listed; all where none are.
fn many(listed: Option<&Slots>, count: usize) -> usize
    ensures { result ≡ option_map_or (λ places. length places.now) listed.entry count }
{
    match listed {
        Some(places) => places.len(),
        None => count,
    }
}

// The places that are listed; all where none are.
fn listed_or_all(alloc: Global, listed: Option<&Slots>, count: usize) -> Result<Slots, OutOfMemory>
    ensures { IfOk result (λ places. places ≡ option_map_or (λ places. places.now) listed.entry (range_with_len 0 count)) }
{
    match listed {
        Some(places) => copy_of_places(alloc, places),
        None => all_places(alloc, count),
    }
}

// What the index is asked for: the ads that one test leaves, or that both tests of a pair leave.
#[derive(Clone, Copy)]
enum Lookup<'a> {
    One(&'a Test),
    Both(&'a Test, &'a Test),
}

impl Lookup<'_> {
    // The slots of the ads that are left.
    fn hits(self, index: &Index) -> Result<Slots, OutOfMemory>
        requires { IsTrue (is_paired self) }
        ensures { IfOk result (λ slots. (rows : List Row) → IsIndex index.now rows → IsPermutation (slots_left self.entry rows) slots) }
    {
        match self {
            Lookup::One(test) => index.hits(test),
            Lookup::Both(first, second) => index.hits_of_both(first, second),
        }
    }

    // The places of the ads that are left.
    fn places(self, alloc: Global, store: &Store, index: &Index) -> Result<Slots, OutOfMemory>
        requires paired { IsTrue (is_paired self) }
        requires index { IsIndex index.now (rows_of (stock_of store.now)) }
        ensures { IfOk result (ArePlacesLeft (stock_of store.now).ads self.entry) }
    {
        let _len = store.len();
        store.slots_are_apart();
        let slots = self.hits(index)?;
        Ok(places_of(alloc, store, &slots)?)
    }

    // Remembers the places of the ads that are left, where they are those that one test leaves.
    fn list(self, alloc: Global, known: &mut KnownTests, places: &Slots) -> Result<(), OutOfMemory>
        ensures { (ads : List Advert) → AreTestsKnown ads known.old → ArePlacesLeft ads self.entry places.now → AreTestsKnown ads known.new }
    {
        match self {
            Lookup::One(test) => known.list(alloc, test, places),
            Lookup::Both(..) => Ok(()),
        }
    }

    // How many they are, or the most that is asked for where it is more.
    fn count_within(&self, index: &Index, most: usize) -> usize
        requires { IsTrue (is_paired self.now) }
        ensures { (rows : List Row) → IsIndex index.now rows → result ≡ min (length (slots_left self.now rows)) most }
    {
        match self {
            Lookup::One(test) => index.count_within(test, most),
            Lookup::Both(first, second) => index.count_both_within(first, second, most),
        }
    }
}

// The look-up that leaves the fewest ads so far, and how many it leaves; none where each leaves the most that counts.
#[derive(Clone, Copy)]
struct Best<'a> {
    lookup: Option<Lookup<'a>>,
    left: usize,
}

impl<'a> Best<'a> {
    // Another look-up in its place, where that leaves fewer ads.
    fn or(self, index: &Index, lookup: Lookup<'a>) -> Best<'a>
        requires { IsTrue (is_paired lookup) }
        ensures { (rows : List Row) → IsIndex index.now rows → result ≡ better rows self.entry lookup.entry }
    {
        let left = lookup.count_within(index, self.left);
        if left < self.left {
            return Best {
                lookup: Some(lookup),
                left,
            };
        }
        self
    }

    // A test in its place, where that leaves fewer ads: it isn't counted where it is known that it doesn't.
    fn or_test(self, index: &Index, known: &KnownTests, test: &'a Test) -> Best<'a>
        ensures { (stock : Stock) → length stock.ads ≡ length stock.slots → IsIndex index.now (rows_of stock) → AreTestsKnown stock.ads known.now
            → result ≡ better (rows_of stock) self.entry (Lookup.One test.entry) }
    {
        if known.leaves(test, self.left) {
            return self;
        }
        self.or(index, Lookup::One(test))
    }

    // A test and the one before it in its place, where they are a pair and leave fewer ads.
    fn or_pair(self, index: &Index, before: Option<&'a Test>, test: &'a Test) -> Best<'a>
        ensures { (rows : List Row) → IsIndex index.now rows → result ≡ better_pair rows self.entry before.entry test.entry }
    {
        match before {
            Some(before) if is_pair(before, test) => self.or(index, Lookup::Both(before, test)),
            _ => self,
        }
    }
}

// A look-up that leaves fewer ads than so many, no more than any test, and no more than any two neighbours that are a
// pair; none where none leaves fewer.
fn narrowest<'a>(
    store: &Store,
    index: &Index,
    tests: &'a Tests,
    known: &KnownTests,
    all: usize,
) -> Option<Lookup<'a>>
    requires index { IsIndex index.now (rows_of (stock_of store.now)) }
    requires known { AreTestsKnown (stock_of store.now).ads known.now }
    requires all { all ≤ length (stock_of store.now).ads }
    ensures among { IfSome result (AreAmong tests.now) }
    ensures paired { IfSome result (λ lookup. IsTrue (is_paired lookup)) }
    ensures few { IfSome result (λ lookup. length (slots_left lookup (rows_of (stock_of store.now))) ≤ least_left (stock_of store.now).ads tests.now) }
    ensures pairs { IfSome result (λ lookup. AreFewForPairs (rows_of (stock_of store.now)) tests.now
        (length (slots_left lookup (rows_of (stock_of store.now))))) }
    ensures all { IfNone result (all ≡ least_within all (stock_of store.now).ads tests.now) }
{
    for most in LIMITS {
        if most < all {
            let found = narrowest_within(store, index, tests, known, most);
            if found.is_some() {
                return found;
            }
        }
    }
    narrowest_within(store, index, tests, known, all)
}

// The look-up that leaves the fewest ads, where some leaves fewer than so many: one test, or two neighbours that are a
// pair. The two ends of a range are most often written side by side, and so the work stays linear in the tests.
fn narrowest_within<'a>(
    store: &Store,
    index: &Index,
    tests: &'a Tests,
    known: &KnownTests,
    most: usize,
) -> Option<Lookup<'a>>
    requires index { IsIndex index.now (rows_of (stock_of store.now)) }
    requires known { AreTestsKnown (stock_of store.now).ads known.now }
    ensures among { IfSome result (AreAmong tests.now) }
    ensures paired { IfSome result (λ lookup. IsTrue (is_paired lookup)) }
    ensures few { IfSome result (λ lookup. length (slots_left lookup (rows_of (stock_of store.now))) ≤ least_within most (stock_of store.now).ads tests.now) }
    ensures pairs { MatchOption result (AreFewForPairs (rows_of (stock_of store.now)) tests.now most)
        (λ lookup. AreFewForPairs (rows_of (stock_of store.now)) tests.now (length (slots_left lookup (rows_of (stock_of store.now))))) }
    ensures all { IfNone result (most ≡ least_within most (stock_of store.now).ads tests.now) }
{
    // The length comes with the fact that each ad has a slot.
    let _len = store.len();
    let mut best = Best {
        lookup: None,
        left: most,
    };
    let mut before = None;
    for test in tests.as_slice() {
        best = best
            .or_test(index, known, test)
            .or_pair(index, before, test);
        before = Some(test);
    }
    best.lookup
}

// The places of the ads in these slots. No two ads have one slot.
fn places_of(alloc: Global, store: &Store, slots: &Slots) -> Result<Slots, OutOfMemory>
    requires { All (Contains (stock_of store.now).slots) slots.now }
    ensures { IfOk result (λ places. map (slice_get (stock_of store.now).slots) places ≡ map Some slots.now) }
{
    let mut places = Slots::new(alloc);
    for slot in slots.as_slice() {
        places.push(store.place(*slot))?;
    }
    Ok(places)
}

// All places below a number.
fn all_places(alloc: Global, count: usize) -> Result<Slots, OutOfMemory>
    ensures { IfOk result (λ places. places ≡ range_with_len 0 count) }
{
    let mut places = Slots::new(alloc);
    for place in 0..count {
        places.push(place)?;
    }
    Ok(places)
}
