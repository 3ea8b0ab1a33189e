// The slots that an index leaves, and their number.
use crate::plans::tests_of;
use ad_parser::parse_ad;
use conjunct_plan::{Test, Tests};
use literal_index::*;
use pool_text::OutOfMemory;
use std::alloc::Global;
use std::convert::AsSlice;
use std::process::Abort;
use std::test::Fail;

/// Ads in the slots 0, 2, 4 ..
const ADS: [&'static [u8]; 8] = [
    b"[ A = 7 ]",
    b"[ a = 6 ]",
    b"[ B = 7 ]",
    b"[ A = 1 + 1 ]",
    b"[ A = \"7\" ]",
    b"[ A = true ]",
    b"[ A = undefined ]",
    b"[ A = 8; B = 6 ]",
];

fn ad_to(index: &mut Index, alloc: Global, i: usize) -> Result<(), Fail> {
    if i < ADS.len() {
        index.add(2 * i, &parse_ad(alloc, ADS[i])?)?;
    }
    Ok(())
}

fn indexed(alloc: Global) -> Result<Index, Fail> {
    let mut index = Index::new(alloc);
    for i in 0..ADS.len() {
        ad_to(&mut index, alloc, i)?;
    }
    index.settle()?;
    Ok(index)
}

fn tests(rt: &impl Abort, alloc: Global, request: &[u8]) -> Result<Tests, Fail> {
    assert!(rt; request.len() < 1000);
    let request = parse_ad(alloc, request)?;
    Ok(tests_of(rt, alloc, &request)?)
}

fn assert_hits(
    rt: &impl Abort,
    index: &Index,
    test: &Test,
    wanted: &[usize],
) -> Result<(), OutOfMemory> {
    let hits = index.hits(test)?;
    assert_eq!(rt; hits.as_slice(), wanted);
    assert_eq!(rt; index.count(test), wanted.len());
    assert_eq!(rt; index.count_within(test, 2), wanted.len().min(2));
    Ok(())
}

fn assert_hits_of_both(
    rt: &impl Abort,
    index: &Index,
    first: &Test,
    second: &Test,
    wanted: &[usize],
) -> Result<(), OutOfMemory> {
    assert!(rt; is_pair(first, second));
    let hits = index.hits_of_both(first, second)?;
    assert_eq!(rt; hits.as_slice(), wanted);
    assert_eq!(rt;
        index.count_both_within(first, second, 1),
        wanted.len().min(1)
    );
    assert_eq!(rt; index.count_both_within(first, second, 9), wanted.len());
    Ok(())
}

// What is no literal may pass, and so may an absent attribute where the test is true of Undefined.
#[test]
fn literals_that_fail_are_left_out(rt: HostRuntime) -> Result<(), Fail> {
    let index = indexed(rt.alloc())?;
    let request = b"[ Requirements = TARGET.A >= 7 && 7 isnt TARGET.A && TARGET.A ]";
    let tests = tests(&rt, rt.alloc(), request)?;
    assert!(rt; tests.len() == 3);
    assert_hits(&rt, &index, tests.at(0), &[0, 6, 14])?;
    assert_hits(&rt, &index, tests.at(1), &[2, 4, 6, 8, 10, 12, 14])?;
    assert_hits(&rt, &index, tests.at(2), &[6, 10])?;
    Ok(())
}

#[test]
fn a_range_leaves_what_both_its_ends_leave(rt: HostRuntime) -> Result<(), Fail> {
    let index = indexed(rt.alloc())?;
    let request =
        b"[ Requirements = TARGET.A > 6 && 7 >= TARGET.a && TARGET.A < 6 && TARGET.A isnt 7 ]";
    let tests = tests(&rt, rt.alloc(), request)?;
    assert!(rt; tests.len() == 4);
    assert_hits_of_both(&rt, &index, tests.at(0), tests.at(1), &[0, 6])?;
    assert_hits_of_both(&rt, &index, tests.at(1), tests.at(2), &[6, 10])?;
    assert_hits_of_both(&rt, &index, tests.at(0), tests.at(2), &[6])?;
    assert!(rt; !is_pair(tests.at(2), tests.at(3)));
    Ok(())
}

#[test]
fn an_ad_that_is_removed_is_left_out(rt: HostRuntime) -> Result<(), Fail> {
    let mut index = indexed(rt.alloc())?;
    let tests = tests(&rt, rt.alloc(), b"[ Requirements = TARGET.A >= 7 ]")?;
    assert!(rt; tests.len() == 1);
    index.remove(14, &parse_ad(rt.alloc(), b"[ A = 8; B = 6 ]")?);
    assert_hits(&rt, &index, tests.at(0), &[0, 6])?;
    Ok(())
}

#[test]
fn an_ad_that_waits_is_found_once_it_is_settled(rt: HostRuntime) -> Result<(), Fail> {
    let mut index = indexed(rt.alloc())?;
    let tests = tests(&rt, rt.alloc(), b"[ Requirements = TARGET.A >= 7 ]")?;
    assert!(rt; tests.len() == 1);
    let (kept, removed) = (
        parse_ad(rt.alloc(), b"[ A = 9 ]")?,
        parse_ad(rt.alloc(), b"[ A = 7 ]")?,
    );
    index.add(20, &kept)?;
    index.add(22, &removed)?;
    index.remove(22, &removed);
    assert_hits(&rt, &index, tests.at(0), &[0, 6, 14])?;
    index.settle()?;
    assert_hits(&rt, &index, tests.at(0), &[0, 6, 14, 20])?;
    Ok(())
}
