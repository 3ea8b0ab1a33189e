// Slices worked out by hand.
use pie_slices::{Slices, slices, weight};
use std::convert::AsSlice;
use std::process::Abort;
use std::test::Fail;

fn assert_weight(rt: &impl Abort, found: u64, wanted: u64) {
    assert_eq!(rt; found, wanted);
}

#[test]
fn weights_fall_with_the_number(rt: HostRuntime) {
    assert_weight(&rt, weight(1), 1_000_000_000_000);
    assert_weight(&rt, weight(3), 333_333_333_333);
    assert_weight(&rt, weight(1_000_000), 1_000_000);
}

fn assert_slices(rt: &impl Abort, found: &Slices, wanted: &[u64]) {
    assert_eq!(rt; found.as_slice(), wanted);
}

#[test]
fn free_resources_are_shared_by_weight(rt: HostRuntime) -> Result<(), Fail> {
    let apart = slices(
        rt.alloc(),
        10_000,
        &[1_000_000_000_000, 333_333_333_333, 1_000_000],
    )?;
    assert_slices(&rt, &apart, &[7499, 2499, 1]);
    let alike = slices(rt.alloc(), 7, &[5, 5])?;
    assert_slices(&rt, &alike, &[3, 3]);
    let none = slices(rt.alloc(), 0, &[7])?;
    assert_slices(&rt, &none, &[1]);
    Ok(())
}
