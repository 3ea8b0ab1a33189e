// The tests of a requirement, and what decides them.
use ad_parser::parse_ad;
use ad_tree::{Ad, Ports};
use conjunct_plan::*;
use pool_text::OutOfMemory;
use std::alloc::Global;
use std::process::Abort;
use std::test::Fail;

const REQUEST: &[u8] =
    b"[ Least = 64; Requirements = Arch && (TARGET.Memory >= least && 3 > TARGET.Load && TARGET.Memory + 1) ]";

const MACHINE: &[u8] = b"[ memory = 128; Load = 1 + 1 ]";

/// The tests of an ad's requirement.
pub(crate) fn tests_of(rt: &impl Abort, alloc: Global, ad: &Ad) -> Result<Tests, OutOfMemory> {
    assert!(rt; ad.frames() > 0);
    plan(alloc, ad, 0, &Ports::new(alloc))
}

fn assert_decided(rt: &impl Abort, tests: &Tests, i: usize, machine: &Ad, wanted: bool) {
    assert!(rt; i < tests.len());
    assert!(rt; machine.frames() > 0);
    assert!(rt; decided(tests.at(i), machine, 0) == wanted, "{i}");
}

// Arch is absent, 128 is at least 64, an attribute that is no literal decides nothing, and the last conjunct is no test.
#[test]
fn tests_are_found_and_decided(rt: HostRuntime) -> Result<(), Fail> {
    let request = parse_ad(rt.alloc(), REQUEST)?;
    let machine = parse_ad(rt.alloc(), MACHINE)?;
    let tests = tests_of(&rt, rt.alloc(), &request)?;
    assert!(rt; tests.len() == 3);
    assert_decided(&rt, &tests, 0, &machine, true);
    assert_decided(&rt, &tests, 1, &machine, false);
    assert_decided(&rt, &tests, 2, &machine, false);
    Ok(())
}

fn assert_ruled_out(rt: &impl Abort, request: &Ad, ports: &Ports, machine: &Ad, wanted: bool) {
    assert!(rt; request.frames() > 0);
    assert!(rt; machine.frames() > 0);
    assert!(rt; rules_out(request, 0, ports, machine, 0) == wanted);
}

#[test]
fn a_machine_is_ruled_out(rt: HostRuntime) -> Result<(), Fail> {
    let request = parse_ad(rt.alloc(), REQUEST)?;
    let ports = Ports::new(rt.alloc());
    assert_ruled_out(&rt, &request, &ports, &parse_ad(rt.alloc(), MACHINE)?, true);
    let intel = parse_ad(rt.alloc(), b"[ memory = 64; Arch = true ]")?;
    assert_ruled_out(&rt, &request, &ports, &intel, true);
    let loaded = parse_ad(rt.alloc(), b"[ memory = 64; Arch = true; Load = 2 ]")?;
    assert_ruled_out(&rt, &request, &ports, &loaded, false);
    Ok(())
}
