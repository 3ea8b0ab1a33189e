// What a world tells of its ads.
use ad_parser::parse_ad;
use ad_tree::{Port, Ports, Scope};
use eval_scope::{Found, World};
use pool_text::{AdPlace, OutOfMemory, Pos, Text};
use std::alloc::Global;
use std::process::Abort;
use std::test::Fail;

// A port at frame 1.
fn one_port(alloc: Global) -> Result<Ports, OutOfMemory> {
    let mut ports = Ports::new(alloc);
    let label = Text::from_bytes(alloc, b"a")?;
    ports.push(Port { label, frame: 1 })?;
    Ok(ports)
}

// The request's port has the resource, whose attribute `y` is the second.
fn assert_world(rt: &impl Abort, world: &World<'_>) {
    assert_eq!(rt; world.moment(), 7);
    assert_eq!(rt; world.attributes(), 8);
    assert_eq!(rt; world.request_place(), AdPlace { ad: 0, frame: 1 });
    assert_eq!(rt; world.resource_place(), AdPlace { ad: 1, frame: 0 });
    assert_eq!(rt; world.size_of(world.request_place()), 3);
    assert_eq!(rt; world.size_of(AdPlace { ad: 1, frame: 2 }), 0);
}

fn assert_found(rt: &impl Abort, world: &World<'_>) {
    let y = Pos {
        ad: 1,
        frame: 0,
        attr: 1,
    };
    let found = world.find(world.request_place(), Scope::Target, b"Y");
    assert!(rt; matches!(found, Found::Attr(pos) if pos == y));
    assert_eq!(rt; world.within(world.request_place(), b"y"), None);
}

#[test]
fn a_world_knows_its_ads(rt: HostRuntime) -> Result<(), Fail> {
    let request = parse_ad(rt.alloc(), b"[ x = 1; one = [ p = 2; q = 3; r = 4 ] ]")?;
    let resource = parse_ad(rt.alloc(), b"[ z = [ w = 5 ]; Y = 6 ]")?;
    let ports = one_port(rt.alloc())?;
    let mut world = World::new(7, &request, &ports);
    world.dock(&resource);
    assert_world(&rt, &world);
    assert_found(&rt, &world);
    Ok(())
}
