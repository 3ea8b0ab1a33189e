// Refusals for want of room, which no script reaches without thousands of jobs or users.
#![tactic(auto, unfolding(pool_replies::specs::Replies::is_printable, pool_replies::specs::Refusals::is_printable_refusal))]

use pool_replies::*;
use pool_text::{OutOfMemory, Text};
use std::alloc::Global;
use std::process::Abort;
use std::test::Fail;

fn refused(alloc: Global, room: Room) -> Result<Text, OutOfMemory> {
    print_reply(alloc, &Reply::Refused(Refusal::Full(room)))
}

fn assert_refused(
    rt: &impl Abort,
    alloc: Global,
    room: Room,
    wanted: &[u8],
) -> Result<(), OutOfMemory> {
    let text = refused(alloc, room)?;
    assert_eq!(rt; text.bytes(), wanted);
    Ok(())
}

#[test]
fn a_full_pool_is_told(rt: HostRuntime) -> Result<(), Fail> {
    let alloc = rt.alloc();
    assert_refused(&rt, alloc, Room::Jobs, b"refused 10 too many jobs\n")?;
    assert_refused(&rt, alloc, Room::JobText, b"refused 10 too much job text\n")?;
    assert_refused(&rt, alloc, Room::Users, b"refused 10 too many users\n")?;
    Ok(())
}
