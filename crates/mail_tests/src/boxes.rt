// Boxes that fail.
use crate::notices::{
    Seen, assert_replies, assert_shows, listen, run_heard, what_is_seen, write_replies,
};
use notice_desk::{Desk, FileMailbox};
use pool_text::{OutOfMemory, Text};
use run_fixtures::{Host, host_of};
use std::process::Abort;
use std::test::Fail;

/// One resource and one job are matched.
const MATCHED: &[u8] =
    b"advertise m 9\n[ Requirements = true ]\n.\nsubmit j u\n[ Requirements = true ]\n.\nnegotiate\n";

const MATCHES: &[u8] =
    b"advertised m\nsubmitted j\nspin 1 free 1\nslice u 1\noffer j u m\nspin 2 free 0\noffers 1\n";

#[test]
fn a_box_fails_at_its_first_notice(rt: HostRuntime) -> Result<(), Fail> {
    let seen = run_heard(host_of(&rt), MATCHED, 1)?;
    assert_replies(&rt, &seen, MATCHES);
    assert!(rt; seen.m.is_none() && seen.failures == Some(1));
    assert_shows(&rt, &seen.u, b"matched j m\n");
    Ok(())
}

// A run with boxes for `m` and `u`, which both fail at their first notice.
fn run_deaf(host: Host, script: &[u8]) -> Result<Seen, OutOfMemory> {
    let mut desk = Desk::new(host.alloc);
    let seen = run_deaf_on(host, script, &mut desk);
    drop(desk);
    seen
}

// The same on a desk that is empty.
fn run_deaf_on(host: Host, script: &[u8], desk: &mut Desk) -> Result<Seen, OutOfMemory> {
    listen(host.alloc, desk, b"m", 1)?;
    listen(host.alloc, desk, b"u", 1)?;
    let replies = write_replies(host, script, desk)?;
    what_is_seen(host.alloc, desk, replies)
}

#[test]
fn both_boxes_fail(rt: HostRuntime) -> Result<(), Fail> {
    let seen = run_deaf(host_of(&rt), MATCHED)?;
    assert_replies(&rt, &seen, MATCHES);
    assert!(rt; seen.m.is_none() && seen.u.is_none() && seen.failures == Some(1));
    Ok(())
}

// A run with a box for `m` over a file whose folder isn't there.
fn run_filed(rt: &HostRuntime, script: &[u8], desk: &mut Desk) -> Result<Seen, OutOfMemory> {
    let file = Text::from_bytes(rt.alloc(), b"no such folder/m")?;
    let mailbox = Box::new(rt.alloc(), FileMailbox::new(*rt, file))?;
    drop(desk.add(b"m", mailbox));
    let replies = write_replies(host_of(rt), script, desk)?;
    what_is_seen(rt.alloc(), desk, replies)
}

#[test]
fn a_box_has_no_folder(rt: HostRuntime) -> Result<(), Fail> {
    let mut desk = Desk::new(rt.alloc());
    let seen = run_filed(&rt, MATCHED, &mut desk)?;
    assert_replies(&rt, &seen, MATCHES);
    assert!(rt; seen.failures == Some(1));
    drop(desk);
    Ok(())
}
