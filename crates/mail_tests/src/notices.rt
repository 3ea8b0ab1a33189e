// Mailboxes that listen to a run.
use notice_desk::{Desk, MemoryMailbox, Notices};
use pool_engine::*;
use pool_text::{OutOfMemory, Text};
use run_fixtures::{Host, calls, host_of, run_over, source_of, texts};
use std::alloc::Global;
use std::process::Abort;
use std::test::Fail;

// Every command. Those that tell of a job tell the user `u` and the resource `m`.
const SCRIPT: &[u8] =
    b"clock 1\neval 1 + 1\npriority u 7\nunlisten x\nadvertise m 600\n[ Requirements = true ]\n.\nshow m\nlist\nevalin m 2\nquery\n[ Requirements = true ]\n.\ngang\n[ Ports = { [ Label = a; Requirements = true ] } ]\n.\nsubmit j u\n[ Requirements = true ]\n.\nnegotiate\nclaim j\nrelease j\nnegotiate\nremove j\nsubmit k u\n[ Requirements = true ]\n.\nnegotiate\nwithdraw m\nclaim k\n";

const REPLIES: &[u8] =
    b"clock 1 expired 0\n2\npriority u 7\nrefused 8 name not known\nadvertised m\n[ Requirements = true ]\nads 1\nm 1 600 free\n2\nhits 1\nm 0\ngang m\nsubmitted j\nspin 1 free 1\nslice u 1\noffer j u m\nspin 2 free 0\noffers 1\nclaimed j m\nreleased j\nspin 1 free 1\nslice u 1\noffer j u m\nspin 2 free 0\noffers 1\nremoved j\nsubmitted k\nspin 1 free 1\nslice u 1\noffer k u m\nspin 2 free 0\noffers 1\nwithdrawn m\nrefused 11 job is idle\n";

const NOTICES: &[u8] =
    b"matched j m\nclaimed j m\nfreed j m\nmatched j m\nfreed j m\nmatched k m\nfreed k m\n";

/// What a script writes, what the boxes of `m` and of `u` show behind it, and how many notices to `m` failed.
#[derive(Drop)]
pub(crate) struct Seen {
    pub(crate) replies: Text,
    pub(crate) m: Option<Text>,
    pub(crate) u: Option<Text>,
    pub(crate) failures: Option<u64>,
}

// A box that fails at one of its notices, or at none where that is 0.
fn mailbox(alloc: Global, fails: usize) -> Result<Box<MemoryMailbox>, OutOfMemory> {
    let mailbox = MemoryMailbox::new(alloc, 1 << 10, calls(alloc, fails)?)?;
    Ok(Box::new(alloc, mailbox)?)
}

/// Runs a script with a box for `m`, which fails at one of its notices, and a box for `u`.
pub(crate) fn run_heard(host: Host, script: &[u8], fails: usize) -> Result<Seen, OutOfMemory> {
    let mut desk = Desk::new(host.alloc);
    let seen = run_on(host, script, fails, &mut desk);
    drop(desk);
    seen
}

// The same on a desk that is empty.
fn run_on(host: Host, script: &[u8], fails: usize, desk: &mut Desk) -> Result<Seen, OutOfMemory> {
    listen(host.alloc, desk, b"m", fails)?;
    listen(host.alloc, desk, b"u", 0)?;
    let replies = write_replies(host, script, desk)?;
    what_is_seen(host.alloc, desk, replies)
}

/// Puts a box on a desk, which fails at one of its notices.
pub(crate) fn listen(
    alloc: Global,
    desk: &mut Desk,
    name: &[u8],
    fails: usize,
) -> Result<(), OutOfMemory> {
    let mailbox = mailbox(alloc, fails)?;
    drop(desk.add(name, mailbox));
    Ok(())
}

/// What was written, and what the boxes show.
pub(crate) fn what_is_seen(alloc: Global, desk: &Desk, replies: Text) -> Result<Seen, OutOfMemory> {
    Ok(Seen {
        replies,
        m: kept(alloc, desk.shown(b"m"))?,
        u: kept(alloc, desk.shown(b"u"))?,
        failures: desk.failures(b"m"),
    })
}

// A text of what is shown.
fn kept(alloc: Global, shown: Option<&[u8]>) -> Result<Option<Text>, OutOfMemory> {
    let Some(bytes) = shown else {
        return Ok(None);
    };
    Ok(Some(Text::from_bytes(alloc, bytes)?))
}

/// What a script writes, over a desk.
pub(crate) fn write_replies<D: Notices>(
    host: Host,
    script: &[u8],
    desk: &mut D,
) -> Result<Text, OutOfMemory> {
    let mut source = source_of(host.alloc, script, 7, 0)?;
    let ran = run_over(host, &[], &mut source, (99, 0), desk);
    drop(source);
    let (_, written) = ran?;
    Ok(written)
}

// Whether a box shows these bytes.
fn shows(shown: &Option<Text>, bytes: &[u8]) -> bool {
    match shown {
        Some(text) => text.bytes() == bytes,
        None => false,
    }
}

/// A script wrote this.
pub(crate) fn assert_replies(rt: &impl Abort, seen: &Seen, wanted: &[u8]) {
    assert_eq!(rt; seen.replies.bytes(), wanted);
}

/// A box shows these bytes.
pub(crate) fn assert_shows(rt: &impl Abort, shown: &Option<Text>, wanted: &[u8]) {
    assert!(rt; shows(shown, wanted));
}

#[test]
fn each_name_takes_its_notices_in_order(rt: HostRuntime) -> Result<(), Fail> {
    let seen = run_heard(host_of(&rt), SCRIPT, 0)?;
    assert_replies(&rt, &seen, REPLIES);
    assert_shows(&rt, &seen.m, NOTICES);
    assert_shows(&rt, &seen.u, NOTICES);
    Ok(())
}

#[test]
fn a_box_that_fails_is_dropped_and_changes_no_reply(rt: HostRuntime) -> Result<(), Fail> {
    for fails in 1..8 {
        let seen = run_heard(host_of(&rt), SCRIPT, fails)?;
        assert_replies(&rt, &seen, REPLIES);
        assert!(rt; seen.m.is_none() && seen.failures == Some(1));
        assert_shows(&rt, &seen.u, NOTICES);
    }
    Ok(())
}

#[test]
fn a_name_that_is_taken_off_takes_no_more(rt: HostRuntime) -> Result<(), Fail> {
    let script =
        b"advertise m 9\n[ Requirements = true ]\n.\nunlisten m\nunlisten m\nsubmit j u\n[ Requirements = true ]\n.\nnegotiate\nclock 9\n";
    let wanted =
        b"advertised m\nunlistened m\nrefused 8 name not known\nsubmitted j\nspin 1 free 1\nslice u 1\noffer j u m\nspin 2 free 0\noffers 1\nclock 9 expired 1\n";
    let seen = run_heard(host_of(&rt), script, 0)?;
    assert_replies(&rt, &seen, wanted);
    assert!(rt; seen.failures.is_none());
    assert_shows(&rt, &seen.u, b"matched j m\nfreed j m\n");
    Ok(())
}

#[test]
fn a_name_that_is_user_and_resource_is_told_once(rt: HostRuntime) -> Result<(), Fail> {
    let script =
        b"advertise m 9\n[ Requirements = true ]\n.\nsubmit j m\n[ Requirements = true ]\n.\nnegotiate\n";
    let seen = run_heard(host_of(&rt), script, 0)?;
    assert_shows(&rt, &seen.m, b"matched j m\n");
    assert_shows(&rt, &seen.u, b"");
    Ok(())
}

fn assert_text(rt: &impl Abort, found: &Text, wanted: &[u8]) {
    assert_eq!(rt; found.bytes(), wanted);
}

#[test]
fn mailboxes_have_names_and_files(rt: HostRuntime) -> Result<(), Fail> {
    let words = texts(rt.alloc(), &[b"--mail", b"a=x=y", b"--mail", b"b=/z"])?;
    let boxes = mails(rt.alloc(), &words)?;
    assert!(rt; boxes.len() == 2);
    assert_text(&rt, &boxes[0].name, b"a");
    assert_text(&rt, &boxes[0].file, b"x=y");
    assert_text(&rt, &boxes[1].file, b"/z");
    Ok(())
}

// How a workload of four machines ends over a desk, and what was written.
fn run_workload(host: Host, desk: &mut Desk) -> Result<(RunEnd, Text), OutOfMemory> {
    let words = texts(host.alloc, &[b"--mail", b"bob=x", b"--generate", b"4"])?;
    let mut source = source_of(host.alloc, b"", 9, 1)?;
    let ran = run_over(host, &words, &mut source, (99, 0), desk);
    drop(source);
    ran
}

#[test]
fn names_listen_to_a_workload(rt: HostRuntime) -> Result<(), Fail> {
    let mut desk = Desk::new(rt.alloc());
    listen(rt.alloc(), &mut desk, b"alice", 0)?;
    listen(rt.alloc(), &mut desk, b"bob", 0)?;
    let (end, written) = run_workload(host_of(&rt), &mut desk)?;
    assert!(rt; end == RunEnd::Done { refused: 0 });
    assert_text(
        &rt,
        &written,
        b"commands 10\nrefused 0\nhits 1\noffers 1\nbytes 191\n",
    );
    assert!(rt; desk.shown(b"alice") == Some(b"".as_slice()));
    assert!(rt; desk.shown(b"bob") == Some(b"matched j1 m1\n".as_slice()));
    Ok(())
}
