// Boxes in memory and over files, and a desk with a box that fails.
use notice_desk::*;
use pool_io::Failed;
use pool_text::{OutOfMemory, Slots, Text};
use std::alloc::Global;
use std::fs;
use std::process::Abort;
use std::test::Fail;

fn assert_delivered(
    rt: &impl Abort,
    mailbox: &mut impl Mailbox,
    notice: &[u8],
    wanted: Result<(), Failed>,
) {
    assert_eq!(rt; mailbox.deliver(notice), wanted);
}

// A box for ten bytes that fails at its second notice.
fn small_box(alloc: Global) -> Result<MemoryMailbox, OutOfMemory> {
    let mut failing = Slots::new(alloc);
    failing.push(2)?;
    MemoryMailbox::new(alloc, 10, failing)
}

#[test]
fn a_box_in_memory_keeps_notices_and_fails_where_it_is_told(rt: HostRuntime) -> Result<(), Fail> {
    let mut mailbox = small_box(rt.alloc())?;
    assert_delivered(&rt, &mut mailbox, b"freed", Ok(()));
    assert_delivered(&rt, &mut mailbox, b"no", Err(Failed));
    assert_delivered(&rt, &mut mailbox, b"j m", Ok(()));
    assert_delivered(&rt, &mut mailbox, b"", Err(Failed));
    assert!(rt; mailbox.shown() == Some(b"freed\nj m\n".as_slice()));
    Ok(())
}

fn mailbox(alloc: Global, fails: usize) -> Result<Box<MemoryMailbox>, OutOfMemory> {
    let mut failing = Slots::new(alloc);
    failing.push(fails)?;
    let mailbox = MemoryMailbox::new(alloc, 99, failing)?;
    Ok(Box::new(alloc, mailbox)?)
}

// A desk whose box for `m` fails at its second notice, and whose box for `u` doesn't fail soon.
fn two_boxes(rt: &impl Abort, alloc: Global) -> Result<Desk, OutOfMemory> {
    let mut desk = Desk::new(alloc);
    assert!(rt; desk.add(b"m", mailbox(alloc, 2)?).is_ok());
    assert!(rt; desk.add(b"u", mailbox(alloc, 9)?).is_ok());
    assert!(rt; matches!(desk.add(b"m", mailbox(alloc, 9)?), Err(AddFault::InUse(_))));
    assert!(rt; desk.len() == 2);
    assert_eq!(rt; desk.name(1).bytes(), b"u".as_slice());
    Ok(desk)
}

fn assert_post(rt: &impl Abort, desk: &mut Desk, name: &[u8], notice: &[u8], wanted: PostEnd) {
    assert_eq!(rt; desk.post(name, notice), wanted);
}

fn assert_shows(rt: &impl Abort, desk: &Desk, name: &[u8], wanted: Option<&[u8]>) {
    assert!(rt; desk.shown(name) == wanted);
}

#[test]
fn a_box_that_fails_is_retired_and_its_name_stays(rt: HostRuntime) -> Result<(), Fail> {
    let mut desk = two_boxes(&rt, rt.alloc())?;
    assert_post(&rt, &mut desk, b"m", b"matched j m", PostEnd::Delivered);
    assert_shows(
        &rt,
        &desk,
        b"m",
        Some(
            b"matched j m
",
        ),
    );
    assert_post(&rt, &mut desk, b"m", b"claimed j m", PostEnd::Failed);
    assert_post(&rt, &mut desk, b"u", b"claimed j m", PostEnd::Delivered);
    assert!(rt; desk.retire_failed() == 1);
    assert_shows(&rt, &desk, b"m", None);
    assert!(rt; desk.failures(b"m") == Some(1));
    assert_post(&rt, &mut desk, b"m", b"freed j m", PostEnd::NoBox);
    assert_shows(
        &rt,
        &desk,
        b"u",
        Some(
            b"claimed j m
",
        ),
    );
    Ok(())
}

#[test]
fn a_name_is_closed_once(rt: HostRuntime) -> Result<(), Fail> {
    let mut desk = two_boxes(&rt, rt.alloc())?;
    assert!(rt; desk.close(b"m"));
    assert!(rt; !desk.close(b"m"));
    assert!(rt; desk.failures(b"m").is_none() && desk.len() == 1);
    Ok(())
}

fn file_box(rt: HostRuntime, path: &[u8]) -> Result<FileMailbox<HostRuntime>, OutOfMemory> {
    Ok(FileMailbox::new(rt, Text::from_bytes(rt.alloc(), path)?))
}

#[test]
fn a_box_over_a_file_writes_lines(rt: HostRuntime) -> Result<(), Fail> {
    let mut kept = file_box(rt, b"notices.txt")?;
    assert_delivered(&rt, &mut kept, b"matched j m", Ok(()));
    assert_delivered(&rt, &mut kept, b"freed j m", Ok(()));
    assert!(rt; kept.shown().is_none());
    drop(kept);
    let text = fs::read(&rt, "notices.txt")?;
    fs::remove_file(&rt, "notices.txt")?;
    assert_eq!(rt; text.as_slice(), b"matched j m\nfreed j m\n".as_slice());
    Ok(())
}

// The notice of a gang of eight, whose names have 64 bytes each, as the job's has.
fn long_notice(alloc: Global) -> Result<Text, OutOfMemory> {
    let mut notice = Text::from_bytes(alloc, b"matched")?;
    for _ in 0..9 {
        notice.append(b" 0123456789abcdef0123456789abcdef0123456789abcdef0123456789abcdef")?;
    }
    Ok(notice)
}

#[test]
fn the_first_notice_over_a_file_may_be_long(rt: HostRuntime) -> Result<(), Fail> {
    let mut notice = long_notice(rt.alloc())?;
    let mut kept = file_box(rt, b"long.txt")?;
    assert_delivered(&rt, &mut kept, notice.bytes(), Ok(()));
    drop(kept);
    let text = fs::read(&rt, "long.txt")?;
    fs::remove_file(&rt, "long.txt")?;
    notice.append(b"\n")?;
    assert_eq!(rt; text.as_slice(), notice.bytes());
    Ok(())
}

#[test]
fn a_box_fails_where_no_file_can_be(rt: HostRuntime) -> Result<(), Fail> {
    let mut lost = file_box(rt, b"no_such_folder/notices.txt")?;
    assert_delivered(&rt, &mut lost, b"matched j m", Err(Failed));
    let mut unreadable = file_box(rt, b"\xff")?;
    assert_delivered(&rt, &mut unreadable, b"matched j m", Err(Failed));
    Ok(())
}
