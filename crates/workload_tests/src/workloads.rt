// Workloads, and what is written of them.
use notice_desk::Desk;
use pool_engine::*;
use pool_io::{MemorySource, Source};
use pool_text::{OutOfMemory, Text};
use run_fixtures::{Host, host_of, run_over, source_of, texts};
use std::alloc::Global;
use std::process::Abort;
use std::test::Fail;

const FOUR: &[&[u8]] = &[b"--generate", b"4"];

const FOUR_SUMMARY: &[u8] = b"commands 10\nrefused 0\nhits 1\noffers 1\nbytes 191\n";

// How a workload ends over a sink that takes so many bytes a call and fails at one call, and what was written.
fn run(
    host: Host,
    words: &[&[u8]],
    most: usize,
    fails: usize,
) -> Result<(RunEnd, Text), OutOfMemory> {
    let words = texts(host.alloc, words)?;
    let mut desk = Desk::new(host.alloc);
    let ran = run_to(host, &words, (most, fails), &mut desk);
    drop(desk);
    ran
}

// The same on a desk, over a source that fails at its first call.
fn run_to(
    host: Host,
    words: &[Text],
    sink: (usize, usize),
    desk: &mut Desk,
) -> Result<(RunEnd, Text), OutOfMemory> {
    let mut source = source_of(host.alloc, b"", 9, 1)?;
    let ran = run_over(host, words, &mut source, sink, desk);
    drop(source);
    ran
}

// Such a run ends like this, with these bytes.
fn assert_run(
    rt: &impl Abort,
    host: Host,
    words: &[&[u8]],
    (most, fails): (usize, usize),
    end: RunEnd,
    wanted: &[u8],
) -> Result<(), OutOfMemory> {
    let (ended, written) = run(host, words, most, fails)?;
    assert!(rt; ended == end);
    assert_eq!(rt; written.bytes(), wanted);
    Ok(())
}

#[test]
fn a_summary_is_written(rt: HostRuntime) -> Result<(), Fail> {
    let end = RunEnd::Done { refused: 0 };
    assert_run(&rt, host_of(&rt), FOUR, (1 << 20, 0), end, FOUR_SUMMARY)?;
    let wanted = b"commands 16\nrefused 0\nhits 2\noffers 4\nbytes 370\n";
    assert_run(
        &rt,
        host_of(&rt),
        &[b"--generate", b"8"],
        (1, 0),
        end,
        wanted,
    )?;
    Ok(())
}

// How a workload ends over a source.
fn run_from(host: Host, source: &mut MemorySource) -> Result<RunEnd, OutOfMemory> {
    let words = texts(host.alloc, FOUR)?;
    let mut desk = Desk::new(host.alloc);
    let ran = run_over(host, &words, source, (99, 0), &mut desk);
    drop(desk);
    let (end, _) = ran?;
    Ok(end)
}

#[test]
fn the_source_is_left_alone(rt: HostRuntime) -> Result<(), Fail> {
    let mut source = source_of(rt.alloc(), b"eval 1", 99, 1)?;
    let end = run_from(host_of(&rt), &mut source)?;
    assert!(rt; end.status() == 0);
    // The first call fails still, and the second one reads all.
    let mut buffer = [0; 99];
    assert!(rt; source.read(&mut buffer).is_err());
    assert!(rt; source.read(&mut buffer).is_ok_and(|count| count == 6));
    Ok(())
}

#[test]
fn each_write_may_fail(rt: HostRuntime) -> Result<(), Fail> {
    for bytes in 0..FOUR_SUMMARY.len() {
        let wanted = &FOUR_SUMMARY[..bytes];
        assert_run(
            &rt,
            host_of(&rt),
            FOUR,
            (1, bytes + 1),
            RunEnd::WriteFault,
            wanted,
        )?;
    }
    Ok(())
}
