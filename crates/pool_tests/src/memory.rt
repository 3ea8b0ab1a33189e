// The memory of many runs in one process.
use crate::runs::assert_run;
use pool_engine::RunEnd;
use pool_text::{OutOfMemory, Text, append_count, read_number};
use run_fixtures::{Case, host_of};
use std::alloc::Global;
use std::fs;
use std::test::Fail;

const RUNS: usize = 100_000;

// A script of a hundred ads, the smallest there are, and its replies.
fn hundred_ads(alloc: Global) -> Result<(Text, Text), OutOfMemory> {
    let mut script = Text::new(alloc);
    let mut written = Text::new(alloc);
    for i in 0..100 {
        script.append(b"advertise m")?;
        append_count(&mut script, i)?;
        script.append(b" 9\n[]\n.\n")?;
        written.append(b"advertised m")?;
        append_count(&mut written, i)?;
        written.append(b"\n")?;
    }
    Ok((script, written))
}

// How many pages of memory the process has, as Linux tells it: the second number of the file.
fn pages(rt: HostRuntime) -> Result<u64, Fail> {
    let text = fs::read(&rt, "/proc/self/statm")?;
    let mut words = text.as_slice().split(|byte| *byte == b' ');
    let _size = words.next();
    let pages = match words.next() {
        Some(word) => read_number(word),
        None => None,
    };
    Ok(pages.unwrap_or(0))
}

#[test]
fn many_runs_take_the_memory_of_one(rt: HostRuntime) -> Result<(), Fail> {
    let (script, written) = hundred_ads(rt.alloc())?;
    let case = Case {
        script: script.bytes(),
        most: (4096, 4096),
        fails: (0, 0),
        end: RunEnd::Done { refused: 0 },
        written: written.bytes(),
    };
    let mut before = 0;
    for i in 0..RUNS {
        assert_run(&rt, host_of(&rt), case)?;
        if i == 0 {
            before = pages(rt)?;
        }
    }
    let after = pages(rt)?;
    println!(rt; "{before} {after}")?;
    // A quarter of a megabyte more at most: of one allocation a run that isn't given back there would be three megabytes.
    assert!(rt; 0 < before && 0 < after && after <= before.saturating_add(64));
    Ok(())
}
