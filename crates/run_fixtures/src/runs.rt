// Runs of the pool over sources and sinks in memory that are cut and fail.
ghost use Rattle.std.specs.Prelude.{◌≡◌};

use notice_desk::{Desk, Notices};
use pool_engine::*;
use pool_io::{MemorySink, MemorySource};
use pool_steps::Steps;
use pool_text::{OutOfMemory, Slots, Text};
use std::alloc::Global;
use std::marker::Brand;
use std::rt::Process;
use std::sync::ledger::{Blank, Ledger};

/// What a run takes of the runtime: memory, and the handle by which its counters are made.
#[derive(Clone, Copy)]
pub struct Host {
    pub alloc: Global,
    pub process: Process,
}

/// What this runtime gives a run.
pub fn host_of(rt: &HostRuntime) -> Host {
    Host {
        alloc: rt.alloc(),
        process: rt.process(),
    }
}

/// The number of the one call that fails, or of none where it is 0.
pub fn calls(alloc: Global, number: usize) -> Result<Slots, OutOfMemory> {
    let mut list = Slots::new(alloc);
    if number > 0 {
        list.push(number)?;
    }
    Ok(list)
}

/// The words as texts.
pub fn texts(alloc: Global, words: &[&[u8]]) -> Result<Vec<Text>, OutOfMemory> {
    let mut texts = Vec::new(alloc);
    for word in words {
        texts.push(Text::from_bytes(alloc, word)?)?;
    }
    Ok(texts)
}

/// A source of these bytes, which gives so many a call and fails at one call.
pub fn source_of(
    alloc: Global,
    bytes: &[u8],
    most: usize,
    fails: usize,
) -> Result<MemorySource, OutOfMemory> {
    let failing = calls(alloc, fails)?;
    let text = Text::from_bytes(alloc, bytes)?;
    Ok(MemorySource::new(text, most.max(1), failing))
}

// A sink that takes so many bytes a call and fails at one call.
fn sink_of(alloc: Global, most: usize, fails: usize) -> Result<MemorySink, OutOfMemory> {
    let failing = calls(alloc, fails)?;
    MemorySink::new(alloc, most.max(1), 1 << 20, failing)
}

/// How a run ends over a sink that takes so many bytes a call and fails at one call, and what was written.
pub fn run_over<D: Notices>(
    host: Host,
    words: &[Text],
    source: &mut MemorySource,
    (most, fails): (usize, usize),
    desk: &mut D,
) -> Result<(RunEnd, Text), OutOfMemory> {
    let mut sink = sink_of(host.alloc, most, fails)?;
    let end = run_with(host, words, source, &mut sink, desk);
    let written = Text::from_bytes(host.alloc, sink.taken());
    drop(sink);
    Ok((end, written?))
}

/// The same over an empty desk.
pub fn run_alone(
    host: Host,
    words: &[Text],
    source: &mut MemorySource,
    sink: (usize, usize),
) -> Result<(RunEnd, Text), OutOfMemory> {
    let mut desk = Desk::new(host.alloc);
    let ran = run_over(host, words, source, sink, &mut desk);
    drop(desk);
    ran
}

/// How a run ends over a source and a sink that take so many bytes a call and fail at one call each, and what was written.
pub fn run(
    host: Host,
    script: &[u8],
    most: (usize, usize),
    source_fails: usize,
    sink_fails: usize,
) -> Result<(RunEnd, Text), OutOfMemory> {
    let mut source = source_of(host.alloc, script, most.0, source_fails)?;
    let ran = run_alone(host, &[], &mut source, (most.1, sink_fails));
    drop(source);
    ran
}

/// A script, how many bytes each call of the source and of the sink passes on, and which call of each fails (0: none); how the run
/// ends, and what was written.
#[derive(Clone, Copy)]
pub struct Case<'a> {
    pub script: &'a [u8],
    pub most: (usize, usize),
    pub fails: (usize, usize),
    pub end: RunEnd,
    pub written: &'a [u8],
}

// A blank ledger for each counter of a run.
struct Blanks {
    tops: Blank,
    entry: Blank,
    touch: Blank,
}

// Runs a script with counters of its own.
fn run_counted<F: Ledger, E: Ledger, T: Ledger, D: Notices>(
    host: Host,
    words: &[Text],
    source: &mut MemorySource,
    sink: &mut MemorySink,
    desk: &mut D,
    blanks: Blanks,
) -> RunEnd
    requires names { (blanks.tops.name ≡ F.name) × (blanks.entry.name ≡ E.name) × (blanks.touch.name ≡ T.name) }
    requires parts { (blanks.tops.parts ≡ F.parts) × (blanks.entry.parts ≡ E.parts) × (blanks.touch.parts ≡ T.parts) }
    requires ones { (blanks.tops.parts ≡ 1) × (blanks.entry.parts ≡ 1) × (blanks.touch.parts ≡ 1) }
{
    let Blanks { tops, entry, touch } = blanks;
    let mut tops = Steps::<F>::new(host.process, tops);
    let mut entry = Steps::<E>::new(host.process, entry);
    let mut touch = Steps::<T>::new(host.process, touch);
    run_pool(
        host.alloc, words, source, sink, desk, &mut tops, &mut entry, &mut touch,
    )
}

// Runs a script with a desk, and counters that nothing reads.
fn run_with<D: Notices>(
    host: Host,
    words: &[Text],
    source: &mut MemorySource,
    sink: &mut MemorySink,
    desk: &mut D,
) -> RunEnd {
    let blanks = Blanks {
        tops: Blank::new(1),
        entry: Blank::new(1),
        touch: Blank::new(1),
    };
    run_counted::<Brand, Brand, Brand, _>(host, words, source, sink, desk, blanks)
}
