// A sink in memory that is full, the adapters over a reader and a writer in memory and over a device that fails once, and a
// reader and a writer that are tied.
ghost use Rattle.std.specs.Prelude.{◌≤◌, IfOk};

use pool_io::*;
use pool_text::{OutOfMemory, Slots};
use std::alloc::Global;
use std::cell::Cell;
use std::io;
use std::io::{Read, Write};
use std::process::Abort;
use std::test::Fail;

fn assert_write(
    rt: &impl Abort,
    sink: &mut impl Sink,
    piece: &[u8],
    wanted: Result<usize, Failed>,
) {
    assert!(rt; !piece.is_empty());
    assert_eq!(rt; sink.write(piece), wanted);
}

fn assert_all(rt: &impl Abort, sink: &mut impl Sink, bytes: &[u8], wanted: Result<(), Failed>) {
    assert_eq!(rt; write_all(sink, bytes), wanted);
}

fn assert_read(rt: &impl Abort, source: &mut impl Source, wanted: Result<usize, Failed>) {
    let mut buffer = [0; 3];
    assert_eq!(rt; source.read(&mut buffer), wanted);
}

// A sink that takes two bytes a call, and six together, and fails at its third call.
fn small_sink(alloc: Global) -> Result<MemorySink, OutOfMemory> {
    let mut failing = Slots::new(alloc);
    failing.push(3)?;
    MemorySink::new(alloc, 2, 6, failing)
}

#[test]
fn a_sink_takes_pieces_and_fails_where_it_is_told(rt: HostRuntime) -> Result<(), Fail> {
    let mut sink = small_sink(rt.alloc())?;
    assert_write(&rt, &mut sink, b"abc", Ok(2));
    assert_all(&rt, &mut sink, b"cde", Err(Failed));
    assert_eq!(rt; sink.taken(), b"abcd".as_slice());
    assert_all(&rt, &mut sink, b"ef", Ok(()));
    assert_write(&rt, &mut sink, b"g", Err(Failed));
    assert_eq!(rt; sink.taken(), b"abcdef".as_slice());
    Ok(())
}

#[test]
fn a_reader_gives_its_bytes(rt: HostRuntime) {
    let mut source = StdSource::new(b"jobs".as_slice());
    let mut buffer = [0; 3];
    assert!(rt; source.read(&mut buffer) == Ok(3) && buffer.as_slice() == b"job".as_slice());
    assert_read(&rt, &mut source, Ok(1));
    assert_read(&rt, &mut source, Ok(0));
}

#[test]
fn a_writer_takes_the_bytes(rt: HostRuntime) {
    let mut written = Vec::new(rt.alloc());
    let mut sink = StdSink::new(&mut written);
    assert_all(&rt, &mut sink, b"offers 1\n", Ok(()));
    drop(sink);
    assert_eq!(rt; written.as_slice(), b"offers 1\n".as_slice());
}

/// A device that fails once, and then gives and takes.
#[derive(Drop)]
struct Hesitant {
    has_failed: bool,
}

impl Hesitant {
    fn answer(&mut self, length: usize) -> io::Result<usize>
        ensures { IfOk result (λ n. n ≤ length) }
    {
        if self.has_failed {
            return Ok(length.min(1));
        }
        self.has_failed = true;
        Err(io::Error::from(io::ErrorKind::Interrupted))
    }
}

impl Read for Hesitant {
    fn read(&mut self, buf: &mut [u8]) -> io::Result<usize> {
        self.answer(buf.len())
    }
}

impl Write for Hesitant {
    fn write(&mut self, buf: &[u8]) -> io::Result<usize> {
        self.answer(buf.len())
    }

    fn flush(&mut self) -> io::Result<()> {
        Ok(())
    }
}

#[test]
fn adapters_ask_their_device_once_a_call(rt: HostRuntime) {
    let mut source = StdSource::new(Hesitant { has_failed: false });
    assert_read(&rt, &mut source, Err(Failed));
    assert_read(&rt, &mut source, Ok(1));
    let mut sink = StdSink::new(Hesitant { has_failed: false });
    assert_write(&rt, &mut sink, b"ab", Err(Failed));
    assert_write(&rt, &mut sink, b"ab", Ok(1));
}

/// A device that counts the bytes that it takes, or takes none.
#[derive(Drop)]
struct Counting<'a> {
    taken: &'a Cell<usize>,
    fails: bool,
}

impl<'a> Write for Counting<'a> {
    fn write(&mut self, buf: &[u8]) -> io::Result<usize> {
        if self.fails {
            return Err(io::Error::from(io::ErrorKind::BrokenPipe));
        }
        self.taken.set(self.taken.get().wrapping_add(buf.len()));
        Ok(buf.len())
    }

    fn flush(&mut self) -> io::Result<()> {
        Ok(())
    }
}

#[test]
fn what_is_written_is_handed_on_before_more_is_read(rt: HostRuntime) -> Result<(), Fail> {
    let taken = Cell::new(0);
    let device = Counting {
        taken: &taken,
        fails: false,
    };
    let output = TiedOutput::new(rt.alloc(), device)?;
    let mut sink = StdSink::new(output.writer());
    let mut source = StdSource::new(output.reader(b"jobs".as_slice()));
    assert_all(&rt, &mut sink, b"offers 1\n", Ok(()));
    assert_eq!(rt; taken.get(), 0);
    assert_read(&rt, &mut source, Ok(3));
    assert_eq!(rt; taken.get(), 9);
    assert_all(&rt, &mut sink, b"hits 0\n", Ok(()));
    assert_eq!(rt; output.finish(), Ok(()));
    assert_eq!(rt; taken.get(), 16);
    Ok(())
}

#[test]
fn behind_a_tied_writer_that_fails_nothing_is_read_or_taken(rt: HostRuntime) -> Result<(), Fail> {
    let taken = Cell::new(0);
    let device = Counting {
        taken: &taken,
        fails: true,
    };
    let output = TiedOutput::new(rt.alloc(), device)?;
    let mut sink = StdSink::new(output.writer());
    let mut source = StdSource::new(output.reader(b"jobs".as_slice()));
    assert_all(&rt, &mut sink, b"offers 1\n", Ok(()));
    assert_read(&rt, &mut source, Err(Failed));
    assert_read(&rt, &mut source, Err(Failed));
    assert_write(&rt, &mut sink, b"hits 0\n", Err(Failed));
    assert_eq!(rt; output.finish(), Err(Failed));
    Ok(())
}

// A tied writer hands on a piece of so many bytes whole.
fn assert_whole(rt: &impl Abort, alloc: Global, length: usize) -> Result<(), OutOfMemory> {
    let taken = Cell::new(0);
    let device = Counting {
        taken: &taken,
        fails: false,
    };
    let output = TiedOutput::new(alloc, device)?;
    let mut sink = StdSink::new(output.writer());
    let piece = vec![in alloc; b'x'; length]?;
    assert_all(rt, &mut sink, &piece, Ok(()));
    assert_eq!(rt; output.finish(), Ok(()));
    assert_eq!(rt; taken.get(), length);
    Ok(())
}

#[test]
fn pieces_beyond_what_is_gathered_are_handed_on_whole(rt: HostRuntime) -> Result<(), Fail> {
    for length in [8_191, 8_192, 8_193, 200_000] {
        assert_whole(&rt, rt.alloc(), length)?;
    }
    Ok(())
}
