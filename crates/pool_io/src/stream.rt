// std's readers and writers as sources and sinks. They are a trusted edge: what a device does is not proved.
ghost use Rattle.std.specs.Prelude.{◌≡◌, ◌<◌, false, length, OnErr};
ghost use Rattle.pool_io.specs.Flow.{Supply, Intake, Reads, Writes};
ghost use Rattle.pool_io.specs.Memory.{next_count};

use crate::{Failed, Sink, Source};
use std::io::{Read, Write};
use std::marker::Model;

/// A source over a reader of std. It counts each error of the reader, and is never sure.
#[derive(Drop)]
pub struct StdSource<R: Read> {
    reader: R,
    latest: usize,
    given: u64,
    reads: u64,
    faults: u64,
}

impl<R: Read> Model for StdSource<R> {
    ghost use Rattle.std.specs.Prelude.{false};
    ghost use Rattle.pool_io.specs.Flow.{Supply};

    ghost Value = { Supply };

    ghost view = { λ s. record { left = R.remaining s.reader; latest = s.latest; given = s.given; reads = s.reads; faults = s.faults; sure = false } };
}

impl<R: Read> StdSource<R> {
    /// A source that has not failed yet.
    pub fn new(reader: R) -> StdSource<R>
        ensures { result ≡ record { left = R.remaining reader; latest = 0; given = 0; reads = 0; faults = 0; sure = false } }
    {
        StdSource {
            reader,
            latest: 0,
            given: 0,
            reads: 0,
            faults: 0,
        }
    }
}

impl<R: Read> Source for StdSource<R> {
    ghost shows = { λ s. s };

    fn read(&mut self, buf: &mut [u8]) -> Result<usize, Failed>
        ensures reads { Reads self.old self.new result buf.new }
        ensures failed { OnErr result (self.new.faults ≡ next_count self.old.faults) }
    {
        self.reads = self.reads.saturating_add(1);
        match self.reader.read(buf) {
            Ok(count) => {
                self.latest = count;
                self.given = self.given.saturating_add(count as u64);
                Ok(count)
            }
            Err(_) => {
                self.faults = self.faults.saturating_add(1);
                Err(Failed)
            }
        }
    }
}

/// A sink over a writer of std. It counts each error of the writer and each write that takes nothing, and is never sure.
#[derive(Drop)]
pub struct StdSink<W: Write> {
    writer: W,
    offered: usize,
    faults: u64,
}

impl<W: Write> Model for StdSink<W> {
    ghost use Rattle.pool_io.specs.Flow.{Intake};

    ghost Value = { Intake };

    ghost view = { λ s. record { taken = W.contents s.writer; offered = s.offered; faults = s.faults; sure = 0 } };
}

impl<W: Write> StdSink<W> {
    /// A sink that has not failed yet.
    pub fn new(writer: W) -> StdSink<W>
        ensures { result ≡ record { taken = W.contents writer; offered = 0; faults = 0; sure = 0 } }
    {
        StdSink {
            writer,
            offered: 0,
            faults: 0,
        }
    }
}

impl<W: Write> Sink for StdSink<W> {
    ghost shows = { λ s. s };

    fn write(&mut self, piece: &[u8]) -> Result<usize, Failed>
        requires { 0 < length piece.now }
        ensures writes { Writes self.old self.new result piece.now }
        ensures failed { OnErr result (self.new.faults ≡ next_count self.old.faults) }
    {
        self.offered = piece.len();
        match self.writer.write(piece) {
            Ok(count) if count > 0 => Ok(count),
            _ => {
                self.faults = self.faults.saturating_add(1);
                Err(Failed)
            }
        }
    }
}
