// A reader and a writer of std that are tied: what is written is gathered, and handed on before more is read. They are a trusted
// edge: no clause knows what a cell holds.
ghost use Rattle.std.specs.Io.{WritesAtMost};

use crate::Failed;
use pool_text::OutOfMemory;
use std::alloc::Global;
use std::cell::RefCell;
use std::io;
use std::io::{BufWriter, ErrorKind, Read, Write};

/// Output that is gathered while there is input that was read ahead. It is handed on where much was gathered, and before more
/// input is read, so that whoever waits for a reply before sending more has it (as C++ ties standard input to standard output).
#[derive(Drop)]
pub struct TiedOutput<W: Write + Drop> {
    gathered: RefCell<Gathered<W>>,
}

/// The end of a tied output that is written to.
#[derive(Drop)]
pub struct TiedWriter<'a, W: Write + Drop> {
    output: &'a TiedOutput<W>,
}

/// A reader that hands on what was written before it reads, and fails where it can't.
#[derive(Drop)]
pub struct TiedReader<'a, R: Read, W: Write + Drop> {
    reader: R,
    output: &'a TiedOutput<W>,
}

#[derive(Drop)]
struct Gathered<W: Write + Drop> {
    writer: BufWriter<W>,
    failed: bool,
}

impl<W: Write + Drop> Gathered<W> {
    // Once the writer has failed, nothing more is taken.
    fn write(&mut self, bytes: &[u8]) -> io::Result<usize>
        ensures { WritesAtMost result bytes.now }
    {
        if self.failed {
            return Err(ErrorKind::Other.into());
        }
        let written = self.writer.write(bytes);
        self.failed = written.is_err();
        written
    }

    fn hand_on(&mut self) -> io::Result<()> {
        if self.failed {
            return Err(ErrorKind::Other.into());
        }
        let handed_on = self.writer.flush();
        self.failed = handed_on.is_err();
        handed_on
    }
}

impl<W: Write + Drop> TiedOutput<W> {
    /// An output with nothing gathered.
    pub fn new(alloc: Global, writer: W) -> Result<TiedOutput<W>, OutOfMemory> {
        let Ok(writer) = BufWriter::new(alloc, writer) else {
            return Err(OutOfMemory);
        };
        Ok(TiedOutput {
            gathered: RefCell::new(Gathered {
                writer,
                failed: false,
            }),
        })
    }

    /// The end that is written to.
    pub fn writer(&self) -> TiedWriter<'_, W> {
        TiedWriter { output: self }
    }

    /// A reader that hands on what was written before it reads, and fails where it can't.
    pub fn reader<R: Read>(&self, reader: R) -> TiedReader<'_, R, W> {
        TiedReader {
            reader,
            output: self,
        }
    }

    /// Hands on what was written. `Failed` where the writer fails, or has failed before.
    pub fn finish(&self) -> Result<(), Failed> {
        match self.hand_on() {
            Ok(()) => Ok(()),
            Err(_) => Err(Failed),
        }
    }

    fn hand_on(&self) -> io::Result<()> {
        match self.gathered.try_borrow_mut() {
            Ok(mut gathered) => gathered.hand_on(),
            Err(_) => Err(ErrorKind::Other.into()),
        }
    }
}

impl<'a, W: Write + Drop> Write for TiedWriter<'a, W> {
    fn write(&mut self, buf: &[u8]) -> io::Result<usize> {
        match self.output.gathered.try_borrow_mut() {
            Ok(mut gathered) => gathered.write(buf),
            Err(_) => Err(ErrorKind::Other.into()),
        }
    }

    fn flush(&mut self) -> io::Result<()> {
        self.output.hand_on()
    }
}

impl<'a, R: Read, W: Write + Drop> Read for TiedReader<'a, R, W> {
    ghost remaining = { λ r. R.remaining r.reader };

    // Where what was written can't be handed on, nothing more is read.
    fn read(&mut self, buf: &mut [u8]) -> io::Result<usize> {
        self.output.hand_on()?;
        self.reader.read(buf)
    }
}
