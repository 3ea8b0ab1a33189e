// A source of bytes, seen by what it has left, by what its last read gave, by its count of faults, and by whether it may
// still fail.
ghost use Rattle.std.specs.Prelude.{◌<◌, length};
ghost use Rattle.pool_io.specs.Flow.{Supply, Reads};

use thiserror::Error;

/// A source or a sink failed. The count of its faults says that it did.
#[derive(Clone, Copy, Debug, PartialEq, Eq, Error)]
#[error("the stream failed")]
pub struct Failed;

/// Bytes that come piece by piece.
pub trait Source {
    ghost shows: { Self → Supply };

    /// Puts the next bytes at the front of `buf`, and answers how many: none only at the end of the input.
    fn read(&mut self, buf: &mut [u8]) -> Result<usize, Failed>
        requires { 0 < length buf.old }
        ensures { Reads (shows self.old) (shows self.new) result buf.new };
}
