// A sink of bytes, seen by what it took, by the length of the last piece that it was offered, by its count of faults, and
// by how many bytes it surely takes.
ghost use Rattle.std.specs.Prelude.{◌<◌, length};
ghost use Rattle.pool_io.specs.Flow.{Intake, Writes, WritesAll};

use crate::Failed;

/// Takes bytes piece by piece.
pub trait Sink {
    ghost shows: { Self → Intake };

    /// Takes bytes from the front of `piece`, at least one, and answers how many. A device that takes none has failed.
    fn write(&mut self, piece: &[u8]) -> Result<usize, Failed>
        requires { 0 < length piece.now }
        ensures { Writes (shows self.old) (shows self.new) result piece.now };
}

/// Offers the bytes as one piece, and what is left of them again until all are taken. Where a write fails, the piece that
/// was offered last is all that is left of them.
pub fn write_all<K: Sink>(sink: &mut K, bytes: &[u8]) -> Result<(), Failed>
    ensures { WritesAll (K.shows sink.old) (K.shows sink.new) result bytes.now }
{
    let mut at = 0;
    while at < bytes.len() {
        at += sink.write(&bytes[at..])?;
    }
    Ok(())
}
