// Pieces that a source gives.
ghost use Rattle.std.specs.Prelude.{◌≤◌, ◌<◌, length, IfOk};
ghost use Rattle.pool_io.specs.Flow.{Reads};

use pool_io::{Failed, Source};

// An input may have so many bytes.
pub(crate) const INPUT_LIMIT: usize = 1 << 30;

// A read offers room for so many bytes.
pub(crate) const READ_SIZE: usize = 4096;

// Reads into the front of a buffer, at most so many bytes.
pub(crate) fn read_piece<S: Source>(
    source: &mut S,
    buffer: &mut [u8],
    most: usize,
) -> Result<usize, Failed>
    requires some { 0 < most }
    requires room { 0 < length buffer.old }
    ensures reads { Reads (S.shows source.old) (S.shows source.new) result buffer.new }
    ensures within { IfOk result (λ n. n ≤ most) }
    ensures inside { IfOk result (λ n. n ≤ length buffer.new) }
{
    let room = most.min(buffer.len());
    source.read(&mut buffer[..room])
}
