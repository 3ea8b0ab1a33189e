// A line that grows piece by piece.
ghost use Rattle.std.specs.Prelude.{◌≡◌, ◌++◌, ◌≤◌, [], length, MatchOption, OnErr, OnOk};
ghost use Rattle.pool_text.specs.Lines.{ended};
ghost use Rattle.pool_script.specs.Cuts.{CutsAtFeed};
ghost use Rattle.pool_script.specs.Reading.{kept};
ghost use Rattle.pool_script.specs.Runs.{run_of};

use crate::line::is_plain;
use memchr::memchr;
use pool_text::{LONGEST_LINE, OutOfMemory};

/// The bytes before the first line feed, the same with the line feed, and those behind it; none where there is no line
/// feed.
pub(crate) fn split_line(bytes: &[u8]) -> Option<(&[u8], &[u8], &[u8])>
    ensures { MatchOption result (ended bytes.now ≡ [])
        (λ parts. CutsAtFeed bytes.now parts.0.now parts.1.now parts.2.now) }
{
    match memchr(b'\n', bytes) {
        Some(place) => Some((&bytes[..place], &bytes[..place + 1], &bytes[place + 1..])),
        None => None,
    }
}

/// Adds bytes to a line; of a line that is too long only the first bytes matter.
pub(crate) fn extend_line(line: &mut Vec<u8>, bytes: &[u8]) -> Result<(), OutOfMemory>
    requires { length line.old.items ≤ 65537 }
    ensures ok { OnOk result (line.new.items ≡ kept (line.old.items ++ bytes.now)) }
    ensures err { OnErr result (line.new.items ≡ line.old.items) }
{
    let room = LONGEST_LINE + 1 - line.len();
    let fits = room.min(bytes.len());
    line.extend_from_slice(&bytes[..fits])?;
    Ok(())
}

/// How many bytes at the front are lines that a block takes as they stand, with their line feeds.
pub(crate) fn run_of_lines(bytes: &[u8]) -> usize
    ensures { result ≡ length (run_of bytes.now) }
{
    let mut left = bytes;
    while let Some(len) = memchr(b'\n', left) {
        if !is_plain(&left[..len]) {
            break;
        }
        left = &left[len + 1..];
    }
    bytes.len() - left.len()
}
