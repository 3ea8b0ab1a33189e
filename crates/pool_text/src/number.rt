// Whole numbers as decimal text.
ghost use Rattle.std.specs.Prelude.{◌≡◌, ◌++◌, decimal, OnOk, OnErr};
ghost use Rattle.std.specs.Fmt.{signed_decimal};
ghost use Rattle.pool_text.specs.Number.{number_of};
ghost use Rattle.pool_text.specs.Reading.{read_from};

use crate::{OutOfMemory, Text};
use itoa::Buffer;

/// The number that decimal digits write: none where there are no bytes, where a byte is no digit, where a 0 stands
/// before another digit, or where the number exceeds 64 bits.
pub fn read_number(bytes: &[u8]) -> Option<u64>
    ensures { result ≡ number_of bytes.now }
{
    if bytes.len() == 0 {
        return None;
    }
    if bytes[0] == b'0' && bytes.len() > 1 {
        return None;
    }
    read_digits(bytes)
}

fn read_digits(digits: &[u8]) -> Option<u64>
    ensures { result ≡ read_from 0 digits.now }
{
    let mut number: u64 = 0;
    let mut rest = digits;
    while let [digit, behind @ ..] = rest {
        if !digit.is_ascii_digit() {
            return None;
        }
        number = number
            .checked_mul(10)?
            .checked_add(u64::from(*digit - b'0'))?;
        rest = behind;
    }
    Some(number)
}

/// Appends the decimal text of a number, all of it or nothing.
pub fn append_number(out: &mut Text, n: i64) -> Result<(), OutOfMemory>
    ensures ok { OnOk result (out.new ≡ out.old ++ signed_decimal n) }
    ensures err { OnErr result (out.new ≡ out.old) }
{
    let mut buffer = Buffer::new();
    out.append(buffer.format(n).as_bytes())
}

/// Appends the decimal text of a count, all of it or nothing.
pub fn append_count(out: &mut Text, count: u64) -> Result<(), OutOfMemory>
    ensures ok { OnOk result (out.new ≡ out.old ++ decimal count) }
    ensures err { OnErr result (out.new ≡ out.old) }
{
    let mut buffer = Buffer::new();
    out.append(buffer.format(count).as_bytes())
}
