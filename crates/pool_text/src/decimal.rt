// Decimals as text. They are whole numbers of millionths.
ghost use Rattle.std.specs.Prelude.{◌≡◌, ◌+◌, ◌%◌, ◌≤◌, ◌++◌, OnOk};
ghost use Rattle.pool_text.specs.Number.{
  decimal_text,
  fraction_text,
  printed_digits,
  shortest_size,
  shortest_text,
  size_text,
};

use crate::{OutOfMemory, Text};
use itoa::Buffer;

const MILLION: u128 = 1_000_000;

/// Appends the text of a decimal: `-` before one below 0, the whole part, a dot, and the six digits behind it without the zeros at
/// their end, but for the first.
pub fn append_decimal(out: &mut Text, millionths: i128) -> Result<(), OutOfMemory>
    ensures { OnOk result (out.new ≡ out.old ++ decimal_text millionths) }
{
    if millionths < 0 {
        out.append(b"-")?;
    }
    append_size(out, millionths.unsigned_abs())
}

/// Appends the same text, but without the dot and what follows where the decimal is whole.
pub fn append_shortest_decimal(out: &mut Text, millionths: i128) -> Result<(), OutOfMemory>
    ensures { OnOk result (out.new ≡ out.old ++ shortest_text millionths) }
{
    if millionths < 0 {
        out.append(b"-")?;
    }
    append_shortest_size(out, millionths.unsigned_abs())
}

fn append_shortest_size(out: &mut Text, millionths: u128) -> Result<(), OutOfMemory>
    ensures { OnOk result (out.new ≡ out.old ++ shortest_size millionths) }
{
    if millionths % MILLION != 0 {
        return append_size(out, millionths);
    }
    let mut buffer = Buffer::new();
    out.append(buffer.format(millionths / MILLION).as_bytes())
}

fn append_size(out: &mut Text, millionths: u128) -> Result<(), OutOfMemory>
    ensures { OnOk result (out.new ≡ out.old ++ size_text millionths) }
{
    let mut buffer = Buffer::new();
    out.append(buffer.format(millionths / MILLION).as_bytes())?;
    out.append(b".")?;
    append_fraction(out, (millionths % MILLION) as u32)
}

fn append_fraction(out: &mut Text, millionths: u32) -> Result<(), OutOfMemory>
    ensures { OnOk result (out.new ≡ out.old ++ fraction_text millionths) }
{
    let digits = [
        last_digit(millionths / 100_000),
        last_digit(millionths / 10_000),
        last_digit(millionths / 1_000),
        last_digit(millionths / 100),
        last_digit(millionths / 10),
        last_digit(millionths),
    ];
    out.append(&digits[..printed_digits(millionths)])
}

fn last_digit(n: u32) -> u8
    ensures { result ≡ 48 + n % 10 }
{
    b'0' + (n % 10) as u8
}

#[tactic(auto, unfolding(crate::specs::Number::printed_digits))]
fn printed_digits(millionths: u32) -> usize
    ensures value { result ≡ printed_digits millionths }
    ensures within { result ≤ 6 }
{
    if millionths % 10 != 0 {
        6
    } else if millionths % 100 != 0 {
        5
    } else if millionths % 1_000 != 0 {
        4
    } else if millionths % 10_000 != 0 {
        3
    } else if millionths % 100_000 != 0 {
        2
    } else {
        1
    }
}
