// Pieces at the end of a text, which grows as a list of bytes: most pieces have a few bytes, and are added in a few steps.
ghost use Rattle.std.specs.Prelude.{◌≡◌, ◌<◌, ◌∷◌, [], ◌++◌, decimal, OnOk};
ghost use Rattle.std.specs.Fmt.{signed_decimal};
ghost use Rattle.pool_text.specs.Number.{decimal_text};

use pool_text::{OutOfMemory, Text, append_decimal, append_number};

/// Adds bytes, most often some that the caller knows.
#[inline(always)]
pub fn add(out: &mut Vec<u8>, piece: &[u8]) -> Result<(), OutOfMemory>
    ensures { OnOk result (out.new.items ≡ out.old.items ++ piece.now) }
{
    out.extend_from_slice(piece)?;
    Ok(())
}

/// Adds bytes that are most often one to four, which take less time one by one than as a run of some length.
pub fn add_few(out: &mut Vec<u8>, piece: &[u8]) -> Result<(), OutOfMemory>
    ensures { OnOk result (out.new.items ≡ out.old.items ++ piece.now) }
{
    match piece {
        [a] => add_byte(out, *a),
        [a, b] => add(out, &[*a, *b]),
        [a, b, c] => add(out, &[*a, *b, *c]),
        [a, b, c, d] => add(out, &[*a, *b, *c, *d]),
        _ => add(out, piece),
    }
}

/// Adds one byte.
#[inline(always)]
pub fn add_byte(out: &mut Vec<u8>, byte: u8) -> Result<(), OutOfMemory>
    ensures { OnOk result (out.new.items ≡ out.old.items ++ byte ∷ []) }
{
    out.push(byte)?;
    Ok(())
}

/// Adds the decimal text of a number.
pub fn add_number(out: &mut Vec<u8>, n: i64) -> Result<(), OutOfMemory>
    ensures { OnOk result (out.new.items ≡ out.old.items ++ signed_decimal n) }
{
    if 0 <= n && n < 1_000 {
        return add_small_number(out, n as u64);
    }
    add_long_number(out, n)
}

/// Adds up to three digits, as most numbers have.
#[inline(always)]
fn add_small_number(out: &mut Vec<u8>, n: u64) -> Result<(), OutOfMemory>
    requires { n < 1000 }
    ensures { OnOk result (out.new.items ≡ out.old.items ++ decimal n) }
{
    if n < 10 {
        return add_byte(out, b'0' + n as u8);
    }
    if n < 100 {
        return add(out, &[b'0' + (n / 10) as u8, b'0' + (n % 10) as u8]);
    }
    add(
        out,
        &[
            b'0' + (n / 100) as u8,
            b'0' + (n / 10 % 10) as u8,
            b'0' + (n % 10) as u8,
        ],
    )
}

/// Adds the text of a number that stands in a text of its own first, which takes no memory.
#[inline(never)]
fn add_long_number(out: &mut Vec<u8>, n: i64) -> Result<(), OutOfMemory>
    ensures { OnOk result (out.new.items ≡ out.old.items ++ signed_decimal n) }
{
    let mut digits = Text::new(*out.allocator());
    append_number(&mut digits, n)?;
    add(out, digits.bytes())
}

/// Adds the text of a decimal, which stands in a text of its own first and takes no memory there: it has 21 bytes at most.
#[inline(never)]
pub fn add_decimal(out: &mut Vec<u8>, millionths: i64) -> Result<(), OutOfMemory>
    ensures { OnOk result (out.new.items ≡ out.old.items ++ decimal_text millionths) }
{
    let mut digits = Text::new(*out.allocator());
    append_decimal(&mut digits, i128::from(millionths))?;
    add(out, digits.bytes())
}
