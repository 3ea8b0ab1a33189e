// What strings, quoted names and integers mean.
ghost use Rattle.std.specs.Prelude.{◌≡◌, ◌<◌, ◌≤◌, ◌^◌, pos, IfOk};
ghost use Rattle.std.specs.Str.Parse.{digits_value};
ghost use Rattle.ad_lexer.specs.Content.{content};
ghost use Rattle.ad_lexer.specs.Numbers.{value};
ghost use Rattle.ad_lexer.specs.Quoted.{IsQuotation};

use crate::bytes::{Class, behind, byte_at, front, run_len};
use crate::number::{digit_value, digits};
use crate::quoted::{Front, front_of};
use pool_text::OutOfMemory;
use std::alloc::Global;

/// What the letters between the quotes of a string or a quoted name mean, where some are escapes. Few have any, so that it stays
/// out of the rules that read names and strings.
#[inline(never)]
pub fn unescaped(alloc: Global, spelling: &[u8]) -> Result<Vec<u8>, OutOfMemory>
    requires { ∥ IsQuotation spelling.now ∥₁ }
    ensures { IfOk result (λ bytes. bytes.items ≡ content spelling.now) }
{
    let quote = byte_at(spelling, 0);
    let mut rest = behind(spelling, 1);
    let mut bytes = Vec::with_capacity(alloc, spelling.len())?;
    loop {
        let plain = run_len(Class::Plain, rest);
        bytes.extend_from_slice(front(rest, plain))?;
        rest = behind(rest, plain);
        let Front::Letter(len, byte) = front_of(quote, rest) else {
            return Ok(bytes);
        };
        bytes.push(byte)?;
        rest = behind(rest, len);
    }
}

/// The value that the bytes of an integer spell, in one of the three bases.
pub fn integer(spelling: &[u8]) -> i64
    requires { value spelling.now < 2 ^ 63 }
    ensures { result ≡ pos (value spelling.now) }
{
    let (base, digits) = digits(spelling);
    digits_value(base, digits) as i64
}

/// The value of digits of a base.
pub fn digits_value(base: u64, digits: &[u8]) -> u64
    requires some { 1 ≤ base }
    requires high { base ≤ 16 }
    requires fits { digits_value base digits.now < 2 ^ 63 }
    ensures { result ≡ digits_value base digits.now }
{
    let mut value = 0;
    for byte in digits {
        value = value * base + digit_value(*byte);
    }
    value
}
