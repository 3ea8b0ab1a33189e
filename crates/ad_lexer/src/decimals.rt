// Decimals, as whole numbers of millionths.
ghost use Rattle.std.specs.Prelude.{◌≡◌, ◌<◌, ◌≤◌, ◌^◌, length, pos, slice_index_or, true, SomeIff};
ghost use Rattle.std.specs.Char.{digit_value};
ghost use Rattle.std.specs.Str.Parse.{digits_value};
ghost use Rattle.ad_lexer.specs.Numbers as numbers;

use crate::bytes::{Class, behind, front, run_len};
use crate::decode::digits_value;
use crate::number::{digit_value, has_value};

const MILLION: u128 = 1_000_000;

/// How many millionths the bytes of a decimal spell.
pub fn decimal(spelling: &[u8]) -> i64
    requires dot { numbers.digits_len spelling.now < length spelling.now }
    requires fits { numbers.millionths spelling.now < 2 ^ 63 }
    ensures { result ≡ pos (numbers.millionths spelling.now) }
{
    millionths(spelling).unwrap_or(0) as i64
}

/// Whether the millionths of digits, a dot and digits are few enough.
pub fn is_decimal(number: &[u8]) -> bool
    requires { numbers.is_dotted number.now ≡ true }
    ensures { result ≡ numbers.is_decimal_number number.now }
{
    millionths(number).is_some()
}

/// The millionths of digits, a dot and more digits, or none where they are 2^63 or more. Digits behind the sixth are cut. Few numbers
/// are decimals, so that it stays out of the loop over a text.
#[inline(never)]
fn millionths(number: &[u8]) -> Option<u64>
    requires { numbers.digits_len number.now < length number.now }
    ensures { SomeIff result (numbers.millionths number.now < 2 ^ 63) (numbers.millionths number.now) }
{
    let len = run_len(Class::Decimal, number);
    let whole = front(number, len);
    if !has_value(10, whole) {
        return None;
    }
    let millions = u128::from(digits_value(10, whole)) * MILLION;
    let exact = millions + u128::from(first_six(behind(number, len + 1)));
    if exact < 1 << 63 {
        Some(exact as u64)
    } else {
        None
    }
}

/// What the first six digits write, filled up with zeros.
fn first_six(digits: &[u8]) -> u64
    ensures { result ≡ digits_value 10 (numbers.first_six digits.now) }
{
    digit_at(digits, 0) * 100_000
        + digit_at(digits, 1) * 10_000
        + digit_at(digits, 2) * 1_000
        + digit_at(digits, 3) * 100
        + digit_at(digits, 4) * 10
        + digit_at(digits, 5)
}

/// The digit at a place, or 0 behind the end.
#[tactic(auto, using(crate::proofs::FractionLemmas::digit_small))]
fn digit_at(digits: &[u8], place: usize) -> u64
    ensures value { result ≡ digit_value (slice_index_or digits.now place 48) }
    ensures small { result ≤ 36 }
{
    if place < digits.len() {
        digit_value(digits[place])
    } else {
        0
    }
}
