// Integers and decimals, and the numbers that are neither.
ghost use Rattle.std.specs.Prelude.{◌≡◌, ◌<◌, ◌≤◌, ◌^◌, ◌&&◌, nat_lt, length, slice_index, take, true, false};
ghost use Rattle.std.specs.Char.{digit_value, is_ascii_digit, is_ascii_hexdigit, is_digit};
ghost use Rattle.std.specs.List.{list_all, prefix_len};
ghost use Rattle.std.specs.Str.Parse.{digits_value};
ghost use Rattle.ad_lexer.specs.Numbers as numbers;
ghost use Rattle.ad_lexer.specs.Reading as spec;

use crate::bytes::{Class, behind, byte_at, front, is_in, run_len};
use crate::decimals::is_decimal;
use crate::fault::LexKind;
use crate::next::{Begin, Step};
use crate::token::TokenKind;

/// Numbers of at most so many decimal digits are below 2^63.
const SHORT_DIGITS: usize = 18;

/// The same of hexadecimal ones.
const SHORT_HEXADECIMAL_DIGITS: usize = 15;

/// What each byte is as a digit in the bases up to 36, or 36 where it is none. One look is quicker than a test for digits, capitals
/// and small letters.
const DIGIT_VALUES: [u8; 256] = [
    36, 36, 36, 36, 36, 36, 36, 36, 36, 36, 36, 36, 36, 36, 36, 36, 36, 36, 36, 36, 36, 36, 36, 36,
    36, 36, 36, 36, 36, 36, 36, 36, 36, 36, 36, 36, 36, 36, 36, 36, 36, 36, 36, 36, 36, 36, 36, 36,
    0, 1, 2, 3, 4, 5, 6, 7, 8, 9, 36, 36, 36, 36, 36, 36, 36, 10, 11, 12, 13, 14, 15, 16, 17, 18,
    19, 20, 21, 22, 23, 24, 25, 26, 27, 28, 29, 30, 31, 32, 33, 34, 35, 36, 36, 36, 36, 36, 36, 10,
    11, 12, 13, 14, 15, 16, 17, 18, 19, 20, 21, 22, 23, 24, 25, 26, 27, 28, 29, 30, 31, 32, 33, 34,
    35, 36, 36, 36, 36, 36, 36, 36, 36, 36, 36, 36, 36, 36, 36, 36, 36, 36, 36, 36, 36, 36, 36, 36,
    36, 36, 36, 36, 36, 36, 36, 36, 36, 36, 36, 36, 36, 36, 36, 36, 36, 36, 36, 36, 36, 36, 36, 36,
    36, 36, 36, 36, 36, 36, 36, 36, 36, 36, 36, 36, 36, 36, 36, 36, 36, 36, 36, 36, 36, 36, 36, 36,
    36, 36, 36, 36, 36, 36, 36, 36, 36, 36, 36, 36, 36, 36, 36, 36, 36, 36, 36, 36, 36, 36, 36, 36,
    36, 36, 36, 36, 36, 36, 36, 36, 36, 36, 36, 36, 36, 36, 36, 36, 36, 36, 36, 36, 36, 36, 36, 36,
    36, 36, 36, 36, 36, 36, 36, 36, 36, 36, 36, 36, 36, 36,
];

/// Whether the text begins with `0x` or `0X`.
fn is_hexadecimal(text: &[u8]) -> bool
    ensures { result ≡ numbers.is_hexadecimal text.now }
{
    let mark = byte_at(text, 1);
    byte_at(text, 0) == b'0' && (mark == b'x' || mark == b'X')
}

/// The length of the number that the text begins with, and whether it is a decimal.
fn number_at(text: &[u8]) -> (usize, bool)
    ensures len { result.0 ≡ numbers.number_len text.now }
    ensures decimal { result.1 ≡ numbers.has_fraction text.now }
    ensures within { result.0 ≤ length text.now }
{
    if is_hexadecimal(text) {
        return (2 + hexadecimal_len(behind(text, 2)), false);
    }
    let len = run_len(Class::Decimal, text);
    if byte_at(text, len) == b'.' && byte_at(text, len + 1).is_ascii_digit() {
        (len + 1 + fraction_len(behind(text, len + 1)), true)
    } else {
        (len, false)
    }
}

/// How many decimal digits the text begins with. Few numbers have digits behind a dot, so that it stays out of the loop over a
/// text.
#[inline(never)]
fn fraction_len(text: &[u8]) -> usize
    ensures value { result ≡ numbers.digits_len text.now }
    ensures within { result ≤ length text.now }
{
    run_len(Class::Decimal, text)
}

/// How many hexadecimal digits the text begins with. Few numbers have them, so that it stays out of the loop over a text.
#[inline(never)]
fn hexadecimal_len(text: &[u8]) -> usize
    ensures value { result ≡ prefix_len is_ascii_hexdigit text.now }
    ensures within { result ≤ length text.now }
{
    run_len(Class::Hexadecimal, text)
}

/// The integer or decimal that the text begins with, or its fault.
#[tactic(auto, using(crate::proofs::Begins::number_some), unfolding(crate::specs::Reading::number))]
pub fn number(text: &[u8]) -> Step
    requires some { 0 < length text.now }
    requires digit { spec.begin_of (slice_index text.now 0) ≡ Begin.Number }
    ensures value { result ≡ spec.number text.now }
    ensures within { spec.IsWithin (length text.now) result }
{
    let (len, decimal) = number_at(text);
    let next = byte_at(text, len);
    let is_mark = next == b'.' || next == b'e' || next == b'E';
    if is_mark && !is_hexadecimal(text) {
        Step::Fault(LexKind::Decimal, 0)
    } else if is_whole(text, len, decimal) {
        Step::Token(number_kind(decimal), len)
    } else {
        Step::Fault(LexKind::Number, 0)
    }
}

fn number_kind(decimal: bool) -> TokenKind
    ensures { result ≡ spec.number_kind decimal }
{
    if decimal {
        TokenKind::Dec
    } else {
        TokenKind::Int
    }
}

/// Whether the first `len` bytes are an integer or a decimal with no letter, digit or `_` behind it.
#[tactic(auto, unfolding(crate::specs::Reading::is_whole))]
fn is_whole(text: &[u8], len: usize, decimal: bool) -> bool
    requires some { 0 < len }
    requires digit { is_ascii_digit (slice_index text.now 0) ≡ true }
    requires within { len ≤ length text.now }
    requires number { len ≡ numbers.number_len text.now }
    requires decimal { decimal ≡ numbers.has_fraction text.now }
    ensures { result ≡ spec.is_whole text.now len }
{
    !is_in(Class::Word, byte_at(text, len)) && is_number(text, len, decimal)
}

/// Whether the first `len` bytes are an integer or a decimal.
fn is_number(text: &[u8], len: usize, decimal: bool) -> bool
    requires some { 0 < len }
    requires digit { is_ascii_digit (slice_index text.now 0) ≡ true }
    requires within { len ≤ length text.now }
    requires number { len ≡ numbers.number_len text.now }
    requires decimal { decimal ≡ numbers.has_fraction text.now }
    ensures { result ≡ numbers.is_number decimal (take len text.now) }
{
    if decimal {
        is_decimal(front(text, len))
    } else {
        is_short(text, len) || is_integer(front(text, len))
    }
}

/// Whether the number is one digit, or has decimal digits of which the first isn't 0 or hexadecimal ones, and so few that their
/// value fits.
fn is_short(text: &[u8], len: usize) -> bool
    requires some { 0 < len }
    requires number { len ≡ numbers.number_len text.now }
    requires integer { numbers.has_fraction text.now ≡ false }
    ensures { result ≡ true → numbers.is_integer (take len text.now) ≡ true }
{
    if is_hexadecimal(text) {
        2 < len && len <= 2 + SHORT_HEXADECIMAL_DIGITS
    } else {
        len == 1 || (len <= SHORT_DIGITS && byte_at(text, 0) > b'0')
    }
}

/// Whether a number has digits of its base alone, and a value below 2^63. Few numbers need it, so that it stays out of
/// the loop over a text.
#[inline(never)]
fn is_integer(number: &[u8]) -> bool
    ensures { result ≡ numbers.is_integer number.now }
{
    let (base, digits) = digits(number);
    digits.len() > 0 && has_value(base, digits)
}

/// The base of an integer, and its digits. Most are decimal, and begin with no 0.
pub fn digits(number: &[u8]) -> (u64, &[u8])
    ensures base { result.0 ≡ numbers.base number.now }
    ensures low { 8 ≤ result.0 }
    ensures high { result.0 ≤ 16 }
    ensures digits { result.1.now ≡ numbers.digits number.now }
{
    if byte_at(number, 0) != b'0' || number.len() == 1 {
        (10, number)
    } else if is_hexadecimal(number) {
        (16, behind(number, 2))
    } else {
        (8, number)
    }
}

/// Whether the bytes are digits of the base, and their value is below 2^63.
pub fn has_value(base: u64, digits: &[u8]) -> bool
    requires low { 2 ≤ base }
    requires high { base ≤ 16 }
    ensures { result ≡ (list_all (λ c. is_digit c base) digits.now && nat_lt (digits_value base digits.now) (2 ^ 63)) }
{
    let mut value: u64 = 0;
    for byte in digits {
        let digit = digit_value(*byte);
        if base <= digit {
            return false;
        }
        let next = u128::from(value) * u128::from(base) + u128::from(digit);
        if next >= 1 << 63 {
            return false;
        }
        value = next as u64;
    }
    true
}

/// The value of a digit or a letter in the bases up to 36, or 36 where the byte is neither.
pub fn digit_value(byte: u8) -> u64
    ensures { result ≡ digit_value byte }
{
    u64::from(DIGIT_VALUES[byte as usize])
}
