// Runs of bytes of one class.
ghost use Rattle.std.specs.Prelude.{◌≡◌, ◌≤◌, ◌<◌, drop, length, map, slice_index, take};
ghost use Rattle.std.specs.List.{prefix_len};
ghost use Rattle.std.specs.Simd.Lanes.{mask_l};
ghost use Rattle.ad_lexer.specs.Reading.{is_in, is_outside};

use std::simd::prelude::*;

/// The bytes that runs are made of.
#[derive(Clone, Copy)]
pub enum Class {
    /// White space.
    Space,
    /// Letters, digits and `_`.
    Word,
    /// `0` to `9`.
    Decimal,
    /// These and `a` to `f`, capital or small.
    Hexadecimal,
    /// All but the line feed.
    Line,
    /// What stands for itself between quotes of either kind.
    Plain,
}

/// Whether each byte is a letter, a digit or `_`. One look is quicker than three tests.
const WORD_BYTES: [bool; 256] = [
    false, false, false, false, false, false, false, false, false, false, false, false, false,
    false, false, false, false, false, false, false, false, false, false, false, false, false,
    false, false, false, false, false, false, false, false, false, false, false, false, false,
    false, false, false, false, false, false, false, false, false, true, true, true, true, true,
    true, true, true, true, true, false, false, false, false, false, false, false, true, true,
    true, true, true, true, true, true, true, true, true, true, true, true, true, true, true, true,
    true, true, true, true, true, true, true, true, false, false, false, false, true, false, true,
    true, true, true, true, true, true, true, true, true, true, true, true, true, true, true, true,
    true, true, true, true, true, true, true, true, true, false, false, false, false, false, false,
    false, false, false, false, false, false, false, false, false, false, false, false, false,
    false, false, false, false, false, false, false, false, false, false, false, false, false,
    false, false, false, false, false, false, false, false, false, false, false, false, false,
    false, false, false, false, false, false, false, false, false, false, false, false, false,
    false, false, false, false, false, false, false, false, false, false, false, false, false,
    false, false, false, false, false, false, false, false, false, false, false, false, false,
    false, false, false, false, false, false, false, false, false, false, false, false, false,
    false, false, false, false, false, false, false, false, false, false, false, false, false,
    false, false, false, false, false, false, false, false, false, false, false, false, false,
    false, false, false, false, false, false, false, false, false, false,
];

/// Whether each byte stands for itself between quotes of either kind.
const PLAIN_BYTES: [bool; 256] = [
    false, true, true, true, true, true, true, true, true, true, false, true, true, true, true,
    true, true, true, true, true, true, true, true, true, true, true, true, true, true, true, true,
    true, true, true, false, true, true, true, true, false, true, true, true, true, true, true,
    true, true, true, true, true, true, true, true, true, true, true, true, true, true, true, true,
    true, true, true, true, true, true, true, true, true, true, true, true, true, true, true, true,
    true, true, true, true, true, true, true, true, true, true, true, true, true, true, false,
    true, true, true, true, true, true, true, true, true, true, true, true, true, true, true, true,
    true, true, true, true, true, true, true, true, true, true, true, true, true, true, true, true,
    true, true, true, true, true, true, true, true, true, true, true, true, true, true, true, true,
    true, true, true, true, true, true, true, true, true, true, true, true, true, true, true, true,
    true, true, true, true, true, true, true, true, true, true, true, true, true, true, true, true,
    true, true, true, true, true, true, true, true, true, true, true, true, true, true, true, true,
    true, true, true, true, true, true, true, true, true, true, true, true, true, true, true, true,
    true, true, true, true, true, true, true, true, true, true, true, true, true, true, true, true,
    true, true, true, true, true, true, true, true, true, true, true, true, true, true, true, true,
    true, true, true, true, true, true, true, true, true, true, true, true, true, true, true, true,
    true, true, true,
];

/// Whether a byte is of the class.
pub fn is_in(class: Class, byte: u8) -> bool
    ensures { result ≡ is_in class byte }
{
    match class {
        Class::Space => {
            byte == b' ' || byte == b'\t' || byte == b'\n' || byte == b'\r' || byte == 12
        }
        Class::Word => WORD_BYTES[byte as usize],
        Class::Decimal => byte.is_ascii_digit(),
        Class::Hexadecimal => byte.is_ascii_hexdigit(),
        Class::Line => byte != b'\n',
        Class::Plain => PLAIN_BYTES[byte as usize],
    }
}

/// How many bytes are looked at together.
const LANES: usize = 16;

/// A bit for each of the bytes that isn't of the class.
#[inline(always)]
fn stops(class: Class, bytes: u8x16) -> u64
    ensures { result ≡ mask_l (map (is_outside class) bytes) }
{
    match class {
        Class::Space => (bytes.simd_ne(u8x16::splat(b' '))
            & bytes.simd_ne(u8x16::splat(b'\t'))
            & bytes.simd_ne(u8x16::splat(b'\n'))
            & bytes.simd_ne(u8x16::splat(b'\r'))
            & bytes.simd_ne(u8x16::splat(12))).to_bitmask(),
        Class::Word => {
            let from_a = (bytes | u8x16::splat(32)) - u8x16::splat(b'a');
            let from_0 = bytes - u8x16::splat(b'0');
            (from_a.simd_ge(u8x16::splat(26))
                & from_0.simd_ge(u8x16::splat(10))
                & bytes.simd_ne(u8x16::splat(b'_'))).to_bitmask()
        }
        Class::Decimal => {
            let from_0 = bytes - u8x16::splat(b'0');
            from_0.simd_ge(u8x16::splat(10)).to_bitmask()
        }
        Class::Hexadecimal => {
            let from_a = (bytes | u8x16::splat(32)) - u8x16::splat(b'a');
            let from_0 = bytes - u8x16::splat(b'0');
            (from_a.simd_ge(u8x16::splat(6)) & from_0.simd_ge(u8x16::splat(10))).to_bitmask()
        }
        Class::Line => bytes.simd_eq(u8x16::splat(b'\n')).to_bitmask(),
        Class::Plain => (bytes.simd_eq(u8x16::splat(b'"'))
            | bytes.simd_eq(u8x16::splat(b'\''))
            | bytes.simd_eq(u8x16::splat(b'\\'))
            | bytes.simd_eq(u8x16::splat(b'\n'))
            | bytes.simd_eq(u8x16::splat(0))).to_bitmask(),
    }
}

/// How many bytes at the front of the text are of the class. A run ends somewhere else each time, so that a loop over single bytes
/// often takes the wrong branch at its end; most runs end among the first bytes that are looked at together. Each caller has one
/// class, and only its tests where the function stands in it.
#[inline(always)]
pub fn run_len(class: Class, text: &[u8]) -> usize
    ensures value { result ≡ prefix_len (is_in class) text.now }
    ensures within { result ≤ length text.now }
{
    let mut len = 0;
    while text.len() - len >= LANES {
        let found = stops(class, u8x16::from_slice(&text[len..]));
        if found != 0 {
            return len + found.trailing_zeros() as usize;
        }
        len += LANES;
    }
    len + short_run_len(class, behind(text, len))
}

/// The same, byte by byte.
fn short_run_len(class: Class, text: &[u8]) -> usize
    ensures value { result ≡ prefix_len (is_in class) text.now }
    ensures within { result ≤ length text.now }
{
    let mut len = 0;
    let mut rest = text;
    while let [byte, more @ ..] = rest {
        if !is_in(class, *byte) {
            break;
        }
        len += 1;
        rest = more;
    }
    len
}

/// The byte at a place, or 0 behind the end.
pub fn byte_at(text: &[u8], place: usize) -> u8
    ensures value { result ≡ slice_index text.now place }
    ensures within { 0 < result → place < length text.now }
{
    if place < text.len() { text[place] } else { 0 }
}

/// The first `len` bytes of the text.
pub fn front(text: &[u8], len: usize) -> &[u8]
    requires { len ≤ length text.now }
    ensures { result.now ≡ take len text.now }
{
    &text[..len]
}

/// The text without its first `len` bytes.
pub fn behind(text: &[u8], len: usize) -> &[u8]
    requires { len ≤ length text.now }
    ensures { result.now ≡ drop len text.now }
{
    &text[len..]
}
