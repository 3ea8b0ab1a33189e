// Names and strings are compared after `A` to `Z` are made small.
ghost use Rattle.std.specs.Prelude.{◌≡◌, ◌↔◌, ◌≤◌, drop, length, take, IfOk, IsTrue};
ghost use Rattle.std.specs.Char.{to_ascii_lowercase};
ghost use Rattle.pool_text.specs.Folding.{folded, text_order};

use crate::spelling::are_spelled_alike;
use crate::{OutOfMemory, Text};
use std::alloc::Global;
use std::cmp::Ordering;
use std::simd::prelude::*;

/// How many bytes are folded together.
const LANES: usize = 16;

/// The bytes with the letters `A` to `Z` made small.
pub fn fold(alloc: Global, bytes: &[u8]) -> Result<Text, OutOfMemory>
    ensures { IfOk result (λ t. t ≡ folded bytes.now) }
{
    let small = bytes.to_ascii_lowercase(alloc)?;
    Text::from_bytes(alloc, &small)
}

/// Whether the bytes are equal after folding. Most texts that are equal are spelled alike; most that differ do in their lengths, or
/// in their first or last letters.
#[inline(always)]
pub fn same_folded(a: &[u8], b: &[u8]) -> bool
    ensures { IsTrue result ↔ (folded a.now ≡ folded b.now) }
{
    if a.len() != b.len() {
        return false;
    }
    are_spelled_alike(a, b) || may_be_same(a, b) && have_same_letters(a, b)
}

// Whether the first and the last letter don't tell texts of one length apart. Capital and small letters differ in the bit of 32.
#[inline(always)]
fn may_be_same(a: &[u8], b: &[u8]) -> bool
    requires { length a.now ≡ length b.now }
    ensures { folded a.now ≡ folded b.now → IsTrue result }
{
    let len = a.len();
    len == 0 || may_be_same_letter(a[0], b[0]) && may_be_same_letter(a[len - 1], b[len - 1])
}

#[inline(always)]
fn may_be_same_letter(x: u8, y: u8) -> bool
    ensures { to_ascii_lowercase x ≡ to_ascii_lowercase y → IsTrue result }
{
    x | 32 == y | 32
}

#[cold]
#[inline(never)]
fn have_same_letters(a: &[u8], b: &[u8]) -> bool
    ensures { IsTrue result ↔ (folded a.now ≡ folded b.now) }
{
    let mut left = a;
    let mut right = b;
    while let [x, left_rest @ ..] = left {
        let [y, right_rest @ ..] = right else {
            return false;
        };
        if !is_same_letter(*x, *y) {
            return false;
        }
        left = left_rest;
        right = right_rest;
    }
    right.is_empty()
}

// Most letters that are equal are spelled alike.
#[inline(always)]
fn is_same_letter(x: u8, y: u8) -> bool
    ensures { IsTrue result ↔ (to_ascii_lowercase x ≡ to_ascii_lowercase y) }
{
    x == y || x.to_ascii_lowercase() == y.to_ascii_lowercase()
}

/// How the bytes compare after folding, byte by byte, the shorter first where it begins the longer.
pub fn order_folded(a: &[u8], b: &[u8]) -> Ordering
    ensures { result ≡ text_order a.now b.now }
{
    let mut left = a;
    let mut right = b;
    while left.len() >= LANES && right.len() >= LANES && begin_alike(left, right) {
        left = behind_lanes(left);
        right = behind_lanes(right);
    }
    letter_order(left, right)
}

// Whether the first bytes of both, as many as are folded together, are equal after folding.
#[inline(always)]
fn begin_alike(a: &[u8], b: &[u8]) -> bool
    requires left { 16 ≤ length a.now }
    requires right { 16 ≤ length b.now }
    ensures { IsTrue result → folded (take 16 a.now) ≡ folded (take 16 b.now) }
{
    small_letters(u8x16::from_slice(a)) == small_letters(u8x16::from_slice(b))
}

// What is behind them.
#[inline(always)]
fn behind_lanes(bytes: &[u8]) -> &[u8]
    requires { 16 ≤ length bytes.now }
    ensures { result.now ≡ drop 16 bytes.now }
{
    &bytes[LANES..]
}

// Sixteen bytes with the letters `A` to `Z` made small.
#[inline(always)]
fn small_letters(bytes: u8x16) -> u8x16
    ensures { result ≡ folded bytes }
{
    let from_a = bytes - u8x16::splat(b'A');
    let is_capital = from_a.simd_lt(u8x16::splat(26));
    is_capital.select(bytes + u8x16::splat(32), bytes)
}

// The same, letter by letter.
fn letter_order(a: &[u8], b: &[u8]) -> Ordering
    ensures { result ≡ text_order a.now b.now }
{
    let mut left = a;
    let mut right = b;
    while let [x, left_rest @ ..] = left {
        let [y, right_rest @ ..] = right else {
            return Ordering::Greater;
        };
        let order = x.to_ascii_lowercase().cmp(&y.to_ascii_lowercase());
        if order != Ordering::Equal {
            return order;
        }
        left = left_rest;
        right = right_rest;
    }
    0.cmp(&right.len())
}
