// Digests of names, by which attributes are found.
ghost use Rattle.std.specs.Prelude.{◌≡◌, ◌≤◌, length, map, take};
ghost use Rattle.std.specs.Int.{w32, w64, from_be_bytes};
ghost use Rattle.pool_text.specs.Folding.{folded};
ghost use Rattle.pool_text.specs.Digests.{letter, name_digest, word_from, stirred};

use std::simd::prelude::*;

/// So many letters make a word of a digest.
const WORD: usize = 8;

/// And so many half of one.
const HALF: usize = 4;

/// With a small multiplier, names of one digest are found by hand.
const MULTIPLIER: u64 = 6_364_136_223_846_793_005;

/// The bit in which small letters differ from capital ones.
const SMALL: u8 = 32;

/// A number that names share which are equal after folding, and few others do. It takes no memory.
pub fn name_digest(name: &[u8]) -> u64
    ensures { result ≡ name_digest name.now }
{
    let mut digest: u64 = 0;
    let mut rest = name;
    while rest.len() >= WORD {
        digest = stir(digest, whole_word(rest));
        rest = &rest[WORD..];
    }
    stir(digest, word_of(rest))
}

// A digest with one word more. In one half of the product alone, the first letters of a word would tell little.
#[inline(always)]
fn stir(digest: u64, word: u64) -> u64
    ensures { result ≡ stirred digest word }
{
    let product = u128::from(digest.wrapping_add(word)) * u128::from(MULTIPLIER);
    let low = (product % (1 << 64)) as u64;
    let high = (product >> 64) as u64;
    low.wrapping_add(high)
}

// The first eight letters as a number, the last lowest. They are read at once.
#[inline(always)]
fn whole_word(letters: &[u8]) -> u64
    requires { 8 ≤ length letters.now }
    ensures { result ≡ from_be_bytes w64 (map letter (take 8 letters.now)) }
{
    u64::from_be_bytes((u8x8::from_slice(letters) | u8x8::splat(SMALL)).to_array())
}

// The first four, likewise.
#[inline(always)]
fn half_word(letters: &[u8]) -> u32
    requires { 4 ≤ length letters.now }
    ensures { result ≡ from_be_bytes w32 (map letter (take 4 letters.now)) }
{
    u32::from_be_bytes((u8x4::from_slice(letters) | u8x4::splat(SMALL)).to_array())
}

// A few letters as a number, the last lowest.
#[inline(always)]
fn word_of(letters: &[u8]) -> u64
    ensures { result ≡ word_from 0 (folded letters.now) }
{
    if letters.len() < HALF {
        return word_with(0, letters);
    }
    word_with(u64::from(half_word(letters)), &letters[HALF..])
}

// The number of a few letters behind those that gave a number.
#[inline(always)]
fn word_with(first: u64, letters: &[u8]) -> u64
    ensures { result ≡ word_from first (folded letters.now) }
{
    let mut word = first;
    let mut rest = letters;
    while let [letter, behind @ ..] = rest {
        word = word
            .wrapping_mul(256)
            .wrapping_add(u64::from(*letter | SMALL));
        rest = behind;
    }
    word
}
