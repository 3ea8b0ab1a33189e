// Names, by which the attributes of a frame are found.
ghost use Rattle.std.specs.Prelude.{◌≡◌, ◌<◌, ◌≤◌, length, map, take};
ghost use Rattle.std.specs.Cmp.{partial_equiv_from_equiv};
ghost use Rattle.std.specs.Cmp.Lexicographic.{nat_list_eq_equiv, on_texts_equal};
ghost use Rattle.std.specs.Int.{w32, from_be_bytes};
ghost use Rattle.pool_text.specs.Digests.{letter};
ghost use Rattle.pool_text.specs.Folding.{folded};
ghost use Rattle.ad_tree.specs.Names.{same_name};
ghost use Rattle.ad_tree.specs.Words.{equal_names, hashed_name, last_word};

use crate::attribute::Attribute;
use indexmap::Equivalent;
use pool_text::same_folded;
use std::hash::{Hash, Hasher};
use std::simd::prelude::*;

/// The bit in which small letters differ from capital ones.
const SMALL: u8 = 32;

/// A name. Keys are equal where their names are after folding.
#[derive(Clone, Copy)]
pub struct NameKey<'a> {
    pub name: &'a [u8],
}

impl<'a> PartialEq for NameKey<'a> {
    ghost eq = { λ a b. same_name a.name.now b.name.now };

    ghost laws = { partial_equiv_from_equiv (on_texts_equal (λ a. folded a.name.now)) };

    fn eq(&self, other: &NameKey<'a>) -> bool {
        same_folded(self.name, other.name)
    }
}

impl<'a> Eq for NameKey<'a> {
    ghost laws = { on_texts_equal (λ a. folded a.name.now) };
}

impl<'a> Hash for NameKey<'a> {
    ghost hash_input = { λ a. hashed_name a.name.now };

    ghost respects_eq = { λ a b. equal_names.fed a.name.now b.name.now };

    // Eight letters are read at once, and those that are left as one word more.
    #[inline(always)]
    fn hash<H: Hasher>(&self, state: &mut H) {
        let mut rest = self.name;
        while rest.len() >= 8 {
            let letters = u8x8::from_slice(rest) | u8x8::splat(SMALL);
            state.write_u64(u64::from_be_bytes(letters.to_array()));
            rest = &rest[8..];
        }
        state.write_u64(last_word(rest));
    }
}

// Fewer than eight letters as a word: the first four and the last four, some of which may be the same.
#[inline(always)]
fn last_word(letters: &[u8]) -> u64
    requires { length letters.now < 8 }
    ensures { result ≡ last_word (map letter letters.now) }
{
    match letters {
        [] => 0,
        [a] => u64::from(*a | SMALL),
        [a, b] => u64::from(u16::from_be_bytes([*a | SMALL, *b | SMALL])),
        [a, b, c] => u64::from(u32::from_be_bytes([0, *a | SMALL, *b | SMALL, *c | SMALL])),
        _ => {
            let last = &letters[letters.len() - 4..];
            u64::from(half_word(letters)) * (1 << 32) + u64::from(half_word(last))
        }
    }
}

// The first four letters as a number.
#[inline(always)]
fn half_word(letters: &[u8]) -> u32
    requires { 4 ≤ length letters.now }
    ensures { result ≡ from_be_bytes w32 (map letter (take 4 letters.now)) }
{
    u32::from_be_bytes((u8x4::from_slice(letters) | u8x4::splat(SMALL)).to_array())
}

impl<'a> Equivalent<Attribute> for NameKey<'a> {
    ghost equivalent = { λ key a. same_name key.name.now a.name };

    ghost respects_hash = { λ key a. equal_names.fed key.name.now a.name };

    ghost respects_eq = { λ key a b. nat_list_eq_equiv.congr (folded key.name.now) (folded a.name) (folded b.name) };

    #[inline(always)]
    fn equivalent(&self, attribute: &Attribute) -> bool {
        same_folded(self.name, attribute.name.bytes())
    }
}
