// A text is a list of bytes, of any encoding.
ghost use Rattle.std.specs.Prelude.{◌≡◌, ◌+◌, ◌≤◌, ◌++◌, [], IfOk, IsOk, OnOk, OnErr, length, take, nat_eq};
ghost use Rattle.std.specs.Cmp.{partial_equiv_from_equiv};
ghost use Rattle.std.specs.Cmp.Lexicographic.{nat_list_eq_equiv, pointwise};

use crate::OutOfMemory;
use crate::short_text::{LONGEST_SHORT_TEXT, ShortText};
use crate::spelling::are_spelled_alike;
use std::alloc::Global;
use std::fmt;
use std::marker::Model;

// A text that grows beyond its place is most often a block or a reply, which goes on growing.
const FIRST_ROOM: usize = 1_024;

/// A growing list of bytes, which contracts see as that list. It needs not be UTF-8.
///
/// It is 24 bytes in size, and a text of up to 22 bytes, as most names are, takes no memory beside them: an ad holds some
/// hundred texts, and its expressions are as large as the texts in them.
#[derive(Drop)]
pub struct Text {
    alloc: Global,
    bytes: Bytes,
}

#[derive(Drop)]
enum Bytes {
    Short(ShortText),
    Long(Box<Vec<u8>>),
}

impl Model for Text {
    ghost use Rattle.std.specs.Prelude.{List, ℕ};
    ghost use Rattle.pool_text.specs.Texts.{StandInPlaceIfShort, bytes_of};

    ghost Value = { List ℕ };

    ghost view = { λ t. bytes_of t.bytes };

    ghost invariant = { λ t. StandInPlaceIfShort t.bytes };
}

impl PartialEq for Text {
    ghost eq = { pointwise nat_eq };

    ghost laws = { partial_equiv_from_equiv nat_list_eq_equiv };

    fn eq(&self, other: &Text) -> bool {
        are_same(self.bytes(), other.bytes())
    }
}

impl Eq for Text {
    ghost laws = { nat_list_eq_equiv };
}

impl fmt::Debug for Text {
    fn fmt<W: fmt::Write>(&self, f: &mut fmt::Formatter<W>) -> fmt::Result {
        self.bytes().fmt(f)
    }
}

impl Text {
    /// The empty text, which takes no memory yet.
    pub fn new(alloc: Global) -> Text
        ensures { result ≡ [] }
    {
        Text {
            alloc,
            bytes: Bytes::Short(ShortText::new()),
        }
    }

    /// A text with these bytes. Up to 22 are never refused, since they take no memory.
    pub fn from_bytes(alloc: Global, bytes: &[u8]) -> Result<Text, OutOfMemory>
        ensures text { IfOk result (λ t. t ≡ bytes.now) }
        ensures short { length bytes.now ≤ 22 → IsOk result }
    {
        let mut short = ShortText::new();
        let bytes = if short.has_room(bytes.len()) {
            short.append(bytes);
            Bytes::Short(short)
        } else {
            Bytes::Long(joined(alloc, bytes.len(), &[], bytes)?)
        };
        Ok(Text { alloc, bytes })
    }

    /// A text with the first `len` bytes. It takes less time than one with as many bytes of which none is known to stand behind
    /// them. Up to 22 are never refused.
    #[inline(always)]
    pub fn from_front(alloc: Global, bytes: &[u8], len: usize) -> Result<Text, OutOfMemory>
        requires { len ≤ length bytes.now }
        ensures text { IfOk result (λ t. t ≡ take len bytes.now) }
        ensures short { len ≤ 22 → IsOk result }
    {
        if len > LONGEST_SHORT_TEXT || bytes.len() < LONGEST_SHORT_TEXT {
            return Text::from_bytes(alloc, &bytes[..len]);
        }
        Ok(Text {
            alloc,
            bytes: Bytes::Short(ShortText::from_front(bytes, len)),
        })
    }

    /// A text with the bytes of a list, which isn't copied where they are more than 22. Its room stays as it is. Up to 22 bytes are
    /// never refused.
    pub fn from_vec(alloc: Global, bytes: Vec<u8>) -> Result<Text, OutOfMemory>
        ensures text { IfOk result (λ t. t ≡ bytes.items) }
        ensures short { length bytes.items ≤ 22 → IsOk result }
    {
        if bytes.len() <= LONGEST_SHORT_TEXT {
            return Text::from_bytes(alloc, &bytes);
        }
        Ok(Text {
            alloc,
            bytes: Bytes::Long(Box::new(alloc, bytes)?),
        })
    }

    /// A second text with the same bytes. It isn't refused where they are no more than 22.
    pub fn copy(&self) -> Result<Text, OutOfMemory>
        ensures text { IfOk result (λ t. t ≡ self.now) }
        ensures short { length self.now ≤ 22 → IsOk result }
    {
        Text::from_bytes(self.alloc, self.bytes())
    }

    /// The bytes.
    pub fn bytes(&self) -> &[u8]
        ensures { result.now ≡ self.now }
    {
        match &self.bytes {
            Bytes::Short(short) => short.bytes(),
            Bytes::Long(long) => long.as_slice(),
        }
    }

    /// Adds bytes at the end, all of them or none. They aren't refused where the text has no more than 22 bytes then.
    pub fn append(&mut self, bytes: &[u8]) -> Result<(), OutOfMemory>
        ensures ok { OnOk result (self.new ≡ self.old ++ bytes.now) }
        ensures err { OnErr result (self.new ≡ self.old) }
        ensures short { length self.old + length bytes.now ≤ 22 → IsOk result }
    {
        match &mut self.bytes {
            Bytes::Long(long) => long.extend_from_slice(bytes)?,
            Bytes::Short(short) => {
                if short.has_room(bytes.len()) {
                    short.append(bytes);
                } else {
                    let room = FIRST_ROOM.max(short.bytes().len() + bytes.len());
                    self.bytes = Bytes::Long(joined(self.alloc, room, short.bytes(), bytes)?);
                }
            }
        }
        Ok(())
    }
}

// Whether the bytes are the same. Most that differ do in their lengths.
#[inline(always)]
fn are_same(a: &[u8], b: &[u8]) -> bool
    ensures { result ≡ pointwise nat_eq a.now b.now }
{
    a.len() == b.len() && are_spelled_alike(a, b)
}

// The bytes of both in a place of their own, with room for so many at least.
#[cold]
#[inline(never)]
fn joined(
    alloc: Global,
    room: usize,
    first: &[u8],
    second: &[u8],
) -> Result<Box<Vec<u8>>, OutOfMemory>
    ensures { IfOk result (λ long. long.value.items ≡ first.now ++ second.now) }
{
    let mut long = Vec::new(alloc);
    long.reserve_exact(room)?;
    long.extend_from_slice(first)?;
    long.extend_from_slice(second)?;
    Ok(Box::new(alloc, long)?)
}
