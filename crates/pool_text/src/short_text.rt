// Texts of a few bytes, which take no memory beside their own place.
ghost use Rattle.std.specs.Prelude.{◌≡◌, ◌+◌, ◌≤◌, ◌++◌, ◌↔◌, [], length, take, IsTrue};

use std::marker::Model;

/// A text of so many bytes takes no memory. With their number, and the mark that tells short from long, they are 24 bytes.
pub(crate) const LONGEST_SHORT_TEXT: usize = 22;

/// A list of up to `LONGEST_SHORT_TEXT` bytes, which contracts see as that list.
#[derive(Drop)]
pub struct ShortText {
    len: u8,
    bytes: [u8; LONGEST_SHORT_TEXT],
}

impl Model for ShortText {
    ghost use Rattle.std.specs.Prelude.{◌≤◌, List, ℕ, take};

    ghost Value = { List ℕ };

    ghost view = { λ t. take t.len t.bytes };

    ghost invariant = { λ t. t.len ≤ 22 };
}

impl ShortText {
    /// No bytes.
    pub fn new() -> ShortText
        ensures { result ≡ [] }
    {
        ShortText {
            len: 0,
            bytes: [0; LONGEST_SHORT_TEXT],
        }
    }

    /// The first `len` bytes. All that may stand in place are copied, as a copy of one size takes less time than one of a few
    /// bytes; no call shows those behind the text.
    #[inline(always)]
    pub fn from_front(bytes: &[u8], len: usize) -> ShortText
        requires few { len ≤ 22 }
        requires more { 22 ≤ length bytes.now }
        ensures { result ≡ take len bytes.now }
    {
        let mut place = [0; LONGEST_SHORT_TEXT];
        place.copy_from_slice(&bytes[..LONGEST_SHORT_TEXT]);
        ShortText {
            len: len as u8,
            bytes: place,
        }
    }

    /// The bytes of the text.
    pub fn bytes(&self) -> &[u8]
        ensures { result.now ≡ self.now }
    {
        &self.bytes[..usize::from(self.len)]
    }

    /// Whether so many bytes can be added.
    pub fn has_room(&self, more: usize) -> bool
        ensures { IsTrue result ↔ (length self.now + more ≤ 22) }
    {
        more <= LONGEST_SHORT_TEXT - usize::from(self.len)
    }

    /// Adds bytes at the end.
    pub fn append(&mut self, bytes: &[u8])
        requires { length self.old + length bytes.now ≤ 22 }
        ensures { self.new ≡ self.old ++ bytes.now }
    {
        let start = usize::from(self.len);
        let end = start + bytes.len();
        self.bytes[start..end].copy_from_slice(bytes);
        self.len = end as u8;
    }
}
