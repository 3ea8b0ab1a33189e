// What is wrong with a text that has no tokens.
ghost use Rattle.std.specs.Prelude.{◌≡◌};
ghost use Rattle.ad_lexer.specs.declared.fault.LexFault.TheVariants as faults;

use pool_text::OutOfMemory;
use std::alloc::{AllocError, AllocFailed};
use thiserror::Error;

/// The kinds of lexical faults.
#[derive(Clone, Copy, Debug, PartialEq, Eq)]
pub enum LexKind {
    /// A byte that begins no token, white space or comment, at that byte; byte 0 in a string or quoted name, at that
    /// byte; or an empty quoted name, at its opening quote.
    Character,
    /// A line feed or the end of the text before the closing quote, at the opening quote.
    StringEnd,
    /// A backslash that no escape follows, or an octal escape of 0 or over 127, at the backslash.
    Escape,
    /// No hexadecimal digit behind `0x`, an octal number with 8 or 9, an integer over 9223372036854775807, a decimal of more
    /// millionths than that, or a letter, digit or `_` directly behind the number, at its first digit.
    Number,
    /// `e`, `E`, or a `.` that no digit follows directly behind an integer that isn't hexadecimal, or `.`, `e` or `E` directly
    /// behind a decimal, at its first digit; or a digit directly behind a `.` that is no decimal's, at the dot.
    Decimal,
    /// `/*` with no `*/` behind it, at the slash.
    CommentEnd,
    /// The text isn't UTF-8, at the first byte of the ill-formed part.
    Encoding,
}

impl LexKind {
    ghost use Rattle.ad_lexer.specs.FaultNumbers.{kind_number};

    /// The number by which replies name the kind, from 1 to 7.
    pub fn number(&self) -> u8
        ensures { result ≡ kind_number self.now }
    {
        match self {
            LexKind::Character => 1,
            LexKind::StringEnd => 2,
            LexKind::Escape => 3,
            LexKind::Number => 4,
            LexKind::Decimal => 5,
            LexKind::CommentEnd => 6,
            LexKind::Encoding => 7,
        }
    }
}

/// Why `lex` gives no tokens.
#[derive(Clone, Copy, Debug, PartialEq, Eq, Error)]
pub enum LexFault {
    /// The first fault of the text, with its place in bytes from 0.
    #[error("{kind:?} at byte {place}")]
    At { kind: LexKind, place: u32 },
    #[error("out of memory")]
    OutOfMemory,
}

impl From<OutOfMemory> for LexFault {
    ghost from_gives = { λ _ fault. fault ≡ faults.OutOfMemory };

    fn from(_: OutOfMemory) -> Self {
        LexFault::OutOfMemory
    }
}

impl From<AllocError> for LexFault {
    ghost from_gives = { λ _ fault. fault ≡ faults.OutOfMemory };

    fn from(_: AllocError) -> Self {
        LexFault::OutOfMemory
    }
}

impl<T: Drop> From<AllocFailed<T>> for LexFault {
    ghost from_gives = { λ _ fault. fault ≡ faults.OutOfMemory };

    fn from(_: AllocFailed<T>) -> Self {
        LexFault::OutOfMemory
    }
}
