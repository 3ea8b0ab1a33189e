// What may be wrong with a text.
ghost use Rattle.std.specs.Prelude.{◌≡◌};
ghost use Rattle.ad_parser.specs.Faults.{of_lexical, of_stop};
ghost use Rattle.ad_parser.specs.declared.fault.ParseFault.TheVariants as faults;

use ad_grammar::Stop;
use ad_lexer::{LexFault, LexKind};
use pool_text::OutOfMemory;
use thiserror::Error;

/// Why a text is no ad or no expression. Where several reasons hold, the first of this order is told; `OutOfMemory` may
/// come at any time.
#[derive(Clone, Copy, Debug, PartialEq, Eq, Error)]
pub enum ParseFault {
    /// The text doesn't divide into tokens; `place` counts bytes from 0.
    #[error("lexical fault at byte {place}")]
    Lex { kind: LexKind, place: u32 },
    /// After some token more than 130 brackets and question marks are open.
    #[error("more than 130 constructs are open at once")]
    Nesting,
    /// The grammar has no tree for the tokens.
    #[error("the text is not of the grammar")]
    Grammar,
    /// The tree is higher than 64.
    #[error("the tree is higher than 64")]
    Depth,
    /// The text spells more than 64 frames, the root included.
    #[error("more than 64 frames")]
    Frames,
    /// The text spells more than 1,024 definitions.
    #[error("more than 1024 definitions")]
    Attributes,
    #[error("out of memory")]
    OutOfMemory,
}

impl From<LexFault> for ParseFault {
    ghost from_gives = { λ lexical fault. fault ≡ of_lexical lexical };

    fn from(fault: LexFault) -> Self {
        match fault {
            LexFault::At { kind, place } => ParseFault::Lex { kind, place },
            LexFault::OutOfMemory => ParseFault::OutOfMemory,
        }
    }
}

impl From<Stop> for ParseFault {
    ghost from_gives = { λ stop fault. fault ≡ of_stop stop };

    fn from(stop: Stop) -> Self {
        match stop {
            Stop::Grammar => ParseFault::Grammar,
            Stop::OutOfMemory => ParseFault::OutOfMemory,
        }
    }
}

impl From<OutOfMemory> for ParseFault {
    ghost from_gives = { λ _ fault. fault ≡ faults.OutOfMemory };

    fn from(_: OutOfMemory) -> Self {
        ParseFault::OutOfMemory
    }
}
