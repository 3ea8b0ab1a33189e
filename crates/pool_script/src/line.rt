// What a line is, inside a block or outside one.
ghost use Rattle.std.specs.Prelude.{◌≡◌};
ghost use Rattle.pool_text.specs.Words.{is_silent, text_of};
ghost use Rattle.pool_script.specs.Commands.{is_dot, takes_block};
ghost use Rattle.pool_script.specs.Runs.{is_plain};

use crate::keyword::keyword_of;
use pool_text::{LONGEST_LINE, past_blanks, without_return, word_of};

/// The most bytes of a block.
pub(crate) const LONGEST_BLOCK: usize = 65_536;

/// Whether a line closes a block: it is exactly a dot. Most lines are told by their length alone.
#[tactic(auto, using(crate::proofs::LongLemmas::is_dot_above))]
pub(crate) fn is_dot(line: &[u8]) -> bool
    ensures { result ≡ is_dot line.now }
{
    line.len() <= 2 && without_return(line) == b".".as_slice()
}

/// Whether a block takes a line as it stands: the line doesn't close the block, and no carriage return is dropped from it.
pub(crate) fn is_plain(line: &[u8]) -> bool
    ensures { result ≡ is_plain line.now }
{
    !is_dot(line) && without_return(line).len() == line.len()
}

/// A line from its first word on.
pub(crate) fn text_of(line: &[u8]) -> &[u8]
    ensures { result.now ≡ text_of line.now }
{
    past_blanks(without_return(line))
}

/// Whether a line is no command and has no reply: it holds no words, or a comment.
pub(crate) fn is_silent(line: &[u8]) -> bool
    ensures { result ≡ is_silent line.now }
{
    let text = text_of(line);
    text.len() == 0 || text[0] == b'#'
}

/// Whether a line outside a block begins one: it isn't too long, and its keyword takes a block.
#[tactic(auto, unfolding(crate::specs::Commands::takes_block))]
pub(crate) fn takes_block(line: &[u8]) -> bool
    ensures { result ≡ takes_block line.now }
{
    if line.len() > LONGEST_LINE {
        return false;
    }
    match keyword_of(word_of(text_of(line))) {
        Some(keyword) => keyword.opens_block(),
        None => false,
    }
}
