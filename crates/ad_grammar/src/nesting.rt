// How many constructs are open at once.
ghost use Rattle.std.specs.Prelude.{◌≡◌, true, false, None, IsSome};
ghost use Rattle.ad_grammar.specs.Nesting.{nests_too_deep};
ghost use Rattle.ad_grammar.specs.HeldMarks.{mark_in, IsTurn};
ghost use Rattle.ad_grammar.specs.Words.{Word as MeantWord, words};

use ad_lexer::{Mark, Tokens};

const NESTING_LIMIT: usize = 130;

/// How many words are looked at to tell how many elements a list has.
const LOOKED_AHEAD: usize = 64;

/// So many words are gone over in little time.
const FEW_WORDS: usize = 256;

/// How many words a definition has in ordinary ads of more words.
const WORDS_A_DEFINITION: usize = 14;

/// An ad with more definitions than this makes a table of all its names, which is too dear for a guess.
const MOST_GUESSED: usize = 64;

/// What a word does with constructs.
#[derive(Clone, Copy)]
pub enum Turn {
    Opens,
    Closes,
    Neither,
}

/// How many definitions an ad may have, so that there is room for them at once; nothing else rests on the number. `None` exactly
/// where after some word more constructs are open than the limit. Few texts open so many in all, and only those and short ones are
/// gone over.
pub fn room_within(tokens: &Tokens<'_>) -> Option<usize>
    ensures some { IsSome result → nests_too_deep (words tokens.now) ≡ false }
    ensures none { result ≡ None → nests_too_deep (words tokens.now) ≡ true }
{
    if tokens.len() > FEW_WORDS && tokens.openings() <= NESTING_LIMIT {
        return Some((tokens.len() / WORDS_A_DEFINITION).min(MOST_GUESSED));
    }
    definitions_within(tokens)
}

/// How many definitions an ad has, as the semicolons in its own brackets tell, so that there is room for them at once; nothing
/// else rests on the number. `None` exactly where after some word more constructs are open than the limit. The words that
/// aren't marks open and close none.
fn definitions_within(tokens: &Tokens<'_>) -> Option<usize>
    ensures some { IsSome result → nests_too_deep (words tokens.now) ≡ false }
    ensures none { result ≡ None → nests_too_deep (words tokens.now) ≡ true }
{
    let mut definitions: usize = 1;
    let mut room = NESTING_LIMIT;
    for i in 0..tokens.len() {
        let mark = tokens.mark(i);
        definitions = definitions.saturating_add(definitions_ended(room, mark));
        match turn_of(mark) {
            Turn::Opens => {
                if room == 0 {
                    return None;
                }
                room -= 1;
            }
            Turn::Closes => room += 1,
            Turn::Neither => {}
        }
    }
    Some(definitions)
}

/// How many definitions of the first brackets end at a mark, where so many constructs may still be opened.
#[inline(always)]
fn definitions_ended(room: usize, mark: Option<Mark>) -> usize {
    if mark == Some(Mark::Semicolon) && room == NESTING_LIMIT - 1 {
        1
    } else {
        0
    }
}

/// How many elements stand before the closing mark of what was opened before a place, as far as the next words tell, so that
/// there is room for them at once. Nothing else rests on it. Most elements are one word each, so that every second word tells.
pub fn elements_ahead(tokens: &Tokens<'_>, from: usize) -> usize {
    let last = tokens.len().min(from.saturating_add(LOOKED_AHEAD));
    for i in 0..LOOKED_AHEAD / 2 {
        let place = from.saturating_add(2 * i);
        match end_of_word(tokens, place, last) {
            WordEnd::Comma => {}
            WordEnd::Closing => return i + 1,
            WordEnd::Other => return i.saturating_add(elements_within(tokens, place, last)),
        }
    }
    LOOKED_AHEAD / 2
}

/// What stands behind a word.
#[derive(Clone, Copy)]
enum WordEnd {
    Comma,
    Closing,
    Other,
}

/// What stands behind the word at a place, if one stands there that is no mark.
#[inline(always)]
fn end_of_word(tokens: &Tokens<'_>, place: usize, last: usize) -> WordEnd {
    let last = last.min(tokens.len());
    if place >= last || last - place < 2 || tokens.mark(place).is_some() {
        return WordEnd::Other;
    }
    match tokens.mark(place + 1) {
        Some(Mark::Comma) => WordEnd::Comma,
        Some(Mark::CloseParen) => WordEnd::Closing,
        Some(Mark::CloseBrace) => WordEnd::Closing,
        _ => WordEnd::Other,
    }
}

/// The same, word by word, from a place before which nothing is open.
fn elements_within(tokens: &Tokens<'_>, from: usize, last: usize) -> usize {
    let mut elements: usize = 0;
    let mut open: usize = 0;
    for i in from..last.min(tokens.len()) {
        let mark = tokens.mark(i);
        match turn_of(mark) {
            Turn::Opens => open = open.saturating_add(1),
            Turn::Closes if open == 0 => break,
            Turn::Closes => open -= 1,
            Turn::Neither => {}
        }
        if open == 0 && (elements == 0 || mark == Some(Mark::Comma)) {
            elements = elements.saturating_add(1);
        }
    }
    elements
}

#[inline]
fn turn_of(mark: Option<Mark>) -> Turn
    ensures { (w : MeantWord) → mark_in w ≡ mark → IsTurn result w }
{
    match mark {
        Some(Mark::OpenParen) => Turn::Opens,
        Some(Mark::OpenBracket) => Turn::Opens,
        Some(Mark::OpenBrace) => Turn::Opens,
        Some(Mark::Question) => Turn::Opens,
        Some(Mark::CloseParen) => Turn::Closes,
        Some(Mark::CloseBracket) => Turn::Closes,
        Some(Mark::CloseBrace) => Turn::Closes,
        Some(Mark::Colon) => Turn::Closes,
        _ => Turn::Neither,
    }
}
