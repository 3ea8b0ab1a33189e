// The event that a line of a schedule names.
ghost use Rattle.std.specs.Prelude.{◌≡◌, Some, IfOk, IfSome};
ghost use Rattle.claim_wire.specs.Lines as lines;
ghost use Rattle.claim_wire.specs.Wires.{IsNamed, IsNumber};

use crate::event::Event;
use crate::fault::LineFault;
use pool_text::{past_blanks, read_number, word_of, words_behind};

/// The words that a line may begin with.
#[derive(Clone, Copy)]
pub(crate) enum Verb {
    Ask,
    Again,
    Leave,
    Deliver,
    Restart,
    Show,
}

/// The event that a line names, without its line feed and the carriage return before it: none exactly where it has no
/// words or its first word begins with `#`. Words are divided by spaces and tabs. The lines are `ask C R`, `again C`,
/// `leave C`, `deliver M`, `restart customer C`, `restart resource R` and `show`. `Unknown` comes exactly where the first
/// word begins none of them, else `Words` exactly where the other words aren't those of the line, a number isn't decimal
/// or exceeds 64 bits, or an id isn't one of the customers or resources, which count from 1.
pub fn read_event(line: &[u8], resources: u32, customers: u32) -> Result<Option<Event>, LineFault>
    ensures event { result ≡ lines.event_of resources customers line.now }
    ensures named { IfOk result (λ event. IfSome event (λ named. IsNamed resources customers named)) }
{
    let text = past_blanks(line);
    if text.len() == 0 || text[0] == b'#' {
        return Ok(None);
    }
    match verb_of(word_of(text)) {
        None => Err(LineFault::Unknown),
        Some(verb) => match event_by(resources, customers, verb, words_behind(text)) {
            None => Err(LineFault::Words),
            Some(event) => Ok(Some(event)),
        },
    }
}

/// The verb that a word spells exactly.
fn verb_of(word: &[u8]) -> Option<Verb>
    ensures { result ≡ lines.verb_of word.now }
{
    if word == b"ask".as_slice() {
        Some(Verb::Ask)
    } else if word == b"again".as_slice() {
        Some(Verb::Again)
    } else if word == b"leave".as_slice() {
        Some(Verb::Leave)
    } else if word == b"deliver".as_slice() {
        Some(Verb::Deliver)
    } else if word == b"restart".as_slice() {
        Some(Verb::Restart)
    } else if word == b"show".as_slice() {
        Some(Verb::Show)
    } else {
        None
    }
}

/// The event of a verb and the words behind it.
fn event_by(resources: u32, customers: u32, verb: Verb, words: &[u8]) -> Option<Event>
    ensures event { result ≡ lines.event_by resources customers verb words.now }
    ensures named { IfSome result (λ named. IsNamed resources customers named) }
{
    match verb {
        Verb::Ask => ask(resources, customers, words),
        Verb::Again => Some(Event::Again(sole_id(customers, words)?)),
        Verb::Leave => Some(Event::Leave(sole_id(customers, words)?)),
        Verb::Deliver => Some(Event::Deliver(sole_number(words)?)),
        Verb::Restart => restart(resources, customers, words),
        Verb::Show => {
            if words.is_empty() {
                Some(Event::Show)
            } else {
                None
            }
        }
    }
}

/// The id that a word writes, from 1 to the most.
fn id_of(most: u32, word: &[u8]) -> Option<u32>
    ensures id { result ≡ lines.id_of most word.now }
    ensures within { IfSome result (λ id. IsNumber most id) }
{
    let number = read_number(word)?;
    if 1 <= number && number <= u64::from(most) {
        Some(number as u32)
    } else {
        None
    }
}

/// The id that the only word writes.
fn sole_id(most: u32, words: &[u8]) -> Option<u32>
    ensures id { result ≡ lines.sole_id most words.now }
    ensures within { IfSome result (λ id. IsNumber most id) }
{
    if !words_behind(words).is_empty() {
        return None;
    }
    id_of(most, word_of(words))
}

/// The number that the only word writes.
fn sole_number(words: &[u8]) -> Option<u64>
    ensures { result ≡ lines.sole_number words.now }
{
    if !words_behind(words).is_empty() {
        return None;
    }
    read_number(word_of(words))
}

fn ask(resources: u32, customers: u32, words: &[u8]) -> Option<Event>
    ensures event { result ≡ lines.asked resources customers words.now }
    ensures named { IfSome result (λ named. IsNamed resources customers named) }
{
    let customer = id_of(customers, word_of(words))?;
    let resource = sole_id(resources, words_behind(words))?;
    Some(Event::Ask { customer, resource })
}

fn restart(resources: u32, customers: u32, words: &[u8]) -> Option<Event>
    ensures event { result ≡ lines.restarted resources customers words.now }
    ensures named { IfSome result (λ named. IsNamed resources customers named) }
{
    let end = word_of(words);
    let behind = words_behind(words);
    if end == b"customer".as_slice() {
        Some(Event::RestartCustomer(sole_id(customers, behind)?))
    } else if end == b"resource".as_slice() {
        Some(Event::RestartResource(sole_id(resources, behind)?))
    } else {
        None
    }
}
