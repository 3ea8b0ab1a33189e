// The mailboxes that the words of a command line ask for.
ghost use Rattle.std.specs.Prelude.{◌≡◌, ◌<◌, ◌==◌, IfOk, IfSome, length, option_map, position};
ghost use Rattle.pool_engine.specs.Mails as rules;

use pool_script::is_name;
use pool_text::{OutOfMemory, Text};
use std::alloc::Global;

/// A mailbox that the words ask for: the name that listens, and the file that takes its notices.
#[derive(Drop)]
pub struct Mail {
    pub name: Text,
    pub file: Text,
}

/// The mailboxes of options, in their order.
pub(crate) fn mails_of(alloc: Global, words: &[Text]) -> Result<Vec<Mail>, OutOfMemory>
    ensures { IfOk result (λ mails. mails.items ≡ rules.mails_of words.now) }
{
    let mut mails = Vec::new(alloc);
    let mut left = words;
    while let [_, value, others @ ..] = left {
        if let Some(mail) = read_mail(alloc, value.bytes())? {
            mails.push(mail)?;
        }
        left = others;
    }
    Ok(mails)
}

/// Whether a word is a mailbox whose name no later option has.
pub(crate) fn is_last_of_name(word: &[u8], words: &[Text]) -> bool
    ensures { result ≡ rules.is_last_of_name (rules.mail_of word.now) words.now }
{
    match divide(word) {
        Some((name, _)) => !has_mail(name, words),
        None => false,
    }
}

// Whether one of the options asks for a mailbox of the name.
fn has_mail(name: &[u8], words: &[Text]) -> bool
    ensures { result ≡ rules.has_mail name.now words.now }
{
    let mut left = words;
    while let [_, value, others @ ..] = left {
        if is_named(name, value.bytes()) {
            return true;
        }
        left = others;
    }
    false
}

// Whether a word is a mailbox of the name.
fn is_named(name: &[u8], word: &[u8]) -> bool
    ensures { result ≡ rules.is_named name.now (rules.mail_of word.now) }
{
    match divide(word) {
        Some((other, _)) => other == name,
        None => false,
    }
}

// The mailbox of a word.
fn read_mail(alloc: Global, word: &[u8]) -> Result<Option<Mail>, OutOfMemory>
    ensures { IfOk result (λ mail. mail ≡ rules.mail_of word.now) }
{
    let Some((name, file)) = divide(word) else {
        return Ok(None);
    };
    Ok(Some(Mail {
        name: Text::from_bytes(alloc, name)?,
        file: Text::from_bytes(alloc, file)?,
    }))
}

// The name and the file that the first `=` divides.
fn divide(word: &[u8]) -> Option<(&[u8], &[u8])>
    ensures { option_map (λ parts. rules.mail parts.0.now parts.1.now) result ≡ rules.mail_of word.now }
{
    let Some(place) = first_equals(word) else {
        return None;
    };
    let (name, file) = (&word[..place], &word[place + 1..]);
    if !is_name(name) || file.is_empty() {
        return None;
    }
    Some((name, file))
}

// The place of the first `=`.
fn first_equals(word: &[u8]) -> Option<usize>
    ensures place { result ≡ position (λ byte. byte == 61) word.now }
    ensures inside { IfSome result (λ place. place < length word.now) }
{
    word.iter().position(|byte| *byte == b'=')
}
