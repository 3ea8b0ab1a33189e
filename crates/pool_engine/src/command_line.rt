// What the words of a command line ask for.
ghost use Rattle.std.specs.Prelude.{◌≡◌, drop, map, string_bytes, IfOk, IfSome};
ghost use Rattle.claim_wire.specs.Wires.{IsNumber};
ghost use Rattle.pool_script.specs.Names.{number_within};
ghost use Rattle.pool_engine.specs.CommandLine.{IsWithin, asked_by, asked_mails, wire_asked, wire_of};

use crate::Mail;
use crate::mail::mails_of;
use crate::options::{are_options, count_of};
use pool_text::{OutOfMemory, Text, read_number};
use std::alloc::Global;

/// What the words of a command line ask for.
#[derive(Clone, Copy, PartialEq, Eq)]
pub enum Asked {
    /// Nothing: the words are wrong.
    Bad,
    /// A pool, which runs a script, with the mailboxes that `mails` gives.
    Pool,
    /// A workload of so many machines, whose script is run, with the mailboxes that `mails` gives.
    Workload { machines: u64 },
    /// A wire of so many resources and customers, which runs a schedule of the claiming protocol.
    Wire { resources: u32, customers: u32 },
}

/// The words of a command line: its arguments behind the first, which is the program's name, in their order.
pub fn words_of(alloc: Global, args: &[String]) -> Result<Vec<Text>, OutOfMemory>
    ensures { IfOk result (λ words. words.items ≡ map string_bytes (drop 1 args.now)) }
{
    let [_, behind @ ..] = args else {
        return Ok(Vec::new(alloc));
    };
    texts_of(alloc, behind)
}

fn texts_of(alloc: Global, args: &[String]) -> Result<Vec<Text>, OutOfMemory>
    ensures { IfOk result (λ texts. texts.items ≡ map string_bytes args.now) }
{
    let mut texts = Vec::new(alloc);
    for arg in args {
        texts.push(Text::from_bytes(alloc, arg.as_bytes())?)?;
    }
    Ok(texts)
}

/// Reads the words. A pool: no words, or `--mail NAME=FILE` any number of times, where each name stands once and no file is
/// empty; the first `=` divides. A workload: `--generate N` once besides, before or behind any of them, with a number from 1 to
/// 2,000. A wire: `--wire R C` with numbers from 1 to 100.
pub fn read_words(words: &[Text]) -> Asked
    ensures asked { result ≡ asked_by words.now }
    ensures within { IsWithin result }
{
    if !are_options(words) {
        return read_wire(words);
    }
    match count_of(words) {
        Some(machines) => Asked::Workload { machines },
        None => Asked::Pool,
    }
}

/// The mailboxes that the words ask for, in their order: those of a pool or of a workload. A wire has none, and wrong words ask
/// for none.
pub fn mails(alloc: Global, words: &[Text]) -> Result<Vec<Mail>, OutOfMemory>
    ensures { IfOk result (λ mails. mails.items ≡ asked_mails words.now) }
{
    if !are_options(words) {
        return Ok(Vec::new(alloc));
    }
    mails_of(alloc, words)
}

// A wire, where the words ask for one.
fn read_wire(words: &[Text]) -> Asked
    ensures asked { result ≡ wire_of words.now }
    ensures within { IsWithin result }
{
    match words {
        [word, resources, customers] => {
            if word.bytes() == b"--wire".as_slice() {
                wire(resources.bytes(), customers.bytes())
            } else {
                Asked::Bad
            }
        }
        _ => Asked::Bad,
    }
}

// A wire of these numbers, where both are from 1 to 100.
fn wire(resources: &[u8], customers: &[u8]) -> Asked
    ensures asked { result ≡ wire_asked (number_within 1 100 resources.now) (number_within 1 100 customers.now) }
    ensures within { IsWithin result }
{
    let Some(resources) = number(resources) else {
        return Asked::Bad;
    };
    let Some(customers) = number(customers) else {
        return Asked::Bad;
    };
    Asked::Wire {
        resources,
        customers,
    }
}

// A number from 1 to 100.
fn number(word: &[u8]) -> Option<u32>
    ensures number { result ≡ number_within 1 100 word.now }
    ensures within { IfSome result (IsNumber 100) }
{
    let n = read_number(word)?;
    if 1 <= n && n <= 100 {
        Some(n as u32)
    } else {
        None
    }
}
