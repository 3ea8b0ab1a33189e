// The options of a command line: mailboxes, and how many machines a workload has.
ghost use Rattle.std.specs.Prelude.{◌≡◌};
ghost use Rattle.pool_script.specs.Names.{number_within};
ghost use Rattle.pool_engine.specs.Options as rules;

use crate::mail::is_last_of_name;
use pool_text::{Text, read_number};

/// Whether the words are options: mailboxes, each name once, and one number of machines at most.
pub(crate) fn are_options(words: &[Text]) -> bool
    ensures { result ≡ rules.are_options words.now }
{
    let mut left = words;
    while let [option, value, others @ ..] = left {
        if !is_option(option.bytes(), value.bytes(), others) {
            return false;
        }
        left = others;
    }
    left.is_empty()
}

/// How many machines the options ask for.
pub(crate) fn count_of(words: &[Text]) -> Option<u64>
    ensures { result ≡ rules.count_of words.now }
{
    let mut left = words;
    while let [option, value, others @ ..] = left {
        if option.bytes() == b"--generate".as_slice() {
            return machines(value.bytes());
        }
        left = others;
    }
    None
}

// Whether an option is a mailbox whose name no later option has, or a count that no later option asks for.
fn is_option(option: &[u8], value: &[u8], others: &[Text]) -> bool
    ensures { result ≡ rules.is_option option.now value.now others.now }
{
    if option == b"--mail".as_slice() {
        return is_last_of_name(value, others);
    }
    option == b"--generate".as_slice() && machines(value).is_some() && count_of(others).is_none()
}

// A number from 1 to 2,000.
fn machines(word: &[u8]) -> Option<u64>
    ensures { result ≡ number_within 1 2000 word.now }
{
    let n = read_number(word)?;
    (1 <= n && n <= 2000).then_some(n)
}
