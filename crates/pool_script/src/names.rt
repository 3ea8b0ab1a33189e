// The names and the numbers among the words of a line.
ghost use Rattle.std.specs.Prelude.{◌≡◌};
ghost use Rattle.std.specs.List.{list_all};
ghost use Rattle.pool_script.specs.Names as names;

use pool_text::{read_number, word_of, words_behind};

/// Whether a name may hold the byte.
fn is_name_byte(byte: u8) -> bool
    ensures { result ≡ names.is_name_byte byte }
{
    byte.is_ascii_alphanumeric() || byte == b'_' || byte == b'-' || byte == b'.' || byte == b'@'
}

/// Whether a name may hold each of the bytes.
fn are_name_bytes(bytes: &[u8]) -> bool
    ensures { result ≡ list_all names.is_name_byte bytes.now }
{
    bytes.iter().all(|byte| is_name_byte(*byte))
}

/// Whether the bytes are a name: 1 to 64 of them, each an ASCII letter, a digit, `_`, `-`, `.` or `@`.
pub fn is_name(bytes: &[u8]) -> bool
    ensures { result ≡ names.is_name bytes.now }
{
    1 <= bytes.len() && bytes.len() <= 64 && are_name_bytes(bytes)
}

/// The only word as a number, where it writes one from `least` to `most`.
pub(crate) fn sole_number(bytes: &[u8], least: u64, most: u64) -> Option<u64>
    ensures { result ≡ names.sole_number bytes.now least most }
{
    if !words_behind(bytes).is_empty() {
        return None;
    }
    let number = read_number(word_of(bytes))?;
    (least <= number && number <= most).then_some(number)
}
