// The rows for string lists: texts whose items are the runs of bytes between delimiters.
ghost use Rattle.std.specs.Prelude.{◌≡◌, ◌≤◌, ℕ, ◌==◌, false, length, slice_index_or};
ghost use Rattle.std.specs.List.{list_any};
ghost use Rattle.std.specs.Str.{bytes_eq};
ghost use Rattle.ad_value.specs.Plain.{plain, text};
ghost use Rattle.builtin_funcs.specs.Texts.{items_of, string_list_member_value, string_list_size_value};

use ad_value::Value;

/// The delimiters where a call gives none.
pub(crate) const USUAL: &'static [u8] = b", ";

/// Whether the text is one of the items of a string list.
pub(crate) fn member(x: &Value, list: &Value, delimiters: &[u8]) -> Value
    ensures { plain result
        ≡ string_list_member_value (plain x.now) (plain list.now) (text delimiters.now) }
{
    match (x, list) {
        (Value::Str(x), Value::Str(list)) => {
            Value::Boolean(has_item(x.bytes(), list.bytes(), delimiters))
        }
        _ => Value::Error,
    }
}

/// How many items a string list has.
pub(crate) fn size(list: &Value, delimiters: &[u8]) -> Value
    ensures { plain result ≡ string_list_size_value (plain list.now) (text delimiters.now) }
{
    match list {
        Value::Str(list) => Value::Integer(count_items(list.bytes(), delimiters) as i64),
        _ => Value::Error,
    }
}

fn has_item(x: &[u8], list: &[u8], delimiters: &[u8]) -> bool
    ensures { result ≡ list_any (bytes_eq x.now) (items_of delimiters.now list.now) }
{
    let marks = marks(delimiters);
    list.split(|byte| is_marked(&marks, *byte))
        .any(|part| part.len() > 0 && x == part)
}

fn count_items(list: &[u8], delimiters: &[u8]) -> usize
    ensures count { result ≡ length (items_of delimiters.now list.now) }
    ensures within { result ≤ length list.now }
{
    let marks = marks(delimiters);
    list.split(|byte| is_marked(&marks, *byte))
        .filter(|item| item.len() > 0)
        .count()
}

// The delimiters as a table of all bytes, so that each byte of a list is looked up at once.
fn marks(delimiters: &[u8]) -> [bool; 256]
    ensures { (byte : ℕ) → slice_index_or result byte false ≡ list_any (λ d. d == byte) delimiters.now }
{
    let mut marks = [false; 256];
    for delimiter in delimiters {
        marks[usize::from(*delimiter)] = true;
    }
    marks
}

fn is_marked(marks: &[bool; 256], byte: u8) -> bool
    ensures { result ≡ slice_index_or marks.now byte false }
{
    marks[usize::from(byte)]
}
