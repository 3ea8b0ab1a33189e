// Names, literals and texts between quotes.
ghost use Rattle.std.specs.Prelude.{◌≡◌, ◌≤◌, ◌∷◌, [], ◌++◌, ◌||◌, ◌==◌, nat_lt, is_some, length, if◌then◌else◌, OnOk};
ghost use Rattle.std.specs.List.{list_all, prefix_len};
ghost use Rattle.ad_lexer.specs.Quoted.{octal, plain, spelling};
ghost use Rattle.ad_lexer.specs.Tokens.{bytes_of};
ghost use Rattle.ad_lexer.specs.Words as words;
ghost use Rattle.ad_grammar.specs.Words.{scope_of};
ghost use Rattle.ad_printer.specs.Pieces.{is_plain_name, literal_piece, name_piece, scoped};
ghost use Rattle.ad_printer.specs.Quotes.{in_quotes, letter_for, octal_digits};
ghost use Rattle.ad_printer.specs.Writing.{Adds, stands_plain};

use crate::pieces::{add, add_byte, add_decimal, add_few, add_number};
use ad_tree::Scope;
use pool_text::{Lit, OutOfMemory};

/// A literal.
#[inline(never)]
pub fn write_literal(out: &mut Vec<u8>, literal: &Lit) -> Result<(), OutOfMemory>
    ensures { OnOk result (Adds out.old.items (literal_piece literal.now ∷ []) out.new.items) }
{
    match literal {
        Lit::Undefined => add_few(out, b"undefined")?,
        Lit::Error => add_few(out, b"error")?,
        Lit::Boolean(true) => add_few(out, b"true")?,
        Lit::Boolean(false) => add_few(out, b"false")?,
        Lit::Integer(n) => add_number(out, *n)?,
        Lit::Decimal(millionths) => add_decimal(out, *millionths)?,
        Lit::Str(text) => write_quoted(out, b'"', text.bytes())?,
    }
    Ok(())
}

/// A name in its scope.
#[inline(never)]
pub fn write_reference(out: &mut Vec<u8>, scope: Scope, name: &[u8]) -> Result<(), OutOfMemory>
    ensures { OnOk result (Adds out.old.items (scoped scope name.now) out.new.items) }
{
    match scope {
        Scope::Bare => {}
        Scope::My => add(out, b"MY.")?,
        Scope::Target => add(out, b"TARGET.")?,
    }
    write_name(out, name)?;
    Ok(())
}

/// A name as it is where it is a word that means nothing else, and otherwise in quotes.
pub fn write_name(out: &mut Vec<u8>, name: &[u8]) -> Result<(), OutOfMemory>
    ensures { OnOk result (out.new.items ≡ out.old.items ++ bytes_of (name_piece name.now)) }
{
    if is_plain_name(name) {
        add_few(out, name)
    } else {
        write_quoted(out, b'\'', name)
    }
}

fn is_plain_name(name: &[u8]) -> bool
    ensures { result ≡ is_plain_name name.now }
{
    is_word(name) && !is_reserved(name) && !is_scope(name)
}

fn is_word(name: &[u8]) -> bool
    ensures { result ≡ words.is_word name.now }
{
    match name {
        [first, rest @ ..] => begins_word(*first) && are_word_bytes(rest),
        [] => false,
    }
}

fn begins_word(byte: u8) -> bool
    ensures { result ≡ words.begins_word byte }
{
    byte.is_ascii_alphabetic() || byte == b'_'
}

fn are_word_bytes(bytes: &[u8]) -> bool
    ensures { result ≡ list_all words.is_word_byte bytes.now }
{
    bytes
        .iter()
        .all(|byte| byte.is_ascii_alphanumeric() || *byte == b'_')
}

fn is_reserved(name: &[u8]) -> bool
    ensures { result ≡ words.is_reserved name.now }
{
    name.eq_ignore_ascii_case(b"true")
        || name.eq_ignore_ascii_case(b"false")
        || name.eq_ignore_ascii_case(b"undefined")
        || name.eq_ignore_ascii_case(b"error")
        || name.eq_ignore_ascii_case(b"is")
        || name.eq_ignore_ascii_case(b"isnt")
}

fn is_scope(name: &[u8]) -> bool
    ensures { result ≡ is_some (scope_of name.now) }
{
    name.eq_ignore_ascii_case(b"my")
        || name.eq_ignore_ascii_case(b"self")
        || name.eq_ignore_ascii_case(b"target")
        || name.eq_ignore_ascii_case(b"other")
}

/// A text between quotes. Bytes that stand as they are are appended as one piece.
pub fn write_quoted(out: &mut Vec<u8>, quote: u8, text: &[u8]) -> Result<(), OutOfMemory>
    ensures { OnOk result (out.new.items ≡ out.old.items ++ in_quotes quote text.now) }
{
    add_byte(out, quote)?;
    let mut rest = text;
    while rest.len() > 0 {
        let (plain, behind) = rest.split_at(plain_len(quote, rest));
        add(out, plain)?;
        rest = behind;
        if let [byte, more @ ..] = rest {
            write_escape(out, quote, *byte)?;
            rest = more;
        }
    }
    add_byte(out, quote)
}

/// How many bytes at the front of a text stand between quotes as they are.
fn plain_len(quote: u8, text: &[u8]) -> usize
    ensures value { result ≡ prefix_len (stands_plain quote) text.now }
    ensures within { result ≤ length text.now }
{
    let mut len = 0;
    let mut rest = text;
    while let [byte, more @ ..] = rest {
        if !stands_plain(quote, *byte) {
            break;
        }
        len += 1;
        rest = more;
    }
    len
}

fn stands_plain(quote: u8, byte: u8) -> bool
    ensures { result ≡ stands_plain quote byte }
{
    !(byte == quote || byte == b'\\' || byte < 32 || byte == 127)
}

/// The letter of one byte.
#[tactic(auto, unfolding(crate::specs::Quotes::letter_for))]
fn write_escape(out: &mut Vec<u8>, quote: u8, byte: u8) -> Result<(), OutOfMemory>
    ensures { OnOk result (out.new.items ≡ out.old.items ++ spelling (letter_for quote byte)) }
{
    if byte == quote || byte == b'\\' {
        return add(out, &[b'\\', byte]);
    }
    match byte {
        8 => add(out, b"\\b"),
        b'\t' => add(out, b"\\t"),
        b'\n' => add(out, b"\\n"),
        12 => add(out, b"\\f"),
        b'\r' => add(out, b"\\r"),
        _ => write_other(out, byte),
    }
}

fn write_other(out: &mut Vec<u8>, byte: u8) -> Result<(), OutOfMemory>
    ensures { OnOk result (out.new.items ≡ out.old.items ++ spelling (if nat_lt byte 32 || byte == 127 then octal (octal_digits byte) else plain byte)) }
{
    if byte < 32 || byte == 127 {
        let digits = [b'0' + byte / 64, b'0' + byte / 8 % 8, b'0' + byte % 8];
        add(out, b"\\")?;
        add(out, &digits)
    } else {
        add_byte(out, byte)
    }
}
