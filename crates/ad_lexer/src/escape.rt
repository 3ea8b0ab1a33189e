// Escapes: what stands behind a backslash in a string or a quoted name.
ghost use Rattle.std.specs.Prelude.{◌≡◌, ◌≤◌, ◌<◌};
ghost use Rattle.ad_lexer.specs.Content.{octal_len, octal_value};
ghost use Rattle.ad_lexer.specs.Quoted.{escaped, is_octal_digit};

/// The byte that a letter or a mark behind a backslash means.
pub fn escaped(byte: u8) -> Option<u8>
    ensures { result ≡ escaped byte }
{
    match byte {
        b'b' => Some(8),
        b't' => Some(9),
        b'n' => Some(10),
        b'f' => Some(12),
        b'r' => Some(13),
        b'\\' | b'"' | b'\'' => Some(byte),
        _ => None,
    }
}

/// Whether a byte is a digit from 0 to 7.
pub fn is_octal_digit(byte: u8) -> bool
    ensures { result ≡ is_octal_digit byte }
{
    b'0' <= byte && byte <= b'7'
}

/// The value of the octal digits that stand first among three bytes, of which the first is one.
pub fn octal_value(first: u8, second: u8, third: u8) -> u32
    ensures { result ≡ octal_value first second third }
{
    let one = u32::from(first.saturating_sub(b'0'));
    if !is_octal_digit(second) {
        return one;
    }
    let two = one * 8 + u32::from(second - b'0');
    if !is_octal_digit(third) {
        return two;
    }
    two * 8 + u32::from(third - b'0')
}

/// How many bytes an escape of octal digits takes, with its backslash.
pub fn octal_len(second: u8, third: u8) -> usize
    ensures { result ≡ octal_len second third }
{
    if !is_octal_digit(second) {
        2
    } else if !is_octal_digit(third) {
        3
    } else {
        4
    }
}
