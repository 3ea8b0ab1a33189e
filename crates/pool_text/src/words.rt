// The words of a line, which spaces and tabs divide.
ghost use Rattle.std.specs.Prelude.{◌≡◌};
ghost use Rattle.pool_text.specs.Lines as lines;
ghost use Rattle.pool_text.specs.Words as words;

/// The most bytes of a line, its line feed not counted.
pub const LONGEST_LINE: usize = 65_536;

/// A line without the one carriage return that may end it.
pub fn without_return(line: &[u8]) -> &[u8]
    ensures { result.now ≡ lines.without_return line.now }
{
    match line {
        [front @ .., last] if *last == b'\r' => front,
        _ => line,
    }
}

/// Whether a byte is a space or a tab.
fn is_blank(byte: u8) -> bool
    ensures { result ≡ words.is_blank byte }
{
    byte == b' ' || byte == b'\t'
}

/// The bytes without the blanks in front.
pub fn past_blanks(bytes: &[u8]) -> &[u8]
    ensures { result.now ≡ words.past_blanks bytes.now }
{
    let mut rest = bytes;
    while let [byte, behind @ ..] = rest {
        if !is_blank(*byte) {
            return rest;
        }
        rest = behind;
    }
    rest
}

/// The bytes from the first blank on.
fn past_word(bytes: &[u8]) -> &[u8]
    ensures { result.now ≡ words.past_word bytes.now }
{
    let mut rest = bytes;
    while let [byte, behind @ ..] = rest {
        if is_blank(*byte) {
            return rest;
        }
        rest = behind;
    }
    rest
}

/// The bytes up to the first blank.
pub fn word_of(bytes: &[u8]) -> &[u8]
    ensures { result.now ≡ words.word_of bytes.now }
{
    &bytes[..bytes.len() - past_word(bytes).len()]
}

/// What stands behind the first word and the blanks that follow it.
pub fn words_behind(bytes: &[u8]) -> &[u8]
    ensures { result.now ≡ words.words_behind bytes.now }
{
    past_blanks(past_word(bytes))
}
