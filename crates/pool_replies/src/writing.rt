// Lines that a word begins.
ghost use Rattle.std.specs.Prelude.{◌≡◌, ◌++◌, ◌∷◌, [], decimal, OnOk};
ghost use Rattle.pool_replies.specs.Cycles.{with_blanks};
ghost use Rattle.pool_replies.specs.Replies.{name_line};
ghost use Rattle.std.specs.List.{flat_map};

use pool_text::{Names, OutOfMemory, Text, append_count};
use std::convert::AsSlice;

/// Appends the line with its line feed.
pub(crate) fn append_line(out: &mut Text, line: &[u8]) -> Result<(), OutOfMemory>
    ensures { OnOk result (out.new ≡ out.old ++ line.now ++ 10 ∷ []) }
{
    out.append(line)?;
    out.append(b"\n")
}

/// Appends a word and a name.
pub(crate) fn append_name(out: &mut Text, word: &[u8], name: &[u8]) -> Result<(), OutOfMemory>
    ensures { OnOk result (out.new ≡ out.old ++ word.now ++ name.now) }
{
    out.append(word)?;
    out.append(name)
}

/// Appends the line of a word and a name.
pub(crate) fn append_name_line(out: &mut Text, word: &[u8], name: &[u8]) -> Result<(), OutOfMemory>
    ensures { OnOk result (out.new ≡ out.old ++ name_line word.now name.now) }
{
    out.append(word)?;
    append_line(out, name)
}

/// Appends a word and a number.
pub(crate) fn append_amount(out: &mut Text, word: &[u8], n: u64) -> Result<(), OutOfMemory>
    ensures { OnOk result (out.new ≡ out.old ++ word.now ++ decimal n) }
{
    out.append(word)?;
    append_count(out, n)
}

/// Appends the line of a word and a number.
pub(crate) fn append_amount_line(out: &mut Text, word: &[u8], n: u64) -> Result<(), OutOfMemory>
    ensures { OnOk result (out.new ≡ out.old ++ word.now ++ decimal n ++ 10 ∷ []) }
{
    append_amount(out, word, n)?;
    out.append(b"\n")
}

/// Appends the names, each with a blank before it.
pub(crate) fn append_names(out: &mut Text, names: &Names) -> Result<(), OutOfMemory>
    ensures { OnOk result (out.new ≡ out.old ++ with_blanks names.now) }
{
    for name in names.as_slice() {
        append_name(out, b" ", name.bytes())?;
    }
    Ok(())
}

/// Appends the line of the names, each with a blank before it.
pub(crate) fn append_names_line(out: &mut Text, names: &Names) -> Result<(), OutOfMemory>
    ensures { OnOk result (out.new ≡ out.old ++ with_blanks names.now ++ 10 ∷ []) }
{
    append_names(out, names)?;
    out.append(b"\n")
}
