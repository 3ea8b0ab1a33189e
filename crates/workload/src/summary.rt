// The summary of a run.
ghost use Rattle.std.specs.Prelude.{◌≡◌, ◌≤◌, ◌+◌, ◌^◌, ◌++◌, IfErr, IfOk, IsOk, OnErr, OnOk};
ghost use Rattle.workload.specs.Summary.{HaveRoom, count_line, summary_text};

use pool_text::{OutOfMemory, Text, append_count};
use std::alloc::Global;

/// What commands come to, one or many.
#[derive(Clone, Copy, PartialEq, Eq)]
pub struct Summary {
    /// How many commands there are.
    pub commands: u64,
    /// How many of them were refused.
    pub refused: u64,
    /// How many ads their queries found.
    pub hits: u64,
    /// How many offers their negotiations made.
    pub offers: u64,
    /// How many bytes their replies have.
    pub bytes: u64,
}

impl Summary {
    /// The summary of no commands.
    pub fn new() -> Summary
        ensures commands { result.commands ≡ 0 }
        ensures refused { result.refused ≡ 0 }
        ensures hits { result.hits ≡ 0 }
        ensures offers { result.offers ≡ 0 }
        ensures bytes { result.bytes ≡ 0 }
    {
        Summary {
            commands: 0,
            refused: 0,
            hits: 0,
            offers: 0,
            bytes: 0,
        }
    }

    /// Adds the summary of further commands. It is refused, as want of memory, exactly where a count is past 64 bits.
    pub fn add(&mut self, more: &Summary) -> Result<(), OutOfMemory>
        ensures commands { OnOk result (self.new.commands ≡ self.old.commands + more.now.commands) }
        ensures refused { OnOk result (self.new.refused ≡ self.old.refused + more.now.refused) }
        ensures hits { OnOk result (self.new.hits ≡ self.old.hits + more.now.hits) }
        ensures offers { OnOk result (self.new.offers ≡ self.old.offers + more.now.offers) }
        ensures bytes { OnOk result (self.new.bytes ≡ self.old.bytes + more.now.bytes) }
        ensures err { OnErr result (self.new ≡ self.old) }
        ensures fits { HaveRoom self.old more.now → IsOk result }
    {
        *self = Summary {
            commands: sum(self.commands, more.commands)?,
            refused: sum(self.refused, more.refused)?,
            hits: sum(self.hits, more.hits)?,
            offers: sum(self.offers, more.offers)?,
            bytes: sum(self.bytes, more.bytes)?,
        };
        Ok(())
    }

    /// The text: a line for each count.
    pub fn print(&self, alloc: Global) -> Result<Text, OutOfMemory>
        ensures { IfOk result (λ text.
            text ≡ summary_text self.now.commands self.now.refused self.now.hits self.now.offers self.now.bytes) }
    {
        let mut text = Text::new(alloc);
        append_line(&mut text, b"commands", self.commands)?;
        append_line(&mut text, b"refused", self.refused)?;
        append_line(&mut text, b"hits", self.hits)?;
        append_line(&mut text, b"offers", self.offers)?;
        append_line(&mut text, b"bytes", self.bytes)?;
        Ok(text)
    }
}

/// The sum, where it has 64 bits.
fn sum(a: u64, b: u64) -> Result<u64, OutOfMemory>
    ensures ok { IfOk result (λ n. n ≡ a + b) }
    ensures err { IfErr result (λ _. 2 ^ 64 ≤ a + b) }
{
    a.checked_add(b).ok_or(OutOfMemory)
}

/// Appends a word, a blank and a number.
fn append_line(text: &mut Text, word: &[u8], count: u64) -> Result<(), OutOfMemory>
    ensures { OnOk result (text.new ≡ text.old ++ count_line word.now count) }
{
    text.append(word)?;
    text.append(b" ")?;
    append_count(text, count)?;
    text.append(b"\n")
}
