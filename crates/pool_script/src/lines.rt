// The lines of an input that comes in pieces.
ghost use Rattle.std.specs.Prelude.{◌≡◌, ◌↔◌, ◌≤◌, ◌+◌, ◌++◌, ◌∷◌, ℕ, List, [], true, false, length, slice_get};
ghost use Rattle.std.specs.Prelude.{IfNone, IfOk, IfSome, IsNone, OnErr, OnOk};
ghost use Rattle.std.specs.Option.{option_to_list};
ghost use Rattle.pool_script.specs.GivenLines.{given_lines, ended_lines, whole_lines};
ghost use Rattle.pool_script.specs.GivenLines as given;
ghost use Rattle.pool_script.specs.Standing.{LinesStand};

use crate::cuts::{extend_line, split_line};
use pool_text::{LONGEST_LINE, OutOfMemory, Text, without_return};
use std::alloc::Global;
use std::collections::VecDeque;
use std::marker::Model;

/// A line of an input. All lines are given, those without words and comments too.
#[derive(Drop)]
pub enum Line {
    /// The bytes of the line, without its line feed and the one carriage return that may end it.
    Words(Text),
    /// The line has more than 65,536 bytes, its line feed not counted.
    TooLong,
}

/// The lines of an input that comes in pieces of any size. Where a call answers `OutOfMemory`, the lines are only to be
/// dropped.
#[derive(Drop)]
pub struct Lines {
    alloc: Global,
    waiting: VecDeque<Line>,
    line: Vec<u8>,
    over: bool,
}

impl Model for Lines {
    ghost use Rattle.pool_script.specs.Reading.{IsBegun};
    ghost use Rattle.pool_script.specs.Standing.{Held};
    ghost use Rattle.pool_script.specs.declared.lines.Line.{Line};

    ghost Value = { Held Line };

    ghost view = { λ l. record { waiting = l.waiting.items; rest = l.line.items; over = l.over } };

    ghost invariant = { λ l. IsBegun l.line.items };
}

impl Lines {
    /// The lines of no bytes, which take no memory yet.
    pub fn new(alloc: Global) -> Lines
        ensures empty { result ≡ record { waiting = []; rest = []; over = false } }
        ensures stands { LinesStand result [] 0 }
    {
        Lines {
            alloc,
            waiting: VecDeque::new(alloc),
            line: Vec::new(alloc),
            over: false,
        }
    }

    /// Reads a piece of the input, of any size. Of a line that is too long no more is kept than the answer needs.
    pub fn feed(&mut self, piece: &[u8]) -> Result<(), OutOfMemory>
        requires { self.old.over ≡ false }
        ensures stands { OnOk result
            ((bytes : List ℕ) (n : ℕ) → LinesStand self.old bytes n → LinesStand self.new (bytes ++ piece.now) n) }
        ensures waiting { OnOk result
            (self.new.waiting ≡ self.old.waiting ++ ended_lines (self.old.rest ++ piece.now)) }
        ensures over { OnOk result (self.new.over ≡ false) }
        ensures bounded { length self.new.rest ≤ 65537 }
    {
        let mut left = piece;
        while let Some((line, _, behind)) = split_line(left) {
            extend_line(&mut self.line, line)?;
            self.end_line()?;
            left = behind;
        }
        extend_line(&mut self.line, left)?;
        Ok(())
    }

    /// Reads the end of the input: its last line may lack the line feed.
    pub fn end(&mut self) -> Result<(), OutOfMemory>
        requires { self.old.over ≡ false }
        ensures stands { OnOk result
            ((bytes : List ℕ) (n : ℕ) → LinesStand self.old bytes n → LinesStand self.new bytes n) }
        ensures waiting { OnOk result (self.new.waiting ≡ self.old.waiting ++ whole_lines self.old.rest) }
        ensures rest { OnOk result (self.new.rest ≡ []) }
        ensures over { OnOk result (self.new.over ≡ true) }
    {
        self.over = true;
        if !self.line.is_empty() {
            self.end_line()?;
        }
        Ok(())
    }

    /// The next line; none where each line that has ended was taken.
    pub fn take(&mut self) -> Option<Line>
        ensures next { (bytes : List ℕ) (n : ℕ) → LinesStand self.old bytes n
            → result ≡ slice_get (given_lines self.old.over bytes) n }
        ensures stands { (bytes : List ℕ) (n : ℕ) → LinesStand self.old bytes n
            → IfSome result (λ _. LinesStand self.new bytes (n + 1)) }
        ensures none { IsNone result ↔ (self.old.waiting ≡ []) }
        ensures unchanged { IfNone result (self.new ≡ self.old) }

        ensures waiting { self.old.waiting ≡ option_to_list result ++ self.new.waiting }
        ensures rest { self.new.rest ≡ self.old.rest }
        ensures over { self.new.over ≡ self.old.over }
    {
        self.waiting.pop_front()
    }

    /// Gives the line that has begun, and begins the next.
    fn end_line(&mut self) -> Result<(), OutOfMemory>
        ensures waiting { OnOk result (self.new.waiting ≡ self.old.waiting ++ given.given_line self.old.rest ∷ []) }
        ensures rest { OnOk result (self.new.rest ≡ []) }
        ensures kept { OnErr result (self.new.rest ≡ self.old.rest) }
        ensures over { self.new.over ≡ self.old.over }
    {
        let line = given_line(self.alloc, &self.line)?;
        self.waiting.push_back(line)?;
        self.line.clear();
        Ok(())
    }
}

/// A line as it is given.
fn given_line(alloc: Global, line: &[u8]) -> Result<Line, OutOfMemory>
    ensures { IfOk result (λ l. l ≡ given.given_line line.now) }
{
    if line.len() > LONGEST_LINE {
        return Ok(Line::TooLong);
    }
    Ok(Line::Words(Text::from_bytes(alloc, without_return(line))?))
}
