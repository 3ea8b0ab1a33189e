// A script as its callers see it: the commands that wait, the bytes that are no command yet, and whether the input is over.
ghost use Rattle.std.specs.Prelude.{◌≡◌, ◌↔◌, ◌≤◌, ◌+◌, ◌*◌, ◌++◌, ℕ, List, [], true, false, length, slice_get};
ghost use Rattle.std.specs.Prelude.{IfNone, IfSome, IsNone, IsTrue, OnOk};
ghost use Rattle.std.specs.Option.{option_to_list};
ghost use Rattle.pool_script.specs.Commands.{commands_of, ended_commands, whole_commands};
ghost use Rattle.pool_script.specs.Form.{is_within_form};
ghost use Rattle.pool_script.specs.Standing.{Stands};

use crate::Command;
use crate::reader::Reader;
use pool_text::OutOfMemory;
use std::alloc::Global;
use std::marker::Model;

/// The commands of an input that comes in pieces of any size. Where a call answers `OutOfMemory`, the script is only to
/// be dropped.
#[derive(Drop)]
pub struct Script {
    reader: Reader,
    over: bool,
}

impl Model for Script {
    ghost use Rattle.pool_script.specs.Reading.{rest_kept, IsSound};
    ghost use Rattle.pool_script.specs.Standing.{Kept};

    ghost Value = { Kept };

    ghost view = { λ s. record {
      waiting = s.reader.waiting.items;
      rest = rest_kept s.reader.block s.reader.line.items;
      over = s.over;
    } };

    ghost invariant = { λ s. IsSound s.reader };
}

impl Script {
    /// A script of no bytes, which takes no memory yet.
    pub fn new(alloc: Global) -> Script
        ensures empty { result ≡ record { waiting = []; rest = []; over = false } }
        ensures stands { Stands result [] 0 }
    {
        Script {
            reader: Reader::new(alloc),
            over: false,
        }
    }

    /// Reads a piece of the input, of any size. Of the bytes that are no command yet no more are kept than the answer
    /// needs.
    pub fn feed(&mut self, piece: &[u8]) -> Result<(), OutOfMemory>
        requires { self.old.over ≡ false }
        ensures stands { OnOk result
            ((bytes : List ℕ) (n : ℕ) → Stands self.old bytes n → Stands self.new (bytes ++ piece.now) n) }
        ensures waiting { OnOk result
            (self.new.waiting ≡ self.old.waiting ++ ended_commands (self.old.rest ++ piece.now)) }
        ensures over { OnOk result (self.new.over ≡ false) }
        ensures bounded { length self.new.rest ≤ 6 * 65537 }
    {
        self.reader.feed(piece)?;
        Ok(())
    }

    /// Reads the end of the input: its last line may lack the line feed, and a block that isn't closed is refused.
    pub fn end(&mut self) -> Result<(), OutOfMemory>
        requires { self.old.over ≡ false }
        ensures stands { OnOk result
            ((bytes : List ℕ) (n : ℕ) → Stands self.old bytes n → Stands self.new bytes n) }
        ensures waiting { OnOk result (self.new.waiting ≡ self.old.waiting ++ whole_commands self.old.rest) }
        ensures rest { OnOk result (self.new.rest ≡ []) }
        ensures over { OnOk result (self.new.over ≡ true) }
    {
        self.over = true;
        self.reader.end()?;
        Ok(())
    }

    /// The next command; none where each command that has ended was taken.
    pub fn take(&mut self) -> Option<Command>
        ensures next { (bytes : List ℕ) (n : ℕ) → Stands self.old bytes n
            → result ≡ slice_get (commands_of self.old.over bytes) n }
        ensures stands { (bytes : List ℕ) (n : ℕ) → Stands self.old bytes n
            → IfSome result (λ _. Stands self.new bytes (n + 1)) }
        ensures none { IsNone result ↔ (self.old.waiting ≡ []) }
        ensures unchanged { IfNone result (self.new ≡ self.old) }

        ensures waiting { self.old.waiting ≡ option_to_list result ++ self.new.waiting }
        ensures rest { self.new.rest ≡ self.old.rest }
        ensures over { self.new.over ≡ self.old.over }

        ensures form { IfSome result (λ command. IsTrue (is_within_form command)) }
    {
        self.reader.waiting.pop_front()
    }
}
