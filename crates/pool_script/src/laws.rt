// Laws of the definitions, each on a function that does nothing.
ghost use Rattle.std.specs.Prelude.{◌≡◌, ◌≤◌, ◌+◌, ◌++◌, ℕ, List, length};
ghost use Rattle.pool_script.specs.Commands.{ended_commands, whole_commands};
ghost use Rattle.pool_script.specs.GivenLines.{ended_lines, whole_lines};
ghost use Rattle.pool_script.specs.Standing.{Stands};
ghost use Rattle.pool_script.specs.declared.command.Command.{Command};
ghost use Rattle.pool_script.specs.declared.lines.Line.{Line};

use crate::Script;

/// The commands that have ended within some bytes are the first of those of any longer input, whole or not.
pub fn ended_commands_come_first()
    ensures ended { (bytes more : List ℕ) → (others : List Command)
        × (ended_commands (bytes ++ more) ≡ ended_commands bytes ++ others) }
    ensures whole { (bytes more : List ℕ) → (others : List Command)
        × (whole_commands (bytes ++ more) ≡ ended_commands bytes ++ others) }
{}

/// There are no more commands than bytes.
pub fn commands_are_no_more_than_bytes()
    ensures ended { (bytes : List ℕ) → length (ended_commands bytes) ≤ length bytes }
    ensures whole { (bytes : List ℕ) → length (whole_commands bytes) ≤ length bytes }
{}

/// The commands that were taken and those that wait are no more than the bytes that a script stands for.
pub fn taken_and_waiting_are_no_more_than_bytes(script: &Script, bytes: &[u8])
    ensures { (n : ℕ) → Stands script.now bytes.now n → n + length script.now.waiting ≤ length bytes.now }
{}

/// The lines that have ended within some bytes are the first of those of any longer input, whole or not.
pub fn ended_lines_come_first()
    ensures ended { (bytes more : List ℕ) → (others : List Line)
        × (ended_lines (bytes ++ more) ≡ ended_lines bytes ++ others) }
    ensures whole { (bytes more : List ℕ) → (others : List Line)
        × (whole_lines (bytes ++ more) ≡ ended_lines bytes ++ others) }
{}

/// There are no more lines than bytes.
pub fn lines_are_no_more_than_bytes()
    ensures ended { (bytes : List ℕ) → length (ended_lines bytes) ≤ length bytes }
    ensures whole { (bytes : List ℕ) → length (whole_lines bytes) ≤ length bytes }
{}
