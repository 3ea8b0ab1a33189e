// The commands of lines. They are read one at a time, but for those that a block takes as they stand, which are read many at once.
ghost use Rattle.std.specs.Prelude.{◌≡◌, ◌++◌, ◌∷◌, [], length, true, false, None, Some, IfOk, IfSome, OnOk, OnErr};
ghost use Rattle.pool_text.specs.Lines.{ended};
ghost use Rattle.pool_script.specs.Commands.{cut_off, given, is_dot, line_command as command_of};
ghost use Rattle.pool_script.specs.Reading.{kept_next};
ghost use Rattle.pool_script.specs.Rows.{line_too_long};
ghost use Rattle.pool_script.specs.Runs.{run_into};

use crate::Command;
use crate::command::LINE_TOO_LONG;
use crate::cuts::{extend_line, run_of_lines, split_line};
use crate::line::{LONGEST_BLOCK, is_dot, is_plain, is_silent, takes_block};
use crate::parse::line_command;
use pool_text::{LONGEST_LINE, OutOfMemory, Text, without_return};
use std::alloc::Global;
use std::collections::VecDeque;
use std::mem;

/// A block that has begun: the line that took it, and its text so far.
#[derive(Drop)]
pub(crate) struct Block {
    pub(crate) line: Text,
    pub(crate) text: Text,
}

/// The commands that wait, the block that has begun, and the line that has begun.
#[derive(Drop)]
pub(crate) struct Reader {
    alloc: Global,
    pub(crate) waiting: VecDeque<Command>,
    pub(crate) block: Option<Block>,
    pub(crate) line: Vec<u8>,
}

impl Reader {
    ghost use Rattle.pool_script.specs.Reading.{commands_from, HasRead, HasReadTo, IsSound};

    /// A reader of no bytes, which takes no memory yet.
    pub(crate) fn new(alloc: Global) -> Reader
        ensures waiting { result.waiting.items ≡ [] }
        ensures block { result.block ≡ None }
        ensures line { result.line.items ≡ [] }
    {
        Reader {
            alloc,
            waiting: VecDeque::new(alloc),
            block: None,
            line: Vec::new(alloc),
        }
    }

    /// Reads a piece, of any size.
    pub(crate) fn feed(&mut self, piece: &[u8]) -> Result<(), OutOfMemory>
        requires { IsSound self.old }
        ensures sound { IsSound self.new }
        ensures ok { OnOk result (HasRead self.old piece.now self.new) }
    {
        let mut left = self.read_run(piece)?;
        while let Some((line, with_feed, behind)) = split_line(left) {
            self.read_ended(line, with_feed)?;
            // Behind a carriage return most often others stand, and each such line would be looked at twice.
            left = if is_plain(line) {
                self.read_run(behind)?
            } else {
                behind
            };
        }
        self.read_bytes(left)
    }

    /// Reads the end of the input: the last line where it has no line feed, and a block that isn't closed.
    pub(crate) fn end(&mut self) -> Result<(), OutOfMemory>
        requires { IsSound self.old }
        ensures sound { IsSound self.new }
        ensures ok { OnOk result (self.new.waiting.items ≡ commands_from true self.old []) }
        ensures block { OnOk result (self.new.block ≡ None) }
        ensures line { OnOk result (self.new.line.items ≡ []) }
    {
        self.end_last_line()?;
        self.end_block()
    }

    /// Reads the line as the last one, which has no line feed; none where it has no bytes.
    fn end_last_line(&mut self) -> Result<(), OutOfMemory>
        requires { IsSound self.old }
        ensures sound { IsSound self.new }
        ensures ok { OnOk result
            (self.new.waiting.items ++ cut_off self.new.block ≡ commands_from true self.old []) }
        ensures line { OnOk result (self.new.line.items ≡ []) }
    {
        if self.line.is_empty() {
            return Ok(());
        }
        self.end_line()?;
        Ok(())
    }

    /// Refuses the block that the input ends within, if there is one.
    #[tactic(auto, unfolding(crate::specs::Commands::cut_off))]
    fn end_block(&mut self) -> Result<(), OutOfMemory>
        requires { IsSound self.old }
        ensures sound { IsSound self.new }
        ensures line { self.new.line.items ≡ self.old.line.items }
        ensures block { self.new.block ≡ None }
        ensures ok { OnOk result
            (self.new.waiting.items ≡ self.old.waiting.items ++ cut_off self.old.block) }
        ensures err { OnErr result (self.new.waiting.items ≡ self.old.waiting.items) }
    {
        let Some(block) = self.block.take() else {
            return Ok(());
        };
        let refused = push_command(self.alloc, &mut self.waiting, block.line.bytes(), None);
        drop(block);
        refused
    }

    /// Reads the lines at the front of a piece that an open block takes as they stand, all at once, and gives what is left of the
    /// piece: all of it outside a block, or where a line has begun.
    #[inline(always)]
    fn read_run<'a>(&mut self, piece: &'a [u8]) -> Result<&'a [u8], OutOfMemory>
        requires { IsSound self.old }
        ensures sound { IsSound self.new }
        ensures ok { IfOk result (λ left. HasReadTo self.old piece.now self.new left.now) }
    {
        match &mut self.block {
            Some(block) if self.line.is_empty() => lengthen_by_run(block, piece),
            _ => Ok(piece),
        }
    }

    /// Reads bytes of the line.
    fn read_bytes(&mut self, bytes: &[u8]) -> Result<(), OutOfMemory>
        requires sound { IsSound self.old }
        requires one_line { ended bytes.now ≡ [] }
        ensures sound { IsSound self.new }
        ensures ok { OnOk result (HasRead self.old bytes.now self.new) }
    {
        extend_line(&mut self.line, bytes)?;
        Ok(())
    }

    /// Reads bytes that end the line. `with_feed` is these bytes and the line feed. A whole line is read where it
    /// stands, but for one that is too long, of which only the first bytes may be kept.
    fn read_ended(&mut self, bytes: &[u8], with_feed: &[u8]) -> Result<(), OutOfMemory>
        requires sound { IsSound self.old }
        requires one_line { ended bytes.now ≡ [] }
        requires feed { with_feed.now ≡ bytes.now ++ 10 ∷ [] }
        ensures sound { IsSound self.new }
        ensures ok { OnOk result (HasRead self.old with_feed.now self.new) }
    {
        if self.line.is_empty() && bytes.len() <= LONGEST_LINE {
            return self.read_line(bytes, with_feed);
        }
        self.read_bytes(bytes)?;
        self.end_line()
    }

    /// Reads the line that has begun as one that has ended, and begins the next.
    fn end_line(&mut self) -> Result<(), OutOfMemory>
        requires { IsSound self.old }
        ensures sound { IsSound self.new }
        ensures ok { OnOk result (HasRead self.old (10 ∷ []) self.new) }
        ensures line { self.new.line.items ≡ [] }
    {
        let mut line = mem::replace(&mut self.line, Vec::new(self.alloc));
        let len = line.len();
        line.push(b'\n')?;
        let read = self.read_line(&line[..len], &line);
        line.clear();
        self.line = line;
        read
    }

    /// Reads a line, in a block or outside one. `with_feed` is the line and its line feed.
    #[tactic(auto, unfolding(crate::specs::Commands::given, crate::specs::Commands::next, crate::specs::Reading::kept_next))]
    fn read_line(&mut self, line: &[u8], with_feed: &[u8]) -> Result<(), OutOfMemory>
        requires { with_feed.now ≡ line.now ++ 10 ∷ [] }
        ensures line { self.new.line.items ≡ self.old.line.items }
        ensures ok_waiting { OnOk result
            (self.new.waiting.items ≡ self.old.waiting.items ++ given self.old.block line.now) }
        ensures ok_block { OnOk result (self.new.block ≡ kept_next self.old.block line.now) }
        ensures err_waiting { OnErr result (self.new.waiting.items ≡ self.old.waiting.items) }
        ensures err_block { OnErr result (self.new.block ≡ None) }
    {
        match &mut self.block {
            None => self.read_outside(line),
            Some(_) if is_dot(line) => self.close_block(),
            Some(block) => {
                let lengthened = lengthen(block, line, with_feed);
                if lengthened.is_err() {
                    self.block = None;
                }
                lengthened
            }
        }
    }

    /// Closes the block, whose text is whole.
    fn close_block(&mut self) -> Result<(), OutOfMemory>
        ensures line { self.new.line.items ≡ self.old.line.items }
        ensures ok { IfSome self.old.block (λ block. OnOk result
            (self.new.waiting.items ≡ self.old.waiting.items ++ command_of block.line (Some block.text) ∷ [])) }
        ensures err { OnErr result (self.new.waiting.items ≡ self.old.waiting.items) }
        ensures closed { self.new.block ≡ None }
    {
        let Some(Block { line, text }) = self.block.take() else {
            return Ok(());
        };
        let pushed = push_command(self.alloc, &mut self.waiting, line.bytes(), Some(text));
        drop(line);
        pushed
    }

    /// Reads a line outside a block.
    #[tactic(auto, unfolding(crate::specs::Commands::given, crate::specs::Commands::next, crate::specs::Reading::kept_next))]
    fn read_outside(&mut self, line: &[u8]) -> Result<(), OutOfMemory>
        requires { self.old.block ≡ None }
        ensures line { self.new.line.items ≡ self.old.line.items }
        ensures ok_waiting { OnOk result
            (self.new.waiting.items ≡ self.old.waiting.items ++ given None line.now) }
        ensures ok_block { OnOk result (self.new.block ≡ kept_next None line.now) }
        ensures err_waiting { OnErr result (self.new.waiting.items ≡ self.old.waiting.items) }
        ensures err_block { OnErr result (self.new.block ≡ None) }
    {
        if line.len() > LONGEST_LINE {
            refuse_line(&mut self.waiting)
        } else if takes_block(line) {
            self.block = Some(new_block(self.alloc, line)?);
            Ok(())
        } else if is_silent(line) {
            Ok(())
        } else {
            push_command(self.alloc, &mut self.waiting, line, None)
        }
    }
}

/// Puts the refusal of a line that is too long behind the commands that wait.
fn refuse_line(waiting: &mut VecDeque<Command>) -> Result<(), OutOfMemory>
    ensures ok { OnOk result (waiting.new.items ≡ waiting.old.items ++ line_too_long ∷ []) }
    ensures err { OnErr result (waiting.new.items ≡ waiting.old.items) }
{
    waiting.push_back(Command::Bad(LINE_TOO_LONG))?;
    Ok(())
}

/// Puts what a line commands behind the commands that wait. `block` is the text of its block, or none where it has none.
fn push_command(
    alloc: Global,
    waiting: &mut VecDeque<Command>,
    line: &[u8],
    block: Option<Text>,
) -> Result<(), OutOfMemory>
    ensures ok { OnOk result (waiting.new.items ≡ waiting.old.items ++ command_of line.now block ∷ []) }
    ensures err { OnErr result (waiting.new.items ≡ waiting.old.items) }
{
    let command = line_command(alloc, line, block)?;
    waiting.push_back(command)?;
    Ok(())
}

/// The block that a line begins.
fn new_block(alloc: Global, line: &[u8]) -> Result<Block, OutOfMemory>
    ensures { IfOk result (λ block. block ≡ record { line = line.now; text = [] }) }
{
    Ok(Block {
        line: Text::from_bytes(alloc, line)?,
        text: Text::new(alloc),
    })
}

/// Adds a line to the block, of which no more is kept once its text is too long. `with_feed` is the line and its line
/// feed, which stand together, so that where no carriage return is dropped they are added at once.
#[tactic(auto, unfolding(crate::specs::Commands::next, crate::specs::Reading::kept_next))]
fn lengthen(block: &mut Block, line: &[u8], with_feed: &[u8]) -> Result<(), OutOfMemory>
    requires other { is_dot line.now ≡ false }
    requires feed { with_feed.now ≡ line.now ++ 10 ∷ [] }
    ensures { OnOk result (Some block.new ≡ kept_next (Some block.old) line.now) }
{
    if block.text.bytes().len() > LONGEST_BLOCK {
        return Ok(());
    }
    let front = without_return(line);
    if front.len() == line.len() {
        return block.text.append(with_feed);
    }
    block.text.append(front)?;
    block.text.append(b"\n")
}

/// Adds the lines at the front of a piece that the block takes as they stand, as many as it has room for, and gives what is left
/// of the piece.
fn lengthen_by_run<'a>(block: &mut Block, piece: &'a [u8]) -> Result<&'a [u8], OutOfMemory>
    ensures ok { OnOk result
        (block.new ≡ record { line = block.old.line; text = block.old.text ++ run_into block.old piece.now }) }
    ensures err { OnErr result (block.new ≡ block.old) }
    ensures left { IfOk result (λ left. run_into block.old piece.now ++ left.now ≡ piece.now) }
{
    let (run, left) = piece.split_at(run_into(block, piece));
    block.text.append(run)?;
    Ok(left)
}

/// How many bytes those lines have. Only bytes that the block has room for are searched, so that a block that is too long, whose
/// lines are read one by one, isn't searched to the end of the piece at each of them.
fn run_into(block: &Block, piece: &[u8]) -> usize
    ensures { result ≡ length (run_into block.now piece.now) }
{
    let room = LONGEST_BLOCK.saturating_sub(block.text.bytes().len());
    run_of_lines(&piece[..room.min(piece.len())])
}
