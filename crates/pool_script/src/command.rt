// The commands that a script may hold.
use pool_text::Text;

/// The refusals that `Command::Bad` carries.
pub(crate) const LINE_TOO_LONG: u8 = 1;

pub(crate) const UNKNOWN_COMMAND: u8 = 2;

pub(crate) const WRONG_WORDS: u8 = 3;

pub(crate) const BLOCK_NOT_ENDED: u8 = 4;

pub(crate) const BLOCK_TOO_LONG: u8 = 5;

/// A command of the pool. A name is 1 to 64 bytes, each an ASCII letter, a digit, `_`, `-`, `.` or `@`. A block is a
/// text of at most 65,536 bytes whose lines all end and none of which is a dot. An expression has no line feed.
#[derive(Drop)]
pub enum Command {
    /// Sets the moment, from 0 to 10^12.
    Clock(u64),
    /// Puts the ad of the block into the pool for a lifetime from 1 to 10^9.
    Advertise {
        name: Text,
        lifetime: u64,
        block: Text,
    },
    /// Takes an ad out of the pool.
    Withdraw(Text),
    /// Prints an ad.
    Show(Text),
    /// Lists the ads.
    List,
    /// Evaluates an expression by itself.
    Eval(Text),
    /// Evaluates an expression with an ad docked.
    EvalIn {
        name: Text,
        expr: Text,
    },
    /// Finds the ads that match the ad of the block.
    Query(Text),
    /// Puts the job of the block into the queue.
    Submit {
        job: Text,
        user: Text,
        block: Text,
    },
    /// Takes a job out of the queue.
    Remove(Text),
    /// Sets a user's priority, from 1 to 10^6.
    Priority {
        user: Text,
        n: u64,
    },
    /// Finds a gang of ads for the ad of the block.
    Gang(Text),
    /// Runs a negotiation cycle.
    Negotiate,
    /// Claims what a job was offered.
    Claim(Text),
    /// Gives back what a job claimed.
    Release(Text),
    /// Lists the jobs.
    Jobs,
    /// Prints the ad of a job.
    Job(Text),
    /// Lists the users.
    Users,
    /// Says why a job matches the ads that it matches.
    Why(Text),
    /// Lists the jobs in classes that no ad tells apart.
    Classes,
    /// Closes a mailbox.
    Unlisten(Text),
    /// A command that isn't read: 1 where its line is too long, 2 where its first word is unknown, 3 where its other
    /// words are wrong, 4 where the input ends within its block, 5 where its block is too long.
    Bad(u8),
}
