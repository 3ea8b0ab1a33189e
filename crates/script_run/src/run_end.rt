// How a run ended.
ghost use Rattle.std.specs.Prelude.{◌≡◌};
ghost use Rattle.std.specs.Process.{exit_status};

use pool_text::OutOfMemory;
use std::process::ExitCode;

/// How a run ended.
#[derive(Clone, Copy, PartialEq, Eq)]
pub enum RunEnd {
    /// All of the input was read and all answers were taken; `refused` counts the refused items.
    Done { refused: u64 },
    /// The words of the command line are wrong. Nothing was read or written.
    BadWords,
    /// The source failed.
    ReadFault,
    /// The sink failed.
    WriteFault,
    /// The input has more than 1,073,741,824 bytes.
    TooLong,
    /// The system gave no memory.
    OutOfMemory,
}

impl From<OutOfMemory> for RunEnd {
    ghost use Rattle.script_run.specs.declared.run_end.RunEnd.TheVariants as ends;

    ghost from_gives = { λ _ end. end ≡ ends.OutOfMemory };

    fn from(_: OutOfMemory) -> Self {
        RunEnd::OutOfMemory
    }
}

impl RunEnd {
    ghost use Rattle.script_run.specs.Ends.{status_of};

    /// The status with which a program ends after such a run, from 0 to 6.
    pub fn status(&self) -> u8
        ensures { result ≡ status_of self.now }
    {
        match self {
            RunEnd::Done { refused: 0 } => 0,
            RunEnd::Done { .. } => 1,
            RunEnd::BadWords => 2,
            RunEnd::ReadFault => 3,
            RunEnd::WriteFault => 4,
            RunEnd::TooLong => 5,
            RunEnd::OutOfMemory => 6,
        }
    }

    /// That status as the program's.
    pub fn exit_code(&self) -> ExitCode
        ensures { exit_status result ≡ status_of self.now }
    {
        ExitCode::from(self.status())
    }
}
