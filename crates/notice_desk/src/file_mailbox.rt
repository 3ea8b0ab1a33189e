// A mailbox over a file of std. It is a trusted edge: what the file holds is not proved.
ghost use Rattle.std.specs.Prelude.{◌≡◌, ◌++◌, ◌∷◌, [], option_map, IfSome, IsSome, None, OnErr, OnOk};
ghost use Rattle.std.specs.Io.KnownBytes.{Appends};
ghost use Rattle.pool_io.specs.Memory.{next_count};
ghost use Rattle.notice_desk.specs.Boxes.{untold};
ghost use Rattle.notice_desk.specs.Mail.{Takes, Refuses};

use crate::Mailbox;
use pool_io::Failed;
use pool_text::Text;
use std::fs;
use std::fs::Files;
use std::io::Write;
use std::marker::Model;

/// Makes its file anew at the first notice, and writes each notice and a line feed to it. A path that isn't UTF-8, and
/// whatever the runtime refuses, is a fault. It doesn't tell what it took.
#[derive(Drop)]
pub struct FileMailbox<R: Files + Drop> {
    runtime: R,
    path: Text,
    file: Option<R::File>,
    calls: u64,
    faults: u64,
}

impl<R: Files + Drop> Model for FileMailbox<R> {
    ghost use Rattle.notice_desk.specs.Boxes.{Counts};

    ghost Value = { Counts };

    ghost view = { λ b. record { calls = b.calls; faults = b.faults } };
}

impl<R: Files + Drop> FileMailbox<R> {
    /// A box that has made no file yet.
    pub fn new(runtime: R, path: Text) -> FileMailbox<R>
        ensures { result ≡ record { calls = 0; faults = 0 } }
    {
        FileMailbox {
            runtime,
            path,
            file: None,
            calls: 0,
            faults: 0,
        }
    }
}

// Writes the notice and a line feed, to a file made anew where there is none yet; none where anything was refused.
fn write_line<R: Files>(
    runtime: &R,
    path: &[u8],
    file: &mut Option<R::File>,
    notice: &[u8],
) -> Option<()>
    ensures open { IfSome result (λ _. IsSome file.new) }
    ensures appended { IfSome result (λ _. IfSome file.old (λ old. IfSome file.new (λ new.
        Appends (R.File.contents old) (R.File.contents new) (notice.now ++ 10 ∷ [])))) }
{
    if file.is_none() {
        *file = Some(fs::create(runtime, str::from_utf8(path).ok()?).ok()?);
    }
    let Some(open) = file else {
        return None;
    };
    open.write_all(notice).ok()?;
    open.write_all(b"\n").ok()
}

impl<R: Files + Drop> Mailbox for FileMailbox<R> {
    ghost taking = { untold };

    fn deliver(&mut self, notice: &[u8]) -> Result<(), Failed>
        ensures took { OnOk result (Takes (untold self.old) (untold self.new) notice.now) }
        ensures failed { OnErr result (Refuses (untold self.old) (untold self.new)) }
        ensures kept { OnOk result (self.new.faults ≡ self.old.faults) }
        ensures counted { OnErr result (self.new.faults ≡ next_count self.old.faults) }
    {
        self.calls = self.calls.saturating_add(1);
        let written = write_line(&self.runtime, self.path.bytes(), &mut self.file, notice);
        if written.is_none() {
            self.faults = self.faults.saturating_add(1);
            return Err(Failed);
        }
        Ok(())
    }

    fn shown(&self) -> Option<&[u8]>
        ensures { option_map (λ text. text.now) result ≡ None }
    {
        None
    }
}
