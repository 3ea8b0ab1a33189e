// A box that takes notices, seen by what it took where it tells that, and by its counts of calls and of faults.
ghost use Rattle.std.specs.Prelude.{◌≡◌, option_map, OnErr, OnOk};
ghost use Rattle.notice_desk.specs.Mail.{Taking, Takes, Refuses};

use pool_io::Failed;

/// Takes notices one by one. It counts its calls and its faults, and neither count ever falls.
pub trait Mailbox: Drop {
    ghost taking: { Self → Taking };

    /// Takes a notice and puts a line feed behind it, or counts a fault and takes nothing.
    fn deliver(&mut self, notice: &[u8]) -> Result<(), Failed>
        ensures took { OnOk result (Takes (taking self.old) (taking self.new) notice.now) }
        ensures failed { OnErr result (Refuses (taking self.old) (taking self.new)) };

    /// The notices taken, each with a line feed behind it; none where the box doesn't tell them.
    fn shown(&self) -> Option<&[u8]>
        ensures { option_map (λ text. text.now) result ≡ (taking self.now).taken };
}
