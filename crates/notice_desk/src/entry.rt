// A name on the desk, with its box or with none where the box was retired.
ghost use Rattle.std.specs.Prelude.{◌≡◌, ◌+◌, bytes_eq, is_some, length, option_map, option_to_list, IfSome, OnErr, OnOk, Some};
ghost use Rattle.notice_desk.specs.Mail.{Takes, Refuses};
ghost use Rattle.notice_desk.specs.Desk.{HeldPosts, RowPosts, is_marked, retired, told_by};

use crate::{Mailbox, PostEnd};
use pool_io::Failed;
use pool_text::Text;

#[derive(Drop)]
pub(crate) struct HeldBox {
    // The name that the box stands under, which goes with it when it leaves.
    pub(crate) name: Text,
    pub(crate) mailbox: Box<dyn Mailbox>,
    pub(crate) failed: bool,
}

#[derive(Drop)]
pub(crate) struct Entry {
    pub(crate) name: Text,
    pub(crate) held: Option<HeldBox>,
    pub(crate) failures: u64,
    ghost own: { option_map (λ held. held.name) held ≡ option_map (λ held. name) held },
}

// A box that left the desk, with the failures of its name.
#[derive(Drop)]
pub(crate) struct LeftBox {
    pub(crate) held: HeldBox,
    pub(crate) failures: u64,
}

fn deliver_to(mailbox: &mut Box<dyn Mailbox>, notice: &[u8]) -> Result<(), Failed>
    ensures took { OnOk result (Takes (taking mailbox.old) (taking mailbox.new) notice.now) }
    ensures failed { OnErr result (Refuses (taking mailbox.old) (taking mailbox.new)) }
{
    mailbox.deliver(notice)
}

impl HeldBox {
    ghost use Rattle.notice_desk.specs.Sight.{held_of};

    // Hands the box a notice, and marks it where it fails.
    fn post(&mut self, notice: &[u8]) -> PostEnd
        ensures posts { HeldPosts notice.now result (Some (held_of taking self.old)) (Some (held_of taking self.new)) }
        ensures name { self.new.name ≡ self.old.name }
    {
        match deliver_to(&mut self.mailbox, notice) {
            Ok(()) => PostEnd::Delivered,
            Err(_) => {
                self.failed = true;
                PostEnd::Failed
            }
        }
    }
}

impl Entry {
    ghost use Rattle.notice_desk.specs.Sight.{boxes, left_row, row_of};

    pub(crate) fn is_named(&self, name: &[u8]) -> bool
        ensures { result ≡ bytes_eq self.now.name name.now }
    {
        self.name.bytes() == name
    }

    // Hands the box under the name a notice, where there is one, and counts a failure.
    pub(crate) fn post(&mut self, notice: &[u8]) -> PostEnd
        ensures row { RowPosts notice.now result (row_of taking self.old) (row_of taking self.new) }
        ensures boxes { boxes self.new ≡ boxes self.old }
    {
        let Some(held) = &mut self.held else {
            return PostEnd::NoBox;
        };
        let end = held.post(notice);
        if let PostEnd::Failed = end {
            self.failures = self.failures.saturating_add(1);
        }
        end
    }

    // What the box tells of what it took, where there is one.
    pub(crate) fn shown(&self) -> Option<&[u8]>
        ensures { option_map (λ text. text.now) result ≡ told_by (row_of taking self.now).held }
    {
        match &self.held {
            Some(held) => held.mailbox.shown(),
            None => None,
        }
    }

    // Takes the box out where it is marked.
    pub(crate) fn retire(&mut self) -> Option<LeftBox>
        ensures marked { is_some result ≡ is_marked (row_of taking self.old) }
        ensures row { row_of taking self.new ≡ retired (row_of taking self.old) }
        ensures left { IfSome result (λ left. left_row taking left ≡ row_of taking self.old) }
        ensures boxes { boxes self.new + length (option_to_list result) ≡ boxes self.old }
    {
        let Some(held) = self.held.take() else {
            return None;
        };
        if !held.failed {
            self.held = Some(held);
            return None;
        }
        Some(LeftBox {
            held,
            failures: self.failures,
        })
    }

    // The box, where there is one.
    pub(crate) fn into_left(self) -> Option<LeftBox>
        ensures left { IfSome result (λ left. left_row taking left ≡ row_of taking self) }
        ensures boxes { length (option_to_list result) ≡ boxes self }
    {
        let Entry {
            name: _,
            held,
            failures,
        } = self;
        let Some(held) = held else {
            return None;
        };
        Some(LeftBox { held, failures })
    }
}
