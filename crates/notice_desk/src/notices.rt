// What code above asks of a desk. A crate that hands a desk on is generic in it, so that it makes and hides no box.
ghost use Rattle.std.specs.Prelude.{◌≡◌, ◌<◌, ◌↔◌, ◌++◌, List, count_by, filter, length, map, option_map, slice_get, IsNone, IsSome, IsTrue, Some};
ghost use Rattle.std.specs.List.{AllZip};
ghost use Rattle.notice_desk.specs.Desk.{Row, Posts, box_under, failures_under, is_marked, leaves_with, names_of, retired, told_by, without};
ghost use Rattle.notice_desk.specs.Names.{AreDistinct};

use pool_text::Text;

/// How a post ended.
#[derive(Clone, Copy, Debug, PartialEq, Eq)]
pub enum PostEnd {
    /// No box stands under the name.
    NoBox,
    /// The box took the notice.
    Delivered,
    /// The box failed, and is marked.
    Failed,
}

/// A desk of distinct names with mailboxes, which contracts see as a list of rows.
pub trait Notices {
    ghost shows: { Self → List Row };

    /// The rows whose box left the desk, each as it was then, in the order in which they left.
    ghost left: { Self → List Row };

    /// How many names there are.
    fn len(&self) -> usize
        ensures len { result ≡ length (shows self.now) }
        ensures distinct { AreDistinct (names_of (shows self.now)) };

    /// The name at place `i`, counted from 0.
    fn name(&self, i: usize) -> &Text
        requires { i < length (shows self.now) }
        ensures { slice_get (names_of (shows self.now)) i ≡ Some result.now };

    /// What the box under the name shows; none exactly where no box stands there or it doesn't tell what it took.
    fn shown(&self, name: &[u8]) -> Option<&[u8]>
        ensures { option_map (λ text. text.now) result ≡ told_by (box_under name.now (shows self.now)) };

    /// How many posts to the name failed, up to the last value of 64 bits; none exactly where the name isn't there.
    fn failures(&self, name: &[u8]) -> Option<u64>
        ensures { result ≡ failures_under name.now (shows self.now) };

    /// Hands the one box under the name a notice, and marks it where it fails. Nothing else changes.
    fn post(&mut self, name: &[u8], notice: &[u8]) -> PostEnd
        ensures no_box { (result ≡ PostEnd.NoBox) ↔ IsNone (box_under name.now (shows self.old)) }
        ensures rows { AllZip (Posts name.now notice.now result) (shows self.old) (shows self.new) }
        ensures left { left self.new ≡ left self.old };

    /// Takes exactly the boxes that are marked off the desk, as they are, keeps their names, and answers how many.
    fn retire_failed(&mut self) -> u64
        ensures count { result ≡ count_by is_marked (shows self.old) }
        ensures rows { shows self.new ≡ map retired (shows self.old) }
        ensures left { left self.new ≡ left self.old ++ filter is_marked (shows self.old) };

    /// Takes the name off the desk, with its box as it is where one is left; false exactly where the name isn't there.
    fn close(&mut self, name: &[u8]) -> bool
        ensures known { IsTrue result ↔ IsSome (failures_under name.now (shows self.old)) }
        ensures rows { shows self.new ≡ without name.now (shows self.old) }
        ensures left { left self.new ≡ left self.old ++ filter (leaves_with name.now) (shows self.old) };
}
