// Notices, and how they go to the mailboxes of a desk.
ghost use Rattle.std.specs.Prelude.{◌∷◌, []};
ghost use Rattle.pool_state.specs.Posting.{ArePosted, desk_of, post_to, posts_of, posts_of_all};

use notice_desk::{Notices, PostEnd};
use pool_text::{Items, Names, Text};
use std::convert::AsSlice;

/// A line, which has no line feed, and the names that it goes to, each once.
#[derive(Drop)]
pub(crate) struct Notice {
    pub(crate) names: Names,
    pub(crate) line: Text,
}

/// Notices in their order.
pub(crate) type NoticeList = Items<Notice>;

/// Posts notices one after another, each to each of its names. A box that fails leaves the desk before the next post. It takes no
/// memory.
pub(crate) fn post_all<D: Notices>(desk: &mut D, notices: &NoticeList)
    ensures { ArePosted (posts_of_all notices.now) (desk_of (D.shows desk.old) (D.left desk.old)) (desk_of (D.shows desk.new) (D.left desk.new)) }
{
    for notice in notices.as_slice() {
        post_notice(desk, notice);
    }
}

// Posts a notice to each of its names.
fn post_notice<D: Notices>(desk: &mut D, notice: &Notice)
    ensures { ArePosted (posts_of notice.now) (desk_of (D.shows desk.old) (D.left desk.old)) (desk_of (D.shows desk.new) (D.left desk.new)) }
{
    for name in notice.names.as_slice() {
        post_line(desk, name.bytes(), notice.line.bytes());
    }
}

// Posts a line to a name, and takes the box off the desk where it fails.
fn post_line<D: Notices>(desk: &mut D, name: &[u8], line: &[u8])
    ensures { ArePosted (post_to line.now name.now ∷ []) (desk_of (D.shows desk.old) (D.left desk.old)) (desk_of (D.shows desk.new) (D.left desk.new)) }
{
    match desk.post(name, line) {
        PostEnd::Failed => {
            let _retired = desk.retire_failed();
        }
        _ => {}
    }
}
