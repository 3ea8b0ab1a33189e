// Notices about jobs, and those of a step by its reply.
ghost use Rattle.std.specs.Prelude.{◌≡◌, ◌++◌, ◌∷◌, bytes_eq, codes, IfOk, OnErr, OnOk};
ghost use Rattle.std.specs.List.{AllZip};
ghost use Rattle.pool_replies.specs.Cycles.{with_blanks};
ghost use Rattle.pool_books.specs.Queue.{is_listed};
ghost use Rattle.pool_state.specs.Notices as rules;
ghost use Rattle.pool_state.specs.Posting.{ArePosted, RowAfter, desk_of, posts_of_all};

use crate::posting::{Notice, NoticeList, post_all};
use notice_desk::Notices;
use pool_replies::{Refusal, Reply, SpinRow, SpinRows, TurnRow};
use pool_text::{Names, OutOfMemory, Text};
use std::alloc::Global;
use std::convert::AsSlice;

/// The notice of a word, a job and its resources. It goes to the user and to each of the resources, once to each name.
pub(crate) fn about(
    alloc: Global,
    word: &[u8],
    user: &Text,
    job: &Text,
    names: &Names,
) -> Result<Notice, OutOfMemory>
    ensures { IfOk result (λ notice. notice ≡ rules.about word.now user.now job.now names.now) }
{
    Ok(Notice {
        names: listeners(alloc, user, names)?,
        line: line(alloc, word, job, names)?,
    })
}

// The user and the resources, each name once.
fn listeners(alloc: Global, user: &Text, names: &Names) -> Result<Names, OutOfMemory>
    ensures { IfOk result (λ once. once ≡ rules.each_once (user.now ∷ names.now)) }
{
    let mut once = Names::new(alloc);
    add_name(&mut once, user)?;
    for name in names.as_slice() {
        add_name(&mut once, name)?;
    }
    Ok(once)
}

// Adds a name, unless it is there.
fn add_name(names: &mut Names, name: &Text) -> Result<(), OutOfMemory>
    ensures { OnOk result (names.new ≡ rules.with_name names.old name.now) }
{
    if has_name(names, name.bytes()) {
        return Ok(());
    }
    names.push(name.copy()?)
}

// Whether a name is among others.
fn has_name(names: &Names, name: &[u8]) -> bool
    ensures { result ≡ is_listed name.now names.now }
{
    for other in names.as_slice() {
        if is_same(other, name) {
            return true;
        }
    }
    false
}

// Whether a text has these bytes.
fn is_same(text: &Text, bytes: &[u8]) -> bool
    ensures { result ≡ bytes_eq bytes.now text.now }
{
    bytes == text.bytes()
}

// The word, the job and the resources, with a blank before each of these.
fn line(alloc: Global, word: &[u8], job: &Text, names: &Names) -> Result<Text, OutOfMemory>
    ensures { IfOk result (λ line. line ≡ word.now ++ job.now ++ with_blanks names.now) }
{
    let mut line = Text::from_bytes(alloc, word)?;
    line.append(job.bytes())?;
    append_names(&mut line, names)?;
    Ok(line)
}

// Appends the names, each with a blank before it.
fn append_names(line: &mut Text, names: &Names) -> Result<(), OutOfMemory>
    ensures { OnOk result (line.new ≡ line.old ++ with_blanks names.now) }
{
    for name in names.as_slice() {
        append_name(line, name)?;
    }
    Ok(())
}

// Appends a blank and a name.
fn append_name(line: &mut Text, name: &Text) -> Result<(), OutOfMemory>
    ensures { OnOk result (line.new ≡ line.old ++ codes " " ++ name.now) }
{
    line.append(b" ")?;
    line.append(name.bytes())
}

/// Posts the notices of a step that is answered so to a desk, and hands the reply on. All memory is taken before the first post.
pub(crate) fn tell<D: Notices>(
    alloc: Global,
    reply: Reply,
    granted: NoticeList,
    stale: NoticeList,
    desk: &mut D,
) -> Result<Reply, OutOfMemory>
    ensures same { IfOk result (λ told. told ≡ reply) }
    ensures posted { OnOk result (AllZip (RowAfter (posts_of_all (rules.told reply granted stale)))
        (D.shows desk.old) (D.shows desk.new)) }
    ensures told { OnOk result (ArePosted (posts_of_all (rules.told reply granted stale))
        (desk_of (D.shows desk.old) (D.left desk.old)) (desk_of (D.shows desk.new) (D.left desk.new))) }
    ensures none { OnErr result (D.shows desk.new ≡ D.shows desk.old) }
    ensures none_left { OnErr result (D.left desk.new ≡ D.left desk.old) }
{
    match told(alloc, &reply, granted, stale) {
        Ok(notices) => {
            post_all(desk, &notices);
            Ok(reply)
        }
        Err(_) => {
            drop(reply);
            Err(OutOfMemory)
        }
    }
}

// The notices of a step that is answered so, from those of a command that isn't refused and those of a stale claim.
fn told(
    alloc: Global,
    reply: &Reply,
    granted: NoticeList,
    stale: NoticeList,
) -> Result<NoticeList, OutOfMemory>
    ensures { IfOk result (λ list. list ≡ rules.told reply.now granted stale) }
{
    match reply {
        Reply::Refused(Refusal::Stale(_)) => Ok(stale),
        Reply::Refused(_) => Ok(NoticeList::new(alloc)),
        Reply::Cycle(spins) => matches(alloc, spins),
        _ => Ok(granted),
    }
}

// The notices of a cycle: of each offer, in their order.
fn matches(alloc: Global, spins: &SpinRows) -> Result<NoticeList, OutOfMemory>
    ensures { IfOk result (λ list. list ≡ rules.matches spins.now) }
{
    let mut list = NoticeList::new(alloc);
    for spin in spins.as_slice() {
        tell_spin(alloc, spin, &mut list)?;
    }
    Ok(list)
}

fn tell_spin(alloc: Global, spin: &SpinRow, list: &mut NoticeList) -> Result<(), OutOfMemory>
    ensures { OnOk result (list.new ≡ list.old ++ rules.spin_matches spin.now) }
{
    for turn in spin.turns.as_slice() {
        tell_turn(alloc, turn, list)?;
    }
    Ok(())
}

fn tell_turn(alloc: Global, turn: &TurnRow, list: &mut NoticeList) -> Result<(), OutOfMemory>
    ensures { OnOk result (list.new ≡ list.old ++ rules.turn_matches turn.now) }
{
    for offer in turn.offers.as_slice() {
        list.push(about(alloc, b"matched ", &turn.user, &offer.job, &offer.names)?)?;
    }
    Ok(())
}
