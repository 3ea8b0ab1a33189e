// The replies of the pool, and the text of each.
ghost use Rattle.std.specs.Prelude.{◌≡◌, ◌≤◌, ◌^◌, ◌++◌, codes, decimal, IfNone, IfOk, IfSome, OnOk, IsTrue};
ghost use Rattle.std.specs.List.{flat_map};
ghost use Rattle.pool_replies.specs.Replies as texts;

use crate::classes::append_classes;
use crate::cycle::{append_cycle, offers_of_spins};
use crate::queue::{append_jobs, append_users};
use crate::refusal::append_refusal;
use crate::why::append_why;
use crate::writing::{
    append_amount, append_amount_line, append_line, append_name, append_name_line, append_names,
    append_names_line,
};
use crate::{AdRow, AdRows, HitRow, HitRows, JobRows, NamesList, Refusal, SpinRows, UserRows};
use match_explain::Report;
use pool_text::{Names, OutOfMemory, Text, append_shortest_decimal};
use std::alloc::Global;
use std::convert::AsSlice;

/// What the pool answers to a command.
#[derive(Drop)]
pub enum Reply {
    /// The clock stands at the moment; so many ads left the pool.
    Clock {
        moment: u64,
        expired: u64,
    },
    /// An ad of a new name is in the pool.
    Advertised(Text),
    /// An ad replaced the one of its name.
    Replaced(Text),
    /// An ad was taken out of the pool.
    Withdrawn(Text),
    /// An ad, printed.
    Shown(Text),
    /// The ads of the pool in their order.
    Ads(AdRows),
    /// The value of an expression, printed.
    Evaluated(Text),
    /// The ads that match a query in their order.
    Hits(HitRows),
    /// A job is in the queue.
    Submitted(Text),
    /// A job was taken out of the queue.
    Removed(Text),
    /// A user's priority.
    Priority {
        user: Text,
        n: u64,
    },
    /// The resources of a gang, in the order of its ports.
    Gang(Names),
    /// There is no gang.
    NoGang,
    /// The spins of a negotiation cycle.
    Cycle(SpinRows),
    /// A job claimed its resources; other jobs lost theirs.
    Claimed {
        job: Text,
        names: Names,
        preempted: Names,
    },
    /// A job gave back what it claimed.
    Released(Text),
    /// The jobs in the order of their submission.
    Jobs(JobRows),
    /// The users in the order of their priorities.
    Users(UserRows),
    /// Why a job matches the ads that it matches, with the names of the ads in order.
    Why {
        job: Text,
        names: Names,
        report: Report,
    },
    /// The names of the jobs in classes.
    Classes(NamesList),
    /// A mailbox was closed.
    Unlistened(Text),
    /// The command was refused.
    Refused(Refusal),
}

/// How many refusals the reply is, 0 or 1.
#[tactic(auto, unfolding(crate::specs::Replies::is_refused))]
pub fn refusals(reply: &Reply) -> u64
    ensures { result ≡ texts.refusal_count reply.now }
{
    match reply {
        Reply::Refused(_) => 1,
        _ => 0,
    }
}

/// How many ads the reply lists as hits.
#[tactic(auto, unfolding(crate::specs::Replies::hit_count))]
pub fn hits(reply: &Reply) -> u64
    ensures { result ≡ texts.hit_count reply.now }
{
    match reply {
        Reply::Hits(rows) => rows.len() as u64,
        _ => 0,
    }
}

/// How many offers the reply tells of, `None` exactly where 64 bits don't count them.
#[tactic(auto, unfolding(crate::specs::Replies::offer_count))]
pub fn offers(reply: &Reply) -> Option<u64>
    ensures some { IfSome result (λ n. n ≡ texts.offer_count reply.now) }
    ensures none { IfNone result (2 ^ 64 ≤ texts.offer_count reply.now) }
{
    match reply {
        Reply::Cycle(spins) => offers_of_spins(spins.as_slice()),
        _ => Some(0),
    }
}

/// The lines of a reply, each with its line feed. An explanation has as many names as verdicts.
pub fn print_reply(alloc: Global, reply: &Reply) -> Result<Text, OutOfMemory>
    requires { IsTrue (texts.is_printable reply.now) }
    ensures { IfOk result (λ t. t ≡ texts.reply_text reply.now) }
{
    let mut text = Text::new(alloc);
    append_reply(&mut text, reply)?;
    Ok(text)
}

#[tactic(auto, unfolding(crate::specs::Replies::reply_text, crate::specs::Replies::is_printable))]
fn append_reply(out: &mut Text, reply: &Reply) -> Result<(), OutOfMemory>
    requires { IsTrue (texts.is_printable reply.now) }
    ensures { OnOk result (out.new ≡ out.old ++ texts.reply_text reply.now) }
{
    match reply {
        Reply::Clock { moment, expired } => append_clock(out, *moment, *expired),
        Reply::Advertised(name) => append_name_line(out, b"advertised ", name.bytes()),
        Reply::Replaced(name) => append_name_line(out, b"replaced ", name.bytes()),
        Reply::Withdrawn(name) => append_name_line(out, b"withdrawn ", name.bytes()),
        Reply::Shown(text) => append_line(out, text.bytes()),
        Reply::Ads(rows) => append_ads(out, rows),
        Reply::Evaluated(text) => append_line(out, text.bytes()),
        Reply::Hits(rows) => append_hits(out, rows),
        Reply::Submitted(job) => append_name_line(out, b"submitted ", job.bytes()),
        Reply::Removed(job) => append_name_line(out, b"removed ", job.bytes()),
        Reply::Priority { user, n } => append_priority(out, user.bytes(), *n),
        Reply::Gang(names) => append_gang(out, names),
        Reply::NoGang => out.append(b"gang none\n"),
        Reply::Cycle(spins) => append_cycle(out, spins),
        Reply::Claimed {
            job,
            names,
            preempted,
        } => append_claimed(out, job.bytes(), names, preempted),
        Reply::Released(job) => append_name_line(out, b"released ", job.bytes()),
        Reply::Jobs(rows) => append_jobs(out, rows),
        Reply::Users(rows) => append_users(out, rows),
        Reply::Why { job, names, report } => append_why(out, job.bytes(), names, report),
        Reply::Classes(classes) => append_classes(out, classes),
        Reply::Unlistened(name) => append_name_line(out, b"unlistened ", name.bytes()),
        Reply::Refused(refusal) => append_refusal(out, refusal),
    }
}

fn append_clock(out: &mut Text, moment: u64, expired: u64) -> Result<(), OutOfMemory>
    ensures { OnOk result (out.new ≡ out.old ++ texts.clock_text moment expired) }
{
    append_amount(out, b"clock ", moment)?;
    append_amount_line(out, b" expired ", expired)
}

fn append_priority(out: &mut Text, user: &[u8], n: u64) -> Result<(), OutOfMemory>
    ensures { OnOk result (out.new ≡ out.old ++ texts.priority_text user.now n) }
{
    append_name(out, b"priority ", user)?;
    append_amount_line(out, b" ", n)
}

fn append_gang(out: &mut Text, names: &Names) -> Result<(), OutOfMemory>
    ensures { OnOk result (out.new ≡ out.old ++ texts.gang_text names.now) }
{
    out.append(b"gang")?;
    append_names_line(out, names)
}

fn append_claimed(
    out: &mut Text,
    job: &[u8],
    names: &Names,
    preempted: &Names,
) -> Result<(), OutOfMemory>
    ensures { OnOk result (out.new ≡ out.old ++ texts.claimed_text job.now names.now preempted.now) }
{
    append_name(out, b"claimed ", job)?;
    append_names_line(out, names)?;
    append_losers(out, preempted)
}

fn append_losers(out: &mut Text, preempted: &Names) -> Result<(), OutOfMemory>
    ensures { OnOk result (out.new ≡ out.old ++ flat_map (λ loser. texts.name_line (codes "preempted ") loser) preempted.now) }
{
    for loser in preempted.as_slice() {
        append_name_line(out, b"preempted ", loser.bytes())?;
    }
    Ok(())
}

fn append_ads(out: &mut Text, rows: &AdRows) -> Result<(), OutOfMemory>
    ensures { OnOk result (out.new ≡ out.old ++ texts.ads_text rows.now) }
{
    append_amount_line(out, b"ads ", rows.len() as u64)?;
    for row in rows.as_slice() {
        append_ad(out, row)?;
    }
    Ok(())
}

fn append_ad(out: &mut Text, row: &AdRow) -> Result<(), OutOfMemory>
    ensures { OnOk result (out.new ≡ out.old ++ texts.ad_line row.now) }
{
    append_times(out, row)?;
    append_status(out, &row.claimed, &row.offered)?;
    out.append(b"\n")
}

// The name of an ad, the moment of its birth and its lifetime.
fn append_times(out: &mut Text, row: &AdRow) -> Result<(), OutOfMemory>
    ensures { OnOk result (out.new ≡ out.old ++ row.now.name ++ codes " " ++ decimal row.now.born ++ codes " " ++ decimal row.now.lifetime ++ codes " ") }
{
    out.append(row.name.bytes())?;
    append_amount(out, b" ", row.born)?;
    append_amount(out, b" ", row.lifetime)?;
    out.append(b" ")
}

fn append_status(
    out: &mut Text,
    claimed: &Option<Text>,
    offered: &Option<Text>,
) -> Result<(), OutOfMemory>
    ensures { OnOk result (out.new ≡ out.old ++ texts.status_text claimed.now offered.now) }
{
    match (claimed, offered) {
        (None, None) => out.append(b"free"),
        (None, Some(job)) => append_name(out, b"offered ", job.bytes()),
        (Some(job), None) => append_name(out, b"claimed ", job.bytes()),
        (Some(job), Some(other)) => append_both(out, job.bytes(), other.bytes()),
    }
}

// An ad that a job claimed and that is offered to another.
fn append_both(out: &mut Text, job: &[u8], other: &[u8]) -> Result<(), OutOfMemory>
    ensures { OnOk result (out.new ≡ out.old ++ codes "claimed " ++ job.now ++ codes " offered " ++ other.now) }
{
    append_name(out, b"claimed ", job)?;
    append_name(out, b" offered ", other)
}

fn append_hits(out: &mut Text, rows: &HitRows) -> Result<(), OutOfMemory>
    ensures { OnOk result (out.new ≡ out.old ++ texts.hits_text rows.now) }
{
    append_amount_line(out, b"hits ", rows.len() as u64)?;
    for row in rows.as_slice() {
        append_hit(out, row)?;
    }
    Ok(())
}

fn append_hit(out: &mut Text, row: &HitRow) -> Result<(), OutOfMemory>
    ensures { OnOk result (out.new ≡ out.old ++ texts.hit_line row.now) }
{
    append_name(out, row.name.bytes(), b" ")?;
    append_shortest_decimal(out, row.rank)?;
    out.append(b"\n")
}
