// The texts of the jobs and of the users.
ghost use Rattle.std.specs.Prelude.{◌≡◌, ◌++◌, OnOk};
ghost use Rattle.pool_replies.specs.Queues as texts;

use crate::writing::{append_amount, append_amount_line, append_name, append_names_line};
use crate::{JobCounts, JobRow, JobRows, UserRow, UserRows};
use claim_table::JobState;
use pool_text::{OutOfMemory, Text};
use std::convert::AsSlice;

/// Appends the lines of the jobs, below how many there are.
pub(crate) fn append_jobs(out: &mut Text, rows: &JobRows) -> Result<(), OutOfMemory>
    ensures { OnOk result (out.new ≡ out.old ++ texts.jobs_text rows.now) }
{
    append_amount_line(out, b"jobs ", rows.len() as u64)?;
    for row in rows.as_slice() {
        append_job(out, row)?;
    }
    Ok(())
}

fn append_job(out: &mut Text, row: &JobRow) -> Result<(), OutOfMemory>
    ensures { OnOk result (out.new ≡ out.old ++ texts.job_line row.now) }
{
    append_name(out, row.job.bytes(), b" ")?;
    append_name(out, row.user.bytes(), state_word(row.state))?;
    append_names_line(out, &row.names)
}

// The word of a state, with a blank before it.
fn state_word(state: JobState) -> &'static [u8]
    ensures { result.now ≡ texts.state_word state }
{
    match state {
        JobState::Idle => b" idle",
        JobState::Matched => b" matched",
        JobState::Claimed => b" claimed",
    }
}

/// Appends the lines of the users, below how many there are.
pub(crate) fn append_users(out: &mut Text, rows: &UserRows) -> Result<(), OutOfMemory>
    ensures { OnOk result (out.new ≡ out.old ++ texts.users_text rows.now) }
{
    append_amount_line(out, b"users ", rows.len() as u64)?;
    for row in rows.as_slice() {
        append_user(out, row)?;
    }
    Ok(())
}

fn append_user(out: &mut Text, row: &UserRow) -> Result<(), OutOfMemory>
    ensures { OnOk result (out.new ≡ out.old ++ texts.user_line row.now) }
{
    out.append(row.user.bytes())?;
    append_amount(out, b" ", row.priority)?;
    append_counts(out, row.counts)
}

fn append_counts(out: &mut Text, counts: JobCounts) -> Result<(), OutOfMemory>
    ensures { OnOk result (out.new ≡ out.old ++ texts.counts_text counts) }
{
    append_amount(out, b" idle ", counts.idle)?;
    append_amount(out, b" matched ", counts.matched)?;
    append_amount_line(out, b" claimed ", counts.claimed)
}
