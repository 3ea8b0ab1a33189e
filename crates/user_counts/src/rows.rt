// The users in order, and their jobs.
ghost use Rattle.std.specs.Prelude.{◌≡◌, All, IfOk, OnOk, Some, map};
ghost use Rattle.std.specs.BTreeMap.{get};
ghost use Rattle.claim_table.specs.Settings.{settings_of};
ghost use Rattle.claim_table.specs.Table.{jobs_of};
ghost use Rattle.user_counts.specs.Shown.{key_order, row_of};
ghost use Rattle.user_counts.specs.Users.{user_job, user_rows};

use crate::tallies::{Tallies, count_jobs, set_users};
use claim_table::{ClaimTable, Priorities};
use pool_replies::{JobCounts, UserRow, UserRows};
use pool_text::{OutOfMemory, Text};
use std::alloc::Global;

/// A row for each user who has a job or a priority that is set: the better priority first, which is the smaller number, and at
/// equal ones by name, byte for byte. The jobs are gone through once.
pub fn users(
    alloc: Global,
    claims: &ClaimTable,
    priorities: &Priorities,
) -> Result<UserRows, OutOfMemory>
    ensures { IfOk result (λ rows. rows ≡ user_rows (settings_of priorities.now) (map user_job (jobs_of claims.now))) }
{
    let mut tallies = set_users(alloc, priorities)?;
    count_jobs(alloc, claims, priorities, &mut tallies)?;
    rows_of(alloc, &tallies)
}

fn rows_of(alloc: Global, tallies: &Tallies) -> Result<UserRows, OutOfMemory>
    ensures rows { IfOk result (λ rows. rows ≡ map row_of tallies.now.entries) }
    ensures found { OnOk result (All (λ e. get key_order tallies.now e.0 ≡ Some e.1) tallies.now.entries) }
{
    let mut rows = UserRows::new(alloc);
    for (key, counts) in tallies {
        rows.push(row(alloc, key, *counts)?)?;
    }
    Ok(rows)
}

fn row(alloc: Global, key: &(u64, Vec<u8>), counts: JobCounts) -> Result<UserRow, OutOfMemory>
    ensures { IfOk result (λ row. row ≡ row_of (key.now, counts)) }
{
    Ok(UserRow {
        user: Text::from_bytes(alloc, &key.1)?,
        priority: key.0,
        counts,
    })
}
