// How many jobs each user has, under keys that stand in the order of the users.
ghost use Rattle.std.specs.Prelude.{◌≡◌, [], IfOk, OnOk, Some, map, unwrap_or};
ghost use Rattle.std.specs.BTreeMap.{Updates, get, insert_entry};
ghost use Rattle.claim_table.specs.Priorities.{priority_of};
ghost use Rattle.claim_table.specs.Settings.{settings_of};
ghost use Rattle.claim_table.specs.Table.{jobs_of};
ghost use Rattle.user_counts.specs.Shown.{IsFew, IsTally, key_order, no_jobs, one_more};
ghost use Rattle.user_counts.specs.Users.{set_names, user_job, user_names};

use claim_table::{ClaimTable, JobState, Priorities};
use pool_replies::JobCounts;
use pool_text::OutOfMemory;
use std::alloc::Global;
use std::collections::BTreeMap;

/// The numbers of jobs, each under its user's priority and name.
pub(crate) type Tallies = BTreeMap<(u64, Vec<u8>), JobCounts>;

const NO_JOBS: JobCounts = JobCounts {
    idle: 0,
    matched: 0,
    claimed: 0,
};

/// The users who have a priority that is set, so far without jobs.
pub(crate) fn set_users(alloc: Global, priorities: &Priorities) -> Result<Tallies, OutOfMemory>
    ensures { IfOk result (λ tallies. IsTally (settings_of priorities.now) (set_names (settings_of priorities.now)) [] tallies) }
{
    let mut tallies = BTreeMap::new(alloc);
    for i in 0..priorities.len() {
        let key = key_of(alloc, priorities, priorities.user(i))?;
        tallies.insert(key, NO_JOBS)?;
    }
    Ok(tallies)
}

/// Counts the jobs.
pub(crate) fn count_jobs(
    alloc: Global,
    claims: &ClaimTable,
    priorities: &Priorities,
    tallies: &mut Tallies,
) -> Result<(), OutOfMemory>
    requires { IsTally (settings_of priorities.now) (set_names (settings_of priorities.now)) [] tallies.old }
    ensures { OnOk result (IsTally (settings_of priorities.now)
        (user_names (settings_of priorities.now) (map user_job (jobs_of claims.now))) (map user_job (jobs_of claims.now)) tallies.new) }
{
    for i in 0..claims.len() {
        let key = key_of(alloc, priorities, claims.user(i).bytes())?;
        count(tallies, key, claims.standing(i).state())?;
    }
    Ok(())
}

// Counts a job of a state under a key.
fn count(tallies: &mut Tallies, key: (u64, Vec<u8>), state: JobState) -> Result<(), OutOfMemory>
    requires { IsFew (unwrap_or (get key_order tallies.old key) no_jobs) }
    ensures updates { OnOk result (Updates key_order tallies.old tallies.new key
        (Some (one_more state (unwrap_or (get key_order tallies.old key) no_jobs)))) }
    ensures entries { OnOk result (tallies.new.entries ≡ insert_entry key_order tallies.old.entries key
        (one_more state (unwrap_or (get key_order tallies.old key) no_jobs))) }
{
    let before = tallies.get(&key).copied().unwrap_or(NO_JOBS);
    tallies.insert(key, with_one_more(before, state))?;
    Ok(())
}

fn with_one_more(counts: JobCounts, state: JobState) -> JobCounts
    requires { IsFew counts }
    ensures { result ≡ one_more state counts }
{
    let mut more = counts;
    match state {
        JobState::Idle => more.idle += 1,
        JobState::Matched => more.matched += 1,
        JobState::Claimed => more.claimed += 1,
    }
    more
}

// The key of a user: by priority and then by name.
fn key_of(
    alloc: Global,
    priorities: &Priorities,
    user: &[u8],
) -> Result<(u64, Vec<u8>), OutOfMemory>
    ensures number { IfOk result (λ key. key.0 ≡ priority_of user.now (settings_of priorities.now)) }
    ensures name { IfOk result (λ key. key.1.items ≡ user.now) }
{
    Ok((priorities.get(user), Vec::from_slice(alloc, user)?))
}
