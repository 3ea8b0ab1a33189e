// The commands that tell of the queue: its jobs, the ad of one of them, and the users.
ghost use Rattle.std.specs.Prelude.{◌≡◌, ◌<◌, length, option_map, slice_get, Some, IfOk, IsTrue};
ghost use Rattle.claim_table.specs.Settings.{settings_of};
ghost use Rattle.claim_table.specs.Table.{jobs_of};
ghost use Rattle.pool_replies.specs.Replies.{is_printable};
ghost use Rattle.pool_books.specs.Books.{queue_of};
ghost use Rattle.pool_commands.specs.Status as steps;

use ad_printer::print_ad;
use negotiator::Priorities;
use pool_books::{Books, names_of};
use pool_replies::{JobRow, JobRows, Refusal, Reply};
use pool_text::OutOfMemory;
use std::alloc::Global;

/// `jobs`: a row for each job in the order of submission.
#[tactic(auto, unfolding(pool_replies::specs::Replies::is_printable))]
pub fn jobs(alloc: Global, books: &Books) -> Result<Reply, OutOfMemory>
    ensures reply { IfOk result (λ reply. steps.jobs (queue_of books.now) ≡ reply) }
    ensures printable { IfOk result (λ reply. IsTrue (is_printable reply)) }
{
    let mut rows = JobRows::new(alloc);
    for i in 0..books.claims.len() {
        rows.push(row(alloc, books, i)?)?;
    }
    Ok(Reply::Jobs(rows))
}

// The row of job `i`.
fn row(alloc: Global, books: &Books, i: usize) -> Result<JobRow, OutOfMemory>
    requires { i < length (jobs_of books.now.claims) }
    ensures { IfOk result (λ row. option_map steps.job_row (slice_get (queue_of books.now) i) ≡ Some row) }
{
    let claims = &books.claims;
    let standing = claims.standing(i);
    Ok(JobRow {
        job: claims.job(i).copy()?,
        user: claims.user(i).copy()?,
        state: standing.state(),
        names: names_of(alloc, &books.ads.store, standing.slots())?,
    })
}

/// `job`: the ad of the job of the name is printed.
#[tactic(auto, unfolding(pool_replies::specs::Replies::is_printable, pool_replies::specs::Refusals::is_printable_refusal))]
pub fn show_job(alloc: Global, books: &Books, name: &[u8]) -> Result<Reply, OutOfMemory>
    ensures reply { IfOk result (λ reply. steps.show_job name.now (queue_of books.now) ≡ reply) }
    ensures printable { IfOk result (λ reply. IsTrue (is_printable reply)) }
{
    let claims = &books.claims;
    let Some(i) = claims.number(name) else {
        return Ok(Reply::Refused(Refusal::UnknownName));
    };
    Ok(Reply::Shown(print_ad(alloc, &claims.request(i).ad, 0)?))
}

/// `users`: a row for each user who has a job or a priority that is set, in order.
#[tactic(auto, unfolding(pool_replies::specs::Replies::is_printable))]
pub fn users(alloc: Global, books: &Books, priorities: &Priorities) -> Result<Reply, OutOfMemory>
    ensures reply { IfOk result (λ reply. steps.users (settings_of priorities.now) (queue_of books.now) ≡ reply) }
    ensures printable { IfOk result (λ reply. IsTrue (is_printable reply)) }
{
    let rows = user_counts::users(alloc, &books.claims, priorities)?;
    Ok(Reply::Users(rows))
}
