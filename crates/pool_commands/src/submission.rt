// The commands on the jobs of the pool and on the priorities of their users.
ghost use Rattle.std.specs.Prelude.{◌≡◌, ◌≤◌, ◌^◌, ℕ, List, length, is_none, IfOk, IfSome, IsTrue};
ghost use Rattle.ad_parser.specs.Outcomes.{ad_outcome};
ghost use Rattle.ad_tree.specs.Ad.{ad_frames};
ghost use Rattle.ad_tree.specs.Requests.{ArePorts};
ghost use Rattle.claim_table.specs.Priorities.{Setting};
ghost use Rattle.claim_table.specs.Settings.{settings_of};
ghost use Rattle.pool_script.specs.Form.{is_block_text};
ghost use Rattle.pool_replies.specs.Refusals.{is_printable_refusal};
ghost use Rattle.pool_replies.specs.Replies.{is_printable};
ghost use Rattle.pool_books.specs.Books.{queue_of, state_with};
ghost use Rattle.pool_books.specs.Ports.{HasOwnPorts, has_bad_ports, ports_in};
ghost use Rattle.pool_books.specs.Queue.{job_refusal};
ghost use Rattle.pool_commands.specs.Jobs as steps;

use crate::faults::faulty;
use crate::gangs::listed_ports;
use ad_parser::parse_ad_seeded;
use ad_tree::{Ad, Ports, Request};
use negotiator::{Priorities, PriorityFault};
use pool_books::Books;
use pool_replies::{Refusal, Reply, Room};
use pool_text::{OutOfMemory, Text};
use std::alloc::Global;

const JOBS_LIMIT: usize = 10_000;

const TEXT_LIMIT: u64 = 33_554_432;

/// `submit`: the job of the block goes last into the queue, a gang with the ports that its ad lists.
#[tactic(auto, unfolding(pool_replies::specs::Replies::is_printable, pool_replies::specs::Refusals::is_printable_refusal))]
pub fn submit(
    alloc: Global,
    books: &mut Books,
    job: &Text,
    user: &Text,
    block: &[u8],
) -> Result<Reply, OutOfMemory>
    requires { IsTrue (is_block_text block.now) }
    ensures step { IfOk result (λ reply. (moment : ℕ) (priorities : List Setting)
        → steps.submit (state_with moment priorities books.old) job.now user.now (length block.now) (ad_outcome block.now)
        ≡ (state_with moment priorities books.new, reply)) }
    ensures printable { IfOk result (λ reply. IsTrue (is_printable reply)) }
{
    let ad = match parse_ad_seeded(alloc, books.ads.seed, block) {
        Ok(ad) => ad,
        Err(fault) => return faulty(fault),
    };
    let size = block.len() as u64;
    if let Some(reason) = refusal(books, job.bytes(), size) {
        return Ok(Reply::Refused(reason));
    }
    let Some(request) = request_of(alloc, ad)? else {
        return Ok(Reply::Refused(Refusal::BadPorts));
    };
    books.submit(job.bytes(), user.bytes(), request, size)?;
    Ok(Reply::Submitted(job.copy()?))
}

// The request of a job's ad, with the ports that the ad lists; none where these are bad.
fn request_of(alloc: Global, ad: Ad) -> Result<Option<Request>, OutOfMemory>
    ensures good { IfOk result (λ request. is_none request ≡ has_bad_ports (ad_frames ad)) }
    ensures own { IfOk result (λ request. IfSome request (λ r. (ad_frames r.ad ≡ ad_frames ad) × HasOwnPorts r)) }
{
    let Some(ports) = own_ports(alloc, &ad)? else {
        return Ok(None);
    };
    Ok(Some(Request { ad, ports }))
}

// The ports that a job's ad lists: none where it isn't a gang, and no list where they are bad.
fn own_ports(alloc: Global, ad: &Ad) -> Result<Option<Ports>, OutOfMemory>
    ensures good { IfOk result (λ ports. is_none ports ≡ has_bad_ports (ad_frames ad.now)) }
    ensures own { IfOk result (λ ports. IfSome ports (λ list. list ≡ ports_in (ad_frames ad.now))) }
    ensures are_ports { IfOk result (λ ports. IfSome ports (ArePorts (ad_frames ad.now))) }
{
    if ad.position(0, b"Ports").is_none() {
        return Ok(Some(Ports::new(alloc)));
    }
    listed_ports(alloc, ad)
}

// Why a job of this name, with a text of so many bytes, is refused.
#[tactic(auto, unfolding(pool_replies::specs::Refusals::is_printable_refusal))]
fn refusal(books: &Books, name: &[u8], size: u64) -> Option<Refusal>
    ensures reason { result ≡ job_refusal name.now size (queue_of books.now) }
    ensures printable { IfSome result (λ reason. IsTrue (is_printable_refusal reason)) }
{
    if books.claims.state(name).is_some() {
        return Some(Refusal::NameInUse);
    }
    if books.claims.len() >= JOBS_LIMIT {
        return Some(Refusal::Full(Room::Jobs));
    }
    if books.claims.text_len().saturating_add(size) > TEXT_LIMIT {
        return Some(Refusal::Full(Room::JobText));
    }
    None
}

/// `remove`: the job of the name is taken out, whatever it has.
#[tactic(auto, unfolding(pool_replies::specs::Replies::is_printable, pool_replies::specs::Refusals::is_printable_refusal))]
pub fn remove(books: &mut Books, job: &Text) -> Result<Reply, OutOfMemory>
    ensures step { IfOk result (λ reply. (moment : ℕ) (priorities : List Setting)
        → steps.remove (state_with moment priorities books.old) job.now ≡ (state_with moment priorities books.new, reply)) }
    ensures printable { IfOk result (λ reply. IsTrue (is_printable reply)) }
{
    let named = job.copy()?;
    if books.remove(job.bytes()) {
        Ok(Reply::Removed(named))
    } else {
        Ok(Reply::Refused(Refusal::UnknownName))
    }
}

/// `priority`: the priority of a user is set.
#[tactic(auto, unfolding(pool_replies::specs::Replies::is_printable, pool_replies::specs::Refusals::is_printable_refusal))]
pub fn set_priority(priorities: &mut Priorities, user: &Text, n: u64) -> Result<Reply, OutOfMemory>
    requires least { 1 ≤ n }
    requires most { n ≤ 10 ^ 6 }
    ensures step { IfOk result (λ reply. (moment : ℕ) (books : Books)
        → steps.set_priority (state_with moment (settings_of priorities.old) books) user.now n
        ≡ (state_with moment (settings_of priorities.new) books, reply)) }
    ensures printable { IfOk result (λ reply. IsTrue (is_printable reply)) }
{
    let named = user.copy()?;
    match priorities.set(user.bytes(), n) {
        Ok(()) => Ok(Reply::Priority { user: named, n }),
        Err(PriorityFault::Full) => Ok(Reply::Refused(Refusal::Full(Room::Users))),
        Err(PriorityFault::OutOfMemory) => Err(OutOfMemory),
    }
}
