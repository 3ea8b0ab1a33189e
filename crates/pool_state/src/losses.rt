// The jobs that a command takes resources from, and the notices of that.
ghost use Rattle.std.specs.Prelude.{◌≡◌, ◌<◌, ◌++◌, ◌∷◌, [], All, Contains, length, map, option_map, slice_get, IfOk, OnOk, Some};
ghost use Rattle.ad_store.specs.Store.{stock_of};
ghost use Rattle.claim_table.specs.Claims.{once};
ghost use Rattle.claim_table.specs.Table.{jobs_of};
ghost use Rattle.pool_books.specs.Books.{queue_of, name_in};
ghost use Rattle.pool_books.specs.Indexed.{ads_of};
ghost use Rattle.pool_state.specs.Notices as rules;

use crate::notices::about;
use crate::places::Places;
use crate::posting::{Notice, NoticeList};
use pool_books::{Books, names_given};
use pool_script::Command;
use pool_text::{OutOfMemory, Slots};
use std::alloc::Global;
use std::convert::AsSlice;

/// What a command tells where it isn't refused, besides the offers of a cycle.
pub(crate) fn granted(
    alloc: Global,
    books: &Books,
    command: &Command,
) -> Result<NoticeList, OutOfMemory>
    ensures { IfOk result (λ list. list ≡ rules.granted (ads_of books.now.ads) (queue_of books.now) command.now) }
{
    match command {
        Command::Clock(n) => losses_at(alloc, books, *n),
        Command::Withdraw(name) => losses_of(alloc, books, name.bytes()),
        Command::Remove(job) => loss_named(alloc, books, job.bytes()),
        Command::Release(job) => loss_named(alloc, books, job.bytes()),
        Command::Claim(job) => granted_to(alloc, books, job.bytes()),
        _ => Ok(NoticeList::new(alloc)),
    }
}

/// What a command tells where it is a claim that is stale.
pub(crate) fn stale(
    alloc: Global,
    books: &Books,
    command: &Command,
) -> Result<NoticeList, OutOfMemory>
    ensures { IfOk result (λ list. list ≡ rules.stale (queue_of books.now) command.now) }
{
    match command {
        Command::Claim(job) => loss_named(alloc, books, job.bytes()),
        _ => Ok(NoticeList::new(alloc)),
    }
}

// The losses when the ads leave that aren't live at a moment.
fn losses_at(alloc: Global, books: &Books, now: u64) -> Result<NoticeList, OutOfMemory>
    ensures { IfOk result (λ list. list ≡ rules.losses (queue_of books.now)
        (rules.had_by (queue_of books.now) (rules.expired_names now (ads_of books.now.ads)))) }
{
    books.ads.store.slots_are_apart();
    let slots = books.ads.store.expired(now)?;
    let places = had_by(alloc, books, slots.as_slice())?;
    losses(alloc, books, &places)
}

// The losses when the ad of a name leaves; none where it isn't held.
fn losses_of(alloc: Global, books: &Books, name: &[u8]) -> Result<NoticeList, OutOfMemory>
    ensures { IfOk result (λ list. list ≡ rules.granted (ads_of books.now.ads) (queue_of books.now) (Command.Withdraw name.now)) }
{
    books.ads.store.slots_are_apart();
    let Some(slot) = books.ads.store.slot_of(name) else {
        return Ok(NoticeList::new(alloc));
    };
    let places = had_at(alloc, books, slot)?;
    losses(alloc, books, &places)
}

// The notices of a claim of the job of a name that is granted.
fn granted_to(alloc: Global, books: &Books, job: &[u8]) -> Result<NoticeList, OutOfMemory>
    ensures { IfOk result (λ list. list ≡ rules.granted (ads_of books.now.ads) (queue_of books.now) (Command.Claim job.now)) }
{
    let claims = &books.claims;
    let Some(i) = claims.number(job) else {
        return Ok(NoticeList::new(alloc));
    };
    let places = holders(alloc, books, claims.slots(job))?;
    let mut list = losses(alloc, books, &places)?;
    list.push(about_job(alloc, books, b"claimed ", i)?)?;
    Ok(list)
}

// The loss of the job of a name.
fn loss_named(alloc: Global, books: &Books, job: &[u8]) -> Result<NoticeList, OutOfMemory>
    ensures { IfOk result (λ list. list ≡ rules.loss_named job.now (queue_of books.now)) }
{
    let mut list = NoticeList::new(alloc);
    let Some(i) = books.claims.number(job) else {
        return Ok(list);
    };
    tell_loss(alloc, books, i, &mut list)?;
    Ok(list)
}

// The losses of the jobs at some places.
fn losses(alloc: Global, books: &Books, places: &Slots) -> Result<NoticeList, OutOfMemory>
    requires { All (λ i. i < length (jobs_of books.now.claims)) places.now }
    ensures { IfOk result (λ list. list ≡ rules.losses (queue_of books.now) places.now) }
{
    let mut list = NoticeList::new(alloc);
    for place in places.as_slice() {
        tell_loss(alloc, books, *place, &mut list)?;
    }
    Ok(list)
}

// Adds the loss of the job at a place.
fn tell_loss(
    alloc: Global,
    books: &Books,
    place: usize,
    list: &mut NoticeList,
) -> Result<(), OutOfMemory>
    requires { place < length (jobs_of books.now.claims) }
    ensures { OnOk result (list.new ≡ list.old ++ rules.loss_at (queue_of books.now) place) }
{
    let claims = &books.claims;
    claims.names_are_apart();
    let job = claims.job(place);
    let user = claims.user(place);
    let names = names_given(alloc, books, job.bytes())?;
    if names.len() == 0 {
        return Ok(());
    }
    list.push(about(alloc, b"freed ", user, job, &names)?)
}

// The notice of a word about the job at a place.
fn about_job(alloc: Global, books: &Books, word: &[u8], place: usize) -> Result<Notice, OutOfMemory>
    requires { place < length (jobs_of books.now.claims) }
    ensures { IfOk result (λ notice. option_map (rules.about_job word.now) (slice_get (queue_of books.now) place) ≡ Some notice) }
{
    let claims = &books.claims;
    claims.names_are_apart();
    let job = claims.job(place);
    let names = names_given(alloc, books, job.bytes())?;
    about(alloc, word, claims.user(place), job, &names)
}

// The places of the jobs that have the resources in some slots.
fn had_by(alloc: Global, books: &Books, slots: &[usize]) -> Result<Slots, OutOfMemory>
    requires { All (Contains (stock_of books.now.ads.store).slots) slots.now }
    ensures places { IfOk result (λ places. places
        ≡ rules.had_by (queue_of books.now) (map (name_in (stock_of books.now.ads.store)) slots.now)) }
    ensures within { IfOk result (All (λ i. i < length (jobs_of books.now.claims))) }
{
    books.ads.store.names_are_apart();
    books.ads.store.slots_are_apart();
    let mut places = Places::new(alloc);
    for slot in slots {
        places.add(books.claims.claimed_by(*slot))?;
        places.add(books.claims.offered_to(*slot))?;
    }
    Ok(places.list)
}

// The places of the jobs that have the resource in a slot.
fn had_at(alloc: Global, books: &Books, slot: usize) -> Result<Slots, OutOfMemory>
    requires { Contains (stock_of books.now.ads.store).slots slot }
    ensures places { IfOk result (λ places. places
        ≡ rules.had_by (queue_of books.now) (name_in (stock_of books.now.ads.store) slot ∷ [])) }
    ensures within { IfOk result (All (λ i. i < length (jobs_of books.now.claims))) }
{
    books.ads.store.names_are_apart();
    books.ads.store.slots_are_apart();
    let mut places = Slots::new(alloc);
    add_place(&mut places, books.claims.claimed_by(slot))?;
    add_place(&mut places, books.claims.offered_to(slot))?;
    Ok(places)
}

// The places of the jobs that have claimed the resources in some slots.
fn holders(alloc: Global, books: &Books, slots: &[usize]) -> Result<Slots, OutOfMemory>
    requires { All (Contains (stock_of books.now.ads.store).slots) slots.now }
    ensures places { IfOk result (λ places. places
        ≡ rules.holders (queue_of books.now) (map (name_in (stock_of books.now.ads.store)) slots.now)) }
    ensures within { IfOk result (All (λ i. i < length (jobs_of books.now.claims))) }
{
    books.ads.store.names_are_apart();
    books.ads.store.slots_are_apart();
    let mut places = Slots::new(alloc);
    for slot in slots {
        add_place(&mut places, books.claims.claimed_by(*slot))?;
    }
    Ok(places)
}

// Adds a place where there is one, unless it is among the others, which are few.
fn add_place(places: &mut Slots, place: Option<usize>) -> Result<(), OutOfMemory>
    ensures { OnOk result (places.new ≡ once places.old place) }
{
    let Some(i) = place else {
        return Ok(());
    };
    if places.as_slice().contains(&i) {
        return Ok(());
    }
    places.push(i)
}
