// Jobs at their limit of text, and a gang that is offered resources, gives them back, loses them and leaves.
ghost use Rattle.std.specs.Prelude.{◌≡◌, [], ◌∷◌, IfOk, length};
ghost use Rattle.claim_table.specs.Table.{jobs_of};
ghost use Rattle.claim_table.specs.declared.job.Stage.{Stage};

use ad_store::Holdings;
use ad_tree::{Draft, Port, Ports, Request};
use claim_table::*;
use pool_text::{OutOfMemory, Slots, Text};
use std::alloc::Global;
use std::convert::AsSlice;
use std::process::Abort;
use std::test::Fail;

// A request without ports.
fn single(alloc: Global) -> Result<Request, OutOfMemory> {
    Ok(Request {
        ad: Draft::new(alloc).finish()?,
        ports: Ports::new(alloc),
    })
}

// A port at the root of a request.
fn port(alloc: Global) -> Result<Port, OutOfMemory>
    ensures { IfOk result (λ port. port.frame ≡ 0) }
{
    Ok(Port {
        label: Text::from_bytes(alloc, b"cpu")?,
        frame: 0,
    })
}

// A request with two ports.
fn gang(alloc: Global) -> Result<Request, OutOfMemory>
    ensures { IfOk result (λ request. length request.ports ≡ 2) }
{
    let ad = Draft::new(alloc).finish()?;
    let mut ports = Ports::new(alloc);
    ports.push(port(alloc)?)?;
    ports.push(port(alloc)?)?;
    Ok(Request { ad, ports })
}

// A table with one job, which is idle.
fn with_job(alloc: Global, request: Request) -> Result<ClaimTable, SubmitFault>
    ensures { IfOk result (λ table. jobs_of table ≡ (record
        { name = 103 ∷ []; user = 117 ∷ []; text_len = 9; request = request; standing = Stage.Idle }) ∷ []) }
{
    let mut table = ClaimTable::new(alloc);
    table.submit(b"g", b"u", request, 9)?;
    Ok(table)
}

// The slots 3 and 5.
fn two_slots(alloc: Global) -> Result<Slots, OutOfMemory>
    ensures { IfOk result (λ slots. slots ≡ 3 ∷ 5 ∷ []) }
{
    let mut slots = Slots::new(alloc);
    slots.push(3)?;
    slots.push(5)?;
    Ok(slots)
}

// A table with a gang of two, which is offered the slots 3 and 5.
fn with_offer(alloc: Global) -> Result<ClaimTable, Fail> {
    let mut table = with_job(alloc, gang(alloc)?)?;
    table.offer(0, two_slots(alloc)?)?;
    Ok(table)
}

// A job of ann comes, with a text of this length.
fn assert_submit(
    rt: &impl Abort,
    alloc: Global,
    table: &mut ClaimTable,
    name: &[u8],
    text_len: u64,
    wanted: Result<(), SubmitFault>,
) -> Result<(), Fail> {
    let request = single(alloc)?;
    assert_eq!(rt; table.submit(name, b"ann", request, text_len), wanted);
    Ok(())
}

fn assert_remove(rt: &impl Abort, table: &mut ClaimTable, name: &[u8], wanted: bool) {
    assert!(rt; table.remove(name).is_ok() == wanted);
}

fn assert_text_len(rt: &impl Abort, table: &ClaimTable, wanted: u64) {
    assert_eq!(rt; table.text_len(), wanted);
}

fn assert_state(rt: &impl Abort, table: &ClaimTable, name: &[u8], wanted: Option<JobState>) {
    assert_eq!(rt; table.state(name), wanted);
}

fn assert_text(rt: &impl Abort, found: &Text, wanted: &[u8]) {
    assert_eq!(rt; found.bytes(), wanted);
}

fn assert_slots(rt: &impl Abort, found: &[usize], wanted: &[usize]) {
    assert_eq!(rt; found, wanted);
}

// The jobs `g`, `h` and `i` with all the text that jobs can have.
fn with_three(rt: &impl Abort, alloc: Global) -> Result<ClaimTable, Fail> {
    let mut table = with_job(alloc, single(alloc)?)?;
    assert_submit(rt, alloc, &mut table, b"h", 11, Ok(()))?;
    assert_submit(rt, alloc, &mut table, b"g", 1, Err(SubmitFault::InUse))?;
    assert_submit(
        rt,
        alloc,
        &mut table,
        b"i",
        33_554_413,
        Err(SubmitFault::FullText),
    )?;
    assert_submit(rt, alloc, &mut table, b"i", 33_554_412, Ok(()))?;
    Ok(table)
}

#[test]
fn texts_of_jobs_have_a_limit(rt: HostRuntime) -> Result<(), Fail> {
    let mut table = with_three(&rt, rt.alloc())?;
    assert_text_len(&rt, &table, 33_554_432);
    assert_remove(&rt, &mut table, b"g", true);
    assert_remove(&rt, &mut table, b"g", false);
    assert_text_len(&rt, &table, 33_554_423);
    assert_state(&rt, &table, b"g", None);
    Ok(())
}

fn assert_offered(rt: &impl Abort, table: &ClaimTable) {
    assert_state(rt, table, b"g", Some(JobState::Matched));
    assert_slots(rt, table.slots(b"g"), &[3, 5]);
    assert!(rt; table.offered_to(5) == Some(0));
    assert!(rt; table.claimed_by(5).is_none());
}

// What a search is told: the slot 4 is not offered, and nobody holds the slot 5.
fn assert_told(rt: &impl Abort, alloc: Global, table: &ClaimTable) {
    let priorities = Priorities::new(alloc);
    let standing = Standing {
        claims: table,
        priorities: &priorities,
    };
    assert!(rt; standing.offered(5));
    assert!(rt; !standing.offered(4));
    assert!(rt; standing.holder(5).is_none());
}

#[test]
fn an_offer_is_given_back(rt: HostRuntime) -> Result<(), Fail> {
    let mut table = with_offer(rt.alloc())?;
    assert_offered(&rt, &table);
    assert_told(&rt, rt.alloc(), &table);
    let slots = table.release(b"g")?;
    assert_slots(&rt, slots.as_slice(), &[3, 5]);
    assert!(rt; table.offered_to(5).is_none());
    let fault = table.release(b"g").err();
    assert_eq!(rt; fault, Some(JobFault::WrongState(JobState::Idle)));
    Ok(())
}

// The gang `g` of u is told with its slots.
fn assert_freed(rt: &impl Abort, freed: &FreedList) {
    assert!(rt; freed.len() == 1);
    assert_text(rt, &freed.at(0).job, b"g");
    assert_text(rt, &freed.at(0).user, b"u");
    assert_slots(rt, freed.at(0).slots.as_slice(), &[3, 5]);
}

#[test]
fn a_gang_loses_all(rt: HostRuntime) -> Result<(), Fail> {
    let mut table = with_offer(rt.alloc())?;
    let freed = table.lose(5)?;
    assert_freed(&rt, &freed);
    assert_state(&rt, &table, b"g", Some(JobState::Idle));
    assert!(rt; table.offered_to(3).is_none());
    Ok(())
}
