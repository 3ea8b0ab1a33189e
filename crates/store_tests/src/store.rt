// Stores at their limit of text, and an ad that is found by its name, its slot and its age.
use ad_store::*;
use ad_tree::{Ad, Draft};
use pool_text::OutOfMemory;
use std::alloc::Global;
use std::process::Abort;
use std::test::Fail;

fn empty_ad(alloc: Global) -> Result<Ad, OutOfMemory> {
    Draft::new(alloc).finish()
}

// Puts an empty ad of the moment 5 for ten moments.
fn put(alloc: Global, store: &mut Store, name: &[u8], text_len: u64) -> Result<Put, PutFault> {
    match empty_ad(alloc) {
        Ok(ad) => store.put(name, 5, 10, text_len, ad),
        Err(_) => Err(PutFault::OutOfMemory),
    }
}

fn assert_put(
    rt: &impl Abort,
    alloc: Global,
    store: &mut Store,
    (name, text_len): (&[u8], u64),
    wanted: Result<Put, PutFault>,
) {
    assert_eq!(rt; put(alloc, store, name, text_len), wanted);
}

#[test]
fn texts_have_a_limit(rt: HostRuntime) {
    let alloc = rt.alloc();
    let mut store = Store::new(alloc);
    let full = Err(PutFault::FullText);
    assert_put(&rt, alloc, &mut store, (b"a", 33_554_433), full);
    assert_put(
        &rt,
        alloc,
        &mut store,
        (b"a", 33_554_432),
        Ok(Put::Added(0)),
    );
    let full = Err(PutFault::FullText);
    assert_put(&rt, alloc, &mut store, (b"b", 1), full);
    assert_put(&rt, alloc, &mut store, (b"a", 0), Ok(Put::Replaced(0)));
}

fn assert_ad(rt: &impl Abort, store: &Store) {
    let Some(slot) = store.slot_of(b"b") else {
        panic!(rt; "there is no ad b");
    };
    assert!(rt; store.place(slot) == 1 && store.name(slot).bytes() == b"b".as_slice());
    assert!(rt; store.born(slot) == 5 && store.lifetime(slot) == 10);
}

#[test]
fn an_ad_is_found_and_withdrawn(rt: HostRuntime) -> Result<(), Fail> {
    let mut store = Store::new(rt.alloc());
    put(rt.alloc(), &mut store, b"a", 1)?;
    put(rt.alloc(), &mut store, b"b", 1)?;
    assert_ad(&rt, &store);
    assert!(rt; store.next_expired(14).is_none() && store.next_expired(15) == Some(0));
    assert_eq!(rt; store.withdraw(b"a"), Ok(0));
    assert_eq!(rt; store.withdraw(b"a"), Err(NoName));
    assert!(rt; store.len() == 1 && store.next_expired(15) == Some(1));
    Ok(())
}
