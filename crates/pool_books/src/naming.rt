// The names of resources, in place of the slots that they are held in.
ghost use Rattle.std.specs.Prelude.{◌≡◌, map, All, Contains, IfOk};
ghost use Rattle.ad_store.specs.Store.{stock_of};
ghost use Rattle.pool_books.specs.Books.{name_in, queue_of};
ghost use Rattle.pool_books.specs.ClaimAnswers.{names_given};

use crate::books::Books;
use ad_store::Store;
use pool_text::{Names, OutOfMemory, Text};
use std::alloc::Global;

/// The names of the resources of the job of a name.
pub fn names_given(alloc: Global, books: &Books, job: &[u8]) -> Result<Names, OutOfMemory>
    ensures { IfOk result (λ names. names ≡ names_given job.now (queue_of books.now)) }
{
    let store = &books.ads.store;
    let claims = &books.claims;
    names_of(alloc, store, claims.slots(job))
}

/// The names of the ads in some slots.
pub fn names_of(alloc: Global, store: &Store, slots: &[usize]) -> Result<Names, OutOfMemory>
    requires { All (Contains (stock_of store.now).slots) slots.now }
    ensures { IfOk result (λ names. names ≡ map (name_in (stock_of store.now)) slots.now) }
{
    let mut names = Names::new(alloc);
    for slot in slots {
        names.push(name_of(store, *slot)?)?;
    }
    Ok(names)
}

/// The name of the ad in a slot.
pub fn name_of(store: &Store, slot: usize) -> Result<Text, OutOfMemory>
    requires { Contains (stock_of store.now).slots slot }
    ensures { IfOk result (λ name. name ≡ name_in (stock_of store.now) slot) }
{
    store.name(slot).copy()
}
