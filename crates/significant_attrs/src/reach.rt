// The names by which the matching with the ads of a store asks for attributes of a request.
ghost use Rattle.std.specs.Prelude.{◌≡◌, ◌≤◌, ◌+◌, ℕ, List, length, IfOk};
ghost use Rattle.ad_store.specs.Stock.{Advert};
ghost use Rattle.ad_store.specs.Store.{stock_of};
ghost use Rattle.ad_tree.specs.Ad.{ad_frames};
ghost use Rattle.ad_tree.specs.Names.{has_name};
ghost use Rattle.significant_attrs.specs.Marking.{reached_marks};
ghost use Rattle.significant_attrs.specs.Names.{weighed_names};
ghost use Rattle.significant_attrs.specs.Reach.{first_names};
ghost use Rattle.significant_attrs.specs.Shown.{HasReadAds, ads_in, names_in};

use crate::asking::add_asked;
use crate::marking::marks_of;
use crate::name_set::NameSet;
use ad_store::Store;
use ad_tree::Request;
use pool_steps::Steps;
use pool_text::{Names, OutOfMemory, Text};
use std::alloc::Global;
use std::sync::ledger::Ledger;

/// The names by which the matching with the ads of a store asks for attributes of a request: what matching itself asks for, and
/// what expressions of the ads may ask for.
#[derive(Drop)]
pub struct Reach {
    alloc: Global,
    names: NameSet,
}

impl Reach {
    /// Reads the ads of the store, each once.
    pub fn new<T: Ledger>(
        alloc: Global,
        store: &Store,
        touch: &mut Steps<T>,
    ) -> Result<Reach, OutOfMemory>
        ensures names { IfOk result (λ reach. HasReadAds reach (stock_of store.now).ads) }
        ensures looks { touch.new ≤ touch.old + length (stock_of store.now).ads }
    {
        let names = asked_names(alloc, store, touch)?;
        Reach::of(alloc, &names)
    }

    fn of(alloc: Global, names: &Names) -> Result<Reach, OutOfMemory>
        ensures { IfOk result (λ reach. (x : List ℕ) → has_name x (names_in reach) ≡ has_name x names.now) }
    {
        let mut set = NameSet::new(alloc);
        for i in 0..names.len() {
            set.add(names.at(i).bytes())?;
        }
        Ok(Reach { alloc, names: set })
    }

    /// Whether a name is among them.
    pub(crate) fn has(&self, name: &[u8]) -> Result<bool, OutOfMemory>
        ensures { IfOk result (λ b. b ≡ has_name name.now (names_in self.now)) }
    {
        self.names.has(name)
    }

    /// A mark for each attribute of the root of a request, whether the matching can come to it.
    pub fn marks(&self, request: &Request) -> Result<Vec<bool>, OutOfMemory>
        ensures names { IfOk result (λ marks. marks.items ≡ reached_marks (names_in self.now) (ad_frames request.now.ad)) }
        ensures ads { IfOk result (λ marks. (ads : List Advert) → HasReadAds self.now ads
            → marks.items ≡ reached_marks (first_names (ads_in ads)) (ad_frames request.now.ad)) }
    {
        marks_of(self.alloc, self, &request.ad)
    }
}

// What matching itself asks for, and then what the ads ask for, each look counted.
fn asked_names<T: Ledger>(
    alloc: Global,
    store: &Store,
    touch: &mut Steps<T>,
) -> Result<Names, OutOfMemory>
    ensures names { IfOk result (λ names. names ≡ first_names (ads_in (stock_of store.now).ads)) }
    ensures looks { touch.new ≤ touch.old + length (stock_of store.now).ads }
{
    let mut names = weighed(alloc)?;
    for i in 0..store.len() {
        let ad = store.look(store.at(i), touch);
        add_asked(&mut names, ad)?;
    }
    Ok(names)
}

fn weighed(alloc: Global) -> Result<Names, OutOfMemory>
    ensures { IfOk result (λ names. names ≡ weighed_names) }
{
    let mut names = Names::new(alloc);
    names.push(Text::from_bytes(alloc, b"Requirements")?)?;
    names.push(Text::from_bytes(alloc, b"Constraint")?)?;
    names.push(Text::from_bytes(alloc, b"Rank")?)?;
    Ok(names)
}
