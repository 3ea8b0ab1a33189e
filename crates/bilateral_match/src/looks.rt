// What a search tells of its looks.
ghost use Rattle.std.specs.Prelude.{◌≡◌, ◌≤◌, ◌+◌, None, IfSome};

use ad_store::Held;

/// What the searches for jobs tell of their looks: how many ads the last of them weighed, and out of how many, and how many looks
/// all of them were allowed and didn't make, as far as they know.
#[derive(Clone, Copy, Drop)]
pub struct Looks {
    pub weighed: u64,
    pub places: u64,
    pub saved: u64,
}

impl Looks {
    /// Before any search.
    pub fn none() -> Looks
        ensures { result.saved ≡ 0 }
    {
        Looks {
            weighed: 0,
            places: 0,
            saved: 0,
        }
    }

    /// So many of the saved looks are made.
    pub fn spend(&mut self, looks: u64)
        requires { looks ≤ self.old.saved }
        ensures { self.new.saved + looks ≡ self.old.saved }
    {
        self.saved -= looks;
    }

    // A search among so many places begins.
    pub(crate) fn begin(&mut self, places: usize)
        ensures { self.new.saved ≡ self.old.saved }
    {
        self.weighed = 0;
        self.places = places as u64;
    }

    // One more ad is weighed.
    pub(crate) fn weigh(&mut self)
        ensures { self.new.saved ≡ self.old.saved }
    {
        self.weighed = self.weighed.saturating_add(1);
    }

    // So many looks are allowed, and aren't made.
    pub(crate) fn save(&mut self, looks: u64)
        ensures { self.new.saved ≤ self.old.saved + looks }
    {
        self.saved = self.saved.saturating_add(looks);
    }

    // Without a holder none of its resources is looked at.
    pub(crate) fn save_unless_held(&mut self, holder: &Option<Held<'_>>)
        ensures free { holder.now ≡ None → self.new.saved ≤ self.old.saved + 8 }
        ensures held { IfSome holder.now (λ _. self.new.saved ≡ self.old.saved) }
    {
        if holder.is_none() {
            self.save(8);
        }
    }
}
