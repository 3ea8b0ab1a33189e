// Who holds resources.
use ad_tree::Request;

/// Who holds a resource, at which port, and the priority number of the holder's user: at port 0 for a single job, else
/// from 0. There is one slot for each port of the request, or one where it has no ports, and the resource stands at
/// `port` among them.
#[derive(Clone, Copy)]
pub struct Held<'a> {
    pub request: &'a Request,
    pub slots: &'a [usize],
    pub port: u32,
    pub number: u64,
}

/// What is known of the resources' offers and claims, by their slots.
pub trait Holdings {
    ghost use Rattle.std.specs.Prelude.{◌≡◌, ℕ, Bool, Option, Some, IfSome, length, max, option_map, slice_get};
    ghost use Rattle.ad_store.specs.Holdings.{Holding, holding_of};

    /// Whether the resource in a slot is offered.
    ghost is_offered: { Self → ℕ → Bool };

    /// Who holds the resource in a slot.
    ghost holding: { Self → ℕ → Option Holding };

    /// Whether the resource in this slot is offered to a job.
    fn offered(&self, slot: usize) -> bool
        ensures { result ≡ is_offered self.now slot };

    /// Who holds the resource in this slot, `None` exactly where it isn't claimed.
    fn holder(&self, slot: usize) -> Option<Held<'_>>
        ensures who { option_map holding_of result ≡ holding self.now slot }

        // The resource stands at its port, and there is a resource for each port, or one where there are none.
        ensures stands { IfSome result (λ h. slice_get h.slots.now h.port ≡ Some slot) }
        ensures fills { IfSome result (λ h. length h.slots.now ≡ max 1 (length h.request.now.ports)) };
}
