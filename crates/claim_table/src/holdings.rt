// Who holds what, as a search is told.
ghost use Rattle.std.specs.Prelude.{◌≡◌, ◌≤◌, ◌==◌, length};
ghost use Rattle.std.specs.List.{position_or_len};

use crate::{ClaimTable, Priorities};
use ad_store::{Held, Holdings};

/// What jobs are offered and have claimed, beside the priorities of their users.
#[derive(Clone, Copy)]
pub struct Standing<'a> {
    pub claims: &'a ClaimTable,
    pub priorities: &'a Priorities,
}

impl Holdings for Standing<'_> {
    ghost use Rattle.std.specs.Prelude.{is_some};
    ghost use Rattle.claim_table.specs.Holders.{holder_of};
    ghost use Rattle.claim_table.specs.Jobs.{offered_to};
    ghost use Rattle.claim_table.specs.Settings.{settings_of};
    ghost use Rattle.claim_table.specs.Table.{jobs_of};

    ghost is_offered = { λ standing slot. is_some (offered_to slot (jobs_of standing.claims.now)) };

    ghost holding = { λ standing slot. holder_of (settings_of standing.priorities.now) (jobs_of standing.claims.now) slot };

    fn offered(&self, slot: usize) -> bool {
        self.claims.offered_to(slot).is_some()
    }

    fn holder(&self, slot: usize) -> Option<Held<'_>> {
        let Some(i) = self.claims.claimed_by(slot) else {
            return None;
        };
        let job = self.claims.jobs.at(i);
        let slots = job.standing.claim();
        Some(Held {
            request: &job.request,
            slots,
            port: port_of(slots, slot),
            number: self.priorities.get(job.user.bytes()),
        })
    }
}

// The first place of a slot among those of a job.
fn port_of(slots: &[usize], slot: usize) -> u32
    requires { length slots.now ≤ 8 }
    ensures { result ≡ position_or_len (λ s. s == slot) slots.now }
{
    let mut port = 0;
    for other in slots {
        if *other == slot {
            return port;
        }
        port += 1;
    }
    port
}
