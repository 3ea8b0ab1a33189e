// Laws of the definitions, each on a function that does nothing.
ghost use Rattle.std.specs.Prelude.{ℕ, List};
ghost use Rattle.claim_wire.specs.Facts.{IsSafe, HasOneHolder};
ghost use Rattle.claim_wire.specs.Wires.{new_wire, run};
ghost use Rattle.claim_wire.specs.declared.event.Event.{Event};

/// Whatever is asked, sent, delivered, lost, repeated, reordered and restarted: a customer that holds a resource with a
/// number is the holder of that resource with that number, and so no two customers hold one resource.
pub fn holding_customers_are_holders()
    ensures safe { (resources customers : ℕ) (events : List Event) → IsSafe (run events (new_wire resources customers)) }
    ensures one_holder { (resources customers : ℕ) (events : List Event) → HasOneHolder (run events (new_wire resources customers)) }
{}
