// Laws of the definitions, each on a function that does nothing.
ghost use Rattle.std.specs.Prelude.{◌≡◌, ℕ, List, Some};
ghost use Rattle.pool_io.specs.Flow.{Supply};
ghost use Rattle.pool_state.specs.Heard.{Heard};
ghost use Rattle.script_run.specs.Effects.{Effects};
ghost use Rattle.script_run.specs.Ends.{IsWriteFault};
ghost use Rattle.run_rules.specs.PoolRules.{RepliesFirst, pool_rules};

/// A sink that failed before it took a byte was offered the first reply, alone and whole, and no command had ended before the
/// last read. So a run neither reads again before it answers, nor joins replies, nor offers one in parts.
pub fn the_first_reply_is_offered_at_once()
    ensures { (start : Heard) (s t : Supply) (k m : Effects) (fault : IsWriteFault pool_rules start s t k m) (known : List ℕ)
        → k.sink.taken ≡ Some known → m.sink.taken ≡ Some known
        → RepliesFirst start t m fault.bytes fault.front fault.cut }
{}
