// Why a rule of the grammar stops.
ghost use Rattle.std.specs.Prelude.{◌≡◌};
ghost use Rattle.ad_grammar.specs.declared.stop.Stop.TheVariants as stops;

use pool_text::OutOfMemory;

/// The words don't fit the rule, or memory is wanting.
#[derive(Clone, Copy)]
pub enum Stop {
    Grammar,
    OutOfMemory,
}

impl From<OutOfMemory> for Stop {
    ghost from_gives = { λ _ stop. stop ≡ stops.OutOfMemory };

    fn from(_: OutOfMemory) -> Self {
        Stop::OutOfMemory
    }
}
