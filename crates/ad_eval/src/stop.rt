// Why an evaluation stops.
ghost use Rattle.std.specs.Prelude.{◌≡◌};
ghost use Rattle.ad_eval.specs.declared.stop.Stop.TheVariants as stops;

use pool_text::OutOfMemory;

/// The references that are left don't suffice, or memory is wanting.
#[derive(Clone, Copy)]
pub enum Stop {
    References,
    OutOfMemory,
}

impl From<OutOfMemory> for Stop {
    ghost from_gives = { λ _ stop. stop ≡ stops.OutOfMemory };

    fn from(_: OutOfMemory) -> Self {
        Stop::OutOfMemory
    }
}
