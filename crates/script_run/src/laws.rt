// A law of the definitions, on a function that does nothing.
ghost use Rattle.std.specs.Prelude.{◌≡◌, ℕ, List, Some};
ghost use Rattle.pool_io.specs.Flow.{Supply};
ghost use Rattle.script_run.specs.Effects.{Effects};
ghost use Rattle.script_run.specs.Ends.{AnswersFirst, IsWriteFault};

use crate::Machine;

/// A sink that failed before it took a byte was offered the first answer that has one, alone and whole, and the items that had
/// ended before the last read have none. So a run neither reads again before it answers, nor joins answers, nor offers one in
/// parts.
pub fn the_first_answer_is_offered_at_once<M: Machine>()
    ensures { (start : M.State) (s t : Supply) (k m : Effects) (fault : IsWriteFault M.rules start s t k m) (known : List ℕ)
        → k.sink.taken ≡ Some known → m.sink.taken ≡ Some known
        → AnswersFirst M.rules start t m fault.bytes fault.front fault.cut }
{}
