// A machine that answers the items of an input, seen by what it keeps of the input, by its state, and by its rules.
ghost use Rattle.std.specs.Prelude.{◌≡◌, ◌++◌, ℕ, List, true, false, IfNone, IfOk, IfSome, OnErr, OnOk};
ghost use Rattle.notice_desk.specs.Desk.{Row};
ghost use Rattle.pool_steps.specs.Spent.{IsPaid, IsSame};
ghost use Rattle.pool_script.specs.Standing.{Held, StandsFor};
ghost use Rattle.script_run.specs.Answering.{Answers, Fails, Rests};
ghost use Rattle.script_run.specs.Effects.{beside_of};
ghost use Rattle.script_run.specs.Rules.{IsLawful, Rules};

use crate::Answer;
use notice_desk::Notices;
use pool_steps::Meter;
use pool_text::OutOfMemory;
use std::sync::ledger::Ledger;

/// A machine that gives the items of an input, which comes in pieces of any size, and answers them one by one. Where a call
/// answers `OutOfMemory`, the machine is only to be dropped.
pub trait Machine {
    ghost State: { Type 0 };

    ghost Item: { Type 0 };

    /// The items that wait, the bytes that are no item yet, and whether the input is over.
    ghost held: { Self → Held Item };

    /// What the machine is, where these rows are on the desk.
    ghost state: { Self → List Row → State };

    ghost rules: { Rules State Item };

    /// Reads a piece of the input.
    fn feed(&mut self, piece: &[u8]) -> Result<(), OutOfMemory>
        requires { (held self.old).over ≡ false }
        ensures stands { OnOk result ((bytes : List ℕ) (n : ℕ) → StandsFor rules.given (held self.old) bytes n
            → StandsFor rules.given (held self.new) (bytes ++ piece.now) n) }
        ensures waiting { OnOk result
            ((held self.new).waiting ≡ (held self.old).waiting ++ rules.given false ((held self.old).rest ++ piece.now)) }
        ensures over { OnOk result ((held self.new).over ≡ false) }
        ensures state { (rows : List Row) → state self.new rows ≡ state self.old rows };

    /// Reads the end of the input.
    fn end(&mut self) -> Result<(), OutOfMemory>
        requires { (held self.old).over ≡ false }
        ensures waiting { OnOk result
            ((held self.new).waiting ≡ (held self.old).waiting ++ rules.given true (held self.old).rest) }
        ensures state { (rows : List Row) → state self.new rows ≡ state self.old rows };

    /// Answers the next item that waits; none where none waits. A run that counts and tells nothing leaves desk and meter.
    fn answer<D: Notices, F: Ledger, E: Ledger, T: Ledger>(
        &mut self,
        desk: &mut D,
        meter: &mut Meter<'_, F, E, T>,
    ) -> Result<Option<Answer>, OutOfMemory>
        ensures answered { IfOk result (λ answer. IfSome answer (Answers rules (held self.old).waiting (held self.new).waiting
            (state self.old (D.shows desk.old)) (state self.new (D.shows desk.new))
            (beside_of meter.old (D.shows desk.old)) (beside_of meter.new (D.shows desk.new)))) }
        ensures none { IfOk result (λ answer. IfNone answer (Rests rules (held self.old).waiting (held self.new).waiting
            (state self.old (D.shows desk.old)) (state self.new (D.shows desk.new))
            (beside_of meter.old (D.shows desk.old)) (beside_of meter.new (D.shows desk.new)))) }
        ensures failed { OnErr result (Fails rules (held self.old).waiting (state self.old (D.shows desk.old))
            (beside_of meter.old (D.shows desk.old)) (beside_of meter.new (D.shows desk.new))) }
        ensures same { IsSame meter.old meter.new }
        ensures ratio { IsPaid meter.old meter.new }
        ensures over { (held self.new).over ≡ (held self.old).over }
        ensures stands { (bytes : List ℕ) (n : ℕ) → StandsFor rules.given (held self.old) bytes n
            → (m : ℕ) × StandsFor rules.given (held self.new) bytes m };

    ghost lawful: { IsLawful rules };
}
