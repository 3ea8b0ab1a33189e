// A wire that answers the lines of a schedule as they end.
ghost use Rattle.std.specs.Prelude.{◌≡◌, [], false, IfOk};
ghost use Rattle.claim_wire.specs.Wires.{IsNumber, new_wire};
ghost use Rattle.pool_script.specs.Standing.{LinesStand};
ghost use Rattle.run_rules.specs.WireRules as wires;
ghost use Rattle.run_rules.specs.WireRules.{WireAnswer};

use crate::line_wire::LineWire;
use notice_desk::Notices;
use pool_script::{Line, Lines};
use pool_steps::Meter;
use pool_text::OutOfMemory;
use script_run::{Answer, Machine};
use std::alloc::Global;
use std::sync::ledger::Ledger;

/// How many resources and customers a wire has.
#[derive(Clone, Copy)]
pub(crate) struct WireSize {
    pub(crate) resources: u32,
    pub(crate) customers: u32,
}

/// The lines so far, and the wire behind them.
#[derive(Drop)]
pub(crate) struct WireMachine {
    lines: Lines,
    wire: LineWire,
}

impl WireMachine {
    pub(crate) fn new(alloc: Global, size: WireSize) -> Result<WireMachine, OutOfMemory>
        requires resources { IsNumber 100 size.resources }
        requires customers { IsNumber 100 size.customers }
        ensures stands { IfOk result (λ machine. LinesStand machine.lines [] 0) }
        ensures waiting { IfOk result (λ machine. machine.lines.waiting ≡ []) }
        ensures over { IfOk result (λ machine. machine.lines.over ≡ false) }
        ensures wire { IfOk result (λ machine. machine.wire ≡ new_wire size.resources size.customers) }
    {
        Ok(WireMachine {
            lines: Lines::new(alloc),
            wire: LineWire::new(alloc, size.resources, size.customers)?,
        })
    }
}

impl Machine for WireMachine {
    ghost use Rattle.claim_wire.specs.Wires.{WireState};
    ghost use Rattle.pool_script.specs.declared.lines.Line.{Line};
    ghost use Rattle.run_rules.specs.WireRules.{wire_rules};
    ghost use Rattle.run_rules.proofs.WireLemmas.{wire_lawful};

    ghost State = { WireState };

    ghost Item = { Line };

    ghost held = { λ m. m.lines };

    ghost state = { λ m rows. m.wire };

    ghost rules = { wire_rules };

    ghost lawful = { wire_lawful };

    fn feed(&mut self, piece: &[u8]) -> Result<(), OutOfMemory> {
        self.lines.feed(piece)
    }

    fn end(&mut self) -> Result<(), OutOfMemory> {
        self.lines.end()
    }

    fn answer<D: Notices, F: Ledger, E: Ledger, T: Ledger>(
        &mut self,
        _desk: &mut D,
        _meter: &mut Meter<'_, F, E, T>,
    ) -> Result<Option<Answer>, OutOfMemory> {
        let Some(line) = self.lines.take() else {
            return Ok(None);
        };
        let answered = answer_line(&mut self.wire, line)?;
        Ok(Some(answered))
    }
}

// Lets happen what a line says.
fn answer_line(wire: &mut LineWire, line: Line) -> Result<Answer, OutOfMemory>
    ensures { IfOk result (λ answer. ◌≡◌ {A = WireAnswer} (wires.answer wire.old line)
        (record { wire = wire.new; text = answer.text; refusals = answer.refusals })) }
{
    let answered = wire.answer(&line);
    drop(line);
    answered
}
