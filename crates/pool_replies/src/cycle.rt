// The text of a negotiation cycle.
ghost use Rattle.std.specs.Prelude.{◌≡◌, ◌≤◌, ◌+◌, ◌^◌, ◌++◌, codes, decimal, IfNone, IfSome, OnOk, sum_by};
ghost use Rattle.std.specs.List.{flat_map};
ghost use Rattle.pool_replies.specs.Cycles as texts;

use crate::writing::{append_amount, append_amount_line, append_name, append_names_line};
use crate::{OfferRow, SpinRow, SpinRows, TurnRow};
use pool_text::{OutOfMemory, Text};
use std::convert::AsSlice;

/// Appends the lines of a cycle: those of each spin, and how many offers there are.
pub(crate) fn append_cycle(out: &mut Text, spins: &SpinRows) -> Result<(), OutOfMemory>
    ensures { OnOk result (out.new ≡ out.old ++ texts.cycle_text spins.now) }
{
    append_spins(out, spins.as_slice())?;
    append_total(out, spins.as_slice())
}

// More offers than 64 bits count have no room in memory.
fn append_total(out: &mut Text, spins: &[SpinRow]) -> Result<(), OutOfMemory>
    ensures { OnOk result (out.new ≡ out.old ++ codes "offers " ++ decimal (sum_by texts.offers_of_spin spins.now) ++ codes "\n") }
{
    match offers_of_spins(spins) {
        Some(offers) => append_amount_line(out, b"offers ", offers),
        None => Err(OutOfMemory),
    }
}

fn append_spins(out: &mut Text, spins: &[SpinRow]) -> Result<(), OutOfMemory>
    ensures { OnOk result (out.new ≡ out.old ++ texts.spins_text 1 spins.now) }
{
    for (i, spin) in spins.iter().enumerate() {
        append_spin(out, i as u64 + 1, spin)?;
    }
    Ok(())
}

fn append_spin(out: &mut Text, number: u64, spin: &SpinRow) -> Result<(), OutOfMemory>
    ensures { OnOk result (out.new ≡ out.old ++ texts.spin_text number spin.now) }
{
    append_amount(out, b"spin ", number)?;
    append_amount_line(out, b" free ", spin.free)?;
    append_turns(out, spin.turns.as_slice())
}

fn append_turns(out: &mut Text, turns: &[TurnRow]) -> Result<(), OutOfMemory>
    ensures { OnOk result (out.new ≡ out.old ++ flat_map texts.turn_text turns.now) }
{
    for turn in turns {
        append_turn(out, turn)?;
    }
    Ok(())
}

fn append_turn(out: &mut Text, turn: &TurnRow) -> Result<(), OutOfMemory>
    ensures { OnOk result (out.new ≡ out.old ++ texts.turn_text turn.now) }
{
    if turn.offers.len() == 0 {
        return Ok(());
    }
    append_name(out, b"slice ", turn.user.bytes())?;
    append_amount_line(out, b" ", turn.slice)?;
    append_offers(out, turn.user.bytes(), turn.offers.as_slice())
}

fn append_offers(out: &mut Text, user: &[u8], offers: &[OfferRow]) -> Result<(), OutOfMemory>
    ensures { OnOk result (out.new ≡ out.old ++ texts.offers_text user.now offers.now) }
{
    for offer in offers {
        append_offer(out, user, offer)?;
    }
    Ok(())
}

fn append_offer(out: &mut Text, user: &[u8], offer: &OfferRow) -> Result<(), OutOfMemory>
    ensures { OnOk result (out.new ≡ out.old ++ texts.offer_line user.now offer.now) }
{
    append_name(out, b"offer ", offer.job.bytes())?;
    append_name(out, b" ", user)?;
    append_names_line(out, &offer.names)
}

/// How many offers the spins made, where 64 bits count them.
pub(crate) fn offers_of_spins(spins: &[SpinRow]) -> Option<u64>
    ensures some { IfSome result (λ n. n ≡ sum_by texts.offers_of_spin spins.now) }
    ensures none { IfNone result (2 ^ 64 ≤ sum_by texts.offers_of_spin spins.now) }
{
    let mut count = 0;
    for spin in spins {
        count = offers_of_turns(count, spin.turns.as_slice())?;
    }
    Some(count)
}

fn offers_of_turns(before: u64, turns: &[TurnRow]) -> Option<u64>
    ensures some { IfSome result (λ n. n ≡ before + sum_by texts.offers_of_turn turns.now) }
    ensures none { IfNone result (2 ^ 64 ≤ before + sum_by texts.offers_of_turn turns.now) }
{
    let mut count = before;
    for turn in turns {
        count = count.checked_add(turn.offers.len() as u64)?;
    }
    Some(count)
}
