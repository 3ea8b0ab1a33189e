// Reading all words of a text.
ghost use Rattle.ad_grammar.specs.Read.{IsRead};
ghost use Rattle.ad_grammar.specs.Rules.{parsed_expr, parsed_ad};
ghost use Rattle.ad_grammar.specs.Steps.{left};

use crate::grammar::{definitions, expression};
use crate::reader::Reader;
use crate::stop::Stop;
use ad_builder::Machine;
use ad_lexer::Mark;
use std::alloc::Global;

/// The machine that has built words that are an expression, with this seed for the hashes of names. `Grammar` exactly
/// where they are none.
pub fn read_expression(alloc: Global, seed: u64, reader: Reader<'_>) -> Result<Machine, Stop>
    ensures { IsRead (parsed_expr (left reader.entry)) result }
{
    let mut reader = reader;
    whole_expression(alloc, seed, &mut reader)
}

/// The machine that has built words that are an ad, as an ad literal that stays open. `Grammar` exactly where they
/// are none.
pub fn read_ad(alloc: Global, seed: u64, reader: Reader<'_>) -> Result<Machine, Stop>
    ensures { IsRead (parsed_ad (left reader.entry)) result }
{
    let mut reader = reader;
    whole_ad(alloc, seed, &mut reader)
}

fn whole_expression(alloc: Global, seed: u64, reader: &mut Reader<'_>) -> Result<Machine, Stop>
    ensures { IsRead (parsed_expr (left reader.old)) result }
{
    let fuel = reader.count() + 1;
    let mut machine = Machine::of_expression(alloc, seed);
    expression(alloc, reader, &mut machine, fuel)?;
    if reader.count() > 0 {
        return Err(Stop::Grammar);
    }
    Ok(machine)
}

fn whole_ad(alloc: Global, seed: u64, reader: &mut Reader<'_>) -> Result<Machine, Stop>
    ensures { IsRead (parsed_ad (left reader.old)) result }
{
    reader.expect(Mark::OpenBracket)?;
    let fuel = reader.count() + 1;
    let mut machine = Machine::of_ad(alloc, seed, reader.room())?;
    definitions(alloc, reader, &mut machine, fuel)?;
    if reader.count() > 0 {
        return Err(Stop::Grammar);
    }
    Ok(machine)
}
