// Parsing a text: its tokens, their words, the machine that builds their tree, and the ad of the tree.
ghost use Rattle.std.specs.Prelude.{◌≡◌, ◌<◌, ◌≤◌, ◌^◌, [], length, List, Result, IfOk, IfErr};
ghost use Rattle.ad_tree.specs.Ad.{ad_frames};
ghost use Rattle.ad_tree.specs.Inline.{Inline};
ghost use Rattle.ad_tree.specs.Small.{IsSmall};
ghost use Rattle.ad_builder.specs.Machine.{stack, top, below};
ghost use Rattle.ad_grammar.specs.Steps.{left};
ghost use Rattle.ad_parser.specs.declared.fault.ParseFault.{ParseFault};
ghost use Rattle.ad_parser.specs.Answers.{AnswersAd, AnswersExpr};
ghost use Rattle.ad_parser.specs.Outcomes.{HasAdOutcome, HasExprOutcome, IsAdAnswer, IsExprAnswer};
ghost use Rattle.ad_parser.specs.Taking.{IsShallow, IsEarlyFault, IsChecked};

use crate::ParseFault;
use ad_builder::Machine;
use ad_grammar::{Reader, read_ad, read_expression};
use ad_lexer::lex;
use ad_tree::{Ad, Phrase};
use std::alloc::Global;

/// How many frames a text may spell, the root included.
const FRAME_LIMIT: u32 = 64;

/// How many definitions a text may spell, those that are replaced included.
const DEFINITION_LIMIT: u32 = 1_024;

/// The ad that a text spells, as `[name = expression; ..]` (ClassAd Language Reference Manual 2.4).
///
/// An ad that is read has 1,024 attributes at most, those of its ad literals included.
pub fn parse_ad(alloc: Global, text: &[u8]) -> Result<Ad, ParseFault>
    requires { length text.now < 2 ^ 32 }
    // The ad of the text's tree, its fault, or want of memory.
    ensures answer { AnswersAd text.now result }
    // The same by the outcome of the text, of which there is exactly one.
    ensures outcome { (outcome : Result Inline ParseFault) → HasAdOutcome text.now outcome → IsAdAnswer outcome result }
    ensures small { IfOk result (λ ad. IsSmall (ad_frames ad)) }
{
    parse_ad_seeded(alloc, 0, text)
}

/// The same, with this seed for the hashes of names: whoever writes a text and doesn't know the seed can't choose names that
/// meet in a table.
pub fn parse_ad_seeded(alloc: Global, seed: u64, text: &[u8]) -> Result<Ad, ParseFault>
    requires { length text.now < 2 ^ 32 }
    ensures answer { AnswersAd text.now result }
    ensures outcome { (outcome : Result Inline ParseFault) → HasAdOutcome text.now outcome → IsAdAnswer outcome result }
    ensures small { IfOk result (λ ad. IsSmall (ad_frames ad)) }
{
    ad_in(alloc, seed, text)
}

/// The expression that a text spells, with the ad of its ad literals.
///
/// An expression that is read has 1,024 attributes at most in its ad literals, all together.
pub fn parse_expr(alloc: Global, text: &[u8]) -> Result<Phrase, ParseFault>
    requires { length text.now < 2 ^ 32 }
    ensures answer { AnswersExpr text.now result }
    ensures outcome { (outcome : Result Inline ParseFault) → HasExprOutcome text.now outcome → IsExprAnswer outcome result }
    ensures small { IfOk result (λ phrase. IsSmall (ad_frames phrase.ad)) }
{
    parse_expr_seeded(alloc, 0, text)
}

/// The same, with this seed for the hashes of names.
pub fn parse_expr_seeded(alloc: Global, seed: u64, text: &[u8]) -> Result<Phrase, ParseFault>
    requires { length text.now < 2 ^ 32 }
    ensures answer { AnswersExpr text.now result }
    ensures outcome { (outcome : Result Inline ParseFault) → HasExprOutcome text.now outcome → IsExprAnswer outcome result }
    ensures small { IfOk result (λ phrase. IsSmall (ad_frames phrase.ad)) }
{
    phrase_in(alloc, seed, text)
}

fn ad_in(alloc: Global, seed: u64, text: &[u8]) -> Result<Ad, ParseFault>
    requires { length text.now < 2 ^ 32 }
    ensures { AnswersAd text.now result }
{
    let reader = shallow_reader(alloc, text)?;
    let machine = read_ad(alloc, seed, reader)?;
    check(&machine, 0)?;
    Ok(machine.finish_ad()?)
}

fn phrase_in(alloc: Global, seed: u64, text: &[u8]) -> Result<Phrase, ParseFault>
    requires { length text.now < 2 ^ 32 }
    ensures { AnswersExpr text.now result }
{
    let reader = shallow_reader(alloc, text)?;
    let machine = read_expression(alloc, seed, reader)?;
    check(&machine, 1)?;
    Ok(machine.finish_phrase()?)
}

/// The place in front of the words of a text, where no more constructs are open at once than may be.
fn shallow_reader<'a>(alloc: Global, text: &'a [u8]) -> Result<Reader<'a>, ParseFault>
    requires { length text.now < 2 ^ 32 }
    ensures ok { IfOk result (λ reader. IsShallow text.now (left reader)) }
    ensures err { IfErr result (λ fault. IsEarlyFault text.now fault) }
{
    let tokens = lex(alloc, text)?;
    Reader::new(tokens).ok_or(ParseFault::Nesting)
}

/// Tests how high the tree of a machine is, and how many frames and definitions it spells. An expression stands in a
/// root of its own, which is one frame more.
fn check(machine: &Machine, roots: u32) -> Result<(), ParseFault>
    requires roots { roots ≤ 1 }
    requires alone { below (stack machine.now) ≡ [] }
    ensures { IsChecked roots (top (stack machine.now)) result }
{
    let tree = machine.size();
    if tree.is_high {
        return Err(ParseFault::Depth);
    }
    if tree.frames.saturating_add(roots) > FRAME_LIMIT {
        return Err(ParseFault::Frames);
    }
    if tree.definitions > DEFINITION_LIMIT {
        return Err(ParseFault::Attributes);
    }
    Ok(())
}
