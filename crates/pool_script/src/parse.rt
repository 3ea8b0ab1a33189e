// The command that a line gives, by its keyword and the words behind it.
ghost use Rattle.std.specs.Prelude.{◌≡◌, ℕ, List, Option, true, false, IfOk};
ghost use Rattle.pool_script.specs.Commands.{line_command};
ghost use Rattle.pool_script.specs.Keywords.{opens_block};
ghost use Rattle.pool_script.specs.Rows as rows;
ghost use Rattle.pool_script.specs.declared.command.Command.TheVariants as declared;

use crate::Command;
use crate::command::{BLOCK_NOT_ENDED, BLOCK_TOO_LONG, UNKNOWN_COMMAND, WRONG_WORDS};
use crate::keyword::{Keyword, keyword_of};
use crate::line::{LONGEST_BLOCK, text_of};
use crate::names::{is_name, sole_number};
use pool_text::{OutOfMemory, Text, word_of, words_behind};
use std::alloc::Global;

/// What the line commands. `block` is the text of its block, or none where the input ended within the block; it
/// matters only where the keyword takes one.
#[tactic(auto, unfolding(crate::specs::Commands::line_command))]
pub(crate) fn line_command(
    alloc: Global,
    line: &[u8],
    block: Option<Text>,
) -> Result<Command, OutOfMemory>
    ensures { IfOk result (λ command. command ≡ line_command line.now block) }
{
    let text = text_of(line);
    match keyword_of(word_of(text)) {
        Some(keyword) => keyword_command(alloc, keyword, words_behind(text), block),
        None => Ok(Command::Bad(UNKNOWN_COMMAND)),
    }
}

/// What a keyword commands with the words behind it.
fn keyword_command(
    alloc: Global,
    keyword: Keyword,
    words: &[u8],
    block: Option<Text>,
) -> Result<Command, OutOfMemory>
    ensures { IfOk result (λ command. command ≡ rows.keyword_command keyword words.now block) }
{
    if keyword.opens_block() {
        block_command(alloc, keyword, words, block)
    } else {
        drop(block);
        plain_command(alloc, keyword, words)
    }
}

/// The command of a keyword whose line begins a block.
#[tactic(auto, unfolding(crate::specs::Rows::keyword_command))]
fn block_command(
    alloc: Global,
    keyword: Keyword,
    words: &[u8],
    block: Option<Text>,
) -> Result<Command, OutOfMemory>
    requires { opens_block keyword ≡ true }
    ensures { IfOk result (λ command. command ≡ rows.keyword_command keyword words.now block) }
{
    match keyword {
        Keyword::Advertise => advertise(alloc, words, block),
        Keyword::Query => Ok(query(words, block)),
        Keyword::Submit => submit(alloc, words, block),
        _ => Ok(gang(words, block)),
    }
}

/// The command of a keyword whose line begins no block.
#[tactic(auto, unfolding(crate::specs::Rows::keyword_command))]
fn plain_command(alloc: Global, keyword: Keyword, words: &[u8]) -> Result<Command, OutOfMemory>
    requires { opens_block keyword ≡ false }
    ensures { (block : Option (List ℕ)) → IfOk result (λ command. command ≡ rows.keyword_command keyword words.now block) }
{
    match keyword {
        Keyword::Clock => Ok(clock(words)),
        Keyword::List => Ok(without_words(words, Command::List)),
        Keyword::Eval => eval(alloc, words),
        Keyword::EvalIn => eval_in(alloc, words),
        Keyword::Priority => priority(alloc, words),
        Keyword::Negotiate => Ok(without_words(words, Command::Negotiate)),
        Keyword::Jobs => Ok(without_words(words, Command::Jobs)),
        Keyword::Users => Ok(without_words(words, Command::Users)),
        Keyword::Classes => Ok(without_words(words, Command::Classes)),
        _ => Ok(named_command(keyword, sole_name(alloc, words)?)),
    }
}

/// The command of a keyword that takes one name, and of no other.
fn named_command(keyword: Keyword, name: Option<Text>) -> Command
    ensures { result ≡ rows.named_command keyword name }
{
    let Some(name) = name else {
        return Command::Bad(WRONG_WORDS);
    };
    match keyword {
        Keyword::Withdraw => Command::Withdraw(name),
        Keyword::Show => Command::Show(name),
        Keyword::Remove => Command::Remove(name),
        Keyword::Claim => Command::Claim(name),
        Keyword::Release => Command::Release(name),
        Keyword::Job => Command::Job(name),
        Keyword::Why => Command::Why(name),
        Keyword::Unlisten => Command::Unlisten(name),
        _ => {
            drop(name);
            Command::Bad(WRONG_WORDS)
        }
    }
}

/// The name that is the only word; none where the words are others.
#[tactic(auto, unfolding(crate::specs::Rows::sole_name))]
fn sole_name(alloc: Global, words: &[u8]) -> Result<Option<Text>, OutOfMemory>
    ensures { IfOk result (λ name. name ≡ rows.sole_name words.now) }
{
    let name = word_of(words);
    if is_name(name) && words_behind(words).is_empty() {
        Ok(Some(Text::from_bytes(alloc, name)?))
    } else {
        Ok(None)
    }
}

/// The command, where there are no words.
#[tactic(auto, unfolding(crate::specs::Rows::without_words))]
fn without_words(words: &[u8], command: Command) -> Command
    ensures { result ≡ rows.without_words words.now command }
{
    if words.is_empty() {
        command
    } else {
        drop(command);
        Command::Bad(WRONG_WORDS)
    }
}

/// The text of a block that ended and isn't too long; else its refusal.
#[tactic(auto, unfolding(crate::specs::Rows::block_text))]
fn block_text(block: Option<Text>) -> Result<Text, u8>
    ensures { result ≡ rows.block_text block }
{
    match block {
        None => Err(BLOCK_NOT_ENDED),
        Some(text) if text.bytes().len() > LONGEST_BLOCK => Err(BLOCK_TOO_LONG),
        Some(text) => Ok(text),
    }
}

#[tactic(auto, unfolding(crate::specs::Rows::clock))]
fn clock(words: &[u8]) -> Command
    ensures { result ≡ rows.clock words.now }
{
    sole_number(words, 0, 1_000_000_000_000).map_or(Command::Bad(WRONG_WORDS), Command::Clock)
}

#[tactic(auto, unfolding(crate::specs::Rows::advertise))]
fn advertise(alloc: Global, words: &[u8], block: Option<Text>) -> Result<Command, OutOfMemory>
    ensures { IfOk result (λ command. command ≡ rows.advertise words.now block) }
{
    let name = word_of(words);
    let lifetime = sole_number(words_behind(words), 1, 1_000_000_000);
    match lifetime {
        Some(lifetime) if is_name(name) => match block_text(block) {
            Ok(block) => Ok(Command::Advertise {
                name: Text::from_bytes(alloc, name)?,
                lifetime,
                block,
            }),
            Err(refusal) => Ok(Command::Bad(refusal)),
        },
        _ => Ok(Command::Bad(WRONG_WORDS)),
    }
}

#[tactic(auto, unfolding(crate::specs::Rows::eval))]
fn eval(alloc: Global, words: &[u8]) -> Result<Command, OutOfMemory>
    ensures { IfOk result (λ command. command ≡ rows.eval words.now) }
{
    if words.is_empty() {
        return Ok(Command::Bad(WRONG_WORDS));
    }
    Ok(Command::Eval(Text::from_bytes(alloc, words)?))
}

#[tactic(auto, unfolding(crate::specs::Rows::eval_in))]
fn eval_in(alloc: Global, words: &[u8]) -> Result<Command, OutOfMemory>
    ensures { IfOk result (λ command. command ≡ rows.eval_in words.now) }
{
    let name = word_of(words);
    let expr = words_behind(words);
    if !is_name(name) || expr.is_empty() {
        return Ok(Command::Bad(WRONG_WORDS));
    }
    Ok(Command::EvalIn {
        name: Text::from_bytes(alloc, name)?,
        expr: Text::from_bytes(alloc, expr)?,
    })
}

#[tactic(auto, unfolding(crate::specs::Rows::query))]
fn query(words: &[u8], block: Option<Text>) -> Command
    ensures { result ≡ rows.query words.now block }
{
    if !words.is_empty() {
        return Command::Bad(WRONG_WORDS);
    }
    match block_text(block) {
        Ok(block) => Command::Query(block),
        Err(refusal) => Command::Bad(refusal),
    }
}

#[tactic(auto, unfolding(crate::specs::Rows::submit))]
fn submit(alloc: Global, words: &[u8], block: Option<Text>) -> Result<Command, OutOfMemory>
    ensures { IfOk result (λ command. command ≡ rows.submit words.now block) }
{
    match submit_names(alloc, words)? {
        Some((job, user)) => Ok(submit_job(job, user, block)),
        None => Ok(Command::Bad(WRONG_WORDS)),
    }
}

/// The name of the job and of its user, where the words are those.
#[tactic(auto, unfolding(crate::specs::Rows::sole_name))]
fn submit_names(alloc: Global, words: &[u8]) -> Result<Option<(Text, Text)>, OutOfMemory>
    ensures { IfOk result (λ names. names ≡ rows.submit_names words.now) }
{
    let job = word_of(words);
    if !is_name(job) {
        return Ok(None);
    }
    match sole_name(alloc, words_behind(words))? {
        Some(user) => Ok(Some((Text::from_bytes(alloc, job)?, user))),
        None => Ok(None),
    }
}

/// The command that submits a job, or the refusal of its block.
fn submit_job(job: Text, user: Text, block: Option<Text>) -> Command
    ensures { result ≡ rows.with_block (declared.Submit job user) (rows.block_text block) }
{
    match block_text(block) {
        Ok(block) => Command::Submit { job, user, block },
        Err(refusal) => Command::Bad(refusal),
    }
}

#[tactic(auto, unfolding(crate::specs::Rows::priority))]
fn priority(alloc: Global, words: &[u8]) -> Result<Command, OutOfMemory>
    ensures { IfOk result (λ command. command ≡ rows.priority words.now) }
{
    let user = word_of(words);
    match sole_number(words_behind(words), 1, 1_000_000) {
        Some(n) if is_name(user) => Ok(Command::Priority {
            user: Text::from_bytes(alloc, user)?,
            n,
        }),
        _ => Ok(Command::Bad(WRONG_WORDS)),
    }
}

#[tactic(auto, unfolding(crate::specs::Rows::gang))]
fn gang(words: &[u8], block: Option<Text>) -> Command
    ensures { result ≡ rows.gang words.now block }
{
    if !words.is_empty() {
        return Command::Bad(WRONG_WORDS);
    }
    match block_text(block) {
        Ok(block) => Command::Gang(block),
        Err(refusal) => Command::Bad(refusal),
    }
}
