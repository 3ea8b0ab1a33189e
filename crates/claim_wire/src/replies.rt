// The lines that answer an event.
ghost use Rattle.std.specs.Prelude.{◌≡◌, ◌++◌, ◌+◌, ◌<◌, ◌≤◌, ◌^◌, [], codes, decimal, length, vec_len, IfOk, OnOk, OnErr};
ghost use Rattle.std.specs.List.{flat_map};
ghost use Rattle.std.specs.Vec.{vec_capacity};
ghost use Rattle.claim_wire.specs.Replies as texts;
ghost use Rattle.claim_wire.specs.Wires.{answers_of, listed};

use crate::customer::{Customer, Phase};
use crate::message::{Answers, Holder, Message, MessageKind};
use crate::resource::Resource;
use pool_text::{OutOfMemory, Text, append_count};
use std::alloc::Global;

impl MessageKind {
    /// The word between two blanks.
    fn word(self) -> &'static [u8]
        ensures { result.now ≡ codes " " ++ texts.kind_word self ++ codes " " }
    {
        match self {
            MessageKind::Ask => b" ask ",
            MessageKind::Grant => b" grant ",
            MessageKind::Leave => b" leave ",
            MessageKind::Gone => b" gone ",
        }
    }
}

/// A number with some bytes before it.
fn append_behind(out: &mut Text, before: &[u8], number: u64) -> Result<(), OutOfMemory>
    ensures { OnOk result (out.new ≡ out.old ++ before.now ++ decimal number) }
{
    out.append(before)?;
    append_count(out, number)
}

/// Two numbers, each with a blank before it.
fn append_numbers(out: &mut Text, first: u64, second: u64) -> Result<(), OutOfMemory>
    ensures { OnOk result (out.new ≡ out.old ++ texts.numbers_text first second) }
{
    append_behind(out, b" ", first)?;
    append_behind(out, b" ", second)
}

fn append_sent(out: &mut Text, number: u64, m: &Message) -> Result<(), OutOfMemory>
    ensures { OnOk result (out.new ≡ out.old ++ texts.sent_line number m.now) }
{
    append_behind(out, b"sent ", number)?;
    append_behind(out, m.kind.word(), u64::from(m.customer))?;
    append_numbers(out, u64::from(m.resource), m.number)?;
    out.append(b"\n")
}

/// The reply to an event that sends nothing.
pub(crate) fn quiet(alloc: Global) -> Result<Text, OutOfMemory>
    ensures { IfOk result (λ text. text ≡ texts.sent_text 0 []) }
{
    Text::from_bytes(alloc, b"quiet\n")
}

/// Adds what is sent behind so many messages.
fn append_told(out: &mut Text, before: u64, answers: &Answers) -> Result<(), OutOfMemory>
    requires { before < 2 ^ 63 }
    ensures { OnOk result (out.new ≡ out.old ++ texts.sent_text before (answers_of answers.now)) }
{
    match (answers.first, answers.second) {
        (None, None) => out.append(b"quiet\n"),
        (None, Some(only)) | (Some(only), None) => append_sent(out, before + 1, &only),
        (Some(first), Some(second)) => {
            append_sent(out, before + 1, &first)?;
            append_sent(out, before + 2, &second)
        }
    }
}

/// What is sent behind so many messages.
fn tell(alloc: Global, before: u64, answers: &Answers) -> Result<Text, OutOfMemory>
    requires { before < 2 ^ 63 }
    ensures { IfOk result (λ text. text ≡ texts.sent_text before (answers_of answers.now)) }
{
    let mut text = Text::new(alloc);
    append_told(&mut text, before, answers)?;
    Ok(text)
}

fn push_some(sent: &mut Vec<Message>, message: Option<Message>)
    requires { vec_len sent.old < vec_capacity sent.old }
    ensures items { sent.new.items ≡ sent.old.items ++ listed message }
    ensures capacity { vec_capacity sent.new ≡ vec_capacity sent.old }
    ensures len { vec_len sent.new ≤ vec_len sent.old + 1 }
{
    if let Some(m) = message {
        sent.push_reserved(m);
    }
}

/// Notes the answers as sent, and tells them. After want of memory nothing is noted.
pub(crate) fn note(
    alloc: Global,
    sent: &mut Vec<Message>,
    answers: &Answers,
) -> Result<Text, OutOfMemory>
    ensures noted { OnOk result (sent.new.items ≡ sent.old.items ++ answers_of answers.now) }
    ensures told { IfOk result (λ text. text ≡ texts.sent_text (length sent.old.items) (answers_of answers.now)) }
    ensures unchanged { OnErr result (sent.new.items ≡ sent.old.items) }
{
    sent.reserve(2)?;
    let text = tell(alloc, sent.len() as u64, answers)?;
    push_some(sent, answers.first);
    push_some(sent, answers.second);
    Ok(text)
}

/// A word with two numbers behind it.
fn append_stage(out: &mut Text, word: &[u8], first: u64, second: u64) -> Result<(), OutOfMemory>
    ensures { OnOk result (out.new ≡ out.old ++ word.now ++ texts.numbers_text first second) }
{
    out.append(word)?;
    append_numbers(out, first, second)
}

fn append_resource(out: &mut Text, resource: &Resource) -> Result<(), OutOfMemory>
    ensures { OnOk result (out.new ≡ out.old ++ texts.resource_line resource.now) }
{
    append_behind(out, b"resource ", u64::from(resource.id()))?;
    append_holder(out, resource.holder())?;
    out.append(b"\n")
}

fn append_holder(out: &mut Text, holder: Option<Holder>) -> Result<(), OutOfMemory>
    ensures { OnOk result (out.new ≡ out.old ++ texts.holder_text holder) }
{
    match holder {
        None => out.append(b" free"),
        Some(holder) => append_stage(out, b" held", u64::from(holder.customer), holder.number),
    }
}

pub(crate) fn append_resources(out: &mut Text, resources: &[Resource]) -> Result<(), OutOfMemory>
    ensures { OnOk result (out.new ≡ out.old ++ flat_map texts.resource_line resources.now) }
{
    for resource in resources {
        append_resource(out, resource)?;
    }
    Ok(())
}

fn append_phase(out: &mut Text, phase: Phase, resource: u64, number: u64) -> Result<(), OutOfMemory>
    ensures { OnOk result (out.new ≡ out.old ++ texts.phase_text phase resource number) }
{
    match phase {
        Phase::Idle => out.append(b" idle"),
        Phase::Asked => append_stage(out, b" asked", resource, number),
        Phase::Holding => append_stage(out, b" holding", resource, number),
        Phase::Leaving => append_stage(out, b" leaving", resource, number),
    }
}

fn append_customer(out: &mut Text, customer: &Customer) -> Result<(), OutOfMemory>
    ensures { OnOk result (out.new ≡ out.old ++ texts.customer_line customer.now) }
{
    let resource = u64::from(customer.target().unwrap_or(0));
    append_behind(out, b"customer ", u64::from(customer.id()))?;
    append_phase(out, customer.phase(), resource, customer.number())?;
    out.append(b"\n")
}

pub(crate) fn append_customers(out: &mut Text, customers: &[Customer]) -> Result<(), OutOfMemory>
    ensures { OnOk result (out.new ≡ out.old ++ flat_map texts.customer_line customers.now) }
{
    for customer in customers {
        append_customer(out, customer)?;
    }
    Ok(())
}
