// The rows for texts.
ghost use Rattle.std.specs.Prelude.{◌≡◌, ◌≤◌, length, map, slice_range, IfOk};
ghost use Rattle.std.specs.Char.{to_ascii_uppercase};
ghost use Rattle.std.specs.List.{list_all};
ghost use Rattle.pool_text.specs.Folding.{folded};
ghost use Rattle.ad_value.specs.Limits.{bounded};
ghost use Rattle.ad_value.specs.Plain.{integer, plain, plains, text};
ghost use Rattle.builtin_funcs.specs.Kinds.{is_scalar};
ghost use Rattle.builtin_funcs.specs.Texts.{end_of, on_text, order_number, part_value, start_of, strcat_value, strcmp_value, stricmp_value, tail_value};

use crate::conversions::append_written;
use crate::kinds::is_scalar;
use ad_value::{Value, Values};
use pool_text::{OutOfMemory, Text, order_folded};
use std::alloc::Global;
use std::cmp::Ordering;

// So many bytes have a text that isn't too heavy for a value at most.
const LONGEST: usize = 65_535;

/// The arguments as text, one behind the other. What is too heavy for a value isn't joined to the end: it is Error.
#[tactic(auto, using(crate::proofs::ListLemmas::drop_at))]
pub(crate) fn strcat(alloc: Global, args: &Values) -> Result<Value, OutOfMemory>
    ensures { IfOk result (λ v. bounded (plain v) ≡ bounded (strcat_value (plains args.now))) }
{
    if !all_scalars(args) {
        return Ok(Value::Error);
    }
    let mut out = Text::new(alloc);
    for i in 0..args.len() {
        append_written(&mut out, args.at(i))?;
        if out.bytes().len() > LONGEST {
            return Ok(Value::Error);
        }
    }
    Ok(Value::Str(out))
}

fn all_scalars(args: &Values) -> bool
    ensures { result ≡ list_all is_scalar (plains args.now) }
{
    for i in 0..args.len() {
        if !is_scalar(args.at(i)) {
            return false;
        }
    }
    true
}

/// The bytes from an offset to the end.
pub(crate) fn tail(alloc: Global, s: &Value, offset: &Value) -> Result<Value, OutOfMemory>
    ensures { IfOk result (λ v. plain v ≡ tail_value (plain s.now) (plain offset.now)) }
{
    match (s, offset) {
        (Value::Str(text), Value::Integer(offset)) => {
            let bytes = text.bytes();
            let start = start_of(bytes.len(), *offset);
            part_of(alloc, bytes, start, bytes.len())
        }
        _ => Ok(Value::Error),
    }
}

/// The bytes from an offset on, so many, or up to so many before the end where the number is below 0.
pub(crate) fn part(
    alloc: Global,
    s: &Value,
    offset: &Value,
    len: &Value,
) -> Result<Value, OutOfMemory>
    ensures { IfOk result
        (λ v. plain v ≡ part_value (plain s.now) (plain offset.now) (plain len.now)) }
{
    match (s, offset, len) {
        (Value::Str(text), Value::Integer(offset), Value::Integer(len)) => {
            let bytes = text.bytes();
            let start = start_of(bytes.len(), *offset);
            part_of(alloc, bytes, start, end_of(bytes.len(), start, *len))
        }
        _ => Ok(Value::Error),
    }
}

// The place that an offset names: from the end where it is below 0, and always within the text.
fn start_of(n: usize, offset: i64) -> usize
    ensures { result ≡ start_of n offset }
{
    if offset < 0 {
        n.saturating_sub(offset.unsigned_abs() as usize)
    } else {
        n.min(offset as usize)
    }
}

// The place behind the last byte.
fn end_of(n: usize, start: usize, len: i64) -> usize
    ensures value { result ≡ end_of n start len }
    ensures within { result ≤ n }
{
    if len < 0 {
        n.saturating_sub(len.unsigned_abs() as usize)
    } else {
        n.min(start.saturating_add(len as usize))
    }
}

// The bytes from a start up to an end, none where the end isn't above the start.
fn part_of(alloc: Global, bytes: &[u8], start: usize, end: usize) -> Result<Value, OutOfMemory>
    requires { end ≤ length bytes.now }
    ensures { IfOk result (λ v. plain v ≡ text (slice_range bytes.now start end)) }
{
    if start < end {
        Ok(Value::Str(Text::from_bytes(alloc, &bytes[start..end])?))
    } else {
        Ok(Value::Str(Text::new(alloc)))
    }
}

/// How two Strings compare by bytes, as -1, 0 or 1.
pub(crate) fn strcmp(a: &Value, b: &Value) -> Value
    ensures { plain result ≡ strcmp_value (plain a.now) (plain b.now) }
{
    match (a, b) {
        (Value::Str(x), Value::Str(y)) => order_number(x.bytes().cmp(y.bytes())),
        _ => Value::Error,
    }
}

/// How two Strings compare after folding, as -1, 0 or 1.
pub(crate) fn stricmp(a: &Value, b: &Value) -> Value
    ensures { plain result ≡ stricmp_value (plain a.now) (plain b.now) }
{
    match (a, b) {
        (Value::Str(x), Value::Str(y)) => order_number(order_folded(x.bytes(), y.bytes())),
        _ => Value::Error,
    }
}

fn order_number(order: Ordering) -> Value
    ensures { plain result ≡ integer (order_number order) }
{
    Value::Integer(match order {
        Ordering::Less => -1,
        Ordering::Equal => 0,
        Ordering::Greater => 1,
    })
}

/// A String with its letters `a` to `z` made capital.
pub(crate) fn to_upper(alloc: Global, s: &Value) -> Result<Value, OutOfMemory>
    ensures { IfOk result
        (λ v. plain v ≡ on_text (λ bytes. text (map to_ascii_uppercase bytes)) (plain s.now)) }
{
    match s {
        Value::Str(text) => {
            let capital = text.bytes().to_ascii_uppercase(alloc)?;
            Ok(Value::Str(Text::from_bytes(alloc, &capital)?))
        }
        _ => Ok(Value::Error),
    }
}

/// A String with its letters `A` to `Z` made small.
pub(crate) fn to_lower(alloc: Global, s: &Value) -> Result<Value, OutOfMemory>
    ensures { IfOk result (λ v. plain v ≡ on_text (λ bytes. text (folded bytes)) (plain s.now)) }
{
    match s {
        Value::Str(text) => {
            let small = text.bytes().to_ascii_lowercase(alloc)?;
            Ok(Value::Str(Text::from_bytes(alloc, &small)?))
        }
        _ => Ok(Value::Error),
    }
}
