// Calls of functions by name, and the rules that hold for all of them.
ghost use Rattle.std.specs.Prelude.{◌≡◌, ◌≤◌, List, length, slice_range, IfOk};
ghost use Rattle.std.specs.List.{list_any};
ghost use Rattle.ad_value.specs.Plain.{Plain, plain, plains};
ghost use Rattle.builtin_funcs.specs.Kinds.{is_error, is_undefined};
ghost use Rattle.builtin_funcs.specs.Calls.{call_value, function_value, is_known, strict_arguments};

use crate::function::{Function, function_named};
use crate::kinds::{is_error, is_undefined};
use crate::rows::row;
use ad_value::{Value, Values, bounded};
use pool_text::OutOfMemory;
use std::alloc::Global;

/// Whether a call of this name with so many arguments is one of a function: false where the name is unknown or the
/// function doesn't take so many.
pub fn known(name: &[u8], count: usize) -> bool
    ensures { result ≡ is_known name.now count }
{
    match function_named(name) {
        Some(function) => function.takes(count),
        None => false,
    }
}

/// The value of a call at a moment, in seconds: Error where it isn't `known`.
///
/// Error among the arguments in which the function is strict gives Error, else Undefined among them gives Undefined,
/// else an argument of a kind that the function doesn't take gives Error. A result that weighs more than 65,536 is Error.
/// `ifThenElse` chooses between its values here, and `size` of an Ad is Error: what they demand and what a frame holds
/// is for the caller to know.
pub fn call(alloc: Global, name: &[u8], args: &Values, moment: u64) -> Result<Value, OutOfMemory>
    ensures { IfOk result (λ v. plain v ≡ call_value name.now (plains args.now) moment) }
{
    match function_named(name) {
        Some(function) if function.takes(args.len()) => value_of(alloc, function, args, moment),
        _ => Ok(Value::Error),
    }
}

// The value of the function, by the rules for all functions and then its row.
fn value_of(
    alloc: Global,
    function: Function,
    args: &Values,
    moment: u64,
) -> Result<Value, OutOfMemory>
    ensures { IfOk result (λ v. plain v ≡ function_value function (plains args.now) moment) }
{
    let (first, end) = strict_places(function, args.len());
    if any_error(args, first, end) {
        Ok(Value::Error)
    } else if any_undefined(args, first, end) {
        Ok(Value::Undefined)
    } else {
        Ok(bounded(row(alloc, function, args, moment)?))
    }
}

// The arguments in which the function is strict: from which place, and up to which.
fn strict_places(function: Function, count: usize) -> (usize, usize)
    ensures within { result.1 ≤ count }
    ensures places { (args : List Plain) → length args ≡ count → strict_arguments function args ≡ slice_range args result.0 result.1 }
{
    match function {
        Function::IsUndefined
        | Function::IsError
        | Function::IsString
        | Function::IsInteger
        | Function::IsBoolean
        | Function::IsList
        | Function::IsClassad
        | Function::IfThenElse => (0, 0),
        Function::IdenticalMember => (1, count),
        Function::AnyCompare | Function::AllCompare => (0, count.min(2)),
        _ => (0, count),
    }
}

fn any_error(args: &Values, first: usize, end: usize) -> bool
    requires { end ≤ length (plains args.now) }
    ensures { result ≡ list_any is_error (slice_range (plains args.now) first end) }
{
    for i in first..end {
        if is_error(args.at(i)) {
            return true;
        }
    }
    false
}

fn any_undefined(args: &Values, first: usize, end: usize) -> bool
    requires { end ≤ length (plains args.now) }
    ensures { result ≡ list_any is_undefined (slice_range (plains args.now) first end) }
{
    for i in first..end {
        if is_undefined(args.at(i)) {
            return true;
        }
    }
    false
}
