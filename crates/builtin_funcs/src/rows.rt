// The table of the functions.
ghost use Rattle.std.specs.Prelude.{◌≡◌, pos, IfOk};
ghost use Rattle.ad_value.specs.Limits.{bounded};
ghost use Rattle.ad_value.specs.Plain.{plain, plains};
ghost use Rattle.ad_value.specs.Numbers.{integer_or_error};
ghost use Rattle.builtin_funcs.specs.Rows.{chosen, row_of, row_of_none, row_of_one, row_of_three, row_of_two, size_value};

use crate::function::Function;
use crate::{aggregates, conversions, lists, string_lists, texts};
use ad_value::{Value, Values, copy};
use pool_text::OutOfMemory;
use std::alloc::Global;

/// What the function gives where none of the arguments in which it is strict is Error or Undefined. Where that is too heavy it may
/// be Error already.
pub(crate) fn row(
    alloc: Global,
    function: Function,
    args: &Values,
    moment: u64,
) -> Result<Value, OutOfMemory>
    ensures { IfOk result (λ v. bounded (plain v) ≡ bounded (row_of function (plains args.now) moment)) }
{
    if let Function::Strcat = function {
        return texts::strcat(alloc, args);
    }
    match args.len() {
        0 => Ok(row_of_none(function, moment)),
        1 => row_of_one(alloc, function, args.at(0)),
        2 => row_of_two(alloc, function, args.at(0), args.at(1)),
        3 => row_of_three(alloc, function, args.at(0), args.at(1), args.at(2)),
        _ => Ok(Value::Error),
    }
}

fn row_of_none(function: Function, moment: u64) -> Value
    ensures { plain result ≡ row_of_none function moment }
{
    match function {
        Function::Time => whole(moment),
        _ => Value::Error,
    }
}

fn row_of_one(alloc: Global, function: Function, x: &Value) -> Result<Value, OutOfMemory>
    ensures { IfOk result (λ v. plain v ≡ row_of_one function (plain x.now)) }
{
    Ok(match function {
        Function::IsUndefined => Value::Boolean(matches!(x, Value::Undefined)),
        Function::IsError => Value::Boolean(matches!(x, Value::Error)),
        Function::IsString => Value::Boolean(matches!(x, Value::Str(_))),
        Function::IsInteger => Value::Boolean(matches!(x, Value::Integer(_))),
        Function::IsBoolean => Value::Boolean(matches!(x, Value::Boolean(_))),
        Function::IsList => Value::Boolean(matches!(x, Value::List(_))),
        Function::IsClassad => Value::Boolean(matches!(x, Value::Ad(_))),
        Function::Size => size(x),
        Function::Sum => aggregates::sum(x),
        Function::Min => aggregates::min(x),
        Function::Max => aggregates::max(x),
        Function::ToUpper => texts::to_upper(alloc, x)?,
        Function::ToLower => texts::to_lower(alloc, x)?,
        Function::Int => conversions::int(x),
        Function::String => conversions::string(alloc, x)?,
        Function::Bool => conversions::boolean(x),
        Function::StringListSize => string_lists::size(x, string_lists::USUAL),
        _ => Value::Error,
    })
}

fn row_of_two(alloc: Global, function: Function, x: &Value, y: &Value) -> Result<Value, OutOfMemory>
    ensures { IfOk result (λ v. plain v ≡ row_of_two function (plain x.now) (plain y.now)) }
{
    Ok(match function {
        Function::Member => lists::member(x, y),
        Function::IdenticalMember => lists::identical_member(x, y),
        Function::Substr => texts::tail(alloc, x, y)?,
        Function::Strcmp => texts::strcmp(x, y),
        Function::Stricmp => texts::stricmp(x, y),
        Function::StringListMember => string_lists::member(x, y, string_lists::USUAL),
        Function::StringListSize => match y {
            Value::Str(delimiters) => string_lists::size(x, delimiters.bytes()),
            _ => Value::Error,
        },
        _ => Value::Error,
    })
}

fn row_of_three(
    alloc: Global,
    function: Function,
    x: &Value,
    y: &Value,
    z: &Value,
) -> Result<Value, OutOfMemory>
    ensures { IfOk result
        (λ v. plain v ≡ row_of_three function (plain x.now) (plain y.now) (plain z.now)) }
{
    Ok(match function {
        Function::IfThenElse => chosen(alloc, x, y, z)?,
        Function::AnyCompare => lists::any_compare(x, y, z),
        Function::AllCompare => lists::all_compare(x, y, z),
        Function::Substr => texts::part(alloc, x, y, z)?,
        Function::StringListMember => match z {
            Value::Str(delimiters) => string_lists::member(x, y, delimiters.bytes()),
            _ => Value::Error,
        },
        _ => Value::Error,
    })
}

// The bytes of a String or the elements of a List.
#[tactic(auto, using(crate::proofs::ValueLemmas::list_view))]
fn size(x: &Value) -> Value
    ensures { plain result ≡ size_value (plain x.now) }
{
    match x {
        Value::Str(text) => Value::Integer(text.bytes().len() as i64),
        Value::List(items) => whole(items.len() as u64),
        _ => Value::Error,
    }
}

// A whole number as an Integer.
fn whole(n: u64) -> Value
    ensures { plain result ≡ integer_or_error (pos n) }
{
    match i64::try_from(n) {
        Ok(n) => Value::Integer(n),
        Err(_) => Value::Error,
    }
}

// The value of `c ? a : b`.
fn chosen(alloc: Global, c: &Value, a: &Value, b: &Value) -> Result<Value, OutOfMemory>
    ensures { IfOk result (λ v. plain v ≡ chosen (plain c.now) (plain a.now) (plain b.now)) }
{
    match c {
        Value::Boolean(true) => copy(alloc, a),
        Value::Boolean(false) => copy(alloc, b),
        Value::Undefined => Ok(Value::Undefined),
        _ => Ok(Value::Error),
    }
}
