// The rows for lists of numbers: `sum`, `min` and `max`.
ghost use Rattle.std.specs.Prelude.{◌≡◌, ◌-◌, ◌^◌, ◌≤◌, ◌+ℤ◌, ◌*ℤ◌, List, ℤ, false, pos, true, unsigned_abs, unwrap_or};
ghost use Rattle.std.specs.List.{list_all, list_any};
ghost use Rattle.std.specs.Int.{int_max, int_min};
ghost use Rattle.std.specs.Option.{option_map_or};
ghost use Rattle.ad_value.specs.Plain.{Plain, plain, plains, undefined};
ghost use Rattle.ad_value.specs.Numbers.{decimal_or_error, million};
ghost use Rattle.builtin_funcs.specs.Aggregates.{aggregate, amount_of, greatest, least, may_be_number, on_list, row_in, total, value_in, with_number};
ghost use Rattle.builtin_funcs.specs.Kinds.{is_decimal, is_undefined};

use crate::kinds::{is_decimal, is_undefined};
use ad_value::{MILLION, Number, Value, Values};

/// The whole sum of the numbers of a list.
#[tactic(auto, using(crate::proofs::ValueLemmas::list_view))]
pub(crate) fn sum(list: &Value) -> Value
    ensures { plain result ≡ on_list (aggregate total) (plain list.now) }
{
    match list {
        Value::List(items) => sum_of(items),
        _ => Value::Error,
    }
}

/// The least of the numbers of a list.
#[tactic(auto, using(crate::proofs::ValueLemmas::list_view))]
pub(crate) fn min(list: &Value) -> Value
    ensures { plain result ≡ on_list (aggregate least) (plain list.now) }
{
    match list {
        Value::List(items) => min_of(items),
        _ => Value::Error,
    }
}

/// The greatest of the numbers of a list.
#[tactic(auto, using(crate::proofs::ValueLemmas::list_view))]
pub(crate) fn max(list: &Value) -> Value
    ensures { plain result ≡ on_list (aggregate greatest) (plain list.now) }
{
    match list {
        Value::List(items) => max_of(items),
        _ => Value::Error,
    }
}

fn sum_of(items: &Values) -> Value
    ensures { plain result ≡ aggregate total (plains items.now) }
{
    match without_numbers(items) {
        Some(value) => value,
        None => total_in(items, any_decimal(items)),
    }
}

fn min_of(items: &Values) -> Value
    ensures { plain result ≡ aggregate least (plains items.now) }
{
    match without_numbers(items) {
        Some(value) => value,
        None => least(items, any_decimal(items)),
    }
}

fn max_of(items: &Values) -> Value
    ensures { plain result ≡ aggregate greatest (plains items.now) }
{
    match without_numbers(items) {
        Some(value) => value,
        None => greatest(items, any_decimal(items)),
    }
}

// What stands in the place of the row: Error where an element is no number, else Undefined where one is Undefined.
fn without_numbers(items: &Values) -> Option<Value>
    ensures { (row : (ℤ → Plain) → List ℤ → Plain)
        → aggregate row (plains items.now) ≡ option_map_or plain result (row_in row (list_any is_decimal (plains items.now)) (plains items.now)) }
{
    if !all_may_be_numbers(items) {
        Some(Value::Error)
    } else if any_undefined(items) {
        Some(Value::Undefined)
    } else {
        None
    }
}

fn all_may_be_numbers(items: &Values) -> bool
    ensures { result ≡ list_all may_be_number (plains items.now) }
{
    for i in 0..items.len() {
        if !may_be_number(items.at(i)) {
            return false;
        }
    }
    true
}

fn may_be_number(value: &Value) -> bool
    ensures { result ≡ may_be_number (plain value.now) }
{
    matches!(
        value,
        Value::Undefined | Value::Integer(_) | Value::Decimal(_) | Value::Boolean(_)
    )
}

fn any_undefined(items: &Values) -> bool
    ensures { result ≡ list_any is_undefined (plains items.now) }
{
    for i in 0..items.len() {
        if is_undefined(items.at(i)) {
            return true;
        }
    }
    false
}

fn any_decimal(items: &Values) -> bool
    ensures { result ≡ list_any is_decimal (plains items.now) }
{
    for i in 0..items.len() {
        if is_decimal(items.at(i)) {
            return true;
        }
    }
    false
}

// The sum of the numbers, in millionths where there are Decimals.
fn total_in(items: &Values, decimals: bool) -> Value
    ensures { plain result ≡ row_in total decimals (plains items.now) }
{
    if decimals {
        total_of_decimals(items)
    } else {
        total(items)
    }
}

fn total(items: &Values) -> Value
    ensures { plain result ≡ row_in total false (plains items.now) }
{
    let mut sum: i128 = 0;
    for i in 0..items.len() {
        sum += i128::from(whole_part(items.at(i)));
    }
    value_in(sum, false)
}

// Whole numbers and millionths are added apart, since a sum of many whole numbers in millionths may be out of 128 bits.
fn total_of_decimals(items: &Values) -> Value
    ensures { plain result ≡ row_in total true (plains items.now) }
{
    let mut whole: i128 = 0;
    let mut millionths: i128 = 0;
    for i in 0..items.len() {
        let parts = parts(items.at(i));
        whole += i128::from(parts.0);
        millionths += i128::from(parts.1);
    }
    joined(whole, millionths)
}

// Whole numbers and millionths together. Where they are out of 128 bits they are out of 64.
fn joined(whole: i128, millionths: i128) -> Value
    requires { unsigned_abs millionths ≤ 2 ^ 127 - 2 ^ 63 }
    ensures { plain result ≡ decimal_or_error (whole *ℤ million +ℤ millionths) }
{
    let Some(scaled) = whole.checked_mul(MILLION) else {
        return Value::Error;
    };
    match scaled.checked_add(millionths) {
        Some(sum) => value_in(sum, true),
        None => Value::Error,
    }
}

// The whole number that a value adds to a sum: 0 where it is no number.
fn whole_part(value: &Value) -> i64
    ensures { result ≡ unwrap_or (amount_of false (plain value.now)) (pos 0) }
{
    match Number::of(value) {
        Some(number) => number.whole_part(),
        None => 0,
    }
}

// The whole number and the millionths that a value adds to a sum, of which one is 0.
fn parts(value: &Value) -> (i64, i64)
    ensures { result.0 *ℤ million +ℤ result.1 ≡ unwrap_or (amount_of true (plain value.now)) (pos 0) }
{
    match Number::of(value) {
        Some(Number::Whole(n)) => (n, 0),
        Some(Number::Millionths(millionths)) => (0, millionths),
        None => (0, 0),
    }
}

fn least(items: &Values, decimals: bool) -> Value
    ensures { plain result ≡ row_in least decimals (plains items.now) }
{
    let mut least = None;
    for i in 0..items.len() {
        least = lesser(least, amount(items.at(i), decimals));
    }
    value_or_undefined(least, decimals)
}

fn greatest(items: &Values, decimals: bool) -> Value
    ensures { plain result ≡ row_in greatest decimals (plains items.now) }
{
    let mut greatest = None;
    for i in 0..items.len() {
        greatest = greater(greatest, amount(items.at(i), decimals));
    }
    value_or_undefined(greatest, decimals)
}

// The number of a value: in millionths where there are Decimals, and else whole.
fn amount(value: &Value, decimals: bool) -> Option<i128>
    ensures { result ≡ amount_of decimals (plain value.now) }
{
    let number = Number::of(value)?;
    if decimals {
        Some(number.in_millionths())
    } else {
        Some(i128::from(number.whole_part()))
    }
}

fn value_or_undefined(number: Option<i128>, decimals: bool) -> Value
    ensures { plain result ≡ option_map_or (value_in decimals) number undefined }
{
    match number {
        Some(n) => value_in(n, decimals),
        None => Value::Undefined,
    }
}

// A whole number as an Integer, or millionths as a Decimal: Error where it is out of 64 bits.
fn value_in(number: i128, decimals: bool) -> Value
    ensures { plain result ≡ value_in decimals number }
{
    match (i64::try_from(number), decimals) {
        (Ok(millionths), true) => Value::Decimal(millionths),
        (Ok(n), false) => Value::Integer(n),
        (Err(_), _) => Value::Error,
    }
}

// The lesser of two numbers, of which there may be one or none.
fn lesser(least: Option<i128>, number: Option<i128>) -> Option<i128>
    ensures { result ≡ with_number int_min least number }
{
    match (least, number) {
        (Some(m), Some(n)) => Some(if n < m { n } else { m }),
        (None, number) => number,
        (least, None) => least,
    }
}

// The greater of two numbers, of which there may be one or none.
fn greater(greatest: Option<i128>, number: Option<i128>) -> Option<i128>
    ensures { result ≡ with_number int_max greatest number }
{
    match (greatest, number) {
        (Some(m), Some(n)) => Some(if n < m { m } else { n }),
        (None, number) => number,
        (greatest, None) => greatest,
    }
}
