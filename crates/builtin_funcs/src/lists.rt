// The rows that look through a list: `member`, `identicalMember`, `anyCompare` and `allCompare`.
ghost use Rattle.std.specs.Prelude.{◌≡◌, map};
ghost use Rattle.std.specs.List.{list_all, list_any};
ghost use Rattle.std.specs.Option.{option_map_or};
ghost use Rattle.ad_value.specs.Plain.{boolean, error, plain, plains};
ghost use Rattle.ad_value.specs.Operators.{is_same};
ghost use Rattle.builtin_funcs.specs.Lists.{all_compare_value, any_compare_value, comparison_in, comparison_named, compares, identical_member_value};
ghost use Rattle.builtin_funcs.specs.Lists.{member_value};

use crate::kinds::{is_scalar, is_true};
use ad_value::{Value, Values, binary, same};
use pool_text::BinOp;

/// Whether `x == e` is true for some element e of the list.
#[tactic(auto, using(crate::proofs::ValueLemmas::list_view))]
pub(crate) fn member(x: &Value, list: &Value) -> Value
    ensures { plain result ≡ member_value (plain x.now) (plain list.now) }
{
    match list {
        Value::List(items) if is_scalar(x) => Value::Boolean(any_equal(x, items)),
        _ => Value::Error,
    }
}

/// Whether `x is e` is true for some element e of the list.
#[tactic(auto, using(crate::proofs::ValueLemmas::list_view))]
pub(crate) fn identical_member(x: &Value, list: &Value) -> Value
    ensures { plain result ≡ identical_member_value (plain x.now) (plain list.now) }
{
    match list {
        Value::List(items) => Value::Boolean(any_same(x, items)),
        _ => Value::Error,
    }
}

/// Whether `e op x` is true for some element e of the list.
#[tactic(auto, using(crate::proofs::ValueLemmas::list_view))]
pub(crate) fn any_compare(op: &Value, list: &Value, x: &Value) -> Value
    ensures { plain result ≡ any_compare_value (plain op.now) (plain list.now) (plain x.now) }
{
    match (op, list) {
        (Value::Str(spelling), Value::List(items)) => any_by_spelling(spelling.bytes(), items, x),
        _ => Value::Error,
    }
}

/// Whether `e op x` is true for every element e of the list.
#[tactic(auto, using(crate::proofs::ValueLemmas::list_view))]
pub(crate) fn all_compare(op: &Value, list: &Value, x: &Value) -> Value
    ensures { plain result ≡ all_compare_value (plain op.now) (plain list.now) (plain x.now) }
{
    match (op, list) {
        (Value::Str(spelling), Value::List(items)) => all_by_spelling(spelling.bytes(), items, x),
        _ => Value::Error,
    }
}

fn any_by_spelling(spelling: &[u8], items: &Values, x: &Value) -> Value
    ensures { plain result
        ≡ option_map_or (λ op. boolean (list_any (λ e. compares op e (plain x.now)) (plains items.now)))
        (comparison_named spelling.now) error }
{
    match comparison_named(spelling) {
        Some(op) => Value::Boolean(any_compares(op, items, x)),
        None => Value::Error,
    }
}

fn all_by_spelling(spelling: &[u8], items: &Values, x: &Value) -> Value
    ensures { plain result
        ≡ option_map_or (λ op. boolean (list_all (λ e. compares op e (plain x.now)) (plains items.now)))
        (comparison_named spelling.now) error }
{
    match comparison_named(spelling) {
        Some(op) => Value::Boolean(all_compare_with(op, items, x)),
        None => Value::Error,
    }
}

// The operators by their spellings.
const COMPARISONS: [(&[u8], BinOp); 10] = [
    (b"<", BinOp::Less),
    (b"<=", BinOp::AtMost),
    (b"==", BinOp::Equal),
    (b"!=", BinOp::Unequal),
    (b">=", BinOp::AtLeast),
    (b">", BinOp::Greater),
    (b"is", BinOp::Same),
    (b"isnt", BinOp::NotSame),
    (b"=?=", BinOp::Same),
    (b"=!=", BinOp::NotSame),
];

// The operator that is spelled so.
fn comparison_named(spelling: &[u8]) -> Option<BinOp>
    ensures { result ≡ comparison_named spelling.now }
{
    comparison_in(&COMPARISONS, spelling)
}

// The first operator of the table that is spelled so.
fn comparison_in(mut table: &[(&[u8], BinOp)], spelling: &[u8]) -> Option<BinOp>
    ensures { result ≡ comparison_in (map (λ k. (k.0.now, k.1)) table.entry.now) spelling.now }
{
    while let [entry, rest @ ..] = table {
        if entry.0 == spelling {
            return Some(entry.1);
        }
        table = rest;
    }
    None
}

fn compares(op: BinOp, a: &Value, b: &Value) -> bool
    ensures { result ≡ compares op (plain a.now) (plain b.now) }
{
    is_true(&binary(op, a, b))
}

fn any_equal(x: &Value, items: &Values) -> bool
    ensures { result ≡ list_any (compares BinOp.Equal (plain x.now)) (plains items.now) }
{
    for i in 0..items.len() {
        if compares(BinOp::Equal, x, items.at(i)) {
            return true;
        }
    }
    false
}

fn any_same(x: &Value, items: &Values) -> bool
    ensures { result ≡ list_any (is_same (plain x.now)) (plains items.now) }
{
    for i in 0..items.len() {
        if same(x, items.at(i)) {
            return true;
        }
    }
    false
}

fn any_compares(op: BinOp, items: &Values, x: &Value) -> bool
    ensures { result ≡ list_any (λ e. compares op e (plain x.now)) (plains items.now) }
{
    for i in 0..items.len() {
        if compares(op, items.at(i), x) {
            return true;
        }
    }
    false
}

fn all_compare_with(op: BinOp, items: &Values, x: &Value) -> bool
    ensures { result ≡ list_all (λ e. compares op e (plain x.now)) (plains items.now) }
{
    for i in 0..items.len() {
        if !compares(op, items.at(i), x) {
            return false;
        }
    }
    true
}
