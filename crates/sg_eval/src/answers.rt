//! What the forms of the language answer that are no command and no operator of two operands.

ghost use Rattle.std.specs.Int.{w64};
ghost use Rattle.sg_value.specs.Known.{named};
ghost use Rattle.std.specs.Prelude.{◌≡◌, ℕ, List, Option, Some, None, MatchOption, OnOk, IfOk, pos, ◌+ℤ◌, ◌<◌, FitsSigned, ◌-ℤ◌, ◌-◌, ◌^◌, min, ◌++◌, ◌∷◌, [], slice_get};
ghost use Rattle.sg_value.specs.Plain.{AllKnown, AllKnownIn, contents, contents_of_all, plain, plain_of_all};
ghost use Rattle.sg_value.specs.Data.{list, text, truth};
ghost use Rattle.sg_rows.specs.Kinds.{as_list};
ghost use Rattle.sg_meaning.specs.Queries.{lists, negates, indexes, spans, span_count};
ghost use Rattle.sg_meaning.specs.Expressions.{ask, decided, listed};
ghost use Rattle.sg_meaning.specs.Process.{gives};
ghost use Rattle.sg_eval.specs.Truths.{itself, no_semigroup};
ghost use Rattle.sg_meaning.specs.Entries.{entry_at, as_natural, integers_from};
ghost use Rattle.sg_eval.specs.Ranges.{IsRange, list_of_range, is_range, ranged, entries_in, are_known};
ghost use Rattle.sg_eval.specs.State.{State};
ghost use Rattle.sg_eval.specs.Outcomes.{Evaluates, plain_items, known_items};

use crate::kinds::{into_entries, truth_of};
use crate::sequence::{Range, Sequence};
use sg_calls::{CallFault, Fault, negate};
use sg_nat::Bytes;
use sg_rows::{entries_of, integer_of};
use sg_value::{Items, NESTING_LIMIT, Value, WEIGHT_LIMIT, depth, try_clone, weight};
use std::alloc::{AllocError, Global};
use std::rc::Rc;

/// The text of these bytes.
pub fn text_of(alloc: Global, bytes: &Bytes) -> Result<Value, AllocError>
    ensures { IfOk result (λ v. contents v ≡ text bytes.now) }
{
    Ok(Value::Text(Rc::new(alloc, bytes.try_clone()?)?))
}

/// The list of these entries, within the limits.
pub fn list_of(alloc: Global, values: Vec<Value>) -> Result<Value, CallFault>
    ensures { (s : State) → AllKnownIn (named s.names) values.items → Evaluates plain AllKnown result s s (λ names. ask (lists (plain_of_all names values.items))) }
{
    let list = Value::List(Items::from_vec(alloc, values)?);
    if depth(&list) > NESTING_LIMIT {
        return Err(CallFault::Script(Fault::Depth));
    }
    if weight(&list) > WEIGHT_LIMIT {
        return Err(CallFault::Script(Fault::TooLarge));
    }
    Ok(list)
}

/// The value with the other sign.
pub fn other_sign(v: &Value) -> Result<Value, CallFault>
    ensures { (s : State) → AllKnown (named s.names) v.now → Evaluates plain AllKnown result s s (λ names. ask (negates (plain names v.now))) }
{
    negate(v)
}

/// The truth value, or that it is none.
pub fn decide(v: &Value) -> Result<bool, CallFault>
    ensures { (s : State) → Evaluates itself no_semigroup result s s (λ names. decided (plain names v.now) (λ b. gives b)) }
{
    match truth_of(v) {
        Some(b) => Ok(b),
        None => Err(CallFault::Script(Fault::WrongType)),
    }
}

/// The entries of a list.
pub fn entries(v: Value) -> Result<Items, CallFault>
    ensures { (s : State) → AllKnown (named s.names) v → Evaluates plain_items known_items result s s (λ names. listed (as_list (plain names v)) (λ ds. gives ds)) }
{
    match into_entries(v) {
        Some(entries) => Ok(entries),
        None => Err(CallFault::Script(Fault::WrongType)),
    }
}

/// The natural number, where it is one.
fn natural_of(z: i64) -> Option<u64>
    ensures { result ≡ as_natural z }
{
    if z < 0 {
        return None;
    }
    Some(z as u64)
}

/// The entry at a place, counted from 1 on.
fn entry_at(entries: &[Value], place: u64) -> Option<&Value>
    ensures { MatchOption result (entry_at (contents_of_all entries.now) place ≡ None) (λ v. entry_at (contents_of_all entries.now) place ≡ Some (contents v.now)) }
{
    if place == 0 {
        return None;
    }
    let index = (place - 1) as usize;
    if index >= entries.len() {
        return None;
    }
    Some(&entries[index])
}

/// The entry of a list at a place.
pub fn index(alloc: Global, list: &Value, place: &Value) -> Result<Value, CallFault>
    ensures { (s : State) → AllKnown (named s.names) list.now → Evaluates plain AllKnown result s s (λ names. ask (indexes (plain names list.now) (plain names place.now))) }
{
    let Some(entries) = entries_of(list) else {
        return Err(CallFault::Script(Fault::WrongType));
    };
    let Some(z) = integer_of(place) else {
        return Err(CallFault::Script(Fault::WrongType));
    };
    let Some(n) = natural_of(z) else {
        return Err(CallFault::Script(Fault::IndexOut));
    };
    match entry_at(entries, n) {
        Some(entry) => Ok(try_clone(entry, alloc)?),
        None => Err(CallFault::Script(Fault::IndexOut)),
    }
}

/// Puts a value behind the others.
#[inline(always)]
pub fn put(values: &mut Vec<Value>, value: Value) -> Result<(), AllocError>
    ensures { OnOk result (values.new.items ≡ values.old.items ++ value ∷ []) }
{
    values.push(value)?;
    Ok(())
}

/// The integers from the first to the second, within the limits.
fn range_between(low: &Value, high: &Value) -> Result<Range, CallFault>
    ensures within { IfOk result IsRange }
    ensures asked { (s : State) → Evaluates list_of_range is_range result s s (λ names. ask (spans (plain names low.now) (plain names high.now))) }
{
    let Some(first) = integer_of(low) else {
        return Err(CallFault::Script(Fault::WrongType));
    };
    let Some(last) = integer_of(high) else {
        return Err(CallFault::Script(Fault::WrongType));
    };
    let count = count_between(first, last);
    if count >= WEIGHT_LIMIT {
        return Err(CallFault::Script(Fault::TooLarge));
    }
    Ok(Range { first, count })
}

/// The list of the integers from the first to the second, within the limits.
pub fn span(alloc: Global, low: &Value, high: &Value) -> Result<Value, CallFault>
    ensures { (s : State) → Evaluates plain AllKnown result s s (λ names. ask (spans (plain names low.now) (plain names high.now))) }
{
    let range = range_between(low, high)?;
    let integers = integers_from(alloc, range.first, range.count)?;
    Ok(Value::List(Items::from_vec(alloc, integers)?))
}

/// The same integers, as what a loop goes over.
pub fn range(low: &Value, high: &Value) -> Result<Sequence, CallFault>
    ensures { (s : State) → Evaluates entries_in are_known result s s (λ names. ranged (plain names low.now) (plain names high.now)) }
{
    Ok(Sequence::Counted(range_between(low, high)?))
}

/// How many integers there are from the first to the last, 2^64 - 1 where there are more.
fn count_between(first: i64, last: i64) -> u64
    ensures { result ≡ min (span_count (last -ℤ first)) (2 ^ 64 - 1) }
{
    if last < first {
        return 0;
    }
    last.abs_diff(first).saturating_add(1)
}

/// So many integers from the first on.
fn integers_from(alloc: Global, first: i64, count: u64) -> Result<Vec<Value>, AllocError>
    requires within { (i : ℕ) → i < count → FitsSigned w64 (first +ℤ pos i) }
    requires small { count < WEIGHT_LIMIT }
    ensures { IfOk result (λ vs. contents_of_all vs.items ≡ integers_from first count) }
{
    let mut values = Vec::with_capacity(alloc, count as usize)?;
    for i in 0..count {
        put(&mut values, Value::Int(first + i as i64))?;
    }
    Ok(values)
}
