//! Lists one after the other.

ghost use Rattle.std.specs.Prelude.{◌≡◌, ◌<◌, ◌≤◌, ◌-◌, ◌^◌, ◌↔◌, ℕ, List, Some, IsSome, IsTrue, IfOk, OnOk, OnErr, ◌∷◌, min, slice_get};
ghost use Rattle.sg_value.specs.Known.{Known, named};
ghost use Rattle.sg_value.specs.Data.{Items, item, list, join, weight_of_all, depth_of_all};
ghost use Rattle.sg_value.specs.Plain.{AllKnownIn, contents, contents_of_all, plain_of_all, Places};
ghost use Rattle.sg_value.specs.declared.limits.TheConstants.{WEIGHT_LIMIT};
ghost use Rattle.sg_rows.specs.Kinds.{as_list};
ghost use Rattle.sg_rows_lists.specs.Concatenations.{concatenated, concatenation_of, left_in};
ghost use Rattle.sg_rows.specs.Replies.{Replies};

use sg_rows::{CallFault, Fault, entries_of, is_heavy};
use sg_value::{Items as Entries, NESTING_LIMIT, Value, depth, try_clone, weight};
use std::alloc::{AllocError, Global};

/// Whether all are lists.
fn are_lists(values: &[Value]) -> bool
    ensures { IsTrue result ↔ IsSome (concatenated (contents_of_all values.now)) }
{
    for value in values {
        if entries_of(value).is_none() {
            return false;
        }
    }
    true
}

/// Whether some value nests too deep.
fn are_deep(values: &[Value]) -> bool
    ensures { IsTrue result ↔ (NESTING_LIMIT < depth_of_all (contents_of_all values.now)) }
{
    for value in values {
        if depth(value) > NESTING_LIMIT {
            return true;
        }
    }
    false
}

/// The weight of all values, or 2^64 - 1 where it is more.
fn total_weight(values: &[Value]) -> u64
    ensures { result ≡ min (weight_of_all (contents_of_all values.now)) (2 ^ 64 - 1) }
{
    let mut total = 0u64;
    for value in values {
        total = total.saturating_add(weight(value));
    }
    total
}

/// Whether a value and all others are lists.
fn are_all_lists(value: &Value, others: &[Value]) -> bool
    ensures { IsTrue result ↔ IsSome (concatenated (item (contents value.now) (contents_of_all others.now))) }
{
    entries_of(value).is_some() && are_lists(others)
}

/// Whether a value or another nests too deep.
fn is_one_deep(value: &Value, others: &[Value]) -> bool
    ensures { IsTrue result ↔ (NESTING_LIMIT < depth_of_all (item (contents value.now) (contents_of_all others.now))) }
{
    depth(value) > NESTING_LIMIT || are_deep(others)
}

/// Whether the entries of all lists are too heavy for one list. Each list weighs 1 more than its entries.
fn are_heavy(value: &Value, others: &[Value]) -> bool
    ensures { (ds : Items Places) → concatenated (item (contents value.now) (contents_of_all others.now)) ≡ Some ds → IsTrue result ↔ (WEIGHT_LIMIT ≤ weight_of_all ds) }
{
    let total = weight(value).saturating_add(total_weight(others));
    is_heavy(total.saturating_sub(others.len() as u64 + 1))
}

/// Puts copies of the entries last.
fn add_copies(alloc: Global, copies: &mut Vec<Value>, entries: &[Value]) -> Result<(), AllocError>
    ensures { OnOk result (contents_of_all copies.new.items ≡ join (contents_of_all copies.old.items) (contents_of_all entries.now)) }
{
    for entry in entries {
        copies.push(try_clone(entry, alloc)?)?;
    }
    Ok(())
}

/// Puts copies of the entries of a list last.
fn add_entries(alloc: Global, copies: &mut Vec<Value>, list: &Value) -> Result<(), AllocError>
    ensures { OnOk result ((xs : Items Places) → as_list (contents list.now) ≡ Some xs → contents_of_all copies.new.items ≡ join (contents_of_all copies.old.items) xs) }
{
    match entries_of(list) {
        Some(entries) => add_copies(alloc, copies, entries),
        None => Ok(()),
    }
}

/// Copies of the entries of all lists.
fn copies_of_all(alloc: Global, lists: &[Value]) -> Result<Vec<Value>, AllocError>
    ensures { IfOk result (λ vs. (ds : Items Places) → concatenated (contents_of_all lists.now) ≡ Some ds → contents_of_all vs.items ≡ ds) }
{
    let mut copies = Vec::new(alloc);
    for list in lists {
        add_entries(alloc, &mut copies, list)?;
    }
    Ok(copies)
}

/// Puts entries behind those of a list.
fn append(alloc: Global, value: &mut Value, more: Vec<Value>) -> Result<(), AllocError>
    ensures ok { OnOk result ((xs : Items Places) → as_list (contents value.old) ≡ Some xs → contents value.new ≡ list (join xs (contents_of_all more.items))) }
    ensures err { OnErr result (contents value.new ≡ contents value.old) }
{
    match value {
        Value::List(entries) => entries.append(alloc, more),
        _ => Ok(()),
    }
}

/// Puts the entries of other lists behind those of a list, in its place, as the command `Concatenation` of them all does.
/// What is there is not copied where nobody else holds the list. What is too deep or too heavy is refused before
/// anything is copied, and after a fault the list is as it was.
pub fn concatenate_onto(alloc: Global, value: &mut Value, others: &[Value]) -> Result<(), CallFault>
    ensures reply { (store : Known) → AllKnownIn (named store) (value.old ∷ others.now) → Replies (left_in value.new result) store (concatenation_of (plain_of_all (named store) (value.old ∷ others.now))) }
    ensures err { OnErr result (contents value.new ≡ contents value.old) }
{
    if !are_all_lists(value, others) {
        return Err(CallFault::Script(Fault::WrongType));
    }
    if is_one_deep(value, others) {
        return Err(CallFault::Script(Fault::Depth));
    }
    if are_heavy(value, others) {
        return Err(CallFault::Script(Fault::TooLarge));
    }
    let more = copies_of_all(alloc, others)?;
    append(alloc, value, more)?;
    Ok(())
}

/// The entries of all lists, one list after the other. What is too deep or too heavy is refused before it is built.
pub fn concatenation_of(alloc: Global, lists: &[Value]) -> Result<Value, CallFault>
    ensures { (store : Known) → AllKnownIn (named store) lists.now → Replies result store (concatenation_of (plain_of_all (named store) lists.now)) }
{
    let Some((first, others)) = lists.split_first() else {
        return Ok(Value::List(Entries::from_vec(alloc, Vec::new(alloc))?));
    };
    let mut value = try_clone(first, alloc)?;
    concatenate_onto(alloc, &mut value, others)?;
    Ok(value)
}
