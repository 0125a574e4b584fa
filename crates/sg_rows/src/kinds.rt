//! Arguments by their kinds.

ghost use Rattle.std.specs.Prelude.{◌≡◌, ℕ, List, Option, Some, None, MatchOption, IfOk};
ghost use Rattle.sg_value.specs.Plain.{contents, contents_of_all};
ghost use Rattle.sg_rows.specs.Kinds.{as_integer, as_integers, as_list, as_semigroup, as_ideal, integers, one, three, list_or_integers, two_integers, three_integers, two_semigroups, two_ideals, semigroup_and_integer, integer_then_semigroup, integer_then_ideal, list_then_semigroup};

use sg_nat::Ints;
use sg_value::{IdealId, SemId, Value};
use std::alloc::{AllocError, Global};

/// The integer, where the value is one.
pub fn integer_of(v: &Value) -> Option<i64>
    ensures { result ≡ as_integer (contents v.now) }
{
    match v {
        Value::Int(z) => Some(*z),
        _ => None,
    }
}

/// The semigroup, where the value is one.
pub fn semigroup_of(v: &Value) -> Option<SemId>
    ensures { result ≡ as_semigroup (contents v.now) }
{
    match v {
        Value::Sem(id) => Some(*id),
        _ => None,
    }
}

/// The ideal, where the value is one.
pub fn ideal_of(v: &Value) -> Option<IdealId>
    ensures { result ≡ as_ideal (contents v.now) }
{
    match v {
        Value::Ideal(id) => Some(*id),
        _ => None,
    }
}

/// The entries, where the value is a list.
pub fn entries_of(v: &Value) -> Option<&[Value]>
    ensures { MatchOption result (as_list (contents v.now) ≡ None) (λ entries. as_list (contents v.now) ≡ Some (contents_of_all entries.now)) }
{
    match v {
        Value::List(entries) => Some(entries.as_slice()),
        _ => None,
    }
}

/// The semigroup and the integer, where one of the two values is a semigroup and the other an integer.
pub fn semigroup_and_integer(a: &Value, b: &Value) -> Option<(SemId, i64)>
    ensures { result ≡ semigroup_and_integer (contents a.now) (contents b.now) }
{
    match (a, b) {
        (Value::Sem(id), Value::Int(z)) | (Value::Int(z), Value::Sem(id)) => Some((*id, *z)),
        _ => None,
    }
}

/// The two integers, where both values are such.
pub fn two_integers(a: &Value, b: &Value) -> Option<(i64, i64)>
    ensures { result ≡ two_integers (contents a.now) (contents b.now) }
{
    Some((integer_of(a)?, integer_of(b)?))
}

/// The two semigroups, where both values are such.
pub fn two_semigroups(a: &Value, b: &Value) -> Option<(SemId, SemId)>
    ensures { result ≡ two_semigroups (contents a.now) (contents b.now) }
{
    Some((semigroup_of(a)?, semigroup_of(b)?))
}

/// The two ideals, where both values are such.
pub fn two_ideals(a: &Value, b: &Value) -> Option<(IdealId, IdealId)>
    ensures { result ≡ two_ideals (contents a.now) (contents b.now) }
{
    Some((ideal_of(a)?, ideal_of(b)?))
}

/// The integer and the semigroup, where the two values are these in this order.
pub fn integer_then_semigroup(a: &Value, b: &Value) -> Option<(i64, SemId)>
    ensures { result ≡ integer_then_semigroup (contents a.now) (contents b.now) }
{
    Some((integer_of(a)?, semigroup_of(b)?))
}

/// The integer and the ideal, where the two values are these in this order.
pub fn integer_then_ideal(a: &Value, b: &Value) -> Option<(i64, IdealId)>
    ensures { result ≡ integer_then_ideal (contents a.now) (contents b.now) }
{
    Some((integer_of(a)?, ideal_of(b)?))
}

/// The integers, where all entries are integers.
fn integers_among(alloc: Global, entries: &[Value]) -> Result<Option<Ints>, AllocError>
    ensures { IfOk result (λ found. found ≡ integers (contents_of_all entries.now)) }
{
    let mut found = Ints::new(alloc);
    for entry in entries {
        let Some(z) = integer_of(entry) else {
            return Ok(None);
        };
        found.push(z)?;
    }
    Ok(Some(found))
}

/// The integers of a list, where the value is a list of integers.
pub fn integers_of(alloc: Global, list: &Value) -> Result<Option<Ints>, AllocError>
    ensures { IfOk result (λ found. found ≡ as_integers (contents list.now)) }
{
    match list {
        Value::List(entries) => integers_among(alloc, entries.as_slice()),
        _ => Ok(None),
    }
}

/// The integers and the semigroup, where the two values are a list of integers and a semigroup.
pub fn list_then_semigroup(
    alloc: Global,
    a: &Value,
    b: &Value,
) -> Result<Option<(Ints, SemId)>, AllocError>
    ensures { IfOk result (λ found. found ≡ list_then_semigroup (contents a.now) (contents b.now)) }
{
    let Some(id) = semigroup_of(b) else {
        return Ok(None);
    };
    match integers_of(alloc, a)? {
        Some(zs) => Ok(Some((zs, id))),
        None => Ok(None),
    }
}

/// The semigroup, where it is the one argument.
#[tactic(auto, using(crate::proofs::KindLemmas::one_none))]
pub fn one_semigroup(args: &[Value]) -> Option<SemId>
    ensures { result ≡ one as_semigroup (contents_of_all args.now) }
{
    if args.len() != 1 {
        return None;
    }
    semigroup_of(&args[0])
}

/// The ideal, where it is the one argument.
#[tactic(auto, using(crate::proofs::KindLemmas::one_none))]
pub fn one_ideal(args: &[Value]) -> Option<IdealId>
    ensures { result ≡ one as_ideal (contents_of_all args.now) }
{
    if args.len() != 1 {
        return None;
    }
    ideal_of(&args[0])
}

/// The entries of the one argument, where it is a list.
#[tactic(auto, using(crate::proofs::KindLemmas::one_none))]
pub fn one_list(args: &[Value]) -> Option<&[Value]>
    ensures { MatchOption result (one as_list (contents_of_all args.now) ≡ None) (λ entries. one as_list (contents_of_all args.now) ≡ Some (contents_of_all entries.now)) }
{
    if args.len() != 1 {
        return None;
    }
    entries_of(&args[0])
}

/// The integers of the one argument, where it is a list of integers.
#[tactic(auto, using(crate::proofs::KindLemmas::one_none))]
pub fn one_list_of_integers(alloc: Global, args: &[Value]) -> Result<Option<Ints>, AllocError>
    ensures { IfOk result (λ found. found ≡ one as_integers (contents_of_all args.now)) }
{
    if args.len() != 1 {
        return Ok(None);
    }
    integers_of(alloc, &args[0])
}

/// The three integers, where the arguments are such.
#[tactic(auto, using(crate::proofs::KindLemmas::three_none))]
pub fn three_integers(args: &[Value]) -> Option<(i64, (i64, i64))>
    ensures { result ≡ three three_integers (contents_of_all args.now) }
{
    if args.len() != 3 {
        return None;
    }
    let (x, y, z) = (
        integer_of(&args[0])?,
        integer_of(&args[1])?,
        integer_of(&args[2])?,
    );
    Some((x, (y, z)))
}

/// The integers of the one list that is given, or the arguments where they are integers.
pub fn list_or_integers(alloc: Global, args: &[Value]) -> Result<Option<Ints>, AllocError>
    ensures { IfOk result (λ found. found ≡ list_or_integers (contents_of_all args.now)) }
{
    match one_list(args) {
        Some(entries) => integers_among(alloc, entries),
        None => integers_among(alloc, args),
    }
}
